//! The bytes before the next one of a kind, sixteen looked at together.

use crate::shows::shows;
use m4_state::lanes::{LANES, len_before};
use std::alloc::{AllocError, Global};

// A row's name, a text, the place from which it is looked at, and the bytes that come before a dollar.
type Row = (&'static str, &'static [u8], usize, &'static [u8]);

static ROWS: [Row; 8] = rows! {
    "no dollar", b"abcdefghijklmnop", 0 => b"abcdefghijklmnop";
    "a dollar first", b"$bcdefghijklmnop", 0 => b"";
    "a dollar last", b"abcdefghijklmno$", 0 => b"abcdefghijklmno";
    "two dollars", b"abc$efg$ijklmnop", 0 => b"abc";
    "a dollar before the place", b"$bcdefghijklmnopq", 1 => b"bcdefghijklmnopq";
    "a dollar at the place", b"abc$efghijklmnopqrs", 3 => b"";
    "a dollar after sixteen", b"abcdefghijklmnop$", 0 => b"abcdefghijklmnop";
    "bytes near a dollar", b"#%#%#%#%\xa4\x00\xff$#%#%", 0 => b"#%#%#%#%\xa4\x00\xff";
};

// Returns the bytes before the next dollar.
fn before_dollar(alloc: Global, text: &[u8], at: usize) -> Result<Vec<u8>, AllocError> {
    let rest = text.split_at(at.min(text.len())).1;
    if rest.len() < LANES {
        return Vec::from_slice(alloc, b"a row with too few bytes");
    }
    let len = len_before(b'$', text, at.min(text.len()));
    Vec::from_slice(alloc, rest.split_at(len).0)
}

#[test]
fn bytes_before_a_dollar_are_counted(rt: HostRuntime) {
    for &(name, text, at, want) in &ROWS {
        shows(&rt, name, want, before_dollar(rt.alloc(), text, at));
    }
}
