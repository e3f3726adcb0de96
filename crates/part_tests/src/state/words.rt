//! Whether two byte strings are equal, compared by words of eight bytes.

use crate::shows::shows;
use m4_state::words::are_equal;
use std::alloc::{AllocError, Global};
use std::process::Abort;

// A row's name, two byte strings, and what is said of them.
type Row = (&'static str, &'static [u8], &'static [u8], &'static [u8]);

static FEW: [Row; 7] = rows! {
    "nothing", b"", b"" => b"equal";
    "nothing and something", b"", b"a" => b"other";
    "one byte", b"\x00", b"\x00" => b"equal";
    "one other byte", b"\x00", b"\xff" => b"other";
    "seven bytes", b"abcdefg", b"abcdefg" => b"equal";
    "another last of seven", b"abcdefg", b"abcdefh" => b"other";
    "a beginning", b"abcdefg", b"abcdef" => b"other";
};

static WORDS: [Row; 9] = rows! {
    "a word", b"abcdefgh", b"abcdefgh" => b"equal";
    "another first of a word", b"abcdefgh", b"xbcdefgh" => b"other";
    "another last of a word", b"abcdefgh", b"abcdefgx" => b"other";
    "nine bytes", b"abcdefghi", b"abcdefghi" => b"equal";
    "another last of nine", b"abcdefghi", b"abcdefghx" => b"other";
    "two words", b"abcdefghijklmnop", b"abcdefghijklmnop" => b"equal";
    "another in the first of two", b"abcdefghijklmnop", b"abcdefgxijklmnop" => b"other";
    "another in the last of three", b"abcdefghijklmnopqrs", b"abcdefghijklmnopqxs" => b"other";
    "a longer one", b"abcdefghijklmnop", b"abcdefghijklmnopq" => b"other";
};

// Returns what is said of two byte strings.
fn said(alloc: Global, a: &[u8], b: &[u8]) -> Result<Vec<u8>, AllocError> {
    let text: &[u8] = if are_equal(a, b) { b"equal" } else { b"other" };
    Vec::from_slice(alloc, text)
}

// Compares what is said of each row.
fn compare(rt: &impl Abort, alloc: Global, rows: &[Row]) {
    for &(name, a, b, want) in rows {
        shows(rt, name, want, said(alloc, a, b));
    }
}

#[test]
fn bytes_are_equal_or_not(rt: HostRuntime) {
    compare(&rt, rt.alloc(), &FEW);
    compare(&rt, rt.alloc(), &WORDS);
}
