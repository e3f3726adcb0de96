//! Bytes that are appended to a vector and to a buffer, all of a text or its first ones; texts, however they are held;
//! bytes put into a text before a place.

use crate::report::joined;
use crate::shows::shows;
use m4_state::append::append;
use m4_state::bytes::Bytes;
use m4_state::text_buffer::TextBuffer;
use std::alloc::{AllocError, Global};

// A row's name, a text, how many of its bytes are appended, and what is then after `<`.
type Row = (&'static str, &'static str, usize, &'static str);

static ROWS: [Row; 8] = rows! {
    "nothing of nothing", "", 0 => "<";
    "one byte", "a", 1 => "<a";
    "two bytes of three", "abc", 2 => "<ab";
    "no byte of sixteen", "abcdefghijklmnop", 0 => "<";
    "some of sixteen", "abcdefghijklmnop", 3 => "<abc";
    "all of sixteen", "abcdefghijklmnop", 16 => "<abcdefghijklmnop";
    "seventeen of twenty", "abcdefghijklmnopqrst", 17 => "<abcdefghijklmnopq";
    "fifteen of fifteen", "abcdefghijklmno", 15 => "<abcdefghijklmno";
};

// Appends the first bytes of a text, as a text of their own.
fn with_text(alloc: Global, text: &[u8], len: usize) -> Result<Vec<u8>, AllocError> {
    let mut out = Vec::from_slice(alloc, b"<")?;
    append(&mut out, text.split_at(len.min(text.len())).0)?;
    Ok(out)
}

// Appends the first bytes of a text to a buffer.
fn with_buffer(alloc: Global, text: &[u8], len: usize) -> Result<Vec<u8>, AllocError> {
    let mut out = TextBuffer::new(alloc);
    out.push(b'<')?;
    out.append_front(text, len.min(text.len()))?;
    Ok(out.take())
}

// The ways in which a text comes to be held.
#[derive(Clone, Copy)]
enum Way {
    Copied,
    Moved,
    MovedToShare,
    Taken,
    Shared,
    SharedSlice,
    SharedFromItsOwn,
    CopiedOver,
    CopiedOverItsOwn,
    CopiedOverShared,
    Set,
    SetOverShared,
    Part,
}

static WAYS: [Way; 13] = [
    Way::Copied,
    Way::Moved,
    Way::MovedToShare,
    Way::Taken,
    Way::Shared,
    Way::SharedSlice,
    Way::SharedFromItsOwn,
    Way::CopiedOver,
    Way::CopiedOverItsOwn,
    Way::CopiedOverShared,
    Way::Set,
    Way::SetOverShared,
    Way::Part,
];

// Texts of no byte, of one, of as many as are held in place, of one more, and of many.
static TEXTS: [&str; 5] = [
    "",
    "x",
    "abcdefghijklmnopqrstuvwxyz0123",
    "abcdefghijklmnopqrstuvwxyz01234",
    "the quick brown fox jumps over the lazy dog, and so on and on\x00",
];

// Returns the middle of a text, all but its first and last byte.
fn middle(alloc: Global, text: &[u8]) -> Result<Bytes, AllocError> {
    let whole = Bytes::from_vec(joined(alloc, &[b"<", text, b">"])?)?;
    let len = whole.as_slice().len();
    if len < 2 {
        return Ok(Bytes::empty());
    }
    whole.part(1, len - 2)
}

// Shares a text, or copies it where it is in no slice that others may share.
fn shared_or_copied(text: Bytes) -> Result<Bytes, AllocError> {
    match text.shared()? {
        Some(shared) => Ok(shared),
        None => text.share(),
    }
}

// Copies the text of a buffer over another one.
fn copied_over(alloc: Global, mut text: Bytes, bytes: &[u8]) -> Result<Bytes, AllocError> {
    let mut buffer = TextBuffer::new(alloc);
    buffer.append(bytes)?;
    text.copy_text(&buffer)?;
    Ok(text)
}

// Sets one text to another.
fn set_to(mut text: Bytes, other: &Bytes) -> Result<Bytes, AllocError> {
    text.set(other)?;
    Ok(text)
}

// Returns a text that is held in a way.
fn held(alloc: Global, text: &[u8], way: Way) -> Result<Bytes, AllocError> {
    let buffer = Vec::from_slice(alloc, text)?;
    match way {
        Way::Copied => Bytes::from_slice(alloc, text),
        Way::Moved => Ok(Bytes::from(buffer)),
        Way::MovedToShare => Bytes::from_vec(buffer),
        Way::Taken => Ok(Bytes::take_from(&mut TextBuffer::from(buffer))),
        Way::Shared => Bytes::from_vec(buffer)?.share(),
        Way::SharedSlice => shared_or_copied(Bytes::from_vec(buffer)?),
        Way::SharedFromItsOwn => shared_or_copied(Bytes::from(buffer)),
        Way::CopiedOver => copied_over(alloc, Bytes::empty(), text),
        Way::CopiedOverItsOwn => copied_over(alloc, Bytes::from(buffer), text),
        Way::CopiedOverShared => copied_over(
            alloc,
            Bytes::from_slice(alloc, LONG.as_bytes())?,
            text,
        ),
        Way::Set => set_to(Bytes::empty(), &Bytes::from_vec(buffer)?),
        Way::SetOverShared => set_to(
            Bytes::from_slice(alloc, LONG.as_bytes())?,
            &Bytes::from_vec(buffer)?,
        ),
        Way::Part => middle(alloc, text),
    }
}

// Returns the bytes of a text that is held in a way.
fn bytes_held(alloc: Global, text: &[u8], way: Way) -> Result<Vec<u8>, AllocError> {
    Vec::from_slice(alloc, held(alloc, text, way)?.as_slice())
}

// Appends a text that is held in a way to a buffer that has no memory, and then to one that has.
fn buffered(alloc: Global, text: &[u8], way: Way) -> Result<Vec<u8>, AllocError> {
    let text = held(alloc, text, way)?;
    let mut out = TextBuffer::new(alloc);
    out.append_bytes(&text)?;
    out.clear();
    out.append_bytes(&text)?;
    Ok(out.take())
}

// A row's name, a text, how it is held, a place, the bytes that are put before it, and whether they were, with the text
// after that.
type PutRow = (
    &'static str,
    &'static str,
    Way,
    usize,
    &'static str,
    &'static str,
);

// A text of one byte more than is held in place.
const LONG: &str = "abcdefghijklmnopqrstuvwxyz01234";

static PUTS: [PutRow; 8] = rows! {
    "one byte", "abcd", Way::Copied, 2, "x" => "put axcd";
    "from the first on", "abcd", Way::Copied, 3, "xyz" => "put xyzd";
    "at the end", "abcd", Way::Shared, 4, "xy" => "put abxy";
    "more than are there", "abcd", Way::Copied, 2, "xyz" => "left abcd";
    "no byte", "abcd", Way::Copied, 0, "" => "put abcd";
    "in a buffer of the text's own", LONG, Way::Taken, 31, "xyz" => "put abcdefghijklmnopqrstuvwxyz01xyz";
    "in a buffer, more than are there", LONG, Way::Moved, 1, "xy" => "left abcdefghijklmnopqrstuvwxyz01234";
    "in a slice that others may share", LONG, Way::Shared, 31, "xyz" => "left abcdefghijklmnopqrstuvwxyz01234";
};

// Puts bytes before a place of a text.
fn put(alloc: Global, row: &PutRow) -> Result<Vec<u8>, AllocError> {
    let mut text = held(alloc, row.1.as_bytes(), row.2)?;
    let at = row.3.min(text.as_slice().len());
    if text.overwrite_before(at, row.4.as_bytes()) {
        joined(alloc, &[b"put ", text.as_slice()])
    } else {
        joined(alloc, &[b"left ", text.as_slice()])
    }
}

#[test]
fn bytes_are_put_before_a_place(rt: HostRuntime) {
    for row in &PUTS {
        shows(&rt, row.0, row.5.as_bytes(), put(rt.alloc(), row));
    }
}

#[test]
fn first_bytes_are_appended(rt: HostRuntime) {
    for &(name, text, len, want) in &ROWS {
        let (text, want) = (text.as_bytes(), want.as_bytes());
        shows(&rt, name, want, with_text(rt.alloc(), text, len));
        shows(&rt, name, want, with_buffer(rt.alloc(), text, len));
    }
}

#[test]
fn texts_are_the_same_however_they_are_held(rt: HostRuntime) {
    for &text in &TEXTS {
        for &way in &WAYS {
            let bytes = text.as_bytes();
            shows(&rt, text, bytes, bytes_held(rt.alloc(), bytes, way));
            shows(&rt, text, bytes, buffered(rt.alloc(), bytes, way));
        }
    }
}
