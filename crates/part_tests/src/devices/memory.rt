//! A reader and a writer over memory, for different numbers of bytes at a time.

use super::take_all;
use crate::report::{Report, joined, repeated};
use crate::shows::{Way, agrees, shows};
use m4_state::device::{ByteSink, ByteSource, DeviceFault};
use m4_state::memory::{MemSink, MemSource};
use m4_state::transfer::{write_all, write_pieces};
use std::alloc::{AllocError, Global};
use std::test::Fail;

const BYTES: &[u8] = b"some bytes, of which \x00 and \xff are two";

// The most bytes that a device reads or writes at a time.
const SIZES: [usize; 4] = [1, 2, 7, 4096];

// A row's name, whether the reader fails after its last byte, and the result of reading it.
static READERS: [(&str, bool, &[u8]); 2] = rows! {
    "a reader that ends", false => b"some bytes, of which \x00 and \xff are two; ended after 36";
    "a reader that fails", true => b"some bytes, of which \x00 and \xff are two; failed after 36";
};

// Reads all of a reader over the bytes, and reports how it ends.
fn taken_of(alloc: Global, at_most: usize, fails: bool) -> Result<Vec<u8>, AllocError> {
    let mut reader = MemSource::new(BYTES, at_most.max(1), fails);
    let mut bytes = Vec::new(alloc);
    let failed = take_all(&mut reader, &mut bytes)?;
    let mut report = Report::new(alloc);
    report.add(&bytes);
    report.add(if failed {
        b"; failed after "
    } else {
        b"; ended after "
    });
    report.number(reader.taken());
    report.text()
}

#[test]
fn all_that_is_given_is_taken(rt: HostRuntime) {
    for &(name, fails, want) in &READERS {
        for &at_most in &SIZES {
            let want = Vec::from_slice(rt.alloc(), want);
            let got = taken_of(rt.alloc(), at_most, fails);
            agrees(&rt, name, Way::By(at_most), want, got);
        }
    }
}

// Reads all of a long text.
fn taken_of_a_long_text(alloc: Global, text: &[u8]) -> Result<Vec<u8>, AllocError> {
    let mut reader = MemSource::new(text, 4096, false);
    let mut bytes = Vec::new(alloc);
    let _failed = take_all(&mut reader, &mut bytes)?;
    Ok(bytes)
}

#[test]
fn a_long_text_is_taken(rt: HostRuntime) -> Result<(), Fail> {
    let text = repeated(rt.alloc(), b'x', 1_000_000)?;
    let got = taken_of_a_long_text(rt.alloc(), &text);
    shows(&rt, "a text of 1,000,000 bytes", &text, got);
    Ok(())
}

// Reports the results of takes of four bytes.
fn takes_of(alloc: Global, bytes: &[u8], fails: bool) -> Result<Vec<u8>, AllocError> {
    let mut report = Report::new(alloc);
    let mut block = [0u8; 4];
    let mut reader = MemSource::new(bytes, 4, fails);
    for _ in 0..3 {
        match reader.take(&mut block) {
            Ok(n) => report.number(n),
            Err(DeviceFault) => report.add(b"fault"),
        }
        report.add(b" ");
    }
    report.text()
}

// A row's name, the bytes of a reader, whether it fails after them, and the results.
static TAKES: [(&str, &[u8], bool, &[u8]); 3] = rows! {
    "at the end", b"ab", false => b"2 0 0 ";
    "amid", b"ab", true => b"2 fault fault ";
    "at once", b"", true => b"fault fault fault ";
};

#[test]
fn readers_end_and_fail_again(rt: HostRuntime) {
    for &(name, bytes, fails, want) in &TAKES {
        shows(&rt, name, want, takes_of(rt.alloc(), bytes, fails));
    }
}

// Adds the contents of a writer after a result.
fn held(
    alloc: Global,
    answer: Result<(), DeviceFault>,
    writer: &MemSink,
) -> Result<Vec<u8>, AllocError> {
    let end: &[u8] = match answer {
        Ok(()) => b"; put",
        Err(DeviceFault) => b"; fault",
    };
    joined(alloc, &[writer.written(), end])
}

// Reports writing the bytes to a writer with this much room.
fn put_into(alloc: Global, room: usize, at_most: usize) -> Result<Vec<u8>, AllocError> {
    let mut writer = MemSink::new(alloc, room, at_most.max(1))?;
    let answer = write_all(&mut writer, BYTES);
    held(alloc, answer, &writer)
}

// Returns the expected report for this much room: a beginning and a fault, or all.
fn put_where(alloc: Global, room: usize) -> Result<Vec<u8>, AllocError> {
    let end: &[u8] = if room < BYTES.len() {
        b"; fault"
    } else {
        b"; put"
    };
    joined(alloc, &[BYTES.split_at(room.min(BYTES.len())).0, end])
}

#[test]
fn bytes_are_put_up_to_the_room(rt: HostRuntime) {
    for room in 0..=BYTES.len() {
        for &at_most in &SIZES {
            let name = "a writer with room for this";
            let got = put_into(rt.alloc(), room, at_most);
            let want = put_where(rt.alloc(), room);
            agrees(&rt, name, Way::Cut(at_most, room), want, got);
        }
    }
}

// Reports writing pieces to a writer with room for nine bytes.
fn pieces_put(alloc: Global) -> Result<Vec<u8>, AllocError> {
    let mut writer = MemSink::new(alloc, 9, 2)?;
    let answer = write_pieces(&mut writer, &[b"one", b"", b"two", b"three"]);
    held(alloc, answer, &writer)
}

// Bytes that are put after one another.
const PUTS: [&[u8]; 2] = [b"abc", b"c"];

// Reports the results of a writer with room for two bytes, and its contents.
fn puts_of(alloc: Global) -> Result<Vec<u8>, AllocError> {
    let mut writer = MemSink::new(alloc, 2, 4)?;
    let mut report = Report::new(alloc);
    for bytes in &PUTS {
        match writer.put(bytes) {
            Ok(n) => report.number(n),
            Err(DeviceFault) => report.add(b" fault "),
        }
    }
    report.add(writer.written());
    report.text()
}

#[test]
fn pieces_and_a_full_writer(rt: HostRuntime) {
    let pieces = pieces_put(rt.alloc());
    shows(&rt, "pieces in their order", b"onetwothr; fault", pieces);
    let puts = puts_of(rt.alloc());
    shows(&rt, "nothing is taken once it is full", b"2 fault ab", puts);
}
