//! Frozen files: their faults and the places of these, their canonical texts, and their listings; with
//! readers and writers of a few bytes at a time, some of which fail.
//!
//! The offsets and lengths were counted by hand from the format. Manual: "Frozen file format".

mod canon;
mod each_name;
mod early;
mod faults;
mod listing;
mod states;

use crate::report::{Report, joined, printed, repeated};
use m4_frozen::fault::{FrozenFault, WriteFault};
use m4_frozen::loading::Loaded;
use m4_frozen::reading::read_frozen;
use m4_frozen::writer::write_frozen;
use m4_state::memory::{MemSink, MemSource};
use m4_state::state::State;
use std::alloc::{AllocError, Global};

// How many bytes a device reads or writes at a time.
const BLOCKS: [usize; 4] = [1, 2, 3, 4096];

// How many bytes of a file are read at a time: files are cut at the ends of such blocks.
const BLOCK: usize = 16384;

// The first two lines of a canonical text, and its last one.
const HEAD: &[u8] = b"# m4 frozen state\nV1\n";

const LAST: &[u8] = b"# End of frozen state file\n";

// Enough room for a row.
const ROOM: usize = 4096;

// Reads a frozen file with a reader that ends or fails after these bytes.
fn read(alloc: Global, bytes: &[u8], block: usize, fails: bool) -> Result<Loaded, FrozenFault> {
    let mut reader = MemSource::new(bytes, block.max(1), fails);
    read_frozen(alloc, &mut reader)
}

// Returns a comment line of this many bytes with its newline, and then these bytes.
fn after_a_comment(alloc: Global, before: usize, bytes: &[u8]) -> Result<Vec<u8>, AllocError> {
    let comment = repeated(alloc, b'#', before.saturating_sub(1))?;
    joined(alloc, &[&comment, b"\n", bytes])
}

// Reports how reading ends.
fn refused(alloc: Global, bytes: &[u8], block: usize, fails: bool) -> Result<Vec<u8>, AllocError> {
    let mut report = Report::new(alloc);
    match read(alloc, bytes, block, fails) {
        Ok(_loaded) => report.add(b"loaded"),
        Err(fault) => describe(alloc, fault, &mut report),
    }
    report.text()
}

// Adds a fault and its place.
fn describe(alloc: Global, fault: FrozenFault, report: &mut Report) {
    match printed(alloc, &fault.kind) {
        Ok(text) => report.add(&text),
        Err(AllocError) => report.refuse(),
    }
    report.add(b" at ");
    report.number(fault.offset);
}

// Adds the bytes that a writer received, and whether all were written.
fn describe_written(answer: Result<(), WriteFault>, writer: &MemSink, report: &mut Report) {
    report.add(writer.written());
    report.add(match answer {
        Ok(()) => b"; written\n",
        Err(WriteFault::Write) => b"; write fault\n",
        Err(WriteFault::OutOfMemory) => b"; out of memory\n",
    });
}

// Adds the bytes of the canonical text that a writer receives.
fn write_canonical(state: &State, writer: &mut MemSink, report: &mut Report) {
    let answer = write_frozen(state, writer);
    describe_written(answer, writer, report);
}

// Writes a file's bytes again, this many bytes at a time, to a writer with this much room: its canonical text, and then
// the text that is issued.
fn again(alloc: Global, bytes: &[u8], block: usize, room: usize) -> Result<Vec<u8>, AllocError> {
    let mut writer = MemSink::new(alloc, room, block.max(1))?;
    let mut report = Report::new(alloc);
    match read(alloc, bytes, block, false) {
        Ok(loaded) => {
            write_canonical(&loaded.state, &mut writer, &mut report);
            report.add(loaded.issued.as_slice());
        }
        Err(fault) => describe(alloc, fault, &mut report),
    }
    report.text()
}
