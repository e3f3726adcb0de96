//! The inspector's lines, with writers of a few bytes at a time, or that fail inside a line.

use super::{BLOCKS, describe, describe_written, read};
use crate::report::{Report, joined};
use crate::shows::{Way, agrees};
use m4_frozen::inspector::list;
use m4_frozen::loading::Loaded;
use m4_state::memory::MemSink;
use std::alloc::{AllocError, Global};

// A row's name, a file, and the lines that are listed for it.
static ROWS: [(&str, &[u8], &[u8]); 5] = rows! {
    "a placeholder, under its name and another one", b"V1\nF6,6\nformatformat\nF3,6\nfmtformat\n" =>
        b"quotes ` '\ncomments # \\0a\nplaceholder fmt format\nplaceholder format format\ncurrent 0\n";
    "a text, a builtin and a diversion", b"V1\nT1,1\nab\nF3,5\ncutshift\nD2,4\ntwo\n\n" =>
        b"quotes ` '\ncomments # \\0a\ntext a 1\nbuiltin cut shift\ndiversion 2 4\ncurrent 2\n";
    "diversions, and text that is issued", b"V1\nD0,2\nab\nD0,1\nc\nD2,1\nx\nD2,1\ny\nD-1,2\nzz\n" =>
        b"quotes ` '\ncomments # \\0a\ndiversion 2 2\ncurrent -1\nissued 3\n";
    "no delimiters, an empty name and a text that is a blank", b"V1\nQ0,0\n\nC0,0\n\nT0,0\n\nT1,0\n \n" =>
        b"quotes none\ncomments none\ntext \\. 0\ntext \\20 0\ncurrent 0\n";
    "the bytes next to those that are shown as they are, and the backslash", b"V1\nT7,1\n\x00 !\\~\x7f\xff\x00\n" =>
        b"quotes ` '\ncomments # \\0a\ntext \\00\\20!\\5c~\\7f\\ff 1\ncurrent 0\n";
};

// Adds the bytes of the lines that a writer receives.
fn write(loaded: &Loaded, writer: &mut MemSink, report: &mut Report) {
    let answer = list(loaded, writer);
    describe_written(answer, writer, report);
}

// Returns the lines of a file, written this many bytes at a time to a writer with this much room.
fn listed(alloc: Global, bytes: &[u8], room: usize, block: usize) -> Result<Vec<u8>, AllocError> {
    let mut writer = MemSink::new(alloc, room, block.max(1))?;
    let mut report = Report::new(alloc);
    match read(alloc, bytes, block, false) {
        Ok(loaded) => write(&loaded, &mut writer, &mut report),
        Err(fault) => describe(alloc, fault, &mut report),
    }
    report.text()
}

#[test]
fn files_are_listed(rt: HostRuntime) {
    for &(name, bytes, lines) in &ROWS {
        for &block in &BLOCKS {
            let want = joined(rt.alloc(), &[lines, b"; written\n"]);
            let got = listed(rt.alloc(), bytes, lines.len(), block);
            agrees(&rt, name, Way::By(block), want, got);
        }
    }
}

#[test]
fn a_writer_fails_after_each_byte(rt: HostRuntime) {
    for &(name, bytes, lines) in &ROWS {
        for room in 0..lines.len() {
            let want = joined(rt.alloc(), &[lines.split_at(room).0, b"; write fault\n"]);
            let got = listed(rt.alloc(), bytes, room, 3);
            agrees(&rt, name, Way::Cut(3, room), want, got);
        }
    }
}
