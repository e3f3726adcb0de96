//! Lines in rows: the words of a line, the world in memory in which it is followed, and what it leaves.

ghost use Rattle.std.specs.Prelude.{None, false};

use super::worlds::FILES;
use crate::runs::shows::agrees_by;
use m4_state::device::{ByteSink, DeviceFault};
use m4_state::memory::MemSink;
use m4_tool::follow::follow;
use m4_tool::followed::{Failure, Followed};
use m4_tool::given::Given;
use m4_tool::line::read_line;
use m4_tool::mem_world::MemWorld;
use m4_tool::world::Shows;
use part_tests::report::Report;
use std::alloc::{AllocError, Global};
use std::process::Abort;

/// How many bytes a writer accepts at a time.
const AT_MOST: usize = 7;

/// An empty file of a world, whose reader doesn't fail.
pub const WHOLE: Given<'static> = Given {
    name: b"",
    bytes: b"",
    fails: false,
};

/// The words of a line; standard input, and whether it fails after these bytes; whether a file can be made, and whether
/// the outputs can be flushed; the room of the output and of the messages; and what the line leaves: its status,
/// whether text was saved when the last file ended, its output, at least and at most if a reader fails, its messages,
/// and the name and the bytes of the file that is made.
pub struct Row {
    pub name: &'static str,
    pub words: &'static [&'static str],
    pub input: &'static [u8],
    pub fails: bool,
    pub makes: bool,
    pub flushes: bool,
    pub room: usize,
    pub space: usize,
    pub status: u8,
    pub saves: bool,
    pub output: &'static str,
    pub most: Option<&'static str>,
    pub messages: &'static str,
    pub made: Option<(&'static str, &'static str)>,
}

/// A line with empty standard input and ample room, which writes nothing.
pub const QUIET: Row = Row {
    name: "",
    words: &[],
    input: b"",
    fails: false,
    makes: true,
    flushes: true,
    room: 1000,
    space: 1000,
    status: 0,
    saves: false,
    output: "",
    most: None,
    messages: "",
    made: None,
};

// A writer that can't be flushed.
#[derive(Drop)]
struct Unflushed {
    sink: MemSink,
    failures: u64,
}

impl ByteSink for Unflushed {
    ghost contents = { λ s. ⟦<MemSink as ByteSink>⟧.contents s.sink };

    ghost failures = { λ s. s.failures };

    fn put(&mut self, bytes: &[u8]) -> Result<usize, DeviceFault> {
        match self.sink.put(bytes) {
            Ok(n) => Ok(n),
            Err(fault) => {
                self.failures = self.failures.saturating_add(1);
                Err(fault)
            }
        }
    }
}

impl Shows for Unflushed {
    ghost shown = { λ _. None };

    fn flush(&mut self) -> Result<(), DeviceFault> {
        self.failures = self.failures.saturating_add(1);
        Err(DeviceFault)
    }
}

// Follows the line of a row. If it is refused, the test ends.
fn end_of<W: Shows>(
    rt: &(impl Abort + Alloc<A = Global>),
    row: &Row,
    out: &mut W,
    messages: &mut W,
) -> Followed<MemWorld<'static>> {
    let mut world = MemWorld::new(rt.alloc(), &FILES, row.input, row.makes);
    if row.fails {
        world.fail_input();
    }
    match read_line(rt.alloc(), row.words) {
        Ok(line) => follow(rt.alloc(), &line, world, out, messages),
        Err(_fault) => panic!(rt; "{}: a line that is refused", row.name),
    }
}

/// Adds the name and the bytes of the file that was made, or that there is none, which has no name.
pub fn add_made(world: &MemWorld<'static>, report: &mut Report) {
    report.pair(b"|", world.made_name());
    match world.made() {
        Some(bytes) => report.pair(b": ", bytes),
        None => report.add(b"nothing is made"),
    }
}

// Adds that text was saved when the last file ended, if it was.
fn add_saved(saves: bool, report: &mut Report) {
    if saves {
        report.add(b", with saved text");
    }
}

// Adds the least and the most output.
fn add_bounds(least: &str, most: &str, report: &mut Report) {
    for piece in ["between <", least, "> and <", most, ">"] {
        report.add(piece.as_bytes());
    }
}

// Adds the output, or that it lies between the least and the most one.
fn add_output(output: &[u8], row: &Row, report: &mut Report) {
    match row.most {
        Some(most)
            if output.starts_with(row.output.as_bytes()) && most.as_bytes().starts_with(output) => {
            add_bounds(row.output, most, report);
        }
        _ => report.add(output),
    }
}

// Reports what the line of a row leaves: also its failure if the outputs can't be flushed.
fn printed(
    alloc: Global,
    row: &Row,
    end: &Followed<MemWorld<'static>>,
    out: &MemSink,
    messages: &MemSink,
) -> Result<Vec<u8>, AllocError> {
    let mut report = Report::new(alloc);
    report.print(&end.status);
    add_saved(end.ending.wrapped, &mut report);
    if !row.flushes {
        report.print(&end.failure);
    }
    add_made(&end.world, &mut report);
    report.add(b"|");
    add_output(out.written(), row, &mut report);
    report.pair(b"|", messages.written());
    report.text()
}

// Follows the line of a row, and reports what it leaves.
fn seen(rt: &(impl Abort + Alloc<A = Global>), row: &Row) -> Result<Vec<u8>, AllocError> {
    let mut out = MemSink::new(rt.alloc(), row.room, AT_MOST)?;
    let mut messages = MemSink::new(rt.alloc(), row.space, AT_MOST)?;
    if row.flushes {
        let end = end_of(rt, row, &mut out, &mut messages);
        return printed(rt.alloc(), row, &end, &out, &messages);
    }
    let mut out = Unflushed {
        sink: out,
        failures: 0,
    };
    let mut messages = Unflushed {
        sink: messages,
        failures: 0,
    };
    let end = end_of(rt, row, &mut out, &mut messages);
    printed(rt.alloc(), row, &end, &out.sink, &messages.sink)
}

// Returns what it has to leave.
fn expected(alloc: Global, row: &Row) -> Result<Vec<u8>, AllocError> {
    let mut report = Report::new(alloc);
    report.print(&row.status);
    add_saved(row.saves, &mut report);
    if !row.flushes {
        report.print(&Some(Failure::Write));
    }
    let made = match row.made {
        Some((name, bytes)) => ["|", name, ": ", bytes, "|"],
        None => ["|", "nothing is made", "", "", "|"],
    };
    for piece in made {
        report.add(piece.as_bytes());
    }
    match row.most {
        Some(most) => add_bounds(row.output, most, &mut report),
        None => report.add(row.output.as_bytes()),
    }
    report.pair(b"|", row.messages.as_bytes());
    report.text()
}

/// Compares what the line of each row leaves.
pub fn compare(rt: &(impl Abort + Alloc<A = Global>), rows: &[Row]) {
    for row in rows {
        let want = expected(rt.alloc(), row);
        agrees_by(rt, row.name, AT_MOST, want, seen(rt, row));
    }
}
