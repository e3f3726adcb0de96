//! Lines and modes, where a request for memory is refused: one line says so, and a mode writes nothing else.
//!
//! The devices are made first; where that is refused, the mode is passed over. `tests/program/refused_growths` refuses
//! each request in turn.

use super::following::WHOLE;
use super::modes::{CANON, Left, Row, left_by};
use m4_state::memory::MemSink;
use m4_tool::follow::follow;
use m4_tool::given::Given;
use m4_tool::line::{Line, LineFault, read_line};
use m4_tool::mem_world::MemWorld;
use m4_tool::modes::Mode;
use std::alloc::{AllocError, Global};
use std::process::Abort;

const CANONICAL: Row = Row {
    file: b"V1\nT1,1\nab\nF3,5\ncutshift\nD2,4\ntwo\n\n",
    output: "# m4 frozen state\nV1\nT1,1\nab\nF3,5\ncutshift\nD2,4\ntwo\n\n# End of frozen state file\n",
    ..CANON
};

const LISTED: Row = Row {
    mode: Mode::Inspect,
    output: "quotes ` '\ncomments # \\0a\ntext a 1\nbuiltin cut shift\ndiversion 2 4\ncurrent 2\n",
    ..CANONICAL
};

/// The lines where the file is loaded, and where it is written.
const LOADING: &[u8] = b"m4: F: F11 OutOfMemory\n";

const WRITING: &[u8] = b"m4: out of memory\n";

/// How many bytes a writer accepts at a time.
const AT_MOST: usize = 7;

/// Prints whether a mode or a line broke off; none does whose devices could not be made. It then leaves a beginning of
/// this part of its output, and a line on want of memory; otherwise it leaves its output alone.
fn tell(
    rt: &(impl Abort + Alloc<A = Global> + Print),
    left: Result<Left, AllocError>,
    output: &[u8],
    part: &[u8],
) {
    let mut broken = 0;
    if let Ok(left) = left {
        let (written, line) = (left.output.written(), left.messages.written());
        if left.status != 0 || written != output || !line.is_empty() {
            let said = line == WRITING || (part.is_empty() && line == LOADING);
            assert!(rt;
                left.status == 1 && said && part.starts_with(written),
                "neither its output nor what it leaves where it breaks off"
            );
            broken = 1;
        }
    }
    let _printed = println!(rt; "{broken} broke off");
}

#[test]
fn canonical_text(rt: HostRuntime) {
    let left = left_by(rt.alloc(), &CANONICAL, AT_MOST);
    tell(&rt, left, CANONICAL.output.as_bytes(), b"");
}

#[test]
fn listing(rt: HostRuntime) {
    let left = left_by(rt.alloc(), &LISTED, AT_MOST);
    tell(&rt, left, LISTED.output.as_bytes(), b"");
}

/// The files of a line, and what it writes.
static FILES: [Given<'static>; 2] = world! {
    b"library" =>
        b"define(`greeting_of_more_than_thirty_letters',`Hello, $1, and all who read along!')dnl\n";
    b"page" => b"greeting_of_more_than_thirty_letters(`world')\n";
};

const GREETING: &[u8] = b"Hello, world, and all who read along!\n";

/// Follows a line. If it can't be read, that is for want of memory.
fn left_by_line(alloc: Global) -> Result<Left, AllocError> {
    let Ok(line) = read_line(alloc, &["m4r", "library", "page"]) else {
        return Err(AllocError);
    };
    let world = MemWorld::new(alloc, &FILES, b"", false);
    let mut output = MemSink::new(alloc, 256, AT_MOST)?;
    let mut messages = MemSink::new(alloc, 256, AT_MOST)?;
    let end = follow(alloc, &line, world, &mut output, &mut messages);
    Ok(Left {
        output,
        messages,
        status: end.status,
    })
}

#[test]
fn line_that_is_followed(rt: HostRuntime) {
    tell(&rt, left_by_line(rt.alloc()), GREETING, GREETING);
}

/// Returns whether a line is that of its words.
fn is_read(line: &Line) -> bool {
    let files = match line.files.as_slice() {
        [only] => only.as_str() == "page",
        _ => false,
    };
    files && line.options.nesting == 2 && line.options.calls == 4294967295
}

/// Returns whether the words could not be read for want of memory.
fn is_want_of_memory(fault: &LineFault) -> bool {
    match fault {
        LineFault::OutOfMemory => true,
        _ => false,
    }
}

#[test]
fn line_that_is_read(rt: HostRuntime) {
    let mut broken = 0;
    match read_line(rt.alloc(), &["m4r", "-L", "2", "page"]) {
        Ok(line) => {
            assert!(rt; is_read(&line), "the line is not that of its words");
        }
        Err(fault) => {
            assert!(rt; is_want_of_memory(&fault), "the line was refused");
            broken = 1;
        }
    }
    let _printed = println!(rt; "{broken} broke off");
}
