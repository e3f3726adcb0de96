//! The modes over devices in memory: the output, the messages, and the status.
//!
//! The files and their texts were written by hand from the format. Each row is run with readers and
//! writers of several sizes, since no result may depend on them. What a file is read and written as has its rows in
//! `part_tests`. Manual: "Frozen file format".

use crate::runs::shows::agrees_by;
use m4_frozen::fault::FrozenKind;
use m4_state::memory::{MemSink, MemSource};
use m4_tool::modes::{Mode, canon, inspect};
use part_tests::names_of_m4;
use part_tests::report::Report;
use std::alloc::{AllocError, Global};
use std::process::Abort;

/// A mode on a file F, whose reader may fail after it; the room of the output and of the messages; and what the mode
/// leaves: its status, its output and its messages.
#[derive(Clone, Copy)]
pub struct Row {
    pub mode: Mode,
    pub file: &'static [u8],
    pub fails: bool,
    pub room: usize,
    pub space: usize,
    pub status: u8,
    pub output: &'static str,
    pub messages: &'static str,
}

/// The canonical text of an empty file, with ample room.
pub const CANON: Row = Row {
    mode: Mode::Canon,
    file: b"",
    fails: false,
    room: 4096,
    space: 4096,
    status: 0,
    output: "",
    messages: "",
};

// A canonical text of a file with a fault.
const FAULTY: Row = Row { status: 1, ..CANON };

// Expands to rows: of each its mode, its file, its output, and then each other field that it has.
macro_rules! modes {
    ($($mode:ident $file:literal => $output:expr $(, $field:ident: $value:expr)*;)*) => {
        [$(Row { mode: Mode::$mode, file: $file, output: $output, $($field: $value,)* ..CANON }),*]
    };
}

// Expands to the canonical text with these directives.
macro_rules! canonical {
    ($directives:literal) => {
        concat!("# m4 frozen state\nV1\n", $directives, "# End of frozen state file\n")
    };
}

static CANONICAL: [Row; 7] = modes! {
    Canon b"V1\nT1,1\nbx\nT1,1\nay\nT1,1\nbz\n" => canonical!("T1,1\nay\nT1,1\nbx\nT1,1\nbz\n");
    Canon b"# any\nV1\nC1,1\n#\n\n\n\nF3,3\ndnldnl\nF6,6\nformatformat\n# End of frozen state file\n" =>
        canonical!("F3,3\ndnldnl\nF6,6\nformatformat\n");
    Canon b"V1\nD2,1\nx\nD2,1\ny\nD-1,2\nzz\n" => canonical!("D2,2\nxy\nD-1,0\n\n");
    Canon b"V1\nD3,0\n\n" => canonical!("D3,0\n\n");
    Canon b"V1\nD3,1\nx\nD0,0\n\n" => canonical!("D3,1\nx\nD0,0\n\n");
    Canon b"V1\nD7,1\nb\nD5,1\na\n" => canonical!("D5,1\na\nD7,1\nb\nD5,0\n\n");
    Canon b"V1\nD-2147483648,0\n\n" => canonical!("D-2147483648,0\n\n");
};

// Faults at other places than those of `KINDS`, or before a reader fails, and files that would issue text.
static REFUSED: [Row; 7] = modes! {
    Canon b"# c\n\nV2\n" => "", status: 63, messages: "m4: F: F2 Newer at byte 6\n";
    Canon b"V1\nD0,3\nhi\n\nX\n" => "", status: 1, messages: "m4: F: F5 UnknownDirective at byte 12\n";
    Canon b"V1\nT1,18446744073709551615\na" => "", status: 1, messages: "m4: F: F9 PrematureEnd at byte 28\n";
    Canon b"V1\nX" => "", fails: true, status: 1, messages: "m4: F: F5 UnknownDirective at byte 3\n";
    Canon b"V2" => "", fails: true, status: 63, messages: "m4: F: F2 Newer at byte 1\n";
    Canon b"V1\nD0,1\nx\n" => "", status: 1, messages: "m4: F: K1 text would be issued at reload\n";
    Canon b"V1\nD0,2\nab\nD0,1\nc\nD2,1\nx\nD2,1\ny\nD-1,2\nzz\n" => "", status: 1,
        messages: "m4: F: K1 text would be issued at reload\n";
};

static LISTED: [Row; 3] = modes! {
    Inspect b"V1\nT1,1\nab\nF3,5\ncutshift\nD2,4\ntwo\n\n" =>
        "quotes ` '\ncomments # \\0a\ntext a 1\nbuiltin cut shift\ndiversion 2 4\ncurrent 2\n";
    Inspect b"V1\nQ0,1\nx\nC2,3\n/**/ \n" => "quotes none\ncomments /* */\\20\ncurrent 0\n";
    Inspect b"V1\nT0,2\n\\\xff\nT3,0\n\x00 a\n" =>
        "quotes ` '\ncomments # \\0a\ntext \\. 2\ntext \\00\\20a 0\ncurrent 0\n";
};

// If messages have too little room, they contain a prefix of the line, and the status is the fault's.
static SHORT: [Row; 1] = modes! {
    Canon b"V2\n" => "", space: 6, status: 63, messages: "m4: F:";
};

// Expands to kinds of faults: of each a file with that fault, its line, and then each other field of its row.
macro_rules! kinds {
    ($($kind:ident $file:literal => $messages:literal $(, $field:ident: $value:expr)*;)*) => {
        [$((FrozenKind::$kind, Row { file: $file, messages: $messages, $($field: $value,)* ..FAULTY })),*]
    };
}

// The files of docs/FROZEN_FILE.md. The line has the number and the name that the kind displays.
static KINDS: [(FrozenKind, Row); 10] = kinds! {
    NoVersion b"" => "m4: F: F1 NoVersion at byte 0\n";
    Newer b"V2x" => "m4: F: F2 Newer at byte 1\n", status: 63;
    VersionZero b"V0" => "m4: F: F3 VersionZero at byte 1\n";
    SecondVersion b"V1\nV1\n" => "m4: F: F4 SecondVersion at byte 3\n";
    UnknownDirective b"V1\nX" => "m4: F: F5 UnknownDirective at byte 3\n";
    DigitExpected b"V1\nT-1,0\n\n" => "m4: F: F6 DigitExpected at byte 4\n";
    NumberTooLarge b"V1\nT1,18446744073709551616\na" => "m4: F: F7 NumberTooLarge at byte 6\n";
    SeparatorExpected b"V1 \n" => "m4: F: F8 SeparatorExpected at byte 2\n";
    PrematureEnd b"V1" => "m4: F: F9 PrematureEnd at byte 2\n";
    Read b"V1\nT1" => "m4: F: F10 Read\n", fails: true;
};

/// The writers of a mode or of a line, and its status.
pub struct Left {
    pub output: MemSink,
    pub messages: MemSink,
    pub status: u8,
}

// Written out so that a caller's proof contains one call, not the drop of each field.
impl Drop for Left {
    fn drop(self) {
        let Left {
            output: _output,
            messages: _messages,
            status: _status,
        } = self;
    }
}

/// Runs the mode of a row, with devices that take this many bytes at a time.
pub fn left_by(alloc: Global, row: &Row, at_most: usize) -> Result<Left, AllocError> {
    let mut reader = MemSource::new(row.file, at_most.max(1), row.fails);
    let mut output = MemSink::new(alloc, row.room, at_most.max(1))?;
    let mut messages = MemSink::new(alloc, row.space, at_most.max(1))?;
    let status = match row.mode {
        Mode::Canon => canon(alloc, b"F", &mut reader, &mut output, &mut messages),
        Mode::Inspect => inspect(alloc, b"F", &mut reader, &mut output, &mut messages),
    };
    Ok(Left {
        output,
        messages,
        status,
    })
}

// Reports a status, an output and messages.
fn printed(
    alloc: Global,
    status: u8,
    output: &[u8],
    messages: &[u8],
) -> Result<Vec<u8>, AllocError> {
    let mut report = Report::new(alloc);
    report.print(&status);
    report.pair(b"|", output);
    report.pair(b"|", messages);
    report.text()
}

// Reports what a row leaves.
fn seen(alloc: Global, row: &Row, at_most: usize) -> Result<Vec<u8>, AllocError> {
    let left = left_by(alloc, row, at_most)?;
    printed(
        alloc,
        left.status,
        left.output.written(),
        left.messages.written(),
    )
}

// The most bytes that a reader returns and a writer accepts at a time.
const SIZES: [usize; 4] = [1, 2, 7, 4096];

// Compares what each row leaves, with devices of each size.
fn compare(rt: &(impl Abort + Alloc<A = Global>), rows: &[Row]) {
    for row in rows {
        let name = std::str::from_utf8(row.file).unwrap_or("bytes that are no text");
        for at_most in SIZES {
            let (output, messages) = (row.output.as_bytes(), row.messages.as_bytes());
            let want = printed(rt.alloc(), row.status, output, messages);
            agrees_by(rt, name, at_most, want, seen(rt.alloc(), row, at_most));
        }
    }
}

// Compares the canonical text of a file, and that of this text.
fn compare_canonical(rt: &(impl Abort + Alloc<A = Global>), row: &Row) {
    let again = Row {
        file: row.output.as_bytes(),
        ..*row
    };
    compare(rt, &[*row, again]);
}

#[test]
fn files_have_their_canonical_text(rt: HostRuntime) {
    for row in &CANONICAL {
        compare_canonical(&rt, row);
    }
}

#[test]
fn a_file_of_each_name_has_its_canonical_text(rt: HostRuntime) {
    let row = Row {
        file: names_of_m4::FILE.as_bytes(),
        output: names_of_m4::CANONICAL,
        ..CANON
    };
    compare_canonical(&rt, &row);
}

#[test]
fn refused_files_and_listings_have_their_lines(rt: HostRuntime) {
    compare(&rt, &REFUSED);
    compare(&rt, &LISTED);
    compare(&rt, &SHORT);
}

// If an output has too little room for the text, it contains a prefix of it.
#[test]
fn an_output_that_fails_has_a_beginning(rt: HostRuntime) {
    let whole = CANONICAL[0];
    for room in 0..whole.output.len() {
        let row = Row {
            room,
            status: 1,
            output: whole.output.get(..room).unwrap_or(whole.output),
            messages: "m4: write fault\n",
            ..whole
        };
        compare(&rt, &[row]);
    }
}

// Finds in a line the text that a kind displays.
fn check_kind(rt: &(impl Abort + Alloc<A = Global>), kind: FrozenKind, line: &str) {
    match format!(in rt.alloc(); "{kind}") {
        Ok(shown) => {
            assert!(rt; line.contains(shown.as_str()), "{line} lacks {shown}");
        }
        Err(AllocError) => panic!(rt; "{line}: out of memory"),
    }
}

#[test]
fn kinds_have_their_line(rt: HostRuntime) {
    for (kind, row) in &KINDS {
        compare(&rt, &[*row]);
        check_kind(&rt, *kind, row.messages);
    }
    // The line for want of memory is compared where memory is refused.
    check_kind(&rt, FrozenKind::OutOfMemory, "m4: F: F11 OutOfMemory\n");
}
