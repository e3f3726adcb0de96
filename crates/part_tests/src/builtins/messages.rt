//! The lines of messages. Manual: "Location within input".

use crate::report::{Report, printed};
use crate::shows::shows;
use m4_builtins::fault::BuiltinFault;
use m4_builtins::messages::{dropped_message, error_message};
use m4_builtins::place::Place;
use m4_state::bytes::Bytes;
use std::alloc::{AllocError, Global};

// A row's name, a file, a line, and the messages for an error there and for a dropped definition.
static ROWS: [(&str, &str, u64, &str); 3] = rows! {
    "a line of a file", "dir/a.m4", 18446744073709551615 =>
        "m4:dir/a.m4:18446744073709551615: ERROR: end of file in string\n\
         m4:dir/a.m4:18446744073709551615: Warning: builtin dropped from text\n";
    "a line after 2^32 - 1", "a.m4", 4294967296 =>
        "m4:a.m4:4294967296: ERROR: end of file in string\n\
         m4:a.m4:4294967296: Warning: builtin dropped from text\n";
    "wrapped text", "", 0 => "m4: ERROR: end of file in string\nm4: Warning: builtin dropped from text\n";
};

// Adds a message.
fn describe(message: Result<Bytes, BuiltinFault>, report: &mut Report) {
    match message {
        Ok(text) => report.add(text.as_slice()),
        Err(BuiltinFault::OutOfMemory) => report.refuse(),
    }
}

// Returns an error and a warning at a place.
fn messages_at(alloc: Global, file: &[u8], line: u64) -> Result<Vec<u8>, AllocError> {
    let place = Place {
        file: Bytes::from_slice(alloc, file)?,
        line,
    };
    let mut report = Report::new(alloc);
    let error = error_message(alloc, &place, b"end of file in string");
    describe(error, &mut report);
    describe(dropped_message(alloc, &place), &mut report);
    report.text()
}

#[test]
fn messages_name_their_place(rt: HostRuntime) {
    for &(name, file, line, want) in &ROWS {
        let got = messages_at(rt.alloc(), file.as_bytes(), line);
        shows(&rt, name, want.as_bytes(), got);
    }
}

#[test]
fn a_fault_has_a_text(rt: HostRuntime) {
    let got = printed(rt.alloc(), &BuiltinFault::OutOfMemory);
    shows(&rt, "out of memory", b"B1 OutOfMemory", got);
}
