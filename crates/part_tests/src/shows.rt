//! Prints a row that failed: its name, how it was run, and below that the expected and the actual report.

use std::alloc::AllocError;
use std::fmt;
use std::process::Abort;

/// Bytes as a line of text: printable ones as they are, the others escaped.
struct Shown<'a>(&'a [u8]);

impl fmt::Display for Shown<'_> {
    fn fmt<W: fmt::Write>(&self, f: &mut fmt::Formatter<W>) -> fmt::Result {
        fmt::Display::fmt(&self.0.escape_ascii(), f)
    }
}

/// How a row is run: with devices that take any number of bytes, or so many at a time, and then also after how many
/// bytes a file is cut or a device fails.
#[derive(Clone, Copy)]
pub enum Way {
    Whole,
    By(usize),
    Cut(usize, usize),
}

impl fmt::Display for Way {
    fn fmt<W: fmt::Write>(&self, f: &mut fmt::Formatter<W>) -> fmt::Result {
        match self {
            Way::Whole => Ok(()),
            Way::By(block) => write!(f, ", {block} bytes at a time"),
            Way::Cut(block, cut) => write!(f, ", cut after {cut} bytes, {block} bytes at a time"),
        }
    }
}

// Ends the test with both reports.
fn fail(rt: &impl Abort, row: &str, way: Way, expected: &[u8], got: &[u8]) {
    panic!(rt;
        "{row}{way}\nexpected: {}\n     got: {}",
        Shown(expected),
        Shown(got)
    );
}

// Ends the test unless the report of a row that is run in this way is the expected one.
fn shows_in(
    rt: &impl Abort,
    row: &str,
    way: Way,
    expected: &[u8],
    got: Result<Vec<u8>, AllocError>,
) {
    match got {
        Ok(got) => {
            if got.as_slice() != expected {
                fail(rt, row, way, expected, &got);
            }
        }
        Err(AllocError) => fail(rt, row, way, expected, b"out of memory"),
    }
}

/// Ends the test unless the report of a row is the expected one.
pub fn shows(rt: &impl Abort, row: &str, expected: &[u8], got: Result<Vec<u8>, AllocError>) {
    shows_in(rt, row, Way::Whole, expected, got);
}

/// Does the same for an expected report that was made for the row, which is run in this way.
pub fn agrees(
    rt: &impl Abort,
    row: &str,
    way: Way,
    expected: Result<Vec<u8>, AllocError>,
    got: Result<Vec<u8>, AllocError>,
) {
    match expected {
        Ok(expected) => shows_in(rt, row, way, &expected, got),
        Err(AllocError) => fail(rt, row, way, b"out of memory", b""),
    }
}
