//! Prints a row that failed: its name, and below it the expected and the actual report.

use std::alloc::AllocError;
use std::process::Abort;

// Ends the test with both reports. Bytes that are not printable text are printed as escapes.
fn fail(rt: &impl Abort, row: &str, expected: &[u8], got: &[u8]) {
    panic!(rt;
        "{row}\nexpected: {}\n     got: {}",
        expected.escape_ascii(),
        got.escape_ascii()
    );
}

// Does the same for a row whose devices take this many bytes at a time.
fn fail_by(rt: &impl Abort, row: &str, block: usize, expected: &[u8], got: &[u8]) {
    panic!(rt;
        "{row}, read {block} bytes at a time\nexpected: {}\n     got: {}",
        expected.escape_ascii(),
        got.escape_ascii()
    );
}

/// Ends the test unless the report is the expected one.
pub fn shows(rt: &impl Abort, row: &str, expected: &[u8], got: Result<Vec<u8>, AllocError>) {
    match got {
        Ok(got) => {
            if got.as_slice() != expected {
                fail(rt, row, expected, &got);
            }
        }
        Err(AllocError) => fail(rt, row, expected, b"out of memory"),
    }
}

/// Does the same for a row whose devices take this many bytes at a time. A row that failed names them.
pub fn shows_by(
    rt: &impl Abort,
    row: &str,
    block: usize,
    expected: &[u8],
    got: Result<Vec<u8>, AllocError>,
) {
    match got {
        Ok(got) => {
            if got.as_slice() != expected {
                fail_by(rt, row, block, expected, &got);
            }
        }
        Err(AllocError) => fail_by(rt, row, block, expected, b"out of memory"),
    }
}

/// Does the same for an expected report that was made for the row.
pub fn agrees_by(
    rt: &impl Abort,
    row: &str,
    block: usize,
    expected: Result<Vec<u8>, AllocError>,
    got: Result<Vec<u8>, AllocError>,
) {
    match expected {
        Ok(expected) => shows_by(rt, row, block, &expected, got),
        Err(AllocError) => fail_by(rt, row, block, b"out of memory", b""),
    }
}
