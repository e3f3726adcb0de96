//! The report on a run, as text.

use super::given::{End, Seen};
use super::whole_texts::{Part, text_of};
use part_tests::report::Report;
use std::alloc::{AllocError, Global};

/// Adds the output and the messages of a run, and how it ended.
pub fn add_run(report: &mut Report, output: &[u8], messages: &[u8], end: End) {
    report.pair(output, b"|");
    report.pair(messages, b"|");
    report.print(&end);
}

/// Adds what a run left, but for its frozen text.
pub fn add_seen(report: &mut Report, seen: &Seen) {
    let (output, messages) = (seen.output(), seen.messages());
    add_run(report, output, messages, seen.end);
}

/// Adds pieces of text.
pub fn add_pieces(report: &mut Report, pieces: &[&str]) {
    for piece in pieces {
        report.add(piece.as_bytes());
    }
}

/// Adds the parts of a frozen text.
fn add_parts(report: &mut Report, parts: &[Part]) {
    for part in parts {
        report.add(text_of(*part).as_bytes());
    }
}

/// Returns a frozen text.
pub fn joined(alloc: Global, parts: &[Part]) -> Result<Vec<u8>, AllocError> {
    let mut report = Report::new(alloc);
    add_parts(&mut report, parts);
    report.text()
}

/// Returns what a run has to leave, with the parts of its frozen text.
pub fn expected(
    alloc: Global,
    (output, messages): (&[u8], &[u8]),
    end: End,
    frozen_text: &[Part],
) -> Result<Vec<u8>, AllocError> {
    let mut report = Report::new(alloc);
    add_run(&mut report, output, messages, end);
    report.add(b"|");
    add_parts(&mut report, frozen_text);
    report.text()
}

/// Returns what a run left.
pub fn printed_seen(alloc: Global, seen: &Seen) -> Result<Vec<u8>, AllocError> {
    let mut report = Report::new(alloc);
    add_seen(&mut report, seen);
    report.pair(b"|", seen.frozen_text());
    report.text()
}
