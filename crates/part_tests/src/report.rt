//! The report on a row: text that is written piece by piece. `run_tests` reports its rows so too.

use itoa::{Buffer, Integer};
use std::alloc::{AllocError, Global};
use std::fmt;

/// A report. If an allocation fails while it is written, its end returns that, so that no row has to
/// check after each piece.
#[derive(Drop)]
pub struct Report {
    text: Vec<u8>,
    refused: bool,
}

impl Report {
    /// Returns an empty report.
    pub fn new(alloc: Global) -> Report {
        Report {
            text: Vec::new(alloc),
            refused: false,
        }
    }

    /// Adds a piece.
    pub fn add(&mut self, piece: &[u8]) {
        if self.text.extend_from_slice(piece).is_err() {
            self.refused = true;
        }
    }

    /// Adds two pieces.
    pub fn pair(&mut self, first: &[u8], second: &[u8]) {
        self.add(first);
        self.add(second);
    }

    /// Adds a number.
    pub fn number(&mut self, number: impl Integer) {
        self.add(Buffer::new().format(number).as_bytes());
    }

    /// Adds a piece, and a count after it.
    pub fn counted(&mut self, piece: &[u8], count: usize) {
        self.add(piece);
        self.number(count);
    }

    /// Adds a value as it is printed.
    pub fn print(&mut self, value: &impl fmt::Debug) {
        match format!(in *self.text.allocator(); "{value:?}") {
            Ok(text) => self.add(text.as_bytes()),
            Err(AllocError) => self.refuse(),
        }
    }

    /// Records that an allocation failed.
    pub fn refuse(&mut self) {
        self.refused = true;
    }

    /// Returns the complete text.
    pub fn text(self) -> Result<Vec<u8>, AllocError> {
        let Report { text, refused } = self;
        if refused {
            return Err(AllocError);
        }
        Ok(text)
    }
}

/// Joins pieces in order.
pub fn joined(alloc: Global, pieces: &[&[u8]]) -> Result<Vec<u8>, AllocError> {
    let mut report = Report::new(alloc);
    for piece in pieces {
        report.add(piece);
    }
    report.text()
}

/// Returns a value as it is printed.
pub fn printed(alloc: Global, value: &impl fmt::Display) -> Result<Vec<u8>, AllocError> {
    joined(alloc, &[format!(in alloc; "{value}")?.as_bytes()])
}

/// Returns a byte so many times.
pub fn repeated(alloc: Global, byte: u8, count: usize) -> Result<Vec<u8>, AllocError> {
    let mut bytes = Vec::new(alloc);
    bytes.resize(count, byte)?;
    Ok(bytes)
}
