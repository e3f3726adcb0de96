//! Why an input returns no token.

use thiserror::Error;

/// A fault of an input.
#[derive(Clone, Copy, Debug, Error)]
pub enum InputFault {
    /// The input ends inside a quoted string that began at this line.
    #[error("I1 EndInString")]
    EndInString {
        /// The line where the string began, or 0 in wrapped text.
        line: u64,
    },
    /// The input ends inside a comment that began at this line.
    #[error("I2 EndInComment")]
    EndInComment {
        /// The line where the comment began, or 0 in wrapped text.
        line: u64,
    },
    /// The reader failed; it is not used again.
    #[error("I3 Read")]
    Read,
    /// An allocation failed.
    #[error("I4 OutOfMemory")]
    OutOfMemory,
}
