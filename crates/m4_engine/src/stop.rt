//! Why a call of a session fails.

use crate::ending::Cause;

/// The error of a session's call after which the run does not continue.
#[derive(Clone, Copy, Debug)]
pub enum Stop {
    /// The run ended in this call, by this cause.
    Ended(Cause),
    /// The run had ended before, or was finished: the call did nothing.
    Finished,
}
