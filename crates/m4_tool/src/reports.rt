//! The one line on standard error that reports why the program did not do its work. If the line cannot be printed
//! either, only the status shows the failure.

ghost use Rattle.std.specs.Prelude.{◌≡◌};

use crate::followed::{FAILED, Failure};

/// Prints one line on standard error, and returns the status of a line whose work was not done.
pub fn report(rt: &impl Eprint, text: &str) -> u8
    ensures { result ≡ FAILED }
{
    let _printed = eprintln!(rt; "m4: {text}");
    FAILED
}

/// Prints the line of a failure on standard error, and returns the same status.
pub fn report_failure(rt: &impl Eprint, failure: Failure) -> u8
    ensures { result ≡ FAILED }
{
    let line = failure.line();
    let _printed = eprint!(rt; "{line}");
    FAILED
}
