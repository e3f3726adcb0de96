//! The outcome of one turn.

ghost use Rattle.std.specs.Prelude.{◌≡◌};
ghost use Rattle.m4_engine.specs.Turns.{cause_of_end};

use crate::ending::Cause;
use m4_builtins::fault::BuiltinFault;

/// The outcome of a turn that was completed.
#[derive(Clone, Copy)]
pub enum Turned {
    /// The expansion continues.
    GoesOn,
    /// A call was made that discards the rest of the line. The line is still to be skipped.
    SkipsLine,
    /// The bytes in hand don't decide the next token, or whether a list follows a name. Nothing was done.
    NeedsMore,
    /// The expansion ends.
    Ends(TurnEnd),
}

/// Why a turn ends the expansion: the causes other than faults of devices, memory and frozen files. Kept small, since
/// every turn returns one.
#[derive(Clone, Copy)]
pub enum TurnEnd {
    /// Everything was read.
    Done,
    /// A call ended the run with this code.
    Exited(u8),
    /// The input ended inside a quoted string.
    EndInString,
    /// The input ended inside a comment.
    EndInComment,
    /// The input ended inside an argument list.
    EndInArguments,
    /// A call would have exceeded the limit of calls.
    ExpansionLimit,
    /// A call would have exceeded the limit of nested calls.
    NestingLimit,
}

impl TurnEnd {
    /// Returns the cause that ends the run.
    pub fn cause(self) -> Cause
        ensures { result ≡ cause_of_end self }
    {
        match self {
            TurnEnd::Done => Cause::Done,
            TurnEnd::Exited(code) => Cause::Exited(code),
            TurnEnd::EndInString => Cause::EndInString,
            TurnEnd::EndInComment => Cause::EndInComment,
            TurnEnd::EndInArguments => Cause::EndInArguments,
            TurnEnd::ExpansionLimit => Cause::ExpansionLimit,
            TurnEnd::NestingLimit => Cause::NestingLimit,
        }
    }
}

/// Why a turn was not completed: an allocation failed. The run is over, and its state is not used again.
pub type TurnFault = BuiltinFault;
