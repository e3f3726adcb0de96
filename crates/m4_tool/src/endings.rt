//! The end of a run: the report on its frozen file, and its failure.

ghost use Rattle.std.specs.Prelude.{◌≡◌};
ghost use Rattle.m4_state.specs.Device.{Puts, count_after};
ghost use Rattle.m4_tool.specs.LineRun.{refused_line};
ghost use Rattle.m4_tool.specs.LineEnd.{failure_of};

use crate::fault::ModeFault;
use crate::followed::Failure;
use m4_engine::ending::Cause;
use m4_frozen::fault::FrozenKind;
use m4_state::device::{ByteSink, DeviceFault};

/// Writes the line for this frozen file, if the run ended because the file was refused.
pub(crate) fn put_refused<M: ByteSink>(
    cause: Cause,
    file: &[u8],
    messages: &mut M,
) -> Result<(), DeviceFault>
    ensures puts { Puts result (M.contents messages.old) (M.contents messages.new) (refused_line file.now cause) }
    ensures counted { M.failures messages.new ≡ count_after result (M.failures messages.old) }
{
    match cause {
        Cause::Frozen(fault) => ModeFault::from(fault).put_report(file, messages),
        _ => Ok(()),
    }
}

/// Returns the failure of a run with this cause, if there was one. `flushed` is whether its output and frozen text were
/// flushed.
pub(crate) fn failure_of(cause: Cause, flushed: bool) -> Option<Failure>
    ensures { result ≡ failure_of cause flushed }
{
    match cause {
        Cause::Read => Some(Failure::Read),
        Cause::Write => Some(Failure::Write),
        Cause::OutOfMemory => Some(Failure::OutOfMemory),
        _ if !flushed => Some(Failure::Write),
        Cause::Frozen(fault) if fault.kind == FrozenKind::OutOfMemory => Some(Failure::Load),
        _ => None,
    }
}
