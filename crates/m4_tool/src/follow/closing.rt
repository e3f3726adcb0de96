//! Ends a line: flushes its outputs and the file that was made, and reports its failure.

ghost use Rattle.std.specs.Prelude.{◌≡◌, ◌≢◌, [], List, ℕ, None, Some, IfSome, false, true};
ghost use Rattle.m4_engine.specs.Writers.{change};
ghost use Rattle.m4_tool.specs.declared.followed.Failure.TheVariants as failures;
ghost use Rattle.m4_tool.specs.Failure.{failure_lines};
ghost use Rattle.m4_tool.specs.Line.{refusals, unreloaded};
ghost use Rattle.m4_tool.specs.FailureCounts.{FailedAs, counts_of};
ghost use Rattle.m4_tool.specs.LineEnd.{EndsBy, IsShown, KeepsShown, Reports, StaysShown, failure_of, seen};
ghost use Rattle.m4_tool.specs.Unfinished.{LeavesMarked};
ghost use Rattle.m4_tool.specs.LineRun.{ClosedAs, Closes, FlushedAs, ModeCloses, RefusedAs, failure_after};

use crate::endings::{failure_of, put_refused};
use crate::followed::{FAILED, Failure, Followed, status_after};
use crate::world::{Shows, World};
use m4_engine::ending::{Cause, Ending};
use m4_engine::source::put_unopened;
use m4_state::device::DeviceFault;
use m4_state::transfer::write_all;

/// Ends a line whose run had this ending: flushes everything, and reports a refused frozen file, and a failure.
/// `file` is the name of its frozen file, and `name` that of the file to which it froze. If a report can't be written,
/// only the status shows it.
pub fn close<W: World, O: Shows, M: Shows>(
    ending: Ending,
    file: &[u8],
    name: &[u8],
    world: W,
    out: &mut O,
    messages: &mut M,
) -> Followed<W>
    ensures ending { result.ending ≡ ending }
    ensures closes { Closes file.now ending result.status result.failure
        (seen (change O.contents out.old out.new) (change M.contents messages.old messages.new)
        (change M.failures messages.old messages.new) (change W.files world result.world)) }
    ensures counted { ClosedAs ending.cause result.failure (counts_of (change O.failures out.old out.new)
        (change M.failures messages.old messages.new) (change W.failures world result.world)) }
    ensures unfinished { IfSome result.failure (λ failure. failure ≢ failures.Report
        → LeavesMarked name.now (W.kept world) (W.kept result.world)) }
    ensures shown { result.failure ≡ None
        → IsShown O.shown O.contents out.new × IsShown M.shown M.contents messages.new
        × IsShown W.kept W.files result.world }
    ensures shown_output { StaysShown O.failures O.shown O.contents out.old out.new }
    ensures shown_messages { StaysShown M.failures M.shown M.contents messages.old messages.new }
{
    let mut world = world;
    let flushed = flush_all(ending.cause, name, &mut world, out, messages);
    let is_reported = report_refusal(ending.cause, file, messages);
    let failure = failure_of(ending.cause, flushed);
    report_last(failure, messages);
    Followed {
        status: status_after(failure, ending.status),
        ending,
        failure: failure_after(failure, is_reported),
        world,
    }
}

/// Flushes the output, then the messages, and then, if nothing has failed, finishes the file of this name that was
/// made. Returns whether all that was flushed could be.
fn flush_all<W: World, O: Shows, M: Shows>(
    cause: Cause,
    name: &[u8],
    world: &mut W,
    out: &mut O,
    messages: &mut M,
) -> bool
    ensures output { O.contents out.new ≡ O.contents out.old }
    ensures messages { M.contents messages.new ≡ M.contents messages.old }
    ensures counted { FlushedAs result (counts_of (change O.failures out.old out.new)
        (change M.failures messages.old messages.new) (change W.failures world.old world.new)) }
    ensures files { W.files world.new ≡ W.files world.old }
    ensures unfinished { failure_of cause result ≢ None → LeavesMarked name.now (W.kept world.old) (W.kept world.new) }
    ensures shown { failure_of cause result ≡ None
        → IsShown O.shown O.contents out.new × IsShown M.shown M.contents messages.new
        × IsShown W.kept W.files world.new }
    ensures shown_output { StaysShown O.failures O.shown O.contents out.old out.new }
    ensures shown_messages { StaysShown M.failures M.shown M.contents messages.old messages.new }
{
    let output = out.flush().is_ok();
    let others = messages.flush().is_ok();
    let flushed = output && others;
    match failure_of(cause, flushed) {
        None => world.finish(name).is_ok(),
        Some(_failure) => flushed,
    }
}

/// Reports a frozen file that was refused. Returns whether that could be written and flushed.
fn report_refusal<M: Shows>(cause: Cause, file: &[u8], messages: &mut M) -> bool
    ensures reports { Reports (refusals file.now cause) (M.contents messages.old) (M.contents messages.new)
        (M.failures messages.old) (M.failures messages.new) }
    ensures refused { result ≡ false → refusals file.now cause ≢ [] }
    ensures counted { RefusedAs result (M.failures messages.old) (M.failures messages.new) }
    ensures shown { result ≡ true → M.shown messages.old ≡ M.contents messages.old
        → M.shown messages.new ≡ M.contents messages.new }
    ensures kept { KeepsShown M.failures M.shown M.contents messages.old messages.new }
{
    match cause {
        Cause::Frozen(_) => {
            let put = put_refused(cause, file, messages);
            let shown = messages.flush();
            put.is_ok() && shown.is_ok()
        }
        _ => true,
    }
}

/// Reports the failure of the run or of its last flushes, if there was one.
fn report_last<M: Shows>(failure: Option<Failure>, messages: &mut M)
    ensures reports { Reports (failure_lines failure) (M.contents messages.old) (M.contents messages.new)
        (M.failures messages.old) (M.failures messages.new) }
    ensures unreported { failure ≡ None → messages.new ≡ messages.old }
    ensures kept { KeepsShown M.failures M.shown M.contents messages.old messages.new }
{
    match failure {
        Some(failure) => show_failure(failure, messages),
        None => {}
    }
}

/// Writes the line of a failure, if it has one, to the messages, and flushes them.
fn show_failure<M: Shows>(failure: Failure, messages: &mut M)
    ensures reports { Reports (failure_lines (Some failure)) (M.contents messages.old) (M.contents messages.new)
        (M.failures messages.old) (M.failures messages.new) }
    ensures kept { KeepsShown M.failures M.shown M.contents messages.old messages.new }
{
    let line = failure.line().as_bytes();
    if !line.is_empty() {
        let _put = write_all(messages, line);
        let _shown = messages.flush();
    }
}

/// Returns this failure. If there is none, returns `Report` unless the line for a refused file was reported.
fn failure_after(failure: Option<Failure>, is_reported: bool) -> Option<Failure>
    ensures { result ≡ failure_after failure is_reported }
{
    match failure {
        None if !is_reported => Some(Failure::Report),
        failure => failure,
    }
}

/// Ends a line whose frozen file can't be opened: reports that, and does nothing else.
pub fn close_unopened<W: World, O: Shows, M: Shows>(
    file: &[u8],
    name: &[u8],
    world: W,
    out: &mut O,
    messages: &mut M,
) -> Followed<W>
    ensures ends { (freezes : List ℕ) → EndsBy result.failure freezes file.now (unreloaded file.now) result.status
        (seen (change O.contents out.old out.new) (change M.contents messages.old messages.new)
        (change M.failures messages.old messages.new) (change W.files world result.world)) }
    ensures unread { result.failure ≢ Some failures.Read }
    ensures counted { FailedAs result.failure (counts_of (change O.failures out.old out.new)
        (change M.failures messages.old messages.new) (change W.failures world result.world)) }
    ensures files { W.files result.world ≡ W.files world }
    ensures unfinished { IfSome result.failure (λ failure. failure ≢ failures.Report
        → LeavesMarked name.now (W.kept world) (W.kept result.world)) }
    ensures shown { result.failure ≡ None
        → IsShown O.shown O.contents out.new × IsShown M.shown M.contents messages.new
        × IsShown W.kept W.files result.world }
    ensures shown_output { StaysShown O.failures O.shown O.contents out.old out.new }
    ensures shown_messages { StaysShown M.failures M.shown M.contents messages.old messages.new }
{
    let cause = match put_unopened(file, messages) {
        Ok(()) => Cause::Done,
        Err(DeviceFault) => Cause::Write,
    };
    let ending = Ending {
        status: FAILED,
        cause,
        wrapped: false,
    };
    close(ending, file, name, world, out, messages)
}

/// Ends a line with a mode that returned this status: flushes everything, and reports a flush that fails unless the
/// mode has failed itself. A mode that did its work ends as a run that read everything.
pub fn close_mode<W: World, O: Shows, M: Shows>(
    status: u8,
    world: W,
    out: &mut O,
    messages: &mut M,
) -> Followed<W>
    ensures closes { ModeCloses status result.status (O.contents out.old) (O.contents out.new)
        (M.contents messages.old) (M.contents messages.new) (M.failures messages.old) (M.failures messages.new)
        (counts_of (change O.failures out.old out.new) (change M.failures messages.old messages.new)
        (change W.failures world result.world)) }
    ensures counted { FailedAs result.failure (counts_of (change O.failures out.old out.new)
        (change M.failures messages.old messages.new) (change W.failures world result.world)) }
    ensures files { W.files result.world ≡ W.files world }
    ensures shown { result.failure ≡ None
        → IsShown O.shown O.contents out.new × IsShown M.shown M.contents messages.new
        × IsShown W.kept W.files result.world }
    ensures shown_output { StaysShown O.failures O.shown O.contents out.old out.new }
    ensures shown_messages { StaysShown M.failures M.shown M.contents messages.old messages.new }
{
    let ending = Ending {
        status,
        cause: Cause::Done,
        wrapped: false,
    };
    if status == 0 {
        return close(ending, b"", b"", world, out, messages);
    }
    let mut world = world;
    let flushed = flush_all(Cause::Done, b"", &mut world, out, messages);
    Followed {
        status,
        ending,
        failure: failure_of(Cause::Done, flushed),
        world,
    }
}
