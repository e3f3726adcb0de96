//! A line that is followed in a world: a mode, or a run over the files of the line, which starts from a
//! frozen file and freezes to one. Manual: "Invoking m4".

ghost use Rattle.std.specs.Prelude.{◌≡◌, ◌≢◌, ℕ, List, Option, None, Some, IfSome, true, option_map};
ghost use Rattle.m4_state.specs.Device.{Script};
ghost use Rattle.m4_engine.specs.RunSources.{DescribesFrozen};
ghost use Rattle.m4_engine.specs.File.{Source as Said};
ghost use Rattle.m4_engine.specs.Run.{run as defined};
ghost use Rattle.m4_engine.specs.Writers.{change, writes};
ghost use Rattle.m4_tool.specs.World.{Files};
ghost use Rattle.m4_tool.specs.FollowPromises.{EndsRun, IsFollowed};
ghost use Rattle.m4_tool.specs.Line.{LineResult, Starts, freeze_name, line_result, request_of, result_of_run};
ghost use Rattle.m4_tool.specs.Line.{thaw_in, words_of};
ghost use Rattle.m4_tool.specs.FailureCounts.{AnyRose, FailedAs, counts_of};
ghost use Rattle.m4_tool.specs.declared.followed.Failure.TheVariants as failures;
ghost use Rattle.m4_tool.specs.Known.{AnyFails, ExtendFiles, Knows, KnowsFiles, MayGive};
ghost use Rattle.m4_tool.specs.LineEnd.{EndsBy, Follows, IsShown, IsShownAfter, seen};
ghost use Rattle.m4_tool.specs.LineMode.{ModeFollows, ends_of, mode_of};
ghost use Rattle.m4_tool.specs.Modes.{ModeRuns, reads};
ghost use Rattle.m4_tool.specs.Unfinished.{LeavesMarked};

mod closing;
mod opening;
mod running;

use crate::followed::{FAILED, Followed};
use crate::line::Line;
use crate::modes::{self, Mode};
use crate::world::{Shows, World};
use closing::{close, close_mode, close_unopened};
use m4_engine::source::put_unopened;
use m4_state::device::{ByteSink, ByteSource};
use running::run_line;
use std::alloc::Global;

/// Follows a line in a world. Its messages go to `messages`, and its output to `out`; at the end both are
/// flushed, and so is the file that was made.
pub fn follow<W: World, O: Shows, M: Shows>(
    alloc: Global,
    line: &Line,
    world: W,
    out: &mut O,
    messages: &mut M,
) -> Followed<W>
    // line in a world: the status, the output, the messages and the frozen file are those of the line; if a device
    // or an allocation fails, prefixes of them
    ensures runs { (files : Files) (input : Script) (r : LineResult)
        → mode_of line.now ≡ None → Knows W.making W.files W.input world files input
        → line_result (request_of line.now) files input ≡ Some r
        → Follows (request_of line.now) r result.status result.failure
        (seen (change O.contents out.old out.new) (change M.contents messages.old messages.new)
        (change M.failures messages.old messages.new) (change W.files world result.world)) }
    // line in a world: if the reader of a source fails, those over any source that begins with its bytes, if the run
    // ended before the fault; otherwise prefixes of them
    ensures extends { (files : Files) (input : Script) (r : LineResult)
        → mode_of line.now ≡ None → Knows W.making W.files W.input world files input
        → MayGive (request_of line.now) files input r
        → Follows (request_of line.now) r result.status result.failure
        (seen (change O.contents out.old out.new) (change M.contents messages.old messages.new)
        (change M.failures messages.old messages.new) (change W.files world result.world)) }
    // split: each call is one of those that the law `three_lines` takes, with the bytes and files of its devices
    ensures followed { (files files_new : Files) (input : Script) (o o' m m' : List ℕ)
        → mode_of line.now ≡ None → Knows W.making W.files W.input world files input
        → W.files result.world ≡ Some files_new → O.contents out.old ≡ Some o → O.contents out.new ≡ Some o'
        → M.contents messages.old ≡ Some m → M.contents messages.new ≡ Some m'
        → IsFollowed (record {
          request = request_of line.now;
          files = files;
          input = input;
          files_new = files_new;
          out_old = o;
          out_new = o';
          messages_old = m;
          messages_new = m';
          status = result.status;
          ending = result.ending;
          failure = result.failure;
        }) }
    // unfinished files: if something failed after the frozen file was made, that file begins with a byte with which no
    // frozen file begins, or is empty
    ensures unfinished { mode_of line.now ≡ None → IfSome result.failure (λ failure. failure ≢ failures.Report
        → LeavesMarked (freeze_name (request_of line.now)) (W.kept world) (W.kept result.world)) }
    // line in a world: a mode is followed on the file of its name
    ensures mode { IfSome (mode_of line.now) (λ found. (files : Files)
        → KnowsFiles W.making W.files world files
        → ModeFollows found.0 found.1 (files found.1) result.status
        (seen (change O.contents out.old out.new) (change M.contents messages.old messages.new)
        (change M.failures messages.old messages.new) (change W.files world result.world))
        (counts_of (change O.failures out.old out.new) (change M.failures messages.old messages.new)
        (change W.failures world result.world))) }
    // safe and total: a failed write or flush is reported only if one failed in this call
    ensures counted { mode_of line.now ≡ None → FailedAs result.failure (counts_of (change O.failures out.old out.new)
        (change M.failures messages.old messages.new) (change W.failures world result.world)) }
    // safe and total: a read fault is reported only if the reader of one of the files fails
    ensures read { (files : Files) (input : Script)
        → mode_of line.now ≡ None → Knows W.making W.files W.input world files input
        → result.failure ≡ Some failures.Read → AnyFails files input (words_of (request_of line.now).names) }
    // safe and total: in a mode too, a flush that failed is reported only if one failed in this call
    ensures flushed { result.failure ≡ Some failures.Write → AnyRose (counts_of (change O.failures out.old out.new)
        (change M.failures messages.old messages.new) (change W.failures world result.world)) }
    // line in a world: if nothing failed, all that was written is flushed: the output, the messages and the file
    // that was made
    ensures shown { result.failure ≡ None
        → IsShown O.shown O.contents out.new × IsShown M.shown M.contents messages.new
        × IsShown W.kept W.files result.world }
    // line in a world: what was written is flushed at the end whatever failed, unless a write or a flush of the same
    // writer did
    ensures shown_output { IsShownAfter O.failures O.shown O.contents out.old out.new }
    ensures shown_messages { IsShownAfter M.failures M.shown M.contents messages.old messages.new }
{
    match mode_of(line) {
        Some((mode, file)) => follow_mode(alloc, mode, file, world, out, messages),
        None => follow_run(alloc, line, world, out, messages),
    }
}

/// Returns the mode of a line with the name of its file, if the line has a mode.
fn mode_of(line: &Line) -> Option<(Mode, &[u8])>
    ensures { option_map (λ found. (found.0, found.1.now)) result ≡ mode_of line.now }
{
    match (&line.canon, &line.inspect) {
        (Some(file), _) => Some((Mode::Canon, file.as_str().as_bytes())),
        (None, Some(file)) => Some((Mode::Inspect, file.as_str().as_bytes())),
        (None, None) => None,
    }
}

/// Runs a mode on a file, or reports that it can't be opened.
fn follow_mode<W: World, O: Shows, M: Shows>(
    alloc: Global,
    mode: Mode,
    file: &[u8],
    world: W,
    out: &mut O,
    messages: &mut M,
) -> Followed<W>
    ensures follows { (files : Files) → KnowsFiles W.making W.files world files
        → ModeFollows mode file.now (files file.now) result.status
        (seen (change O.contents out.old out.new) (change M.contents messages.old messages.new)
        (change M.failures messages.old messages.new) (change W.files world result.world))
        (counts_of (change O.failures out.old out.new) (change M.failures messages.old messages.new)
        (change W.failures world result.world)) }
    ensures flushed { result.failure ≡ Some failures.Write → AnyRose (counts_of (change O.failures out.old out.new)
        (change M.failures messages.old messages.new) (change W.failures world result.world)) }
    ensures shown { result.failure ≡ None
        → IsShown O.shown O.contents out.new × IsShown M.shown M.contents messages.new
        × IsShown W.kept W.files result.world }
    ensures shown_output { IsShownAfter O.failures O.shown O.contents out.old out.new }
    ensures shown_messages { IsShownAfter M.failures M.shown M.contents messages.old messages.new }
{
    match world.open(file) {
        Some(mut reader) => {
            let status = run_mode(alloc, mode, file, &mut reader, out, messages);
            close_mode(status, world, out, messages)
        }
        None => {
            let _put = put_unopened(file, messages);
            close_mode(FAILED, world, out, messages)
        }
    }
}

/// Runs a mode on an opened file, and returns its status.
fn run_mode<R: ByteSource, O: ByteSink, M: ByteSink>(
    alloc: Global,
    mode: Mode,
    file: &[u8],
    reader: &mut R,
    out: &mut O,
    messages: &mut M,
) -> u8
    ensures { ModeRuns (ends_of mode) file.now (reads R.script R.failures reader.old reader.new)
        (writes O.contents O.failures out.old out.new) (writes M.contents M.failures messages.old messages.new) result }
{
    match mode {
        Mode::Canon => modes::canon(alloc, file, reader, out, messages),
        Mode::Inspect => modes::inspect(alloc, file, reader, out, messages),
    }
}

/// Follows a line without a mode. If its frozen file can't be opened, reports that, and does nothing else.
fn follow_run<W: World, O: Shows, M: Shows>(
    alloc: Global,
    line: &Line,
    world: W,
    out: &mut O,
    messages: &mut M,
) -> Followed<W>
    ensures follows { (files : Files) (input : Script) (r : LineResult)
        → Knows W.making W.files W.input world files input
        → MayGive (request_of line.now) files input r
        → Follows (request_of line.now) r result.status result.failure
        (seen (change O.contents out.old out.new) (change M.contents messages.old messages.new)
        (change M.failures messages.old messages.new) (change W.files world result.world)) }
    ensures ended { (files : Files) (input : Script) (script : Option Script) (ss : List Said)
        → Knows W.making W.files W.input world files input
        → thaw_in files (request_of line.now).reload ≡ Starts script
        → ExtendFiles files input (words_of (request_of line.now).names) ss → result.failure ≡ None
        → EndsRun line.now.options script ss result.ending }
    ensures unfinished { IfSome result.failure (λ failure. failure ≢ failures.Report
        → LeavesMarked (freeze_name (request_of line.now)) (W.kept world) (W.kept result.world)) }
    ensures read { (files : Files) (input : Script) → Knows W.making W.files W.input world files input
        → result.failure ≡ Some failures.Read → AnyFails files input (words_of (request_of line.now).names) }
    ensures counted { FailedAs result.failure (counts_of (change O.failures out.old out.new)
        (change M.failures messages.old messages.new) (change W.failures world result.world)) }
    ensures shown { result.failure ≡ None
        → IsShown O.shown O.contents out.new × IsShown M.shown M.contents messages.new
        × IsShown W.kept W.files result.world }
    ensures shown_output { IsShownAfter O.failures O.shown O.contents out.old out.new }
    ensures shown_messages { IsShownAfter M.failures M.shown M.contents messages.old messages.new }
{
    match &line.reload {
        None => follow_from(alloc, line, &mut None, b"", world, out, messages),
        Some(name) => {
            let file = name.as_str().as_bytes();
            match world.open(file) {
                Some(reader) => follow_from(
                    alloc,
                    line,
                    &mut Some(reader),
                    file,
                    world,
                    out,
                    messages,
                ),
                None => close_unopened(file, frozen_name(line), world, out, messages),
            }
        }
    }
}

/// Follows a line without a mode that starts from this frozen file, if there is one. `file` is the name of that file.
fn follow_from<W: World, O: Shows, M: Shows>(
    alloc: Global,
    line: &Line,
    frozen: &mut Option<W::Reader>,
    file: &[u8],
    world: W,
    out: &mut O,
    messages: &mut M,
) -> Followed<W>
    ensures ends { (files : Files) (input : Script) (script : Option Script) (ss : List Said)
        → Knows W.making W.files W.input world files input → DescribesFrozen W.Reader.script frozen.old script
        → ExtendFiles files input (words_of (request_of line.now).names) ss
        → EndsBy result.failure (freeze_name (request_of line.now)) file.now
        (result_of_run file.now (defined line.now.options script ss)) result.status
        (seen (change O.contents out.old out.new) (change M.contents messages.old messages.new)
        (change M.failures messages.old messages.new) (change W.files world result.world)) }
    ensures ended { (files : Files) (input : Script) (script : Option Script) (ss : List Said)
        → Knows W.making W.files W.input world files input → DescribesFrozen W.Reader.script frozen.old script
        → ExtendFiles files input (words_of (request_of line.now).names) ss → result.failure ≡ None
        → EndsRun line.now.options script ss result.ending }
    ensures unfinished { IfSome result.failure (λ failure. failure ≢ failures.Report
        → LeavesMarked (freeze_name (request_of line.now)) (W.kept world) (W.kept result.world)) }
    ensures read { (files : Files) (input : Script) → Knows W.making W.files W.input world files input
        → result.failure ≡ Some failures.Read → AnyFails files input (words_of (request_of line.now).names) }
    ensures counted { FailedAs result.failure (counts_of (change O.failures out.old out.new)
        (change M.failures messages.old messages.new) (change W.failures world result.world)) }
    ensures shown { result.failure ≡ None
        → IsShown O.shown O.contents out.new × IsShown M.shown M.contents messages.new
        × IsShown W.kept W.files result.world }
    ensures shown_output { IsShownAfter O.failures O.shown O.contents out.old out.new }
    ensures shown_messages { IsShownAfter M.failures M.shown M.contents messages.old messages.new }
{
    let ran = run_line(alloc, line, frozen, world, out, messages);
    close(
        ran.ending,
        file,
        frozen_name(line),
        ran.world,
        out,
        messages,
    )
}

/// Returns the name of the file to which a line freezes; it is empty if there is none.
fn frozen_name(line: &Line) -> &[u8]
    ensures { result.now ≡ freeze_name (request_of line.now) }
{
    match &line.freeze {
        Some(name) => name.as_str().as_bytes(),
        None => b"",
    }
}
