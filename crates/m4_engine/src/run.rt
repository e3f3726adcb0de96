//! A complete run: its start, its sources in order, and its end.
//! Manual: "Invoking m4", "Command line files", "Fast loading of frozen state".

ghost use Rattle.std.specs.Prelude.{◌≡◌, List, [], OnOk};
ghost use Rattle.m4_engine.specs.File.{Source as Said, after_sources};
ghost use Rattle.m4_engine.specs.Order.{InSources};
ghost use Rattle.m4_engine.specs.RunSources.{DescribeSources};
ghost use Rattle.m4_engine.specs.RunPromises.{IsRun};
ghost use Rattle.m4_engine.specs.RunSteps.{WritesInOrder, WritesToEnd, state_at_end, FreezesState};
ghost use Rattle.m4_engine.specs.RunSteps.{UsesLast, UsesWriters, MarksAnyUnopened};
ghost use Rattle.m4_engine.specs.Session.{IsOpen, progress_of};
ghost use Rattle.m4_engine.specs.SessionFailures.{WriteFails};
ghost use Rattle.m4_engine.specs.SourcesRead.{ReadsSources, ReadsToEnd};
ghost use Rattle.m4_engine.specs.Writers.{both, three, writes};
ghost use Rattle.m4_engine.specs.SessionSteps.{IsLeft, ending_by};

use crate::ending::{Cause, Ending};
use crate::options::Options;
use crate::session::Session;
use crate::source::Source;
use crate::stop::Stop;
use m4_state::device::{ByteSink, ByteSource};
use std::alloc::Global;

/// Runs over the sources in order, from the frozen file if there is one, otherwise from the fresh state. At
/// the end it undiverts all diversions or, if the options ask for it, freezes its state. The bytes that it
/// writes and the ending are those of the definition of a run.
///
/// The cause reports why the run ended. If a reader, a writer or an allocation fails, the status is 1, and the
/// bytes written are prefixes of the defined ones. If a frozen file is refused, no source is read and nothing
/// is written. `freeze_to` is used only if the options freeze and all sources were read. The promises are the
/// fields of `IsRun` (`specs/RunPromises.antt`).
pub fn run<R: ByteSource, O: ByteSink, M: ByteSink, Z: ByteSink>(
    alloc: Global,
    options: Options,
    frozen: &mut Option<R>,
    sources: &mut [Source<R>],
    out: &mut O,
    messages: &mut M,
    freeze_to: &mut Z,
) -> Ending
    ensures { IsRun R.script R.failures (record {
      options = options;
      file_old = frozen.old;
      file_new = frozen.new;
      sources_old = sources.old;
      sources_new = sources.new;
      out = writes O.contents O.failures out.old out.new;
      messages = writes M.contents M.failures messages.old messages.new;
      frozen = writes Z.contents Z.failures freeze_to.old freeze_to.new;
      freeze_old = freeze_to.old;
      freeze_new = freeze_to.new;
    }) result }
{
    let (ending, _session) = run_keeping(alloc, options, frozen, sources, out, messages, freeze_to);
    ending
}

/// Runs as [`run`] does, and returns the session with the ending: a program that ends now leaves it to the end of the
/// process, and frees none of its definitions.
#[doc(hidden)]
pub fn run_keeping<R: ByteSource, O: ByteSink, M: ByteSink, Z: ByteSink>(
    alloc: Global,
    options: Options,
    frozen: &mut Option<R>,
    sources: &mut [Source<R>],
    out: &mut O,
    messages: &mut M,
    freeze_to: &mut Z,
) -> (Ending, Option<Session>)
    ensures { IsRun R.script R.failures (record {
      options = options;
      file_old = frozen.old;
      file_new = frozen.new;
      sources_old = sources.old;
      sources_new = sources.new;
      out = writes O.contents O.failures out.old out.new;
      messages = writes M.contents M.failures messages.old messages.new;
      frozen = writes Z.contents Z.failures freeze_to.old freeze_to.new;
      freeze_old = freeze_to.old;
      freeze_new = freeze_to.new;
    }) result.0 }
{
    let begun = match frozen {
        Some(reader) => Session::reload(alloc, options, reader, out),
        None => Session::fresh(alloc, options),
    };
    let mut session = match begun {
        Ok(session) => session,
        // A run that did not begin has no session: its cause alone gives the status.
        Err(stop) => {
            let mut unbegun = ending(0, Err(stop));
            unbegun.status = unbegun.cause.status(false);
            return (unbegun, None);
        }
    };
    let answer = read_to_end(
        &mut session,
        options.freeze,
        sources,
        out,
        messages,
        freeze_to,
    );
    (ending(session.status(), answer), Some(session))
}

/// Returns the ending of a run, from its status and its last result.
fn ending(status: u8, answer: Result<bool, Stop>) -> Ending
    ensures { result ≡ ending_by status answer }
{
    let (cause, wrapped) = match answer {
        Ok(wrapped) => (Cause::Done, wrapped),
        Err(Stop::Ended(cause)) => (cause, false),
        Err(Stop::Finished) => (Cause::Done, false),
    };
    Ending {
        status,
        cause,
        wrapped,
    }
}

/// Reads the sources and finishes the run. Returns whether text was saved for the end when the last source
/// ended.
fn read_to_end<R: ByteSource, O: ByteSink, M: ByteSink, Z: ByteSink>(
    session: &mut Session,
    freezes: bool,
    sources: &mut [Source<R>],
    out: &mut O,
    messages: &mut M,
    freeze_to: &mut Z,
) -> Result<bool, Stop>
    requires live { IsOpen session.old }
    requires unsaved { session.old.saved ≡ [] }
    ensures left { IsLeft session.new result }
    ensures writes { (ss : List Said) → DescribeSources R.script sources.old sources.new ss →
        WritesToEnd freezes ss session.old session.new
        (three Z.contents (both O.contents M.contents out.old out.new messages.old messages.new)
        freeze_to.old freeze_to.new) result }
    ensures frozen { (ss : List Said) → DescribeSources R.script sources.old sources.new ss →
        FreezesState freezes (state_at_end session.old ss) result }
    ensures last { (ss : List Said) → DescribeSources R.script sources.old sources.new ss →
        UsesLast freezes ss session.old freeze_to.old freeze_to.new
        (three Z.contents (both O.contents M.contents out.old out.new messages.old messages.new)
        freeze_to.old freeze_to.new) result }
    ensures reads { ReadsToEnd R.script R.failures sources.old sources.new session.old
        (both O.contents M.contents out.old out.new messages.old messages.new) result }
    ensures marks { MarksAnyUnopened sources.old sources.new session.old.any_missing session.new.any_missing result }
    ensures writers { UsesWriters freezes freeze_to.old freeze_to.new
        (three Z.failures (both O.failures M.failures out.old out.new messages.old messages.new)
        freeze_to.old freeze_to.new)
        (three Z.contents (both O.contents M.contents out.old out.new messages.old messages.new)
        freeze_to.old freeze_to.new) result }
{
    read_sources(session, sources, out, messages)?;
    let wrapped = session.wrapped();
    let closed = if freezes {
        session.freeze(out, messages, freeze_to)
    } else {
        session.finish(out, messages)
    };
    closed?;
    Ok(wrapped)
}

/// Reads the sources in order until the run ends. Their output and messages, taken together, are those of the
/// definition of the sources. Returns `Ended` with the cause that ends the run; if a device or an allocation
/// failed, prefixes of them were written.
fn read_sources<R: ByteSource, O: ByteSink, M: ByteSink>(
    session: &mut Session,
    sources: &mut [Source<R>],
    out: &mut O,
    messages: &mut M,
) -> Result<(), Stop>
    requires { IsOpen session.old }
    ensures left { IsLeft session.new result × OnOk result (IsOpen session.new) }
    ensures writes { (ss : List Said) → DescribeSources R.script sources.old sources.new ss →
        WritesInOrder (after_sources session.old.limits ss (progress_of session.old)) (InSources session.old.limits ss)
        session.old session.new (both O.contents M.contents out.old out.new messages.old messages.new) result }
    ensures reads { ReadsSources R.script R.failures sources.old sources.new session.old session.new
        (both O.contents M.contents out.old out.new messages.old messages.new) result }
    ensures marks { MarksAnyUnopened sources.old sources.new session.old.any_missing session.new.any_missing result }
    ensures write { WriteFails result (both O.failures M.failures out.old out.new messages.old messages.new) }
{
    'sources: for source in sources.iter_mut() {
        let answer = match source {
            Source::Opened { name, reader } => {
                let Ok(name) = name.share() else {
                    return session.settle(Cause::OutOfMemory);
                };
                session.file(name, reader, out, messages)
            }
            Source::Unopened { name } => session.missing(name.as_slice(), messages),
        };
        answer?;
    }
    Ok(())
}
