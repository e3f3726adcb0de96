//! A run, call by call: its sources in order, and then its end.
//! Manual: "Command line files", "Invoking m4".

ghost use Rattle.std.specs.Prelude.{◌≡◌, true, false, [], IfOk, IfErr, OnOk, Err};
ghost use Rattle.m4_engine.specs.Writers.{both, three};
ghost use Rattle.m4_engine.specs.Session.{IsOpen, session_from, fresh_session, ReloadGives};
ghost use Rattle.m4_engine.specs.Session.{FileGives, MissingGives, FinishGives, FreezeGives, FreezeUses};
ghost use Rattle.m4_engine.specs.Session.{last_state, session_after_wraps, is_saved, status_at, progress_of};
ghost use Rattle.m4_engine.specs.Order.{InSomeRound, InEnd, Breaks, BreaksBy, FileBreaks};
ghost use Rattle.m4_engine.specs.SessionFailures.{ReadFails, ReloadFails, WriteFails, ThreeFail, MessageWriteFails};
ghost use Rattle.m4_engine.specs.SessionSteps.{answer_by, over_after, WrapsGive};

use crate::ending::Cause;
use crate::machine::Machine;
use crate::options::Options;
use crate::source::put_unopened;
use crate::stop::Stop;
use m4_frozen::fault::WriteFault;
use m4_frozen::reading::read_frozen;
use m4_frozen::writer::write_frozen;
use m4_input::input::Input;
use m4_state::bytes::Bytes;
use m4_state::device::{ByteSink, ByteSource, DeviceFault};
use m4_state::memory::MemSource;
use m4_state::state::State;
use m4_state::transfer::write_all;
use std::alloc::Global;
use std::marker::Model;

/// A run that is made call by call, between two of them.
pub struct Session {
    machine: Machine,
    any_missing: bool,
    over: Option<Cause>,
    finished: bool,
}

impl Model for Session {
    ghost use Rattle.m4_engine.specs.Expands.{IsIdle};
    ghost use Rattle.m4_engine.specs.Session.{SessionState};
    ghost use Rattle.m4_engine.specs.SessionView.{session_view};

    ghost Value = { SessionState };

    ghost view = { session_view };

    ghost invariant = { λ s. IsIdle s.machine };
}

// Written out so that a caller's proof contains one call, not the drop of each field.
impl Drop for Session {
    fn drop(self) {
        let Session {
            machine: _machine,
            any_missing: _any_missing,
            over: _over,
            finished: _finished,
        } = self;
    }
}

impl Session {
    /// Starts a run from the fresh state; the options choose the name prefix of the builtins. Returns
    /// `Ended(OutOfMemory)` if an allocation fails.
    pub fn fresh(alloc: Global, options: Options) -> Result<Session, Stop>
        // session steps: the fresh state, with nothing read
        ensures fresh { IfOk result (λ s. s ≡ fresh_session options) }
        ensures refused { IfErr result (λ stop. stop ≡ Stop.Ended Cause.OutOfMemory) }
    {
        let Ok(state) = State::fresh(alloc, options.prefix) else {
            return Err(Stop::Ended(Cause::OutOfMemory));
        };
        Ok(Session::starting(alloc, options, state))
    }

    /// Starts a run from a frozen file: loads its state and writes its issued text. The file is read to its end
    /// before anything is written. Returns `Ended(Frozen)` if the file is refused, its reader fails or an allocation
    /// fails; then nothing was written. Returns `Ended(Write)` after a prefix of the issued text.
    /// The options' prefix has no effect. Manual: "Fast loading of frozen state".
    pub fn reload<R: ByteSource, O: ByteSink>(
        alloc: Global,
        options: Options,
        frozen: &mut R,
        out: &mut O,
    ) -> Result<Session, Stop>
        // session steps: the start that the frozen file defines, with its issued text written
        ensures gives { ReloadGives options (R.script frozen.old) (O.contents out.old) (O.contents out.new) result }
        // safe and total: a read fault is returned only if the reader failed in this call
        ensures read { ReloadFails result (R.failures frozen.old) (R.failures frozen.new) }
        // safe and total: a write fault is returned only if the writer failed in this call
        ensures write { MessageWriteFails result (O.failures out.old) (O.failures out.new) }
    {
        let loaded = match read_frozen(alloc, frozen) {
            Ok(loaded) => loaded,
            Err(fault) => return Err(Stop::Ended(Cause::Frozen(fault))),
        };
        let (state, issued) = loaded.into_parts();
        if let Err(DeviceFault) = write_all(out, issued.as_slice()) {
            return Err(Stop::Ended(Cause::Write));
        }
        Ok(Session::starting(alloc, options, state))
    }

    /// Creates a session that starts from this state.
    fn starting(alloc: Global, options: Options, state: State) -> Session
        ensures { result ≡ session_from options state }
    {
        Session {
            machine: Machine::new(alloc, state, options.calls, options.nesting),
            any_missing: false,
            over: None,
            finished: false,
        }
    }

    /// Returns whether calls still have an effect.
    fn is_open(&self) -> bool
        ensures yes { result ≡ true → IsOpen self.now }
        ensures no { result ≡ false → IsOpen self.now → ⊥ }
    {
        self.over.is_none() && !self.finished
    }

    /// Expands a file, block by block. Returns `Ended(Read)` if the reader fails, after the output and messages that
    /// the bytes before its fault settle. `Ended(Write)` and `Ended(OutOfMemory)` follow prefixes of its output and
    /// messages.
    pub fn file<R: ByteSource, O: ByteSink, M: ByteSink>(
        &mut self,
        name: Bytes,
        reader: &mut R,
        out: &mut O,
        messages: &mut M,
    ) -> Result<(), Stop>
        // session steps: the definition of a file, with its output and messages written
        ensures gives { FileGives name (R.script reader.old) (R.script reader.new) self.old self.new
            (both O.contents M.contents out.old out.new messages.old messages.new)
            result }
        // in order: if it is broken off, output and messages were written in the order in which they are made
        ensures order { BreaksBy result (FileBreaks self.old.limits (progress_of self.old) name
            (R.script reader.old) (R.script reader.new)
            (both O.contents M.contents out.old out.new messages.old messages.new)) }
        // safe and total: a read fault is returned if the reader failed in this call, and only then
        ensures read { ReadFails result (R.failures reader.old) (R.failures reader.new) }
        // safe and total: a write fault is returned only if a writer failed in this call
        ensures write { WriteFails result (both O.failures M.failures out.old out.new messages.old messages.new) }
        ensures any_missing { self.new.any_missing ≡ self.old.any_missing }
    {
        if !self.is_open() {
            return Err(Stop::Finished);
        }
        let mut input = Input::file(self.machine.alloc(), name);
        let cause = self.machine.expand(&mut input, reader, out, messages);
        self.machine.come_to_rest();
        self.settle(cause)
    }

    /// Ends the run by this cause, unless everything was read. Returns the answer of the call.
    pub(crate) fn settle(&mut self, cause: Cause) -> Result<(), Stop>
        ensures answer { result ≡ answer_by cause }
        ensures over { self.new ≡ record self.old { over = over_after cause self.old.over } }
    {
        if cause == Cause::Done {
            return Ok(());
        }
        self.over = Some(cause);
        Err(Stop::Ended(cause))
    }

    /// Returns the exit status for the cause that ended the run or, without one, for a run that read everything.
    /// After a source that was not opened, 0 becomes 1.
    pub fn status(&self) -> u8
        // session steps: the status so far
        ensures { result ≡ status_at self.now }
    {
        self.over.unwrap_or(Cause::Done).status(self.any_missing)
    }

    /// Reports a source that could not be opened; the status will not be 0. Returns `Ended(Write)` after a prefix
    /// of the message.
    pub fn missing<M: ByteSink>(&mut self, name: &[u8], messages: &mut M) -> Result<(), Stop>
        // session steps: the unopened source, with its message written
        ensures gives { MissingGives name.now self.old self.new (M.contents messages.old)
            (M.contents messages.new) result }
        // safe and total: a write fault is returned only if a writer failed in this call
        ensures write { MessageWriteFails result (M.failures messages.old) (M.failures messages.new) }
        ensures any_missing { OnOk result (self.new.any_missing ≡ true) }
    {
        if !self.is_open() {
            return Err(Stop::Finished);
        }
        if let Err(DeviceFault) = put_unopened(name, messages) {
            return self.settle(Cause::Write);
        }
        self.any_missing = true;
        Ok(())
    }

    /// Reads the saved texts, round by round, until no text is saved or the run ends. Each round removes all saved
    /// texts, and reads them as one input that belongs to no file.
    fn read_saved<O: ByteSink, M: ByteSink>(
        &mut self,
        out: &mut O,
        messages: &mut M,
    ) -> Result<(), Stop>
        requires { IsOpen self.old }
        ensures goes { WrapsGive (session_after_wraps self.old) self.old self.new
            (both O.contents M.contents out.old out.new messages.old messages.new)
            result }
        ensures order { BreaksBy result (Breaks (InSomeRound self.old.limits) (progress_of self.old)
            (both O.contents M.contents out.old out.new messages.old messages.new)) }
        ensures none_saved { OnOk result (self.new.saved ≡ []) }
        ensures write { WriteFails result (both O.failures M.failures out.old out.new messages.old messages.new) }
        ensures any_missing { self.new.any_missing ≡ self.old.any_missing }
    {
        'rounds: while self.machine.has_saved() {
            let Ok(text) = self.machine.take_saved() else {
                return self.settle(Cause::OutOfMemory);
            };
            let Ok(mut input) = Input::wrapped(self.machine.alloc(), text) else {
                return self.settle(Cause::OutOfMemory);
            };
            let mut none = MemSource::new(&[], 1, false);
            let ended = self.machine.expand(&mut input, &mut none, out, messages);
            self.machine.come_to_rest();
            self.settle(ended)?;
        }
        Ok(())
    }

    /// Finishes the run: reads the saved texts, and then undiverts the remaining diversions by rising number.
    /// Returns `Ended` with the cause that ends the run in the saved texts; then nothing is undiverted. Returns
    /// `Ended(Write)` after prefixes of its output and messages. Manual: "Saving text until end of input".
    pub fn finish<O: ByteSink, M: ByteSink>(
        &mut self,
        out: &mut O,
        messages: &mut M,
    ) -> Result<(), Stop>
        // session steps: the saved texts, then the diversions
        ensures gives { FinishGives self.old self.new
            (both O.contents M.contents out.old out.new messages.old messages.new)
            result }
        // in order: if it is broken off, output and messages were written in the order in which they are made
        ensures order { BreaksBy result (Breaks (InEnd self.old.limits) (progress_of self.old)
            (both O.contents M.contents out.old out.new messages.old messages.new)) }
        // safe and total: a write fault is returned only if a writer failed in this call
        ensures write { WriteFails result (both O.failures M.failures out.old out.new messages.old messages.new) }
        ensures any_missing { self.new.any_missing ≡ self.old.any_missing }
    {
        if !self.is_open() {
            return Err(Stop::Finished);
        }
        self.read_saved(out, messages)?;
        if let Err(DeviceFault) = self.machine.issue(out) {
            return self.settle(Cause::Write);
        }
        self.finished = true;
        Ok(())
    }

    /// Finishes the run and freezes it: reads the saved texts, and then writes the canonical text of its state to
    /// `freeze_to`; nothing is undiverted. Returns `Ended` with the cause that ends the run in the saved texts; then
    /// nothing is frozen. `Ended(Write)` follows a prefix of the frozen text, `Ended(OutOfMemory)` none of it.
    /// Manual: "Fast loading of frozen state".
    pub fn freeze<O: ByteSink, M: ByteSink, Z: ByteSink>(
        &mut self,
        out: &mut O,
        messages: &mut M,
        freeze_to: &mut Z,
    ) -> Result<(), Stop>
        // session steps: the saved texts, then the frozen text
        ensures gives { FreezeGives self.old self.new
            (three Z.contents (both O.contents M.contents out.old out.new messages.old messages.new)
            freeze_to.old freeze_to.new)
            result }
        // in order: if it is broken off, output and messages were written in the order in which they are made
        ensures order { BreaksBy result (Breaks (InEnd self.old.limits) (progress_of self.old)
            (both O.contents M.contents out.old out.new messages.old messages.new)) }
        // safe and total: a write fault is returned only if a writer failed in this call
        ensures write { ThreeFail result
            (three Z.failures (both O.failures M.failures out.old out.new messages.old messages.new)
            freeze_to.old freeze_to.new)
            (three Z.contents (both O.contents M.contents out.old out.new messages.old messages.new)
            freeze_to.old freeze_to.new) }
        // faults leave beginnings: a write fault comes before the writer of the frozen text is used, or after
        // everything else was written
        ensures last { FreezeUses self.old freeze_to.old freeze_to.new
            (three Z.contents (both O.contents M.contents out.old out.new messages.old messages.new)
            freeze_to.old freeze_to.new)
            result }
        ensures any_missing { self.new.any_missing ≡ self.old.any_missing }
    {
        if !self.is_open() {
            return Err(Stop::Finished);
        }
        self.read_saved(out, messages)?;
        match write_frozen(self.machine.state(), freeze_to) {
            Ok(()) => {}
            Err(WriteFault::Write) => return self.settle(Cause::Write),
            Err(WriteFault::OutOfMemory) => return self.settle(Cause::OutOfMemory),
        }
        self.finished = true;
        Ok(())
    }

    /// Returns whether a text is saved for the end.
    pub fn wrapped(&self) -> bool
        // session steps: whether a text is saved
        ensures { result ≡ is_saved self.now.saved }
    {
        self.machine.has_saved()
    }
}
