//! Expands an input turn by turn. Messages are flushed as they arise, and output once a block of it is
//! buffered. Manual: "How m4 copies input to output".

ghost use Rattle.std.specs.Prelude.{◌≡◌, ◌<◌, ◌≤◌, true, [], None, Ok, length, take, drop, OnOk, OnErr};
ghost use Rattle.m4_state.specs.Device.{Puts, count_after, with_bytes, one_more};
ghost use Rattle.m4_input.specs.Input.{failures_after};
ghost use Rattle.m4_engine.specs.Engine.{IsReady, after_flush};
ghost use Rattle.m4_engine.specs.Writers.{both, ByCause, FailsBy};
ghost use Rattle.m4_engine.specs.Continued.{HandGives, OrderBy, IsFlushed, GivesOut, cause_of};
ghost use Rattle.m4_engine.specs.ReadsOn.{ReadsOn};
ghost use Rattle.m4_engine.specs.Expands.{Expands, ReadsBy, StepBreaksBy, FailsOnce, FlushesPrefix, IsInOrder};
ghost use Rattle.m4_engine.specs.Expands.{IsIdle, at_rest};

use crate::call::OpenCall;
use crate::ending::Cause;
use crate::machine::Machine;
use crate::turned::Turned;
use m4_input::delims::Delims;
use m4_input::fault::InputFault;
use m4_input::input::Input;
use m4_state::device::{ByteSink, ByteSource, DeviceFault};
use m4_state::transfer::write_all;

/// Output is flushed once this many bytes are buffered. One turn may add more before that.
pub(crate) const OUTPUT_BLOCK: usize = 65536;

/// The purpose for which an expansion needs more bytes.
#[derive(Clone, Copy)]
pub enum Wanted {
    /// The next token, or whether a list follows a name.
    Token,
    /// The rest of a line that is discarded.
    Line,
}

/// What an expansion of the bytes in hand comes to.
#[derive(Clone, Copy)]
pub enum Paused {
    /// More bytes are needed, for this purpose.
    For(Wanted),
    /// The expansion is over, by this cause.
    Over(Cause),
}

impl Machine {
    /// Flushes the buffers in the order in which they were filled: the output of earlier turns, `earlier` bytes long,
    /// then the messages of the last turn, and then its own output.
    #[tactic(auto, using(crate::proofs::Begins::nothing_begun))]
    fn flush<O: ByteSink, M: ByteSink>(
        &mut self,
        earlier: usize,
        out: &mut O,
        messages: &mut M,
    ) -> Result<(), DeviceFault>
        requires { earlier ≤ length self.old.output }
        ensures engine { OnOk result (self.new ≡ after_flush self.old) }
        ensures output { OnOk result (O.contents out.new ≡ with_bytes (O.contents out.old) self.old.output) }
        ensures messages { OnOk result (M.contents messages.new
            ≡ with_bytes (M.contents messages.old) self.old.messages) }
        ensures order { OnErr result (IsInOrder (take earlier self.old.output) (drop earlier self.old.output)
            self.old.messages (both O.contents M.contents out.old out.new messages.old messages.new)) }
        ensures begun { OnErr result (FlushesPrefix self.old.output self.old.messages
            (both O.contents M.contents out.old out.new messages.old messages.new)) }
        ensures counted { FailsOnce result (both O.failures M.failures out.old out.new messages.old messages.new) }
    {
        // Without a message between them, the two parts of the output are one write.
        let first = if self.messages.is_empty() {
            self.output.len()
        } else {
            earlier
        };
        let (before, own) = self.output.split_at(first);
        write_all(out, before)?;
        write_all(messages, &self.messages)?;
        write_all(out, own)?;
        self.output.clear();
        self.messages.clear();
        Ok(())
    }

    /// Writes the output that passes made, before any message. Not inlined, since a block is written seldom.
    #[inline(never)]
    fn write_block<O: ByteSink>(&mut self, out: &mut O) -> Result<(), DeviceFault>
        requires quiet { self.old.messages ≡ [] }
        ensures engine { OnOk result (self.new ≡ after_flush self.old) }
        ensures puts { Puts result (O.contents out.old) (O.contents out.new) self.old.output }
        ensures counted { O.failures out.new ≡ count_after result (O.failures out.old) }
    {
        write_all(out, &self.output)?;
        self.output.clear();
        Ok(())
    }

    /// Writes the output of the turns before one that had no memory, the first `earlier` bytes, since the run ends.
    /// That takes no memory. Returns the cause that ends it. Not inlined, since hardly any run calls it.
    #[inline(never)]
    fn give_out<O: ByteSink>(&self, earlier: usize, out: &mut O) -> Cause
        requires { earlier ≤ length self.now.output }
        ensures gives { GivesOut (take earlier self.now.output) (O.contents out.old) (O.contents out.new) result }
        ensures counted { ByCause result (O.failures out.new ≡ O.failures out.old)
            (O.failures out.new ≡ one_more (O.failures out.old)) }
    {
        let (before, _) = self.output.split_at(earlier);
        match write_all(out, before) {
            Ok(()) => Cause::OutOfMemory,
            Err(DeviceFault) => Cause::Write,
        }
    }

    /// Expands the bytes in hand as far as they decide, and returns for what more are needed, or the cause by which the
    /// expansion is over. Writes messages as they arise, output in blocks, and all of both if more bytes are needed. If
    /// the rest of a line is to be discarded, it does that first. If an allocation fails, it writes the output of the
    /// turns before. `copy` is a buffer for a token that spans several texts.
    fn expand_in_hand<O: ByteSink, M: ByteSink>(
        &mut self,
        wanted: Wanted,
        copy: &mut Vec<u8>,
        input: &mut Input,
        out: &mut O,
        messages: &mut M,
    ) -> Paused
        requires ready { IsReady input.old }
        requires flushed { IsFlushed self.old }
        ensures gives { HandGives wanted self.old self.new input.old input.new
            (both O.contents M.contents out.old out.new messages.old messages.new) result }
        ensures order { OrderBy wanted self.old input.old.pending
            (both O.contents M.contents out.old out.new messages.old messages.new) result }
        ensures counted { FailsBy (cause_of result) (both O.failures M.failures out.old out.new messages.old
            messages.new) }
    {
        if let Wanted::Line = wanted
            && !input.skip_in_hand()
        {
            return Paused::For(Wanted::Line);
        }
        let mut next = OpenCall::blank(self.alloc);
        'turns: loop {
            let made = self.output.len();
            let Ok(lookahead) = self.pass_plain(input, copy, &mut next) else {
                return Paused::Over(self.give_out(made, out));
            };
            let Some(lookahead) = lookahead else {
                if let Err(DeviceFault) = self.write_block(out) {
                    return Paused::Over(Cause::Write);
                }
                continue 'turns;
            };
            let earlier = self.output.len();
            let Ok(turned) = self.turn(lookahead, &mut next, input) else {
                return Paused::Over(self.give_out(earlier, out));
            };
            // If the turn leaves no message and less than a block of output, nothing is flushed.
            if let Turned::GoesOn = turned
                && self.messages.is_empty()
                && self.output.len() < OUTPUT_BLOCK
            {
                continue 'turns;
            }
            if let Err(DeviceFault) = self.flush(earlier, out, messages) {
                return Paused::Over(Cause::Write);
            }
            match turned {
                Turned::GoesOn => {}
                Turned::SkipsLine => {
                    if !input.skip_in_hand() {
                        return Paused::For(Wanted::Line);
                    }
                }
                Turned::NeedsMore => return Paused::For(Wanted::Token),
                Turned::Ends(end) => return Paused::Over(end.cause()),
            }
        }
    }

    /// Asks the reader for a block, and for further ones while they leave open the next token, if that is wanted.
    fn read_on<R: ByteSource>(
        &self,
        wanted: Wanted,
        input: &mut Input,
        reader: &mut R,
    ) -> Result<(), InputFault>
        requires open { input.old.pending.may_follow ≡ true }
        requires sound { input.old.fault ≡ None }
        ensures gives { ReadsOn wanted self.now (R.script reader.old) (R.script reader.new) input.old input.new result }
        ensures falls { result ≡ Ok tt → input.new.pending.may_follow ≡ true
            → R.takes_left reader.new < R.takes_left reader.old }
        ensures counted { R.failures reader.new
            ≡ failures_after input.old.fault input.new.fault (R.failures reader.old) }
    {
        match wanted {
            Wanted::Line => {
                let _came = input.more(reader)?;
                Ok(())
            }
            Wanted::Token => input.more_of_token(reader, &Delims::of(&self.state)),
        }
    }

    /// Expands an input to its end. Asks the reader for a block only if the bytes in hand leave open how the expansion
    /// continues, and flushes all output and messages before it asks.
    pub fn expand<R: ByteSource, O: ByteSink, M: ByteSink>(
        &mut self,
        input: &mut Input,
        reader: &mut R,
        out: &mut O,
        messages: &mut M,
    ) -> Cause
        requires ready { IsReady input.old }
        requires idle { IsIdle self.old }
        ensures expands { Expands self.old self.new input.old.pending (R.script reader.old) (R.script reader.new)
            (both O.contents M.contents out.old out.new messages.old messages.new) result }
        ensures order { StepBreaksBy self.old input.old.pending (R.script reader.old) (R.script reader.new)
            (both O.contents M.contents out.old out.new messages.old messages.new) result }
        ensures read { ReadsBy result (R.failures reader.old) (R.failures reader.new) }
        ensures counted { FailsBy result (both O.failures M.failures out.old out.new messages.old messages.new) }
    {
        let mut copy = Vec::new(self.alloc);
        let mut wanted = Wanted::Token;
        'blocks: loop {
            wanted = match self.expand_in_hand(wanted, &mut copy, input, out, messages) {
                Paused::For(more) => more,
                Paused::Over(cause) => return cause,
            };
            if let Err(fault) = self.read_on(wanted, input, reader) {
                return match fault {
                    InputFault::Read => Cause::Read,
                    InputFault::OutOfMemory => Cause::OutOfMemory,
                    InputFault::EndInString { .. } | InputFault::EndInComment { .. } =>
                        unreachable!(),
                };
            }
        }
    }

    /// Drops the open calls and the buffered bytes, before the next input.
    pub fn come_to_rest(&mut self)
        ensures { self.new ≡ at_rest self.old }
    {
        self.depth = 0;
        self.output.clear();
        self.messages.clear();
    }
}
