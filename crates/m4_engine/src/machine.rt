//! Expands a run's inputs turn by turn, with the open calls on a stack. Manual: "Macro invocation".
//!
//! The output and messages of a turn are buffered until they are flushed, so a turn uses no writer.

ghost use Rattle.std.specs.Prelude.{◌≡◌, ◌<◌, ◌≤◌, ◌++◌, List, [], length, OnOk, OnErr, IfOk};
ghost use Rattle.m4_state.specs.Device.{Puts, count_after};
ghost use Rattle.m4_builtins.specs.Messages.{error};
ghost use Rattle.m4_engine.specs.Engine.{KeepsOutput, with_text, with_engine_message, with_open_call, engine_at};
ghost use Rattle.m4_engine.specs.Expand.{call_of};
ghost use Rattle.m4_engine.specs.Expansion.{Call, place_at};
ghost use Rattle.m4_engine.specs.MachineView.{open_of};
ghost use Rattle.m4_engine.specs.Session.{is_saved};
ghost use Rattle.m4_engine.specs.Wraps.{close, joined_back};

mod arguments;
mod calls;
mod driver;
mod ends;
mod limits;
mod plain;
mod turn;

use crate::call::OpenCall;
use crate::turned::TurnFault;
pub(crate) use driver::OUTPUT_BLOCK;
use m4_builtins::effect_buffer::EffectBuffer;
use m4_builtins::messages::error_message;
use m4_builtins::place::Place;
use m4_input::input::Input;
use m4_state::bytes::Bytes;
use m4_state::device::{ByteSink, DeviceFault};
use m4_state::state::State;
use m4_state::transfer::write_all;
use std::alloc::{AllocError, Global};
use std::marker::Model;

/// The state of a run so far, its buffers, and the calls whose lists are open.
#[derive(Drop)]
pub struct Machine {
    alloc: Global,
    most_calls: u64,
    most_nested: u64,
    state: State,
    calls: u64,
    // The first `depth` calls are open, the outermost first. The others were made, and are kept for their memory.
    stack: Vec<OpenCall>,
    depth: usize,
    output: Vec<u8>,
    messages: Vec<u8>,
    saved: Vec<Bytes>,
    // The effect of the call that is made, or of the last one, which is kept for its memory.
    effect: EffectBuffer,
}

impl Model for Machine {
    ghost use Rattle.std.specs.Prelude.{◌≤◌, length};
    ghost use Rattle.m4_engine.specs.Engine.{Engine};
    ghost use Rattle.m4_engine.specs.MachineView.{engine_view};

    ghost Value = { Engine };

    ghost view = { engine_view };

    ghost invariant = { λ m. m.depth ≤ length m.stack.items };
}

/// Makes sure that there is memory for one more open call.
#[inline(always)]
fn make_room(stack: &mut Vec<OpenCall>, depth: usize, alloc: Global) -> Result<(), AllocError>
    requires { depth ≤ length stack.old.items }
    ensures room { OnOk result (depth < length stack.new.items) }
    ensures within { depth ≤ length stack.new.items }
    ensures same { open_of depth stack.new.items ≡ open_of depth stack.old.items }
{
    if depth < stack.len() {
        return Ok(());
    }
    add_call(stack, alloc)
}

/// Adds memory for a call. Not inlined, since most calls find it.
#[inline(never)]
fn add_call(stack: &mut Vec<OpenCall>, alloc: Global) -> Result<(), AllocError>
    ensures added { (cs : List Call) × (stack.new.items ≡ stack.old.items ++ cs) × OnOk result (0 < length cs) }
{
    stack.push(OpenCall::blank(alloc))?;
    Ok(())
}

impl Machine {
    /// Creates an idle machine from a state and the limits.
    pub fn new(alloc: Global, state: State, most_calls: u64, most_nested: u64) -> Machine
        ensures { result ≡ engine_at state most_calls most_nested }
    {
        Machine {
            alloc,
            most_calls,
            most_nested,
            state,
            calls: 0,
            stack: Vec::new(alloc),
            depth: 0,
            output: Vec::new(alloc),
            messages: Vec::new(alloc),
            saved: Vec::new(alloc),
            effect: EffectBuffer::new(alloc),
        }
    }

    /// Returns the allocator of the machine's contents.
    pub fn alloc(&self) -> Global {
        self.alloc
    }

    /// Appends text to the innermost argument or, outside of calls, to the output or a diversion.
    pub fn put_text(&mut self, text: &[u8]) -> Result<(), TurnFault>
        ensures engine { OnOk result (self.new ≡ with_text text.now self.old) }
        ensures kept { OnErr result (KeepsOutput self.old self.new) }
    {
        if self.depth == 0 {
            return self.put_outside(text);
        }
        let call = &mut self.stack[self.depth - 1];
        call.put_front(text, text.len())?;
        Ok(())
    }

    /// Appends a message.
    pub fn add_message(&mut self, message: &[u8]) -> Result<(), AllocError>
        ensures engine { OnOk result (self.new ≡ with_engine_message message.now self.old) }
        ensures kept { OnErr result (KeepsOutput self.old self.new) }
    {
        self.messages.extend_from_slice(message)
    }

    /// Appends an error message.
    pub fn add_error(&mut self, place: &Place, text: &[u8]) -> Result<(), TurnFault>
        ensures engine { OnOk result (self.new ≡ with_engine_message (error place.now text.now) self.old) }
        ensures kept { OnErr result (KeepsOutput self.old self.new) }
    {
        let message = error_message(self.alloc, place, text)?;
        self.add_message(message.as_slice())?;
        Ok(())
    }

    /// Opens the list of the next call, whose name is the next token of the input: it becomes the innermost.
    #[inline(always)]
    pub fn open_list(&mut self, next: &mut OpenCall, input: &Input) -> Result<(), AllocError>
        ensures engine { OnOk result (self.new ≡ with_open_call
            (call_of next.old.definition next.old.name (place_at input.now.pending)) self.old) }
        ensures kept { OnErr result (KeepsOutput self.old self.new) }
    {
        make_room(&mut self.stack, self.depth, self.alloc)?;
        let call = &mut self.stack[self.depth];
        call.begin(next);
        call.set_place(input)?;
        self.depth += 1;
        Ok(())
    }

    /// Returns whether a text is saved for the end.
    pub fn has_saved(&self) -> bool
        ensures { result ≡ is_saved self.now.saved }
    {
        !self.saved.is_empty()
    }

    /// Removes all saved texts and returns them joined, the last one first.
    pub fn take_saved(&mut self) -> Result<Bytes, AllocError>
        ensures text { IfOk result (λ x. x ≡ joined_back self.old.saved) }
        ensures taken { self.new ≡ record self.old { saved = [] } }
    {
        let mut left = std::mem::replace(&mut self.saved, Vec::new(self.alloc));
        let mut joined = Vec::new(self.alloc);
        while let Some(text) = left.pop() {
            joined.extend_from_slice(text.as_slice())?;
        }
        Bytes::from_vec(joined)
    }

    /// Writes the diversions by rising number, and removes each one from the state.
    pub fn issue<O: ByteSink>(&mut self, out: &mut O) -> Result<(), DeviceFault>
        ensures puts { Puts result (O.contents out.old) (O.contents out.new) (close self.old.state) }
        ensures counted { O.failures out.new ≡ count_after result (O.failures out.old) }
        ensures rest { self.new ≡ record self.old { state = self.new.state } }
    {
        while let Some((_, text)) = self.state.take_least() {
            write_all(out, &text)?;
        }
        Ok(())
    }

    /// Returns the state.
    pub fn state(&self) -> &State
        ensures { result.now ≡ self.now.state }
    {
        &self.state
    }
}
