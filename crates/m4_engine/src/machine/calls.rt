//! Calls: a call begins at its name and is made when its arguments are complete. Its result is pushed.
//! Manual: "Macro invocation", "Macro arguments".

ghost use Rattle.std.specs.Prelude.{◌≡◌, ◌≢◌, ◌<◌, ◌≤◌, [], ◌++◌, length, None, Some, IfOk, IfSome, OnOk, OnErr};
ghost use Rattle.std.specs.Prelude.{option_copied};
ghost use Rattle.m4_input.specs.declared.pushed.Pushed.TheVariants as pushes;
ghost use Rattle.m4_builtins.specs.Act.{IsPushed, nothing};
ghost use Rattle.m4_engine.specs.Engine.{Engine, HasFront, KeepsOutput, with_made, with_open_call};
ghost use Rattle.m4_engine.specs.Expand.{with_saved};
ghost use Rattle.m4_engine.specs.Expansion.{Call};
ghost use Rattle.m4_engine.specs.MachineView.{open_of};
ghost use Rattle.m4_engine.specs.Turns.{IsGiven, IsTaken, StepsBy, Pushes, Stays, called_within, with_own};

use crate::call::OpenCall;
use crate::machine::Machine;
use crate::turned::{TurnEnd, TurnFault, Turned};
use m4_builtins::act::act_on;
use m4_builtins::effect_buffer::EffectBuffer;
use m4_input::fault::InputFault;
use m4_input::input::Input;
use m4_input::pushed::Pushed;
use m4_state::bytes::Bytes;
use std::alloc::AllocError;

/// How many calls may keep the memory of a long list.
const LONG: usize = 4;

/// How many arguments these keep at most, each. No argument that is kept is large.
const LONG_LIST: usize = 4096;

/// How many arguments any other call keeps at most.
const USUAL: usize = 8;

/// Pushes a value: it is read before everything else.
#[inline(always)]
#[tactic(auto, using(crate::proofs::Inputs::pushed))]
pub(super) fn push(input: &mut Input, value: Pushed) -> Result<(), TurnFault>
    requires input { IsTaken input.old }
    requires valid { IsPushed (Some value) }
    ensures pushes { OnOk result (Pushes input.old.pending input.new.pending (Some value)) }
    ensures stays { OnOk result (Stays input.old input.new) }
{
    match input.push_front(value) {
        Ok(()) => Ok(()),
        Err(InputFault::OutOfMemory) => Err(TurnFault::OutOfMemory),
        // A turn uses no reader.
        Err(_) => unreachable!(),
    }
}

/// Pushes a text. A short one is copied to its place, and nothing is done for an empty one, which many macros have.
#[inline(always)]
#[tactic(auto, using(crate::proofs::Inputs::pushed, crate::proofs::Inputs::no_text))]
pub(super) fn push_text(input: &mut Input, text: &Bytes) -> Result<(), TurnFault>
    requires input { IsTaken input.old }
    ensures pushes { OnOk result (Pushes input.old.pending input.new.pending (Some (pushes.Text text.now))) }
    ensures stays { OnOk result (Stays input.old input.new) }
{
    let bytes = text.as_slice();
    if bytes.is_empty() || input.push_in_place(bytes) {
        return Ok(());
    }
    push_shared(input, text)
}

/// Pushes a text that is shared. Not inlined, since most texts are short.
#[inline(never)]
#[tactic(auto, using(crate::proofs::Inputs::pushed))]
fn push_shared(input: &mut Input, text: &Bytes) -> Result<(), TurnFault>
    requires input { IsTaken input.old }
    ensures pushes { OnOk result (Pushes input.old.pending input.new.pending (Some (pushes.Text text.now))) }
    ensures stays { OnOk result (Stays input.old input.new) }
{
    push(input, Pushed::Text(text.share()?))
}

/// Pushes the value of a call, if it has one. A short text that the call made is copied to its place. Nothing is done
/// for an empty one, which many calls make.
#[inline(always)]
#[tactic(auto, using(crate::proofs::Inputs::pushed, crate::proofs::Inputs::unpushed, crate::proofs::Inputs::no_text))]
fn push_value(input: &mut Input, effect: &mut EffectBuffer) -> Result<(), TurnFault>
    requires input { IsTaken input.old }
    ensures pushes { OnOk result (Pushes input.old.pending input.new.pending effect.old.push) }
    ensures stays { OnOk result (Stays input.old input.new) }
{
    if let Some(text) = effect.made_text() {
        if text.is_empty() || input.push_in_place(text) {
            return Ok(());
        }
    }
    push_kept(input, effect)
}

/// Pushes the value of a call that is no short text. Then it gives the effect the memory of a text that was read to its
/// end, if it has none, since that of its own text is now the input's. Not inlined, since most values are short texts.
#[inline(never)]
#[tactic(auto, using(crate::proofs::Inputs::pushed, crate::proofs::Inputs::unpushed))]
fn push_kept(input: &mut Input, effect: &mut EffectBuffer) -> Result<(), TurnFault>
    requires input { IsTaken input.old }
    ensures pushes { OnOk result (Pushes input.old.pending input.new.pending effect.old.push) }
    ensures stays { OnOk result (Stays input.old input.new) }
{
    if let Some(value) = effect.take_push() {
        push(input, value)?;
        if !effect.has_memory() {
            effect.lend(input.take_buffer());
        }
    }
    Ok(())
}

/// Does what a call leaves to do: pushes the text that is its own expansion, if it is one, and otherwise does what the
/// effect says. Most calls leave only a value to be pushed.
#[inline(always)]
fn give(
    own: Option<&Bytes>,
    effect: &mut EffectBuffer,
    messages: &mut Vec<u8>,
    output: &mut Vec<u8>,
    saved: &mut Vec<Bytes>,
    input: &mut Input,
) -> Result<Turned, TurnFault>
    requires input { IsTaken input.old }
    requires own { IfSome own (λ text. effect.old ≡ nothing) }
    ensures messages { OnOk result (messages.new.items ≡ messages.old.items ++ effect.old.messages) }
    ensures output { OnOk result (output.new.items ≡ output.old.items ++ effect.old.output) }
    ensures saved { OnOk result (saved.new.items ≡ with_saved effect.old.wrap saved.old.items) }
    ensures given { IfOk result (λ t. IsGiven t (with_own (option_copied own.entry) effect.old) input.old input.new) }
    ensures kept { OnErr result (HasFront output.old.items output.new.items) }
{
    if let Some(text) = own {
        push_text(input, text)?;
        return Ok(Turned::GoesOn);
    }
    if effect.has_more() {
        return give_more(effect, messages, output, saved, input);
    }
    push_value(input, effect)?;
    Ok(Turned::GoesOn)
}

/// Does all that an effect says: appends its messages, its output and its saved text to the buffers, and pushes its
/// value, unless it ends the run or the rest of the line is skipped. Not inlined, since hardly any call leaves that.
#[inline(never)]
fn give_more(
    effect: &mut EffectBuffer,
    messages: &mut Vec<u8>,
    output: &mut Vec<u8>,
    saved: &mut Vec<Bytes>,
    input: &mut Input,
) -> Result<Turned, TurnFault>
    requires input { IsTaken input.old }
    ensures messages { OnOk result (messages.new.items ≡ messages.old.items ++ effect.old.messages) }
    ensures output { OnOk result (output.new.items ≡ output.old.items ++ effect.old.output) }
    ensures saved { OnOk result (saved.new.items ≡ with_saved effect.old.wrap saved.old.items) }
    ensures given { IfOk result (λ t. IsGiven t effect.old input.old input.new) }
    ensures kept { OnErr result (HasFront output.old.items output.new.items) }
{
    messages.extend_from_slice(effect.messages())?;
    output.extend_from_slice(effect.output())?;
    if let Some(text) = effect.take_wrap() {
        if let Err(failed) = saved.push(text) {
            return Err(AllocError::from(failed).into());
        }
    }
    if let Some(code) = effect.exit() {
        return Ok(Turned::Ends(TurnEnd::Exited(code)));
    }
    if effect.skips() {
        return Ok(Turned::SkipsLine);
    }
    push_value(input, effect)?;
    Ok(Turned::GoesOn)
}

/// Moves the memory of the call that was made last, if any, to the innermost of the first `depth` calls. Deeply nested
/// calls are made one after another, the innermost first, so that one memory serves all of them.
#[inline(always)]
fn move_memory(stack: &mut Vec<OpenCall>, depth: usize)
    requires some { 0 < depth }
    requires within { depth ≤ length stack.old.items }
    ensures same { open_of depth stack.new.items ≡ open_of depth stack.old.items }
    ensures within { depth ≤ length stack.new.items }
{
    let (open, made) = stack.split_at_mut(depth);
    if let Some(outer) = open.last_mut()
        && let Some(inner) = made.first_mut()
    {
        outer.take_memory(inner);
    }
}

impl Machine {
    /// Makes the innermost call, whose arguments are complete: closes its list, acts on it, and does what it leaves to
    /// do.
    #[inline(always)]
    pub(super) fn call(&mut self, input: &mut Input) -> Result<Turned, TurnFault>
        requires taken { IsTaken input.old }
        requires inside { self.old.open_calls ≢ [] }
        ensures steps { (c : Call) (e : Engine) → self.old ≡ with_open_call c e
            → StepsBy result e self.new input.old input.new (called_within e.open_calls c) }
        ensures kept { OnErr result (KeepsOutput self.old self.new) }
    {
        self.effect.clear();
        self.depth -= 1;
        let call = &mut self.stack[self.depth];
        let own = act_on(
            &mut self.effect,
            call.definition(),
            call.name(),
            call.arguments(),
            call.place(),
            &mut self.state,
        )?;
        let turned = give(
            own,
            &mut self.effect,
            &mut self.messages,
            &mut self.output,
            &mut self.saved,
            input,
        )?;
        call.shed(if self.depth < LONG { LONG_LIST } else { USUAL });
        self.begin_argument();
        Ok(turned)
    }

    /// Marks the argument that contains a call as begun, and gives the call around it memory for it.
    #[inline(always)]
    pub(super) fn begin_argument(&mut self)
        ensures { self.new ≡ with_made [] [] None self.old }
    {
        if self.depth == 0 {
            return;
        }
        let call = &mut self.stack[self.depth - 1];
        call.mark_begun();
        if call.needs_memory() {
            move_memory(&mut self.stack, self.depth);
        }
    }
}
