//! The builtins that choose among their arguments. Manual: "Testing if a macro is defined", "If-else
//! construct, or multibranch", "Recursion in m4".

ghost use Rattle.std.specs.Prelude.{◌≡◌, OnOk, option_copied};
ghost use Rattle.m4_builtins.specs.Acted.{nothing};
ghost use Rattle.m4_builtins.specs.Args.{texts_of};
ghost use Rattle.m4_builtins.specs.EffectView.{text_of_any};
ghost use Rattle.m4_builtins.specs.Branching as spec;

use crate::args::{Arg, text_at, text_of};
use crate::effect_buffer::EffectBuffer;
use crate::messages::Warning;
use crate::place::Place;
use crate::substitute::push_quoted;
use m4_state::builtin::Builtin;
use m4_state::state::State;
use m4_state::words::are_equal;
use std::alloc::AllocError;

/// Expands to the second argument if the first has a definition, otherwise to the third. Manual:
/// "Testing if a macro is defined".
#[tactic(auto, using(crate::proofs::Joins::any_at))]
pub(crate) fn ifdef(
    effect: &mut EffectBuffer,
    list: &[Arg],
    state: &State,
) -> Result<(), AllocError>
    requires { effect.old ≡ nothing }
    ensures { OnOk result (effect.new ≡ spec.ifdef list.now state.now) }
{
    let chosen = match state.top(text_at(list, 0)) {
        Some(_) => list.get(1),
        None => list.get(2),
    };
    effect.give_argument(chosen)
}

/// Compares two arguments. Expands to the third if they are equal; otherwise continues after it. Manual:
/// "If-else construct, or multibranch".
pub(crate) fn ifelse(
    effect: &mut EffectBuffer,
    list: &[Arg],
    place: &Place,
) -> Result<(), AllocError>
    requires { effect.old ≡ nothing }
    ensures { OnOk result (effect.new ≡ spec.ifelse list.now place.now) }
{
    match list {
        [] | [_] => {}
        [_, _] => effect.add_warning(place, Warning::TooFew(Builtin::Ifelse))?,
        [..] => {
            effect.give_argument(chosen(list))?;
            if has_extra(list.len()) {
                effect.add_warning(place, Warning::Excess(Builtin::Ifelse))?;
            }
        }
    }
    Ok(())
}

/// Returns the argument that is chosen, of three or more; none if the call expands to nothing.
fn chosen(list: &[Arg]) -> Option<&Arg>
    ensures { text_of_any (option_copied result) ≡ spec.chosen_text (texts_of list.now) }
{
    let mut rest = list;
    while let [x, y, same, others @ ..] = rest {
        if are_equal(text_of(x), text_of(y)) {
            return Some(same);
        }
        match others {
            [other] | [other, _] => return Some(other),
            [..] => rest = others,
        }
    }
    None
}

/// Returns whether an argument is left over after the last two texts and their results.
fn has_extra(count: usize) -> bool
    ensures { result ≡ spec.has_extra count }
{
    count >= 5 && count % 3 == 2
}

/// Expands to all arguments but the first, each between quotes. Manual: "Recursion in m4".
pub(crate) fn shift(
    effect: &mut EffectBuffer,
    list: &[Arg],
    state: &State,
) -> Result<(), AllocError>
    requires { effect.old ≡ nothing }
    ensures { OnOk result (effect.new ≡ spec.shift list.now state.now) }
{
    let mut text = effect.buffer();
    if let Some((_, rest)) = list.split_first() {
        push_quoted(&mut text, rest, state.quotes())?;
    }
    effect.give(text);
    Ok(())
}
