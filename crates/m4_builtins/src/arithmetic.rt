//! The builtins that increment and decrement. Manual: "Decrement and increment operators".

ghost use Rattle.std.specs.Prelude.{◌≡◌, OnOk};
ghost use Rattle.m4_builtins.specs.Acted.{nothing};
ghost use Rattle.m4_builtins.specs.Arithmetic as spec;

use crate::args::{Arg, text_at};
use crate::effect_buffer::EffectBuffer;
use crate::number::number_in;
use crate::place::Place;
use m4_state::builtin::Builtin;
use std::alloc::AllocError;

/// Adds 1 to a number; the greatest number wraps to the least. Manual: "Decrement and increment
/// operators".
pub(crate) fn incr(effect: &mut EffectBuffer, list: &[Arg], place: &Place) -> Result<(), AllocError>
    requires { effect.old ≡ nothing }
    ensures { OnOk result (effect.new ≡ spec.incr list.now place.now) }
{
    match number_in(effect, text_at(list, 0), place, Builtin::Incr)? {
        Some(number) => effect.give_number(number.wrapping_add(1)),
        None => Ok(()),
    }
}

/// Subtracts 1 from a number; the least number wraps to the greatest. Manual: "Decrement and increment
/// operators".
pub(crate) fn decr(effect: &mut EffectBuffer, list: &[Arg], place: &Place) -> Result<(), AllocError>
    requires { effect.old ≡ nothing }
    ensures { OnOk result (effect.new ≡ spec.decr list.now place.now) }
{
    match number_in(effect, text_at(list, 0), place, Builtin::Decr)? {
        Some(number) => effect.give_number(number.wrapping_sub(1)),
        None => Ok(()),
    }
}
