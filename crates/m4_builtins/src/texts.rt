//! The builtins that measure texts, search them and cut them. Manual: "Calculating length of strings",
//! "Searching for substrings", "Extracting substrings".

ghost use Rattle.std.specs.Prelude.{◌≡◌, OnOk};
ghost use Rattle.m4_builtins.specs.Acted.{nothing};
ghost use Rattle.m4_builtins.specs.Texts as spec;

use crate::args::{Arg, text_at, text_of};
use crate::effect_buffer::EffectBuffer;
use crate::number::number_in;
use crate::place::Place;
use m4_state::builtin::Builtin;
use memchr::memmem;
use std::alloc::AllocError;

/// Expands to the number of bytes of the first argument. Manual: "Calculating length of strings".
pub(crate) fn len(effect: &mut EffectBuffer, list: &[Arg]) -> Result<(), AllocError>
    requires { effect.old ≡ nothing }
    ensures { OnOk result (effect.new ≡ spec.len list.now) }
{
    effect.give_number(text_at(list, 0).len())
}

/// Expands to the first place of the second argument in the first one, from 0; to -1 if there is none.
/// Takes time in proportion to both. Manual: "Searching for substrings".
pub(crate) fn index(effect: &mut EffectBuffer, list: &[Arg]) -> Result<(), AllocError>
    requires { effect.old ≡ nothing }
    ensures { OnOk result (effect.new ≡ spec.index list.now) }
{
    match memmem::find(text_at(list, 0), text_at(list, 1)) {
        Some(place) => effect.give_number(place),
        None => effect.give_copy(b"-1"),
    }
}

/// Expands to the first argument from the place that the second one names, and to at most as many bytes
/// as the third one says. Both numbers are read before anything is cut; the first invalid one ends the
/// call. Manual: "Extracting substrings".
pub(crate) fn substr(
    effect: &mut EffectBuffer,
    list: &[Arg],
    place: &Place,
) -> Result<(), AllocError>
    requires { effect.old ≡ nothing }
    ensures { OnOk result (effect.new ≡ spec.substr list.now place.now) }
{
    let [text, from, counts @ ..] = list else {
        return Ok(());
    };
    let Some(from) = number_in(effect, text_of(from), place, Builtin::Substr)? else {
        return Ok(());
    };
    let mut part = from_place(text_of(text), from);
    if let [count, ..] = counts {
        let Some(count) = number_in(effect, text_of(count), place, Builtin::Substr)? else {
            return Ok(());
        };
        part = at_most(part, count);
    }
    effect.give_copy(part)
}

/// Returns the bytes from a place on; none if the place is negative, or after the end of the text.
fn from_place(text: &[u8], place: i32) -> &[u8]
    ensures { result.now ≡ spec.from_place place text.now }
{
    match usize::try_from(place) {
        Ok(place) => text.get(place..).unwrap_or(&[]),
        Err(_negative) => &[],
    }
}

/// Returns at most `count` bytes; none if the count is negative.
fn at_most(text: &[u8], count: i32) -> &[u8]
    ensures { result.now ≡ spec.at_most count text.now }
{
    match usize::try_from(count) {
        Ok(count) => text.get(..count).unwrap_or(text),
        Err(_negative) => &[],
    }
}
