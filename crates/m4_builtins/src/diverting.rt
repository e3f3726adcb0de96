//! The builtins that divert text and undivert it. Manual: "Diverting output", "Undiverting output",
//! "Diversion numbers".

ghost use Rattle.std.specs.Prelude.{◌≡◌, ◌++◌, OnOk, IfOk, flat_map, filter_map};
ghost use Rattle.m4_state.specs.declared.builtin.Builtin.TheVariants as builtins;
ghost use Rattle.m4_builtins.specs.Acted.{nothing};
ghost use Rattle.m4_builtins.specs.Diverting as spec;
ghost use Rattle.m4_builtins.specs.Numeric.{number_of_reading, reading_warning};
ghost use Rattle.m4_builtins.specs.Warned.{with_messages};

use crate::args::{Arg, text_at, text_of};
use crate::effect_buffer::EffectBuffer;
use crate::fault::BuiltinFault;
use crate::number::number_in;
use crate::place::Place;
use m4_state::builtin::Builtin;
use m4_state::state::State;
use std::alloc::{AllocError, Global};

/// Selects the diversion with a number; 0 if there is no argument. An invalid number changes nothing.
/// Manual: "Diverting output".
pub(crate) fn divert(
    effect: &mut EffectBuffer,
    list: &[Arg],
    place: &Place,
    state: &mut State,
) -> Result<(), BuiltinFault>
    requires { effect.old ≡ nothing }
    ensures { OnOk result (spec.divert list.now place.now state.old
        ≡ record { state = state.new; effect = effect.new }) }
{
    if list.is_empty() {
        state.divert(0);
        return Ok(());
    }
    if let Some(number) = number_in(effect, text_at(list, 0), place, Builtin::Divert)? {
        state.divert(number);
    }
    Ok(())
}

/// Undiverts the diversions with these numbers, or all if there is no argument. Invalid numbers are
/// skipped. Manual: "Undiverting output".
pub(crate) fn undivert(
    effect: &mut EffectBuffer,
    list: &[Arg],
    place: &Place,
    state: &mut State,
) -> Result<(), BuiltinFault>
    requires { effect.old ≡ nothing }
    ensures { OnOk result (spec.undivert list.now place.now state.old
        ≡ record { state = state.new; effect = effect.new }) }
{
    let alloc = effect.alloc();
    let mut output = Vec::new(alloc);
    if list.is_empty() {
        let numbers = held_numbers(alloc, state)?;
        bring_back(numbers.as_slice(), state, &mut output)?;
    } else {
        bring_back_each(effect, list, place, state, &mut output)?;
    }
    effect.set_output(output);
    Ok(())
}

/// Expands to the number of the current diversion. Manual: "Diversion numbers".
pub(crate) fn divnum(effect: &mut EffectBuffer, state: &State) -> Result<(), AllocError>
    requires { effect.old ≡ nothing }
    ensures { OnOk result (effect.new ≡ spec.divnum state.now) }
{
    effect.give_number(state.current())
}

/// Returns the numbers of the diversions that contain text, in rising order.
fn held_numbers(alloc: Global, state: &State) -> Result<Vec<i32>, AllocError>
    ensures { IfOk result (λ v. v.items ≡ spec.held_numbers state.now) }
{
    let mut numbers = Vec::new(alloc);
    let mut last = 0;
    while let Some(number) = state.next_diversion(last) {
        numbers.push(number)?;
        last = number;
    }
    Ok(numbers)
}

/// Undiverts the diversions whose numbers the arguments are, one after another, and appends their text to the output.
/// Adds the warnings on arguments that are no numbers.
fn bring_back_each(
    effect: &mut EffectBuffer,
    list: &[Arg],
    place: &Place,
    state: &mut State,
    output: &mut Vec<u8>,
) -> Result<(), BuiltinFault>
    ensures state { OnOk result (state.new
        ≡ spec.brought_back (filter_map number_of_reading (spec.readings_of list.now)) state.old) }
    ensures output { OnOk result (output.new.items ≡ output.old.items
        ++ spec.issued_by_all (filter_map number_of_reading (spec.readings_of list.now)) state.old) }
    ensures warns { OnOk result (effect.new ≡ with_messages effect.old
        (flat_map (reading_warning place.now builtins.Undivert) (spec.readings_of list.now))) }
{
    for arg in list {
        if let Some(number) = number_in(effect, text_of(arg), place, Builtin::Undivert)? {
            bring_back(&[number], state, output)?;
        }
    }
    Ok(())
}

/// Undiverts diversions, one after another, and appends their text to the output.
fn bring_back(numbers: &[i32], state: &mut State, output: &mut Vec<u8>) -> Result<(), BuiltinFault>
    ensures state { OnOk result (state.new ≡ spec.brought_back numbers.now state.old) }
    ensures output { OnOk result (output.new.items ≡ output.old.items ++ spec.issued_by_all numbers.now state.old) }
{
    for number in numbers {
        if let Some(text) = state.undivert(*number)? {
            output.extend_from_slice(text.as_slice())?;
        }
    }
    Ok(())
}
