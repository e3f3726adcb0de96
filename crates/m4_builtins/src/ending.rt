//! The builtins that save text for the end of the input, or end the run. Manual: "Saving text until end
//! of input", "Exiting from m4".

ghost use Rattle.std.specs.Prelude.{◌≡◌, OnOk};
ghost use Rattle.m4_builtins.specs.Acted.{nothing};
ghost use Rattle.m4_builtins.specs.Ending as spec;

use crate::args::{Arg, text_of};
use crate::effect_buffer::EffectBuffer;
use crate::messages::Warning;
use crate::number::{Reading, reading_of};
use crate::place::Place;
use crate::substitute::push_joined;
use m4_state::builtin::Builtin;
use std::alloc::AllocError;

/// Saves the arguments, joined by spaces, until all input is read. Manual: "Saving text until end of
/// input".
pub(crate) fn m4wrap(effect: &mut EffectBuffer, list: &[Arg]) -> Result<(), AllocError>
    requires { effect.old ≡ nothing }
    ensures { OnOk result (effect.new ≡ spec.m4wrap list.now) }
{
    let mut text = effect.buffer();
    push_joined(&mut text, list, b' ')?;
    effect.save(text);
    Ok(())
}

/// Ends the run with a code: 0 if there is no argument, and 1 with a warning if the argument is no code.
/// Manual: "Exiting from m4".
pub(crate) fn m4exit(
    effect: &mut EffectBuffer,
    list: &[Arg],
    place: &Place,
) -> Result<(), AllocError>
    requires { effect.old ≡ nothing }
    ensures { OnOk result (effect.new ≡ spec.m4exit list.now place.now) }
{
    let Some(first) = list.first() else {
        effect.end_with(0);
        return Ok(());
    };
    end_by(effect, reading_of(text_of(first)), place)
}

/// Ends the run with the code that an argument was read as.
fn end_by(effect: &mut EffectBuffer, reading: Reading, place: &Place) -> Result<(), AllocError>
    requires { effect.old ≡ nothing }
    ensures { OnOk result (effect.new ≡ spec.exits_reading reading place.now) }
{
    let (code, warning) = match reading {
        Reading::Number(number) => match u8::try_from(number) {
            Ok(code) => {
                effect.end_with(code);
                return Ok(());
            }
            Err(_) => (1, Warning::BadStatus),
        },
        Reading::Empty => (0, Warning::EmptyNumber(Builtin::M4exit)),
        Reading::NotNumeric => (1, Warning::NotNumeric(Builtin::M4exit)),
    };
    effect.end_with(code);
    effect.add_warning(place, warning)
}
