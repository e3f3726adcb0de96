//! The builtin that computes an expression; m4_eval computes its value. Manual: "Evaluating integer
//! expressions".

ghost use Rattle.std.specs.Prelude.{◌≡◌, IfOk, OnOk, option_copied, option_map};
ghost use Rattle.m4_builtins.specs.Acted.{nothing};
ghost use Rattle.m4_builtins.specs.Args.{text_of_arg};
ghost use Rattle.m4_builtins.specs.Eval as spec;
ghost use Rattle.m4_builtins.specs.ReadsAs.{ReadsAs};

use crate::args::{Arg, text_at, text_of};
use crate::effect_buffer::EffectBuffer;
use crate::messages::Warning;
use crate::number::number_in;
use crate::place::Place;
use m4_eval::blank::is_blank;
use m4_eval::digits::in_radix;
use m4_eval::evaluate::{Evaluated, evaluate};
use m4_eval::radix::Radix;
use m4_state::builtin::Builtin;
use m4_state::text_buffer::TextBuffer;
use std::alloc::AllocError;

/// Expands to the value of the first argument, in the radix of the second one, with at least as many
/// digits as the third one says. The first invalid argument ends the call with a warning. Manual:
/// "Evaluating integer expressions".
pub(crate) fn eval(effect: &mut EffectBuffer, list: &[Arg], place: &Place) -> Result<(), AllocError>
    requires { effect.old ≡ nothing }
    ensures { OnOk result (effect.new ≡ spec.eval list.now place.now) }
{
    let buffer = effect.buffer().take();
    if let Some(digits) = digits_in(effect, buffer, list, place)? {
        effect.give(TextBuffer::from(digits));
    }
    Ok(())
}

/// Returns the digits of the expression's value, in the memory of a buffer; none if an argument is invalid.
/// Adds the warnings to the messages.
fn digits_in(
    effect: &mut EffectBuffer,
    buffer: Vec<u8>,
    list: &[Arg],
    place: &Place,
) -> Result<Option<Vec<u8>>, AllocError>
    ensures { IfOk result (λ digits. ReadsAs (spec.with_digits list.now place.now)
        (option_map (λ v. v.items) digits) effect.old effect.new) }
{
    let Some(radix) = radix_in(effect, text_at(list, 1), place)? else {
        return Ok(None);
    };
    let Some(width) = width_in(effect, list.get(2), place)? else {
        return Ok(None);
    };
    let Some(value) = value_in(effect, text_at(list, 0), place)? else {
        return Ok(None);
    };
    Ok(Some(in_radix(buffer, value, radix, width)?))
}

/// Returns the radix: 10 if its argument is missing or empty, none if it is invalid.
fn radix_in(
    effect: &mut EffectBuffer,
    text: &[u8],
    place: &Place,
) -> Result<Option<Radix>, AllocError>
    ensures { IfOk result (λ radix. ReadsAs (spec.with_radix place.now text.now) radix effect.old effect.new) }
{
    if text.is_empty() {
        return Ok(Some(Radix::decimal()));
    }
    let Some(number) = number_in(effect, text, place, Builtin::Eval)? else {
        return Ok(None);
    };
    let radix = Radix::new(number);
    if radix.is_none() {
        effect.add_warning(place, Warning::OutOfRange)?;
    }
    Ok(radix)
}

/// Returns the minimum number of digits: 0 if its argument is missing, none if it is invalid.
fn width_in(
    effect: &mut EffectBuffer,
    arg: Option<&Arg>,
    place: &Place,
) -> Result<Option<usize>, AllocError>
    ensures { IfOk result (λ width. ReadsAs (spec.with_width place.now
        (option_map text_of_arg (option_copied arg.entry))) width effect.old effect.new) }
{
    let Some(arg) = arg else {
        return Ok(Some(0));
    };
    let Some(number) = number_in(effect, text_of(arg), place, Builtin::Eval)? else {
        return Ok(None);
    };
    match usize::try_from(number) {
        Ok(width) => Ok(Some(width)),
        Err(_negative) => {
            effect.add_warning(place, Warning::OutOfRange)?;
            Ok(None)
        }
    }
}

/// Returns the value of an expression: 0 if it is empty or only white space, none if it has no
/// value.
fn value_in(
    effect: &mut EffectBuffer,
    text: &[u8],
    place: &Place,
) -> Result<Option<i32>, AllocError>
    ensures { IfOk result (λ value. ReadsAs (spec.with_expression place.now text.now) value effect.old effect.new) }
{
    if is_blank(text) {
        effect.add_warning(place, Warning::EmptyNumber(Builtin::Eval))?;
        return Ok(Some(0));
    }
    let warning = match evaluate(effect.alloc(), text)? {
        Evaluated::Value(value) => return Ok(Some(value)),
        Evaluated::DivideByZero => Warning::DivideByZero,
        Evaluated::BadExpression => Warning::BadExpression,
    };
    effect.add_warning(place, warning)?;
    Ok(None)
}
