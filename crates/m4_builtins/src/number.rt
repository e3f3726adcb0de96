//! The number in a builtin's argument. Definitions and code share [`Reading`].
//! Manual: "Macro arguments", and the sections of the builtins that take numbers.

ghost use Rattle.std.specs.Prelude.{◌≡◌, ◌++◌, OnOk, IfOk};
ghost use Rattle.m4_builtins.specs.Numeric as spec;

use crate::effect_buffer::EffectBuffer;
use crate::messages::Warning;
use crate::place::Place;
use crate::substitute::number_at;
use m4_eval::blank::spaces_len;
use m4_state::builtin::Builtin;
use std::alloc::AllocError;

/// The result of reading a numeric argument.
#[derive(Clone, Copy)]
pub enum Reading {
    /// A signed number of 32 bits.
    Number(i32),
    /// Empty: it counts as 0, with a warning.
    Empty,
    /// No such number; a warning is given.
    NotNumeric,
}

/// The greatest number after a `-`; without it the greatest is one less.
const MAGNITUDE_LIMIT: usize = 0x8000_0000;

/// Reads a numeric argument. White space may come before a number, and a sign; nothing may follow
/// it.
pub(crate) fn reading_of(text: &[u8]) -> Reading
    ensures { result ≡ spec.reading_of text.now }
{
    match text {
        [] => Reading::Empty,
        [..] => read_signed(text.split_at(spaces_len(text)).1),
    }
}

/// Returns the number of an argument, if it has one. Adds the warning on it to the messages.
pub(crate) fn number_in(
    effect: &mut EffectBuffer,
    text: &[u8],
    place: &Place,
    builtin: Builtin,
) -> Result<Option<i32>, AllocError>
    ensures number { IfOk result (λ n. n ≡ spec.number_of_reading (spec.reading_of text.now)) }
    ensures warns { OnOk result (effect.new ≡ record effect.old
        { messages = effect.old.messages ++ spec.reading_warning place.now builtin (spec.reading_of text.now) }) }
{
    match reading_of(text) {
        Reading::Number(number) => Ok(Some(number)),
        Reading::Empty => {
            effect.add_warning(place, Warning::EmptyNumber(builtin))?;
            Ok(Some(0))
        }
        Reading::NotNumeric => {
            effect.add_warning(place, Warning::NotNumeric(builtin))?;
            Ok(None)
        }
    }
}

/// Reads the number of a text that begins with a sign or with digits.
fn read_signed(text: &[u8]) -> Reading
    ensures { result ≡ spec.read_signed text.now }
{
    match text {
        [] => Reading::NotNumeric,
        [b'-', digits @ ..] => read_digits(true, digits),
        [b'+', digits @ ..] => read_digits(false, digits),
        [..] => read_digits(false, text),
    }
}

/// Reads the number of the digits after a sign.
fn read_digits(negative: bool, digits: &[u8]) -> Reading
    ensures { result ≡ spec.read_digits negative digits.now }
{
    let (len, number) = number_at(digits);
    if len == 0 || len < digits.len() {
        return Reading::NotNumeric;
    }
    match number {
        Some(n) => if_it_fits(negative, n),
        None => Reading::NotNumeric,
    }
}

/// Returns a number after a sign, if it has 32 bits.
fn if_it_fits(negative: bool, n: usize) -> Reading
    ensures { result ≡ spec.if_it_fits negative n }
{
    if negative && n <= MAGNITUDE_LIMIT {
        return Reading::Number(-(n as i64) as i32);
    }
    if !negative && n < MAGNITUDE_LIMIT {
        return Reading::Number(n as i32);
    }
    Reading::NotNumeric
}
