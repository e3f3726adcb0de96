//! Writes a number in a radix. Manual: "Evaluating integer expressions".

ghost use Rattle.std.specs.Prelude.{◌≡◌, ◌<◌, IfOk, drop, false, length};
ghost use Rattle.std.specs.Fmt.{digits, digit_glyph};
ghost use Rattle.m4_eval.specs.InRadix as spec;

use crate::radix::Radix;
use itoa::Buffer;
use std::alloc::AllocError;

/// Returns a value in a radix: `-` if it is negative, and the digits of its absolute value, in lower
/// case. Zeros before the digits fill them up to `width`; the sign is not counted. The text is in the
/// memory of a buffer whose contents are discarded.
///
/// Fails only if an allocation fails. The time and the memory are proportional to the result.
pub fn in_radix(
    buffer: Vec<u8>,
    value: i32,
    radix: Radix,
    width: usize,
) -> Result<Vec<u8>, AllocError>
    // exact expressions: the sign, the zeros and the digits
    ensures text { IfOk result (λ v. v.items ≡ spec.in_radix radix width value) }
{
    let mut decimal = Buffer::new();
    let mut room = [0; 64];
    let digits = digits_of(value.unsigned_abs(), radix, &mut decimal, &mut room);
    let zeros = width.saturating_sub(digits.len());
    let mut text = buffer;
    text.clear();
    if value < 0 {
        text.push(b'-')?;
    }
    text.resize(text.len() + zeros, b'0')?;
    text.extend_from_slice(digits)?;
    Ok(text)
}

/// Returns the digits of a number in a radix. Those of radix 10 are in the first buffer, others in the second one.
fn digits_of<'a>(
    number: u32,
    radix: Radix,
    decimal: &'a mut Buffer,
    room: &'a mut [u8; 64],
) -> &'a [u8]
    ensures some { 0 < length result.now }
    ensures value { result.now ≡ digits radix false number }
{
    if radix.value() == 10 {
        return decimal.format(number).as_bytes();
    }
    let start = write_digits(number, radix, room);
    room.as_slice().split_at(start).1
}

/// Writes the digits of a number in a radix at the end of a buffer, and returns where they start.
fn write_digits(number: u32, radix: Radix, room: &mut [u8; 64]) -> usize
    ensures within { result < 64 }
    ensures value { drop result room.new ≡ digits radix false number }
{
    let base = radix.value();
    let mut i = 64;
    let mut rest = number;
    while i > 0 {
        i -= 1;
        room[i] = digit_byte(rest % base);
        rest /= base;
        if rest == 0 {
            break;
        }
    }
    i
}

/// Returns the digit with a value below 36: `0` to `9`, then `a` to `z`.
fn digit_byte(value: u32) -> u8
    ensures { value < 36 → result ≡ digit_glyph false value }
{
    let low = (value % 36) as u8;
    if low < 10 {
        b'0' + low
    } else {
        b'a' + (low - 10)
    }
}
