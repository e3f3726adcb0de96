//! Numbers at the start of bytes: the version, the lengths of strings, the numbers of diversions.
//!
//! A number's value is checked before the byte that follows its digits. The fault of a number that is
//! too large is at its first digit, or at its sign. Manual: "Frozen file format".

ghost use Rattle.std.specs.Prelude.{◌≡◌, ◌-◌, ◌<◌, ◌^◌, IsTrue, IfOk, IfSome};
ghost use Rattle.std.specs.Option.{SomeIff};
ghost use Rattle.std.specs.List.{list_all};
ghost use Rattle.std.specs.Char.{is_ascii_digit};
ghost use Rattle.m4_frozen.specs.Spells.{value_of};
ghost use Rattle.m4_frozen.specs.ReaderSteps as steps;
ghost use Rattle.m4_frozen.specs.StepOutcome.{Gives};
ghost use Rattle.m4_frozen.specs.Underway.{BeginsWithNumber};

use crate::fault::{FrozenKind, Refusal, refused_at};

/// The magnitude of the least diversion number. The greatest number is one less.
const MAGNITUDE_LIMIT: u64 = 0x8000_0000;

/// Returns the bytes after spaces and tabs.
pub(crate) fn skip_blanks(bytes: &[u8]) -> &[u8]
    ensures { result.now ≡ steps.skip_blanks bytes.now }
{
    for (i, b) in bytes.iter().enumerate() {
        if *b != b' ' && *b != b'\t' {
            return bytes.split_at(i).1;
        }
    }
    &[]
}

/// Returns the digits at the start, and the bytes after them.
fn digits(bytes: &[u8]) -> (&[u8], &[u8])
    ensures digits { result.0.now ≡ (steps.digits_at bytes.now).0 }
    ensures rest { result.1.now ≡ (steps.digits_at bytes.now).1 }
{
    for (i, b) in bytes.iter().enumerate() {
        if !b.is_ascii_digit() {
            return bytes.split_at(i);
        }
    }
    (bytes, &[])
}

/// Returns whether all bytes are digits.
pub(crate) fn are_digits(bytes: &[u8]) -> bool
    ensures { result ≡ list_all is_ascii_digit bytes.now }
{
    bytes.iter().all(|b| b.is_ascii_digit())
}

/// Returns the value of the digits, if it fits.
fn value(digits: &[u8]) -> Option<u64>
    requires { IsTrue (list_all is_ascii_digit digits.now) }
    ensures { SomeIff result (value_of digits.now < 2 ^ 64) (value_of digits.now) }
{
    let mut n = 0u64;
    for b in digits {
        n = n.checked_mul(10)?.checked_add(u64::from(*b - b'0'))?;
    }
    Some(n)
}

/// Returns the digits at the start, at least one, and the bytes after them.
fn some_digits(bytes: &[u8]) -> Result<(&[u8], &[u8]), Refusal>
    ensures gives { Gives (λ x. (x.0.now, x.1.now)) result (steps.some_digits_at bytes.now) }
    ensures are { IfOk result (λ x. IsTrue (list_all is_ascii_digit x.0.now)) }
{
    match bytes {
        [] => Err(refused_at(FrozenKind::PrematureEnd, bytes)),
        [first, ..] if first.is_ascii_digit() => Ok(digits(bytes)),
        [..] => Err(refused_at(FrozenKind::DigitExpected, bytes)),
    }
}

/// Reads the length of a string; returns it and the bytes after it. Most lengths have few digits and no blanks before
/// them.
#[inline(always)]
pub(crate) fn length(bytes: &[u8]) -> Result<(u64, &[u8]), Refusal>
    ensures { Gives (λ x. (x.0, x.1.now)) result (steps.length_at bytes.now) }
{
    match few_digits(bytes) {
        Some(found) => Ok(found),
        None => any_length(bytes),
    }
}

/// Returns the value of a digit.
#[inline(always)]
fn digit(byte: u8) -> u64
    requires { IsTrue (is_ascii_digit byte) }
    ensures value { result ≡ byte - 48 }
    ensures few { result < 10 }
{
    u64::from(byte - b'0')
}

/// Returns the value of one digit to five, if that many are at the start and another byte follows, and the bytes after
/// them.
#[inline(always)]
pub(crate) fn few_digits(bytes: &[u8]) -> Option<(u64, &[u8])>
    ensures { IfSome result (λ x. BeginsWithNumber x.0 bytes.now x.1.now) }
{
    match bytes {
        [a, b, ..] if a.is_ascii_digit() && !b.is_ascii_digit() => {
            Some((digit(*a), bytes.split_at(1).1))
        }
        [a, b, c, ..] if a.is_ascii_digit() && b.is_ascii_digit() && !c.is_ascii_digit() => {
            Some((digit(*a) * 10 + digit(*b), bytes.split_at(2).1))
        }
        [a, b, c, d, ..]
            if a.is_ascii_digit()
                && b.is_ascii_digit()
                && c.is_ascii_digit()
                && !d.is_ascii_digit() => {
            Some((
                digit(*a) * 100 + digit(*b) * 10 + digit(*c),
                bytes.split_at(3).1,
            ))
        }
        [a, b, c, d, e, ..]
            if a.is_ascii_digit()
                && b.is_ascii_digit()
                && c.is_ascii_digit()
                && d.is_ascii_digit()
                && !e.is_ascii_digit() => {
            Some((
                digit(*a) * 1000 + digit(*b) * 100 + digit(*c) * 10 + digit(*d),
                bytes.split_at(4).1,
            ))
        }
        [a, b, c, d, e, f, ..]
            if a.is_ascii_digit()
                && b.is_ascii_digit()
                && c.is_ascii_digit()
                && d.is_ascii_digit()
                && e.is_ascii_digit()
                && !f.is_ascii_digit() => {
            Some((
                digit(*a) * 10_000
                    + digit(*b) * 1000
                    + digit(*c) * 100
                    + digit(*d) * 10
                    + digit(*e),
                bytes.split_at(5).1,
            ))
        }
        _ => None,
    }
}

/// Reads a length of any number of digits, with blanks before it or none; returns it and the bytes after it.
#[inline(never)]
#[tactic(auto, unfolding(crate::specs::ReaderSteps::length_at))]
fn any_length(bytes: &[u8]) -> Result<(u64, &[u8]), Refusal>
    ensures { Gives (λ x. (x.0, x.1.now)) result (steps.length_at bytes.now) }
{
    let number = skip_blanks(bytes);
    let (found, rest) = some_digits(number)?;
    match value(found) {
        Some(n) => Ok((n, rest)),
        None => Err(refused_at(FrozenKind::NumberTooLarge, number)),
    }
}

/// Reads the version, which has to be 1; returns the bytes after it.
#[tactic(auto, unfolding(crate::specs::ReaderSteps::version_at))]
pub(crate) fn version(bytes: &[u8]) -> Result<&[u8], Refusal>
    ensures { Gives (λ x. x.now) result (steps.version_at bytes.now) }
{
    let number = skip_blanks(bytes);
    let (found, rest) = some_digits(number)?;
    match value(found) {
        Some(1) => Ok(rest),
        Some(0) => Err(refused_at(FrozenKind::VersionZero, number)),
        _ => Err(refused_at(FrozenKind::Newer, number)),
    }
}

/// Reads the digits of a number, whose sign or first digit is at the start of `number`.
fn magnitude<'a>(number: &[u8], minus: bool, bytes: &'a [u8]) -> Result<(i32, &'a [u8]), Refusal>
    ensures { Gives (λ x. (x.0, x.1.now)) result (steps.magnitude_at number.now minus bytes.now) }
{
    let (found, rest) = some_digits(bytes)?;
    match value(found) {
        Some(n) if minus && n <= MAGNITUDE_LIMIT => Ok((-(n as i64) as i32, rest)),
        Some(n) if !minus && n < MAGNITUDE_LIMIT => Ok((n as i32, rest)),
        _ => Err(refused_at(FrozenKind::NumberTooLarge, number)),
    }
}

/// Reads the number of a diversion; returns it and the bytes after it.
pub(crate) fn signed_number(bytes: &[u8]) -> Result<(i32, &[u8]), Refusal>
    ensures { Gives (λ x. (x.0, x.1.now)) result (steps.signed_at bytes.now) }
{
    match bytes {
        [] => Err(refused_at(FrozenKind::PrematureEnd, bytes)),
        [b'-', rest @ ..] => magnitude(bytes, true, rest),
        [..] => magnitude(bytes, false, bytes),
    }
}
