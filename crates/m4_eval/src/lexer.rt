//! The literals and operators of an expression, from the byte at which each begins.
//!
//! Manual: "Evaluating integer expressions".

ghost use Rattle.std.specs.Prelude.{◌≡◌, ◌≤◌, ◌+◌, zero, ℕ, length, take, drop, option_map, pos, Some, IfSome};
ghost use Rattle.m4_eval.specs.ReadExpression.{is_alphanumeric, run_of, sign_at, operator_at, literal_at, number_of};
ghost use Rattle.m4_eval.specs.ReadExpression.{in_marked_radix, in_radix_from, in_stated_radix};
ghost use Rattle.m4_eval.specs.LexerView.{next_bits, bits_after, bits_of, in_bits, radix_said};
ghost use Rattle.std.specs.Char.{digit_value};
ghost use Rattle.m4_eval.specs.Value.{wrapped};

use crate::operator::{Operator, Sign};

/// Returns whether a byte is a digit or a letter.
fn is_alphanumeric_byte(byte: u8) -> bool
    ensures { result ≡ is_alphanumeric byte }
{
    byte.is_ascii_alphanumeric()
}

/// Counts the digits and letters at the start.
fn run_len(bytes: &[u8]) -> usize
    ensures len { result ≡ length (run_of bytes.now) }
    ensures within { result ≤ length bytes.now }
{
    let mut k = 0;
    while k < bytes.len() && is_alphanumeric_byte(bytes[k]) {
        k += 1;
    }
    k
}

/// Returns the byte as a sign, if it is one.
pub(crate) fn sign(byte: u8) -> Option<Sign>
    ensures { result ≡ sign_at byte }
{
    match byte {
        b'+' => Some(Sign::Positive),
        b'-' => Some(Sign::Negative),
        b'~' => Some(Sign::Complement),
        b'!' => Some(Sign::Not),
        _ => None,
    }
}

/// Returns the operator that begins with a byte, and the number of its bytes after that one.
#[inline(always)]
pub(crate) fn operator(byte: u8, after: &[u8]) -> Option<(Operator, usize)>
    ensures value { result ≡ operator_at byte after.now }
    ensures within { IfSome result (λ o. o.1 ≤ length after.now) }
{
    let next = after.first().copied();
    match byte {
        b'*' => Some((Operator::Multiply, 0)),
        b'/' => Some((Operator::Divide, 0)),
        b'%' => Some((Operator::Remainder, 0)),
        b'+' => Some((Operator::Add, 0)),
        b'-' => Some((Operator::Subtract, 0)),
        b'<' => Some(match next {
            Some(b'<') => (Operator::ShiftLeft, 1),
            Some(b'=') => (Operator::LessOrEqual, 1),
            _ => (Operator::Less, 0),
        }),
        b'>' => Some(match next {
            Some(b'>') => (Operator::ShiftRight, 1),
            Some(b'=') => (Operator::GreaterOrEqual, 1),
            _ => (Operator::Greater, 0),
        }),
        b'=' => match next {
            Some(b'=') => Some((Operator::Equal, 1)),
            _ => None,
        },
        b'!' => match next {
            Some(b'=') => Some((Operator::NotEqual, 1)),
            _ => None,
        },
        b'&' => Some(match next {
            Some(b'&') => (Operator::And, 1),
            _ => (Operator::BitAnd, 0),
        }),
        b'^' => Some((Operator::BitXor, 0)),
        b'|' => Some(match next {
            Some(b'|') => (Operator::Or, 1),
            _ => (Operator::BitOr, 0),
        }),
        _ => None,
    }
}

/// Returns the number of the literal that begins with a byte, and the number of its bytes after that
/// one. The literal's number wraps.
pub(crate) fn literal(byte: u8, after: &[u8]) -> Option<(i32, usize)>
    ensures value { result ≡ option_map (λ n. (wrapped (pos n.0), n.1)) (literal_at byte after.now) }
    ensures within { IfSome result (λ n. n.1 ≤ length after.now) }
{
    if byte != b'0' {
        if !byte.is_ascii_digit() {
            return None;
        }
        return from_digit(10, byte, after);
    }
    match after.split_first() {
        Some((b'x' | b'X', rest)) => marked(16, rest),
        Some((b'b' | b'B', rest)) => marked(2, rest),
        Some((b'r' | b'R', rest)) => stated(rest),
        _ => from_digit(8, b'0', after),
    }
}

/// Reads a number that begins with a digit, in a radix.
fn from_digit(radix: u8, first: u8, after: &[u8]) -> Option<(i32, usize)>
    requires { radix ≤ 36 }
    ensures value { result ≡ option_map in_bits (in_radix_from radix first after.now) }
    ensures within { IfSome result (λ n. n.1 ≤ length after.now) }
{
    let value = digit_of(first);
    if value >= radix {
        return None;
    }
    let run = after.split_at(run_len(after)).0;
    Some((go_on(i32::from(value), radix, run)?, run.len()))
}

/// Reads the decimal number that begins with a digit, up to the first byte that is neither a digit nor a
/// letter. Returns the number, which wraps, and the text after it; nothing if there is a letter.
#[inline(always)]
pub(crate) fn decimal(first: u8, after: &[u8]) -> Option<(i32, &[u8])>
    ensures read { IfSome result (λ r. (bits_after 10 (pos (digit_value first)) (run_of after.now) ≡ Some r.0)
        × (r.1.now ≡ drop (length (run_of after.now)) after.now)) }
    ensures within { IfSome result (λ r. length r.1.now ≤ length after.now) }
{
    let mut number = i32::from(digit_of(first));
    let mut rest = after;
    while let Some((byte, others)) = rest.split_first() {
        let digit = digit_of(*byte);
        if digit >= 36 {
            return Some((number, rest));
        }
        if digit >= 10 {
            return None;
        }
        number = add_digit(number, 10, digit);
        rest = others;
    }
    Some((number, rest))
}

/// Reads the digits after the mark of a radix, which is one byte after the first.
fn marked(radix: u8, after: &[u8]) -> Option<(i32, usize)>
    requires { radix ≤ 36 }
    ensures value { result ≡ option_map in_bits (in_marked_radix radix after.now) }
    ensures within { IfSome result (λ n. n.1 ≤ length after.now + 1) }
{
    let run = after.split_at(run_len(after)).0;
    Some((whole(radix, run)?, run.len() + 1))
}

/// Reads a radix, `:`, and digits in that radix.
fn stated(after: &[u8]) -> Option<(i32, usize)>
    ensures value { result ≡ option_map in_bits (in_stated_radix after.now) }
    ensures within { IfSome result (λ n. n.1 ≤ length after.now + 1) }
{
    let (said, rest) = after.split_at(run_len(after));
    let radix = radix_of(said)?;
    let Some((b':', digits)) = rest.split_first() else {
        return None;
    };
    let run = digits.split_at(run_len(digits)).0;
    Some((whole(radix, run)?, said.len() + run.len() + 2))
}

/// Returns the radix that decimal digits spell, if it is one.
fn radix_of(said: &[u8]) -> Option<u8>
    ensures value { result ≡ radix_said said.now }
    ensures most { IfSome result (λ radix. radix ≤ 36) }
{
    let mut radix = 0u8;
    for digit in said {
        let next = digit_of(*digit);
        if next >= 10 {
            return None;
        }
        radix = (u16::from(radix) * 10 + u16::from(next)).min(37) as u8;
    }
    if radix < 2 {
        return None;
    }
    if radix > 36 {
        return None;
    }
    Some(radix)
}

/// Returns the number that digits spell, if there are any. It wraps.
fn whole(radix: u8, digits: &[u8]) -> Option<i32>
    ensures { result ≡ option_map bits_of (number_of radix digits.now) }
{
    if digits.is_empty() {
        return None;
    }
    go_on(0, radix, digits)
}

/// Returns the number that more digits spell after those of a value. It wraps.
fn go_on(value: i32, radix: u8, digits: &[u8]) -> Option<i32>
    ensures { result ≡ bits_after radix value digits.now }
{
    let mut number = value;
    for digit in digits {
        let next = digit_of(*digit);
        if next >= radix {
            return None;
        }
        number = add_digit(number, radix, next);
    }
    Some(number)
}

/// Returns a number with one more digit. It wraps.
fn add_digit(number: i32, radix: u8, digit: u8) -> i32
    ensures { result ≡ next_bits radix number digit }
{
    number
        .wrapping_mul(i32::from(radix))
        .wrapping_add(i32::from(digit))
}

/// Returns the value of a digit or a letter, or 36 for any other byte.
fn digit_of(byte: u8) -> u8
    ensures { result ≡ digit_value byte }
{
    match byte {
        b'0'..=b'9' => byte - b'0',
        b'A'..=b'Z' => byte - b'A' + 10,
        b'a'..=b'z' => byte - b'a' + 10,
        _ => 36,
    }
}
