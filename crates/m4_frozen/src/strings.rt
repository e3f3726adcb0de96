//! Counted strings at the start of bytes, with the numbers that count them.
//!
//! A string has exactly the stated length, and may contain any bytes, also newlines and `#`. A stated
//! length is only compared with the number of bytes: nothing is reserved for it.
//! Contracts cite the reader's own steps, `specs/ReaderSteps.antt`.
//! Manual: "Frozen file format".

ghost use Rattle.std.specs.Prelude.{◌≡◌, ◌≤◌, ℕ, ℤ, List, IfOk, length, take, drop};
ghost use Rattle.m4_frozen.specs.Directive as directives;
ghost use Rattle.m4_frozen.specs.Layout as layouts;
ghost use Rattle.m4_frozen.specs.ReaderSteps as steps;
ghost use Rattle.m4_frozen.specs.StepOutcome.{Gives};

use crate::fault::{FrozenKind, Refusal, refused_at};
use crate::number::{length, signed_number, skip_blanks};

/// Returns the bytes after the expected first byte.
pub(crate) fn expect_byte(byte: u8, bytes: &[u8]) -> Result<&[u8], Refusal>
    ensures { Gives (λ x. x.now) result (steps.expect_byte byte bytes.now) }
{
    match bytes {
        [] => Err(refused_at(FrozenKind::PrematureEnd, bytes)),
        [first, rest @ ..] if *first == byte => Ok(rest),
        [..] => Err(refused_at(FrozenKind::SeparatorExpected, bytes)),
    }
}

/// Returns the string of `len` bytes, and the bytes after it.
#[tactic(auto, unfolding(crate::specs::ReaderSteps::string_at))]
fn string(len: u64, bytes: &[u8]) -> Result<(&[u8], &[u8]), Refusal>
    ensures { Gives (λ x. (x.0.now, x.1.now)) result (steps.string_at len bytes.now) }
{
    let len = len as usize;
    if bytes.len() < len {
        return Err(refused_at(FrozenKind::PrematureEnd, &[]));
    }
    Ok(bytes.split_at(len))
}

/// Reads two lengths and the first string; returns it, the second length and the bytes after it.
pub(crate) fn pair_head(bytes: &[u8]) -> Result<((&[u8], u64), &[u8]), Refusal>
    ensures { Gives (λ x. ((x.0.0.now, x.0.1), x.1.now)) result
        (steps.layout_at {A = List ℕ × ℕ} (layouts.pair_head (λ first n. layouts.Done (first, n))) bytes.now) }
{
    let (n, rest) = length(bytes)?;
    let rest = expect_byte(b',', skip_blanks(rest))?;
    let (len, rest) = length(rest)?;
    let rest = expect_byte(b'\n', rest)?;
    let (first, rest) = string(n, rest)?;
    Ok(((first, len), rest))
}

/// Reads two lengths and both strings; returns the strings as one slice, the length of the first, and
/// the bytes after them.
#[tactic(auto, unfolding(crate::specs::ReaderSteps::string_at))]
pub(crate) fn joined_pair(bytes: &[u8]) -> Result<((&[u8], usize), &[u8]), Refusal>
    ensures gives { (make : List ℕ → List ℕ → directives.Directive)
        → Gives (λ x. (make (take x.0.1 x.0.0.now) (drop x.0.1 x.0.0.now), x.1.now)) result
        (steps.layout_at (layouts.pair_layout make) bytes.now) }
    ensures within { IfOk result (λ x. x.0.1 ≤ length x.0.0.now) }
{
    let (n, rest) = length(bytes)?;
    let rest = expect_byte(b',', skip_blanks(rest))?;
    let (m, rest) = length(rest)?;
    let strings = expect_byte(b'\n', rest)?;
    let (first, rest) = string(n, strings)?;
    let (second, rest) = string(m, rest)?;
    let rest = expect_byte(b'\n', rest)?;
    let both = strings.split_at(first.len() + second.len()).0;
    Ok(((both, first.len()), rest))
}

/// Reads two lengths and both strings; returns the strings and the bytes after them.
pub(crate) fn pair(bytes: &[u8]) -> Result<((&[u8], &[u8]), &[u8]), Refusal>
    ensures { (make : List ℕ → List ℕ → directives.Directive)
        → Gives (λ x. (make x.0.0.now x.0.1.now, x.1.now)) result
        (steps.layout_at (layouts.pair_layout make) bytes.now) }
{
    let ((both, middle), rest) = joined_pair(bytes)?;
    Ok((both.split_at(middle), rest))
}

/// Reads a diversion's number and the length of its text; returns both and the bytes after their line.
pub(crate) fn diversion_head(bytes: &[u8]) -> Result<((i32, u64), &[u8]), Refusal>
    ensures { Gives (λ x. ((x.0.0, x.0.1), x.1.now)) result
        (steps.layout_at {A = ℤ × ℕ} (layouts.diversion_head (λ number n. layouts.Done (number, n))) bytes.now) }
{
    let (number, rest) = signed_number(skip_blanks(bytes))?;
    let rest = expect_byte(b',', skip_blanks(rest))?;
    let (n, rest) = length(rest)?;
    let rest = expect_byte(b'\n', rest)?;
    Ok(((number, n), rest))
}

/// Reads a diversion's number, a length and the string; returns them and the bytes after them.
pub(crate) fn diversion(bytes: &[u8]) -> Result<((i32, &[u8]), &[u8]), Refusal>
    ensures { Gives (λ x. (directives.Diversion x.0.0 x.0.1.now, x.1.now)) result
        (steps.layout_at layouts.diversion_layout bytes.now) }
{
    let ((number, n), rest) = diversion_head(bytes)?;
    let (text, rest) = string(n, rest)?;
    let rest = expect_byte(b'\n', rest)?;
    Ok(((number, text), rest))
}
