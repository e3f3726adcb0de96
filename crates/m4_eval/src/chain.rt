//! The value of a text that needs no stack: most expressions are one literal, or two with an operator.
//! Manual: "Evaluating integer expressions".

ghost use Rattle.std.specs.Prelude.{◌≡◌, ◌<◌, ◌≤◌, ◌∷◌, drop, zero, List, [], IfSome, Some, None, length};
ghost use Rattle.m4_eval.specs.declared.frame.Frame.{Frame};
ghost use Rattle.m4_eval.specs.declared.value.Value.TheVariants.{Number};
ghost use Rattle.m4_eval.specs.EvaluateSteps.{with_signs, joined_while, values_from, value_at};
ghost use Rattle.m4_eval.specs.GrammarView.{place};
ghost use Rattle.m4_input.specs.Ascii as ascii;
ghost use Rattle.m4_input.specs.Token.{run_length};
ghost use Rattle.m4_eval.specs.ReadExpression.{run_of};
ghost use Rattle.m4_eval.specs.ChainView.{frames_of};

use crate::blank::is_space;
use crate::lexer::{decimal, operator};
use crate::operator::{Operator, Sign};
use crate::value::{Value, apply_sign, join, level};

/// Returns the value of a chain: decimal literals, perhaps negative, with operators between them, none of
/// which binds tighter than the one before it. Returns nothing for any other text, which is then read with
/// a stack.
pub(crate) fn chain_value(text: &[u8]) -> Option<Value>
    ensures { IfSome result (λ v. value_at text.now ≡ Some v) }
{
    let mut left = None;
    let mut rest = text;
    while !rest.is_empty() {
        let (number, after) = next_operand(rest)?;
        let Some((byte, more)) = after.split_first() else {
            return join_left(left, 1, number);
        };
        let (next, len) = operator(*byte, more)?;
        left = Some((join_left(left, level(next), number)?, next));
        rest = more.split_at(len).1;
    }
    None
}

/// Joins an operand with the open left operand, if there is one. Returns nothing if that one's operator
/// binds less tightly than a level.
#[inline(always)]
fn join_left(left: Option<(Value, Operator)>, least: u8, number: i32) -> Option<Value>
    ensures { IfSome result (λ v. joined_while least (frames_of left) (Number number) ≡ ([], v)) }
{
    let Some((operand, operator)) = left else {
        return Some(Value::Number(number));
    };
    if level(operator) < least {
        return None;
    }
    Some(join(operator, operand, Value::Number(number)))
}

/// Reads a literal, perhaps with a minus before it, and the white space around it. Returns its value, and
/// the text after it.
#[inline(always)]
fn next_operand(text: &[u8]) -> Option<(i32, &[u8])>
    ensures value { IfSome result (λ r. (w : List Frame)
        → values_from zero (place w None) text.now ≡ values_from zero (with_signs w (Number r.0)) r.1.now) }
    ensures fewer { IfSome result (λ r. length r.1.now < length text.now) }
{
    let (byte, after) = without_spaces(text).split_first()?;
    let (value, rest) = split_operand(*byte, after)?;
    Some((value, without_spaces(rest)))
}

/// Reads the literal, or the minus and the literal, that begins with a byte. Returns its value, and the
/// text after it.
#[inline(always)]
fn split_operand(byte: u8, after: &[u8]) -> Option<(i32, &[u8])>
    ensures value { IfSome result (λ r. (w : List Frame)
        → values_from zero (place w None) (byte ∷ after.now) ≡ values_from zero (with_signs w (Number r.0)) r.1.now) }
    ensures within { IfSome result (λ r. length r.1.now ≤ length after.now) }
{
    if byte == b'-' {
        split_negative(after)
    } else {
        split_literal(byte, after)
    }
}

/// Reads the literal after a minus. Returns the value of both, and the text after them.
fn split_negative(text: &[u8]) -> Option<(i32, &[u8])>
    ensures value { IfSome result (λ r. (w : List Frame)
        → values_from zero (place w None) (45 ∷ text.now) ≡ values_from zero (with_signs w (Number r.0)) r.1.now) }
    ensures within { IfSome result (λ r. length r.1.now ≤ length text.now) }
{
    let (byte, after) = text.split_first()?;
    let (value, rest) = split_literal(*byte, after)?;
    Some((apply_sign(Sign::Negative, value), rest))
}

/// Reads a decimal literal that begins with a byte. Returns its value, and the text after it. Returns
/// nothing for a literal in another radix.
#[inline(always)]
fn split_literal(byte: u8, after: &[u8]) -> Option<(i32, &[u8])>
    ensures value { IfSome result (λ r. (w : List Frame)
        → values_from zero (place w None) (byte ∷ after.now) ≡ values_from zero (with_signs w (Number r.0)) r.1.now) }
    ensures within { IfSome result (λ r. length r.1.now ≤ length after.now) }
{
    match byte {
        b'0' => Some((0, after_zero(after)?)),
        b'1'..=b'9' => decimal(byte, after),
        _ => None,
    }
}

/// Returns the text after a zero, unless more digits or letters of the literal follow.
#[inline(always)]
fn after_zero(after: &[u8]) -> Option<&[u8]>
    ensures { IfSome result (λ r. (run_of after.now ≡ []) × (r.now ≡ after.now)) }
{
    match after.first() {
        Some(byte) if byte.is_ascii_alphanumeric() => None,
        _ => Some(after),
    }
}

/// Returns the text after the white space at its start.
#[inline(always)]
fn without_spaces(text: &[u8]) -> &[u8]
    ensures { result.now ≡ drop (run_length ascii.is_space text.now) text.now }
{
    let mut rest = text;
    while let Some((byte, after)) = rest.split_first() {
        if !is_space(*byte) {
            return rest;
        }
        rest = after;
    }
    rest
}
