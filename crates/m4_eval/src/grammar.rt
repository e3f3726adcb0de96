//! The value of an expression's text. The text is read byte by byte, with its open parts on a stack:
//! the code does not recurse with the nesting of the text.
//!
//! Manual: "Evaluating integer expressions".

ghost use Rattle.std.specs.Prelude.{◌≡◌, ◌∷◌, ◌≤◌, ◌<◌, ◌≢◌, reverse, IfSome, IfNone, OnOk, IfOk, Some, None, length};
ghost use Rattle.std.specs.Prelude.{true, false, ◌++◌, MatchBool};
ghost use Rattle.m4_eval.specs.EvaluateSteps.{with_signs, joined_while, value_at, before_step, after_step, step_from};
ghost use Rattle.m4_eval.specs.declared.frame.Frame.TheVariants.{Opened, Prefixed, Left};
ghost use Rattle.m4_eval.specs.Expression.{level_of};
ghost use Rattle.m4_eval.specs.GrammarView.{place, NoSign, NoneJoined, NotOpened, placed};

use crate::blank::is_space;
use crate::chain::chain_value;
use crate::frame::Frame;
use crate::lexer::{literal, operator, sign};
use crate::operator::{Operator, Sign};
use crate::value::{Value, join, level, signed};
use std::alloc::{AllocError, Global};

/// What a token did.
#[derive(Clone, Copy)]
pub struct Step {
    /// The operand that it completed, if any.
    pub operand: Option<Value>,
    /// How many of its bytes follow the first one.
    pub more: usize,
}

/// Removes the innermost frame if it is a sign.
fn pop_sign(waiting: &mut Vec<Frame>) -> Option<Sign>
    ensures some { IfSome result (λ s. reverse waiting.old.items ≡ Prefixed s ∷ reverse waiting.new.items) }
    ensures none { IfNone result (waiting.new.items ≡ waiting.old.items) }
    ensures no_sign { IfNone result (NoSign (reverse waiting.old.items)) }
    ensures fewer { IfSome result (λ s. length waiting.new.items < length waiting.old.items) }
{
    let Some(Frame::Prefixed(sign)) = waiting.last().copied() else {
        return None;
    };
    waiting.pop();
    Some(sign)
}

/// Removes the innermost frame if it is a left operand whose operator binds at least as tightly as a
/// level.
fn pop_left(waiting: &mut Vec<Frame>, least: u8) -> Option<(Value, Operator)>
    ensures some { IfSome result (λ p. reverse waiting.old.items ≡ Left p.0 p.1 ∷ reverse waiting.new.items) }
    ensures tight { IfSome result (λ p. least ≤ level_of p.1) }
    ensures none { IfNone result (waiting.new.items ≡ waiting.old.items) }
    ensures looser { IfNone result (NoneJoined least (reverse waiting.old.items)) }
    ensures fewer { IfSome result (λ s. length waiting.new.items < length waiting.old.items) }
{
    let Some(Frame::Left(value, operator)) = waiting.last().copied() else {
        return None;
    };
    if level(operator) < least {
        return None;
    }
    waiting.pop();
    Some((value, operator))
}

/// Applies the open signs to an operand, and removes them.
fn complete(waiting: &mut Vec<Frame>, operand: Value) -> Value
    ensures { place (reverse waiting.new.items) (Some result) ≡ with_signs (reverse waiting.old.items) operand }
{
    let mut value = operand;
    while let Some(sign) = pop_sign(waiting) {
        value = signed(sign, value);
    }
    value
}

/// Joins an operand with the open left operands whose operators bind at least as tightly as a level.
fn join_while(waiting: &mut Vec<Frame>, least: u8, operand: Value) -> Value
    ensures { (reverse waiting.new.items, result) ≡ joined_while least (reverse waiting.old.items) operand }
{
    let mut value = operand;
    while let Some((left, operator)) = pop_left(waiting, least) {
        value = join(operator, left, value);
    }
    value
}

/// Removes the innermost frame if it is a parenthesis.
fn pop_opened(waiting: &mut Vec<Frame>) -> bool
    ensures { MatchBool result (reverse waiting.old.items ≡ Opened ∷ reverse waiting.new.items)
        (NotOpened (reverse waiting.old.items)) }
{
    let Some(Frame::Opened) = waiting.last().copied() else {
        return false;
    };
    waiting.pop();
    true
}

/// Reads a byte before an operand. Returns nothing if no operand begins with it.
fn read_operand(
    waiting: &mut Vec<Frame>,
    byte: u8,
    after: &[u8],
) -> Result<Option<Step>, AllocError>
    ensures step { IfOk result (λ r. placed (reverse waiting.new.items) r
        ≡ before_step (reverse waiting.old.items) byte after.now) }
    ensures within { IfOk result (λ r. IfSome r (λ s. s.more ≤ length after.now)) }
{
    if byte == b'(' {
        waiting.push(Frame::Opened)?;
        return Ok(Some(Step {
            operand: None,
            more: 0,
        }));
    }
    if let Some(sign) = sign(byte) {
        waiting.push(Frame::Prefixed(sign))?;
        return Ok(Some(Step {
            operand: None,
            more: 0,
        }));
    }
    match literal(byte, after) {
        Some((number, more)) => {
            let operand = Some(complete(waiting, Value::Number(number)));
            Ok(Some(Step { operand, more }))
        }
        None => Ok(None),
    }
}

/// Reads a byte after an operand. Returns nothing if it is neither an operator nor a closing `)`.
fn read_operator(
    waiting: &mut Vec<Frame>,
    operand: Value,
    byte: u8,
    after: &[u8],
) -> Result<Option<Step>, AllocError>
    ensures step { IfOk result (λ r. placed (reverse waiting.new.items) r
        ≡ after_step (reverse waiting.old.items) operand byte after.now) }
    ensures within { IfOk result (λ r. IfSome r (λ s. s.more ≤ length after.now)) }
{
    if byte == b')' {
        let inner = join_while(waiting, 1, operand);
        if !pop_opened(waiting) {
            return Ok(None);
        }
        let operand = Some(complete(waiting, inner));
        return Ok(Some(Step { operand, more: 0 }));
    }
    match operator(byte, after) {
        Some((operator, more)) => {
            let left = join_while(waiting, level(operator), operand);
            waiting.push(Frame::Left(left, operator))?;
            Ok(Some(Step {
                operand: None,
                more,
            }))
        }
        None => Ok(None),
    }
}

/// Reads a byte that is not white space: after an operand, if there is one.
fn read_token(
    waiting: &mut Vec<Frame>,
    operand: Option<Value>,
    byte: u8,
    after: &[u8],
) -> Result<Option<Step>, AllocError>
    ensures step { IfOk result (λ r. placed (reverse waiting.new.items) r
        ≡ step_from operand (reverse waiting.old.items) byte after.now) }
    ensures within { IfOk result (λ r. IfSome r (λ s. s.more ≤ length after.now)) }
{
    match operand {
        None => read_operand(waiting, byte, after),
        Some(value) => read_operator(waiting, value, byte, after),
    }
}

/// Returns the value of a text, or nothing if it is not an expression.
///
/// Fails only if an allocation fails. The time is proportional to the text.
pub(crate) fn value_of(alloc: Global, text: &[u8]) -> Result<Option<Value>, AllocError>
    ensures value { IfOk result (λ v. v ≡ value_at text.now) }
{
    if let Some(value) = chain_value(text) {
        return Ok(Some(value));
    }
    let mut waiting = Vec::new(alloc);
    let mut operand = None;
    let mut rest = text;
    while let Some((byte, after)) = rest.split_first() {
        if is_space(*byte) {
            rest = after;
            continue;
        }
        let Some(step) = read_token(&mut waiting, operand, *byte, after)? else {
            return Ok(None);
        };
        operand = step.operand;
        rest = after.split_at(step.more).1;
    }
    let Some(last) = operand else {
        return Ok(None);
    };
    let value = join_while(&mut waiting, 1, last);
    if !waiting.is_empty() {
        return Ok(None);
    }
    Ok(Some(value))
}
