//! The value of the text of an expression. Definitions and code share [`Evaluated`].
//! Manual: "Evaluating integer expressions".

ghost use Rattle.std.specs.Prelude.{◌≡◌, IfOk};
ghost use Rattle.m4_eval.specs.Evaluated as spec;

use crate::grammar::value_of;
use crate::value::Value;
use std::alloc::{AllocError, Global};

/// The value of a text, or why it has none.
#[derive(Clone, Copy)]
pub enum Evaluated {
    /// The value of the expression.
    Value(i32),
    /// The text is an expression in which a zero divides.
    DivideByZero,
    /// The text is not an expression.
    BadExpression,
}

/// Returns the value of an expression, or why it has none. A text of only white space is not an
/// expression.
///
/// Fails only if an allocation fails. The time and the memory are proportional to the text.
pub fn evaluate(alloc: Global, text: &[u8]) -> Result<Evaluated, AllocError>
    // exact expressions: the value of the expression that the text spells, if it has one
    ensures spelled { IfOk result (λ v. spec.IsEvaluated text.now v) }
    // exact expressions: it is computed as the text is read
    ensures value { IfOk result (λ v. v ≡ spec.evaluated text.now) }
{
    match value_of(alloc, text)? {
        None => Ok(Evaluated::BadExpression),
        Some(Value::DividedByZero) => Ok(Evaluated::DivideByZero),
        Some(Value::Number(number)) => Ok(Evaluated::Value(number)),
    }
}
