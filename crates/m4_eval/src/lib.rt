//! Integer expressions: their values, and numbers written in a radix.
//!
//! [`evaluate::evaluate`] reads a text and returns its value; [`digits::in_radix`] writes one.
//! `specs/SpellsExpression.antt` defines which texts are expressions, `specs/Value.antt` their values,
//! and `specs/InRadix.antt` how a value is written.
//! Manual: "Evaluating integer expressions".
#![tactic(auto)]

pub mod blank;
mod chain;
pub mod digits;
pub mod evaluate;
mod frame;
mod grammar;
pub mod laws;
mod lexer;
pub mod operator;
pub mod radix;
mod value;
