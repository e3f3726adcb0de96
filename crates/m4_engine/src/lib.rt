//! Calls, their arguments and complete runs of the macro processor, and the laws that are proved of them.
//!
//! A [`session`] reads sources in order and then ends. It follows the definitions in `specs/`; the laws of
//! these definitions are in [`laws`]. Manual: "Macro invocation", "Macro arguments".
#![tactic(auto)]

mod call;
mod collect;
pub mod ending;
pub mod laws;
mod lookahead;
mod machine;
pub mod options;
mod outside;
mod role;
pub mod run;
pub mod session;
pub mod source;
pub mod stop;
mod token_sink;
mod turned;
