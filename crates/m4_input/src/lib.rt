//! The input that a run still has to read, and its first token.
//!
//! An [`input::Input`] is one file, with the values that calls pushed before it. `specs/Pending.antt`
//! defines the pending input, `specs/Token.antt` its first token, `specs/Paren.antt` whether an argument
//! list follows, and `specs/Input.antt` the effect of each call.
//! Manual: "Lexical and syntactic conventions", "How m4 copies input to output".
//!
//! For users of the crate: `Input::file`, `wrapped`, `next`, `sees_paren`, `skip_line`, `push_front`, `line` and
//! `name`, with [`delims`], [`token`], [`pushed`] and [`fault`]. For the engine, which takes many tokens at once: the
//! calls of `Input` on the bytes in hand, with [`front`] and [`look`].
#![tactic(auto)]

pub mod delims;
pub mod fault;
mod file;
// What a pass of the engine takes of the bytes in hand.
#[doc(hidden)]
pub mod front;
pub mod input;
mod lanes;
#[doc(hidden)]
pub mod look;
mod open_token;
pub mod pushed;
mod segment;
mod slice;
mod strings;
mod text;
pub mod token;
