//! Calls and their effects: texts with their arguments substituted, and the builtins.
//!
//! [`act::act`] makes a call; each builtin has its function in the module of its chapter of the manual:
//! `naming`, `branching`, `indirect`, `delimiting`, `diverting`, `printing`, `texts`, `translit`,
//! `arithmetic`, `eval`, `ending`. `specs/Act.antt` defines the effect of each call, with a file for each
//! chapter; `specs/Subst.antt` the expansion of a text; `specs/Messages.antt` the messages.
//! Manual: "Definitions", "Conditionals", "Input control", and the chapters of the builtins.
//!
//! For users of the crate: `act::act` and `substitute::substitute`, with [`args`], [`place`], [`effect`] and
//! [`fault`]. For the engine: `act::act_on` and [`effect_buffer`], by which calls fill one effect in turn,
//! `act::needs_list`, and the two messages of [`messages`] that it writes itself.
#![tactic(auto)]

pub mod act;
pub mod args;
mod arithmetic;
mod branching;
mod delimiting;
mod diverting;
pub mod effect;
// What the engine fills and reuses.
#[doc(hidden)]
pub mod effect_buffer;
mod ending;
mod eval;
pub mod fault;
mod indirect;
pub mod messages;
mod naming;
mod number;
pub mod place;
mod printing;
pub mod substitute;
mod texts;
mod translit;
