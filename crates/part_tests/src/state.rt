//! The calls of a state, the table of builtins, and bytes.

mod appended;
mod builtins;
mod delimiters;
mod diversions;
mod lanes;
mod names;
pub mod steps;
mod words;
