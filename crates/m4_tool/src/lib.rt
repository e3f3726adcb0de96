//! The command line of m4r, and the work that it requests.
//!
//! [`program::exit_status`] is the program from the words of its process to its exit status. It reads the
//! words ([`line`]) and follows the line ([`follow`]) in the world of the process ([`std_world`]).
//! [`modes`] are the two modes for a frozen file. Manual: "Invoking m4".
#![tactic(auto)]

mod endings;
mod fault;
pub mod follow;
pub mod followed;
pub mod given;
pub mod late;
pub mod laws;
pub mod line;
pub mod mem_world;
pub mod modes;
pub mod program;
mod reports;
mod shared;
pub mod sources;
pub mod std_world;
mod streams;
pub mod world;
