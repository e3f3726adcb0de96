//! The state of a macro processor: names with their definitions, delimiters, diversions; and the
//! devices that bytes are read from and written to.
//!
//! Contracts see a [`state::State`] as one record of lists (`specs/State.antt`), however it is stored.
#![tactic(auto)]

// What the crates above share, on bytes and on names in order.
#[doc(hidden)]
pub mod append;
pub mod builtin;
pub mod bytes;
pub mod definition;
pub mod delimiters;
pub mod device;
mod diversions;
mod diverted;
mod entries;
pub mod fault;
mod key;
#[doc(hidden)]
pub mod lanes;
mod marks;
pub mod memory;
#[doc(hidden)]
pub mod named;
mod ranked;
mod stack;
pub mod standard;
pub mod state;
mod table;
#[doc(hidden)]
pub mod text_buffer;
pub mod transfer;
#[doc(hidden)]
pub mod words;
