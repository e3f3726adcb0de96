//! Frozen files of GNU M4: read from a device, written, and listed.
//!
//! A frozen file is read block by block: [`reading::read_frozen`] returns its state and the text that
//! it issues, or its first fault and the byte where that is. `specs/Spells.antt` defines which bytes are
//! a frozen file, and `specs/FaultAt.antt` which fault other bytes have. Neither mentions the reader, and
//! [`laws`] shows that together they decide each file.
//! Manual: "Frozen file format", "Fast loading of frozen state".
#![tactic(auto)]

mod account;
mod begun;
mod directive;
pub mod fault;
mod gathered;
mod head;
pub mod inspector;
mod items;
pub mod laws;
mod lines;
pub mod loading;
mod number;
mod reader;
pub mod reading;
mod room;
mod strings;
mod window;
pub mod writer;
