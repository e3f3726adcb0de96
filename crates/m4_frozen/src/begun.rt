//! A directive's text of which only a part was read. It is read as its bytes arrive, so that a long
//! text is stored only once.

use m4_state::bytes::Bytes;

/// A text of which some bytes have not been read yet.
#[derive(Drop)]
pub(crate) enum Begun {
    /// The current diversion's. Its bytes go straight to the state; this many have not been read yet.
    Diversion(usize),
    /// A name's.
    Name(NamedText),
}

/// The text of a name. It is pushed once all its bytes were read.
#[derive(Drop)]
pub(crate) struct NamedText {
    /// The name.
    pub(crate) name: Bytes,
    /// The bytes of the text that were read.
    pub(crate) text: Vec<u8>,
    /// How many of its bytes have not been read yet.
    pub(crate) missing: usize,
}
