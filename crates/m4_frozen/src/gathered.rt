//! The room in which what is short is gathered before it is written, so that it is put as one piece.

ghost use Rattle.std.specs.Prelude.{◌≡◌, ◌<◌, ◌+◌, ◌++◌, ◌∷◌, [], OnOk, OnErr, decimal, length};

use itoa::Buffer;
use std::marker::Model;

/// How many bytes are gathered, at most.
const GATHERED: usize = 1280;

/// There is no room for what was to be gathered, and nothing was.
#[derive(Clone, Copy)]
pub(crate) struct Full;

/// The room for one directive or line after another. Contracts see the bytes that were gathered. What was in it stays
/// where it is when it is emptied, since to set it to zero takes as long as to copy it.
#[derive(Drop)]
pub(crate) struct Gathered {
    room: [u8; GATHERED],
    len: usize,
}

impl Model for Gathered {
    ghost use Rattle.std.specs.Prelude.{List, ℕ, ◌≤◌, take};

    ghost Value = { List ℕ };

    ghost view = { λ g. take g.len g.room };

    ghost invariant = { λ g. g.len ≤ 1280 };
}

impl Gathered {
    /// Returns an empty room.
    pub(crate) fn new() -> Gathered
        ensures { result ≡ [] }
    {
        Gathered {
            room: [0; GATHERED],
            len: 0,
        }
    }

    /// Empties the room.
    pub(crate) fn clear(&mut self)
        ensures { self.new ≡ [] }
    {
        self.len = 0;
    }

    /// Returns what was gathered.
    pub(crate) fn as_slice(&self) -> &[u8]
        ensures { result.now ≡ self.now }
    {
        &self.room[..self.len]
    }

    /// Returns how many bytes there is room for.
    pub(crate) fn left(&self) -> usize
        ensures { length self.now + result ≡ 1280 }
    {
        GATHERED - self.len
    }

    /// Gathers a byte.
    pub(crate) fn push(&mut self, byte: u8)
        requires { length self.old < 1280 }
        ensures { self.new ≡ self.old ++ byte ∷ [] }
    {
        self.room[self.len] = byte;
        self.len += 1;
    }

    /// Gathers bytes, if there is room for them.
    #[inline(always)]
    pub(crate) fn add(&mut self, bytes: &[u8]) -> Result<(), Full>
        ensures ok { OnOk result (self.new ≡ self.old ++ bytes.now) }
        ensures err { OnErr result (self.new ≡ self.old) }
    {
        if bytes.len() > self.left() {
            return Err(Full);
        }
        let end = self.len + bytes.len();
        self.room[self.len..end].copy_from_slice(bytes);
        self.len = end;
        Ok(())
    }
}

/// Gathers a length, if there is room for it. Most have a digit or two, which need no buffer of their own.
#[inline(always)]
pub(crate) fn gather_length(gathered: &mut Gathered, length: usize) -> Result<(), Full>
    ensures { OnOk result (gathered.new ≡ gathered.old ++ decimal length) }
{
    if length < 10 {
        return gathered.add(&[b'0' + length as u8]);
    }
    if length < 100 {
        let (tens, ones) = (length as u8 / 10, length as u8 % 10);
        return gathered.add(&[b'0' + tens, b'0' + ones]);
    }
    gather_long_length(gathered, length)
}

/// Gathers a length of any number of digits, if there is room for it.
#[inline(never)]
fn gather_long_length(gathered: &mut Gathered, length: usize) -> Result<(), Full>
    ensures { OnOk result (gathered.new ≡ gathered.old ++ decimal length) }
{
    let mut digits = Buffer::new();
    gathered.add(digits.format(length).as_bytes())
}
