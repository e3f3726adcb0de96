//! A text that grows by few bytes at a time: an argument that is collected, or the result of a call. Behind its end
//! there is room that has values, so that few bytes are copied with those after them, as one piece of a fixed length:
//! that takes no call that copies.

ghost use Rattle.std.specs.Prelude.{◌≡◌, ◌==◌, ◌<◌, ◌≤◌, ◌+◌, ◌^◌, ◌++◌, ◌∷◌, [], true, false, length, take};
ghost use Rattle.std.specs.Prelude.{OnOk, OnErr, IfSome};

use crate::append::copy_over;
use crate::bytes::{Bytes, SHORT};
use crate::lanes::LANES;
use std::alloc::{AllocError, Global};
use std::marker::Model;

/// The room that is added behind the end of a text, in bytes: enough for a piece, and for a short text.
const ADDED: usize = 64;

/// Behind a long text one byte more is added for so many of its own, so that a longer text is moved less often.
const SHARE: usize = 16;

/// A text that grows at its end. Its memory is kept when it is cleared. Contracts see its bytes.
#[derive(Drop)]
pub struct TextBuffer {
    room: Vec<u8>,
    len: usize,
}

impl Model for TextBuffer {
    ghost use Rattle.std.specs.Prelude.{List, ℕ, ◌≤◌, length, take};

    ghost Value = { List ℕ };

    ghost view = { λ b. take b.len b.room.items };

    ghost invariant = { λ b. b.len ≤ length b.room.items };
}

/// Writes the first bytes of a text from a place on, as one piece, over what is there. Returns whether there are as
/// many of both.
#[inline(always)]
fn write_piece(room: &mut [u8], at: usize, text: &[u8]) -> bool
    requires { at ≤ length room.old }
    ensures text { result ≡ true → 16 ≤ length text.now }
    ensures room { result ≡ true → at + 16 ≤ length room.new }
    ensures written { result ≡ true → take (at + 16) room.new ≡ take at room.old ++ take 16 text.now }
    ensures left { result ≡ false → room.new ≡ room.old }
    ensures len { length room.new ≡ length room.old }
{
    let Some(piece) = text.first_chunk::<LANES>() else {
        return false;
    };
    let (_, rest) = room.split_at_mut(at);
    let Some(place) = rest.first_chunk_mut::<LANES>() else {
        return false;
    };
    *place = *piece;
    true
}

/// Writes a text from a place on, over what is there.
fn write(room: &mut [u8], at: usize, text: &[u8])
    requires { at + length text.now ≤ length room.old }
    ensures written { take (at + length text.now) room.new ≡ take at room.old ++ text.now }
    ensures len { length room.new ≡ length room.old }
{
    copy_over(&mut room[at..at + text.len()], text);
}

impl TextBuffer {
    /// Creates an empty text without memory.
    pub fn new(alloc: Global) -> TextBuffer
        ensures { result ≡ [] }
    {
        TextBuffer {
            room: Vec::new(alloc),
            len: 0,
        }
    }

    /// Returns the allocator of the memory.
    pub fn alloc(&self) -> Global {
        *self.room.allocator()
    }

    /// Returns whether it has memory.
    #[inline(always)]
    pub fn has_memory(&self) -> bool {
        self.room.capacity() > 0
    }

    /// Returns the length in bytes.
    #[inline(always)]
    pub fn len(&self) -> usize
        ensures { result ≡ length self.now }
    {
        self.len
    }

    /// Returns whether there is no byte.
    #[inline(always)]
    pub fn is_empty(&self) -> bool
        ensures { result ≡ (length self.now == 0) }
    {
        self.len == 0
    }

    /// Returns the bytes.
    pub fn as_slice(&self) -> &[u8]
        ensures { result.now ≡ self.now }
    {
        self.room.split_at(self.len).0
    }

    /// Returns the bytes, with others after them, as a piece of a fixed length, if they are few.
    #[inline(always)]
    pub(crate) fn short_piece(&self) -> Option<&[u8; SHORT]>
        ensures few { IfSome result (λ piece. length self.now ≤ 30) }
        ensures front { IfSome result (λ piece. self.now ≡ take (length self.now) piece.now) }
    {
        if self.len > SHORT {
            return None;
        }
        self.room.first_chunk::<SHORT>()
    }

    /// Removes all bytes. The memory is kept.
    #[inline(always)]
    pub fn clear(&mut self)
        ensures { self.new ≡ [] }
    {
        self.len = 0;
    }

    /// Appends a byte.
    #[inline(always)]
    pub fn push(&mut self, byte: u8) -> Result<(), AllocError>
        ensures ok { OnOk result (self.new ≡ self.old ++ byte ∷ []) }
        ensures err { OnErr result (self.new ≡ self.old) }
        ensures sized { OnOk result (length self.new < 2 ^ 64) }
    {
        if self.len < self.room.len() {
            self.room[self.len] = byte;
            self.len += 1;
            return Ok(());
        }
        self.append_beyond(&[byte])
    }

    /// Appends the first `len` bytes of a text. A few are copied with those after them.
    #[inline(always)]
    pub fn append_front(&mut self, text: &[u8], len: usize) -> Result<(), AllocError>
        requires { len ≤ length text.now }
        ensures ok { OnOk result (self.new ≡ self.old ++ take len text.now) }
        ensures err { OnErr result (self.new ≡ self.old) }
    {
        if len <= LANES && write_piece(&mut self.room, self.len, text) {
            self.len += len;
            return Ok(());
        }
        self.append_any(text, len)
    }

    /// Appends the first `len` bytes of a text. Not inlined, so that the way of a few bytes is short. Afterwards there
    /// is room for a piece.
    #[inline(never)]
    fn append_any(&mut self, text: &[u8], len: usize) -> Result<(), AllocError>
        requires { len ≤ length text.now }
        ensures ok { OnOk result (self.new ≡ self.old ++ take len text.now) }
        ensures err { OnErr result (self.new ≡ self.old) }
    {
        let front = text.split_at(len).0;
        if self.room.len() - self.len < len.saturating_add(LANES) {
            return self.append_beyond(front);
        }
        write(&mut self.room, self.len, front);
        self.len += len;
        Ok(())
    }

    /// Appends a byte string. A short one is copied with what is behind its end.
    #[inline(always)]
    pub fn append_bytes(&mut self, text: &Bytes) -> Result<(), AllocError>
        ensures ok { OnOk result (self.new ≡ self.old ++ text.now) }
        ensures err { OnErr result (self.new ≡ self.old) }
    {
        let (bytes, len) = text.with_rest();
        if len == 0 {
            return Ok(());
        }
        self.append_front(bytes, len)
    }

    /// Appends a text. One of a byte, as most quotes are, takes no call.
    #[inline(always)]
    pub fn append(&mut self, text: &[u8]) -> Result<(), AllocError>
        ensures ok { OnOk result (self.new ≡ self.old ++ text.now) }
        ensures err { OnErr result (self.new ≡ self.old) }
    {
        match text {
            [] => Ok(()),
            [byte] => self.push(*byte),
            _ => self.append_any(text, text.len()),
        }
    }

    /// Appends a text for which there is no room, and adds room behind it. Not inlined, so that the way with room is
    /// short.
    #[inline(never)]
    fn append_beyond(&mut self, text: &[u8]) -> Result<(), AllocError>
        ensures ok { OnOk result (self.new ≡ self.old ++ text.now) }
        ensures err { OnErr result (self.new ≡ self.old) }
        ensures sized { OnOk result (length self.new < 2 ^ 64) }
    {
        self.room.truncate(self.len);
        let end = self.len.saturating_add(text.len());
        let added = ADDED + end / SHARE;
        // At once, so that a long text is not moved for the room behind it.
        self.room.reserve(text.len().saturating_add(added))?;
        self.room.extend_from_slice(text)?;
        self.len = self.room.len();
        self.room.resize(self.len.saturating_add(added), 0)?;
        Ok(())
    }

    /// Removes all bytes and returns them, in the memory that they were in.
    pub fn take(&mut self) -> Vec<u8>
        ensures bytes { result.items ≡ self.old }
        ensures empty { self.new ≡ [] }
    {
        let alloc = self.alloc();
        let mut bytes = std::mem::replace(&mut self.room, Vec::new(alloc));
        bytes.truncate(self.len);
        self.len = 0;
        bytes
    }
}

impl From<Vec<u8>> for TextBuffer {
    ghost from_gives = { λ bytes text. text ≡ bytes.items };

    /// Makes a text of a vector, without a copy.
    fn from(bytes: Vec<u8>) -> TextBuffer {
        let len = bytes.len();
        TextBuffer { room: bytes, len }
    }
}
