//! A text that a call pushed, and the place up to which it was read.

ghost use Rattle.std.specs.Prelude.{◌≡◌, ◌≤◌, ◌^◌, ◌++◌, [], List, ℕ, true, false, length, drop};

use m4_state::bytes::Bytes;
use std::marker::Model;

/// The greatest length of the text of a segment, and of all segments below the first one together.
pub const LONGEST: usize = 1 << 62;

/// The rest of a text. Contracts see it as a list of bytes.
#[derive(Drop)]
pub struct Segment {
    text: Bytes,
    at: usize,
    end: usize,
}

impl Model for Segment {
    ghost Value = { List ℕ };

    ghost view = { λ s. drop s.at s.text };

    ghost invariant = { λ s. (s.at ≤ s.end) × (s.end ≡ length s.text) × (s.end ≤ 2 ^ 62) };
}

impl Segment {
    /// Creates the segment of a text, none of which was read.
    #[inline(always)]
    pub fn of(text: Bytes) -> Segment
        requires { length text ≤ 2 ^ 62 }
        ensures { result ≡ text }
    {
        let end = text.as_slice().len();
        Segment { text, at: 0, end }
    }

    /// Returns the buffer of its text, if it has one of its own.
    pub fn buffer(self) -> Option<Vec<u8>> {
        let Segment {
            text,
            at: _at,
            end: _end,
        } = self;
        text.buffer()
    }

    /// Returns the number of bytes that were not read.
    #[inline(always)]
    pub fn len(&self) -> usize
        ensures len { result ≡ length self.now }
        ensures most { result ≤ 2 ^ 62 }
    {
        self.end - self.at
    }

    /// Returns the bytes that were not read.
    #[inline(always)]
    pub fn rest(&self) -> &[u8]
        ensures { result.now ≡ self.now }
    {
        self.text.as_slice().split_at(self.at).1
    }

    /// Discards the first n bytes.
    #[inline(always)]
    pub fn pass(&mut self, n: usize)
        requires { n ≤ length self.old }
        ensures { self.new ≡ drop n self.old }
    {
        self.at += n;
    }

    /// Inserts a text at the start, over bytes that were read, if there are as many of these and no other text shares
    /// them. Returns whether it did.
    #[inline(always)]
    pub fn extend_back(&mut self, text: &[u8]) -> bool
        ensures put { result ≡ true → self.new ≡ text.now ++ self.old }
        ensures left { result ≡ false → self.new ≡ self.old }
    {
        if self.text.overwrite_before(self.at, text) {
            self.at -= text.len();
            return true;
        }
        false
    }
}
