//! The bytes of an input: a stack of segments that calls pushed, and then the bytes of one file.
//!
//! The segment that is read first is held apart from those below it. When it was read to its end, the next one takes
//! its place, or a text that is pushed. A short text that is pushed is written over bytes that were read, directly
//! before those that come next, so that it and they are contiguous. Pushing a longer one copies nothing. Consuming
//! bytes takes time in proportion to the number of segments that end in them.

ghost use Rattle.std.specs.Prelude.{◌≡◌, ◌<◌, ◌≤◌, ◌^◌, ◌++◌, ◌+◌, [], IfSome, IfOk, OnOk, OnErr, Ok, true, false};
ghost use Rattle.std.specs.Prelude.{◌-◌, length, take, drop, nat_lt};
ghost use Rattle.m4_input.specs.Pending.{newlines_in};
ghost use Rattle.m4_input.specs.Text.{text_in, text_after, with_text, TakesBlock, failures_by};

use crate::fault::InputFault;
use crate::file::File;
use crate::segment::{LONGEST, Segment};
use m4_state::bytes::Bytes;
use m4_state::device::ByteSource;
use std::alloc::{AllocError, AllocFailed, Global};
use std::marker::Model;

/// The length up to which a pushed text is copied before the bytes that come next. A copy takes less time than a
/// segment.
const MOST_PUT_BEFORE: usize = 128;

/// The least number of bytes that are copied to make a token across two texts contiguous.
const LEAST_COPIED: usize = 64;

/// The greatest capacity of a buffer that is kept.
const LARGEST_KEPT: usize = 65536;

/// The bytes of an input that are in hand, and how many newlines of the file were read.
#[derive(Drop)]
pub struct Text {
    top: Segment,
    below: Vec<Segment>,
    held: usize,
    file: File,
    buffer: Vec<u8>,
}

impl Model for Text {
    ghost use Rattle.m4_input.specs.Text.{HeldText};
    ghost use Rattle.m4_input.specs.TextView.{view_of, IsHeld};

    ghost Value = { HeldText };

    ghost view = { view_of };

    ghost invariant = { IsHeld };
}

/// Keeps the buffer of a text that is read or copied, if it had one of its own and that is not large.
#[inline(always)]
fn keep(buffer: &mut Vec<u8>, spent: Option<Vec<u8>>) {
    if let Some(kept) = spent {
        if kept.capacity() <= LARGEST_KEPT {
            *buffer = kept;
        }
    }
}

/// Appends bytes until the copy has `most` bytes, or all of them if they are fewer.
fn append_most(copy: &mut Vec<u8>, bytes: &[u8], most: usize) -> Result<(), AllocError>
    requires { length copy.old.items ≤ most }
    ensures { OnOk result (copy.new.items ≡ take most (copy.old.items ++ bytes.now)) }
{
    let len = bytes.len().min(most - copy.len());
    copy.extend_from_slice(bytes.split_at(len).0)
}

impl Text {
    /// Creates a text without bytes.
    pub fn new(alloc: Global) -> Text
        ensures { result ≡ record { pushed = []; unread = []; newlines = 0 } }
    {
        Text {
            top: Segment::of(Bytes::empty()),
            below: Vec::new(alloc),
            held: 0,
            file: File::new(alloc),
            buffer: Vec::new(alloc),
        }
    }

    /// Asks a reader once, and appends a block of its bytes to the unread ones. Returns whether bytes came: if none
    /// did, the reader is at its end. If the reader or an allocation fails, nothing changes.
    pub fn take_block<R: ByteSource>(&mut self, reader: &mut R) -> Result<bool, InputFault>
        ensures gives { TakesBlock (R.script reader.old) (R.script reader.new) self.old self.new result }
        ensures falls { result ≡ Ok true → R.takes_left reader.new < R.takes_left reader.old }
        ensures counted { R.failures reader.new ≡ failures_by result (R.failures reader.old) }
    {
        self.file.take_block(reader)
    }

    /// Returns the number of newlines of the file that were read.
    pub fn newlines(&self) -> usize
        ensures { result ≡ self.now.newlines }
    {
        self.file.newlines()
    }

    /// Returns the number of bytes.
    pub fn len(&self) -> usize
        ensures len { result ≡ length (text_in self.now) }
        ensures small { result < 2 ^ 64 }
    {
        self.top.len() + self.held + self.file.rest().len()
    }

    /// Returns the bytes at the start that are contiguous, and whether others in hand come after them.
    #[inline(always)]
    pub fn front(&self) -> (&[u8], bool)
        ensures begins { result.0.now ≡ take (length result.0.now) (text_in self.now) }
        ensures all { result.1 ≡ false → result.0.now ≡ text_in self.now }
        ensures some { result.1 ≡ true → 0 < length result.0.now }
    {
        let rest = self.file.rest();
        if self.top.len() > 0 {
            (self.top.rest(), self.held > 0 || !rest.is_empty())
        } else {
            (rest, false)
        }
    }

    /// Returns bytes at the start in one slice, and whether others in hand come after them. If so, there are more than
    /// `looked` of them: the bytes that are contiguous, or a copy of twice as many as `looked`. So looking at a token
    /// across several texts takes time in proportion to its length.
    #[inline(always)]
    pub fn longer_front<'a>(
        &'a self,
        looked: usize,
        copy: &'a mut Vec<u8>,
    ) -> Result<(&'a [u8], bool), AllocError>
        ensures begins { IfOk result (λ r. r.0.now ≡ take (length r.0.now) (text_in self.now)) }
        ensures all { IfOk result (λ r. r.1 ≡ false → r.0.now ≡ text_in self.now) }
        ensures longer { IfOk result (λ r. r.1 ≡ true → looked < length r.0.now) }
    {
        let (text, others) = self.front();
        if !others || looked < text.len() {
            return Ok((text, others));
        }
        let others = self.copy_front(looked.saturating_add(looked.max(LEAST_COPIED)), copy)?;
        Ok((copy.as_slice(), others))
    }

    /// Copies the first bytes, at most `most`. Returns whether others come after them.
    #[inline(never)]
    fn copy_front(&self, most: usize, copy: &mut Vec<u8>) -> Result<bool, AllocError>
        ensures bytes { OnOk result (copy.new.items ≡ take most (text_in self.now)) }
        ensures others { IfOk result (λ b. b ≡ nat_lt most (length (text_in self.now))) }
    {
        copy.clear();
        append_most(copy, self.top.rest(), most)?;
        let mut rest = self.below.as_slice();
        'segments: while let Some((next, others)) = rest.split_last() {
            append_most(copy, next.rest(), most)?;
            rest = others;
        }
        append_most(copy, self.file.rest(), most)?;
        Ok(most < self.len())
    }

    /// Returns the bytes from a place on: those of the file, or of a copy of all bytes if some of them were pushed.
    /// Returns `None` if an allocation fails.
    pub fn bytes_from<'a>(&'a self, at: usize, copy: &'a mut Vec<u8>) -> Option<&'a [u8]>
        requires { at ≤ length (text_in self.now) }
        ensures { IfSome result (λ x. x.now ≡ drop at (text_in self.now)) }
    {
        let pushed = self.top.len() + self.held;
        if at >= pushed {
            return Some(self.file.rest().split_at(at - pushed).1);
        }
        let _others = self.copy_front(self.len(), copy).ok()?;
        Some(copy.as_slice().split_at(at).1)
    }

    /// Inserts a text at the start: a short one by a copy, where there is room, a longer one as it is. If an allocation
    /// fails, nothing changes.
    #[inline(always)]
    pub fn push(&mut self, text: Bytes) -> Result<(), AllocError>
        ensures ok { OnOk result (self.new ≡ with_text text self.old) }
        ensures err { OnErr result (self.new ≡ self.old) }
    {
        if self.put_in_front(text.as_slice()) {
            keep(&mut self.buffer, text.buffer());
            return Ok(());
        }
        if text.as_slice().len() > LONGEST {
            return Err(AllocError);
        }
        self.push_segment(Segment::of(text))
    }

    /// Inserts a short text before the bytes that come next, over bytes that were read, if it can. Returns whether it
    /// did.
    #[inline(always)]
    pub fn put_in_front(&mut self, text: &[u8]) -> bool
        ensures put { result ≡ true → self.new ≡ with_text text.now self.old }
        ensures left { result ≡ false → self.new ≡ self.old }
    {
        if text.len() > MOST_PUT_BEFORE {
            false
        } else if self.top.len() == 0 {
            self.file.put_in_block(text)
        } else {
            self.top.extend_back(text)
        }
    }

    /// Pushes a segment above the one that is read now, or in its place if that was read to its end.
    #[inline(never)]
    fn push_segment(&mut self, segment: Segment) -> Result<(), AllocError>
        ensures ok { OnOk result (self.new ≡ with_text segment self.old) }
        ensures err { OnErr result (self.new ≡ self.old) }
    {
        if segment.len() == 0 {
            return Ok(());
        }
        if self.top.len() == 0 {
            self.top = segment;
            return Ok(());
        }
        let held = self.held + self.top.len();
        if held > LONGEST {
            return Err(AllocError);
        }
        let top = std::mem::replace(&mut self.top, segment);
        match self.below.push(top) {
            Ok(()) => {
                self.held = held;
                Ok(())
            }
            Err(AllocFailed { value }) => {
                self.top = value;
                Err(AllocError)
            }
        }
    }

    /// Copies the rest of the first segment, if it is short, before the bytes that come after it, so that both are
    /// contiguous. Returns whether it did.
    #[inline(never)]
    pub fn join(&mut self) -> bool
        ensures { self.new ≡ self.old }
    {
        let rest = self.top.rest();
        if rest.len() > MOST_PUT_BEFORE {
            return false;
        }
        let Some(next) = self.below.last_mut() else {
            if !self.file.put_in_block(rest) {
                return false;
            }
            self.top = Segment::of(Bytes::empty());
            return true;
        };
        let len = next.len();
        if !next.extend_back(rest) {
            return false;
        }
        self.held -= len;
        if let Some(next) = self.below.pop() {
            self.top = next;
        }
        true
    }

    /// Returns a buffer without contents: that of the last text that was read to its end, if it had one.
    pub fn take_buffer(&mut self) -> Vec<u8>
        ensures empty { result.items ≡ [] }
        ensures stays { self.new ≡ self.old }
    {
        let alloc = *self.buffer.allocator();
        let mut buffer = std::mem::replace(&mut self.buffer, Vec::new(alloc));
        buffer.clear();
        buffer
    }

    /// Discards the first n bytes. The last `inline` ones have no newlines.
    #[inline(always)]
    pub fn consume(&mut self, n: usize, inline: usize)
        requires within { (inline ≤ n) × (n ≤ length (text_in self.old)) }
        requires inline { newlines_in (take inline (drop (n - inline) (text_in self.old))) ≡ 0 }
        ensures { self.new ≡ text_after n self.old }
    {
        if self.top.len() == 0 {
            self.file.consume(n, inline);
        } else if n < self.top.len() {
            self.top.pass(n);
        } else {
            self.consume_across(n);
        }
    }

    /// Discards the first n bytes, of several segments or of segments and the file. A segment that is read to its end
    /// is removed.
    #[inline(never)]
    fn consume_across(&mut self, n: usize)
        requires { n ≤ length (text_in self.old) }
        ensures { self.new ≡ text_after n self.old }
    {
        let mut left = n;
        'segments: while left >= self.top.len() {
            left -= self.top.len();
            let Some(next) = self.below.pop() else {
                let spent = std::mem::replace(&mut self.top, Segment::of(Bytes::empty()));
                keep(&mut self.buffer, spent.buffer());
                self.file.consume(left, 0);
                return;
            };
            self.held -= next.len();
            let spent = std::mem::replace(&mut self.top, next);
            keep(&mut self.buffer, spent.buffer());
        }
        self.top.pass(left);
    }
}
