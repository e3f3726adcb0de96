//! The bytes of one file that are in hand, and how many of them were read.
//!
//! Blocks of the file are appended to a buffer. If it is full, and more of its bytes were read than are left, the bytes
//! left are moved to its start. So reading a file and moving its bytes takes time in proportion to the file. A short
//! text that a call pushes is written over bytes that were read.

ghost use Rattle.std.specs.Prelude.{◌≡◌, ◌+◌, ◌<◌, ◌≤◌, ◌++◌, [], OnOk, OnErr, IfOk, Ok, true, false, length, take};
ghost use Rattle.std.specs.Prelude.{◌-◌, drop, vec_len, vec_capacity};
ghost use Rattle.m4_input.specs.Input.{block};
ghost use Rattle.m4_input.specs.Text.{text_in, text_after, with_text, TakesBlock, failures_by};
ghost use Rattle.m4_input.specs.Pending.{newlines_in};

use crate::fault::InputFault;
use m4_state::append::{append_in_room, copy_before};
use m4_state::device::{ByteSource, DeviceFault};
use std::alloc::{AllocError, Global};
use std::marker::Model;

/// How many bytes a reader is asked for at a time.
const SOURCE_BLOCK: usize = 4096;

/// The room for pushed texts before the first block, in bytes. Later blocks have bytes before them that were read.
const PUSHED_ROOM: usize = 1024;

/// Bytes of a file, how many of them were read, and how many newlines of the file were read. The first `pushed` of the
/// bytes that are left were pushed, over bytes of the file.
#[derive(Drop)]
pub struct File {
    bytes: Vec<u8>,
    at: usize,
    pushed: usize,
    newlines: usize,
}

impl Model for File {
    ghost use Rattle.m4_input.specs.Text.{HeldText};
    ghost use Rattle.m4_input.specs.FileView.{file_view, IsFile};

    ghost Value = { HeldText };

    ghost view = { file_view };

    ghost invariant = { IsFile };
}

/// The number of bytes in which newlines are counted at once. The count fits into a byte, so one instruction compares
/// many bytes.
const COUNTED_AT_ONCE: usize = 255;

/// Counts the newlines. Not inlined, so that the loop has the registers for itself.
#[inline(never)]
fn count_newlines(bytes: &[u8]) -> usize
    ensures { result ≡ newlines_in bytes.now }
{
    let mut count = 0usize;
    let mut rest = bytes;
    while rest.len() > COUNTED_AT_ONCE {
        let (few, others) = rest.split_at(COUNTED_AT_ONCE);
        count += usize::from(count_few(few));
        rest = others;
    }
    count + usize::from(count_few(rest))
}

/// Counts the newlines of at most 255 bytes, so that one byte can hold the count.
#[inline(always)]
fn count_few(bytes: &[u8]) -> u8
    requires { length bytes.now ≤ 255 }
    ensures { result ≡ newlines_in bytes.now }
{
    let mut count = 0u8;
    for byte in bytes {
        count += u8::from(*byte == b'\n');
    }
    count
}

/// Makes room for a block at the end, and for pushed texts before the first block. Returns the new position of the
/// bytes that were at position `at`.
fn make_room(bytes: &mut Vec<u8>, at: usize) -> Result<usize, AllocError>
    requires { at ≤ vec_len bytes.old }
    ensures within { IfOk result (λ n. n ≤ vec_len bytes.new) }
    ensures same { IfOk result (λ n. drop n bytes.new.items ≡ drop at bytes.old.items) }
    ensures room { OnOk result (vec_len bytes.new + block ≤ vec_capacity bytes.new) }
    ensures err { OnErr result (bytes.new.items ≡ bytes.old.items) }
{
    let len = bytes.len();
    if len == 0 {
        bytes.reserve(PUSHED_ROOM + SOURCE_BLOCK)?;
        append_in_room(bytes, &[0; PUSHED_ROOM]);
        return Ok(PUSHED_ROOM);
    }
    let is_full = bytes.capacity() < len.saturating_add(SOURCE_BLOCK);
    if is_full && at >= (len - at).saturating_add(SOURCE_BLOCK) {
        let (front, rest) = bytes.split_at_mut(at);
        front[..rest.len()].copy_from_slice(rest);
        bytes.truncate(len - at);
        return Ok(0);
    }
    bytes.reserve(SOURCE_BLOCK)?;
    Ok(at)
}

impl File {
    /// Creates a file of which no byte is in hand.
    pub fn new(alloc: Global) -> File
        ensures { result ≡ record { pushed = []; unread = []; newlines = 0 } }
    {
        File {
            bytes: Vec::new(alloc),
            at: 0,
            pushed: 0,
            newlines: 0,
        }
    }

    /// Asks a reader once, and appends a block of its bytes to the unread ones. Returns whether bytes came: if none
    /// did, the reader is at its end. If the reader or an allocation fails, nothing changes.
    pub fn take_block<R: ByteSource>(&mut self, reader: &mut R) -> Result<bool, InputFault>
        ensures gives { TakesBlock (R.script reader.old) (R.script reader.new) self.old self.new result }
        ensures falls { result ≡ Ok true → R.takes_left reader.new < R.takes_left reader.old }
        ensures counted { R.failures reader.new ≡ failures_by result (R.failures reader.old) }
    {
        match make_room(&mut self.bytes, self.at) {
            Ok(at) => self.at = at,
            Err(AllocError) => return Err(InputFault::OutOfMemory),
        }
        let mut block = [0u8; SOURCE_BLOCK];
        match reader.take(&mut block) {
            Ok(n) => {
                append_in_room(&mut self.bytes, &block[..n]);
                Ok(n > 0)
            }
            Err(DeviceFault) => Err(InputFault::Read),
        }
    }

    /// Returns the number of newlines that were read.
    pub fn newlines(&self) -> usize
        ensures { result ≡ self.now.newlines }
    {
        self.newlines
    }

    /// Returns the bytes that are left.
    #[inline(always)]
    pub fn rest(&self) -> &[u8]
        ensures { result.now ≡ text_in self.now }
    {
        self.bytes.split_at(self.at).1
    }

    /// Inserts a text at the start, over bytes that were read, if there are as many of these. Returns whether it did.
    #[inline(always)]
    pub fn put_in_block(&mut self, text: &[u8]) -> bool
        ensures put { result ≡ true → self.new ≡ with_text text.now self.old }
        ensures left { result ≡ false → self.new ≡ self.old }
    {
        if text.len() > self.at {
            return false;
        }
        copy_before(&mut self.bytes, self.at, text);
        self.at -= text.len();
        self.pushed += text.len();
        true
    }

    /// Discards the first n bytes, and counts the newlines in those of the file. It looks at none of the last `inline`
    /// ones, which have no newlines.
    #[inline(always)]
    pub fn consume(&mut self, n: usize, inline: usize)
        requires within { (inline ≤ n) × (n ≤ length (text_in self.old)) }
        requires inline { newlines_in (take inline (drop (n - inline) (text_in self.old))) ≡ 0 }
        ensures { self.new ≡ text_after n self.old }
    {
        let others = n - inline;
        if others > self.pushed {
            let read = self.rest().split_at(others).0.split_at(self.pushed).1;
            self.newlines = self.newlines.saturating_add(count_newlines(read));
        }
        self.pushed = self.pushed.saturating_sub(n);
        self.at += n;
    }
}
