//! Devices over memory, whose bytes contracts know: a reader that returns a slice piece by piece, and
//! a writer with a fixed room. `take` and `put` allocate nothing.

ghost use Rattle.std.specs.Prelude.{
  ◌≡◌,
  ◌<◌,
  ◌≤◌,
  ◌+◌,
  ◌-◌,
  ◌++◌,
  [],
  length,
  take,
  drop,
  true,
  false,
  Ok,
  Some,
  IfOk,
  OnErr,
};
ghost use Rattle.m4_state.specs.Device.{after_bytes, with_bytes, count_after, IsAtEnd, IsAtFault};

use crate::device::{ByteSink, ByteSource, DeviceFault, fail};
use std::alloc::{AllocError, Global};
use std::marker::Model;

/// Returns the bytes of a slice, at most `at_most` for each take, and then ends or fails.
#[derive(Drop)]
pub struct MemSource<'a> {
    bytes: &'a [u8],
    given: usize,
    at_most: usize,
    fails: bool,
    failures: u64,
}

impl<'a> Model for MemSource<'a> {
    ghost use Rattle.std.specs.Prelude.{◌≤◌, ◌<◌, length};
    ghost use Rattle.m4_state.specs.Memory.{MemReader};

    ghost Value = { MemReader };

    ghost view = { λ s. record {
      all = s.bytes.now;
      taken = s.given;
      at_most = s.at_most;
      fails = s.fails;
      failures = s.failures;
    } };

    ghost invariant = { λ s. (s.given ≤ length s.bytes.now) × (0 < s.at_most) };
}

impl<'a> MemSource<'a> {
    /// Returns a reader of at most `at_most` bytes for each take. After the last byte it fails or ends.
    pub fn new(bytes: &'a [u8], at_most: usize, fails: bool) -> MemSource<'a>
        requires { 0 < at_most }
        ensures script { ⟦<MemSource<'a> as ByteSource>⟧.script result
            ≡ Some (record { bytes = bytes.now; fails = fails }) }
        ensures failures { ⟦<MemSource<'a> as ByteSource>⟧.failures result ≡ 0 }
        ensures reader { result ≡ record {
          all = bytes.now;
          taken = 0;
          at_most = at_most;
          fails = fails;
          failures =
              0;
        } }
    {
        MemSource {
            bytes,
            given: 0,
            at_most,
            fails,
            failures: 0,
        }
    }

    /// Returns how many bytes were read so far.
    pub fn taken(&self) -> usize
        ensures count { result ≡ self.now.taken }
        ensures within { result ≤ length self.now.all }
        ensures rest { ⟦<MemSource<'a> as ByteSource>⟧.script self.now
            ≡ Some (record { bytes = drop result self.now.all; fails = self.now.fails }) }
    {
        self.given
    }
}

impl ByteSource for MemSource<'_> {
    ghost use Rattle.m4_state.specs.Memory.{script_of};

    ghost script = { script_of };

    ghost failures = { λ s. s.failures };

    ghost takes_left = { λ s. length s.all - s.taken };

    fn take(&mut self, buf: &mut [u8]) -> Result<usize, DeviceFault>
        requires { 0 < length buf.old }
        ensures within { IfOk result (λ n. n ≤ length buf.old) }
        ensures gives { IfOk result (λ n. script_of self.old ≡ after_bytes (take n buf.new) (script_of self.new)) }
        ensures end { result ≡ Ok 0 → IsAtEnd (script_of self.new) }
        ensures falls { IfOk result (λ n. 0 < n → length self.new.all - self.new.taken < length self.old.all -
            self.old.taken) }
        ensures fault { OnErr result (IsAtFault (script_of self.old)) }
        ensures unchanged { OnErr result (script_of self.new ≡ script_of self.old) }
        ensures counted { self.new.failures ≡ count_after result self.old.failures }
        // it returns the bytes that it was made with, in order, and a fault returns none
        ensures moved { IfOk result (λ n. self.new ≡ record self.old { taken = self.old.taken + n }) }
        ensures stays { OnErr result (self.new ≡ record self.old { failures = self.new.failures }) }
        // and no more of them than it may return at once
        ensures at_most { IfOk result (λ n. n ≤ self.old.at_most) }
    {
        let left = self.bytes.len() - self.given;
        if left == 0 && self.fails {
            return fail(&mut self.failures);
        }
        let n = left.min(self.at_most).min(buf.len());
        let from = self.given;
        buf[..n].copy_from_slice(&self.bytes[from..from + n]);
        self.given += n;
        Ok(n)
    }
}

/// Stores the bytes written, at most `at_most` for each put, and fails once its room is full.
#[derive(Drop)]
pub struct MemSink {
    held: Vec<u8>,
    room: usize,
    at_most: usize,
    failures: u64,
}

impl Model for MemSink {
    ghost use Rattle.std.specs.Prelude.{◌≤◌, ◌<◌, vec_len, vec_capacity};
    ghost use Rattle.m4_state.specs.Memory.{MemWriter};

    ghost Value = { MemWriter };

    ghost view = { λ s. record {
      held = s.held.items;
      room = s.room;
      at_most = s.at_most;
      failures = s.failures;
    } };

    ghost invariant = { λ s. (vec_len s.held ≤ s.room) × (s.room ≤ vec_capacity s.held) × (0 < s.at_most) };
}

impl MemSink {
    /// Returns a writer of at most `at_most` bytes for each put and `room` bytes in all. The room is
    /// reserved here.
    pub fn new(alloc: Global, room: usize, at_most: usize) -> Result<MemSink, AllocError>
        requires { 0 < at_most }
        ensures contents { IfOk result (λ s. ⟦<MemSink as ByteSink>⟧.contents s ≡ Some []) }
        ensures failures { IfOk result (λ s. ⟦<MemSink as ByteSink>⟧.failures s ≡ 0) }
        ensures writer { IfOk result (λ s. s ≡ record { held = []; room = room; at_most = at_most; failures = 0 }) }
    {
        Ok(MemSink {
            held: Vec::with_capacity(alloc, room)?,
            room,
            at_most,
            failures: 0,
        })
    }

    /// Returns the bytes that were written.
    pub fn written(&self) -> &[u8]
        ensures { ⟦<MemSink as ByteSink>⟧.contents self.now ≡ Some result.now }
    {
        &self.held
    }
}

impl ByteSink for MemSink {
    ghost contents = { λ s. Some s.held };

    ghost failures = { λ s. s.failures };

    fn put(&mut self, bytes: &[u8]) -> Result<usize, DeviceFault>
        requires { 0 < length bytes.now }
        ensures within { IfOk result (λ n. n ≤ length bytes.now) }
        ensures some { IfOk result (λ n. 0 < n) }
        ensures takes { IfOk result (λ n. Some self.new.held ≡ with_bytes (Some self.old.held) (take n bytes.now)) }
        ensures unchanged { OnErr result (Some self.new.held ≡ Some self.old.held) }
        ensures counted { self.new.failures ≡ count_after result self.old.failures }
        // it stores no more bytes than it may at once, nor than it has room for, and nothing else changes
        ensures at_most { IfOk result (λ n. n ≤ self.old.at_most) }
        ensures room { IfOk result (λ n. length self.old.held + n ≤ self.old.room) }
        ensures stored { IfOk result (λ n. self.new ≡ record self.old { held = self.old.held ++ take n bytes.now }) }
        // it fails only once its room is used up
        ensures full { OnErr result (length self.old.held ≡ self.old.room) }
        ensures stays { OnErr result (self.new ≡ record self.old { failures = self.new.failures }) }
    {
        let left = self.room - self.held.len();
        if left == 0 {
            return fail(&mut self.failures);
        }
        let n = left.min(self.at_most).min(bytes.len());
        self.held.extend_from_slice(&bytes[..n]).unwrap();
        Ok(n)
    }
}
