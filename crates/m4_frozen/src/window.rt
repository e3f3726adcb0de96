//! The bytes of a file that were read from the device and not used yet.

ghost use Rattle.std.specs.Prelude.{◌≡◌, ◌+◌, ◌++◌, ◌-◌, ◌*◌, ◌^◌, ◌<◌, ◌≤◌, [], min, length, drop, IfOk, OnOk};
ghost use Rattle.m4_frozen.specs.Blocks as blocks;
ghost use Rattle.m4_frozen.specs.Blocks.{as_offset};
ghost use Rattle.m4_frozen.specs.declared.fault.FrozenKind.TheVariants as kinds;
ghost use Rattle.m4_frozen.specs.declared.room.BlockRead.TheVariants as marks;

use crate::fault::{FrozenFault, FrozenKind, Refusal};
use crate::room::{BlockRead, fill_room};
use m4_state::bytes::Bytes;
use m4_state::device::ByteSource;
use std::alloc::{AllocError, Global};
use std::mem::replace;

/// The last bytes that were read, which strings may share, and how many were dropped before them. That count stays at
/// its greatest value.
#[derive(Drop)]
pub(crate) struct Window {
    bytes: Bytes,
    dropped: u64,
    /// The room of the last block, if no string may share it. The next block takes it.
    room: Vec<u8>,
}

impl Window {
    /// Returns an empty window: no byte was read.
    pub(crate) fn new(alloc: Global) -> Window
        ensures bytes { result.bytes ≡ [] }
        ensures dropped { result.dropped ≡ 0 }
    {
        Window {
            bytes: Bytes::empty(),
            dropped: 0,
            room: Vec::new(alloc),
        }
    }

    /// Returns the bytes.
    pub(crate) fn bytes(&self) -> &Bytes
        ensures { result.now ≡ self.now.bytes }
    {
        &self.bytes
    }

    /// Reads more bytes, about `usual` and at least as many as the window contains, so that the bytes parsed again
    /// are no more than those that were read. All are in one block. Later ones do not write to it if strings may share
    /// it.
    pub(crate) fn fill<R: ByteSource>(
        &mut self,
        alloc: Global,
        usual: usize,
        shares: bool,
        reader: &mut R,
    ) -> Result<BlockRead, AllocError>
        ensures takes { IfOk result (λ after. blocks.Fills self.old self.new
            (R.script reader.old) (R.script reader.new) after) }
        ensures counted { IfOk result (λ after. R.failures reader.new
            ≡ blocks.failures_after after (R.failures reader.old)) }
        ensures falls { IfOk result (λ after. after ≡ marks.More
            → R.takes_left reader.new < R.takes_left reader.old) }
        ensures doubles { IfOk result (λ after. after ≡ marks.More
            → min (length self.old.bytes * 2) (2 ^ 64 - 1) ≤ length self.new.bytes) }
    {
        let left = self.bytes.as_slice();
        let count = left.len();
        let enough = count.saturating_add(count.max(usual));
        // A room that is used again need not be set to zero again.
        let mut room = replace(&mut self.room, Vec::new(alloc));
        room.reserve_exact(enough.saturating_sub(room.len()))?;
        if count > 0 {
            room.clear();
            room.extend_from_slice(left)?;
        }
        // Frees the last block, unless strings share it.
        self.bytes = Bytes::empty();
        let (after, end) = fill_room(&mut room, count, enough, reader)?;
        room.truncate(end);
        self.bytes = if shares {
            room.shrink_to_fit();
            Bytes::from_vec(room)?
        } else {
            Bytes::from(room)
        };
        Ok(after)
    }

    /// Drops all bytes but the last `count`.
    pub(crate) fn keep_last(&mut self, count: usize) -> Result<(), AllocError>
        requires { count ≤ length self.old.bytes }
        ensures bytes { OnOk result (self.new.bytes ≡ drop (length self.old.bytes - count) self.old.bytes) }
        ensures dropped { OnOk result (self.new.dropped
            ≡ as_offset (self.old.dropped + (length self.old.bytes - count))) }
    {
        let used = self.len() - count;
        self.dropped = self.offset_of(used);
        let last = self.bytes.part(used, count)?;
        if let Some(room) = replace(&mut self.bytes, last).buffer() {
            self.room = room;
        }
        Ok(())
    }

    /// Returns how many bytes there are.
    pub(crate) fn len(&self) -> usize
        ensures { result ≡ length self.now.bytes }
    {
        self.bytes.as_slice().len()
    }

    /// Returns the offset of the byte after the first `count` bytes of the window.
    fn offset_of(&self, count: usize) -> u64
        ensures { result ≡ as_offset (self.now.dropped + count) }
    {
        self.dropped.saturating_add(count as u64)
    }

    /// Returns the fault of a refusal. Only here is its place counted from the start of the file.
    pub(crate) fn fault_of(&self, refusal: Refusal) -> FrozenFault
        ensures { result ≡ record {
          kind = refusal.kind;
          offset = as_offset (self.now.dropped + (length self.now.bytes - refusal.bytes_left));
        } }
    {
        FrozenFault {
            kind: refusal.kind,
            offset: self.offset_of(self.len().saturating_sub(refusal.bytes_left)),
        }
    }

    /// Returns the failure of a reader after the bytes that it returned.
    pub(crate) fn failure(&self) -> FrozenFault
        ensures { result ≡ record { kind = kinds.Read; offset = as_offset (self.now.dropped + length self.now.bytes) } }
    {
        FrozenFault {
            kind: FrozenKind::Read,
            offset: self.offset_of(self.len()),
        }
    }
}
