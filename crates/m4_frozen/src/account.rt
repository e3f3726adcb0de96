//! Which blocks of a file are shared by the strings that are read from them.
//!
//! A string that shares the memory of its block keeps all of the block. So a block is shared only while all that is
//! kept is hardly more than the strings would take alone. Then the memory stays proportional to the strings that are
//! kept, also if most of a file is something else.

use crate::room::BLOCK;
use m4_state::bytes::SHORT;

/// How many bytes a long string takes besides its own if it shares no memory, for its counts and those of the heap.
const BESIDES: usize = 64;

/// How many bytes are read at once where long strings come: few of them then reach into the next block.
pub(crate) const LONG_BLOCK: usize = 4 * BLOCK;

/// The bytes that the long strings keep, and those that they would take alone.
#[derive(Drop)]
pub(crate) struct Account {
    /// The blocks that are shared, and the strings that share none.
    kept: usize,
    alone: usize,
    /// How many the strings before the block would take.
    alone_before: usize,
    shares: bool,
}

impl Account {
    /// Returns the account of a file of which no block was read.
    pub(crate) fn new() -> Account {
        Account {
            kept: 0,
            alone: 0,
            alone_before: 0,
            shares: true,
        }
    }

    /// Returns about how many bytes the next block is to have.
    pub(crate) fn block_len(&self) -> usize {
        if self.kept == 0 { BLOCK } else { LONG_BLOCK }
    }

    /// Begins a block, and decides whether it is shared: an eighth and a block more may be kept than the strings would
    /// take.
    pub(crate) fn begin(&mut self) {
        let most = self.alone.saturating_add(self.alone / 8);
        self.shares = self.kept <= most.saturating_add(LONG_BLOCK);
        self.alone_before = self.alone;
    }

    /// Returns whether the long strings of the block share its memory.
    #[inline(always)]
    pub(crate) fn shares(&self) -> bool {
        self.shares
    }

    /// Counts a string of the block.
    #[inline(always)]
    pub(crate) fn count(&mut self, len: usize) {
        if len > SHORT {
            self.alone = self.alone.saturating_add(len).saturating_add(BESIDES);
        }
    }

    /// Ends a block of `len` bytes.
    pub(crate) fn end(&mut self, len: usize) {
        let alone = self.alone.saturating_sub(self.alone_before);
        if alone > 0 {
            let kept = if self.shares { len } else { alone };
            self.kept = self.kept.saturating_add(kept);
        }
    }
}
