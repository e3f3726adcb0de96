//! The sizes and the options of runs in rows, and what a run leaves.

use m4_engine::ending::Cause;
use m4_engine::options::Options;
use m4_state::memory::MemSink;
use std::alloc::{AllocError, Global};

/// How many bytes a reader returns and a writer accepts at a time.
pub const BLOCKS: [usize; 4] = [1, 2, 3, 4096];

/// The limits of a run by default: of calls, and of calls that are open.
pub const USUAL: (u64, u64) = (4294967295, 1024);

/// Enough room for what a row writes.
pub const ROOM: usize = 1024;

/// Such room for the output, the messages and the frozen text.
pub const AMPLE: (usize, usize, usize) = (ROOM, ROOM, ROOM);

/// Returns the options with these limits: no freezing, no prefix.
pub fn options(limits: (u64, u64)) -> Options {
    Options {
        calls: limits.0,
        nesting: limits.1,
        freeze: false,
        prefix: false,
    }
}

/// The status of a run, its cause, and whether text was saved.
pub type End = (u8, Cause, bool);

/// The end of a run that read everything and saved no text.
pub const DONE: End = (0, Cause::Done, false);

/// The end of a run that a fault ends, with status 1.
pub const FAILED_READ: End = (1, Cause::Read, false);

pub const FAILED_WRITE: End = (1, Cause::Write, false);

/// The writers of a run or of a session.
pub struct Writers {
    pub output: MemSink,
    pub messages: MemSink,
    pub frozen_text: MemSink,
}

impl Writers {
    /// Makes writers with this room for the output, the messages and the frozen text. They accept this many bytes at a
    /// time.
    pub fn new(
        alloc: Global,
        room: (usize, usize, usize),
        block: usize,
    ) -> Result<Writers, AllocError> {
        Ok(Writers {
            output: MemSink::new(alloc, room.0, block.max(1))?,
            messages: MemSink::new(alloc, room.1, block.max(1))?,
            frozen_text: MemSink::new(alloc, room.2, block.max(1))?,
        })
    }
}

// Written out so that a caller's proof contains one call, not the drop of each field.
impl Drop for Writers {
    fn drop(self) {
        let Writers {
            output: _output,
            messages: _messages,
            frozen_text: _frozen_text,
        } = self;
    }
}

/// The outputs of a run, how it ended, whether it read all of the frozen file that it started from, and how many bytes
/// it read of its first source.
#[derive(Drop)]
pub struct Seen {
    pub writers: Writers,
    pub end: End,
    pub is_loaded: bool,
    pub taken: usize,
}

impl Seen {
    pub fn output(&self) -> &[u8] {
        self.writers.output.written()
    }

    pub fn messages(&self) -> &[u8] {
        self.writers.messages.written()
    }

    pub fn frozen_text(&self) -> &[u8] {
        self.writers.frozen_text.written()
    }
}
