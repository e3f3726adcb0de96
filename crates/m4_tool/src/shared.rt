//! Standard output and standard error. Two parts of a run write to them: the run itself, and the reader
//! of standard input, which flushes them, so that a user sees all earlier output before typing. If both
//! go to one place, their bytes appear there in the order in which the run wrote them.

use std::cell::RefCell;
use std::io::{self, ErrorKind, Read, Write};

/// How many bytes of the output are buffered, at most.
pub const OUTPUT_BUFFER: usize = 65536;

/// How many bytes of messages are buffered, at most. Few runs have more, and a longer message is written with no copy.
pub const MESSAGES_BUFFER: usize = 1024;

/// One of two writers that a run shares with the reader of standard input. Before it writes, it flushes the other one.
/// A call during another one would fail, but none is made.
#[derive(Drop)]
pub struct Shared<'a, W, V> {
    cell: &'a RefCell<W>,
    other: &'a RefCell<V>,
}

impl<W: Write, V: Write> Write for Shared<'_, W, V> {
    fn write(&mut self, buf: &[u8]) -> io::Result<usize> {
        // The other writer's bytes are older. If they cannot be flushed they stay in it, and its last flush
        // reports the fault again.
        let _flushed = flush(self.other);
        match self.cell.try_borrow_mut() {
            Ok(mut writer) => writer.write(buf),
            Err(_) => Err(io::Error::from(ErrorKind::Other)),
        }
    }

    fn flush(&mut self) -> io::Result<()> {
        flush(self.cell)
    }
}

/// Flushes a shared writer.
fn flush<W: Write>(cell: &RefCell<W>) -> io::Result<()> {
    match cell.try_borrow_mut() {
        Ok(mut writer) => writer.flush(),
        Err(_) => Err(io::Error::from(ErrorKind::Other)),
    }
}

/// The outputs of a run: standard output and the messages.
#[derive(Drop)]
pub struct SharedOutputs<W, E> {
    output: RefCell<W>,
    messages: RefCell<E>,
}

impl<W, E> SharedOutputs<W, E> {
    /// Returns outputs that share these two writers.
    pub fn new(output: W, messages: E) -> SharedOutputs<W, E> {
        SharedOutputs {
            output: RefCell::new(output),
            messages: RefCell::new(messages),
        }
    }

    /// Returns the writer of the output.
    pub fn output(&self) -> Shared<'_, W, E> {
        Shared {
            cell: &self.output,
            other: &self.messages,
        }
    }

    /// Returns the writer of the messages.
    pub fn messages(&self) -> Shared<'_, E, W> {
        Shared {
            cell: &self.messages,
            other: &self.output,
        }
    }
}

impl<W: Write, E: Write> SharedOutputs<W, E> {
    /// Flushes both, the output first, and returns whether both were flushed.
    pub fn flush(&self) -> bool {
        let output = flush(&self.output).is_ok();
        let messages = flush(&self.messages).is_ok();
        output && messages
    }
}

/// A reader that flushes both outputs, if it has them, before each read.
#[derive(Drop)]
pub struct FlushBeforeRead<'a, R, W, E> {
    reader: R,
    outputs: Option<&'a SharedOutputs<W, E>>,
}

impl<'a, R, W, E> FlushBeforeRead<'a, R, W, E> {
    /// Returns a reader over this one, which flushes these outputs.
    pub fn new(
        reader: R,
        outputs: Option<&'a SharedOutputs<W, E>>,
    ) -> FlushBeforeRead<'a, R, W, E> {
        FlushBeforeRead { reader, outputs }
    }
}

impl<R: Read, W: Write, E: Write> Read for FlushBeforeRead<'_, R, W, E> {
    // Each read gives what the reader below gives.
    ghost remaining = { λ s. R.remaining s.reader };

    fn read(&mut self, buf: &mut [u8]) -> io::Result<usize> {
        if let Some(outputs) = self.outputs {
            // Bytes that could not be flushed stay in the writer, and its last flush reports the fault again.
            let _flushed = outputs.flush();
        }
        self.reader.read(buf)
    }
}
