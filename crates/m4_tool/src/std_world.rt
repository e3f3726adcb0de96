//! The world of a process: its files and its standard input. Contracts know no byte of it.
//!
//! All files are opened before the run. The number of files that a process may have open is limited: from the first
//! one on for which there is no descriptor, a file is tried, closed, and opened again when it is read.

ghost use Rattle.std.specs.Prelude.{◌≡◌, IfErr, IfOk, None, false, option_and_then};
ghost use Rattle.std.specs.IoError.{error_kind};

use crate::shared::{FlushBeforeRead, SharedOutputs};
use crate::sources::FileOrInput;
use crate::world::{Shows, World};
use m4_state::device::{DeviceFault, fail};
use m4_state::standard::{StdSink, StdSource};
use std::alloc::Global;
use std::cell::Cell;
use std::fs::{self, OpenFile};
use std::io::{self, BufWriter, Empty, ErrorKind, Read, Seek, Sink, Write};
use std::rt::Files;

/// The system's numbers of the two errors for too many open files: in the system, and in the process.
const TOO_MANY: [i32; 2] = [23, 24];

/// How many bytes of a made file are buffered, at most. A text of that length or more is written with no copy, and a
/// small file touches little memory.
const FROZEN_BUFFER: usize = 32768;

/// The byte with which a regular file begins until all behind it was written. No frozen file begins with it.
const MARK: u8 = 0;

/// A writer to the file that was made. If none was, each write fails, and a flush has nothing to do.
#[derive(Drop)]
struct Made<F> {
    file: Option<F>,
    begins: Begins,
}

/// How the file that was made begins.
#[derive(Clone, Copy)]
enum Begins {
    /// As it is written: it is no regular file, or all of it was written.
    AsWritten,
    /// With the mark, once its first byte is written.
    Marked,
    /// With the mark, in place of this byte.
    MarkedFor(u8),
}

impl<F: Write + Seek> Made<F> {
    /// Writes the true first byte over the mark, if there is one.
    fn unmark(&mut self) -> io::Result<()> {
        let Begins::MarkedFor(first) = self.begins else {
            return Ok(());
        };
        let Some(file) = &mut self.file else {
            return Ok(());
        };
        file.rewind()?;
        file.write_all(&[first])?;
        file.flush()?;
        self.begins = Begins::AsWritten;
        Ok(())
    }
}

impl<F: Write> Write for Made<F> {
    // What is written here is written to the file.
    ghost contents = { λ m. option_and_then F.contents m.file };

    fn write(&mut self, buf: &[u8]) -> io::Result<usize> {
        match &mut self.file {
            Some(file) => file.write(buf),
            None => Err(io::Error::from(ErrorKind::Other)),
        }
    }

    fn flush(&mut self) -> io::Result<()> {
        match &mut self.file {
            Some(file) => file.flush(),
            None => Ok(()),
        }
    }
}

/// The files and the standard input of a process, and the file that was made. Before standard input is
/// read, the outputs are flushed, if there are any. The made file is written in blocks.
#[derive(Drop)]
pub struct StdWorld<'a, R: Files, I, W, E> {
    rt: &'a R,
    input: I,
    outputs: Option<&'a SharedOutputs<W, E>>,
    made: BufWriter<Made<<R as Files>::File>>,
    spare: Cell<Option<<R as Files>::File>>,
    is_full: Cell<bool>,
    is_input_taken: bool,
    failures: u64,
}

/// The files of a process as a world of their own, with an empty standard input and no outputs.
pub type StdFiles<'a, R> = StdWorld<'a, R, Empty, Sink, Sink>;

impl<'a, R: Files + Alloc<A = Global>, I, W, E> StdWorld<'a, R, I, W, E> {
    /// Returns the world of this runtime, with this standard input, whose process writes to these outputs. The
    /// spare file is closed when there are too many open files, so that one more can be opened. Allocates a block.
    pub fn new(
        rt: &'a R,
        input: I,
        outputs: &'a SharedOutputs<W, E>,
        spare: Option<<R as Files>::File>,
    ) -> io::Result<StdWorld<'a, R, I, W, E>>
    where
        I: Drop,
        ensures { IfErr result (λ error. error_kind error ≡ ErrorKind.OutOfMemory) }
    {
        StdWorld::with_outputs(rt, input, Some(outputs), spare)
    }

    /// Returns the world of this runtime, which has not made a file yet.
    fn with_outputs(
        rt: &'a R,
        input: I,
        outputs: Option<&'a SharedOutputs<W, E>>,
        spare: Option<<R as Files>::File>,
    ) -> io::Result<StdWorld<'a, R, I, W, E>>
    where
        I: Drop,
        ensures out_of_memory { IfErr result (λ error. error_kind error ≡ ErrorKind.OutOfMemory) }
        ensures failures { IfOk result (λ world. world.failures ≡ 0) }
    {
        let made = BufWriter::with_capacity(
            rt.alloc(),
            FROZEN_BUFFER,
            Made {
                file: None,
                begins: Begins::AsWritten,
            },
        )?;
        Ok(StdWorld {
            rt,
            input,
            outputs,
            made,
            spare: Cell::new(spare),
            is_full: Cell::new(false),
            is_input_taken: false,
            failures: 0,
        })
    }
}

impl<'a, R: Files + Alloc<A = Global>> StdWorld<'a, R, Empty, Sink, Sink> {
    /// Returns the files of this runtime. Allocates a block.
    pub fn of_files(rt: &'a R) -> io::Result<StdFiles<'a, R>>
        ensures out_of_memory { IfErr result (λ error. error_kind error ≡ ErrorKind.OutOfMemory) }
        ensures failures { IfOk result (λ world. world.failures ≡ 0) }
    {
        StdWorld::with_outputs(rt, io::empty(), None, None)
    }
}

impl<'a, R: Files + Alloc<A = Global>, I, W, E> StdWorld<'a, R, I, W, E> {
    /// Opens a file to be read, unless that is refused. Once there were too many open files, a file stays closed until
    /// it is read, so that one descriptor is free for the file that is read and for the one that is made.
    fn open_input<J>(&self, path: &str) -> Option<FileOrInput<'a, R, J>> {
        if !self.is_full.get() {
            match open_file(self.rt, path) {
                Ok(file) => return Some(FileOrInput::File(file)),
                Err(fault) if !is_too_many(&fault) => return None,
                Err(_fault) => self.is_full.set(true),
            }
            let _closed = self.spare.replace(None);
        }
        if !can_be_opened(self.rt, path) {
            return None;
        }
        let alloc = self.rt.alloc();
        match String::from_str(alloc, path) {
            Ok(path) => Some(FileOrInput::Later(self.rt, path)),
            Err(_refused) => None,
        }
    }
}

/// Flushes the outputs, if there are any, and returns whether all were flushed.
fn flush_outputs<W: Write, E: Write>(outputs: Option<&SharedOutputs<W, E>>) -> bool {
    match outputs {
        Some(outputs) => outputs.flush(),
        None => true,
    }
}

/// Makes an empty file, and returns how it begins.
fn create_file<R: Files>(rt: &R, path: &str) -> io::Result<(<R as Files>::File, Begins)> {
    let file = fs::create(rt, path)?;
    let begins = if file.metadata()?.is_file() {
        Begins::Marked
    } else {
        Begins::AsWritten
    };
    Ok((file, begins))
}

/// Flushes the file that was made, and then writes its true first byte, unless a write of it has failed.
fn flush_unmarked<F: Write + Seek + Drop>(
    made: &mut BufWriter<Made<F>>,
    failed: bool,
) -> io::Result<()> {
    made.flush()?;
    if failed {
        return Err(io::Error::from(ErrorKind::Other));
    }
    made.get_mut().unmark()
}

/// Opens a file that is no directory.
fn open_file<R: Files>(rt: &R, path: &str) -> io::Result<<R as Files>::File> {
    let file = fs::open(rt, path)?;
    if file.metadata()?.is_dir() {
        return Err(io::Error::from(ErrorKind::IsADirectory));
    }
    Ok(file)
}

/// Returns whether a file can be opened later. Only a regular file is opened to find out: if another one, such as a
/// pipe, is closed again, its writer may fail.
fn can_be_opened<R: Files>(rt: &R, path: &str) -> bool {
    match fs::metadata(rt, path) {
        Ok(data) if data.is_file() => match open_file(rt, path) {
            Ok(_file) => true,
            Err(fault) => is_too_many(&fault),
        },
        Ok(data) => !data.is_dir(),
        Err(_fault) => false,
    }
}

/// Returns whether the error says that there are too many open files.
fn is_too_many(fault: &io::Error) -> bool {
    match fault.raw_os_error() {
        Some(number) => TOO_MANY.contains(&number),
        None => false,
    }
}

impl<'a, R: Files + Alloc<A = Global>, I: Read + Copy, W: Write, E: Write> World
    for StdWorld<'a, R, I, W, E> {
    type Reader = StdSource<FileOrInput<'a, R, FlushBeforeRead<'a, I, W, E>>>;

    ghost files = { λ _. None };

    ghost input = { λ _. None };

    ghost making = { λ _. false };

    ghost kept = { λ _. None };

    ghost failures = { λ w. w.failures };

    fn open(
        &self,
        name: &[u8],
    ) -> Option<StdSource<FileOrInput<'a, R, FlushBeforeRead<'a, I, W, E>>>> {
        let Ok(path) = std::str::from_utf8(name) else {
            return None;
        };
        match self.open_input(path) {
            Some(file) => Some(StdSource::new(file)),
            None => None,
        }
    }

    fn stdin(&mut self) -> StdSource<FileOrInput<'a, R, FlushBeforeRead<'a, I, W, E>>> {
        // A terminal could be read on after its end.
        if self.is_input_taken {
            return StdSource::new(FileOrInput::Closed);
        }
        self.is_input_taken = true;
        let input = FlushBeforeRead::new(self.input, self.outputs);
        StdSource::new(FileOrInput::Input(input))
    }

    fn create(&mut self, name: &[u8]) -> Result<(), DeviceFault> {
        // An old file is emptied only if nothing that the run wrote before is lost.
        if !flush_outputs(self.outputs) {
            return fail(&mut self.failures);
        }
        let Ok(path) = std::str::from_utf8(name) else {
            return fail(&mut self.failures);
        };
        match create_file(self.rt, path) {
            Ok((file, begins)) => {
                let made = self.made.get_mut();
                made.file = Some(file);
                made.begins = begins;
                Ok(())
            }
            Err(_fault) => fail(&mut self.failures),
        }
    }

    fn append(&mut self, _name: &[u8], bytes: &[u8]) -> Result<usize, DeviceFault> {
        let written = match (self.made.get_ref().begins, bytes) {
            (Begins::Marked, [first, ..]) => {
                self.made.get_mut().begins = Begins::MarkedFor(*first);
                self.made.write(&[MARK])
            }
            _ => self.made.write(bytes),
        };
        match written {
            Ok(n) if n > 0 => Ok(n),
            _ => fail(&mut self.failures),
        }
    }

    fn finish(&mut self, _name: &[u8]) -> Result<(), DeviceFault> {
        // A file of which a write failed stays marked, also if the rest can be flushed now.
        let failed = self.failures > 0;
        match flush_unmarked(&mut self.made, failed) {
            Ok(()) => Ok(()),
            Err(_fault) => fail(&mut self.failures),
        }
    }
}

impl<W: Write> Shows for StdSink<W> {
    ghost shown = { λ _. None };

    fn flush(&mut self) -> Result<(), DeviceFault> {
        StdSink::flush(self)
    }
}
