//! The inputs of a run: files, and standard input. All are opened before the run, and a file is closed once it was
//! read to its end.

ghost use Rattle.std.specs.Prelude.{◌≡◌, IfOk};
ghost use Rattle.m4_tool.specs.Line.{source_name};

use m4_state::bytes::Bytes;
use std::alloc::{AllocError, Global};
use std::fs;
use std::io::{self, Read};
use std::rt::Files;

/// A file, or standard input.
#[derive(Drop)]
pub enum FileOrInput<'a, R: Files, I> {
    /// An open file.
    File(<R as Files>::File),
    /// A file that can be opened, for which there was no descriptor before the run: it is opened when it is first
    /// read.
    Later(&'a R, String),
    /// A file that was read to its end.
    Closed,
    /// Standard input.
    Input(I),
}

impl<R: Files, I: Read + Drop> Read for FileOrInput<'_, R, I> {
    fn read(&mut self, buf: &mut [u8]) -> io::Result<usize> {
        if let FileOrInput::Later(rt, path) = self {
            let file = fs::open(*rt, path.as_str())?;
            *self = FileOrInput::File(file);
        }
        let len = match self {
            FileOrInput::File(file) => file.read(buf)?,
            FileOrInput::Input(input) => return input.read(buf),
            _ => 0,
        };
        if len == 0 && !buf.is_empty() {
            *self = FileOrInput::Closed;
        }
        Ok(len)
    }
}

/// The word that means standard input on a line.
pub(crate) const INPUT: &str = "-";

/// Returns the name of a file of the line, as messages print it.
pub(crate) fn source_name(alloc: Global, file: &str) -> Result<Bytes, AllocError>
    ensures { IfOk result (λ name. name ≡ source_name file.now) }
{
    if file == INPUT {
        Bytes::from_slice(alloc, b"stdin")
    } else {
        Bytes::from_slice(alloc, file.as_bytes())
    }
}
