//! Runs in rows: what a run is given and what it leaves, and the comparison of both.
//!
//! Each row is run with readers and writers of several sizes, since no result may depend on them.

use super::given::{AMPLE, BLOCKS, DONE, End, Seen, USUAL, Writers};
use super::report::{expected, printed_seen};
use super::shows::agrees_by;
use super::whole_texts::Part;
use m4_engine::options::Options;
use m4_engine::run::run;
use m4_engine::source::Source;
use m4_state::bytes::Bytes;
use m4_state::memory::MemSource;
use std::alloc::{AllocError, Global};
use std::process::Abort;

/// A source. The files are a.m4, b.m4 and so on by their place, and b.m4, c.m4 and so on after a frozen file.
#[derive(Clone, Copy)]
pub enum Given {
    /// A file with this text.
    File(&'static str),
    /// A file whose reader fails after this text.
    Failing(&'static str),
    /// A file of this name that is not opened.
    Missing(&'static str),
}

/// What a run starts from.
#[derive(Clone, Copy)]
pub enum Start {
    /// The fresh state.
    Fresh,
    /// A frozen file.
    Frozen(&'static str),
    /// A frozen file whose reader fails after this text.
    Broken(&'static str),
    /// The text that a run over a file with this text froze.
    After(&'static str),
}

/// A run. It freezes if it has the parts of a frozen text, of which there are none if it breaks off. The room is that
/// of the output, of the messages and of the frozen text.
#[derive(Clone, Copy)]
pub struct Row {
    pub name: &'static str,
    pub start: Start,
    pub prefix: bool,
    pub files: &'static [Given],
    pub limits: (u64, u64),
    pub room: (usize, usize, usize),
    pub output: &'static str,
    pub messages: &'static str,
    pub end: End,
    pub frozen_text: Option<&'static [Part]>,
}

/// A run over no file, which writes nothing.
pub const QUIET: Row = Row {
    name: "",
    start: Start::Fresh,
    prefix: false,
    files: &[],
    limits: USUAL,
    room: AMPLE,
    output: "",
    messages: "",
    end: DONE,
    frozen_text: None,
};

/// A run over no file that freezes.
pub const FREEZING: Row = Row {
    frozen_text: Some(&[]),
    ..QUIET
};

/// Returns the options of a row.
fn options_of(row: &Row) -> Options {
    Options {
        calls: row.limits.0,
        nesting: row.limits.1,
        freeze: row.frozen_text.is_some(),
        prefix: row.prefix,
    }
}

/// Makes a source of this letter, whose reader returns this many bytes at a time.
fn source<'a>(
    alloc: Global,
    letter: u8,
    given: Given,
    block: usize,
) -> Result<Source<MemSource<'a>>, AllocError> {
    let (text, fails) = match given {
        Given::File(text) => (text, false),
        Given::Failing(text) => (text, true),
        Given::Missing(name) => {
            let name = Bytes::from_slice(alloc, name.as_bytes())?;
            return Ok(Source::Unopened { name });
        }
    };
    Ok(Source::Opened {
        name: Bytes::from_slice(alloc, &[letter, b'.', b'm', b'4'])?,
        reader: MemSource::new(text.as_bytes(), block.max(1), fails),
    })
}

/// Makes sources, the first of which has this letter.
fn sources_of<'a>(
    alloc: Global,
    first: u8,
    files: &[Given],
    block: usize,
) -> Result<Vec<Source<MemSource<'a>>>, AllocError> {
    let mut sources = Vec::new(alloc);
    let mut letter = first;
    for one in files {
        sources.push(source(alloc, letter, *one, block)?)?;
        letter = letter.saturating_add(1);
    }
    Ok(sources)
}

/// Returns how many bytes the reader of the first source returned.
fn taken(sources: &[Source<MemSource<'_>>]) -> usize {
    match sources.first() {
        Some(Source::Opened { reader, .. }) => reader.taken(),
        _ => 0,
    }
}

/// A frozen file, and whether its reader fails after it.
pub type Frozen<'a> = Option<(&'a [u8], bool)>;

/// Runs over sources, with this room for the output, the messages and the frozen text. The readers return, and the
/// writers accept, this many bytes at a time. The devices are made first.
pub fn run_over<'a>(
    alloc: Global,
    options: Options,
    start: Frozen<'a>,
    sources: &mut [Source<MemSource<'a>>],
    room: (usize, usize, usize),
    block: usize,
) -> Result<Seen, AllocError> {
    let mut writers = Writers::new(alloc, room, block)?;
    let mut frozen = match start {
        Some((text, fails)) => Some(MemSource::new(text, block.max(1), fails)),
        None => None,
    };
    let ending = run(
        alloc,
        options,
        &mut frozen,
        sources,
        &mut writers.output,
        &mut writers.messages,
        &mut writers.frozen_text,
    );
    Ok(Seen {
        writers,
        end: (ending.status, ending.cause, ending.wrapped),
        is_loaded: is_loaded(start, &frozen),
        taken: taken(sources),
    })
}

/// Returns whether a reader returned all of its frozen file, if there is one.
fn is_loaded(start: Frozen<'_>, reader: &Option<MemSource<'_>>) -> bool {
    match (start, reader) {
        (Some((text, _)), Some(reader)) => reader.taken() == text.len(),
        _ => true,
    }
}

/// Runs a row from this frozen file, if there is one, over these files and with this room.
pub fn run_row<'a>(
    alloc: Global,
    row: &Row,
    start: Frozen<'a>,
    files: &[Given],
    room: (usize, usize, usize),
    block: usize,
) -> Result<Seen, AllocError> {
    let first = if start.is_some() { b'b' } else { b'a' };
    let mut sources: Vec<Source<MemSource<'a>>> = sources_of(alloc, first, files, block)?;
    run_over(alloc, options_of(row), start, &mut sources, room, block)
}

/// Returns the text that a run over these files freezes.
pub fn frozen_after(
    alloc: Global,
    start: Frozen<'_>,
    files: &[Given],
    block: usize,
) -> Result<Vec<u8>, AllocError> {
    let seen = run_row(alloc, &FREEZING, start, files, AMPLE, block)?;
    Vec::from_slice(alloc, seen.frozen_text())
}

/// Returns the bytes of the frozen file that a run starts from; none for the fresh state.
pub fn bytes_of(alloc: Global, start: Start, block: usize) -> Result<Vec<u8>, AllocError> {
    match start {
        Start::Fresh => Ok(Vec::new(alloc)),
        Start::Frozen(text) | Start::Broken(text) => Vec::from_slice(alloc, text.as_bytes()),
        Start::After(file) => frozen_after(alloc, None, &[Given::File(file)], block),
    }
}

/// Returns the frozen file that a run starts from, which has these bytes.
pub fn frozen_of(start: Start, bytes: &[u8]) -> Frozen<'_> {
    match start {
        Start::Fresh => None,
        Start::Frozen(_) | Start::After(_) => Some((bytes, false)),
        Start::Broken(_) => Some((bytes, true)),
    }
}

/// Runs a row.
pub fn seen_of(alloc: Global, row: &Row, block: usize) -> Result<Seen, AllocError> {
    let bytes = bytes_of(alloc, row.start, block)?;
    let start = frozen_of(row.start, &bytes);
    run_row(alloc, row, start, row.files, row.room, block)
}

/// Returns what a row has to leave, as a report.
fn expected_of(alloc: Global, row: &Row) -> Result<Vec<u8>, AllocError> {
    let written = (row.output.as_bytes(), row.messages.as_bytes());
    expected(alloc, written, row.end, row.frozen_text.unwrap_or(&[]))
}

/// Returns what a row leaves, as a report.
fn printed_of(alloc: Global, row: &Row, block: usize) -> Result<Vec<u8>, AllocError> {
    printed_seen(alloc, &seen_of(alloc, row, block)?)
}

/// Compares what each row leaves, at each size of a block.
pub fn compare(rt: &(impl Abort + Alloc<A = Global>), rows: &[Row]) {
    for row in rows {
        for block in BLOCKS {
            let got = printed_of(rt.alloc(), row, block);
            agrees_by(rt, row.name, block, expected_of(rt.alloc(), row), got);
        }
    }
}
