//! Rows of steps on an input: its calls, and questions about the bytes in hand.

ghost use Rattle.std.specs.Prelude.{◌≡◌, ◌≤◌, None, IfOk, length};
ghost use Rattle.m4_input.specs.Pending.{text_of};

use super::looks::describe_look;
use super::{BLOCKS, describe, describe_fault};
use crate::given::{Given, delimited, describe_definition, made};
use crate::report::{Report, repeated};
use crate::shows::{Way, agrees};
use m4_input::delims::Delims;
use m4_input::fault::InputFault;
use m4_input::front::Look;
use m4_input::input::Input;
use m4_input::look::look_by_kind;
use m4_input::pushed::Pushed;
use m4_input::token::Token;
use m4_state::bytes::Bytes;
use m4_state::fault::StateFault;
use m4_state::memory::MemSource;
use std::alloc::{AllocError, Global};
use std::process::Abort;

/// A step on an input.
#[derive(Clone, Copy)]
pub enum Step {
    /// Asks the reader once.
    More,
    /// Asks the reader once, and again while the first token is open.
    Token,
    /// The first token of the bytes in hand.
    Look,
    /// Asks until the first token is decided.
    Decide,
    /// More of the bytes in hand than so many, in one slice, and whether others come after them.
    Front(usize),
    /// Skips the rest of the line as far as it is in hand.
    Skip,
    /// The next token, for which the input asks by itself.
    Next,
    /// The length of the next token, if it is a name.
    NextLen,
    /// The tokens up to the end.
    Rest,
    /// Whether a list follows, for which the input asks by itself.
    SeesParen,
    /// Skips the rest of the line, for which the input asks by itself.
    SkipLine,
    /// Removes the definition before the text.
    TakeDefinition,
    /// Removes so many bytes in hand, or all if there are fewer.
    Take(usize),
    /// Pushes a text, so many letters, or a definition, where no definition is.
    Push(&'static str),
    PushMany(usize),
    PushDefinition(Given),
    /// Copies a text to before the bytes in hand, if there is room, and reports whether there was.
    PushInPlace(&'static str),
    /// Removes all bytes in hand, and reports them.
    TakeAll,
    /// The bytes in hand that are contiguous, the line, the file's name, and how many bytes the reader returned.
    Hand,
    Line,
    Name,
    Taken,
}

/// Two delimiters, the first and the last, or none for the usual ones.
pub type Pair = Option<(&'static str, &'static str)>;

/// A file a.m4, the numbers of bytes that its reader returns at a time, and whether it fails at the end, or a text that
/// was saved; steps and their results.
pub struct Row {
    pub name: &'static str,
    pub quotes: Pair,
    pub comments: Pair,
    pub file: &'static str,
    pub blocks: &'static [usize],
    pub fails: bool,
    pub wrapped: bool,
    pub steps: &'static [Step],
    pub want: &'static str,
}

/// A row with the usual delimiters, whose file is read in one block.
pub const PLAIN: Row = Row {
    name: "",
    quotes: None,
    comments: None,
    file: "",
    blocks: &[4096],
    fails: false,
    wrapped: false,
    steps: &[],
    want: "",
};

/// The same, but the file is read in blocks of each size.
pub const BLOCKED: Row = Row {
    blocks: &BLOCKS,
    ..PLAIN
};

/// Quotes of two bytes each.
pub const ANGLES: Pair = Some(("<<", ">>"));

/// Comments whose begin begins with a parenthesis.
pub const STARS: Pair = Some(("(*", "*)"));

/// Quotes or comments that are disabled.
pub const NONE: Pair = Some(("", ""));

// More tokens than any row has, and more blocks.
const MOST: usize = 100;

// More bytes than are in hand where a row looks at them.
const IN_HAND: usize = 64;

// Adds a result that is a line.
fn add_line(line: Result<&'static [u8], InputFault>, report: &mut Report) {
    match line {
        Ok(line) => report.add(line),
        Err(fault) => describe_fault(fault, report),
    }
}

/// Asks the reader once, if it has not ended, and with delimiters again while the first token is open.
pub fn ask(
    input: &mut Input,
    reader: &mut MemSource<'_>,
    delims: Option<&Delims<'_>>,
) -> Result<&'static [u8], InputFault> {
    if let Some(fault) = input.fault() {
        return Err(fault);
    }
    if !input.may_follow() {
        return Ok(b"closed\n");
    }
    if let Some(delims) = delims {
        input.more_of_token(reader, delims)?;
        return Ok(b"asked\n");
    }
    Ok(if input.more(reader)? {
        b"more\n"
    } else {
        b"end\n"
    })
}

// Adds the first token if the bytes in hand decide it, or the fault of an earlier step. Returns whether it did.
fn add_decided(alloc: Global, input: &Input, delims: &Delims<'_>, report: &mut Report) -> bool {
    if let Some(fault) = input.fault() {
        describe_fault(fault, report);
        return true;
    }
    let mut copy = Vec::new(alloc);
    match input.front(IN_HAND, &mut copy) {
        Ok(Some((text, others))) => {
            let look = look_by_kind(text, delims, others | input.may_follow());
            if look == Look::NeedsMore {
                return false;
            }
            describe_look(look, text, report);
            report.add(b"\n");
        }
        Ok(None) => report.add(b"a definition\n"),
        Err(AllocError) => report.refuse(),
    }
    true
}

// Adds a token, or its length if it is to be a name, or the fault. Returns whether it is the end.
fn add_token(token: Result<Token, InputFault>, measured: bool, report: &mut Report) -> bool {
    match token {
        Ok(Token::Name(name)) if measured => {
            report.counted(b"a name of ", name.as_slice().len());
            report.add(b"\n");
        }
        Ok(Token::End) => {
            describe(&Token::End, report);
            return true;
        }
        Ok(token) => describe(&token, report),
        Err(fault) => describe_fault(fault, report),
    }
    false
}

/// Returns the bytes in hand that are contiguous: all of them, if no text is on the stack.
pub fn in_hand(alloc: Global, input: &Input) -> Result<Vec<u8>, AllocError>
    ensures { IfOk result (λ hand. length hand.items ≤ length (text_of input.now.pending)) }
{
    let mut copy = Vec::new(alloc);
    match input.front(0, &mut copy)? {
        Some((front, _)) => Vec::from_slice(alloc, front),
        None => Ok(Vec::new(alloc)),
    }
}

// How many texts are on the stack at most.
const TEXTS: usize = 8;

// Removes so many bytes in hand, or all if there are fewer, text by text, and returns them.
fn take(alloc: Global, input: &mut Input, n: usize) -> Result<Vec<u8>, AllocError> {
    let mut taken = Vec::new(alloc);
    for _ in 0..TEXTS {
        let front = in_hand(alloc, input)?;
        let len = front.len().min(n.saturating_sub(taken.len()));
        taken.extend_from_slice(front.split_at(len).0)?;
        input.consume(len, 0);
    }
    Ok(taken)
}

/// Adds some bytes, if there was memory for them.
pub fn describe_bytes(bytes: Result<Vec<u8>, AllocError>, report: &mut Report) {
    match bytes {
        Ok(bytes) => {
            report.pair(b"[", &bytes);
            report.add(b"]\n");
        }
        Err(AllocError) => report.refuse(),
    }
}

// Adds how many bytes are in front, if these are more than so many or all, and whether others come after them.
fn describe_front(alloc: Global, input: &Input, looked: usize, report: &mut Report) {
    let mut copy = Vec::new(alloc);
    match input.front(looked, &mut copy) {
        Ok(Some((front, others))) => {
            report.pair(b"[", front);
            report.add(if others { b"] others\n" } else { b"] all\n" });
        }
        Ok(None) => report.add(b"a definition\n"),
        Err(AllocError) => report.refuse(),
    }
}

/// Adds a number after its name.
pub fn describe_count(name: &[u8], count: usize, report: &mut Report) {
    report.counted(name, count);
    report.add(b"\n");
}

// Removes the definition before the text, and adds it.
fn take_definition(input: &mut Input, report: &mut Report) {
    match input.take_definition() {
        Some(definition) => describe_definition(&definition, report),
        None => report.add(b"none"),
    }
    report.add(b"\n");
}

// Removes a definition, where there should be none.
fn take_none(input: &mut Input, report: &mut Report)
    ensures { input.new.pending.definition ≡ None }
{
    if input.take_definition().is_some() {
        report.add(b"a definition was in front\n");
    }
}

// Returns a text to push.
fn text(alloc: Global, bytes: &[u8]) -> Result<Pushed, AllocError> {
    Ok(Pushed::Text(Bytes::from_slice(alloc, bytes)?))
}

// Returns what a step pushes, if it pushes something.
fn pushed_by(alloc: Global, step: Step) -> Result<Option<Pushed>, AllocError> {
    Ok(match step {
        Step::Push(bytes) => Some(text(alloc, bytes.as_bytes())?),
        Step::PushMany(count) => Some(text(alloc, &repeated(alloc, b'x', count)?)?),
        Step::PushDefinition(given) => Some(Pushed::Definition(made(alloc, given)?)),
        _ => None,
    })
}

// Makes a step that pushes something, where no definition is.
fn push(alloc: Global, input: &mut Input, step: Step, report: &mut Report) {
    take_none(input, report);
    match pushed_by(alloc, step) {
        Ok(Some(pushed)) => {
            if input.push_front(pushed).is_err() {
                report.refuse();
            }
        }
        Ok(None) => report.add(b"no step\n"),
        Err(AllocError) => report.refuse(),
    }
}

// Copies a text to before the bytes in hand.
fn push_in_place(input: &mut Input, text: &[u8], report: &mut Report) {
    take_none(input, report);
    report.add(if input.push_in_place(text) {
        b"put\n"
    } else {
        b"left\n"
    });
}

// Makes a step for which the bytes in hand are enough, and adds its result.
fn answer_in_hand(alloc: Global, input: &mut Input, step: Step, report: &mut Report) {
    match step {
        Step::Skip => report.add(if input.skip_in_hand() {
            b"all of the line\n"
        } else {
            b"part of the line\n"
        }),
        Step::TakeDefinition => take_definition(input, report),
        Step::Take(n) => {
            if take(alloc, input, n).is_err() {
                report.refuse();
            }
        }
        Step::TakeAll => describe_bytes(take(alloc, input, usize::MAX), report),
        Step::PushInPlace(text) => push_in_place(input, text.as_bytes(), report),
        Step::Front(looked) => describe_front(alloc, input, looked, report),
        Step::Hand => describe_bytes(in_hand(alloc, input), report),
        Step::Line => describe_count(b"line ", input.line() as usize, report),
        Step::Name => report.pair(input.name(), b"\n"),
        _ => push(alloc, input, step, report),
    }
}

// Makes a step, and adds its result.
fn answer(
    alloc: Global,
    input: &mut Input,
    reader: &mut MemSource<'_>,
    delims: &Delims<'_>,
    step: Step,
    report: &mut Report,
) {
    match step {
        Step::More => add_line(ask(input, reader, None), report),
        Step::Token => add_line(ask(input, reader, Some(delims)), report),
        Step::Look => {
            if !add_decided(alloc, input, delims, report) {
                report.add(b"needs more\n");
            }
        }
        Step::Decide => {
            for _ in 0..MOST {
                if add_decided(alloc, input, delims, report) {
                    break;
                }
                let _answer = ask(input, reader, None);
            }
        }
        Step::Next | Step::NextLen | Step::Rest => {
            let most = if matches!(step, Step::Rest) { MOST } else { 1 };
            for _ in 0..most {
                if add_token(
                    input.next(reader, delims),
                    matches!(step, Step::NextLen),
                    report,
                ) {
                    break;
                }
            }
        }
        Step::SeesParen => match input.sees_paren(reader, delims) {
            Ok(true) => report.add(b"list\n"),
            Ok(false) => report.add(b"no list\n"),
            Err(fault) => describe_fault(fault, report),
        },
        Step::SkipLine => match input.skip_line(reader) {
            Ok(()) => report.add(b"skipped\n"),
            Err(fault) => describe_fault(fault, report),
        },
        Step::Taken => describe_count(b"taken ", reader.taken(), report),
        _ => answer_in_hand(alloc, input, step, report),
    }
}

// Makes the input of a row.
fn input_of(alloc: Global, row: &Row) -> Result<Input, AllocError> {
    if row.wrapped {
        return Input::wrapped(alloc, Bytes::from_slice(alloc, row.file.as_bytes())?);
    }
    Ok(Input::file(alloc, Bytes::from_slice(alloc, b"a.m4")?))
}

// Adds the results of a row's steps.
fn see(alloc: Global, row: &Row, block: usize, report: &mut Report) -> Result<(), StateFault> {
    let mut reader = MemSource::new(row.file.as_bytes(), block.max(1), row.fails);
    let mut input = input_of(alloc, row)?;
    let quotes = row.quotes.unwrap_or(("`", "'"));
    let comments = row.comments.unwrap_or(("#", "\n"));
    let state = delimited(alloc, quotes, comments)?;
    let delims = Delims::of(&state);
    for step in row.steps {
        answer(alloc, &mut input, &mut reader, &delims, *step, report);
    }
    Ok(())
}

// Compares the results of a row's steps with the expected ones.
fn tried_in(rt: &impl Abort, alloc: Global, row: &Row, block: usize) {
    let mut report = Report::new(alloc);
    if let Err(StateFault::OutOfMemory) = see(alloc, row, block, &mut report) {
        report.refuse();
    }
    let want = Vec::from_slice(alloc, row.want.as_bytes());
    agrees(rt, row.name, Way::By(block), want, report.text());
}

/// Tries each row with each number of bytes that its reader returns at a time.
pub fn tried(rt: &impl Abort, alloc: Global, rows: &[Row]) {
    for row in rows {
        for block in row.blocks {
            tried_in(rt, alloc, row, *block);
        }
    }
}
