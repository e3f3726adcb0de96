//! The program: reads its command line, and follows it in the world of the process.
//!
//! All messages about a line that is refused are printed here. Manual: "Invoking m4".

ghost use Rattle.std.specs.Prelude.{◌≡◌, IfErr, IfOk, false, map, string_bytes};
ghost use Rattle.clap.specs.Walk.{texts};
ghost use Rattle.m4_tool.specs.CommandLine.{AreInRange, IsModeNotAlone, IsRefusal, Says, ModeIsAlone};

use crate::follow::follow;
use crate::followed::{FAILED, Failure};
use crate::line::{Line, LineFault, read_line};
use crate::reports::{report, report_failure};
use crate::shared::{MESSAGES_BUFFER, OUTPUT_BUFFER, SharedOutputs};
use crate::std_world::StdWorld;
use crate::streams::occupy_closed;
use m4_state::standard::StdSink;
use std::alloc::{AllocError, Global};
use std::env::Env;
use std::io::{self, BufWriter, ErrorKind, Read, Write};
use std::os::fd::{AsRawFd, IntoRawFd};
use std::rt::Files;

/// Follows the command line of the process, and returns the exit status. `input` is standard input, which is read block
/// by block, and `errors` is standard error. A stream with which the process was not started refuses each use.
pub fn exit_status<R, I: Read + Copy, E: Write + Drop>(rt: &R, input: I, errors: E) -> u8
where
    R: Env + Files + Alloc<A = Global> + Print + Eprint,
    <R as Files>::File: AsRawFd + IntoRawFd,
{
    let spare = occupy_closed(rt);
    match words_of_process(rt) {
        Ok(words) => status_of_words(rt, input, errors, words.as_slice(), spare),
        Err(fault) => report_unread_words(rt, &fault),
    }
}

/// Returns the words that the process was started with.
fn words_of_process(rt: &(impl Env + Alloc<A = Global>)) -> io::Result<Vec<String>> {
    let words = std::env::args(rt)?;
    Ok(words.collect(rt.alloc())?)
}

/// Follows the line of these words, or reports why it is refused.
fn status_of_words<R: Files + Alloc<A = Global> + Print + Eprint, I: Read + Copy, E: Write + Drop>(
    rt: &R,
    input: I,
    errors: E,
    words: &[String],
    spare: Option<<R as Files>::File>,
) -> u8 {
    match line_of_words(rt.alloc(), words) {
        Ok(line) => status_of_line(rt, input, errors, &line, spare),
        Err(fault) => report_line_fault(rt, &fault),
    }
}

/// Returns the line of these words. It is not inlined, and neither is `follow_line`: the run then uses the part of the
/// stack that `clap` has used.
#[inline(never)]
fn line_of_words(alloc: Global, words: &[String]) -> Result<Line, LineFault>
    ensures says { IfOk result (Says (map string_bytes words.now)) }
    ensures in_range { IfOk result AreInRange }
    ensures alone { IfOk result ModeIsAlone }
    ensures not_alone { result ≡ Err LineFault.ModeNotAlone
        → IsModeNotAlone (map string_bytes words.now) }
    ensures refused { IfErr result (IsRefusal (map string_bytes words.now)) }
{
    let texts = borrowed(alloc, words)?;
    read_line(alloc, texts.as_slice())
}

/// Returns the words as borrowed texts, which `read_line` reads.
fn borrowed<'a>(alloc: Global, words: &'a [String]) -> Result<Vec<&'a str>, AllocError>
    ensures { IfOk result (λ same. texts same.items ≡ map string_bytes words.now) }
{
    let mut texts = Vec::new(alloc);
    for word in words {
        texts.push(word.as_str())?;
    }
    Ok(texts)
}

/// Follows the line and returns its status. If a block can't be allocated, that is reported.
fn status_of_line<R: Files + Alloc<A = Global> + Print + Eprint, I: Read + Copy, E: Write + Drop>(
    rt: &R,
    input: I,
    errors: E,
    line: &Line,
    spare: Option<<R as Files>::File>,
) -> u8 {
    follow_line(rt, input, errors, line, spare).unwrap_or_else(|_refused| report_failure(
        rt,
        Failure::OutOfMemory,
    ))
}

/// Follows the line in the world of this runtime, and returns its status. Its output and its messages are written in
/// blocks; an error is a block that could not be allocated.
#[inline(never)]
fn follow_line<R: Files + Alloc<A = Global> + Print + Eprint, I: Read + Copy, E: Write + Drop>(
    rt: &R,
    input: I,
    errors: E,
    line: &Line,
    spare: Option<<R as Files>::File>,
) -> io::Result<u8> {
    let output = BufWriter::with_capacity(rt.alloc(), OUTPUT_BUFFER, io::writer(rt))?;
    let messages = BufWriter::with_capacity(rt.alloc(), MESSAGES_BUFFER, errors)?;
    let shared = SharedOutputs::new(output, messages);
    let world = StdWorld::new(rt, input, &shared, spare)?;
    let mut out = StdSink::new(shared.output());
    let mut messages = StdSink::new(shared.messages());
    let followed = follow(rt.alloc(), line, world, &mut out, &mut messages);
    Ok(followed.status)
}

/// Reports why a line is refused, and returns the status. Help that was requested is not a fault.
fn report_line_fault(rt: &(impl Print + Eprint), fault: &LineFault) -> u8 {
    match fault {
        LineFault::ModeNotAlone => report(rt, "U1 a mode stands alone"),
        LineFault::OutOfMemory => report_failure(rt, Failure::OutOfMemory),
        LineFault::Parse(error) => print_answer(rt, error),
    }
}

/// Prints the text of `clap`, which is help for standard output or a refusal for standard error, and returns the
/// status.
fn print_answer(rt: &(impl Print + Eprint), error: &clap::Error) -> u8 {
    if error.print(rt).is_err() {
        return report_failure(rt, Failure::Write);
    }
    if error.use_stderr() { FAILED } else { 0 }
}

/// Reports why the words of the process could not be read, and returns the status.
fn report_unread_words(rt: &impl Eprint, fault: &io::Error) -> u8
    ensures { result ≡ FAILED }
{
    if fault.kind() == ErrorKind::OutOfMemory {
        report_failure(rt, Failure::OutOfMemory)
    } else {
        report(rt, "a word of the command line is not UTF-8")
    }
}
