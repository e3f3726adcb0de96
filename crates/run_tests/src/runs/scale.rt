//! Runs over large inputs: long texts, results and delimiters, many arguments, many names.

use super::given::{DONE, End, Seen, USUAL, options};
use super::report::{expected, printed_seen};
use super::rows::run_over;
use super::shows::{agrees_by, shows_by};
use m4_engine::ending::Cause;
use m4_engine::source::Source;
use m4_state::bytes::Bytes;
use m4_state::memory::MemSource;
use part_tests::report::{Report, printed};
use std::alloc::{AllocError, Global};
use std::process::Abort;
use std::test::Fail;

// Room for any row's output.
const ROOM: usize = 1_100_000;

// A large text: its pieces, and how often each stands there.
type Made = &'static [(&'static str, usize)];

// A run over a file whose reader returns this many bytes at a time, its limit of nested calls, and what it leaves.
#[derive(Clone, Copy)]
struct Large {
    name: &'static str,
    block: usize,
    nesting: u64,
    file: Made,
    output: Made,
    messages: &'static str,
    end: End,
}

// A run without a limit of nested calls.
const UNLIMITED: Large = Large {
    name: "",
    block: 4096,
    nesting: 0,
    file: &[],
    output: &[],
    messages: "",
    end: DONE,
};

// Expands to runs over large files: of each its name, its file and its output, and then each other field that it has.
macro_rules! large {
    ($($name:literal, [$($piece:literal * $times:literal),*] => [$($left:literal * $often:literal),*]
        $(, $field:ident: $value:expr)*;)*) => {
        [$(Large {
            name: $name,
            file: &[$(($piece, $times)),*],
            output: &[$(($left, $often)),*],
            $($field: $value,)*
            ..UNLIMITED
        }),*]
    };
}

static LARGE: [Large; 7] = large! {
    "text of 260,000 bytes", ["a long text, " * 20_000] => ["a long text, " * 20_000];
    "500,000 words", ["x " * 500_000] => ["x " * 500_000];
    "a definition of 1,000,000 bytes",
        ["define(`f',`" * 1, "x" * 1_000_000, "')f\n" * 1] => ["x" * 1_000_000, "\n" * 1];
    "a result of 1,048,576 bytes, by twenty calls that double their argument",
        ["define(`d',`$1$1')" * 1, "d(" * 20, "x))))))))))))))))))))\n" * 1] => ["x" * 1_048_576, "\n" * 1];
    "100,000 arguments of one call",
        ["define(`f',`$#')f(" * 1, "," * 99_999, ")\n" * 1] => ["100000\n" * 1];
    "the last one of 100,000 arguments",
        ["define(`f',`$100000')f(" * 1, "," * 99_999, "z)\n" * 1] => ["z\n" * 1];
    "a number of 20 digits after a dollar",
        ["define(`f',`<$12345678901234567890>')f(a)\n" * 1] => ["<>\n" * 1];
};

static WORDS: [Large; 1] = large! {
    "500,000 words", ["x " * 500_000] => ["x " * 500_000], block: 3;
};

static QUOTES: [Large; 1] = large! {
    "quotes of 10,000 bytes",
        ["changequote(" * 1, "[" * 10_000, "," * 1, "]" * 10_000, ")" * 1, "[" * 10_000, "a b" * 1,
        "]" * 10_000, "\n" * 1] => ["a b\n" * 1];
};

static NESTED: [Large; 2] = large! {
    "100,000 nested calls", ["define(`f',`$1')" * 1, "f(" * 100_000, "x" * 1, ")" * 100_000, "\n" * 1] =>
        ["x\n" * 1], block: 3;
    "100,000 nested calls", ["define(`f',`$1')" * 1, "f(" * 100_000, "x" * 1, ")" * 100_000, "\n" * 1] =>
        ["x\n" * 1];
};

static LIMITED: [Large; 2] = large! {
    "as many calls as the usual limit",
        ["define(`f',`$1')" * 1, "f(" * 1024, "x" * 1, ")" * 1024, "\n" * 1] => ["x\n" * 1], nesting: USUAL.1;
    "one call more", ["define(`f',`$1')" * 1, "f(" * 1025, "x" * 1, ")" * 1025, "\n" * 1] => [],
        nesting: USUAL.1, messages: "m4:a.m4:1: ERROR: more than 1024 nested calls\n",
        end: (1, Cause::NestingLimit, false);
};

// A run that a macro ends before 1,000,000 bytes.
static EXIT: [Large; 1] = large! {
    "an early exit", ["m4exit\n" * 1, "x" * 1_000_000] => [], nesting: USUAL.1,
        end: (0, Cause::Exited(0), false);
};

// Makes a large text.
fn made(alloc: Global, pieces: Made) -> Result<Vec<u8>, AllocError> {
    let mut report = Report::new(alloc);
    for &(piece, times) in pieces {
        for _ in 0..times {
            report.add(piece.as_bytes());
        }
    }
    report.text()
}

// Runs over this file.
fn seen_of(alloc: Global, row: &Large, file: &[u8]) -> Result<Seen, AllocError> {
    let mut sources = [Source::Opened {
        name: Bytes::from_slice(alloc, b"a.m4")?,
        reader: MemSource::new(file, row.block.max(1), false),
    }];
    let options = options((USUAL.0, row.nesting));
    run_over(alloc, options, None, &mut sources, (ROOM, 1024, 1024), 4096)
}

// Returns what a run has to leave, as a report.
fn expected_of(alloc: Global, row: &Large) -> Result<Vec<u8>, AllocError> {
    let output = made(alloc, row.output)?;
    expected(alloc, (&output, row.messages.as_bytes()), row.end, &[])
}

// Returns what a run over this file leaves, as a report.
fn printed_of(alloc: Global, row: &Large, file: &[u8]) -> Result<Vec<u8>, AllocError> {
    printed_seen(alloc, &seen_of(alloc, row, file)?)
}

// Compares what a run over this file leaves.
fn compare_file(rt: &(impl Abort + Alloc<A = Global>), row: &Large, file: &[u8]) {
    let want = expected_of(rt.alloc(), row);
    let got = printed_of(rt.alloc(), row, file);
    agrees_by(rt, row.name, row.block, want, got);
}

// Compares what each run leaves.
fn compare(rt: &(impl Abort + Alloc<A = Global>), rows: &[Large]) -> Result<(), Fail> {
    for row in rows {
        compare_file(rt, row, &made(rt.alloc(), row.file)?);
    }
    Ok(())
}

#[test]
fn large_inputs(rt: HostRuntime) -> Result<(), Fail> {
    compare(&rt, &LARGE)
}

#[test]
fn words_in_small_blocks(rt: HostRuntime) -> Result<(), Fail> {
    compare(&rt, &WORDS)
}

#[test]
fn quotes_of_10000_bytes(rt: HostRuntime) -> Result<(), Fail> {
    compare(&rt, &QUOTES)
}

#[test]
fn calls_within_calls(rt: HostRuntime) -> Result<(), Fail> {
    compare(&rt, &NESTED)
}

#[test]
fn usual_limit_of_nested_calls(rt: HostRuntime) -> Result<(), Fail> {
    compare(&rt, &LIMITED)
}

// The number of names that are defined.
const NAMES: u32 = 100_000;

// Returns a file that defines each name as its number, and calls three of them.
fn many_names(alloc: Global) -> Result<Vec<u8>, AllocError> {
    let mut report = Report::new(alloc);
    for number in 0..NAMES {
        report.add(b"define(`n");
        report.print(&number);
        report.add(b"',`");
        report.print(&number);
        report.add(b"')");
    }
    report.add(b"n0 n50000 n99999\n");
    report.text()
}

#[test]
fn names_by_the_hundred_thousand(rt: HostRuntime) -> Result<(), Fail> {
    let row = Large {
        name: "100,000 names",
        output: &[("0 50000 99999\n", 1)],
        ..UNLIMITED
    };
    compare_file(&rt, &row, &many_names(rt.alloc())?);
    Ok(())
}

// How many bytes a reader returns at a time, and how many it returned in all: the newline after the name, which is
// byte 7, decides that the run ends.
static TAKEN: [(usize, &str); 4] = [(1, "7"), (2, "8"), (3, "9"), (4096, "4096")];

// Returns how many bytes a run over this file reads.
fn taken_of(alloc: Global, row: &Large, file: &[u8]) -> Result<Vec<u8>, AllocError> {
    printed(alloc, &seen_of(alloc, row, file)?.taken)
}

// Compares what a run leaves, and how many bytes it reads, with readers that return so many at a time.
fn compare_taken(rt: &(impl Abort + Alloc<A = Global>), row: &Large, file: &[u8]) {
    for (block, taken) in TAKEN {
        let row = Large { block, ..*row };
        compare_file(rt, &row, file);
        let got = taken_of(rt.alloc(), &row, file);
        shows_by(rt, row.name, block, taken.as_bytes(), got);
    }
}

#[test]
fn bytes_after_an_exit_are_not_read(rt: HostRuntime) -> Result<(), Fail> {
    for row in &EXIT {
        compare_taken(&rt, row, &made(rt.alloc(), row.file)?);
    }
    Ok(())
}
