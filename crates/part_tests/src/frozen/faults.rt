//! Files that are refused: each fault with the offset of its byte.

use super::{BLOCK, BLOCKS, after_a_comment, describe, refused};
use crate::report::{Report, printed};
use crate::shows::{Way, agrees, shows};
use m4_frozen::fault::FrozenKind::{
    DigitExpected, Newer, NoVersion, NumberTooLarge, OutOfMemory, PrematureEnd, Read,
    SecondVersion, SeparatorExpected, UnknownDirective, VersionZero,
};
use m4_frozen::fault::{FrozenFault, FrozenKind, WriteFault};
use m4_frozen::reading::read_frozen;
use m4_state::memory::MemSource;
use std::alloc::{AllocError, Global};
use std::process::Abort;

// A row's name, the text read, and the fault with its offset.
type Row = (&'static str, &'static str, (FrozenKind, usize));

// Versions, and their lack.
static VERSIONS: [Row; 6] = rows! {
    "an empty file", "" => (NoVersion, 0);
    "no version", "T0,0\n\n" => (NoVersion, 0);
    "a newer version after a comment and an empty line", "# c\n\nV2\n" => (Newer, 6);
    "a newer version before a wrong byte", "V2x" => (Newer, 1);
    "version 0 with no newline", "V0" => (VersionZero, 1);
    "a second version", "V1\nV1\n" => (SecondVersion, 3);
};

// What is wrong in a directive or after it.
static DIRECTIVES: [Row; 14] = rows! {
    "a letter that begins no directive", "V1\nX" => (UnknownDirective, 3);
    "a line that is a blank", "V1\n \n" => (UnknownDirective, 3);
    "a letter after a diversion's text", "V1\nD0,3\nhi\n\nX\n" => (UnknownDirective, 12);
    "a negative length", "V1\nT-1,0\n\n" => (DigitExpected, 4);
    "a diversion's number above 2^31 - 1", "V1\nD2147483648,0\n\n" => (NumberTooLarge, 4);
    "a diversion's number below -2^31", "V1\nD-2147483649,0\n\n" => (NumberTooLarge, 4);
    "a length above 2^64 - 1", "V1\nT1,18446744073709551616\na" => (NumberTooLarge, 6);
    "the greatest length, for a text after a name", "V1\nT1,18446744073709551615\na" => (PrematureEnd, 28);
    "the greatest length, for a text that begins", "V1\nT1,18446744073709551615\nabc" => (PrematureEnd, 30);
    "a blank after the version", "V1 \n" => (SeparatorExpected, 2);
    "a letter after the version", "V1x" => (SeparatorExpected, 2);
    "a newline before a comma", "V1\nT1\n,1\nab\n" => (SeparatorExpected, 5);
    "a text longer than its length", "V1\nT1,1\nabc\n" => (SeparatorExpected, 10);
    "the version alone", "V1" => (PrematureEnd, 2);
};

// Lengths of 2^64 - 1, which no memory has: the file ends too early.
static LENGTHS: [Row; 9] = rows! {
    "a text's name", "V1\nT18446744073709551615,1\nab" => (PrematureEnd, 29);
    "a builtin's name", "V1\nF18446744073709551615,1\nab" => (PrematureEnd, 29);
    "the first of the quotes", "V1\nQ18446744073709551615,1\n[]" => (PrematureEnd, 29);
    "the second of the quotes", "V1\nQ1,18446744073709551615\n[]" => (PrematureEnd, 29);
    "both quotes", "V1\nQ18446744073709551615,18446744073709551615\n[]" => (PrematureEnd, 48);
    "the first of the comment delimiters", "V1\nC18446744073709551615,1\n#\n" => (PrematureEnd, 29);
    "the second of the comment delimiters", "V1\nC1,18446744073709551615\n#\n" => (PrematureEnd, 29);
    "both comment delimiters", "V1\nC18446744073709551615,18446744073709551615\n#\n" => (PrematureEnd, 48);
    "a diversion's text", "V1\nD1,18446744073709551615\nab" => (PrematureEnd, 29);
};

// What is found where the reader fails after the text.
static FAILED: [Row; 10] = rows! {
    "failed after a directive", "V1\nT1,1\nab\n" => (Read, 11);
    "failed in a length", "V1\nT1" => (Read, 5);
    "failed after the version", "V1" => (Read, 2);
    "failed after version 0", "V0" => (Read, 2);
    "failed at once", "" => (Read, 0);
    "version 0 before the failure", "V0\n" => (VersionZero, 1);
    "a wrong letter before the failure", "V1\nX" => (UnknownDirective, 3);
    "a newer version before the failure", "V2" => (Newer, 1);
    "a length above 2^64 - 1 before the failure", "V1\nT18446744073709551616" => (NumberTooLarge, 4);
    "a text longer than its length before the failure", "V1\nT1,1\nabc" => (SeparatorExpected, 10);
};

// Returns a fault as text, if its offset is counted from this byte on.
fn fault_text(
    alloc: Global,
    fault: (FrozenKind, usize),
    from: usize,
) -> Result<Vec<u8>, AllocError> {
    let mut report = Report::new(alloc);
    let (kind, offset) = (fault.0, from.saturating_add(fault.1) as u64);
    describe(alloc, FrozenFault { kind, offset }, &mut report);
    report.text()
}

// Compares how reading a row's text ends with blocks of each size.
fn compare(alloc: Global, rt: &impl Abort, row: &Row, fails: bool) {
    for &block in &BLOCKS {
        let got = refused(alloc, row.1.as_bytes(), block, fails);
        agrees(rt, row.0, Way::By(block), fault_text(alloc, row.2, 0), got);
    }
}

// Reports how reading ends after a comment of so many bytes.
fn refused_after(
    alloc: Global,
    before: usize,
    text: &str,
    fails: bool,
) -> Result<Vec<u8>, AllocError> {
    let file = after_a_comment(alloc, before, text.as_bytes())?;
    refused(alloc, &file, 4096, fails)
}

// Compares how reading a row's text ends if the first block ends at each of its bytes.
fn compare_later(alloc: Global, rt: &impl Abort, row: &Row, fails: bool) {
    for cut in 0..=row.1.len() {
        let before = BLOCK.saturating_sub(cut);
        let got = refused_after(alloc, before, row.1, fails);
        agrees(
            rt,
            row.0,
            Way::Cut(4096, cut),
            fault_text(alloc, row.2, before),
            got,
        );
    }
}

// Compares how reading each row's text ends, from the first block on and in later ones.
fn placed(alloc: Global, rt: &impl Abort, rows: &[Row], fails: bool) {
    for row in rows {
        compare(alloc, rt, row, fails);
        compare_later(alloc, rt, row, fails);
    }
}

#[test]
fn faults_are_placed_in_the_first_block_and_in_later_ones(rt: HostRuntime) {
    placed(rt.alloc(), &rt, &VERSIONS, false);
    placed(rt.alloc(), &rt, &DIRECTIVES, false);
    placed(rt.alloc(), &rt, &LENGTHS, false);
    placed(rt.alloc(), &rt, &FAILED, true);
}

// The line of the version, two directives and a comment: 3, 8, 9 and 4 bytes.
const CUT: &[u8] = b"V1\nT1,1\nab\nD2,3\nx\ny\n# e\n";

// Returns the expected report for a prefix of `CUT`.
fn beginning(alloc: Global, len: usize) -> Result<Vec<u8>, AllocError> {
    match len {
        0 => fault_text(alloc, (NoVersion, 0), 0),
        3 | 11 | 20..=24 => Vec::from_slice(alloc, b"loaded"),
        _ => fault_text(alloc, (PrematureEnd, len), 0),
    }
}

#[test]
fn a_file_is_cut_at_each_byte(rt: HostRuntime) {
    for len in 0..=CUT.len() {
        for &block in &BLOCKS {
            let got = refused(rt.alloc(), CUT.split_at(len).0, block, false);
            let want = beginning(rt.alloc(), len);
            agrees(&rt, "a file", Way::Cut(block, len), want, got);
        }
    }
}

// Reports how a reader that fails ends, twice, and how many bytes it returned.
fn failed_twice(alloc: Global, bytes: &[u8], block: usize) -> Result<Vec<u8>, AllocError> {
    let mut report = Report::new(alloc);
    let mut reader = MemSource::new(bytes, block.max(1), true);
    for _ in 0..2 {
        match read_frozen(alloc, &mut reader) {
            Ok(_loaded) => report.add(b"loaded"),
            Err(fault) => describe(alloc, fault, &mut report),
        }
        report.counted(b" of ", reader.taken());
        report.add(b"\n");
    }
    report.text()
}

// Returns the expected report for a reader that fails after this many bytes: first there, then at once.
fn failed_after(alloc: Global, len: usize) -> Result<Vec<u8>, AllocError> {
    let mut report = Report::new(alloc);
    report.counted(b"F10 Read at ", len);
    report.counted(b" of ", len);
    report.counted(b"\nF10 Read at 0 of ", len);
    report.add(b"\n");
    report.text()
}

#[test]
fn a_reader_fails_after_each_byte(rt: HostRuntime) {
    for len in 0..=CUT.len() {
        for &block in &BLOCKS {
            let got = failed_twice(rt.alloc(), CUT.split_at(len).0, block);
            let want = failed_after(rt.alloc(), len);
            agrees(&rt, "a reader that fails", Way::Cut(block, len), want, got);
        }
    }
}

// Each kind and its text, as a message prints it.
static TEXTS: [(FrozenKind, &str); 11] = rows! {
    NoVersion => "F1 NoVersion";
    Newer => "F2 Newer";
    VersionZero => "F3 VersionZero";
    SecondVersion => "F4 SecondVersion";
    UnknownDirective => "F5 UnknownDirective";
    DigitExpected => "F6 DigitExpected";
    NumberTooLarge => "F7 NumberTooLarge";
    SeparatorExpected => "F8 SeparatorExpected";
    PrematureEnd => "F9 PrematureEnd";
    Read => "F10 Read";
    OutOfMemory => "F11 OutOfMemory";
};

// The same for texts that were not written completely.
static WRITE_TEXTS: [(WriteFault, &str); 2] = rows! {
    WriteFault::Write => "G1 Write";
    WriteFault::OutOfMemory => "G2 OutOfMemory";
};

#[test]
fn faults_are_printed(rt: HostRuntime) {
    for &(kind, text) in &TEXTS {
        shows(&rt, text, text.as_bytes(), printed(rt.alloc(), &kind));
    }
    for &(fault, text) in &WRITE_TEXTS {
        shows(&rt, text, text.as_bytes(), printed(rt.alloc(), &fault));
    }
}
