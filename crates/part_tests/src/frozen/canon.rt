//! Files that are read and written again, as their canonical text.

use super::{
    BLOCK, BLOCKS, HEAD, LAST, ROOM, after_a_comment, again, describe, read, write_canonical,
};
use crate::report::{Report, joined, repeated};
use crate::shows::{Way, agrees};
use m4_state::memory::MemSink;
use std::alloc::{AllocError, Global};
use std::process::Abort;
use std::test::Fail;

// A row's name, a file, the canonical text without its first two lines and its last one, and the text
// that is issued.
type Row = (&'static str, &'static [u8], &'static [u8], &'static [u8]);

static ROWS: [Row; 14] = rows! {
    "no directives", b"V1\n", b"" => b"";
    "names in byte order, the oldest definition first",
        b"V1\nT1,1\nbx\nT1,1\nay\nT1,1\nbz\n", b"T1,1\nay\nT1,1\nbx\nT1,1\nbz\n" => b"";
    "quotes with no end, and no comments", b"V1\nQ1,0\n[\nC0,1\n#\n", b"Q1,1\n['\nC0,0\n\n" => b"";
    "a text with a newline and a number sign", b"V1\nT2,3\na\n# b\n", b"T2,3\na\n# b\n" => b"";
    "quotes that are set and set back, and a comment with no newline", b"V1\nQ1,1\n[]\nQ1,1\n`'\n# c", b"" => b"";
    "blanks and zeros in a length", b"V1\nT1 , 01\nab\n", b"T1,1\nab\n" => b"";
    "tabs before numbers and before a comma", b"V\t1\nT1\t,\t1\nab\n", b"T1,1\nab\n" => b"";
    "comments that are the usual ones, empty lines, a builtin and a placeholder",
        b"# any\nV1\nC1,1\n#\n\n\n\nF3,3\ndnldnl\nF6,6\nformatformat\n# End of frozen state file\n",
        b"F3,3\ndnldnl\nF6,6\nformatformat\n" => b"";
    "diversions, and text that is issued",
        b"V1\nD0,2\nab\nD0,1\nc\nD2,1\nx\nD2,1\ny\nD-1,2\nzz\n", b"D2,2\nxy\nD-1,0\n\n" => b"abc";
    "a placeholder alone, under its name and another one",
        b"V1\nF6,6\nregexpregexp\nF2,6\nreregexp\n", b"F2,6\nreregexp\nF6,6\nregexpregexp\n" => b"";
    "a builtin and a text, which comes first by its name",
        b"V1\nF6,6\ndefinedefine\nT1,1\nab\n", b"T1,1\nab\nF6,6\ndefinedefine\n" => b"";
    "diversions out of their order, of which the last is current",
        b"V1\nD2,4\ntwo\n\nD1,4\none\n\nD2,0\n\n", b"D1,4\none\n\nD2,4\ntwo\n\n" => b"";
    "text that is issued alone", b"V1\nD0,3\nhi\n\n", b"" => b"hi\n";
    "names and texts of the least and the greatest byte",
        b"V1\nT2,2\n\x00\xff\xff\x00\nT1,0\n\xff\nT1,1\n\x00\x00\n",
        b"T1,1\n\x00\x00\nT2,2\n\x00\xff\xff\x00\nT1,0\n\xff\n" => b"";
};

// Returns a complete canonical text, with these bytes between its first two lines and its last one,
// and the text that is issued.
fn canonical(alloc: Global, between: &[u8], issued: &[u8]) -> Result<Vec<u8>, AllocError> {
    joined(alloc, &[HEAD, between, LAST, b"; written\n", issued])
}

#[test]
fn files_are_frozen_again(rt: HostRuntime) {
    for &(name, bytes, between, issued) in &ROWS {
        for &block in &BLOCKS {
            let want = canonical(rt.alloc(), between, issued);
            let got = again(rt.alloc(), bytes, block, ROOM);
            agrees(&rt, name, Way::By(block), want, got);
        }
    }
}

// A file with one directive of each letter, and its canonical lines.
const EACH_LETTER: &[u8] =
    b"# c\n\nV1\nQ1,1\n[]\nC0,0\n\nT2 , 03\na\n# b\nF3,3\ndnldnl\nD1,2\nzz\nD0,2\nhi\n# e";

const EACH_CANONICAL: &[u8] = b"Q1,1\n[]\nC0,0\n\nT2,3\na\n# b\nF3,3\ndnldnl\nD1,2\nzz\nD0,0\n\n";

// Writes a file again after a comment of this many bytes.
fn again_after(alloc: Global, before: usize, file: &[u8]) -> Result<Vec<u8>, AllocError> {
    let file = after_a_comment(alloc, before, file)?;
    again(alloc, &file, 4096, file.len().saturating_add(ROOM))
}

#[test]
fn a_block_ends_at_each_byte(rt: HostRuntime) {
    for cut in 0..=EACH_LETTER.len() {
        let want = canonical(rt.alloc(), EACH_CANONICAL, b"hi");
        let got = again_after(rt.alloc(), BLOCK.saturating_sub(cut), EACH_LETTER);
        agrees(&rt, "each letter", Way::Cut(4096, cut), want, got);
    }
}

// The letter of a name, its length, and that of its text.
type Lengths = (u8, usize, usize);

// Lengths about those from which on a string is kept otherwise.
static LENGTHS: [Lengths; 4] = [
    (b'a', 30, 31),
    (b'b', 31, 30),
    (b'c', 64, 65),
    (b'd', 65, 1000),
];

// Lengths of four digits to six: such texts are parts of their block, read again with the next one, or as they arrive.
static LONG: [Lengths; 7] = [
    (b'a', 1, 9_999),
    (b'b', 1, 10_000),
    (b'c', 1, 60_000),
    (b'd', 1, 32_768),
    (b'e', 1, 65_537),
    (b'f', 1, 99_999),
    (b'g', 1, 100_000),
];

static LARGE: [Lengths; 1] = [(b'a', 1, 1_000_000)];

// How many bytes of the directives of long texts the first block has.
static CUTS: [usize; 12] = [
    0, 4, 5, 8, 9, 10, 11, 10_007, 10_008, 12_288, 16_376, 16_380,
];

// Returns the directives of these names and texts.
fn directives(alloc: Global, lengths: &[Lengths]) -> Result<Vec<u8>, AllocError> {
    let mut report = Report::new(alloc);
    for &(letter, name, text) in lengths {
        report.counted(b"T", name);
        report.counted(b",", text);
        report.add(b"\n");
        report.add(&repeated(alloc, letter, name)?);
        report.add(&repeated(alloc, b'x', text)?);
        report.add(b"\n");
    }
    report.text()
}

// Compares what is written again if the first block has this many bytes of these directives, with their version.
fn compare_cut(
    rt: &impl Abort,
    alloc: Global,
    name: &str,
    texts: &[u8],
    cut: usize,
) -> Result<(), AllocError> {
    let file = joined(alloc, &[b"V1\n", texts])?;
    let want = canonical(alloc, texts, b"");
    let got = again_after(alloc, BLOCK.saturating_sub(cut), &file);
    agrees(rt, name, Way::Cut(4096, cut), want, got);
    Ok(())
}

#[test]
fn strings_of_each_length_cross_a_block(rt: HostRuntime) -> Result<(), Fail> {
    let texts = directives(rt.alloc(), &LENGTHS)?;
    for cut in 0..400 {
        compare_cut(&rt, rt.alloc(), "strings of each length", &texts, cut)?;
    }
    Ok(())
}

#[test]
fn long_texts_cross_blocks(rt: HostRuntime) -> Result<(), Fail> {
    let texts = directives(rt.alloc(), &LONG)?;
    for &cut in &CUTS {
        compare_cut(&rt, rt.alloc(), "long texts", &texts, cut.saturating_add(3))?;
    }
    Ok(())
}

#[test]
fn a_large_text_comes_back(rt: HostRuntime) -> Result<(), Fail> {
    let texts = directives(rt.alloc(), &LARGE)?;
    let file = joined(rt.alloc(), &[HEAD, &texts, LAST])?;
    let want = canonical(rt.alloc(), &texts, b"");
    let got = again(rt.alloc(), &file, 4096, file.len());
    agrees(&rt, "a text of 1,000,000 bytes", Way::Whole, want, got);
    Ok(())
}

// A file, and its canonical lines, which are the same.
const FAILING: &[u8] = b"V1\nQ1,1\n[]\nC0,0\n\nT2,3\na\n# b\nF3,3\ndnldnl\nD2,2\nzz\nD-1,0\n\n";

const FAILING_CANONICAL: &[u8] =
    b"# m4 frozen state\nV1\nQ1,1\n[]\nC0,0\n\nT2,3\na\n# b\nF3,3\ndnldnl\nD2,2\nzz\nD-1,0\n\n\
    # End of frozen state file\n";

// Reports writing a file's state twice to a writer that fails after this many bytes.
fn cut_short(alloc: Global, room: usize, block: usize) -> Result<Vec<u8>, AllocError> {
    let mut writer = MemSink::new(alloc, room, block.max(1))?;
    let mut report = Report::new(alloc);
    match read(alloc, FAILING, 4096, false) {
        Ok(loaded) => {
            write_canonical(&loaded.state, &mut writer, &mut report);
            write_canonical(&loaded.state, &mut writer, &mut report);
        }
        Err(fault) => describe(alloc, fault, &mut report),
    }
    report.text()
}

// Returns the expected report: twice the same prefix and a fault.
fn begun_twice(alloc: Global, beginning: &[u8]) -> Result<Vec<u8>, AllocError> {
    let fault = b"; write fault\n";
    joined(alloc, &[beginning, fault, beginning, fault])
}

#[test]
fn a_writer_fails_after_each_byte(rt: HostRuntime) {
    for room in 0..FAILING_CANONICAL.len() {
        for &block in &BLOCKS {
            let want = begun_twice(rt.alloc(), FAILING_CANONICAL.split_at(room).0);
            let got = cut_short(rt.alloc(), room, block);
            agrees(&rt, "a writer that fails", Way::Cut(block, room), want, got);
        }
    }
}
