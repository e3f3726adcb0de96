//! Runs in which a request for memory is refused.
//!
//! The devices and the name of a run are made first; where that is refused, the run is passed over. It then leaves what
//! it leaves with ample memory, or breaks off: with status 1, beginnings of its output and messages, and no frozen
//! text. A run that freezes is followed by one that starts from what it froze. Comparing needs no memory.
//! `tests/program/refused_growths` refuses each request in turn, and reads how many runs broke off.
//! Manual: "Fast loading of frozen state".

use super::given::Seen;
use super::rows::Given::File;
use super::rows::{Frozen, Row, Start, bytes_of, frozen_of, run_row};
use super::whole_texts::Part::{First, Last, Names, Text};
use super::whole_texts::{CUT_TEXT, GREETING_TEXT, Part, text_of};
use m4_engine::ending::Cause;
use m4_frozen::fault::FrozenKind;
use std::alloc::Global;
use std::process::Abort;

/// A run that freezes, and one from its frozen text.
static SPLITS: [[Row; 2]; 4] = [
    rows! {
        "a greeting", "define(`hi',`Hello $1.')dnl\n" => "", frozen_text: Some(GREETING_TEXT);
        "a greeting that is called", "hi(`you')\n" => "Hello you.\n";
    },
    rows! {
        "a stack", "define(`x',`1')pushdef(`x',`2')dnl\n" => "",
            frozen_text: Some(&[First, Names, Text("T1,1\nx1\nT1,1\nx2\n"), Last]);
        "a stack that is unwound", "x popdef(`x')x popdef(`x')x\n" => "2 1 x\n";
    },
    rows! {
        "a builtin under another name", "define(`cut',defn(`shift'))undefine(`shift')dnl\n" => "",
            frozen_text: Some(CUT_TEXT);
        "a builtin that is called", "cut(1,2,3) shift(1)\n" => "2,3 shift(1)\n";
    },
    rows! {
        "diversions", "divert(2)two\ndivert(1)one\ndivert(2)dnl\n" => "",
            frozen_text: Some(&[First, Names, Text("D1,4\none\n\nD2,4\ntwo\n\n"), Last]);
        "diversions that are issued", "more\n" => "one\ntwo\nmore\n";
    },
];

static RUNS: [Row; 5] = rows! {
    "a greeting, of two files", [File("define(`hi',`Hello $1.')dnl\n"), File("hi(`you')\n")] =>
        "Hello you.\n";
    "a placeholder", "regexp(`a',`b')!\n" => "!\n", start: Start::Frozen("V1\nF6,6\nregexpregexp\n"),
        messages: "m4:b.m4:1: Warning: builtin `regexp' requested by frozen file is not supported\n",
        frozen_text: Some(&[First, Text("F6,6\nregexpregexp\n"), Last]);
    "a state that is frozen again", "a define(`c',`d$1')a\n" => "b b\n",
        start: Start::Frozen("V1\nF6,6\ndefinedefine\nT1,1\nab\n"),
        frozen_text: Some(&[First, Text("T1,1\nab\nT1,3\ncd$1\nF6,6\ndefinedefine\n"), Last]);
    "definitions that are shown", "define(`b',`2')define(`a',`1')dumpdef(`b',`a',`dnl',`z')\n" => "\n",
        messages: "m4:a.m4:1: Warning: undefined macro `z'\na:\t`1'\nb:\t`2'\ndnl:\t<dnl>\n";
    "dollars", "define(`g',`[$#|$*|$2$11|$x]')g(a,`b',)\n" => "[3|a,b,|b|$x]\n";
};

/// How many bytes a device takes at a time, so that a refusal may come before a frozen file is read to its end.
const BLOCK: usize = 16;

/// Returns whether bytes are the parts, one after the other.
fn are_joined(bytes: &[u8], parts: &[Part]) -> bool {
    let mut rest = bytes;
    for part in parts {
        match rest.strip_prefix(text_of(*part).as_bytes()) {
            Some(after) => rest = after,
            None => return false,
        }
    }
    rest.is_empty()
}

/// Returns whether a run left all of its row.
fn is_whole(row: &Row, seen: &Seen) -> bool {
    let (status, cause, wrapped) = seen.end;
    status == 0
        && cause == Cause::Done
        && !wrapped
        && seen.output() == row.output.as_bytes()
        && seen.messages() == row.messages.as_bytes()
        && are_joined(seen.frozen_text(), row.frozen_text.unwrap_or(&[]))
}

/// Returns whether a run read and wrote nothing.
fn did_not_begin(seen: &Seen) -> bool {
    seen.taken == 0 && seen.output().is_empty() && seen.messages().is_empty()
}

/// Returns whether a run broke off by want of memory. Before it has its frozen file, that is the fault of the file.
fn broke_off(row: &Row, is_reloading: bool, seen: &Seen) -> bool {
    let (status, cause, _) = seen.end;
    let wanted_memory = match cause {
        Cause::OutOfMemory => seen.is_loaded,
        Cause::Frozen(fault) => {
            is_reloading
                && fault.kind == FrozenKind::OutOfMemory
                && fault.offset == 0
                && did_not_begin(seen)
        }
        _ => false,
    };
    status == 1
        && wanted_memory
        && row.output.as_bytes().starts_with(seen.output())
        && row.messages.as_bytes().starts_with(seen.messages())
        && seen.frozen_text().is_empty()
}

/// Makes a run of a row. Returns what it left, if that is all that its row has; counts it if it broke off.
fn followed(
    rt: &(impl Abort + Alloc<A = Global>),
    start: Frozen<'_>,
    row: &Row,
    broken: &mut u32,
) -> Option<Seen> {
    let seen = run_row(rt.alloc(), row, start, row.files, row.room, BLOCK).ok()?;
    if is_whole(row, &seen) {
        return Some(seen);
    }
    assert!(rt;
        broke_off(row, start.is_some(), &seen),
        "{}: neither its result nor what it leaves where it breaks off",
        row.name
    );
    *broken = broken.saturating_add(1);
    None
}

#[test]
fn runs_that_are_split(rt: HostRuntime) {
    let mut broken = 0u32;
    for [first, second] in &SPLITS {
        if let Some(left) = followed(&rt, None, first, &mut broken) {
            let start = Some((left.frozen_text(), false));
            let _second = followed(&rt, start, second, &mut broken);
        }
    }
    let _printed = println!(rt; "{broken} broke off");
}

#[test]
fn single_runs(rt: HostRuntime) {
    let mut broken = 0u32;
    for row in &RUNS {
        if let Ok(bytes) = bytes_of(rt.alloc(), row.start, BLOCK) {
            let _left = followed(&rt, frozen_of(row.start, &bytes), row, &mut broken);
        }
    }
    let _printed = println!(rt; "{broken} broke off");
}
