//! Runs that start from a frozen file, and runs that freeze their state.

use super::given::{AMPLE, BLOCKS, DONE, End};
use super::report::{add_pieces, add_seen};
use super::rows::Given::File;
use super::rows::{FREEZING, Given, QUIET, Row, Start, compare, frozen_after, run_row, seen_of};
use super::shows::{agrees_by, shows_by};
use super::whole_texts::Part::{First, Last, Text};
use m4_engine::ending::Cause;
use m4_frozen::fault::{FrozenFault, FrozenKind};
use part_tests::report::{Report, printed};
use std::alloc::{AllocError, Global};
use std::process::Abort;

// Frozen files and files, and the text that is frozen again.
static LOADED: [Row; 7] = rows! {
    "a frozen file without names", "define(`a',`b')a\n" => "define(a,b)a\n",
        start: Start::Frozen("V1\n"), frozen_text: Some(&[First, Last]);
    "text that is issued", "" => "hi\n", start: Start::Frozen("V1\nD0,3\nhi\n\n"),
        frozen_text: Some(&[First, Last]);
    "blanks and zeros before numbers", "a\n" => "b\n", start: Start::Frozen("V1\nT1 , 01\nab\n"),
        frozen_text: Some(&[First, Text("T1,1\nab\n"), Last]);
    "a name that is defined since", "a define(`c',`d$1')a\n" => "b b\n",
        start: Start::Frozen("V1\nF6,6\ndefinedefine\nT1,1\nab\n"),
        frozen_text: Some(&[First, Text("T1,1\nab\nT1,3\ncd$1\nF6,6\ndefinedefine\n"), Last]);
    "text joins a diversion that is frozen again", "more\n" => "",
        start: Start::Frozen("V1\nD2,4\ntwo\n\n"),
        frozen_text: Some(&[First, Text("D2,9\ntwo\nmore\n\n"), Last]);
    "a negative number stays current", "x\n" => "", start: Start::Frozen("V1\nD-1,0\n\n"),
        frozen_text: Some(&[First, Text("D-1,0\n\n"), Last]);
    "a number without text stays current", "" => "", start: Start::Frozen("V1\nD3,0\n\n"),
        frozen_text: Some(&[First, Text("D3,0\n\n"), Last]);
};

// The same with builtins, and with a file that breaks off.
static LOADED_BUILTINS: [Row; 5] = rows! {
    "a builtin of another m4", "regexp(`a',`b')!\n" => "!\n",
        start: Start::Frozen("V1\nF6,6\nregexpregexp\n"),
        messages: "m4:b.m4:1: Warning: builtin `regexp' requested by frozen file is not supported\n",
        frozen_text: Some(&[First, Text("F6,6\nregexpregexp\n"), Last]);
    "its name without a list", "regexp!\n" => "!\n",
        start: Start::Frozen("V1\nF6,6\nregexpregexp\n"),
        messages: "m4:b.m4:1: Warning: builtin `regexp' requested by frozen file is not supported\n",
        frozen_text: Some(&[First, Text("F6,6\nregexpregexp\n"), Last]);
    "a builtin that an older table lacked", "eval(`1+1')\n" => "2\n",
        start: Start::Frozen("V1\nF4,4\nevaleval\n"),
        frozen_text: Some(&[First, Text("F4,4\nevaleval\n"), Last]);
    "its name without parameters", "eval\n" => "eval\n",
        start: Start::Frozen("V1\nF4,4\nevaleval\n"),
        frozen_text: Some(&[First, Text("F4,4\nevaleval\n"), Last]);
    "a string without an end, after text that is issued", "x\n`abc" => "hi\nx\n",
        start: Start::Frozen("V1\nD0,3\nhi\n\n"),
        messages: "m4:b.m4:2: ERROR: end of input in string\n", end: (1, Cause::EndInString, false),
        frozen_text: Some(&[]);
};

// Expands to rows of frozen files that are refused, before a source that is not read: of each its name, its start, the
// status of the run, and the fault with its offset.
macro_rules! refused {
    ($($name:literal, $start:ident($file:literal) => $status:literal, $kind:ident at $offset:literal;)*) => {
        [$(Row {
            name: $name,
            start: Start::$start($file),
            files: &[File("x")],
            end: (
                $status,
                Cause::Frozen(FrozenFault { kind: FrozenKind::$kind, offset: $offset }),
                false,
            ),
            ..FREEZING
        }),*]
    };
}

static REFUSED: [Row; 8] = refused! {
    "an empty frozen file", Frozen("") => 1, NoVersion at 0;
    "a newer version", Frozen("# c\n\nV2\n") => 63, Newer at 6;
    "a fault after text that would be issued", Frozen("V1\nD0,3\nhi\n\nX\n") => 1, UnknownDirective at 12;
    "a directive that is cut", Frozen("V1\nT1,18446744073709551615\na") => 1, PrematureEnd at 28;
    "a reader that fails", Broken("V1\nT1,1\na") => 1, Read at 9;
    "a fault before a reader fails", Broken("V1\nX") => 1, UnknownDirective at 3;
    "a carriage return after the version", Frozen("V1\r\n") => 1, SeparatorExpected at 2;
    "a carriage return before a comma", Frozen("V1\nT1\r,1\nab\n") => 1, SeparatorExpected at 5;
};

#[test]
fn frozen_files_are_loaded(rt: HostRuntime) {
    compare(&rt, &LOADED);
    compare(&rt, &LOADED_BUILTINS);
}

// Reports how many bytes a row reads of its first source.
fn taken_of(alloc: Global, row: &Row, block: usize) -> Result<Vec<u8>, AllocError> {
    printed(alloc, &seen_of(alloc, row, block)?.taken)
}

// Compares what each row leaves, and then that it reads no byte of its first source.
fn compare_untaken(rt: &(impl Abort + Alloc<A = Global>), rows: &[Row]) {
    compare(rt, rows);
    for row in rows {
        for block in BLOCKS {
            shows_by(rt, row.name, block, b"0", taken_of(rt.alloc(), row, block));
        }
    }
}

#[test]
fn refused_frozen_files_leave_nothing_and_read_no_source(rt: HostRuntime) {
    compare_untaken(&rt, &REFUSED);
}

// Sources, which runs read one after another, and what is written while each is read. Each run but the last freezes and
// reads everything; the next one starts from its frozen text, and the last has the end given. If the first source saves
// text, which is not carried, then one run over all has another output.
struct Chain {
    name: &'static str,
    files: &'static [Given],
    outputs: &'static [&'static str],
    messages: &'static [&'static str],
    end: End,
    joint: Option<&'static str>,
}

// Runs that read everything and write no message.
const NO_MESSAGE: Chain = Chain {
    name: "",
    files: &[],
    outputs: &[],
    messages: &[],
    end: DONE,
    joint: None,
};

// Expands to chains: of each its name, its sources with their outputs, and then each other field that it has.
macro_rules! chains {
    ($($name:literal, [$($file:literal => $output:literal),*] $(, $field:ident: $value:expr)*;)*) => {
        [$(Chain {
            name: $name,
            files: &[$(File($file)),*],
            outputs: &[$($output),*],
            $($field: $value,)*
            ..NO_MESSAGE
        }),*]
    };
}

// Each way to divide four sources into runs: where each run ends.
static FOUR: [&[usize]; 8] = [
    &[1, 2, 3, 4],
    &[2, 3, 4],
    &[1, 3, 4],
    &[1, 2, 4],
    &[2, 4],
    &[1, 4],
    &[3, 4],
    &[4],
];

// The same for two.
static TWO: [&[usize]; 2] = [&[1, 2], &[2]];

static CHAINS: [Chain; 2] = chains! {
    "output alone", ["define(`n',`1')dnl\n" => "", "n pushdef(`n',`2')divert(1)n\n" => "1 ",
        "divert(0)n popdef(`n')dnl\n" => "2 ", "n undivert(1)end\n" => "1 2\nend\n"];
    "output and messages", ["define(`n',`1')errprint(`d')dnl\n" => "",
        "n pushdef(`n',`2')errprint(n)divert(1)n\n" => "1 ",
        "divert(0)n popdef(`n')errprint(n)dnl\n" => "2 ",
        "n undivert(1)end`'errprint(`e')\n" => "1 2\nend\n"], messages: &["d", "2", "1", "e"];
};

static SPLITS: [Chain; 7] = chains! {
    "diversions", ["divert(2)two\ndivert(1)one\ndivert(2)dnl\n" => "", "more\n" => "one\ntwo\nmore\n"];
    "a negative number", ["divert(-1)junk\n" => "", "x divert(0)y\n" => "y\n"];
    "a number without text", ["divert(3)dnl\n" => "", "x\n" => "x\n"];
    "text that is brought back",
        ["divert(1)a\ndivert(2)b\nundivert(1)divert(0)undivert(2)divnum\n" => "b\na\n0\n",
        "divnum undivert(2)\n" => "0 \n"];
    "a greeting", ["define(`hi',`Hello $1.')dnl\n" => "", "hi(`you')\n" => "Hello you.\n"];
    "delimiters", ["changequote([,])changecom(,)dnl\n" => "", "# [define]\n" => "# define\n"];
    "a name that two files do not join", ["define(`f',`<$#>')dnl\nf" => "<0>", "(1)\n" => "(1)\n"];
};

// The same for names and builtins.
static NAMES: [Chain; 6] = chains! {
    "a name that is defined again",
        ["define(`b',`1')define(`a',`2')define(`c',`3')undefine(`a')define(`a',`4')dnl\n" => "",
        "a b c\n" => "4 1 3\n"];
    "a stack that is unwound after the reload", ["define(`t',`1')pushdef(`t',`2')pushdef(`t',`3')dnl\n" => "",
        "t popdef(`t')t popdef(`t')t popdef(`t')t\n" => "3 2 1 t\n"];
    "a builtin under another name", ["define(`cut',defn(`shift'))undefine(`shift')dnl\n" => "",
        "cut(a,b,c) shift(d,e)\n" => "b,c shift(d,e)\n"];
    "a stack of two definitions that is unwound after the reload",
        ["define(`x',`1')pushdef(`x',`2')dnl\n" => "", "x popdef(`x')x popdef(`x')x\n" => "2 1 x\n"];
    "a builtin under another name, and its own without a definition",
        ["define(`cut',defn(`shift'))undefine(`shift')dnl\n" => "", "cut(1,2,3) shift(1)\n" => "2,3 shift(1)\n"];
    "a builtin that is undefined", ["undefine(`dnl')dnl\n" => "dnl\n", "dnl x\n" => "dnl x\n"];
};

static SPLIT_MESSAGES: [Chain; 5] = chains! {
    "a warning in each file", ["define(`f',`x',`y')dnl\n" => "", "f divert(`z')f\n" => "x x\n"],
        messages: &["m4:a.m4:1: Warning: excess arguments to builtin `define' ignored\n",
            "m4:b.m4:1: Warning: non-numeric argument to builtin `divert'\n"];
    "text that goes to the messages", ["define(`f',`x')errprint(`a')\n" => "\n", "errprint(f)\n" => "\n"],
        messages: &["a", "x"];
    "a string without an end in the second file", ["define(`f',`x')dnl\n" => "", "f\n`f" => "x\n"],
        messages: &["", "m4:b.m4:2: ERROR: end of input in string\n"], end: (1, Cause::EndInString, false);
    "a macro that ends the run in the second file",
        ["divert(1)d\ndivert(0)define(`f',`m4exit(`3')')a\n" => "a\n", "x f()y\n" => "x "],
        end: (3, Cause::Exited(3), false);
    "a call that never ends in the second file", ["define(`f',`f(f)')dnl\n" => "", "f\n" => ""],
        messages: &["", "m4:b.m4:1: ERROR: more than 1024 nested calls\n"], end: (1, Cause::NestingLimit, false);
};

// The first of these runs save text, which is not carried.
static APART: [Chain; 3] = chains! {
    "plain text", ["m4wrap(`bye')x\n" => "x\nbye", "z\n" => "z\n"], joint: Some("x\nz\nbye");
    "a definition that saved text makes", ["m4wrap(`define(`a',`b')')a\n" => "a\n", "a\n" => "b\n"],
        joint: Some("a\na\n");
    "a diversion that saved text selects", ["divert(1)d\ndivert(0)m4wrap(`divert(2)w')x\n" => "x\n",
        "undivert(1)divnum\n" => "wd\n2\n"], joint: Some("x\nd\n0\nw");
};

// Returns the items from a place up to another one.
fn between<T>(items: &[T], from: usize, to: usize) -> &[T] {
    items.get(from..to).unwrap_or(&[])
}

// Says whether two frozen texts are the same.
fn compared(frozen_text: &[u8], other: &[u8]) -> &'static [u8] {
    if frozen_text != other {
        b"two frozen texts\n"
    } else if other.is_empty() {
        b"no frozen text\n"
    } else {
        b"one frozen text\n"
    }
}

// Reports the runs of a chain, and whether each freezes what one run over all of its sources and those before freezes.
fn seen_runs(
    alloc: Global,
    chain: &Chain,
    ends: &[usize],
    block: usize,
) -> Result<Vec<u8>, AllocError> {
    let mut report = Report::new(alloc);
    let mut before: Option<Vec<u8>> = None;
    let mut from = 0;
    for &to in ends {
        let start = match &before {
            Some(text) => Some((text.as_slice(), false)),
            None => None,
        };
        let files = between(chain.files, from, to);
        let is_last = to == chain.files.len();
        let row = if is_last { QUIET } else { FREEZING };
        let seen = run_row(alloc, &row, start, files, AMPLE, block)?;
        add_seen(&mut report, &seen);
        let text = frozen_after(alloc, start, files, block)?;
        if !is_last || chain.joint.is_none() {
            let whole = frozen_after(alloc, None, between(chain.files, 0, to), block)?;
            report.add(compared(&text, &whole));
        }
        before = Some(text);
        from = to;
    }
    report.text()
}

// Adds what the run of a chain over these sources has to leave.
fn add_expected(chain: &Chain, from: usize, to: usize, report: &mut Report) {
    let is_last = to == chain.files.len();
    match chain.joint {
        Some(output) if from == 0 && is_last => report.add(output.as_bytes()),
        _ => add_pieces(report, between(chain.outputs, from, to)),
    }
    report.add(b"|");
    add_pieces(report, between(chain.messages, from, to));
    report.add(b"|");
    let (status, cause, _) = if is_last { chain.end } else { DONE };
    let saves = chain.joint.is_some();
    let end: End = (status, cause, saves && from == 0);
    report.print(&end);
    if !is_last || (!saves && cause == Cause::Done) {
        report.add(b"one frozen text\n");
    } else if !saves {
        report.add(b"no frozen text\n");
    }
}

// Returns what the runs of a chain have to leave.
fn expected_runs(alloc: Global, chain: &Chain, ends: &[usize]) -> Result<Vec<u8>, AllocError> {
    let mut report = Report::new(alloc);
    let mut from = 0;
    for &to in ends {
        add_expected(chain, from, to, &mut report);
        from = to;
    }
    report.text()
}

// Compares the runs of each chain, at each size of a block.
fn compare_chains(rt: &(impl Abort + Alloc<A = Global>), chains: &[Chain], ways: &[&[usize]]) {
    for chain in chains {
        for ends in ways {
            for block in BLOCKS {
                let want = expected_runs(rt.alloc(), chain, ends);
                let got = seen_runs(rt.alloc(), chain, ends, block);
                agrees_by(rt, chain.name, block, want, got);
            }
        }
    }
}

#[test]
fn chains_are_one_run(rt: HostRuntime) {
    compare_chains(&rt, &CHAINS, &FOUR);
}

#[test]
fn two_runs_are_one(rt: HostRuntime) {
    compare_chains(&rt, &SPLITS, &TWO);
    compare_chains(&rt, &NAMES, &TWO);
    compare_chains(&rt, &SPLIT_MESSAGES, &TWO);
}

#[test]
fn saved_text_is_not_carried(rt: HostRuntime) {
    compare_chains(&rt, &APART, &TWO);
}
