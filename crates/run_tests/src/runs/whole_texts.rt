//! Whole frozen texts of runs from the fresh state, byte for byte, with readers of several sizes. Manual: "Fast
//! loading of frozen state", "Frozen file format".

use self::Part::{
    Builtin, Changes, DecrToEval, First, IfdefToM4wrap, Last, Names, PopdefAndPushdef, Prefixed,
    Shift, SubstrOn, Text, Underscores,
};
use super::rows::Given::File;
use super::rows::{Row, compare};
use m4_engine::ending::Cause;

/// A part of a frozen text. A part of the fresh state is named, since a table of rows that holds its text in each row
/// takes much longer to prove.
#[derive(Clone, Copy)]
pub enum Part {
    First,
    Names,
    Underscores,
    Builtin,
    Changes,
    DecrToEval,
    IfdefToM4wrap,
    PopdefAndPushdef,
    Shift,
    SubstrOn,
    Prefixed,
    Text(&'static str),
    Last,
}

/// Returns the text of a part.
pub fn text_of(part: Part) -> &'static str {
    match part {
        First => BEGIN,
        Names => NAMES,
        Underscores => UNDERSCORES,
        Builtin => BUILTIN,
        Changes => CHANGES,
        DecrToEval => DECR_TO_EVAL,
        IfdefToM4wrap => IFDEF_TO_M4WRAP,
        PopdefAndPushdef => POPDEF_AND_PUSHDEF,
        Shift => SHIFT,
        SubstrOn => SUBSTR_ON,
        Prefixed => PREFIXED,
        Text(text) => text,
        Last => END,
    }
}

/// The first two lines of a frozen text.
const BEGIN: &str = "# m4 frozen state\nV1\n";

/// Its last line.
const END: &str = "# End of frozen state file\n";

/// The directives of the fresh state, in the order of their names.
const NAMES: &str =
    "F8,8\n__file____file__\nT7,0\n__gnu__\nF8,8\n__line____line__\nT8,0\n__unix__\nF7,7\nbuiltinbuiltin\n\
    F9,9\nchangecomchangecom\nF11,11\nchangequotechangequote\nF4,4\ndecrdecr\nF6,6\ndefinedefine\n\
    F4,4\ndefndefn\nF6,6\ndivertdivert\nF6,6\ndivnumdivnum\nF3,3\ndnldnl\nF7,7\ndumpdefdumpdef\n\
    F8,8\nerrprinterrprint\nF4,4\nevaleval\nF5,5\nifdefifdef\nF6,6\nifelseifelse\nF4,4\nincrincr\n\
    F5,5\nindexindex\nF5,5\nindirindir\nF3,3\nlenlen\nF6,6\nm4exitm4exit\nF6,6\nm4wrapm4wrap\n\
    F6,6\npopdefpopdef\nF7,7\npushdefpushdef\nF5,5\nshiftshift\nF6,6\nsubstrsubstr\n\
    F8,8\ntranslittranslit\nF8,8\nundefineundefine\nF8,8\nundivertundivert\n";

/// The same in parts, for names between them: those that begin with an underscore.
const UNDERSCORES: &str =
    "F8,8\n__file____file__\nT7,0\n__gnu__\nF8,8\n__line____line__\nT8,0\n__unix__\n";

/// The one of `builtin`.
const BUILTIN: &str = "F7,7\nbuiltinbuiltin\n";

/// Those of the delimiters.
const CHANGES: &str = "F9,9\nchangecomchangecom\nF11,11\nchangequotechangequote\n";

/// Those from `decr` to `eval`.
const DECR_TO_EVAL: &str =
    "F4,4\ndecrdecr\nF6,6\ndefinedefine\nF4,4\ndefndefn\nF6,6\ndivertdivert\nF6,6\ndivnumdivnum\n\
    F3,3\ndnldnl\nF7,7\ndumpdefdumpdef\nF8,8\nerrprinterrprint\nF4,4\nevaleval\n";

/// Those from `ifdef` to `m4wrap`.
const IFDEF_TO_M4WRAP: &str =
    "F5,5\nifdefifdef\nF6,6\nifelseifelse\nF4,4\nincrincr\nF5,5\nindexindex\nF5,5\nindirindir\n\
    F3,3\nlenlen\nF6,6\nm4exitm4exit\nF6,6\nm4wrapm4wrap\n";

/// Those of `popdef` and `pushdef`.
const POPDEF_AND_PUSHDEF: &str = "F6,6\npopdefpopdef\nF7,7\npushdefpushdef\n";

/// The one of `shift`.
const SHIFT: &str = "F5,5\nshiftshift\n";

/// Those from `substr` on.
const SUBSTR_ON: &str =
    "F6,6\nsubstrsubstr\nF8,8\ntranslittranslit\nF8,8\nundefineundefine\nF8,8\nundivertundivert\n";

/// The directives of the fresh state if its builtins have prefixes.
const PREFIXED: &str =
    "T7,0\n__gnu__\nT8,0\n__unix__\nF11,8\nm4___file____file__\nF11,8\nm4___line____line__\n\
    F10,7\nm4_builtinbuiltin\nF12,9\nm4_changecomchangecom\nF14,11\nm4_changequotechangequote\n\
    F7,4\nm4_decrdecr\nF9,6\nm4_definedefine\nF7,4\nm4_defndefn\nF9,6\nm4_divertdivert\n\
    F9,6\nm4_divnumdivnum\nF6,3\nm4_dnldnl\nF10,7\nm4_dumpdefdumpdef\nF11,8\nm4_errprinterrprint\n\
    F7,4\nm4_evaleval\nF8,5\nm4_ifdefifdef\nF9,6\nm4_ifelseifelse\nF7,4\nm4_incrincr\n\
    F8,5\nm4_indexindex\nF8,5\nm4_indirindir\nF6,3\nm4_lenlen\nF9,6\nm4_m4exitm4exit\n\
    F9,6\nm4_m4wrapm4wrap\nF9,6\nm4_popdefpopdef\nF10,7\nm4_pushdefpushdef\nF8,5\nm4_shiftshift\n\
    F9,6\nm4_substrsubstr\nF11,8\nm4_translittranslit\nF11,8\nm4_undefineundefine\n\
    F11,8\nm4_undivertundivert\n";

/// The frozen text of the fresh state.
pub const FRESH_TEXT: &[Part] = &[First, Names, Last];

/// The frozen text of a state where `shift` has another name.
pub const CUT_TEXT: &[Part] = &[
    First,
    Underscores,
    Builtin,
    Changes,
    Text("F3,5\ncutshift\n"),
    DecrToEval,
    IfdefToM4wrap,
    PopdefAndPushdef,
    SubstrOn,
    Last,
];

/// The frozen text of a state with a greeting.
pub const GREETING_TEXT: &[Part] = &[
    First,
    Underscores,
    Builtin,
    Changes,
    DecrToEval,
    Text("T2,9\nhiHello $1.\n"),
    IfdefToM4wrap,
    PopdefAndPushdef,
    Shift,
    SubstrOn,
    Last,
];

// The frozen text of a state with a stack of two definitions and a diversion.
const DIVERTED_TEXT: &[Part] = &[
    First,
    Underscores,
    Builtin,
    Changes,
    DecrToEval,
    IfdefToM4wrap,
    Text("T1,1\nn1\nT1,1\nn2\n"),
    PopdefAndPushdef,
    Shift,
    SubstrOn,
    Text("D1,2\n2\n\n"),
    Last,
];

static STATES: [Row; 9] = rows! {
    "the fresh state", [] => "", frozen_text: Some(FRESH_TEXT);
    "the fresh state with prefixes", [] => "", prefix: true, frozen_text: Some(&[First, Prefixed, Last]);
    "the same after an empty file", "" => "", prefix: true, frozen_text: Some(&[First, Prefixed, Last]);
    "a stack of two definitions", "define(`x',`1')pushdef(`x',`2')dnl\n" => "",
        frozen_text: Some(&[First, Names, Text("T1,1\nx1\nT1,1\nx2\n"), Last]);
    "a builtin under another name", "define(`cut',defn(`shift'))undefine(`shift')cut(1,2,3) shift(1)\n" =>
        "2,3 shift(1)\n",
        frozen_text: Some(CUT_TEXT);
    "a builtin under another name, which is called later",
        "define(`cut',defn(`shift'))undefine(`shift')dnl\n" => "", frozen_text: Some(CUT_TEXT);
    "a name that is called later", "define(`hi',`Hello $1.')dnl\n" => "", frozen_text: Some(GREETING_TEXT);
    "three names in another order, the first of them defined again",
        "define(`b',`B')define(`a',`A')define(`c',`C')undefine(`b')define(`b',`B')dnl\n" => "",
        frozen_text: Some(&[First, Underscores, Text("T1,1\naA\nT1,1\nbB\n"), Builtin, Text("T1,1\ncC\n"), Changes,
            DecrToEval, IfdefToM4wrap, PopdefAndPushdef, Shift, SubstrOn, Last]);
    "three names, one of them defined again",
        "define(`b',`1')define(`a',`2')define(`c',`3')undefine(`a')define(`a',`4')dnl\n" => "",
        frozen_text: Some(&[First, Underscores, Text("T1,1\na4\nT1,1\nb1\n"), Builtin, Text("T1,1\nc3\n"), Changes,
            DecrToEval, IfdefToM4wrap, PopdefAndPushdef, Shift, SubstrOn, Last]);
};

static SETTINGS: [Row; 8] = rows! {
    "quotes that are changed, and no comments", "changequote([,])changecom(,)dnl\n" => "",
        frozen_text: Some(&[First, Text("Q1,1\n[]\nC0,0\n\n"), Names, Last]);
    "diversions that were begun out of order", "divert(2)two\ndivert(1)one\ndivert(2)dnl\n" => "",
        frozen_text: Some(&[First, Names, Text("D1,4\none\n\nD2,4\ntwo\n\n"), Last]);
    "a negative current number", "divert(-1)junk\n" => "",
        frozen_text: Some(&[First, Names, Text("D-1,0\n\n"), Last]);
    "a current number without text", "divert(3)dnl\n" => "",
        frozen_text: Some(&[First, Names, Text("D3,0\n\n"), Last]);
    "a stack and a diversion, of two files",
        [File("define(`n',`1')dnl\n"), File("n pushdef(`n',`2')divert(1)n\n")] => "1 ",
        frozen_text: Some(DIVERTED_TEXT);
    "the same with messages", [File("define(`n',`1')errprint(`d')dnl\n"),
        File("n pushdef(`n',`2')errprint(n)divert(1)n\n")] => "1 ", messages: "d2",
        frozen_text: Some(DIVERTED_TEXT);
    "a string without an end, at once", "`abc" => "",
        messages: "m4:a.m4:1: ERROR: end of input in string\n", end: (1, Cause::EndInString, false),
        frozen_text: Some(&[]);
    "a string without an end", "x\n`abc" => "x\n", messages: "m4:a.m4:2: ERROR: end of input in string\n",
        end: (1, Cause::EndInString, false), frozen_text: Some(&[]);
};

#[test]
fn names_and_settings_are_frozen(rt: HostRuntime) {
    compare(&rt, &STATES);
    compare(&rt, &SETTINGS);
}
