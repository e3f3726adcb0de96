//! Calls that measure texts, search them, cut them, and replace bytes of them. Manual: "Calculating
//! length of strings", "Searching for substrings", "Extracting substrings", "Translating characters".

use super::Argument;
use super::steps::Warning::{Empty, Few, Many, NoNumber};
use super::steps::{Pushes, Row, Step, Warns, pushed, report_of, tried, warned};
use crate::shows::shows;

// Each row is a call in line 1 of `a.m4`.
static LENGTHS: [Pushes; 4] = rows! {
    "three bytes", &["abc"] => "3";
    "nothing", &[""] => "0";
    "a byte 0 and a newline count", &["a\x00\n"] => "3";
    "a letter of two bytes", &["\u{e9}"] => "2";
};

static WARNED_LENGTHS: [Warns; 2] = rows! {
    "a second argument", &["a", "bcd"], Some("1") => Many;
    "no argument", &[], None => Few;
};

static PLACES: [Pushes; 9] = rows! {
    "the first of one place", &["abcabc", "ca"] => "2";
    "the first of two places", &["abcabc", "bc"] => "1";
    "no place", &["a", "z"] => "-1";
    "an empty part", &["abc", ""] => "0";
    "an empty part of nothing", &["", ""] => "0";
    "a part of nothing", &["", "a"] => "-1";
    "a part that is too long", &["ab", "abc"] => "-1";
    "the whole text", &["abc", "abc"] => "0";
    "a beginning of the part in front of it", &["aab", "ab"] => "1";
};

static FAR_PLACES: [Pushes; 3] = rows! {
    "the last byte of a long text", &["aaaaaaaaaaaaaaaaaaaaaaaaaaaaaaaaaaaaaaaab", "b"] => "40";
    "the end of a long text", &["aaaaaaaaaaaaaaaaaaaaaaaaaaaaaaaaaaaaaaaab", "aaab"] => "37";
    "a byte 0", &["a\x00b", "\x00b"] => "1";
};

static WARNED_FAR_PLACES: [Warns; 2] = rows! {
    "a third argument", &["abc", "c", "x"], Some("2") => Many;
    "no argument", &[], None => Few;
};

static PARTS: [Pushes; 9] = rows! {
    "three bytes of six", &["abcdef", "2", "3"] => "cde";
    "the whole rest", &["abc", "1"] => "bc";
    "from the end", &["abc", "3"] => "";
    "from after the end", &["abc", "2147483647", "2147483647"] => "";
    "from before the front", &["abc", "-1"] => "";
    "a count of 0", &["abc", "1", "0"] => "";
    "a count below 0", &["abc", "1", "-1"] => "";
    "a count above the rest", &["abc", "1", "9"] => "bc";
    "white space and a sign in front", &["abc", " +1", " 1"] => "b";
};

// The same for arguments that are empty, no numbers, missing or in excess.
static WARNED_PARTS: [Warns; 6] = rows! {
    "an empty place", &["abc", "", "2"], Some("ab") => Empty;
    "an empty count", &["abc", "1", ""], Some("") => Empty;
    "a place that is no number", &["abc", "x"], None => NoNumber;
    "a count that is no number", &["abc", "9", "x"], None => NoNumber;
    "neither is a number", &["abc", "x", "y"], None => NoNumber;
    "no argument", &[], None => Few;
};

static OTHER_PARTS: [Row; 3] = step_rows! {
    "an empty place and count", [Call("substr", &["abc", "", ""])] =>
        "push \nm4:a.m4:1: Warning: empty string treated as 0 in builtin `substr'\n\
         m4:a.m4:1: Warning: empty string treated as 0 in builtin `substr'\n";
    "an empty place and a count that is no number", [Call("substr", &["abc", "", "x"])] =>
        "m4:a.m4:1: Warning: empty string treated as 0 in builtin `substr'\n\
         m4:a.m4:1: Warning: non-numeric argument to builtin `substr'\n";
    "a fourth argument", [Call("substr", &["abc", "", "2", "x"])] =>
        "push ab\nm4:a.m4:1: Warning: excess arguments to builtin `substr' ignored\n\
         m4:a.m4:1: Warning: empty string treated as 0 in builtin `substr'\n";
};

static REPLACED: [Pushes; 9] = rows! {
    "a range that falls", &["abcba", "a-c", "C-A"] => "CBABC";
    "bytes are taken out", &["hello", "l"] => "heo";
    "ranges that share an end", &["+,-12345", "+--1-5", "<;>a-c-a"] => "<;>abcba";
    "small letters", &["GNUs not Unix", "A-Z", "a-z"] => "gnus not unix";
    "capital letters are taken out", &["GNUs not Unix", "A-Z"] => "s not nix";
    "letters from the end", &["GNUs not Unix", "A-Z", "z-a"] => "tmfs not fnix";
    "a byte that is named twice", &["abcdef", "aabdef", "bcged"] => "bgced";
    "a range that falls is replaced", &["abc", "c-a", "xyz"] => "zyx";
    "a range of one byte", &["abc", "a-a", "xy"] => "xbc";
};

// The same for dashes, for all bytes and none, and for arguments that are missing or in excess.
static DASHES: [Pushes; 5] = rows! {
    "a dash alone", &["a-b", "-", "+"] => "a+b";
    "a dash in front", &["a-b", "-a", "xy"] => "yxb";
    "a dash at the end", &["a-b", "a-", "xy"] => "xyb";
    "no byte", &["abc", "", "xyz"] => "abc";
    "nothing", &["", "a-z", "A-Z"] => "";
};

static WARNED_DASHES: [Warns; 3] = rows! {
    "a fourth argument", &["abc", "b", "x", "y"], Some("axc") => Many;
    "one argument", &["abc"], Some("abc") => Few;
    "no argument", &[], None => Few;
};

// Bytes that are no text, and two ranges of all bytes.
static EVERY_BYTE: [Argument; 3] = [
    Argument::Bytes(b"\x00\x7f\xff"),
    Argument::Bytes(b"\x00-\xff"),
    Argument::Bytes(b"\xff-\x00"),
];

#[test]
fn texts_are_measured_and_searched(rt: HostRuntime) {
    pushed(&rt, rt.alloc(), "len", &LENGTHS);
    warned(&rt, rt.alloc(), "len", &WARNED_LENGTHS);
    pushed(&rt, rt.alloc(), "index", &PLACES);
    pushed(&rt, rt.alloc(), "index", &FAR_PLACES);
    warned(&rt, rt.alloc(), "index", &WARNED_FAR_PLACES);
}

#[test]
fn texts_are_cut(rt: HostRuntime) {
    pushed(&rt, rt.alloc(), "substr", &PARTS);
    warned(&rt, rt.alloc(), "substr", &WARNED_PARTS);
    tried(&rt, rt.alloc(), &OTHER_PARTS);
}

#[test]
fn bytes_are_replaced(rt: HostRuntime) {
    pushed(&rt, rt.alloc(), "translit", &REPLACED);
    pushed(&rt, rt.alloc(), "translit", &DASHES);
    warned(&rt, rt.alloc(), "translit", &WARNED_DASHES);
    let got = report_of(rt.alloc(), &[Step::With(1, "translit", &EVERY_BYTE)]);
    shows(&rt, "every byte", b"push \xff\x80\x00\n", got);
}
