//! The bytes in hand: a block of a file, without the bytes that were removed, and the texts that are pushed before it.

use super::steps::{Row, tried};
use crate::given::Given;

static ROWS: [Row; 7] = input_rows! {
    PLAIN:
    "a name whose first byte is the last of a text, and whose next is the file's",
        "b c", [More, Push("x a"), Next, Next, Next, Next] => "more\nname x\nbyte  \nname ab\nbyte  \n";
    "a name, a string and a list across many texts",
        "d')(e", [More, Push("c"), Push("`"), Push("a"), Push("n"), Next, Next, Next, SeesParen, Hand] =>
        "more\nname na\nstring cd\nbyte )\nlist\n[(e]\n";
    "texts, the last one first, and then the file",
        "d\ne", [More, Push("c"), Push("`"), Push("a"), TakeAll, Line] => "more\n[a`cd\ne]\nline 2\n";
    "a long text joins the file's first name", "ab c", [More, PushMany(40_000), Line, NextLen, Hand] =>
        "more\nline 1\na name of 40002\n[ c]\n";
    "bytes are removed from two texts and the file", "ab\nc", [More, Take(1), PushMany(5_000), Take(4_998),
        Push("x\n"), Line, PushMany(20_000), Take(20_006), Hand, Line] => "more\nline 1\n[c]\nline 2\n";
    "a short text before a long one of which some was read",
        "ab\nc", [More, Take(1), PushMany(5_000), Take(4_998), Push("x\n"), TakeAll, Line] =>
        "more\n[x\nxxb\nc]\nline 2\n";
    "pushed texts come before the file",
        "ab\nc", [More, Hand, Line, Take(3), Push("x\n"), Hand, Line, Push("longer "), Line, Next, Next, Hand] =>
        "more\n[ab\nc]\nline 1\n[x\nc]\nline 2\nline 2\nname longer\nbyte  \n[x\nc]\n";
};

// A text that is longer than one that is put before the bytes that come next.
const LETTERS: &str = "abcdefghijklmnopqrstuvwxyzabcdefghijklmnopqrstuvwxyz\
    abcdefghijklmnopqrstuvwxyzabcdefghijklmnopqrstuvwxyzabcdefghijklmnopqrstuvwxyz";

// Texts that are copied to before the bytes in hand: short ones, if as many bytes were read.
static PUTS: [Row; 3] = input_rows! {
    PLAIN:
    "a text before those of a file, and one that is too long",
        "ab c", [More, PushInPlace("x"), PushInPlace(LETTERS), Line, Next, Hand] =>
        "more\nput\nleft\nline 1\nname xab\n[ c]\n";
    "a text before the rest of another that others may share",
        "d", [More, Push(LETTERS), PushInPlace("1"), Take(2), PushInPlace("12"), Take(4), NextLen] =>
        "more\nleft\nleft\na name of 125\n";
    "newlines that are put before others count as no lines",
        "a\nb", [More, Take(2), PushInPlace("\n\n"), Line, Take(2), Line, TakeAll] =>
        "more\nput\nline 2\nline 2\n[b]\n";
};

// Slices of the bytes in hand, longer than so many bytes if others come after them.
static FRONTS: [Row; 4] = input_rows! {
    PLAIN:
    "all of a file is in one slice", "ab", [More, Front(0), Front(2)] => "more\n[ab] all\n[ab] all\n";
    "a text, and with the bytes after it", "12", [More, Push(LETTERS), Front(0), Front(129), Front(130)] =>
        "more\n\
         [abcdefghijklmnopqrstuvwxyzabcdefghijklmnopqrstuvwxyz\
         abcdefghijklmnopqrstuvwxyzabcdefghijklmnopqrstuvwxyzabcdefghijklmnopqrstuvwxyz] others\n\
         [abcdefghijklmnopqrstuvwxyzabcdefghijklmnopqrstuvwxyz\
         abcdefghijklmnopqrstuvwxyzabcdefghijklmnopqrstuvwxyzabcdefghijklmnopqrstuvwxyz] others\n\
         [abcdefghijklmnopqrstuvwxyzabcdefghijklmnopqrstuvwxyz\
         abcdefghijklmnopqrstuvwxyzabcdefghijklmnopqrstuvwxyzabcdefghijklmnopqrstuvwxyz12] all\n";
    "two texts and a file", "12", [More, Push(LETTERS), Push(LETTERS), Front(131)] =>
        "more\n\
         [abcdefghijklmnopqrstuvwxyzabcdefghijklmnopqrstuvwxyz\
         abcdefghijklmnopqrstuvwxyzabcdefghijklmnopqrstuvwxyzabcdefghijklmnopqrstuvwxyz\
         abcdefghijklmnopqrstuvwxyzabcdefghijklmnopqrstuvwxyz\
         abcdefghijklmnopqrstuvwxyzabcdefghijklmnopqrstuvwxyzabcdefghijklmnopqrstuvwxyz12] all\n";
    "a definition comes first", "12", [More, PushDefinition(Given::Named("dnl")), Front(0)] =>
        "more\na definition\n";
};

#[test]
fn bytes_in_hand(rt: HostRuntime) {
    tried(&rt, rt.alloc(), &ROWS);
    tried(&rt, rt.alloc(), &FRONTS);
    tried(&rt, rt.alloc(), &PUTS);
}
