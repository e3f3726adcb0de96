//! The calls on an input besides reading tokens: whether a list follows, the rest of a line, text and
//! definitions that are pushed back, lines and faults.

use super::steps::{Row, STARS, tried};
use crate::given::Given;

static LISTS: [Row; 8] = input_rows! {
    BLOCKED:
    "a list follows a name", "f(", [Next, SeesParen] => "name f\nlist\n";
    "no list follows a blank", "f (", [Next, SeesParen] => "name f\nno list\n";
    "no list follows at the end", "f", [Next, SeesParen] => "name f\nno list\n";
    "a parenthesis that is a quote", "f(", [Next, SeesParen] => "name f\nno list\n", quotes: Some(("(", ")"));
    "a parenthesis that begins a comment", "f(*", [Next, SeesParen] => "name f\nno list\n", comments: STARS;
    "a parenthesis that begins no comment", "f(x", [Next, SeesParen] => "name f\nlist\n", comments: STARS;
    "a parenthesis that is seen is not taken", "(", [SeesParen, Next] => "list\nbyte (\n";
    "a definition is before all text", "(", [PushDefinition(Given::Named("dnl")), SeesParen, Taken, Next, Next] =>
        "no list\ntaken 0\nbuiltin dnl\nbyte (\n";
};

static OTHERS: [Row; 7] = input_rows! {
    BLOCKED:
    "the definition before the text is taken once",
        "f", [PushDefinition(Given::Named("dnl")), TakeDefinition, TakeDefinition, Taken, Next] =>
        "builtin dnl\nnone\ntaken 0\nname f\n";
    "pushed text joins the bytes after it", "b c", [Push("a"), Next, Next] => "name ab\nbyte  \n";
    "what was pushed last comes first", "", [Push("cd' e"), Push("`ab"), Next, Next, Next] =>
        "string abcd\nbyte  \nname e\n";
    "a line is skipped through its newline", "foo `\nbar", [Next, SkipLine, Line, Next] =>
        "name foo\nskipped\nline 2\nname bar\n";
    "a last line is skipped whole", "foo bar", [SkipLine, Line, Next] => "skipped\nline 1\nend\n";
    "lines count the newlines of the file, and not those of pushed text",
        "`a\n\n'\nb", [Push("\n"), Name, Line, Next, Line, Next, Line, Next, Line] =>
        "a.m4\nline 1\nbyte \n\nline 1\nstring a\n\n\nline 3\nbyte \n\nline 4\n";
    "a reader that fails is not asked again", "abc", [Next, Next, SeesParen, SkipLine, Line, Taken] =>
        "read fault\nread fault\nread fault\nread fault\nline 1\ntaken 3\n", fails: true;
};

// Text that was saved for the end: it has no file and no line, and asks no reader.
static WRAPPED: [Row; 3] = input_rows! {
    BLOCKED:
    "tokens of saved text", "ab `c'\nd", [Name, Line, Rest, Line, Taken] =>
        "\nline 0\nname ab\nbyte  \nstring c\nbyte \n\nname d\nend\nline 0\ntaken 0\n", wrapped: true;
    "a list, and the rest of a line of saved text", "f(x\ny", [Next, SeesParen, SkipLine, Next, Next, Taken] =>
        "name f\nlist\nskipped\nname y\nend\ntaken 0\n", wrapped: true;
    "a string without an end in saved text, after text that is pushed",
        "b\n`c", [Push("a"), Next, Next, Next, Next] =>
        "name ab\nbyte \n\nend in string of line 0\nend\n", wrapped: true;
};

#[test]
fn lists_that_follow_and_other_answers(rt: HostRuntime) {
    tried(&rt, rt.alloc(), &WRAPPED);
    tried(&rt, rt.alloc(), &LISTS);
    tried(&rt, rt.alloc(), &OTHERS);
}
