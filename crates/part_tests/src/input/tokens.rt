//! Texts and their tokens, for different numbers of bytes that the reader returns at a time.

use super::steps::{ANGLES, NONE, Row, tried};

static ROWS: [Row; 10] = input_rows! {
    BLOCKED:
    "a name is the longest run of letters, digits and underscores", "foo+_x1-9Z", [Rest] =>
        "name foo\nbyte +\nname _x1\nbyte -\nbyte 9\nname Z\nend\n";
    "white space is single bytes", " \t\n", [Rest] => "byte  \nbyte \t\nbyte \n\nend\n";
    "an empty text ends", "", [Rest] => "end\n";
    "quotes are nested", "`a `b' # c'd`'", [Rest] => "string a `b' # c\nname d\nstring \nend\n";
    "a comment is copied with its delimiters", "x# it's `one\ny", [Rest] =>
        "name x\ncomment # it's `one\n\nname y\nend\n";
    "delimiters of several bytes", "<<a<b<<c>d>>>></*e*f*//", [Rest] =>
        "string a<b<<c>d>>\nbyte <\ncomment /*e*f*/\nbyte /\nend\n", quotes: ANGLES, comments: Some(("/*", "*/"));
    "delimiters that are disabled", "`a'#", [Rest] =>
        "byte `\nname a\nbyte '\nbyte #\nend\n", quotes: NONE, comments: NONE;
    "a comment goes before a string", "axbcab", [Rest] =>
        "comment axb\nname cab\nend\n", quotes: Some(("a", "b")), comments: Some(("a", "b"));
    "a string without an end", "\n\n`y `z'\n", [Rest] => "byte \n\nbyte \n\nend in string of line 3\nend\n";
    "a comment without an end", "# no newline", [Rest] => "end in comment of line 1\nend\n";
};

#[test]
fn texts_and_their_tokens(rt: HostRuntime) {
    tried(&rt, rt.alloc(), &ROWS);
}
