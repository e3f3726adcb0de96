//! Lines that are followed in a world in memory: the status, the output, the messages, and the file that is
//! made. The files and the expected results were written by hand.

use super::following::{QUIET, Row, WHOLE, compare};
use m4_tool::given::Given;

/// The files of all rows: the name, the bytes, and whether the reader fails after them.
pub static FILES: [Given<'static>; 15] = world! {
    b"a" => b"hi\n";
    b"b" => b"define(`x', `y')x\n";
    b"c" => b"x\n";
    b"empty" => b"V1\n";
    b"bad" => b"V1\nX\n";
    b"newer" => b"V2\n";
    b"cut" => b"V1\n", fails: true;
    b"lost" => b"", fails: true;
    b"torn" => b"hi\nx", fails: true;
    b"quit" => b"m4exit(`3')\n";
    b"issues" => b"V1\nD0,1\nx\n";
    b"short" => b"V1\nT1,1\nab";
    b"returns" => b"V1\r\n";
    b"saving" => b"V1\nF6,6\nm4wrapm4wrap\n";
    b"saves" => b"m4wrap(`x')\n";
};

static LINES: [Row; 12] = lines! {
    "two files", ["a", "c"] => "hi\nx\n";
    "a definition in one file and its name in the next one", ["b", "c"] => "y\ny\n";
    "no file is standard input", [] => "in\n", input: b"in\n";
    "standard input between two files", ["a", "-", "c"] => "hi\nin\nx\n", input: b"in\n";
    "standard input is read once", ["-", "-"] => "in\n", input: b"in\n";
    "the name of standard input, and its first line", ["-"] => "stdin:1\n", input: b"__file__:__line__\n";
    "a limit of nested calls", ["-L", "2"] => "", input: b"len(len(len(`a')))\n", status: 1,
        messages: "m4:stdin:1: ERROR: more than 2 nested calls\n";
    "the usual limit of nested calls", [] => "", input: b"define(`f',`f(f)')f\n", status: 1,
        messages: "m4:stdin:1: ERROR: more than 1024 nested calls\n";
    "a file that cannot be opened, between two others", ["a", "none", "c"] => "hi\nx\n", status: 1,
        messages: "m4: cannot open `none'\n";
    "a frozen file without builtins", ["-R", "empty", "b"] => "define(x, y)x\n";
    "a frozen file that cannot be opened", ["-R", "none", "a"] => "", status: 1,
        messages: "m4: cannot open `none'\n";
    "a dash is no standard input for -R", ["-R", "-", "a"] => "", input: b"V1\n", status: 1,
        messages: "m4: cannot open `-'\n";
};

// The same for frozen files that are refused, and for readers that fail.
static REFUSED: [Row; 7] = lines! {
    "a frozen file with an unknown directive", ["-R", "bad", "a"] => "", status: 1,
        messages: "m4: bad: F5 UnknownDirective at byte 3\n";
    "a frozen file that ends within a directive", ["-R", "short", "a"] => "", status: 1,
        messages: "m4: short: F9 PrematureEnd at byte 10\n";
    "a frozen file with a carriage return after its version", ["-R", "returns", "a"] => "", status: 1,
        messages: "m4: returns: F8 SeparatorExpected at byte 2\n";
    "a frozen file of a newer format", ["-R", "newer", "a"] => "", status: 63,
        messages: "m4: newer: F2 Newer at byte 1\n";
    "a frozen file whose reader fails", ["-R", "cut", "a"] => "", status: 1,
        messages: "m4: cut: F10 Read\n";
    "a run that freezes and a file that fails", ["-F", "s", "lost", "a"] => "", status: 1,
        messages: "m4: read fault\n";
    "a run that freezes and a frozen file with a fault", ["-F", "s", "-R", "bad"] => "", status: 1,
        messages: "m4: bad: F5 UnknownDirective at byte 3\n";
};

// The same for the modes.
static MODES: [Row; 8] = lines! {
    "a canonical text of a file that cannot be opened", ["--canon=none"] => "", status: 1,
        messages: "m4: cannot open `none'\n";
    "an inspected file that cannot be opened", ["--inspect=none"] => "", status: 1,
        messages: "m4: cannot open `none'\n";
    "the canonical text of an empty state", ["--canon=empty"] =>
        "# m4 frozen state\nV1\n# End of frozen state file\n";
    "a canonical text of a file of a newer format", ["--canon=newer"] => "", status: 63,
        messages: "m4: newer: F2 Newer at byte 1\n";
    "a canonical text of a file that issues text", ["--canon=issues"] => "", status: 1,
        messages: "m4: issues: K1 text would be issued at reload\n";
    "the lines of a file that issues text", ["--inspect=issues"] =>
        "quotes ` '\ncomments # \\0a\ncurrent 0\nissued 1\n";
    "an inspected file whose reader fails", ["--inspect=cut"] => "", status: 1,
        messages: "m4: cut: F10 Read\n";
    "a dash is no standard input for --canon", ["--canon=-"] => "", input: b"V1\n", status: 1,
        messages: "m4: cannot open `-'\n";
};

// The same for lines that freeze.
static FROZEN: [Row; 5] = lines! {
    "one file is reloaded and frozen to", ["-R", "empty", "-F", "empty", "a"] => "hi\n",
        made: Some(("empty", "# m4 frozen state\nV1\n# End of frozen state file\n"));
    "a state is frozen though a file cannot be opened", ["-R", "empty", "-F", "s", "none"] => "", status: 1,
        messages: "m4: cannot open `none'\n",
        made: Some(("s", "# m4 frozen state\nV1\n# End of frozen state file\n"));
    "text is saved when the last file ends, and read before the state is frozen",
        ["-R", "saving", "-F", "s", "saves"] => "\nx", saves: true,
        made: Some(("s", "# m4 frozen state\nV1\nF6,6\nm4wrapm4wrap\n# End of frozen state file\n"));
    "a frozen file that cannot be made", ["-F", "s", "a"] => "hi\n", makes: false, status: 1,
        messages: "m4: write fault\n";
    "nothing is frozen if the output fills up", ["-F", "s", "a"] => "hi", room: 2, status: 1,
        messages: "m4: write fault\n";
};

#[test]
fn lines_are_followed(rt: HostRuntime) {
    compare(&rt, &LINES);
    compare(&rt, &REFUSED);
    compare(&rt, &MODES);
    compare(&rt, &FROZEN);
}
