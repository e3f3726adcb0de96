//! Lines that are followed in a world in memory where a reader or a writer fails. The expected results were
//! worked out by hand: if a reader fails, the output is at least what is written before the source is read, and
//! at most what every run writes whose source begins with the bytes of that reader.

use super::following::{QUIET, Row, compare};

// Lines one of whose readers fails: standard input, or a file of its world.
static READERS: [Row; 11] = lines! {
    "the first file fails in the middle of a name", ["torn", "a"] => "", fails: true, status: 1,
        most: Some("hi\nx"), messages: "m4: read fault\n";
    "a file between two others fails", ["a", "torn", "c"] => "hi\n", fails: true, status: 1,
        most: Some("hi\nhi\nx"), messages: "m4: read fault\n";
    "a file fails at once, after a definition", ["b", "lost", "c"] => "y\n", fails: true, status: 1,
        most: Some("y\n"), messages: "m4: read fault\n";
    "a file that cannot be opened, and one that fails", ["none", "a", "lost"] => "hi\n", fails: true,
        status: 1, most: Some("hi\n"), messages: "m4: cannot open `none'\nm4: read fault\n";
    "a run that freezes fails after a reload", ["-R", "empty", "-F", "s", "lost"] => "", fails: true,
        status: 1, most: Some(""), messages: "m4: read fault\n";
    "a macro ends the run before a file that would fail", ["quit", "torn"] => "", fails: true, status: 3,
        most: Some("");
    "a macro ends a run that freezes before a file that would fail", ["-F", "s", "quit", "lost"] => "",
        fails: true, status: 3, most: Some("");
    "standard input fails after a line", [] => "", input: b"in\n", fails: true, status: 1,
        most: Some("in\n"), messages: "m4: read fault\n";
    "standard input between two files fails", ["a", "-", "c"] => "hi\n", input: b"in\n", fails: true,
        status: 1, most: Some("hi\nin\n"), messages: "m4: read fault\n";
    "standard input is read twice and fails", ["-", "-"] => "", input: b"in\n", fails: true, status: 1,
        most: Some("in\n"), messages: "m4: read fault\n";
    "a macro ends the run before standard input would fail", ["quit", "-"] => "", input: b"in\n",
        fails: true, status: 3, most: Some("");
};

// Lines whose output or messages have little room.
static WRITERS: [Row; 10] = lines! {
    "the output fills up in the second file", ["a", "c"] => "hi\nx", room: 4, status: 1,
        messages: "m4: write fault\n";
    "the output fills up after a message", ["none", "a"] => "hi", room: 2, status: 1,
        messages: "m4: cannot open `none'\nm4: write fault\n";
    "the messages fill up: a file that cannot be opened", ["none", "a"] => "", space: 5, status: 1,
        messages: "m4: c";
    "the messages fill up: a frozen file that cannot be opened", ["-R", "none", "a"] => "", space: 5,
        status: 1, messages: "m4: c";
    "the messages fill up: a frozen file with a fault", ["-R", "bad", "a"] => "", space: 5, status: 1,
        messages: "m4: b";
    "the messages fill up: a frozen file of a newer format", ["-R", "newer", "a"] => "", space: 5,
        status: 63, messages: "m4: n";
    "the canonical text fills the output", ["--canon=empty"] => "# m4", room: 4, status: 1,
        messages: "m4: write fault\n";
    "the lines of the inspector fill the output", ["--inspect=empty"] => "quot", room: 4, status: 1,
        messages: "m4: write fault\n";
    "the messages fill up: a canonical text of a file with a fault", ["--canon=bad"] => "", space: 5,
        status: 1, messages: "m4: b";
    "the messages fill up: an inspected file that cannot be opened", ["--inspect=none"] => "", space: 5,
        status: 1, messages: "m4: c";
};

// Lines whose outputs can't be flushed.
static FLUSHES: [Row; 8] = lines! {
    "a run with output alone", ["a"] => "hi\n", flushes: false, status: 1, messages: "m4: write fault\n";
    "a run with a message alone", ["none"] => "", flushes: false, status: 1,
        messages: "m4: cannot open `none'\nm4: write fault\n";
    "a run that a macro ends", ["quit"] => "", flushes: false, status: 1, messages: "m4: write fault\n";
    "a frozen file that cannot be opened", ["-R", "none"] => "", flushes: false, status: 1,
        messages: "m4: cannot open `none'\nm4: write fault\n";
    "a frozen file of a newer format", ["-R", "newer"] => "", flushes: false, status: 1,
        messages: "m4: newer: F2 Newer at byte 1\nm4: write fault\n";
    "the lines of the inspector", ["--inspect=empty"] => "quotes ` '\ncomments # \\0a\ncurrent 0\n",
        flushes: false, status: 1, messages: "m4: write fault\n";
    "a canonical text of a file of a newer format", ["--canon=newer"] => "", flushes: false, status: 63,
        messages: "m4: newer: F2 Newer at byte 1\n";
    "a canonical text of a file that cannot be opened", ["--canon=none"] => "", flushes: false, status: 1,
        messages: "m4: cannot open `none'\n";
};

#[test]
fn readers_and_last_flushes_fail(rt: HostRuntime) {
    compare(&rt, &READERS);
    compare(&rt, &FLUSHES);
}

#[test]
fn writers_fail(rt: HostRuntime) {
    compare(&rt, &WRITERS);
}
