//! Runs over several sources: files, one whose reader fails and one that isn't opened; and writers
//! that are full.

use super::given::{FAILED_READ, FAILED_WRITE, ROOM};
use super::rows::Given::{Failing, File, Missing};
use super::rows::{Given, Row, compare};
use m4_engine::ending::Cause;

static FILES: [Row; 4] = rows! {
    "no source", [] => "";
    "a definition of one file is called in the next",
        [File("define(`hi',`Hello $1.')dnl\n"), File("hi(`you')\n")] => "Hello you.\n";
    "no name and no call spans two files", [File("define(`f',`<$#>')dnl\nf"), File("(1)\n")] => "<0>(1)\n";
    "a string without an end ends the run", [File("one\n"), File("two `"), File("three\n")] => "one\ntwo ",
        messages: "m4:b.m4:1: ERROR: end of input in string\n", end: (1, Cause::EndInString, false);
};

// Files that are not opened, and runs that a macro ends.
static NOT_OPENED: [Row; 6] = rows! {
    "a file that isn't opened", [Missing("nofile"), File("z\n")] => "z\n",
        messages: "m4: cannot open `nofile'\n", end: (1, Cause::Done, false);
    "a macro ends the run: the next file is not read", [File("x m4exit(`3')y\n"), File("z\n")] => "x ",
        end: (3, Cause::Exited(3), false);
    "a macro ends the run with code 0 after a file that isn't opened",
        [Missing("nofile"), File("x m4exit()y\n")] => "x ",
        messages: "m4: cannot open `nofile'\nm4:b.m4:1: Warning: empty string treated as 0 in builtin `m4exit'\n",
        end: (1, Cause::Exited(0), false);
    "the same code, written out", [Missing("nofile"), File("x m4exit(`0')y\n")] => "x ",
        messages: "m4: cannot open `nofile'\n", end: (1, Cause::Exited(0), false);
    "a macro ends the run with code 3 after a file that isn't opened",
        [Missing("nofile"), File("m4exit(`3')")] => "", messages: "m4: cannot open `nofile'\n",
        end: (3, Cause::Exited(3), false);
    "a macro ends the run before a file that isn't opened", [File("m4exit"), Missing("nofile")] => "",
        end: (0, Cause::Exited(0), false);
};

// Readers that fail, and writers that are full.
static FAULTS: [Row; 7] = rows! {
    "a reader that fails: what an earlier file saved is not read",
        [File("m4wrap(`never')one\n"), Failing("two\n")] => "one\ntwo\n", end: FAILED_READ;
    "a reader that fails", [File("one\n"), Failing("two\n"), File("three\n")] => "one\ntwo\n",
        end: FAILED_READ;
    "a first reader that fails", [Failing("ab ")] => "ab ", end: FAILED_READ;
    "room for three bytes of output", [File("one two\n"), File("three\n")] => "one", room: (3, ROOM, ROOM),
        end: FAILED_WRITE;
    "room for five bytes of output", "one two\n" => "one t", room: (5, ROOM, ROOM), end: FAILED_WRITE;
    "room for five bytes, of which the last comes of a string", "abc `def' ghi\n" => "abc d",
        room: (5, 0, ROOM), end: FAILED_WRITE;
    "room for two bytes of messages", "x dnl(y)\nz\n" => "x ", room: (ROOM, 2, ROOM), messages: "m4",
        end: FAILED_WRITE;
};

// A file that is never read.
const NEVER: Given = File("never\n");

// A first reader that fails. What the bytes before that decide, whatever follows them, was written, and nothing else.
static OPEN_TOKENS: [Row; 5] = rows! {
    "a name may go on", [Failing("ab"), NEVER] => "", end: FAILED_READ;
    "a name has ended", [Failing("ab "), NEVER] => "ab ", end: FAILED_READ;
    "a comment has no end", [Failing("x#c"), NEVER] => "x", end: FAILED_READ;
    "a begin-quote is cut", [Failing("changequote(<<,>>)a<"), NEVER] => "a", end: FAILED_READ;
    "an end-quote is cut", [Failing("changequote(<<,>>)a<<b>"), NEVER] => "a", end: FAILED_READ;
};

static OPEN_CALLS: [Row; 8] = rows! {
    "an argument list is open", [Failing("ab define(`a"), NEVER] => "ab ", end: FAILED_READ;
    "a call may have a list", [Failing("define(`f',`x')f"), NEVER] => "", end: FAILED_READ;
    "a call has no list", [Failing("define(`f',`x')f "), NEVER] => "x ", end: FAILED_READ;
    "a name without a definition, before a begin-quote that is cut",
        [Failing("changequote(`((',`))')x("), NEVER] => "x", end: FAILED_READ;
    "a name with a definition, before a begin-quote that is cut",
        [Failing("define(`x',`y')changequote(`((',`))')z x("), NEVER] => "z ", end: FAILED_READ;
    "a line that is discarded goes on", [Failing("x dnl(y) z"), NEVER] => "x ", end: FAILED_READ,
        messages: "m4:a.m4:1: Warning: excess arguments to builtin `dnl' ignored\n";
    "diverted text is dropped", [Failing("divert(1)a\ndivert`'b "), NEVER] => "b ", end: FAILED_READ;
    "saved text is dropped", [Failing("m4wrap(`a')b "), NEVER] => "b ", end: FAILED_READ;
};

// A file with a call that has output and a message, after a string.
const AFTER_A_STRING: &str = "divert(1)text\ndivert`a'undivert(1,x)b\n";

// A file with such a call after plain text.
const AFTER_TEXT: &str = "divert(1)text\ndivert`'one undivert(1,x)b\n";

// The message of these calls.
const WARNS: &str = "m4:a.m4:2: Warning: non-numeric argument to builtin `undivert'\n";

// If a write fails, everything before it has to be written, and nothing after it. The order is: the
// output before a call, then its messages, then its own output.
static ORDER: [Row; 9] = rows! {
    "room for all", AFTER_A_STRING => "atext\nb\n", messages: WARNS;
    "no room for what comes before a call", AFTER_A_STRING => "", room: (0, ROOM, ROOM), end: FAILED_WRITE;
    "room for no text before a call but its beginning", AFTER_TEXT => "on", room: (2, ROOM, ROOM),
        end: FAILED_WRITE;
    "no room for the message of a call", AFTER_A_STRING => "a", room: (ROOM, 0, ROOM), end: FAILED_WRITE;
    "room for two bytes of the message of a call", AFTER_TEXT => "one ", room: (ROOM, 2, ROOM),
        messages: "m4", end: FAILED_WRITE;
    "no room for the output of a call", AFTER_TEXT => "one ", room: (4, ROOM, ROOM), messages: WARNS,
        end: FAILED_WRITE;
    "room for two bytes of the output of a call", AFTER_A_STRING => "ate", room: (3, ROOM, ROOM),
        messages: WARNS, end: FAILED_WRITE;
    "no room for the output after a file that isn't opened",
        [File("one\n"), Missing("nofile"), File("two\n")] => "one\n", room: (4, ROOM, ROOM),
        messages: "m4: cannot open `nofile'\n", end: FAILED_WRITE;
    "no room for the diversions at the end", "divert(1)text\ndivert(`x')" => "", room: (0, ROOM, ROOM),
        messages: "m4:a.m4:2: Warning: non-numeric argument to builtin `divert'\n", end: FAILED_WRITE;
};

#[test]
fn sources_in_their_order(rt: HostRuntime) {
    compare(&rt, &FILES);
    compare(&rt, &NOT_OPENED);
    compare(&rt, &FAULTS);
}

#[test]
fn output_up_to_a_failure(rt: HostRuntime) {
    compare(&rt, &ORDER);
    compare(&rt, &OPEN_TOKENS);
    compare(&rt, &OPEN_CALLS);
}
