//! Files that warn, or that end inside something unfinished: output, messages and the cause.

use super::rows::{Row, compare};
use m4_engine::ending::Cause;

static ROWS: [Row; 8] = rows! {
    "excess arguments", "define(`a',`b',`c')a\n" => "b\n",
        messages: "m4:a.m4:1: Warning: excess arguments to builtin `define' ignored\n";
    "a number of a diversion that is none", "divert(`x')y\n" => "y\n",
        messages: "m4:a.m4:1: Warning: non-numeric argument to builtin `divert'\n";
    "a definition that is shown without quotes", "define(`a b',`1')changequote(,)dumpdef(a b)\n" =>
        "\n", messages: "a b:\t1\n";
    "a string without an end, from the third line on", "x\n\n`ab\nc" => "x\n\n",
        messages: "m4:a.m4:3: ERROR: end of input in string\n", end: (1, Cause::EndInString, false);
    "a string without an end, at once", "`abc" => "",
        messages: "m4:a.m4:1: ERROR: end of input in string\n", end: (1, Cause::EndInString, false);
    "a comment without an end", "x\n# a `b'" => "x\n",
        messages: "m4:a.m4:2: ERROR: end of input in comment\n",
        end: (1, Cause::EndInComment, false);
    "a list without an end", "define(`f',`$1')\nf(a\n" => "\n",
        messages: "m4:a.m4:2: ERROR: end of input in argument list\n",
        end: (1, Cause::EndInArguments, false);
    "a list within a list without an end", "define(`f',`$1')\nf(\nf(a\n)" => "\n",
        messages: "m4:a.m4:2: ERROR: end of input in argument list\n",
        end: (1, Cause::EndInArguments, false);
};

#[test]
fn files_that_warn_or_break_off(rt: HostRuntime) {
    compare(&rt, &ROWS);
}
