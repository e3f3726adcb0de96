//! Calls that count, print messages, expand to their place, save text or end the run, and calls with
//! too few arguments that still expand to a text. Manual: "Decrement and increment operators",
//! "Printing error messages", "Printing current location", "Saving text until end of input",
//! "Exiting from m4".

use super::Argument;
use super::steps::Warning::{Empty, Few};
use super::steps::{Pushes, Row, Step, Warns, pushed, tried, warned};
use crate::given::Given;

// Calls in line 1 of `a.m4`, and of others in line 7.
static COUNTED: [Pushes; 2] = rows! {
    "incr", &["4"] => "5";
    "after the greatest number comes the least", &["2147483647"] => "-2147483648";
};

static WARNED_COUNTED: [Warns; 2] = rows! {
    "an empty argument is 0", &[""], Some("-1") => Empty;
    "no argument", &[], None => Few;
};

static OTHER_COUNTED: [Row; 4] = step_rows! {
    "decr", [At(7, "decr", &["-7"])] => "push -8\n";
    "before the least number comes the greatest", [At(7, "decr", &["-2147483648"])] => "push 2147483647\n";
    "a definition is an empty argument", [With(7, "incr", &[Argument::Definition(Given::Named("dnl"))])] =>
        "push 1\nm4:a.m4:7: Warning: empty string treated as 0 in builtin `incr'\n";
    "what is no number gives nothing", [At(7, "incr", &["x"])] =>
        "m4:a.m4:7: Warning: non-numeric argument to builtin `incr'\n";
};

static PLACES: [Row; 5] = step_rows! {
    "errprint joins its arguments by spaces", [At(7, "errprint", &["a", "", "b\n"])] => "a  b\n";
    "errprint without arguments", [At(7, "errprint", &[])] => "";
    "the file, between quotes", [At(7, "__file__", &[])] => "push `a.m4'\n";
    "the line", [At(7, "__line__", &[])] => "push 7\n";
    "the line takes no argument", [At(7, "__line__", &["x"])] =>
        "push 7\nm4:a.m4:7: Warning: excess arguments to builtin `__line__' ignored\n";
};

static ENDINGS: [Row; 8] = step_rows! {
    "m4wrap joins its arguments by spaces", [At(7, "m4wrap", &["a", "b"])] => "wrap a b\n";
    "m4wrap saves an empty text too", [At(7, "m4wrap", &[])] => "wrap \n";
    "m4exit without a code", [At(7, "m4exit", &[])] => "exit 0\n";
    "the greatest code", [At(7, "m4exit", &["255"])] => "exit 255\n";
    "one above the greatest code", [At(7, "m4exit", &["256"])] =>
        "m4:a.m4:7: Warning: exit status out of range\nexit 1\n";
    "a code below 0", [At(7, "m4exit", &["-1"])] => "m4:a.m4:7: Warning: exit status out of range\nexit 1\n";
    "an empty code", [At(7, "m4exit", &[""])] =>
        "m4:a.m4:7: Warning: empty string treated as 0 in builtin `m4exit'\nexit 0\n";
    "a code that is no number", [At(7, "m4exit", &["x"])] =>
        "m4:a.m4:7: Warning: non-numeric argument to builtin `m4exit'\nexit 1\n";
};

static FEW_ARGUMENTS: [Row; 3] = step_rows! {
    "index of one argument", [At(7, "index", &["abc"])] =>
        "push 0\nm4:a.m4:7: Warning: too few arguments to builtin `index'\n";
    "substr of one argument", [At(7, "substr", &["abc"])] =>
        "push abc\nm4:a.m4:7: Warning: too few arguments to builtin `substr'\n";
    "substr of one definition", [With(7, "substr", &[Argument::Definition(Given::Named("dnl"))])] =>
        "push \nm4:a.m4:7: Warning: too few arguments to builtin `substr'\n";
};

// Calls in wrapped text, which has no place.
static WRAPPED: [Row; 2] = step_rows! {
    "the file in wrapped text", [Other(Given::Named("__file__"), "__file__", &[], ("", 0))] => "push `'\n";
    "the line in wrapped text", [Other(Given::Named("__line__"), "__line__", &[], ("", 0))] => "push 0\n";
};

#[test]
fn effects_of_calls(rt: HostRuntime) {
    pushed(&rt, rt.alloc(), "incr", &COUNTED);
    warned(&rt, rt.alloc(), "decr", &WARNED_COUNTED);
    tried(&rt, rt.alloc(), &OTHER_COUNTED);
    tried(&rt, rt.alloc(), &PLACES);
    tried(&rt, rt.alloc(), &WRAPPED);
    tried(&rt, rt.alloc(), &ENDINGS);
    tried(&rt, rt.alloc(), &FEW_ARGUMENTS);
}
