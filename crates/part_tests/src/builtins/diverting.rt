//! Calls of the builtins that divert and undivert text. Manual: "Diverting output", "Undiverting
//! output", "Diversion numbers".

use super::Argument;
use super::steps::{Row, Step, tried};
use crate::given::Given;

static DIVERT: [Row; 5] = step_rows! {
    "divert chooses a number, and 0 without one",
        [Call("divert", &["2"]), Call("divnum", &[]), Call("divert", &["-1"]), Call("divnum", &[]),
         Call("divert", &[]), Call("divnum", &[])] => "push 2\npush -1\npush 0\n";
    "what is no number changes nothing", [Call("divert", &["2"]), Call("divert", &["x"]), Call("divnum", &[])] =>
        "m4:a.m4:1: Warning: non-numeric argument to builtin `divert'\npush 2\n";
    "an empty argument is 0", [Call("divert", &["2"]), Call("divert", &[""]), Call("divnum", &[])] =>
        "m4:a.m4:1: Warning: empty string treated as 0 in builtin `divert'\npush 0\n";
    "a definition is an empty argument", [With(1, "divert", &[Argument::Definition(Given::Named("dnl"))])] =>
        "m4:a.m4:1: Warning: empty string treated as 0 in builtin `divert'\n";
    "arguments above the most", [Call("divert", &["x", "1"]), Call("divnum", &[""])] =>
        "m4:a.m4:1: Warning: excess arguments to builtin `divert' ignored\n\
         m4:a.m4:1: Warning: non-numeric argument to builtin `divert'\npush 0\n\
         m4:a.m4:1: Warning: excess arguments to builtin `divnum' ignored\n";
};

static UNDIVERT: [Row; 4] = step_rows! {
    "all diversions by rising number",
        [Call("divert", &["7"]), Add("seven"), Call("divert", &["5"]), Add("five"), Call("divert", &[]),
         Call("undivert", &[]), Call("undivert", &[])] => "output fiveseven\n";
    "all but the current one, which they are added to",
        [Call("divert", &["7"]), Add("seven"), Call("divert", &["5"]), Add("five"), Call("divert", &["6"]),
         Add("six"), Call("undivert", &[]), Call("divert", &[]), Call("undivert", &["6"])] =>
        "output sixfiveseven\n";
    "one diversion to another, and it to the output",
        [Call("divert", &["1"]), Add("a\n"), Call("divert", &["2"]), Add("b\n"), Call("undivert", &["1"]),
         Call("divert", &["0"]), Call("undivert", &["2"]), Call("divnum", &[])] => "output b\na\n\npush 0\n";
    "a bad number is passed over",
        [Call("divert", &["1"]), Add("one"), Call("divert", &["2"]), Add("two"), Call("divert", &[]),
         Call("undivert", &["2", "x", "", " 1"])] =>
        "output twoone\nm4:a.m4:1: Warning: non-numeric argument to builtin `undivert'\n\
         m4:a.m4:1: Warning: empty string treated as 0 in builtin `undivert'\n";
};

#[test]
fn text_is_diverted_and_brought_back(rt: HostRuntime) {
    tried(&rt, rt.alloc(), &DIVERT);
    tried(&rt, rt.alloc(), &UNDIVERT);
}
