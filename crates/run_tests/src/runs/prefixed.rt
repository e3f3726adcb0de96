//! Runs whose builtins have names with a prefix. Manual: "Invoking m4" (`--prefix-builtins`).

use super::rows::{Row, Start, compare};

static ROWS: [Row; 5] = rows! {
    "a builtin under its name with the prefix", "m4_define(`a',`b')a define(`a',`c')\n" =>
        "b define(a,c)\n", prefix: true;
    "the platform's names have no prefix",
        "m4_ifdef(`__unix__',`y',`n') m4_ifdef(`m4___unix__',`y',`n') m4___line__\n" => "y n 1\n",
        prefix: true;
    "a builtin is called by its own name, and messages show that",
        "m4_builtin(`incr',`x')m4_indir(`m4_incr',`4') m4_builtin(`m4_incr',`4')\n" => "5 \n",
        prefix: true, messages: "m4:a.m4:1: Warning: non-numeric argument to builtin `incr'\n\
         m4:a.m4:1: Warning: undefined builtin `m4_incr'\n";
    "a frozen file decides alone", "a m4_define\n" => "b m4_define\n",
        start: Start::Frozen("V1\nT1,1\nab\n"), prefix: true;
    "and so it does where it has a builtin", "incr(1) m4_incr(1)\n" => "2 m4_incr(1)\n",
        start: Start::Frozen("V1\nF4,4\nincrincr\n"), prefix: true;
};

#[test]
fn builtins_with_prefixes(rt: HostRuntime) {
    compare(&rt, &ROWS);
}
