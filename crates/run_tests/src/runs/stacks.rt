//! Runs with stacks of definitions, indirect calls and branches. Manual: "Temporarily redefining macros",
//! "Renaming macros", "Indirect call of macros", "Indirect call of builtins", "Testing if a macro is
//! defined", "If-else construct, or multibranch", "Recursion in m4", "Displaying macro definitions".

use super::rows::{Row, compare};

static ROWS: [Row; 9] = rows! {
    "a definition on top of another, which is taken away again",
        "define(`t',`1')pushdef(`t',`2')ifdef(`t',`y',`n') t popdef(`t')t\n" => "y 2 1\n";
    "pairs are compared one after another",
        "ifelse(a,b,`1',c,c,`2',`3') ifelse(a,b,`1',`2') ifelse(a,b,c,d,e)\n" => "2 2 d\n",
        messages: "m4:a.m4:1: Warning: excess arguments to builtin `ifelse' ignored\n";
    "macros and builtins are called by a name that is an argument",
        "indir(`define',`a b',`<$0:$1>')indir(`a b',`x') builtin(`shift',`p',`q') indir(`no')\n" =>
        "<a b:x> q \n", messages: "m4:a.m4:1: Warning: undefined macro `no'\n";
    "texts of several names are joined, and a builtin among them is left out",
        "define(`x',`1')define(`y',defn(`x',`dnl',`x'))y\n" => "11\n",
        messages: "m4:a.m4:1: Warning: builtin dropped from text\n";
    "a list is reversed by a recursion",
        "define(`rev',`ifelse($#,1,``$1'',`rev(shift($@)),`$1'')')rev(a,b,c)\n" => "c,b,a\n";
    "definitions are shown in the order of their names",
        "define(`b',`2')define(`a',`1')dumpdef(`b',`a',`dnl',`z')\n" => "\n",
        messages: "m4:a.m4:1: Warning: undefined macro `z'\na:\t`1'\nb:\t`2'\ndnl:\t<dnl>\n";
    "an indirect call of an indirect call",
        "define(`a b',`<$0|$1>')indir(`indir',`builtin',`indir',`a b',`x')\n" => "<a b|x>\n";
    "a definition that is an argument alone is that definition",
        "define(`d',defn(`dnl'))a d b\nc\n" => "a c\n";
    "outside of an argument a definition is nothing, and beside text it is dropped",
        "[defn(`dnl')] define(`x',`a'defn(`dnl'))x\n" => "[] a\n",
        messages: "m4:a.m4:1: Warning: builtin dropped from text\n";
};

#[test]
fn definitions_are_stacked_and_called_by_name(rt: HostRuntime) {
    compare(&rt, &ROWS);
}
