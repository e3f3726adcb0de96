//! Calls of each builtin, of a text and of a placeholder: their effects, and the state after them.
//! Manual: "Defining a macro", "Deleting a macro", "Temporarily redefining macros", "Renaming macros",
//! "Indirect call of builtins", "If-else construct, or multibranch", "Recursion in m4", "Deleting
//! whitespace in input", "Changing the quote characters", "Changing the comment delimiters".

use super::Argument;
use super::steps::Warning::{Few, Many};
use super::steps::{Row, Step, Warns, tried, warned};
use crate::given::Given;

// Calls in an empty state.
static WARNED_DEFINE: [Warns; 2] = rows! {
    "define with three arguments", &["f", "x", "y"], None => Many;
    "define with none", &[], None => Few;
};

static CALLS: [Row; 7] = step_rows! {
    "define with a name and a text", [Call("define", &["f", "x"])] => "";
    "define with a name alone", [Call("define", &["f"])] => "";
    "undefine with three names", [Call("undefine", &["f", "g", "h"])] => "";
    "undefine with none", [Call("undefine", &[])] =>
        "m4:a.m4:1: Warning: too few arguments to builtin `undefine'\n";
    "dnl", [Call("dnl", &[])] => "skip\n";
    "dnl with an argument", [Call("dnl", &[""])] =>
        "skip\nm4:a.m4:1: Warning: excess arguments to builtin `dnl' ignored\n";
    "changecom with three arguments", [Call("changecom", &["a", "b", "c"])] =>
        "m4:a.m4:1: Warning: excess arguments to builtin `changecom' ignored\n";
};

static DEFINITIONS: [Row; 2] = step_rows! {
    "define replaces the definition",
        [Call("define", &["f", "old"]), Look("f"), Call("define", &["f"]), Look("f"),
         Call("define", &["f", "new", "more"]), Look("f")] =>
        "f: 1, text old\nf: 1, text \nm4:a.m4:1: Warning: excess arguments to builtin `define' ignored\n\
         f: 1, text new\n";
    "undefine takes each name away",
        [Fresh, Call("undefine", &["dnl", "missing", "changecom"]), Look("dnl"), Look("changecom"), Count] =>
        "dnl: 0\nchangecom: 0\n29 names\n";
};

static DELIMITERS: [Row; 2] = step_rows! {
    "changequote",
        [Call("changequote", &["[", "]"]), Quotes, Call("changequote", &["<"]), Quotes, Call("changequote", &[""]),
         Quotes, Call("changequote", &["", "x"]), Quotes, Call("changequote", &[]), Quotes] =>
        "[ and ]\n< and '\n and \n and \n` and '\n";
    "changecom",
        [Call("changecom", &["/*", "*/"]), Comments, Call("changecom", &["//"]), Comments, Call("changecom", &[]),
         Comments] => "/* and */\n// and \n\n and \n";
};

// A definition where a name should be, and two texts.
const NO_NAME: [Argument; 3] = [
    Argument::Definition(Given::Named("dnl")),
    Argument::Text("x"),
    Argument::Text("y"),
];

// Calls of any definition in an empty state, and the number of names after them.
static OTHERS: [Row; 3] = step_rows! {
    "a definition is no name",
        [Other(Given::Named("define"), "define", &NO_NAME, ("", 0)), Count] =>
        "m4: Warning: excess arguments to builtin `define' ignored\n\
         m4: Warning: invalid macro name ignored in builtin `define'\n0 names\n";
    "a text that names all that it can",
        [Other(Given::Text("$0:$2$1$@"), "f", &[Argument::Text("a"), Argument::Text("b")], ("a.m4", 1)), Count] =>
        "push f:ba`a',`b'\n0 names\n";
    "a placeholder under another name",
        [Other(Given::Named("regexp"), "match", &[Argument::Text("a")], ("b.m4", 1)), Count] =>
        "m4:b.m4:1: Warning: builtin `regexp' requested by frozen file is not supported\n0 names\n";
};

#[test]
fn calls_and_the_state_after_them(rt: HostRuntime) {
    warned(&rt, rt.alloc(), "define", &WARNED_DEFINE);
    tried(&rt, rt.alloc(), &CALLS);
    tried(&rt, rt.alloc(), &DEFINITIONS);
    tried(&rt, rt.alloc(), &DELIMITERS);
    tried(&rt, rt.alloc(), &OTHERS);
}
