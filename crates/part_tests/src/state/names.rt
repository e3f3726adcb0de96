//! Names and their definitions: changes of a state, and what it then has under each name.
//! Manual: "Defining a macro", "Deleting a macro", "Temporarily redefining macros".

use super::steps::{Row, Step, compare, report_of};
use crate::given::Given::{Named, Text};
use crate::shows::shows;

// The order of names.
static ORDERS: [Row; 3] = step_rows! {
    "an empty state", [Look("a")] => "a\n";
    "a name that is defined again has its place in the order again",
        [Define("b", Text("1")), Define("a", Text("2")), Define("c", Text("3")), Undefine("b"),
         Define("b", Text("4"))] => "a, text 2; 1\nb, text 4; 1\nc, text 3; 1\n";
    "one call returns all names with their definitions, in byte order",
        [LookAtAll, Push("b", Text("old")), Push("", Named("dnl")), Push("ba", Text("")),
         Push("b", Named("format")), LookAtAll, Pop("ba"), Undefine(""), Pop("b"), LookAtAll] =>
        ", builtin dnl\nb, text old, placeholder format\nba, text \nb, text old\nb, text old; 3\n";
};

// Definitions that are pushed.
static PUSHED: [Row; 2] = step_rows! {
    "a text is pushed with its name before it, short or long",
        [PushText("xa text of thirty bytes or more", 1), PushText("xnew", 1), PushText("", 0),
         PushText("a name of twenty-three.text", 23), PushText("a name of twenty-two...", 22),
         PushText("no text", 7)] =>
        ", text ; 0\na name of twenty-three., text text; 4\na name of twenty-two.., text .; 1\nno text, text ; 0\n\
         x, text a text of thirty bytes or more, text new; 3\n";
    "the newest definition is on top", [Push("x", Text("old")), Push("x", Named("format"))] =>
        "x, text old, placeholder format; 6\n";
};

// Definitions that are taken away or replaced.
static STACKS: [Row; 3] = step_rows! {
    "names of one length, with the same first, middle and last byte, are told apart",
        [Define("axcye", Text("1")), Look("azcwe"), Define("azcwe", Text("2")), Undefine("axcye"),
         Look("axcye")] => "azcwe\naxcye\nazcwe, text 2; 1\n";
    "the newest definition is taken away, and the name with the last one",
        [Push("x", Text("old")), Push("x", Text("new")), Push("y", Text("1")), Pop("x"),
         Look("x"), Pop("x"), Pop("x"), Pop("missing"), Look("x")] => "x, text old; 3\nx\ny, text 1; 1\n";
    "a definition replaces the newest one, an undefinition takes all away",
        [Push("x", Text("old")), Push("x", Text("new")), Define("x", Text("newest")),
         Define("a", Named("dnl")), Look("x"), Undefine("x"), Undefine("y"), Look("x")] =>
        "x, text old, text newest; 6\nx\na, builtin dnl; 3\n";
};

// What a fresh state has.
static FRESH: [Row; 1] = step_rows! {
    "a fresh state has its builtins, and two names without text", [Fresh] =>
        "__file__, builtin __file__; 8\n\
         __gnu__, text ; 0\n\
         __line__, builtin __line__; 8\n\
         __unix__, text ; 0\n\
         builtin, builtin builtin; 7\n\
         changecom, builtin changecom; 9\n\
         changequote, builtin changequote; 11\n\
         decr, builtin decr; 4\n\
         define, builtin define; 6\n\
         defn, builtin defn; 4\n\
         divert, builtin divert; 6\n\
         divnum, builtin divnum; 6\n\
         dnl, builtin dnl; 3\n\
         dumpdef, builtin dumpdef; 7\n\
         errprint, builtin errprint; 8\n\
         eval, builtin eval; 4\n\
         ifdef, builtin ifdef; 5\n\
         ifelse, builtin ifelse; 6\n\
         incr, builtin incr; 4\n\
         index, builtin index; 5\n\
         indir, builtin indir; 5\n\
         len, builtin len; 3\n\
         m4exit, builtin m4exit; 6\n\
         m4wrap, builtin m4wrap; 6\n\
         popdef, builtin popdef; 6\n\
         pushdef, builtin pushdef; 7\n\
         shift, builtin shift; 5\n\
         substr, builtin substr; 6\n\
         translit, builtin translit; 8\n\
         undefine, builtin undefine; 8\n\
         undivert, builtin undivert; 8\n";
};

// Names that begin with 15 to 40 bytes in common.
static ALIKE: [Row; 1] = step_rows! {
    "names that begin with 15 to 40 bytes in common",
        [Push("ffffffffffffffffffffffffffffffffffffffffx", Text("")),
         Push("ffffffffffffffff", Text("")),
         Push("ffffffffffffffffffffffffffffffffffffffff", Text("")),
         Push("ffffffffffffffff\x00", Text("")),
         Push("ffffffffffffffffffffffffffffffffffffffffabcdefgh", Text("")),
         Push("ffffffffffffffffffffffffffffffffa", Text("")),
         Push("ffffffffffffffffffffffffffffffffffffffffabcdefghi", Text("")),
         Push("fffffffffffffff", Text("")),
         Push("fffffffffffffffff", Text("")),
         Push("ffffffffffffffffffffffffffffffffffffffffab", Text(""))] =>
        "fffffffffffffff, text ; 0\n\
         ffffffffffffffff, text ; 0\n\
         ffffffffffffffff\x00, text ; 0\n\
         fffffffffffffffff, text ; 0\n\
         ffffffffffffffffffffffffffffffffa, text ; 0\n\
         ffffffffffffffffffffffffffffffffffffffff, text ; 0\n\
         ffffffffffffffffffffffffffffffffffffffffab, text ; 0\n\
         ffffffffffffffffffffffffffffffffffffffffabcdefgh, text ; 0\n\
         ffffffffffffffffffffffffffffffffffffffffabcdefghi, text ; 0\n\
         ffffffffffffffffffffffffffffffffffffffffx, text ; 0\n";
};

#[test]
fn names_and_their_definitions(rt: HostRuntime) {
    compare(&rt, rt.alloc(), &ORDERS);
    compare(&rt, rt.alloc(), &PUSHED);
    compare(&rt, rt.alloc(), &STACKS);
    compare(&rt, rt.alloc(), &FRESH);
    compare(&rt, rt.alloc(), &ALIKE);
}

// Names of the least and the greatest byte among others, each with both definitions.
static ORDERED: [Step; 12] = [
    Step::Push("b", Text("1")),
    Step::Push("b", Text("2")),
    Step::PushByte(255, Text("1")),
    Step::PushByte(255, Text("2")),
    Step::Push("", Text("1")),
    Step::Push("", Text("2")),
    Step::Push("ab", Text("1")),
    Step::Push("ab", Text("2")),
    Step::Push("a", Text("1")),
    Step::Push("a", Text("2")),
    Step::Push("\x00", Text("1")),
    Step::Push("\x00", Text("2")),
];

#[test]
fn names_are_in_byte_order(rt: HostRuntime) {
    shows(
        &rt,
        "names are in byte order, with both definitions",
        b", text 1, text 2; 1\n\
          \x00, text 1, text 2; 1\n\
          a, text 1, text 2; 1\n\
          ab, text 1, text 2; 1\n\
          b, text 1, text 2; 1\n\
          \xff, text 1, text 2; 1\n",
        report_of(rt.alloc(), &ORDERED),
    );
}
