//! Files that are read to their end without a message, and how many calls they make: if one call less is
//! allowed, the run ends early.

use super::rows::{Row, compare, seen_of};
use super::shows::shows;
use part_tests::report::Report;
use std::alloc::{AllocError, Global};
use std::process::Abort;

// Tokens: names, strings, comments and bytes.
static TOKENS: [Row; 7] = rows! {
    "an empty file", "" => "", limits: (0, 1024);
    "no call", "no call: (a, `b') 1+2\n" => "no call: (a, b) 1+2\n", limits: (0, 1024);
    "a string holds no call", "define(`f',`x')`f' ``f''\n" => "f `f'\n", limits: (1, 1024);
    "a comment holds no call", "define(`f',`x')# `f' f\nf\n" => "# `f' f\nx\n", limits: (2, 1024);
    "a name after a digit", "define(`a',`x')1a+'(,)\n" => "1x+'(,)\n", limits: (2, 1024);
    "a text joins the bytes after it, but not after a string",
        "define(`a',`x')define(`xy',`Z')a`'y a()y\n" => "xy Z\n", limits: (5, 1024);
    "a name is the longest run", "define(`f',`x')ff _f f_ f1 f.f\n" => "ff _f f_ f1 x.x\n",
        limits: (3, 1024);
};

// Calls after others that had more arguments, longer ones, or definitions for arguments.
static LATER: [Row; 2] = rows! {
    "a call has its own arguments, and none of an earlier call",
        "define(`f',`<$#:$@>')f(1,2,  3,4)f(`x')f()f f((5, 6), ( 7))\n" =>
        "<4:1,2,3,4><1:x><1:><0:> <2:(5, 6),( 7)>\n", limits: (6, 1024);
    "a definition is an argument of its own call alone",
        "define(`d',defn(`len'))define(`e',`$1')d(abc)e(x) e()e(d(yz))\n" => "3x 2\n",
        limits: (8, 1024);
};

// Calls: their arguments, and their expansions.
static CALLS: [Row; 12] = rows! {
    "blanks in front of an argument are dropped", "define(`f',`$1$1')f( a , b)\n" => "a a \n",
        limits: (2, 1024);
    "parentheses within an argument", "define(`f',`$#:$1')f((a,b),c)\n" => "2:(a,b)\n",
        limits: (2, 1024);
    "a comment within an argument", "define(`f',`<$1>')f(a#,)\n)\n" => "<a#,)\n>\n",
        limits: (2, 1024);
    "with a list and without", "define(`f',``$0':$#')f f()\n" => "f:0 f:1\n", limits: (3, 1024);
    "how many, all of them, the eleventh", "define(`g',`[$#|$*|$2$11|$x]')g(a,`b',)\n" =>
        "[3|a,b,|b|$x]\n", limits: (2, 1024);
    "all of them with quotes and without", "define(`g',`[$*] [$@]')g(a,``b'')\n" =>
        "[a,b] [a,`b']\n", limits: (2, 1024);
    "one within another", "define(`f',`$1')f(f(f(`x')))\n" => "x\n", limits: (4, 1024);
    "a blank after a call that gives nothing stays", "define(`e',`')define(`f',`[$1]')f(e x)\n" =>
        "[ x]\n", limits: (4, 1024);
    "a definition that is changed while the list is read",
        "define(`f',`first')f(define(`f',`second')) f\n" => "first second\n", limits: (4, 1024);
    "a string within an argument", "define(`f',`<$1>')f(`a, b' c)\n" => "<a, b c>\n",
        limits: (2, 1024);
    "an argument has nothing of those before it",
        "define(`f',`[$1|$2]')f(`a long text',`x')f(b)f()\n" => "[a long text|x][b|][|]\n",
        limits: (4, 1024);
    "blanks and parentheses around and within arguments",
        "define(`f',`$#[$1][$2]')f( (a , (b)) c,\n\t d e )\n" => "2[(a , (b)) c][d e ]\n",
        limits: (2, 1024);
};

// Arguments: what is dropped in front of them, and what stays.
static ARGUMENTS: [Row; 5] = rows! {
    "white space of each kind in front of an argument is dropped",
        "define(`f',`<$1|$2|$3>')f(\n\ta,\r b,\x0b\x0cc)\n" => "<a|b|c>\n", limits: (2, 1024);
    "white space after a call stays", "define(`g',`')define(`f',`<$1>')f(g() y)f(g y)\n" =>
        "< y>< y>\n", limits: (6, 1024);
    "and after a parenthesis, and after an empty string", "define(`f',`<$1>')f(( a))f(`' x)\n" =>
        "<( a)>< x>\n", limits: (3, 1024);
    "commas and parentheses in strings", "define(`f',`$#')f(`a,b',c)f(`(',`)')\n" => "22\n",
        limits: (3, 1024);
    "a dollar at the end of a text", "define(`f',`a$')f()\n" => "a$\n", limits: (2, 1024);
};

// Comments with their delimiters.
static COMMENTS: [Row; 7] = rows! {
    "changecom with two arguments", "define(`f',`x')changecom(<,>)<f>f#f\n" => "<f>x#x\n",
        limits: (4, 1024);
    "changecom with one", "define(`f',`x')changecom(<)<f>\nf#f\n" => "<f>\nx#x\n",
        limits: (4, 1024);
    "changecom with an empty begin", "define(`f',`x')changecom(,>)#f>changecom()#f\n" => "#x>#x\n",
        limits: (5, 1024);
    "changecom without a list, and with the usual begin",
        "define(`f',`x')changecom#f changecom(`#')#f\n" => "#x #f\n", limits: (4, 1024);
    "a comment's end belongs to it", "define(`f',`x')changecom(`<',`f')<a f f\n" => "<a f x\n",
        limits: (3, 1024);
    "a comment comes before a name", "define(`rem',`x')changecom(`rem')rem rem\nremark\n" =>
        "rem rem\nremark\n", limits: (2, 1024);
    "a parenthesis that begins a comment", "define(`f',`<$#>')changecom(`(',`)')f(a)f\n" =>
        "<0>(a)<0>\n", limits: (4, 1024);
};

// Names, and strings with their quotes.
static QUOTES: [Row; 5] = rows! {
    "changequote with an empty begin", "changequote(,])`b']changequote()`b'\n" => "`b']`b'\n",
        limits: (2, 1024);
    "quotes of two bytes nest", "changequote(<<,>>)<<a<<b>>c>>|\n" => "a<<b>>c|\n",
        limits: (1, 1024);
    "a name comes before a string", "changequote(`q',`Q')qaQ q\n" => "qaQ q\n", limits: (1, 1024);
    "a parenthesis that begins a string", "define(`f',`<$#>')changequote(`(',`)')f(a)f\n" =>
        "<0>a<0>\n", limits: (4, 1024);
    "the first and the last letter and digit, and an underscore",
        "define(`azAZ_09',`x')azAZ_09 zazAZ_09 azAZ_090 define(`_',`y')_ _0 0_\n" =>
        "x zazAZ_09 azAZ_090 y _0 0y\n", limits: (5, 1024);
};

// The builtins, with and without their lists.
static BUILTINS: [Row; 10] = rows! {
    "dnl", "a dnl b\nc\n" => "a c\n", limits: (1, 1024);
    "dnl in the last line", "a dnl " => "a ", limits: (1, 1024);
    "builtins that need a list are text without one", "define dnl\nundefine `a'\n" =>
        "define undefine a\n", limits: (1, 1024);
    "define again, and undefine", "define(`f',`x')define(`f',`y')f undefine(`f')f\n" => "y f\n",
        limits: (4, 1024);
    "undefine before the first call", "define(`a',`b')undefine(`a')a\n" => "a\n", limits: (2, 1024);
    "changequote, and its own quotes without a list", "changequote([,])[a]changequote `b'\n" =>
        "a b\n", limits: (2, 1024);
    "changequote within a definition", "changequote([,])define([f],[`$1'])f(x)\n" => "`x'\n",
        limits: (3, 1024);
    "changequote with a begin alone", "changequote(<)<a'\n" => "a\n", limits: (1, 1024);
    "changequote to nothing", "changequote(,)`a' [b]\n" => "`a' [b]\n", limits: (1, 1024);
    "changecom without a list", "define(`f',`x')changecom# f\n" => "# x\n", limits: (3, 1024);
};

// Reports how a row ends with this limit of calls.
fn cause_with(alloc: Global, row: &Row, calls: u64) -> Result<Vec<u8>, AllocError> {
    let limits = (calls, row.limits.1);
    let seen = seen_of(alloc, &Row { limits, ..*row }, 4096)?;
    let mut report = Report::new(alloc);
    report.print(&seen.end.1);
    report.text()
}

// Compares the rows of a table; then how each row that makes a call ends with one call less.
fn compare_counted(rt: &(impl Abort + Alloc<A = Global>), rows: &[Row]) {
    compare(rt, rows);
    for row in rows {
        let calls = row.limits.0;
        if calls > 0 {
            let cause = cause_with(rt.alloc(), row, calls - 1);
            shows(rt, row.name, b"ExpansionLimit", cause);
        }
    }
}

#[test]
fn tokens_are_copied_and_calls_read_again(rt: HostRuntime) {
    compare_counted(&rt, &TOKENS);
    compare_counted(&rt, &CALLS);
    compare_counted(&rt, &LATER);
    compare_counted(&rt, &ARGUMENTS);
}

#[test]
fn delimiters_and_builtins_change_what_follows(rt: HostRuntime) {
    compare_counted(&rt, &COMMENTS);
    compare_counted(&rt, &QUOTES);
    compare_counted(&rt, &BUILTINS);
}
