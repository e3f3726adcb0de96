//! The bytes after a dollar. Manual: "Arguments to macros", "Pseudo arguments".

use super::{Argument, call_of, text_call_of};
use crate::given::Given;
use crate::report::joined;
use crate::shows::shows;
use m4_builtins::args::Args;
use m4_builtins::substitute::substitute;
use std::alloc::{AllocError, Global};

// Quotes, the first and the last.
type Quotes = (&'static str, &'static str);

const USUAL: Quotes = ("`", "'");

// A row's name, a text, the arguments, the quotes, and the expansion of the text under the name `f`.
type Row = (
    &'static str,
    &'static str,
    &'static [&'static str],
    Quotes,
    &'static str,
);

static ROWS: [Row; 16] = rows! {
    "an empty text", "", &["a"], USUAL => "";
    "text with no dollar", "plain # text\x00\n", &["a"], USUAL => "plain # text\x00\n";
    "an argument twice", "$1$1", &["a"], USUAL => "aa";
    "an argument that is missing", "<$2>", &["a"], USUAL => "<>";
    "how many, all of them, and a letter after a dollar", "$#|$*|$2$11|$x", &["a", "b", ""], USUAL => "3|a,b,|b|$x";
    "the name", "$0($1)", &["a"], USUAL => "f(a)";
    "all of them in quotes", "$@", &["a", "", "$1"], USUAL => "`a',`',`$1'";
    "no arguments", "$#$*$@", &[], USUAL => "0";
    "a dollar after a dollar", "$$1$", &["a"], USUAL => "$a$";
    "a dollar at the end", "end$", &["a"], USUAL => "end$";
    "a number with a zero in front", "$01", &["a"], USUAL => "a";
    "the tenth argument", "$10", &["1", "2", "3", "4", "5", "6", "7", "8", "9", "x"], USUAL => "x";
    "2^64", "$18446744073709551616!", &["a"], USUAL => "!";
    "2^64 + 1", "$18446744073709551617!", &["a"], USUAL => "!";
    "quotes of two bytes", "$@", &["a", "b"], ("[[", "]]") => "[[a]],[[b]]";
    "no quotes", "$@", &["a", "b"], ("", "") => "a,b";
};

// Returns the expansion of a text.
fn given(alloc: Global, text: &str, args: &Args, quotes: Quotes) -> Result<Vec<u8>, AllocError> {
    let quotes = (quotes.0.as_bytes(), quotes.1.as_bytes());
    match substitute(alloc, text.as_bytes(), args, quotes) {
        Ok(got) => joined(alloc, &[got.as_slice()]),
        Err(_refused) => Err(AllocError),
    }
}

// Returns the expansion of a text with texts as arguments.
fn given_texts(
    alloc: Global,
    text: &str,
    texts: &[&str],
    quotes: Quotes,
) -> Result<Vec<u8>, AllocError> {
    given(alloc, text, &text_call_of(alloc, "f", texts)?, quotes)
}

#[test]
fn dollars_are_replaced(rt: HostRuntime) {
    for &(name, text, texts, quotes, want) in &ROWS {
        let got = given_texts(rt.alloc(), text, texts, quotes);
        shows(&rt, name, want.as_bytes(), got);
    }
}

// Returns the expansion of a text with a definition as an argument.
fn given_a_definition(alloc: Global) -> Result<Vec<u8>, AllocError> {
    let list = [Argument::Definition(Given::Named("dnl"))];
    let args = call_of(alloc, "f", &list)?;
    given(alloc, "<$1>$#", &args, USUAL)
}

#[test]
fn a_definition_gives_no_text_but_it_counts(rt: HostRuntime) {
    shows(&rt, "a builtin", b"<>1", given_a_definition(rt.alloc()));
}
