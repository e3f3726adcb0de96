//! The texts of clap that a user may see: help, and the refusal of a line.

use clap::Error;
use m4_tool::line::{LineFault, read_line};
use std::alloc::{AllocError, Global};
use std::process::Abort;

// Expands to lines: of each its words after the name of the program, whether they are a mistake, and parts of the text.
macro_rules! texts {
    ($([$($word:literal),*], $is_mistake:literal => [$($part:literal),*];)*) => {
        [$((&["m4r" $(, $word)*], $is_mistake, &[$($part),*])),*]
    };
}

static TEXTS: [(&[&str], bool, &[&str]); 7] = texts! {
    ["--help"], false => ["--canon <FILE>", "--inspect <FILE>", "-F, --freeze-state <FILE>",
        "-R, --reload-state <FILE>", "-L, --nesting-limit <N>", "--expansions <N>", "Exit status:", "Examples:"];
    ["--nope"], true => ["unexpected argument '--nope'", "m4r --canon=FILE"];
    ["--canon=a", "--canon=b"], true => ["'--canon <FILE>' cannot be used multiple times"];
    ["--canon"], true => ["a value is required for '--canon <FILE>'"];
    ["-R"], true => ["a value is required for '--reload-state <FILE>'"];
    ["--expansions=0"], true => ["invalid value '0' for '--expansions <N>'", "1..=4294967295"];
    ["-L4294967296"], true => ["invalid value '4294967296' for '--nesting-limit <N>'"];
};

// Checks that a text contains the parts.
fn check_parts(rt: &impl Abort, text: &str, parts: &[&str]) {
    for part in parts {
        assert!(rt; text.contains(*part), "{text}\n  expected in it: {part}");
    }
}

// Checks that the text of clap contains the parts, and whether it is that of a mistake.
fn check_error(
    rt: &(impl Abort + Alloc<A = Global>),
    error: &Error,
    is_mistake: bool,
    parts: &[&str],
) {
    match format!(in rt.alloc(); "{error}") {
        Ok(text) => {
            check_parts(rt, text.as_str(), parts);
            assert_eq!(rt; error.use_stderr(), is_mistake, "{text}");
        }
        Err(AllocError) => panic!(rt; "out of memory"),
    }
}

// Checks the text of clap for a line.
fn check_text(
    rt: &(impl Abort + Alloc<A = Global>),
    words: &[&str],
    is_mistake: bool,
    parts: &[&str],
) {
    match read_line(rt.alloc(), words) {
        Err(LineFault::Parse(error)) => check_error(rt, &error, is_mistake, parts),
        _ => panic!(rt; "a line was followed"),
    }
}

#[test]
fn texts_name_what_they_are_about(rt: HostRuntime) {
    for &(words, is_mistake, parts) in &TEXTS {
        check_text(&rt, words, is_mistake, parts);
    }
}
