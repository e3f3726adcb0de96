//! A look at the front of a text: its first token, whose lengths it gives without a copy, and whether a list
//! follows. Manual: "Names", "Quoted strings", "Comments", "Macro invocation".

use crate::given::empty_state;
use crate::report::Report;
use crate::shows::shows;
use m4_input::delims::Delims;
use m4_input::front::{Answer, Look, Unended};
use m4_input::look::{delimited_token, list_follows, look_by_kind, plain_token};
use std::alloc::{AllocError, Global};

// A row's name, a text, whether more bytes may follow, and its first token.
type Row = (&'static str, &'static str, bool, &'static str);

static ROWS: [Row; 27] = rows! {
    "a string", "`a b'c", false => "delimited string a b of 5";
    "a string within a string", "``a'' ", false => "delimited string `a' of 5";
    "an empty string", "`'", false => "delimited string  of 2";
    "a string without an end", "`a", false => "delimited string without an end";
    "an end-quote", "'a", false => "plain byte '";
    // other tokens
    "an empty text", "", false => "end";
    "a name", "ab(c", false => "plain name ab";
    "a name at the end", "ab", false => "plain name ab";
    "a name with a digit", "f1 f", false => "plain name f1";
    "an underscore", "_f", false => "plain name _f";
    "a digit", "1f", false => "plain byte 1";
    "a parenthesis that opens", "(a", false => "plain byte (";
    "a comma", ",a", false => "plain byte ,";
    "a blank", " a", false => "plain byte  ";
    "a newline", "\na", false => "plain byte \n";
    "a comment", "# b\nc", false => "delimited comment # b\n";
    "a comment that begins a word", "#b c\n", false => "delimited comment #b c\n";
    "a comment without an end", "# b", false => "delimited comment without an end";
    // the same with more bytes that may follow
    "no bytes so far", "", true => "more";
    "a name at the end", "ab", true => "plain more";
    "a name before a comma", "ab,", true => "plain name ab";
    "a byte at the end", "+", true => "plain byte +";
    "a string that has ended", "`a b'", true => "delimited string a b of 5";
    "a string without an end so far", "`a b", true => "delimited more";
    "a comment that has ended", "# b\n", true => "delimited comment # b\n";
    "a comment without an end so far", "# b", true => "delimited more";
    "a blank", " ", true => "plain byte  ";
};

// Adds a part of the text: so many bytes from a place on.
fn add_part(text: &[u8], at: usize, len: usize, report: &mut Report) {
    match text.get(at..at.saturating_add(len)) {
        Some(part) => report.add(part),
        None => report.add(b"beyond the end"),
    }
}

/// Adds a token.
pub fn describe_look(look: Look, text: &[u8], report: &mut Report) {
    match look {
        Look::Name(len) => {
            report.add(b"name ");
            add_part(text, 0, len, report);
        }
        Look::Byte(byte) => report.pair(b"byte ", &[byte]),
        Look::Quoted { begin, len, all } => {
            report.add(b"string ");
            add_part(text, begin, len, report);
            report.counted(b" of ", all);
        }
        Look::Comment(len) => {
            report.add(b"comment ");
            add_part(text, 0, len, report);
        }
        Look::End => report.add(b"end"),
        Look::Unended(Unended::InString) => report.add(b"string without an end"),
        Look::Unended(Unended::InComment) => report.add(b"comment without an end"),
        Look::NeedsMore => report.add(b"more"),
    }
}

// Reports the first token of a text, and before it which of the looks at the first byte alone finds it too: `plain` if
// no delimiter begins with that byte, `delimited` if a delimiter of one byte does.
fn look_of(alloc: Global, text: &[u8], may_follow: bool) -> Result<Vec<u8>, AllocError> {
    let mut report = Report::new(alloc);
    let state = empty_state(alloc)?;
    let usual = Delims::of(&state);
    let look = look_by_kind(text, &usual, may_follow);
    if let Some(plain) = plain_token(text, &usual, may_follow) {
        report.add(if plain == look { b"plain " } else { b"other " });
    }
    if let Some(delimited) = delimited_token(text, &usual, may_follow) {
        report.add(if delimited == look {
            b"delimited "
        } else {
            b"other "
        });
    }
    describe_look(look, text, &mut report);
    report.text()
}

#[test]
fn first_tokens(rt: HostRuntime) {
    for &(name, text, may_follow, want) in &ROWS {
        let got = look_of(rt.alloc(), text.as_bytes(), may_follow);
        shows(&rt, name, want.as_bytes(), got);
    }
    let got = look_of(rt.alloc(), b"\xff", false);
    shows(&rt, "the greatest byte", b"plain byte \xff", got);
}

// A row's name, a text, whether a list follows if it is complete, and if more bytes may follow.
static LISTS: [(&str, &[u8], (&[u8], &[u8])); 4] = rows! {
    "an empty text", b"" => (b"no", b"unknown");
    "a parenthesis", b"(a" => (b"yes", b"yes");
    "a blank before a parenthesis", b" (" => (b"no", b"no");
    "a parenthesis that closes", b")" => (b"no", b"no");
};

// Reports an answer.
fn answer_of(alloc: Global, text: &[u8], may_follow: bool) -> Result<Vec<u8>, AllocError> {
    let mut report = Report::new(alloc);
    let state = empty_state(alloc)?;
    match list_follows(text, &Delims::of(&state), may_follow) {
        Answer::Yes => report.add(b"yes"),
        Answer::No => report.add(b"no"),
        Answer::Unknown => report.add(b"unknown"),
    }
    report.text()
}

#[test]
fn lists(rt: HostRuntime) {
    for &(name, text, (want, open)) in &LISTS {
        shows(&rt, name, want, answer_of(rt.alloc(), text, false));
        shows(&rt, name, open, answer_of(rt.alloc(), text, true));
    }
}
