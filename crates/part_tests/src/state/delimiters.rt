//! Quotes and comment delimiters, set by two strings: an empty begin disables them; if only the end is
//! empty, it is the usual one. Manual: "Changing the quote characters", "Changing the comment
//! delimiters".

use crate::given::{empty_state, pair};
use crate::report::Report;
use crate::shows::shows;
use m4_state::fault::StateFault;
use m4_state::state::State;
use std::alloc::{AllocError, Global};

// A row's name, the pairs of strings that set both pairs, in order, and both pairs.
type Row = (
    &'static str,
    &'static [(&'static str, &'static str)],
    &'static str,
);

static ROWS: [Row; 6] = rows! {
    "an empty state", &[] => "quotes ` '\ncomments # \n";
    "both strings", &[("[[", "]]")] => "quotes [[ ]]\ncomments [[ ]]";
    "no end for the quotes", &[("[[", "]]"), ("<", "")] => "quotes < '\ncomments < \n";
    "no end for the comments", &[("//", "")] => "quotes // '\ncomments // \n";
    "no begin", &[("<", ""), ("", "x")] => "quotes  \ncomments  ";
    "a begin again", &[("", ""), ("[", "]")] => "quotes [ ]\ncomments [ ]";
};

// Sets the quotes and the comments to the same strings.
fn set(alloc: Global, state: &mut State, begin: &str, end: &str) -> Result<(), StateFault> {
    let (quote, unquote) = pair(alloc, begin, end)?;
    state.set_quotes(quote, unquote)?;
    let (comment, newline) = pair(alloc, begin, end)?;
    state.set_comments(comment, newline)
}

// Adds a pair with its name.
fn describe(name: &[u8], pair: (&[u8], &[u8]), report: &mut Report) {
    report.pair(name, b" ");
    report.pair(pair.0, b" ");
    report.add(pair.1);
}

// Reports a row.
fn report_of(alloc: Global, pairs: &[(&str, &str)]) -> Result<Vec<u8>, AllocError> {
    let mut state = empty_state(alloc)?;
    let mut report = Report::new(alloc);
    for (begin, end) in pairs {
        if set(alloc, &mut state, begin, end).is_err() {
            report.refuse();
        }
    }
    describe(b"quotes", state.quotes(), &mut report);
    describe(b"\ncomments", state.comments(), &mut report);
    report.text()
}

#[test]
fn delimiters_are_chosen(rt: HostRuntime) {
    for &(name, pairs, want) in &ROWS {
        shows(&rt, name, want.as_bytes(), report_of(rt.alloc(), pairs));
    }
}
