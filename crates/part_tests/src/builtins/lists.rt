//! Which definitions are called only with a list. Manual: "Macro invocation".

use crate::given::{Given, made};
use crate::report::Report;
use crate::shows::shows;
use m4_builtins::act::needs_list;
use std::alloc::{AllocError, Global};

// A row's name, a definition, and whether it needs a list.
static ROWS: [(&str, Given, &str); 4] = rows! {
    "a text", Given::Text("<$1>") => "no";
    "a builtin that needs a list", Given::Named("define") => "yes";
    "a builtin that needs none", Given::Named("dnl") => "no";
    "a placeholder", Given::Named("format") => "no";
};

// Reports whether a definition needs a list.
fn needs(alloc: Global, given: Given) -> Result<Vec<u8>, AllocError> {
    let definition = made(alloc, given)?;
    let mut report = Report::new(alloc);
    report.add(if needs_list(&definition) {
        b"yes"
    } else {
        b"no"
    });
    report.text()
}

#[test]
fn builtins_need_lists(rt: HostRuntime) {
    for &(name, given, want) in &ROWS {
        shows(&rt, name, want.as_bytes(), needs(rt.alloc(), given));
    }
}
