//! The table of builtins. Manual: "Builtins", and the chapters of each.

use crate::report::{Report, joined, printed};
use crate::shows::shows;
use m4_state::builtin::Builtin;
use m4_state::bytes::Bytes;
use m4_state::fault::StateFault;
use std::alloc::{AllocError, Global};

// A name, and the builtin of that name: whether it is recognised only with parameters, whether it
// accepts definitions as arguments, and the least and the greatest number of arguments.
static ROWS: [(&str, &str); 30] = rows! {
    "define" => "define: parameters, definitions, 1 to 2";
    "undefine" => "undefine: parameters, 1 or more";
    "pushdef" => "pushdef: parameters, definitions, 1 to 2";
    "popdef" => "popdef: parameters, 1 or more";
    "defn" => "defn: parameters, 1 or more";
    "indir" => "indir: parameters, definitions, 1 or more";
    "builtin" => "builtin: parameters, definitions, 1 or more";
    "ifdef" => "ifdef: parameters, 2 to 3";
    "ifelse" => "ifelse: parameters, 0 or more";
    "shift" => "shift: parameters, 0 or more";
    "dumpdef" => "dumpdef: 0 or more";
    "dnl" => "dnl: 0 to 0";
    "changequote" => "changequote: 0 to 2";
    "changecom" => "changecom: 0 to 2";
    "divert" => "divert: 0 to 1";
    "undivert" => "undivert: 0 or more";
    "divnum" => "divnum: 0 to 0";
    "len" => "len: parameters, 1 to 1";
    "index" => "index: parameters, 2 to 2";
    "substr" => "substr: parameters, 2 to 3";
    "translit" => "translit: parameters, 2 to 3";
    "incr" => "incr: parameters, 1 to 1";
    "decr" => "decr: parameters, 1 to 1";
    "eval" => "eval: parameters, 1 to 3";
    "errprint" => "errprint: parameters, 0 or more";
    "m4wrap" => "m4wrap: parameters, 0 or more";
    "m4exit" => "m4exit: 0 to 1";
    "__file__" => "__file__: 0 to 0";
    "__line__" => "__line__: 0 to 0";
    "format" => "none";
};

// Reports the builtin of a name.
fn report_of(alloc: Global, name: &[u8]) -> Result<Vec<u8>, AllocError> {
    let mut report = Report::new(alloc);
    match Builtin::by_name(name) {
        Some(builtin) => describe(builtin, &mut report),
        None => report.add(b"none"),
    }
    report.text()
}

// Adds the columns of a builtin.
fn describe(builtin: Builtin, report: &mut Report) {
    report.pair(builtin.name(), b": ");
    if builtin.needs_args() {
        report.add(b"parameters, ");
    }
    if builtin.takes_tokens() {
        report.add(b"definitions, ");
    }
    let row = builtin.row();
    report.number(row.least);
    match row.most {
        Some(most) => {
            report.add(b" to ");
            report.number(most);
        }
        None => report.add(b" or more"),
    }
}

#[test]
fn columns_of_the_builtins(rt: HostRuntime) {
    for &(name, want) in &ROWS {
        let got = report_of(rt.alloc(), name.as_bytes());
        shows(&rt, name, want.as_bytes(), got);
    }
}

#[test]
fn a_fault_has_a_text(rt: HostRuntime) {
    let got = printed(rt.alloc(), &StateFault::OutOfMemory);
    shows(&rt, "out of memory", b"S1 OutOfMemory", got);
}

// Copies a byte string.
fn copy_of(alloc: Global, bytes: &[u8]) -> Result<Vec<u8>, AllocError> {
    let copy = Bytes::from_slice(alloc, bytes)?.share()?;
    joined(alloc, &[copy.as_slice()])
}

#[test]
fn a_byte_string_is_copied(rt: HostRuntime) {
    let got = copy_of(rt.alloc(), b"a\x00");
    shows(&rt, "a byte 0 at its end", b"a\x00", got);
}
