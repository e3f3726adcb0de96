//! States and their canonical text, and the state of a loaded file.

use super::{HEAD, LAST, ROOM, describe, read, write_canonical};
use crate::given::Given::Text;
use crate::report::{Report, joined};
use crate::shows::{Way, agrees, shows};
use crate::state::steps::{Row, Step, state_after};
use m4_frozen::loading::Loaded;
use m4_state::memory::MemSink;
use std::alloc::{AllocError, Global};

// A row's name, the steps from an empty state, and the canonical text without its first two lines and
// its last one.
static ROWS: [Row; 2] = step_rows! {
    "a text and a diversion that is not the current one", [Define("a", Text("b")), Divert(3, "later"), Divert(0, "")] =>
        "T1,1\nab\nD3,5\nlater\nD0,0\n\n";
    "a name that was undefined and defined again",
        [Define("b", Text("B")), Define("a", Text("A")), Define("c", Text("C")), Undefine("b"),
         Define("b", Text("B"))] =>
        "T1,1\naA\nT1,1\nbB\nT1,1\ncC\n";
};

// Returns the canonical text of a row's state.
fn frozen(alloc: Global, steps: &[Step]) -> Result<Vec<u8>, AllocError> {
    let mut report = Report::new(alloc);
    let state = state_after(alloc, steps, &mut report)?;
    write_canonical(&state, &mut MemSink::new(alloc, ROOM, 4096)?, &mut report);
    report.text()
}

#[test]
fn states_are_frozen(rt: HostRuntime) {
    for &(name, steps, between) in &ROWS {
        let want = joined(
            rt.alloc(),
            &[HEAD, between.as_bytes(), LAST, b"; written\n"],
        );
        agrees(&rt, name, Way::Whole, want, frozen(rt.alloc(), steps));
    }
}

// Adds the quotes, the number of definitions of `a`, the current diversion and the issued text.
fn describe_loaded(loaded: &Loaded, report: &mut Report) {
    let (begin, end) = loaded.state.quotes();
    report.add(begin);
    report.add(end);
    report.counted(b"; a ", loaded.state.stack(b"a").len());
    report.add(b"; current ");
    report.number(loaded.state.current());
    report.add(b"; issued ");
    report.add(loaded.issued.as_slice());
}

// Reports what is loaded from a file.
fn loaded(alloc: Global, file: &[u8]) -> Result<Vec<u8>, AllocError> {
    let mut report = Report::new(alloc);
    match read(alloc, file, 4096, false) {
        Ok(loaded) => describe_loaded(&loaded, &mut report),
        Err(fault) => describe(alloc, fault, &mut report),
    }
    report.text()
}

#[test]
fn directives_are_loaded(rt: HostRuntime) {
    let file = b"V1\nQ1,0\n[\nT1,1\nab\nD0,2\nhi\nD-1,2\nzz\n";
    let want = b"['; a 1; current -1; issued hi";
    shows(&rt, "each part of a state", want, loaded(rt.alloc(), file));
}
