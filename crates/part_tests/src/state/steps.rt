//! Rows of steps on a state: changes of its names and its diversions, and what it then has.

use crate::given::{Given, describe_definition, empty_state, made};
use crate::report::Report;
use crate::shows::shows;
use m4_state::bytes::Bytes;
use m4_state::definition::Def;
use m4_state::fault::StateFault;
use m4_state::state::State;
use std::alloc::{AllocError, Global};
use std::process::Abort;

/// A change of a state, or a question about it, which adds a line to the report.
#[derive(Clone, Copy)]
pub enum Step {
    /// Goes on with the fresh state, which has its builtins.
    Fresh,
    Push(&'static str, Given),
    /// Pushes a name of this byte.
    PushByte(u8, Given),
    /// Pushes a text that comes directly after its name: both as one slice, and the name's length.
    PushText(&'static str, usize),
    Define(&'static str, Given),
    Pop(&'static str),
    Undefine(&'static str),
    /// Reports the definitions of a name.
    Look(&'static str),
    /// Reports each name with its definitions, as one call returns them.
    LookAtAll,
    /// Diverts to a number, and adds a text there.
    Divert(i32, &'static str),
    /// Reports the number of the current diversion.
    Current,
    /// Reports the text of a number.
    Diverted(i32),
    /// Reports the least number above this one that has a text.
    Above(i32),
    /// Removes the diversion of the least number, and reports it.
    TakeLeast,
    /// Undiverts a diversion, and reports the text that is returned.
    Undivert(i32),
}

/// A row's name, the steps from an empty state, and what they report; then for each name its definitions, the oldest
/// first, and the length of the newest.
pub type Row = (&'static str, &'static [Step], &'static str);

// Adds a definition.
fn describe(definition: Result<Def, AllocError>, report: &mut Report) {
    match definition {
        Ok(definition) => describe_definition(&definition, report),
        Err(AllocError) => report.refuse(),
    }
}

// Adds the definitions of a name: a copy of each, and the newest one's length.
fn look(state: &State, name: &[u8], report: &mut Report) {
    report.add(name);
    for definition in state.stack(name) {
        report.add(b", ");
        describe(definition.share(), report);
    }
    if let Some(top) = state.top(name) {
        report.add(b"; ");
        report.number(top.len());
    }
    report.add(b"\n");
}

// Adds each name with its definitions.
fn list_definitions(state: &State, report: &mut Report) {
    match state.definitions() {
        Ok(all) => {
            for named in &all {
                report.add(named.name());
                for definition in named.stack() {
                    report.add(b", ");
                    describe_definition(definition, report);
                }
                report.add(b"\n");
            }
        }
        Err(StateFault::OutOfMemory) => report.refuse(),
    }
}

// Adds a number, or that there is none.
fn describe_number(number: Option<i32>, report: &mut Report) {
    match number {
        Some(number) => report.number(number),
        None => report.add(b"none"),
    }
    report.add(b"\n");
}

// Removes the least diversion, and adds it.
fn take_least(state: &mut State, report: &mut Report) {
    match state.take_least() {
        Some((number, text)) => {
            report.number(number);
            report.pair(b" ", &text);
        }
        None => report.add(b"none"),
    }
    report.add(b"\n");
}

// Undiverts a diversion, and adds the text that is returned.
fn undivert(state: &mut State, number: i32, report: &mut Report) {
    match state.undivert(number) {
        Ok(Some(text)) => report.add(&text),
        Ok(None) => report.add(b"none"),
        Err(_refused) => report.refuse(),
    }
    report.add(b"\n");
}

// Makes a change that is not reported.
fn change(alloc: Global, state: &mut State, step: Step) -> Result<(), StateFault> {
    match step {
        Step::Fresh => *state = State::fresh(alloc, false)?,
        Step::Push(name, given) => {
            state.push(
                Bytes::from_slice(alloc, name.as_bytes())?,
                made(alloc, given)?,
            )?;
        }
        Step::PushByte(byte, given) => {
            state.push(Bytes::from_slice(alloc, &[byte])?, made(alloc, given)?)?;
        }
        Step::PushText(both, middle) => state.push_text(both.as_bytes(), middle.min(both.len()))?,
        Step::Define(name, given) => {
            state.define(
                Bytes::from_slice(alloc, name.as_bytes())?,
                made(alloc, given)?,
            )?;
        }
        Step::Pop(name) => state.pop(name.as_bytes()),
        Step::Undefine(name) => state.undefine(name.as_bytes()),
        Step::Divert(number, text) => {
            state.divert(number);
            state.append(text.as_bytes())?;
        }
        _ => {}
    }
    Ok(())
}

// Makes a step, and adds what it reports.
fn do_step(alloc: Global, state: &mut State, step: Step, report: &mut Report) {
    match step {
        Step::Look(name) => look(state, name.as_bytes(), report),
        Step::LookAtAll => list_definitions(state, report),
        Step::Current => describe_number(Some(state.current()), report),
        Step::Diverted(number) => report.pair(state.diversion(number), b"\n"),
        Step::Above(number) => describe_number(state.next_diversion(number), report),
        Step::TakeLeast => take_least(state, report),
        Step::Undivert(number) => undivert(state, number, report),
        _ => {
            if change(alloc, state, step).is_err() {
                report.refuse();
            }
        }
    }
}

// Adds the definitions of each name.
fn look_at_all(state: &State, report: &mut Report) {
    match state.names() {
        Ok(names) => {
            for name in &names {
                look(state, name.as_slice(), report);
            }
        }
        Err(StateFault::OutOfMemory) => report.refuse(),
    }
}

/// Makes the steps from an empty state, and adds what they report. Returns the state after them.
pub fn state_after(
    alloc: Global,
    steps: &[Step],
    report: &mut Report,
) -> Result<State, AllocError> {
    let mut state = empty_state(alloc)?;
    for step in steps {
        do_step(alloc, &mut state, *step, report);
    }
    Ok(state)
}

/// Reports a row's steps, and the names after them.
pub fn report_of(alloc: Global, steps: &[Step]) -> Result<Vec<u8>, AllocError> {
    let mut report = Report::new(alloc);
    let state = state_after(alloc, steps, &mut report)?;
    look_at_all(&state, &mut report);
    report.text()
}

/// Compares the report on each row.
pub fn compare(rt: &impl Abort, alloc: Global, rows: &[Row]) {
    for &(name, steps, want) in rows {
        shows(rt, name, want.as_bytes(), report_of(alloc, steps));
    }
}
