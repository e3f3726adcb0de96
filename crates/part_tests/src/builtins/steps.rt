//! Rows of steps on a state: calls of builtins and of other definitions, and questions about the state.

ghost use Rattle.std.specs.Prelude.{IfOk};
ghost use Rattle.std.specs.List.{AllByRecursion};
ghost use Rattle.m4_builtins.specs.Args.{IsArg};

use super::{Argument, call_of, text_call_of};
use crate::given::{Given, describe_definition, empty_state, made};
use crate::report::{Report, joined};
use crate::shows::{Way, agrees, shows};
use m4_builtins::act::act;
use m4_builtins::args::Args;
use m4_builtins::effect::Effect;
use m4_builtins::fault::BuiltinFault;
use m4_builtins::place::Place;
use m4_input::pushed::Pushed;
use m4_state::bytes::Bytes;
use m4_state::fault::StateFault;
use m4_state::state::State;
use std::alloc::{AllocError, Global};
use std::process::Abort;

/// A change of a state, or a question about it.
#[derive(Clone, Copy)]
pub enum Step {
    /// Calls a builtin with texts in line 1 of `a.m4`, and reports the effect.
    Call(&'static str, &'static [&'static str]),
    /// Does the same in this line, with texts or with any arguments.
    At(u64, &'static str, &'static [&'static str]),
    With(u64, &'static str, &'static [Argument]),
    /// Calls a definition by a name with any arguments, at a place.
    Other(Given, &'static str, &'static [Argument], (&'static str, u64)),
    /// Adds a text to the current diversion.
    Add(&'static str),
    /// Reports how many definitions a name has, and the newest.
    Look(&'static str),
    /// Reports how many names there are.
    Count,
    /// Reports the quotes, or the comment delimiters.
    Quotes,
    Comments,
    /// Goes on with the fresh state, which has its builtins.
    Fresh,
}

/// A row's name, the steps from an empty state, and the reports.
pub type Row = (&'static str, &'static [Step], &'static str);

/// A row's name, the arguments of a builtin, which are texts, and the text that a call of it pushes.
pub type Pushes = (&'static str, &'static [&'static str], &'static str);

/// A row's name, the arguments of a builtin, the text that a call of it pushes, if it pushes one, and its warning.
pub type Warns = (
    &'static str,
    &'static [&'static str],
    Option<&'static str>,
    Warning,
);

/// A warning that names a builtin.
#[derive(Clone, Copy)]
pub enum Warning {
    Few,
    Many,
    NoNumber,
    Empty,
}

// What is called: a definition, its name, and the place of the call.
type Called = (Given, &'static str, (&'static str, u64));

// Returns the builtin of a name, called in this line.
fn builtin_in(line: u64, name: &'static str) -> Called {
    (Given::Named(name), name, ("a.m4", line))
}

// Adds a line for a text.
fn describe_text(label: &[u8], text: &[u8], report: &mut Report) {
    report.pair(label, text);
    report.add(b"\n");
}

// Adds what is pushed, if there is something.
fn describe_push(push: Option<Pushed>, report: &mut Report) {
    match push {
        None => {}
        Some(Pushed::Text(text)) => describe_text(b"push ", text.as_slice(), report),
        Some(Pushed::Definition(_)) => report.add(b"push a definition\n"),
    }
}

// Adds what is left for the end of the run: a saved text, or an exit code.
fn describe_end(wrap: Option<Bytes>, exit: Option<u8>, report: &mut Report) {
    if let Some(text) = wrap {
        describe_text(b"wrap ", text.as_slice(), report);
    }
    if let Some(code) = exit {
        report.counted(b"exit ", code as usize);
        report.add(b"\n");
    }
}

// Adds the effect of a call.
fn describe(effect: Effect, report: &mut Report) {
    let Effect {
        push,
        messages,
        output,
        wrap,
        skip,
        exit,
    } = effect;
    describe_push(push, report);
    if skip {
        report.add(b"skip\n");
    }
    if !output.as_slice().is_empty() {
        describe_text(b"output ", output.as_slice(), report);
    }
    report.add(messages.as_slice());
    describe_end(wrap, exit, report);
}

// Returns the effect of a call.
fn acted(
    alloc: Global,
    state: &mut State,
    called: Called,
    args: &Args,
) -> Result<Effect, BuiltinFault>
    requires { AllByRecursion IsArg args.now.list }
{
    let definition = made(alloc, called.0)?;
    let place = Place {
        file: Bytes::from_slice(alloc, called.2.0.as_bytes())?,
        line: called.2.1,
    };
    act(alloc, &definition, args, &place, state)
}

// Makes a call with arguments that were made for it, and adds its effect.
fn call(
    alloc: Global,
    state: &mut State,
    called: Called,
    args: Result<Args, AllocError>,
    report: &mut Report,
)
    requires { IfOk args (λ a. AllByRecursion IsArg a.list) }
{
    match args {
        Ok(args) => match acted(alloc, state, called, &args) {
            Ok(effect) => describe(effect, report),
            Err(BuiltinFault::OutOfMemory) => report.refuse(),
        },
        Err(AllocError) => report.refuse(),
    }
}

// Adds a text to the current diversion.
fn append(state: &mut State, text: &[u8], report: &mut Report) {
    if state.append(text).is_err() {
        report.refuse();
    }
}

// Adds a name's definitions.
fn look(state: &State, name: &[u8], report: &mut Report) {
    report.add(name);
    report.counted(b": ", state.stack(name).len());
    if let Some(definition) = state.top(name) {
        report.add(b", ");
        describe_definition(definition, report);
    }
    report.add(b"\n");
}

// Adds a pair of delimiters.
fn describe_pair(pair: (&[u8], &[u8]), report: &mut Report) {
    report.pair(pair.0, b" and ");
    report.pair(pair.1, b"\n");
}

// Adds the number of names.
fn count(state: &State, report: &mut Report) {
    match state.names() {
        Ok(names) => report.number(names.len()),
        Err(_refused) => report.refuse(),
    }
    report.add(b" names\n");
}

// Performs a step.
fn do_step(alloc: Global, state: &mut State, step: Step, report: &mut Report) {
    match step {
        Step::Call(name, texts) => {
            let args = text_call_of(alloc, name, texts);
            call(alloc, state, builtin_in(1, name), args, report);
        }
        Step::At(line, name, texts) => {
            let args = text_call_of(alloc, name, texts);
            call(alloc, state, builtin_in(line, name), args, report);
        }
        Step::With(line, name, list) => {
            let args = call_of(alloc, name, list);
            call(alloc, state, builtin_in(line, name), args, report);
        }
        Step::Other(given, name, list, place) => {
            let args = call_of(alloc, name, list);
            call(alloc, state, (given, name, place), args, report);
        }
        Step::Add(text) => append(state, text.as_bytes(), report),
        Step::Look(name) => look(state, name.as_bytes(), report),
        Step::Count => count(state, report),
        Step::Quotes => describe_pair(state.quotes(), report),
        Step::Comments => describe_pair(state.comments(), report),
        Step::Fresh => match State::fresh(alloc, false) {
            Ok(fresh) => *state = fresh,
            Err(StateFault::OutOfMemory) => report.refuse(),
        },
    }
}

/// Reports a row's steps.
pub fn report_of(alloc: Global, steps: &[Step]) -> Result<Vec<u8>, AllocError> {
    let mut state = empty_state(alloc)?;
    let mut report = Report::new(alloc);
    for step in steps {
        do_step(alloc, &mut state, *step, &mut report);
    }
    report.text()
}

/// Compares the reports of each row's steps with the expected ones.
pub fn tried(rt: &impl Abort, alloc: Global, rows: &[Row]) {
    for &(name, steps, want) in rows {
        shows(rt, name, want.as_bytes(), report_of(alloc, steps));
    }
}

/// Compares what each row's call of a builtin pushes, in an empty state, with the expected text. It does nothing else.
pub fn pushed(rt: &impl Abort, alloc: Global, builtin: &'static str, rows: &[Pushes]) {
    for &(name, texts, want) in rows {
        let got = report_of(alloc, &[Step::Call(builtin, texts)]);
        let want = joined(alloc, &[b"push ", want.as_bytes(), b"\n"]);
        agrees(rt, name, Way::Whole, want, got);
    }
}

// Returns what comes before the name of the builtin in a warning, and what comes after it.
fn around(warning: Warning) -> (&'static str, &'static str) {
    match warning {
        Warning::Few => ("too few arguments to builtin `", "'"),
        Warning::Many => ("excess arguments to builtin `", "' ignored"),
        Warning::NoNumber => ("non-numeric argument to builtin `", "'"),
        Warning::Empty => ("empty string treated as 0 in builtin `", "'"),
    }
}

// Returns the expected report on a call that warns.
fn warning_of(alloc: Global, builtin: &str, row: &Warns) -> Result<Vec<u8>, AllocError> {
    let (before, after) = around(row.3);
    let mut report = Report::new(alloc);
    if let Some(text) = row.2 {
        describe_text(b"push ", text.as_bytes(), &mut report);
    }
    report.pair(b"m4:a.m4:1: Warning: ", before.as_bytes());
    report.pair(builtin.as_bytes(), after.as_bytes());
    report.add(b"\n");
    report.text()
}

/// Compares what each row's call of a builtin pushes and the warning with the expected ones.
pub fn warned(rt: &impl Abort, alloc: Global, builtin: &'static str, rows: &[Warns]) {
    for row in rows {
        let got = report_of(alloc, &[Step::Call(builtin, row.1)]);
        agrees(rt, row.0, Way::Whole, warning_of(alloc, builtin, row), got);
    }
}
