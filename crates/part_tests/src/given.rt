//! Definitions in rows, and the state that rows begin with.

ghost use Rattle.std.specs.Prelude.{IfOk};
ghost use Rattle.m4_state.specs.Definition.{IsDefinition};

use crate::report::Report;
use m4_state::builtin::Builtin;
use m4_state::bytes::Bytes;
use m4_state::definition::Def;
use m4_state::fault::StateFault;
use m4_state::state::State;
use std::alloc::{AllocError, Global};

/// A definition of a row.
#[derive(Clone, Copy)]
pub enum Given {
    /// A text.
    Text(&'static str),
    /// The builtin of this name, or a placeholder if this program has none.
    Named(&'static str),
}

/// Makes the definition of a row.
pub fn made(alloc: Global, given: Given) -> Result<Def, AllocError>
    ensures { IfOk result IsDefinition }
{
    match given {
        Given::Text(text) => Ok(Def::Text(Bytes::from_slice(alloc, text.as_bytes())?)),
        Given::Named(name) => match Builtin::by_name(name.as_bytes()) {
            Some(builtin) => Ok(Def::Builtin(builtin)),
            None => Ok(Def::Placeholder(Bytes::from_slice(alloc, name.as_bytes())?)),
        },
    }
}

/// Adds the kind of a definition, and its text or its name.
pub fn describe_definition(definition: &Def, report: &mut Report) {
    match definition {
        Def::Text(text) => report.pair(b"text ", text.as_slice()),
        Def::Builtin(builtin) => report.pair(b"builtin ", builtin.name()),
        Def::Placeholder(name) => report.pair(b"placeholder ", name.as_slice()),
    }
}

/// Returns a state without names.
pub fn empty_state(alloc: Global) -> Result<State, AllocError> {
    match State::empty(alloc) {
        Ok(state) => Ok(state),
        Err(StateFault::OutOfMemory) => Err(AllocError),
    }
}

/// Returns a state without names, with these quotes and comment delimiters.
pub fn delimited(
    alloc: Global,
    quotes: (&str, &str),
    comments: (&str, &str),
) -> Result<State, StateFault> {
    let mut state = State::empty(alloc)?;
    let (begin, end) = pair(alloc, quotes.0, quotes.1)?;
    state.set_quotes(begin, end)?;
    let (begin, end) = pair(alloc, comments.0, comments.1)?;
    state.set_comments(begin, end)?;
    Ok(state)
}

/// Returns a pair of strings.
pub fn pair(alloc: Global, begin: &str, end: &str) -> Result<(Bytes, Bytes), AllocError> {
    Ok((
        Bytes::from_slice(alloc, begin.as_bytes())?,
        Bytes::from_slice(alloc, end.as_bytes())?,
    ))
}
