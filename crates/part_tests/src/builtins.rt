//! Calls: the data of a call's head, the substitution of arguments in a text, each builtin, and the
//! lines of messages.
//! Manual: "Macro invocation", "Arguments to macros", and the chapters of the builtins.

ghost use Rattle.std.specs.Prelude.{IfOk};
ghost use Rattle.std.specs.List.{AllByRecursion};
ghost use Rattle.m4_builtins.specs.Args.{IsArg};

mod calls;
mod diverting;
mod effects;
mod lists;
mod messages;
mod numbers;
mod steps;
mod substitutions;
mod texts;

use crate::given::{Given, made};
use crate::report::Report;
use crate::shows::shows;
use m4_builtins::args::{Arg, ArgList, Args};
use m4_state::bytes::Bytes;
use std::alloc::{AllocError, Global};

/// An argument of a row.
#[derive(Clone, Copy)]
pub enum Argument {
    /// A text.
    Text(&'static str),
    /// Bytes that are no text.
    Bytes(&'static [u8]),
    /// A definition.
    Definition(Given),
}

// Makes the argument of a row.
fn made_argument(alloc: Global, given: Argument) -> Result<Arg, AllocError>
    ensures { IfOk result IsArg }
{
    match given {
        Argument::Text(text) => Ok(Arg::Text(Bytes::from_slice(alloc, text.as_bytes())?)),
        Argument::Bytes(bytes) => Ok(Arg::Text(Bytes::from_slice(alloc, bytes)?)),
        Argument::Definition(given) => Ok(Arg::Definition(made(alloc, given)?)),
    }
}

// Makes a call of a name with these arguments.
fn call_of(alloc: Global, name: &str, given: &[Argument]) -> Result<Args, AllocError>
    ensures { IfOk result (λ a. AllByRecursion IsArg a.list) }
{
    let mut items = Vec::new(alloc);
    for one in given {
        items.push(made_argument(alloc, *one)?)?;
    }
    Ok(Args {
        name: Bytes::from_slice(alloc, name.as_bytes())?,
        list: ArgList::from(items),
    })
}

/// Makes a call of a name with these texts.
pub fn text_call_of(alloc: Global, name: &str, texts: &[&str]) -> Result<Args, AllocError>
    ensures { IfOk result (λ a. AllByRecursion IsArg a.list) }
{
    let mut items = Vec::new(alloc);
    for text in texts {
        items.push(Arg::Text(Bytes::from_slice(alloc, text.as_bytes())?))?;
    }
    Ok(Args {
        name: Bytes::from_slice(alloc, name.as_bytes())?,
        list: ArgList::from(items),
    })
}

// Adds arguments.
fn describe_arguments(list: &[Arg], report: &mut Report) {
    for arg in list {
        match arg {
            Arg::Text(text) => report.pair(text.as_slice(), b"; "),
            Arg::Definition(_) => report.add(b"a definition; "),
        }
    }
}

// Returns the arguments of a call, read and then given back.
fn arguments(alloc: Global) -> Result<Vec<u8>, AllocError> {
    let args = text_call_of(alloc, "f", &["one", "two"])?;
    let mut report = Report::new(alloc);
    describe_arguments(args.list.as_slice(), &mut report);
    report.add(b"and ");
    let items = args.list.into_vec();
    describe_arguments(items.as_slice(), &mut report);
    report.text()
}

#[test]
fn arguments_in_their_order(rt: HostRuntime) {
    let got = arguments(rt.alloc());
    shows(&rt, "two texts", b"one; two; and one; two; ", got);
}
