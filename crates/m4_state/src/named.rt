//! A name with its definitions.

ghost use Rattle.std.specs.Prelude.{◌≡◌};

use crate::bytes::Bytes;
use crate::definition::Def;
use crate::stack::Stack;
use std::marker::Model;

/// A name with its definitions, the oldest first. Contracts see the pair of both.
#[derive(Drop)]
pub struct NamedStack<'a> {
    name: &'a Bytes,
    stack: &'a Stack,
}

impl<'a> Model for NamedStack<'a> {
    ghost use Rattle.m4_state.specs.Table.{Pair};

    ghost Value = { Pair };

    ghost view = { λ n. (n.name.now, n.stack.now) };
}

impl<'a> NamedStack<'a> {
    /// Takes a name and its definitions.
    pub(crate) fn new(name: &'a Bytes, stack: &'a Stack) -> NamedStack<'a>
        ensures { result ≡ (name.now, stack.now) }
    {
        NamedStack { name, stack }
    }

    /// Returns the name.
    pub fn name(&self) -> &'a [u8]
        ensures { result.now ≡ self.now.0 }
    {
        self.name.as_slice()
    }

    /// Returns the name, as the table has it.
    pub(crate) fn key(&self) -> &'a Bytes
        ensures { result.now ≡ self.now.0 }
    {
        self.name
    }

    /// Returns the definitions, the oldest first.
    pub fn stack(&self) -> &'a [Def]
        ensures { result.now ≡ self.now.1 }
    {
        self.stack.as_slice()
    }
}
