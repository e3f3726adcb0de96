//! A stack of definitions.
//!
//! Most names have one definition. It is held in place, so their stacks need no memory of their own.
//! Several definitions are in a vector.

ghost use Rattle.std.specs.Prelude.{◌≡◌, ◌≤◌, ◌∷◌, [], ◌++◌, List, OnOk, OnErr, length};
ghost use Rattle.m4_state.specs.declared.definition.Def.{Def};
ghost use Rattle.m4_state.specs.StackView.{definitions_of};
ghost use Rattle.m4_state.specs.Table.{but_last};

use crate::definition::Def;
use std::alloc::{AllocError, Global};
use std::marker::Model;
use std::mem::replace;
use std::slice::from_ref;

/// A stack of fewer definitions becomes eight times as large when it is full.
const LARGE: usize = 1024;

/// The definitions of a name, the oldest first. Contracts see them as a list.
#[derive(Drop)]
pub struct Stack {
    kept: Kept,
}

/// Where the definitions are.
#[derive(Drop)]
enum Kept {
    /// In place.
    One(Def),
    /// In a vector.
    Several(Vec<Def>),
}

impl Model for Stack {
    ghost Value = { List Def };

    ghost view = { λ s. definitions_of s.kept };
}

impl Stack {
    /// Returns a stack with this definition. Allocates nothing.
    pub fn of(definition: Def) -> Stack
        ensures { result ≡ definition ∷ [] }
    {
        Stack {
            kept: Kept::One(definition),
        }
    }

    /// Returns the definitions.
    pub fn as_slice(&self) -> &[Def]
        ensures { result.now ≡ self.now }
    {
        match &self.kept {
            Kept::One(definition) => from_ref(definition),
            Kept::Several(definitions) => definitions.as_slice(),
        }
    }

    /// Returns the number of definitions.
    pub fn len(&self) -> usize
        ensures { result ≡ length self.now }
    {
        self.as_slice().len()
    }

    /// Adds a definition. If an allocation fails, nothing changes.
    pub fn push(&mut self, alloc: Global, definition: Def) -> Result<(), AllocError>
        ensures ok { OnOk result (self.new ≡ self.old ++ definition ∷ []) }
        ensures err { OnErr result (self.new ≡ self.old) }
    {
        if let Kept::Several(definitions) = &mut self.kept
            && definitions.len() < definitions.capacity()
        {
            definitions.push(definition)?;
            return Ok(());
        }
        self.push_with_room(alloc, definition)
    }

    /// Adds a definition to one that is held in place, or to a full vector. If an allocation fails, nothing changes.
    #[inline(never)]
    fn push_with_room(&mut self, alloc: Global, definition: Def) -> Result<(), AllocError>
        ensures ok { OnOk result (self.new ≡ self.old ++ definition ∷ []) }
        ensures err { OnErr result (self.new ≡ self.old) }
    {
        let kept = replace(&mut self.kept, Kept::Several(Vec::new(alloc)));
        let (kept, pushed) = pushed_on(kept, alloc, definition);
        self.kept = kept;
        pushed
    }

    /// Replaces the last definition, or adds the first one. If an allocation fails, nothing changes.
    pub fn put_top(&mut self, definition: Def) -> Result<(), AllocError>
        ensures ok { OnOk result (self.new ≡ but_last self.old ++ definition ∷ []) }
        ensures err { OnErr result (self.new ≡ self.old) }
    {
        match &mut self.kept {
            Kept::One(kept) => *kept = definition,
            Kept::Several(kept) => put_last(kept, definition)?,
        }
        Ok(())
    }

    /// Removes the last of several definitions. Allocates nothing.
    pub fn pop(&mut self)
        requires { 2 ≤ length self.old }
        ensures { self.new ≡ but_last self.old }
    {
        if let Kept::Several(kept) = &mut self.kept {
            let _last = kept.pop();
        }
    }
}

/// Adds a definition to those that are kept. If an allocation fails, they are returned as they were.
fn pushed_on(kept: Kept, alloc: Global, definition: Def) -> (Kept, Result<(), AllocError>)
    ensures ok { OnOk result.1 (definitions_of result.0 ≡ definitions_of kept ++ definition ∷ []) }
    ensures err { OnErr result.1 (definitions_of result.0 ≡ definitions_of kept) }
{
    match kept {
        Kept::One(first) => match Vec::with_capacity(alloc, 2) {
            Ok(mut definitions) => {
                definitions.push(first).unwrap();
                definitions.push(definition).unwrap();
                (Kept::Several(definitions), Ok(()))
            }
            Err(refused) => (Kept::One(first), Err(refused)),
        },
        Kept::Several(mut definitions) => {
            let pushed = push_in(&mut definitions, definition);
            (Kept::Several(definitions), pushed)
        }
    }
}

/// Adds a definition to a full vector. A small one becomes eight times as large, so that few definitions are copied on
/// the way to a large one, which doubles. If an allocation fails, nothing changes.
fn push_in(definitions: &mut Vec<Def>, definition: Def) -> Result<(), AllocError>
    ensures ok { OnOk result (definitions.new.items ≡ definitions.old.items ++ definition ∷ []) }
    ensures err { OnErr result (definitions.new.items ≡ definitions.old.items) }
{
    let len = definitions.len();
    if len < LARGE {
        definitions.reserve(7 * len)?;
    }
    definitions.push(definition)?;
    Ok(())
}

/// Replaces the last definition, or adds the first one. If an allocation fails, nothing changes.
fn put_last(definitions: &mut Vec<Def>, definition: Def) -> Result<(), AllocError>
    ensures ok { OnOk result (definitions.new.items ≡ but_last definitions.old.items ++ definition ∷ []) }
    ensures err { OnErr result (definitions.new.items ≡ definitions.old.items) }
{
    match definitions.len().checked_sub(1) {
        Some(last) => definitions[last] = definition,
        None => definitions.push(definition)?,
    }
    Ok(())
}
