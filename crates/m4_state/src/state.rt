//! The state of a run between two steps: names with stacks of definitions, both pairs of
//! delimiters, the diversions and the number of the current one.
//!
//! Contracts see one record of lists (specs/State.antt), however the state is stored. The contract of
//! each call defines the complete new record; if an allocation fails, the state is unchanged.

ghost use Rattle.m4_state.specs.Fresh.{fresh_name};
ghost use Rattle.std.specs.Prelude.{◌≡◌, ◌≢◌, ◌<◌, ◌≤◌, ◌+◌, ◌^◌, ◌∷◌, [], IfOk, IfSome, IfNone, OnOk, OnErr};
ghost use Rattle.std.specs.Prelude.{length, take, drop, option_copied, option_map, true};

use crate::builtin::Builtin;
use crate::bytes::Bytes;
use crate::definition::Def;
use crate::delimiters::Delimiters;
use crate::diversions::Diversions;
use crate::fault::StateFault;
use crate::named::NamedStack;
use crate::table::Table;
use std::alloc::{AllocError, Global};
use std::marker::Model;

/// Names with their definitions, delimiters and diversions.
pub struct State {
    alloc: Global,
    table: Table,
    quotes: Delimiters,
    comments: Delimiters,
    diversions: Diversions,
    current: i32,
}

/// Returns the name of a builtin in a fresh state.
fn fresh_name(alloc: Global, prefix: bool, builtin: Builtin) -> Result<Bytes, AllocError>
    ensures { IfOk result (λ name. name ≡ fresh_name prefix builtin) }
{
    let mut name = Vec::new(alloc);
    if prefix {
        name.extend_from_slice(b"m4_")?;
    }
    name.extend_from_slice(builtin.name())?;
    Bytes::from_vec(name)
}

impl Model for State {
    ghost use Rattle.m4_state.specs.State.{State as Record, IsState, IsSized};
    ghost use Rattle.m4_state.specs.StateView.{view_of};

    ghost Value = { Record };

    ghost view = { view_of };

    ghost invariant = { λ s. IsState (view_of s) × IsSized (view_of s) };
}

// Written out so that a caller's proof contains one call, not the drop of each field.
impl Drop for State {
    fn drop(self) {
        let State {
            alloc: _alloc,
            table: _table,
            quotes: _quotes,
            comments: _comments,
            diversions: _diversions,
            current: _current,
        } = self;
    }
}

impl State {
    ghost use Rattle.m4_state.specs.Definition.{IsDefinition};
    ghost use Rattle.m4_state.specs.declared.definition.Def.TheVariants as defs;
    ghost use Rattle.m4_state.specs.Fresh.{fresh, with_builtin};
    ghost use Rattle.m4_state.specs.State.{AreDiversions, IsState, IsSized, empty, names_of, stack_of, top_of, pushed};
    ghost use Rattle.m4_state.specs.State.{popped, defined, undefined, with_quotes, with_comments, diverted, appended};
    ghost use Rattle.m4_state.specs.State.{undiverted, issued_from, unless_empty, diversion_of, next_after};

    /// Returns the empty state: no names, no diversions, the default delimiters.
    pub fn empty(alloc: Global) -> Result<State, StateFault>
        // exact steps: the empty record
        ensures { IfOk result (λ s. s ≡ empty) }
    {
        let quotes = Delimiters::default_quotes(alloc)?;
        let comments = Delimiters::default_comments(alloc)?;
        Ok(State {
            alloc,
            table: Table::new(alloc)?,
            quotes,
            comments,
            diversions: Diversions::new(alloc),
            current: 0,
        })
    }

    /// Returns a state with each builtin under its name, or with `prefix` under `m4_` and its name, and
    /// `__gnu__` and `__unix__` as empty texts. Manual: "Invoking m4" (`--prefix-builtins`).
    pub fn fresh(alloc: Global, prefix: bool) -> Result<State, StateFault>
        // exact steps: the fresh record
        ensures { IfOk result (λ s. s ≡ fresh prefix) }
    {
        let mut state = State::empty(alloc)?;
        let empty = Bytes::empty();
        state.push_borrowed(b"__gnu__", Def::Text(empty))?;
        let empty = Bytes::empty();
        state.push_borrowed(b"__unix__", Def::Text(empty))?;
        for builtin in Builtin::TABLE {
            state.push_builtin(alloc, prefix, builtin)?;
        }
        Ok(state)
    }

    /// Pushes a builtin on the definitions of its name, or of its name with the prefix.
    fn push_builtin(
        &mut self,
        alloc: Global,
        prefix: bool,
        builtin: Builtin,
    ) -> Result<(), StateFault>
        ensures { OnOk result (self.new ≡ with_builtin prefix self.old builtin) }
    {
        let name = fresh_name(alloc, prefix, builtin)?;
        self.push(name, Def::Builtin(builtin))
    }

    /// Returns the definitions of a name, the oldest first; none if it has none. The time is
    /// proportional to the length of the name, however many names there are.
    pub fn stack(&self, name: &[u8]) -> &[Def]
        // exact steps: the record's definitions of the name
        ensures { result.now ≡ stack_of self.now name.now }
    {
        self.table.stack(self.table.hint(name), name)
    }

    /// Returns the top definition of a name, which is a valid one. Most words of a text have no mark in the table.
    #[inline(always)]
    pub fn top(&self, name: &[u8]) -> Option<&Def>
        // exact steps: the last of the record's definitions of the name
        ensures top { option_copied result ≡ top_of self.now name.now }
        ensures valid { IfSome (option_copied result) IsDefinition }
    {
        let hint = self.table.hint(name);
        if hint == 0 {
            return None;
        }
        self.top_in_table(hint, name)
    }

    /// Returns the top definition of a name, by a look into the table.
    #[inline(never)]
    fn top_in_table(&self, hint: usize, name: &[u8]) -> Option<&Def>
        ensures top { option_copied result ≡ top_of self.now name.now }
        ensures valid { IfSome (option_copied result) IsDefinition }
    {
        let definitions = self.table.stack(hint, name);
        definitions.last()
    }

    /// Returns the names that have a definition, in byte order. Each call sorts them.
    pub fn names(&self) -> Result<Vec<Bytes>, StateFault>
        // exact steps: the names of the record, in its order
        ensures { IfOk result (λ names. names.items ≡ names_of self.now) }
    {
        Ok(self.table.names()?)
    }

    /// Returns the names that have a definition, in byte order, each with its definitions, the oldest
    /// first. Each call sorts them; both are borrowed. Every state is valid, and none of its byte strings is
    /// longer than 2^64 - 1.
    #[doc(hidden)]
    pub fn definitions(&self) -> Result<Vec<NamedStack<'_>>, StateFault>
        // exact steps: the pairs of the record, in its order
        ensures pairs { IfOk result (λ named. named.items ≡ self.now.table) }
        ensures valid { IsState self.now }
        ensures sized { IsSized self.now }
    {
        Ok(self.table.definitions()?)
    }

    /// Pushes a definition on those of a name. Manual: "Temporarily redefining macros".
    pub fn push(&mut self, name: Bytes, def: Def) -> Result<(), StateFault>
        requires { IsDefinition def }
        // exact steps: the complete new record; if an allocation fails, it is unchanged
        ensures ok { OnOk result (self.new ≡ pushed self.old name def) }
        ensures err { OnErr result (self.new ≡ self.old) }
    {
        self.push_borrowed(name.as_slice(), def)
    }

    /// Pushes a definition on those of a borrowed name. The name is copied only if it is new.
    #[doc(hidden)]
    pub fn push_borrowed(&mut self, name: &[u8], def: Def) -> Result<(), StateFault>
        requires { IsDefinition def }
        ensures ok { OnOk result (self.new ≡ pushed self.old name.now def) }
        ensures err { OnErr result (self.new ≡ self.old) }
    {
        self.table.push(name, def)?;
        Ok(())
    }

    /// Pushes a copy of a text on the definitions of a name: the bytes before `middle` are the name, those from there
    /// on the text. A directive has both in one slice.
    #[doc(hidden)]
    pub fn push_text(&mut self, bytes: &[u8], middle: usize) -> Result<(), StateFault>
        requires { middle ≤ length bytes.now }
        ensures ok { OnOk result (self.new ≡ pushed self.old (take middle bytes.now)
            (defs.Text (drop middle bytes.now))) }
        ensures err { OnErr result (self.new ≡ self.old) }
    {
        self.table.push_text(bytes, middle)?;
        Ok(())
    }

    /// Pushes the `len` bytes after the first `middle` of `strings`, as a text, on the definitions of the name that
    /// those are. The strings begin at the place `at` of a block. If they are to share its memory, a long one is a part
    /// of it.
    #[doc(hidden)]
    #[inline(always)]
    pub fn push_from_block(
        &mut self,
        block: &Bytes,
        shares: bool,
        strings: &[u8],
        at: usize,
        middle: usize,
        len: usize,
    ) -> Result<(), StateFault>
        requires within { at + middle + len ≤ length block.now }
        requires counted { length block.now < 2 ^ 64 }
        requires place { strings.now ≡ drop at block.now }
        ensures ok { OnOk result (self.new ≡ pushed self.old (take middle strings.now)
            (defs.Text (take len (drop middle strings.now)))) }
        ensures err { OnErr result (self.new ≡ self.old) }
    {
        self.table
            .push_from_block(block, shares, strings, at, middle, len)?;
        Ok(())
    }

    /// Replaces the top definition of a name, or adds the first one. Manual: "Defining a macro".
    pub fn define(&mut self, name: Bytes, def: Def) -> Result<(), StateFault>
        requires { IsDefinition def }
        // exact steps: the complete new record; if an allocation fails, it is unchanged
        ensures ok { OnOk result (self.new ≡ defined self.old name def) }
        ensures err { OnErr result (self.new ≡ self.old) }
    {
        self.define_borrowed(name.as_slice(), def)
    }

    /// Replaces the top definition of a borrowed name, or adds the first one. The name is copied only if it is new.
    #[doc(hidden)]
    pub fn define_borrowed(&mut self, name: &[u8], def: Def) -> Result<(), StateFault>
        requires { IsDefinition def }
        ensures ok { OnOk result (self.new ≡ defined self.old name.now def) }
        ensures err { OnErr result (self.new ≡ self.old) }
    {
        self.table.define(name, def)?;
        Ok(())
    }

    /// Removes all definitions of a name, if it has any. Allocates nothing. Manual: "Deleting a macro".
    pub fn undefine(&mut self, name: &[u8])
        // exact steps: the complete new record
        ensures { self.new ≡ undefined self.old name.now }
    {
        self.table.undefine(name);
    }

    /// Removes the top definition of a name, if it has any. Allocates nothing. Manual: "Temporarily
    /// redefining macros".
    pub fn pop(&mut self, name: &[u8])
        // exact steps: the complete new record
        ensures { self.new ≡ popped self.old name.now }
    {
        self.table.pop(name);
    }

    /// Returns the begin and the end of quotes; both are empty if they are disabled.
    pub fn quotes(&self) -> (&[u8], &[u8])
        // exact steps: the fields of the record
        ensures begin { result.0.now ≡ self.now.quotes.begin }
        ensures end { result.1.now ≡ self.now.quotes.end }
    {
        (self.quotes.begin.as_slice(), self.quotes.end.as_slice())
    }

    /// Returns the begin and the end of comments; both are empty if they are disabled.
    pub fn comments(&self) -> (&[u8], &[u8])
        // exact steps: the fields of the record
        ensures begin { result.0.now ≡ self.now.comments.begin }
        ensures end { result.1.now ≡ self.now.comments.end }
    {
        (self.comments.begin.as_slice(), self.comments.end.as_slice())
    }

    /// Returns the quotes as a pair of delimiters.
    #[doc(hidden)]
    #[inline(always)]
    pub fn quote_pair(&self) -> &Delimiters
        ensures { result.now ≡ self.now.quotes }
    {
        &self.quotes
    }

    /// Returns the comment delimiters as a pair.
    #[doc(hidden)]
    #[inline(always)]
    pub fn comment_pair(&self) -> &Delimiters
        ensures { result.now ≡ self.now.comments }
    {
        &self.comments
    }

    /// Sets the quotes. An empty begin disables them; if only the end is empty, it is the default end.
    /// Manual: "Changing the quote characters".
    pub fn set_quotes(&mut self, begin: Bytes, end: Bytes) -> Result<(), StateFault>
        // exact steps: the complete new record; if an allocation fails, it is unchanged
        ensures ok { OnOk result (self.new ≡ with_quotes self.old begin end) }
        ensures err { OnErr result (self.new ≡ self.old) }
    {
        self.quotes = Delimiters::chosen_quotes(self.alloc, begin.as_slice(), end.as_slice())?;
        Ok(())
    }

    /// Sets the comment delimiters, by the same rule. Manual: "Changing the comment delimiters".
    pub fn set_comments(&mut self, begin: Bytes, end: Bytes) -> Result<(), StateFault>
        // exact steps: the complete new record; if an allocation fails, it is unchanged
        ensures ok { OnOk result (self.new ≡ with_comments self.old begin end) }
        ensures err { OnErr result (self.new ≡ self.old) }
    {
        self.comments = Delimiters::chosen_comments(self.alloc, begin.as_slice(), end.as_slice())?;
        Ok(())
    }

    /// Returns the number of the current diversion. Every state is valid, and none of its byte strings is
    /// longer than 2^64 - 1.
    pub fn current(&self) -> i32
        // exact steps: the field of the record
        ensures current { result ≡ self.now.current }
        ensures valid { IsState self.now }
        ensures sized { IsSized self.now }
    {
        self.current
    }

    /// Makes this diversion the current one. Manual: "Diverting output".
    pub fn divert(&mut self, number: i32)
        // exact steps: the complete new record
        ensures { self.new ≡ diverted self.old number }
    {
        self.current = number;
    }

    /// Adds text to the current diversion if its number is positive; otherwise nothing changes.
    pub fn append(&mut self, text: &[u8]) -> Result<(), StateFault>
        // exact steps: the complete new record; if an allocation fails, it is unchanged
        ensures ok { OnOk result (self.new ≡ appended self.old text.now) }
        ensures err { OnErr result (self.new ≡ self.old) }
    {
        if self.current > 0 {
            self.diversions.append(self.current, text)?;
        }
        Ok(())
    }

    /// Undiverts a diversion, unless it is the current one or has no text. Its text is removed from it. The
    /// text is added to the current diversion if that number is positive, returned if it is 0, and dropped
    /// if it is negative. Manual: "Undiverting output".
    pub fn undivert(&mut self, number: i32) -> Result<Option<Vec<u8>>, StateFault>
        // exact steps: the complete new record and the result; if an allocation fails, it is unchanged
        ensures ok { OnOk result (self.new ≡ undiverted self.old number) }
        ensures issued { IfOk result (λ text. option_map (λ t. t.items) text
            ≡ unless_empty (issued_from self.old number)) }
        ensures err { OnErr result (self.new ≡ self.old) }
    {
        if number == self.current {
            return Ok(None);
        }
        if self.current > 0 {
            self.diversions.move_text(number, self.current)?;
            return Ok(None);
        }
        let taken = self.diversions.take(number);
        if self.current < 0 {
            return Ok(None);
        }
        Ok(taken)
    }

    /// Returns the text of a diversion; empty if it has none.
    pub fn diversion(&self, number: i32) -> &[u8]
        // exact steps: the record's text of the number
        ensures { result.now ≡ diversion_of self.now number }
    {
        self.diversions.text(number)
    }

    /// Returns the least number above this one, and above 0, that has a text. The numbers of a state are
    /// positive, and they rise.
    pub fn next_diversion(&self, number: i32) -> Option<i32>
        // exact steps: the first number after this one
        ensures next { result ≡ next_after self.now.diversions number }
        ensures valid { AreDiversions self.now.diversions }
    {
        self.diversions.next(number)
    }

    /// Removes the diversion of the least number, and returns it with its text.
    pub fn take_least(&mut self) -> Option<(i32, Vec<u8>)>
        // exact steps: the first diversion, and the record without it
        ensures some { IfSome result (λ d. self.old
            ≡ record self.new { diversions = (d.0, d.1.items) ∷ self.new.diversions }) }
        ensures none { IfNone result ((self.old.diversions ≡ []) × (self.new ≡ self.old)) }
    {
        self.diversions.take_least()
    }
}
