//! A call whose arguments are being collected. Manual: "Macro arguments", "Quoting arguments".
//!
//! A call keeps its memory when it was made, and the next one takes its place. So most calls ask for no memory.

ghost use Rattle.std.specs.Prelude.{◌≡◌, ◌≤◌, ◌+◌, ◌++◌, ◌∷◌, [], true, false, Ok, OnOk};
ghost use Rattle.std.specs.Prelude.{IfOk, IfSome, None, length, take};
ghost use Rattle.std.specs.List.{AllByRecursion};
ghost use Rattle.m4_state.specs.Definition.{IsDefinition};
ghost use Rattle.m4_builtins.specs.Args.{IsArg};
ghost use Rattle.m4_engine.specs.Args.{role_of, argument_of, dropped_if_any, with_argument};
ghost use Rattle.m4_engine.specs.Collected.{TakesByte, IsListEnd};
ghost use Rattle.m4_engine.specs.Engine.{warning_if_dropped};
ghost use Rattle.m4_engine.specs.Expand.{call_of};
ghost use Rattle.m4_engine.specs.Expansion.{place_at};

use crate::role::{ListEnd, Role};
use m4_builtins::args::Arg;
use m4_builtins::place::Place;
use m4_input::input::Input;
use m4_state::bytes::Bytes;
use m4_state::definition::Def;
use m4_state::text_buffer::TextBuffer;
use std::alloc::{AllocError, Global};
use std::marker::Model;

/// A call whose list is not closed yet: its definition, name and place as they were when its name was read, the
/// complete arguments, and the part of the next one that was read. So no open call changes if a definition does. The
/// first `count` arguments are complete. The others are of earlier calls, and are kept for their memory.
#[derive(Drop)]
pub struct OpenCall {
    definition: Def,
    name: Bytes,
    place: Place,
    args: Vec<Arg>,
    count: usize,
    parentheses: usize,
    begun: bool,
    bytes: TextBuffer,
    tokens: Vec<Def>,
    is_large: bool,
}

impl Model for OpenCall {
    ghost use Rattle.std.specs.Prelude.{◌≤◌, length};
    ghost use Rattle.m4_engine.specs.Expansion.{Call};
    ghost use Rattle.m4_engine.specs.CallView.{call_view, IsOpenCall};

    ghost Value = { Call };

    ghost view = { call_view };

    ghost invariant = { IsOpenCall };
}

/// The greatest length of an argument that is copied to where an earlier one was. A longer one takes the memory in
/// which its bytes were collected, so that it can be shared, and is dropped when its call was made. To copy few bytes
/// takes less time than the memory that sharing needs.
const LARGEST_COPIED: usize = 256;

/// Returns whether the text of a definition is too long to be kept for its memory.
fn is_large(definition: &Def) -> bool {
    match definition {
        Def::Text(text) | Def::Placeholder(text) => text.as_slice().len() > LARGEST_COPIED,
        Def::Builtin(_) => false,
    }
}

/// Drops the large texts and the definitions among the arguments.
fn drop_large(args: &mut [Arg]) {
    for arg in args.iter_mut() {
        let is_large = match arg {
            Arg::Text(text) => text.as_slice().len() > LARGEST_COPIED,
            Arg::Definition(_) => true,
        };
        if is_large {
            *arg = Arg::Text(Bytes::empty());
        }
    }
}

/// Returns the argument that was collected, from its bytes and its definitions. No bytes are left.
fn argument(bytes: &mut TextBuffer, tokens: Vec<Def>) -> Result<Arg, AllocError>
    requires { AllByRecursion IsDefinition tokens.items }
    ensures value { IfOk result (λ a. a ≡ argument_of bytes.old tokens.items) }
    ensures valid { IfOk result IsArg }
    ensures empty { OnOk result (bytes.new ≡ []) }
{
    let mut left = tokens;
    if bytes.is_empty() && left.len() == 1 {
        if let Some(definition) = left.pop() {
            return Ok(Arg::Definition(definition));
        }
    }
    if bytes.len() > LARGEST_COPIED {
        return Ok(Arg::Text(Bytes::from_vec(bytes.take())?));
    }
    let mut text = Bytes::empty();
    text.copy_text(bytes)?;
    bytes.clear();
    Ok(Arg::Text(text))
}

impl OpenCall {
    /// Creates a call without a name, a definition or memory.
    pub fn blank(alloc: Global) -> OpenCall {
        OpenCall {
            definition: Def::Text(Bytes::empty()),
            name: Bytes::empty(),
            place: Place {
                file: Bytes::empty(),
                line: 0,
            },
            args: Vec::new(alloc),
            count: 0,
            parentheses: 0,
            begun: false,
            bytes: TextBuffer::new(alloc),
            tokens: Vec::new(alloc),
            is_large: false,
        }
    }

    /// Sets the name, to the first `len` bytes of a text, and the definition. The text is taken, since a short name is
    /// copied with the bytes after it.
    #[inline(always)]
    pub fn renew(&mut self, text: &[u8], len: usize, definition: &Def) -> Result<(), AllocError>
        requires valid { IsDefinition definition.now }
        requires within { len ≤ length text.now }
        ensures { OnOk result (self.new ≡ record self.old { definition = definition.now; name = take len text.now }) }
    {
        let alloc = self.bytes.alloc();
        self.name.set_front(alloc, text, len)?;
        self.definition.set(definition)
    }

    /// Makes this the call of another's name and definition, with no argument read yet. Keeps its memory and place.
    #[inline(always)]
    pub fn begin(&mut self, next: &mut OpenCall)
        ensures { self.new ≡ call_of next.old.definition next.old.name self.old.place }
    {
        // To copy a short text takes less time than to swap two.
        if !self.name.set_short(&next.name) {
            std::mem::swap(&mut self.name, &mut next.name);
        }
        if !self.definition.set_in_place(&next.definition) {
            std::mem::swap(&mut self.definition, &mut next.definition);
            self.is_large |= is_large(&self.definition);
        }
        self.clear();
    }

    /// Sets the definition.
    #[inline(always)]
    pub fn set_definition(&mut self, definition: &Def) -> Result<(), AllocError>
        requires { IsDefinition definition.now }
        ensures { OnOk result (self.new ≡ record self.old { definition = definition.now }) }
    {
        self.definition.set(definition)
    }

    /// Sets the place of the call's name: it is the next token of this input.
    #[inline(always)]
    pub fn set_place(&mut self, input: &Input) -> Result<(), AllocError>
        ensures { OnOk result (self.new ≡ record self.old { place = place_at input.now.pending }) }
    {
        input.put_name(&mut self.place.file)?;
        self.place.line = input.line();
        Ok(())
    }

    /// Drops the arguments, but keeps their memory.
    #[inline(always)]
    fn clear(&mut self)
        ensures { self.new ≡ call_of self.old.definition self.old.name self.old.place }
    {
        self.count = 0;
        self.parentheses = 0;
        self.begun = false;
        self.bytes.clear();
        self.tokens.clear();
    }

    /// Drops the memory of all but the first `most` arguments, and of anything large, if there is such memory. The rest
    /// of the contents is dropped by `renew`.
    #[inline(always)]
    pub fn shed(&mut self, most: usize) {
        if self.args.len() > most || self.is_large {
            self.shed_memory(most);
        }
    }

    /// Drops the memory of all but the first `most` arguments, and of anything large.
    #[inline(never)]
    fn shed_memory(&mut self, most: usize) {
        let alloc = self.bytes.alloc();
        self.count = 0;
        self.parentheses = 0;
        self.tokens = Vec::new(alloc);
        self.args.truncate(most);
        drop_large(&mut self.args);
        self.bytes = TextBuffer::new(alloc);
        self.definition = Def::Text(Bytes::empty());
        self.is_large = false;
    }

    /// Returns whether the call has no memory for its arguments yet.
    #[inline(always)]
    pub fn needs_memory(&self) -> bool {
        self.args.is_empty()
    }

    /// Takes the memory for arguments of a call that was made, if this one has none.
    #[inline(always)]
    pub fn take_memory(&mut self, made: &mut OpenCall)
        ensures { self.new ≡ self.old }
    {
        if !self.args.is_empty() {
            return;
        }
        self.count = 0;
        made.count = 0;
        made.parentheses = 0;
        std::mem::swap(&mut self.args, &mut made.args);
        if self.bytes.is_empty() {
            made.bytes.clear();
            std::mem::swap(&mut self.bytes, &mut made.bytes);
        }
    }

    /// Returns the definition.
    pub fn definition(&self) -> &Def
        ensures value { result.now ≡ self.now.definition }
        ensures valid { IsDefinition result.now }
    {
        &self.definition
    }

    /// Returns the name by which the macro was called.
    pub fn name(&self) -> &Bytes
        ensures { result.now ≡ self.now.name }
    {
        &self.name
    }

    /// Returns the arguments that are complete.
    pub fn arguments(&self) -> &[Arg]
        ensures list { result.now ≡ self.now.done }
        ensures valid { AllByRecursion IsArg result.now }
    {
        self.args.split_at(self.count).0
    }

    /// Returns the place of the call's name.
    pub fn place(&self) -> &Place
        ensures { result.now ≡ self.now.place }
    {
        &self.place
    }

    /// Marks the argument as begun, so that white space now belongs to it.
    pub fn mark_begun(&mut self)
        ensures { self.new ≡ record self.old { begun = true } }
    {
        self.begun = true;
    }

    /// Returns the role of a byte that belongs to no other token.
    pub fn role(&self, byte: u8) -> Role
        ensures { result ≡ role_of byte self.now }
    {
        match byte {
            b'(' => Role::Opening,
            b')' => Role::Closing,
            b',' if self.parentheses == 0 => Role::Separator,
            b' ' | 9..=13 if !self.begun => Role::Blank,
            _ => Role::Other,
        }
    }

    /// Appends the first `len` bytes of a text to the argument.
    #[inline(always)]
    pub fn put_front(&mut self, text: &[u8], len: usize) -> Result<(), AllocError>
        requires { len ≤ length text.now }
        ensures { OnOk result (self.new ≡ record self.old
            { begun = true; bytes = self.old.bytes ++ take len text.now }) }
    {
        self.begun = true;
        self.bytes.append_front(text, len)
    }

    /// Appends a definition to the argument.
    pub fn put_token(&mut self, definition: Def) -> Result<(), AllocError>
        requires { IsDefinition definition }
        ensures { OnOk result (self.new ≡ record self.old
            { begun = true; tokens = self.old.tokens ++ definition ∷ [] }) }
    {
        self.begun = true;
        self.tokens.push(definition)?;
        Ok(())
    }

    /// Returns whether the argument drops definitions. A single definition without text is the argument itself.
    fn drops(&self) -> bool
        ensures { dropped_if_any self.now.place self.now.bytes self.now.tokens
            ≡ warning_if_dropped result self.now.place }
    {
        match self.tokens.len() {
            0 => false,
            1 => !self.bytes.is_empty(),
            _ => true,
        }
    }

    /// Ends the argument, and returns whether definitions in it were dropped.
    #[inline(always)]
    #[tactic(auto, using(crate::proofs::Calls::done_valid, crate::proofs::Calls::text_argument))]
    pub fn end_argument(&mut self) -> Result<bool, AllocError>
        requires { self.old.parentheses ≡ 0 }
        ensures { IfOk result (λ drops. (self.new ≡ with_argument self.old)
            × (dropped_if_any self.old.place self.old.bytes self.old.tokens
            ≡ warning_if_dropped drops self.old.place)) }
    {
        // Most arguments are short texts, and most find the memory of an earlier one.
        if self.bytes.len() <= LARGEST_COPIED
            && self.tokens.is_empty()
            && self.count < self.args.len()
            && let Arg::Text(kept) = &mut self.args[self.count]
        {
            kept.copy_text(&self.bytes)?;
            self.bytes.clear();
            self.count += 1;
            self.begun = false;
            return Ok(false);
        }
        self.end_any_argument()
    }

    /// Ends an argument that has definitions, is large, or is in a place that no earlier one had.
    #[inline(never)]
    #[tactic(auto, using(crate::proofs::Calls::done_valid))]
    fn end_any_argument(&mut self) -> Result<bool, AllocError>
        requires { self.old.parentheses ≡ 0 }
        ensures { IfOk result (λ drops. (self.new ≡ with_argument self.old)
            × (dropped_if_any self.old.place self.old.bytes self.old.tokens
            ≡ warning_if_dropped drops self.old.place)) }
    {
        let drops = self.drops();
        self.is_large |= self.bytes.len() > LARGEST_COPIED;
        let alloc = self.bytes.alloc();
        let count = self.count;
        let tokens = std::mem::replace(&mut self.tokens, Vec::new(alloc));
        let arg = argument(&mut self.bytes, tokens)?;
        if count < self.args.len() {
            self.args[count] = arg;
        } else {
            self.args.push(arg)?;
        }
        self.count = count + 1;
        self.begun = false;
        Ok(drops)
    }

    /// Acts on a byte that belongs to no other token, unless it ends an argument that drops definitions, or closes the
    /// list. Returns the end that was left.
    #[inline(always)]
    pub fn take_byte(&mut self, byte: u8) -> Result<Option<ListEnd>, AllocError>
        // exact steps: the byte's effect by its role, which is one on the call alone
        ensures taken { result ≡ Ok None → TakesByte byte self.old self.new }
        ensures left { IfOk result (λ o. IfSome o (λ end. IsListEnd end byte self.old × (self.new ≡ self.old))) }
    {
        match self.role(byte) {
            Role::Blank => {}
            Role::Opening => {
                self.begun = true;
                self.bytes.push(b'(')?;
                self.parentheses += 1;
            }
            Role::Closing if self.parentheses == 0 => return Ok(Some(ListEnd::List)),
            Role::Closing => {
                self.begun = true;
                self.bytes.push(b')')?;
                self.parentheses -= 1;
            }
            Role::Separator if self.drops() => return Ok(Some(ListEnd::Argument)),
            Role::Separator => {
                let _drops_nothing = self.end_argument()?;
            }
            Role::Other => self.put_front(&[byte], 1)?,
        }
        Ok(None)
    }
}
