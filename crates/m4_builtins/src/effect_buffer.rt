//! An effect that calls fill in turn, with the memory of the ones before.

ghost use Rattle.std.specs.Prelude.{◌≡◌, ◌==◌, ◌≤◌, ◌++◌, [], OnOk, IfSome, Some, None, true, false, option_copied};
ghost use Rattle.std.specs.Prelude.{◌⊎◌, IfOk, length, not};
ghost use Rattle.m4_input.specs.Ascii.{dollar};
ghost use Rattle.m4_input.specs.Token.{run_length};
ghost use Rattle.m4_builtins.specs.QuotesView.{pair_of};
ghost use Rattle.m4_builtins.specs.Warned.{warned_of};

use crate::args::Arg;
use crate::effect::Effect;
use crate::fault::BuiltinFault;
use crate::messages::{Warning, push_warning_line};
use crate::place::Place;
use crate::substitute::{plain_len, substitute_onto};
use itoa::{Buffer, Integer};
use m4_input::pushed::Pushed;
use m4_state::bytes::{Bytes, SHORT};
use m4_state::definition::Def;
use m4_state::text_buffer::TextBuffer;
use std::alloc::{AllocError, Global};
use std::marker::Model;

/// An [`Effect`] that the engine keeps. Calls fill it in turn, so that most of them ask for no memory: a text that is
/// made is in `buffer` until it is inserted, and mostly it is copied from there. `has_more` is false if inserting a
/// value is all that is left to do, as after most calls. A definition that is inserted is valid.
pub struct EffectBuffer {
    push: Push,
    buffer: TextBuffer,
    has_more: bool,
    messages: Vec<u8>,
    output: Vec<u8>,
    wrap: Option<Bytes>,
    skip: bool,
    exit: Option<u8>,
}

/// The value that is inserted before the input.
#[derive(Drop)]
enum Push {
    /// The text in the effect's buffer if it is made, and nothing otherwise.
    Buffer { is_made: bool },
    /// A shared text, or a definition.
    Value(Pushed),
}

impl Push {
    ghost use Rattle.m4_builtins.specs.declared.effect_buffer.Push.TheVariants as forms;

    /// Inserts the text in the buffer, or nothing. Hardly any call finds a value here, and otherwise `is_made` is set
    /// in place: to write all of a `Push` takes longer.
    #[inline(always)]
    fn set_made(&mut self, made: bool)
        ensures { self.new ≡ forms.Buffer made }
    {
        match self {
            Push::Value(_) => self.drop_value(made),
            Push::Buffer { is_made } => *is_made = made,
        }
    }

    /// Does the same, and drops the value that is here.
    #[inline(never)]
    fn drop_value(&mut self, is_made: bool)
        ensures { self.new ≡ forms.Buffer is_made }
    {
        *self = Push::Buffer { is_made };
    }
}

impl Model for EffectBuffer {
    ghost use Rattle.m4_builtins.specs.declared.effect.Effect.{Effect as Filled};
    ghost use Rattle.m4_builtins.specs.EffectView.{effect_view, IsEffect};

    ghost Value = { Filled };

    ghost view = { effect_view };

    ghost invariant = { IsEffect };
}

// Written out so that a caller's proof contains one call, not the drop of each field.
impl Drop for EffectBuffer {
    fn drop(self) {
        let EffectBuffer {
            push: _push,
            buffer: _buffer,
            has_more: _has_more,
            messages: _messages,
            output: _output,
            wrap: _wrap,
            skip: _skip,
            exit: _exit,
        } = self;
    }
}

impl EffectBuffer {
    ghost use Rattle.m4_input.specs.declared.pushed.Pushed.TheVariants as pushes;
    ghost use Rattle.m4_state.specs.Definition.{IsDefinition};
    ghost use Rattle.m4_builtins.specs.Acted.{IsPushed, nothing};
    ghost use Rattle.m4_builtins.specs.EffectView.{text_of_any};
    ghost use Rattle.m4_builtins.specs.Subst.{subst};

    /// Creates an effect that leaves nothing to do.
    pub fn new(alloc: Global) -> EffectBuffer
        ensures { result ≡ nothing }
    {
        EffectBuffer {
            push: Push::Buffer { is_made: false },
            buffer: TextBuffer::new(alloc),
            has_more: false,
            messages: Vec::new(alloc),
            output: Vec::new(alloc),
            wrap: None,
            skip: false,
            exit: None,
        }
    }

    /// Returns the effect as a record of its own.
    pub(crate) fn into_effect(mut self) -> Effect
        ensures effect { result ≡ self }
        ensures valid { IsPushed result.push }
    {
        let push = self.take_push();
        let EffectBuffer {
            push: _push,
            buffer: _buffer,
            has_more: _has_more,
            messages,
            output,
            wrap,
            skip,
            exit,
        } = self;
        Effect {
            push,
            messages: Bytes::from(messages),
            output: Bytes::from(output),
            wrap,
            skip,
            exit,
        }
    }

    /// Makes this an effect that leaves nothing to do. Its memory is kept.
    pub fn clear(&mut self)
        ensures { self.new ≡ nothing }
    {
        self.push.set_made(false);
        if self.has_more {
            self.clear_more();
        }
    }

    /// Leaves nothing to do but to insert the value.
    #[inline(never)]
    fn clear_more(&mut self)
        ensures { self.new ≡ record nothing { push = self.old.push } }
    {
        let alloc = self.alloc();
        self.has_more = false;
        self.wrap = None;
        self.skip = false;
        self.exit = None;
        // Hardly any call makes them, so their memory is not kept.
        self.messages = Vec::new(alloc);
        self.output = Vec::new(alloc);
    }

    /// Returns whether there is more to do than to insert a value.
    pub fn has_more(&self) -> bool
        ensures { result ≡ false → self.now ≡ record nothing { push = self.now.push } }
    {
        self.has_more
    }

    /// Returns whether its buffer has memory for a text.
    pub fn has_memory(&self) -> bool {
        self.buffer.has_memory()
    }

    /// Gives it memory for the next text that is made: that of a buffer whose contents are discarded.
    pub fn lend(&mut self, buffer: Vec<u8>)
        ensures { self.new ≡ self.old }
    {
        // Mostly it has no memory, and then there is nothing to move.
        if buffer.capacity() > 0 && !matches!(self.push, Push::Buffer { is_made: true }) {
            self.buffer = TextBuffer::from(buffer);
        }
    }

    /// Returns the text that is inserted before the input, if it was made here: an empty one if nothing is inserted.
    pub fn made_text(&self) -> Option<&[u8]>
        ensures { IfSome result (λ x. (self.now.push ≡ Some (pushes.Text x.now))
            ⊎ ((self.now.push ≡ None) × (x.now ≡ []))) }
    {
        match self.push {
            Push::Buffer { is_made: true } => Some(self.buffer.as_slice()),
            Push::Buffer { is_made: false } => Some(&[]),
            Push::Value(_) => None,
        }
    }

    /// Removes the value that is inserted before the input, and returns it. A definition is valid.
    pub fn take_push(&mut self) -> Option<Pushed>
        ensures value { result ≡ self.old.push }
        ensures valid { IsPushed result }
        ensures rest { self.new ≡ record self.old { push = None } }
    {
        match std::mem::replace(&mut self.push, Push::Buffer { is_made: false }) {
            Push::Buffer { is_made: false } => None,
            Push::Buffer { is_made: true } => {
                let text = Bytes::take_from(&mut self.buffer);
                Some(Pushed::Text(text))
            }
            Push::Value(value) => Some(value),
        }
    }

    /// Returns the messages to be written.
    pub fn messages(&self) -> &[u8]
        ensures { result.now ≡ self.now.messages }
    {
        &self.messages
    }

    /// Returns the output to be written at once.
    pub fn output(&self) -> &[u8]
        ensures { result.now ≡ self.now.output }
    {
        &self.output
    }

    /// Removes the text that is read after all input, and returns it.
    pub fn take_wrap(&mut self) -> Option<Bytes>
        ensures taken { result ≡ self.old.wrap }
        ensures rest { self.new ≡ record self.old { wrap = None } }
    {
        self.wrap.take()
    }

    /// Returns whether the rest of the line is skipped.
    pub fn skips(&self) -> bool
        ensures { result ≡ self.now.skip }
    {
        self.skip
    }

    /// Returns the code with which the run ends here.
    pub fn exit(&self) -> Option<u8>
        ensures { result ≡ self.now.exit }
    {
        self.exit
    }

    /// Returns the allocator of the effect's texts.
    pub(crate) fn alloc(&self) -> Global {
        self.buffer.alloc()
    }

    /// Returns an empty buffer for a text that is then inserted by `give`.
    pub(crate) fn buffer(&mut self) -> TextBuffer
        requires { self.old ≡ nothing }
        ensures empty { result ≡ [] }
        ensures stays { self.new ≡ nothing }
    {
        let alloc = self.alloc();
        let mut buffer = std::mem::replace(&mut self.buffer, TextBuffer::new(alloc));
        buffer.clear();
        buffer
    }

    /// Inserts a text before the input.
    pub(crate) fn give(&mut self, text: TextBuffer)
        ensures { self.new ≡ record self.old { push = Some (pushes.Text text) } }
    {
        self.buffer = text;
        self.push.set_made(true);
    }

    /// Inserts a copy of a text before the input.
    pub(crate) fn give_copy(&mut self, text: &[u8]) -> Result<(), AllocError>
        ensures { OnOk result (self.new ≡ record self.old { push = Some (pushes.Text text.now) }) }
    {
        self.push.set_made(true);
        self.buffer.clear();
        self.buffer.append(text)
    }

    /// Inserts an integer in decimal before the input.
    #[inline(always)]
    pub(crate) fn give_number<I: Integer>(&mut self, number: I) -> Result<(), AllocError>
        ensures { OnOk result (self.new ≡ record self.old { push = Some (pushes.Text (I.text number)) }) }
    {
        let mut buffer = Buffer::new();
        self.give_copy(buffer.format(number).as_bytes())
    }

    /// Inserts a text before the input, shared if others may share it. So few bytes that no slice has them are copied
    /// at once.
    #[inline(always)]
    pub(crate) fn give_shared(&mut self, text: &Bytes) -> Result<(), AllocError>
        ensures { OnOk result (self.new ≡ record self.old { push = Some (pushes.Text text.now) }) }
    {
        if text.as_slice().len() <= SHORT {
            self.buffer.clear();
            self.buffer.append_bytes(text)?;
            self.push.set_made(true);
            return Ok(());
        }
        self.give_slice(text)
    }

    /// Inserts a text before the input, shared if it is a slice that others may share.
    #[inline(never)]
    fn give_slice(&mut self, text: &Bytes) -> Result<(), AllocError>
        ensures { OnOk result (self.new ≡ record self.old { push = Some (pushes.Text text.now) }) }
    {
        match text.shared()? {
            Some(shared) => {
                self.push = Push::Value(Pushed::Text(shared));
                Ok(())
            }
            None => self.give_copy(text.as_slice()),
        }
    }

    /// Inserts a text with a call's name and arguments substituted, by these quotes, and returns whether it did. It
    /// does nothing if the text has no dollar, and so is its own expansion.
    #[inline(always)]
    pub(crate) fn give_expansion(
        &mut self,
        text: &Bytes,
        name: &Bytes,
        list: &[Arg],
        quotes: (&[u8], &[u8]),
    ) -> Result<bool, BuiltinFault>
        // exact steps: the text with the arguments substituted
        ensures made { IfOk result (λ made. made ≡ true → self.new ≡ record self.old
            { push = Some (pushes.Text (subst text.now name.now list.now (pair_of quotes.entry))) }) }
        ensures own { IfOk result (λ made. made ≡ false
            → (self.new ≡ self.old) × (subst text.now name.now list.now (pair_of quotes.entry) ≡ text.now)) }
    {
        let bytes = text.as_slice();
        let plain = plain_len(bytes);
        if plain == bytes.len() {
            return Ok(false);
        }
        self.give_substituted(bytes, plain, name.as_slice(), list, quotes)?;
        Ok(true)
    }

    /// Inserts a text with the same substituted. It has so many bytes before its first dollar. Not inlined, so that the
    /// way of a text without one is short.
    #[inline(never)]
    fn give_substituted(
        &mut self,
        text: &[u8],
        plain: usize,
        name: &[u8],
        list: &[Arg],
        quotes: (&[u8], &[u8]),
    ) -> Result<(), BuiltinFault>
        requires count { plain ≡ run_length (λ b. not (b == dollar)) text.now }
        requires within { plain ≤ length text.now }
        ensures { OnOk result (self.new ≡ record self.old
            { push = Some (pushes.Text (subst text.now name.now list.now (pair_of quotes.entry))) }) }
    {
        // The text is marked as made first: after the substitution that takes more instructions.
        self.push.set_made(true);
        self.buffer.clear();
        substitute_onto(&mut self.buffer, text, plain, name, list, quotes)
    }

    /// Inserts the text of an argument before the input: a definition, or none, counts as empty.
    pub(crate) fn give_argument(&mut self, arg: Option<&Arg>) -> Result<(), AllocError>
        ensures { OnOk result (self.new ≡ record self.old
            { push = Some (pushes.Text (text_of_any (option_copied arg.entry))) }) }
    {
        match arg {
            Some(Arg::Text(text)) => self.give_shared(text),
            Some(Arg::Definition(_)) | None => self.give_copy(&[]),
        }
    }

    /// Inserts a definition before the input.
    pub(crate) fn give_definition(&mut self, definition: Def)
        requires { IsDefinition definition }
        ensures { self.new ≡ record self.old { push = Some (pushes.Definition definition) } }
    {
        self.push = Push::Value(Pushed::Definition(definition));
    }

    /// Appends messages.
    pub(crate) fn add_messages(&mut self, messages: Vec<u8>) -> Result<(), AllocError>
        ensures { OnOk result (self.new ≡ record self.old { messages = self.old.messages ++ messages.items }) }
    {
        if self.messages.is_empty() {
            self.has_more |= !messages.is_empty();
            self.messages = messages;
            return Ok(());
        }
        self.has_more = true;
        self.messages.extend_from_slice(&messages)
    }

    /// Appends a warning to the messages. Not inlined, since hardly any call warns.
    #[inline(never)]
    pub(crate) fn add_warning(
        &mut self,
        place: &Place,
        about: Warning<'_>,
    ) -> Result<(), AllocError>
        ensures { OnOk result (self.new ≡ record self.old
            { messages = self.old.messages ++ warned_of place.now about.entry }) }
    {
        self.has_more = true;
        push_warning_line(&mut self.messages, place, about)
    }

    /// Inserts a warning before the messages.
    #[inline(never)]
    pub(crate) fn add_warning_first(
        &mut self,
        place: &Place,
        about: Warning<'_>,
    ) -> Result<(), AllocError>
        ensures { OnOk result (self.new ≡ record self.old
            { messages = warned_of place.now about.entry ++ self.old.messages }) }
    {
        let mut messages = Vec::new(self.alloc());
        push_warning_line(&mut messages, place, about)?;
        messages.extend_from_slice(&self.messages)?;
        self.has_more = true;
        self.messages = messages;
        Ok(())
    }

    /// Sets the output that is written at once.
    pub(crate) fn set_output(&mut self, output: Vec<u8>)
        ensures { self.new ≡ record self.old { output = output.items } }
    {
        self.has_more |= !output.is_empty();
        self.output = output;
    }

    /// Saves a text until all input is read. Of a short one the memory is kept.
    pub(crate) fn save(&mut self, mut text: TextBuffer)
        requires { self.old ≡ nothing }
        ensures { self.new ≡ record self.old { wrap = Some text } }
    {
        self.has_more = true;
        self.wrap = Some(Bytes::take_from(&mut text));
        self.buffer = text;
    }

    /// Skips the rest of the line.
    pub(crate) fn skip_line(&mut self)
        ensures { self.new ≡ record self.old { skip = true } }
    {
        self.has_more = true;
        self.skip = true;
    }

    /// Ends the run with a code.
    pub(crate) fn end_with(&mut self, code: u8)
        ensures { self.new ≡ record self.old { exit = Some code } }
    {
        self.has_more = true;
        self.exit = Some(code);
    }
}
