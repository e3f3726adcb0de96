//! The input that a run has not read yet: at most one definition, then pushed text, then the rest of one file.
//!
//! The file is read in blocks. `more` asks the reader for one. `next`, `sees_paren` and `skip_line` ask only
//! while the bytes in hand do not decide what they return. If the reader or an allocation fails, the bytes that were
//! read are still in hand, except those that `skip_line` has discarded, and every later call that can fail returns the
//! same fault. `push_front` is the exception: if it runs out of memory, it may be called again.
//!
//! Contracts see `Held` (`specs/Input.antt`). Manual: "How m4 copies input to output".

ghost use Rattle.std.specs.Prelude.{◌≡◌, ◌<◌, ◌≤◌, Some, None, OnOk, OnErr, IfOk, IfErr, IfSome, Ok, Err};
ghost use Rattle.std.specs.Prelude.{◌-◌, true, false, [], ◌||◌, ◌≢◌, IfNone, length, take, drop};
ghost use Rattle.m4_input.specs.Pending.{consumed, line_of, name_of, newlines_in, text_of};

use crate::delims::Delims;
use crate::fault::InputFault;
use crate::front::{Answer, Look, Scan, Unended};
use crate::look::{copied, list_follows, look_by_kind};
use crate::pushed::Pushed;
use crate::slice::line_len;
use crate::text::Text;
use crate::token::Token;
use m4_state::bytes::Bytes;
use m4_state::definition::Def;
use m4_state::device::ByteSource;
use std::alloc::{AllocError, Global};
use std::marker::Model;

/// A file or wrapped text that is being read, with the values that calls pushed before it.
pub struct Input {
    alloc: Global,
    definition: Option<Def>,
    text: Text,
    name: Option<Bytes>,
    may_follow: bool,
    fault: Option<InputFault>,
}

impl Model for Input {
    ghost use Rattle.m4_input.specs.Input.{Held};
    ghost use Rattle.m4_input.specs.InputView.{view_of, IsHeld};

    ghost Value = { Held };

    ghost view = { view_of };

    ghost invariant = { λ i. IsHeld (view_of i) };
}

// Written out so that a caller's proof contains one call, not the drop of each field.
impl Drop for Input {
    fn drop(self) {
        let Input {
            alloc: _alloc,
            definition: _definition,
            text: _text,
            name: _name,
            may_follow: _may_follow,
            fault: _fault,
        } = self;
    }
}

impl Input {
    ghost use Rattle.m4_input.specs.Input.{Held, IsLasting, unread_file, wrapped_text, with_pushed, all_read};
    ghost use Rattle.m4_input.specs.Input.{NextGives, ParenGives, SkipGives, failures_after};
    ghost use Rattle.m4_input.specs.Blocks.{BlockGives, TokenGives, LineGives, IsInFront};
    ghost use Rattle.m4_input.specs.InputView.{fault_of};
    ghost use Rattle.m4_input.specs.declared.pushed.Pushed.TheVariants as pushes;

    /// Creates the input of a file that is read from its start.
    pub fn file(alloc: Global, name: Bytes) -> Input
        ensures { result ≡ unread_file name }
    {
        Input {
            alloc,
            definition: None,
            text: Text::new(alloc),
            name: Some(name),
            may_follow: true,
            fault: None,
        }
    }

    /// Creates the input of text that was saved for the end of a run. It belongs to no file, and it is
    /// complete: no reader is used. Manual: "Saving text until end of input".
    pub fn wrapped(alloc: Global, text: Bytes) -> Result<Input, AllocError>
        // exact steps: the text pending, without a file
        ensures { IfOk result (λ i. i ≡ wrapped_text text) }
    {
        let mut pushed = Text::new(alloc);
        pushed.push(text)?;
        Ok(Input {
            alloc,
            definition: None,
            text: pushed,
            name: None,
            may_follow: false,
            fault: None,
        })
    }

    /// Returns the current line, counted from 1; 0 in wrapped text. It counts the newlines of the file that
    /// were read, and stays at its greatest value. Manual: "Location within input".
    pub fn line(&self) -> u64
        ensures { result ≡ line_of self.now.pending }
    {
        match self.name {
            None => 0,
            Some(_) => (self.text.newlines() as u64).saturating_add(1),
        }
    }

    /// Returns the file's name; empty in wrapped text.
    pub fn name(&self) -> &[u8]
        ensures { result.now ≡ name_of self.now.pending }
    {
        match &self.name {
            Some(name) => name.as_slice(),
            None => &[],
        }
    }

    /// Returns whether bytes of the file may follow those in hand, since the reader has not ended yet.
    #[doc(hidden)]
    pub fn may_follow(&self) -> bool
        ensures { result ≡ self.now.pending.may_follow }
    {
        self.may_follow
    }

    /// Returns the fault that each later call returns, if one of these was met.
    #[doc(hidden)]
    pub fn fault(&self) -> Option<InputFault>
        ensures { result ≡ self.now.fault }
    {
        self.fault
    }

    /// Returns the file's name, shared; empty in wrapped text.
    #[doc(hidden)]
    #[inline(always)]
    pub fn share_name(&self) -> Result<Bytes, AllocError>
        ensures { IfOk result (λ b. b ≡ name_of self.now.pending) }
    {
        match &self.name {
            Some(name) => name.share(),
            None => Ok(Bytes::empty()),
        }
    }

    /// Makes these bytes the file's name; empty in wrapped text. A short name takes the place of a short one.
    #[doc(hidden)]
    #[inline(always)]
    pub fn put_name(&self, name: &mut Bytes) -> Result<(), AllocError>
        ensures ok { OnOk result (name.new ≡ name_of self.now.pending) }
        ensures err { OnErr result (name.new ≡ name.old) }
    {
        match &self.name {
            Some(file) => name.set(file),
            None => {
                *name = Bytes::empty();
                Ok(())
            }
        }
    }

    /// Returns bytes at the start in one slice, and whether others in hand come after them. If so, there are more than
    /// `looked` of them: those that are contiguous, or a copy of more, in `copy`. Returns `None` if a definition comes
    /// before them, and `AllocError` if there is no memory for the copy. Manual: "How m4 copies input to output".
    #[doc(hidden)]
    #[inline(always)]
    pub fn front<'a>(
        &'a self,
        looked: usize,
        copy: &'a mut Vec<u8>,
    ) -> Result<Option<(&'a [u8], bool)>, AllocError>
        ensures text { IfOk result (λ o. IfSome o (λ r. IsInFront self.now.pending r.0.now
            (r.1 || self.now.pending.may_follow))) }
        ensures all { IfOk result (λ o. IfSome o (λ r. r.1 ≡ false → r.0.now ≡ text_of self.now.pending)) }
        ensures longer { IfOk result (λ o. IfSome o (λ r. r.1 ≡ true → looked < length r.0.now)) }
        ensures first { IfOk result (λ o. IfSome o (λ r. self.now.pending.definition ≡ None)) }
        ensures none { IfOk result (λ o. IfNone o (self.now.pending.definition ≢ None)) }
    {
        if self.definition.is_some() {
            return Ok(None);
        }
        let front = self.text.longer_front(looked, copy)?;
        Ok(Some(front))
    }

    /// Copies the bytes at the start that are contiguous, if they are few, before those that come after them, so that
    /// both are contiguous. Returns whether it did.
    #[doc(hidden)]
    pub fn join(&mut self) -> bool
        ensures { self.new ≡ self.old }
    {
        self.text.join()
    }

    /// Returns an empty buffer. It has the memory of a text that was read to its end, if one was kept.
    #[doc(hidden)]
    pub fn take_buffer(&mut self) -> Vec<u8>
        ensures empty { result.items ≡ [] }
        ensures stays { self.new ≡ self.old }
    {
        self.text.take_buffer()
    }

    /// Discards a definition and the first n bytes. The last `inline` ones have no newlines, as in a name, and are not
    /// looked at.
    #[doc(hidden)]
    #[inline(always)]
    pub fn consume(&mut self, n: usize, inline: usize)
        requires within { (inline ≤ n) × (n ≤ length (text_of self.old.pending)) }
        requires inline { newlines_in (take inline (drop (n - inline) (text_of self.old.pending))) ≡ 0 }
        // exact steps: the rest after n bytes
        ensures { self.new ≡ record self.old { pending = consumed n self.old.pending } }
    {
        // There is hardly ever one, and the test takes less time than dropping none.
        if self.definition.is_some() {
            self.definition = None;
        }
        self.text.consume(n, inline);
    }

    /// Inserts a value at the start, to be read before everything else. Returns `OutOfMemory` if an
    /// allocation fails, or the fault of an earlier call; the input then stays as it was. A text of up to 128 bytes is
    /// copied before the bytes that come next, where there is room; a longer one stays where it is.
    #[inline(always)]
    pub fn push_front(&mut self, value: Pushed) -> Result<(), InputFault>
        requires { self.old.pending.definition ≡ None }
        // exact steps: the value at the start; if the call fails, the input is as it was
        ensures ok { OnOk result (
            (self.new ≡ record self.old { pending = with_pushed value self.old.pending })
            × (self.old.fault ≡ None)) }
        ensures err { OnErr result (self.new ≡ self.old) }
        // an earlier fault again, otherwise OutOfMemory
        ensures again { IfSome self.old.fault (λ f. result ≡ Err f) }
        ensures fault { self.old.fault ≡ None → IfErr result (λ f. f ≡ InputFault.OutOfMemory) }
    {
        if let Some(fault) = self.fault {
            return Err(fault);
        }
        match value {
            Pushed::Text(text) => {
                if let Err(AllocError) = self.text.push(text) {
                    return Err(InputFault::OutOfMemory);
                }
            }
            Pushed::Definition(def) => self.definition = Some(def),
        }
        Ok(())
    }

    /// Inserts a short text at the start, if it can be copied to directly before the bytes that come next. Returns
    /// whether it did.
    #[doc(hidden)]
    #[inline(always)]
    pub fn push_in_place(&mut self, text: &[u8]) -> bool
        requires { self.old.pending.definition ≡ None }
        ensures put { result ≡ true
            → self.new ≡ record self.old { pending = with_pushed (pushes.Text text.now) self.old.pending } }
        ensures left { result ≡ false → self.new ≡ self.old }
    {
        self.text.put_in_front(text)
    }

    /// Returns the first token and consumes it. Returns `EndInString` or `EndInComment` if the input ends
    /// first; then nothing is pending. Returns `Read` if the reader fails and `OutOfMemory` if an allocation
    /// fails; so does each later call. Takes time in proportion to the bytes that it consumes; but a token that
    /// is read in several blocks is looked at again after each of them. Manual: "Lexical and syntactic
    /// conventions".
    pub fn next<R: ByteSource>(
        &mut self,
        reader: &mut R,
        delims: &Delims<'_>,
    ) -> Result<Token, InputFault>
        // exact steps: the token, and the rest after it; the reader was asked only where the token was open
        ensures gives { NextGives delims.now.quotes.now delims.now.comments.now
            (R.script reader.old) (R.script reader.new) self.old self.new result }
        ensures counted { R.failures reader.new
            ≡ failures_after self.old.fault self.new.fault (R.failures reader.old) }
    {
        if let Some(fault) = self.fault {
            return Err(fault);
        }
        if let Some(def) = self.definition.take() {
            return Ok(Token::Definition(def));
        }
        let mut copy = Vec::new(self.alloc);
        let mut looked = 0;
        'looks: loop {
            let Ok((text, others)) = self.text.longer_front(looked, &mut copy) else {
                return Err(self.stop(InputFault::OutOfMemory));
            };
            looked = text.len();
            let look = look_by_kind(text, delims, others | self.may_follow);
            match copied(self.alloc, look, text) {
                Ok(Scan::Found(token, len)) => {
                    self.consume(len, 0);
                    return Ok(token);
                }
                Ok(Scan::Broken(what)) => return Err(self.end_inside(what)),
                Ok(Scan::NeedsMore) if others => {}
                Ok(Scan::NeedsMore) => {
                    let _came = self.more(reader)?;
                }
                Err(AllocError) => return Err(self.stop(InputFault::OutOfMemory)),
            }
        }
    }

    /// Returns whether an argument list follows: a parenthesis, with no blank before it. Consumes nothing.
    /// Returns `Read` and `OutOfMemory` as `next` does. Manual: "Macro invocation".
    pub fn sees_paren<R: ByteSource>(
        &mut self,
        reader: &mut R,
        delims: &Delims<'_>,
    ) -> Result<bool, InputFault>
        // exact steps: whether a list follows; the reader was asked only where that was open
        ensures gives { ParenGives delims.now.quotes.now delims.now.comments.now
            (R.script reader.old) (R.script reader.new) self.old self.new result }
        ensures counted { R.failures reader.new
            ≡ failures_after self.old.fault self.new.fault (R.failures reader.old) }
    {
        if let Some(fault) = self.fault {
            return Err(fault);
        }
        if self.definition.is_some() {
            return Ok(false);
        }
        let mut copy = Vec::new(self.alloc);
        let mut looked = 0;
        'looks: loop {
            let Ok((text, others)) = self.text.longer_front(looked, &mut copy) else {
                return Err(self.stop(InputFault::OutOfMemory));
            };
            looked = text.len();
            match list_follows(text, delims, others | self.may_follow) {
                Answer::Yes => return Ok(true),
                Answer::No => return Ok(false),
                Answer::Unknown if others => {}
                Answer::Unknown => {
                    let _came = self.more(reader)?;
                }
            }
        }
    }

    /// Discards a definition and the rest of the line, with its newline; everything if no newline is left. Keeps
    /// no byte of the line. Returns `Read` and `OutOfMemory` as `next` does. Manual: "Deleting whitespace in input".
    pub fn skip_line<R: ByteSource>(&mut self, reader: &mut R) -> Result<(), InputFault>
        // exact steps: the rest after the line; the reader was asked only where the line went on
        ensures gives { SkipGives
            (R.script reader.old) (R.script reader.new) self.old self.new result }
        ensures counted { R.failures reader.new
            ≡ failures_after self.old.fault self.new.fault (R.failures reader.old) }
    {
        if let Some(fault) = self.fault {
            return Err(fault);
        }
        'blocks: loop {
            if self.skip_in_hand() {
                return Ok(());
            }
            let _came = self.more(reader)?;
        }
    }

    /// Asks the reader once, and appends a block of at most 4,096 bytes to those in hand. Returns whether bytes came:
    /// if none did, the reader is at its end, and the input is closed. Returns `Read` if the reader fails and
    /// `OutOfMemory` if an allocation fails; no byte is lost then, and each later call returns the fault.
    #[doc(hidden)]
    pub fn more<R: ByteSource>(&mut self, reader: &mut R) -> Result<bool, InputFault>
        requires open { self.old.pending.may_follow ≡ true }
        requires sound { self.old.fault ≡ None }
        // exact steps: a block of the reader after the bytes in hand, or its end
        ensures gives { BlockGives (R.script reader.old) (R.script reader.new) self.old self.new result }
        // bytes come only a limited number of times
        ensures falls { result ≡ Ok true → R.takes_left reader.new < R.takes_left reader.old }
        ensures counted { R.failures reader.new
            ≡ failures_after self.old.fault self.new.fault (R.failures reader.old) }
    {
        match self.text.take_block(reader) {
            Ok(came) => {
                self.may_follow = came;
                Ok(came)
            }
            Err(fault) => Err(self.stop(fault)),
        }
    }

    /// Asks the reader for a block, and for further ones while they leave the first token open. Returns `Read` if
    /// the reader fails and `OutOfMemory` if an allocation fails; no byte is lost then, and each later call
    /// returns the fault. Asks for no further block if there is no memory for a copy of bytes that were pushed. Takes
    /// time in proportion to the bytes in hand and those that come.
    #[doc(hidden)]
    pub fn more_of_token<R: ByteSource>(
        &mut self,
        reader: &mut R,
        delims: &Delims<'_>,
    ) -> Result<(), InputFault>
        requires open { self.old.pending.may_follow ≡ true }
        requires sound { self.old.fault ≡ None }
        // exact steps: blocks of the reader after the bytes in hand, or its end; a further one only where the first
        // token was open
        ensures gives { TokenGives delims.now.quotes.now delims.now.comments.now
            (R.script reader.old) (R.script reader.new) self.old self.new result }
        // the reader is at its end, or bytes came, which they do only a limited number of times
        ensures falls { result ≡ Ok tt → self.new.pending.may_follow ≡ true
            → R.takes_left reader.new < R.takes_left reader.old }
        ensures counted { R.failures reader.new
            ≡ failures_after self.old.fault self.new.fault (R.failures reader.old) }
    {
        let open = match self.definition {
            Some(_) => None,
            None => self.text.open_token(self.alloc, delims),
        };
        let Some(mut token) = open else {
            let _came = self.more(reader)?;
            return Ok(());
        };
        'blocks: while self.more(reader)? {
            match self.text.still_open(self.alloc, token, delims) {
                Some(longer) => token = longer,
                None => break,
            }
        }
        Ok(())
    }

    /// Removes the definition that comes before the bytes in hand, if there is one, and returns it.
    #[doc(hidden)]
    pub fn take_definition(&mut self) -> Option<Def>
        // exact steps: the definition that is the first token, and the bytes after it
        ensures taken { result ≡ self.old.pending.definition }
        ensures rest { self.new ≡ record self.old { pending = record self.old.pending { definition = None } } }
    {
        self.definition.take()
    }

    /// Discards a definition and the rest of the line as far as it is in hand. Returns whether that was all of
    /// it: its newline was found, or the input is closed. Otherwise all bytes in hand are discarded, and more of
    /// the line may follow. Manual: "Deleting whitespace in input".
    #[doc(hidden)]
    pub fn skip_in_hand(&mut self) -> bool
        // exact steps: the rest after the line, or after all bytes in hand
        ensures { LineGives self.old self.new result }
    {
        'fronts: loop {
            let (text, more) = self.text.front();
            if let Some(len) = line_len(text) {
                self.consume(len, 0);
                return true;
            }
            let len = text.len();
            self.consume(len, 0);
            if !more {
                return !self.may_follow;
            }
        }
    }

    /// Records a fault that each later call returns.
    fn stop(&mut self, fault: InputFault) -> InputFault
        requires { IsLasting fault }
        ensures fault { result ≡ fault }
        ensures stopped { self.new ≡ record self.old { fault = Some fault } }
    {
        self.fault = Some(fault);
        fault
    }

    /// Returns the fault of a token without an end. Discards all bytes.
    fn end_inside(&mut self, what: Unended) -> InputFault
        ensures fault { result ≡ fault_of what (line_of self.old.pending) }
        ensures nothing { self.new ≡ record self.old { pending = all_read self.old.pending } }
    {
        let line = self.line();
        let len = self.text.len();
        self.consume(len, 0);
        match what {
            Unended::InString => InputFault::EndInString { line },
            Unended::InComment => InputFault::EndInComment { line },
        }
    }
}
