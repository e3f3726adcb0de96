//! Loads a frozen file as its bytes arrive: each directive is applied to the state as soon as it was
//! read completely. Manual: "Frozen file format".

ghost use Rattle.std.specs.Prelude.{◌≡◌, ◌++◌, [], true, None, IfSome, IfOk, OnOk};
ghost use Rattle.m4_state.specs.Definition.{IsDefinition};
ghost use Rattle.m4_frozen.specs.Denote.{with_directive, issued_by, definition_named};
ghost use Rattle.m4_state.specs.State.{appended};
ghost use Rattle.m4_frozen.specs.Directive as directives;
ghost use Rattle.m4_frozen.specs.DirectiveView.{directive_of, IsJoined};
ghost use Rattle.m4_frozen.specs.Underway as underway;

use crate::account::{Account, LONG_BLOCK};
use crate::begun::{Begun, NamedText};
use crate::directive::Directive;
use crate::fault::{FrozenKind, ReadStop, Refusal, refused_at};
use crate::head::text_at;
use crate::lines::skip_lines;
use crate::reader::{after_version, line_after, next_directive, stays};
use crate::room::BLOCK;
use crate::strings::{diversion_head, expect_byte, pair_head};
use m4_state::builtin::Builtin;
use m4_state::bytes::Bytes;
use m4_state::definition::Def;
use m4_state::fault::StateFault;
use m4_state::state::State;
use std::alloc::{AllocError, Global};

/// Of a text that is not complete in a block, so many bytes at most are read again with the next block, if the text is
/// complete there: it can then share its memory. Any other is read as its bytes arrive.
const LARGEST_REREAD: usize = 2 * BLOCK;

/// The result of loading a frozen file: a state, and the text to print before any input is read.
pub struct Loaded {
    /// The state after all directives.
    pub state: State,
    /// The texts that were diverted to number 0, joined.
    pub issued: Bytes,
}

// Written out so that a caller's proof contains one call, not the drop of each field.
impl Drop for Loaded {
    fn drop(self) {
        let Loaded {
            state: _state,
            issued: _issued,
        } = self;
    }
}

impl Loaded {
    /// Returns the state and the issued text as two values.
    pub fn into_parts(self) -> (State, Bytes)
        ensures { result ≡ (self.state, self.issued) }
    {
        let Loaded { state, issued } = self;
        (state, issued)
    }
}

/// The result of the directives that were read, and the place that the reader has reached.
pub(crate) struct Loading {
    state: State,
    issued: Vec<u8>,
    /// Whether the version was read.
    versioned: bool,
    /// Whether a comment line has begun and not ended.
    inside: bool,
    /// The text of which only a part was read, if there is one.
    begun: Option<Begun>,
}

// Written out so that a caller's proof contains one call, not the drop of each field.
impl Drop for Loading {
    fn drop(self) {
        let Loading {
            state: _state,
            issued: _issued,
            versioned: _versioned,
            inside: _inside,
            begun: _begun,
        } = self;
    }
}

/// Loading has used all complete directives and needs more bytes.
#[derive(Clone, Copy)]
pub(crate) struct Pause {
    /// How many of the last bytes were not used yet.
    pub(crate) left: usize,
    /// Why the file is refused if it ends here.
    pub(crate) refusal: Option<Refusal>,
}

impl Loading {
    /// Begins to load a file, of which no byte was read.
    pub(crate) fn new(alloc: Global) -> Result<Loading, StateFault>
        ensures { IfOk result (underway.IsRead []) }
    {
        Ok(Loading {
            state: State::empty(alloc)?,
            issued: Vec::new(alloc),
            versioned: false,
            inside: false,
            begun: None,
        })
    }

    /// Returns whether strings are to share the next block, of about `usual` bytes: not if it is a part of one text. Nor
    /// after an open diversion, since diversions come last in most files.
    pub(crate) fn shares_next(&self, usual: usize) -> bool {
        match &self.begun {
            None => true,
            Some(Begun::Name(text)) => text.missing < usual,
            Some(Begun::Diversion(_)) => false,
        }
    }

    /// Reads everything that is complete in these bytes, which begin with those that were left before.
    ///
    /// A refusal stays, whatever follows. After an error, a directive may be applied in part, and there
    /// must be no further call.
    pub(crate) fn advance(
        &mut self,
        alloc: Global,
        block: &Bytes,
        account: &mut Account,
    ) -> Result<Pause, ReadStop>
        ensures { underway.ReadsOn (λ read. underway.IsRead read self.old) block.now self.new result }
    {
        let bytes = block.as_slice();
        match self.begun.take() {
            None => self.read_whole(alloc, block, account, bytes),
            Some(Begun::Diversion(missing)) => {
                let after = self.read_diverted(missing, bytes)?;
                self.read_after(alloc, block, account, after)
            }
            Some(Begun::Name(text)) => {
                let after = self.read_named(text, bytes)?;
                self.read_after(alloc, block, account, after)
            }
        }
    }

    /// Reads the bytes after a text, or pauses if the text is not complete.
    fn read_after(
        &mut self,
        alloc: Global,
        block: &Bytes,
        account: &mut Account,
        after: Option<&[u8]>,
    ) -> Result<Pause, ReadStop>
        requires whole { IfSome after (λ _. self.old.begun ≡ None) }
        requires end { IfSome after (λ bytes. underway.IsEndOf bytes.now block.now) }
        ensures { underway.ReadsRest after.entry self.old self.new result }
    {
        match after {
            Some(after) => self.read_whole(alloc, block, account, after),
            None => Ok(Pause {
                left: 0,
                refusal: Some(refused_at(FrozenKind::PrematureEnd, &[])),
            }),
        }
    }

    /// Reads everything that is complete, if no text is open.
    fn read_whole(
        &mut self,
        alloc: Global,
        block: &Bytes,
        account: &mut Account,
        bytes: &[u8],
    ) -> Result<Pause, ReadStop>
        requires whole { self.old.begun ≡ None }
        requires end { underway.IsEndOf bytes.now block.now }
        ensures { underway.Advances bytes.now self.old self.new result }
    {
        let mut rest = bytes;
        loop {
            let (inside, start) = skip_lines(self.inside, rest);
            self.inside = inside;
            let after = self.read_texts(block, account, start)?;
            let (inside, here) = skip_lines(self.inside, after);
            self.inside = inside;
            let one = match self.read_one(alloc, here) {
                Ok(one) => one,
                Err(stop) => return self.pause_at(alloc, stop, here),
            };
            match one {
                Some(after) => rest = after,
                None => {
                    return Ok(Pause {
                        left: 0,
                        refusal: None,
                    });
                }
            }
        }
    }

    /// Reads the directives of texts at the start, as long as each is as most are. Returns the bytes after them.
    fn read_texts<'a>(
        &mut self,
        block: &Bytes,
        account: &mut Account,
        bytes: &'a [u8],
    ) -> Result<&'a [u8], StateFault>
        requires at_directive { underway.IsAtDirective self.old.inside bytes.now }
        requires end { underway.IsEndOf bytes.now block.now }
        ensures { IfOk result (λ rest. underway.HasAdvanced bytes.now self.old self.new rest.now) }
    {
        if !self.versioned {
            return Ok(bytes);
        }
        let all = block.as_slice().len();
        let mut rest = bytes;
        'texts: while let Some((middle, len, strings)) = text_at(rest) {
            let at = all - strings.len();
            self.state
                .push_from_block(block, account.shares(), strings, at, middle, len)?;
            account.count(middle);
            account.count(len);
            rest = strings.split_at(middle + len + 1).1;
        }
        Ok(rest)
    }

    /// Reads the version or a directive; the bytes begin with no line to skip. Returns the bytes after it,
    /// or none if there are no bytes.
    fn read_one<'a>(&mut self, alloc: Global, bytes: &'a [u8]) -> Result<Option<&'a [u8]>, ReadStop>
        requires at_directive { underway.IsAtDirective self.old.inside bytes.now }
        ensures { underway.ReadsOne bytes.now self.old self.new result }
    {
        if self.versioned {
            return self.read_directive(alloc, bytes);
        }
        let after = after_version(bytes)?;
        self.versioned = true;
        Ok(Some(after))
    }

    /// Reads a directive, after the version.
    fn read_directive<'a>(
        &mut self,
        alloc: Global,
        bytes: &'a [u8],
    ) -> Result<Option<&'a [u8]>, ReadStop>
        requires at_directive { underway.IsAtDirective self.old.inside bytes.now }
        requires versioned { self.old.versioned ≡ true }
        ensures { underway.ReadsOne bytes.now self.old self.new result }
    {
        match next_directive(bytes)? {
            None => Ok(None),
            Some((directive, after)) => {
                self.apply(alloc, &directive)?;
                Ok(Some(after))
            }
        }
    }

    /// Pauses at these bytes, the last ones that were read, unless the stop stays whatever follows them.
    fn pause_at(&mut self, alloc: Global, stop: ReadStop, here: &[u8]) -> Result<Pause, ReadStop>
        requires { underway.IsWithin stop self.old.inside here.now }
        ensures { underway.PausesAt stop here.now self.old self.new result }
    {
        let ReadStop::Refused(refusal) = stop else {
            return Err(ReadStop::OutOfMemory);
        };
        if stays(refusal, here) {
            return Err(ReadStop::Refused(refusal));
        }
        let opened = self.open_text(alloc, here)?;
        Ok(Pause {
            left: if opened { 0 } else { here.len() },
            refusal: Some(refusal),
        })
    }

    /// Opens a text, if these bytes end inside one or before its newline.
    fn open_text(&mut self, alloc: Global, here: &[u8]) -> Result<bool, StateFault>
        requires { underway.IsAtDirective self.old.inside here.now }
        ensures { underway.Opens here.now self.old self.new result }
    {
        if self.open_named(alloc, here)? {
            return Ok(true);
        }
        self.open_diverted(here)
    }

    /// Opens the text of a name, unless what is there of it is to be read again with the next block.
    fn open_named(&mut self, alloc: Global, here: &[u8]) -> Result<bool, StateFault>
        requires { underway.IsAtDirective self.old.inside here.now }
        ensures { underway.Opens here.now self.old self.new result }
    {
        let Some(line) = line_after(b'T', here) else {
            return Ok(false);
        };
        let Ok(((name, len), text)) = pair_head(line) else {
            return Ok(false);
        };
        let len = len as usize;
        let rereads = text.len() <= LARGEST_REREAD && len <= LONG_BLOCK;
        if !self.versioned || len < text.len() || rereads {
            return Ok(false);
        }
        self.begun = Some(Begun::Name(NamedText {
            name: Bytes::from_slice(alloc, name)?,
            text: Vec::from_slice(alloc, text)?,
            missing: len - text.len(),
        }));
        Ok(true)
    }

    /// Opens a diversion. Its text goes to the state as it arrives.
    fn open_diverted(&mut self, here: &[u8]) -> Result<bool, StateFault>
        requires { underway.IsAtDirective self.old.inside here.now }
        ensures { underway.Opens here.now self.old self.new result }
    {
        let Some(line) = line_after(b'D', here) else {
            return Ok(false);
        };
        let Ok(((number, len), text)) = diversion_head(line) else {
            return Ok(false);
        };
        let len = len as usize;
        if !self.versioned || len < text.len() {
            return Ok(false);
        }
        self.state.divert(number);
        self.add(text)?;
        self.begun = Some(Begun::Diversion(len - text.len()));
        Ok(true)
    }

    /// Reads the rest of a diversion's text and its newline, or all of the bytes if that needs more.
    fn read_diverted<'a>(
        &mut self,
        missing: usize,
        bytes: &'a [u8],
    ) -> Result<Option<&'a [u8]>, ReadStop>
        requires { self.old.begun ≡ None }
        ensures { underway.ReadsText (λ read. underway.HasReadIn read self.old missing) bytes.now self.new result }
    {
        let (more, after) = bytes.split_at(missing.min(bytes.len()));
        self.add(more)?;
        if after.is_empty() {
            self.begun = Some(Begun::Diversion(missing - more.len()));
            return Ok(None);
        }
        let after = expect_byte(b'\n', after)?;
        Ok(Some(after))
    }

    /// Reads the rest of a name's text and its newline, or all of the bytes if that needs more. The
    /// definition is pushed once the text is complete.
    fn read_named<'a>(
        &mut self,
        begun: NamedText,
        bytes: &'a [u8],
    ) -> Result<Option<&'a [u8]>, ReadStop>
        requires { self.old.begun ≡ None }
        ensures { underway.ReadsText (λ read. underway.HasReadNamed read self.old begun) bytes.now self.new result }
    {
        let NamedText {
            name,
            mut text,
            missing,
        } = begun;
        let (more, after) = bytes.split_at(missing.min(bytes.len()));
        text.extend_from_slice(more)?;
        if after.is_empty() {
            self.begun = Some(Begun::Name(NamedText {
                name,
                text,
                missing: missing - more.len(),
            }));
            return Ok(None);
        }
        let after = expect_byte(b'\n', after)?;
        text.shrink_to_fit();
        let text = Bytes::from_vec(text)?;
        self.state.push_borrowed(name.as_slice(), Def::Text(text))?;
        Ok(Some(after))
    }

    /// Adds text to the current diversion, and to the issued text if the current number is 0.
    fn add(&mut self, text: &[u8]) -> Result<(), StateFault>
        ensures added { OnOk result (self.new ≡ record self.old {
          state = appended self.old.state text.now;
          issued = self.new.issued;
        }) }
        ensures issued { OnOk result (self.new.issued.items
            ≡ self.old.issued.items ++ issued_by (directives.Diversion self.old.state.current text.now)) }
    {
        self.state.append(text)?;
        if self.state.current() == 0 {
            self.issued.extend_from_slice(text)?;
        }
        Ok(())
    }

    /// Applies a directive to the state, or to the issued text. On an error a part of it may be applied;
    /// the state is then dropped.
    fn apply(&mut self, alloc: Global, directive: &Directive<'_>) -> Result<(), StateFault>
        requires joined { IsJoined directive.now }
        ensures applied { OnOk result (self.new ≡ record self.old {
          state = with_directive self.old.state (directive_of directive.now);
          issued = self.new.issued;
        }) }
        ensures issued { OnOk result (self.new.issued.items
            ≡ self.old.issued.items ++ issued_by (directive_of directive.now)) }
    {
        match directive {
            Directive::Quotes(begin, end) => self.state.set_quotes(
                Bytes::from_slice(alloc, begin)?,
                Bytes::from_slice(alloc, end)?,
            ),
            Directive::Comments(begin, end) => self.state.set_comments(
                Bytes::from_slice(alloc, begin)?,
                Bytes::from_slice(alloc, end)?,
            ),
            Directive::Text(both, middle) => self.state.push_text(both, *middle),
            Directive::Builtin(name, builtin) => {
                let builtin = builtin_or_placeholder(alloc, builtin)?;
                self.state.push_borrowed(name, builtin)
            }
            Directive::Diversion(number, text) => {
                self.state.divert(*number);
                self.add(text)
            }
        }
    }

    /// Returns what was loaded, at the end of the file.
    pub(crate) fn loaded(self) -> Loaded
        ensures { result ≡ record { state = self.state; issued = self.issued.items } }
    {
        let Loading {
            state,
            issued,
            versioned: _versioned,
            inside: _inside,
            begun: _begun,
        } = self;
        Loaded {
            state,
            issued: Bytes::from(issued),
        }
    }
}

/// Returns the builtin of that name, or a placeholder that keeps the name.
fn builtin_or_placeholder(alloc: Global, name: &[u8]) -> Result<Def, AllocError>
    ensures named { IfOk result (λ d. d ≡ definition_named name.now) }
    ensures valid { IfOk result IsDefinition }
{
    match Builtin::by_name(name) {
        Some(builtin) => Ok(Def::Builtin(builtin)),
        None => Ok(Def::Placeholder(Bytes::from_slice(alloc, name)?)),
    }
}
