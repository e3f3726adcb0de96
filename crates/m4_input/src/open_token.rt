//! Tokens that begin in the bytes in hand and have no end there.
//!
//! A token may span any number of blocks. After each of them only its bytes are looked at, and bytes of the token that
//! were pushed are copied only for the first look, so that this takes time in proportion to the token.
//! Manual: "Names", "Quoted strings", "Comments".

ghost use Rattle.std.specs.Prelude.{IfSome};
ghost use Rattle.m4_input.specs.OpenToken.{IsOpenAt, StaysOpen, CommentGoesOn};
ghost use Rattle.m4_input.specs.Text.{text_in};

use crate::delims::Delims;
use crate::front::Kind;
use crate::look::kind;
use crate::slice::{find, word_len};
use crate::strings::{StringSoFar, follow_string};
use crate::text::Text;
use std::alloc::Global;

/// A token that may continue in bytes that follow, and how far it was looked at.
#[derive(Clone, Copy)]
pub enum OpenToken {
    /// A name, and how many of its bytes were looked at.
    Name(usize),
    /// A comment, and how many bytes after its begin are known not to begin its end.
    Comment(usize),
    /// A string, how many bytes after its begin-quote were looked at, and how many nested strings are open after them.
    Quoted(usize, usize),
}

/// Returns the place at which the end of a comment may still begin with bytes that follow, if the text has no end.
fn comment_goes_on(text: &[u8], end: &[u8]) -> Option<usize>
    ensures { IfSome result (λ n. CommentGoesOn end.now n text.now) }
{
    if find(text, end).is_some() {
        return None;
    }
    let may_be_cut = end.len().saturating_sub(1);
    Some(text.len().saturating_sub(may_be_cut))
}

impl Text {
    /// Returns the first token if it may continue in bytes that follow; none of its bytes counts as looked at. Also
    /// returns `None` if an allocation fails.
    pub fn open_token(&self, alloc: Global, delims: &Delims<'_>) -> Option<OpenToken>
        ensures { IfSome result (λ o. IsOpenAt delims.now.quotes.now delims.now.comments.now o
            (text_in self.now)) }
    {
        let mut copy = Vec::new(alloc);
        let text = self.bytes_from(0, &mut copy)?;
        let first = text.first()?;
        match kind(text, delims, true, *first) {
            Kind::NameHere => Some(OpenToken::Name(0)),
            Kind::CommentHere => Some(OpenToken::Comment(0)),
            Kind::StringHere => Some(OpenToken::Quoted(0, 0)),
            Kind::ByteHere | Kind::Undecided => None,
        }
    }

    /// Looks at the bytes of an open token that were not looked at yet. Returns it if it is still open. Also returns
    /// `None` if an allocation fails.
    pub fn still_open(
        &self,
        alloc: Global,
        token: OpenToken,
        delims: &Delims<'_>,
    ) -> Option<OpenToken>
        requires { IsOpenAt delims.now.quotes.now delims.now.comments.now token (text_in self.now) }
        ensures { IfSome result (λ o. StaysOpen delims.now.quotes.now delims.now.comments.now o
            (text_in self.now)) }
    {
        // For the proof alone: a length has 64 bits.
        let _small = self.len();
        let mut copy = Vec::new(alloc);
        match token {
            OpenToken::Name(at) => {
                let rest = self.bytes_from(at, &mut copy)?;
                if word_len(rest) < rest.len() {
                    return None;
                }
                Some(OpenToken::Name(at + rest.len()))
            }
            OpenToken::Comment(at) => {
                let rest = self.bytes_from(delims.comments.begin.as_slice().len() + at, &mut copy)?;
                let further = comment_goes_on(rest, delims.comments.end.as_slice())?;
                Some(OpenToken::Comment(at + further))
            }
            OpenToken::Quoted(at, depth) => {
                let rest = self.bytes_from(delims.quotes.begin.as_slice().len() + at, &mut copy)?;
                match follow_string(rest, depth, delims.quotes, true) {
                    StringSoFar::Ends(_) => None,
                    StringSoFar::Open(further, nested) => Some(OpenToken::Quoted(
                        at + further,
                        nested,
                    )),
                }
            }
        }
    }
}
