//! The next token, as it was found when the tokens before it were passed.

ghost use Rattle.std.specs.Prelude.{◌≡◌, IfOk};
ghost use Rattle.m4_input.specs.Look.{scan_of, LookLies};
ghost use Rattle.m4_input.specs.Token.{scan};
ghost use Rattle.m4_engine.specs.Lookahead.{IsFirst};
ghost use Rattle.m4_engine.specs.declared.lookahead.FirstToken.TheVariants as firsts;

use crate::call::OpenCall;
use m4_builtins::substitute::is_plain;
use m4_input::delims::Delims;
use m4_input::front::{Answer, Look, Unended};
use m4_input::look::list_follows;
use m4_state::builtin::Builtin;
use m4_state::definition::Def;
use m4_state::state::State;
use std::alloc::AllocError;

/// The first token of a text. It goes where tokens go that call nothing, or a turn acts on it.
#[derive(Clone, Copy)]
pub enum FirstToken {
    /// A string, or a token that is text as it is: a name without a definition, or a comment.
    Text {
        /// Where its text begins.
        begin: usize,
        /// The length of its text.
        len: usize,
        /// The length of all of it.
        all: usize,
    },
    /// A byte that belongs to no other token.
    Byte(u8),
    /// Any other token, and how many of its bytes a pass consumes. A turn acts on it.
    Other(Lookahead, usize),
}

/// The next token, on which a turn acts. A pass consumes it, and hands it on without its length, a text or a call, so
/// that moving it takes little time: the call of a name is made beside it, as the next call.
#[derive(Clone, Copy)]
pub enum Lookahead {
    /// A definition that a call pushed.
    Definition,
    /// A comma that ends an argument of the innermost call, in which definitions are dropped.
    EndsArgument,
    /// The parenthesis that closes the list of the innermost call.
    ClosesList,
    /// The name of a text macro that is called without a list, and whose text has no dollar. The next call has the text
    /// as its definition.
    Expansion,
    /// The name of the builtin that skips the rest of the line, without a list. No call needs memory for it.
    LineSkip,
    /// Any other name with a definition, without a list. The next call is its call.
    Call,
    /// A name with a definition, and the parenthesis of its list. The next call is its call.
    List,
    /// The end of the input.
    End,
    /// A string that the input does not end. It is not consumed.
    UnendedString,
    /// A comment that the input does not end. It is not consumed.
    UnendedComment,
    /// The bytes that were looked at don't decide the token, or whether a list follows a name. None is consumed.
    Undecided,
}

impl FirstToken {
    /// Returns the token of so many bytes that is text as it is.
    #[inline(always)]
    fn as_it_is(len: usize) -> FirstToken
        ensures { result ≡ firsts.Text 0 len len }
    {
        FirstToken::Text {
            begin: 0,
            len,
            all: len,
        }
    }

    /// Returns the token that this look found, and makes the next call that of a name that calls.
    /// `more` is whether bytes may come after the text. The place of a call is not set yet. Without a list, a text that
    /// has no dollar is its own expansion, and `dnl`, with which many lines end, needs no call in memory.
    #[inline(always)]
    pub fn of(
        look: Look,
        text: &[u8],
        state: &State,
        delims: &Delims<'_>,
        next: &mut OpenCall,
        more: bool,
    ) -> Result<FirstToken, AllocError>
        requires quotes { delims.now.quotes.now ≡ state.now.quotes }
        requires comments { delims.now.comments.now ≡ state.now.comments }
        requires value { scan state.now.quotes state.now.comments more text.now ≡ scan_of look text.now }
        requires lies { LookLies text.now look }
        ensures { IfOk result (λ a. IsFirst a next.new state.now more text.now) }
    {
        let len = match look {
            Look::Name(len) => len,
            Look::Byte(byte) => return Ok(FirstToken::Byte(byte)),
            Look::Quoted { begin, len, all } => return Ok(FirstToken::Text { begin, len, all }),
            Look::Comment(len) => return Ok(FirstToken::as_it_is(len)),
            Look::End => return Ok(FirstToken::Other(Lookahead::End, 0)),
            Look::Unended(Unended::InString) => {
                return Ok(FirstToken::Other(Lookahead::UnendedString, 0));
            }
            Look::Unended(Unended::InComment) => {
                return Ok(FirstToken::Other(Lookahead::UnendedComment, 0));
            }
            Look::NeedsMore => return Ok(FirstToken::Other(Lookahead::Undecided, 0)),
        };
        let (name, after) = text.split_at(len);
        let Some(definition) = state.top(name) else {
            return Ok(FirstToken::as_it_is(len));
        };
        match list_follows(after, delims, more) {
            Answer::Yes => {
                next.renew(text, len, definition)?;
                Ok(FirstToken::Other(Lookahead::List, len + 1))
            }
            Answer::Unknown => Ok(FirstToken::Other(Lookahead::Undecided, 0)),
            Answer::No => match definition {
                Def::Text(body) if is_plain(body.as_slice()) => {
                    next.set_definition(definition)?;
                    Ok(FirstToken::Other(Lookahead::Expansion, len))
                }
                Def::Builtin(Builtin::Dnl) => Ok(FirstToken::Other(Lookahead::LineSkip, len)),
                _ => {
                    next.renew(text, len, definition)?;
                    Ok(FirstToken::Other(Lookahead::Call, len))
                }
            },
        }
    }
}
