//! Tokens of a list: strings, comments and names without a definition extend the argument, and so do most bytes; the
//! others end it, or are counted or dropped. Manual: "Macro arguments", "Quoting arguments".

ghost use Rattle.std.proofs.Common.{refl};
ghost use Rattle.std.specs.Prelude.{◌≡◌, ◌≤◌, true, List, [], ◌∷◌, length, take};
ghost use Rattle.m4_engine.specs.Collected.{HaveRole, IsListRun};
ghost use Rattle.m4_engine.specs.Expansion.{Call};
ghost use Rattle.m4_engine.specs.Lookahead.{IsNext};
ghost use Rattle.m4_engine.specs.declared.role.Role.TheVariants.{Other};

use crate::call::OpenCall;
use crate::lookahead::{FirstToken, Lookahead};
use crate::role::{ListEnd, Role};
use crate::token_sink::{Taken, TokenSink};
use m4_input::delims::Delims;
use std::alloc::AllocError;

impl TokenSink for OpenCall {
    type Left = (Lookahead, usize);

    ghost takes = { IsListRun };

    ghost leaves = { λ left c next s m x. (cs : List Call) → IsNext left.0 left.1 (c ∷ cs) next s m x };

    #[inline(always)]
    fn take(
        &mut self,
        token: FirstToken,
        text: &[u8],
        at: usize,
        delims: &Delims<'_>,
    ) -> Result<Taken<(Lookahead, usize)>, AllocError> {
        let (_, text) = text.split_at(at);
        let byte = match token {
            FirstToken::Byte(byte) => byte,
            FirstToken::Text { begin, len, all } => {
                self.put_front(text.split_at(begin).1, len)?;
                return Ok(Taken::UpTo(at + all));
            }
            FirstToken::Other(token, len) => return Ok(Taken::Left((token, len))),
        };
        if self.role(byte) == Role::Other {
            let len = 1 + text_len(text.split_at(1).1, delims);
            self.put_front(text, len)?;
            return Ok(Taken::UpTo(at + len));
        }
        match self.take_byte(byte)? {
            None => Ok(Taken::UpTo(at + 1)),
            Some(ListEnd::Argument) => Ok(Taken::Left((Lookahead::EndsArgument, 1))),
            Some(ListEnd::List) => Ok(Taken::Left((Lookahead::ClosesList, 1))),
        }
    }

    ghost none = { λ s m c x. ([], refl, refl) };
}

// A full stop is at the place of each byte that begins no name, and is text in an argument that has begun; a comma is
// at all others.
static TEXT_BYTES: [u8; 256] = *b"\
    ................................\
    ........,,..,...................\
    .,,,,,,,,,,,,,,,,,,,,,,,,,,....,\
    .,,,,,,,,,,,,,,,,,,,,,,,,,,.....\
    ................................\
    ................................\
    ................................\
    ................................";

/// Counts the bytes at the start that are tokens of their own, and text in an argument that has begun.
#[inline(always)]
fn text_len(text: &[u8], delims: &Delims<'_>) -> usize
    ensures bytes { (c : Call) → c.begun ≡ true
        → HaveRole Other c delims.now.quotes.now delims.now.comments.now (take result text.now) }
    ensures within { result ≤ length text.now }
{
    let mut k = 0;
    while k < text.len()
        && TEXT_BYTES[text[k] as usize] == b'.'
        && !delims.may_comment(text[k])
        && !delims.may_quote(text[k])
    {
        k += 1;
    }
    k
}
