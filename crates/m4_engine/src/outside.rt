//! Outside of calls: names without a definition, comments and bytes that are no other token are plain, and a pass puts
//! them as they are, all at once. Manual: "How m4 copies input to output".

ghost use Rattle.std.proofs.Common.{refl};
ghost use Rattle.std.specs.Prelude.{◌≡◌, ◌≤◌, Bool, [], length};
ghost use Rattle.m4_state.specs.State.{State as Specified};
ghost use Rattle.m4_engine.specs.Lookahead.{IsLeftOutside};
ghost use Rattle.m4_engine.specs.Plain.{IsPlainRun};

use crate::lookahead::{FirstToken, Lookahead};
use crate::machine::OUTPUT_BLOCK;
use crate::token_sink::{Taken, TokenSink};
use m4_input::delims::Delims;
use std::alloc::AllocError;

/// A token that is left outside of calls.
#[derive(Clone, Copy)]
pub enum LeftOutside {
    /// The pass puts its text.
    Text {
        /// Where the text begins in the token.
        begin: usize,
        /// The length of the text.
        len: usize,
        /// The length of the token.
        all: usize,
    },
    /// A turn acts on it, and the pass consumes so many bytes of it.
    Other(Lookahead, usize),
}

/// What stands outside of calls. It takes plain tokens up to a block of output, and the pass puts their bytes.
#[derive(Drop)]
pub struct Outside;

impl TokenSink for Outside {
    type Left = LeftOutside;

    ghost takes = { λ s m n _ _ x. IsPlainRun s m n x };

    ghost leaves = { λ left _ next s m x. IsLeftOutside left next s m x };

    #[inline(always)]
    fn take(
        &mut self,
        token: FirstToken,
        _text: &[u8],
        at: usize,
        _delims: &Delims<'_>,
    ) -> Result<Taken<LeftOutside>, AllocError> {
        match token {
            FirstToken::Text { begin: 0, len, all } if len == all && at < OUTPUT_BLOCK => {
                Ok(Taken::UpTo(at + all))
            }
            FirstToken::Byte(_) if at < OUTPUT_BLOCK => Ok(Taken::UpTo(at + 1)),
            FirstToken::Text { begin, len, all } => {
                Ok(Taken::Left(LeftOutside::Text { begin, len, all }))
            }
            FirstToken::Byte(_) => Ok(Taken::Left(LeftOutside::Text {
                begin: 0,
                len: 1,
                all: 1,
            })),
            FirstToken::Other(token, len) => Ok(Taken::Left(LeftOutside::Other(token, len))),
        }
    }

    ghost none = { λ s m c x. ([], tt, refl) };
}
