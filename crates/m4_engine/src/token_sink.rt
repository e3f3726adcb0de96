//! Where tokens go that call nothing: to an argument, or outside of calls to the output, to a diversion, or nowhere.
//! One loop takes them, many at once and each looked at once. Manual: "How m4 copies input to output", "Macro
//! arguments".

ghost use Rattle.std.specs.Prelude.{◌≡◌, ◌<◌, ◌≤◌, ℕ, Bool, List, IfOk, length, drop};
ghost use Rattle.m4_state.specs.State.{State as Specified};
ghost use Rattle.m4_engine.specs.Expansion.{Call};
ghost use Rattle.m4_engine.specs.Lookahead.{IsFirst};
ghost use Rattle.m4_engine.specs.Passes.{IfUpTo, IfLeft};

use crate::call::OpenCall;
use crate::lookahead::FirstToken;
use m4_input::delims::Delims;
use m4_input::look::{delimited_token, look_by_kind, plain_token};
use m4_state::state::State;
use std::alloc::AllocError;

/// What a sink did with a token.
#[derive(Clone, Copy)]
pub enum Taken<L> {
    /// It took the token, and perhaps bytes after it: where in the text they end.
    UpTo(usize),
    /// It left the token, and did nothing.
    Left(L),
}

/// Where tokens of a text go that call nothing.
pub trait TokenSink {
    /// A token that the sink leaves to a turn, or to the pass.
    type Left: Copy;

    /// The first tokens of a text, which have so many bytes, change the sink from one value to another, and do nothing
    /// else. The flag says whether more bytes may follow.
    ghost takes: { Specified → Bool → ℕ → Self → Self → List ℕ → Type 0 };

    /// The first token of a text is left so, with the next call.
    ghost leaves: { Self.Left → Self → Call → Specified → Bool → List ℕ → Type 0 };

    /// Takes the token at a place in a text, if it changes the sink alone, and bytes after it that need no look.
    fn take(
        &mut self,
        token: FirstToken,
        text: &[u8],
        at: usize,
        delims: &Delims<'_>,
    ) -> Result<Taken<Self::Left>, AllocError>
        requires at { at ≤ length text.now }
        requires token { (s : Specified) × (next : Call) × (m : Bool) × IsFirst token next s m (drop at text.now) }
        ensures takes { IfOk result (λ r. IfUpTo r (λ end. (s : Specified) (next : Call) (m : Bool) (before : Self)
            → delims.now.quotes.now ≡ s.quotes → delims.now.comments.now ≡ s.comments
            → IsFirst token next s m (drop at text.now) → takes s m at before self.old text.now
            → takes s m end before self.new text.now)) }
        ensures within { IfOk result (λ r. IfUpTo r (λ end. (at < end) × (end ≤ length text.now))) }
        ensures kept { IfOk result (λ r. IfLeft r (λ left. self.new ≡ self.old)) }
        ensures left { IfOk result (λ r. IfLeft r (λ left. (s : Specified) (next : Call) (m : Bool)
            → IsFirst token next s m (drop at text.now) → leaves left self.new next s m (drop at text.now))) };

    /// With no token nothing changes.
    ghost none: { (s : Specified) (m : Bool) (c : Self) (x : List ℕ) → takes s m 0 c c x };
}

/// Gives a sink the tokens at the start of a text. Returns how many bytes it took, and the token that it left. This is
/// the only loop over tokens, and inlined, so that each sink has it in code of its own.
#[inline(always)]
pub fn pass_tokens<K: TokenSink>(
    sink: &mut K,
    text: &[u8],
    state: &State,
    next: &mut OpenCall,
    more: bool,
) -> Result<(usize, K::Left), AllocError>
    // exact steps: tokens of the definition `scan`, each with its effect on the sink
    ensures takes { IfOk result (λ r. K.takes state.now more r.0 sink.old sink.new text.now) }
    ensures within { IfOk result (λ r. r.0 ≤ length text.now) }
    ensures after { IfOk result (λ r. K.leaves r.1 sink.new next.new state.now more (drop r.0 text.now)) }
{
    let delims = Delims::of(state);
    let mut len = 0;
    'tokens: loop {
        let rest = text.split_at(len).1;
        // Each of the three looks has a token of its own: with one for all, lists take longer.
        if let Some(look) = plain_token(rest, &delims, more) {
            let token = FirstToken::of(look, rest, state, &delims, next, more)?;
            match sink.take(token, text, len, &delims)? {
                Taken::UpTo(end) => len = end,
                Taken::Left(left) => return Ok((len, left)),
            }
            continue 'tokens;
        }
        if let Some(look) = delimited_token(rest, &delims, more) {
            let token = FirstToken::of(look, rest, state, &delims, next, more)?;
            match sink.take(token, text, len, &delims)? {
                Taken::UpTo(end) => len = end,
                Taken::Left(left) => return Ok((len, left)),
            }
            continue 'tokens;
        }
        let token = rare_token(rest, state, next, more)?;
        match sink.take(token, text, len, &delims)? {
            Taken::UpTo(end) => len = end,
            Taken::Left(left) => return Ok((len, left)),
        }
    }
}

/// Returns the first token of a text, if neither its first byte nor a delimiter of one byte decides it. Not inlined, so
/// that the loop keeps its registers, and with delimiters of its own, so that those of the loop stay in them.
#[inline(never)]
fn rare_token(
    text: &[u8],
    state: &State,
    next: &mut OpenCall,
    more: bool,
) -> Result<FirstToken, AllocError>
    ensures { IfOk result (λ a. IsFirst a next.new state.now more text.now) }
{
    let delims = Delims::of(state);
    let look = look_by_kind(text, &delims, more);
    FirstToken::of(look, text, state, &delims, next, more)
}
