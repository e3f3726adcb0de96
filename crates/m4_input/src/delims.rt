//! The delimiters by which input is read, borrowed from a state.

ghost use Rattle.std.specs.Prelude.{◌≡◌, ◌∷◌, Bool, List, ℕ, false, get_or};
ghost use Rattle.m4_input.specs.Token.{starts_with, may_start};

use m4_state::delimiters::Delimiters;
use m4_state::state::State;

/// Borrows of the quotes and of the comment delimiters. A begin and an end are both empty if they are disabled.
///
/// The first bytes are beside them as numbers. A pass then holds both in registers, and a look at a token compares two
/// numbers.
#[derive(Clone, Copy)]
pub struct Delims<'a> {
    /// The begin-quote and the end-quote.
    pub quotes: &'a Delimiters,
    /// The begin and the end of a comment.
    pub comments: &'a Delimiters,
    quote: u16,
    comment: u16,
    ghost firsts: { (quote ≡ get_or quotes.now.begin 0 256) × (comment ≡ get_or comments.now.begin 0 256) },
}

impl<'a> Delims<'a> {
    /// Returns the current delimiters of a state. Manual: "Changing the quote characters", "Changing the
    /// comment delimiters".
    pub fn of(state: &'a State) -> Delims<'a>
        ensures quotes { result.quotes.now ≡ state.now.quotes }
        ensures comments { result.comments.now ≡ state.now.comments }
    {
        let quotes = state.quote_pair();
        let comments = state.comment_pair();
        Delims {
            quotes,
            comments,
            quote: quotes.begin.first(),
            comment: comments.begin.first(),
        }
    }

    /// Returns whether the begin-quote begins with this byte.
    #[inline(always)]
    pub fn may_quote(&self, first: u8) -> bool
        ensures starts { result ≡ false → (y : List ℕ) → starts_with self.now.quotes.now (first ∷ y) ≡ false }
        ensures may { result ≡ false → (m : Bool) (y : List ℕ)
            → may_start self.now.quotes.now m (first ∷ y) ≡ false }
    {
        first as u16 == self.quote
    }

    /// Returns whether the begin of comments begins with this byte.
    #[inline(always)]
    pub fn may_comment(&self, first: u8) -> bool
        ensures starts { result ≡ false → (y : List ℕ) → starts_with self.now.comments.now (first ∷ y) ≡ false }
        ensures may { result ≡ false → (m : Bool) (y : List ℕ)
            → may_start self.now.comments.now m (first ∷ y) ≡ false }
    {
        first as u16 == self.comment
    }
}
