//! Finds the end of a string in one pass, and counts the strings nested in it.
//! Manual: "Quoted strings".

ghost use Rattle.std.specs.Prelude.{◌≡◌, ◌+◌, ◌^◌, ◌<◌, ◌≤◌, ◌∷◌, [], Bool, IfSome, IfNone, length};
ghost use Rattle.m4_input.specs.OpenToken.{ArePlain, IsStringSoFar};
ghost use Rattle.m4_input.specs.Token.{mark_at};
ghost use Rattle.memchr.specs.Find.{IsFirstByte, is_byte2};

use crate::front::Mark;
use crate::lanes::len_before_either;
use crate::slice::{cut, single, starts};
use m4_state::delimiters::Delimiters;
use m4_state::lanes::LANES;

/// How far a string was followed through a text, whose end may cut a quote.
#[derive(Clone, Copy)]
pub enum StringSoFar {
    /// It ends in the text: how many bytes come before the end-quote that closes it.
    Ends(usize),
    /// It continues: how many bytes are decided, and how many nested strings are open after them.
    Open(usize, usize),
}

/// Follows a string through a text, before which `depth` nested strings are open.
#[inline(always)]
pub fn follow_string(
    text: &[u8],
    depth: usize,
    quotes: &Delimiters,
    may_follow: bool,
) -> StringSoFar
    requires begin { 0 < length quotes.now.begin }
    requires small { depth + length text.now < 2 ^ 64 }
    ensures { IsStringSoFar quotes.now may_follow depth text.now result }
{
    match (
        single(quotes.begin.as_slice()),
        single(quotes.end.as_slice()),
    ) {
        // Quotes of one byte are never cut.
        (Some(begin), Some(end)) => follow_quoted(text, depth, begin, end),
        _ => follow_by_marks(text, depth, quotes, may_follow),
    }
}

/// Follows a string with quotes of one byte each, from quote to quote.
#[inline(always)]
fn follow_quoted(text: &[u8], depth: usize, begin: u8, end: u8) -> StringSoFar
    requires { depth + length text.now < 2 ^ 64 }
    ensures { (m : Bool) → IsStringSoFar (record { begin = begin ∷ []; end = end ∷ [] }) m depth text.now result }
{
    let mut nested = depth;
    let mut k = 0usize;
    'quotes: while let Some(plain) = first_of_two(begin, end, &text[k..]) {
        k += plain;
        if text[k] != end {
            nested += 1;
        } else if nested == 0 {
            return StringSoFar::Ends(k);
        } else {
            nested -= 1;
        }
        k += 1;
    }
    StringSoFar::Open(text.len(), nested)
}

/// Returns the place of the first of these two bytes.
#[inline(always)]
fn first_of_two(one: u8, other: u8, text: &[u8]) -> Option<usize>
    ensures { IsFirstByte (is_byte2 one other) text.now result }
{
    if text.len() < LANES {
        return first_of_few(one, other, text);
    }
    let mut k = 0usize;
    'lanes: while k < text.len() {
        // The last sixteen bytes of a text may overlap those before them.
        let at = k.min(text.len() - LANES);
        let plain = len_before_either(one, other, text, at);
        if plain < LANES {
            return Some(at + plain);
        }
        k = at + LANES;
    }
    None
}

/// Returns the place of the first of these two bytes, byte by byte. Not inlined, so that the loop over tokens keeps its
/// registers.
#[inline(never)]
fn first_of_few(one: u8, other: u8, text: &[u8]) -> Option<usize>
    ensures { IsFirstByte (is_byte2 one other) text.now result }
{
    let mut k = 0usize;
    'bytes: while k < text.len() {
        if text[k] == one || text[k] == other {
            return Some(k);
        }
        k += 1;
    }
    None
}

/// Follows a string with quotes of any length, from mark to mark.
fn follow_by_marks(text: &[u8], depth: usize, quotes: &Delimiters, may_follow: bool) -> StringSoFar
    requires begin { 0 < length quotes.now.begin }
    requires small { depth + length text.now < 2 ^ 64 }
    ensures { IsStringSoFar quotes.now may_follow depth text.now result }
{
    let mut open = depth;
    let mut k = 0usize;
    'marks: while let Some(plain) = plain_len(text.split_at(k).1, quotes) {
        k += plain;
        match mark(text.split_at(k).1, quotes, may_follow) {
            Mark::EndQuote => {
                if open == 0 {
                    return StringSoFar::Ends(k);
                }
                open -= 1;
                // An empty end-quote is found at each byte, and consumes it.
                k += quotes.end.as_slice().len().max(1);
            }
            Mark::BeginQuote => {
                open += 1;
                k += quotes.begin.as_slice().len();
            }
            Mark::PlainByte => k += 1,
            Mark::CutQuote => return StringSoFar::Open(k, open),
        }
    }
    StringSoFar::Open(text.len(), open)
}

/// Counts the bytes before the first one with which a quote may begin; `None` if there is none.
#[inline(always)]
fn plain_len(text: &[u8], quotes: &Delimiters) -> Option<usize>
    ensures some { IfSome result (λ n. (n < length text.now) × ((m : Bool) → ArePlain quotes.now m n text.now)) }
    ensures none { IfNone result ((m : Bool) → ArePlain quotes.now m (length text.now) text.now) }
{
    match (
        quotes.begin.as_slice().first(),
        quotes.end.as_slice().first(),
    ) {
        (Some(begin), Some(end)) => first_of_two(*begin, *end, text),
        _ if text.is_empty() => None,
        _ => Some(0),
    }
}

/// Returns the mark with which a text in a string begins.
fn mark(text: &[u8], quotes: &Delimiters, may_follow: bool) -> Mark
    ensures value { result ≡ mark_at quotes.now may_follow text.now }
    ensures ends { result ≡ Mark.EndQuote → length quotes.now.end ≤ length text.now }
    ensures begins { result ≡ Mark.BeginQuote → length quotes.now.begin ≤ length text.now }
{
    let begin = quotes.begin.as_slice();
    let end = quotes.end.as_slice();
    if starts(text, end) {
        Mark::EndQuote
    } else if may_follow && (cut(text, end) || cut(text, begin)) {
        Mark::CutQuote
    } else if starts(text, begin) {
        Mark::BeginQuote
    } else {
        Mark::PlainByte
    }
}
