//! One look at the start of a text: which token is first, and how long it is. It copies nothing, and looks up no name.
//! If more bytes may follow (`may_follow`), nothing is decided that they could change.
//!
//! A run looks at each token of its text, so the look is inlined, and tests the first byte before it
//! compares a delimiter. Manual: "Lexical and syntactic conventions", "Quoted strings", "Comments", "Names".

ghost use Rattle.std.specs.Prelude.{◌≡◌, ◌+◌, ◌<◌, ◌≤◌, ◌∷◌, List, ℕ, IfSome, IfOk, IsTrue, length, take, drop};
ghost use Rattle.m4_input.specs.Ascii.{is_name_byte};
ghost use Rattle.m4_input.specs.Look.{scan_of, LookLies};
ghost use Rattle.m4_input.specs.Paren.{paren_in};
ghost use Rattle.m4_input.specs.Text.{LiesIn};
ghost use Rattle.m4_input.specs.Token.{starts_with, may_start, kind_of, run_length, unended, name_at, comment_at};
ghost use Rattle.m4_input.specs.Token.{string_at, scan};

use crate::delims::Delims;
use crate::front::{Answer, Kind, Look, Scan, Unended};
use crate::slice::{cut, find, is_letter_byte, single, starts, word_len};
use crate::strings::{StringSoFar, follow_string};
use crate::token::Token;
use m4_state::bytes::Bytes;
use m4_state::delimiters::Delimiters;
use std::alloc::{AllocError, Global};

/// Returns the first token of a text, if no delimiter can begin with its first byte. This takes no search.
#[inline(always)]
pub fn plain_token(text: &[u8], delims: &Delims<'_>, may_follow: bool) -> Option<Look>
    ensures value { IfSome result (λ l. scan delims.now.quotes.now delims.now.comments.now
        may_follow text.now ≡ scan_of l text.now) }
    ensures lies { IfSome result (λ l. LookLies text.now l) }
{
    let (first, _) = text.split_first()?;
    if delims.may_comment(*first) || delims.may_quote(*first) {
        None
    } else if is_letter_byte(*first) {
        Some(name_token(text, may_follow))
    } else {
        Some(Look::Byte(*first))
    }
}

/// Returns the name at the start of a text.
#[inline(always)]
fn name_token(text: &[u8], may_follow: bool) -> Look
    requires { 0 < run_length is_name_byte text.now }
    ensures value { name_at may_follow text.now ≡ scan_of result text.now }
    ensures lies { LookLies text.now result }
{
    let len = word_len(text);
    if may_follow && len == text.len() {
        Look::NeedsMore
    } else {
        Look::Name(len)
    }
}

/// Returns the first token of a text, if it is a comment whose begin has one byte, or a string, and nothing else can
/// begin with its first byte.
#[inline(always)]
pub fn delimited_token(text: &[u8], delims: &Delims<'_>, may_follow: bool) -> Option<Look>
    ensures value { IfSome result (λ l. scan delims.now.quotes.now delims.now.comments.now
        may_follow text.now ≡ scan_of l text.now) }
    ensures lies { IfSome result (λ l. LookLies text.now l) }
{
    let first = text.first()?;
    if delims.may_comment(*first) {
        if single(delims.comments.begin.as_slice())? != *first {
            return None;
        }
        return Some(look_at_comment(text, delims.comments, may_follow));
    }
    let begins = match single(delims.quotes.begin.as_slice()) {
        Some(byte) => byte == *first,
        None => opens(text, delims.quotes),
    };
    if !begins || is_letter_byte(*first) {
        return None;
    }
    Some(look_at_string(text, delims.quotes, may_follow))
}

/// Returns whether a text begins with a pair that is enabled.
fn opens(text: &[u8], pair: &Delimiters) -> bool
    ensures value { result ≡ starts_with pair.now text.now }
    ensures within { IsTrue result
        → (0 < length pair.now.begin) × (length pair.now.begin ≤ length text.now) }
{
    let begin = pair.begin.as_slice();
    !begin.is_empty() && starts(text, begin)
}

/// Returns whether a text may begin with the pair once more bytes follow.
fn may_open(text: &[u8], pair: &Delimiters, may_follow: bool) -> bool
    ensures { result ≡ may_start pair.now may_follow text.now }
{
    let begin = pair.begin.as_slice();
    may_follow && !begin.is_empty() && cut(text, begin)
}

/// Returns the kind of token with which a text begins.
pub(crate) fn kind(text: &[u8], delims: &Delims<'_>, may_follow: bool, first: u8) -> Kind
    requires { text.now ≡ first ∷ drop 1 text.now }
    ensures value { result ≡ kind_of delims.now.quotes.now delims.now.comments.now
        may_follow first (drop 1 text.now) }
    ensures comment { result ≡ Kind.CommentHere
        → length delims.now.comments.now.begin ≤ length text.now }
    ensures string { result ≡ Kind.StringHere → (0 < length delims.now.quotes.now.begin)
        × (length delims.now.quotes.now.begin ≤ length text.now) }
{
    if opens(text, delims.comments) {
        Kind::CommentHere
    } else if may_open(text, delims.comments, may_follow) {
        Kind::Undecided
    } else if is_letter_byte(first) {
        Kind::NameHere
    } else if opens(text, delims.quotes) {
        Kind::StringHere
    } else if may_open(text, delims.quotes, may_follow) {
        Kind::Undecided
    } else {
        Kind::ByteHere
    }
}

/// Returns the first token of a text, by its kind. This is the general look; those above are for the usual cases.
#[inline(never)]
pub fn look_by_kind(text: &[u8], delims: &Delims<'_>, may_follow: bool) -> Look
    // exact steps: what the definition of the first token decides
    ensures value { scan delims.now.quotes.now delims.now.comments.now may_follow text.now
        ≡ scan_of result text.now }
    ensures lies { LookLies text.now result }
{
    let Some(first) = text.first() else {
        return if may_follow {
            Look::NeedsMore
        } else {
            Look::End
        };
    };
    match kind(text, delims, may_follow, *first) {
        Kind::CommentHere => look_at_comment(text, delims.comments, may_follow),
        Kind::NameHere => name_token(text, may_follow),
        Kind::StringHere => look_at_string(text, delims.quotes, may_follow),
        Kind::ByteHere => Look::Byte(*first),
        Kind::Undecided => Look::NeedsMore,
    }
}

/// Returns the comment at the start of a text, with its delimiters.
fn look_at_comment(text: &[u8], pair: &Delimiters, may_follow: bool) -> Look
    requires { length pair.now.begin ≤ length text.now }
    ensures value { comment_at pair.now may_follow text.now ≡ scan_of result text.now }
    ensures lies { LookLies text.now result }
{
    let begin = pair.begin.as_slice().len();
    let end = pair.end.as_slice();
    match find(text.split_at(begin).1, end) {
        None => without_end(Unended::InComment, may_follow),
        Some(n) => Look::Comment(begin + (n + end.len())),
    }
}

/// Returns the string at the start of a text, without its outermost quotes.
#[inline(always)]
fn look_at_string(text: &[u8], pair: &Delimiters, may_follow: bool) -> Look
    requires starts { length pair.now.begin ≤ length text.now }
    requires begin { 0 < length pair.now.begin }
    ensures value { string_at pair.now may_follow text.now ≡ scan_of result text.now }
    ensures lies { LookLies text.now result }
{
    let begin = pair.begin.as_slice().len();
    let end = pair.end.as_slice();
    match follow_string(text.split_at(begin).1, 0, pair, may_follow) {
        StringSoFar::Open(_, _) => without_end(Unended::InString, may_follow),
        StringSoFar::Ends(len) => Look::Quoted {
            begin,
            len,
            all: begin + (len + end.len()),
        },
    }
}

/// Returns whether the first token of a text is an opening parenthesis; `Unknown` if more bytes may follow
/// that decide it.
#[inline(always)]
pub fn list_follows(text: &[u8], delims: &Delims<'_>, may_follow: bool) -> Answer
    // exact steps: whether a list follows
    ensures { paren_in delims.now.quotes.now delims.now.comments.now may_follow text.now ≡ result }
{
    match text.first() {
        Some(b'(') => {}
        Some(_) => return Answer::No,
        None if may_follow => return Answer::Unknown,
        None => return Answer::No,
    }
    // Hardly ever does a delimiter begin with a parenthesis.
    if !(delims.may_comment(b'(') || delims.may_quote(b'(')) {
        return Answer::Yes;
    }
    if opens(text, delims.comments) || opens(text, delims.quotes) {
        Answer::No
    } else if may_open(text, delims.comments, may_follow)
        || may_open(text, delims.quotes, may_follow)
    {
        Answer::Unknown
    } else {
        Answer::Yes
    }
}

/// Returns a token that has no end in the bytes that are available.
fn without_end(what: Unended, may_follow: bool) -> Look
    ensures lies { (x : List ℕ) → LookLies x result }
    ensures value { (x : List ℕ) → scan_of result x ≡ unended may_follow what }
{
    if may_follow {
        Look::NeedsMore
    } else {
        Look::Unended(what)
    }
}

/// Returns the token that a look at a text found, with a copy of its text, and its length.
pub(crate) fn copied(alloc: Global, look: Look, text: &[u8]) -> Result<Scan, AllocError>
    requires { LookLies text.now look }
    ensures value { IfOk result (λ s. s ≡ scan_of look text.now) }
    ensures within { IfOk result (λ s. LiesIn (length text.now) s) }
{
    let found = match look {
        Look::Name(len) => Scan::Found(Token::Name(front_of(alloc, text, 0, len)?), len),
        Look::Byte(byte) => Scan::Found(Token::Byte(byte), 1),
        Look::Quoted { begin, len, all } => {
            Scan::Found(Token::Str(front_of(alloc, text, begin, len)?), all)
        }
        Look::Comment(len) => Scan::Found(Token::Comment(front_of(alloc, text, 0, len)?), len),
        Look::End => Scan::Found(Token::End, 0),
        Look::Unended(what) => Scan::Broken(what),
        Look::NeedsMore => Scan::NeedsMore,
    };
    Ok(found)
}

/// Copies `len` bytes of a text from a place on.
fn front_of(alloc: Global, text: &[u8], at: usize, len: usize) -> Result<Bytes, AllocError>
    requires { at + len ≤ length text.now }
    ensures { IfOk result (λ b. b ≡ take len (drop at text.now)) }
{
    Bytes::from_slice(alloc, text.split_at(at).1.split_at(len).0)
}
