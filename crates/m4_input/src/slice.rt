//! Searches in one slice: the length of its name or line, and the place of a delimiter.

ghost use Rattle.std.specs.Prelude.{◌≡◌, ◌≢◌, ◌+◌, ◌≤◌, ◌∷◌, [], ℕ, IfSome, IfNone, IsTrue, length};
ghost use Rattle.m4_input.specs.Ascii.{is_letter, is_name_byte};
ghost use Rattle.m4_input.specs.Pending.{line_length};
ghost use Rattle.m4_input.specs.Token.{begins, is_cut, run_length, before};

use crate::lanes::short_word_len;
use m4_state::lanes::LANES;
use memchr::{memchr, memmem};

/// Returns whether a byte is an ASCII letter or an underscore; a name begins with one.
pub fn is_letter_byte(b: u8) -> bool
    ensures { result ≡ is_letter b }
{
    b.is_ascii_alphabetic() || b == b'_'
}

/// Counts the bytes of the name at the start.
pub fn word_len(bytes: &[u8]) -> usize
    ensures value { result ≡ run_length is_name_byte bytes.now }
    ensures within { result ≤ length bytes.now }
{
    if bytes.len() >= LANES {
        let len = short_word_len(bytes);
        if len < LANES {
            return len;
        }
    }
    let mut k = 0;
    while k < bytes.len() && (bytes[k].is_ascii_alphanumeric() || bytes[k] == b'_') {
        k += 1;
    }
    k
}

/// Returns the byte of a delimiter that has only one.
pub fn single(delimiter: &[u8]) -> Option<u8>
    ensures some { IfSome result (λ b. delimiter.now ≡ b ∷ []) }
    ensures none { IfNone result ((b : ℕ) → delimiter.now ≢ b ∷ []) }
{
    let (first, rest) = delimiter.split_first()?;
    if rest.is_empty() { Some(*first) } else { None }
}

/// Returns whether a text begins with a delimiter.
pub fn starts(text: &[u8], delimiter: &[u8]) -> bool
    ensures value { result ≡ begins delimiter.now text.now }
    ensures within { IsTrue result → length delimiter.now ≤ length text.now }
{
    text.starts_with(delimiter)
}

/// Returns whether a text is a prefix of a delimiter, and not all of it.
pub fn cut(text: &[u8], delimiter: &[u8]) -> bool
    ensures { result ≡ is_cut text.now delimiter.now }
{
    starts(delimiter, text) && text.len() < delimiter.len()
}

/// Counts the bytes before the first such delimiter; `None` if there is none. An empty one is found at each byte.
pub fn find(text: &[u8], delimiter: &[u8]) -> Option<usize>
    ensures value { result ≡ before delimiter.now text.now }
    ensures within { IfSome result (λ n. n + length delimiter.now ≤ length text.now) }
{
    match single(delimiter) {
        Some(byte) => memchr(byte, text),
        None if text.is_empty() => None,
        None => memmem::find(text, delimiter),
    }
}

/// Counts the bytes of the rest of the line, with its newline; `None` if no newline is left.
pub fn line_len(text: &[u8]) -> Option<usize>
    ensures value { result ≡ line_length text.now }
    ensures within { IfSome result (λ n. n ≤ length text.now) }
{
    Some(memchr(b'\n', text)? + 1)
}
