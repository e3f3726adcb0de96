//! Substitution: replaces `$0`, `$1`, `$#`, `$*` and `$@` in a text by a call's name and arguments.

ghost use Rattle.std.specs.Prelude.{◌≡◌, ◌==◌, ◌≤◌, ◌^◌, [], ◌∷◌, ◌++◌, IfOk, OnOk, ℕ, ◌+◌, ◌<◌, length, map, not};
ghost use Rattle.std.specs.Prelude.{decimal, take, true, List};
ghost use Rattle.m4_state.specs.declared.delimiters.Delimiters.{Delimiters};
ghost use Rattle.m4_input.specs.Ascii.{dollar, is_digit};
ghost use Rattle.m4_input.specs.Token.{run_length};
ghost use Rattle.m4_builtins.specs.QuotesView.{pair_of};
ghost use Rattle.m4_builtins.specs.Args.{text_of_arg, texts_of, joined_by, quoted};
ghost use Rattle.m4_builtins.specs.Subst.{subst, after_dollar, number_of, nth_text, all_quoted};
ghost use Rattle.m4_builtins.specs.Numbers.{IsNumber};

use crate::args::{Arg, Args};
use crate::fault::BuiltinFault;
use itoa::Buffer;
use m4_state::bytes::Bytes;
use m4_state::lanes::{LANES, len_before};
use m4_state::text_buffer::TextBuffer;
use std::alloc::{AllocError, Global};

/// Returns a text with the name and the arguments of a call substituted, by the current quotes. Takes
/// time in proportion to the text and to the inserted arguments. Returns `OutOfMemory` if an allocation
/// fails. Manual:
/// "Arguments to macros", "Special arguments to macros".
pub fn substitute(
    alloc: Global,
    text: &[u8],
    args: &Args,
    quotes: (&[u8], &[u8]),
) -> Result<Bytes, BuiltinFault>
    // exact steps: the text with the arguments substituted
    ensures { IfOk result (λ b. b ≡ subst text.now args.now.name args.now.list (pair_of quotes.entry)) }
{
    let mut out = TextBuffer::new(alloc);
    substitute_onto(
        &mut out,
        text,
        plain_len(text),
        args.name.as_slice(),
        args.list.as_slice(),
        quotes,
    )?;
    Ok(Bytes::from(out.take()))
}

/// Returns whether a text has no dollar, so that it is its own expansion.
#[inline(always)]
pub fn is_plain(text: &[u8]) -> bool
    ensures { result ≡ true → (name : List ℕ) (list : List Arg) (quotes : Delimiters)
        → subst text.now name list quotes ≡ text.now }
{
    plain_len(text) == text.len()
}

/// Appends a text with the name and the arguments of a call substituted, as [`substitute`] does. The text has so many
/// bytes before its first dollar.
pub(crate) fn substitute_onto(
    out: &mut TextBuffer,
    text: &[u8],
    plain: usize,
    name: &[u8],
    list: &[Arg],
    quotes: (&[u8], &[u8]),
) -> Result<(), BuiltinFault>
    requires count { plain ≡ run_length (λ b. not (b == dollar)) text.now }
    requires within { plain ≤ length text.now }
    // exact steps: the text with the arguments substituted
    ensures { OnOk result (out.new ≡ out.old ++ subst text.now name.now list.now (pair_of quotes.entry)) }
{
    let mut rest = text;
    let mut before = plain;
    while !rest.is_empty() {
        rest = push_front(out, rest, before, name, list, quotes)?;
        before = plain_len(rest);
    }
    Ok(())
}

/// Appends the bytes before the first dollar, and the replacement of that dollar. Returns the rest of
/// the text.
#[inline(always)]
fn push_front<'a>(
    out: &mut TextBuffer,
    text: &'a [u8],
    plain: usize,
    name: &[u8],
    list: &[Arg],
    quotes: (&[u8], &[u8]),
) -> Result<&'a [u8], AllocError>
    requires count { plain ≡ run_length (λ b. not (b == dollar)) text.now }
    requires within { plain ≤ length text.now }
    ensures pushed { IfOk result (λ rest. out.new ++ subst rest.now name.now list.now (pair_of quotes.entry)
        ≡ out.old ++ subst text.now name.now list.now (pair_of quotes.entry)) }
    ensures shorter { IfOk result (λ rest. 0 < length text.now → length rest.now < length text.now) }
{
    push_plain(out, text, plain)?;
    let from_dollar = text.split_at(plain).1;
    match from_dollar.split_first() {
        Some((_, after)) => {
            let used = push_dollar(out, after, name, list, quotes)?;
            Ok(after.split_at(used).1)
        }
        None => Ok(from_dollar),
    }
}

/// Appends the first `len` bytes of a text. A byte alone, as before many dollars, takes no call.
#[inline(always)]
fn push_plain(out: &mut TextBuffer, text: &[u8], len: usize) -> Result<(), AllocError>
    requires { len ≤ length text.now }
    ensures { OnOk result (out.new ≡ out.old ++ take len text.now) }
{
    if len <= 1 {
        return out.append(text.split_at(len).0);
    }
    out.append_front(text, len)
}

/// Counts the bytes before the first dollar, sixteen at a time if there are as many. The last sixteen may overlap those
/// before them.
#[inline(always)]
pub(crate) fn plain_len(bytes: &[u8]) -> usize
    ensures value { result ≡ run_length (λ b. not (b == dollar)) bytes.now }
    ensures within { result ≤ length bytes.now }
{
    if bytes.len() < LANES {
        return plain_len_by_bytes(bytes);
    }
    let mut k = 0;
    while k < bytes.len() {
        let at = k.min(bytes.len() - LANES);
        let plain = len_before(b'$', bytes, at);
        if plain < LANES {
            return at + plain;
        }
        k = at + LANES;
    }
    k
}

/// Counts the bytes before the first dollar, byte by byte.
#[inline(always)]
fn plain_len_by_bytes(bytes: &[u8]) -> usize
    ensures value { result ≡ run_length (λ b. not (b == dollar)) bytes.now }
    ensures within { result ≤ length bytes.now }
{
    let mut k = 0;
    while k < bytes.len() && bytes[k] != b'$' {
        k += 1;
    }
    k
}

/// Appends the replacement of a dollar; returns how many of the following bytes it used.
fn push_dollar(
    out: &mut TextBuffer,
    after: &[u8],
    name: &[u8],
    list: &[Arg],
    quotes: (&[u8], &[u8]),
) -> Result<usize, AllocError>
    ensures used { IfOk result (λ n. n ≡ (after_dollar name.now (map text_of_arg list.now)
        (pair_of quotes.entry) after.now).1) }
    ensures text { OnOk result (out.new ≡ out.old
        ++ (after_dollar name.now (map text_of_arg list.now) (pair_of quotes.entry) after.now).0) }
    ensures within { IfOk result (λ n. n ≤ length after.now) }
{
    match after.first() {
        Some(b'0'..=b'9') => {
            let (len, number) = number_at(after);
            push_numbered(out, number, name, list)?;
            Ok(len)
        }
        Some(b'#') => {
            push_count(out, list.len())?;
            Ok(1)
        }
        Some(b'*') => {
            push_joined(out, list, b',')?;
            Ok(1)
        }
        Some(b'@') => {
            push_quoted(out, list, quotes)?;
            Ok(1)
        }
        _ => {
            out.push(b'$')?;
            Ok(0)
        }
    }
}

/// Returns how many digits are at the start, and the number that they spell; most often there is one.
#[inline(always)]
pub(crate) fn number_at(bytes: &[u8]) -> (usize, Option<usize>)
    ensures len { result.0 ≡ run_length is_digit bytes.now }
    ensures within { result.0 ≤ length bytes.now }
    ensures number { IsNumber result.1 (number_of (take result.0 bytes.now)) }
{
    if let [digit @ b'0'..=b'9', rest @ ..] = bytes {
        if !matches!(rest, [b'0'..=b'9', ..]) {
            return (1, Some(usize::from(*digit - b'0')));
        }
    }
    let len = digits_len(bytes);
    (len, number_of(bytes.split_at(len).0))
}

/// Counts the digits at the start.
fn digits_len(bytes: &[u8]) -> usize
    ensures value { result ≡ run_length is_digit bytes.now }
    ensures within { result ≤ length bytes.now }
{
    let mut k = 0;
    while k < bytes.len() && bytes[k].is_ascii_digit() {
        k += 1;
    }
    k
}

/// Returns the number that these digits spell; none if it is greater than every count.
fn number_of(digits: &[u8]) -> Option<usize>
    ensures { IsNumber result (number_of digits.now) }
{
    let mut value = 0usize;
    for digit in digits {
        let shifted = value.checked_mul(10)?;
        value = shifted.checked_add(usize::from(digit.saturating_sub(b'0')))?;
    }
    Some(value)
}

/// Appends the argument with a number, or the name for 0; nothing if the number is above their count.
fn push_numbered(
    out: &mut TextBuffer,
    number: Option<usize>,
    name: &[u8],
    list: &[Arg],
) -> Result<(), AllocError>
    ensures { (m : ℕ) → IsNumber number m
        → OnOk result (out.new ≡ out.old ++ nth_text name.now (map text_of_arg list.now) m) }
{
    let count = list.len();
    let Some(n) = number else {
        return Ok(());
    };
    if n == 0 {
        out.append(name)?;
    } else if n <= count {
        push_argument(out, &list[n - 1])?;
    }
    Ok(())
}

/// Appends an argument as text: a definition counts as empty.
#[inline(always)]
fn push_argument(out: &mut TextBuffer, arg: &Arg) -> Result<(), AllocError>
    ensures { OnOk result (out.new ≡ out.old ++ text_of_arg arg.now) }
{
    match arg {
        Arg::Text(text) => out.append_bytes(text),
        Arg::Definition(_) => Ok(()),
    }
}

/// Appends a count in decimal.
fn push_count(out: &mut TextBuffer, count: usize) -> Result<(), AllocError>
    ensures { OnOk result (out.new ≡ out.old ++ decimal count) }
{
    let mut buffer = Buffer::new();
    out.append(buffer.format(count).as_bytes())
}

/// Appends the arguments, with a separator between any two of them. Not inlined, so that a text with other dollars does
/// not prepare its loop.
#[inline(never)]
#[tactic(auto, using(crate::proofs::Joins::between_none))]
pub(crate) fn push_joined(
    out: &mut TextBuffer,
    args: &[Arg],
    separator: u8,
) -> Result<(), AllocError>
    ensures { OnOk result (out.new ≡ out.old ++ joined_by (separator ∷ []) (texts_of args.now)) }
{
    push_list(out, args, separator, (&[], &[]))
}

/// Appends the arguments, each between quotes, with a comma between any two of them. Not inlined, as above.
#[inline(never)]
pub(crate) fn push_quoted(
    out: &mut TextBuffer,
    args: &[Arg],
    quotes: (&[u8], &[u8]),
) -> Result<(), AllocError>
    ensures { OnOk result (out.new ≡ out.old ++ all_quoted (pair_of quotes.entry)
        (map text_of_arg args.now)) }
{
    match quotes {
        // As most quotes are: the loop tests no lengths.
        ([begin], [end]) => push_list(out, args, b',', (&[*begin], &[*end])),
        _ => push_list(out, args, b',', quotes),
    }
}

/// Appends the arguments, each between quotes, with a separator between any two of them. Inlined, so that arguments
/// without quotes take no tests of them.
#[inline(always)]
#[tactic(auto, using(crate::proofs::Joins::joined_step))]
fn push_list(
    out: &mut TextBuffer,
    args: &[Arg],
    separator: u8,
    quotes: (&[u8], &[u8]),
) -> Result<(), AllocError>
    ensures { OnOk result (out.new ≡ out.old
        ++ joined_by (separator ∷ []) (map (quoted (pair_of quotes.entry)) (texts_of args.now))) }
{
    let mut first = true;
    for arg in args {
        if !first {
            out.push(separator)?;
        }
        out.append(quotes.0)?;
        push_argument(out, arg)?;
        out.append(quotes.1)?;
        first = false;
    }
    Ok(())
}

/// Appends a text between quotes.
#[inline(always)]
pub(crate) fn push_one_quoted(
    out: &mut TextBuffer,
    text: &[u8],
    quotes: (&[u8], &[u8]),
) -> Result<(), AllocError>
    ensures { OnOk result (out.new ≡ out.old ++ quoted (pair_of quotes.entry) text.now) }
{
    out.append(quotes.0)?;
    out.append(text)?;
    out.append(quotes.1)
}
