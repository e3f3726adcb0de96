//! The directive of a text as most are: its first line is short, has no blanks, and no length of more than five digits.
//!
//! What is not of that form is no fault: it is read as any directive is.

ghost use Rattle.std.specs.Prelude.{IfSome};
ghost use Rattle.m4_frozen.specs.Underway as underway;

use crate::number::few_digits;

/// A piece of that many bytes has the first line of such a directive, and the byte after it. Its length is fixed, so
/// that no step on it asks whether there is another byte.
const LINE: usize = 16;

/// Returns the lengths of the name and of the text of such a directive at the start, if it is complete, and the bytes
/// after its first line.
#[inline(always)]
pub(crate) fn text_at(bytes: &[u8]) -> Option<(usize, usize, &[u8])>
    ensures { IfSome result (λ t. underway.IsTextAt t.0 t.1 t.2.now bytes.now) }
{
    let (middle, len, after) = text_line(bytes.first_chunk::<LINE>()?)?;
    let strings = bytes.split_at(LINE - after).1;
    let both = middle + len;
    if both < strings.len() && strings[both] == b'\n' {
        Some((middle, len, strings))
    } else {
        None
    }
}

/// Returns the two lengths in the first line of such a directive, and how many bytes are after it.
#[inline(always)]
fn text_line(line: &[u8; LINE]) -> Option<(usize, usize, usize)>
    ensures { IfSome result (λ t. underway.IsTextLine t.0 t.1 t.2 line.now) }
{
    let [b'T', numbers @ ..] = line.as_slice() else {
        return None;
    };
    let (middle, [b',', second @ ..]) = few_digits(numbers)? else {
        return None;
    };
    let (len, [b'\n', after @ ..]) = few_digits(second)? else {
        return None;
    };
    Some((middle as usize, len as usize, after.len()))
}
