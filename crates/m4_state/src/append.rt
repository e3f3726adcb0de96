//! Appends bytes to a vector, and puts them before a place. Many of these texts are short, and a call that copies takes
//! longer than a few bytes do.

ghost use Rattle.std.specs.Prelude.{◌≡◌, ◌≤◌, ◌+◌, ◌++◌, ◌-◌, true, false, OnOk, OnErr, length, take, drop};
ghost use Rattle.std.specs.Prelude.{vec_len, vec_capacity};

use std::alloc::AllocError;

/// Appends a text. What is outside of calls goes to the output by this. One of a byte or two, as between most calls,
/// takes no call that copies.
#[inline(always)]
pub fn append(out: &mut Vec<u8>, text: &[u8]) -> Result<(), AllocError>
    ensures ok { OnOk result (out.new.items ≡ out.old.items ++ text.now) }
    ensures err { OnErr result (out.new.items ≡ out.old.items) }
{
    match text {
        [] => Ok(()),
        [byte] => {
            out.push(*byte)?;
            Ok(())
        }
        [first, second] => out.extend_from_slice(&[*first, *second]),
        _ => out.extend_from_slice(text),
    }
}

/// Appends bytes for which there is room.
pub fn append_in_room(out: &mut Vec<u8>, bytes: &[u8])
    requires { vec_len out.old + length bytes.now ≤ vec_capacity out.old }
    ensures items { out.new.items ≡ out.old.items ++ bytes.now }
    ensures len { vec_len out.new ≡ vec_len out.old + length bytes.now }
    ensures capacity { vec_capacity out.old ≤ vec_capacity out.new }
{
    match out.extend_from_slice(bytes) {
        Ok(()) => {}
        Err(AllocError) => unreachable!(),
    }
}

/// Copies a text of N to 2N bytes over as many others, as its first N and its last N, which may overlap: each is one
/// load and one store. Returns whether it has so many.
#[inline(always)]
fn copy_ends<const N: usize>(place: &mut [u8], text: &[u8]) -> bool
    requires lanes { N ≤ 16 }
    requires len { length place.old ≡ length text.now }
    ensures copied { result ≡ true → place.new ≡ text.now }
    ensures left { result ≡ false → place.new ≡ place.old }
{
    if text.len() > 2 * N {
        return false;
    }
    let Some(front) = text.first_chunk::<N>() else {
        return false;
    };
    let Some(back) = text.last_chunk::<N>() else {
        return false;
    };
    let Some(first) = place.first_chunk_mut::<N>() else {
        return false;
    };
    *first = *front;
    let Some(last) = place.last_chunk_mut::<N>() else {
        unreachable!();
    };
    *last = *back;
    true
}

/// Copies a text over as many bytes. A short one takes no call that copies.
#[inline(always)]
pub(crate) fn copy_over(place: &mut [u8], text: &[u8])
    requires { length place.old ≡ length text.now }
    ensures { place.new ≡ text.now }
{
    if text.len() < 8 {
        if copy_ends::<4>(place, text) || copy_ends::<2>(place, text) {
            return;
        }
    } else if copy_ends::<8>(place, text) || copy_ends::<16>(place, text) {
        return;
    }
    place.copy_from_slice(text);
}

/// Puts bytes directly before the place `at`, over those that are there.
#[inline(always)]
pub fn copy_before(all: &mut [u8], at: usize, bytes: &[u8])
    requires at { at ≤ length all.old }
    requires room { length bytes.now ≤ at }
    ensures put { drop (at - length bytes.now) all.new ≡ bytes.now ++ drop at all.old }
    ensures len { length all.new ≡ length all.old }
{
    match bytes {
        [byte] => all[at - 1] = *byte,
        _ => copy_over(&mut all[at - bytes.len()..at], bytes),
    }
}
