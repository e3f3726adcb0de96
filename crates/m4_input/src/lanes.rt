//! Searches in sixteen bytes at once: the length of a name, and the place of a quote (`m4_state::lanes`).

ghost use Rattle.std.specs.Prelude.{◌≡◌, ◌+◌, ◌<◌, ◌≤◌, length};
ghost use Rattle.memchr.specs.Find.{Nowhere, Passes, is_byte2};
ghost use Rattle.m4_input.specs.Ascii.{is_name_byte};
ghost use Rattle.m4_input.specs.Token.{run_length};

use m4_state::lanes::first_lane;
use std::simd::prelude::*;

/// Counts the bytes from a place on before the first one of these two values, among sixteen; 16 if there is none.
#[inline(always)]
pub fn len_before_either(one: u8, other: u8, text: &[u8], at: usize) -> usize
    requires room { at + 16 ≤ length text.now }
    ensures within { result ≤ 16 }
    ensures none { Nowhere (Passes (is_byte2 one other) text.now) at (at + result) }
    ensures here { result < 16 → Passes (is_byte2 one other) text.now (at + result) }
{
    let lanes = u8x16::from_slice(&text[at..]);
    first_lane((lanes.simd_eq(u8x16::splat(one)) | lanes.simd_eq(u8x16::splat(other))).to_bitmask())
}

/// Returns the length of the name at the start, or 16 if it has sixteen bytes or more.
#[inline(always)]
pub fn short_word_len(text: &[u8]) -> usize
    requires room { 16 ≤ length text.now }
    ensures within { result ≤ 16 }
    ensures value { result < 16 → result ≡ run_length is_name_byte text.now }
{
    let lanes = u8x16::from_slice(text);
    // With this bit, a capital letter is the small one.
    let small = lanes | u8x16::splat(0x20);
    let letters = small - u8x16::splat(b'a');
    let digits = lanes - u8x16::splat(b'0');
    let others = letters.simd_ge(u8x16::splat(26))
        & digits.simd_ge(u8x16::splat(10))
        & lanes.simd_ne(u8x16::splat(b'_'));
    first_lane(others.to_bitmask())
}
