//! Searches in sixteen bytes at once, for the crates above. Most names, strings and pieces of a text are short, and to
//! look at their bytes one by one takes longer. The callers search a text of fewer bytes themselves.

ghost use Rattle.std.specs.Prelude.{◌≡◌, ◌==◌, ◌+◌, ◌<◌, ◌≤◌, ℕ, Bool, List, not, drop, length, map};
ghost use Rattle.std.specs.List.{prefix_len};
ghost use Rattle.std.specs.Simd.Lanes.{mask_l};

use std::simd::prelude::*;

/// How many bytes are searched or copied at once: those of a register of the processor.
pub const LANES: usize = 16;

/// Returns the first lane that is marked, or 16 if none is.
#[inline(always)]
pub fn first_lane(marks: u64) -> usize
    ensures { (p : ℕ → Bool) (x : List ℕ) → length x ≡ 16 → marks ≡ mask_l (map p x)
        → result ≡ prefix_len (λ b. not (p b)) x }
{
    if marks == 0 {
        LANES
    } else {
        marks.trailing_zeros() as usize
    }
}

/// Returns a bit for each lane: whether it is this byte. The lowest bit is for the first lane.
#[inline(always)]
fn equal_marks(lanes: u8x16, byte: u8) -> u64
    ensures { result ≡ mask_l (map (λ (b : ℕ). b == byte) lanes) }
{
    lanes.simd_eq(u8x16::splat(byte)).to_bitmask()
}

/// Counts the bytes from a place on before the first one of this value, among sixteen; 16 if there is none.
#[inline(always)]
pub fn len_before(byte: u8, text: &[u8], at: usize) -> usize
    requires room { at + 16 ≤ length text.now }
    ensures within { result ≤ 16 }
    ensures ends { result < 16 → prefix_len (λ b. not (b == byte)) (drop at text.now) ≡ result }
    ensures passes { result ≡ 16 → prefix_len (λ b. not (b == byte)) (drop at text.now)
        ≡ 16 + prefix_len (λ b. not (b == byte)) (drop (at + 16) text.now) }
{
    first_lane(equal_marks(u8x16::from_slice(&text[at..]), byte))
}
