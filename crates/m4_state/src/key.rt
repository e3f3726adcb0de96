//! Byte strings as the keys of a table.
//!
//! A name is hashed by pieces of eight bytes that overlap, and not byte by byte.

ghost use Rattle.std.specs.Prelude.{◌≡◌, nat_eq};
ghost use Rattle.std.specs.List.{fold};
ghost use Rattle.std.specs.Cmp.{on_equiv, on_per, partial_equiv_from_equiv};
ghost use Rattle.std.specs.Cmp.Lexicographic.{pointwise, nat_list_eq_equiv, bytes_decides};
ghost use Rattle.std.proofs.Common.{ap};
ghost use Rattle.m4_state.specs.NameHash.{pieces};

use crate::bytes::Bytes;
use indexmap::Equivalent;
use std::hash::{Hash, Hasher};

/// How many bytes of a name are hashed at once. The hasher takes as many by one product.
const PIECE: usize = 8;

/// How far apart two pieces begin.
const STEP: usize = 4;

impl PartialEq for Bytes {
    ghost eq = { pointwise nat_eq };

    ghost laws = { partial_equiv_from_equiv nat_list_eq_equiv };

    fn eq(&self, other: &Bytes) -> bool {
        self.as_slice() == other.as_slice()
    }
}

impl Eq for Bytes {
    ghost laws = { nat_list_eq_equiv };
}

/// Feeds the bytes of a name to a hasher, by pieces.
///
/// Of 16 bytes that are written at once the hasher multiplies the two halves. If a half meets the hasher's state, the
/// product is 0 whatever the other is, and names that differ there collide. So no more than 8 bytes are written at
/// once, and a byte in the middle is in two pieces: a piece that makes up for one difference makes another.
#[inline(always)]
fn feed<H: Hasher>(name: &[u8], state: &mut H)
    ensures { state.new ≡ fold H.write state.old (pieces name.now) }
{
    let mut rest = name;
    while rest.len() > PIECE + STEP {
        state.write(&rest[..PIECE]);
        rest = &rest[STEP..];
    }
    if rest.len() > PIECE {
        // The last piece has a fixed length too, so that it is one load.
        state.write(&rest[..PIECE]);
        state.write(&rest[rest.len() - PIECE..]);
    } else {
        state.write(rest);
    }
}

impl Hash for Bytes {
    ghost hash_input = { λ name. pieces name };

    ghost respects_eq = { λ x y same. ap pieces ((bytes_decides x y).0 same) };

    fn hash<H: Hasher>(&self, state: &mut H) {
        feed(self.as_slice(), state);
    }
}

/// The bytes of a name that is looked up.
#[derive(Clone, Copy)]
pub struct Sought<'a>(pub &'a [u8]);

impl PartialEq for Sought<'_> {
    ghost eq = { λ x y. pointwise nat_eq x.0.now y.0.now };

    ghost laws = { on_per (λ x. x.0.now) (partial_equiv_from_equiv nat_list_eq_equiv) };

    fn eq(&self, other: &Self) -> bool {
        self.0 == other.0
    }
}

impl Eq for Sought<'_> {
    ghost laws = { on_equiv (λ x. x.0.now) nat_list_eq_equiv };
}

impl Hash for Sought<'_> {
    ghost hash_input = { λ sought. pieces sought.0.now };

    ghost respects_eq = { λ x y same. ap pieces ((bytes_decides x.0.now y.0.now).0 same) };

    fn hash<H: Hasher>(&self, state: &mut H) {
        feed(self.0, state);
    }
}

impl Equivalent<Bytes> for Sought<'_> {
    ghost equivalent = { λ sought name. pointwise nat_eq sought.0.now name };

    ghost respects_hash = { λ sought name same. ap pieces ((bytes_decides sought.0.now name).0 same) };

    ghost respects_eq = { λ sought x y. nat_list_eq_equiv.congr sought.0.now x y };

    fn equivalent(&self, key: &Bytes) -> bool {
        self.0 == key.as_slice()
    }
}
