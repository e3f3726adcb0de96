//! The radix of a number to write: 2 to 36. Manual: "Evaluating integer expressions".

ghost use Rattle.std.specs.Prelude.{◌≡◌, ◌≤◌, ℕ};
ghost use Rattle.m4_eval.specs.InRadix as spec;

use std::marker::Model;

/// A radix from 2 to 36. Contracts see it as its number.
#[derive(Clone, Copy)]
pub struct Radix {
    number: u32,
}

impl Model for Radix {
    ghost Value = { ℕ };

    ghost view = { λ r. r.number };

    ghost invariant = { λ r. (2 ≤ r.number) × (r.number ≤ 36) };

    ghost inverse = { λ n. record { number = n } };
}

impl Radix {
    /// Returns the radix with this number, or `None` if the number is below 2 or above 36.
    pub fn new(number: i32) -> Option<Self>
        // exact expressions: 2 to 36
        ensures radix { result ≡ spec.radix_at number }
    {
        match number {
            2..=36 => Some(Radix {
                number: number as u32,
            }),
            _ => None,
        }
    }

    /// Returns radix 10.
    pub fn decimal() -> Self
        ensures { result ≡ 10 }
    {
        Radix { number: 10 }
    }

    /// Returns the number of the radix.
    pub fn value(self) -> u32
        ensures value { result ≡ self }
        ensures least { 2 ≤ result }
        ensures most { result ≤ 36 }
    {
        self.number
    }
}
