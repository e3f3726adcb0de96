//! Marks of the names in a table. Most words of a text are no names in it, and most of these are known by a mark that
//! is not there. A mark says where its name is, so that most names are found without a hash.

ghost use Rattle.std.specs.Prelude.{◌≡◌, ◌<◌, List, ℕ, nat_lt, true};
ghost use Rattle.m4_state.specs.Marks.{place_of, is_marked};

use std::alloc::{AllocError, Global};
use std::marker::Model;

/// How many marks there are.
const MARKS: usize = 4096;

/// The greatest index that a mark tells. A name after it has the mark of this one, and is found by its hash.
const LAST_TOLD: usize = 65_534;

/// A mark at the place of each name that was added, and maybe of others: one more than the index of the last name that
/// was added there, or 0 if none was.
#[derive(Drop)]
pub struct Marks {
    marks: Vec<u16>,
}

impl Model for Marks {
    ghost use Rattle.std.specs.Prelude.{◌≡◌, List, ℕ, length};

    ghost Value = { List ℕ };

    ghost view = { λ m. m.marks.items };

    ghost invariant = { λ m. length m.marks.items ≡ 4096 };
}

/// Returns the place of a name's mark.
#[inline(always)]
fn place_of(name: &[u8]) -> usize
    ensures place { result ≡ place_of name.now }
    ensures within { result < 4096 }
{
    let len = name.len();
    if len == 0 {
        return 0;
    }
    let first = usize::from(name[0]);
    let middle = usize::from(name[len / 2]);
    let last = usize::from(name[len - 1]);
    (first + 8 * (middle + 8 * (last + 8 * (len % 8)))) % MARKS
}

impl Marks {
    /// Returns no marks.
    pub fn new(alloc: Global) -> Result<Marks, AllocError> {
        Ok(Marks {
            marks: Vec::from_elem(alloc, 0u16, MARKS)?,
        })
    }

    /// Returns 0 if a name was not added. Otherwise it returns one more than the index that the name may have.
    #[inline(always)]
    pub fn hint(&self, name: &[u8]) -> usize
        ensures { nat_lt 0 result ≡ is_marked self.now name.now }
    {
        usize::from(self.marks[place_of(name)])
    }

    /// Adds a name, which has this index.
    #[inline(always)]
    pub fn add(&mut self, name: &[u8], index: usize)
        ensures added { is_marked self.new name.now ≡ true }
        ensures stay { (other : List ℕ) → is_marked self.old other ≡ true → is_marked self.new other ≡ true }
    {
        let place = place_of(name);
        self.marks[place] = index.min(LAST_TOLD) as u16 + 1;
    }
}
