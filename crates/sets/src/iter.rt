// The elements of a set one by one, the lowest first.
ghost use Rattle.std.specs.Prelude.{◌≡◌};
ghost use Rattle.std.specs.Iterator.{at_most};
ghost use Rattle.sets.specs.Sets as set;
ghost use Rattle.sets.specs.Iter.{TakesLowest};

use crate::{lowest, remove};

// The elements of a set that are still to come.
#[derive(Clone, Copy, Debug)]
pub struct Iter {
    pub left: u64,
}

// The elements of `m`, the lowest first.
pub fn members(m: u64) -> Iter
    ensures { result.left ≡ m }
{
    Iter { left: m }
}

impl Iterator for Iter {
    type Item = u32;

    ghost next_gives = { TakesLowest };

    ghost remaining = { λ it. at_most (set.count it.left) };

    fn next(&mut self) -> Option<u32> {
        if self.left == 0 {
            return None;
        }
        let v = lowest(self.left);
        self.left = remove(self.left, v);
        Some(v)
    }
}
