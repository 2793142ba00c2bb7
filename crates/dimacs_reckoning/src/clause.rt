// The literals of one clause, sorted as they come. A literal is a byte; those from 128 on say no.
use samples::build;

// The different literals, in rising order of their variables, at the start of a room: those that come to stand behind it are
// counted and not kept. Whether one of those kept and its opposite came; and whether one of them came twice, or after one of
// a later variable. The count stands beside the room, and not in an `ArrayVec`, since a clause is `Copy`.
#[derive(Clone, Copy)]
pub struct Clause {
    literals: [u8; Clause::ROOM],
    count: usize,
    pub opposed: bool,
    pub repeated: bool,
    pub moved: bool,
}

impl Clause {
    pub const ROOM: usize = 64;

    pub fn empty() -> Clause {
        Clause {
            literals: [0; Clause::ROOM],
            count: 0,
            opposed: false,
            repeated: false,
            moved: false,
        }
    }

    // The clause of these literals.
    pub fn of(literals: &[u8]) -> Clause {
        let mut c = Clause::empty();
        for &literal in literals {
            c.add(literal);
        }
        c
    }

    pub fn len(&self) -> usize {
        self.count
    }

    pub fn is_empty(&self) -> bool {
        self.count == 0
    }

    // The literal at a place, or 0.
    pub fn at(&self, i: usize) -> u8 {
        build::byte_at(&self.literals, i)
    }

    fn holds(&self, literal: u8) -> bool {
        (0..self.count).any(|i| self.at(i) == literal)
    }

    // One literal more. A repeat is not put in.
    pub fn add(&mut self, literal: u8) {
        if self.holds(literal) {
            self.repeated = true;
            return;
        }
        self.opposed = self.opposed || self.holds(build::negated(literal));
        self.put_in(literal);
    }

    // A literal put in: it takes the place of the first of a later variable, that one the next place, and so on.
    fn put_in(&mut self, literal: u8) {
        let count = self.count;
        let mut carried = literal;
        for i in 0..count {
            let other = self.at(i);
            if build::variable(carried) < build::variable(other) {
                self.change(i, carried);
                carried = other;
            }
        }
        self.moved = self.moved || carried != literal;
        self.change(count, carried);
        self.count = count.wrapping_add(1);
    }

    // Another literal at a place, unless that is behind the room.
    fn change(&mut self, i: usize, literal: u8) {
        if i < Clause::ROOM {
            self.literals[i] = literal;
        }
    }
}

#[cfg(test)]
mod tests {
    use super::*;

    // Whether a clause has so many literals, and these are the first three, 0 where there are fewer.
    fn holds(c: &Clause, len: usize, first: [u8; 3]) -> bool {
        c.len() == len && [c.at(0), c.at(1), c.at(2)] == first
    }

    // 3, no of 1, 3 again, and yes of 1.
    #[test]
    fn clause_of_literals() -> Result<(), &'static str> {
        let c = Clause::of(&[3, 255, 3, 1]);
        if holds(&c, 3, [255, 1, 3]) && c.opposed && c.repeated && c.moved {
            return Ok(());
        }
        Err("of literals out of order, one twice and one with its opposite")
    }

    #[test]
    fn clause_of_literals_in_order() -> Result<(), &'static str> {
        let c = Clause::of(&[1, 254]);
        if holds(&c, 2, [1, 254, 0]) && !c.opposed && !c.repeated && !c.moved {
            return Ok(());
        }
        Err("of literals in order")
    }

    #[test]
    fn clause_of_no_literals() -> Result<(), &'static str> {
        let c = Clause::of(&[]);
        if c.is_empty() && holds(&c, 0, [0; 3]) {
            return Ok(());
        }
        Err("of no literals")
    }
}
