// All fillings of a book gone through one by one. Bit v - 1 of a filling, and of a mask, stands for variable v.
use samples::order;
use samples::reckon::{Reckoned, Rule};
pub use samples::reckon::{Literals, bit};

// Fillings that are at hand. Their number stands beside their room, and not in an `ArrayVec`, since fillings are `Copy`.
#[derive(Clone, Copy)]
pub struct Fillings {
    room: [u64; Fillings::ROOM],
    count: usize,
}

impl Fillings {
    // Books of up to ten variables have no more.
    pub const ROOM: usize = 1024;

    // The most variables of a book whose fillings are gone through.
    pub const VARIABLES: usize = 20;

    pub fn none() -> Fillings {
        Fillings {
            room: [0; Fillings::ROOM],
            count: 0,
        }
    }

    pub fn as_slice(&self) -> &[u64] {
        &self.room[..self.count.min(Fillings::ROOM)]
    }

    // One filling more, unless the room is full.
    fn add(&mut self, filling: u64) -> Option<()> {
        let n = self.count;
        if n >= Fillings::ROOM {
            return None;
        }
        self.room[n] = filling;
        self.count = n + 1;
        Some(())
    }
}

// 2 to the power n, or 0.
pub fn power(n: usize) -> u64 {
    if n < 64 { 1 << n } else { 0 }
}

// The mask of variables 1 to n.
pub fn first(n: usize) -> u64 {
    power(n).wrapping_sub(1)
}

// Whether bit n of a mask is set.
pub fn has(mask: u64, n: usize) -> bool {
    mask & power(n) != 0
}

// The literals over the variables of a mask.
pub fn within(set: Literals, mask: u64) -> Literals {
    Literals {
        yes: set.yes & mask,
        no: set.no & mask,
    }
}

// The literals of `a` that are not in `b`.
pub fn less(a: Literals, b: Literals) -> Literals {
    Literals {
        yes: a.yes & !b.yes,
        no: a.no & !b.no,
    }
}

// The literals of both.
pub fn joined(a: Literals, b: Literals) -> Literals {
    Literals {
        yes: a.yes | b.yes,
        no: a.no | b.no,
    }
}

// The opposites of these literals.
pub fn opposite(set: Literals) -> Literals {
    Literals {
        yes: set.no,
        no: set.yes,
    }
}

pub fn is_empty(set: Literals) -> bool {
    set.yes | set.no == 0
}

// Those of these literals that are true in a filling.
pub fn narrowed(kept: Literals, filling: u64) -> Literals {
    Literals {
        yes: kept.yes & filling,
        no: kept.no & !filling,
    }
}

// Whether a filling makes one of these literals true.
pub fn meets(filling: u64, some: Literals) -> bool {
    filling & some.yes != 0 || !filling & some.no != 0
}

// Whether a filling makes all of these literals true.
pub fn holds(filling: u64, all: Literals) -> bool {
    !filling & all.yes == 0 && filling & all.no == 0
}

// Whether a filling obeys these rules.
pub fn obeys(rules: &[Rule], filling: u64) -> bool {
    rules.iter().all(|rule| meets(filling, rule.literals))
}

// How many fillings are gone through: all of them, unless there are too many.
pub fn number_of(variables: usize) -> Option<u64> {
    if variables <= Fillings::VARIABLES {
        Some(power(variables))
    } else {
        None
    }
}

// All fillings that obey a book's rules, unless there are too many to be gone through, or to be at hand.
pub fn obeying(b: &Reckoned) -> Option<Fillings> {
    let mut found = Fillings::none();
    for filling in 0..number_of(b.variables)? {
        if obeys(b.rules.as_slice(), filling) {
            found.add(filling)?;
        }
    }
    Some(found)
}

// Whether one of these fillings makes all of the literals true.
pub fn possible(fillings: &[u64], all: Literals) -> bool {
    fillings.iter().any(|filling| holds(*filling, all))
}

// The first so far, or a filling that comes before it.
fn earlier(first: Option<u64>, filling: u64) -> Option<u64> {
    match first {
        Some(so_far) if !order::comes_before(filling, so_far) => first,
        _ => Some(filling),
    }
}

// The first of these fillings in which all of the literals are true.
pub fn first_model(fillings: &[u64], all: Literals) -> Option<u64> {
    let mut first = None;
    for &filling in fillings {
        if holds(filling, all) {
            first = earlier(first, filling);
        }
    }
    first
}

// The first model of a book of up to twenty variables, also where not all fillings that obey its rules could be at hand.
pub fn first_of_book(b: &Reckoned) -> Option<u64> {
    let mut first = None;
    for filling in 0..number_of(b.variables)? {
        if obeys(b.rules.as_slice(), filling) && holds(filling, b.facts) {
            first = earlier(first, filling);
        }
    }
    first
}

// The literals over the choices of a mask that are true in each of these fillings in which the given ones are.
pub fn forced(fillings: &[u64], given: Literals, choices: u64) -> Literals {
    let mut kept = Literals {
        yes: choices,
        no: choices,
    };
    for &filling in fillings {
        if holds(filling, given) {
            kept = narrowed(kept, filling);
        }
    }
    kept
}
