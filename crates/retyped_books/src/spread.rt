// Small books spread over the variables of the largest: the last choice becomes the last that a book can have and each one
// before it stands three variables lower, the last helper becomes the last variable. The variables stay in their order, so
// that what follows and by which steps stays too, but for the variables.
use crate::{rules, written};
use brute_force::fillings;
use brute_force::fillings::Literals;
use samples::build::Draft;
use samples::limits;
use samples::reckon::{Reckoned, Rule, Rules};

// How many variables and choices the small book has: at most ten choices, and at most sixteen helpers.
#[derive(Clone, Copy)]
pub struct Small {
    pub variables: usize,
    pub choices: usize,
}

pub fn small_of(b: &Reckoned) -> Small {
    Small {
        variables: b.variables,
        choices: b.choices,
    }
}

// The number of variables and of choices in a large book.
const VARIABLES: usize = limits::VARIABLES as usize;

const CHOICES: usize = limits::CHOICES as usize;

// The place of a variable in the large book. Places are counted from 0.
fn place_of(small: Small, v: usize) -> usize {
    if v < small.choices {
        let back = (small.choices - v).wrapping_mul(3);
        (CHOICES + 2).wrapping_sub(back)
    } else {
        VARIABLES.wrapping_sub(small.variables.wrapping_sub(v))
    }
}

// The mask of the same variables in the large book.
pub fn mask(small: Small, set: u64) -> u64 {
    let mut made = 0;
    for v in 0..small.variables {
        if fillings::has(set, v) {
            made |= fillings::power(place_of(small, v));
        }
    }
    made
}

// The same literals in the large book.
pub fn literals(small: Small, set: Literals) -> Literals {
    Literals {
        yes: mask(small, set.yes),
        no: mask(small, set.no),
    }
}

// The costs in the large book, those of the other choices being 1.
fn costs(b: &Reckoned) -> [[u16; 2]; limits::COSTS] {
    let small = small_of(b);
    let mut made = [[1; 2]; limits::COSTS];
    for (v, of_choice) in b.costs.iter().take(b.choices).enumerate() {
        let place = place_of(small, v);
        if place < limits::COSTS {
            made[place] = *of_choice;
        }
    }
    made
}

// The rules in the large book.
fn rules_of(b: &Reckoned) -> Rules {
    let small = small_of(b);
    let mut made = Rules::new();
    for rule in b.rules.as_slice() {
        made.push(Rule {
            literals: literals(small, rule.literals),
            window: None,
        });
    }
    made
}

// What is given of the choices that are not the small book's: yes and no in turn, or nothing.
pub fn others(small: Small, given: bool) -> Literals {
    let none = fillings::first(CHOICES) & !mask(small, fillings::first(small.choices));
    let even = 6148914691236517205;
    let all = Literals {
        yes: none & even,
        no: none & !even,
    };
    if given { all } else { Literals::default() }
}

// The large book of a small one that is good, with the other choices given or not.
pub fn book(b: &Reckoned, given: bool) -> Draft {
    let small = small_of(b);
    let large = Reckoned {
        variables: VARIABLES,
        choices: CHOICES,
        rules: rules_of(b),
        facts: fillings::joined(literals(small, b.facts), others(small, given)),
        costs: costs(b),
    };
    written::book(&rules::of_book(&large, 1), &large)
}
