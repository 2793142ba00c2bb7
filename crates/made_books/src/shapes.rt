// What the books are like that are small enough to be reckoned over all fillings.
use crate::Kind;
use crate::made::Shape;
use samples::random;

// Up to `n`, drawn from a state.
fn up_to(seed: u64, n: u8) -> u8 {
    random::byte_below(seed, n.wrapping_add(1))
}

// Up to fourteen rules, as often as not up to four.
fn rules(seed: u64) -> u8 {
    let most = if random::byte(seed) < 128 { 4 } else { 14 };
    up_to(random::next(seed), most)
}

// The fewest literals of a rule: one, and in one book out of sixteen none, since a book with such a rule has no model.
fn fewest(seed: u64) -> u8 {
    if random::byte(seed >> 8) < 16 { 0 } else { 1 }
}

// Up to so many variables and choices, rules of up to four literals at most, any number of facts.
pub fn any(seed: u64, kind: Kind) -> Shape {
    let a = random::next(seed);
    let b = random::next(a);
    let c = random::next(b);
    let d = random::next(c);
    let e = random::next(d);
    let variables = up_to(a, kind.variables);
    let choices = up_to(b, variables.min(kind.choices));
    Shape {
        variables,
        choices,
        rules: rules(c),
        fewest: fewest(e),
        literals: up_to(d, 3).wrapping_add(1),
        cost: kind.cost,
        givens: choices,
        every: up_to(e, 5).wrapping_add(1),
        planted: None,
    }
}

// So many choices and variables or fewer, a model planted, the facts before the others: much follows in several steps.
pub fn planted(seed: u64, kind: Kind) -> Shape {
    let a = random::next(seed);
    let b = random::next(a);
    let c = random::next(b);
    let d = random::next(c);
    let variables = kind.variables.wrapping_sub(up_to(a, 2));
    let choices = variables.min(kind.choices);
    Shape {
        variables,
        choices,
        rules: up_to(b, 9).wrapping_add(6),
        fewest: up_to(c, 1).wrapping_add(2),
        literals: 4,
        cost: kind.cost,
        givens: (choices / 3).wrapping_add(up_to(d, 3)),
        every: 1,
        planted: Some(random::next(d)),
    }
}

// So many variables and choices, up to two facts, and so many rules of two to four literals that few fillings obey them all
// or none: what follows often shows only where variables are tried both ways.
pub fn dense(seed: u64, kind: Kind) -> Shape {
    let a = random::next(seed);
    let twice = kind.variables.wrapping_mul(2);
    Shape {
        variables: kind.variables,
        choices: kind.choices,
        rules: twice.wrapping_add(up_to(a, kind.variables)),
        fewest: 2,
        literals: 4,
        cost: kind.cost,
        givens: kind.choices.min(2),
        every: 2,
        planted: None,
    }
}
