// Good books made up: costs, rules and facts drawn to a shape.
use samples::build::Draft;
use samples::{build, limits, random};

// What a book that is made up is like. Where there is no variable its rules have no literals.
#[derive(Clone, Copy)]
pub struct Shape {
    pub variables: u8,
    pub choices: u8,
    pub rules: u8,
    // The fewest and the most literals of a rule, and the most that a literal costs, which is at least 1.
    pub fewest: u8,
    pub literals: u8,
    pub cost: u16,
    // Of the first choices, so many, one out of `every` has a fact.
    pub givens: u8,
    pub every: u8,
    // A filling that is to be a model of the book, with the last literal of each rule true in it and no other.
    pub planted: Option<u64>,
}

// A number from `first` on, one of `count`, drawn from a state.
pub fn one_of(seed: u64, first: u8, count: u8) -> u8 {
    first.wrapping_add(random::byte_below(seed, count))
}

// The literal over `v`: yes where a number is odd.
pub fn signed(n: u64, v: u8) -> u8 {
    if n % 2 == 1 { v } else { build::negated(v) }
}

// The literal over `v` that is true in a filling, or the other one.
pub fn literal_in(filling: u64, v: u8, so: bool) -> u8 {
    let yes = (filling >> (v % 64)) % 2 == 1;
    if yes == so { v } else { build::negated(v) }
}

// A literal over `v`: any, or, where a filling is planted, one that is true in it or not.
pub fn literal(like: Shape, seed: u64, v: u8, so: bool) -> u8 {
    match like.planted {
        Some(filling) => literal_in(filling, v, so),
        None if random::byte_below(seed, 2) == 0 => v,
        None => build::negated(v),
    }
}

// A cost from 1 to `most`, each end of it often.
fn cost_up_to(seed: u64, most: u16) -> u16 {
    let n = random::pair_below(seed, most.wrapping_add(most / 5 + 2));
    if n == 0 { 1 } else { n.min(most) }
}

// Costs of so many choices, from 1 to `most`.
pub fn costs(d: Draft, choices: u8, most: u16) -> Draft {
    let mut made = d;
    for choice in 1..=choices {
        let a = random::next(made.seed);
        let b = random::next(a);
        made.seed = b;
        made = build::cost(made, choice, cost_up_to(a, most), cost_up_to(b, most));
    }
    made
}

// A rule of `count` literals: going up, a variable is taken as often as there are literals to find among those left.
fn rule(d: Draft, like: Shape, count: u8) -> Draft {
    let variables = like.variables;
    let mut made = build::rule(d, count);
    let mut left = count;
    for i in 0..variables {
        let a = random::next(made.seed);
        let b = random::next(a);
        made.seed = b;
        if random::byte_below(a, variables - i) < left {
            made = build::put(made, literal(like, b, i + 1, left == 1));
            left -= 1;
        }
    }
    made
}

// How many literals a rule has: no more than there are variables.
fn count_of(like: Shape, seed: u64) -> u8 {
    let most = like.variables.min(like.literals);
    let fewest = like.variables.min(like.fewest);
    let more = most.wrapping_sub(fewest);
    one_of(seed, fewest, more.wrapping_add(1))
}

fn rules(d: Draft, like: Shape) -> Draft {
    let mut made = d;
    for _ in 0..like.rules {
        let a = random::next(made.seed);
        made.seed = a;
        made = rule(made, like, count_of(like, a));
    }
    made
}

// Facts over some of the choices.
pub fn facts(d: Draft, like: Shape) -> Draft {
    let mut made = d;
    for v in 1..=like.givens {
        let a = random::next(made.seed);
        let b = random::next(a);
        made.seed = b;
        if random::byte_below(a, like.every) == 0 {
            made = build::fact(made, literal(like, b, v, true));
        }
    }
    made
}

// Books of these counts with rules of any length and costs of any size.
pub fn wide_shape(variables: u8, choices: u8, rules: u8) -> Shape {
    Shape {
        variables,
        choices,
        rules,
        fewest: 1,
        literals: limits::LITERALS,
        cost: limits::COST,
        givens: choices,
        every: 3,
        planted: None,
    }
}

// Books at the most variables, choices and rules, with a planted model.
pub fn largest_shape(seed: u64) -> Shape {
    Shape {
        fewest: 2,
        literals: 4,
        every: 4,
        planted: Some(random::next(seed)),
        ..wide_shape(limits::VARIABLES, limits::CHOICES, limits::RULES)
    }
}

// A good book of this shape, made up from a seed.
pub fn book(seed: u64, like: Shape) -> Draft {
    let mut d = build::header(build::empty(), like.variables, like.choices, like.rules);
    d.seed = seed;
    let d = costs(d, like.choices, like.cost);
    build::end(facts(rules(d, like), like))
}

// A good book of up to `most` variables, no more than a book can have, and up to twelve rules, made up from a seed. In every
// other book rules of no literals are among them.
pub fn any_book(seed: u64, most: u8) -> Draft {
    let a = random::next(seed);
    let b = random::next(a);
    let c = random::next(b);
    let variables = random::byte_below(a, most.wrapping_add(1));
    let most_choices = variables.min(limits::CHOICES);
    let choices = random::byte_below(b, most_choices + 1);
    let like = Shape {
        fewest: random::byte_below(random::next(c), 2),
        ..wide_shape(variables, choices, random::byte_below(c, 13))
    };
    book(c, like)
}
