// Books with a yes in each of many pairs: a rule of two yes literals for each. Many fillings obey them, and the first model is
// often not the one that a search comes upon first.
use crate::{Kind, drawn, made};
use samples::build::Draft;
use samples::{build, random};

const RULES: u8 = 12;

// A rule over two variables, the lower one first.
pub fn pair_rule(d: Draft, variables: u8) -> Draft {
    let a = random::next(d.seed);
    let b = random::next(a);
    let before = random::byte_below(a, variables.wrapping_sub(1));
    let low = before.wrapping_add(1);
    let after = random::byte_below(b, variables.wrapping_sub(low));
    let high = low.wrapping_add(after).wrapping_add(1);
    let mut made = build::rule_of_two(d, low, high);
    made.seed = b;
    made
}

// A book of so many variables, at least two, and so many choices, made up from a seed; up to two choices are given as no.
pub fn made(seed: u64, kind: Kind) -> Draft {
    let mut d = build::header(build::empty(), kind.variables, kind.choices, RULES);
    d.seed = random::next(seed);
    let d = made::costs(d, kind.choices, kind.cost);
    let d = drawn::rules(d, RULES, |d| pair_rule(d, kind.variables));
    let givens = random::byte_below(d.seed >> 8, 3);
    build::end(build::first_facts(d, givens, false))
}
