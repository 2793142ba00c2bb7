// Books with several goals and several reasons for each: five facts, and rules by which one, two or three of them force
// choice 6, 7 or 8. With small costs, reasons of different sizes often cost the same.
use crate::{drawn, made};
use samples::build::Draft;
use samples::{build, random};

const CHOICES: u8 = 8;

const FACTS: u8 = 5;

const RULES: u8 = 8;

// The literal that is false where a fact holds, of `count` facts from `first` on.
fn unless(seed: u64, first: u8, count: u8) -> u8 {
    build::negated(made::one_of(seed, first, count))
}

// A rule by which some facts force a goal.
pub fn reason(d: Draft) -> Draft {
    let a = random::next(d.seed);
    let b = random::next(a);
    let size = random::byte_below(a, 3);
    let mut made = build::rule(d, size.wrapping_add(2));
    if size == 0 {
        made = build::put(made, unless(b, 1, FACTS));
    } else {
        made = build::put2(made, unless(b, 1, 2), unless(b >> 8, 3, 2));
    }
    if size == 2 {
        made = build::put(made, build::negated(FACTS));
    }
    made = build::put(made, made::one_of(a >> 8, 6, 3));
    made.seed = b;
    made
}

// A book of eight variables, all of them choices, made up from a seed.
pub fn made(seed: u64, cost: u16) -> Draft {
    let mut d = build::header(build::empty(), CHOICES, CHOICES, RULES);
    d.seed = random::next(seed);
    let d = made::costs(d, CHOICES, cost);
    let d = drawn::rules(d, RULES, reason);
    build::end(build::first_facts(d, FACTS, true))
}
