// Books with many ties: seven facts guard, two to a rule, rules over two helpers that spare only choice 8. Several of the
// facts are needed to force it, many sets of them will do, and costs are 1 or 2.
use crate::{drawn, made};
use samples::build::Draft;
use samples::{build, random};

const CHOICES: u8 = 8;

const RULES: u8 = 12;

// A rule that two facts switch on: choice 8, or one or two literals over the helpers.
pub fn guarded_rule(d: Draft) -> Draft {
    let a = random::next(d.seed);
    let b = random::next(a);
    let low = made::one_of(a, 1, 3);
    let high = made::one_of(b, 4, 4);
    let both = random::byte(b >> 8) < 96;
    let count = if both { 5 } else { 4 };
    let guards = [build::negated(low), build::negated(high), 8];
    let mut made = build::bytes(build::rule(d, count), &guards);
    if both || a % 2 == 1 {
        made = build::put(made, made::signed(a >> 9, 9));
    }
    if both || a % 2 == 0 {
        made = build::put(made, made::signed(b >> 9, 10));
    }
    made.seed = b;
    made
}

// A book of ten variables, made up from a seed.
pub fn made(seed: u64) -> Draft {
    let mut d = build::header(build::empty(), 10, CHOICES, RULES);
    d.seed = random::next(seed);
    let d = made::costs(d, CHOICES, 2);
    let d = drawn::rules(d, RULES, guarded_rule);
    build::end(build::first_facts(d, 7, true))
}
