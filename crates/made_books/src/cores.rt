// Books with a hidden core: choice `switch` switches on a contradiction among three helpers, which shows only where each
// of their fillings is tried, and the rules over the choices leave many of those open. A search that goes back one try at
// a time refutes the core again for each filling of the choices; one that jumps back must not jump over a choice that
// matters.
use crate::{drawn, made};
use samples::build::Draft;
use samples::{build, random};

const CHOICES: u8 = 7;

const OPEN_RULES: u8 = 5;

const CORE_RULES: u8 = 8;

// A rule over three choices: one of 1 to 3, one of 4 and 5, one of 6 and 7.
pub fn open_rule(d: Draft) -> Draft {
    let a = random::next(d.seed);
    let b = random::next(a);
    let c = random::next(b);
    let low = made::signed(a >> 8, made::one_of(a, 1, 3));
    let middle = made::signed(b >> 8, made::one_of(b, 4, 2));
    let high = made::signed(c >> 8, made::one_of(c, 6, 2));
    let mut made = build::bytes(build::rule(d, 3), &[low, middle, high]);
    made.seed = c;
    made
}

fn open_rules(d: Draft) -> Draft {
    drawn::rules(d, OPEN_RULES, open_rule)
}

// A rule for each filling of the helpers 8, 9 and 10, which that filling breaks where `switch` is yes.
fn core(d: Draft, switch: u8) -> Draft {
    let mut made = d;
    for n in 0..u64::from(CORE_RULES) {
        let literals = [
            build::negated(switch),
            made::signed(n, 8),
            made::signed(n / 2, 9),
            made::signed(n / 4, 10),
        ];
        made = build::bytes(build::rule(made, 4), &literals);
    }
    made
}

// The core before the other rules or after them.
fn rules(d: Draft, switch: u8) -> Draft {
    if random::byte(d.seed) < 128 {
        core(open_rules(d), switch)
    } else {
        open_rules(core(d, switch))
    }
}

// Up to two facts, over one of the first three choices and one of the others.
fn facts(d: Draft) -> Draft {
    let a = random::next(d.seed);
    let b = random::next(a);
    let low = made::signed(a >> 8, made::one_of(a, 1, 3));
    let high = made::signed(b >> 8, made::one_of(b, 4, 4));
    let mut made = d;
    if random::byte(a >> 4) < 128 {
        made = build::fact(made, low);
    }
    if random::byte(b >> 4) < 128 {
        made = build::fact(made, high);
    }
    made.seed = random::next(b);
    made
}

// A book of ten variables, made up from a seed.
pub fn made(seed: u64) -> Draft {
    let mut d = build::header(
        build::empty(),
        CHOICES + 3,
        CHOICES,
        OPEN_RULES + CORE_RULES,
    );
    d.seed = random::next(seed);
    let d = build::costs(d, CHOICES);
    build::end(facts(rules(d, made::one_of(seed, 1, CHOICES))))
}
