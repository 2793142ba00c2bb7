// A book too large for the reckoning whose log is long and known from how the book is made: of nine facts, each set of seven that is
// named here makes one choice yes.
use brute_force::logs::Log;
use brute_force::steps::Taken;
use brute_force::{fillings, logs};
use samples::build::Draft;
use samples::reckon::Literals;
use samples::{build, limits};

const FACTS: u8 = 9;

// The sets of facts, as many as there are choices left.
const SETS: u8 = limits::CHOICES - FACTS;

// Whether a set has the fact with so many before it: all but two, which are one place apart in the first nine sets, in a ring, two
// places in the next nine, and three in the others.
fn has_fact(set: u8, fact: u8) -> bool {
    let first = set % FACTS;
    let second = (first + set / FACTS % FACTS + 1) % FACTS;
    fact != first && fact != second
}

// The choice that a set makes yes.
fn choice_of(set: u8) -> u8 {
    FACTS.wrapping_add(set).wrapping_add(1)
}

// The opposites of a set's facts.
fn opposites(d: Draft, set: u8) -> Draft {
    let mut made = d;
    for fact in (0..FACTS).filter(|fact| has_fact(set, *fact)) {
        made = build::put(made, build::negated(fact.wrapping_add(1)));
    }
    made
}

// The book, with a rule for each set: every yes costs 5 and every no 9.
pub fn book() -> Draft {
    let d = build::header(build::empty(), limits::VARIABLES, limits::CHOICES, SETS);
    let mut made = build::costs(d, limits::CHOICES);
    for set in 0..SETS {
        let rule = build::rule(made, limits::LITERALS);
        made = build::put(opposites(rule, set), choice_of(set));
    }
    build::end(build::first_facts(made, FACTS, true))
}

fn all_yes(mask: u64) -> Literals {
    Literals { yes: mask, no: 0 }
}

// The facts of a set, as a mask.
fn facts_of(set: u8) -> u64 {
    (0..FACTS)
        .filter(|fact| has_fact(set, *fact))
        .fold(0, |mask, fact| mask | fillings::power(usize::from(fact)))
}

// The step that a set brings. All cost the same, 5 for each of seven facts and 9 for the opposite of the goal, and have as many
// facts: so the goals rise.
fn step(set: u8) -> Taken {
    let goal = all_yes(fillings::bit(choice_of(set)));
    Taken {
        goal,
        reasons: all_yes(facts_of(set)),
        new: goal,
        cost: 44,
        tied: true,
        changed: false,
    }
}

// Its log. After the last set nothing is left.
pub fn log() -> Log {
    let mut log = logs::begun(all_yes(fillings::first(usize::from(FACTS))));
    for set in 0..SETS {
        log = logs::onward(log, Some(step(set)));
    }
    logs::onward(log, None)
}
