// Books that are too large for the reckoning, walked from their facts to their end: the engine's steps and logs held against
// what is written here. Costs are 5 for yes and 9 for no.
use crate::counter_steps;
use brute_force::steps::Taken;
use brute_force::{fillings, logs};
use engine_checks::question::Question;
use engine_checks::tally::{Group, Tally};
use engine_checks::{asked_log, walks};
use samples::build::Draft;
use samples::{build, limits};

// What a choice follows from: one fact, the first from the first and so on, or a set of facts.
#[derive(Clone, Copy)]
enum Reasons {
    Fact,
    Set,
}

impl Reasons {
    // The facts of the choice that has so many before it among those that follow.
    fn nth(self, n: usize) -> u64 {
        match self {
            Reasons::Fact => fillings::power(n),
            Reasons::Set => u64::from(SETS.get(n).copied().unwrap_or_default()),
        }
    }
}

// A book whose first choices, so many, are given as yes, and its steps: each of them brings the next choice. The first model says
// yes only of what follows.
#[derive(Clone, Copy)]
struct Large {
    book: Draft,
    givens: u8,
    steps: u8,
    reasons: Reasons,
    model: u64,
}

// The sets of five facts, as masks, from the smallest to the largest, as far as there are choices for them.
const SETS: [u8; LEFT as usize] =
    *b"\x00\x01\x02\x04\x08\x10\x03\x05\x06\x09\x0a\x0c\x11\x12\x14\x18\x07\x0b\x0d\x0e\x13\x15\x16\x19\x1a\x1c\x0f";

const GIVENS: u8 = 5;

// The choices that are left for the sets.
const LEFT: u8 = limits::CHOICES - GIVENS;

// Choice v makes a helper yes, and that helper the choice that is `pairs` after v.
fn pair_rules(d: Draft, pairs: u8) -> Draft {
    let mut made = d;
    for v in 1..=pairs {
        let choice = v.wrapping_add(pairs);
        let helper = choice.wrapping_add(pairs);
        made = build::rule_of_two(made, build::negated(v), helper);
        made = build::rule_of_two(made, choice, build::negated(helper));
    }
    made
}

// A book of so many variables in which half of the choices follow, each from one of the others.
fn pairs(variables: u8, pairs: u8) -> Large {
    let choices = pairs.wrapping_add(pairs);
    let d = build::header(build::empty(), variables, choices, choices);
    let d = pair_rules(build::costs(d, choices), pairs);
    Large {
        book: build::end(build::first_facts(d, pairs, true)),
        givens: pairs,
        steps: pairs,
        reasons: Reasons::Fact,
        model: fillings::first(usize::from(choices) + usize::from(pairs)),
    }
}

// The opposites of the facts of a set.
fn opposites(d: Draft, set: u8) -> Draft {
    let mut made = d;
    for v in 1..=GIVENS {
        if u64::from(set) & fillings::bit(v) != 0 {
            made = build::put(made, build::negated(v));
        }
    }
    made
}

// A rule for each set of facts: together they make the next choice yes.
fn set_rules(d: Draft) -> Draft {
    let mut made = d;
    let mut choice = GIVENS;
    for set in SETS {
        choice = choice.wrapping_add(1);
        let literals = (set.count_ones() % 256) as u8;
        let rule = build::rule(made, literals.wrapping_add(1));
        made = build::put(opposites(rule, set), choice);
    }
    made
}

// A book of the most variables and choices in which each choice that is not given follows from another set of facts.
fn sets() -> Large {
    let d = build::header(build::empty(), limits::VARIABLES, limits::CHOICES, LEFT);
    let d = set_rules(build::costs(d, limits::CHOICES));
    Large {
        book: build::end(build::first_facts(d, GIVENS, true)),
        givens: GIVENS,
        steps: LEFT,
        reasons: Reasons::Set,
        model: fillings::first(usize::from(limits::CHOICES)),
    }
}

// The step that has a number: 5 for each fact, and 9 for the goal's opposite. After the last one nothing is left.
fn due(large: &Large, n: usize) -> Option<Taken> {
    if usize::from(large.steps) <= n {
        return None;
    }
    let goal = counter_steps::all_yes(fillings::power(usize::from(large.givens).wrapping_add(n)));
    let from = large.reasons.nth(n);
    let cost = 5 * u64::from(from.count_ones() % 64) + 9;
    Some(counter_steps::step_of(goal, from, goal, cost))
}

// The whole of one book: its steps, that nothing is left, its first model and its log.
fn walked(t: &mut Tally, large: &Large) {
    let q = Question::of_draft(&large.book);
    let givens = fillings::first(usize::from(large.givens));
    let mut log = logs::begun(counter_steps::all_yes(givens));
    for n in 0..usize::from(limits::RECORDS) {
        if log.ended {
            break;
        }
        let step = due(large, n);
        t.note(Group::CounterSteps, walks::step_agrees(q, log.known, step));
        log = logs::onward(log, step);
    }
    t.note(Group::Model, q.model() == Ok(large.model));
    t.note(
        Group::CounterLogs,
        asked_log::log_agrees(q, limits::LOG, &log),
    );
}

// Ten pairs in a book of 32 variables, sixteen in one of the most, and the sets.
pub fn all(t: &mut Tally) {
    walked(t, &pairs(32, 10));
    walked(t, &pairs(limits::VARIABLES, 16));
    walked(t, &sets());
}
