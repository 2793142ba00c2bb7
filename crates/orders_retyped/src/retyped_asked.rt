// The engine's answers to a book held against its answers to another, refusals included.
use brute_force::fillings;
use engine_checks::compare::SHORT_BUFFER;
use engine_checks::question::Question;
use engine_checks::tally::{Group, Kind, Tally};
use engine_checks::walks::Case;
use engine_checks::{asked_log, logged};
use samples::build::Draft;
use samples::reckon::{Literals, Refused};
use samples::{random, windows};

// Two books at the same moment.
#[derive(Clone, Copy)]
pub struct Two<'a> {
    pub first: Question<'a>,
    pub second: Question<'a>,
}

impl<'a> Two<'a> {
    // A book and the same retyped, at a moment that is drawn from the state of the second.
    pub fn of_drafts(first: &'a Draft, second: &'a Draft) -> Two<'a> {
        let moment = windows::drawn_moment(second.seed);
        Two {
            first: Question {
                book: first.as_slice(),
                moment,
            },
            second: Question {
                book: second.as_slice(),
                moment,
            },
        }
    }
}

// The first model over the choices.
fn chosen(q: Question<'_>, choices: u64) -> Result<u64, Refused> {
    q.model().map(|model| model & choices)
}

// A step from one known set.
fn step(t: &mut Tally, group: Group, two: Two<'_>, known: Literals) {
    let said = two.first.next_step(known);
    t.see(
        Kind::MasksRefused,
        said.is_err_and(|refused| refused.number == 10),
    );
    t.note(group, said == two.second.next_step(known));
}

// Steps from the facts, from the facts and some of the consequence, twice, and from all of it.
fn steps(t: &mut Tally, two: Two<'_>, case: &Case, seed: u64) {
    step(t, Group::SameStep, two, case.facts);
    for mask in [seed, random::next(seed), !0] {
        step(t, Group::SameStep, two, case.known_set(mask));
    }
}

// Any two masks, any two over the choices, and some of the consequence with a choice more that is yes.
fn masks(t: &mut Tally, two: Two<'_>, case: &Case, seed: u64) {
    let next = random::next(seed);
    let any = Literals {
        yes: seed,
        no: next,
    };
    let one = fillings::power(random::place_below(next, case.count));
    let more = Literals { yes: one, no: 0 };
    let spoilt = fillings::joined(case.known_set(seed), more);
    for known in [any, fillings::within(any, case.choices), spoilt] {
        step(t, Group::SameAtMasks, two, known);
    }
}

// The log, each of the two once into the shorter buffer and once into the longer; and its steps, as far as the tally shows them.
fn logs(t: &mut Tally, two: Two<'_>) {
    t.note(Group::SameLog, asked_log::same_log(two.first, two.second));
    t.note(Group::SameLog, asked_log::same_log(two.second, two.first));
    let steps = asked_log::steps(two.first);
    t.see(Kind::PairsWithStep, steps >= 1);
    t.see(Kind::PairsWithThree, steps >= 3);
}

// A buffer that is too short for one of the two, while the other is asked with a long one.
fn short(t: &mut Tally, q: Question<'_>) {
    t.note(
        Group::OneShort,
        asked_log::log_refused(q, logged::SHORT, SHORT_BUFFER),
    );
}

// All of them.
pub fn all(t: &mut Tally, two: Two<'_>, case: &Case, seed: u64) {
    let same_model = chosen(two.first, case.choices) == chosen(two.second, case.choices);
    t.note(Group::SameModel, same_model);
    let same_consequence = two.first.consequence() == two.second.consequence();
    t.note(Group::SameConsequence, same_consequence);
    steps(t, two, case, seed);
    masks(t, two, case, random::next(seed));
    logs(t, two);
    short(t, two.first);
    short(t, two.second);
}
