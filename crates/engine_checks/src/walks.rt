// Books walked from the facts to the consequence: the first model, each step, steps from other known sets, and the whole log.
use crate::compare::{BAD_KNOWN, NO_MODEL};
use crate::question::{Question, Step};
use crate::tally::{Group, Kind, Tally};
use crate::{compare, logged};
use brute_force::logs::Log;
use brute_force::steps::Taken;
use brute_force::{fillings, logs, steps};
use samples::build::Draft;
use samples::reckon::{Literals, Reckoned, Refused};
use samples::{limits, random, reckon};

// What is reckoned of a book once; the choices as a number and as a mask.
#[derive(Clone, Copy)]
pub struct Case {
    pub costs: [[u16; 2]; limits::COSTS],
    pub count: usize,
    pub choices: u64,
    pub facts: Literals,
    pub consequence: Literals,
}

impl Case {
    pub fn of(all: &[u64], b: &Reckoned) -> Case {
        let choices = fillings::first(b.choices);
        Case {
            costs: b.costs,
            count: b.choices,
            choices,
            facts: b.facts,
            consequence: fillings::forced(all, b.facts, choices),
        }
    }

    // The step due from a known set.
    pub fn due(&self, all: &[u64], known: Literals) -> Option<Taken> {
        steps::next(all, &self.costs, self.choices, known, self.consequence)
    }

    // The facts, and what the consequence has over the variables of a mask.
    pub fn known_set(&self, mask: u64) -> Literals {
        fillings::joined(self.facts, fillings::within(self.consequence, mask))
    }

    // Why a known set is refused: it does not lie between the facts and the consequence.
    fn fault(&self, known: Literals) -> Option<Group> {
        if (known.yes | known.no) & !self.choices != 0 {
            Some(Group::NoChoice)
        } else if known.yes & known.no != 0 {
            Some(Group::BothWays)
        } else if !fillings::is_empty(fillings::less(self.facts, known)) {
            Some(Group::FactMissing)
        } else if !fillings::is_empty(fillings::less(known, self.consequence)) {
            Some(Group::TooMuch)
        } else {
            None
        }
    }
}

// Whether the engine gives this step from this known set, or that nothing is left.
pub fn step_agrees(q: Question<'_>, known: Literals, due: Option<Taken>) -> bool {
    q.next_step(known) == Ok(due.map(Step::from))
}

// One step more on the way: the engine's held against the reckoned one.
pub fn one_step(t: &mut Tally, q: Question<'_>, known: Literals, due: Option<Taken>) {
    t.note(Group::OnTheWay, step_agrees(q, known, due));
    t.see(Kind::Tied, due.is_some_and(|step| step.tied));
    t.see(Kind::ChangedSteps, due.is_some_and(|step| step.changed));
}

// The way and its log as reckoned, the engine asked at each known set.
fn along(t: &mut Tally, q: Question<'_>, all: &[u64], case: &Case) -> Log {
    let mut log = logs::begun(case.facts);
    for _ in 0..limits::RECORDS {
        if log.ended {
            break;
        }
        let step = case.due(all, log.known);
        one_step(t, q, log.known, step);
        log = logs::onward(log, step);
    }
    log
}

// Steps from some known sets.
fn from_any(t: &mut Tally, q: Question<'_>, all: &[u64], case: &Case, seed: u64) {
    let mut mask = seed;
    for _ in 0..4 {
        mask = random::next(mask);
        let known = case.known_set(mask);
        t.note(Group::FromAny, step_agrees(q, known, case.due(all, known)));
    }
}

// A known set that may have been spoilt: 10 at 0 where it was.
fn spoilt(t: &mut Tally, q: Question<'_>, case: &Case, known: Literals) {
    if let Some(group) = case.fault(known) {
        t.note(group, q.next_step(known) == Err(BAD_KNOWN));
    }
}

// A known set with one variable yes as well, no as well, and without it.
fn spoilt_at(t: &mut Tally, q: Question<'_>, case: &Case, known: Literals, bit: u64) {
    let yes = Literals { yes: bit, no: 0 };
    let no = Literals { yes: 0, no: bit };
    spoilt(t, q, case, fillings::joined(known, yes));
    spoilt(t, q, case, fillings::joined(known, no));
    spoilt(t, q, case, fillings::within(known, !bit));
}

// A known set spoilt at each choice, at the two variables after them and at the last bit.
pub fn spoilt_sets(t: &mut Tally, q: Question<'_>, case: &Case, seed: u64) {
    let known = case.known_set(seed);
    spoilt_at(t, q, case, known, fillings::power(63));
    for v in 0..case.count.wrapping_add(2) {
        spoilt_at(t, q, case, known, fillings::power(v));
    }
}

// A step that is refused, from this known set and from a wrong one.
fn refused_from(t: &mut Tally, group: Group, q: Question<'_>, known: Literals, due: Refused) {
    let wrong = Literals { yes: 1, no: 1 };
    t.note(group, q.next_step(known) == Err(due));
    t.note(group, q.next_step(wrong) == Err(due));
}

// A book without a model: 9 at 0, also where the known set is wrong.
pub fn without_model(t: &mut Tally, q: Question<'_>, facts: Literals) {
    refused_from(t, Group::WithoutModel, q, facts, NO_MODEL);
}

// A book or a moment that is refused: no model, no step, also where the known set is wrong, and no log.
pub fn refused(t: &mut Tally, q: Question<'_>, due: Refused) {
    t.note(Group::Model, q.model() == Err(due));
    refused_from(t, Group::Refused, q, Literals::default(), due);
    logged::refused(t, q, due);
}

// A book that has a model: the way from its facts on, steps from other known sets, and the log.
fn good(t: &mut Tally, q: Question<'_>, all: &[u64], case: &Case, seed: u64) {
    let changed = t.kind(Kind::ChangedSteps);
    let log = along(t, q, all, case);
    t.see(Kind::ChangedBooks, t.kind(Kind::ChangedSteps) != changed);
    t.see_log(log.steps);
    from_any(t, q, all, case, seed);
    spoilt_sets(t, q, case, random::next(seed));
    logged::whole(t, q, &log);
}

// One more book, at a moment at which its rules in force are all the rules of another one, as which it is reckoned.
pub fn count_at(t: &mut Tally, q: Question<'_>, b: &Result<Reckoned, Refused>, seed: u64) {
    let b = match b {
        Ok(b) => b,
        Err(due) => {
            refused(t, q, *due);
            return;
        }
    };
    let Some(all) = fillings::obeying(b) else {
        t.see(Kind::LeftOut, true);
        return;
    };
    let due = compare::due_of(b, all.as_slice());
    t.note(Group::Model, compare::model_agrees(q, due));
    if due.is_ok() {
        good(t, q, all.as_slice(), &Case::of(all.as_slice(), b), seed);
    } else {
        t.see(Kind::EmptyRule, reckon::has_empty_rule(b));
        without_model(t, q, b.facts);
        logged::without_model(t, q);
    }
}

// One more book without windows, at any moment.
pub fn count(t: &mut Tally, d: &Draft) {
    let q = Question::of_draft(d);
    count_at(t, q, &reckon::reckon(q.book), d.seed);
}
