// The orders at the counter of document 01: the engine's steps held against what is written here.
use brute_force::steps::Taken;
use engine_checks::question::Question;
use engine_checks::tally::{Group, Tally};
use engine_checks::walks;
use samples::build::Draft;
use samples::counter;
use samples::reckon::{Literals, Refused};

// These variables yes, none no.
pub fn all_yes(mask: u64) -> Literals {
    Literals { yes: mask, no: 0 }
}

pub fn step_of(goal: Literals, reasons: u64, new: Literals, cost: u64) -> Taken {
    Taken {
        goal,
        reasons: all_yes(reasons),
        new,
        cost,
        tied: false,
        changed: false,
    }
}

// A book, the variables known to be yes, and the step that is due, or none where nothing is left.
fn steps(t: &mut Tally, d: Draft, known: u64, due: Option<Taken>) {
    let agrees = walks::step_agrees(Question::of_draft(&d), all_yes(known), due);
    t.note(Group::CounterSteps, agrees);
}

// An order, the variables known to be yes, and the step that is due, or none.
fn order(t: &mut Tally, letter: u8, known: u64, due: Option<Taken>) {
    steps(t, counter::order(letter), known, due);
}

// An order, the variables known to be yes, and the refusal that is due.
fn refuses(t: &mut Tally, letter: u8, known: u64, number: u8, place: usize) {
    let d = counter::order(letter);
    let due = Refused { number, place };
    let agrees = Question::of_draft(&d).next_step(all_yes(known)) == Err(due);
    t.note(Group::CounterSteps, agrees);
}

// Book P from its facts, after its first step, with all that follows, and without fact 3.
fn steps_of_p(t: &mut Tally) {
    order(t, b'c', 5, Some(step_of(all_yes(2), 1, all_yes(2), 8)));
    order(t, b'c', 7, Some(step_of(all_yes(8), 6, all_yes(8), 12)));
    order(t, b'c', 15, None);
    refuses(t, b'c', 1, 10, 0);
}

// The other orders from their facts.
fn steps_of_orders(t: &mut Tally) {
    let first = all_yes(1);
    let not_1 = Literals { yes: 0, no: 1 };
    order(t, b'b', 0, None);
    order(t, b'd', 0, Some(step_of(first, 0, first, 9)));
    order(t, b'g', 0, Some(step_of(not_1, 0, not_1, 5)));
    order(t, b'h', 1, None);
    order(t, b'i', 1, Some(step_of(all_yes(2), 1, all_yes(6), 2)));
}

// Of two reasons of equal cost the one with fewer facts, also where its goal is the higher one (document 02, E6).
fn steps_of_fewer_facts(t: &mut Tally) {
    let four = all_yes(8);
    let five = all_yes(16);
    steps(
        t,
        counter::fewer_facts(),
        7,
        Some(step_of(four, 4, four, 11)),
    );
    steps(t, counter::fewer_facts(), 15, None);
    steps(
        t,
        counter::higher_goal(),
        7,
        Some(step_of(five, 4, five, 11)),
    );
    steps(
        t,
        counter::higher_goal(),
        23,
        Some(step_of(four, 3, four, 11)),
    );
}

// All of them, and the orders that are refused.
pub fn all(t: &mut Tally) {
    steps_of_p(t);
    steps_of_orders(t);
    steps_of_fewer_facts(t);
    refuses(t, b'a', 0, 1, 0);
    refuses(t, b'e', 0, 9, 0);
    refuses(t, b'f', 1, 9, 0);
    refuses(t, b'j', 0, 6, 12);
}
