// The same books as whole logs.
use crate::worked;
use brute_force::logs::Log;
use engine_checks::asked_log;
use engine_checks::question::Question;
use engine_checks::tally::{Group, Tally};
use samples::build::Draft;
use samples::reckon::{Literals, Refused};
use samples::{counter, limits};

// A book, the bytes of its log, and the numbers that the call returns.
fn logs_as(t: &mut Tally, d: Draft, written: Draft, steps: u64, total: u64) {
    let due = Log {
        written,
        known: Literals::default(),
        steps,
        total,
        ended: true,
    };
    let q = Question::of_draft(&d);
    t.note(
        Group::CounterLogs,
        asked_log::log_agrees(q, limits::LOG, &due),
    );
}

// An order that has a log of so many steps and this total.
fn order(t: &mut Tally, letter: u8, steps: u64, total: u64) {
    logs_as(
        t,
        counter::order(letter),
        worked::log_of(letter),
        steps,
        total,
    );
}

// An order whose log is refused.
fn refuses(t: &mut Tally, letter: u8, number: u8, place: usize) {
    let d = counter::order(letter);
    let due = Refused { number, place };
    let agrees = asked_log::log_refused(Question::of_draft(&d), limits::LOG, due);
    t.note(Group::CounterLogs, agrees);
}

// Orders b, c, d, g, h and i, the two of E6, and the orders that are refused: a, e, f and j.
pub fn all(t: &mut Tally) {
    order(t, b'b', 0, 0);
    order(t, b'c', 2, 20);
    order(t, b'd', 1, 9);
    order(t, b'g', 1, 5);
    order(t, b'h', 0, 0);
    order(t, b'i', 1, 2);
    logs_as(
        t,
        counter::fewer_facts(),
        worked::log_of_fewer_facts(),
        1,
        11,
    );
    logs_as(
        t,
        counter::higher_goal(),
        worked::log_of_higher_goal(),
        2,
        22,
    );
    refuses(t, b'a', 1, 0);
    refuses(t, b'e', 9, 0);
    refuses(t, b'f', 9, 0);
    refuses(t, b'j', 6, 12);
}
