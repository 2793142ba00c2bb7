// Books too large for the reckoning: each log broken and carried on, held against the engine's own unbroken log.
use crate::books;
use crate::breaks::Ways;
use crate::run::Run;
use brute_force::logs::Log;
use engine_checks::asked_log;
use engine_checks::asked_log::Answered;
use engine_checks::question::Question;
use made_books::made;
use readings::counts;
use samples::build::Draft;
use samples::reckon::Literals;
use samples::{build, limits, random};

// The log that the engine wrote.
fn log_of(q: Question<'_>) -> Option<Log> {
    let answered = asked_log::written(q, limits::LOG, Answered::BEFORE);
    let written = answered.said.ok()?;
    Some(Log {
        written: build::bytes(build::empty(), answered.log()),
        known: Literals::default(),
        steps: written.steps,
        total: written.total,
        ended: true,
    })
}

// One book with a model.
fn one(r: &mut Run, d: &Draft) {
    let q = Question::of_draft(d);
    match log_of(q) {
        Some(log) => books::with_log(r, q, &log, Ways::InTurn, d.seed),
        None => counts::count(&mut r.left_out, true),
    }
}

// So many books.
pub fn each(r: &mut Run, books: u32) {
    let mut seed = 299792458299792458;
    for _ in 0..books {
        let d = made::book(seed, made::largest_shape(seed));
        one(r, &d);
        seed = random::next(d.seed);
    }
}
