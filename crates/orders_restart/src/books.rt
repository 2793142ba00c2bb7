// Books whose logs are reckoned by brute force: each log broken and carried on, and every refusal.
use crate::breaks::Ways;
use crate::run::Run;
use crate::{breaks, numbers, wrong};
use brute_force::logs::Log;
use brute_force::{fillings, logs};
use engine_checks::compare::{BAD_MOMENT, NO_MODEL, SHORT_BUFFER};
use engine_checks::question::Question;
use made_books::seasons::Season;
use made_books::windowed::Windowed;
use made_books::{Books, Kind, windowed};
use readings::counts;
use samples::build::Draft;
use samples::reckon::{Reckoned, Refused};
use samples::{random, reckon, windows};

// What stands in the room where a book has no log: one of no steps.
const NO_STEPS: [u8; 7] = *b"OK\x00\x00\x00\x00\x00";

// A book with this log: the log broken and carried on, and what is refused of it: wrong bytes, numbers over its length, a buffer that
// is too short.
pub fn with_log(r: &mut Run, q: Question<'_>, log: &Log, ways: Ways, seed: u64) {
    let written = log.written.as_slice();
    r.met.see(written);
    breaks::each(&mut r.carried, q, log, ways, seed);
    wrong::at_some_places(&mut r.wrong, q, written, seed);
    numbers::over(&mut r.over, q, written, seed);
    numbers::short(&mut r.short, q, written, seed);
}

// A book without a model: 9 at 0, and 8 at 0 where the buffer is short.
fn without_model(r: &mut Run, q: Question<'_>) {
    numbers::refused(&mut r.without, q, &NO_STEPS, NO_MODEL);
    numbers::refused_in_short(&mut r.short, q, &NO_STEPS, SHORT_BUFFER);
}

// A book or a moment that is refused, also where the buffer is short.
pub fn refused(r: &mut Run, q: Question<'_>, due: Refused) {
    numbers::refused(&mut r.refused, q, &NO_STEPS, due);
    numbers::refused_in_short(&mut r.refused, q, &NO_STEPS, due);
}

// One good book, at a moment at which its rules in force are all the rules of another one, as which it is reckoned.
fn good(r: &mut Run, q: Question<'_>, b: &Reckoned, seed: u64) {
    match fillings::obeying(b) {
        None => counts::count(&mut r.left_out, true),
        Some(all) if fillings::possible(all.as_slice(), b.facts) => {
            let log = logs::whole(all.as_slice(), b);
            with_log(r, q, &log, Ways::All, seed);
        }
        Some(_) => without_model(r, q),
    }
}

// One book, good or refused.
fn at(r: &mut Run, q: Question<'_>, b: &Result<Reckoned, Refused>, seed: u64) {
    match b {
        Ok(b) => good(r, q, b, seed),
        Err(due) => refused(r, q, *due),
    }
}

// One book without windows, at any moment.
pub fn one(r: &mut Run, d: &Draft) {
    let q = Question::of_draft(d);
    at(r, q, &reckon::reckon(q.book), d.seed);
}

// So many books of a kind.
pub fn each(r: &mut Run, books: usize, kind: Kind, start: u64) {
    for d in Books::from_seed(kind, start).take(books) {
        one(r, &d);
    }
}

// At how many moments a book with windows is asked for its log.
const MOMENTS: u8 = 5;

// A book with windows at moments at their edges, which are drawn: the log is that of the book of the rules then in force.
fn at_edges(r: &mut Run, b: Windowed) {
    let d = windowed::typed(b);
    let mut state = d.seed;
    for _ in 0..MOMENTS {
        state = random::next(state);
        let moment = windowed::edge(b, random::byte_below(state, Windowed::EDGES));
        let q = Question::of_draft(&d).at(moment);
        if windows::is_moment(moment) {
            let plain = windowed::in_force_at(b, moment);
            at(r, q, &reckon::reckon(plain.as_slice()), state);
        } else {
            refused(r, q, BAD_MOMENT);
        }
    }
}

// So many books of a kind with windows.
pub fn each_windowed(r: &mut Run, books: usize, kind: Kind, start: u64) {
    for d in Books::from_seed(kind, start).take(books) {
        at_edges(r, windowed::of_book(d, Season::Any));
    }
}
