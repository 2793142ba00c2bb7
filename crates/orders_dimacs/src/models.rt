// Files of few variables: the fillings that satisfy the file held against those that obey the book, and against what the
// engine says of the book.
use crate::groups::Files;
use crate::tally::{Group, Tally};
use crate::{asked, compare};
use dimacs_reckoning::reckon::Reckoned;
use dimacs_reckoning::{models, reckon};
use engine_checks::compare::NO_MODEL;
use engine_checks::question::Question;
use readings::counts::Counts;
use samples::build::Draft;
use samples::reckon::{Literals, Refused};
use samples::{limits, order, windows};

// At how many fillings file and book differ; the first that satisfies the file; and the literals that are true in all that do.
#[derive(Clone, Copy)]
struct Found {
    fillings: Counts,
    first: Option<u64>,
    forced: Literals,
}

// 2 to the power n.
fn power(n: u8) -> u64 {
    if n < 64 { 1 << n } else { 0 }
}

impl Found {
    // One filling more that satisfies the file.
    fn satisfied(&mut self, filling: u64) {
        self.forced = Literals {
            yes: self.forced.yes & filling,
            no: self.forced.no & !filling,
        };
        if self
            .first
            .is_none_or(|first| order::comes_before(filling, first))
        {
            self.first = Some(filling);
        }
    }

    // What is found over all fillings.
    fn of(r: &Reckoned, book: &[u8]) -> Found {
        let all = power(r.variables);
        let every = all.wrapping_sub(1);
        let mut found = Found {
            fillings: Counts::default(),
            first: None,
            forced: Literals {
                yes: every,
                no: every,
            },
        };
        for filling in 0..all {
            let satisfied = models::satisfies(r.numbers.as_slice(), filling);
            found
                .fillings
                .note(satisfied == models::obeys(book, filling));
            if satisfied {
                found.satisfied(filling);
            }
        }
        found
    }

    // What is due of the book: something of its models, or 9 at 0 where there is none.
    fn due<T: Copy>(&self, of_models: T) -> Result<T, Refused> {
        if self.first.is_some() {
            Ok(of_models)
        } else {
            Err(NO_MODEL)
        }
    }
}

// What the engine made of a file that is of the form, and what it answers to it at a moment.
fn compared(t: &mut Tally, r: &Reckoned, q: Question<'_>) {
    let found = Found::of(r, q.book);
    t.note_many(Group::Fillings, found.fillings.tried, found.fillings.differ);
    t.see_models(found.first.is_some());
    t.note(Group::Model, q.model() == found.first.ok_or(NO_MODEL));
    t.note(
        Group::Consequence,
        q.consequence() == found.due(found.forced),
    );
    let said = q.log(&mut [0; limits::LOG]).map(|_| ());
    t.note(Group::Log, said == found.due(()));
}

// One file. Those that are refused have no book to compare.
fn one(t: &mut Tally, d: &Draft) {
    let s = d.as_slice();
    compare::count(t, Group::Small, s);
    if let Ok(r) = reckon::reckon(s) {
        let answered = asked::answer(s, limits::WITHOUT_FACTS);
        let q = Question {
            book: answered.book(),
            moment: windows::drawn_moment(d.seed),
        };
        compared(t, &r, q);
    }
}

// So many files, of at most eight variables.
pub fn files(t: &mut Tally, files: usize, from: Files) {
    for d in from.take(files) {
        one(t, &d);
    }
}
