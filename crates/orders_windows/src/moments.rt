// Moments that cannot be: 14 at 0 from every call that takes one, whatever the book and the buffer are.
use engine_checks::compare::BAD_MOMENT;
use engine_checks::question::Question;
use engine_checks::tally::{Group, Tally};
use engine_checks::walks;
use readings::counts::Counts;
use samples::build::Draft;
use samples::windows::{Moment, Window};
use samples::{build, calendar, counter, windows};

fn at(year: u16, month: u8, day: u8, minute: u16) -> Moment {
    Moment {
        date: calendar::date(year, month, day),
        minute,
    }
}

// Year, month, day and minute of moments that cannot be.
const MOMENTS: [(u16, u8, u8, u16); 12] = [
    (1999, 12, 31, 0),
    (2100, 1, 1, 0),
    (2001, 2, 29, 720),
    (2000, 2, 30, 720),
    (2010, 4, 31, 1439),
    (2010, 0, 10, 720),
    (2010, 13, 10, 720),
    (2010, 5, 0, 720),
    (0, 0, 0, 0),
    (2010, 5, 10, 1440),
    (2099, 12, 31, 65535),
    (65535, 255, 255, 65535),
];

// Every call with one book at one moment.
pub fn refused(t: &mut Tally, q: Question<'_>) {
    t.note(Group::Consequence, q.consequence() == Err(BAD_MOMENT));
    walks::refused(t, q, BAD_MOMENT);
}

// One book at each of the moments.
fn with_book(t: &mut Tally, d: Draft) {
    let q = Question::of_draft(&d);
    for (year, month, day, minute) in MOMENTS {
        refused(t, q.at(at(year, month, day, minute)));
    }
}

// Every book at every moment: book P, one whose mark is wrong, no byte, a book without a model, the longest without windows and
// with them, one that is refused at its first window.
pub fn all(t: &mut Tally) {
    let rule = build::rule(build::header(build::empty(), 0, 0, 1), 0);
    with_book(t, counter::book_p());
    with_book(t, build::bytes(build::empty(), b"XX"));
    with_book(t, build::empty());
    with_book(t, counter::order(b'e'));
    with_book(t, build::longest(false));
    with_book(t, build::longest(true));
    with_book(t, build::window(rule, Window::default()));
}

// Whether the engine takes a moment exactly where it can be.
fn agrees(m: Moment) -> bool {
    dates::is_moment(readings::moment_of(m)) == windows::is_moment(m)
}

// Every number of two bytes as the minute, on a date that can be and on one that cannot: the last number on the first alone.
pub fn minutes() -> Counts {
    let mut c = Counts::default();
    for minute in 0..u16::MAX {
        c.note(agrees(at(2010, 5, 10, minute)));
        c.note(agrees(at(2010, 5, 32, minute)));
    }
    c.note(agrees(at(2010, 5, 10, u16::MAX)));
    c
}
