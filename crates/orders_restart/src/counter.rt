// The orders at the counter. The log of book P is the one of document 01, the others' are reckoned.
use crate::breaks::Ways;
use crate::run::Run;
use crate::{books, wrong};
use brute_force::logs::Log;
use engine_checks::compare::BAD_MOMENT;
use engine_checks::question::Question;
use samples::reckon::Literals;
use samples::windows::Moment;
use samples::{build, calendar, counter};

// The log of book P: 2 from 1, 4 from 2 and 3, and OK.
const LOG_OF_P: [u8; 26] =
    *b"ST\x02\x01\x01\x01\x02\x00\x08ST\x04\x02\x02\x03\x01\x04\x00\x0cOK\x02\x00\x00\x00\x14";

// Book P with its log, broken at every byte, and each byte before each break wrong.
pub fn book_p(r: &mut Run) {
    let d = counter::book_p();
    let q = Question::of_draft(&d);
    let log = Log {
        written: build::bytes(build::empty(), &LOG_OF_P),
        known: Literals::default(),
        steps: 2,
        total: 20,
        ended: true,
    };
    books::with_log(r, q, &log, Ways::All, d.seed);
    wrong::everywhere(&mut r.wrong, q, &LOG_OF_P, d.seed);
}

// The orders a to j, of which a and j are refused, and e and f have no model; each also on a day that cannot be, and at a minute that
// cannot be. Then the two of E6.
pub fn orders(r: &mut Run) {
    let no_day = Moment {
        date: calendar::date(2001, 2, 29),
        minute: 720,
    };
    let no_minute = Moment {
        date: calendar::date(2010, 5, 10),
        minute: 1440,
    };
    for letter in b'a'..=b'j' {
        let d = counter::order(letter);
        books::one(r, &d);
        for moment in [no_day, no_minute] {
            books::refused(r, Question::of_draft(&d).at(moment), BAD_MOMENT);
        }
    }
    books::one(r, &counter::fewer_facts());
    books::one(r, &counter::higher_goal());
}
