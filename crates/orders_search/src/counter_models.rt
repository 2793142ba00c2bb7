// The first models of the orders at the counter.
use engine_checks::question::Question;
use engine_checks::tally::{Group, Tally};
use samples::build::Draft;
use samples::counter;
use samples::reckon::Refused;

// A book whose first model says yes of the variables of a mask.
fn book(t: &mut Tally, d: Draft, model: u64) {
    t.note(Group::Model, Question::of_draft(&d).model() == Ok(model));
}

// An order that is refused.
fn refuses(t: &mut Tally, letter: u8, number: u8, place: usize) {
    let d = counter::order(letter);
    let due = Refused { number, place };
    t.note(Group::Model, Question::of_draft(&d).model() == Err(due));
}

// Orders b, c, d, g, h and i, the rule (1, 2), whose first model says no of 1, the two of E6, and the orders that are refused:
// a, e, f and j.
pub fn all(t: &mut Tally) {
    book(t, counter::order(b'b'), 0);
    book(t, counter::book_p(), 31);
    book(t, counter::order(b'd'), 1);
    book(t, counter::order(b'g'), 0);
    book(t, counter::order(b'h'), 1);
    book(t, counter::order(b'i'), 7);
    book(t, counter::either(), 2);
    book(t, counter::fewer_facts(), 15);
    book(t, counter::higher_goal(), 31);
    refuses(t, b'a', 1, 0);
    refuses(t, b'e', 9, 0);
    refuses(t, b'f', 9, 0);
    refuses(t, b'j', 6, 12);
}
