// The engine's answer to a text held against the reckoning, or against what is expected.
use crate::asked;
use crate::tally::{Group, Tally};
use dimacs_reckoning::book_bytes::Made;
use dimacs_reckoning::{book_bytes, reckon};
use engine_checks::compare::SHORT_BUFFER;
use samples::build::Draft;
use samples::limits;
use samples::reckon::Refused;

// Whether the engine reads these bytes as a book.
fn is_read(book: &[u8]) -> bool {
    engine::read_book(book).is_ok()
}

// One more text that is to become a book: it is written, and is then read.
fn count_book(t: &mut Tally, group: Group, s: &[u8], len: usize, made: &Made) {
    let book = made.book.as_slice();
    t.note(group, asked::writes(s, len, book));
    t.see_clauses(made.kinds);
    t.note(Group::Read, is_read(book));
}

// One more text that is to be refused.
fn count_refused(t: &mut Tally, group: Group, s: &[u8], len: usize, due: Refused) {
    t.see(group, Some(due.number));
    t.note(group, asked::refuses(s, len, due));
}

// One more text, with a buffer of so many bytes.
pub fn count_with(t: &mut Tally, group: Group, s: &[u8], len: usize) {
    if len < limits::WITHOUT_FACTS {
        count_refused(t, group, s, len, SHORT_BUFFER);
        return;
    }
    match reckon::reckon(s) {
        Ok(due) => {
            t.see(group, None);
            count_book(t, group, s, len, &book_bytes::of_text(&due));
        }
        Err(due) => {
            t.see_long_clause(due.number == 13 && due.begun > 0);
            let refused = Refused {
                number: due.number,
                place: due.place,
            };
            count_refused(t, group, s, len, refused);
        }
    }
}

// One more text, with the shortest buffer that serves.
pub fn count(t: &mut Tally, group: Group, s: &[u8]) {
    count_with(t, group, s, limits::WITHOUT_FACTS);
}

// One more draft.
pub fn count_draft(t: &mut Tally, group: Group, d: Draft) {
    count(t, group, d.as_slice());
}

// A text that is expected to be refused in this way.
pub fn refuses(t: &mut Tally, s: &[u8], due: Refused) {
    count_refused(t, Group::Expected, s, limits::WITHOUT_FACTS, due);
    count(t, Group::Boundaries, s);
}

// A text of which this book is expected.
pub fn writes(t: &mut Tally, s: &[u8], book: &[u8]) {
    t.note(
        Group::Expected,
        asked::writes(s, limits::WITHOUT_FACTS, book),
    );
    t.see(Group::Expected, None);
    count(t, Group::Boundaries, s);
}
