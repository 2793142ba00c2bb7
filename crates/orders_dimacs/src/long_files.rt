// Files of many clauses or many bytes: the longest book, files that are near its file, long comments and long clauses.
use crate::tally::{Group, Tally};
use crate::{asked, compare};
use dimacs_texts::long::Long;
use dimacs_texts::{long, numbers};
use samples::build::Draft;
use samples::reckon::Refused;
use samples::{build, limits};

// One more file, with the length of the book that is expected of it, or the refusal.
fn expect(t: &mut Tally, l: &Long, due: Result<usize, Refused>) {
    let said = asked::answer(l.as_slice(), limits::WITHOUT_FACTS).said;
    t.note(Group::Expected, said == due);
    t.see(Group::Expected, due.err().map(|refused| refused.number));
    compare::count(t, Group::Long, l.as_slice());
}

// One more file of which a book of this length is expected.
fn written(t: &mut Tally, l: Long, size: usize) {
    expect(t, &l, Ok(size));
}

// One more file that is expected to be refused with this number at this place.
fn refused(t: &mut Tally, l: Long, number: u8, place: usize) {
    expect(t, &l, Err(Refused { number, place }));
}

// A file of so many clauses that are all alike.
fn alike(variables: u8, clause: Draft, count: u8) -> Long {
    long::times(long::head(variables, count), clause, count)
}

// The first bytes of a file.
fn cut(mut l: Long, len: usize) -> Long {
    l.len = len;
    l
}

// The file of the longest book: 48 variables and 128 clauses of eight literals, none of them in order. Its head has 13 bytes
// and each clause 34.
fn longest() -> Long {
    alike(48, long::falling_clause(48, 8), 128)
}

// The longest book has all of the shortest buffer, also without the file's last line end and with more blanks behind it.
fn longest_taken(t: &mut Tally, l: Long) {
    written(t, l, 1639);
    written(t, cut(l, 4364), 1639);
    written(t, long::bytes(l, b"\r\n \t\n"), 1639);
}

// Without its last 0, or with a byte or a clause more, the file is refused.
fn longest_wrong(t: &mut Tally, l: Long) {
    refused(t, cut(l, 4363), 12, 4363);
    refused(t, cut(l, 4362), 12, 4362);
    refused(t, long::bytes(l, b"0\n"), 12, 4365);
    refused(t, long::bytes(l, b"\x00"), 12, 4365);
}

// So it is with a longer last clause, and where 129 clauses are announced.
fn longest_too_large(t: &mut Tally, l: Long) {
    let nine = long::falling_clause(48, 9);
    refused(t, long::draft(cut(l, 4331), nine), 13, 4331);
    let more = long::times(long::head(48, 129), long::falling_clause(48, 8), 129);
    refused(t, more, 13, 9);
}

fn around_the_longest(t: &mut Tally) {
    let l = longest();
    longest_taken(t, l);
    longest_wrong(t, l);
    longest_too_large(t, l);
}

// A file of 128 clauses that are all these bytes, of which a book of this length is made.
fn clauses_alike(t: &mut Tally, variables: u8, clause: &[u8], size: usize) {
    let l = alike(variables, build::bytes(build::empty(), clause), 128);
    written(t, l, size);
}

// Clauses that have no literals, that are dropped, and that have repeats.
fn other_clauses(t: &mut Tally) {
    clauses_alike(t, 48, b"0 ", 615);
    clauses_alike(t, 32, b"0 ", 615);
    clauses_alike(t, 0, b"0\n", 391);
    clauses_alike(t, 1, b"1 -1 0\n", 14);
    clauses_alike(t, 20, b"20 20 0\n", 659);
    clauses_alike(t, 21, b"21 20 0\n", 794);
    clauses_alike(t, 32, b"32 -1 32 -1 32 0 ", 871);
    clauses_alike(t, 48, b"48 -1 48 -1 48 0 ", 871);
}

// 128 clauses of nine literals; 127 clauses where 128 are announced, and the last one put behind them, which is dropped.
fn last_clauses(t: &mut Tally) {
    refused(t, alike(9, long::falling_clause(9, 9), 128), 13, 12);
    let clause = build::bytes(build::empty(), b"-2 1 0\n");
    let both = long::times(long::head(2, 128), clause, 127);
    refused(t, both, 12, 901);
    written(t, long::bytes(both, b"2 1 -2 0"), 656);
}

// A comment of 6,001 bytes, with its line end and without.
fn long_comments(t: &mut Tally) {
    let some = numbers::digits(build::empty(), b'p', 100);
    let comment = long::times(long::bytes(long::empty(), b"c"), some, 60);
    refused(t, comment, 12, 6001);
    written(t, long::bytes(comment, b"\np cnf 0 0"), 7);
}

// A clause of 2,000 numbers, all but eight of them repeats; with a ninth literal; and with an opposite.
fn long_clauses(t: &mut Tally) {
    let eight = build::bytes(build::empty(), b"1 -2 3 4 5 6 7 8 ");
    let clause = long::times(long::head(9, 1), eight, 250);
    written(t, long::bytes(clause, b"0"), 81);
    refused(t, long::bytes(clause, b"9 0"), 13, 10);
    written(t, long::bytes(clause, b"9 2 0"), 70);
    refused(t, clause, 12, 4260);
}

// Every one of them.
pub fn all(t: &mut Tally) {
    around_the_longest(t);
    other_clauses(t);
    last_clauses(t);
    long_comments(t);
    long_clauses(t);
}
