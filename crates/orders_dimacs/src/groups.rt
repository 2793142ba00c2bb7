// Groups of many texts, each held against the reckoning.
use crate::asked::Answered;
use crate::compare;
use crate::tally::{Group, Tally};
use dimacs_texts::{good, made, wrong};
use samples::build::Draft;
use samples::{build, edits, limits, random};

// Every prefix of a file, the whole of it last.
fn truncations(t: &mut Tally, d: Draft) {
    for n in 0..=d.len {
        compare::count_draft(t, Group::Cut, edits::cut(d, n));
    }
}

// Each byte that matters put in at a place.
fn insertions_at(t: &mut Tally, d: Draft, place: usize) {
    for n in 0..wrong::COUNT {
        let made = edits::with(d, place, wrong::byte(n));
        compare::count_draft(t, Group::More, made);
    }
}

// Each byte that matters put for the byte at a place.
fn changes_at(t: &mut Tally, d: Draft, place: usize) {
    for n in 0..wrong::COUNT {
        let made = edits::changed(d, place, wrong::byte(n));
        compare::count_draft(t, Group::Changed, made);
    }
}

// The byte at each place changed, left out, or with another before it, and a byte more at the end.
fn near(t: &mut Tally, d: Draft) {
    insertions_at(t, d, d.len);
    for place in 0..d.len {
        changes_at(t, d, place);
        insertions_at(t, d, place);
        compare::count_draft(t, Group::Less, edits::without(d, place));
    }
}

// Every good file and all that is near it.
pub fn near_good_files(t: &mut Tally) {
    for n in 0..good::FILES {
        let d = good::file(n);
        truncations(t, d);
        near(t, d);
    }
}

// Every value of the byte at each place, and every byte put in before it, of a file in which every state of the form is met.
pub fn every_byte(t: &mut Tally) {
    let d = build::bytes(build::empty(), b"c \np cnf 11 2\n-10 2 0 0\n");
    for place in 0..d.len {
        for b in 0..=u8::MAX {
            compare::count_draft(t, Group::Changed, edits::changed(d, place, b));
            compare::count_draft(t, Group::More, edits::with(d, place, b));
        }
    }
}

// Files made up, without end: the seed of the next, and up to how many variables, clauses and literals there are.
#[derive(Clone, Copy)]
pub struct Files {
    pub seed: u64,
    pub variables: u8,
    pub clauses: u8,
    pub literals: u8,
}

impl Iterator for Files {
    type Item = Draft;

    fn next(&mut self) -> Option<Draft> {
        let like = made::drawn_shape(self.seed, self.variables, self.clauses, self.literals);
        let d = made::file(random::next(self.seed), like);
        self.seed = random::next(d.seed);
        Some(d)
    }
}

// So many files made up, and the same with something wrong.
pub fn made_files(t: &mut Tally, files: usize, from: Files) {
    for d in from.take(files) {
        compare::count_draft(t, Group::Made, d);
        compare::count_draft(t, Group::Wrong, wrong::changed(d));
        compare::count_draft(t, Group::Wrong, edits::edited(d));
    }
}

// A byte less than the longest book without facts has, a byte more, and the longest such book of at most twenty choices.
const SHORT: usize = limits::WITHOUT_FACTS - 1;

const LONGER: usize = limits::WITHOUT_FACTS + 1;

const TWENTY_CHOICES: usize = 1555;

// A file with buffers of several lengths.
fn with_buffers(t: &mut Tally, d: Draft) {
    for len in [
        0,
        d.len,
        TWENTY_CHOICES,
        SHORT,
        limits::WITHOUT_FACTS,
        LONGER,
        Answered::ROOM,
    ] {
        compare::count_with(t, Group::Buffers, d.as_slice(), len);
    }
}

// Each good file, the same with its last bytes left out and with a number that is too large, and no file.
pub fn buffers(t: &mut Tally) {
    with_buffers(t, build::empty());
    for n in 0..good::FILES {
        let d = good::file(n);
        with_buffers(t, d);
        with_buffers(t, edits::cut(d, 9));
        with_buffers(t, build::bytes(build::empty(), b"p cnf 49 1"));
    }
}
