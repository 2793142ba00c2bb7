// Groups of many books, each held against the reckoning.
use crate::compare::Tally;
use made_books::seasons::Season;
use made_books::{made, windowed};
use samples::build::Draft;
use samples::{build, edits, random};
use std::ops::Range;

// Every prefix of a book, the whole of it last.
pub fn truncations(t: &mut Tally, d: Draft) {
    for n in 0..d.len {
        t.count(&edits::cut(d, n));
    }
    t.count(&d);
}

// Every value of each byte at these places, one byte at a time.
pub fn changes(t: &mut Tally, d: Draft, places: Range<usize>) {
    for place in places {
        for b in 0..=u8::MAX {
            t.count(&edits::changed(d, place, b));
        }
    }
}

// Each byte of a book left out, and every byte put in before it.
pub fn shifts(t: &mut Tally, d: Draft) {
    for place in 0..d.len {
        t.count(&edits::without(d, place));
        for b in 0..=u8::MAX {
            t.count(&edits::with(d, place, b));
        }
    }
}

// Every byte after a good book: by itself, before an N, after an E and after an F.
pub fn extra_bytes(t: &mut Tally, d: Draft) {
    for b in 0..=u8::MAX {
        t.count(&build::put(d, b));
        t.count(&build::put2(d, b, b'N'));
        t.count(&build::put2(d, b'E', b));
        t.count(&build::put2(d, b'F', b));
    }
}

// What books are made up: so many, of up to so many variables, with windows of any kind or without.
#[derive(Clone, Copy)]
pub struct Made {
    pub books: u32,
    pub variables: u8,
    pub with_windows: bool,
}

impl Made {
    // The book from a seed.
    fn book(self, seed: u64) -> Draft {
        let plain = made::any_book(seed, self.variables);
        if self.with_windows {
            windowed::typed(windowed::of_book(plain, Season::Any))
        } else {
            plain
        }
    }
}

// Good books made up: each is expected to be read.
pub fn made_up(t: &mut Tally, like: Made) {
    let mut seed = 88172645463325252;
    for _ in 0..like.books {
        let d = like.book(seed);
        t.read(d);
        seed = d.seed;
    }
}

// Books made up and edited.
pub fn edited(t: &mut Tally, like: Made) {
    let mut seed = 362436069362436069;
    for _ in 0..like.books {
        let d = edits::much_edited(like.book(seed));
        t.count(&d);
        seed = random::next(d.seed);
    }
}
