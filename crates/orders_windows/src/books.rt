// Books with windows at the moments at every edge of their windows: what the engine answers to each, held against what is
// reckoned of the book of the rules then in force.
use crate::moments;
use engine_checks::question::Question;
use engine_checks::tally::Tally;
use engine_checks::{compare, report, walks};
use made_books::seasons::Season;
use made_books::windowed::Windowed;
use made_books::{Books, Kind, windowed};
use readings::counts;
use samples::build::Draft;
use samples::{random, reckon, windows};

// What was compared; and how many moments there were that cannot be, or at which all rules are in force, some, and none.
#[derive(Clone, Copy)]
pub struct Run {
    tally: Tally,
    impossible: u64,
    all: u64,
    some: u64,
    none: u64,
}

impl Run {
    pub fn new() -> Run {
        Run {
            tally: Tally::new(),
            impossible: 0,
            all: 0,
            some: 0,
            none: 0,
        }
    }

    // One moment more at which so many of the rules are in force.
    fn see(&mut self, rules: usize, in_force: usize) {
        let n = if in_force == rules {
            &mut self.all
        } else if in_force == 0 {
            &mut self.none
        } else {
            &mut self.some
        };
        counts::count(n, true);
    }

    // The answers at a moment, held against the book of the rules then in force.
    fn compare(&mut self, q: Question<'_>, plain: &Draft) {
        let read = reckon::reckon(q.book);
        let in_force = reckon::reckon(plain.as_slice());
        if let (Ok(whole), Ok(b)) = (&read, &in_force) {
            compare::count_at(&mut self.tally, q, &read, b);
            self.see(whole.rules.len(), b.rules.len());
        }
        walks::count_at(&mut self.tally, q, &in_force, random::next(plain.seed));
    }

    // The moments at the edges of all windows of a book.
    fn each_edge(&mut self, b: Windowed) {
        let d = windowed::typed(b);
        for n in 0..Windowed::EDGES {
            let moment = windowed::edge(b, n);
            let q = Question::of_draft(&d).at(moment);
            if windows::is_moment(moment) {
                self.compare(q, &windowed::in_force_at(b, moment));
            } else {
                moments::refused(&mut self.tally, q);
                counts::count(&mut self.impossible, true);
            }
        }
    }

    // So many books of a kind, with windows of another.
    pub fn each(&mut self, books: usize, kind: Kind, season: Season, start: u64) {
        for d in Books::from_seed(kind, start).take(books) {
            self.each_edge(windowed::of_book(d, season));
        }
    }

    // What was seen, under a heading.
    pub fn show(&self, rt: &impl Print, heading: &str) {
        let _ = println!(rt; "{heading}");
        let _ = print!(rt;
            "moments at which all rules are in force: {}, some: {}",
            self.all, self.some
        );
        let _ = print!(rt;
            ", none: {}; moments that cannot be: {}",
            self.none, self.impossible
        );
        report::show(rt, "", &self.tally);
    }
}
