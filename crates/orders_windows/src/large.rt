// Books too large for the reckoning, with windows: what the engine answers to each at the edges of its windows, held against
// what it answers to the book of the rules then in force, which has no windows.
use engine_checks::asked_log;
use engine_checks::question::Question;
use made_books::seasons::Season;
use made_books::windowed::Windowed;
use made_books::{made, windowed};
use readings::counts;
use readings::counts::Counts;
use samples::reckon::Literals;
use samples::{build, random, reckon, windows};

// What was compared, and at how many moments the log is another one than with all rules in force.
#[derive(Clone, Copy, Debug, Default)]
pub struct Run {
    models: Counts,
    consequences: Counts,
    steps: Counts,
    logs: Counts,
    others: u64,
}

// Whether the steps from the given facts are the same.
fn steps_agree(q: Question<'_>, plain: Question<'_>) -> bool {
    let facts = reckon::reckon(plain.book).map_or(Literals::default(), |b| b.facts);
    q.next_step(facts) == plain.next_step(facts)
}

impl Run {
    // The book with windows and the one of the rules in force.
    fn compare(&mut self, q: Question<'_>, plain: Question<'_>) {
        self.models.note(q.model() == plain.model());
        self.consequences
            .note(q.consequence() == plain.consequence());
        self.steps.note(steps_agree(q, plain));
        self.logs.note(asked_log::same_log(q, plain));
    }

    // The moments at the edges of all windows of a book. Those that cannot be are tried elsewhere.
    fn each_edge(&mut self, b: Windowed) {
        let d = windowed::typed(b);
        for n in 0..Windowed::EDGES {
            let moment = windowed::edge(b, n);
            if windows::is_moment(moment) {
                let q = Question::of_draft(&d).at(moment);
                let other = !asked_log::same_log(q, q.of(b.plain.as_slice()));
                counts::count(&mut self.others, other);
                self.compare(q, q.of(windowed::in_force_at(b, moment).as_slice()));
            }
        }
    }

    // What was seen, under a heading.
    pub fn show(&self, rt: &impl Print, heading: &str) {
        let _ = println!(rt; "{heading}");
        let _ = println!(rt; "same first model: {}", self.models);
        let _ = println!(rt; "same consequence: {}", self.consequences);
        let _ = println!(rt; "same step from the facts: {}", self.steps);
        let _ = println!(rt; "same log: {}", self.logs);
        let _ = print!(rt;
            "moments at which the log is another one than with all rules in force: "
        );
        let _ = println!(rt; "{}", self.others);
    }
}

// The longest book that there is.
fn longest() -> Windowed {
    Windowed {
        plain: build::longest(false),
        windows: [3, 30, 60, 90, 120].map(|n| Some(windows::nth(n))),
    }
}

// The longest book, and so many that have a model with all rules in force, and so at every moment.
pub fn all(books: u32) -> Run {
    let mut r = Run::default();
    r.each_edge(longest());
    let mut seed = 299792458299792458;
    for _ in 0..books {
        let d = made::book(seed, made::largest_shape(seed));
        r.each_edge(windowed::of_book(d, Season::Any));
        seed = random::next(d.seed);
    }
    r
}
