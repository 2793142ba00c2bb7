// Small books spread over the variables of the largest, and walked: the engine is asked of the large book, and what is due
// is reckoned over the fillings of the small one.
use brute_force::logs::Log;
use brute_force::steps::Taken;
use brute_force::{fillings, logs};
use engine_checks::compare::{Due, NO_MODEL};
use engine_checks::models_found::Bounds;
use engine_checks::question::Question;
use engine_checks::tally::{Group, Kind, Tally};
use engine_checks::walks::Case;
use engine_checks::{compare, logged, models_found, walks};
use retyped_books::spread;
use retyped_books::spread::Small;
use samples::build::Draft;
use samples::reckon::{Literals, Reckoned, Refused};
use samples::{limits, random, reckon};

// The small book, and what is given of the other choices of the large one.
#[derive(Clone, Copy)]
struct Spread {
    small: Small,
    case: Case,
    others: Literals,
}

impl Spread {
    // The small book, with the fillings that obey its rules; the other choices are given or not.
    fn of(b: &Reckoned, all: &[u64], given: bool) -> Spread {
        let small = spread::small_of(b);
        Spread {
            small,
            case: Case::of(all, b),
            others: spread::others(small, given),
        }
    }

    // A set of literals of the small book in the large one, with what is given of the other choices.
    fn with_others(&self, set: Literals) -> Literals {
        fillings::joined(spread::literals(self.small, set), self.others)
    }

    // The first model of the large book where this is the small one's: the variables stay in their order, and what is not given
    // of the others is no.
    fn model(&self, model: u64) -> u64 {
        spread::mask(self.small, model) | self.others.yes
    }

    // The step due in the large book where one is due in the small one.
    fn step(&self, step: Taken) -> Taken {
        Taken {
            goal: spread::literals(self.small, step.goal),
            reasons: spread::literals(self.small, step.reasons),
            new: spread::literals(self.small, step.new),
            ..step
        }
    }

    // The step due in the large book from a known set of the small one.
    fn due(&self, all: &[u64], known: Literals) -> Option<Taken> {
        self.case.due(all, known).map(|step| self.step(step))
    }

    // What is due of the large book.
    fn answers(&self, all: &[u64]) -> Result<Due, Refused> {
        let model = fillings::first_model(all, self.case.facts).ok_or(NO_MODEL)?;
        Ok(Due {
            model: self.model(model),
            forced: self.with_others(self.case.consequence),
        })
    }

    // The large book's case, of which known sets are spoilt.
    fn large_case(&self) -> Case {
        let count = usize::from(limits::CHOICES);
        Case {
            costs: self.case.costs,
            count,
            choices: fillings::first(count),
            facts: self.with_others(self.case.facts),
            consequence: self.with_others(self.case.consequence),
        }
    }
}

// The way and its log in the large book; what is known in the small one goes along.
fn along(t: &mut Tally, q: Question<'_>, all: &[u64], like: &Spread) -> Log {
    let mut known = like.case.facts;
    let mut log = logs::begun(like.with_others(known));
    for _ in 0..limits::RECORDS {
        if log.ended {
            break;
        }
        let step = like.case.due(all, known);
        let spread = step.map(|step| like.step(step));
        walks::one_step(t, q, log.known, spread);
        known = step.map_or(known, |step| fillings::joined(known, step.new));
        log = logs::onward(log, spread);
    }
    log
}

// A step from the facts and some of the consequence.
fn from_any(t: &mut Tally, q: Question<'_>, all: &[u64], like: &Spread, seed: u64) {
    let known = like.case.known_set(seed);
    let due = like.due(all, known);
    let agrees = walks::step_agrees(q, like.with_others(known), due);
    t.note(Group::FromAny, agrees);
}

// A book that has a model.
fn good(t: &mut Tally, q: Question<'_>, all: &[u64], like: &Spread, seed: u64) {
    let changed = t.kind(Kind::ChangedSteps);
    let log = along(t, q, all, like);
    t.see(Kind::ChangedBooks, t.kind(Kind::ChangedSteps) != changed);
    t.see_log(log.steps);
    from_any(t, q, all, like, seed);
    walks::spoilt_sets(t, q, &like.large_case(), random::next(seed));
    logged::whole(t, q, &log);
}

// The large book's reading, model and consequence, and how many models this takes.
fn asked(t: &mut Tally, q: Question<'_>, due: Result<Due, Refused>) {
    compare::asked(t, q, &reckon::reckon(q.book), due);
    let bounds = Bounds::of(due, usize::from(limits::CHOICES));
    models_found::bounded(t, models_found::models_found(q), bounds);
}

// A small book that is good, with the fillings that obey its rules; the other choices are given where the state is odd.
fn spread_book(t: &mut Tally, b: &Reckoned, all: &[u64], seed: u64) {
    let given = seed % 2 == 1;
    let like = Spread::of(b, all, given);
    let mut d = spread::book(b, given);
    d.seed = seed;
    let q = Question::of_draft(&d);
    let due = like.answers(all);
    asked(t, q, due);
    if due.is_ok() {
        good(t, q, all, &like, seed);
    } else {
        walks::without_model(t, q, like.with_others(like.case.facts));
        logged::without_model(t, q);
    }
}

// One more book. Those that are refused have no large book.
pub fn count(t: &mut Tally, d: &Draft) {
    let Ok(b) = reckon::reckon(d.as_slice()) else {
        return;
    };
    match fillings::obeying(&b) {
        Some(all) => spread_book(t, &b, all.as_slice(), d.seed),
        None => t.see(Kind::LeftOut, true),
    }
}
