// The engine asked of a book at a moment, and its answers as the tests have them.
use brute_force::steps::Taken;
use samples::build::Draft;
use samples::reckon::{Literals, Refused};
use samples::windows;
use samples::windows::Moment;

// A book's bytes, and the moment.
#[derive(Clone, Copy)]
pub struct Question<'a> {
    pub book: &'a [u8],
    pub moment: Moment,
}

// A step, as far as the engine says it. The goal is a set of one literal.
#[derive(Clone, Copy, Debug, PartialEq, Eq)]
pub struct Step {
    pub goal: Literals,
    pub reasons: Literals,
    pub new: Literals,
    pub cost: u64,
}

// A log that was written: its bytes, its steps and what they cost.
#[derive(Clone, Copy, Debug, PartialEq, Eq)]
pub struct Written {
    pub size: usize,
    pub steps: u64,
    pub total: u64,
}

// A step of the engine's.
impl From<log_form::Step> for Step {
    fn from(step: log_form::Step) -> Step {
        Step {
            goal: alone(step.goal),
            reasons: readings::masks(step.reasons),
            new: readings::masks(step.new),
            cost: u64::from(step.cost),
        }
    }
}

// A step that is due.
impl From<Taken> for Step {
    fn from(step: Taken) -> Step {
        Step {
            goal: step.goal,
            reasons: step.reasons,
            new: step.new,
            cost: step.cost,
        }
    }
}

// What the engine says of a log.
impl From<log_writer::Written> for Written {
    fn from(written: log_writer::Written) -> Written {
        Written {
            size: written.size,
            steps: u64::from(written.steps),
            total: u64::from(written.total),
        }
    }
}

// The set of one literal.
fn alone(l: i8) -> Literals {
    let bit = brute_force::fillings::bit(literals::variable(l));
    if l < 0 {
        Literals { yes: 0, no: bit }
    } else {
        Literals { yes: bit, no: 0 }
    }
}

impl<'a> Question<'a> {
    // A book without windows, at a moment that is drawn from its state.
    pub fn of_draft(d: &'a Draft) -> Question<'a> {
        Question {
            book: d.as_slice(),
            moment: windows::drawn_moment(d.seed),
        }
    }

    // The same book at another moment.
    pub fn at(self, moment: Moment) -> Question<'a> {
        Question { moment, ..self }
    }

    // Another book at the same moment.
    pub fn of<'b>(self, book: &'b [u8]) -> Question<'b> {
        Question {
            book,
            moment: self.moment,
        }
    }

    // The first model.
    pub fn model(self) -> Result<u64, Refused> {
        engine::model(self.book, readings::moment_of(self.moment)).map_err(readings::refused)
    }

    // The consequence.
    pub fn consequence(self) -> Result<Literals, Refused> {
        engine::consequence(self.book, readings::moment_of(self.moment))
            .map(readings::masks)
            .map_err(readings::refused)
    }

    // The next step from a known set, or none where nothing is left.
    pub fn next_step(self, known: Literals) -> Result<Option<Step>, Refused> {
        let moment = readings::moment_of(self.moment);
        engine::next_step(self.book, moment, known.yes, known.no)
            .map(|step| step.map(Step::from))
            .map_err(readings::refused)
    }

    // The log, written into a buffer.
    pub fn log(self, buffer: &mut [u8]) -> Result<Written, Refused> {
        engine::log(self.book, readings::moment_of(self.moment), buffer)
            .map(Written::from)
            .map_err(readings::refused)
    }

    // The log carried on in a buffer of which so many bytes are said to be as written.
    pub fn resume_log(self, buffer: &mut [u8], written: usize) -> Result<Written, Refused> {
        let moment = readings::moment_of(self.moment);
        engine::resume_log(self.book, moment, buffer, written)
            .map(Written::from)
            .map_err(readings::refused)
    }
}
