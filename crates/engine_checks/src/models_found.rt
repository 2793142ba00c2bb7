// How many models are found for the consequence, held against what the consequence as reckoned allows: the first model keeps
// a literal over each choice, each one after it takes out at least one, and no literal of the consequence is taken out.
use crate::compare::Due;
use crate::question::Question;
use crate::tally::{Group, Tally};
use brute_force::{algorithm2, fillings};
use samples::reckon::{Literals, Reckoned, Refused};

// The fewest models and the most.
#[derive(Clone, Copy)]
pub struct Bounds {
    pub least: u32,
    pub most: u32,
}

impl Bounds {
    // Without a model 0; where every choice is decided 1; else at least 2, and at most one more than the choices left open.
    pub fn of(due: Result<Due, Refused>, choices: usize) -> Bounds {
        let Ok(due) = due else {
            return Bounds { least: 0, most: 0 };
        };
        let decided = due.forced.yes | due.forced.no;
        let open = (fillings::first(choices) & !decided).count_ones();
        Bounds {
            least: if open == 0 { 1 } else { 2 },
            most: open.wrapping_add(1),
        }
    }

    fn has(self, models: u32) -> bool {
        self.least <= models && models <= self.most
    }
}

// How many models the engine finds for a book at a moment: 0 where one of them is refused or there is none.
pub fn models_found(q: Question<'_>) -> u32 {
    let moment = readings::moment_of(q.moment);
    if !dates::is_moment(moment) {
        return 0;
    }
    match book::read(q.book) {
        Ok(b) => consequence::of_problem(&problem::of_book(&b, moment)).map_or(
            0,
            |found| found.models,
        ),
        Err(_) => 0,
    }
}

// So many models, held against their bounds.
pub fn bounded(t: &mut Tally, models: u32, due: Bounds) {
    t.note(Group::ModelsFound, due.has(models));
}

// The engine's models for one more good book. (For one that is refused no model is looked for.)
pub fn asked(t: &mut Tally, q: Question<'_>, due: Bounds) {
    let models = models_found(q);
    t.models.found = t.models.found.wrapping_add(u64::from(models));
    t.models.most = t.models.most.wrapping_add(u64::from(due.most));
    bounded(t, models, due);
}

// The models of the reckoned run for one more good book, and what it keeps at its end: every literal over a choice where there is
// no model.
pub fn reckoned(t: &mut Tally, all: &[u64], b: &Reckoned, due: Result<Due, Refused>) {
    let choices = fillings::first(b.choices);
    let every = Literals {
        yes: choices,
        no: choices,
    };
    let run = algorithm2::narrowed(all, b.facts, choices);
    t.models.reckoned = t.models.reckoned.wrapping_add(u64::from(run.models));
    let kept = due.map_or(every, |due| due.forced);
    let agrees = Bounds::of(due, b.choices).has(run.models) && run.kept == kept;
    t.note(Group::ModelsReckoned, agrees);
}
