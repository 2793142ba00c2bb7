// The engine's book, first model, consequence and number of models held against the reckoning.
use crate::models_found;
use crate::models_found::Bounds;
use crate::question::Question;
use crate::tally::{Group, Kind, Tally};
use brute_force::fillings;
use samples::build::Draft;
use samples::reckon;
use samples::reckon::{Literals, Reckoned, Refused};

// A book without a model.
pub const NO_MODEL: Refused = Refused {
    number: 9,
    place: 0,
};

// A buffer that is too short for the longest log.
pub const SHORT_BUFFER: Refused = Refused {
    number: 8,
    place: 0,
};

// A known set that does not lie between the facts and the consequence.
pub const BAD_KNOWN: Refused = Refused {
    number: 10,
    place: 0,
};

// A moment that cannot be.
pub const BAD_MOMENT: Refused = Refused {
    number: 14,
    place: 0,
};

// What is due of a book that has a model: the first model and the consequence.
#[derive(Clone, Copy, Debug, PartialEq, Eq)]
pub struct Due {
    pub model: u64,
    pub forced: Literals,
}

// Whether `engine::model` gives the first model, or the refusal that is due.
pub fn model_agrees(q: Question<'_>, due: Result<Due, Refused>) -> bool {
    q.model() == due.map(|due| due.model)
}

// Whether `engine::consequence` gives the consequence, or the refusal that is due.
pub fn consequence_agrees(q: Question<'_>, due: Result<Due, Refused>) -> bool {
    q.consequence() == due.map(|due| due.forced)
}

// What is due of a good book: the first model and the consequence, or 9 at 0 where there is no model.
pub fn due_of(b: &Reckoned, all: &[u64]) -> Result<Due, Refused> {
    let model = fillings::first_model(all, b.facts).ok_or(NO_MODEL)?;
    Ok(Due {
        model,
        forced: fillings::forced(all, b.facts, fillings::first(b.choices)),
    })
}

// How a good book is made up, as far as the tally shows it.
fn seen(t: &mut Tally, b: &Reckoned, due: Result<Due, Refused>) {
    t.see(Kind::NoVariables, b.variables == 0);
    t.see(Kind::NoChoices, b.choices == 0);
    t.see(Kind::NoRules, b.rules.is_empty());
    t.see(Kind::EmptyRule, reckon::has_empty_rule(b));
    t.see(Kind::NoModel, due.is_err());
    t.see(Kind::WithMore, due.is_ok_and(|due| due.forced != b.facts));
}

// The answers to a book at a moment: what its bytes are reckoned to be, and what is due of the rules then in force.
pub fn asked(
    t: &mut Tally,
    q: Question<'_>,
    read: &Result<Reckoned, Refused>,
    due: Result<Due, Refused>,
) {
    let reading = engine::read_book(q.book);
    let costs = engine::read_costs(q.book);
    t.note(Group::Reading, readings::agree(&reading, &costs, read));
    t.note(Group::Model, model_agrees(q, due));
    t.note(Group::Consequence, consequence_agrees(q, due));
}

// One more book, at a moment at which its rules in force are all the rules of another one, `b`.
pub fn count_at(t: &mut Tally, q: Question<'_>, read: &Result<Reckoned, Refused>, b: &Reckoned) {
    let Some(all) = fillings::obeying(b) else {
        t.see(Kind::LeftOut, true);
        return;
    };
    let due = due_of(b, all.as_slice());
    seen(t, b, due);
    asked(t, q, read, due);
    models_found::asked(t, q, Bounds::of(due, b.choices));
    models_found::reckoned(t, all.as_slice(), b, due);
}

// One more book without windows, at any moment.
pub fn count(t: &mut Tally, d: &Draft) {
    let q = Question::of_draft(d);
    let read = reckon::reckon(q.book);
    match &read {
        Ok(b) => count_at(t, q, &read, b),
        Err(refused) => {
            t.see(Kind::BadBooks, true);
            asked(t, q, &read, Err(*refused));
        }
    }
}
