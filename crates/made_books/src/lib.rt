// Books made up, of several kinds, each from a seed.
#![tactic(auto)]

mod circuits;
mod cores;
mod covers;
mod drawn;
pub mod made;
mod moments;
pub mod seasons;
mod several;
mod shapes;
mod ties;
pub mod windowed;

use made::Shape;
use samples::build::Draft;
use samples::{edits, random};

// Good books of any shape, the same edited, books with a model planted, with many rules, with a hidden core, with a
// yes in each of many pairs, with many ties, with several reasons for each of several goals, circuits.
#[derive(Clone, Copy, Debug, PartialEq, Eq)]
pub enum Form {
    Any,
    Edited,
    Planted,
    Dense,
    Core,
    Covers,
    Ties,
    Several,
    Circuit,
}

// Up to so many variables and choices and costs up to `cost`; books with a core or with ties have their own, those with
// several reasons their own variables and choices.
#[derive(Clone, Copy, Debug, PartialEq, Eq)]
pub struct Kind {
    pub form: Form,
    pub variables: u8,
    pub choices: u8,
    pub cost: u16,
}

// A kind, by its form.
pub fn of_form(form: Form, variables: u8, choices: u8, cost: u16) -> Kind {
    Kind {
        form,
        variables,
        choices,
        cost,
    }
}

// What the books of a kind are like that are drawn to a shape.
fn shape(kind: Kind, seed: u64) -> Shape {
    match kind.form {
        Form::Planted => shapes::planted(seed, kind),
        Form::Dense => shapes::dense(seed, kind),
        _ => shapes::any(seed, kind),
    }
}

fn shaped(kind: Kind, seed: u64) -> Draft {
    made::book(random::next(seed), shape(kind, seed))
}

// The book of a kind that comes from a seed, with the state that the next seed comes from.
pub fn book(kind: Kind, seed: u64) -> Draft {
    match kind.form {
        Form::Any | Form::Planted | Form::Dense => shaped(kind, seed),
        Form::Edited => edits::much_edited(shaped(kind, seed)),
        Form::Core => cores::made(seed),
        Form::Covers => covers::made(seed, kind),
        Form::Ties => ties::made(seed),
        Form::Several => several::made(seed, kind.cost),
        Form::Circuit => circuits::made(seed, kind),
    }
}

// Books of a kind without end: each one but the first comes from the state that the one before it left.
#[derive(Clone, Copy)]
pub struct Books {
    kind: Kind,
    seed: u64,
}

impl Books {
    pub fn from_seed(kind: Kind, seed: u64) -> Books {
        Books { kind, seed }
    }
}

impl Iterator for Books {
    type Item = Draft;

    fn next(&mut self) -> Option<Draft> {
        let d = book(self.kind, self.seed);
        self.seed = random::next(d.seed);
        Some(d)
    }
}
