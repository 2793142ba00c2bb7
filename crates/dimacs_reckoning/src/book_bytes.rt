// The book that is made of a text, as bytes, and what its clauses were like.
use crate::clause::Clause;
use crate::reckon::{Numbers, Reckoned};
use samples::build::Draft;
use samples::{build, edits, limits};

// How many clauses a text has, how many of them are dropped, have no literals, have a repeat, and have literals that
// are put in another order.
#[derive(Clone, Copy, Debug, Default, PartialEq, Eq)]
pub struct Kinds {
    pub clauses: u64,
    pub dropped: u64,
    pub empty: u64,
    pub repeated: u64,
    pub moved: u64,
}

// The bytes so far, and how many clauses are kept.
#[derive(Clone, Copy)]
pub struct Made {
    pub book: Draft,
    pub kept: u8,
    pub kinds: Kinds,
}

fn more(n: u64, so: bool) -> u64 {
    n.wrapping_add(u64::from(so))
}

// One clause more.
fn noted(k: Kinds, c: &Clause) -> Kinds {
    Kinds {
        clauses: more(k.clauses, true),
        dropped: more(k.dropped, c.opposed),
        empty: more(k.empty, c.is_empty()),
        repeated: more(k.repeated, c.repeated),
        moved: more(k.moved, c.moved && !c.opposed),
    }
}

fn literals(d: Draft, c: &Clause) -> Draft {
    let mut made = d;
    for i in 0..c.len() {
        made = build::put(made, c.at(i));
    }
    made
}

// A clause is whole: its rule is put, or it is dropped.
fn closed(m: Made, c: &Clause) -> Made {
    let kinds = noted(m.kinds, c);
    if c.opposed {
        return Made { kinds, ..m };
    }
    let with_count = build::rule(m.book, (c.len() % 256) as u8);
    Made {
        book: literals(with_count, c),
        kept: m.kept.wrapping_add(1),
        kinds,
    }
}

// The header and the costs, which are 1. How many rules there are is not known yet.
fn begun(variables: u8) -> Made {
    let choices = variables.min(limits::CHOICES);
    let d = build::header(build::empty(), variables, choices, 0);
    Made {
        book: build::equal_costs(d, choices, 1, 1),
        kept: 0,
        kinds: Kinds::default(),
    }
}

// All numbers of the clauses.
fn with_clauses(m: Made, numbers: &Numbers) -> Made {
    let mut made = m;
    let mut clause = Clause::empty();
    for i in 0..numbers.len() {
        let n = numbers.at(i);
        if n == 0 {
            made = closed(made, &clause);
            clause = Clause::empty();
        } else {
            clause.add(n);
        }
    }
    made
}

// The book of a text that is of the form. The number of rules is put where it belongs, and EN at the end.
pub fn of_text(r: &Reckoned) -> Made {
    let made = with_clauses(begun(r.variables), &r.numbers);
    Made {
        book: build::end(edits::changed(made.book, 4, made.kept)),
        ..made
    }
}
