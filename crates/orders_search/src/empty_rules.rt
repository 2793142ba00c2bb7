// Books that hold a rule of no literals. No filling obeys such a rule, so there is no model whatever else the book says.
use engine_checks::compare::NO_MODEL;
use engine_checks::question::Question;
use engine_checks::tally::{Kind, Tally};
use engine_checks::{compare, logged, walks};
use samples::build::Draft;
use samples::{build, reckon};

// A book that is read, and to which each search answers 9 at 0; a log whose buffer is short is refused with 8.
fn no_model(t: &mut Tally, d: &Draft) {
    let q = Question::of_draft(d);
    let read = reckon::reckon(q.book);
    compare::asked(t, q, &read, Err(NO_MODEL));
    if let Ok(b) = &read {
        t.see(Kind::NoVariables, b.variables == 0);
        t.see(Kind::EmptyRule, reckon::has_empty_rule(b));
        walks::without_model(t, q, b.facts);
    }
    logged::without_model(t, q);
}

// What the books of a group are like: the rules over the first variables have so many literals, and so many choices are
// given.
#[derive(Clone, Copy)]
struct Like {
    variables: u8,
    choices: u8,
    rules: u8,
    literals: u8,
    givens: u8,
}

// A book whose rule at a place has no literals.
fn book_at(like: Like, place: u8) -> Draft {
    let d = build::header(build::empty(), like.variables, like.choices, like.rules);
    let mut made = build::costs(d, like.choices);
    for i in 0..like.rules {
        let count = if i == place { 0 } else { like.literals };
        made = build::long_rule(made, 1, count);
    }
    build::end(build::first_facts(made, like.givens, true))
}

// A book for each place of the rule that has no literals.
fn books(t: &mut Tally, variables: u8, choices: u8, rules: u8, literals: u8, givens: u8) {
    let like = Like {
        variables,
        choices,
        rules,
        literals,
        givens,
    };
    for place in 0..rules {
        no_model(t, &book_at(like, place));
    }
}

// The rule alone, with and without variables, choices and facts; among others; and books at the limits, the last of which
// has only such rules.
pub fn all(t: &mut Tally) {
    books(t, 0, 0, 1, 0, 0);
    books(t, 3, 0, 1, 0, 0);
    books(t, 2, 2, 1, 0, 0);
    books(t, 2, 2, 1, 0, 2);
    books(t, 0, 0, 5, 0, 0);
    books(t, 4, 0, 5, 2, 0);
    books(t, 4, 3, 6, 3, 0);
    books(t, 4, 3, 6, 1, 1);
    books(t, 32, 20, 128, 8, 0);
    books(t, 32, 20, 128, 8, 20);
    books(t, 48, 32, 128, 8, 0);
    books(t, 48, 32, 128, 8, 32);
    books(t, 32, 20, 128, 0, 3);
    books(t, 48, 32, 128, 0, 3);
}
