// Books in which at most one choice may be yes. The search tries no first, so that the first model found says no to every
// choice; each one after it says yes to one of them and so takes out one literal, and one model more is found than there are
// choices left open. That filling is the first model too.
use brute_force::{algorithm2, fillings};
use engine_checks::question::Question;
use engine_checks::tally::{Group, Tally};
use engine_checks::{compare, models_found};
use samples::build::Draft;
use samples::reckon::Literals;
use samples::{build, limits, reckon};
use std::ops::Range;

// With up to so many choices there is a rule for each pair of them.
const PAIRED: u8 = 16;

// How many pairs so many choices make.
fn pairs_of(choices: u8) -> u8 {
    (0..choices).fold(0, |sum: u8, i| sum.wrapping_add(i))
}

// The byte of a literal over a variable.
fn literal(v: u8, yes: bool) -> u8 {
    if yes { v } else { build::negated(v) }
}

// A rule for each pair of these variables: both literals are yes, or both are no.
fn pairs(d: Draft, variables: Range<u8>, yes: bool) -> Draft {
    let mut made = d;
    let end = variables.end;
    for v in variables {
        for w in v.wrapping_add(1)..end {
            made = build::rule_of_two(made, literal(v, yes), literal(w, yes));
        }
    }
    made
}

// The choices and a rule for each pair of them: at most one may be yes, or, with `yes`, at most one may be no.
fn paired(choices: u8, yes: bool) -> Draft {
    let d = build::header(build::empty(), choices, choices, pairs_of(choices));
    pairs(build::costs(d, choices), 1..choices.wrapping_add(1), yes)
}

// Each choice makes the helper of its row and that of its column yes: four rows after the choices, then eight columns.
fn places(d: Draft, choices: u8) -> Draft {
    let mut made = d;
    for i in 0..choices {
        let v = build::negated(i.wrapping_add(1));
        let row = choices.wrapping_add(i / 8 + 1);
        let column = choices.wrapping_add(i % 8 + 5);
        made = build::rule_of_two(made, v, row);
        made = build::rule_of_two(made, v, column);
    }
    made
}

// The choices in a grid of which at most one row and one column are yes: a rule for each pair of so many choices would be
// more than a book can have. There are 6 pairs of rows and 28 of columns.
fn grid(choices: u8) -> Draft {
    let rows = choices.wrapping_add(1);
    let columns = choices.wrapping_add(5);
    let end = choices.wrapping_add(13);
    let rules = choices.wrapping_add(choices).wrapping_add(34);
    let d = build::header(build::empty(), choices.wrapping_add(12), choices, rules);
    let d = places(build::costs(d, choices), choices);
    pairs(pairs(d, rows..columns, false), columns..end, false)
}

// How many models the reckoned run finds for a book, where there is room for its fillings.
fn models_reckoned(s: &[u8]) -> Option<u32> {
    let b = reckon::reckon(s).ok()?;
    let all = fillings::obeying(&b)?;
    Some(algorithm2::narrowed(all.as_slice(), b.facts, fillings::first(b.choices)).models)
}

// A book of so many choices, the first of which are given as no.
fn book(choices: u8, givens: u8) -> Draft {
    let d = if choices <= PAIRED {
        paired(choices, false)
    } else {
        grid(choices)
    };
    build::end(build::first_facts(d, givens, false))
}

// One book. Nothing follows but the facts; the fillings of a grid are too many to be gone through.
fn one(t: &mut Tally, choices: u8, givens: u8) {
    let d = book(choices, givens);
    let q = Question::of_draft(&d);
    let forced = Literals {
        yes: 0,
        no: fillings::first(usize::from(givens)),
    };
    t.note(Group::Model, q.model() == Ok(0));
    t.note(Group::Consequence, q.consequence() == Ok(forced));
    let models = u32::from(choices.wrapping_sub(givens)) + 1;
    let group = if givens == 0 {
        Group::OneMore
    } else {
        Group::OneMoreGiven
    };
    t.note(group, models_found::models_found(q) == models);
    if choices <= PAIRED {
        t.note(
            Group::OneMoreReckoned,
            models_reckoned(q.book) == Some(models),
        );
    }
}

// Every number of choices: none of them given, one, .. and all.
pub fn all(t: &mut Tally) {
    for choices in 0..=limits::CHOICES {
        for givens in 0..=choices {
            one(t, choices, givens);
        }
    }
}

// Books in which at most one choice may be no. Here the first model says yes to all choices but one, and the next may take out
// one literal or two, so that only the bounds are known.
pub fn mirrored(t: &mut Tally) {
    for choices in 2..=PAIRED {
        compare::count(t, &build::end(paired(choices, true)));
    }
}
