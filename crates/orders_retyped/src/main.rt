// Holds the engine's search against an independent reckoning over all fillings, over books that are made of others: small ones
// spread over the most variables, and books retyped. A line for each thing that is compared: how many were tried, and at how
// many the two differ. Other lines count what was met on the way.
#![tactic(auto)]

mod retyped;
mod retyped_asked;
mod spread_walks;

use engine_checks::report;
use engine_checks::tally::Tally;
use made_books::{Books, Form, Kind};
use samples::random;

// Books in which much follows, and the seed of the first of each kind: with a model planted, with small costs and with any, with a
// core, dense ones, circuits, and books with ties.
fn in_which_much_follows() -> [(Kind, u64); 6] {
    [
        (
            made_books::of_form(Form::Planted, 10, 6, 2),
            449999989449999989,
        ),
        (
            made_books::of_form(Form::Planted, 10, 7, 999),
            179424673179424673,
        ),
        (
            made_books::of_form(Form::Core, 10, 7, 9),
            982451653982451653,
        ),
        (
            made_books::of_form(Form::Dense, 10, 5, 3),
            633910099633910099,
        ),
        (
            made_books::of_form(Form::Circuit, 14, 10, 3),
            715225741715225741,
        ),
        (
            made_books::of_form(Form::Ties, 10, 8, 2),
            573259391573259391,
        ),
    ]
}

// Steps and logs of books of up to fourteen variables and ten choices that are spread over the most: small ones, some of them
// without a model, and others in which more follows.
fn walked_spread(rt: &impl Print) {
    let mut t = Tally::new();
    for d in Books::from_seed(made_books::of_form(Form::Any, 10, 8, 9), 602214076602214076).take(
        600,
    ) {
        spread_walks::count(&mut t, &d);
    }
    for (like, start) in in_which_much_follows() {
        for d in Books::from_seed(like, start).take(200) {
            spread_walks::count(&mut t, &d);
        }
    }
    report::show(
        rt,
        "books spread over 48 variables and 32 choices, walked:",
        &t,
    );
}

// Books of up to fourteen variables and the same retyped: small ones, some of them without a model, and others in
// which more follows; most have helpers.
fn retyped_pairs(rt: &impl Print) {
    let mut t = Tally::new();
    for d in Books::from_seed(made_books::of_form(Form::Any, 10, 7, 3), 668265263668265263).take(
        2400,
    ) {
        retyped::count(&mut t, &d);
    }
    for (like, start) in in_which_much_follows() {
        for d in Books::from_seed(like, start).take(1200) {
            retyped::count(&mut t, &d);
        }
    }
    report::show(
        rt,
        "books retyped, the answers to one held against those to the other:",
        &t,
    );
}

// What the comparison would show if the fillings of the choices were not the same: each book with the rules of the one after it.
fn other_rules(rt: &impl Print) {
    let mut t = Tally::new();
    for (like, start) in in_which_much_follows() {
        let mut d = made_books::book(like, start);
        for next in Books::from_seed(like, random::next(d.seed)).take(300) {
            retyped::count_others(&mut t, &d, &next);
            d = next;
        }
    }
    report::show(
        rt,
        "control, books with the rules of others, whose logs are expected to differ:",
        &t,
    );
}

// A line that standard output does not take is passed over: the next one is tried, and the status is 0.
fn main(rt: HostRuntime) {
    walked_spread(&rt);
    retyped_pairs(&rt);
    other_rules(&rt);
}
