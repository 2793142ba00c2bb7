// Holds the engine's search against an independent reckoning over all fillings, over books that are built here as bytes.
// A line for each thing that is compared: how many were tried, and at how many the two differ. Other lines count what
// was met on the way.
#![tactic(auto)]

mod counter_logs;
mod counter_models;
mod counter_steps;
mod empty_rules;
mod large_books;
mod most_models;
mod worked;

use engine_checks::tally::Tally;
use engine_checks::{compare, report, walks};
use made_books::{Books, Form, Kind};

// Readings, first models, consequences and how many models these take, of so many books of a kind.
fn compared_books(rt: &impl Print, heading: &str, books: usize, like: Kind, start: u64) {
    let mut t = Tally::new();
    for d in Books::from_seed(like, start).take(books) {
        compare::count(&mut t, &d);
    }
    report::show(rt, heading, &t);
}

fn compared(rt: &impl Print) {
    let any = made_books::of_form(Form::Any, 10, 10, 999);
    compared_books(rt, "books made up:", 20000, any, 88172645463325252);
    let edited = made_books::of_form(Form::Edited, 10, 10, 999);
    compared_books(
        rt,
        "books made up and edited:",
        20000,
        edited,
        362436069362436069,
    );
    let core = made_books::of_form(Form::Core, 10, 7, 9);
    compared_books(
        rt,
        "books with a hidden core:",
        4000,
        core,
        246813579246813579,
    );
    let covers = made_books::of_form(Form::Covers, 10, 7, 9);
    compared_books(
        rt,
        "books with a yes in each of many pairs:",
        4000,
        covers,
        864197532864197532,
    );
}

// The orders at the counter, and books too large for the reckoning whose steps are written here.
fn counter(rt: &impl Print) {
    let mut t = Tally::new();
    worked::all(&mut t);
    counter_steps::all(&mut t);
    counter_logs::all(&mut t);
    counter_models::all(&mut t);
    large_books::all(&mut t);
    report::show(rt, "orders at the counter:", &t);
}

// Books that no filling obeys, wherever in them the rule of no literals stands.
fn without_literals(rt: &impl Print) {
    let mut t = Tally::new();
    empty_rules::all(&mut t);
    report::show(rt, "books with a rule of no literals:", &t);
}

// Books in which at most one choice may be yes, then those in which at most one may be no.
fn many_models(rt: &impl Print) {
    let mut t = Tally::new();
    most_models::all(&mut t);
    report::show(
        rt,
        "books in which one more model is found than there are choices:",
        &t,
    );
    let mut t = Tally::new();
    most_models::mirrored(&mut t);
    report::show(rt, "books in which at most one choice may be no:", &t);
}

// Steps and logs of so many books of a kind.
fn walk(t: &mut Tally, books: usize, like: Kind, start: u64) {
    for d in Books::from_seed(like, start).take(books) {
        walks::count(t, &d);
    }
}

// Books with a model planted: so many variables and choices or a few fewer, and costs up to `cost`.
fn planted(t: &mut Tally, books: usize, variables: u8, choices: u8, cost: u16) {
    let like = made_books::of_form(Form::Planted, variables, choices, cost);
    walk(t, books, like, 927350631927350631);
}

// Steps and logs of books of up to ten variables. With costs up to each of three: small ones, some of them without a model, then
// with a model planted, small and larger, with helpers and without.
fn walked(rt: &impl Print) {
    let mut t = Tally::new();
    for cost in [1, 3, 999] {
        walk(
            &mut t,
            2000,
            made_books::of_form(Form::Any, 6, 6, cost),
            521288629521288629,
        );
        planted(&mut t, 2000, 6, 6, cost);
        planted(&mut t, 600, 10, 8, cost);
        planted(&mut t, 600, 10, 10, cost);
    }
    let core = made_books::of_form(Form::Core, 10, 7, 9);
    walk(&mut t, 600, core, 135792468135792468);
    planted(&mut t, 3000, 10, 9, 1);
    let ties = made_books::of_form(Form::Ties, 10, 8, 2);
    walk(&mut t, 3000, ties, 975318642975318642);
    let edited = made_books::of_form(Form::Edited, 6, 6, 3);
    walk(&mut t, 1000, edited, 123456789123456789);
    report::show(rt, "books of up to 10 variables, walked:", &t);
}

// Steps and logs of books in which reasons of different sizes often cost the same.
fn walked_several(rt: &impl Print) {
    let mut t = Tally::new();
    let like = made_books::of_form(Form::Several, 8, 8, 3);
    walk(&mut t, 3000, like, 618033988749894848);
    report::show(
        rt,
        "books with several reasons for each of several goals, walked:",
        &t,
    );
}

// Steps and logs of larger books, with small costs and with any.
fn walked_large(rt: &impl Print) {
    let mut t = Tally::new();
    let small = made_books::of_form(Form::Circuit, 20, 16, 3);
    walk(&mut t, 200, small, 314159265358979323);
    let any = made_books::of_form(Form::Circuit, 20, 16, 999);
    walk(&mut t, 200, any, 271828182845904523);
    report::show(rt, "books of 17 to 20 variables, walked:", &t);
}

// A line that standard output does not take is passed over: the next one is tried, and the status is 0.
fn main(rt: HostRuntime) {
    compared(&rt);
    counter(&rt);
    without_literals(&rt);
    many_models(&rt);
    walked(&rt);
    walked_several(&rt);
    walked_large(&rt);
}
