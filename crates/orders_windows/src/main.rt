// Holds the engine's calendar against days counted one by one, and its answers to books with windows against an independent
// reckoning of the rules in force, at every edge of each window. A line for each thing that is compared: how many were tried,
// and at how many the two differ. Other lines count what was met on the way.
#![tactic(auto)]

mod books;
mod days;
mod large;
mod moments;

use books::Run;
use engine_checks::report;
use engine_checks::tally::Tally;
use made_books::Form;
use made_books::seasons::Season;

// The days from 1 January 2000 to 31 December 2099.
fn calendar(rt: &impl Print) {
    let _ = println!(rt; "the calendar:");
    let _ = println!(rt; "numbers and weekdays of days: {}", days::numbers());
    let _ = println!(rt; "days in their order: {}", days::orders());
    let _ = println!(rt; "dates that can be: {}", days::dates_that_can_be());
    let _ = println!(rt; "minutes that can be: {}", moments::minutes());
    let _ = println!(rt; "");
}

fn no_moments(rt: &impl Print) {
    let mut t = Tally::new();
    moments::all(&mut t);
    report::show(
        rt,
        "moments that cannot be, 14 at 0 whatever the book and the buffer are:",
        &t,
    );
}

// Books of several forms, some of them without a model, with windows of one kind: windows that leave out days, weekdays, minutes, all
// three, or nothing.
fn windowed(rt: &impl Print) {
    let any = made_books::of_form(Form::Any, 6, 6, 9);
    let planted = made_books::of_form(Form::Planted, 10, 8, 3);
    let mut r = Run::new();
    for season in [
        Season::Never,
        Season::Days,
        Season::Weekdays,
        Season::Minutes,
        Season::Each,
    ] {
        r.each(20, any, season, 577215664901532860);
        r.each(10, planted, season, 141421356237309504);
    }
    r.show(
        rt,
        "books with windows of one kind, at the edges of their windows:",
    );
}

// Books in which more follows, with windows of any kind.
fn windowed_at_will(rt: &impl Print) {
    let mut r = Run::new();
    let several = made_books::of_form(Form::Several, 8, 8, 3);
    r.each(40, several, Season::Any, 173205080756887729);
    let core = made_books::of_form(Form::Core, 10, 7, 9);
    r.each(20, core, Season::Any, 223606797749978969);
    let dense = made_books::of_form(Form::Dense, 8, 6, 9);
    r.each(40, dense, Season::Any, 264575131106459059);
    r.show(
        rt,
        "books with windows of any kind, at the edges of their windows:",
    );
}

// Books that no reckoning goes through.
fn large_books(rt: &impl Print) {
    let heading = "large books with windows, held against those of the rules in force:";
    large::all(12).show(rt, heading);
}

// A line that standard output does not take is passed over: the next one is tried, and the status is 0.
fn main(rt: HostRuntime) {
    calendar(&rt);
    no_moments(&rt);
    windowed(&rt);
    windowed_at_will(&rt);
    large_books(&rt);
}
