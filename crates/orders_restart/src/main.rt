// Holds the call that carries a log on after a restart against logs that are reckoned by brute force and broken at every byte, with
// junk of several kinds behind the break; and its refusals, which leave every byte of the buffer as it was found. A line for each
// thing that is compared: how many were tried, and at how many the two differ. Other lines count what was met on the way.
#![tactic(auto)]

mod asked;
mod books;
mod breaks;
mod counter;
mod large;
mod long;
mod met;
mod numbers;
mod rooms;
mod run;
mod wrong;

use breaks::Ways;
use engine_checks::question::Question;
use made_books::Form;
use run::Run;

fn orders(rt: &impl Print) {
    let mut r = Run::new();
    counter::book_p(&mut r);
    r.show(
        rt,
        "book P with the log of document 01, broken at every byte:",
    );
    let mut r = Run::new();
    counter::orders(&mut r);
    r.show(rt, "the orders at the counter, their logs reckoned:");
}

// A book whose log is longer than any that is reckoned.
fn long_log(rt: &impl Print) {
    let d = long::book();
    let mut r = Run::new();
    books::with_log(
        &mut r,
        Question::of_draft(&d),
        &long::log(),
        Ways::All,
        d.seed,
    );
    r.show(
        rt,
        "a book with a long log that is known from how it is made:",
    );
}

// Books of several forms, some of them without a model or refused.
fn made_up(rt: &impl Print) {
    let mut r = Run::new();
    let any = made_books::of_form(Form::Any, 6, 6, 9);
    books::each(&mut r, 100, any, 577215664901532860);
    let edited = made_books::of_form(Form::Edited, 6, 6, 9);
    books::each(&mut r, 60, edited, 314159265358979323);
    let planted = made_books::of_form(Form::Planted, 10, 8, 999);
    books::each(&mut r, 120, planted, 141421356237309504);
    let larger = made_books::of_form(Form::Planted, 12, 10, 99);
    books::each(&mut r, 60, larger, 244948974278317809);
    let several = made_books::of_form(Form::Several, 8, 8, 3);
    books::each(&mut r, 80, several, 173205080756887729);
    let core = made_books::of_form(Form::Core, 10, 7, 9);
    books::each(&mut r, 40, core, 223606797749978969);
    let dense = made_books::of_form(Form::Dense, 8, 6, 9);
    books::each(&mut r, 60, dense, 264575131106459059);
    r.show(rt, "books made up, their logs reckoned:");
}

// Books with windows.
fn windowed(rt: &impl Print) {
    let mut r = Run::new();
    let any = made_books::of_form(Form::Any, 6, 6, 9);
    books::each_windowed(&mut r, 30, any, 331662479035539984);
    let planted = made_books::of_form(Form::Planted, 10, 8, 3);
    books::each_windowed(&mut r, 30, planted, 161803398874989484);
    let several = made_books::of_form(Form::Several, 8, 8, 9);
    books::each_windowed(&mut r, 30, several, 271828182845904523);
    let heading = "books with windows at their edges, the logs of the rules in force reckoned:";
    r.show(rt, heading);
}

// Books that no reckoning goes through.
fn large_books(rt: &impl Print) {
    let mut r = Run::new();
    large::each(&mut r, 12);
    r.show(
        rt,
        "large books, held against the engine's own unbroken logs:",
    );
}

// A line that standard output does not take is passed over: the next one is tried, and the status is 0.
fn main(rt: HostRuntime) {
    orders(&rt);
    long_log(&rt);
    made_up(&rt);
    windowed(&rt);
    large_books(&rt);
}
