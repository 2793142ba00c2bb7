// Holds the reader of DIMACS CNF texts against an independent reckoning of the form and of the book, over texts that are
// built here as bytes; against the answers of documents 01 and 02 at the limits; and, over all fillings of small files, the
// models of the text against those of the book. One line for a group: how many texts, at how many the two differ, and how
// many were due to become a book or to be refused with each number.
#![tactic(auto)]

mod asked;
mod compare;
mod every_text;
mod groups;
mod long_files;
mod models;
mod report;
mod rows;
mod tally;

use groups::Files;
use samples::limits;
use tally::Tally;

// Texts at the limits of the form, and near good files.
fn form(t: &mut Tally) {
    rows::all(t);
    groups::near_good_files(t);
    groups::every_byte(t);
    every_text::all(t);
}

fn files(seed: u64, variables: u8, clauses: u8, literals: u8) -> Files {
    Files {
        seed,
        variables,
        clauses,
        literals,
    }
}

// Files made up: few variables and clauses, clauses of many literals, and many clauses.
fn made_files(t: &mut Tally) {
    let few = files(88172645463325252, 6, 5, 4);
    groups::made_files(t, 4000, few);
    let long = files(362436069362436069, limits::VARIABLES, 8, 8);
    groups::made_files(t, 8000, long);
    let many = files(521288629521288629, limits::VARIABLES, 30, 5);
    groups::made_files(t, 2000, many);
}

// Files of few variables: clauses of up to three literals, of which many files have no model, and longer ones.
fn small_files(t: &mut Tally) {
    models::files(t, 3000, files(246813579246813579, 8, 30, 3));
    models::files(t, 2000, files(927350631927350631, 5, 12, 3));
    models::files(t, 2000, files(135792468135792468, 8, 16, 8));
}

// A line that standard output does not take is passed over: the next one is tried, and the status is 0.
fn main(rt: HostRuntime) {
    let mut t = Tally::new();
    form(&mut t);
    made_files(&mut t);
    long_files::all(&mut t);
    groups::buffers(&mut t);
    small_files(&mut t);
    report::all(&rt, &t);
}
