// The lines of the tally.
use crate::tally::{Group, Tally};

// How often each group was tried and differed, and what was due.
fn groups(rt: &impl Print, t: &Tally) {
    for (group, name) in Group::NAMES {
        let answers = t.group(group);
        let _ = println!(rt; "{name}: {answers}");
    }
}

// What the clauses of the texts of the form were like.
fn clauses(rt: &impl Print, t: &Tally) {
    let k = t.kinds;
    let _ = println!(rt; "clauses of texts that became a book: {}", k.clauses);
    let _ = println!(rt; "dropped, with a literal and its opposite: {}", k.dropped);
    let _ = println!(rt; "with no literals: {}", k.empty);
    let _ = println!(rt; "with a repeat: {}", k.repeated);
    let _ = println!(rt; "put in another order: {}", k.moved);
    let _ = println!(rt;
        "texts refused for a clause of more than eight literals: {}",
        t.long_clauses
    );
}

// All of it.
pub fn all(rt: &impl Print, t: &Tally) {
    groups(rt, t);
    let _ = println!(rt; "");
    clauses(rt, t);
    let _ = println!(rt; "files of up to 8 variables with a model: {}", t.with_model);
    let _ = println!(rt; "without: {}", t.without_model);
    let _ = println!(rt; "");
    let _ = println!(rt; "in all: {}", t.all());
}
