// Books and the same retyped. That they have the same fillings of the choices is reckoned and not asked of the engine.
use crate::retyped_asked;
use crate::retyped_asked::Two;
use brute_force::fillings::Fillings;
use brute_force::{fillings, restricted};
use engine_checks::tally::{Group, Kind, Tally};
use engine_checks::walks::Case;
use engine_checks::{asked_log, compare};
use readings::counts;
use retyped_books::Pair;
use samples::build::Draft;
use samples::reckon::{Reckoned, Refused};
use samples::{random, reckon};

// Whether a book is accepted and has the same choices, costs and facts.
fn same_terms(b: &Reckoned, other: &Result<Reckoned, Refused>) -> bool {
    other.as_ref().is_ok_and(|other| {
        b.choices == other.choices && b.facts == other.facts && b.costs == other.costs
    })
}

// Whether the fillings that obey the rules of two books are the same when restricted to the choices.
fn same_fillings(a: &Reckoned, b: &Reckoned) -> bool {
    restricted::same(restricted::of_book(a), restricted::of_book(b))
}

// What is reckoned of two books, then what the engine answers to both. Their first models may differ in the helpers.
fn compared(t: &mut Tally, two: Two<'_>, a: &Reckoned, b: &Reckoned, seed: u64) {
    t.note(Group::SameFillings, same_fillings(a, b));
    let all = fillings::obeying(a).unwrap_or(Fillings::none());
    let due = compare::due_of(a, all.as_slice());
    let model = fillings::first_of_book(b).ok_or(compare::NO_MODEL);
    t.note(Group::Model, compare::model_agrees(two.first, due));
    t.note(Group::Model, two.second.model() == due.and(model));
    t.see(Kind::PairsNoModel, due.is_err());
    let empty = reckon::has_empty_rule(a) || reckon::has_empty_rule(b);
    t.see(Kind::PairsEmptyRule, empty);
    retyped_asked::all(t, two, &Case::of(all.as_slice(), a), seed);
}

// A book and the same retyped, held against each other.
fn pair(t: &mut Tally, b: &Reckoned, made: &Pair) {
    let two = Two::of_drafts(&made.original, &made.retyped);
    let original = reckon::reckon(two.first.book);
    let retyped = reckon::reckon(two.second.book);
    let same = same_terms(b, &original) && same_terms(b, &retyped);
    t.note(Group::SameTerms, same);
    if let (Ok(original), Ok(retyped)) = (&original, &retyped) {
        compared(t, two, original, retyped, made.retyped.seed);
    }
}

// One more book, which is good, retyped in a way that is drawn from its state.
pub fn count(t: &mut Tally, d: &Draft) {
    match reckon::reckon(d.as_slice()) {
        Ok(b) => {
            let n = random::place_below(d.seed, retyped_books::WAYS);
            let way = retyped_books::nth(n);
            let made = retyped_books::typed_twice(&b, way, random::next(d.seed));
            t.see_way(n, made.original.as_slice() != made.retyped.as_slice());
            pair(t, &b, &made);
        }
        Err(_) => t.note(Group::SameTerms, false),
    }
}

// Two books with the same choices, costs and facts and other rules: left out where the fillings of the choices are the same
// after all.
fn differing(t: &mut Tally, two: Two<'_>, a: &Reckoned, b: &Reckoned) {
    if same_fillings(a, b) {
        counts::count(&mut t.others.left_out, true);
    } else {
        counts::count(&mut t.others.pairs, true);
        let differ = !asked_log::same_log(two.first, two.second);
        counts::count(&mut t.others.differ, differ);
    }
}

// One more book, and the same with the rules of another that has as many choices.
pub fn count_others(t: &mut Tally, d: &Draft, other: &Draft) {
    let (Ok(b), Ok(rules_of)) = (
        reckon::reckon(d.as_slice()),
        reckon::reckon(other.as_slice()),
    ) else {
        return;
    };
    if b.choices == rules_of.choices {
        let made = retyped_books::with_rules_of(&b, &rules_of);
        if let Ok(second) = reckon::reckon(made.as_slice()) {
            differing(t, Two::of_drafts(d, &made), &b, &second);
        }
    }
}
