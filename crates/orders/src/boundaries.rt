// Books at the limits of the format, each with the number and the place that document 01 gives it.
use crate::compare::Tally;
use samples::{build, counter, edits};

// A book of these counts, its rules all (1): a wrong count is refused at the beginning.
fn counts(t: &mut Tally, variables: u8, choices: u8, rules: u8, number: Option<u8>) {
    let d = build::header(build::empty(), variables, choices, rules);
    let d = build::equal_rules(build::costs(d, choices), rules);
    t.answered(build::end(d), number, 0);
}

pub fn headers(t: &mut Tally) {
    t.refused(build::empty(), 1, 0);
    let whole = build::header(build::empty(), 49, 0, 0);
    t.refused(edits::cut(whole, 1), 1, 0);
    t.refused(edits::cut(whole, 2), 1, 0);
    t.refused(edits::cut(whole, 4), 1, 0);
    t.refused(whole, 3, 0);
    counts(t, 0, 0, 0, None);
    counts(t, 48, 0, 0, None);
    counts(t, 49, 0, 0, Some(3));
    counts(t, 48, 32, 0, None);
    counts(t, 48, 33, 0, Some(3));
    counts(t, 32, 32, 0, None);
    counts(t, 31, 32, 0, Some(3));
    counts(t, 32, 20, 0, None);
    counts(t, 33, 21, 0, None);
    counts(t, 20, 20, 0, None);
    counts(t, 19, 20, 0, Some(3));
    counts(t, 0, 1, 0, Some(3));
    counts(t, 1, 1, 128, None);
    counts(t, 1, 0, 129, Some(3));
    counts(t, 255, 255, 255, Some(3));
}

// A book of one choice with these costs, whose record begins at 5.
fn cost(t: &mut Tally, choice: u8, of_yes: u16, of_no: u16, number: Option<u8>) {
    let d = build::cost(
        build::header(build::empty(), 1, 1, 0),
        choice,
        of_yes,
        of_no,
    );
    t.answered(build::end(d), number, 5);
}

pub fn costs(t: &mut Tally) {
    let d = build::cost(build::header(build::empty(), 2, 2, 0), 1, 5, 9);
    cost(t, 1, 1, 1, None);
    cost(t, 1, 999, 999, None);
    cost(t, 1, 256, 255, None);
    cost(t, 1, 0, 9, Some(4));
    cost(t, 1, 5, 0, Some(4));
    cost(t, 1, 1000, 9, Some(4));
    cost(t, 1, 5, 1000, Some(4));
    cost(t, 1, 65535, 9, Some(4));
    cost(t, 0, 5, 9, Some(4));
    cost(t, 2, 5, 9, Some(4));
    t.refused(build::end(build::cost(d, 1, 5, 9)), 4, 12);
    t.read(build::end(build::cost(d, 2, 5, 9)));
    t.refused(edits::cut(build::cost(d, 3, 5, 9), 18), 1, 12);
    t.refused(edits::cut(build::cost(d, 2, 5, 9), 14), 1, 12);
}

// The first `len` bytes of a book of no choices and one rule of `count` literals, which begins at 5.
fn long(t: &mut Tally, variables: u8, count: u8, len: usize, number: u8) {
    let d = build::header(build::empty(), variables, 0, 1);
    let d = edits::cut(build::long_rule(d, 1, count), len);
    t.refused(d, number, 5);
}

// A book of `variables` variables, no choices and one rule of two literals.
fn two(t: &mut Tally, variables: u8, a: u8, b: u8, number: Option<u8>) {
    let d = build::header(build::empty(), variables, 0, 1);
    t.answered(build::end(build::rule_of_two(d, a, b)), number, 5);
}

pub fn rule_counts(t: &mut Tally) {
    let eight = build::long_rule(build::header(build::empty(), 8, 0, 1), 1, 8);
    t.read(build::end(eight));
    long(t, 9, 9, 17, 5);
    long(t, 9, 9, 8, 5);
    long(t, 9, 0, 7, 1);
    long(t, 9, 255, 8, 5);
    long(t, 9, 8, 15, 1);
    long(t, 7, 8, 15, 1);
    long(t, 7, 8, 16, 6);
    long(t, 9, 8, 8, 1);
    long(t, 9, 8, 7, 1);
    long(t, 9, 8, 6, 1);
    long(t, 9, 8, 5, 1);
}

// A book of no choices whose rules have these counts, the literals from 1 on.
fn three_rules(t: &mut Tally, variables: u8, first: u8, second: u8, third: u8) {
    let d = build::header(build::empty(), variables, 0, 3);
    let d = build::long_rule(build::long_rule(d, 1, first), 1, second);
    t.read(build::end(build::long_rule(d, 1, third)));
}

// Rules of no literals: alone, with the facts after them, first, between others and last, many of them, and with what may
// not follow them.
pub fn empty_rules(t: &mut Tally) {
    let alone = build::rule(build::header(build::empty(), 0, 0, 1), 0);
    t.read(build::end(alone));
    t.refused(alone, 1, 8);
    t.refused(build::end(build::put(alone, 1)), 2, 8);
    t.refused(build::end(build::rule(alone, 0)), 2, 8);
    t.refused(build::end(build::put(alone, 0)), 2, 8);
    let d = build::costs(build::header(build::empty(), 1, 1, 1), 1);
    let given = build::fact(build::rule(d, 0), 1);
    t.read(build::end(given));
    t.refused(build::end(build::fact(given, 1)), 6, 18);
    three_rules(t, 2, 0, 2, 1);
    three_rules(t, 2, 1, 0, 2);
    three_rules(t, 2, 2, 1, 0);
    three_rules(t, 0, 0, 0, 0);
    three_rules(t, 8, 0, 8, 0);
    three_rules(t, 32, 8, 0, 8);
    three_rules(t, 48, 8, 0, 8);
    let two = build::rule(build::header(build::empty(), 1, 0, 2), 0);
    t.refused(build::end(two), 2, 8);
    t.refused(build::end(build::rule_of(two, 2)), 6, 8);
    t.refused(build::end(build::long_rule(two, 1, 9)), 5, 8);
}

pub fn rule_literals(t: &mut Tally) {
    let d = build::costs(build::header(build::empty(), 1, 1, 1), 1);
    t.refused(build::end(build::rule_of(d, 128)), 6, 12);
    two(t, 2, 1, 2, None);
    two(t, 2, 255, 254, None);
    two(t, 48, 47, 48, None);
    two(t, 48, 209, 208, None);
    two(t, 32, 31, 32, None);
    two(t, 32, 225, 224, None);
    two(t, 2, 0, 1, Some(6));
    two(t, 2, 1, 0, Some(6));
    two(t, 2, 2, 1, Some(6));
    two(t, 2, 1, 1, Some(6));
    two(t, 2, 1, 255, Some(6));
    two(t, 2, 255, 1, Some(6));
    two(t, 2, 1, 3, Some(6));
    two(t, 2, 1, 253, Some(6));
    two(t, 48, 1, 49, Some(6));
    two(t, 48, 1, 207, Some(6));
    two(t, 48, 1, 128, Some(6));
    two(t, 48, 1, 127, Some(6));
    two(t, 32, 1, 33, Some(6));
    two(t, 32, 1, 223, Some(6));
    let d = build::rule_of(build::header(build::empty(), 1, 0, 2), 1);
    t.read(build::end(build::rule_of(d, 1)));
    t.refused(build::end(build::rule_of(d, 2)), 6, 9);
}

// A book of three variables of which two are choices, no rules and these two facts: the first begins at 19.
fn facts_of(t: &mut Tally, a: u8, b: u8, number: Option<u8>, place: usize) {
    let d = build::costs(build::header(build::empty(), 3, 2, 0), 2);
    t.answered(build::end(build::fact(build::fact(d, a), b)), number, place);
}

// A book of these counts, no rules and one fact, which begins at `place`; no number where it is read.
fn one_fact(
    t: &mut Tally,
    variables: u8,
    choices: u8,
    literal: u8,
    number: Option<u8>,
    place: usize,
) {
    let d = build::costs(
        build::header(build::empty(), variables, choices, 0),
        choices,
    );
    t.answered(build::end(build::fact(d, literal)), number, place);
}

// Facts over the last choice and over the helper after it.
pub fn last_facts(t: &mut Tally) {
    one_fact(t, 48, 32, 32, None, 0);
    one_fact(t, 48, 32, 224, None, 0);
    one_fact(t, 48, 32, 33, Some(6), 229);
    one_fact(t, 48, 32, 223, Some(6), 229);
    one_fact(t, 32, 32, 32, None, 0);
    one_fact(t, 32, 20, 20, None, 0);
    one_fact(t, 32, 20, 21, Some(6), 145);
}

pub fn facts(t: &mut Tally) {
    facts_of(t, 1, 2, None, 0);
    facts_of(t, 255, 254, None, 0);
    facts_of(t, 2, 1, Some(6), 22);
    facts_of(t, 1, 1, Some(6), 22);
    facts_of(t, 1, 255, Some(6), 22);
    facts_of(t, 1, 3, Some(6), 22);
    facts_of(t, 3, 1, Some(6), 19);
    facts_of(t, 253, 1, Some(6), 19);
    facts_of(t, 0, 1, Some(6), 19);
    facts_of(t, 128, 1, Some(6), 19);
    let d = build::costs(build::header(build::empty(), 3, 2, 0), 2);
    t.read(build::end(build::fact(d, 2)));
    t.refused(edits::cut(build::fact(d, 3), 21), 1, 19);
    t.refused(edits::cut(build::fact(d, 1), 20), 1, 19);
    t.refused(build::fact(d, 1), 1, 22);
    t.refused(d, 1, 19);
}

// A book of one choice and one rule, whose record that is due begins at `place`, with another mark there.
fn marked(t: &mut Tally, place: usize, first: u8, second: u8) {
    let d = build::costs(build::header(build::empty(), 1, 1, 1), 1);
    let d = build::end(build::fact(build::rule_of(d, 1), 1));
    let d = edits::changed(d, place, first);
    let d = edits::changed(d, place.wrapping_add(1), second);
    t.refused(d, 2, place);
}

pub fn marks(t: &mut Tally) {
    marked(t, 0, b'H', b'E');
    marked(t, 0, b'C', b'D');
    marked(t, 0, b'C', b'S');
    marked(t, 5, b'H', b'D');
    marked(t, 5, b'R', b'L');
    marked(t, 5, b'E', b'N');
    marked(t, 12, b'C', b'S');
    marked(t, 12, b'F', b'A');
    marked(t, 12, b'E', b'N');
    marked(t, 16, b'R', b'L');
    marked(t, 16, b'H', b'D');
    marked(t, 16, b'F', b'N');
    marked(t, 16, b'E', b'A');
    marked(t, 19, b'R', b'L');
    marked(t, 19, b'e', b'n');
}

pub fn ends(t: &mut Tally) {
    let none = build::header(build::empty(), 0, 0, 0);
    t.refused(none, 1, 5);
    t.refused(build::put(none, b'E'), 1, 5);
    t.refused(build::put(none, b'X'), 1, 5);
    t.refused(build::put(build::end(none), 0), 7, 7);
    t.refused(build::end(build::end(none)), 7, 7);
    let p = counter::order(b'c');
    t.read(p);
    t.refused(edits::cut(p, 56), 1, 55);
    t.refused(build::put(p, b'E'), 7, 57);
    let longest = build::longest(false);
    t.read(longest);
    t.refused(edits::cut(longest, 1734), 1, 1733);
    t.refused(build::put(longest, 0), 7, 1735);
    let windowed = build::longest(true);
    t.read(windowed);
    t.refused(edits::cut(windowed, 3654), 1, 3653);
    t.refused(build::put(windowed, 0), 7, 3655);
}

// Every one of them.
pub fn all(t: &mut Tally) {
    headers(t);
    costs(t);
    rule_counts(t);
    empty_rules(t);
    rule_literals(t);
    facts(t);
    last_facts(t);
    marks(t);
    ends(t);
}
