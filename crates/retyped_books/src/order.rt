// Rules in another order, and rules that stand twice.
use crate::rules;
use crate::rules::{Rules, Unfit};
use brute_force::fillings::Literals;
use samples::random;

// The rules at two places changed for one another.
fn exchange(r: &mut Rules, i: usize, j: usize) {
    let list = r.as_mut_slice();
    if i < list.len() && j < list.len() {
        list.swap(i, j);
    }
}

// All rules in another order: at each place one of those that stand from there on. The places are counted, since two of them
// are changed at once, which no iterator over the rules lends.
pub fn shuffle(r: &mut Rules) {
    let count = r.len();
    for i in 0..count {
        rules::draw(r);
        let more = random::place_below(r.seed, count - i);
        exchange(r, i, i.wrapping_add(more));
    }
}

// One rule more, at any place: the one that stood there goes to the end.
pub fn put_in(r: &mut Rules, rule: Literals) -> Result<(), Unfit> {
    let last = r.len();
    rules::add(r, rule)?;
    rules::draw(r);
    let place = random::place_below(r.seed, r.len());
    exchange(r, last, place);
    Ok(())
}

// A rule that is there once more. Without a rule there is none.
pub fn repeat(r: &mut Rules) -> Result<(), Unfit> {
    if r.len() == 0 {
        return Ok(());
    }
    let rule = rules::any(r);
    put_in(r, rule)
}
