// Helpers that are named otherwise, say the opposite, come in or go out.
use crate::rules::{Rules, Unfit};
use crate::{implied, rules};
use brute_force::fillings;
use brute_force::fillings::Literals;
use samples::random;

// Two variables changed for one another, then the signs of the variables of a mask.
#[derive(Clone, Copy)]
struct Change {
    a: usize,
    b: usize,
    flipped: u64,
}

// A mask with two of its bits changed for one another.
fn exchanged(mask: u64, change: Change) -> u64 {
    if fillings::has(mask, change.a) == fillings::has(mask, change.b) {
        mask
    } else {
        mask ^ (fillings::power(change.a) | fillings::power(change.b))
    }
}

fn renamed(rule: Literals, change: Change) -> Literals {
    let named = Literals {
        yes: exchanged(rule.yes, change),
        no: exchanged(rule.no, change),
    };
    let flipped = fillings::within(fillings::opposite(named), change.flipped);
    fillings::joined(fillings::within(named, !change.flipped), flipped)
}

// Every rule renamed.
fn rename_all(r: &mut Rules, change: Change) {
    for rule in r.as_mut_slice() {
        *rule = renamed(*rule, change);
    }
}

// One of so many variables, but none of the first `first`, which are not all, drawn from a state; counted from 0.
fn any_from(seed: u64, variables: usize, first: usize) -> usize {
    first.wrapping_add(random::place_below(seed, variables.wrapping_sub(first)))
}

// The helpers under other names: each takes the name of one of those from it on.
pub fn move_all(r: &mut Rules) {
    for h in r.choices..r.variables {
        rules::draw(r);
        let change = Change {
            a: h,
            b: any_from(r.seed, r.variables, h),
            flipped: 0,
        };
        rename_all(r, change);
    }
}

// Some helpers say the opposite of what they said.
pub fn flip(r: &mut Rules) {
    let helpers = fillings::first(r.variables) & !fillings::first(r.choices);
    let change = Change {
        a: 0,
        b: 0,
        flipped: r.seed & helpers,
    };
    rename_all(r, change);
}

// A helper more, which is true exactly where two literals are.
fn add_gate(r: &mut Rules, a: Literals, b: Literals) -> Result<(), Unfit> {
    let out = rules::literal(r.variables, true);
    rules::add_variable(r)?;
    rules::add_both(r, a, fillings::opposite(out))?;
    rules::add_both(r, b, fillings::opposite(out))?;
    rules::add_both(r, fillings::opposite(fillings::joined(a, b)), out)
}

// A helper more: one that no rule has, or one that is true exactly where two literals are, over any two variables.
pub fn add(r: &mut Rules) -> Result<(), Unfit> {
    let is_alone = random::byte(r.seed) < 96;
    rules::draw(r);
    let first = r.seed;
    let v = random::place_below(first, r.variables);
    let next = v.wrapping_add(1);
    if is_alone || r.variables <= next {
        return rules::add_variable(r);
    }
    rules::draw(r);
    let second = r.seed;
    let low = rules::literal(v, first % 2 == 0);
    let high = rules::literal(any_from(second, r.variables, next), second % 2 == 0);
    add_gate(r, low, high)
}

// The resolvents of a rule and all others over one variable, tautologies left out.
fn add_resolvents(
    made: &mut Rules,
    others: &[Literals],
    rule: Literals,
    bit: u64,
) -> Result<(), Unfit> {
    for &other in others {
        if implied::clash(rule, other) == bit {
            rules::add(made, implied::resolvent(rule, other))?;
        }
    }
    Ok(())
}

// All rules with a variable, which is the last, resolved out: a rule without the variable stays; one that has its yes gives
// way to its resolvents; one that has its no goes.
fn resolve(r: &mut Rules, bit: u64) -> Result<(), Unfit> {
    let mut made = rules::none(r);
    for &rule in r.as_slice() {
        if rule.yes & bit != 0 {
            add_resolvents(&mut made, r.as_slice(), rule, bit)?;
        } else if rule.no & bit == 0 {
            rules::add(&mut made, rule)?;
        }
    }
    *r = made;
    Ok(())
}

// A helper left out: the last one takes its name, and it is resolved out as the last.
pub fn leave_out(r: &mut Rules) -> Result<(), Unfit> {
    if r.variables == r.choices {
        return Ok(());
    }
    let last = r.variables.wrapping_sub(1);
    let change = Change {
        a: any_from(r.seed, r.variables, r.choices),
        b: last,
        flipped: 0,
    };
    rename_all(r, change);
    resolve(r, fillings::power(last))?;
    r.variables = last;
    Ok(())
}
