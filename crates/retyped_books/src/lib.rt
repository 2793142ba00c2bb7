// Books retyped: other bytes, with the same choices, costs and facts; and the fillings that obey the rules are the same when
// restricted to the choices. Besides them small books spread over the variables of the largest.
#![tactic(auto)]

mod helpers;
mod implied;
mod order;
mod rules;
mod split;
pub mod spread;
mod written;

use rules::{Rules, Unfit};
use samples::build::Draft;
use samples::random;
use samples::reckon::Reckoned;

// What is done to the rules, from one to three times: another order; a rule repeated; a rule put in that is a resolvent, one
// for each literal that the rules force, or one that has all literals of another; every rule of this last kind left out;
// helpers under other names, with the opposite meaning, one more, one fewer; a long rule split by a helper that is defined
// in one direction or in both. Or any of these in turn.
#[derive(Clone, Copy, Debug, PartialEq, Eq)]
pub enum Way {
    Order,
    Repeated,
    Implied,
    Forced,
    Longer,
    WithoutLonger,
    Moved,
    Flipped,
    Added,
    LeftOut,
    Split,
    SplitBoth,
    Several,
}

// How many ways there are, the last being several.
pub const WAYS: usize = 13;

const EACH_WAY: [Way; WAYS] = [
    Way::Order,
    Way::Repeated,
    Way::Implied,
    Way::Forced,
    Way::Longer,
    Way::WithoutLonger,
    Way::Moved,
    Way::Flipped,
    Way::Added,
    Way::LeftOut,
    Way::Split,
    Way::SplitBoth,
    Way::Several,
];

// The way that has a number.
pub fn nth(n: usize) -> Way {
    EACH_WAY.get(n).copied().unwrap_or(Way::Several)
}

// A book and the same retyped.
#[derive(Clone, Copy)]
pub struct Pair {
    pub original: Draft,
    pub retyped: Draft,
}

// Rules changed in one way. Several ways are drawn one by one elsewhere: here they change nothing.
fn change(r: &mut Rules, way: Way) -> Result<(), Unfit> {
    match way {
        Way::Order => order::shuffle(r),
        Way::Repeated => order::repeat(r)?,
        Way::Implied => implied::add_implied(r)?,
        Way::Forced => implied::add_forced(r)?,
        Way::Longer => implied::add_longer(r)?,
        Way::WithoutLonger => implied::leave_out_longer(r)?,
        Way::Moved => helpers::move_all(r),
        Way::Flipped => helpers::flip(r),
        Way::Added => helpers::add(r)?,
        Way::LeftOut => helpers::leave_out(r)?,
        Way::Split => split::split(r, false)?,
        Way::SplitBoth => split::split(r, true)?,
        Way::Several => {}
    }
    Ok(())
}

// Rules changed in one way, or in any where it is several. They stay as they were where a book could not have them.
fn once(r: Rules, way: Way) -> Rules {
    let mut from = r;
    rules::draw(&mut from);
    let mut made = from;
    let one_way = if way == Way::Several {
        rules::draw(&mut made);
        nth(random::place_below(from.seed, WAYS - 1))
    } else {
        way
    };
    match change(&mut made, one_way) {
        Ok(()) => made,
        Err(Unfit) => from,
    }
}

// From one to three times, several ways from three to five times.
fn times(r: Rules, way: Way) -> Rules {
    let fewest: u8 = if way == Way::Several { 3 } else { 1 };
    let mut made = r;
    for _ in 0..fewest.wrapping_add(random::byte_below(r.seed, 3)) {
        made = once(made, way);
    }
    made
}

// The rules of a book before they are retyped. Where rules are to be left out, some are put in first.
fn before(r: Rules, way: Way) -> Rules {
    match way {
        Way::WithoutLonger => times(r, Way::Longer),
        _ => r,
    }
}

// A book and the same retyped in one way; what is left open is drawn from a seed.
pub fn typed_twice(b: &Reckoned, way: Way, seed: u64) -> Pair {
    let first = before(rules::of_book(b, seed), way);
    Pair {
        original: written::book(&first, b),
        retyped: written::book(&times(first, way), b),
    }
}

// The rules of another book, with the choices, costs and facts of this one.
pub fn with_rules_of(b: &Reckoned, other: &Reckoned) -> Draft {
    written::book(&rules::of_book(other, 1), b)
}
