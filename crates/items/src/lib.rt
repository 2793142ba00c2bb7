// Sets of costed items: element v of a mask is item v, and `weights[v]` is what it weighs. What the search for a cheapest set
// does with weights, whatever the items are.
#![tactic(auto)]

ghost use Rattle.std.specs.Prelude.{◌<◌};
ghost use Rattle.items.specs.Promises.{Rows, AtMostEach, Enough, TakenOff, Lighter, CheapestItem};

// An item of a set that is not empty: the first of least weight.
#[tactic(auto, using(crate::specs::Laws::Weighing::item_laws))]
pub fn cheapest_item(weights: &[u64], set: u64) -> u32
    requires rows { Rows weights.now set }
    requires set_nonzero { 0 < set }
    ensures { CheapestItem weights.now set result }
{
    let mut item = sets::lowest(set);
    for v in sets::members(set) {
        if weights[v as usize] < weights[item as usize] {
            item = v;
        }
    }
    item
}

// A number that no weight of the items of a set is below. It is the least of them.
#[tactic(auto, using(crate::specs::Laws::Weighing::least_laws))]
pub fn least_weight(weights: &[u64], set: u64) -> u64
    requires { Rows weights.now set }
    ensures { AtMostEach weights.now set result }
{
    if set == 0 {
        return !0u64;
    }
    weights[cheapest_item(weights, set) as usize]
}

// Takes an amount off the weight of each item of a set, and answers those that then weigh nothing.
#[tactic(auto, using(crate::specs::Laws::Weighing::take_laws))]
fn take_off(left: &mut [u64], set: u64, amount: u64) -> u64
    requires { Enough left.old set amount }
    ensures { TakenOff left.old set amount left.new }
{
    let mut spent = 0;
    for v in sets::members(set) {
        let at = v as usize;
        let less = left[at] - amount;
        left[at] = less;
        if less == 0 {
            spent = sets::insert(spent, v);
        }
    }
    spent
}

// What was taken off, and the items that then weigh nothing.
#[derive(Clone, Copy, Debug, PartialEq, Eq)]
pub struct Taken {
    pub amount: u64,
    pub spent: u64,
}

// Takes the least weight among the items of a set off each of them.
pub fn charge(left: &mut [u64], set: u64) -> Taken
    requires { Rows left.old set }
    ensures { TakenOff left.old set result.amount left.new }
{
    let amount = least_weight(left, set);
    let spent = take_off(left, set, amount);
    Taken { amount, spent }
}

// The items of a set that weigh less than a number.
#[tactic(auto, using(crate::specs::Laws::Weighing::lighter_laws))]
pub fn lighter(weights: &[u64], set: u64, than: u64) -> u64
    requires { Rows weights.now set }
    ensures { Lighter weights.now set than result }
{
    let mut kept = set;
    for v in sets::members(set) {
        if than <= weights[v as usize] {
            kept = sets::remove(kept, v);
        }
    }
    kept
}
