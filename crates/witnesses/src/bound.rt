// The bound of a part, from the pool alone: what each stored model tells, and a lower bound on the keys.
ghost use Rattle.std.specs.Prelude.{◌<◌};
ghost use Rattle.sets.specs.Sets.{width};
ghost use Rattle.witnesses.specs.Promises.{Shown, Noted, Roomy, Charged, Parted, Bounded};

use crate::{Aim, Part, question};

// A lower bound on the keys of a part's candidates, and an open witness, where there is one. No promise depends on `spent`,
// the items whose weight the bound has used up.
#[derive(Clone, Copy)]
pub struct Bounds {
    pub bound: u64,
    pub spent: u64,
    pub witness: Option<u64>,
}

// What a stored model tells of a part: nothing, or the items within its limit of which each candidate holds one. A model that
// makes the goal true tells nothing, and one that makes an item of `chosen` false nothing new: each set of the part holds that
// item.
#[tactic(auto, using(crate::specs::Laws::Bounds::shown_laws))]
fn open_witness(aim: Aim, part: Part, model: u64) -> Option<u64>
    requires { aim.goal < width }
    ensures { Shown aim part model result }
{
    if question::makes_true(aim, model) {
        return None;
    }
    let items = question::denied(aim, model);
    if sets::intersection(items, part.chosen) != 0 {
        return None;
    }
    Some(sets::intersection(items, part.limit))
}

// The same bound with the smaller of its witness and another.
#[tactic(auto, using(crate::specs::Laws::Bounds::noted_laws))]
fn noted(b: Bounds, among: u64) -> Bounds
    ensures { Noted b among result }
{
    match b.witness {
        Some(witness) if sets::count(witness) <= sets::count(among) => b,
        _ => Bounds {
            witness: Some(among),
            ..b
        },
    }
}

// Raises the bound by what each item of a witness can still give. One that holds an item used up gives nothing.
#[tactic(auto, using(crate::specs::Laws::Bounds::charge_laws))]
fn charge(left: &mut [u64], b: Bounds, among: u64) -> Bounds
    requires { Roomy left.old b among }
    ensures { Charged left.old b among left.new result }
{
    if sets::intersection(among, b.spent) != 0 {
        return b;
    }
    let taken = items::charge(left, among);
    Bounds {
        bound: b.bound + taken.amount,
        spent: sets::union(b.spent, taken.spent),
        ..b
    }
}

// The residual bound: it starts at the key of `chosen`, and each open witness among the models adds the least weight left
// among its items, which is taken off each of them. A witness with no item within the limit shows that there is no candidate,
// and any bound will do.
#[tactic(auto, using(crate::specs::Laws::Bounds::charging_laws))]
pub fn bound_part(models: &[u64], left: &mut [u64], aim: Aim, part: Part, best: u64) -> Bounds
    requires { Parted left.old aim part }
    ensures { Bounded left.old aim part models.now left.new result }
{
    let mut b = Bounds {
        bound: part.key,
        spent: 0,
        witness: None,
    };
    for &model in models {
        if best <= b.bound {
            return b;
        }
        let Some(among) = open_witness(aim, part, model) else {
            continue;
        };
        if among == 0 {
            return Bounds { bound: best, ..b };
        }
        b = charge(left, noted(b, among), among);
    }
    b
}
