// The first model: of the fillings that extend a partial filling and obey every rule, the first one in the order with variable
// 1 weightiest and no before yes. The search for a model branches as it likes, so that any model may come first; then it is
// asked variable by variable, from variable 1 on, for one that says no.
#![tactic(auto)]

ghost use Rattle.std.specs.Prelude.{◌+◌, ◌≤◌};
ghost use Rattle.sets.specs.Sets.{width};
ghost use Rattle.propagation.specs.Promises.{yes_masks, no_masks};
ghost use Rattle.sat.specs.Meaning.{Model};
ghost use Rattle.sat.specs.Promises.{Posed};
ghost use Rattle.first_model.specs.Meaning.{First};
ghost use Rattle.first_model.specs.Promises.{Fixed, Lowering, FirstUpTo, FirstSearched};

use literals::LiteralSet;
use sat::{Formula, assign};

// The partial filling with the values that a filling gives to the variables before `v`.
#[tactic(auto, using(crate::proofs::Laws::Searches::is_fixed))]
fn fixed(p: LiteralSet, m: u64, v: u32) -> LiteralSet
    requires { v ≤ width }
    ensures { Fixed p.yes p.no m v result.yes result.no }
{
    let before = sets::full(v);
    p.union(LiteralSet {
        yes: sets::intersection(m, before),
        no: sets::difference(before, m),
    })
}

// A model that is the first as far as the variables up to `v` go, from one that is as far as those before `v` go. That one is
// kept where it says no of `v` or `v` is given as yes; otherwise one is asked for that agrees with it before `v` and says no.
#[tactic(auto, using(crate::proofs::Laws::Searches::stays))]
fn lowered(f: Formula, p: LiteralSet, m: u64, v: u32) -> u64
    requires { Lowering f.variables (yes_masks f.rules.now) (no_masks f.rules.now) p.yes p.no m v }
    ensures { FirstUpTo f.entry.variables (yes_masks f.entry.rules.now) (no_masks f.entry.rules.now) p.yes p.no (v + 1) result }
{
    if !sets::has(sets::difference(m, p.yes), v) {
        return m;
    }
    let q = assign(fixed(p, m, v), v, false);
    sat::search(f, q, 0).unwrap_or(m)
}

// The first model, from any model: made the first as far as one variable goes after the other.
#[tactic(auto, using(crate::proofs::Laws::Searches::lowest_laws))]
fn lowest(f: Formula, p: LiteralSet, m: u64) -> u64
    requires posed { Posed f.variables (yes_masks f.rules.now) (no_masks f.rules.now) p.yes p.no }
    requires model { Model f.variables (yes_masks f.rules.now) (no_masks f.rules.now) p.yes p.no m }
    ensures { First (Model f.entry.variables (yes_masks f.entry.rules.now) (no_masks f.entry.rules.now) p.yes p.no) result }
{
    let mut first = m;
    for v in 0..f.variables {
        first = lowered(f, p, first, v);
    }
    first
}

// The first model that extends `p` and obeys every rule, or that there is none.
pub fn search(f: Formula, p: LiteralSet) -> Option<u64>
    requires { Posed f.variables (yes_masks f.rules.now) (no_masks f.rules.now) p.yes p.no }
    ensures { FirstSearched f.entry.variables (yes_masks f.entry.rules.now) (no_masks f.entry.rules.now) p.yes p.no result }
{
    let m = sat::search(f, p, 0)?;
    Some(lowest(f, p, m))
}
