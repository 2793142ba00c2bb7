// Rules and partial fillings, what a pass over the rules finds under a partial filling (unit propagation), and resolution.
// A rule is a set of literals, of which one must be true. A partial filling is the set of its true literals: the variables of
// `yes` are yes, those of `no` are no, and the others are not set.
#![tactic(auto)]

ghost use Rattle.std.specs.Prelude.{◌≡◌, ◌<◌};
ghost use Rattle.sets.specs.Sets.{width};
ghost use Rattle.propagation.specs.Promises.{Assigned};

use literals::LiteralSet;

pub mod pass;
pub mod resolution;

// Rules over the variables below a number.
#[derive(Clone, Copy)]
pub struct Formula<'a> {
    pub variables: u32,
    pub rules: &'a [LiteralSet],
}

// The partial filling with variable `v` set.
#[tactic(auto, using(crate::specs::Laws::Assigns::assign_laws))]
pub fn assign(p: LiteralSet, v: u32, value: bool) -> LiteralSet
    requires { v < width }
    ensures { Assigned p.yes p.no v value result.yes result.no }
{
    if value {
        LiteralSet {
            yes: sets::insert(p.yes, v),
            ..p
        }
    } else {
        LiteralSet {
            no: sets::insert(p.no, v),
            ..p
        }
    }
}
