// What becomes of the rule of a failed branch: whether it is handed up, and its resolvent with the rule that forced.
ghost use Rattle.std.specs.Prelude.{◌≡◌, ◌<◌};
ghost use Rattle.sets.specs.Sets.{width, union, diff};
ghost use Rattle.propagation.specs.Promises.{HandedUp, Resolvent};

use literals::LiteralSet;

// The variables of a rule that are not set.
pub fn unset_of(rule: LiteralSet, p: LiteralSet) -> u64
    ensures { result ≡ diff (union rule.yes rule.no) (union p.yes p.no) }
{
    sets::difference(rule.variables(), p.variables())
}

// Whether a rule that is a conflict or forces a variable is none of this frame's: it is a conflict, or would have forced the
// same variable before the last try.
#[tactic(auto, using(crate::specs::Laws::Places::hand_laws))]
pub fn handed_up(rule: LiteralSet, p: LiteralSet, base: u64) -> bool
    ensures { HandedUp base rule.yes rule.no p.yes p.no result }
{
    let left = unset_of(rule, p);
    let others = sets::difference(rule.variables(), left);
    left == 0 || sets::subset(others, base)
}

// The resolvent of two rules on variable `v`: their literals but those of `v`.
#[tactic(auto, using(crate::specs::Laws::Resolution::resolvent_said))]
pub fn resolve(rule: LiteralSet, reason: LiteralSet, v: u32) -> LiteralSet
    requires { v < width }
    ensures { Resolvent v rule.yes rule.no reason.yes reason.no result.yes result.no }
{
    let both = rule.union(reason);
    LiteralSet {
        yes: sets::remove(both.yes, v),
        no: sets::remove(both.no, v),
    }
}
