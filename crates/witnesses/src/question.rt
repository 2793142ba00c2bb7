// A question of the model search: whether reasons force the goal.
ghost use Rattle.std.specs.Prelude.{◌≡◌, ◌<◌};
ghost use Rattle.sets.specs.Sets.{width};
ghost use Rattle.propagation.specs.Promises.{yes_masks, no_masks};
ghost use Rattle.sat.specs.Promises.{Searched};
ghost use Rattle.witnesses.specs.Promises.{aim_on, aim_off, Against, denied_by, makes_true, Aimed};

use crate::Aim;
use literals::LiteralSet;
use sat::Formula;

// The reasons over the variables of a set, and the opposite of the goal.
fn against(aim: Aim, set: u64) -> LiteralSet
    requires { aim.goal < width }
    ensures { Against aim set result.yes result.no }
{
    let reasons = LiteralSet {
        yes: sets::intersection(set, aim.known.yes),
        no: sets::intersection(set, aim.known.no),
    };
    sat::assign(reasons, aim.goal, !aim.says)
}

// The items that a filling makes false.
pub fn denied(aim: Aim, filling: u64) -> u64
    ensures { result ≡ denied_by aim.known.yes aim.known.no filling }
{
    sets::union(
        sets::difference(aim.known.yes, filling),
        sets::intersection(aim.known.no, filling),
    )
}

// A model of the rules, of the reasons in a set and of the goal's opposite. Known values are preferred, so that it makes few
// items false.
#[tactic(auto, using(crate::specs::Laws::Questions::ask_laws))]
pub fn ask(f: Formula, aim: Aim, set: u64) -> Option<u64>
    requires { Aimed f.variables (yes_masks f.rules.now) (no_masks f.rules.now) aim }
    ensures { Searched f.entry.variables (yes_masks f.entry.rules.now) (no_masks f.entry.rules.now) (aim_on aim set) (aim_off aim set) result }
{
    let question = against(aim, set);
    sat::search(f, question, aim.known.yes)
}

// Whether a filling makes the goal true.
pub fn makes_true(aim: Aim, filling: u64) -> bool
    requires { aim.goal < width }
    ensures { result ≡ makes_true aim filling }
{
    sets::has(filling, aim.goal) == aim.says
}
