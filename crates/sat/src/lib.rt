// The search for a model: a filling of the variables that extends a partial filling and obeys every rule.
// A branch that fails hands back a rule that every filling of the rules obeys, and what it names says how far up the
// failure reaches: conflict analysis to the first unique implication point, with the calls as its only memory.
#![tactic(auto)]

ghost use Rattle.propagation.specs.Promises.{yes_masks, no_masks};
ghost use Rattle.sat.specs.Promises.{Posed, PartialOf, Completes, Following, Forcing, Trying, Followed, Searched};

use literals::LiteralSet;
use propagation::pass::Pass;
pub use propagation::{Formula, assign};
use propagation::{pass, resolution};

// What only steers the search, and no promise depends on: the values tried first, and the rule at which the next pass
// begins.
#[derive(Clone, Copy)]
struct Hints {
    prefer: u64,
    from: usize,
}

// A filling that extends the partial one: the other variables have their preferred values.
fn complete(variables: u32, p: LiteralSet, prefer: u64) -> u64
    requires { PartialOf variables p.yes p.no }
    ensures { Completes variables p.yes p.no result }
{
    let free = sets::complement(variables, p.variables());
    sets::union(p.yes, sets::intersection(free, prefer))
}

// A branch in which the variable is set that `reason` forces: a model, or a rule that every filling of the rules obeys. A
// rule that does not reach above this frame names the variable, and is resolved with `reason` on it.
#[cycle(follow_force_try_variable)]
fn force(
    f: Formula,
    p: LiteralSet,
    base: u64,
    reason: LiteralSet,
    hints: Hints,
) -> Result<u64, LiteralSet>
    requires { Forcing f.variables (yes_masks f.rules.now) (no_masks f.rules.now) p.yes p.no base reason.yes reason.no }
    ensures { Followed f.entry.variables (yes_masks f.entry.rules.now) (no_masks f.entry.rules.now) p.yes p.no base result }
{
    let v = sets::lowest(resolution::unset_of(reason, p));
    let q = assign(p, v, sets::has(reason.yes, v));
    match follow(f, q, base, hints) {
        Ok(m) => Ok(m),
        Err(rule) => {
            if resolution::handed_up(rule, p, base) {
                return Err(rule);
            }
            Err(resolution::resolve(rule, reason, v))
        }
    }
}

// A branch from a partial filling on; `base` is what was set before the last try. What the rules force is set until they
// force nothing more; then a variable is tried, unless each rule has a true literal.
#[cycle(follow_force_try_variable)]
#[tactic(auto, using(crate::specs::Laws::Searches::follow_laws))]
fn follow(f: Formula, p: LiteralSet, base: u64, hints: Hints) -> Result<u64, LiteralSet>
    requires { Following f.variables (yes_masks f.rules.now) (no_masks f.rules.now) p.yes p.no base }
    ensures { Followed f.entry.variables (yes_masks f.entry.rules.now) (no_masks f.entry.rules.now) p.yes p.no base result }
{
    match pass::scan(f.rules, p, hints.from) {
        Pass::Conflict(rule) => Err(rule),
        Pass::Unit { rule, next } => force(
            f,
            p,
            base,
            rule,
            Hints {
                from: next,
                ..hints
            },
        ),
        Pass::Quiet(pending) => {
            if pending == 0 {
                return Ok(complete(f.variables, p, hints.prefer));
            }
            try_variable(f, p, base, pending, hints)
        }
    }
}

// A branch in which a variable of `pending` is tried, its preferred value first. Where that fails with a rule that does not
// reach above this frame, the rule forces a variable here: the other value of the one tried, or another variable.
#[cycle(follow_force_try_variable)]
fn try_variable(
    f: Formula,
    p: LiteralSet,
    base: u64,
    pending: u64,
    hints: Hints,
) -> Result<u64, LiteralSet>
    requires { Trying f.variables (yes_masks f.rules.now) (no_masks f.rules.now) p.yes p.no base pending }
    ensures { Followed f.entry.variables (yes_masks f.entry.rules.now) (no_masks f.entry.rules.now) p.yes p.no base result }
{
    let v = pass::choose(f.rules, p, pending);
    let q = assign(p, v, sets::has(hints.prefer, v));
    let set = p.variables();
    match follow(f, q, set, hints) {
        Ok(m) => Ok(m),
        Err(rule) => {
            if resolution::handed_up(rule, p, base) {
                return Err(rule);
            }
            force(f, p, base, rule, Hints { from: 0, ..hints })
        }
    }
}

// A model that extends `p` and obeys every rule, or that there is none. A rule that fails at the top forces one more
// variable, or shows that there is no model.
#[tactic(auto, using(crate::specs::Laws::Searches::search_laws))]
pub fn search(f: Formula, p: LiteralSet, prefer: u64) -> Option<u64>
    requires { Posed f.variables (yes_masks f.rules.now) (no_masks f.rules.now) p.yes p.no }
    ensures { Searched f.entry.variables (yes_masks f.entry.rules.now) (no_masks f.entry.rules.now) p.yes p.no result }
{
    let mut q = p;
    let hints = Hints { prefer, from: 0 };
    loop {
        let base = q.variables();
        match follow(f, q, base, hints) {
            Ok(m) => return Some(m),
            Err(rule) => {
                let left = resolution::unset_of(rule, q);
                if left == 0 {
                    return None;
                }
                let v = sets::lowest(left);
                q = assign(q, v, sets::has(rule.yes, v));
            }
        }
    }
}
