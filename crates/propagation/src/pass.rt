// A pass over the rules under a partial filling: what each rule tells, and the variable to try where none forces one.
ghost use Rattle.std.specs.Prelude.{◌≡◌, ◌<◌, ◌≤◌, length};
ghost use Rattle.propagation.specs.Promises.{yes_masks, no_masks, Looked, ToTry, Chosen, PassedRange, PassedAll};

use literals::LiteralSet;

// What a rule tells under a partial filling: that each of its literals is false; that all but one are, of a variable not
// set; or neither, with its variables that are not set, none where a literal is true.
#[derive(Clone, Copy, Debug, PartialEq, Eq)]
enum Look {
    Conflict,
    Unit,
    Quiet(u64),
}

// What a pass over the rules tells: a rule that is false; one that forces a variable, and the place after it; or neither,
// with the variables not set of the rules that have no true literal.
#[derive(Clone, Copy, Debug, PartialEq, Eq)]
pub enum Pass {
    Conflict(LiteralSet),
    Unit { rule: LiteralSet, next: usize },
    Quiet(u64),
}

// What one rule tells. Most rules have a true literal, or two variables or more that can still make one true, and one
// test finds those.
fn look_at(rule: LiteralSet, p: LiteralSet) -> Look
    ensures { Looked rule.yes rule.no p.yes p.no result }
{
    let met = (p.yes & rule.yes) | (p.no & rule.no);
    let left = sets::difference(rule.yes, p.no) | sets::difference(rule.no, p.yes);
    let several = left & left.wrapping_sub(1);
    let quiet = met | several;
    if quiet != 0 {
        return Look::Quiet(if met == 0 { left } else { 0 });
    }
    if left == 0 {
        return Look::Conflict;
    }
    let both = rule.yes & rule.no;
    if left != sets::single(sets::lowest(left)) || left & both != 0 {
        return Look::Quiet(left);
    }
    Look::Unit
}

// The rules from `start` to before `stop`, where those gone over before left the variables `pending`.
#[tactic(auto, using(crate::specs::Laws::Scans::range_laws))]
fn scan_range(rules: &[LiteralSet], p: LiteralSet, start: usize, stop: usize, pending: u64) -> Pass
    requires { stop ≤ length rules.now }
    ensures { PassedRange start stop (yes_masks rules.now) (no_masks rules.now) p.yes p.no pending result }
{
    let mut all = pending;
    for i in start..stop {
        let rule = rules[i];
        match look_at(rule, p) {
            Look::Conflict => return Pass::Conflict(rule),
            Look::Unit => return Pass::Unit { rule, next: i + 1 },
            Look::Quiet(left) => all = sets::union(all, left),
        }
    }
    Pass::Quiet(all)
}

// Where a pass begins: at the place hinted at, or at the first rule.
fn start_at(from: usize, rules: usize) -> usize
    ensures { result ≤ rules }
{
    if from < rules { from } else { 0 }
}

// One pass over all rules, from a place on and round to it again.
#[tactic(auto, using(crate::specs::Laws::Scans::scan_laws))]
pub fn scan(rules: &[LiteralSet], p: LiteralSet, from: usize) -> Pass
    ensures { PassedAll (yes_masks rules.now) (no_masks rules.now) p.yes p.no result }
{
    let start = start_at(from, rules.len());
    match scan_range(rules, p, start, rules.len(), 0) {
        Pass::Quiet(pending) => scan_range(rules, p, 0, start, pending),
        found => found,
    }
}

// The variables not set of the shortest rule that has no true literal, among variables to try.
#[tactic(auto, using(crate::specs::Laws::Scans::short_laws))]
fn shortest(rules: &[LiteralSet], p: LiteralSet, pending: u64) -> u64
    requires { ToTry (yes_masks rules.now) (no_masks rules.now) p.yes p.no pending }
    ensures { ToTry (yes_masks rules.now) (no_masks rules.now) p.yes p.no result }
{
    let mut pick = pending;
    let mut least = sets::count(pending);
    for &rule in rules {
        if let Look::Quiet(left) = look_at(rule, p) {
            let size = sets::count(left);
            if left != 0 && size < least {
                pick = left;
                least = size;
            }
        }
    }
    pick
}

// The variable to try: the lowest of the shortest rule that has no true literal.
pub fn choose(rules: &[LiteralSet], p: LiteralSet, pending: u64) -> u32
    requires { ToTry (yes_masks rules.now) (no_masks rules.now) p.yes p.no pending }
    ensures { Chosen (yes_masks rules.now) (no_masks rules.now) p.yes p.no result }
{
    sets::lowest(shortest(rules, p, pending))
}
