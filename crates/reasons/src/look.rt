// A look at a part: what its bound leaves of it, and now and then a question that is asked for the pool alone.
ghost use Rattle.witnesses.specs.Promises.{Aimed, Pooled, Meeting, Parted, Refutes};
ghost use Rattle.reasons.specs.Promises.{of_rules, of_goal, Seen, Exploring, LookedAt};

use crate::Goal;
use witnesses::{Part, Pool, bound, question};

// What a look leaves of a part: the limit within which its candidates with a key below the least so far lie, and an open
// witness, where there is one. No promise depends on `free`, the items that the bound has used up and those chosen.
#[derive(Clone, Copy)]
pub struct OpenPart {
    pub limit: u64,
    pub witness: Option<u64>,
    pub free: u64,
}

// A look at a part: its bound, and the items that no candidate with a key below the least so far holds, taken off the limit.
// Nothing is left where no candidate has a key below it.
#[tactic(auto, using(crate::specs::Laws::Looks::look_laws))]
fn look_at(goal: Goal, models: &[u64], part: Part, best: u64) -> Option<OpenPart>
    requires { Parted goal.weights.now goal.aim part }
    ensures { Seen (Meeting goal.entry.aim models.now) goal.entry.weights.now goal.entry.aim part best result }
{
    let mut left = *goal.weights;
    let b = bound::bound_part(models, &mut left, goal.aim, part, best);
    if best <= b.bound {
        return None;
    }
    let rest = sets::difference(part.limit, part.chosen);
    let kept = items::lighter(&left, rest, best - b.bound);
    Some(OpenPart {
        limit: sets::union(part.chosen, kept),
        witness: b.witness,
        free: sets::union(part.chosen, b.spent),
    })
}

// One more model for the pool, if there is one that makes the free items true: it says nothing of candidates, but its witness
// raises the bound.
#[tactic(auto, using(crate::specs::Laws::Looks::refill_stored))]
fn refill(goal: Goal, pool: &mut Pool, free: u64)
    requires aimed { of_rules Aimed goal goal.aim }
    requires pooled { of_rules Pooled goal pool.old }
    ensures { of_rules Pooled goal.entry pool.new }
{
    if let Some(model) = question::ask(goal.formula, goal.aim, free) {
        pool.store(model);
    }
}

// A look at a part, with one model more in the pool where that is due.
#[tactic(auto, using(crate::specs::Laws::Splits::looking_laws))]
pub fn look_with_pool(goal: Goal, part: Part, pool: &mut Pool, best: u64) -> Option<OpenPart>
    requires exploring { of_goal Exploring goal part }
    requires pooled { of_rules Pooled goal pool.old }
    ensures { of_goal LookedAt goal.entry part best pool.new result }
{
    pool.count_look();
    let open = look_at(goal, pool.models(), part, best)?;
    if !pool.question_due() {
        return Some(open);
    }
    refill(goal, pool, open.free);
    look_at(goal, pool.models(), part, best)
}
