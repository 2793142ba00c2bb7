// Where a part is cut in two after a look at it.
ghost use Rattle.std.specs.Prelude.{◌≡◌};
ghost use Rattle.items.specs.Promises.{Rows};
ghost use Rattle.witnesses.specs.Promises.{Pooled};
ghost use Rattle.reasons.specs.Promises.{of_rules, of_goal, Exploring, CutAt, CutUp};

use crate::{Goal, look};
use records::Book;
use witnesses::{Part, Pool, question};

// The search of a part goes on with the sets within a limit that hold an item, and those that do not.
#[derive(Clone, Copy)]
pub struct Cut {
    pub limit: u64,
    pub item: u32,
}

// Where to cut a part within whose limit each candidate holds an item of `witness`: at its cheapest item. With no such item
// there is no candidate.
#[tactic(auto, using(crate::specs::Laws::Splits::cut_at_laws))]
fn cut_at(weights: &[u64; Book::MAX_CHOICES], limit: u64, witness: u64) -> Option<Cut>
    requires { Rows weights.now limit }
    ensures { CutAt limit witness result }
{
    let left = sets::intersection(witness, limit);
    if left == 0 {
        return None;
    }
    Some(Cut {
        limit,
        item: items::cheapest_item(weights, left),
    })
}

// Where to cut a part after a look at it, if it is not done with. Only where no witness is open is `chosen` put to the model
// search: it is a candidate, or the model that is found is a witness, and one more for the pool.
#[tactic(auto, using(crate::specs::Laws::Splits::split_laws))]
pub fn next_cut(goal: Goal, part: Part, pool: &mut Pool, best: &mut u64) -> Option<Cut>
    requires exploring { of_goal Exploring goal part }
    requires pooled { of_rules Pooled goal pool.old }
    ensures { of_goal CutUp goal.entry part best.old pool.new best.new result }
{
    let open = look::look_with_pool(goal, part, pool, *best)?;
    if let Some(witness) = open.witness {
        return cut_at(goal.weights, open.limit, witness);
    }
    let Some(model) = question::ask(goal.formula, goal.aim, part.chosen) else {
        *best = part.key;
        return None;
    };
    pool.store(model);
    cut_at(goal.weights, open.limit, question::denied(goal.aim, model))
}
