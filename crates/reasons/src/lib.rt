// The search for one goal: the least key of the sets of known literals that force it, by the witnesses that a pool of models
// gives.
#![tactic(auto)]

ghost use Rattle.std.specs.Prelude.{◌≡◌};
ghost use Rattle.witnesses.specs.Promises.{Pooled};
ghost use Rattle.reasons.specs.Promises.{of_rules, of_goal, Exploring, ItemFits, with_item, Explored};

use records::Book;

mod look;
mod split;

use sat::Formula;
use split::Cut;
pub use witnesses::{Aim, Part, Pool};

// What the search for one goal does not change: the rules, the weights of the known literals, and the goal.
#[derive(Clone, Copy)]
pub struct Goal<'a> {
    pub formula: Formula<'a>,
    pub weights: &'a [u64; Book::MAX_CHOICES],
    pub aim: Aim,
}

// The part of the sets with one item more.
fn with_item(weights: &[u64; Book::MAX_CHOICES], part: Part, cut: Cut) -> Part
    requires { ItemFits weights.now part cut.item }
    ensures { result ≡ with_item weights.now part cut.limit cut.item }
{
    let at = cut.item as usize;
    Part {
        chosen: sets::insert(part.chosen, cut.item),
        limit: cut.limit,
        key: part.key + weights[at],
    }
}

// The least of a key and the keys of the candidates in a part: at each cut first those with the item, then those without it.
pub fn explore(goal: Goal, part: Part, pool: &mut Pool, best: u64) -> u64
    requires exploring { of_goal Exploring goal part }
    requires pooled { of_rules Pooled goal pool.old }
    ensures { of_goal Explored goal.entry part best pool.new result }
{
    let mut rest = part;
    let mut least = best;
    while let Some(cut) = split::next_cut(goal, rest, pool, &mut least) {
        let with = with_item(goal.weights, rest, cut);
        least = explore(goal, with, pool, least);
        rest.limit = sets::remove(cut.limit, cut.item);
    }
    least
}
