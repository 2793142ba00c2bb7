// For one goal: the question whether a set of known literals forces it, and the bound of a part of the search from the models
// found. The known literals are costed items: item v is the known literal over variable v + 1, and weighs what it adds to a key.
// A model of the rules that makes the goal false is a witness: each set that forces the goal holds an item that the model makes
// false. Such models are kept in a pool.
#![tactic(auto)]

pub mod bound;
pub mod pool;
pub mod question;

use literals::LiteralSet;
pub use pool::Pool;

// A goal: its variable and what it says of it, the known literals, and the key of the goal with no reasons.
#[derive(Clone, Copy)]
pub struct Aim {
    pub goal: u32,
    pub says: bool,
    pub known: LiteralSet,
    pub key: u64,
}

// The sets of items that a part of the search looks at: they hold `chosen` and lie within `limit`. The key is that of
// `chosen`.
#[derive(Clone, Copy)]
pub struct Part {
    pub chosen: u64,
    pub limit: u64,
    pub key: u64,
}
