// The engine's answers held against the reckoning, and what is counted and reported of them: what the test programs of the search
// share.
#![tactic(auto)]

pub mod asked_log;
pub mod compare;
pub mod logged;
pub mod models_found;
pub mod question;
pub mod report;
pub mod tally;
pub mod walks;
