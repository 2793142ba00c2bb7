// DIMACS CNF texts, which the test programs share: good files, files made up, files with something wrong, and files that are
// longer than a draft.
#![tactic(auto)]

pub mod good;
pub mod long;
pub mod made;
pub mod numbers;
pub mod wrong;
