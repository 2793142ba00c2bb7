// Models, consequences, steps and logs reckoned from their meanings alone, over all fillings of a book; and a run of the
// algorithm that finds the consequence.
#![tactic(auto)]

pub mod algorithm2;
pub mod fillings;
pub mod logs;
pub mod restricted;
pub mod steps;
