// Sample books, which the test programs share: built as bytes, made up, edited, and reckoned by a pass of their own.
#![tactic(auto)]

pub mod build;
pub mod calendar;
pub mod counter;
pub mod edits;
mod fields;
pub mod limits;
mod machine;
pub mod order;
pub mod random;
pub mod reckon;
pub mod windows;
