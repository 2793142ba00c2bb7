// A DIMACS CNF text reckoned: its form by a pass over the bytes, the book that is made of it, and which fillings are models
// of the text and of a book.
#![tactic(auto)]

pub mod book_bytes;
pub mod clause;
mod machine;
pub mod models;
pub mod reckon;
mod steps;
