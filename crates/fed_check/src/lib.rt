//! What is found in a script: the lines that are bad, and the members that are read over.
#![tactic(auto)]

mod checker;
mod finding;
pub mod laws;
mod stage;
mod table;
mod unread;

pub use checker::Checker;
pub use finding::Finding;
