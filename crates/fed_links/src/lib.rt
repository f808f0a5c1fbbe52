//! Nodes in page lists and waiting lists, linked forward and back.
#![tactic(auto)]

mod links;
mod node;
mod writes;

pub use links::Links;
pub use node::LinkNode;
