//! Public suffix rules, registrable domains and parties.
#![tactic(auto)]

mod form;
mod insertion;
mod label;
mod node;
mod refusal;
mod rule;
mod stored_label;
mod suffixes;
mod text;
mod walk;

pub use node::SuffixNode;
pub use refusal::SuffixRefusal;
pub use suffixes::Suffixes;
