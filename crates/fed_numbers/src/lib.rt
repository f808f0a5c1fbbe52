//! Numbers in order of entering.
#![tactic(auto)]

mod numbers;

pub use numbers::Numbers;
