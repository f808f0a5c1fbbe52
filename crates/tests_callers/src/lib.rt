//! What callers conclude from the contracts of the lower crates alone.
#![tactic(auto)]

pub mod calls;
pub mod laws;
pub mod replies;
pub mod scripts;
pub mod sessions;
pub mod values;
