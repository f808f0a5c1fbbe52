//! Entries in order of entering.
#![tactic(auto)]

mod entries;

pub use entries::{Entries, Slot};
