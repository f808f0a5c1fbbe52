//! The state of a session as a script: lines that bring back what stands.
#![tactic(auto)]

mod again;
mod cookie;
pub mod laws;
mod object;
mod reading;
mod state;
mod walk;

pub use state::{Saved, save, save_view};
