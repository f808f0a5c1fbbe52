//! The states of a disconnect call, from its first requests to its end (FedCM, "Browser API").
#![tactic(auto)]

mod begun;
mod effects;
mod pending;
mod reading;
mod sending;
mod state;

pub use state::DState;
