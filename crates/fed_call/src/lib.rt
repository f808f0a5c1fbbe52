//! The states of a get call, from its first requests to its end (FedCM, "Browser API").
#![tactic(auto)]

mod accounts;
mod asserting;
mod begun;
mod choosing;
mod configs;
mod dialogs;
mod effects;
mod gathering;
mod listing;
mod offers;
mod opening;
mod pending;
mod progress;
mod prompting;
mod reading;
mod settling;
mod several;
mod stages;
mod start;
mod state;
mod window;

/// How far a call has come.
pub use fed_origin::Stage;
pub use progress::Progress;
pub use state::CallState;
