//! Replies of the assertion and the disconnect endpoints, and the CORS check that they have to pass.
#![tactic(auto)]

mod cors;
mod read;
mod said;
mod step;

pub use cors::cors_passes;
pub use read::{read_assertion, read_assertion_with, read_disconnect, read_disconnect_with};
pub use step::TokenStep;
