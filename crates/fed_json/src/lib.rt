//! JSON texts, read from left to right and meant as `serde_json` reads them.
#![tactic(auto)]

mod begun;
mod number;
mod reading;

pub use reading::{Begun, Invalid, LEVELS, Values};
