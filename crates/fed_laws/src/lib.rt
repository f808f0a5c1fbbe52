//! What every trace promises: why a token or a disconnect is asked for, and to whom a token is given.
#![tactic(auto)]

pub mod laws;
