//! What happened in a session: effects, rows, look-backs, what each event does, and the trace of a script.
#![tactic(auto)]

pub mod laws;
mod out;

pub use out::Out;
