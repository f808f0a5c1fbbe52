//! The part of a session that concerns a site.
#![tactic(auto)]

pub mod laws;
