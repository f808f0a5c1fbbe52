//! What this program's own transcripts keep: an audit and a comparison of them find nothing.
#![tactic(auto)]

pub mod laws;
