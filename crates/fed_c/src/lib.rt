//! The program for callers that are not Rattle: each call takes bytes, and hands a status and a text out.
#![tactic(auto)]

pub mod calls;
mod handle;
mod lent;
pub mod pieces;
mod whole;
