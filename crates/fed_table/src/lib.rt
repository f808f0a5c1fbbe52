//! Pages with their pending calls, and the calls that wait.
#![tactic(auto)]

mod calls;
mod keys;
mod owners;
mod place;
mod table;

pub use table::Table;
