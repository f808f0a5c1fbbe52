//! Two scripts that differ only in what providers are not to tell: the test, the comparison, and the laws of two worlds.
#![tactic(auto)]

mod comparison;
mod fault;
mod kept;
mod kind;
pub mod laws;
mod load;
mod members;
mod names;
mod parties;

pub use comparison::compare;
pub use fault::{TwinClause, TwinFault, twin_fault};
