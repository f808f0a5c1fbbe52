//! The audit of a transcript that another program wrote for a script, and its comparison with this program's own.
#![tactic(auto)]

mod asked;
mod aspect;
mod differ;
mod difference;
mod fault;
mod form;
mod front;
pub mod laws;
mod lines;
mod own;
mod parts;
mod record;
mod request;
mod said;
mod seen;
mod token;
mod whole;

pub use aspect::{About, Aspect, Subject};
pub use difference::{Comparison, Difference};
pub use fault::{AuditClause, AuditFault};
pub use lines::compare;
pub use record::Record;
pub use whole::{audit, count_records};
