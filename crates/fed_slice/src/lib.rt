//! The part of a session that concerns a site.
#![tactic(auto)]

mod closing;
mod numbers;
mod part;
mod parties;
mod party_set;
mod sets;
mod text;

pub use closing::closure;
pub use part::in_slice;
pub use text::slice_text;
