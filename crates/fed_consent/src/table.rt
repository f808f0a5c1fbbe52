//! The words of the table of a call: what it takes, what it does, what it asks for and shows, and how it ends.

mod ask;
mod dialog;
mod effect;
mod failure;
mod finish;
mod input;
mod why;

pub use ask::Ask;
pub use dialog::{Dialog, Shown};
pub use effect::{Effect, ONLY_PLACE};
pub use failure::{Detail, FailStep, Failure};
pub use finish::Finish;
pub use input::Input;
pub use why::Why;
