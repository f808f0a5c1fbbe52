//! What a call asks for, shows, takes and gives, and what the user agreed to.
#![tactic(auto)]

mod consent;
mod table;

pub use consent::{AssertionAsk, Chooser, Consent, Manner, Picked, Prompt, Reselection};
pub use table::{
    Ask, Detail, Dialog, Effect, FailStep, Failure, Finish, Input, ONLY_PLACE, Shown, Why,
};
