//! The accounts of a user at a provider: reading them, and which of them a call is about.
#![tactic(auto)]

mod account;
mod accounts;
mod connection;
mod entry;
mod hints;
mod lent;
mod members;
mod offer;
mod read;
mod step;

pub use account::Account;
pub use accounts::Accounts;
pub use connection::{connected, eligible, reselect, reselect_all};
pub use hints::keep_hinted;
pub use offer::{Offer, Offers};
pub use read::{read_accounts, read_hinted};
pub use step::AccountsStep;
