//! What the user is shown.
use super::Failure;
use fed_io::{Items, Text};
use fed_origin::Context;

/// An account as a dialog shows it.
#[derive(Drop)]
pub struct Shown {
    /// The place of its provider in the call's list.
    pub provider: u32,
    /// Its id at the provider.
    pub id: Text,
    pub name: Text,
    pub email: Text,
    pub given_name: Option<Text>,
    /// The URL of its picture, as the provider wrote it.
    pub picture: Option<Text>,
    /// Whether it signed in at this site before, so that nothing is to be agreed to.
    pub connected: bool,
}

/// A dialog of a call (FedCM, "Browser API", its dialogs; the choice of what is shown is this profile's own).
#[derive(Drop)]
pub enum Dialog {
    /// The accounts, in the provider's order, to choose one of.
    Choose {
        accounts: Items<Shown>,
        context: Context,
        /// The party of the page's host.
        site: Text,
    },
    /// An account to go on with, and the links of the client, serialized.
    Prompt {
        account: Shown,
        context: Context,
        /// The party of the page's host.
        site: Text,
        privacy: Option<Text>,
        terms: Option<Text>,
    },
    /// The provider said that the user is logged in, and gave no account that fits.
    Mismatch {
        /// The place of the provider in the call's list.
        provider: u32,
        /// The party of the page's host.
        site: Text,
        failure: Failure,
    },
}
