//! The stages of a call.

use crate::asserting::Asserting;
use crate::choosing::Choosing;
use crate::progress::Progress;
use crate::prompting::Prompting;
use fed_io::Items;
use fed_provider::{FirstReplies, SharedConfig};

/// A stage of a call, with what is kept of the call there alone.
#[derive(Drop)]
pub enum At {
    /// The well-known file and the configuration of its only provider are awaited.
    Reading(FirstReplies),
    /// The accounts of its only provider are awaited.
    Listing(SharedConfig),
    /// Its providers have come so far, and one is awaited.
    Gathering(Items<Progress>),
    /// The user is shown that its only provider gave no account, though it had said that the user is logged in.
    Mismatch(SharedConfig),
    /// Its login window is open: it waits until a page of its only provider's origin says that the user has signed in (FedCM,
    /// "IdentityProvider.close").
    Window(SharedConfig),
    /// The user is to choose an account.
    Choosing(Choosing),
    /// The user is to go on with an account.
    Prompting(Prompting),
    /// The token for an account is awaited.
    Asserting(Asserting),
}
