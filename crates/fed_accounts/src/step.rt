//! The steps at which accounts are refused.

use fed_reply::ReplyStep;

/// The step at which the accounts of a provider are refused (this profile's own), in the order in
/// which they are tried.
#[derive(Clone, Copy, Debug, PartialEq, Eq)]
pub enum AccountsStep {
    /// The reply with the accounts is refused.
    Reply(ReplyStep),
    /// The value is no list of accounts.
    Shape,
    /// The list has no account.
    Empty,
    /// No account has the hints of the call.
    HintsNone,
}
