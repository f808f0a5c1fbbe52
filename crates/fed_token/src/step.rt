//! The steps at which a reply to an assertion or a disconnect request is refused.

use fed_io::Text;
use fed_reply::ReplyStep;

/// The step at which a reply to an assertion or a disconnect request is refused (this profile's
/// own). `Cors` stands between the steps `Short` and `Status` of the reply; `Shape` and
/// `ProviderError` come last.
#[derive(Drop)]
pub enum TokenStep {
    /// The reply is refused.
    Reply(ReplyStep),
    /// The reply does not allow the page to read it.
    Cors,
    /// The value has none of the members that are looked for.
    Shape,
    /// The provider refuses, and says why (FedCM, IdentityCredentialError): a code, empty where it
    /// gives none, and the address of a page that says more, as the provider wrote it.
    ProviderError { code: Text, url: Option<Text> },
}
