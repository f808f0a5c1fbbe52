//! The steps at which a provider's files are refused.

use fed_origin::Endpoint;
use fed_reply::ReplyStep;

/// The step at which a provider's file is refused (this profile's own).
#[derive(Clone, Copy, Debug, PartialEq, Eq)]
pub enum ProviderStep {
    /// The configuration URL has no well-known URL.
    NoSite,
    /// The reply with the well-known file is refused.
    WellKnownReply(ReplyStep),
    /// The well-known file does not list exactly one URL.
    WellKnownShape,
    /// The well-known file lists another URL.
    WellKnownOther,
    /// The reply with the configuration is refused.
    ConfigReply(ReplyStep),
    /// The configuration has another URL for that endpoint than the well-known file names.
    ConfigOther(Endpoint),
    /// A member of the configuration is missing or no text.
    ConfigShape,
    /// That endpoint is no URL, or is not same-origin with the configuration URL.
    EndpointOrigin(Endpoint),
}
