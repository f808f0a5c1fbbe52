//! Why a call fails.
ghost use Rattle.std.specs.Prelude.{◌≡◌};
ghost use Rattle.fed_consent.specs.Failures as failures;
ghost use Rattle.fed_consent.specs.Words as spec;
ghost use Rattle.fed_consent.specs.Words.{step_text, error_name, detail_text};

use fed_accounts::AccountsStep;
use fed_origin::Endpoint;
use fed_provider::ProviderStep;
use fed_reply::ReplyStep;

/// The step at which a call failed (this profile's own), but for an error that the provider gave.
#[derive(Clone, Copy, Debug, PartialEq, Eq)]
pub enum FailStep {
    /// The page has a pending get.
    CallPending,
    /// The configuration URL is not https.
    ConfigScheme,
    /// The call is active, and the user did nothing at the page.
    NoActivation,
    /// The configuration URL has no well-known URL.
    NoSite,
    /// The call is silent, and the page's origin has the prevent-silent flag.
    SilentPrevented,
    /// The call is passive, and the user is logged out at the provider.
    LoggedOut,
    /// The reply with the well-known file is refused.
    WellKnownReply,
    /// The well-known file does not list exactly one URL.
    WellKnownShape,
    /// The well-known file lists another URL.
    WellKnownOther,
    /// The reply with the configuration is refused.
    ConfigReply,
    /// A member of the configuration is missing or no text.
    ConfigShape,
    /// An endpoint is no URL, or is not same-origin with the configuration URL.
    EndpointOrigin,
    /// The configuration has another URL for an endpoint than the well-known file names.
    ConfigOther,
    /// The reply with the accounts is refused.
    AccountsReply,
    /// The accounts are not what they should be.
    AccountsShape,
    /// There is no account.
    AccountsEmpty,
    /// No account fits the hints of the call.
    AccountsHints,
    /// The call is silent, and no single account may be chosen without the user.
    SilentNoAccount,
    /// The user closed the dialog.
    UserCancelled,
    /// The user closed the login window.
    WindowShut,
    /// The page aborted the call.
    Aborted,
    /// The call is active, and has several providers.
    ActiveMany,
    /// Two providers of the call have one configuration URL.
    ProviderTwice,
    /// The reply with the token is refused.
    AssertionReply,
    /// The reply with the token is not shared with the page's origin.
    AssertionCors,
    /// The reply has neither a token nor an error.
    AssertionShape,
    /// No permission of the page and the provider is kept.
    NotConnected,
    /// The configuration names no disconnect endpoint.
    NoDisconnect,
    /// The reply to a disconnect request is refused.
    DisconnectReply,
    /// The reply to a disconnect request is not shared with the page's origin.
    DisconnectCors,
    /// The reply to a disconnect request names no account.
    DisconnectShape,
}

/// What else is known of a failed step: the step at which a reply is refused, or the endpoint.
#[derive(Clone, Copy, Debug, PartialEq, Eq)]
pub enum Detail {
    Reply(ReplyStep),
    Member(Endpoint),
}

/// Why a call failed.
#[derive(Clone, Copy, Debug, PartialEq, Eq)]
pub struct Failure {
    pub step: FailStep,
    pub detail: Option<Detail>,
}

impl FailStep {
    /// The word of the step, as a transcript writes it. It takes no memory.
    pub fn as_str(self) -> &'static str
        ensures { result.now ≡ step_text self }
    {
        match self {
            FailStep::CallPending => "call-pending",
            FailStep::ConfigScheme => "config-scheme",
            FailStep::NoActivation => "no-activation",
            FailStep::NoSite => "no-site",
            FailStep::SilentPrevented => "silent-prevented",
            FailStep::LoggedOut => "logged-out",
            FailStep::WellKnownReply => "well-known-reply",
            FailStep::WellKnownShape => "well-known-shape",
            FailStep::WellKnownOther => "well-known-other",
            FailStep::ConfigReply => "config-reply",
            FailStep::ConfigShape => "config-shape",
            FailStep::EndpointOrigin => "endpoint-origin",
            FailStep::ConfigOther => "config-other",
            FailStep::AccountsReply => "accounts-reply",
            FailStep::AccountsShape => "accounts-shape",
            FailStep::AccountsEmpty => "accounts-empty",
            FailStep::AccountsHints => "accounts-hints",
            FailStep::SilentNoAccount => "silent-no-account",
            FailStep::UserCancelled => "user-cancelled",
            FailStep::WindowShut => "window-shut",
            FailStep::Aborted => "aborted",
            FailStep::ActiveMany => "active-many",
            FailStep::ProviderTwice => "provider-twice",
            FailStep::AssertionReply => "assertion-reply",
            FailStep::AssertionCors => "assertion-cors",
            FailStep::AssertionShape => "assertion-shape",
            FailStep::NotConnected => "not-connected",
            FailStep::NoDisconnect => "no-disconnect",
            FailStep::DisconnectReply => "disconnect-reply",
            FailStep::DisconnectCors => "disconnect-cors",
            FailStep::DisconnectShape => "disconnect-shape",
        }
    }

    /// The name of the error that the page gets (Web IDL, "DOMException names"): it tells the page nothing of the user's
    /// state at the provider. It takes no memory.
    pub fn error_name(self) -> &'static str
        ensures { result.now ≡ error_name self }
    {
        match self {
            FailStep::CallPending => "NotAllowedError",
            FailStep::Aborted => "AbortError",
            _ => "NetworkError",
        }
    }
}

impl Detail {
    /// The word of the reply's step, or the configuration member's name. It takes no memory.
    pub fn as_str(self) -> &'static str
        ensures { result.now ≡ detail_text self }
    {
        match self {
            Detail::Reply(step) => reply_step_text(step),
            Detail::Member(endpoint) => endpoint_member(endpoint),
        }
    }
}

fn reply_step_text(step: ReplyStep) -> &'static str
    ensures { result.now ≡ spec.reply_step_text step }
{
    match step {
        ReplyStep::Head => "head",
        ReplyStep::Coding => "coding",
        ReplyStep::Length => "length",
        ReplyStep::Chunk => "chunk",
        ReplyStep::Short => "short",
        ReplyStep::Status => "status",
        ReplyStep::Mime => "mime",
        ReplyStep::Json => "json",
    }
}

// The member of a configuration that names the endpoint.
fn endpoint_member(endpoint: Endpoint) -> &'static str
    ensures { result.now ≡ spec.endpoint_member endpoint }
{
    match endpoint {
        Endpoint::Accounts => "accounts_endpoint",
        Endpoint::Assertion => "id_assertion_endpoint",
        Endpoint::Login => "login_url",
        Endpoint::Metadata => "client_metadata_endpoint",
        Endpoint::Disconnect => "disconnect_endpoint",
    }
}

impl Failure {
    /// A failure of which nothing else is known. It takes no memory.
    pub fn plain(step: FailStep) -> Failure
        ensures { result ≡ failures.plain step }
    {
        Failure { step, detail: None }
    }

    /// A failure with the step of a reply, or with an endpoint. It takes no memory.
    pub fn detailed(step: FailStep, detail: Detail) -> Failure
        ensures { result ≡ failures.detailed step detail }
    {
        Failure {
            step,
            detail: Some(detail),
        }
    }

    /// The failure where a provider's file is refused. It takes no memory.
    pub fn of_provider(step: ProviderStep) -> Failure
        ensures { result ≡ failures.provider_failure step }
    {
        match step {
            ProviderStep::NoSite => Failure::plain(FailStep::NoSite),
            ProviderStep::WellKnownReply(step) => Failure::detailed(
                FailStep::WellKnownReply,
                Detail::Reply(step),
            ),
            ProviderStep::WellKnownShape => Failure::plain(FailStep::WellKnownShape),
            ProviderStep::WellKnownOther => Failure::plain(FailStep::WellKnownOther),
            ProviderStep::ConfigReply(step) => Failure::detailed(
                FailStep::ConfigReply,
                Detail::Reply(step),
            ),
            ProviderStep::ConfigShape => Failure::plain(FailStep::ConfigShape),
            ProviderStep::EndpointOrigin(endpoint) => Failure::detailed(
                FailStep::EndpointOrigin,
                Detail::Member(endpoint),
            ),
            ProviderStep::ConfigOther(endpoint) => Failure::detailed(
                FailStep::ConfigOther,
                Detail::Member(endpoint),
            ),
        }
    }

    /// The failure where the accounts are refused, or none fits the hints of the call. It takes no memory.
    pub fn of_accounts(step: AccountsStep) -> Failure
        ensures { result ≡ failures.accounts_failure step }
    {
        match step {
            AccountsStep::Reply(step) => Failure::detailed(
                FailStep::AccountsReply,
                Detail::Reply(step),
            ),
            AccountsStep::Shape => Failure::plain(FailStep::AccountsShape),
            AccountsStep::Empty => Failure::plain(FailStep::AccountsEmpty),
            AccountsStep::HintsNone => Failure::plain(FailStep::AccountsHints),
        }
    }
}
