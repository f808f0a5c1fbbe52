//! Stages of a call and kinds of replies.

/// How far a call has come.
#[derive(Clone, Copy, Debug, PartialEq, Eq)]
pub enum Stage {
    /// The well-known file and the configuration are awaited.
    Reading,
    /// The accounts are awaited.
    Listing,
    /// Of several providers some are not settled: their files or their accounts are awaited.
    Gathering,
    /// The user is shown that the provider gave no account, though it had said that the user is logged in.
    Mismatch,
    /// The login window is open: the user is to sign in at the provider.
    Window,
    /// The user is to choose an account.
    Choosing,
    /// The user is to go on with an account.
    Prompting,
    /// The token is awaited.
    Asserting,
    /// The call is over.
    Ended,
}

/// What a request asks for, and its reply holds (FedCM, "Identity provider HTTP API").
#[derive(Clone, Copy, Debug, PartialEq, Eq)]
pub enum ReplyKind {
    /// The well-known file of the provider's site.
    WellKnown,
    /// The provider's configuration.
    Config,
    /// The user's accounts at the provider.
    Accounts,
    /// The links that a client of the provider has for its users.
    Metadata,
    /// The token for an account.
    Assertion,
    /// The account that was disconnected from a client.
    Disconnect,
}

impl ReplyKind {
    ghost use Rattle.std.specs.Prelude.{◌≡◌};
    ghost use Rattle.fed_origin.specs.Words.{kind_text, kind_of_word};

    /// The word of the kind, as scripts and transcripts have it.
    pub fn as_str(self) -> &'static str
        ensures { result.now ≡ kind_text self }
    {
        match self {
            ReplyKind::WellKnown => "wellknown",
            ReplyKind::Config => "config",
            ReplyKind::Accounts => "accounts",
            ReplyKind::Metadata => "metadata",
            ReplyKind::Assertion => "assertion",
            ReplyKind::Disconnect => "disconnect",
        }
    }

    /// The kind that a word stands for, if it is the word of one.
    pub fn of_word(word: &str) -> Option<ReplyKind>
        ensures { result ≡ kind_of_word word.now }
    {
        match word {
            "wellknown" => Some(ReplyKind::WellKnown),
            "config" => Some(ReplyKind::Config),
            "accounts" => Some(ReplyKind::Accounts),
            "metadata" => Some(ReplyKind::Metadata),
            "assertion" => Some(ReplyKind::Assertion),
            "disconnect" => Some(ReplyKind::Disconnect),
            _ => None,
        }
    }
}

/// An endpoint that a configuration names (FedCM, "The config file").
#[derive(Clone, Copy, Debug, PartialEq, Eq)]
pub enum Endpoint {
    /// The accounts endpoint.
    Accounts,
    /// The identity assertion endpoint.
    Assertion,
    /// The login URL.
    Login,
    /// The client metadata endpoint.
    Metadata,
    /// The disconnect endpoint.
    Disconnect,
}
