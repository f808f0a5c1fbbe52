//! Requests.
ghost use Rattle.std.specs.Prelude.{◌≡◌};
ghost use Rattle.std.specs.Option.{option_copied};
ghost use Rattle.fed_consent.specs.Ask.{kind_of, url_of, named_origin};

use crate::AssertionAsk;
use fed_io::{Placed, Text};
use fed_origin::{Origin, ReplyKind, WebUrl};

/// A request of a call, with the URL that it goes to (FedCM, "Identity provider HTTP API"). What is large has a place of its own, since
/// each request is moved several times.
pub enum Ask {
    /// For the well-known file of the configuration URL's site.
    WellKnown {
        to: WebUrl,
    },
    /// For the configuration.
    Config {
        to: WebUrl,
    },
    /// For the user's accounts. It names neither the page nor the client.
    Accounts {
        to: WebUrl,
    },
    /// For the links of a client, whose page has this origin.
    Metadata {
        to: WebUrl,
        client: Text,
        origin: Placed<Origin>,
    },
    /// For a token. It names the page, the client and the account.
    Assertion(AssertionAsk),
    /// For the end of an account's permission at a client, whose page has this origin. The hint says which account.
    Disconnect {
        to: WebUrl,
        client: Text,
        hint: Placed<Text>,
        origin: Placed<Origin>,
    },
}

// Written out, so that one function lets it go wherever it ends.
impl Drop for Ask {
    fn drop(self) {
        match self {
            Ask::WellKnown { to: _ }
            | Ask::Config { to: _ }
            | Ask::Accounts { to: _ }
            | Ask::Metadata {
                to: _,
                client: _,
                origin: _,
            }
            | Ask::Assertion(_)
            | Ask::Disconnect {
                to: _,
                client: _,
                hint: _,
                origin: _,
            } => {}
        }
    }
}

impl Ask {
    /// The kind of reply that is asked for. It takes no memory.
    pub fn kind(&self) -> ReplyKind
        ensures { result ≡ kind_of self.now }
    {
        match self {
            Ask::WellKnown { .. } => ReplyKind::WellKnown,
            Ask::Config { .. } => ReplyKind::Config,
            Ask::Accounts { .. } => ReplyKind::Accounts,
            Ask::Metadata { .. } => ReplyKind::Metadata,
            Ask::Assertion(_) => ReplyKind::Assertion,
            Ask::Disconnect { .. } => ReplyKind::Disconnect,
        }
    }

    /// The URL that the request goes to. It takes no memory.
    pub fn to(&self) -> &WebUrl
        ensures { result.now ≡ url_of self.now }
    {
        match self {
            Ask::WellKnown { to } => to,
            Ask::Config { to } => to,
            Ask::Accounts { to } => to,
            Ask::Metadata { to, .. } => to,
            Ask::Assertion(ask) => ask.to(),
            Ask::Disconnect { to, .. } => to,
        }
    }

    /// The origin of the page, where the request names it. It takes no memory.
    pub fn origin(&self) -> Option<&Origin>
        ensures { option_copied result ≡ named_origin self.now }
    {
        match self {
            Ask::WellKnown { .. } | Ask::Config { .. } | Ask::Accounts { .. } => None,
            Ask::Metadata { origin, .. } => Some(origin.get()),
            Ask::Assertion(ask) => Some(ask.origin()),
            Ask::Disconnect { origin, .. } => Some(origin.get()),
        }
    }
}
