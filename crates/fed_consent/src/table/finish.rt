//! How a call ends.
ghost use Rattle.std.specs.Prelude.{◌≡◌};
ghost use Rattle.fed_consent.specs.Words.{seen_of};

use super::Failure;
use fed_io::Text;

/// What the promise of a call gets.
#[derive(Drop)]
pub enum Finish {
    /// A token from the provider at this place in the call's list. `auto` says that the account was chosen without the user.
    Token {
        auto: bool,
        provider: u32,
        token: Text,
    },
    /// The account was disconnected.
    Disconnected,
    /// The call failed.
    Failed(Failure),
    /// The provider gave an error in place of a token.
    ProviderError {
        code: Text,
        url: Option<Text>,
    },
}

impl Finish {
    /// What the page sees of it: a token, that the account was disconnected, or the name of an error (FedCM,
    /// "IdentityCredentialError"). It takes no memory.
    pub fn seen(&self) -> &'static str
        ensures { result.now ≡ seen_of self.now }
    {
        match self {
            Finish::Token { .. } => "token",
            Finish::Disconnected => "disconnected",
            Finish::Failed(failure) => failure.step.error_name(),
            Finish::ProviderError { .. } => "IdentityCredentialError",
        }
    }
}
