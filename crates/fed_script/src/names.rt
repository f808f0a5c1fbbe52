//! The names of members: which a text is, and their places.
ghost use Rattle.std.specs.Prelude.{◌≡◌, ◌<◌};
ghost use Rattle.fed_script.specs.Said as spec;

use crate::cause::MemberName;

impl MemberName {
    /// The name that a text is, if it is one.
    pub(crate) fn of_str(text: &str) -> Option<MemberName>
        ensures { result ≡ spec.named text.now }
    {
        // The names first that most lines have.
        match text {
            "do" => Some(MemberName::Do),
            "page" => Some(MemberName::Page),
            "call" => Some(MemberName::Call),
            "provider" => Some(MemberName::Provider),
            "account" => Some(MemberName::Account),
            "to" => Some(MemberName::To),
            "text" => Some(MemberName::Text),
            "url" => Some(MemberName::Url),
            "what" => Some(MemberName::What),
            "origin" => Some(MemberName::Origin),
            "status" => Some(MemberName::Status),
            "time" => Some(MemberName::Time),
            "providers" => Some(MemberName::Providers),
            "mode" => Some(MemberName::Mode),
            "activation" => Some(MemberName::Activation),
            "context" => Some(MemberName::Context),
            "mediation" => Some(MemberName::Mediation),
            "raw" => Some(MemberName::Raw),
            "config" => Some(MemberName::Config),
            "client" => Some(MemberName::Client),
            "hint" => Some(MemberName::Hint),
            "nonce" => Some(MemberName::Nonce),
            "login_hint" => Some(MemberName::LoginHint),
            "domain_hint" => Some(MemberName::DomainHint),
            "params" => Some(MemberName::Params),
            "fedcm" => Some(MemberName::Fedcm),
            "now" => Some(MemberName::Now),
            "rules" => Some(MemberName::Rules),
            _ => None,
        }
    }

    /// The place of the name, in the order of the type.
    pub(crate) fn place(self) -> usize
        ensures place { result ≡ spec.place self }
        ensures within { result < 28 }
    {
        match self {
            MemberName::Do => 0,
            MemberName::Fedcm => 1,
            MemberName::Now => 2,
            MemberName::Rules => 3,
            MemberName::What => 4,
            MemberName::Origin => 5,
            MemberName::Status => 6,
            MemberName::Time => 7,
            MemberName::Page => 8,
            MemberName::Url => 9,
            MemberName::Text => 10,
            MemberName::Raw => 11,
            MemberName::Call => 12,
            MemberName::Mediation => 13,
            MemberName::Mode => 14,
            MemberName::Activation => 15,
            MemberName::Context => 16,
            MemberName::Providers => 17,
            MemberName::Config => 18,
            MemberName::Client => 19,
            MemberName::Nonce => 20,
            MemberName::LoginHint => 21,
            MemberName::DomainHint => 22,
            MemberName::Params => 23,
            MemberName::Provider => 24,
            MemberName::To => 25,
            MemberName::Account => 26,
            MemberName::Hint => 27,
        }
    }
}
