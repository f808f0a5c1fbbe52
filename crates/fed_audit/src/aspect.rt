//! What of a transcript is compared.
ghost use Rattle.std.specs.Prelude.{◌≡◌};
ghost use Rattle.fed_audit.specs.Told.{key_of};
ghost use Rattle.fed_audit.specs.Words as spec;

use fed_origin::ReplyKind;

/// What a record is about.
#[derive(Clone, Copy, Debug, PartialEq, Eq)]
pub enum Subject {
    WellKnown,
    Config,
    Accounts,
    Metadata,
    Assertion,
    Disconnect,
    /// The token that the page of a call gets.
    Token,
}

impl Subject {
    /// That of a request.
    pub(crate) fn of_kind(kind: ReplyKind) -> Subject
        ensures { result ≡ spec.subject_of kind }
    {
        match kind {
            ReplyKind::WellKnown => Subject::WellKnown,
            ReplyKind::Config => Subject::Config,
            ReplyKind::Accounts => Subject::Accounts,
            ReplyKind::Metadata => Subject::Metadata,
            ReplyKind::Assertion => Subject::Assertion,
            ReplyKind::Disconnect => Subject::Disconnect,
        }
    }

    // Its place in the order of the type.
    fn place(self) -> u8
        ensures { result ≡ spec.subject_place self }
    {
        match self {
            Subject::WellKnown => 0,
            Subject::Config => 1,
            Subject::Accounts => 2,
            Subject::Metadata => 3,
            Subject::Assertion => 4,
            Subject::Disconnect => 5,
            Subject::Token => 6,
        }
    }

    /// Its word in a record: that of the kind of request, or `token`.
    pub fn as_str(self) -> &'static str
        ensures { result.now ≡ spec.subject_text self }
    {
        match self {
            Subject::WellKnown => "wellknown",
            Subject::Config => "config",
            Subject::Accounts => "accounts",
            Subject::Metadata => "metadata",
            Subject::Assertion => "assertion",
            Subject::Disconnect => "disconnect",
            Subject::Token => "token",
        }
    }
}

/// A request of a call to the provider at this place, or the token of that provider that the call's page gets. A row has at most one of
/// each.
#[derive(Clone, Copy, Debug)]
pub struct About {
    pub call: u32,
    pub provider: u32,
    pub subject: Subject,
}

impl About {
    /// What it is known by.
    pub(crate) fn key(self) -> Key
        ensures { result ≡ key_of self }
    {
        Key {
            call: self.call,
            provider: self.provider,
            subject: self.subject.place(),
        }
    }
}

/// What a request or a token is known by.
#[derive(Clone, Copy, Eq, Hash)]
pub struct Key {
    pub call: u32,
    pub provider: u32,
    pub subject: u8,
}

impl PartialEq for Key {
    ghost use Rattle.fed_audit.specs.Told.{same_key};
    ghost use Rattle.std.proofs.Common.{rules};
    ghost use Rattle.std.specs.Cmp.Rules.{comparing};

    ghost eq = { same_key };

    ghost laws = { Prim.search (comparing, rules) };

    fn eq(&self, other: &Key) -> bool {
        self.call == other.call && self.provider == other.provider && self.subject == other.subject
    }
}

/// What of a record differs from this program's own.
#[derive(Clone, Copy, Debug, PartialEq, Eq)]
pub enum Aspect {
    /// The line is no record.
    Record,
    /// The own record has no counterpart.
    Missing,
    /// There is no own record, or it has its counterpart already.
    Further,
    /// The request has no head.
    Head,
    Method,
    Target,
    // Fields of the profile.
    Host,
    Accept,
    Destination,
    Origin,
    ContentType,
    ContentLength,
    Cookie,
    // Members of the profile's forms.
    Client,
    Nonce,
    Account,
    Disclosure,
    Selected,
    Params,
    Hint,
    /// A request without a form has a body.
    Body,
    Token,
    /// Which page gets the token.
    Page,
    /// Whether the account was settled on without the user.
    Auto,
}

impl Aspect {
    /// Its word in a record: a field's name in lower case, or a member's name.
    pub fn as_str(self) -> &'static str
        ensures { result.now ≡ spec.aspect_text self }
    {
        match self {
            Aspect::Record => "record",
            Aspect::Missing => "missing",
            Aspect::Further => "further",
            Aspect::Head => "head",
            Aspect::Method => "method",
            Aspect::Target => "target",
            Aspect::Host => "host",
            Aspect::Accept => "accept",
            Aspect::Destination => "sec-fetch-dest",
            Aspect::Origin => "origin",
            Aspect::ContentType => "content-type",
            Aspect::ContentLength => "content-length",
            Aspect::Cookie => "cookie",
            Aspect::Client => "client_id",
            Aspect::Nonce => "nonce",
            Aspect::Account => "account_id",
            Aspect::Disclosure => "disclosure_text_shown",
            Aspect::Selected => "is_auto_selected",
            Aspect::Params => "params",
            Aspect::Hint => "account_hint",
            Aspect::Body => "body",
            Aspect::Token => "token",
            Aspect::Page => "page",
            Aspect::Auto => "auto",
        }
    }
}
