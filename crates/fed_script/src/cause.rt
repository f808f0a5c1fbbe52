//! Why a line of a script is bad.

/// The name of a member of a line.
#[derive(Clone, Copy, Debug, PartialEq, Eq)]
pub enum MemberName {
    Do,
    Fedcm,
    Now,
    Rules,
    What,
    Origin,
    Status,
    Time,
    Page,
    Url,
    Text,
    Raw,
    Call,
    Mediation,
    Mode,
    Activation,
    Context,
    Providers,
    Config,
    Client,
    Nonce,
    LoginHint,
    DomainHint,
    Params,
    Provider,
    To,
    Account,
    Hint,
}

/// Why a line is bad, in the order in which the causes are tested.
#[derive(Clone, Copy, Debug, PartialEq, Eq)]
pub enum LineCause {
    /// The line is no JSON text (RFC 8259) in UTF-8, or nests deeper than 127.
    NotJson,
    /// The line is no object whose `do` is the name of a kind.
    NoKind,
    /// The first member that is missing or of a wrong kind.
    Member(MemberName),
    /// A URL that `WebUrl::read` refuses.
    BadUrl,
    /// The number of a call that an earlier line used.
    CallTwice,
    /// A `have` after an event of another kind.
    HaveLate,
    /// An `at` whose time is below the time before it.
    TimeBack,
    /// An event after 1,000,000 events.
    TooManyEvents,
}

/// The first bad line of a script: its number, where the header's is 1, and why it is bad.
#[derive(Clone, Copy, Debug, PartialEq, Eq)]
pub struct BadLine {
    pub line: u32,
    pub cause: LineCause,
}

/// Why bytes are not two scripts with a dividing line between them (this profile's own).
#[derive(Clone, Copy, Debug, PartialEq, Eq)]
pub enum PairCause {
    /// A line of one of the scripts is bad, or its header is missing.
    Line(LineCause),
    /// Both could be one script: no line divides them.
    NoNext,
}

/// The first line that is bad or missing where two scripts are read, with its number among all lines, from 1.
#[derive(Clone, Copy, Debug, PartialEq, Eq)]
pub struct PairStop {
    pub line: u32,
    pub cause: PairCause,
}

impl MemberName {
    ghost use Rattle.std.specs.Prelude.{◌≡◌};
    ghost use Rattle.fed_script.specs.Cause.{name_text};

    /// The name as it is written in a line.
    pub fn as_str(self) -> &'static str
        ensures { result.now ≡ name_text self }
    {
        match self {
            MemberName::Do => "do",
            MemberName::Fedcm => "fedcm",
            MemberName::Now => "now",
            MemberName::Rules => "rules",
            MemberName::What => "what",
            MemberName::Origin => "origin",
            MemberName::Status => "status",
            MemberName::Time => "time",
            MemberName::Page => "page",
            MemberName::Url => "url",
            MemberName::Text => "text",
            MemberName::Raw => "raw",
            MemberName::Call => "call",
            MemberName::Mediation => "mediation",
            MemberName::Mode => "mode",
            MemberName::Activation => "activation",
            MemberName::Context => "context",
            MemberName::Providers => "providers",
            MemberName::Config => "config",
            MemberName::Client => "client",
            MemberName::Nonce => "nonce",
            MemberName::LoginHint => "login_hint",
            MemberName::DomainHint => "domain_hint",
            MemberName::Params => "params",
            MemberName::Provider => "provider",
            MemberName::To => "to",
            MemberName::Account => "account",
            MemberName::Hint => "hint",
        }
    }
}

impl LineCause {
    ghost use Rattle.std.specs.Prelude.{◌≡◌};
    ghost use Rattle.fed_script.specs.Cause.{cause_text, member_named};

    /// The word of the cause, as a transcript writes it.
    pub fn as_str(self) -> &'static str
        ensures { result.now ≡ cause_text self }
    {
        match self {
            LineCause::NotJson => "not-json",
            LineCause::NoKind => "no-kind",
            LineCause::Member(_) => "member",
            LineCause::BadUrl => "bad-url",
            LineCause::CallTwice => "call-twice",
            LineCause::HaveLate => "have-late",
            LineCause::TimeBack => "time-back",
            LineCause::TooManyEvents => "too-many",
        }
    }

    /// The member that the cause names, if it is a member's.
    pub fn member(self) -> Option<MemberName>
        ensures { result ≡ member_named self }
    {
        match self {
            LineCause::Member(name) => Some(name),
            _ => None,
        }
    }
}

impl PairCause {
    ghost use Rattle.std.specs.Prelude.{◌≡◌};
    ghost use Rattle.fed_script.specs.Cause.{pair_cause_text, pair_member_named};

    /// The word of the cause, as a record writes it.
    pub fn as_str(self) -> &'static str
        ensures { result.now ≡ pair_cause_text self }
    {
        match self {
            PairCause::Line(cause) => cause.as_str(),
            PairCause::NoNext => "no-next",
        }
    }

    /// The member that the cause names, if it is a member's.
    pub fn member(self) -> Option<MemberName>
        ensures { result ≡ pair_member_named self }
    {
        match self {
            PairCause::Line(cause) => cause.member(),
            PairCause::NoNext => None,
        }
    }
}
