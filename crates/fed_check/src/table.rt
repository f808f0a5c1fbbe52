//! Which members a line is read from.
ghost use Rattle.std.specs.Prelude.{◌≡◌};
ghost use Rattle.fed_check.specs.Members as spec;

use fed_script::{Event, Have, MemberName};

/// The members of the first line.
pub(crate) fn header_members() -> &'static [MemberName]
    ensures { result.now ≡ spec.header_members }
{
    &[MemberName::Fedcm, MemberName::Now, MemberName::Rules]
}

/// The members of an object in `providers`.
pub(crate) fn provider_members() -> &'static [MemberName]
    ensures { result.now ≡ spec.provider_members }
{
    &[
        MemberName::Config,
        MemberName::Client,
        MemberName::Nonce,
        MemberName::LoginHint,
        MemberName::DomainHint,
        MemberName::Params,
    ]
}

// The members of a line of the kind `have`.
fn have_members(have: &Have) -> &'static [MemberName]
    ensures { result.now ≡ spec.have_members have.now }
{
    match have {
        Have::Login { .. } => &[
            MemberName::Do,
            MemberName::What,
            MemberName::Origin,
            MemberName::Status,
        ],
        Have::Kept(_) => &[
            MemberName::Do,
            MemberName::What,
            MemberName::Page,
            MemberName::Provider,
            MemberName::Account,
        ],
        Have::Silent { .. } => &[MemberName::Do, MemberName::What, MemberName::Origin],
        Have::Cookie { .. } => &[
            MemberName::Do,
            MemberName::What,
            MemberName::Url,
            MemberName::Text,
            MemberName::Raw,
        ],
    }
}

/// The members of the line of an event.
pub(crate) fn event_members(event: &Event) -> &'static [MemberName]
    ensures { result.now ≡ spec.event_members event.now }
{
    match event {
        Event::Have(have) => have_members(have.get()),
        Event::At { .. } => &[MemberName::Do, MemberName::Time],
        Event::Load { .. } => &[
            MemberName::Do,
            MemberName::Page,
            MemberName::Url,
            MemberName::Text,
            MemberName::Raw,
        ],
        Event::Get { .. } => &[
            MemberName::Do,
            MemberName::Page,
            MemberName::Call,
            MemberName::Mediation,
            MemberName::Mode,
            MemberName::Activation,
            MemberName::Context,
            MemberName::Providers,
        ],
        Event::Reply { .. } => &[
            MemberName::Do,
            MemberName::Call,
            MemberName::Provider,
            MemberName::To,
            MemberName::Text,
            MemberName::Raw,
        ],
        Event::Choose { .. } => &[
            MemberName::Do,
            MemberName::Call,
            MemberName::Provider,
            MemberName::Account,
        ],
        Event::SetStatus { .. } => &[MemberName::Do, MemberName::Page, MemberName::Status],
        Event::Disconnect { .. } => &[
            MemberName::Do,
            MemberName::Page,
            MemberName::Call,
            MemberName::Config,
            MemberName::Client,
            MemberName::Hint,
        ],
        Event::ClosePage { .. } | Event::IdpClose { .. } | Event::Prevent { .. } => {
            &[MemberName::Do, MemberName::Page]
        }
        Event::Abort { .. }
        | Event::GoOn { .. }
        | Event::Cancel { .. }
        | Event::SignIn { .. }
        | Event::ShutWindow { .. } => &[MemberName::Do, MemberName::Call],
    }
}

/// Whether a text is one of these names.
pub(crate) fn is_among(names: &[MemberName], text: &str) -> bool
    ensures { result ≡ spec.is_among names.now text.now }
{
    names.iter().any(|name| name.as_str() == text)
}
