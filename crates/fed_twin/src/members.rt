//! The clause of the twin test on members.
ghost use Rattle.std.specs.Prelude.{◌≡◌, ◌↔◌, IsTrue};
ghost use Rattle.std.specs.List.{AllZip};
ghost use Rattle.fed_twin.specs.Twin.{SharesProvider, SharesOptions, SharesBytes, SharesHave, SharesMembers};

use fed_io::{Bytes, Placed, Text};
use fed_origin::{GetOptions, ProviderOptions, ReplyKind};
use fed_script::{Event, Have};

// Two optional texts are equal.
fn same_text(a: &Option<Placed<Text>>, b: &Option<Placed<Text>>) -> bool
    ensures { IsTrue result ↔ (a.now ≡ b.now) }
{
    match (a, b) {
        (Some(a), Some(b)) => *a.get() == *b.get(),
        (None, None) => true,
        (Some(_), None) | (None, Some(_)) => false,
    }
}

// All that a get says of a provider is equal, but for the client, the nonce and the params.
fn same_provider(a: &ProviderOptions, b: &ProviderOptions) -> bool
    ensures { IsTrue result ↔ SharesProvider a.now b.now }
{
    a.config.is_same(&b.config)
        && same_text(&a.login_hint, &b.login_hint)
        && same_text(&a.domain_hint, &b.domain_hint)
}

// So it is of each provider. A get has few, so a recursion serves.
fn same_providers(a: &[ProviderOptions], b: &[ProviderOptions]) -> bool
    ensures { IsTrue result ↔ AllZip SharesProvider a.now b.now }
{
    match (a.split_first(), b.split_first()) {
        (Some((one, more)), Some((other, others))) => {
            same_provider(one, other) && same_providers(more, others)
        }
        (None, None) => true,
        (Some(_), None) | (None, Some(_)) => false,
    }
}

// All that a get says is equal, but for these and the context.
fn same_options(a: &GetOptions, b: &GetOptions) -> bool
    ensures { IsTrue result ↔ SharesOptions a.now b.now }
{
    a.mediation == b.mediation
        && a.mode == b.mode
        && a.activation == b.activation
        && same_providers(a.providers.as_slice(), b.providers.as_slice())
}

// The bytes of two replies of this kind are equal, where they are not free.
fn same_bytes(kind: ReplyKind, a: &Bytes, b: &Bytes) -> bool
    ensures { IsTrue result ↔ SharesBytes kind a.now b.now }
{
    match kind {
        ReplyKind::Assertion | ReplyKind::Disconnect => true,
        ReplyKind::WellKnown | ReplyKind::Config | ReplyKind::Accounts | ReplyKind::Metadata => {
            *a == *b
        }
    }
}

// What stands from before is of one kind, and equal but for the origin of a flag. Permissions are not compared.
fn same_have(a: &Have, b: &Have) -> bool
    ensures { IsTrue result ↔ SharesHave a.now b.now }
{
    match (a, b) {
        (
            Have::Login { origin, status },
            Have::Login {
                origin: other,
                status: said,
            },
        ) => *origin == *other && *status == *said,
        (
            Have::Cookie { url, field },
            Have::Cookie {
                url: other,
                field: said,
            },
        ) => url.is_same(other) && *field == *said,
        (Have::Kept(_), Have::Kept(_)) | (Have::Silent { .. }, Have::Silent { .. }) => true,
        _ => false,
    }
}

/// Whether two events of one kind are equal but for what is free. Of two loads, and of two events of different kinds, there is
/// nothing to look at here. It takes no memory.
pub fn same_members(a: &Event, b: &Event) -> bool
    ensures { IsTrue result ↔ SharesMembers a.now b.now }
{
    match (a, b) {
        (Event::Have(a), Event::Have(b)) => same_have(a.get(), b.get()),
        (Event::At { time }, Event::At { time: other }) => *time == *other,
        (Event::ClosePage { page }, Event::ClosePage { page: other }) => *page == *other,
        (
            Event::Get {
                page,
                call,
                options,
            },
            Event::Get {
                page: other,
                call: number,
                options: others,
            },
        ) => *page == *other && *call == *number && same_options(options, others),
        (Event::Abort { call }, Event::Abort { call: other }) => *call == *other,
        (Event::GoOn { call }, Event::GoOn { call: other }) => *call == *other,
        (Event::Cancel { call }, Event::Cancel { call: other }) => *call == *other,
        (Event::SignIn { call }, Event::SignIn { call: other }) => *call == *other,
        (Event::ShutWindow { call }, Event::ShutWindow { call: other }) => *call == *other,
        (Event::IdpClose { page }, Event::IdpClose { page: other }) => *page == *other,
        (
            Event::Reply {
                call,
                provider,
                kind,
                raw,
            },
            Event::Reply {
                call: number,
                provider: place,
                kind: to,
                raw: bytes,
            },
        ) => *call == *number
            && *provider == *place
            && *kind == *to
            && same_bytes(*kind, raw, bytes),
        (
            Event::Choose {
                call,
                provider,
                account,
            },
            Event::Choose {
                call: number,
                provider: place,
                account: id,
            },
        ) => *call == *number && *provider == *place && *account == *id,
        (Event::Prevent { page }, Event::Prevent { page: other }) => *page == *other,
        (
            Event::SetStatus { page, status },
            Event::SetStatus {
                page: other,
                status: said,
            },
        ) => *page == *other && *status == *said,
        (
            Event::Disconnect {
                page,
                call,
                config,
                client: _,
                hint,
            },
            Event::Disconnect {
                page: other,
                call: number,
                config: url,
                client: _,
                hint: said,
            },
        ) => *page == *other
            && *call == *number
            && config.is_same(url)
            && *hint.get() == *said.get(),
        _ => true,
    }
}
