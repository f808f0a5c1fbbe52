//! Whether an event brings an item back.
ghost use Rattle.std.specs.Prelude.{◌≡◌, ◌↔◌, IsTrue, IfOk, Some};
ghost use Rattle.std.specs.Option.{option_copied};
ghost use Rattle.fed_trace.specs.Row.{cookie_from};
ghost use Rattle.fed_profile.specs.Again as spec;
ghost use Rattle.fed_profile.specs.Item.{cookie_again};

use crate::reading::stored_by;
use fed_io::NoRoom;
use fed_jar::Cookie;
use fed_origin::{LoginStatus, Origin, Triple, WebUrl};
use fed_script::{Event, Have};
use fed_suffix::Suffixes;
use std::alloc::Global;

/// What the event says of the time before a script.
pub fn have_in(event: &Option<Event>) -> Option<&Have>
    ensures { option_copied result ≡ spec.have_in event.now }
{
    match event {
        Some(Event::Have(have)) => Some(have.get()),
        _ => None,
    }
}

/// Whether it is the login status.
pub fn is_login(have: Option<&Have>, origin: &Origin, status: LoginStatus) -> bool
    ensures { IsTrue result ↔ spec.IsLogin origin.now status (option_copied have.entry) }
{
    match have {
        Some(
            Have::Login {
                origin: at,
                status: said,
            },
        ) => *at == *origin && *said == status,
        _ => false,
    }
}

/// Whether it is the permission.
pub fn is_kept(have: Option<&Have>, triple: &Triple) -> bool
    ensures { IsTrue result ↔ spec.IsKept triple.now (option_copied have.entry) }
{
    match have {
        Some(Have::Kept(said)) => *said == *triple,
        _ => false,
    }
}

/// Whether it is the flag of the origin.
pub fn is_flag(have: Option<&Have>, origin: &Origin) -> bool
    ensures { IsTrue result ↔ spec.IsFlag origin.now (option_copied have.entry) }
{
    match have {
        Some(Have::Silent { origin: at }) => *at == *origin,
        _ => false,
    }
}

// The expiry of a cookie that is brought back at the time.
fn expiry_again(now: u64, expiry: Option<u64>) -> Option<u64>
    ensures { result ≡ spec.expiry_again now expiry }
{
    match expiry {
        None => None,
        Some(at) => { if now < at { Some(at) } else { Some(0) } }
    }
}

// Whether the cookie is the other one, as it is brought back at the time.
fn is_again(stored: &Cookie, now: u64, cookie: &Cookie) -> bool
    ensures { IsTrue result ↔ spec.IsAgain now stored.now cookie.now }
{
    stored.name == cookie.name
        && stored.value == cookie.value
        && stored.domain == cookie.domain
        && stored.host_only == cookie.host_only
        && stored.path == cookie.path
        && stored.expiry == expiry_again(now, cookie.expiry)
        && stored.secure == cookie.secure
        && stored.same_site == cookie.same_site
}

// Whether the field of a page of the URL stores the cookie.
fn stores(
    alloc: Global,
    rules: &Suffixes,
    url: &WebUrl,
    now: u64,
    field: &[u8],
    cookie: &Cookie,
) -> Result<bool, NoRoom>
    ensures { IfOk result (λ same. IsTrue same ↔ (cookie_from rules.now url.now now field.now ≡ Some (cookie_again now cookie.now))) }
{
    let stored = stored_by(alloc, rules, url, now, field)?;
    match stored.as_slice() {
        [only] => Ok(is_again(only, now, cookie)),
        [] | [_, _, ..] => Ok(false),
    }
}

/// Whether it stores the cookie.
pub fn is_cookie(
    alloc: Global,
    rules: &Suffixes,
    now: u64,
    have: Option<&Have>,
    cookie: &Cookie,
) -> Result<bool, NoRoom>
    ensures { IfOk result (λ same. IsTrue same ↔ spec.IsCookie rules.now now cookie.now (option_copied have.entry)) }
{
    match have {
        Some(Have::Cookie { url, field }) => {
            let same = stores(alloc, rules, url, now, field.as_slice(), cookie)?;
            Ok(same)
        }
        _ => Ok(false),
    }
}

/// Whether it is a load of the page at the origin, without a reply.
pub fn is_page(event: &Option<Event>, page: u32, origin: &Origin) -> bool
    ensures { IsTrue result ↔ spec.IsPage page origin.now event.now }
{
    match event {
        Some(
            Event::Load {
                page: at,
                url,
                raw: None,
            },
        ) => *at == page && *url.origin() == *origin,
        _ => false,
    }
}
