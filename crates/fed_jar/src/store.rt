//! Which fields a jar stores, and as which cookie (RFC 6265, 5.3).
ghost use Rattle.std.specs.Prelude.{◌≡◌, ◌+◌, IfOk, Some, length, nat_lt, unwrap_or};
ghost use Rattle.std.specs.Option.{option_copied};
ghost use Rattle.fed_origin.specs.WebUrl.{scheme_of};
ghost use Rattle.fed_suffix.specs.Registrable.{party as party_of, registrable};
ghost use Rattle.fed_jar.specs.Store as spec;

use crate::packed::{LentCookie, PackedCookie};
use fed_cookie::{RawCookie, SameSite, default_path, domain_matches};
use fed_io::NoRoom;
use fed_origin::{Host, Scheme, WebUrl};
use fed_suffix::Suffixes;
use std::alloc::Global;

// The most bytes of name and value together.
const MOST_BYTES: usize = 4096;

/// Whether the cookie of a field is refused, whatever its domain.
pub fn is_refused_of(url: &WebUrl, raw: &RawCookie) -> bool
    ensures { result ≡ spec.is_refused (scheme_of url.now) (spec.path_from url.now.path raw.now) raw.now }
{
    let path = path_from(url.path().as_bytes(), raw);
    is_refused(url.scheme(), path, raw)
}

fn path_from<'a>(page: &'a [u8], raw: &'a RawCookie) -> &'a [u8]
    ensures { result.now ≡ spec.path_from page.now raw.now }
{
    match &raw.path {
        Some(path) => path.as_slice(),
        None => default_path(page),
    }
}

// Too long, Secure over http, SameSite=None without Secure, or a broken prefix.
#[tactic(auto, unfolding(crate::specs::Store::is_refused))]
fn is_refused(scheme: Scheme, path: &[u8], raw: &RawCookie) -> bool
    ensures { result ≡ spec.is_refused scheme path.now raw.now }
{
    is_too_long(raw.name.as_slice(), raw.value.as_slice())
        || (raw.secure && scheme == Scheme::Http)
        || (raw.same_site == SameSite::NoLimit && !raw.secure)
        || breaks_prefix(path, raw)
}

fn is_too_long(name: &[u8], value: &[u8]) -> bool
    ensures { result ≡ nat_lt 4096 (length name.now + length value.now) }
{
    name.len() > MOST_BYTES || value.len() > MOST_BYTES - name.len()
}

// Whether the name begins with `__Secure-` or `__Host-` and the cookie is not such a one.
fn breaks_prefix(path: &[u8], raw: &RawCookie) -> bool
    ensures { result ≡ spec.breaks_prefix path.now raw.now }
{
    let name = raw.name.as_slice();
    if name.starts_with(b"__Secure-") && !raw.secure {
        return true;
    }
    name.starts_with(b"__Host-") && (!raw.secure || raw.domain.is_some() || path != b"/".as_slice())
}

/// Whether a cookie with this Domain attribute is for the host alone, or `None` where it may not
/// name that domain. The registrable domain of the host is given.
pub fn host_only_of(
    rules: &Suffixes,
    host: &Host,
    site: Option<&[u8]>,
    domain: &[u8],
) -> Option<bool>
    requires { option_copied site ≡ registrable rules.now host.now }
    ensures { result ≡ spec.host_only_of rules.now host.now (Some domain.now) }
{
    if is_within(rules, host, site, domain) {
        return Some(false);
    }
    if domain == host.text.as_str().as_bytes() {
        return Some(true);
    }
    None
}

/// The registrable domain of the host, of which the party is given: the party, where that is not
/// the host's text.
pub fn site_by<'a>(rules: &Suffixes, host: &'a Host, party: &'a [u8]) -> Option<&'a [u8]>
    requires { party.now ≡ party_of rules.now host.now }
    ensures { option_copied result ≡ registrable rules.now host.now }
{
    if party == host.text.as_str().as_bytes() {
        return rules.registrable(host);
    }
    Some(party)
}

/// Whether the host matches the domain and both have the same registrable domain, of which that of
/// the host is given.
#[tactic(auto, unfolding(crate::specs::Store::is_within))]
pub fn is_within(rules: &Suffixes, host: &Host, site: Option<&[u8]>, domain: &[u8]) -> bool
    requires { option_copied site ≡ registrable rules.now host.now }
    ensures { result ≡ spec.is_within rules.now host.now domain.now }
{
    domain_matches(host, domain) && are_same(site, rules.registrable_name(domain))
}

fn are_same(a: Option<&[u8]>, b: Option<&[u8]>) -> bool
    ensures { result ≡ spec.are_same (option_copied a.entry) (option_copied b.entry) }
{
    match (a, b) {
        (Some(a), Some(b)) => a == b,
        _ => false,
    }
}

/// The cookie that is stored.
#[tactic(auto, unfolding(crate::specs::Store::cookie_from))]
pub fn cookie_from(
    alloc: Global,
    url: &WebUrl,
    now: u64,
    raw: &RawCookie,
    host_only: bool,
) -> Result<PackedCookie, NoRoom>
    ensures { IfOk result (λ cookie. cookie ≡ spec.cookie_from url.now now raw.now host_only) }
{
    let cookie = LentCookie {
        name: raw.name.as_slice(),
        value: raw.value.as_slice(),
        domain: domain_from(url.host(), raw),
        host_only,
        path: path_from(url.path().as_bytes(), raw),
        expiry: expiry_of(now, raw.max_age, raw.expires),
        secure: raw.secure,
        same_site: raw.same_site,
    };
    PackedCookie::of(alloc, &cookie)
}

fn domain_from<'a>(host: &'a Host, raw: &'a RawCookie) -> &'a [u8]
    ensures { result.now ≡ unwrap_or raw.now.domain host.now }
{
    match &raw.domain {
        Some(domain) => domain.as_slice(),
        None => host.text.as_str().as_bytes(),
    }
}

// By Max-Age, otherwise by Expires, otherwise none.
fn expiry_of(now: u64, max_age: Option<i64>, expires: Option<u64>) -> Option<u64>
    ensures { result ≡ spec.expiry_of now max_age expires }
{
    match max_age {
        Some(age) => Some(expiry_after(now, age)),
        None => expires,
    }
}

fn expiry_after(now: u64, age: i64) -> u64
    ensures { result ≡ spec.expiry_after now age }
{
    if age <= 0 {
        return 0;
    }
    now.saturating_add(age as u64)
}
