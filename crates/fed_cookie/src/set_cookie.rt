//! The reader of a Set-Cookie field (RFC 6265, 5.2).
ghost use Rattle.std.specs.Prelude.{◌≡◌, ◌==◌, IfOk, map};
ghost use Rattle.std.specs.Char.{to_ascii_lowercase};
ghost use Rattle.std.specs.List.{list_any};
ghost use Rattle.fed_cookie.specs.SetCookie.{HasNoLineEnd};
ghost use Rattle.fed_cookie.specs.Fields as spec;

use crate::RawCookie;
use crate::attributes::{Attributes, named_value};
use crate::bytes::cut;
use fed_io::{Bytes, NoRoom};
use std::alloc::Global;

/// Reads the value of a Set-Cookie field (RFC 6265, 5.2). `None` where it has a control byte other
/// than tab, where its pair has no `=`, or where the name is empty.
pub fn read_set_cookie(alloc: Global, field: &[u8]) -> Result<Option<RawCookie>, NoRoom>
    ensures { IfOk result (λ cookie. cookie ≡ spec.set_cookie_of field.now) }
{
    if is_refused(field) {
        return Ok(None);
    }
    match cut(b';', field) {
        Some((pair, parts)) => cookie_of(alloc, pair, Attributes::of(parts)),
        None => cookie_of(alloc, field, Attributes::none()),
    }
}

fn is_refused(field: &[u8]) -> bool
    ensures { result ≡ list_any spec.is_refused field.now }
{
    // All bytes are looked at, since a loop that ends early looks at one byte at a time.
    let mut found = false;
    for b in field {
        found |= is_control(*b);
    }
    found
}

fn is_control(b: u8) -> bool
    ensures { result ≡ spec.is_refused b }
{
    ((b < 0x20) & (b != b'\t')) | (b == 0x7f)
}

fn cookie_of(alloc: Global, pair: &[u8], said: Attributes) -> Result<Option<RawCookie>, NoRoom>
    requires { HasNoLineEnd pair.now }
    ensures { IfOk result (λ cookie. cookie ≡ spec.named_cookie pair.now said.entry) }
{
    let Some((name, value)) = named_value(pair) else {
        return Ok(None);
    };
    if name.is_empty() {
        return Ok(None);
    }
    let domain = match said.domain {
        Some(domain) => Some(lowercase(alloc, domain)?),
        None => None,
    };
    let path = match said.path {
        Some(path) => Some(Bytes::of(alloc, path)?),
        None => None,
    };
    Ok(Some(RawCookie {
        name: Bytes::of(alloc, name)?,
        value: Bytes::of(alloc, value)?,
        domain,
        path,
        expires: said.expires,
        max_age: said.max_age,
        secure: said.secure,
        same_site: said.same_site,
    }))
}

fn lowercase(alloc: Global, bytes: &[u8]) -> Result<Bytes, NoRoom>
    ensures { IfOk result (λ lower. lower ≡ map to_ascii_lowercase bytes.now) }
{
    Ok(Bytes::from_vec(bytes.to_ascii_lowercase(alloc)?))
}
