//! The field that stores a cookie again, and the URL that it comes from.
ghost use Rattle.std.specs.Prelude.{◌≡◌, ◌++◌, IfOk, OnOk};
ghost use Rattle.std.specs.List.{list_any};
ghost use Rattle.fed_profile.specs.CookieField as spec;

use fed_cookie::SameSite;
use fed_io::{Bytes, NoRoom};
use fed_jar::Cookie;
use itoa::Buffer;
use std::alloc::Global;

// A path that no attribute can say.
fn has_semicolon(path: &[u8]) -> bool
    ensures { result ≡ spec.has_semicolon path.now }
{
    path.iter().any(|b| *b == b';')
}

fn same_site_text(same_site: SameSite) -> &'static str
    ensures { result.now ≡ spec.same_site_text same_site }
{
    match same_site {
        SameSite::NoLimit => "None",
        SameSite::Lax => "Lax",
        SameSite::Strict => "Strict",
    }
}

fn push_domain(field: &mut Vec<u8>, cookie: &Cookie) -> Result<(), NoRoom>
    ensures { OnOk result (field.new.items ≡ field.old.items ++ spec.domain_part cookie.now) }
{
    if cookie.host_only {
        return Ok(());
    }
    field.extend_from_slice(b"; Domain=")?;
    field.extend_from_slice(cookie.domain.as_slice())?;
    Ok(())
}

fn push_age(field: &mut Vec<u8>, now: u64, expiry: Option<u64>) -> Result<(), NoRoom>
    ensures { OnOk result (field.new.items ≡ field.old.items ++ spec.age_part now expiry) }
{
    let Some(expiry) = expiry else {
        return Ok(());
    };
    let mut buffer = Buffer::new();
    field.extend_from_slice(b"; Max-Age=")?;
    field.extend_from_slice(buffer.format(expiry.saturating_sub(now)).as_bytes())?;
    Ok(())
}

fn push_path(field: &mut Vec<u8>, path: &[u8]) -> Result<(), NoRoom>
    ensures { OnOk result (field.new.items ≡ field.old.items ++ spec.path_part path.now) }
{
    if has_semicolon(path) {
        return Ok(());
    }
    field.extend_from_slice(b"; Path=")?;
    field.extend_from_slice(path)?;
    Ok(())
}

fn push_secure(field: &mut Vec<u8>, secure: bool) -> Result<(), NoRoom>
    ensures { OnOk result (field.new.items ≡ field.old.items ++ spec.secure_part secure) }
{
    if secure {
        field.extend_from_slice(b"; Secure")?;
    }
    Ok(())
}

// To which hosts and paths it goes, and for how long.
#[tactic(auto, using(std::proofs::Common::append_assoc))]
fn push_scope(field: &mut Vec<u8>, now: u64, cookie: &Cookie) -> Result<(), NoRoom>
    ensures { OnOk result (field.new.items ≡ field.old.items ++ spec.scope_text now cookie.now) }
{
    push_domain(field, cookie)?;
    push_age(field, now, cookie.expiry)?;
    push_path(field, cookie.path.as_slice())?;
    Ok(())
}

// On which requests it goes.
#[tactic(auto, using(std::proofs::Common::append_assoc))]
fn push_guard(field: &mut Vec<u8>, secure: bool, same_site: SameSite) -> Result<(), NoRoom>
    ensures { OnOk result (field.new.items ≡ field.old.items ++ spec.guard_text secure same_site) }
{
    push_secure(field, secure)?;
    field.extend_from_slice(b"; SameSite=")?;
    field.extend_from_slice(same_site_text(same_site).as_bytes())?;
    Ok(())
}

#[tactic(auto, using(std::proofs::Common::append_assoc))]
fn pair_of(alloc: Global, cookie: &Cookie) -> Result<Vec<u8>, NoRoom>
    ensures { IfOk result (λ pair. pair.items ≡ spec.pair_text cookie.now) }
{
    let mut pair = cookie.name.as_slice().to_vec(alloc)?;
    pair.extend_from_slice(b"=")?;
    pair.extend_from_slice(cookie.value.as_slice())?;
    Ok(pair)
}

/// The Set-Cookie value that stores the cookie at the time.
#[tactic(auto, unfolding(crate::specs::CookieField::cookie_field), using(std::proofs::Common::append_assoc))]
pub fn cookie_field(alloc: Global, now: u64, cookie: &Cookie) -> Result<Bytes, NoRoom>
    ensures { IfOk result (λ field. field ≡ spec.cookie_field now cookie.now) }
{
    let mut field = pair_of(alloc, cookie)?;
    push_scope(&mut field, now, cookie)?;
    push_guard(&mut field, cookie.secure, cookie.same_site)?;
    Ok(Bytes::from_vec(field))
}

fn push_path_in_url(url: &mut Vec<u8>, path: &[u8]) -> Result<(), NoRoom>
    ensures { OnOk result (url.new.items ≡ url.old.items ++ spec.path_in_url path.now) }
{
    if has_semicolon(path) {
        url.extend_from_slice(path)?;
    }
    Ok(())
}

/// The URL from which the cookie is stored.
#[tactic(auto, unfolding(crate::specs::CookieField::cookie_url), using(std::proofs::Common::append_assoc))]
pub fn cookie_url(alloc: Global, cookie: &Cookie) -> Result<Bytes, NoRoom>
    ensures { IfOk result (λ url. url ≡ spec.cookie_url cookie.now) }
{
    let mut url = b"https://".to_vec(alloc)?;
    url.extend_from_slice(cookie.domain.as_slice())?;
    push_path_in_url(&mut url, cookie.path.as_slice())?;
    url.extend_from_slice(b"/")?;
    Ok(Bytes::from_vec(url))
}
