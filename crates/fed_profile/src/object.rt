//! The objects of the lines of a saved session.
ghost use Rattle.std.specs.Prelude.{◌≡◌, IfOk, string_bytes};
ghost use Rattle.std.specs.Option.{option_copied};
ghost use Rattle.fed_print.specs.Object.{members_of};
ghost use Rattle.fed_print.specs.Objects.{put_if};
ghost use Rattle.fed_print.specs.Records.{ascii_text, bytes_member};
ghost use Rattle.fed_profile.specs.Lines as spec;

use base64::engine::general_purpose::STANDARD;
use fed_io::NoRoom;
use fed_origin::{LoginStatus, Origin, Triple};
use fed_print::Object;
use std::alloc::Global;

// The bytes as a text, where all are below 128.
fn ascii(bytes: &[u8]) -> Option<&str>
    ensures { option_copied result ≡ ascii_text bytes.now }
{
    if !bytes.is_ascii() {
        return None;
    }
    match str::from_utf8(bytes) {
        Ok(text) => Some(text),
        Err(_) => None,
    }
}

// The origin as a URL: its text and `/`.
fn origin_url(alloc: Global, origin: &Origin) -> Result<String, NoRoom>
    ensures { IfOk result (λ url. string_bytes url ≡ spec.origin_url origin.now) }
{
    let text = origin.serialize(alloc)?;
    let mut url = String::from_str(alloc, text.as_str())?;
    url.push_str("/")?;
    Ok(url)
}

/// The header of the time and of rules with this text.
pub fn header_object(alloc: Global, now: u64, rules: &[u8]) -> Result<Object, NoRoom>
    ensures { IfOk result (λ o. members_of o ≡ spec.header_members now rules.now) }
{
    Object::new(alloc)
        .count("fedcm", 1)?
        .total("now", now)?
        .text_if("rules", ascii(rules))
}

/// The line of a login status.
pub fn login_object(alloc: Global, origin: &Origin, status: LoginStatus) -> Result<Object, NoRoom>
    ensures { IfOk result (λ o. members_of o ≡ spec.login_members origin.now status) }
{
    let url = origin_url(alloc, origin)?;
    Object::new(alloc)
        .text("do", "have")?
        .text("origin", url.as_str())?
        .text("what", "login")?
        .text_if("status", status.as_str())
}

/// The line of a permission.
pub fn kept_object(alloc: Global, triple: &Triple) -> Result<Object, NoRoom>
    ensures { IfOk result (λ o. members_of o ≡ spec.kept_members triple.now) }
{
    let page = origin_url(alloc, &triple.page)?;
    let provider = origin_url(alloc, &triple.provider)?;
    Object::new(alloc)
        .text("account", triple.account.as_str())?
        .text("do", "have")?
        .text("page", page.as_str())?
        .text("provider", provider.as_str())?
        .text("what", "kept")
}

/// The line of an origin whose flag is set.
pub fn flag_object(alloc: Global, origin: &Origin) -> Result<Object, NoRoom>
    ensures { IfOk result (λ o. members_of o ≡ spec.flag_members origin.now) }
{
    let url = origin_url(alloc, origin)?;
    Object::new(alloc)
        .text("do", "have")?
        .text("origin", url.as_str())?
        .text("what", "silent")
}

// The object with bytes at `text`, where they are one, else at `raw` in base64.
fn with_bytes(alloc: Global, object: Object, bytes: &[u8]) -> Result<Object, NoRoom>
    ensures { IfOk result (λ o. let named =
        bytes_member (ascii_text bytes.now) bytes.now in members_of o ≡ put_if named.0 named.1 (members_of object)) }
{
    match ascii(bytes) {
        Some(text) => object.text("text", text),
        None => object.text("raw", STANDARD.encode(alloc, bytes)?.as_str()),
    }
}

// The line of a cookie but for its field.
fn url_object(alloc: Global, url: &[u8]) -> Result<Object, NoRoom>
    ensures { IfOk result (λ o. members_of o ≡ spec.url_members url.now) }
{
    Object::new(alloc)
        .text("do", "have")?
        .text("what", "cookie")?
        .text_if("url", ascii(url))
}

/// The line of a cookie with this field, from this URL.
pub fn cookie_object(alloc: Global, field: &[u8], url: &[u8]) -> Result<Object, NoRoom>
    ensures { IfOk result (λ o. members_of o ≡ spec.cookie_members field.now url.now) }
{
    let object = url_object(alloc, url)?;
    let whole = with_bytes(alloc, object, field)?;
    Ok(whole)
}

/// The line of a page.
pub fn page_object(alloc: Global, page: u32, origin: &Origin) -> Result<Object, NoRoom>
    ensures { IfOk result (λ o. members_of o ≡ spec.page_members page origin.now) }
{
    let url = origin_url(alloc, origin)?;
    Object::new(alloc)
        .text("do", "load")?
        .count("page", page)?
        .text("url", url.as_str())
}
