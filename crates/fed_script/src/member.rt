//! Reading one member of a line.
ghost use Rattle.std.specs.Prelude.{◌≡◌, option_map};
ghost use Rattle.std.specs.Option.{option_copied};
ghost use Rattle.std.specs.Result.{result_map_both};
ghost use Rattle.serde_json.specs.Find.{as_str};
ghost use Rattle.fed_script.specs.Said.{shown};
ghost use Rattle.fed_io.specs.Fault.{Answers};
ghost use Rattle.fed_json.specs.Begun.{begun_data};
ghost use Rattle.fed_script.specs.Member as spec;

use crate::cause::{LineCause, MemberName};
use crate::said::Said;
use fed_io::Fault;
use fed_json::Begun;
use fed_origin::{Origin, WebUrl};
use std::alloc::Global;

/// A member, which is absent where it is null.
pub(crate) fn member<'a>(d: &Said<'a>, name: MemberName) -> Option<Begun<'a>>
    ensures { option_map begun_data result ≡ spec.member_of name (shown d.now) }
{
    match d.under(name) {
        Begun::Null => None,
        found => Some(found),
    }
}

/// A whole number of 64 bits.
pub(crate) fn whole(d: &Said<'_>, name: MemberName) -> Result<u64, LineCause>
    ensures { result ≡ spec.required spec.as_whole name (shown d.now) }
{
    let Some(found) = member(d, name) else {
        return Err(LineCause::Member(name));
    };
    match found.as_u64() {
        Some(n) => Ok(n),
        None => Err(LineCause::Member(name)),
    }
}

/// A whole number of 32 bits.
pub(crate) fn number(d: &Said<'_>, name: MemberName) -> Result<u32, LineCause>
    ensures { result ≡ spec.required spec.as_u32 name (shown d.now) }
{
    let Some(found) = member(d, name) else {
        return Err(LineCause::Member(name));
    };
    match found.as_u64() {
        Some(n) => u32::try_from(n).map_err(|_| LineCause::Member(name)),
        None => Err(LineCause::Member(name)),
    }
}

/// A text.
pub(crate) fn text<'a>(d: &Said<'a>, name: MemberName) -> Result<&'a str, LineCause>
    ensures { result_map_both (λ s. s.now) (λ e. e) result ≡ spec.required as_str name (shown d.now) }
{
    let Some(found) = member(d, name) else {
        return Err(LineCause::Member(name));
    };
    match found.as_str() {
        Some(text) => Ok(text),
        None => Err(LineCause::Member(name)),
    }
}

/// A text that may be absent.
pub(crate) fn optional_text<'a>(
    d: &Said<'a>,
    name: MemberName,
) -> Result<Option<&'a str>, LineCause>
    ensures { result_map_both option_copied (λ e. e) result
        ≡ spec.optional as_str name (spec.member_of name (shown d.now)) }
{
    let Some(found) = member(d, name) else {
        return Ok(None);
    };
    match found.as_str() {
        Some(text) => Ok(Some(text)),
        None => Err(LineCause::Member(name)),
    }
}

/// A whole number of 32 bits that may be absent.
pub(crate) fn optional_number(d: &Said<'_>, name: MemberName) -> Result<Option<u32>, LineCause>
    ensures { result ≡ spec.optional spec.as_u32 name (spec.member_of name (shown d.now)) }
{
    if member(d, name).is_none() {
        return Ok(None);
    }
    Ok(Some(number(d, name)?))
}

/// The URL of a text; BadUrl where there is none.
pub(crate) fn web_url(alloc: Global, text: &str) -> Result<WebUrl, Fault<LineCause>>
    ensures { Answers result (spec.url_of text.now) }
{
    match WebUrl::read(alloc, text) {
        Ok(url) => Ok(url),
        Err(Fault::Step(_)) => Err(Fault::Step(LineCause::BadUrl)),
        Err(Fault::NoRoom) => Err(Fault::NoRoom),
    }
}

/// The origin of the URL of a text; BadUrl where there is none.
pub(crate) fn origin(alloc: Global, text: &str) -> Result<Origin, Fault<LineCause>>
    ensures { Answers result (spec.origin_of_text text.now) }
{
    let url = web_url(alloc, text)?;
    Ok(Origin::of_url(alloc, &url)?)
}
