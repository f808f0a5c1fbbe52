//! Lines of the kind `load`.
ghost use Rattle.fed_script.specs.Said.{shown};
ghost use Rattle.fed_io.specs.Fault.{Answers};
ghost use Rattle.fed_script.specs.Load as spec;

use crate::cause::{LineCause, MemberName};
use crate::event::Event;
use crate::member::{number, text, web_url};
use crate::raw::optional_bytes;
use crate::said::Said;
use fed_io::{Bytes, Fault};
use std::alloc::Global;

/// The load that a line names.
pub(crate) fn load(alloc: Global, d: &Said<'_>) -> Result<Event, Fault<LineCause>>
    ensures { Answers result (spec.load_of (shown d.now)) }
{
    let page = number(d, MemberName::Page).map_err(Fault::Step)?;
    let url = text(d, MemberName::Url).map_err(Fault::Step)?;
    let raw = optional_bytes(alloc, d)?;
    load_by(alloc, page, url, raw)
}

/// The load of a page whose URL is a text, with the bytes of a reply if there are any.
pub(crate) fn load_by(
    alloc: Global,
    page: u32,
    url: &str,
    raw: Option<Bytes>,
) -> Result<Event, Fault<LineCause>>
    ensures { Answers result (spec.load_by page url.now raw) }
{
    let url = web_url(alloc, url)?;
    Ok(Event::Load { page, url, raw })
}
