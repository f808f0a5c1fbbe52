//! Lines of the kind `have`.
ghost use Rattle.fed_script.specs.Said.{shown};
ghost use Rattle.fed_io.specs.Fault.{Answers};
ghost use Rattle.fed_script.specs.Have as spec;

use crate::cause::{LineCause, MemberName};
use crate::event::{Event, Have};
use crate::member::{self, text, web_url};
use crate::raw::required_bytes;
use crate::said::Said;
use crate::status::status;
use fed_io::{Fault, Placed, Text};
use fed_origin::Triple;
use std::alloc::Global;

// A login status that a line names.
fn login(alloc: Global, d: &Said<'_>) -> Result<Have, Fault<LineCause>>
    ensures { Answers result (spec.login_of (shown d.now)) }
{
    let origin = text(d, MemberName::Origin).map_err(Fault::Step)?;
    let status = status(d).map_err(Fault::Step)?;
    let origin = member::origin(alloc, origin)?;
    Ok(Have::Login { origin, status })
}

// A permission that a line names.
fn kept(alloc: Global, d: &Said<'_>) -> Result<Have, Fault<LineCause>>
    ensures { Answers result (spec.kept_of (shown d.now)) }
{
    let page = text(d, MemberName::Page).map_err(Fault::Step)?;
    let provider = text(d, MemberName::Provider).map_err(Fault::Step)?;
    let account = text(d, MemberName::Account).map_err(Fault::Step)?;
    let page = member::origin(alloc, page)?;
    let provider = member::origin(alloc, provider)?;
    let account = Text::of(alloc, account)?;
    Ok(Have::Kept(Triple {
        page,
        provider,
        account,
    }))
}

// An origin that a line names, whose pages prevented silent access.
fn silent(alloc: Global, d: &Said<'_>) -> Result<Have, Fault<LineCause>>
    ensures { Answers result (spec.silent_of (shown d.now)) }
{
    let origin = text(d, MemberName::Origin).map_err(Fault::Step)?;
    let origin = member::origin(alloc, origin)?;
    Ok(Have::Silent { origin })
}

// A cookie that a line names.
fn cookie(alloc: Global, d: &Said<'_>) -> Result<Have, Fault<LineCause>>
    ensures { Answers result (spec.cookie_of (shown d.now)) }
{
    let url = text(d, MemberName::Url).map_err(Fault::Step)?;
    let field = required_bytes(alloc, d)?;
    let url = web_url(alloc, url)?;
    Ok(Have::Cookie { url, field })
}

// What a line of this `what` says.
fn said(alloc: Global, what: &str, d: &Said<'_>) -> Result<Have, Fault<LineCause>>
    ensures { Answers result (spec.said what.now (shown d.now)) }
{
    match what {
        "login" => login(alloc, d),
        "kept" => kept(alloc, d),
        "silent" => silent(alloc, d),
        "cookie" => cookie(alloc, d),
        _ => Err(Fault::Step(LineCause::Member(MemberName::What))),
    }
}

/// The have that a line names.
pub(crate) fn have_named(alloc: Global, d: &Said<'_>) -> Result<Event, Fault<LineCause>>
    ensures { Answers result (spec.have_of (shown d.now)) }
{
    let what = text(d, MemberName::What).map_err(Fault::Step)?;
    let have = said(alloc, what, d)?;
    Ok(Event::Have(Placed::new(alloc, have)?))
}
