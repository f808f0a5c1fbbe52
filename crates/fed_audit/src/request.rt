//! What a request has to be.
ghost use Rattle.std.specs.Prelude.{◌≡◌, ◌<◌, ◌&&◌, ℕ, Some, None, not, IfOk};
ghost use Rattle.std.specs.Option.{option_copied};
ghost use Rattle.fed_session.specs.Session.{Stands};
ghost use Rattle.fed_trace.specs.Begun.{Begun};
ghost use Rattle.fed_trace.specs.Trace.{Trace};
ghost use Rattle.fed_audit.specs.declared.record.Record.TheVariants.{Request as Asks};
ghost use Rattle.fed_audit.specs.Consent.{HasConsent};
ghost use Rattle.fed_audit.specs.Follow.{Follows, Notes};
ghost use Rattle.fed_audit.specs.Found as found;
ghost use Rattle.fed_audit.specs.Front.{Front, IsRead};
ghost use Rattle.fed_audit.specs.Front as spec;
ghost use Rattle.fed_audit.specs.Scene.{Scene, Began, provider_count, trace_through};

use crate::fault::AuditClause;
use crate::form::only_pair;
use crate::front::{cookie_due, front_at, origin_due, url_by};
use crate::parts::Request;
use crate::seen::Seen;
use fed_io::{NoRoom, Text};
use fed_origin::{Origin, ReplyKind, WebUrl};
use fed_session::Session;
use httparse::spans::EMPTY_HEADER_SPAN;
use std::alloc::Global;

/// A record that says that a call asked something of the provider at this place.
#[derive(Clone, Copy)]
pub(crate) struct Asking<'a> {
    pub call: u32,
    pub provider: u32,
    pub kind: ReplyKind,
    pub bytes: &'a [u8],
}

// Whether a request names its page in its Origin field where that is due, and nowhere else.
fn names_page(
    alloc: Global,
    kind: ReplyKind,
    page: &Origin,
    request: &Request<'_>,
) -> Result<bool, NoRoom>
    ensures { IfOk result (λ names. names ≡ spec.names_page kind page.now (spec.fields_read request.now)) }
{
    let page = page.serialize(alloc)?;
    let due = origin_due(kind, page.as_str().as_bytes());
    Ok(request.are_due(b"referer", None) && request.are_due(b"origin", due))
}

// Whether a request has the cookies of the URL that it goes to.
fn has_cookies(
    session: &Session,
    kind: ReplyKind,
    url: &WebUrl,
    request: &Request<'_>,
) -> Result<bool, NoRoom>
    ensures { (T : Trace) → Stands session.now T
        → IfOk result (λ has. has ≡ found.has_cookies T kind url.now (spec.fields_read request.now)) }
{
    let text = session.cookie_text(url)?;
    Ok(request.are_due(b"cookie", cookie_due(kind, text.as_slice())))
}

// The first clause that the head of a request fails, if it fails one.
fn head_fault(
    alloc: Global,
    session: &Session,
    page: &Origin,
    kind: ReplyKind,
    request: &Request<'_>,
) -> Result<Option<AuditClause>, NoRoom>
    ensures { (T : Trace) → Stands session.now T
        → IfOk result (λ fault. fault ≡ found.head_fault T kind page.now
        (spec.url_by kind request.now.method.now request.now.target.now (spec.fields_read request.now)) (spec.fields_read request.now)) }
{
    let Some(url) = url_by(alloc, kind, request)? else {
        return Ok(Some(AuditClause::Head));
    };
    if !names_page(alloc, kind, page, request)? {
        return Ok(Some(AuditClause::Origin));
    }
    if !has_cookies(session, kind, &url, request)? {
        return Ok(Some(AuditClause::Cookie));
    }
    Ok(None)
}

// Whether it is this call and this provider.
fn is_pair(pair: Option<(u32, u32)>, call: u32, provider: u32) -> bool
    ensures { result ≡ found.is_pair call provider pair }
{
    match pair {
        Some((c, p)) => c == call && p == provider,
        None => false,
    }
}

// Whether both texts are there and the same.
fn same_text(text: &Option<Text>, other: Option<&str>) -> bool
    ensures { result ≡ found.same_text text.now (option_copied other.entry) }
{
    match (text, other) {
        (Some(text), Some(other)) => text.as_str() == other,
        (Some(_), None) | (None, Some(_)) | (None, None) => false,
    }
}

// Whether the own row asks, no earlier record did, and the account is the one that is awaited.
fn are_agreed(asks: bool, asked: bool, same: bool) -> bool
    ensures { result ≡ (asks && (not asked && same)) }
{
    asks && !asked && same
}

// Whether the user agreed to a request for a token, by its form.
fn may_ask(
    alloc: Global,
    seen: &Seen,
    call: u32,
    provider: u32,
    body: &[u8],
) -> Result<bool, NoRoom>
    ensures { (s : Scene) → Follows seen.now (trace_through s) → Notes seen.now s.earlier
        → IfOk result (λ may. found.IsTest may (HasConsent s call provider body.now)) }
{
    let account = only_pair(alloc, body, "account_id")?;
    let asks = is_pair(seen.asks, call, provider);
    let asked = seen.asked.has(call);
    let same = same_text(&account, seen.session.account(call));
    Ok(are_agreed(asks, asked, same))
}

// Whether the kind asks for a token.
fn asks_token(kind: ReplyKind) -> bool
    ensures { result ≡ found.asks_token kind }
{
    matches!(kind, ReplyKind::Assertion)
}

// The first clause after `call` that a request fails, if it fails one.
fn front_fault(
    alloc: Global,
    seen: &Seen,
    page: &Origin,
    asking: &Asking<'_>,
    request: &Request<'_>,
) -> Result<Option<AuditClause>, NoRoom>
    requires { (front : Front asking.now.bytes.now) × IsRead asking.now.bytes.now front request.now }
    ensures { (s : Scene) (line : ℕ) (begun : Begun) → Follows seen.now (trace_through s) → Notes seen.now s.earlier
        → Began s asking.now.call begun → begun.origin ≡ page.now → asking.now.provider < provider_count begun.options
        → IfOk result (found.IsFirst s (Asks line asking.now.call asking.now.provider asking.now.kind asking.now.bytes.now)) }
{
    let fault = head_fault(alloc, &seen.session, page, asking.kind, request)?;
    if fault.is_some() {
        return Ok(fault);
    }
    if !asks_token(asking.kind) {
        return Ok(None);
    }
    if may_ask(alloc, seen, asking.call, asking.provider, request.body)? {
        return Ok(None);
    }
    Ok(Some(AuditClause::Consent))
}

// Judges a request by its bytes. Few requests have more than 16 fields.
fn bytes_fault(
    alloc: Global,
    seen: &Seen,
    page: &Origin,
    asking: &Asking<'_>,
) -> Result<Option<AuditClause>, NoRoom>
    ensures { (s : Scene) (line : ℕ) (begun : Begun) → Follows seen.now (trace_through s) → Notes seen.now s.earlier
        → Began s asking.now.call begun → begun.origin ≡ page.now → asking.now.provider < provider_count begun.options
        → IfOk result (found.IsFirst s (Asks line asking.now.call asking.now.provider asking.now.kind asking.now.bytes.now)) }
{
    let mut spans = [EMPTY_HEADER_SPAN; 16];
    match front_at(asking.bytes, &mut spans) {
        Some(head) => {
            let request = Request::of(asking.bytes, &spans, &head);
            front_fault(alloc, seen, page, asking, &request)
        }
        None => long_fault(alloc, seen, page, asking),
    }
}

// Judges a request of more than 16 fields, or without a head.
#[inline(never)]
fn long_fault(
    alloc: Global,
    seen: &Seen,
    page: &Origin,
    asking: &Asking<'_>,
) -> Result<Option<AuditClause>, NoRoom>
    ensures { (s : Scene) (line : ℕ) (begun : Begun) → Follows seen.now (trace_through s) → Notes seen.now s.earlier
        → Began s asking.now.call begun → begun.origin ≡ page.now → asking.now.provider < provider_count begun.options
        → IfOk result (found.IsFirst s (Asks line asking.now.call asking.now.provider asking.now.kind asking.now.bytes.now)) }
{
    let mut spans = [EMPTY_HEADER_SPAN; 128];
    match front_at(asking.bytes, &mut spans) {
        Some(head) => {
            let request = Request::of(asking.bytes, &spans, &head);
            front_fault(alloc, seen, page, asking, &request)
        }
        None => Ok(Some(AuditClause::Head)),
    }
}

/// The first clause that a request of a call fails, if it fails one.
pub(crate) fn request_fault(
    alloc: Global,
    seen: &Seen,
    asking: &Asking<'_>,
) -> Result<Option<AuditClause>, NoRoom>
    ensures { (s : Scene) (line : ℕ) → Follows seen.now (trace_through s) → Notes seen.now s.earlier
        → IfOk result (found.IsFirst s (Asks line asking.now.call asking.now.provider asking.now.kind asking.now.bytes.now)) }
{
    let Some(begun) = seen.calls.get(asking.call) else {
        return Ok(Some(AuditClause::Call));
    };
    if asking.provider >= begun.providers {
        return Ok(Some(AuditClause::Call));
    }
    bytes_fault(alloc, seen, &begun.origin, asking)
}
