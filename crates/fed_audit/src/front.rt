//! A request as a server reads it.
ghost use Rattle.std.specs.Prelude.{◌≡◌, ◌≤◌, ℕ, List, length, IfOk, IfSome, IfNone};
ghost use Rattle.std.specs.Option.{option_copied};
ghost use Rattle.httparse.specs.Grammar.{RequestHead, ReadsRequest};
ghost use Rattle.httparse.specs.Spans.{IsRequestAt, IsRequestWithin};
ghost use Rattle.std.specs.Result.{result_ok};
ghost use Rattle.fed_origin.specs.WebUrl.{web_url};
ghost use Rattle.fed_audit.specs.Front as spec;
ghost use Rattle.fed_audit.specs.Front.{Front, FrontWithin, IsFrontAt};

use crate::parts::Request;
use fed_io::{Fault, NoRoom};
use fed_origin::{ReplyKind, WebUrl};
use httparse::Status;
use httparse::spans::{HeaderSpan, RequestSpans, parse_request};
use simdutf8::basic::from_utf8;
use std::alloc::Global;

// The same in the words of the grammar of `httparse`.
fn request_at(bytes: &[u8], spans: &mut [HeaderSpan]) -> Option<RequestSpans>
    ensures some { IfSome result (λ found. (h : RequestHead) × (length h.fields ≤ length spans.old)
        × IsRequestWithin bytes.now spans.new found × IsRequestAt bytes.now spans.new found h) }
    ensures none { IfNone result ((h : RequestHead) (rest : List ℕ) → ReadsRequest bytes.now h rest
        → ¬ (length h.fields ≤ length spans.old)) }
{
    match parse_request(bytes, spans) {
        Ok(Status::Complete(head)) => Some(head),
        _ => None,
    }
}

/// Where the parts of the head stand that some bytes begin with; None where they begin with no head of so few fields as there are spans.
pub(crate) fn front_at(bytes: &[u8], spans: &mut [HeaderSpan]) -> Option<RequestSpans>
    requires { length spans.old ≤ 128 }
    ensures some { IfSome result (λ found. (front : Front bytes.now) × IsFrontAt bytes.now spans.new found front) }
    ensures none { IfNone result (¬ (FrontWithin (length spans.old) bytes.now)) }
{
    request_at(bytes, spans)
}

/// The method of a request.
pub(crate) fn method_of(kind: ReplyKind) -> &'static [u8]
    ensures { result.now ≡ spec.method_of kind }
{
    match kind {
        ReplyKind::Assertion | ReplyKind::Disconnect => b"POST",
        ReplyKind::WellKnown | ReplyKind::Config | ReplyKind::Accounts | ReplyKind::Metadata => {
            b"GET"
        }
    }
}

// The URL of a text.
fn url_of_text(alloc: Global, text: &str) -> Result<Option<WebUrl>, NoRoom>
    ensures { IfOk result (λ url. url ≡ result_ok (web_url text.now)) }
{
    match WebUrl::read(alloc, text) {
        Ok(url) => Ok(Some(url)),
        Err(Fault::Step(_)) => Ok(None),
        Err(Fault::NoRoom) => Err(NoRoom),
    }
}

// The URL of bytes that are a text.
fn url_in(alloc: Global, bytes: &[u8]) -> Result<Option<WebUrl>, NoRoom>
    ensures { IfOk result (λ url. url ≡ spec.url_in bytes.now) }
{
    match from_utf8(bytes) {
        Ok(text) => url_of_text(alloc, text),
        Err(_) => Ok(None),
    }
}

// The URL of a target at a host.
fn url_at(alloc: Global, target: &[u8], host: &[u8]) -> Result<Option<WebUrl>, NoRoom>
    ensures { IfOk result (λ url. url ≡ spec.url_at target.now host.now) }
{
    let mut text = Vec::new(alloc);
    text.extend_from_slice(b"https://")?;
    text.extend_from_slice(host)?;
    text.extend_from_slice(target)?;
    url_in(alloc, text.as_slice())
}

/// The URL that a request of the kind goes to, by its method, its target and its one Host field; None where the method is another.
pub(crate) fn url_by(
    alloc: Global,
    kind: ReplyKind,
    request: &Request<'_>,
) -> Result<Option<WebUrl>, NoRoom>
    ensures { IfOk result (λ url. url ≡ spec.url_by kind request.now.method.now request.now.target.now (spec.fields_read request.now)) }
{
    if request.method != method_of(kind) {
        return Ok(None);
    }
    match request.only_value(b"host") {
        Some(host) => url_at(alloc, request.target, host),
        None => Ok(None),
    }
}

/// The Origin field that is due of a page of this origin.
pub(crate) fn origin_due(kind: ReplyKind, page: &[u8]) -> Option<&[u8]>
    ensures { option_copied result ≡ spec.origin_due kind page.now }
{
    match kind {
        ReplyKind::WellKnown | ReplyKind::Config | ReplyKind::Accounts => None,
        ReplyKind::Metadata | ReplyKind::Assertion | ReplyKind::Disconnect => Some(page),
    }
}

/// The Cookie field that is due, where the jar's text is this.
pub(crate) fn cookie_due(kind: ReplyKind, text: &[u8]) -> Option<&[u8]>
    ensures { option_copied result ≡ spec.cookie_due kind text.now }
{
    match kind {
        ReplyKind::WellKnown | ReplyKind::Config | ReplyKind::Metadata => None,
        ReplyKind::Accounts | ReplyKind::Assertion | ReplyKind::Disconnect => {
            if text.is_empty() { None } else { Some(text) }
        }
    }
}
