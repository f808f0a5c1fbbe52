//! How the body of a reply is framed.
ghost use Rattle.std.specs.Prelude.{◌≡◌, All, length, map, codes, bytes_eq};
ghost use Rattle.std.specs.List.{list_all};
ghost use Rattle.httparse.specs.Spans.{IsHeaderWithin, header_bytes};
ghost use Rattle.fed_reply.specs.Body.{framing_of, framed_by, counted_by, length_of};
ghost use Rattle.fed_reply.specs.Fields.{fields_of, values_in, is_word};

use crate::ReplyStep;
use crate::fields::{first_named, is_in_any_case};
use httparse::spans::HeaderSpan;

/// How a body is framed (RFC 9112, 6.3).
#[derive(Clone, Copy, Debug, PartialEq, Eq)]
pub enum Framing {
    /// It is in chunks.
    Chunked,
    /// It has that many bytes.
    Counted(u64),
    /// It is all that follows the head.
    ToTheEnd,
}

/// The framing of a body by the fields of its reply: no content coding, then one transfer coding,
/// then the content length.
pub fn body_framing(raw: &[u8], spans: &[HeaderSpan]) -> Result<Framing, ReplyStep>
    requires { All (IsHeaderWithin (length raw.now)) spans.now }
    ensures { result ≡ framing_of (fields_of (map (header_bytes raw.now) spans.now)) }
{
    if is_identity(raw, spans) {
        transfer_framing(raw, spans)
    } else {
        Err(ReplyStep::Coding)
    }
}

// Whether there is no content coding but `identity`.
fn is_identity(raw: &[u8], spans: &[HeaderSpan]) -> bool
    requires { All (IsHeaderWithin (length raw.now)) spans.now }
    ensures { result ≡ list_all (is_word (codes "identity")) (values_in (codes "content-encoding") (map (header_bytes raw.now) spans.now)) }
{
    let mut rest = spans;
    while let Some((coding, after)) = first_named(raw, rest, b"content-encoding") {
        if !is_in_any_case(coding, b"identity") {
            return false;
        }
        rest = after;
    }
    true
}

// The framing by the transfer coding, and else by the content length.
fn transfer_framing(raw: &[u8], spans: &[HeaderSpan]) -> Result<Framing, ReplyStep>
    requires { All (IsHeaderWithin (length raw.now)) spans.now }
    ensures { result ≡ framed_by (values_in (codes "transfer-encoding") (map (header_bytes raw.now) spans.now))
        (values_in (codes "content-length") (map (header_bytes raw.now) spans.now)) }
{
    let Some((first, rest)) = first_named(raw, spans, b"transfer-encoding") else {
        return counted_framing(raw, spans);
    };
    if first_named(raw, rest, b"transfer-encoding").is_none() && is_in_any_case(first, b"chunked") {
        Ok(Framing::Chunked)
    } else {
        Err(ReplyStep::Coding)
    }
}

// The framing by the content length.
fn counted_framing(raw: &[u8], spans: &[HeaderSpan]) -> Result<Framing, ReplyStep>
    requires { All (IsHeaderWithin (length raw.now)) spans.now }
    ensures { result ≡ counted_by (values_in (codes "content-length") (map (header_bytes raw.now) spans.now)) }
{
    let Some((first, rest)) = first_named(raw, spans, b"content-length") else {
        return Ok(Framing::ToTheEnd);
    };
    if !are_all(first, raw, rest) {
        return Err(ReplyStep::Length);
    }
    match length(first) {
        Some(length) => Ok(Framing::Counted(length)),
        None => Err(ReplyStep::Length),
    }
}

// Whether the content lengths are all these bytes.
fn are_all(bytes: &[u8], raw: &[u8], spans: &[HeaderSpan]) -> bool
    requires { All (IsHeaderWithin (length raw.now)) spans.now }
    ensures { result ≡ list_all (bytes_eq bytes.now) (values_in (codes "content-length") (map (header_bytes raw.now) spans.now)) }
{
    let mut rest = spans;
    while let Some((value, after)) = first_named(raw, rest, b"content-length") {
        if bytes != value {
            return false;
        }
        rest = after;
    }
    true
}

// The number that 1 to 19 decimal digits write.
fn length(value: &[u8]) -> Option<u64>
    ensures { result ≡ length_of value.now }
{
    if value.is_empty() || value.len() > 19 {
        return None;
    }
    let mut length: u64 = 0;
    for byte in value {
        if !byte.is_ascii_digit() {
            return None;
        }
        length = length * 10 + u64::from(*byte - b'0');
    }
    Some(length)
}
