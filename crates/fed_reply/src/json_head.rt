//! What the reading of a JSON value asks of the head of a reply, without a multimap of its fields.
ghost use Rattle.std.specs.Prelude.{◌≡◌, Some, All, length, map, slice_get, codes};
ghost use Rattle.httparse.specs.Spans.{IsHeaderWithin, header_bytes};
ghost use Rattle.fed_head.specs.Found.{FindsHead};
ghost use Rattle.fed_head.specs.Head.{head_of, within};
ghost use Rattle.fed_reply.specs.Reply.{FrontOf};
ghost use Rattle.std.specs.List.{list_all};
ghost use Rattle.http_header.specs.Token.{lowercase};
ghost use Rattle.fed_reply.specs.Fields.{is_only, values_in};
ghost use Rattle.fed_reply.specs.Json as spec;

use crate::ReplyStep;
use crate::fields::{are_short, first_named, is_only_value};
use crate::framing::{Framing, body_framing};
use crate::json_value::is_json_type;
use fed_head::{HeadSpans, read_head_spans};
use httparse::spans::{EMPTY_HEADER_SPAN, HeaderSpan};

/// How the value of a reply is read, by its head.
#[derive(Clone, Copy)]
pub struct JsonHead {
    /// The status code, 100 to 999.
    pub status: u16,
    /// Whether the first content type names JSON.
    pub is_json: bool,
    /// Whether each field that was asked for stands exactly once, with its value.
    pub has_each: bool,
    /// How the body is framed.
    pub framing: Result<Framing, ReplyStep>,
    /// The length of the head in bytes.
    pub len: usize,
}

/// Reads the head at the front of the bytes, and whether each field of these names, in any case, stands exactly once with the value beside
/// its name. It takes no memory.
pub fn read_json_head(raw: &[u8], only: &[(&str, &[u8])]) -> Result<JsonHead, ReplyStep>
    ensures { spec.FindsJsonHead (spec.asked only.now) raw.now (FrontOf raw.now) result }
{
    // Few heads have more than 16 fields: 512 bytes are cleared here in place of the 4,096 of 128 places.
    let mut spans = [EMPTY_HEADER_SPAN; 16];
    match read_head_spans(raw, &mut spans) {
        Some(head) => json_head_at(raw, &spans, head, only),
        None => read_long_head(raw, only),
    }
}

// The same of a head of more than 16 fields.
fn read_long_head(raw: &[u8], only: &[(&str, &[u8])]) -> Result<JsonHead, ReplyStep>
    ensures { spec.FindsJsonHead (spec.asked only.now) raw.now (FrontOf raw.now) result }
{
    let mut spans = [EMPTY_HEADER_SPAN; 128];
    match read_head_spans(raw, &mut spans) {
        Some(head) => json_head_at(raw, &spans, head, only),
        None => Err(ReplyStep::Head),
    }
}

// What a head says whose fields stand at the first spans.
fn json_head_at(
    raw: &[u8],
    spans: &[HeaderSpan],
    head: HeadSpans,
    only: &[(&str, &[u8])],
) -> Result<JsonHead, ReplyStep>
    requires { FindsHead raw.now spans.now (within 128 (head_of raw.now)) (Some head) }
    ensures { spec.FindsJsonHead (spec.asked only.now) raw.now (FrontOf raw.now) result }
{
    let fields = &spans[..head.count];
    if !(100..1000).contains(&head.status) {
        return Err(ReplyStep::Head);
    }
    if !are_short(fields) {
        return Err(ReplyStep::Head);
    }
    Ok(JsonHead {
        status: head.status,
        is_json: has_json_type(raw, fields),
        has_each: has_each(raw, fields, only),
        framing: body_framing(raw, fields),
        len: head.len,
    })
}

// Whether the first content type is there and names JSON.
fn has_json_type(raw: &[u8], spans: &[HeaderSpan]) -> bool
    requires { All (IsHeaderWithin (length raw.now)) spans.now }
    ensures { result ≡ spec.is_json_type (slice_get (values_in (codes "content-type") (map (header_bytes raw.now) spans.now)) 0) }
{
    match first_named(raw, spans, b"content-type") {
        Some((value, _)) => is_json_type(Some(value)),
        None => false,
    }
}

// Whether each field that is asked for stands exactly once, with its value.
fn has_each(raw: &[u8], spans: &[HeaderSpan], only: &[(&str, &[u8])]) -> bool
    requires { All (IsHeaderWithin (length raw.now)) spans.now }
    ensures { result ≡ list_all (λ f. is_only f.1.now (values_in (lowercase f.0.now) (map (header_bytes raw.now) spans.now))) only.now }
{
    only.iter().all(|(name, value)| has_only(raw, spans, name.as_bytes(), value))
}

// Whether exactly one field has that name, and it has that value.
fn has_only(raw: &[u8], spans: &[HeaderSpan], name: &[u8], value: &[u8]) -> bool
    requires { All (IsHeaderWithin (length raw.now)) spans.now }
    ensures { result ≡ is_only value.now (values_in (lowercase name.now) (map (header_bytes raw.now) spans.now)) }
{
    match first_named(raw, spans, name) {
        Some((found, rest)) => {
            let second = first_named(raw, rest, name);
            is_only_value(found, second.is_some(), value)
        }
        None => false,
    }
}
