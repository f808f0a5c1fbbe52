//! The JSON value of a reply.
ghost use Rattle.std.specs.Prelude.{◌≡◌, ok_or};
ghost use Rattle.std.specs.List.{list_all};
ghost use Rattle.std.specs.Option.{option_copied};
ghost use Rattle.httparse.specs.Grammar as grammar;
ghost use Rattle.serde_json.specs.View.{view};
ghost use Rattle.fed_json.specs.Value.{value_of};
ghost use Rattle.fed_io.specs.Fault.{AnswersBy};
ghost use Rattle.fed_reply.specs.Json as spec;

use crate::fields::is_in_any_case;
use crate::json_head::read_json_head;
use crate::read::find_body;
use crate::{Reply, ReplyStep};
use fed_io::{Bytes, Fault, NoRoom, place_of, trim};
use fed_json::Values;
use json::Scratch;
use serde_json::Value;
use std::alloc::Global;

// The byte order mark of UTF-8.
const MARK: [u8; 3] = [0xEF, 0xBB, 0xBF];

/// What a value is read from: the body of its reply where that does not stand in the bytes, and memory for the reading. Both are lent
/// to the values.
pub struct JsonBuffer {
    body: Option<Bytes>,
    scratch: Scratch,
}

// Written out, so that one function lets it go wherever it ends.
impl Drop for JsonBuffer {
    fn drop(self) {
        let JsonBuffer {
            body: _,
            scratch: _,
        } = self;
    }
}

impl JsonBuffer {
    /// Nothing to read from. It takes no memory.
    // Made where it stays: it is 16 KB, which would be copied.
    #[inline(always)]
    pub fn new(alloc: Global) -> JsonBuffer {
        JsonBuffer {
            body: None,
            scratch: Scratch::new(alloc),
        }
    }
}

/// The values of the JSON text that the bytes of a reply of the class 2xx carry whose first content type is JSON (WHATWG MIME Sniffing,
/// 4.6), to be read from left to right; one byte order mark before it is dropped. The steps are those of `read_reply`, and then `Status`,
/// `Mime` and `Json`, in this order; a text that is no value is still to be told by the reading.
pub fn open_json<'a>(
    alloc: Global,
    raw: &'a [u8],
    buffer: &'a mut JsonBuffer,
) -> Result<Values<'a>, Fault<ReplyStep>>
    ensures { spec.Opens ReplyStep.Json result (spec.ReplyJsonOf raw.now) }
{
    let head = match read_json_head(raw, &[]) {
        Ok(head) => head,
        Err(step) => return Err(Fault::Step(step)),
    };
    let JsonBuffer { body, scratch } = buffer;
    let body = match find_body(alloc, head.framing, &raw[head.len..], body) {
        Ok(body) => body,
        Err(fault) => return Err(fault),
    };
    match refusal(head.status, head.is_json) {
        Some(step) => Err(Fault::Step(step)),
        None => open_body(body, scratch),
    }
}

/// What `open_json` gives of a reply in which each field of these names, in any case, stands exactly once, with the value beside its name;
/// None where one does not. That is told after the steps of `read_reply`, and before `Status`, `Mime` and `Json`.
pub fn open_json_with<'a>(
    alloc: Global,
    raw: &'a [u8],
    only: &[(&str, &[u8])],
    buffer: &'a mut JsonBuffer,
) -> Result<Option<Values<'a>>, Fault<ReplyStep>>
    ensures { spec.OpensWith result (spec.ReplyJsonWith (spec.asked only.now) raw.now) }
{
    let head = match read_json_head(raw, only) {
        Ok(head) => head,
        Err(step) => return Err(Fault::Step(step)),
    };
    let JsonBuffer { body, scratch } = buffer;
    let body = match find_body(alloc, head.framing, &raw[head.len..], body) {
        Ok(body) => body,
        Err(fault) => return Err(fault),
    };
    if !head.has_each {
        return Ok(None);
    }
    if let Some(step) = refusal(head.status, head.is_json) {
        return Err(Fault::Step(step));
    }
    match open_body(body, scratch) {
        Ok(values) => Ok(Some(values)),
        Err(fault) => Err(fault),
    }
}

// The step at which a reply of that status is refused, whose first content type is JSON or not.
fn refusal(status: u16, is_json: bool) -> Option<ReplyStep>
    ensures { result ≡ spec.refusal status is_json }
{
    if !(200..300).contains(&status) {
        return Some(ReplyStep::Status);
    }
    if is_json { None } else { Some(ReplyStep::Mime) }
}

/// The JSON value of a reply of the class 2xx whose first content type is JSON (WHATWG MIME Sniffing, 4.6); one byte order mark before it
/// is dropped. The steps are `Status`, `Mime` and `Json`, in this order.
#[tactic(auto, unfolding(crate::specs::Json::JsonOf))]
pub fn json_of(alloc: Global, reply: &Reply) -> Result<Value, Fault<ReplyStep>>
    ensures { AnswersBy view result (spec.JsonOf reply.now) }
{
    match refusal(reply.status(), is_json_type(reply.field("content-type", 0))) {
        Some(step) => Err(Fault::Step(step)),
        None => read_value(alloc, after_mark(reply.body())),
    }
}

// The value of a JSON text.
fn read_value(alloc: Global, bytes: &[u8]) -> Result<Value, Fault<ReplyStep>>
    ensures { AnswersBy view result (ok_or (value_of bytes.now) ReplyStep.Json) }
{
    match Value::from_slice(alloc, bytes) {
        Ok(value) => Ok(value),
        Err(error) => {
            if error.is_memory() {
                Err(Fault::NoRoom)
            } else {
                Err(Fault::Step(ReplyStep::Json))
            }
        }
    }
}

// The values of the JSON text that a body is.
fn open_body<'a>(body: &'a [u8], scratch: &'a mut Scratch) -> Result<Values<'a>, Fault<ReplyStep>>
    ensures { spec.Opens ReplyStep.Json result (spec.body_value body.now) }
{
    match Values::of(scratch, after_mark(body)) {
        Ok(Some(values)) => Ok(values),
        Ok(None) => Err(Fault::Step(ReplyStep::Json)),
        Err(NoRoom) => Err(Fault::NoRoom),
    }
}

// The bytes without a byte order mark before them.
fn after_mark(body: &[u8]) -> &[u8]
    ensures { result.now ≡ spec.without_mark body.now }
{
    body.strip_prefix(MARK.as_slice()).unwrap_or(body)
}

/// Whether a content type is there and names JSON.
pub fn is_json_type(value: Option<&[u8]>) -> bool
    ensures { result ≡ spec.is_json_type (option_copied value.entry) }
{
    match value {
        // What most replies write is told by one comparison: the search for tokens takes some 500 instructions.
        Some(value) => value == b"application/json".as_slice() || is_json_media(essence(value)),
        None => false,
    }
}

/// What a field's value says before its parameters: the part up to the first `;`, without spaces and tabs at its ends
/// (RFC 9110, 5.6.6). It takes no memory.
pub fn essence(value: &[u8]) -> &[u8]
    ensures { result.now ≡ spec.essence value.now }
{
    match place_of(b';', value) {
        Some(at) => trim(&value[..at]),
        None => trim(value),
    }
}

// Whether the media type is two tokens round a slash that name JSON.
#[tactic(auto, unfolding(crate::specs::Json::is_json_media))]
fn is_json_media(media: &[u8]) -> bool
    ensures { result ≡ spec.is_json_media media.now }
{
    let Some(slash) = place_of(b'/', media) else {
        return false;
    };
    let subtype = &media[slash + 1..];
    is_token(&media[..slash]) && is_token(subtype) && names_json(media, subtype)
}

// Whether the media type with that subtype names JSON.
fn names_json(media: &[u8], subtype: &[u8]) -> bool
    ensures { result ≡ spec.names_json media.now subtype.now }
{
    is_in_any_case(media, b"application/json")
        || is_in_any_case(media, b"text/json")
        || has_json_suffix(subtype)
}

// Whether the last five bytes are `+json`, in any case.
fn has_json_suffix(subtype: &[u8]) -> bool
    ensures { result ≡ spec.has_json_suffix subtype.now }
{
    let start = subtype.len().saturating_sub(5);
    is_in_any_case(&subtype[start..], b"+json")
}

// Whether the bytes are a token (RFC 9110, 5.6.2).
fn is_token(bytes: &[u8]) -> bool
    ensures { result ≡ grammar.is_token bytes.now }
{
    !bytes.is_empty() && has_token_bytes(bytes)
}

// Whether each byte is one of a token.
fn has_token_bytes(bytes: &[u8]) -> bool
    ensures { result ≡ list_all grammar.is_token_byte bytes.now }
{
    bytes.iter().all(|byte| is_token_byte(*byte))
}

#[tactic(auto, unfolding(httparse::specs::Grammar::is_token_byte))]
fn is_token_byte(byte: u8) -> bool
    ensures { result ≡ grammar.is_token_byte byte }
{
    byte.is_ascii_alphanumeric() || b"!#$%&'*+-.^_`|~".contains(&byte)
}
