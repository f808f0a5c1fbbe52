//! The fields of a reply.
ghost use Rattle.std.specs.Prelude.{◌≡◌, ◌<◌, ◌∷◌, [], true, false, not, ◌&&◌, bytes_eq, nat_le, ◌-◌, All, length, map};
ghost use Rattle.std.specs.Prelude.{IfSome, IfNone, OnOk, Err};
ghost use Rattle.std.specs.List.{list_all};
ghost use Rattle.http_header.specs.HeaderMap.{append};
ghost use Rattle.http_header.specs.Token.{lowercase};
ghost use Rattle.httparse.specs.Spans.{IsHeaderWithin, header_bytes};
ghost use Rattle.fed_io.specs.Fault.{Answers};
ghost use Rattle.fed_reply.specs.Fields.{kept_field, is_taken_field, is_word, taken_fields, values_in};

use crate::ReplyStep;
use fed_io::Fault;
use http_header::{HeaderMap, HeaderName, HeaderNameError, HeaderValue, HeaderValueError};
use httparse::spans::HeaderSpan;
use std::alloc::Global;

/// The multimap of the fields at some spans, or the step Head where one of them is not taken.
pub fn read_fields(
    alloc: Global,
    raw: &[u8],
    spans: &[HeaderSpan],
) -> Result<HeaderMap, Fault<ReplyStep>>
    requires { All (IsHeaderWithin (length raw.now)) spans.now }
    ensures { Answers result (taken_fields (map (header_bytes raw.now) spans.now)) }
{
    let mut fields = HeaderMap::new(alloc);
    for span in spans {
        match add_field(alloc, &mut fields, span.name.of(raw), span.value.of(raw)) {
            Ok(()) => {}
            Err(fault) => return Err(fault),
        }
    }
    Ok(fields)
}

// Adds one field.
fn add_field(
    alloc: Global,
    fields: &mut HeaderMap,
    name: &[u8],
    value: &[u8],
) -> Result<(), Fault<ReplyStep>>
    ensures ok { OnOk result (fields.new ≡ append fields.old (kept_field (name.now, value.now)).0 (kept_field (name.now, value.now)).1) }
    ensures taken { OnOk result (is_taken_field (name.now, value.now) ≡ true) }
    ensures refused { (step : ReplyStep) → result ≡ Err (Fault.Step step) → (step ≡ ReplyStep.Head) × (is_taken_field (name.now, value.now) ≡ false) }
{
    let name = match HeaderName::from_bytes(alloc, name) {
        Ok(name) => name,
        Err(HeaderNameError::Invalid) => return Err(Fault::Step(ReplyStep::Head)),
        Err(HeaderNameError::OutOfMemory) => return Err(Fault::NoRoom),
    };
    let value = match HeaderValue::from_bytes(alloc, value) {
        Ok(value) => value,
        Err(HeaderValueError::Invalid) => return Err(Fault::Step(ReplyStep::Head)),
        Err(HeaderValueError::OutOfMemory) => return Err(Fault::NoRoom),
    };
    match fields.append(name, value) {
        Ok(_) => Ok(()),
        Err(_) => Err(Fault::NoRoom),
    }
}

/// Whether the bytes are the word, in any case.
pub fn is_in_any_case(bytes: &[u8], word: &[u8]) -> bool
    ensures { result ≡ is_word (lowercase word.now) bytes.now }
{
    bytes.eq_ignore_ascii_case(word)
}

/// The first value of the fields of that name, in any case, and the fields after it.
pub fn first_named<'a, 's>(
    raw: &'a [u8],
    spans: &'s [HeaderSpan],
    name: &[u8],
) -> Option<(&'a [u8], &'s [HeaderSpan])>
    requires { All (IsHeaderWithin (length raw.now)) spans.now }
    ensures some { IfSome result (λ found. values_in (lowercase name.now) (map (header_bytes raw.now) spans.now)
        ≡ found.0.now ∷ values_in (lowercase name.now) (map (header_bytes raw.now) found.1.now)) }
    ensures none { IfNone result (values_in (lowercase name.now) (map (header_bytes raw.now) spans.now) ≡ []) }
    ensures inside { IfSome result (λ found. All (IsHeaderWithin (length raw.now)) found.1.now) }
    ensures shorter { IfSome result (λ found. length found.1.now < length spans.now) }
{
    let mut rest = spans;
    while let Some((span, after)) = rest.split_first() {
        if is_in_any_case(span.name.of(raw), name) {
            return Some((span.value.of(raw), after));
        }
        rest = after;
    }
    None
}

/// Whether a value of a field is the one that is asked for, and the field has no others. The CORS check rests on it.
pub fn is_only_value(found: &[u8], has_others: bool, value: &[u8]) -> bool
    ensures { result ≡ (bytes_eq found.now value.now && not has_others) }
{
    found == value && !has_others
}

/// Whether `http_header` takes each name: none has more than 65,535 bytes.
pub fn are_short(spans: &[HeaderSpan]) -> bool
    ensures { result ≡ list_all (λ s. nat_le (s.name.end - s.name.start) 65535) spans.now }
{
    spans.iter().all(|span| span.name.end.saturating_sub(span.name.start) <= 65535)
}
