//! The parts of a request.
ghost use Rattle.std.specs.Prelude.{◌≡◌, ◌<◌, ◌∷◌, [], All, length, map, IfSome, IfNone};
ghost use Rattle.http_header.specs.Token.{lowercase};
ghost use Rattle.httparse.specs.Spans.{IsHeaderWithin, header_bytes};
ghost use Rattle.fed_reply.specs.Fields.{is_word, values_in};

use httparse::spans::{HeaderSpan, RequestSpans};

/// The parts of a request.
#[derive(Clone, Copy)]
pub(crate) struct Request<'a> {
    raw: &'a [u8],
    fields: &'a [HeaderSpan],
    pub method: &'a [u8],
    pub target: &'a [u8],
    pub body: &'a [u8],
    ghost within: { All (IsHeaderWithin (length raw.now)) fields.now },
}

impl<'a> Request<'a> {
    ghost use Rattle.std.specs.Prelude.{◌≡◌, IfSome};
    ghost use Rattle.std.specs.Option.{option_copied};
    ghost use Rattle.http_header.specs.Token.{lowercase};
    ghost use Rattle.fed_reply.specs.Fields.{values_in};
    ghost use Rattle.fed_audit.specs.Front.{Front, IsFrontAt, IsRead, fields_read};
    ghost use Rattle.fed_audit.specs.Front as spec;

    /// The parts of a request whose head stands at the spans.
    pub(crate) fn of(raw: &'a [u8], spans: &'a [HeaderSpan], head: &RequestSpans) -> Request<'a>
        requires { (front : Front raw.now) × IsFrontAt raw.now spans.now head.now front }
        ensures { (front : Front raw.now) → IsFrontAt raw.now spans.now head.now front → IsRead raw.now front result }
    {
        Request {
            raw,
            fields: &spans[..head.headers],
            method: head.method.of(raw),
            target: head.path.of(raw),
            body: &raw[head.len..],
        }
    }

    /// Whether the fields of a name have no value where none is due, and else exactly that one.
    pub(crate) fn are_due(&self, name: &[u8], due: Option<&[u8]>) -> bool
        ensures { result ≡ spec.are_due (option_copied due.entry) (values_in (lowercase name.now) (fields_read self.now)) }
    {
        let found = first_named(self.raw, self.fields, name);
        match (found, due) {
            (None, None) => true,
            (Some((value, after)), Some(due)) => {
                value == due && first_named(self.raw, after, name).is_none()
            }
            (None, Some(_)) | (Some(_), None) => false,
        }
    }

    /// The only value of the fields of a name, if there is just one.
    pub(crate) fn only_value(&self, name: &[u8]) -> Option<&'a [u8]>
        ensures { option_copied result ≡ spec.only_value (values_in (lowercase name.now) (fields_read self.now)) }
    {
        let Some((value, after)) = first_named(self.raw, self.fields, name) else {
            return None;
        };
        match first_named(self.raw, after, name) {
            Some(_) => None,
            None => Some(value),
        }
    }

    /// The first value of the fields of a name, if there is one.
    pub(crate) fn first_value(&self, name: &[u8]) -> Option<&'a [u8]>
        ensures { option_copied result ≡ spec.first_value (values_in (lowercase name.now) (fields_read self.now)) }
    {
        match first_named(self.raw, self.fields, name) {
            Some((value, _)) => Some(value),
            None => None,
        }
    }
}

// Whether the bytes are the word, in any case.
fn is_in_any_case(bytes: &[u8], word: &[u8]) -> bool
    ensures { result ≡ is_word (lowercase word.now) bytes.now }
{
    bytes.eq_ignore_ascii_case(word)
}

// The first value of the fields of that name, in any case, and the fields after it.
fn first_named<'a, 's>(
    raw: &'a [u8],
    spans: &'s [HeaderSpan],
    name: &[u8],
) -> Option<(&'a [u8], &'s [HeaderSpan])>
    requires { All (IsHeaderWithin (length raw.now)) spans.now }
    ensures some { IfSome result (λ found. values_in (lowercase name.now) (map (header_bytes raw.now) spans.now)
        ≡ found.0.now ∷ values_in (lowercase name.now) (map (header_bytes raw.now) found.1.now)) }
    ensures none { IfNone result (values_in (lowercase name.now) (map (header_bytes raw.now) spans.now) ≡ []) }
    ensures inside { IfSome result (λ found. All (IsHeaderWithin (length raw.now)) found.1.now) }
    ensures shorter { IfSome result (λ found. length found.1.now < length spans.now) }
{
    let mut rest = spans;
    while let Some((span, after)) = rest.split_first() {
        if is_in_any_case(span.name.of(raw), name) {
            return Some((span.value.of(raw), after));
        }
        rest = after;
    }
    None
}
