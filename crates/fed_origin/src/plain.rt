//! Texts that `url` reads as they stand, which are told by one look at each byte.
ghost use Rattle.std.specs.Prelude.{◌≡◌, ◌==◌, ◌≤◌, IfSome, slice_index, length, take, true};
ghost use Rattle.std.specs.Char.{is_ascii_lowercase};
ghost use Rattle.std.specs.List.{list_all};
ghost use Rattle.std.specs.Option.{option_copied};
ghost use Rattle.url.specs.Input.{rsplit_once};
ghost use Rattle.fed_origin.specs.Plain as spec;

/// What a plain URL begins with.
pub(crate) const FRONT: &str = "https://";

// What a byte may stand in, as marks of the table.
const DOMAIN: u8 = 1;

const SEGMENT: u8 = 2;

const QUERY: u8 = 4;

// For each byte a digit, whose low three bits are its marks: one look spares up to twenty compares.
static MARKS: [u8; 256] = *b"\
    00000000000000000000000000000000\
    06006462666667747777777777660604\
    66666666666666666666666666644446\
    47777777777777777777777777744460\
    00000000000000000000000000000000\
    00000000000000000000000000000000\
    00000000000000000000000000000000\
    00000000000000000000000000000000";

/// The parts of a plain URL: `https`, a domain, a path, a query where there is one, and nothing else.
#[derive(Clone, Copy)]
pub(crate) struct Plain<'a> {
    pub host: &'a [u8],
    pub path: &'a [u8],
    pub query: Option<&'a [u8]>,
}

/// The parts of a text that is a plain URL. It spares `url`'s walk, and tells nothing where it answers `None`.
pub(crate) fn read_plain(text: &[u8]) -> Option<Plain<'_>>
    ensures { IfSome result (λ p. spec.IsPlain text.now p.host.now p.path.now (option_copied p.query)) }
{
    let rest = text.strip_prefix(FRONT.as_bytes())?;
    let (host, rest) = rest.split_at(domain_len(rest));
    if !begins_with_letter(last_label(host)) {
        return None;
    }
    let tail = read_tail(rest)?;
    Some(Plain {
        host,
        path: tail.path,
        query: tail.query,
    })
}

/// A path, and a query where there is one.
#[derive(Clone, Copy)]
pub(crate) struct Tail<'a> {
    pub path: &'a [u8],
    pub query: Option<&'a [u8]>,
}

/// The path and the query of a text that is both, and that is written as it stands.
pub(crate) fn read_tail(text: &[u8]) -> Option<Tail<'_>>
    ensures { IfSome result (λ t. spec.IsTail text.now t.path.now (option_copied t.query)) }
{
    let (path, rest) = text.split_at(path_len(text)?);
    match rest.split_first() {
        None => Some(Tail { path, query: None }),
        Some((b'?', query)) if is_query(query) => Some(Tail {
            path,
            query: Some(query),
        }),
        _ => None,
    }
}

/// The path and the query of a text that is both, where no host stands in it.
pub(crate) fn read_reference(text: &[u8]) -> Option<Tail<'_>>
    ensures { IfSome result (λ t. spec.IsReference text.now t.path.now (option_copied t.query)) }
{
    let tail = read_tail(text)?;
    if has_two_slashes(tail.path) {
        return None;
    }
    Some(tail)
}

fn has_two_slashes(path: &[u8]) -> bool
    ensures { result ≡ (slice_index path.now 1 == 47) }
{
    path.get(1) == Some(&b'/')
}

fn is_domain_byte(b: u8) -> bool
    ensures { result ≡ spec.is_domain_byte b }
{
    MARKS[b as usize] & DOMAIN != 0
}

// How many bytes at the front may stand in a domain.
fn domain_len(text: &[u8]) -> usize
    ensures within { result ≤ length text.now }
    ensures all { list_all spec.is_domain_byte (take result text.now) ≡ true }
{
    let mut len = 0;
    while len < text.len() && is_domain_byte(text[len]) {
        len += 1;
    }
    len
}

fn last_label(host: &[u8]) -> &[u8]
    ensures { result.now ≡ (rsplit_once 46 host.now).1 }
{
    match host.iter().rposition(|b| *b == b'.') {
        Some(dot) => &host[dot + 1..],
        None => host,
    }
}

// A letter stands where a number would begin: no address of version 4 is written so.
fn begins_with_letter(label: &[u8]) -> bool
    ensures { result ≡ is_ascii_lowercase (slice_index label.now 0) }
{
    match label.first() {
        Some(b) => b.is_ascii_lowercase(),
        None => false,
    }
}

fn is_segment_byte(b: u8) -> bool
    ensures { result ≡ spec.is_segment_byte b }
{
    MARKS[b as usize] & SEGMENT != 0
}

// How many bytes at the front may stand in a segment.
fn segment_bytes(text: &[u8]) -> usize
    ensures within { result ≤ length text.now }
    ensures all { list_all spec.is_segment_byte (take result text.now) ≡ true }
{
    let mut len = 0;
    while len < text.len() && is_segment_byte(text[len]) {
        len += 1;
    }
    len
}

// Whether the segment is resolved, and goes.
fn is_dots(segment: &[u8]) -> bool
    ensures { result ≡ spec.is_dots segment.now }
{
    segment == b".".as_slice() || segment == b"..".as_slice()
}

// The length of the segment at the front.
fn segment_len(text: &[u8]) -> Option<usize>
    ensures { IfSome result (λ len. (len ≤ length text.now) × (spec.is_segment (take len text.now) ≡ true)) }
{
    let len = segment_bytes(text);
    let (segment, _) = text.split_at(len);
    if is_dots(segment) {
        return None;
    }
    Some(len)
}

// The length of the segments at the front, with a slash between each two.
fn segments_len(text: &[u8]) -> Option<usize>
    ensures { IfSome result (λ len. (len ≤ length text.now) × (spec.are_segments (take len text.now) ≡ true)) }
{
    let mut end = segment_len(text)?;
    while end < text.len() && text[end] == b'/' {
        let (_, rest) = text.split_at(end + 1);
        end += 1 + segment_len(rest)?;
    }
    Some(end)
}

// The length of the path at the front. One pass tells where it ends, that no byte is escaped and that no segment goes.
fn path_len(text: &[u8]) -> Option<usize>
    ensures { IfSome result (λ len. (len ≤ length text.now) × (spec.is_path (take len text.now) ≡ true)) }
{
    match text.split_first() {
        Some((b'/', rest)) => Some(1 + segments_len(rest)?),
        _ => None,
    }
}

fn is_query_byte(b: u8) -> bool
    ensures { result ≡ spec.is_query_byte b }
{
    MARKS[b as usize] & QUERY != 0
}

fn is_query(query: &[u8]) -> bool
    ensures { result ≡ list_all spec.is_query_byte query.now }
{
    query.iter().all(|b| is_query_byte(*b))
}
