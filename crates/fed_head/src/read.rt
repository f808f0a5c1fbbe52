//! What stands at the front of some bytes: a response head, a trailer, or a chunk's size line.
ghost use Rattle.std.specs.Prelude.{◌≡◌, ◌≤◌, ℕ, List, length, IfSome, IfNone};
ghost use Rattle.std.specs.Bool.{OnTrue, OnFalse};
ghost use Rattle.httparse.specs.Grammar.{ReadsResponse, ResponseHead, Field, LineEnd, ReadsSection, ChunkLine, HasNoChunkLine};
ghost use Rattle.httparse.specs.Spans.{IsChunkLineAt};
ghost use Rattle.fed_head.specs.Chunk.{size_line};
ghost use Rattle.fed_head.specs.Head.{head_of, within};
ghost use Rattle.fed_head.specs.Section.{has_section};
ghost use Rattle.fed_head.specs.Found.{FindsHead, FindsSize, IsResponseFound};

use httparse::spans::{HeaderSpan, parse_headers, parse_response};
use httparse::{Status, parse_chunk_size};

/// Where the head that some bytes begin with ends, and how many fields it has.
#[derive(Clone, Copy, Debug, PartialEq, Eq)]
pub struct HeadSpans {
    /// The status code, 0 to 999.
    pub status: u16,
    /// The number of fields.
    pub count: usize,
    /// The length of the head in bytes.
    pub len: usize,
}

/// A chunk's size line at the front of some bytes.
#[derive(Clone, Copy, Debug, PartialEq, Eq)]
pub struct SizeLine {
    /// The number of bytes of the chunk.
    pub size: u64,
    /// The length of the line in bytes, with its CRLF.
    pub len: usize,
}

/// The response head at the front of `raw` (RFC 9112, 4 and 5), unless it has more fields than
/// there are spans. The first spans then say where its fields stand.
pub fn read_head_spans(raw: &[u8], spans: &mut [HeaderSpan]) -> Option<HeadSpans>
    ensures { FindsHead raw.now spans.new (within (length spans.old) (head_of raw.now)) result }
{
    response_at(raw, spans)
}

/// Whether `raw` begins with a trailer (RFC 9112, 7.1.2) of at most as many fields as there are
/// spans, its empty line included.
pub fn has_trailer(raw: &[u8], spans: &mut [HeaderSpan]) -> bool
    ensures { result ≡ has_section (length spans.old) raw.now }
{
    section_at(raw, spans)
}

/// The size line at the front of `raw` (RFC 9112, 7.1): none where there is no whole one.
pub fn read_size_line(raw: &[u8]) -> Option<SizeLine>
    ensures { FindsSize raw.now (size_line raw.now) result }
{
    size_at(raw)
}

// The answer of `httparse` in the words of its grammar.
fn response_at(raw: &[u8], spans: &mut [HeaderSpan]) -> Option<HeadSpans>
    ensures some { IfSome result (λ found. (h : ResponseHead) × (length h.fields ≤ length spans.old) × IsResponseFound raw.now spans.new found h) }
    ensures none { IfNone result ((h : ResponseHead) (rest : List ℕ) → ReadsResponse raw.now h rest → ¬ (length h.fields ≤ length spans.old)) }
{
    match parse_response(raw, spans) {
        Ok(Status::Complete(head)) => Some(HeadSpans {
            status: head.code,
            count: head.headers,
            len: head.len,
        }),
        _ => None,
    }
}

fn section_at(raw: &[u8], spans: &mut [HeaderSpan]) -> bool
    ensures some { OnTrue result ((fields : List Field) × (last : LineEnd) × (rest : List ℕ) × ReadsSection raw.now fields last rest
        × (length fields ≤ length spans.old)) }
    ensures none { OnFalse result ((fields : List Field) (last : LineEnd) (rest : List ℕ) → ReadsSection raw.now fields last rest
        → ¬ (length fields ≤ length spans.old)) }
{
    match parse_headers(raw, spans) {
        Ok(Status::Complete(_)) => true,
        _ => false,
    }
}

fn size_at(raw: &[u8]) -> Option<SizeLine>
    ensures some { IfSome result (λ found. (l : ChunkLine) × IsChunkLineAt raw.now found.len found.size l) }
    ensures none { IfNone result (HasNoChunkLine raw.now) }
{
    match parse_chunk_size(raw) {
        Ok(Status::Complete((len, size))) => Some(SizeLine { size, len }),
        _ => None,
    }
}
