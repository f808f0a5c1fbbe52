//! Reading a reply.
ghost use Rattle.std.specs.Prelude.{◌≡◌, Ok, Err, Some, IfOk, IfErr, MatchOption};
ghost use Rattle.fed_io.specs.Fault.{Answers, AnswersBy};
ghost use Rattle.fed_head.specs.Found.{FindsHead};
ghost use Rattle.fed_head.specs.Head.{head_of, within};
ghost use Rattle.fed_reply.specs.Body.{framed};
ghost use Rattle.fed_reply.specs.Reply.{HeadOf, ReplyOf, FrontOf, FindsFront};
ghost use Rattle.fed_reply.specs.Steps.{and_then};

use crate::chunks::read_chunks;
use crate::fields::read_fields;
use crate::framing::{Framing, body_framing};
use crate::{Reply, ReplyStep};
use fed_head::{HeadSpans, read_head_spans};
use fed_io::{Bytes, Fault};
use http::StatusCode;
use http_header::HeaderMap;
use httparse::spans::{EMPTY_HEADER_SPAN, HeaderSpan};
use std::alloc::Global;

// A head, how the body after it is framed, and how many bytes it has.
#[derive(Drop)]
struct Front {
    status: StatusCode,
    fields: HeaderMap,
    framing: Result<Framing, ReplyStep>,
    len: usize,
}

/// Reads the head of a reply (RFC 9112, 4 and 5), of at most 128 fields. The body of the reply is
/// empty. The one step is `Head`.
#[tactic(auto, unfolding(crate::specs::Reply::HeadOf))]
pub fn read_head(alloc: Global, raw: &[u8]) -> Result<Reply, Fault<ReplyStep>>
    ensures { Answers result (HeadOf raw.now) }
{
    match read_front(alloc, raw) {
        Ok(front) => Ok(Reply::new(front.status, front.fields, Bytes::from_vec(Vec::new(alloc)))),
        Err(fault) => Err(fault),
    }
}

/// Reads a reply: its head, and its body by its framing (RFC 9112, 6 and 7.1). The steps are `Head`,
/// `Coding`, `Length`, `Chunk` and `Short`; the first in this order, and among `Chunk` and `Short`
/// the first in the bytes.
#[tactic(auto, unfolding(crate::specs::Reply::ReplyOf))]
pub fn read_reply(alloc: Global, raw: &[u8]) -> Result<Reply, Fault<ReplyStep>>
    ensures { Answers result (ReplyOf raw.now) }
{
    let front = match read_front(alloc, raw) {
        Ok(front) => front,
        Err(fault) => return Err(fault),
    };
    match read_body(alloc, front.framing, &raw[front.len..]) {
        Ok(body) => Ok(Reply::new(front.status, front.fields, body)),
        Err(fault) => Err(fault),
    }
}

// The head at the front of the bytes.
fn read_front(alloc: Global, raw: &[u8]) -> Result<Front, Fault<ReplyStep>>
    ensures { FindsFront raw.now (FrontOf raw.now) result }
{
    let mut spans = [EMPTY_HEADER_SPAN; 16];
    match read_head_spans(raw, &mut spans) {
        Some(head) => front_at(alloc, raw, &spans, head),
        None => read_long_front(alloc, raw),
    }
}

// The same of a head of more than 16 fields.
fn read_long_front(alloc: Global, raw: &[u8]) -> Result<Front, Fault<ReplyStep>>
    ensures { FindsFront raw.now (FrontOf raw.now) result }
{
    let mut spans = [EMPTY_HEADER_SPAN; 128];
    match read_head_spans(raw, &mut spans) {
        Some(head) => front_at(alloc, raw, &spans, head),
        None => Err(Fault::Step(ReplyStep::Head)),
    }
}

// The head whose fields stand at the first spans.
fn front_at(
    alloc: Global,
    raw: &[u8],
    spans: &[HeaderSpan],
    head: HeadSpans,
) -> Result<Front, Fault<ReplyStep>>
    requires { FindsHead raw.now spans.now (within 128 (head_of raw.now)) (Some head) }
    ensures { FindsFront raw.now (FrontOf raw.now) result }
{
    let spans = &spans[..head.count];
    let Ok(status) = StatusCode::from_u16(head.status) else {
        return Err(Fault::Step(ReplyStep::Head));
    };
    match read_fields(alloc, raw, spans) {
        Ok(fields) => Ok(Front {
            status,
            fields,
            framing: body_framing(raw, spans),
            len: head.len,
        }),
        Err(fault) => Err(fault),
    }
}

// The body that is framed so, where it stands in the bytes after the head; None where it is in chunks.
fn part_of(framing: Result<Framing, ReplyStep>, rest: &[u8]) -> Result<Option<&[u8]>, ReplyStep>
    ensures part { IfOk result (λ part. MatchOption part (framing ≡ Ok Framing.Chunked)
        (λ body. and_then (framed rest.now) framing ≡ Ok body.now)) }
    ensures step { IfErr result (λ step. and_then (framed rest.now) framing ≡ Err step) }
{
    match framing {
        Ok(Framing::Chunked) => Ok(None),
        Ok(Framing::Counted(length)) => {
            if (rest.len() as u64) < length {
                return Err(ReplyStep::Short);
            }
            Ok(Some(&rest[..length as usize]))
        }
        Ok(Framing::ToTheEnd) => Ok(Some(rest)),
        Err(step) => Err(step),
    }
}

// The body that is framed so, in the bytes after the head.
fn read_body(
    alloc: Global,
    framing: Result<Framing, ReplyStep>,
    rest: &[u8],
) -> Result<Bytes, Fault<ReplyStep>>
    ensures { Answers result (and_then (framed rest.now) framing) }
{
    let mut joined = None;
    match find_body(alloc, framing, rest, &mut joined) {
        Ok(body) => Ok(Bytes::of(alloc, body)?),
        Err(fault) => Err(fault),
    }
}

/// The same, which is no copy but where chunks are joined: then it stands in `joined`.
pub fn find_body<'a>(
    alloc: Global,
    framing: Result<Framing, ReplyStep>,
    rest: &'a [u8],
    joined: &'a mut Option<Bytes>,
) -> Result<&'a [u8], Fault<ReplyStep>>
    ensures { AnswersBy (λ body. body.now) result (and_then (framed rest.now) framing) }
{
    match part_of(framing, rest) {
        Ok(Some(body)) => Ok(body),
        Ok(None) => match read_chunks(alloc, rest) {
            Ok(body) => Ok(joined.insert(body).as_slice()),
            Err(fault) => Err(fault),
        },
        Err(step) => Err(Fault::Step(step)),
    }
}
