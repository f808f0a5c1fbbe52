//! Bodies in chunks.
ghost use Rattle.std.specs.Prelude.{◌≡◌, ◌≤◌, [], length, OnOk};
ghost use Rattle.std.specs.Result.{result_map_both};
ghost use Rattle.fed_io.specs.Fault.{Answers};
ghost use Rattle.fed_reply.specs.Body as spec;
ghost use Rattle.fed_reply.specs.Steps.{with_ok};

use crate::ReplyStep;
use fed_head::{has_trailer, read_size_line};
use fed_io::{Bytes, Fault};
use httparse::spans::EMPTY_HEADER_SPAN;
use std::alloc::Global;

/// The body of a chunked reply (RFC 9112, 7.1), without the size lines, the ends of the chunks and
/// the trailer. What follows the trailer is unread.
pub fn read_chunks(alloc: Global, raw: &[u8]) -> Result<Bytes, Fault<ReplyStep>>
    ensures { Answers result (spec.chunks raw.now) }
{
    let mut body = Vec::new(alloc);
    let mut rest = raw;
    while let Some(line) = read_size_line(rest) {
        let (_, bytes) = rest.split_at(line.len);
        if line.size == 0 {
            return match trailer(bytes) {
                Ok(()) => Ok(Bytes::from_vec(body)),
                Err(step) => Err(Fault::Step(step)),
            };
        }
        rest = match after_chunk(line.size, bytes) {
            Ok(after) => after,
            Err(step) => return Err(Fault::Step(step)),
        };
        body.extend_from_slice(&bytes[..line.size as usize])?;
    }
    Err(Fault::Step(ReplyStep::Chunk))
}

// A trailer of at most 128 fields, which is dropped.
fn trailer(bytes: &[u8]) -> Result<(), ReplyStep>
    ensures { with_ok (λ _. []) result ≡ spec.last_chunk bytes.now }
{
    let mut spans = [EMPTY_HEADER_SPAN; 128];
    if has_trailer(bytes, &mut spans) {
        Ok(())
    } else {
        Err(ReplyStep::Chunk)
    }
}

// What follows a chunk of that size and its CRLF.
fn after_chunk(size: u64, bytes: &[u8]) -> Result<&[u8], ReplyStep>
    ensures after { result_map_both (λ after. after.now) (λ e. e) result ≡ spec.after_chunk size bytes.now }
    ensures fits { OnOk result (size ≤ length bytes.now) }
{
    if bytes.len() as u64 <= size {
        return Err(ReplyStep::Short);
    }
    line_end(&bytes[size as usize..])
}

// What follows a CRLF.
fn line_end(bytes: &[u8]) -> Result<&[u8], ReplyStep>
    ensures { result_map_both (λ after. after.now) (λ e. e) result ≡ spec.after_crlf bytes.now }
{
    match bytes {
        [b'\r', b'\n', after @ ..] => Ok(after),
        [] | [b'\r'] => Err(ReplyStep::Short),
        _ => Err(ReplyStep::Chunk),
    }
}
