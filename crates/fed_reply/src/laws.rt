//! Laws of the definitions.
ghost use Rattle.fed_reply.specs.Laws.{ReplyHasItsFields, ChunkedBodyIsRead, ChunkedBodyIsThere};

/// A reply that was read has its head's status, and under each name the values of the fields of that
/// name, in their order.
pub fn reply_has_its_fields()
    ensures { ReplyHasItsFields }
{}

/// A body in chunks as RFC 9112, 7.1 writes them is read as the bytes of its chunks.
pub fn chunked_body_is_read()
    ensures { ChunkedBodyIsRead }
{}

/// What is read as a body in chunks is written as one.
pub fn chunked_body_is_there()
    ensures { ChunkedBodyIsThere }
{}
