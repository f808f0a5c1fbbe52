//! The steps at which a reply is refused.

/// The step at which a reply is refused (this profile's own), in the order in which they are tried.
#[derive(Clone, Copy, Debug, PartialEq, Eq)]
pub enum ReplyStep {
    /// The bytes begin with no head.
    Head,
    /// A content coding or a transfer coding that is not read.
    Coding,
    /// The content lengths disagree, or are no length.
    Length,
    /// A chunk, or the trailer, is not framed as it should be.
    Chunk,
    /// The bytes end inside the body.
    Short,
    /// The status is not one of success.
    Status,
    /// The content type is not JSON.
    Mime,
    /// The body is no JSON text.
    Json,
}
