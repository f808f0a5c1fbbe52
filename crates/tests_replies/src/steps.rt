//! What the tests share: the names of steps, and the parts of a line.
use fed_reply::ReplyStep;
use std::test::Fail;

/// The name of a step.
pub fn reply_name(step: ReplyStep) -> &'static str {
    match step {
        ReplyStep::Head => "head",
        ReplyStep::Coding => "coding",
        ReplyStep::Length => "length",
        ReplyStep::Chunk => "chunk",
        ReplyStep::Short => "short",
        ReplyStep::Status => "status",
        ReplyStep::Mime => "mime",
        ReplyStep::Json => "json",
    }
}

/// The parts of a line round its first bar.
pub fn parts(line: &str) -> Result<(&str, &str), Fail> {
    Ok(line.split_once(" | ").ok_or("a line")?)
}
