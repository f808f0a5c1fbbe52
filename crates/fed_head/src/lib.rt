//! The grammar of response heads, trailers and chunk sizes as functions of the bytes, tied both
//! ways to the grammar of `httparse`, and the calls that read them.
#![tactic(auto)]

pub mod laws;
mod read;

pub use read::{HeadSpans, SizeLine, has_trailer, read_head_spans, read_size_line};
