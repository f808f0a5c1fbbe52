//! HTTP replies: their head, their body by its framing, and the JSON value that they carry.
#![tactic(auto)]

mod chunks;
mod fields;
mod framing;
mod json_head;
mod json_value;
pub mod laws;
mod member;
mod memory;
mod read;
mod reply;
mod step;
mod texts;

pub use json_value::{JsonBuffer, essence, json_of, open_json, open_json_with};
pub use member::{Member, list_member, object_member, text_member};
pub use memory::ReplyMemory;
pub use read::{read_head, read_reply};
pub use reply::Reply;
pub use step::ReplyStep;
pub use texts::{Asked, read_texts, take_texts, text_of, whole_texts};
