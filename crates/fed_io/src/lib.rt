//! Sources, sinks and texts: what the other crates stand on.
#![tactic(auto)]

mod bytes;
mod error;
mod inner;
mod items;
mod memory;
mod placed;
mod quiet;
mod shared;
mod source;
mod steps;
mod text;

pub use bytes::{place_of, trim};
pub use error::{Failed, Fault, NoRoom};
pub use inner::{StdSink, StdSource};
pub use items::Items;
pub use memory::{MemSink, MemSource};
pub use placed::{Placed, copy_placed, lent_text, placed_text};
pub use quiet::{QuietSink, QuietSource};
pub use shared::SharedValue;
pub use source::{Sink, Source, put_all};
pub use steps::Steps;
pub use text::{Bytes, Text, copy_text, copy_texts, text_of};
