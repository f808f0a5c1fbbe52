//! The lines of a script: its header, its events, and why a line is bad.
#![tactic(auto)]

mod bytes;
mod cause;
mod choose;
mod config;
mod disconnect;
mod event;
mod get;
mod have;
mod header;
pub mod laws;
mod line;
mod load;
mod member;
mod names;
mod options;
mod pair;
mod plain;
mod plain_get;
mod providers;
mod raw;
mod reader;
mod reading;
mod reply;
mod said;
mod saying;
mod script;
mod single;
mod status;
mod texts;
mod used;

pub use bytes::{is_blank, next_line};
pub use cause::{BadLine, LineCause, MemberName, PairCause, PairStop};
pub use event::{Event, Have, Header, Line, Numbered};
pub use header::read_header;
pub use line::read_event;
pub use pair::{Pair, bad_line_in, read_pair};
pub use reader::ScriptReader;
pub use script::{Script, read_script};
pub use used::Used;
