//! Transcript lines: the records of a step as JSON text.
#![tactic(auto)]

mod answers;
mod ascii;
mod dialogs;
mod line_writer;
mod lines;
mod object;
mod place;
mod records;
mod words;

pub use lines::{RecordLines, print};
pub use object::Object;
