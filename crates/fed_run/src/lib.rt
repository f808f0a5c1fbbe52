//! What the program does with a session script, over any source and any sink.
#![tactic(auto)]

mod alone;
mod answer;
mod audit;
mod check;
mod compare;
mod differs;
mod form;
mod grown;
pub mod laws;
mod live;
mod make;
mod memory;
mod pieces;
mod print;
mod ran;
mod read;
mod recorded;
mod run;
mod save;
mod slice;
mod status;
mod stop;
mod stream;
mod summary;
mod tied;
mod top;
mod twin;
mod word;

pub use grown::Grown;
pub use live::Live;
pub use make::make_script;
pub use memory::fedcm_in_memory;
pub use status::Status;
pub use tied::{Output, TiedSink, TiedSource, close};
pub use top::fedcm;
