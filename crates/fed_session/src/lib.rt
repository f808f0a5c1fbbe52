//! One event of a session at a time.
#![tactic(auto)]

mod apply;
mod calls;
mod cookies;
mod disconnect;
mod get;
mod input;
mod load;
mod page;
mod resume;
mod session;
mod sight;
mod tabs;
mod view;

pub use fed_trace::Out;
pub use session::Session;
pub use view::View;
