//! What the browser keeps of sign-ins: login statuses, kept permissions, prevent-silent flags.
#![tactic(auto)]

mod accounts;
mod flags;
mod kept;
mod login;
mod names;
mod pairs;
mod set_login;
mod shared;
mod table;

pub use fed_origin::{LoginStatus, Triple};
pub use flags::SilentFlags;
pub use kept::KeptSet;
pub use login::LoginMap;
pub use set_login::read_set_login;
pub use shared::Shared;
