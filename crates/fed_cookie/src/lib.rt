//! Cookies as a browser reads and compares them (RFC 6265, in this profile).
#![tactic(auto)]

mod attributes;
mod bytes;
mod date;
mod matches;
mod raw_cookie;
mod same_site;
mod set_cookie;

pub use date::cookie_date;
pub use matches::{default_path, domain_matches, path_matches};
pub use raw_cookie::RawCookie;
pub use same_site::SameSite;
pub use set_cookie::read_set_cookie;
