//! The cookie jar (RFC 6265, 5.3 and 5.4, in this profile).
#![tactic(auto)]

mod cookie;
mod jar;
pub mod laws;
mod lists;
mod numbered;
mod packed;
mod party_cookies;
mod send;
mod store;

pub use cookie::Cookie;
pub use jar::Jar;
pub use numbered::Numbered;
pub use packed::PackedCookie;
