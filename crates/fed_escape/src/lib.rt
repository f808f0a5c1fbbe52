//! Texts as JSON writes them, with the shortest escapes (RFC 8259, 7): escaped and unescaped by 16 bytes.
#![tactic(auto)]

mod escaping;
#[cfg(test)]
mod tests;
mod unescaping;
mod vectors;

pub use escaping::escape_into;
pub use unescaping::unescaped;
pub use vectors::stands_for_itself;
