//! The SameSite attribute.

/// Which requests from other sites carry a cookie (this profile's own, after the SameSite
/// attribute that browsers know): none, top-level loads alone, or all. `NoLimit` is the
/// attribute's word `None`; a cookie without the attribute is `Lax`.
#[derive(Clone, Copy, Debug, PartialEq, Eq)]
pub enum SameSite {
    Strict,
    Lax,
    NoLimit,
}
