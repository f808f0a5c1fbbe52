//! How an account was settled on.

/// How an account was settled on (this profile's own).
#[derive(Clone, Copy, Debug, PartialEq, Eq)]
pub enum Manner {
    /// The user chose it among several, and it was connected.
    Chosen,
    /// The user went on with its prompt.
    Prompted,
    /// A kept permission let the browser choose it.
    Reselected,
}
