//! Why a line holds no rule.

/// The refusal of a line of a suffix list (this profile's own name for it).
#[derive(Clone, Copy, Debug, PartialEq, Eq)]
pub enum SuffixRefusal {
    /// A label has no ASCII form, is empty or holds a dot, or an exception has one label only.
    BadRule,
}
