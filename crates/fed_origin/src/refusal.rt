//! Why a text is no URL of the web.

/// Why a text is no URL of the web, in the order in which it is tested (this profile's own).
#[derive(Clone, Copy, Debug, PartialEq, Eq)]
pub enum UrlRefusal {
    /// `url` does not read it (URL 4.4).
    NotUrl,
    /// Its scheme is neither http nor https.
    NotWeb,
    /// It has a user name or a password.
    HasUser,
}
