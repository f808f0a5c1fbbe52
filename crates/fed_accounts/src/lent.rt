//! Texts that are owned, and texts that are lent by a reply.
ghost use Rattle.std.specs.Prelude.{◌≡◌, ℕ, List, map};
ghost use Rattle.fed_accounts.specs.Connection as spec;

use fed_io::Text;

/// What lends a text.
pub(crate) trait LendsText {
    // The text.
    ghost text: { Self → List ℕ };

    /// The text.
    fn lent(&self) -> &str
        ensures { result.now ≡ text self.now };
}

impl LendsText for Text {
    ghost text = { λ t. t };

    fn lent(&self) -> &str {
        self.as_str()
    }
}

impl LendsText for &str {
    ghost text = { λ t. t.now };

    fn lent(&self) -> &str {
        self
    }
}

/// Whether the text is among the texts. It takes no memory.
pub(crate) fn has_text<T: LendsText>(texts: &[T], text: &str) -> bool
    ensures { result ≡ spec.has_text text.now (map T.text texts.now) }
{
    for one in texts {
        if one.lent() == text {
            return true;
        }
    }
    false
}
