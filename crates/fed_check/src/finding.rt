//! What is found in a script.
ghost use Rattle.std.specs.Prelude.{◌≡◌};
ghost use Rattle.fed_check.specs.Check as spec;

use fed_io::Text;
use fed_script::LineCause;

/// What is found in a line, which is named by its number, where the header's is 1.
pub enum Finding {
    /// The line is bad.
    Bad(u32, LineCause),
    /// The line is good, and a member of this name is read over.
    Unread(u32, Text),
}

// Written out, so that one function lets a finding go wherever it ends.
impl Drop for Finding {
    fn drop(self) {
        match self {
            Finding::Bad(_, _) | Finding::Unread(_, _) => {}
        }
    }
}

impl Finding {
    /// Whether it is a bad line.
    pub fn is_bad(&self) -> bool
        ensures { result ≡ spec.is_bad self.now }
    {
        matches!(self, Finding::Bad(..))
    }
}
