//! The schemes of the web.

/// A scheme of the web.
#[derive(Clone, Copy, Debug, PartialEq, Eq, PartialOrd, Ord, Hash)]
pub enum Scheme {
    Http,
    Https,
}

impl Scheme {
    ghost use Rattle.std.specs.Prelude.{◌≡◌};
    ghost use Rattle.fed_origin.specs.Origin.{own_port, scheme_text};

    /// The scheme's own port (URL 4.2).
    pub fn own_port(self) -> u16
        ensures { result ≡ own_port self }
    {
        match self {
            Scheme::Http => 80,
            Scheme::Https => 443,
        }
    }

    /// The scheme as it is written.
    pub fn as_str(self) -> &'static str
        ensures { result.now ≡ scheme_text self }
    {
        match self {
            Scheme::Http => "http",
            Scheme::Https => "https",
        }
    }
}
