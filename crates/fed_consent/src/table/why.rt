//! Why an event was not taken.
ghost use Rattle.std.specs.Prelude.{◌≡◌};
ghost use Rattle.fed_consent.specs.Words.{why_text};

/// Why an event was not taken (this profile's own); where several hold, the first of them.
#[derive(Clone, Copy, Debug, PartialEq, Eq)]
pub enum Why {
    /// The page does not stand.
    NoPage,
    /// The page's origin is not trustworthy.
    PageInsecure,
    /// No call with that number was taken up to now.
    NoCall,
    /// The call is over.
    CallEnded,
    /// No request is outstanding to which this is a reply.
    NotWaited,
    /// Nothing offers that choice now.
    NotOffered,
    /// No such account is offered.
    NoAccount,
    /// No login window of that origin is open.
    NobodyWaits,
}

impl Why {
    /// The word of the reason, as a transcript writes it. It takes no memory.
    pub fn as_str(self) -> &'static str
        ensures { result.now ≡ why_text self }
    {
        match self {
            Why::NoPage => "no-page",
            Why::PageInsecure => "page-insecure",
            Why::NoCall => "no-call",
            Why::CallEnded => "call-ended",
            Why::NotWaited => "not-waited",
            Why::NotOffered => "not-offered",
            Why::NoAccount => "no-account",
            Why::NobodyWaits => "nobody-waits",
        }
    }
}
