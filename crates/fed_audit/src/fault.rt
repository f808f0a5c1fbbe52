//! What an audit finds.
ghost use Rattle.std.specs.Prelude.{◌≡◌};
ghost use Rattle.fed_audit.specs.Words as spec;

/// What a record fails, in the order in which a record is tested.
#[derive(Clone, Copy, Debug, PartialEq, Eq)]
pub enum AuditClause {
    /// It is no record of an event of the script, or stands below an earlier one.
    Record,
    /// Its call did not begin, or has no such provider.
    Call,
    /// The request has no such head, or goes to no URL.
    Head,
    /// The request names the page where it must not, or does not where it must.
    Origin,
    /// The request has other cookies than the jar gives for its URL.
    Cookie,
    /// The user did not agree to the request for a token, or it was sent before.
    Consent,
    /// The token is not that of the provider's reply to the request of this call and page.
    Token,
}

impl AuditClause {
    /// The word of the clause in a record.
    pub fn as_str(self) -> &'static str
        ensures { result.now ≡ spec.clause_text self }
    {
        match self {
            AuditClause::Record => "record",
            AuditClause::Call => "call",
            AuditClause::Head => "head",
            AuditClause::Origin => "origin",
            AuditClause::Cookie => "cookie",
            AuditClause::Consent => "consent",
            AuditClause::Token => "token",
        }
    }
}

/// The first line of a transcript that fails, and the first clause that it fails.
#[derive(Clone, Copy, Debug, PartialEq, Eq)]
pub struct AuditFault {
    pub line: u32,
    pub clause: AuditClause,
}
