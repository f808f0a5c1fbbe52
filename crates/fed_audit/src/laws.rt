//! What a row tells of the cause of a request for a token.
ghost use Rattle.fed_laws.specs.Laws.{OfRuns};
ghost use Rattle.fed_audit.specs.Laws.{HasOneAnswer, IsTold, ScriptsRise};
ghost use Rattle.fed_audit.specs.Audited.{RequestsAreDue, TokensAreCaused, TokensAreGiven};

/// An event is the cause of a request for a token of an account exactly where the first such request among the records of its row is of
/// that call and provider, and the call then awaits the token of that account.
pub fn cause_is_told()
    ensures { OfRuns IsTold }
{}

/// The lines of the events of a script that is read rise, so it can be audited.
pub fn scripts_rise()
    ensures { ScriptsRise }
{}

/// Where a transcript passes, each request in it has the Origin and the Cookie field that are due at its line, each request for a token
/// has its cause there and is the first of its call, and each token is that of the reply to a request of its own call.
pub fn audited()
    ensures due { RequestsAreDue }
    ensures caused { TokensAreCaused }
    ensures given { TokensAreGiven }
{}

/// An audit of a script whose lines rise has one answer: one line and one clause, or none.
pub fn has_one_answer()
    ensures { HasOneAnswer }
{}
