//! Laws of this program's own transcripts.
ghost use Rattle.fed_laws.specs.Laws.{OfRuns};
ghost use Rattle.fed_own.specs.Calls.{OwnRequestsAreOfCalls, OwnResultsAreOfCalls};
ghost use Rattle.fed_own.specs.Consent.{OwnRequestsHaveConsent};
ghost use Rattle.fed_own.specs.Laws.{OwnLinesAreRead, OwnRecordsCompare, OwnRecordsPass, OwnTextCompares, OwnTextPasses};
ghost use Rattle.fed_own.specs.Once.{TellsAll, TellsOnce};
ghost use Rattle.fed_own.specs.Request.{OwnRequestsAreRead, OwnRequestsCarryCookies, OwnRequestsHaveHeads, OwnRequestsNamePages};
ghost use Rattle.fed_own.specs.Tokens.{OwnTokensAreGiven};
ghost use Rattle.fed_own.specs.Whole.{OwnTextIsWritten, OwnTranscriptPasses, ShortTranscriptPasses};

/// No two requests or tokens of a row are about the same call, provider and subject, so what is compared of a row is all that it tells.
pub fn rows_tell_once()
    ensures apart { OfRuns TellsOnce }
    ensures whole { OfRuns TellsAll }
{}

/// A comparison of a readable script with lines that are read as its own records finds nothing.
pub fn own_records_compare()
    ensures { OwnRecordsCompare }
{}

/// The line that is written of a record is read as what the record says, where its numbers have 32 bits, its texts are UTF-8 and the
/// bytes of its request have 8 bits.
pub fn own_lines_are_read()
    ensures { OwnLinesAreRead }
{}

/// An audit of a readable script and lines that are read as its own records finds nothing, where each of the records meets the clauses:
/// all of them are records of the script, in their places.
pub fn own_records_pass()
    ensures { OwnRecordsPass }
{}

/// The user agreed to each request for a token, to just the account that its form names, where the texts of the form are UTF-8; and no
/// record before it asks for one of the call.
pub fn own_requests_have_consent()
    ensures { OfRuns OwnRequestsHaveConsent }
{}

/// Each token is that of the reply to a request of its own call that a record before it says, and the first result of the call; its page
/// stands since the call began.
pub fn own_tokens_are_given()
    ensures { OfRuns OwnTokensAreGiven }
{}

/// A comparison of a readable script and the text that this program writes of it finds nothing, where the numbers of its records have 32
/// bits, their texts are UTF-8 and the bytes of requests have 8 bits.
pub fn own_text_compares()
    ensures { OwnTextCompares }
{}

/// So does an audit of them, where each of the records meets the clauses.
pub fn own_text_passes()
    ensures { OwnTextPasses }
{}

/// The bytes of each request are read by `httparse` as the head and the body that are sent, field by field, where it takes the target, and
/// the host, the origin, the length of the form and the cookies can stand as values of fields. So it has a head of its kind, to the URL as
/// which its host and its target are read, it names the page of its call where its kind does, and its cookies are those that it carries.
pub fn own_requests_are_read()
    ensures read { OwnRequestsAreRead }
    ensures heads { OwnRequestsHaveHeads }
    ensures pages { OwnRequestsNamePages }
    ensures cookies { OwnRequestsCarryCookies }
{}

/// Each request is of a call that began, and goes to one of its providers; if it names a page, that of the call; and its cookies are those
/// of the jar after its row.
pub fn own_requests_are_of_calls()
    ensures { OfRuns OwnRequestsAreOfCalls }
{}

/// Each result is of a call that began, and a token in it of one of its providers.
pub fn own_results_are_of_calls()
    ensures { OfRuns OwnResultsAreOfCalls }
{}

/// An audit and a comparison of a readable script and the text that this program writes of it find nothing, where the numbers of its
/// lines have 32 bits; so of each readable script of fewer than 2^32 bytes, and thus of each that a run takes.
pub fn own_transcript_passes()
    ensures numbered { OwnTranscriptPasses }
    ensures short { ShortTranscriptPasses }
{}

/// The own text of a readable script is the one that a run writes of its bytes.
pub fn own_text_is_written()
    ensures { OwnTextIsWritten }
{}
