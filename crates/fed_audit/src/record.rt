//! The records of a transcript.
ghost use Rattle.std.specs.Prelude.{◌≡◌, Option, codes, IfOk, MatchOption, option_map, option_and_then};
ghost use Rattle.serde_json.specs.Data.{Data};
ghost use Rattle.serde_json.specs.Find.{as_str, as_bool};
ghost use Rattle.fed_json.specs.Value.{value_of};
ghost use Rattle.fed_origin.specs.Words.{kind_of_word};
ghost use Rattle.fed_script.specs.Member.{as_u32, as_word};
ghost use Rattle.fed_script.specs.Said.{MayBegin};
ghost use Rattle.fed_audit.specs.Record as spec;
ghost use Rattle.fed_audit.specs.Said.{Says, SaysLine};

use crate::said::{Asked, read_whole};
use base64::DecodeAllocError;
use base64::engine::general_purpose::STANDARD;
use fed_io::{Bytes, NoRoom, Text};
use fed_json::{Begun, Values};
use fed_origin::ReplyKind;
use json::Scratch;
use std::alloc::Global;

/// A record, as far as it is looked at: its other members are read over.
#[derive(Drop)]
pub enum Record {
    /// A request of a call to the provider at this place, and all its bytes.
    Request {
        line: u32,
        call: u32,
        provider: u32,
        kind: ReplyKind,
        bytes: Bytes,
    },
    /// The page of a call gets a token of the provider at this place. Which page that is, and whether the account was reselected, is
    /// said where these members are a number and a truth value.
    Token {
        line: u32,
        call: u32,
        provider: u32,
        token: Text,
        page: Option<u32>,
        auto: Option<bool>,
    },
    /// The page of a call gets something else.
    Answer {
        line: u32,
        call: u32,
    },
    /// A dialog, a window, or that an event was not taken or a provider dropped.
    Other {
        line: u32,
    },
    /// The end of the transcript.
    End,
}

impl Record {
    /// The line of the event that a record comes from; the end comes from none.
    pub(crate) fn line(&self) -> Option<u32>
        ensures { result ≡ spec.line_of self.now }
    {
        match self {
            Record::Request { line, .. }
            | Record::Token { line, .. }
            | Record::Answer { line, .. }
            | Record::Other { line } => Some(*line),
            Record::End => None,
        }
    }
}

// How the members of a record begin; null where there is none.
#[derive(Drop)]
struct Said<'a> {
    out: Begun<'a>,
    line: Begun<'a>,
    call: Begun<'a>,
    provider: Begun<'a>,
    kind: Begun<'a>,
    text: Begun<'a>,
    raw: Begun<'a>,
    see: Begun<'a>,
    token: Begun<'a>,
    page: Begun<'a>,
    auto: Begun<'a>,
}

// A whole number of 32 bits.
fn number(found: &Begun<'_>) -> Option<u32>
    ensures { (d : Option Data) → MayBegin found.now d → result ≡ option_and_then as_u32 d }
{
    match found.as_u64() {
        Some(n) => u32::try_from(n).ok(),
        None => None,
    }
}

// A text.
fn text<'a>(found: &Begun<'a>) -> Option<&'a str>
    ensures { (d : Option Data) → MayBegin found.now d → option_map (λ s. s.now) result ≡ option_and_then as_str d }
{
    found.as_str()
}

// A truth value.
fn truth(found: &Begun<'_>) -> Option<bool>
    ensures { (d : Option Data) → MayBegin found.now d → result ≡ option_and_then as_bool d }
{
    found.as_bool()
}

// A kind of request.
fn kind(found: &Begun<'_>) -> Option<ReplyKind>
    ensures { (d : Option Data) → MayBegin found.now d → result ≡ option_and_then (as_word kind_of_word) d }
{
    match text(found) {
        Some(word) => ReplyKind::of_word(word),
        None => None,
    }
}

// The bytes of a text in base64, if it is one.
#[tactic(auto, unfolding(crate::specs::Record::base64_bytes))]
fn base64_bytes(alloc: Global, text: &str) -> Result<Option<Bytes>, NoRoom>
    ensures { IfOk result (λ bytes. bytes ≡ spec.base64_bytes text.now) }
{
    match STANDARD.decode(alloc, text.as_bytes()) {
        Ok(bytes) => Ok(Some(Bytes::from_vec(bytes))),
        Err(DecodeAllocError::OutOfMemory) => Err(NoRoom),
        Err(DecodeAllocError::DecodeError(_)) => Ok(None),
    }
}

// The bytes of a member in base64, if it is such a text.
fn base64_of(alloc: Global, found: &Begun<'_>) -> Result<Option<Bytes>, NoRoom>
    ensures { (d : Option Data) → MayBegin found.now d → IfOk result (λ bytes. bytes ≡ option_and_then spec.as_base64 d) }
{
    match text(found) {
        Some(text) => base64_bytes(alloc, text),
        None => Ok(None),
    }
}

// The bytes of a request, of which exactly one of `text` and `raw` gives some.
fn sent_bytes(alloc: Global, said: &Said<'_>) -> Result<Option<Bytes>, NoRoom>
    ensures { (d : Data) → Says said.now d → IfOk result (λ bytes. bytes ≡ spec.sent_bytes d) }
{
    match (text(&said.text), base64_of(alloc, &said.raw)?) {
        (Some(text), None) => Ok(Some(Bytes::of(alloc, text.as_bytes())?)),
        (None, Some(raw)) => Ok(Some(raw)),
        (None, None) | (Some(_), Some(_)) => Ok(None),
    }
}

fn request_of(alloc: Global, said: &Said<'_>) -> Result<Option<Record>, NoRoom>
    ensures { (d : Data) → Says said.now d → IfOk result (λ r. r ≡ spec.request_of d) }
{
    let Some(line) = number(&said.line) else {
        return Ok(None);
    };
    let Some(call) = number(&said.call) else {
        return Ok(None);
    };
    let Some(provider) = number(&said.provider) else {
        return Ok(None);
    };
    let Some(kind) = kind(&said.kind) else {
        return Ok(None);
    };
    let Some(bytes) = sent_bytes(alloc, said)? else {
        return Ok(None);
    };
    Ok(Some(Record::Request {
        line,
        call,
        provider,
        kind,
        bytes,
    }))
}

fn token_of(alloc: Global, said: &Said<'_>) -> Result<Option<Record>, NoRoom>
    ensures { (d : Data) → Says said.now d → IfOk result (λ r. r ≡ spec.token_of d) }
{
    let Some(line) = number(&said.line) else {
        return Ok(None);
    };
    let Some(call) = number(&said.call) else {
        return Ok(None);
    };
    let Some(provider) = number(&said.provider) else {
        return Ok(None);
    };
    let Some(token) = text(&said.token) else {
        return Ok(None);
    };
    let token = Text::of(alloc, token)?;
    Ok(Some(Record::Token {
        line,
        call,
        provider,
        token,
        page: number(&said.page),
        auto: truth(&said.auto),
    }))
}

fn answer_of(said: &Said<'_>) -> Option<Record>
    ensures { (d : Data) → Says said.now d → result ≡ spec.answer_of d }
{
    let line = number(&said.line)?;
    let call = number(&said.call)?;
    Some(Record::Answer { line, call })
}

fn other_of(said: &Said<'_>) -> Option<Record>
    ensures { (d : Data) → Says said.now d → result ≡ spec.other_of d }
{
    let line = number(&said.line)?;
    Some(Record::Other { line })
}

// What a page gets.
fn result_of(alloc: Global, said: &Said<'_>) -> Result<Option<Record>, NoRoom>
    ensures { (d : Data) → Says said.now d
        → IfOk result (λ r. r ≡ option_and_then (λ see. spec.result_of see d) (spec.text_at (codes "see") d)) }
{
    match text(&said.see) {
        Some("token") => token_of(alloc, said),
        Some(_) => Ok(answer_of(said)),
        None => Ok(None),
    }
}

// The record of an object, by its member `out`.
fn named(alloc: Global, out: &str, said: &Said<'_>) -> Result<Option<Record>, NoRoom>
    ensures { (d : Data) → Says said.now d → IfOk result (λ r. r ≡ spec.named out.now d) }
{
    match out {
        "request" => request_of(alloc, said),
        "result" => result_of(alloc, said),
        "end" => Ok(Some(Record::End)),
        "dialog" | "window" | "ignored" | "dropped" => Ok(other_of(said)),
        _ => Ok(None),
    }
}

// How the members of a line begin; None where it is no JSON object.
fn said_of<'a>(scratch: &'a mut Scratch, line: &'a [u8]) -> Result<Option<Said<'a>>, NoRoom>
    ensures { IfOk result (λ said. SaysLine (value_of line.now) said) }
{
    let Some(mut values) = Values::of(scratch, line)? else {
        return Ok(None);
    };
    let mut asked = [
        Asked::new("out"),
        Asked::new("line"),
        Asked::new("call"),
        Asked::new("provider"),
        Asked::new("kind"),
        Asked::new("text"),
        Asked::new("raw"),
        Asked::new("see"),
        Asked::new("token"),
        Asked::new("page"),
        Asked::new("auto"),
    ];
    match read_whole(&mut values, &mut asked) {
        Ok(true) => Ok(Some(Said {
            out: asked[0].found,
            line: asked[1].found,
            call: asked[2].found,
            provider: asked[3].found,
            kind: asked[4].found,
            text: asked[5].found,
            raw: asked[6].found,
            see: asked[7].found,
            token: asked[8].found,
            page: asked[9].found,
            auto: asked[10].found,
        })),
        Ok(false) | Err(_) => Ok(None),
    }
}

/// The record of a line; None where it is no JSON object, or lacks what a record of its kind has. Members are read as `serde_json` reads
/// them: of several of one name the last counts. `scratch` is what the line is read from.
pub(crate) fn read_record(
    alloc: Global,
    scratch: &mut Scratch,
    line: &[u8],
) -> Result<Option<Record>, NoRoom>
    ensures { IfOk result (λ r. r ≡ spec.record_of line.now) }
{
    let Some(said) = said_of(scratch, line)? else {
        return Ok(None);
    };
    match text(&said.out) {
        Some(out) => named(alloc, out, &said),
        None => Ok(None),
    }
}
