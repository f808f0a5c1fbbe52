//! The comparison of a transcript with this program's own.
ghost use Rattle.std.specs.Prelude.{◌≡◌, ℕ, ◌<◌, ◌+◌, ◌^◌, false, cond, Some, None, length, option_map, IfOk, IfSome, MatchResult};
ghost use Rattle.fed_script.specs.Script.{lines_of};
ghost use Rattle.fed_script.specs.Script.{is_blank as blank};
ghost use Rattle.fed_consent.specs.declared.table.finish.Finish.TheVariants as finishes;
ghost use Rattle.fed_trace.specs.declared.out.Out.TheVariants as outs;
ghost use Rattle.fed_audit.specs.declared.aspect.Aspect.TheVariants as aspects;
ghost use Rattle.fed_audit.specs.Compare as spec;
ghost use Rattle.fed_audit.specs.Compare.{At, IsComparison};
ghost use Rattle.fed_audit.specs.Record.{line_of, record_of};
ghost use Rattle.fed_audit.specs.Differ.{bare};
ghost use Rattle.fed_audit.specs.Rows.{IsAt, HasMet, GoesOn, StopsHere, ComparesTo};
ghost use Rattle.fed_audit.specs.Told as told;

use crate::aspect::{About, Aspect, Subject};
use crate::differ::{Claim, Finding, Given, request_difference, token_difference};
use crate::difference::{Comparison, Difference};
use crate::own::Rows;
use crate::record::{Record, read_record};
use fed_consent::Finish;
use fed_io::{NoRoom, Steps};
use fed_origin::ReplyKind;
use fed_script::{Script, is_blank, next_line};
use fed_session::Out;
use json::Scratch;
use std::alloc::Global;
use std::marker::Brand;
use std::sync::ledger::{Blank, Ledger};

// The line of a record and what it is about, if it is a request or a token.
fn about_said(said: &Record) -> Option<(u32, About)>
    ensures about { option_map (λ found. found.1) result ≡ told.about_said said.now }
    ensures line { IfSome result (λ found. line_of said.now ≡ Some found.0) }
{
    match said {
        Record::Request {
            line,
            call,
            provider,
            kind,
            ..
        } => Some((
            *line,
            About {
                call: *call,
                provider: *provider,
                subject: Subject::of_kind(*kind),
            },
        )),
        Record::Token {
            line,
            call,
            provider,
            ..
        } => Some((
            *line,
            About {
                call: *call,
                provider: *provider,
                subject: Subject::Token,
            },
        )),
        Record::Answer { .. } | Record::Other { .. } | Record::End => None,
    }
}

// What of a record differs from the own request that is about the same.
fn found_in_request(
    alloc: Global,
    kind: ReplyKind,
    own: &[u8],
    said: &Record,
) -> Result<Option<Finding>, NoRoom>
    ensures { (line : ℕ) (call : ℕ) (provider : ℕ)
        → IfOk result (λ found. spec.DifferIn (outs.Request line call provider kind own.now) said.now found) }
{
    match said {
        Record::Request { bytes, .. } => request_difference(alloc, kind, own, bytes.as_slice()),
        Record::Token { .. } | Record::Answer { .. } | Record::Other { .. } | Record::End => {
            Ok(None)
        }
    }
}

// What differs first between the own token and a record.
fn found_in_token(alloc: Global, own: &Given<'_>, said: &Record) -> Result<Option<Finding>, NoRoom>
    ensures { (line : ℕ) (call : ℕ) (provider : ℕ) → IfOk result (λ found. spec.DifferIn
        (outs.Answer line call own.now.page (finishes.Token own.now.auto provider own.now.token.now)) said.now found) }
{
    match said {
        Record::Token {
            token,
            page,
            auto,
            ..
        } => {
            let said = Claim {
                token: token.as_str(),
                page: *page,
                auto: *auto,
            };
            token_difference(alloc, own, &said)
        }
        Record::Request { .. } | Record::Answer { .. } | Record::Other { .. } | Record::End => {
            Ok(None)
        }
    }
}

// What differs first between what the page of a call gets here and a record.
fn found_in_finish(
    alloc: Global,
    page: u32,
    own: &Finish,
    said: &Record,
) -> Result<Option<Finding>, NoRoom>
    ensures { (line : ℕ) (call : ℕ) → IfOk result (λ found. spec.DifferIn (outs.Answer line call page own.now) said.now found) }
{
    match own {
        Finish::Token { auto, token, .. } => {
            let own = Given {
                token: token.as_str(),
                page,
                auto: *auto,
            };
            found_in_token(alloc, &own, said)
        }
        Finish::Disconnected | Finish::Failed(_) | Finish::ProviderError { .. } => Ok(None),
    }
}

// What differs first between the own record and another.
fn found_in(alloc: Global, own: &Out, said: &Record) -> Result<Option<Finding>, NoRoom>
    ensures { IfOk result (λ found. spec.DifferIn own.now said.now found) }
{
    match own {
        Out::Request { kind, bytes, .. } => {
            found_in_request(alloc, *kind, bytes.as_slice(), said)
        }
        Out::Answer { page, finish, .. } => found_in_finish(alloc, *page, finish, said),
        Out::Dropped { .. } | Out::Dialog { .. } | Out::Window { .. } | Out::Ignored { .. } => {
            Ok(None)
        }
    }
}

// Where a record about this at this line, to whose row the rows have come, leaves the own ones.
fn meet(
    rows: &mut Rows<'_>,
    line: u32,
    about: About,
    said: &Record,
) -> Result<Option<Difference>, NoRoom>
    ensures { (at : At) → IsAt rows.old at → IfOk result (λ found. HasMet rows.new said.now line about at found) }
{
    if rows.line != line {
        return Ok(Some(at(line, about, Finding::bare(Aspect::Further))));
    }
    let Some(own) = rows.left.get(about.key()) else {
        return Ok(Some(at(line, about, Finding::bare(Aspect::Further))));
    };
    if let Some(found) = found_in(rows.alloc, own, said)? {
        return Ok(Some(at(line, about, found)));
    }
    rows.left.remove(about.key());
    Ok(None)
}

// What was found of a record.
fn at(line: u32, about: About, found: Finding) -> Difference
    ensures { result ≡ spec.found_of line (Some about) found }
{
    let Finding { aspect, due } = found;
    Difference {
        line,
        about: Some(about),
        aspect,
        due,
    }
}

// A line is no record.
fn unread(number: u32) -> Difference
    ensures { result ≡ spec.found_of number None (bare aspects.Record) }
{
    Difference {
        line: number,
        about: None,
        aspect: Aspect::Record,
        due: None,
    }
}

// Whether a record is a request.
fn is_request(said: &Record) -> bool
    ensures { result ≡ spec.is_request (Some said.now) }
{
    matches!(said, Record::Request { .. })
}

// Where a line that is not blank leaves the own records, or else whether it is a request.
fn compare_line<L: Ledger>(
    rows: &mut Rows<'_>,
    number: u32,
    line: &[u8],
    scratch: &mut Scratch,
    steps: &mut Steps<L>,
) -> Result<Result<bool, Difference>, NoRoom>
    requires stands { blank line.now ≡ false }
    requires rows { (at : At) × IsAt rows.old at }
    ensures { (at : At) → IsAt rows.old at → IfOk result (λ told. MatchResult told
        (λ request. (request ≡ spec.is_request (record_of line.now)) × (next : At) × IsAt rows.new next × GoesOn number line.now at next)
        (λ difference. StopsHere number line.now at difference)) }
{
    let Some(said) = read_record(rows.alloc, scratch, line)? else {
        return Ok(Err(unread(number)));
    };
    let Some((place, about)) = about_said(&said) else {
        return Ok(Ok(false));
    };
    if let Some(missing) = rows.arrive(place, steps)? {
        return Ok(Err(missing));
    }
    match meet(rows, place, about, &said)? {
        Some(difference) => Ok(Err(difference)),
        None => Ok(Ok(is_request(&said))),
    }
}

// Compares a line with the own records; a blank one is passed over.
fn compare_any<L: Ledger>(
    rows: &mut Rows<'_>,
    number: u32,
    line: &[u8],
    scratch: &mut Scratch,
    steps: &mut Steps<L>,
) -> Result<Result<bool, Difference>, NoRoom>
    requires { (at : At) × IsAt rows.old at }
    ensures { (at : At) → IsAt rows.old at → IfOk result (λ told. MatchResult told
        (λ request. (request ≡ spec.says_request line.now) × (next : At) × IsAt rows.new next × GoesOn number line.now at next)
        (λ difference. StopsHere number line.now at difference)) }
{
    if is_blank(line) {
        return Ok(Ok(false));
    }
    compare_line(rows, number, line, scratch, steps)
}

// How many requests there are, with one more if it is one.
fn with_request(requests: u64, request: bool) -> u64
    requires { requests < 2 ^ 63 }
    ensures { result ≡ requests + cond request 1 0 }
{
    if request { requests + 1 } else { requests }
}

// Where lines leave the own records first, or else how many requests are among them.
fn compare_lines<L: Ledger>(
    rows: &mut Rows<'_>,
    text: &[u8],
    first: u32,
    scratch: &mut Scratch,
    steps: &mut Steps<L>,
) -> Result<Comparison, NoRoom>
    requires rows { (at : At) × IsAt rows.old at }
    requires few { first + length (lines_of text.now) < 2 ^ 32 }
    ensures { (at : At) → IsAt rows.old at → IfOk result (ComparesTo at first (lines_of text.now)) }
{
    let mut requests = 0;
    let mut number = first;
    let mut rest = text;
    while let Some((line, after)) = next_line(rest) {
        match compare_any(rows, number, line, scratch, steps)? {
            Ok(request) => requests = with_request(requests, request),
            Err(difference) => return Ok(Comparison::Differs(difference)),
        }
        rest = after;
        number += 1;
    }
    match rows.finish(steps)? {
        Some(missing) => Ok(Comparison::Differs(missing)),
        None => Ok(Comparison::Alike(requests)),
    }
}

// Compares as `compare` does, with the counter of its steps.
fn compare_by<L: Ledger>(
    alloc: Global,
    counter: Blank,
    script: &Script,
    text: &[u8],
    first: u32,
) -> Result<Comparison, NoRoom>
    requires name { counter.name ≡ L.name }
    requires parts { counter.parts ≡ L.parts }
    requires some { 0 < L.parts }
    requires few { first + length (lines_of text.now) < 2 ^ 32 }
    ensures { IfOk result (IsComparison script.now first (lines_of text.now)) }
{
    let mut steps: Steps<L> = Steps::new(counter);
    let mut scratch = Scratch::new(alloc);
    let mut rows = Rows::new(alloc, script)?;
    compare_lines(&mut rows, text, first, &mut scratch, &mut steps)
}

/// Compares the requests and tokens of a transcript that another program wrote for a script with this program's own, row by row, where
/// the first line has this number: how many requests are compared, or where it first leaves them. The only error is want of memory.
pub fn compare(
    alloc: Global,
    script: &Script,
    text: &[u8],
    first: u32,
) -> Result<Comparison, NoRoom>
    requires few { first + length (lines_of text.now) < 2 ^ 32 }
    ensures { IfOk result (IsComparison script.now first (lines_of text.now)) }
{
    compare_by::<Brand>(alloc, Blank::new(1), script, text, first)
}
