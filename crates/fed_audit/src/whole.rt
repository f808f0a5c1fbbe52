//! The audit of a whole transcript.
ghost use Rattle.std.specs.Prelude.{◌≡◌, ◌∷◌, ◌<◌, ◌+◌, ◌^◌, List, [], false, not, Some, None, count_by, length, IfOk, MatchResult};
ghost use Rattle.std.specs.Option.{option_copied};
ghost use Rattle.fed_script.specs.Script.{lines_of};
ghost use Rattle.fed_script.specs.Script.{is_blank as blank};
ghost use Rattle.fed_audit.specs.declared.record.Record.{Record as Said};
ghost use Rattle.fed_audit.specs.Record.{record_of};
ghost use Rattle.fed_audit.specs.Audit.{PassInTurn, AuditFaultOf, Passes, Fails};
ghost use Rattle.fed_audit.specs.Walk.{AreFrom, IsRising, Walks, last_line};
ghost use Rattle.fed_trace.specs.Trace.{Trace};
ghost use Rattle.fed_audit.specs.Follow.{Follows, Notes};
ghost use Rattle.fed_audit.specs.Found as found;
ghost use Rattle.fed_audit.specs.Scene.{Scene, trace_through};

use crate::fault::{AuditClause, AuditFault};
use crate::record::{Record, read_record};
use crate::request::{Asking, request_fault};
use crate::seen::{Seen, Taken};
use crate::token::{Giving, token_fault};
use fed_io::{NoRoom, Steps};
use fed_script::{Event, Numbered, Script, is_blank, next_line};
use json::Scratch;
use std::alloc::Global;
use std::marker::Brand;
use std::sync::ledger::{Blank, Ledger};

// Judges a record of the event, and takes note of it where it passes.
fn judge(
    alloc: Global,
    seen: &mut Seen,
    event: &Event,
    said: &Record,
) -> Result<Option<AuditClause>, NoRoom>
    ensures follows { (T : Trace) → Follows seen.old T → Follows seen.new T }
    ensures judged { (s : Scene) → Follows seen.old (trace_through s) → Notes seen.old s.earlier → event.now ≡ s.row.event
        → IfOk result (λ fault. found.IsFirst s said.now fault × (fault ≡ None → Notes seen.new (said.now ∷ s.earlier))) }
{
    match said {
        Record::Request {
            line: _,
            call,
            provider,
            kind,
            bytes,
        } => {
            let asking = Asking {
                call: *call,
                provider: *provider,
                kind: *kind,
                bytes: bytes.as_slice(),
            };
            let fault = request_fault(alloc, seen, &asking)?;
            if fault.is_none() {
                seen.note_request(*call, *provider, *kind)?;
            }
            Ok(fault)
        }
        Record::Token {
            line: _,
            call,
            provider,
            token,
            page: _,
            auto: _,
        } => {
            let giving = Giving {
                call: *call,
                provider: *provider,
                token: token.as_str(),
            };
            let fault = token_fault(alloc, seen, event, &giving)?;
            if fault.is_none() {
                seen.note_result(*call)?;
            }
            Ok(fault)
        }
        Record::Answer { line: _, call } => {
            if !seen.calls.has(*call) {
                return Ok(Some(AuditClause::Call));
            }
            seen.note_result(*call)?;
            Ok(None)
        }
        Record::Other { .. } | Record::End => Ok(None),
    }
}

// The line of the last event that was taken; 0 where none was.
fn line_of_last(last: Option<&Numbered>) -> u32
    ensures { result ≡ last_line (option_copied last.entry) }
{
    match last {
        Some(n) => n.line,
        None => 0,
    }
}

// Judges a line that is not blank, where those before it passed, and how far the events are taken then.
fn judge_line<'e, L: Ledger>(
    seen: &mut Seen,
    script: &Script,
    at: Taken<'e>,
    line: &[u8],
    scratch: &mut Scratch,
    steps: &mut Steps<L>,
) -> Result<Result<Taken<'e>, AuditClause>, NoRoom>
    requires walks { Walks script.now seen.old (option_copied at.last) at.left.now }
    ensures { (earlier : List Said) → Notes seen.old earlier → AreFrom (last_line (option_copied at.entry.last)) earlier
        → IfOk result (λ judged. MatchResult judged
        (λ r. (said : Said) × (record_of line.now ≡ Some said) × Passes script.now earlier said × Notes seen.new (said ∷ earlier)
        × AreFrom (last_line (option_copied r.last)) (said ∷ earlier) × Walks script.now seen.new (option_copied r.last) r.left.now)
        (λ clause. Fails script.now earlier line.now clause)) }
{
    let Some(record) = read_record(seen.alloc, scratch, line)? else {
        return Ok(Err(AuditClause::Record));
    };
    let Some(place) = record.line() else {
        return Ok(Ok(at));
    };
    if place < line_of_last(at.last) {
        return Ok(Err(AuditClause::Record));
    }
    let reached = seen.take_to(script, at, place, steps)?;
    let Some(n) = reached.last else {
        return Ok(Err(AuditClause::Record));
    };
    if n.line != place {
        return Ok(Err(AuditClause::Record));
    }
    match judge(seen.alloc, seen, &n.event, &record)? {
        Some(clause) => Ok(Err(clause)),
        None => Ok(Ok(reached)),
    }
}

// Judges a line, where those before it passed; a blank one passes.
fn judge_any<'e, L: Ledger>(
    seen: &mut Seen,
    script: &Script,
    at: Taken<'e>,
    line: &[u8],
    scratch: &mut Scratch,
    steps: &mut Steps<L>,
) -> Result<Result<Taken<'e>, AuditClause>, NoRoom>
    requires walks { Walks script.now seen.old (option_copied at.last) at.left.now }
    ensures { (earlier : List Said) → Notes seen.old earlier → AreFrom (last_line (option_copied at.entry.last)) earlier
        → IfOk result (λ judged. MatchResult judged
        (λ r. (records : List Said) × PassInTurn script.now (line.now ∷ []) earlier records × Notes seen.new records
        × AreFrom (last_line (option_copied r.last)) records × Walks script.now seen.new (option_copied r.last) r.left.now)
        (λ clause. (blank line.now ≡ false) × Fails script.now earlier line.now clause)) }
{
    if is_blank(line) {
        return Ok(Ok(at));
    }
    judge_line(seen, script, at, line, scratch, steps)
}

// Audits as `audit` does, with the counter of its steps.
fn audit_by<L: Ledger>(
    alloc: Global,
    counter: Blank,
    script: &Script,
    text: &[u8],
    first: u32,
) -> Result<Option<AuditFault>, NoRoom>
    requires name { counter.name ≡ L.name }
    requires parts { counter.parts ≡ L.parts }
    requires some { 0 < L.parts }
    requires rising { IsRising script.now }
    requires few { first + length (lines_of text.now) < 2 ^ 32 }
    ensures { IfOk result (AuditFaultOf script.now first (lines_of text.now)) }
{
    let mut steps: Steps<L> = Steps::new(counter);
    let mut scratch = Scratch::new(alloc);
    let mut seen = Seen::new(alloc, script.header().copy(alloc)?)?;
    let mut at = Taken::none_of(script);
    let mut number = first;
    let mut rest = text;
    while let Some((line, after)) = next_line(rest) {
        match judge_any(&mut seen, script, at, line, &mut scratch, &mut steps)? {
            Ok(next) => at = next,
            Err(clause) => {
                return Ok(Some(AuditFault {
                    line: number,
                    clause,
                }));
            }
        }
        rest = after;
        number += 1;
    }
    Ok(None)
}

/// Audits the lines of a transcript that another program wrote for a script, where the first line has this number: the first line that
/// fails a clause, and the first clause that it fails. The only error is want of memory.
pub fn audit(
    alloc: Global,
    script: &Script,
    text: &[u8],
    first: u32,
) -> Result<Option<AuditFault>, NoRoom>
    requires rising { IsRising script.now }
    requires few { first + length (lines_of text.now) < 2 ^ 32 }
    ensures { IfOk result (AuditFaultOf script.now first (lines_of text.now)) }
{
    audit_by::<Brand>(alloc, Blank::new(1), script, text, first)
}

/// How many lines of a transcript are not blank. It takes no memory.
pub fn count_records(text: &[u8]) -> usize
    ensures { result ≡ count_by (λ line. not (blank line)) (lines_of text.now) }
{
    let mut count = 0;
    let mut rest = text;
    while let Some((line, after)) = next_line(rest) {
        if !is_blank(line) {
            count += 1;
        }
        rest = after;
    }
    count
}
