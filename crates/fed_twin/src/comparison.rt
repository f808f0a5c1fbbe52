//! How far two twin scripts are compared.
ghost use Rattle.std.specs.Prelude.{◌≡◌, ◌<◌, filter, length, IfOk};
ghost use Rattle.std.specs.List.{list_any};
ghost use Rattle.fed_script.specs.Used.{HasProviders, HasKnownStatus};
ghost use Rattle.fed_trace.specs.OfScript.{start};
ghost use Rattle.fed_trace.specs.Row.{row_of, with_event};
ghost use Rattle.fed_session.specs.Session.{Stands, IsFresh};
ghost use Rattle.fed_trace.specs.Trace.{Trace};
ghost use Rattle.fed_twin.specs.Compare.{IsQuietLength, QuietRun};
ghost use Rattle.fed_twin.specs.Compare.{is_naming_record, is_first_record, get_count, quiet_count, quiet_requests};
ghost use Rattle.fed_twin.specs.Script as spec;
ghost use Rattle.fed_twin.specs.Script.{sign_in};
ghost use Rattle.fed_twin.specs.Twin.{Twin};

use crate::kept::is_kept;
use fed_io::{NoRoom, Steps};
use fed_origin::ReplyKind;
use fed_script::{Event, Numbered, Script};
use fed_session::{Out, Session};
use std::alloc::Global;
use std::marker::Brand;
use std::sync::ledger::{Blank, Ledger};

// Whether the record is a request for a token or a disconnect.
#[tactic(auto, unfolding(crate::specs::Compare::is_naming_record))]
fn names_user(out: &Out) -> bool
    ensures { result ≡ is_naming_record out.now }
{
    matches!(
        out,
        Out::Request {
            kind: ReplyKind::Assertion | ReplyKind::Disconnect,
            ..
        }
    )
}

// Whether the record is one of the first three requests of a sign-in.
#[tactic(auto, unfolding(crate::specs::Compare::is_first_record))]
fn signs_in(out: &Out) -> bool
    ensures { result ≡ is_first_record out.now }
{
    matches!(
        out,
        Out::Request {
            kind: ReplyKind::WellKnown | ReplyKind::Config | ReplyKind::Accounts,
            ..
        }
    )
}

// Whether a record asks for a token or a disconnect.
fn any_names_user(outs: &[Out]) -> bool
    ensures { result ≡ list_any is_naming_record outs.now }
{
    outs.iter().any(names_user)
}

// The number of sign-in requests among records.
fn count_requests(outs: &[Out]) -> u64
    ensures { result ≡ length (filter is_first_record outs.now) }
{
    outs.iter().filter(|out| signs_in(out)).count() as u64
}

// Whether the event begins a disconnect.
fn is_disconnect(event: &Event) -> bool
    ensures { result ≡ spec.is_disconnect event.now }
{
    matches!(event, Event::Disconnect { .. })
}

// The number of sign-in requests of gets among the records of an event. A disconnect sends its first requests where it begins,
// and nowhere else.
fn count_of_gets(event: &Event, outs: &[Out]) -> u64
    ensures { result ≡ get_count event.now outs.now }
{
    if is_disconnect(event) {
        0
    } else {
        count_requests(outs)
    }
}

// The same, unless a record asks for a token or a disconnect.
fn requests_among(event: &Event, outs: &[Out]) -> Option<u64>
    ensures { result ≡ quiet_count event.now outs.now }
{
    if any_names_user(outs) {
        None
    } else {
        Some(count_of_gets(event, outs))
    }
}

// Takes an event, and answers the number of its sign-in requests of gets, unless it asks for a token or a disconnect.
fn take_event<L: Ledger>(
    session: &mut Session,
    n: &Numbered,
    steps: &mut Steps<L>,
) -> Result<Option<u64>, NoRoom>
    requires few { session.old.steps < 1000000 }
    requires fresh { IsFresh session.old n.now.event }
    requires providers { HasProviders n.now.event }
    requires status { HasKnownStatus n.now.event }
    ensures { (T : Trace) → Stands session.old T
        → IfOk result (λ found. (found ≡ quiet_requests (row_of T n.now.line n.now.event))
        × Stands session.new (with_event T n.now.line n.now.event)) }
{
    let outs = session.step(n.line, &n.event, steps)?;
    let found = requests_among(&n.event, outs.as_slice());
    Ok(found)
}

// The run of a script by a session in which nothing happened.
fn take_events<L: Ledger>(
    session: &mut Session,
    script: &Script,
    most: u64,
    steps: &mut Steps<L>,
) -> Result<(u64, u64), NoRoom>
    requires { Stands session.old (start script.now.header) }
    ensures { IfOk result (QuietRun script.now most) }
{
    // All requests so far are `total`, and those up to the last kept event are `sent`.
    let mut kept = 0;
    let mut sent = 0;
    let mut total = 0;
    for n in script.events() {
        if kept == most {
            break;
        }
        let Some(requests) = take_event(session, n, steps)? else {
            break;
        };
        total += requests;
        if is_kept(&n.event) {
            kept += 1;
            sent = total;
        }
    }
    Ok((kept, sent))
}

// How far a script is quiet, up to so many kept events at most: the number of kept events before a token or a
// disconnect is asked for, and the number of sign-in requests up to the last of these.
fn quiet_run<L: Ledger>(
    alloc: Global,
    script: &Script,
    most: u64,
    steps: &mut Steps<L>,
) -> Result<(u64, u64), NoRoom>
    ensures { IfOk result (QuietRun script.now most) }
{
    let mut session = Session::new(alloc, script.header().copy(alloc)?)?;
    take_events(&mut session, script, most, steps)
}

// The same as `compare`, with the counter of its steps.
fn compare_by<L: Ledger>(
    alloc: Global,
    blank: Blank,
    a: &Script,
    b: &Script,
) -> Result<(u64, u64), NoRoom>
    requires twin { Twin a.now b.now }
    requires name { blank.name ≡ L.name }
    requires parts { blank.parts ≡ L.parts }
    requires some { 0 < L.parts }
    ensures quiet { IfOk result (λ found. IsQuietLength a.now b.now found.0) }
    ensures compared { IfOk result (λ found. found.1 ≡ length (sign_in a.now found.0)) }
    ensures alike { IfOk result (λ found. sign_in a.now found.0 ≡ sign_in b.now found.0) }
{
    let mut steps: Steps<L> = Steps::new(blank);
    let all = b.events().len() as u64;
    let (most, _) = quiet_run(alloc, b, all, &mut steps)?;
    quiet_run(alloc, a, most, &mut steps)
}

/// How far two twin scripts are compared: the greatest number of kept events up to which neither asks for a token or a
/// disconnect, and the number of sign-in requests of the first script up to there, which are, byte for byte, those of the
/// second. Each script is stepped once. The only error is want of memory.
pub fn compare(alloc: Global, a: &Script, b: &Script) -> Result<(u64, u64), NoRoom>
    requires { Twin a.now b.now }
    ensures quiet { IfOk result (λ found. IsQuietLength a.now b.now found.0) }
    ensures compared { IfOk result (λ found. found.1 ≡ length (sign_in a.now found.0)) }
    ensures alike { IfOk result (λ found. sign_in a.now found.0 ≡ sign_in b.now found.0) }
{
    compare_by::<Brand>(alloc, Blank::new(1), a, b)
}
