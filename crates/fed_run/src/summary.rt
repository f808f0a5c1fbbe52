//! The run of the script of `make N`, and its summary.
ghost use Rattle.std.specs.Prelude.{◌≡◌, ◌≤◌, ◌<◌, ◌+◌, ◌^◌, ◌++◌, ◌⊎◌, List, length, IfOk, OnOk, []};
ghost use Rattle.std.specs.Io.KnownBytes.{Appends, Keeps};
ghost use Rattle.fed_io.specs.Io.{Rose, AppendsLess};
ghost use Rattle.std.specs.List.{filter, fold};
ghost use Rattle.fed_print.specs.Lines.{line_of, text_of};
ghost use Rattle.fed_script.specs.Used.{HasProviders, HasKnownStatus};
ghost use Rattle.fed_session.specs.Session.{Stands, IsFresh};
ghost use Rattle.fed_trace.specs.declared.out.Out.{Out};
ghost use Rattle.fed_trace.specs.OfScript.{start, trace_of};
ghost use Rattle.fed_trace.specs.Records.{records, records_in};
ghost use Rattle.fed_trace.specs.Row.{row_of, with_event};
ghost use Rattle.fed_trace.specs.Trace.{Trace};
ghost use Rattle.fed_run.specs.Make as spec;
ghost use Rattle.fed_run.specs.Text.{summary_members};

use crate::make::make_script;
use crate::status::Status;
use fed_consent::Finish;
use fed_io::{NoRoom, Sink, Steps, put_all};
use fed_print::{Object, RecordLines};
use fed_script::{Numbered, Script};
use fed_session::Session;
use fed_trace::Out;
use std::alloc::Global;
use std::sync::ledger::Ledger;

/// What is counted of the records of a run, and the number over their text.
#[derive(Clone, Copy, Debug, PartialEq, Eq)]
pub struct Tally {
    pub requests: u64,
    pub dialogs: u64,
    pub ignored: u64,
    pub tokens: u64,
    pub mix: u32,
}

fn is_request(out: &Out) -> bool
    ensures { result ≡ spec.is_request out.now }
{
    matches!(out, Out::Request { .. })
}

fn is_dialog(out: &Out) -> bool
    ensures { result ≡ spec.is_dialog out.now }
{
    matches!(out, Out::Dialog { .. })
}

fn is_ignored(out: &Out) -> bool
    ensures { result ≡ spec.is_ignored out.now }
{
    matches!(out, Out::Ignored { .. })
}

// Whether the record is a result with a token.
fn is_token(out: &Out) -> bool
    ensures { result ≡ spec.is_token out.now }
{
    match out {
        Out::Answer { finish, .. } => matches!(finish, Finish::Token { .. }),
        _ => false,
    }
}

// How many of the records are requests.
fn requests_in(outs: &[Out]) -> usize
    ensures { result ≡ length (filter spec.is_request outs.now) }
{
    outs.iter().filter(|out| is_request(out)).count()
}

fn dialogs_in(outs: &[Out]) -> usize
    ensures { result ≡ length (filter spec.is_dialog outs.now) }
{
    outs.iter().filter(|out| is_dialog(out)).count()
}

fn ignored_in(outs: &[Out]) -> usize
    ensures { result ≡ length (filter spec.is_ignored outs.now) }
{
    outs.iter().filter(|out| is_ignored(out)).count()
}

fn tokens_in(outs: &[Out]) -> usize
    ensures { result ≡ length (filter spec.is_token outs.now) }
{
    outs.iter().filter(|out| is_token(out)).count()
}

// A count with so many more.
fn more(count: u64, further: usize) -> u64
    requires { count + further < 2 ^ 64 }
    ensures { result ≡ count + further }
{
    count + further as u64
}

// The number after a byte more.
fn mix_byte(mix: u32, byte: u8) -> u32
    ensures { result ≡ spec.mix_byte mix byte }
{
    ((31 * u64::from(mix) + u64::from(byte)) % 4294967296) as u32
}

// The number after these bytes.
fn mix_bytes(mix: u32, bytes: &[u8]) -> u32
    ensures { result ≡ fold spec.mix_byte mix bytes.now }
{
    let mut mixed = mix;
    for byte in bytes {
        mixed = mix_byte(mixed, *byte);
    }
    mixed
}

impl Tally {
    // Of no record.
    fn none() -> Tally
        ensures { result ≡ spec.tally_of [] }
    {
        Tally {
            requests: 0,
            dialogs: 0,
            ignored: 0,
            tokens: 0,
            mix: 0,
        }
    }

    // With records more, whose text this is.
    #[tactic(auto, using(crate::proofs::makes::Tally::tally_more))]
    fn with(self, outs: &[Out], text: &[u8]) -> Tally
        requires text { text.now ≡ text_of outs.now }
        requires room { spec.HasRoom self outs.now }
        ensures { (before : List Out) → self ≡ spec.tally_of before → result ≡ spec.tally_of (before ++ outs.now) }
    {
        Tally {
            requests: more(self.requests, requests_in(outs)),
            dialogs: more(self.dialogs, dialogs_in(outs)),
            ignored: more(self.ignored, ignored_in(outs)),
            tokens: more(self.tokens, tokens_in(outs)),
            mix: mix_bytes(self.mix, text),
        }
    }
}

// Takes an event: its records are written in place of those before, counted, and forgotten.
fn take_event<L: Ledger>(
    session: &mut Session,
    lines: &mut RecordLines,
    steps: &mut Steps<L>,
    numbered: &Numbered,
    tally: Tally,
) -> Result<Tally, NoRoom>
    requires few { session.old.steps < 1000000 }
    requires fresh { IsFresh session.old numbered.now.event }
    requires providers { HasProviders numbered.now.event }
    requires status { HasKnownStatus numbered.now.event }
    requires room { (T : Trace) × Stands session.old T × (tally ≡ spec.tally_of (records_in T.rows))
        × spec.HasRoom tally (records (row_of T numbered.now.line numbered.now.event)) }
    ensures { IfOk result (λ new. (T : Trace) → Stands session.old T → tally ≡ spec.tally_of (records_in T.rows)
        → Stands session.new (with_event T numbered.now.line numbered.now.event)
        × (new ≡ spec.tally_of (records_in (with_event T numbered.now.line numbered.now.event).rows))) }
{
    let outs = session.step(numbered.line, &numbered.event, steps)?;
    lines.clear();
    lines.push_all(outs.as_slice())?;
    Ok(tally.with(outs.as_slice(), lines.as_slice()))
}

// Takes the events of the script in a session in which nothing happened.
fn take_events<L: Ledger>(
    alloc: Global,
    session: &mut Session,
    script: &Script,
    steps: &mut Steps<L>,
) -> Result<Tally, NoRoom>
    requires { Stands session.old (start script.now.header) }
    ensures { IfOk result (λ tally. tally ≡ spec.tally_of (records_in (trace_of script.now).rows)) }
{
    let mut lines = RecordLines::new(alloc);
    let mut tally = Tally::none();
    let events = script.events();
    for numbered in events {
        tally = take_event(session, &mut lines, steps, numbered, tally)?;
    }
    Ok(tally)
}

// Appends the line of the summary.
fn print_summary(
    alloc: Global,
    calls: u32,
    events: u64,
    tally: Tally,
    text: &mut Vec<u8>,
) -> Result<(), NoRoom>
    ensures { OnOk result (text.new.items ≡ text.old.items ++ line_of (summary_members calls events tally)) }
{
    Object::new(alloc)
        .count("calls", calls)?
        .total("dialogs", tally.dialogs)?
        .total("events", events)?
        .total("ignored", tally.ignored)?
        .count("mix", tally.mix)?
        .text("out", "summary")?
        .total("requests", tally.requests)?
        .total("tokens", tally.tokens)?
        .append_line(text)
}

/// Runs a script in one session, and writes the summary of so many calls alone: of the records of an event nothing stays but
/// what is counted.
pub fn summarize<L: Ledger>(
    alloc: Global,
    calls: u32,
    script: &Script,
    steps: &mut Steps<L>,
) -> Result<Vec<u8>, NoRoom>
    ensures { IfOk result (λ text. text.items ≡ spec.summary_line calls script.now) }
{
    let mut session = Session::new(alloc, script.header().copy(alloc)?)?;
    let tally = take_events(alloc, &mut session, script, steps)?;
    let mut text = Vec::new(alloc);
    print_summary(alloc, calls, script.events().len() as u64, tally, &mut text)?;
    Ok(text)
}

/// What `make N` writes for so many calls.
pub fn make<L: Ledger>(alloc: Global, calls: u32, steps: &mut Steps<L>) -> Result<Vec<u8>, NoRoom>
    requires some { 1 ≤ calls }
    requires most { calls ≤ 20000 }
    ensures { IfOk result (λ text. text.items ≡ spec.summary_text calls) }
{
    let script = make_script(alloc, calls)?;
    summarize(alloc, calls, &script, steps)
}

/// Writes the summary of the script of so many calls.
#[inline(never)]
pub fn tell_summary<K: Sink, L: Ledger>(
    alloc: Global,
    calls: u32,
    sink: &mut K,
    steps: &mut Steps<L>,
) -> Status
    requires some { 1 ≤ calls }
    requires most { calls ≤ 20000 }
    ensures ends { (result ≡ Status.Done) ⊎ ((result ≡ Status.WriteFault) ⊎ (result ≡ Status.NoRoom)) }
    ensures done { result ≡ Status.Done → Appends (K.taken sink.old) (K.taken sink.new) (spec.summary_text calls) }
    ensures write_fault { result ≡ Status.WriteFault → Rose (K.faults sink.old) (K.faults sink.new)
        × AppendsLess (K.taken sink.old) (K.taken sink.new) (spec.summary_text calls) }
    ensures no_room { result ≡ Status.NoRoom → Keeps (K.taken sink.old) (K.taken sink.new) }
    ensures later { K.faults sink.old ≤ K.faults sink.new }
{
    let text = match make(alloc, calls, steps) {
        Ok(text) => text,
        Err(_) => return Status::NoRoom,
    };
    match put_all(sink, text.as_slice()) {
        Ok(()) => Status::Done,
        Err(_) => Status::WriteFault,
    }
}
