//! Running a script, one line after the other.
ghost use Rattle.std.specs.Prelude.{◌≡◌, ◌≤◌, ◌<◌, Option, Some, IfOk, IfSome, OnOk, OnErr};
ghost use Rattle.std.specs.Result.{IsErrOf};
ghost use Rattle.std.specs.Io.KnownBytes.{Appends};
ghost use Rattle.fed_io.specs.Io.{Rose, AppendsFront, AppendsLess};
ghost use Rattle.fed_script.specs.Reader.{LineMayFollow, header_in, used_by};
ghost use Rattle.fed_script.specs.Used.{UsedState, unused, HasProviders, HasKnownStatus};
ghost use Rattle.fed_session.specs.Session.{Stands, IsFresh};
ghost use Rattle.fed_trace.specs.OfScript.{start};
ghost use Rattle.fed_trace.specs.Row.{with_event};
ghost use Rattle.fed_trace.specs.Trace.{Trace};
ghost use Rattle.fed_run.specs.Told.{Told, At, tell, event_text, line_text, bad_of};

use crate::stop::Stop;
use fed_io::{NoRoom, Sink, Steps, put_all};
use fed_print::RecordLines;
use fed_script::{Event, Header, Line, LineCause};
use fed_session::Session;
use std::alloc::Global;
use std::sync::ledger::Ledger;

/// Puts a text into the sink, the whole or, where the sink fails, a front of it that is not the whole.
pub fn put<K: Sink>(sink: &mut K, text: &[u8]) -> Result<(), Stop>
    ensures ok { OnOk result (Appends (K.taken sink.old) (K.taken sink.new) text.now) }
    ensures err { OnErr result (AppendsFront (K.taken sink.old) (K.taken sink.new) text.now) }
    ensures less { OnErr result (AppendsLess (K.taken sink.old) (K.taken sink.new) text.now) }
    ensures later { K.faults sink.old ≤ K.faults sink.new }
    ensures fault { OnErr result (Rose (K.faults sink.old) (K.faults sink.new)) }
    ensures kind { OnErr result (IsErrOf result Stop.WriteFault) }
{
    match put_all(sink, text) {
        Ok(()) => Ok(()),
        Err(_) => Err(Stop::WriteFault),
    }
}

// Takes an event, and puts its records. The lines are memory that is used again.
fn take_event<K: Sink, L: Ledger>(
    session: &mut Session,
    sink: &mut K,
    lines: &mut RecordLines,
    steps: &mut Steps<L>,
    number: u32,
    event: &Event,
) -> Result<(), Stop>
    requires few { session.old.steps < 1000000 }
    requires fresh { IsFresh session.old event.now }
    requires providers { HasProviders event.now }
    requires status { HasKnownStatus event.now }
    ensures ok { OnOk result ((T : Trace) → Stands session.old T → Stands session.new (with_event T number event.now)
        × Appends (K.taken sink.old) (K.taken sink.new) (event_text T number event.now)) }
    ensures err { OnErr result ((T : Trace) → Stands session.old T
        → AppendsFront (K.taken sink.old) (K.taken sink.new) (event_text T number event.now)) }
    ensures less { IsErrOf result Stop.WriteFault → (T : Trace) → Stands session.old T
        → AppendsLess (K.taken sink.old) (K.taken sink.new) (event_text T number event.now) }
    ensures later { K.faults sink.old ≤ K.faults sink.new }
    ensures fault { IsErrOf result Stop.WriteFault → Rose (K.faults sink.old) (K.faults sink.new) }
    ensures kind { IsErrOf result Stop.ReadFault → ⊥ }
{
    lines.clear();
    let outs = session.step(number, event, steps)?;
    lines.push_all(outs.as_slice())?;
    put(sink, lines.as_slice())
}

// Begins the session of a header.
fn begin(alloc: Global, session: &mut Option<Session>, header: Header) -> Result<(), NoRoom>
    ensures { OnOk result (At (Some (unused header.now)) session.new (Some (start header))) }
{
    *session = Some(Session::new(alloc, header)?);
    Ok(())
}

// Begins the session of the header that the line is.
fn begin_by(alloc: Global, session: &mut Option<Session>, line: Line) -> Result<(), NoRoom>
    ensures { OnOk result (IfSome (header_in line) (λ header. At (Some (unused header.now)) session.new (Some (start header)))) }
{
    match line.into_header() {
        Some(header) => begin(alloc, session, header),
        None => Ok(()),
    }
}

/// Takes a line, and answers its number and cause where it is bad. The records of an event are put.
pub fn take_line<K: Sink, L: Ledger>(
    alloc: Global,
    session: &mut Option<Session>,
    sink: &mut K,
    lines: &mut RecordLines,
    steps: &mut Steps<L>,
    line: Line,
) -> Result<Option<(u32, LineCause)>, Stop>
    requires { (used : Option UsedState) × (trace : Option Trace) × At used session.old trace × LineMayFollow used line }
    ensures ok { OnOk result ((used : Option UsedState) (t : Told) → At used session.old t.trace → LineMayFollow used line
        → At (used_by line used) session.new (tell t line).trace
        × Appends (K.taken sink.old) (K.taken sink.new) (line_text t.trace line)) }
    ensures bad { IfOk result (λ bad. bad ≡ bad_of line) }
    ensures err { OnErr result ((used : Option UsedState) (t : Told) → At used session.old t.trace → LineMayFollow used line
        → AppendsFront (K.taken sink.old) (K.taken sink.new) (line_text t.trace line)) }
    ensures less { IsErrOf result Stop.WriteFault → (used : Option UsedState) (t : Told) → At used session.old t.trace
        → LineMayFollow used line → AppendsLess (K.taken sink.old) (K.taken sink.new) (line_text t.trace line) }
    ensures later { K.faults sink.old ≤ K.faults sink.new }
    ensures fault { IsErrOf result Stop.WriteFault → Rose (K.faults sink.old) (K.faults sink.new) }
    ensures kind { IsErrOf result Stop.ReadFault → ⊥ }
{
    match &line {
        Line::Blank(_) => Ok(None),
        Line::Bad(number, cause) => Ok(Some((*number, *cause))),
        Line::Event(number, event) => match session {
            Some(session) => {
                take_event(session, sink, lines, steps, *number, event)?;
                Ok(None)
            }
            None => Ok(None),
        },
        Line::Head(..) => {
            begin_by(alloc, session, line)?;
            Ok(None)
        }
    }
}
