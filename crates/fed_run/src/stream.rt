//! The form `run`: a script's transcript, written as the script is read.
ghost use Rattle.std.specs.Prelude.{◌≡◌, ◌+◌, ◌≤◌, ◌<◌, ◌⊎◌, ℕ, List, [], Option, Some, IfOk, IfErr, OnErr, IfSome};
ghost use Rattle.std.specs.Result.{IsErrOf};
ghost use Rattle.std.specs.Io.KnownBytes.{Appends, IsAtEnd};
ghost use Rattle.fed_io.specs.Io.{Rose, AppendsLess};
ghost use Rattle.fed_run.specs.declared.form.Form.TheVariants.{Run};
ghost use Rattle.fed_run.specs.Ends.{EndsAs, Writes};
ghost use Rattle.fed_run.specs.Run.{TakesAtMost, TakesExactly, NoneRose};
ghost use Rattle.fed_run.specs.Told.{told_all, ended_records, all_records, end_status};
ghost use Rattle.fed_run.specs.Streams.{IsAt, Took, AfterStop, ReadsOnly, StopsAfter, FallsShort, RunEnds};

use crate::pieces::{put_last, take_last, take_pieces};
use crate::read::LIMIT;
use crate::status::Status;
use crate::stop::{Met, Stop};
use fed_io::{Sink, Source, Steps};
use fed_print::RecordLines;
use fed_script::ScriptReader;
use fed_session::Session;
use std::alloc::Global;
use std::sync::ledger::Ledger;

/// Takes the last line, and puts the record of the end.
pub fn take_end<K: Sink, L: Ledger>(
    alloc: Global,
    reader: &mut ScriptReader,
    session: &mut Option<Session>,
    sink: &mut K,
    lines: &mut RecordLines,
    steps: &mut Steps<L>,
) -> Result<Status, Stop>
    requires { (start : Option (List ℕ)) × (bytes : List ℕ) × IsAt reader.old session.old start (K.taken sink.old) bytes }
    ensures ok { IfOk result (λ status. (start : Option (List ℕ)) (bytes : List ℕ)
        → IsAt reader.old session.old start (K.taken sink.old) bytes
        → (status ≡ end_status (told_all bytes).bad) × Appends start (K.taken sink.new) (all_records bytes)) }
    ensures err { OnErr result ((start : Option (List ℕ)) (bytes : List ℕ) → IsAt reader.old session.old start (K.taken sink.old) bytes
        → Took start (K.taken sink.new) (ended_records bytes) (all_records bytes)) }
    ensures less { IsErrOf result Stop.WriteFault → (start : Option (List ℕ)) (bytes : List ℕ)
        → IsAt reader.old session.old start (K.taken sink.old) bytes → AppendsLess start (K.taken sink.new) (all_records bytes) }
    ensures later { K.faults sink.old ≤ K.faults sink.new }
    ensures fault { IsErrOf result Stop.WriteFault → Rose (K.faults sink.old) (K.faults sink.new) }
    ensures kind { IsErrOf result Stop.ReadFault → ⊥ }
{
    match take_last(alloc, reader, session, sink, lines, steps) {
        Err(stop) => Err(stop),
        Ok(bad) => match put_last(alloc, reader.events(), bad, sink) {
            Err(stop) => Err(stop),
            Ok(status) => Ok(status),
        },
    }
}

// Runs to the end, or up to what stops it.
fn stream<S: Source, K: Sink, L: Ledger>(
    alloc: Global,
    source: &mut S,
    sink: &mut K,
    reader: &mut ScriptReader,
    session: &mut Option<Session>,
    lines: &mut RecordLines,
    steps: &mut Steps<L>,
) -> Result<Status, Stop>
    requires { IsAt reader.old session.old (K.taken sink.old) (K.taken sink.old) [] }
    ensures ok { IfOk result (λ status. RunEnds status (S.left source.old) (S.left source.new) (K.taken sink.old) (K.taken sink.new)) }
    ensures err { IfErr result (λ stop. AfterStop stop (S.left source.old) (S.left source.new) (K.taken sink.old) (K.taken sink.new)) }
    ensures takes { TakesAtMost (S.left source.old) (S.left source.new) (LIMIT + 1) }
    ensures read_fault { IsErrOf result Stop.ReadFault → Rose (S.faults source.old) (S.faults source.new) }
    ensures write_fault { IsErrOf result Stop.WriteFault → Rose (K.faults sink.old) (K.faults sink.new) }
    ensures source_faults { S.faults source.old ≤ S.faults source.new }
    ensures sink_faults { K.faults sink.old ≤ K.faults sink.new }
{
    match take_pieces(alloc, source, sink, reader, session, lines, steps) {
        Err(stop) => Err(stop),
        Ok(Met::TooLong) => Ok(Status::TooLong),
        Ok(Met::End) => match take_end(alloc, reader, session, sink, lines, steps) {
            Err(stop) => Err(stop),
            Ok(status) => Ok(status),
        },
        Ok(Met::Bad(number, cause)) => match put_last(alloc, 0, Some((number, cause)), sink) {
            Err(stop) => Err(stop),
            Ok(status) => Ok(status),
        },
    }
}

/// Runs the script of a source, which is taken in pieces of at most 16,384 bytes. The records of each event are put before the
/// next line is read, so that neither the script nor the transcript is kept.
#[inline(never)]
pub fn run<S: Source, K: Sink, L: Ledger>(
    alloc: Global,
    source: &mut S,
    sink: &mut K,
    steps: &mut Steps<L>,
) -> Status
    ensures ends { (result ≡ Status.Usage → ⊥) × (result ≡ Status.NotTwins → ⊥) × (result ≡ Status.Faulty → ⊥)
        × (result ≡ Status.NotSaved → ⊥) × (result ≡ Status.Differs → ⊥) }
    ensures done { result ≡ Status.Done → IsAtEnd (S.left source.new)
        × IfSome (S.left source.old) (λ bytes. Writes LIMIT (Some Run) bytes Status.Done (K.taken sink.old) (K.taken sink.new)) }
    ensures bad_script { result ≡ Status.BadScript
        → IfSome (S.left source.old) (λ bytes. Writes LIMIT (Some Run) bytes Status.BadScript (K.taken sink.old) (K.taken sink.new)) }
    ensures too_long { result ≡ Status.TooLong
        → IfSome (S.left source.old) (λ bytes. Writes LIMIT (Some Run) bytes Status.TooLong (K.taken sink.old) (K.taken sink.new)) }
    ensures past_limit { result ≡ Status.TooLong → TakesExactly (S.left source.old) (S.left source.new) (LIMIT + 1) }
    ensures read_fault { result ≡ Status.ReadFault → Rose (S.faults source.old) (S.faults source.new)
        × ReadsOnly (S.left source.old) (S.left source.new) (K.taken sink.old) (K.taken sink.new) }
    ensures write_fault { result ≡ Status.WriteFault → Rose (K.faults sink.old) (K.faults sink.new)
        × StopsAfter (S.left source.old) (S.left source.new) (K.taken sink.old) (K.taken sink.new)
        × FallsShort LIMIT (S.left source.old) (K.taken sink.old) (K.taken sink.new) }
    ensures no_room { result ≡ Status.NoRoom
        → StopsAfter (S.left source.old) (S.left source.new) (K.taken sink.old) (K.taken sink.new) }
    ensures complete { NoneRose (S.faults source.old) (S.faults source.new) → NoneRose (K.faults sink.old) (K.faults sink.new)
        → IfSome (S.left source.old) (λ bytes. EndsAs LIMIT (Some Run) bytes result ⊎ (result ≡ Status.NoRoom)) }
    ensures takes { TakesAtMost (S.left source.old) (S.left source.new) (LIMIT + 1) }
    ensures source_faults { S.faults source.old ≤ S.faults source.new }
    ensures sink_faults { K.faults sink.old ≤ K.faults sink.new }
{
    let mut reader = ScriptReader::new(alloc);
    let mut session = None;
    let mut lines = RecordLines::new(alloc);
    match stream(
        alloc,
        source,
        sink,
        &mut reader,
        &mut session,
        &mut lines,
        steps,
    ) {
        Ok(status) => status,
        Err(Stop::ReadFault) => Status::ReadFault,
        Err(Stop::WriteFault) => Status::WriteFault,
        Err(Stop::NoRoom) => Status::NoRoom,
    }
}
