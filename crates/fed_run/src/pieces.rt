//! Taking the pieces of a script, and its end.
ghost use Rattle.std.specs.Prelude.{◌≡◌, ◌+◌, ◌++◌, ◌≤◌, ◌<◌, ℕ, List, [], length, Option, IfOk, IfErr, OnOk, OnErr, IfSome, IfNone};
ghost use Rattle.std.specs.Result.{IsErrOf};
ghost use Rattle.std.specs.Io.KnownBytes.{Appends};
ghost use Rattle.fed_io.specs.Io.{Rose, AppendsFront, AppendsLess};
ghost use Rattle.fed_run.specs.Run.{TakesAtMost};
ghost use Rattle.fed_run.specs.Told.{ended_records, all_records, end_status, last_text};
ghost use Rattle.fed_run.specs.Streams.{IsAt, MetBad, Took, MetAs, StopsAs, LastAt};

use crate::print::{print_bad, print_end};
use crate::read::{LIMIT, PIECE};
use crate::run::{put, take_line};
use crate::status::Status;
use crate::stop::{Met, Stop};
use fed_io::{Sink, Source, Steps};
use fed_print::RecordLines;
use fed_script::{LineCause, ScriptReader};
use fed_session::Session;
use std::alloc::Global;
use std::sync::ledger::Ledger;

/// Takes the lines that end in a piece, up to a bad one, and puts the records of each before the next is read.
pub fn take_piece<K: Sink, L: Ledger>(
    alloc: Global,
    reader: &mut ScriptReader,
    session: &mut Option<Session>,
    sink: &mut K,
    lines: &mut RecordLines,
    steps: &mut Steps<L>,
    piece: &[u8],
) -> Result<Option<(u32, LineCause)>, Stop>
    requires { (start : Option (List ℕ)) × (bytes : List ℕ) × IsAt reader.old session.old start (K.taken sink.old) bytes
        × (length bytes + length piece.now ≤ 67108865) }
    ensures none { IfOk result (λ bad. IfNone bad ((start : Option (List ℕ)) (bytes : List ℕ)
        → IsAt reader.old session.old start (K.taken sink.old) bytes
        → IsAt reader.new session.new start (K.taken sink.new) (bytes ++ piece.now))) }
    ensures some { IfOk result (λ bad. IfSome bad (λ cause. (start : Option (List ℕ)) (bytes : List ℕ)
        → IsAt reader.old session.old start (K.taken sink.old) bytes
        → MetBad start (K.taken sink.new) (bytes ++ piece.now) cause)) }
    ensures err { OnErr result ((start : Option (List ℕ)) (bytes : List ℕ) → IsAt reader.old session.old start (K.taken sink.old) bytes
        → Took start (K.taken sink.new) (ended_records bytes) (ended_records (bytes ++ piece.now))) }
    ensures less { IsErrOf result Stop.WriteFault → (start : Option (List ℕ)) (bytes : List ℕ)
        → IsAt reader.old session.old start (K.taken sink.old) bytes
        → AppendsLess start (K.taken sink.new) (ended_records (bytes ++ piece.now)) }
    ensures later { K.faults sink.old ≤ K.faults sink.new }
    ensures fault { IsErrOf result Stop.WriteFault → Rose (K.faults sink.old) (K.faults sink.new) }
    ensures kind { IsErrOf result Stop.ReadFault → ⊥ }
{
    let mut rest = piece;
    while let Some((line, further)) = reader.next(rest)? {
        match take_line(alloc, session, sink, lines, steps, line) {
            Err(stop) => return Err(stop),
            Ok(Some(bad)) => return Ok(Some(bad)),
            Ok(None) => {}
        }
        rest = further;
    }
    Ok(None)
}

/// Takes pieces of at most 16,384 bytes up to the end of the source, a bad line, or the byte after the limit.
pub fn take_pieces<S: Source, K: Sink, L: Ledger>(
    alloc: Global,
    source: &mut S,
    sink: &mut K,
    reader: &mut ScriptReader,
    session: &mut Option<Session>,
    lines: &mut RecordLines,
    steps: &mut Steps<L>,
) -> Result<Met, Stop>
    requires { IsAt reader.old session.old (K.taken sink.old) (K.taken sink.old) [] }
    ensures ok { IfOk result (λ met. MetAs met (S.left source.old) (S.left source.new) reader.new session.new
        (K.taken sink.old) (K.taken sink.new)) }
    ensures err { IfErr result (λ stop. StopsAs stop (S.left source.old) (S.left source.new) (K.taken sink.old) (K.taken sink.new)) }
    ensures takes { TakesAtMost (S.left source.old) (S.left source.new) (LIMIT + 1) }
    ensures read_fault { IsErrOf result Stop.ReadFault → Rose (S.faults source.old) (S.faults source.new) }
    ensures write_fault { IsErrOf result Stop.WriteFault → Rose (K.faults sink.old) (K.faults sink.new) }
    ensures source_faults { S.faults source.old ≤ S.faults source.new }
    ensures sink_faults { K.faults sink.old ≤ K.faults sink.new }
{
    let mut buffer = [0u8; PIECE];
    let mut count = 0;
    while count < LIMIT {
        let room = (LIMIT - count).min(PIECE);
        let got = match source.take(&mut buffer[..room]) {
            Err(_) => return Err(Stop::ReadFault),
            Ok(0) => return Ok(Met::End),
            Ok(n) => n,
        };
        match take_piece(alloc, reader, session, sink, lines, steps, &buffer[..got]) {
            Err(stop) => return Err(stop),
            Ok(Some((number, cause))) => return Ok(Met::Bad(number, cause)),
            Ok(None) => {}
        }
        count += got;
    }
    match source.take(&mut buffer[..1]) {
        Err(_) => Err(Stop::ReadFault),
        Ok(0) => Ok(Met::End),
        Ok(_) => Ok(Met::TooLong),
    }
}

/// Takes the last line, where it lacks its LF, and answers its number and cause where it is bad.
pub fn take_last<K: Sink, L: Ledger>(
    alloc: Global,
    reader: &mut ScriptReader,
    session: &mut Option<Session>,
    sink: &mut K,
    lines: &mut RecordLines,
    steps: &mut Steps<L>,
) -> Result<Option<(u32, LineCause)>, Stop>
    requires { (start : Option (List ℕ)) × (bytes : List ℕ) × IsAt reader.old session.old start (K.taken sink.old) bytes }
    ensures ok { IfOk result (λ bad. (start : Option (List ℕ)) (bytes : List ℕ)
        → IsAt reader.old session.old start (K.taken sink.old) bytes → LastAt reader.new start (K.taken sink.new) bytes bad) }
    ensures err { OnErr result ((start : Option (List ℕ)) (bytes : List ℕ) → IsAt reader.old session.old start (K.taken sink.old) bytes
        → Took start (K.taken sink.new) (ended_records bytes) (all_records bytes)) }
    ensures less { IsErrOf result Stop.WriteFault → (start : Option (List ℕ)) (bytes : List ℕ)
        → IsAt reader.old session.old start (K.taken sink.old) bytes → AppendsLess start (K.taken sink.new) (all_records bytes) }
    ensures later { K.faults sink.old ≤ K.faults sink.new }
    ensures fault { IsErrOf result Stop.WriteFault → Rose (K.faults sink.old) (K.faults sink.new) }
    ensures kind { IsErrOf result Stop.ReadFault → ⊥ }
{
    match reader.last() {
        Err(_) => Err(Stop::NoRoom),
        Ok(None) => Ok(None),
        Ok(Some(line)) => match take_line(alloc, session, sink, lines, steps, line) {
            Err(stop) => Err(stop),
            Ok(bad) => Ok(bad),
        },
    }
}

/// Puts the record of the end, of so many events, or of a bad line.
pub fn put_last<K: Sink>(
    alloc: Global,
    events: u32,
    bad: Option<(u32, LineCause)>,
    sink: &mut K,
) -> Result<Status, Stop>
    ensures status { IfOk result (λ status. status ≡ end_status bad) }
    ensures ok { OnOk result (Appends (K.taken sink.old) (K.taken sink.new) (last_text events bad)) }
    ensures err { OnErr result (AppendsFront (K.taken sink.old) (K.taken sink.new) (last_text events bad)) }
    ensures less { IsErrOf result Stop.WriteFault → AppendsLess (K.taken sink.old) (K.taken sink.new) (last_text events bad) }
    ensures later { K.faults sink.old ≤ K.faults sink.new }
    ensures fault { IsErrOf result Stop.WriteFault → Rose (K.faults sink.old) (K.faults sink.new) }
    ensures kind { IsErrOf result Stop.ReadFault → ⊥ }
{
    let mut text = Vec::new(alloc);
    match bad {
        None => {
            print_end(alloc, events, &mut text)?;
            put(sink, text.as_slice())?;
            Ok(Status::Done)
        }
        Some((number, cause)) => {
            print_bad(alloc, number, cause, &mut text)?;
            put(sink, text.as_slice())?;
            Ok(Status::BadScript)
        }
    }
}
