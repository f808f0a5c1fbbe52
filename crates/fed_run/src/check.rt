//! The form `check`: what is found in a script, written as the script is read.
ghost use Rattle.std.specs.Prelude.{◌≡◌, ◌+◌, ◌++◌, ◌≤◌, ◌⊎◌, ◌||◌, Bool, ℕ, List, [], length, Option, Some, IfOk, IfErr, OnOk, OnErr, IfSome};
ghost use Rattle.std.specs.Result.{IsErrOf};
ghost use Rattle.std.specs.Io.KnownBytes.{Appends, IsAtEnd};
ghost use Rattle.fed_io.specs.Io.{Rose, AppendsFront, AppendsLess};
ghost use Rattle.fed_check.specs.Check.{has_bad};
ghost use Rattle.fed_check.specs.Stage.{HasChecked};
ghost use Rattle.fed_run.specs.declared.form.Form.TheVariants.{Check};
ghost use Rattle.fed_run.specs.Checks.{findings_text, checked_text, check_text, check_status_by, IsCheckedTo};
ghost use Rattle.fed_run.specs.Checks.{CheckedAs, CheckedWhole, CheckEnds, ChecksAs, ChecksOnly, ChecksAfter, ChecksShort};
ghost use Rattle.fed_run.specs.Ends.{EndsAs, Writes};
ghost use Rattle.fed_run.specs.Run.{TakesAtMost, TakesExactly, NoneRose};
ghost use Rattle.fed_run.specs.Streams.{Took};

use crate::print::print_finding;
use crate::read::{LIMIT, PIECE};
use crate::run::put;
use crate::status::Status;
use crate::stop::Stop;
use fed_check::{Checker, Finding};
use fed_io::{NoRoom, Sink, Source};
use std::alloc::Global;

// Whether a line is bad.
fn any_bad(found: &[Finding]) -> bool
    ensures { result ≡ has_bad found.now }
{
    found.iter().any(|one| one.is_bad())
}

// Whether a line was bad, or one is of those found.
fn or_bad(bad: bool, found: &[Finding]) -> bool
    ensures { result ≡ (bad || has_bad found.now) }
{
    bad || any_bad(found)
}

// The lines of what is found.
fn text_of(alloc: Global, found: &[Finding]) -> Result<Vec<u8>, NoRoom>
    ensures { IfOk result (λ text. text.items ≡ findings_text found.now) }
{
    let mut text = Vec::new(alloc);
    for one in found {
        print_finding(alloc, one, &mut text)?;
    }
    Ok(text)
}

// Puts what is found.
fn put_found<K: Sink>(alloc: Global, found: &[Finding], sink: &mut K) -> Result<(), Stop>
    ensures ok { OnOk result (Appends (K.taken sink.old) (K.taken sink.new) (findings_text found.now)) }
    ensures err { OnErr result (AppendsFront (K.taken sink.old) (K.taken sink.new) (findings_text found.now)) }
    ensures less { IsErrOf result Stop.WriteFault → AppendsLess (K.taken sink.old) (K.taken sink.new) (findings_text found.now) }
    ensures later { K.faults sink.old ≤ K.faults sink.new }
    ensures fault { IsErrOf result Stop.WriteFault → Rose (K.faults sink.old) (K.faults sink.new) }
    ensures kind { IsErrOf result Stop.ReadFault → ⊥ }
{
    match text_of(alloc, found) {
        Ok(text) => put(sink, text.as_slice()),
        Err(_) => Err(Stop::NoRoom),
    }
}

// Takes a piece, and puts what is found in the lines that end in it.
fn check_piece<K: Sink>(
    alloc: Global,
    checker: &mut Checker,
    bad: &mut bool,
    sink: &mut K,
    piece: &[u8],
) -> Result<(), Stop>
    requires { (start : Option (List ℕ)) × (bytes : List ℕ) × IsCheckedTo checker.old bad.old start (K.taken sink.old) bytes
        × (length bytes + length piece.now ≤ 67108865) }
    ensures ok { OnOk result ((start : Option (List ℕ)) (bytes : List ℕ)
        → IsCheckedTo checker.old bad.old start (K.taken sink.old) bytes
        → IsCheckedTo checker.new bad.new start (K.taken sink.new) (bytes ++ piece.now)) }
    ensures err { OnErr result ((start : Option (List ℕ)) (bytes : List ℕ)
        → IsCheckedTo checker.old bad.old start (K.taken sink.old) bytes
        → Took start (K.taken sink.new) (checked_text bytes) (checked_text (bytes ++ piece.now))) }
    ensures less { IsErrOf result Stop.WriteFault → (start : Option (List ℕ)) (bytes : List ℕ)
        → IsCheckedTo checker.old bad.old start (K.taken sink.old) bytes
        → AppendsLess start (K.taken sink.new) (checked_text (bytes ++ piece.now)) }
    ensures later { K.faults sink.old ≤ K.faults sink.new }
    ensures fault { IsErrOf result Stop.WriteFault → Rose (K.faults sink.old) (K.faults sink.new) }
    ensures kind { IsErrOf result Stop.ReadFault → ⊥ }
{
    match checker.feed(piece) {
        Err(_) => Err(Stop::NoRoom),
        Ok(found) => {
            let list = found.as_slice();
            *bad = or_bad(*bad, list);
            match put_found(alloc, list, sink) {
                Err(stop) => Err(stop),
                Ok(()) => Ok(()),
            }
        }
    }
}

// Takes pieces up to the end of the source, or to the byte after the limit, and answers whether there is one.
fn check_pieces<S: Source, K: Sink>(
    alloc: Global,
    source: &mut S,
    sink: &mut K,
    checker: &mut Checker,
    bad: &mut bool,
) -> Result<bool, Stop>
    requires { IsCheckedTo checker.old bad.old (K.taken sink.old) (K.taken sink.old) [] }
    ensures ok { IfOk result (λ long. CheckedAs long (S.left source.old) (S.left source.new) checker.new bad.new
        (K.taken sink.old) (K.taken sink.new)) }
    ensures err { IfErr result (λ stop. ChecksAs stop (S.left source.old) (S.left source.new) (K.taken sink.old) (K.taken sink.new)) }
    ensures short { IsErrOf result Stop.WriteFault → ChecksShort LIMIT (S.left source.old) (K.taken sink.old) (K.taken sink.new) }
    ensures takes { TakesAtMost (S.left source.old) (S.left source.new) (LIMIT + 1) }
    ensures read_fault { IsErrOf result Stop.ReadFault → Rose (S.faults source.old) (S.faults source.new) }
    ensures write_fault { IsErrOf result Stop.WriteFault → Rose (K.faults sink.old) (K.faults sink.new) }
    ensures source_faults { S.faults source.old ≤ S.faults source.new }
    ensures sink_faults { K.faults sink.old ≤ K.faults sink.new }
{
    let mut buffer = [0u8; PIECE];
    let mut count = 0;
    while count < LIMIT {
        let room = (LIMIT - count).min(PIECE);
        let got = match source.take(&mut buffer[..room]) {
            Err(_) => return Err(Stop::ReadFault),
            Ok(0) => return Ok(false),
            Ok(n) => n,
        };
        match check_piece(alloc, checker, bad, sink, &buffer[..got]) {
            Err(stop) => return Err(stop),
            Ok(()) => {}
        }
        count += got;
    }
    match source.take(&mut buffer[..1]) {
        Err(_) => Err(Stop::ReadFault),
        Ok(0) => Ok(false),
        Ok(_) => Ok(true),
    }
}

// How a check ends that met the end of its source.
fn status_of(bad: bool) -> Status
    ensures { result ≡ check_status_by Bool.false bad }
{
    if bad { Status::BadScript } else { Status::Done }
}

// Takes the last line, where it lacks its LF, and puts what is found in it.
fn check_last<K: Sink>(
    alloc: Global,
    checker: Checker,
    bad: bool,
    sink: &mut K,
) -> Result<Status, Stop>
    requires { (start : Option (List ℕ)) × (bytes : List ℕ) × IsCheckedTo checker bad start (K.taken sink.old) bytes
        × (length bytes ≤ 67108865) }
    ensures ok { IfOk result (λ status. (start : Option (List ℕ)) (bytes : List ℕ)
        → IsCheckedTo checker bad start (K.taken sink.old) bytes
        → CheckedWhole status start (K.taken sink.new) bytes) }
    ensures err { OnErr result ((start : Option (List ℕ)) (bytes : List ℕ) → IsCheckedTo checker bad start (K.taken sink.old) bytes
        → Took start (K.taken sink.new) (checked_text bytes) (check_text bytes)) }
    ensures less { IsErrOf result Stop.WriteFault → (start : Option (List ℕ)) (bytes : List ℕ)
        → IsCheckedTo checker bad start (K.taken sink.old) bytes → AppendsLess start (K.taken sink.new) (check_text bytes) }
    ensures later { K.faults sink.old ≤ K.faults sink.new }
    ensures fault { IsErrOf result Stop.WriteFault → Rose (K.faults sink.old) (K.faults sink.new) }
    ensures kind { IsErrOf result Stop.ReadFault → ⊥ }
{
    match checker.last() {
        Err(_) => Err(Stop::NoRoom),
        Ok(found) => {
            let list = found.as_slice();
            match put_found(alloc, list, sink) {
                Err(stop) => Err(stop),
                Ok(()) => Ok(status_of(or_bad(bad, list))),
            }
        }
    }
}

// Checks to the end, or up to what stops it.
fn check_all<S: Source, K: Sink>(
    alloc: Global,
    source: &mut S,
    sink: &mut K,
) -> Result<Status, Stop>
    ensures ok { IfOk result (λ status. CheckEnds status (S.left source.old) (S.left source.new) (K.taken sink.old) (K.taken sink.new)) }
    ensures past_limit { IfOk result (λ status. status ≡ Status.TooLong
        → TakesExactly (S.left source.old) (S.left source.new) (LIMIT + 1)) }
    ensures err { IfErr result (λ stop. ChecksAs stop (S.left source.old) (S.left source.new) (K.taken sink.old) (K.taken sink.new)) }
    ensures short { IsErrOf result Stop.WriteFault → ChecksShort LIMIT (S.left source.old) (K.taken sink.old) (K.taken sink.new) }
    ensures takes { TakesAtMost (S.left source.old) (S.left source.new) (LIMIT + 1) }
    ensures read_fault { IsErrOf result Stop.ReadFault → Rose (S.faults source.old) (S.faults source.new) }
    ensures write_fault { IsErrOf result Stop.WriteFault → Rose (K.faults sink.old) (K.faults sink.new) }
    ensures source_faults { S.faults source.old ≤ S.faults source.new }
    ensures sink_faults { K.faults sink.old ≤ K.faults sink.new }
{
    let mut checker = Checker::new(alloc);
    let mut bad = false;
    match check_pieces(alloc, source, sink, &mut checker, &mut bad) {
        Err(stop) => Err(stop),
        Ok(long) => {
            if long {
                return Ok(Status::TooLong);
            }
            match check_last(alloc, checker, bad, sink) {
                Err(stop) => Err(stop),
                Ok(status) => Ok(status),
            }
        }
    }
}

/// Checks the script of a source, which is taken in pieces of at most 16,384 bytes to its end. What is found in the lines that end in
/// a piece is put before the next is taken, so that neither the script nor the text is kept.
#[inline(never)]
pub fn check<S: Source, K: Sink>(alloc: Global, source: &mut S, sink: &mut K) -> Status
    ensures ends { (result ≡ Status.Usage → ⊥) × (result ≡ Status.NotTwins → ⊥) × (result ≡ Status.Faulty → ⊥)
        × (result ≡ Status.NotSaved → ⊥) × (result ≡ Status.Differs → ⊥) }
    ensures done { result ≡ Status.Done → IsAtEnd (S.left source.new)
        × IfSome (S.left source.old) (λ bytes. Writes LIMIT (Some Check) bytes Status.Done (K.taken sink.old) (K.taken sink.new)) }
    ensures bad_script { result ≡ Status.BadScript → IsAtEnd (S.left source.new)
        × IfSome (S.left source.old) (λ bytes. Writes LIMIT (Some Check) bytes Status.BadScript (K.taken sink.old) (K.taken sink.new)) }
    ensures too_long { result ≡ Status.TooLong
        → IfSome (S.left source.old) (λ bytes. Writes LIMIT (Some Check) bytes Status.TooLong (K.taken sink.old) (K.taken sink.new)) }
    ensures past_limit { result ≡ Status.TooLong → TakesExactly (S.left source.old) (S.left source.new) (LIMIT + 1) }
    ensures read_fault { result ≡ Status.ReadFault → Rose (S.faults source.old) (S.faults source.new)
        × ChecksOnly (S.left source.old) (S.left source.new) (K.taken sink.old) (K.taken sink.new) }
    ensures write_fault { result ≡ Status.WriteFault → Rose (K.faults sink.old) (K.faults sink.new)
        × ChecksAfter (S.left source.old) (S.left source.new) (K.taken sink.old) (K.taken sink.new) }
    ensures short { result ≡ Status.WriteFault → ChecksShort LIMIT (S.left source.old) (K.taken sink.old) (K.taken sink.new) }
    ensures no_room { result ≡ Status.NoRoom
        → ChecksAfter (S.left source.old) (S.left source.new) (K.taken sink.old) (K.taken sink.new) }
    ensures complete { NoneRose (S.faults source.old) (S.faults source.new) → NoneRose (K.faults sink.old) (K.faults sink.new)
        → IfSome (S.left source.old) (λ bytes. EndsAs LIMIT (Some Check) bytes result ⊎ (result ≡ Status.NoRoom)) }
    ensures takes { TakesAtMost (S.left source.old) (S.left source.new) (LIMIT + 1) }
    ensures source_faults { S.faults source.old ≤ S.faults source.new }
    ensures sink_faults { K.faults sink.old ≤ K.faults sink.new }
{
    match check_all(alloc, source, sink) {
        Ok(status) => status,
        Err(Stop::ReadFault) => Status::ReadFault,
        Err(Stop::WriteFault) => Status::WriteFault,
        Err(Stop::NoRoom) => Status::NoRoom,
    }
}
