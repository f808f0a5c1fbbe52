//! The forms `twin`, `audit`, `compare`, `save` and `slice`: what is told of the bytes of a source, once it was read whole.
ghost use Rattle.std.specs.Prelude.{◌≡◌, ◌≤◌, ◌<◌, ◌+◌, ◌++◌, ◌⊎◌, length, List, ℕ, Some, IfOk, IfSome};
ghost use Rattle.std.specs.Io.KnownBytes.{Appends, Keeps, IsAtEnd};
ghost use Rattle.fed_io.specs.Io.{Rose, AppendsLess};
ghost use Rattle.fed_run.specs.Ends.{EndsAs, EndsWhole, TellsAll, TellsCut, Writes, WritesLess, IsWhole, bad_line_within, whole_form};
ghost use Rattle.fed_run.specs.Run.{TakesAtMost, TakesExactly, NoneRose};

use crate::alone::alone_front;
use crate::audit::{audit_of, recorded_front};
use crate::compare::comparison_of;
use crate::ran::Ran;
use crate::read::{LIMIT, ReadEnd, read_all};
use crate::save::save_of;
use crate::slice::slice;
use crate::status::Status;
use crate::twin::{twin, twin_of_front};
use crate::word::Word;
use fed_io::{NoRoom, Sink, Source, put_all};
use std::alloc::Global;

/// A form whose source is read whole.
#[derive(Drop)]
pub enum Whole<'a> {
    Twin,
    Audit,
    Compare,
    Save,
    Slice(Word<'a>),
}

// Writes what is told, and answers how the program ends. Of too many bytes nothing is written.
fn write<K: Sink>(sink: &mut K, ran: &Ran) -> Status
    ensures ends { (result ≡ ran.now.status) ⊎ (result ≡ Status.WriteFault) }
    ensures nothing { ran.now.status ≡ Status.TooLong → (result ≡ Status.TooLong) × Keeps (K.taken sink.old) (K.taken sink.new) }
    ensures took { ¬ (ran.now.status ≡ Status.TooLong) → ¬ (result ≡ Status.WriteFault)
        → Appends (K.taken sink.old) (K.taken sink.new) ran.now.text }
    ensures fault { ¬ (ran.now.status ≡ Status.WriteFault) → result ≡ Status.WriteFault
        → Rose (K.faults sink.old) (K.faults sink.new) × AppendsLess (K.taken sink.old) (K.taken sink.new) ran.now.text }
    ensures faults { K.faults sink.old ≤ K.faults sink.new }
{
    if ran.status == Status::TooLong {
        return Status::TooLong;
    }
    match put_all(sink, ran.text.as_slice()) {
        Ok(()) => ran.status,
        Err(_) => Status::WriteFault,
    }
}

// What is told of all bytes of a source.
fn answer_all(alloc: Global, form: Whole<'_>, bytes: &[u8]) -> Result<Ran, NoRoom>
    requires { length bytes.now ≤ LIMIT }
    ensures { IfOk result (λ ran. TellsAll form.entry bytes.now ran.status ran.text) }
{
    match form {
        Whole::Twin => twin(alloc, bytes),
        Whole::Audit => audit_of(alloc, bytes),
        Whole::Compare => comparison_of(alloc, bytes),
        Whole::Save => save_of(alloc, bytes),
        Whole::Slice(party) => slice(alloc, party.as_slice(), bytes),
    }
}

// What is told where these are the first bytes of more.
fn answer_front(alloc: Global, form: Whole<'_>, bytes: &[u8]) -> Result<Ran, NoRoom>
    requires { length bytes.now ≤ LIMIT }
    ensures { IfOk result (λ ran. (more : List ℕ) → 0 < length more
        → TellsCut (bad_line_within form.entry (length bytes.now) (bytes.now ++ more)) ran.status ran.text) }
{
    match form {
        Whole::Twin => twin_of_front(alloc, bytes),
        Whole::Audit | Whole::Compare => recorded_front(alloc, bytes),
        Whole::Save | Whole::Slice(_) => alone_front(alloc, bytes),
    }
}

// What is told of the bytes of a source, of which these are all, or the first up to one more than the limit. Of more bytes
// than the limit only those within it are looked at.
fn answer(alloc: Global, form: Whole<'_>, bytes: &[u8]) -> Result<Ran, NoRoom>
    requires { length bytes.now ≤ LIMIT + 1 }
    ensures { IfOk result (λ ran. (more : List ℕ) → IsWhole LIMIT bytes.now more
        → EndsWhole form.entry LIMIT (bytes.now ++ more) ran.status ran.text) }
{
    if bytes.len() > LIMIT {
        return answer_front(alloc, form, &bytes[..LIMIT]);
    }
    answer_all(alloc, form, bytes)
}

/// Reads the source whole, at most 67,108,864 bytes, and writes what the form tells of it.
#[inline(never)]
pub fn tell<S: Source, K: Sink>(
    alloc: Global,
    form: Whole<'_>,
    source: &mut S,
    sink: &mut K,
) -> Status
    ensures ends { result ≡ Status.Usage → ⊥ }
    ensures done { result ≡ Status.Done → IsAtEnd (S.left source.new)
        × IfSome (S.left source.old)
        (λ bytes. Writes LIMIT (Some (whole_form form.entry)) bytes Status.Done (K.taken sink.old) (K.taken sink.new)) }
    ensures not_twins { result ≡ Status.NotTwins → IsAtEnd (S.left source.new)
        × IfSome (S.left source.old)
        (λ bytes. Writes LIMIT (Some (whole_form form.entry)) bytes Status.NotTwins (K.taken sink.old) (K.taken sink.new)) }
    ensures faulty { result ≡ Status.Faulty → IsAtEnd (S.left source.new)
        × IfSome (S.left source.old)
        (λ bytes. Writes LIMIT (Some (whole_form form.entry)) bytes Status.Faulty (K.taken sink.old) (K.taken sink.new)) }
    ensures differs { result ≡ Status.Differs → IsAtEnd (S.left source.new)
        × IfSome (S.left source.old)
        (λ bytes. Writes LIMIT (Some (whole_form form.entry)) bytes Status.Differs (K.taken sink.old) (K.taken sink.new)) }
    ensures not_saved { result ≡ Status.NotSaved → IsAtEnd (S.left source.new)
        × IfSome (S.left source.old)
        (λ bytes. Writes LIMIT (Some (whole_form form.entry)) bytes Status.NotSaved (K.taken sink.old) (K.taken sink.new)) }
    ensures twin_alone { result ≡ Status.NotTwins → form.entry ≡ Whole.Twin }
    ensures audit_alone { result ≡ Status.Faulty → form.entry ≡ Whole.Audit }
    ensures compare_alone { result ≡ Status.Differs → form.entry ≡ Whole.Compare }
    ensures save_alone { result ≡ Status.NotSaved → form.entry ≡ Whole.Save }
    ensures bad_script { result ≡ Status.BadScript → IfSome (S.left source.old)
        (λ bytes. (length bytes ≤ LIMIT → IsAtEnd (S.left source.new)) × Writes LIMIT (Some (whole_form form.entry)) bytes Status.BadScript
        (K.taken sink.old) (K.taken sink.new)) }
    ensures too_long { result ≡ Status.TooLong → Keeps (K.taken sink.old) (K.taken sink.new)
        × IfSome (S.left source.old)
        (λ bytes. Writes LIMIT (Some (whole_form form.entry)) bytes Status.TooLong (K.taken sink.old) (K.taken sink.new)) }
    ensures past_limit { result ≡ Status.TooLong → TakesExactly (S.left source.old) (S.left source.new) (LIMIT + 1) }
    ensures read_fault { result ≡ Status.ReadFault
        → Rose (S.faults source.old) (S.faults source.new) × Keeps (K.taken sink.old) (K.taken sink.new) }
    ensures write_fault { result ≡ Status.WriteFault → Rose (K.faults sink.old) (K.faults sink.new)
        × IfSome (S.left source.old) (λ bytes. WritesLess LIMIT (Some (whole_form form.entry)) bytes (K.taken sink.old) (K.taken sink.new)) }
    ensures no_room { result ≡ Status.NoRoom → Keeps (K.taken sink.old) (K.taken sink.new) }
    ensures complete { NoneRose (S.faults source.old) (S.faults source.new) → NoneRose (K.faults sink.old) (K.faults sink.new)
        → IfSome (S.left source.old) (λ bytes. EndsAs LIMIT (Some (whole_form form.entry)) bytes result ⊎ (result ≡ Status.NoRoom)) }
    ensures takes { TakesAtMost (S.left source.old) (S.left source.new) (LIMIT + 1) }
    ensures source_faults { S.faults source.old ≤ S.faults source.new }
    ensures sink_faults { K.faults sink.old ≤ K.faults sink.new }
{
    let bytes = match read_all(alloc, source) {
        Ok(bytes) => bytes,
        Err(ReadEnd::Fault) => return Status::ReadFault,
        Err(ReadEnd::NoRoom) => return Status::NoRoom,
    };
    match answer(alloc, form, bytes.as_slice()) {
        Ok(ran) => write(sink, &ran),
        Err(_) => Status::NoRoom,
    }
}
