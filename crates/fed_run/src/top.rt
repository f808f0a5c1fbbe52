//! The top call.
ghost use Rattle.std.specs.Prelude.{◌≡◌, ◌≤◌, ◌+◌, ◌↔◌, ◌⊎◌, length, IsSome, Some, None, IfSome};
ghost use Rattle.std.specs.Io.KnownBytes.{Appends, Keeps, IsAtEnd};
ghost use Rattle.fed_io.specs.Io.{Rose};
ghost use Rattle.fed_run.specs.declared.form.Form.TheVariants.{Audit, Check, Compare, Save, Twin};
ghost use Rattle.fed_run.specs.Ends.{EndsAs, Writes, Reads, ReadsWhole, IfMakes, ReadFaultLeaves, WriteFaultLeaves, NoRoomLeaves};
ghost use Rattle.fed_run.specs.Make.{summary_text};
ghost use Rattle.fed_run.specs.Run.{TakesAtMost, TakesExactly, NoneRose};
ghost use Rattle.fed_run.specs.Words.{form_of as form};

use crate::answer::{Whole, tell};
use crate::check::check;
use crate::form::{Form, form_of};
use crate::read::LIMIT;
use crate::status::Status;
use crate::stream::run;
use crate::summary::tell_summary;
use fed_io::{Sink, Source, Steps, Text};
use std::alloc::Global;
use std::sync::ledger::Ledger;

/// Runs the program over a source and a sink: `words` are those of the command line without the program's name. At most
/// 67,108,864 bytes of the source are read. With `run` the transcript of a script is written as it is read, and with `check` what is
/// found in it; with `twin` the source is read whole, and then it is written whether two scripts are twins, and with `audit` so whether a
/// transcript that another program wrote for a script keeps the rules, with `compare` where it first leaves this program's own, with
/// `save` the lines of a script that brings back the state that a script leaves behind, with `slice PARTY` those of the part of a script
/// that concerns a party; with `make N` the source is not read, and the summary of a script of `N` calls is written.
pub fn fedcm<S: Source, K: Sink, L: Ledger>(
    alloc: Global,
    words: &[Text],
    source: &mut S,
    sink: &mut K,
    steps: &mut Steps<L>,
) -> Status
    // Exactly where the words are no form. Nothing is read or written.
    ensures usage { (result ≡ Status.Usage) ↔ (form words.now ≡ None) }
    ensures untouched { result ≡ Status.Usage → (source.new ≡ source.old) × (sink.new ≡ sink.old) × (steps.new ≡ steps.old) }

    // The sink took the whole text. Where the form reads a source, it was read to its end, and its bytes are within the limit
    // and a script, two scripts that are twins, or a script and a transcript of which each record keeps the rules, or which is
    // this program's own. With `slice PARTY` the text is lines of the script, each byte for byte (`slice_text`); with `save` it is
    // what stands at the end of the script (`Saves`), behind which further lines do what they would have done there (`Continues`).
    ensures done { result ≡ Status.Done → (Reads (form words.now) → IsAtEnd (S.left source.new))
        × IfSome (S.left source.old) (λ bytes. Writes LIMIT (form words.now) bytes Status.Done (K.taken sink.old) (K.taken sink.new)) }

    // With `make N` nothing is read, and the text is the summary of the script of so many calls.
    ensures made { IfMakes (form words.now) (λ calls. (source.new ≡ source.old)
        × ((result ≡ Status.Done) ⊎ ((result ≡ Status.WriteFault) ⊎ (result ≡ Status.NoRoom)))
        × (result ≡ Status.Done → Appends (K.taken sink.old) (K.taken sink.new) (summary_text calls))) }

    // The source was read to its end, and its two scripts are no twins.
    ensures not_twins { result ≡ Status.NotTwins → IsAtEnd (S.left source.new)
        × IfSome (S.left source.old) (λ bytes. Writes LIMIT (form words.now) bytes Status.NotTwins (K.taken sink.old) (K.taken sink.new)) }

    // The source was read to its end, and a record of its transcript breaks a rule.
    ensures faulty { result ≡ Status.Faulty → IsAtEnd (S.left source.new)
        × IfSome (S.left source.old) (λ bytes. Writes LIMIT (form words.now) bytes Status.Faulty (K.taken sink.old) (K.taken sink.new)) }

    // The source was read to its end, and its transcript leaves this program's own.
    ensures differs { result ≡ Status.Differs → IsAtEnd (S.left source.new)
        × IfSome (S.left source.old) (λ bytes. Writes LIMIT (form words.now) bytes Status.Differs (K.taken sink.old) (K.taken sink.new)) }

    // The source was read to its end, and a call is pending at the end of its script, or a saved line does not restore its item.
    ensures not_saved { result ≡ Status.NotSaved → IsAtEnd (S.left source.new)
        × IfSome (S.left source.old) (λ bytes. Writes LIMIT (form words.now) bytes Status.NotSaved (K.taken sink.old) (K.taken sink.new)) }

    // A line is bad, or is missing where a line divides the source, and the sink took the whole text; of a source within the
    // limit that is read whole all bytes were read.
    ensures bad_script { result ≡ Status.BadScript → IfSome (S.left source.old)
        (λ bytes. (ReadsWhole (form words.now) → length bytes ≤ LIMIT → IsAtEnd (S.left source.new))
        × Writes LIMIT (form words.now) bytes Status.BadScript (K.taken sink.old) (K.taken sink.new)) }

    // With `check` the source was read to its end then.
    ensures bad_check { form words.now ≡ Some Check → result ≡ Status.BadScript → IsAtEnd (S.left source.new) }

    // But for `check` no line is bad that ends within the limit. With `run` what the lines within it say is written, with `check`
    // what is found in them, else nothing.
    ensures too_long { result ≡ Status.TooLong → (ReadsWhole (form words.now) → Keeps (K.taken sink.old) (K.taken sink.new))
        × IfSome (S.left source.old) (λ bytes. Writes LIMIT (form words.now) bytes Status.TooLong (K.taken sink.old) (K.taken sink.new)) }

    // The bytes up to the limit and one more were taken.
    ensures past_limit { result ≡ Status.TooLong → TakesExactly (S.left source.old) (S.left source.new) (LIMIT + 1) }

    // Only where the source's count of faults rose. With `run` what the lines say that end in the bytes taken is written, with
    // `check` what is found in them, else nothing.
    ensures read_fault { result ≡ Status.ReadFault → Rose (S.faults source.old) (S.faults source.new)
        × ReadFaultLeaves (form words.now) (S.left source.old) (S.left source.new) (K.taken sink.old) (K.taken sink.new) }

    // Only where the sink's count rose. It took a front of the text that is not the whole, with `run` and `check` all but what the
    // last 65,536 bytes taken add.
    ensures write_fault { result ≡ Status.WriteFault → Rose (K.faults sink.old) (K.faults sink.new)
        × WriteFaultLeaves LIMIT (form words.now) (S.left source.old) (S.left source.new) (K.taken sink.old) (K.taken sink.new) }

    // Where memory runs out such a front is written with `run` and `check`, and else nothing.
    ensures no_room { result ≡ Status.NoRoom
        → NoRoomLeaves (form words.now) (S.left source.old) (S.left source.new) (K.taken sink.old) (K.taken sink.new) }

    // Where no count rose the bytes say how it ends, unless memory runs out.
    ensures complete { IsSome (form words.now) → NoneRose (S.faults source.old) (S.faults source.new)
        → NoneRose (K.faults sink.old) (K.faults sink.new)
        → IfSome (S.left source.old) (λ bytes. EndsAs LIMIT (form words.now) bytes result ⊎ (result ≡ Status.NoRoom)) }

    // No other form compares scripts, audits, compares transcripts, or saves.
    ensures twin_alone { result ≡ Status.NotTwins → form words.now ≡ Some Twin }
    ensures audit_alone { result ≡ Status.Faulty → form words.now ≡ Some Audit }
    ensures compare_alone { result ≡ Status.Differs → form words.now ≡ Some Compare }
    ensures save_alone { result ≡ Status.NotSaved → form words.now ≡ Some Save }

    ensures takes { TakesAtMost (S.left source.old) (S.left source.new) (LIMIT + 1) }
    ensures source_faults { S.faults source.old ≤ S.faults source.new }
    ensures sink_faults { K.faults sink.old ≤ K.faults sink.new }
{
    // Each form stands by itself (`inline(never)`), so that none has the buffers of the others on its stack.
    match form_of(words) {
        None => Status::Usage,
        Some(Form::Run) => run(alloc, source, sink, steps),
        Some(Form::Check) => check(alloc, source, sink),
        Some(Form::Twin) => tell(alloc, Whole::Twin, source, sink),
        Some(Form::Audit) => tell(alloc, Whole::Audit, source, sink),
        Some(Form::Compare) => tell(alloc, Whole::Compare, source, sink),
        Some(Form::Save) => tell(alloc, Whole::Save, source, sink),
        Some(Form::Slice(party)) => tell(alloc, Whole::Slice(party), source, sink),
        Some(Form::Make(calls)) => tell_summary(alloc, calls, sink, steps),
    }
}
