//! The comparison of a transcript that another program wrote for a script with this program's own.
ghost use Rattle.std.specs.Prelude.{◌≡◌, ◌<◌, ◌+◌, ◌^◌, length, IfOk};
ghost use Rattle.fed_print.specs.Lines.{line_of};
ghost use Rattle.fed_script.specs.Script.{lines_of};
ghost use Rattle.fed_run.specs.Recorded.{recorded_in, recorded_of};
ghost use Rattle.fed_run.specs.Ends.{TellsCompared, TellsComparison};
ghost use Rattle.fed_run.specs.Text.{alike_members, differs_members};

use crate::differs::print_differs;
use crate::print::print_alike;
use crate::ran::{Ran, stopped};
use crate::recorded::{Recorded, read_recorded};
use crate::status::Status;
use fed_audit::{Comparison, Difference, compare};
use fed_io::{Bytes, Fault, NoRoom};
use std::alloc::Global;

// So many requests are this program's own.
fn alike(alloc: Global, requests: u64) -> Result<Ran, NoRoom>
    ensures { IfOk result (λ ran. (ran.status ≡ Status.Done) × (ran.text ≡ line_of (alike_members requests))) }
{
    let mut text = Vec::new(alloc);
    print_alike(alloc, requests, &mut text)?;
    Ok(Ran {
        text: Bytes::from_vec(text),
        status: Status::Done,
    })
}

// What differs first.
fn differing(alloc: Global, difference: &Difference) -> Result<Ran, NoRoom>
    ensures { IfOk result (λ ran. (ran.status ≡ Status.Differs) × (ran.text ≡ line_of (differs_members difference.now))) }
{
    let mut text = Vec::new(alloc);
    print_differs(alloc, difference, &mut text)?;
    Ok(Ran {
        text: Bytes::from_vec(text),
        status: Status::Differs,
    })
}

// What is told of a script and a transcript.
fn compared(alloc: Global, recorded: &Recorded<'_>) -> Result<Ran, NoRoom>
    requires { recorded.now.first + length (lines_of recorded.now.text.now) < 2 ^ 32 }
    ensures { IfOk result (λ ran. TellsCompared (recorded_in recorded.now) ran.status ran.text) }
{
    match compare(alloc, &recorded.script, recorded.text, recorded.first)? {
        Comparison::Alike(requests) => alike(alloc, requests),
        Comparison::Differs(difference) => differing(alloc, &difference),
    }
}

/// Tells of a script and a transcript where the transcript first leaves this program's own.
pub fn comparison_of(alloc: Global, bytes: &[u8]) -> Result<Ran, NoRoom>
    requires { length bytes.now < 2 ^ 31 }
    ensures { IfOk result (λ ran. TellsComparison (recorded_of bytes.now) ran.status ran.text) }
{
    match read_recorded(alloc, bytes) {
        Ok(recorded) => compared(alloc, &recorded),
        Err(Fault::Step(stop)) => stopped(alloc, stop),
        Err(Fault::NoRoom) => Err(NoRoom),
    }
}
