//! The audit of a transcript that another program wrote for a script.
ghost use Rattle.std.specs.Prelude.{◌≡◌, ◌<◌, ◌+◌, ◌^◌, ◌++◌, length, List, ℕ, IfOk};
ghost use Rattle.fed_audit.specs.Walk.{IsRising};
ghost use Rattle.fed_print.specs.Lines.{line_of};
ghost use Rattle.fed_script.specs.Script.{lines_of};
ghost use Rattle.fed_run.specs.Recorded.{recorded_in, recorded_of, recorded_bad_within};
ghost use Rattle.fed_run.specs.Ends.{TellsAudit, TellsAudited, TellsCut};
ghost use Rattle.fed_run.specs.Text.{audited_members, faulty_members};

use crate::print::{print_audited, print_faulty};
use crate::ran::{Ran, stopped};
use crate::recorded::{Recorded, bad_line_before, read_recorded};
use crate::status::Status;
use fed_audit::{AuditFault, audit, count_records};
use fed_io::{Bytes, Fault, NoRoom};
use std::alloc::Global;

// A record breaks a rule.
fn faulty(alloc: Global, fault: AuditFault) -> Result<Ran, NoRoom>
    ensures { IfOk result (λ ran. (ran.status ≡ Status.Faulty) × (ran.text ≡ line_of (faulty_members fault))) }
{
    let mut text = Vec::new(alloc);
    print_faulty(alloc, fault, &mut text)?;
    Ok(Ran {
        text: Bytes::from_vec(text),
        status: Status::Faulty,
    })
}

// So many records keep the rules.
fn passed(alloc: Global, records: u64) -> Result<Ran, NoRoom>
    ensures { IfOk result (λ ran. (ran.status ≡ Status.Done) × (ran.text ≡ line_of (audited_members records))) }
{
    let mut text = Vec::new(alloc);
    print_audited(alloc, records, &mut text)?;
    Ok(Ran {
        text: Bytes::from_vec(text),
        status: Status::Done,
    })
}

// What is told of a script and a transcript.
fn audited(alloc: Global, recorded: &Recorded<'_>) -> Result<Ran, NoRoom>
    requires rising { IsRising recorded.now.script }
    requires few { recorded.now.first + length (lines_of recorded.now.text.now) < 2 ^ 32 }
    ensures { IfOk result (λ ran. TellsAudited (recorded_in recorded.now) ran.status ran.text) }
{
    match audit(alloc, &recorded.script, recorded.text, recorded.first)? {
        Some(fault) => faulty(alloc, fault),
        None => passed(alloc, count_records(recorded.text) as u64),
    }
}

/// Tells of a script and a transcript whether the transcript keeps the rules.
pub fn audit_of(alloc: Global, bytes: &[u8]) -> Result<Ran, NoRoom>
    requires { length bytes.now < 2 ^ 31 }
    ensures { IfOk result (λ ran. TellsAudit (recorded_of bytes.now) ran.status ran.text) }
{
    match read_recorded(alloc, bytes) {
        Ok(recorded) => audited(alloc, &recorded),
        Err(Fault::Step(stop)) => stopped(alloc, stop),
        Err(Fault::NoRoom) => Err(NoRoom),
    }
}

/// Answers where these are the first bytes of more: a bad line that ends within them is told, or else that they are too many.
pub fn recorded_front(alloc: Global, bytes: &[u8]) -> Result<Ran, NoRoom>
    requires { length bytes.now < 2 ^ 31 }
    ensures { IfOk result (λ ran. (more : List ℕ) → 0 < length more
        → TellsCut (recorded_bad_within (length bytes.now) (bytes.now ++ more)) ran.status ran.text) }
{
    match bad_line_before(alloc, bytes)? {
        Some(stop) => stopped(alloc, stop),
        None => Ok(Ran {
            text: Bytes::from_vec(Vec::new(alloc)),
            status: Status::TooLong,
        }),
    }
}
