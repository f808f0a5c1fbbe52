//! The lines of the end, of a bad script, of a test of twins, of an audit, and of a session that is not saved.
ghost use Rattle.std.specs.Prelude.{◌≡◌, ◌++◌, OnOk, OnErr, option_map};
ghost use Rattle.std.specs.Option.{option_copied};
ghost use Rattle.fed_print.specs.Lines.{line_of};
ghost use Rattle.fed_script.specs.Cause.{member_named, name_text, pair_member_named};
ghost use Rattle.fed_run.specs.Checks.{finding_members, unread_members};
ghost use Rattle.fed_run.specs.Text as spec;

use fed_audit::AuditFault;
use fed_check::Finding;
use fed_io::NoRoom;
use fed_print::Object;
use fed_script::{LineCause, PairCause, PairStop};
use fed_twin::TwinFault;
use std::alloc::Global;

/// Appends the line for the end of a script with so many events. On want of memory the text is unchanged.
pub fn print_end(alloc: Global, events: u32, text: &mut Vec<u8>) -> Result<(), NoRoom>
    ensures ok { OnOk result (text.new.items ≡ text.old.items ++ line_of (spec.end_members events)) }
    ensures err { OnErr result (text.new.items ≡ text.old.items) }
{
    Object::new(alloc)
        .count("events", events)?
        .text("out", "end")?
        .append_line(text)
}

// The name of the member that a cause is about, where it is about one.
fn member_text(cause: LineCause) -> Option<&'static str>
    ensures { option_copied result ≡ option_map name_text (member_named cause) }
{
    match cause.member() {
        Some(name) => Some(name.as_str()),
        None => None,
    }
}

/// Appends the line for the first bad line. On want of memory the text is unchanged.
pub fn print_bad(
    alloc: Global,
    line: u32,
    cause: LineCause,
    text: &mut Vec<u8>,
) -> Result<(), NoRoom>
    ensures ok { OnOk result (text.new.items ≡ text.old.items ++ line_of (spec.bad_members line cause)) }
    ensures err { OnErr result (text.new.items ≡ text.old.items) }
{
    Object::new(alloc)
        .text("cause", cause.as_str())?
        .count("line", line)?
        .text("out", "bad")?
        .text_if("member", member_text(cause))?
        .append_line(text)
}

// Appends the line for a member that is read over.
fn print_unread(alloc: Global, line: u32, name: &str, text: &mut Vec<u8>) -> Result<(), NoRoom>
    ensures ok { OnOk result (text.new.items ≡ text.old.items ++ line_of (unread_members line name.now)) }
    ensures err { OnErr result (text.new.items ≡ text.old.items) }
{
    Object::new(alloc)
        .count("line", line)?
        .text("member", name)?
        .text("out", "unread")?
        .append_line(text)
}

/// Appends the line for what a check found. On want of memory the text is unchanged.
pub fn print_finding(alloc: Global, found: &Finding, text: &mut Vec<u8>) -> Result<(), NoRoom>
    ensures ok { OnOk result (text.new.items ≡ text.old.items ++ line_of (finding_members found.now)) }
    ensures err { OnErr result (text.new.items ≡ text.old.items) }
{
    match found {
        Finding::Bad(line, cause) => print_bad(alloc, *line, *cause, text),
        Finding::Unread(line, name) => print_unread(alloc, *line, name.as_str(), text),
    }
}

// The name of the member that a cause is about, where it is about one.
fn pair_member_text(cause: PairCause) -> Option<&'static str>
    ensures { option_copied result ≡ option_map name_text (pair_member_named cause) }
{
    match cause.member() {
        Some(name) => Some(name.as_str()),
        None => None,
    }
}

/// Appends the line for the first line that is bad or missing where two scripts are read. On want of memory the text is unchanged.
pub fn print_pair_bad(alloc: Global, stop: PairStop, text: &mut Vec<u8>) -> Result<(), NoRoom>
    ensures ok { OnOk result (text.new.items ≡ text.old.items ++ line_of (spec.pair_members stop)) }
    ensures err { OnErr result (text.new.items ≡ text.old.items) }
{
    Object::new(alloc)
        .text("cause", stop.cause.as_str())?
        .count("line", stop.line)?
        .text("out", "bad")?
        .text_if("member", pair_member_text(stop.cause))?
        .append_line(text)
}

/// Appends the line for twins: how many requests were compared, and up to which event both are quiet. On want of memory
/// the text is unchanged.
pub fn print_twins(
    alloc: Global,
    compared: u64,
    quiet: u64,
    text: &mut Vec<u8>,
) -> Result<(), NoRoom>
    ensures ok { OnOk result (text.new.items ≡ text.old.items ++ line_of (spec.twins_members compared quiet)) }
    ensures err { OnErr result (text.new.items ≡ text.old.items) }
{
    Object::new(alloc)
        .total("compared", compared)?
        .text("out", "twins")?
        .total("quiet", quiet)?
        .append_line(text)
}

/// Appends the line for the first clause of the twin test that fails. On want of memory the text is unchanged.
pub fn print_not_twins(alloc: Global, fault: TwinFault, text: &mut Vec<u8>) -> Result<(), NoRoom>
    ensures ok { OnOk result (text.new.items ≡ text.old.items ++ line_of (spec.not_twins_members fault)) }
    ensures err { OnErr result (text.new.items ≡ text.old.items) }
{
    Object::new(alloc)
        .text("clause", fault.clause.as_str())?
        .count("event", fault.event)?
        .text("out", "not-twins")?
        .append_line(text)
}

/// Appends the line for a transcript that keeps the rules, with the number of its records. On want of memory the text is unchanged.
pub fn print_audited(alloc: Global, records: u64, text: &mut Vec<u8>) -> Result<(), NoRoom>
    ensures ok { OnOk result (text.new.items ≡ text.old.items ++ line_of (spec.audited_members records)) }
    ensures err { OnErr result (text.new.items ≡ text.old.items) }
{
    Object::new(alloc)
        .text("out", "audited")?
        .total("records", records)?
        .append_line(text)
}

/// Appends the line for the first line of a transcript that breaks a rule. On want of memory the text is unchanged.
pub fn print_faulty(alloc: Global, fault: AuditFault, text: &mut Vec<u8>) -> Result<(), NoRoom>
    ensures ok { OnOk result (text.new.items ≡ text.old.items ++ line_of (spec.faulty_members fault)) }
    ensures err { OnErr result (text.new.items ≡ text.old.items) }
{
    Object::new(alloc)
        .text("clause", fault.clause.as_str())?
        .count("line", fault.line)?
        .text("out", "faulty")?
        .append_line(text)
}

/// Appends the line for a transcript that is this program's own, with the number of its requests. On want of memory the text is
/// unchanged.
pub fn print_alike(alloc: Global, requests: u64, text: &mut Vec<u8>) -> Result<(), NoRoom>
    ensures ok { OnOk result (text.new.items ≡ text.old.items ++ line_of (spec.alike_members requests)) }
    ensures err { OnErr result (text.new.items ≡ text.old.items) }
{
    Object::new(alloc)
        .text("out", "alike")?
        .total("requests", requests)?
        .append_line(text)
}

/// Appends the line for a session that is not saved since this call is pending. On want of memory the text is unchanged.
pub fn print_pending(alloc: Global, call: u32, text: &mut Vec<u8>) -> Result<(), NoRoom>
    ensures ok { OnOk result (text.new.items ≡ text.old.items ++ line_of (spec.pending_members call)) }
    ensures err { OnErr result (text.new.items ≡ text.old.items) }
{
    Object::new(alloc)
        .count("call", call)?
        .text("out", "not-saved")?
        .text("why", "pending")?
        .append_line(text)
}

/// Appends the line for a session that is not saved since the line at this place after the header, whose place is 0, does not
/// restore its item. On want of memory the text is unchanged.
pub fn print_lost(alloc: Global, place: u32, text: &mut Vec<u8>) -> Result<(), NoRoom>
    ensures ok { OnOk result (text.new.items ≡ text.old.items ++ line_of (spec.lost_members place)) }
    ensures err { OnErr result (text.new.items ≡ text.old.items) }
{
    Object::new(alloc)
        .count("item", place)?
        .text("out", "not-saved")?
        .text("why", "item")?
        .append_line(text)
}
