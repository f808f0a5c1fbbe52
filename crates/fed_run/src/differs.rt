//! The line of where a transcript first leaves this program's own.
ghost use Rattle.std.specs.Prelude.{◌≡◌, ◌++◌, codes, IfOk, OnOk, OnErr};
ghost use Rattle.std.specs.Option.{option_copied};
ghost use Rattle.fed_audit.specs.Words as audit;
ghost use Rattle.fed_print.specs.Lines.{line_of};
ghost use Rattle.fed_print.specs.Object.{members_of};
ghost use Rattle.fed_print.specs.Objects.{count, put_if};
ghost use Rattle.fed_print.specs.Records as records;
ghost use Rattle.serde_json.specs.Data.{string, put};
ghost use Rattle.fed_run.specs.Text as spec;

use base64::engine::general_purpose::STANDARD;
use fed_audit::{About, Difference};
use fed_io::{Bytes, NoRoom};
use fed_print::Object;
use std::alloc::Global;

// The bytes as a text, where all are below 128.
fn ascii_text(bytes: &[u8]) -> Option<&str>
    ensures { option_copied result ≡ records.ascii_text bytes.now }
{
    if !bytes.is_ascii() {
        return None;
    }
    match str::from_utf8(bytes) {
        Ok(text) => Some(text),
        Err(_) => None,
    }
}

// The object with the value that is due.
fn with_due(alloc: Global, object: Object, due: &Bytes) -> Result<Object, NoRoom>
    ensures { let named = spec.due_by (records.ascii_text due.now) due.now in
        IfOk result (λ o. members_of o ≡ put_if named.0 named.1 (members_of object)) }
{
    match ascii_text(due.as_slice()) {
        Some(text) => object.text("due", text),
        None => {
            let raw = STANDARD.encode(alloc, due.as_slice())?;
            object.text("due_raw", raw.as_str())
        }
    }
}

// The object with what the record is about.
fn with_about(object: Object, about: About) -> Result<Object, NoRoom>
    ensures { IfOk result (λ o. members_of o ≡ put (codes "provider") (count about.provider)
        (put (codes "kind") (string (audit.subject_text about.subject)) (put (codes "call") (count about.call) (members_of object)))) }
{
    object
        .count("call", about.call)?
        .text("kind", about.subject.as_str())?
        .count("provider", about.provider)
}

// The object of what differs first.
fn differs(alloc: Global, difference: &Difference) -> Result<Object, NoRoom>
    ensures { IfOk result (λ o. members_of o ≡ spec.differs_members difference.now) }
{
    let mut object = Object::new(alloc)
        .count("line", difference.line)?
        .text("out", "differs")?
        .text("what", difference.aspect.as_str())?;
    if let Some(about) = difference.about {
        object = with_about(object, about)?;
    }
    match &difference.due {
        Some(due) => with_due(alloc, object, due),
        None => Ok(object),
    }
}

/// Appends the line for what of a transcript first differs from this program's own. On want of memory the text is unchanged.
pub fn print_differs(
    alloc: Global,
    difference: &Difference,
    text: &mut Vec<u8>,
) -> Result<(), NoRoom>
    ensures ok { OnOk result (text.new.items ≡ text.old.items ++ line_of (spec.differs_members difference.now)) }
    ensures err { OnErr result (text.new.items ≡ text.old.items) }
{
    let object = differs(alloc, difference)?;
    object.append_line(text)
}
