//! The members of a line that are read over.
ghost use Rattle.std.specs.Prelude.{◌≡◌, ◌++◌, ◌∷◌, [], Some, option_map, IfOk, OnOk};
ghost use Rattle.json.specs.Value.{value_view, items_view, members_view};
ghost use Rattle.fed_check.specs.Check.{read_over};
ghost use Rattle.fed_check.specs.Members as spec;
ghost use Rattle.fed_check.specs.Members.{other, others, others_in_list, others_in_items, others_in_provider};
ghost use Rattle.fed_check.specs.Members.{unread_among, unread_in, unread_of};

use crate::finding::Finding;
use crate::table::{is_among, provider_members};
use fed_io::{Items, NoRoom, Text};
use fed_json::LEVELS;
use fed_script::MemberName;
use json::{Error, Reader, Scratch, Value};
use simdutf8::basic::from_utf8;
use std::alloc::Global;

// A member of this name is read over.
fn note(alloc: Global, number: u32, name: &str, found: &mut Items<Finding>) -> Result<(), NoRoom>
    ensures { OnOk result (found.new ≡ found.old ++ read_over number (name.now ∷ [])) }
{
    found.push(Finding::Unread(number, Text::of(alloc, name)?))
}

// A member of an object in `providers`.
fn note_other(
    alloc: Global,
    number: u32,
    name: &str,
    found: &mut Items<Finding>,
) -> Result<(), NoRoom>
    ensures { OnOk result (found.new ≡ found.old ++ read_over number (other spec.provider_members name.now)) }
{
    if is_among(provider_members(), name) {
        return Ok(());
    }
    note(alloc, number, name, found)
}

// Those of the members of such an object.
fn note_others(
    alloc: Global,
    number: u32,
    members: &[(&str, Value<'_>)],
    found: &mut Items<Finding>,
) -> Result<(), NoRoom>
    ensures { OnOk result
        (found.new ≡ found.old ++ read_over number (others spec.provider_members (members_view members.now))) }
{
    for member in members {
        note_other(alloc, number, member.0, found)?;
    }
    Ok(())
}

// Those of a value in a list of providers.
fn note_provider(
    alloc: Global,
    number: u32,
    provider: &Value<'_>,
    found: &mut Items<Finding>,
) -> Result<(), NoRoom>
    ensures { OnOk result
        (found.new ≡ found.old ++ read_over number (others_in_provider (value_view provider.now))) }
{
    match provider {
        Value::Object(members) => note_others(alloc, number, members.as_slice(), found),
        _ => Ok(()),
    }
}

// Those of the values of a list of providers.
fn note_providers(
    alloc: Global,
    number: u32,
    providers: &[Value<'_>],
    found: &mut Items<Finding>,
) -> Result<(), NoRoom>
    ensures { OnOk result
        (found.new ≡ found.old ++ read_over number (others_in_items (items_view providers.now))) }
{
    for provider in providers {
        note_provider(alloc, number, provider, found)?;
    }
    Ok(())
}

// Those of the value of the member `providers`.
fn note_list(
    alloc: Global,
    number: u32,
    value: &Value<'_>,
    found: &mut Items<Finding>,
) -> Result<(), NoRoom>
    ensures { OnOk result (found.new ≡ found.old ++ read_over number (others_in_list (value_view value.now))) }
{
    match value {
        Value::Array(providers) => note_providers(alloc, number, providers.as_slice(), found),
        _ => Ok(()),
    }
}

// A member of a line, and those inside it.
fn note_member(
    alloc: Global,
    number: u32,
    names: &[MemberName],
    member: &(&str, Value<'_>),
    found: &mut Items<Finding>,
) -> Result<(), NoRoom>
    ensures { OnOk result (found.new ≡ found.old
        ++ read_over number (unread_of names.now member.now.0.now (value_view member.now.1))) }
{
    if !is_among(names, member.0) {
        return note(alloc, number, member.0, found);
    }
    if member.0 == "providers" {
        return note_list(alloc, number, &member.1, found);
    }
    Ok(())
}

// Those of the members of a line.
fn note_members(
    alloc: Global,
    number: u32,
    names: &[MemberName],
    members: &[(&str, Value<'_>)],
    found: &mut Items<Finding>,
) -> Result<(), NoRoom>
    ensures { OnOk result
        (found.new ≡ found.old ++ read_over number (unread_among names.now (members_view members.now))) }
{
    for member in members {
        note_member(alloc, number, names, member, found)?;
    }
    Ok(())
}

// The value of a text as it is written.
fn value_of<'a>(
    alloc: Global,
    text: &'a str,
    scratch: &'a mut Scratch,
) -> Result<Option<Value<'a>>, NoRoom>
    ensures { IfOk result (λ found. option_map value_view found ≡ spec.value_of_text text.now) }
{
    let Ok(mut reader) = Reader::new(text, scratch) else {
        return Err(NoRoom);
    };
    let value = match Value::read(alloc, &mut reader, LEVELS) {
        Ok(value) => value,
        Err(Error::Invalid) => return Ok(None),
        Err(_) => return Err(NoRoom),
    };
    if reader.next().is_some() {
        return Ok(None);
    }
    Ok(Some(value))
}

// Those of the value of a line.
fn note_value(
    alloc: Global,
    number: u32,
    names: &[MemberName],
    value: &Value<'_>,
    found: &mut Items<Finding>,
) -> Result<(), NoRoom>
    ensures { OnOk result
        (found.new ≡ found.old ++ read_over number (unread_in names.now (Some (value_view value.now)))) }
{
    match value {
        Value::Object(members) => note_members(alloc, number, names, members.as_slice(), found),
        _ => Ok(()),
    }
}

// Those of a text.
// By itself, since it has 16 KB of memory for reading.
#[inline(never)]
fn note_text(
    alloc: Global,
    number: u32,
    names: &[MemberName],
    text: &str,
    found: &mut Items<Finding>,
) -> Result<(), NoRoom>
    ensures { OnOk result
        (found.new ≡ found.old ++ read_over number (unread_in names.now (spec.value_of_text text.now))) }
{
    let mut scratch = Scratch::new(alloc);
    match value_of(alloc, text, &mut scratch)? {
        Some(value) => note_value(alloc, number, names, &value, found),
        None => Ok(()),
    }
}

/// Notes the members of a good line of this number that are read over, where those of these names are read.
pub(crate) fn note_unread(
    alloc: Global,
    number: u32,
    names: &[MemberName],
    line: &[u8],
    found: &mut Items<Finding>,
) -> Result<(), NoRoom>
    ensures { OnOk result (found.new ≡ found.old ++ read_over number (spec.unread names.now line.now)) }
{
    match from_utf8(line) {
        Ok(text) => note_text(alloc, number, names, text, found),
        Err(_) => Ok(()),
    }
}
