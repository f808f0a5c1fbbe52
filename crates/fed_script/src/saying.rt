//! What a line says, read from left to right.
ghost use Rattle.std.specs.Prelude.{◌≡◌, Some, None, MatchResult};
ghost use Rattle.serde_json.specs.Data.{no_members, object};
ghost use Rattle.fed_json.specs.Values.{value_in, items_in, members_in, begun_in, whole_in, Took, Takes, IsBegun};
ghost use Rattle.fed_script.specs.Entries.{with_entry, with_entries, all_said, entries_seen};
ghost use Rattle.fed_script.specs.Entries.{providers_in, providers_after};
ghost use Rattle.fed_script.specs.Get.{as_entry};
ghost use Rattle.fed_script.specs.Said.{IsEmpty, Says, SaysNothing, SaysLine, SaysWhole, Reads};

use crate::cause::LineCause;
use crate::get::provider_members;
use crate::providers::SaidProviders;
use crate::said::Said;
use fed_io::{Fault, NoRoom};
use fed_json::{Begun, Invalid, LEVELS, Values};
use json::Scratch;
use std::alloc::Global;

/// What a line says.
#[derive(Drop)]
pub(crate) struct SaidLine<'a> {
    pub(crate) members: Said<'a>,
    pub(crate) providers: SaidProviders<'a>,
}

impl<'a> SaidLine<'a> {
    /// Nothing is said. What a line says is filled in where it lies, since it is large.
    pub(crate) fn nothing(alloc: Global) -> SaidLine<'a>
        ensures { SaysNothing result }
    {
        SaidLine {
            members: Said::nothing(),
            providers: SaidProviders::none(alloc),
        }
    }
}

// Reads what the members that are left of an object say.
fn read_members<'a>(
    values: &mut Values<'a>,
    depth: usize,
    said: &mut Said<'a>,
) -> Result<(), Invalid>
    requires { IsEmpty said.old }
    ensures { MatchResult result
        (λ _. Took (λ ms. Says said.new (object ms)) (members_in depth no_members values.old) values.new)
        (λ _. members_in depth no_members values.old ≡ None) }
{
    while let Some(name) = values.next_name()? {
        let first = values.pass(depth)?;
        said.note(name, first);
    }
    Ok(())
}

// Reads what an entry says.
fn read_entry<'a>(
    values: &mut Values<'a>,
    depth: usize,
    providers: &mut SaidProviders<'a>,
) -> Result<(), Fault<Invalid>>
    ensures { Takes (λ _ d. entries_seen providers.new ≡ with_entry (as_entry d) (entries_seen providers.old))
        (value_in depth values.old) result values.new }
{
    let first = values.begin(depth)?;
    let Begun::Object(inner) = first else {
        values.finish(&first)?;
        providers.refuse();
        return Ok(());
    };
    let mut said = Said::nothing();
    read_members(values, inner, &mut said)?;
    providers.add(provider_members(&said))?;
    Ok(())
}

// Reads what the entries say that are left of a list.
fn read_entries<'a>(
    values: &mut Values<'a>,
    depth: usize,
    providers: &mut SaidProviders<'a>,
) -> Result<(), Fault<Invalid>>
    ensures { Takes (λ _ ds. entries_seen providers.new ≡ with_entries ds (entries_seen providers.old))
        (items_in depth values.old) result values.new }
{
    while !values.ends() {
        read_entry(values, depth, providers)?;
    }
    Ok(())
}

// Reads the providers that a value that began so names.
fn read_providers<'a>(
    values: &mut Values<'a>,
    first: &Begun<'a>,
    providers: &mut SaidProviders<'a>,
) -> Result<(), Fault<Invalid>>
    ensures { Takes (λ _ d. IsBegun first.now d × (all_said (entries_seen providers.new) ≡ providers_in d))
        (begun_in first.now values.old) result values.new }
{
    providers.clear();
    match first {
        Begun::Array(depth) => read_entries(values, *depth, providers),
        _ => Ok(values.finish(first)?),
    }
}

// Reads what is left of the value of a member of that name, and the providers that the member names.
fn read_value<'a>(
    values: &mut Values<'a>,
    first: &Begun<'a>,
    name: &str,
    providers: &mut SaidProviders<'a>,
) -> Result<(), Fault<Invalid>>
    ensures { Takes (λ _ d. IsBegun first.now d
        × (all_said (entries_seen providers.new) ≡ providers_after name.now d (all_said (entries_seen providers.old))))
        (begun_in first.now values.old) result values.new }
{
    if name == "providers" {
        read_providers(values, first, providers)
    } else {
        Ok(values.finish(first)?)
    }
}

// Reads what the members that are left of a line say.
fn read_line<'a>(
    values: &mut Values<'a>,
    depth: usize,
    said: &mut SaidLine<'a>,
) -> Result<(), Fault<Invalid>>
    requires { SaysNothing said.old }
    ensures { Takes (λ _ ms. SaysLine said.new (object ms)) (members_in depth no_members values.old) result values.new }
{
    while let Some(name) = values.next_name()? {
        let first = values.begin(depth)?;
        read_value(values, &first, name, &mut said.providers)?;
        said.members.note(name, first);
    }
    Ok(())
}

// Reads what the value says that a line begins with.
fn read_first<'a>(values: &mut Values<'a>, said: &mut SaidLine<'a>) -> Result<(), Fault<Invalid>>
    requires { SaysNothing said.old }
    ensures { Takes (λ _ d. SaysLine said.new d) (value_in 127 values.old) result values.new }
{
    let first = values.begin(LEVELS)?;
    match first {
        Begun::Object(depth) => read_line(values, depth, said),
        _ => Ok(values.finish(&first)?),
    }
}

// Reads what the whole text says.
fn read_whole<'a>(values: &mut Values<'a>, said: &mut SaidLine<'a>) -> Result<(), Fault<Invalid>>
    requires { SaysNothing said.old }
    ensures { SaysWhole said.new (whole_in values.old) result }
{
    read_first(values, said)?;
    if values.is_done() {
        Ok(())
    } else {
        Err(Fault::Step(Invalid))
    }
}

/// Reads what a line says; NotJson where it is no JSON value.
pub(crate) fn read_said<'a>(
    scratch: &'a mut Scratch,
    line: &'a [u8],
    said: &mut SaidLine<'a>,
) -> Result<(), Fault<LineCause>>
    requires { SaysNothing said.old }
    ensures { Reads line.now result said.new }
{
    match Values::of(scratch, line) {
        Ok(Some(mut values)) => match read_whole(&mut values, said) {
            Ok(()) => Ok(()),
            Err(Fault::Step(Invalid)) => Err(Fault::Step(LineCause::NotJson)),
            Err(Fault::NoRoom) => Err(Fault::NoRoom),
        },
        Ok(None) => Err(Fault::Step(LineCause::NotJson)),
        Err(NoRoom) => Err(Fault::NoRoom),
    }
}
