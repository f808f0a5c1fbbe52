//! Texts under a few names, read from left to right.
ghost use Rattle.std.specs.Prelude.{◌≡◌, ◌<◌, None, OnOk, map, length, MatchResult};
ghost use Rattle.serde_json.specs.Data.{Data, no_members};
ghost use Rattle.serde_json.specs.Find.{as_str};
ghost use Rattle.fed_json.specs.Values.{value_in, members_in, whole_in, Took, IsBegun};
ghost use Rattle.fed_reply.specs.Json.{ReplyJsonOf};
ghost use Rattle.fed_reply.specs.Members.{member_map, member_here};
ghost use Rattle.fed_reply.specs.Texts as spec;

use crate::{JsonBuffer, Member, ReplyStep, open_json};
use fed_io::Fault;
use fed_json::{Begun, Invalid, LEVELS, Values};
use std::alloc::Global;

/// A name, and the text that is found under it.
#[derive(Clone, Copy, Debug)]
pub struct Asked<'a> {
    pub name: &'static str,
    pub found: Member<&'a str>,
}

impl<'a> Asked<'a> {
    /// A name under which nothing is found yet.
    pub fn new(name: &'static str) -> Asked<'a>
        ensures { result ≡ record { name = name.entry; found = Member.Absent } }
    {
        Asked {
            name,
            found: Member::Absent,
        }
    }
}

/// Reads the texts that the JSON value of a reply has under the names. The steps are those of `open_json`.
pub fn read_texts<'a>(
    alloc: Global,
    raw: &'a [u8],
    buffer: &'a mut JsonBuffer,
    asked: &mut [Asked<'a>],
) -> Result<(), Fault<ReplyStep>>
    ensures { spec.FindsTexts asked.old asked.new (ReplyJsonOf raw.now) result }
{
    let mut values = match open_json(alloc, raw, buffer) {
        Ok(values) => values,
        Err(fault) => return Err(fault),
    };
    match whole_texts(&mut values, asked) {
        Ok(_) => Ok(()),
        Err(_) => Err(Fault::Step(ReplyStep::Json)),
    }
}

/// Reads the texts that a value has under the names, where nothing is left after it.
pub fn whole_texts<'a>(values: &mut Values<'a>, asked: &mut [Asked<'a>]) -> Result<bool, Invalid>
    ensures { MatchResult result (λ is_object. spec.IsWhole (spec.Have asked.old asked.new is_object) (whole_in values.old))
        (λ _. whole_in values.old ≡ None) }
{
    let is_object = take_texts(values, LEVELS, asked)?;
    if values.is_done() {
        Ok(is_object)
    } else {
        Err(Invalid)
    }
}

/// Passes over a value of at most so many levels, and finds the texts that it has under the names. It answers whether the value is an
/// object.
pub fn take_texts<'a>(
    values: &mut Values<'a>,
    depth: usize,
    asked: &mut [Asked<'a>],
) -> Result<bool, Invalid>
    ensures value { MatchResult result
        (λ is_object. Took (spec.Have asked.old asked.new is_object) (value_in depth values.old) values.new)
        (λ _. value_in depth values.old ≡ None) }
    ensures shorter { OnOk result (length values.new < length values.old) }
{
    let first = values.begin(depth)?;
    let Begun::Object(inner) = first else {
        find_all(asked, Member::Wrong);
        values.finish(&first)?;
        return Ok(false);
    };
    find_all(asked, Member::Absent);
    take_members(values, inner, asked)?;
    Ok(true)
}

// Passes over the members that are left of an object, and finds the texts that they are under the names, of several of one name the last.
fn take_members<'a>(
    values: &mut Values<'a>,
    depth: usize,
    asked: &mut [Asked<'a>],
) -> Result<(), Invalid>
    requires { spec.FindNothing asked.old }
    ensures value { MatchResult result
        (λ _. Took (spec.HaveMembers asked.old asked.new) (members_in depth no_members values.old) values.new)
        (λ _. members_in depth no_members values.old ≡ None) }
    ensures shorter { OnOk result (length values.new < length values.old) }
{
    while let Some(name) = values.next_name()? {
        let first = values.pass(depth)?;
        find_under(asked, name, text_of(&first));
    }
    Ok(())
}

/// The text that a value is which began so.
pub fn text_of<'a>(first: &Begun<'a>) -> Member<&'a str>
    ensures { (d : Data) → IsBegun first.now d → member_map (λ s. s.now) result ≡ member_here as_str d }
{
    match first {
        Begun::Null => Member::Absent,
        Begun::Text(text) => Member::Is(text),
        Begun::Bool(_) | Begun::Number(_) | Begun::Array(_) | Begun::Object(_) => Member::Wrong,
    }
}

// The same is found under each name.
fn find_all<'a>(asked: &mut [Asked<'a>], found: Member<&'a str>)
    ensures { asked.new ≡ map (spec.with_found found.entry) asked.old }
{
    for one in asked.iter_mut() {
        one.found = found;
    }
}

// This is found under one name.
fn find_under<'a>(asked: &mut [Asked<'a>], name: &str, found: Member<&'a str>)
    ensures { asked.new ≡ map (spec.with_named name.now found.entry) asked.old }
{
    for one in asked.iter_mut() {
        if one.name == name {
            one.found = found;
        }
    }
}
