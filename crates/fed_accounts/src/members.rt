//! The members of an entry.
ghost use Rattle.std.specs.Prelude.{◌≡◌, MatchResult};
ghost use Rattle.serde_json.specs.Data.{no_members};
ghost use Rattle.serde_json.specs.Find.{as_str};
ghost use Rattle.fed_json.specs.Values.{value_in, items_in, members_in, Took, Takes};
ghost use Rattle.fed_reply.specs.Members.{member_map, member_here};
ghost use Rattle.fed_accounts.specs.Entry.{list_seen};
ghost use Rattle.fed_accounts.specs.Read.{each, text_of};
ghost use Rattle.fed_accounts.specs.Found as spec;

use crate::AccountsStep;
use fed_io::{Fault, Items};
use fed_json::{Begun, Invalid, Values};
use fed_reply::{Member, text_of};
use std::alloc::Global;

/// A list of texts that may be left out, or the step where it is none.
pub(crate) type Listed<'a> = Result<Option<Items<&'a str>>, AccountsStep>;

/// What an entry has under the names of an account.
#[derive(Drop)]
pub(crate) struct Found<'a> {
    pub(crate) id: Member<&'a str>,
    pub(crate) name: Member<&'a str>,
    pub(crate) email: Member<&'a str>,
    pub(crate) given_name: Member<&'a str>,
    pub(crate) picture: Member<&'a str>,
    pub(crate) approved: Listed<'a>,
    pub(crate) login_hints: Listed<'a>,
    pub(crate) domain_hints: Listed<'a>,
}

// The text that a value is; null counts as absent.
fn read_text<'a>(values: &mut Values<'a>, depth: usize) -> Result<Member<&'a str>, Invalid>
    ensures { MatchResult result
        (λ text. Took (λ d. member_map (λ s. s.now) text ≡ member_here as_str d) (value_in depth values.old) values.new)
        (λ _. value_in depth values.old ≡ None) }
{
    Ok(text_of(&values.pass(depth)?))
}

// The list of texts that a value is; null counts as left out.
fn read_list<'a>(
    alloc: Global,
    values: &mut Values<'a>,
    depth: usize,
) -> Result<Listed<'a>, Fault<Invalid>>
    ensures { Takes (λ list d. list_seen list ≡ spec.listed d) (value_in depth values.old) result values.new }
{
    let first = values.begin(depth)?;
    match first {
        Begun::Null => Ok(Ok(None)),
        Begun::Array(depth) => read_texts(alloc, values, depth),
        Begun::Bool(_) | Begun::Number(_) | Begun::Text(_) | Begun::Object(_) => {
            values.finish(&first)?;
            Ok(Err(AccountsStep::Shape))
        }
    }
}

// The texts that are left of an array.
fn read_texts<'a>(
    alloc: Global,
    values: &mut Values<'a>,
    depth: usize,
) -> Result<Listed<'a>, Fault<Invalid>>
    ensures { Takes (λ list ds. list_seen list ≡ spec.texts_listed ds) (items_in depth values.old) result values.new }
{
    let mut texts = Items::new(alloc);
    while !values.ends() {
        let Begun::Text(text) = values.pass(depth)? else {
            values.skip_items(depth)?;
            return Ok(Err(AccountsStep::Shape));
        };
        texts.push(text)?;
    }
    Ok(Ok(Some(texts)))
}

// Reads the value of a member of that name, which is kept where an account has such a member.
fn read_member<'a>(
    alloc: Global,
    values: &mut Values<'a>,
    depth: usize,
    name: &str,
    found: &mut Found<'a>,
) -> Result<(), Fault<Invalid>>
    ensures { Takes (λ _ d. spec.parts found.new ≡ spec.parts_with name.now d (spec.parts found.old))
        (value_in depth values.old) result values.new }
{
    match name {
        "id" => found.id = read_text(values, depth)?,
        "name" => found.name = read_text(values, depth)?,
        "email" => found.email = read_text(values, depth)?,
        "given_name" => found.given_name = read_text(values, depth)?,
        "picture" => found.picture = read_text(values, depth)?,
        "approved_clients" => found.approved = read_list(alloc, values, depth)?,
        "login_hints" => found.login_hints = read_list(alloc, values, depth)?,
        "domain_hints" => found.domain_hints = read_list(alloc, values, depth)?,
        _ => values.skip(depth)?,
    }
    Ok(())
}

/// Reads the members that are left of an entry, of several of one name the last.
pub(crate) fn read_members<'a>(
    alloc: Global,
    values: &mut Values<'a>,
    depth: usize,
) -> Result<Found<'a>, Fault<Invalid>>
    ensures { Takes (λ found ms. spec.parts found ≡ spec.parts_of ms) (members_in depth no_members values.old) result values.new }
{
    let mut found = Found {
        id: Member::Absent,
        name: Member::Absent,
        email: Member::Absent,
        given_name: Member::Absent,
        picture: Member::Absent,
        approved: Ok(None),
        login_hints: Ok(None),
        domain_hints: Ok(None),
    };
    while let Some(name) = values.next_name()? {
        read_member(alloc, values, depth, name, &mut found)?;
    }
    Ok(found)
}
