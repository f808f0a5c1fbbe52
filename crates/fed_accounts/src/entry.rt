//! Accounts as their entries have them.
ghost use Rattle.std.specs.Prelude.{◌≡◌, IfOk, option_map};
ghost use Rattle.std.specs.Option.{option_copied};
ghost use Rattle.std.specs.Result.{result_map_both};
ghost use Rattle.fed_json.specs.Values.{value_in, Takes};
ghost use Rattle.fed_reply.specs.Steps.{with_ok};
ghost use Rattle.fed_accounts.specs.Entry as seen;
ghost use Rattle.fed_accounts.specs.Found.{account_found, names_found, or_empty, parts};
ghost use Rattle.fed_accounts.specs.Hints as hints;
ghost use Rattle.fed_accounts.specs.Names.{names};
ghost use Rattle.fed_accounts.specs.Read as spec;

use crate::hints::are_asked_for;
use crate::members::{Found, Listed, read_members};
use crate::{Account, AccountsStep};
use fed_io::{Fault, Items, NoRoom, Text, placed_text, text_of};
use fed_json::{Begun, Invalid, Values};
use std::alloc::Global;

/// An account as its entry has it. Nothing is copied, so that what no call is about costs no copy.
pub(crate) struct Entry<'a> {
    pub(crate) id: &'a str,
    name: &'a str,
    email: &'a str,
    given_name: Option<&'a str>,
    picture: Option<&'a str>,
    approved: Option<Items<&'a str>>,
    login_hints: Items<&'a str>,
    domain_hints: Items<&'a str>,
}

// Written out, so that one function lets it go wherever it ends.
impl Drop for Entry<'_> {
    fn drop(self) {
        let Entry {
            id: _,
            name: _,
            email: _,
            given_name: _,
            picture: _,
            approved: _,
            login_hints: _,
            domain_hints: _,
        } = self;
    }
}

/// The account of the entry that a value is, or the step where it is none.
pub(crate) fn read_entry<'a>(
    alloc: Global,
    values: &mut Values<'a>,
    depth: usize,
) -> Result<Result<Entry<'a>, AccountsStep>, Fault<Invalid>>
    ensures { Takes (λ entry d. result_map_both seen.account (λ e. e) entry ≡ spec.account_of d)
        (value_in depth values.old) result values.new }
{
    let first = values.begin(depth)?;
    match first {
        Begun::Object(depth) => match read_members(alloc, values, depth) {
            Ok(found) => Ok(entry_of(alloc, found)),
            Err(fault) => Err(fault),
        },
        Begun::Null | Begun::Bool(_) | Begun::Number(_) | Begun::Text(_) | Begun::Array(_) => {
            values.finish(&first)?;
            Ok(Err(AccountsStep::Shape))
        }
    }
}

// The account of what was found.
fn entry_of<'a>(alloc: Global, found: Found<'a>) -> Result<Entry<'a>, AccountsStep>
    ensures { result_map_both seen.account (λ e. e) result ≡ account_found (parts found.entry) }
{
    let named = named(&found)?;
    let approved = found.approved?;
    let login_hints = list_or_empty(alloc, found.login_hints)?;
    let domain_hints = list_or_empty(alloc, found.domain_hints)?;
    Ok(Entry {
        id: named.id,
        name: named.name,
        email: named.email,
        given_name: named.given_name,
        picture: named.picture,
        approved,
        login_hints,
        domain_hints,
    })
}

// The texts of an account.
#[derive(Clone, Copy)]
struct EntryTexts<'a> {
    id: &'a str,
    name: &'a str,
    email: &'a str,
    given_name: Option<&'a str>,
    picture: Option<&'a str>,
}

// The texts of what was found. It takes no memory.
fn named<'a>(found: &Found<'a>) -> Result<EntryTexts<'a>, AccountsStep>
    ensures { result_map_both names (λ e. e) result ≡ names_found (parts found.now) }
{
    let id = found.id.required(AccountsStep::Shape)?;
    let name = found.name.required(AccountsStep::Shape)?;
    let email = found.email.required(AccountsStep::Shape)?;
    let given_name = found.given_name.optional(AccountsStep::Shape)?;
    let picture = found.picture.optional(AccountsStep::Shape)?;
    Ok(EntryTexts {
        id,
        name,
        email,
        given_name,
        picture,
    })
}

// A list of texts, which is empty where it is left out.
fn list_or_empty<'a>(alloc: Global, found: Listed<'a>) -> Result<Items<&'a str>, AccountsStep>
    ensures { result_map_both seen.texts (λ e. e) result ≡ with_ok or_empty (seen.list_seen found.entry) }
{
    match found {
        Ok(Some(texts)) => Ok(texts),
        Ok(None) => Ok(Items::new(alloc)),
        Err(step) => Err(step),
    }
}

impl<'a> Entry<'a> {
    /// Whether both hints, where they are given, ask for the account.
    pub(crate) fn is_hinted(&self, login: Option<&Text>, domain: Option<&Text>) -> bool
        ensures { result ≡ hints.is_hinted (option_copied login.entry) (option_copied domain.entry) (seen.account self.now) }
    {
        are_asked_for(
            login,
            domain,
            self.login_hints.as_slice(),
            self.domain_hints.as_slice(),
        )
    }

    /// A copy of the account.
    pub(crate) fn copy(&self, alloc: Global) -> Result<Account, NoRoom>
        ensures { IfOk result (λ copy. copy ≡ seen.account self.now) }
    {
        Ok(Account {
            id: Text::of(alloc, self.id)?,
            name: Text::of(alloc, self.name)?,
            email: Text::of(alloc, self.email)?,
            given_name: text_of(alloc, self.given_name)?,
            picture: placed_text(alloc, self.picture)?,
            approved: copy_approved(alloc, &self.approved)?,
            login_hints: copy_list(alloc, &self.login_hints)?,
            domain_hints: copy_list(alloc, &self.domain_hints)?,
        })
    }
}

// A copy of the texts of a list, where there is one.
fn copy_approved(alloc: Global, list: &Option<Items<&str>>) -> Result<Option<Items<Text>>, NoRoom>
    ensures { IfOk result (λ copy. copy ≡ option_map seen.texts list.now) }
{
    match list {
        Some(list) => Ok(Some(copy_list(alloc, list)?)),
        None => Ok(None),
    }
}

// A copy of the texts.
fn copy_list(alloc: Global, list: &Items<&str>) -> Result<Items<Text>, NoRoom>
    ensures { IfOk result (λ copy. copy ≡ seen.texts list.now) }
{
    let mut texts = Items::new(alloc);
    for text in list.as_slice() {
        texts.push(Text::of(alloc, text)?)?;
    }
    Ok(texts)
}
