//! Reading the accounts of a provider.
ghost use Rattle.std.specs.Prelude.{◌≡◌, ◌++◌, ◌∷◌, [], filter, OnOk};
ghost use Rattle.std.specs.List.{IsDistinct};
ghost use Rattle.std.specs.Option.{option_copied};
ghost use Rattle.serde_json.specs.Data.{no_members};
ghost use Rattle.fed_io.specs.Fault.{Answers};
ghost use Rattle.fed_json.specs.Values.{value_in, items_in, members_in, whole_in, Takes};
ghost use Rattle.fed_accounts.specs.Accounts.{same_id};
ghost use Rattle.fed_accounts.specs.Hints as hints;
ghost use Rattle.fed_accounts.specs.Entry as seen;
ghost use Rattle.fed_accounts.specs.Kept as kept_spec;
ghost use Rattle.fed_accounts.specs.Read as spec;

use crate::entry::{Entry, read_entry};
use crate::{Account, Accounts, AccountsStep};
use fed_io::{Fault, Items, NoRoom, Text};
use fed_json::{Begun, Invalid, LEVELS, Values};
use fed_reply::{JsonBuffer, ReplyMemory, ReplyStep, open_json};
use indexmap::IndexSet;
use std::alloc::Global;

/// Reads the accounts in a reply of the accounts endpoint (FedCM, "The accounts list endpoint"). Of
/// several accounts with one id the first stays. The steps are `Reply`, `Shape` where the value is
/// no list of accounts under `accounts`, and `Empty` where the list has no entry.
pub fn read_accounts(alloc: Global, raw: &[u8]) -> Result<Accounts, Fault<AccountsStep>>
    ensures { Answers result (spec.AccountsOf raw.now) }
{
    read_hinted(alloc, &ReplyMemory::new(), raw, None, None)
}

/// Reads the accounts in a reply of the accounts endpoint that the hints of a call ask for, as `read_accounts` and then
/// `keep_hinted` do. Only accounts that are kept are copied. `memory` is what the reply is read from.
pub fn read_hinted(
    alloc: Global,
    memory: &ReplyMemory,
    raw: &[u8],
    login: Option<&Text>,
    domain: Option<&Text>,
) -> Result<Accounts, Fault<AccountsStep>>
    ensures { Answers result (hints.HintedOf raw.now (option_copied login.entry) (option_copied domain.entry)) }
{
    let mut buffer = memory.lend(alloc)?;
    let read = hinted_in(alloc, raw, login, domain, &mut buffer);
    memory.take_back(raw, buffer);
    read
}

// The same, with what is read from.
#[tactic(auto, unfolding(crate::specs::Hints::HintedOf, crate::specs::Read::AccountsOf))]
fn hinted_in(
    alloc: Global,
    raw: &[u8],
    login: Option<&Text>,
    domain: Option<&Text>,
    buffer: &mut JsonBuffer,
) -> Result<Accounts, Fault<AccountsStep>>
    ensures { Answers result (hints.HintedOf raw.now (option_copied login.entry) (option_copied domain.entry)) }
{
    let mut values = match open_json(alloc, raw, buffer) {
        Ok(values) => values,
        Err(Fault::Step(step)) => return Err(Fault::Step(AccountsStep::Reply(step))),
        Err(Fault::NoRoom) => return Err(Fault::NoRoom),
    };
    match keep_whole(alloc, &mut values, login, domain) {
        Ok(Ok(kept)) => settled(kept),
        Ok(Err(step)) => Err(Fault::Step(step)),
        Err(Fault::Step(_)) => Err(Fault::Step(AccountsStep::Reply(ReplyStep::Json))),
        Err(Fault::NoRoom) => Err(Fault::NoRoom),
    }
}

// What is kept of the entries of a list.
#[derive(Drop)]
struct Kept {
    // Whether there is an entry.
    some: bool,
    // Of the first accounts of each id those that the hints ask for.
    accounts: Items<Account>,
}

// The accounts, where there is an entry and some are kept.
fn settled(kept: Kept) -> Result<Accounts, Fault<AccountsStep>>
    requires { IsDistinct same_id kept.accounts }
    ensures { Answers result (kept_spec.settled kept) }
{
    if !kept.some {
        return Err(Fault::Step(AccountsStep::Empty));
    }
    if kept.accounts.len() == 0 {
        return Err(Fault::Step(AccountsStep::HintsNone));
    }
    let Kept { some: _, accounts } = kept;
    Ok(Accounts::new(accounts))
}

// What is kept of the accounts in a text, or the step where it has no list of accounts. That is told after the whole text was read,
// since a text that is no value has another step.
fn keep_whole(
    alloc: Global,
    values: &mut Values<'_>,
    login: Option<&Text>,
    domain: Option<&Text>,
) -> Result<Result<Kept, AccountsStep>, Fault<Invalid>>
    ensures answer { kept_spec.ReadsWhole (kept_spec.kept_in (option_copied login.entry) (option_copied domain.entry))
        (whole_in values.old) result }
    ensures distinct { kept_spec.AreDistinct result }
{
    let kept = match keep_file(alloc, values, login, domain) {
        Ok(kept) => kept,
        Err(fault) => return Err(fault),
    };
    if values.is_done() {
        Ok(kept)
    } else {
        Err(Fault::Step(Invalid))
    }
}

// The same of the value that the text begins with.
fn keep_file(
    alloc: Global,
    values: &mut Values<'_>,
    login: Option<&Text>,
    domain: Option<&Text>,
) -> Result<Result<Kept, AccountsStep>, Fault<Invalid>>
    ensures answer { Takes (λ kept d. kept ≡ kept_spec.kept_in (option_copied login.entry) (option_copied domain.entry) d)
        (value_in 127 values.old) result values.new }
    ensures distinct { kept_spec.AreDistinct result }
{
    let first = values.begin(LEVELS)?;
    match first {
        Begun::Object(depth) => keep_members(alloc, values, depth, login, domain),
        Begun::Null | Begun::Bool(_) | Begun::Number(_) | Begun::Text(_) | Begun::Array(_) => {
            values.finish(&first)?;
            Ok(Err(AccountsStep::Shape))
        }
    }
}

// The same of the members of an object, of several lists under the name the last.
fn keep_members(
    alloc: Global,
    values: &mut Values<'_>,
    depth: usize,
    login: Option<&Text>,
    domain: Option<&Text>,
) -> Result<Result<Kept, AccountsStep>, Fault<Invalid>>
    ensures answer { Takes (λ kept ms. kept ≡ kept_spec.kept_under (option_copied login.entry) (option_copied domain.entry) ms)
        (members_in depth no_members values.old) result values.new }
    ensures distinct { kept_spec.AreDistinct result }
{
    let mut kept = Err(AccountsStep::Shape);
    while let Some(name) = values.next_name()? {
        if name == "accounts" {
            kept = match keep_list(alloc, values, depth, login, domain) {
                Ok(list) => list,
                Err(fault) => return Err(fault),
            };
        } else {
            values.skip(depth)?;
        }
    }
    Ok(kept)
}

// The same of the list that a value is.
fn keep_list(
    alloc: Global,
    values: &mut Values<'_>,
    depth: usize,
    login: Option<&Text>,
    domain: Option<&Text>,
) -> Result<Result<Kept, AccountsStep>, Fault<Invalid>>
    ensures answer { Takes (λ kept d. kept ≡ kept_spec.kept_list (option_copied login.entry) (option_copied domain.entry) d)
        (value_in depth values.old) result values.new }
    ensures distinct { kept_spec.AreDistinct result }
{
    let first = values.begin(depth)?;
    match first {
        Begun::Array(depth) => keep_entries(alloc, values, depth, login, domain),
        Begun::Null | Begun::Bool(_) | Begun::Number(_) | Begun::Text(_) | Begun::Object(_) => {
            values.finish(&first)?;
            Ok(Err(AccountsStep::Shape))
        }
    }
}

// What is kept of the entries that are left of a list. An id is looked up in a set, so that this takes linear time.
fn keep_entries(
    alloc: Global,
    values: &mut Values<'_>,
    depth: usize,
    login: Option<&Text>,
    domain: Option<&Text>,
) -> Result<Result<Kept, AccountsStep>, Fault<Invalid>>
    ensures answer { Takes (λ kept ds. kept ≡ kept_spec.kept_entries (option_copied login.entry) (option_copied domain.entry) ds)
        (items_in depth values.old) result values.new }
    ensures distinct { kept_spec.AreDistinct result }
{
    let mut ids = IndexSet::new(alloc);
    let mut accounts = Items::new(alloc);
    while !values.ends() {
        let entry = match read_entry(alloc, values, depth) {
            Ok(Ok(entry)) => entry,
            Ok(Err(step)) => {
                values.skip_items(depth)?;
                return Ok(Err(step));
            }
            Err(fault) => return Err(fault),
        };
        if ids.insert(entry.id)? {
            keep(alloc, &entry, login, domain, &mut accounts)?;
        }
    }
    Ok(Ok(Kept {
        some: ids.len() != 0,
        accounts,
    }))
}

// Keeps a copy of the account, where the hints ask for it.
fn keep(
    alloc: Global,
    entry: &Entry<'_>,
    login: Option<&Text>,
    domain: Option<&Text>,
    kept: &mut Items<Account>,
) -> Result<(), NoRoom>
    ensures { OnOk result (kept.new ≡ kept.old ++ filter (hints.is_hinted (option_copied login.entry)
        (option_copied domain.entry)) (seen.account entry.now ∷ [])) }
{
    if entry.is_hinted(login, domain) {
        kept.push(entry.copy(alloc)?)?;
    }
    Ok(())
}
