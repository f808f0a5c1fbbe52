//! The permissions of each pair, by their accounts.
ghost use Rattle.std.specs.Prelude.{◌≡◌, ℕ, List, false, is_some, slice_get, OnOk, OnErr};
ghost use Rattle.std.specs.Map.{lookup};
ghost use Rattle.fed_origin.specs.declared.status.Triple.{Triple};
ghost use Rattle.fed_status.specs.Pairs.{id_of, ids_of, ListsNew, ListsLess, ListsSame, ListsNone};
ghost use Rattle.fed_status.specs.Names.{same_pair};

use crate::accounts::PairAccounts;
use crate::names::Pair;
use fed_entries::Entries;
use fed_io::{NoRoom, Text};
use fed_origin::Triple;
use indexmap::IndexMap;
use std::alloc::Global;

/// The permissions of each pair, so that those of one pair are found without a look at another's. A pair of which no permission is
/// kept does not stand.
pub type Pairs = IndexMap<Pair, PairAccounts>;

/// The id of the permission of a pair for an account; `None` exactly where there is none.
pub fn find(pairs: &Pairs, kept: &Entries<u32, Triple>, pair: Pair, account: &Text) -> Option<u32>
    ensures { result ≡ id_of kept.now pairs.now.entries pair account.now }
{
    match pairs.get(&pair) {
        Some(accounts) => accounts.find(kept, account),
        None => None,
    }
}

/// The permission under an id is one of its pair from now on. On want of memory nothing changes.
pub fn list(
    pairs: &mut Pairs,
    alloc: Global,
    kept: &Entries<u32, Triple>,
    pair: Pair,
    id: u32,
) -> Result<(), NoRoom>
    ensures ok { OnOk result (ListsNew kept.now pair id pairs.old.entries pairs.new.entries) }
    ensures err { OnErr result (ListsSame pairs.old.entries pairs.new.entries) }
{
    match pairs.get_mut(&pair) {
        Some(accounts) => accounts.add(alloc, kept, id),
        None => list_first(pairs, pair, id),
    }
}

// The first permission of its pair.
fn list_first(pairs: &mut Pairs, pair: Pair, id: u32) -> Result<(), NoRoom>
    requires { is_some (lookup (same_pair pair) pairs.old.entries) ≡ false }
    ensures ok { OnOk result ((kept : List (ℕ × Triple)) → ListsNew kept pair id pairs.old.entries pairs.new.entries) }
    ensures err { OnErr result (ListsSame pairs.old.entries pairs.new.entries) }
{
    pairs.insert(pair, PairAccounts::One(id))?;
    Ok(())
}

/// The permission of a pair for an account, which stands, is one of the pair no longer.
pub fn unlist(pairs: &mut Pairs, pair: Pair, account: &Text)
    ensures { ListsLess pair account.now pairs.old.entries pairs.new.entries }
{
    list_less(pairs, pair, account);
    if !has_some(pairs, pair) {
        let _ = take(pairs, pair);
    }
}

// A permission less of the pair.
fn list_less(pairs: &mut Pairs, pair: Pair, account: &Text)
    ensures { ListsLess pair account.now pairs.old.entries pairs.new.entries }
{
    if let Some(accounts) = pairs.get_mut(&pair) {
        accounts.remove(account);
    }
}

/// Takes the permissions of a pair out.
pub fn take(pairs: &mut Pairs, pair: Pair) -> Option<PairAccounts>
    ensures accounts { result ≡ lookup (same_pair pair) pairs.old.entries }
    ensures others { ListsNone pair pairs.old.entries pairs.new.entries }
{
    pairs.swap_remove(&pair)
}

/// Whether there is a permission of the pair.
pub fn has_some(pairs: &Pairs, pair: Pair) -> bool
    ensures { result ≡ is_some (slice_get (ids_of pairs.now.entries pair) 0) }
{
    match pairs.get(&pair) {
        Some(accounts) => accounts.has_some(),
        None => false,
    }
}
