//! The permissions of one pair, by their accounts.
ghost use Rattle.std.specs.Prelude.{◌≡◌, ℕ, List, cond, nat_eq, bytes_eq, is_some, Some, slice_get, IfOk, OnOk, OnErr};
ghost use Rattle.std.specs.Map.{lookup};
ghost use Rattle.fed_origin.specs.declared.status.Triple.{Triple};
ghost use Rattle.fed_status.specs.declared.accounts.PairAccounts.TheVariants.{One, Many};
ghost use Rattle.fed_status.specs.Pairs.{id_alone, id_held, ids_held, HoldsNew, HoldsLess, HoldsSame};

use fed_entries::Entries;
use fed_io::{NoRoom, Text};
use fed_origin::Triple;
use indexmap::IndexMap;
use std::alloc::Global;

/// The ids of the permissions of a pair, in no order. One alone stands in place, and its account is read where the permission is
/// kept: so it has no copy.
#[derive(Drop)]
pub enum PairAccounts {
    Empty,
    One(u32),
    Many(Box<IndexMap<Text, u32>>),
}

impl PairAccounts {
    /// The id of the permission for an account; `None` exactly where there is none.
    pub fn find(&self, kept: &Entries<u32, Triple>, account: &Text) -> Option<u32>
        ensures { result ≡ id_held kept.now self.now account.now }
    {
        match self {
            PairAccounts::Empty => None,
            PairAccounts::One(id) => alone(kept, *id, account),
            PairAccounts::Many(ids) => ids.get(account).copied(),
        }
    }

    /// A permission more. On want of memory nothing changes.
    pub fn add(&mut self, alloc: Global, kept: &Entries<u32, Triple>, id: u32) -> Result<(), NoRoom>
        ensures ok { OnOk result (HoldsNew kept.now id self.old self.new) }
        ensures err { OnErr result (HoldsSame self.old self.new) }
    {
        match self {
            PairAccounts::Empty => {
                *self = PairAccounts::One(id);
                Ok(())
            }
            PairAccounts::One(first) => {
                *self = PairAccounts::Many(two(alloc, kept, *first, id)?);
                Ok(())
            }
            PairAccounts::Many(ids) => enter(ids, alloc, kept, id),
        }
    }

    /// The permission for an account, which stands, is gone.
    pub fn remove(&mut self, account: &Text)
        ensures { HoldsLess account.now self.old self.new }
    {
        match self {
            PairAccounts::Empty => {}
            PairAccounts::One(_) => {
                *self = PairAccounts::Empty;
            }
            PairAccounts::Many(ids) => {
                ids.swap_remove(account);
            }
        }
    }

    /// Whether there is a permission.
    pub fn has_some(&self) -> bool
        ensures { result ≡ is_some (slice_get (ids_held self.now) 0) }
    {
        match self {
            PairAccounts::Empty => false,
            PairAccounts::One(_) => true,
            PairAccounts::Many(ids) => ids.first().is_some(),
        }
    }
}

// The permission under an id, unless it is for another account.
fn alone(kept: &Entries<u32, Triple>, id: u32, account: &Text) -> Option<u32>
    ensures { result ≡ id_alone kept.now id account.now }
{
    match kept.get(id) {
        Some(triple) if triple.account != *account => None,
        _ => Some(id),
    }
}

// Two permissions by their accounts.
fn two(
    alloc: Global,
    kept: &Entries<u32, Triple>,
    first: u32,
    second: u32,
) -> Result<Box<IndexMap<Text, u32>>, NoRoom>
    ensures { IfOk result (λ ids. HoldsNew kept.now second (One first) (Many ids)) }
{
    let mut ids = IndexMap::new(alloc);
    enter(&mut ids, alloc, kept, first)?;
    enter(&mut ids, alloc, kept, second)?;
    Ok(Box::new(alloc, ids)?)
}

// Puts the permission under an id by its account. On want of memory nothing changes.
fn enter(
    ids: &mut IndexMap<Text, u32>,
    alloc: Global,
    kept: &Entries<u32, Triple>,
    id: u32,
) -> Result<(), NoRoom>
    ensures ok { OnOk result ((triple : Triple) → lookup (nat_eq id) kept.now ≡ Some triple → (other : List ℕ)
        → lookup (bytes_eq other) ids.new.entries
        ≡ cond (bytes_eq triple.account other) (Some id) (lookup (bytes_eq other) ids.old.entries)) }
    ensures err { OnErr result (ids.new.entries ≡ ids.old.entries) }
{
    if let Some(triple) = kept.get(id) {
        ids.insert(triple.account.copy(alloc)?, id)?;
    }
    Ok(())
}
