//! The table of kept permissions: each under an id, and the ids by pairs and accounts.
ghost use Rattle.std.specs.Prelude.{◌≡◌, [], Some, None, length, slice_get, IfOk, OnOk, OnErr};
ghost use Rattle.std.specs.Map.{values_of};
ghost use Rattle.std.specs.Option.{option_copied};
ghost use Rattle.fed_entries.specs.Entries.{entries_in};
ghost use Rattle.fed_status.specs.Kept as spec;
ghost use Rattle.fed_status.specs.Kept.{triple_of, with_triple, without_triple, without_pair};
ghost use Rattle.fed_status.specs.Names.{pair_of};
ghost use Rattle.fed_status.specs.Pairs.{id_of, ids_held, AreApart};
ghost use Rattle.fed_status.specs.Table.{IsTable, triples_of, without_ids};

use crate::accounts::PairAccounts;
use crate::names::{Names, Pair};
use crate::pairs::{Pairs, find, has_some, list, take, unlist};
use fed_entries::{Entries, Slot};
use fed_io::{Items, NoRoom, Text};
use fed_origin::{Origin, Triple};
use indexmap::IndexMap;
use std::alloc::Global;

/// The kept permissions, in order of entering, each under an id. The ids of a pair stand under the numbers of its origins: so one is
/// found without a copy of its parts.
pub struct Table {
    pub names: Names,
    pub kept: Entries<u32, Triple>,
    /// The permissions of the pairs of which some permission is kept.
    pub pairs: Pairs,
    /// The id that the next permission stands under.
    pub next: u32,
}

// Written out, so that one function lets it go wherever it ends.
impl Drop for Table {
    fn drop(self) {
        let Table {
            names: _,
            kept: _,
            pairs: _,
            next: _,
        } = self;
    }
}

impl Table {
    pub fn new(alloc: Global) -> Table
        ensures value { triples_of result ≡ [] }
        ensures table { IsTable result }
    {
        Table {
            names: Names::new(alloc),
            kept: Entries::new(alloc),
            pairs: IndexMap::new(alloc),
            next: 0,
        }
    }

    pub fn add(&mut self, alloc: Global, triple: Triple) -> Result<(), NoRoom>
        requires { IsTable self.old }
        ensures ok { OnOk result (triples_of self.new ≡ with_triple (triples_of self.old) triple) }
        ensures err { OnErr result (triples_of self.new ≡ triples_of self.old) }
        ensures table { IsTable self.new }
    {
        let pair = self.names.enter(alloc, &triple.page, &triple.provider)?;
        if find(&self.pairs, &self.kept, pair, &triple.account).is_some() {
            return Ok(());
        }
        self.put(alloc, pair, triple)
    }

    // Adds a permission, which is not there, of a pair with these numbers.
    fn put(&mut self, alloc: Global, pair: Pair, triple: Triple) -> Result<(), NoRoom>
        requires table { IsTable self.old }
        requires pair { pair_of self.old.names triple.page triple.provider ≡ Some pair }
        requires absent { id_of self.old.kept self.old.pairs.entries pair triple.account ≡ None }
        ensures ok { OnOk result (triples_of self.new ≡ with_triple (triples_of self.old) triple) }
        ensures err { OnErr result (triples_of self.new ≡ triples_of self.old) }
        ensures table { IsTable self.new }
    {
        let id = self.next;
        let Some(next) = id.checked_add(1) else {
            return Err(NoRoom);
        };
        self.kept.insert_new(id, triple)?;
        match list(&mut self.pairs, alloc, &self.kept, pair, id) {
            Ok(()) => {
                self.next = next;
                Ok(())
            }
            Err(NoRoom) => {
                self.kept.remove(id);
                Err(NoRoom)
            }
        }
    }

    pub fn has(&self, page: &Origin, provider: &Origin, account: &Text) -> bool
        requires { IsTable self.now }
        ensures { result ≡ spec.has_triple (triples_of self.now) (triple_of page.now provider.now account.now) }
    {
        match self.names.pair(page, provider) {
            Some(pair) => find(&self.pairs, &self.kept, pair, account).is_some(),
            None => false,
        }
    }

    pub fn has_pair(&self, page: &Origin, provider: &Origin) -> bool
        requires { IsTable self.now }
        ensures { result ≡ spec.has_pair (triples_of self.now) page.now provider.now }
    {
        match self.names.pair(page, provider) {
            Some(pair) => has_some(&self.pairs, pair),
            None => false,
        }
    }

    pub fn remove(&mut self, page: &Origin, provider: &Origin, account: &Text)
        requires { IsTable self.old }
        ensures value { triples_of self.new ≡ without_triple (triples_of self.old) (triple_of page.now provider.now account.now) }
        ensures table { IsTable self.new }
    {
        let Some(pair) = self.names.pair(page, provider) else {
            return;
        };
        if let Some(id) = find(&self.pairs, &self.kept, pair, account) {
            unlist(&mut self.pairs, pair, account);
            self.kept.remove(id);
        }
    }

    pub fn remove_pair(&mut self, page: &Origin, provider: &Origin)
        requires { IsTable self.old }
        ensures value { triples_of self.new ≡ without_pair (triples_of self.old) page.now provider.now }
        ensures table { IsTable self.new }
    {
        let Some(pair) = self.names.pair(page, provider) else {
            return;
        };
        if let Some(accounts) = take(&mut self.pairs, pair) {
            remove_held(&mut self.kept, &accounts);
        }
    }

    pub fn len(&self) -> usize
        ensures { result ≡ length (triples_of self.now) }
    {
        self.kept.len()
    }

    pub fn item(&self, k: usize) -> Option<&Triple>
        ensures { option_copied result ≡ slice_get (triples_of self.now) k }
    {
        self.kept.item(k)
    }

    pub fn list(&self, alloc: Global) -> Result<Items<Triple>, NoRoom>
        ensures { IfOk result (λ list. list ≡ triples_of self.now) }
    {
        all_standing(alloc, self.kept.slots())
    }
}

// Removes the permissions that are held, and no other is looked at.
fn remove_held(kept: &mut Entries<u32, Triple>, accounts: &PairAccounts)
    ensures kept { kept.new ≡ without_ids (ids_held accounts.now) kept.old }
    ensures apart { AreApart accounts.now }
{
    match accounts {
        PairAccounts::Empty => {}
        PairAccounts::One(id) => kept.remove(*id),
        PairAccounts::Many(ids) => {
            // For the proof: the length says that no account stands twice.
            let _ = ids.len();
            remove_each(kept, ids);
        }
    }
}

// Removes the permissions under these ids.
fn remove_each(kept: &mut Entries<u32, Triple>, ids: &IndexMap<Text, u32>)
    ensures { kept.new ≡ without_ids (values_of ids.now.entries) kept.old }
{
    for (_, id) in ids.iter() {
        kept.remove(*id);
    }
}

// All permissions that stand, each copied.
fn all_standing(alloc: Global, slots: &[Slot<u32, Triple>]) -> Result<Items<Triple>, NoRoom>
    ensures { IfOk result (λ list. list ≡ values_of (entries_in slots.now)) }
{
    let mut list = Items::new(alloc);
    for slot in slots {
        if let Some((_, triple)) = slot {
            list.push(triple.copy(alloc)?)?;
        }
    }
    Ok(list)
}
