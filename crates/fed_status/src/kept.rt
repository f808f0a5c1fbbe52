//! Kept permissions.
ghost use Rattle.std.specs.Prelude.{◌≡◌, [], length, slice_get, IfOk, OnOk, OnErr};
ghost use Rattle.std.specs.Option.{option_copied};
ghost use Rattle.fed_status.specs.Kept as spec;
ghost use Rattle.fed_status.specs.Kept.{triple_of, with_triple, without_triple, but_triple, without_pair, triples_of_pair, without_each};

use crate::table::Table;
use fed_io::{Items, NoRoom, Text};
use fed_origin::{Origin, Triple};
use std::alloc::Global;
use std::marker::Model;

/// The kept permissions (FedCM, "connected accounts set"). Contracts see them as a list in order of entering. That
/// none stands twice is a fact of the type; each call that only looks gives it.
pub struct KeptSet {
    table: Table,
    alloc: Global,
}

// Written out, so that one function lets it go wherever it ends.
impl Drop for KeptSet {
    fn drop(self) {
        let KeptSet { table: _, alloc: _ } = self;
    }
}

impl Model for KeptSet {
    ghost use Rattle.std.specs.Prelude.{List};
    ghost use Rattle.fed_origin.specs.declared.status.Triple.{Triple};

    ghost Value = { List Triple };

    ghost use Rattle.fed_status.specs.Table.{IsTable, triples_of};

    ghost view = { λ k. triples_of k.table };

    ghost invariant = { λ k. IsTable k.table };
}

impl KeptSet {
    /// No permission. It takes no memory.
    pub fn new(alloc: Global) -> KeptSet
        ensures { result ≡ [] }
    {
        KeptSet {
            table: Table::new(alloc),
            alloc,
        }
    }

    /// Adds a permission. One that is there keeps its place, and a new one goes last. On want of memory the permissions are
    /// unchanged.
    pub fn add(&mut self, triple: Triple) -> Result<(), NoRoom>
        ensures ok { OnOk result (self.new ≡ with_triple self.old triple) }
        ensures err { OnErr result (self.new ≡ self.old) }

        // All other permissions are as they were, in their order.
        ensures others { but_triple triple self.new ≡ but_triple triple self.old }
    {
        self.table.add(self.alloc, triple)
    }

    /// Whether the permission is kept. It takes no memory.
    pub fn has(&self, page: &Origin, provider: &Origin, account: &Text) -> bool
        ensures value { result ≡ spec.has_triple self.now (triple_of page.now provider.now account.now) }
        ensures distinct { spec.HasDistinctTriples self.now }
    {
        self.table.has(page, provider, account)
    }

    /// Whether some permission for pages of an origin and a provider is kept. It takes no memory.
    pub fn has_pair(&self, page: &Origin, provider: &Origin) -> bool
        ensures value { result ≡ spec.has_pair self.now page.now provider.now }
        ensures distinct { spec.HasDistinctTriples self.now }
    {
        self.table.has_pair(page, provider)
    }

    /// Removes a permission, where it is kept; the others keep their order. It takes no memory.
    pub fn remove(&mut self, page: &Origin, provider: &Origin, account: &Text)
        ensures value { self.new ≡ without_triple self.old (triple_of page.now provider.now account.now) }

        // All other permissions are as they were, in their order.
        ensures others { but_triple (triple_of page.now provider.now account.now) self.new
            ≡ but_triple (triple_of page.now provider.now account.now) self.old }
    {
        self.table.remove(page, provider, account);
    }

    /// Removes all permissions for pages of an origin and a provider; the others keep their order. It takes no memory.
    pub fn remove_pair(&mut self, page: &Origin, provider: &Origin)
        ensures value { self.new ≡ without_pair self.old page.now provider.now }

        // Each permission of the pair goes, one after the other.
        ensures each { self.new ≡ without_each self.old (triples_of_pair self.old page.now provider.now) }
    {
        self.table.remove_pair(page, provider);
    }

    /// How many permissions are kept. It takes no memory.
    pub fn len(&self) -> usize
        ensures value { result ≡ length self.now }
        ensures distinct { spec.HasDistinctTriples self.now }
    {
        self.table.len()
    }

    /// The permission at place `k` from 0 in order of entering; `None` exactly where `k` is at least `len`. It takes no
    /// memory.
    pub fn item(&self, k: usize) -> Option<&Triple>
        ensures value { option_copied result ≡ slice_get self.now k }
        ensures distinct { spec.HasDistinctTriples self.now }
    {
        self.table.item(k)
    }

    /// The permissions in order of entering, each copied.
    pub fn list(&self, alloc: Global) -> Result<Items<Triple>, NoRoom>
        ensures { IfOk result (λ list. list ≡ self.now) }
    {
        self.table.list(alloc)
    }
}
