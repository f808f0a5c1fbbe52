//! Parties as a set.
ghost use Rattle.std.specs.Prelude.{◌≡◌, ◌&&◌, map, IfOk, OnOk};
ghost use Rattle.std.specs.List.{list_all};
ghost use Rattle.fed_origin.specs.WebUrl.{host_of};
ghost use Rattle.fed_slice.specs.Closure.{is_among};
ghost use Rattle.fed_slice.specs.Gather.{AddsParty, SameMembers};
ghost use Rattle.fed_slice.specs.Linked.{texts as texts_in};

use fed_io::{Bytes, NoRoom};
use fed_origin::{Host, ProviderOptions};
use fed_suffix::Suffixes;
use indexmap::IndexSet;
use std::alloc::Global;
use std::marker::Model;

/// Parties. Contracts see them as a list of their texts.
#[derive(Drop)]
pub(crate) struct PartySet {
    parties: IndexSet<Vec<u8>>,
}

impl Model for PartySet {
    ghost use Rattle.std.specs.Prelude.{ℕ, List, map};

    ghost Value = { List (List ℕ) };

    ghost view = { λ p. map (λ party. party.items) p.parties.keys };
}

// Puts a party into the texts. One that is there already is not copied.
fn put_party(alloc: Global, texts: &mut IndexSet<Vec<u8>>, party: &[u8]) -> Result<(), NoRoom>
    ensures { OnOk result (AddsParty party.now (texts_in texts.old.keys) (texts_in texts.new.keys)) }
{
    if texts.contains(party) {
        return Ok(());
    }
    let copy = party.to_vec(alloc)?;
    texts.insert(copy)?;
    Ok(())
}

// The texts of these parties.
fn texts_of(alloc: Global, parties: &[Bytes]) -> Result<IndexSet<Vec<u8>>, NoRoom>
    ensures { IfOk result (λ texts. SameMembers (texts_in texts.keys) parties.now) }
{
    let mut texts: IndexSet<Vec<u8>> = IndexSet::new(alloc);
    for party in parties {
        put_party(alloc, &mut texts, party.as_slice())?;
    }
    Ok(texts)
}

impl PartySet {
    /// These parties.
    pub(crate) fn of(alloc: Global, parties: &[Bytes]) -> Result<PartySet, NoRoom>
        ensures { IfOk result (λ set. SameMembers set parties.now) }
    {
        let parties = texts_of(alloc, parties)?;
        Ok(PartySet { parties })
    }

    /// Whether the party of the host is one of them. It takes no memory.
    pub(crate) fn has(&self, rules: &Suffixes, host: &Host) -> bool
        ensures { result ≡ is_among rules.now self.now host.now }
    {
        self.parties.contains(rules.party(host))
    }
}

// Whether both are so.
fn both(a: bool, b: bool) -> bool
    ensures { result ≡ (a && b) }
{
    a && b
}

/// Whether the parties of all configuration URLs of a get are among these. It takes no memory.
pub(crate) fn has_each(parties: &PartySet, rules: &Suffixes, providers: &[ProviderOptions]) -> bool
    ensures { result ≡ list_all (is_among rules.now parties.now) (map (λ o. host_of o.config) providers.now) }
{
    let mut all = true;
    for provider in providers {
        all = both(all, parties.has(rules, provider.config.host()));
    }
    all
}
