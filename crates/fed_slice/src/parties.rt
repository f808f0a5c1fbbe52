//! Parties that page numbers link.
ghost use Rattle.std.specs.Prelude.{◌≡◌, ◌<◌, ◌++◌, ◌∷◌, [], false, bytes_eq, length, slice_index_or, IfOk, OnOk, OnErr, IfSome, IfNone};
ghost use Rattle.std.specs.Prelude.{if◌then◌else◌};
ghost use Rattle.std.specs.List.{list_any, IsDistinct};
ghost use Rattle.fed_slice.specs.Linked.{LinksMore, Enters, StandsAt, Tells, TellsParties, texts, chosen, is_number};
ghost use Rattle.fed_slice.specs.Linked.{page_named, pairs_at, pairs_named, pairs_of, provider_pairs};

use crate::sets::{join, root_of, set_of};
use fed_io::{Bytes, NoRoom};
use fed_origin::ProviderOptions;
use fed_script::{Event, Numbered};
use fed_suffix::Suffixes;
use indexmap::{IndexMap, IndexSet};
use std::alloc::Global;
use std::marker::Model;

/// Parties, those joined that are of one page number.
pub(crate) struct Parties {
    /// The parties in the order of their first naming.
    names: IndexSet<Vec<u8>>,
    /// Of each, one of its set that is no later.
    parents: Vec<u32>,
    /// Of each page number, its first party.
    anchors: IndexMap<u32, u32>,
}

impl Drop for Parties {
    fn drop(self) {
        let Parties {
            names: _,
            parents: _,
            anchors: _,
        } = self;
    }
}

impl Model for Parties {
    ghost use Rattle.std.specs.Prelude.{map};
    ghost use Rattle.fed_slice.specs.Linked.{Links, AreLinks};

    ghost Value = { Links };

    ghost view = { λ p. record { names = map (λ name. name.items) p.names.keys; parents = p.parents.items; anchors = p.anchors.entries } };

    ghost invariant = { λ p. AreLinks (record { names = map (λ name. name.items) p.names.keys; parents = p.parents.items; anchors = p.anchors.entries }) };
}

// The number of a party that was named.
fn place_of(names: &IndexSet<Vec<u8>>, name: &[u8]) -> Option<u32>
    requires { length names.now.keys < 4294967296 }
    ensures found { IfSome result (λ place. StandsAt (texts names.now.keys) name.now place) }
    ensures none { IfNone result (list_any (bytes_eq name.now) (texts names.now.keys) ≡ false) }
{
    match names.get_index_of(name) {
        Some(place) => Some(place as u32),
        None => None,
    }
}

// A party that is named for the first time.
fn put(names: &mut IndexSet<Vec<u8>>, alloc: Global, name: &[u8]) -> Result<(), NoRoom>
    requires { list_any (bytes_eq name.now) (texts names.old.keys) ≡ false }
    ensures ok { OnOk result (texts names.new.keys ≡ texts names.old.keys ++ name.now ∷ []) }
    ensures err { OnErr result (names.new.keys ≡ names.old.keys) }
{
    let copy = name.to_vec(alloc)?;
    names.insert(copy)?;
    Ok(())
}

// No name stands twice.
fn are_names(names: &IndexSet<Vec<u8>>)
    ensures { IsDistinct bytes_eq (texts names.now.keys) }
{
    let _ = names.len();
}

// Whether this is told of a place.
fn is_told(told: &[bool], place: usize) -> bool
    ensures { result ≡ slice_index_or told.now place false }
{
    match told.get(place) {
        Some(inside) => *inside,
        None => false,
    }
}

// Puts a copy of a text last, where it is told of it.
fn put_told(alloc: Global, copies: &mut Vec<Bytes>, inside: bool, name: &[u8]) -> Result<(), NoRoom>
    ensures { OnOk result (copies.new.items ≡ copies.old.items ++ (if inside then name.now ∷ [] else [])) }
{
    if !inside {
        return Ok(());
    }
    let copy = Bytes::of(alloc, name)?;
    copies.push(copy)?;
    Ok(())
}

// Copies of the texts of which this is told.
fn copies_of(alloc: Global, names: &[Vec<u8>], told: &[bool]) -> Result<Vec<Bytes>, NoRoom>
    ensures { IfOk result (λ copies. copies.items ≡ chosen (texts names.now) told.now) }
{
    let mut copies: Vec<Bytes> = Vec::new(alloc);
    let mut place: usize = 0;
    while place < names.len() {
        let name = names[place].as_slice();
        put_told(alloc, &mut copies, is_told(told, place), name)?;
        place += 1;
    }
    Ok(copies)
}

// The page number that an event names with hosts.
fn page_of(event: &Event) -> Option<u32>
    ensures { result ≡ page_named event.now }
{
    match event {
        Event::Load { page, .. } => Some(*page),
        Event::Get { page, .. } => Some(*page),
        Event::Disconnect { page, .. } => Some(*page),
        _ => None,
    }
}

impl Parties {
    /// None. It takes no memory.
    pub(crate) fn new(alloc: Global) -> Parties
        ensures { result ≡ record { names = []; parents = []; anchors = [] } }
    {
        Parties {
            names: IndexSet::new(alloc),
            parents: Vec::new(alloc),
            anchors: IndexMap::new(alloc),
        }
    }

    // The number of a party, which is entered where it is new.
    fn enter(&mut self, alloc: Global, name: &[u8]) -> Result<u32, NoRoom>
        ensures { IfOk result (λ id. Enters self.old self.new name.now id) }
    {
        if let Some(number) = place_of(&self.names, name) {
            return Ok(number);
        }
        if self.parents.len() >= u32::MAX as usize {
            return Err(NoRoom);
        }
        let number = self.parents.len() as u32;
        self.parents.reserve(1)?;
        put(&mut self.names, alloc, name)?;
        self.parents.push_reserved(number);
        Ok(number)
    }

    // A party of a page number, whose parties are joined.
    fn link(&mut self, alloc: Global, page: u32, name: &[u8]) -> Result<(), NoRoom>
        ensures { OnOk result (LinksMore ((page, name.now) ∷ []) self.old self.new) }
    {
        let number = self.enter(alloc, name)?;
        match self.anchors.get(&page) {
            Some(first) => {
                join(&mut self.parents, *first, number);
            }
            None => {
                self.anchors.insert(page, number)?;
            }
        }
        Ok(())
    }

    // The providers of a get of a page number.
    fn link_each(
        &mut self,
        alloc: Global,
        rules: &Suffixes,
        page: u32,
        providers: &[ProviderOptions],
    ) -> Result<(), NoRoom>
        ensures { OnOk result (LinksMore (provider_pairs rules.now page providers.now) self.old self.new) }
    {
        for provider in providers {
            self.link(alloc, page, rules.party(provider.config.host()))?;
        }
        Ok(())
    }

    // The hosts of an event.
    fn link_event(&mut self, alloc: Global, rules: &Suffixes, event: &Event) -> Result<(), NoRoom>
        ensures { OnOk result (LinksMore (pairs_at rules.now event.now (page_named event.now)) self.old self.new) }
    {
        match event {
            Event::Load { page, url, .. } => self.link(alloc, *page, rules.party(url.host())),
            Event::Get { page, options, .. } => {
                self.link_each(alloc, rules, *page, options.providers.as_slice())
            }
            Event::Disconnect { page, config, .. } => {
                self.link(alloc, *page, rules.party(config.host()))
            }
            _ => Ok(()),
        }
    }

    // The same where its page number is loaded.
    fn link_where(
        &mut self,
        alloc: Global,
        rules: &Suffixes,
        loaded: &IndexSet<u32>,
        event: &Event,
    ) -> Result<(), NoRoom>
        ensures { OnOk result
            (LinksMore (pairs_named rules.now (is_number loaded.now.keys) event.now (page_named event.now)) self.old self.new) }
    {
        match page_of(event) {
            Some(page) => {
                if loaded.contains(&page) {
                    self.link_event(alloc, rules, event)
                } else {
                    Ok(())
                }
            }
            None => Ok(()),
        }
    }

    /// The parties of the page numbers that are loaded.
    pub(crate) fn link_all(
        &mut self,
        alloc: Global,
        rules: &Suffixes,
        loaded: &IndexSet<u32>,
        events: &[Numbered],
    ) -> Result<(), NoRoom>
        ensures { OnOk result (LinksMore (pairs_of rules.now (is_number loaded.now.keys) events.now) self.old self.new) }
    {
        for numbered in events {
            self.link_where(alloc, rules, loaded, &numbered.event)?;
        }
        Ok(())
    }

    // Of each party whether it is in the least closed set of this one.
    fn told(&mut self, alloc: Global, name: &[u8]) -> Result<Vec<bool>, NoRoom>
        ensures { IfOk result (λ told. Tells self.old self.new name.now told.items) }
    {
        let number = self.enter(alloc, name)?;
        are_names(&self.names);
        let root = root_of(&mut self.parents, number);
        set_of(alloc, self.parents.as_slice(), root)
    }
    // Copies of the names of which this is told.
    fn copy_told(&self, alloc: Global, told: &[bool]) -> Result<Vec<Bytes>, NoRoom>
        ensures names { IfOk result (λ parties. parties.items ≡ chosen self.now.names told.now) }
        ensures distinct { IsDistinct bytes_eq self.now.names }
    {
        are_names(&self.names);
        copies_of(alloc, self.names.as_slice(), told)
    }

    /// The least closed set that has this party, in the order of first naming.
    pub(crate) fn closed_with(&mut self, alloc: Global, name: &[u8]) -> Result<Vec<Bytes>, NoRoom>
        ensures { IfOk result (λ parties. TellsParties self.old name.now parties.items) }
    {
        let told = self.told(alloc, name)?;
        let parties = self.copy_told(alloc, told.as_slice())?;
        Ok(parties)
    }
}
