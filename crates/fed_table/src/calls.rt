//! Calls with their items, in lists by number.
ghost use Rattle.std.specs.Prelude.{◌≡◌, ◌<◌, ◌≤◌, ◌+◌, ◌++◌, [], ◌∷◌, nat_eq, length, true, false, Some, None, OnOk, OnErr, IfOk, IfErr};
ghost use Rattle.std.specs.Option.{option_copied};
ghost use Rattle.std.specs.Map.{lookup};
ghost use Rattle.fed_links.specs.Lists.{stands_in, total, list_at, with_last, all_without, first_of, after_among};
ghost use Rattle.fed_table.specs.Table.{item_of, has_call, present_item, lent_out, node_in, ChangesItem};
ghost use Rattle.fed_table.specs.Kept.{AreCallLists};

use crate::owners::{make_room, set_owner, waiting_calls};
use crate::place::{self, CallPlace, CallPlaces};
use fed_io::{Items, NoRoom, Steps};
use fed_links::Links;
use indexmap::IndexMap;
use std::alloc::Global;
use std::marker::Model;
use std::sync::ledger::Ledger;

/// Calls, each with its item, in page lists and waiting lists. Lists are numbered from 0.
pub struct Calls<C> {
    links: Links,
    /// The call of each node.
    owners: Vec<u32>,
    places: CallPlaces<C>,
}

// Written out, so that one function lets it go wherever it ends.
impl<C: Drop> Drop for Calls<C> {
    fn drop(self) {
        let Calls {
            links: _,
            owners: _,
            places: _,
        } = self;
    }
}

impl<C> Model for Calls<C> {
    ghost use Rattle.fed_table.specs.Kept.{CallLists, calls_shown, AreOwned};

    ghost Value = { CallLists C };

    ghost view = { λ s. calls_shown s.links s.owners.items s.places.entries };

    ghost invariant = { λ s. AreOwned s.links.pages s.links.free s.owners.items s.places.entries };
}

impl<C: Drop> Calls<C> {
    /// No call and no list. It takes no memory.
    pub fn new(alloc: Global) -> Calls<C>
        ensures pages { result.pages ≡ [] }
        ensures waits { result.waits ≡ [] }
        ensures items { result.items ≡ [] }
        ensures links { result.links ≡ record { pages = []; waits = []; free = []; spare = 0 } }
        ensures nodes { result.nodes ≡ [] }
    {
        Calls {
            links: Links::new(alloc),
            owners: Vec::new(alloc),
            places: IndexMap::new(alloc),
        }
    }

    /// What is so of all lists of calls. It does nothing, and takes no memory.
    pub fn are_calls(&self)
        ensures { AreCallLists self.now }
    {
        self.links.are_lists();
    }

    /// One page list more, which is empty, so that there are so many. On want of memory nothing changes.
    pub fn add_page_list(&mut self, count: u32) -> Result<(), NoRoom>
        requires { count ≡ length self.old.pages + 1 }
        ensures pages { OnOk result (self.new.pages ≡ self.old.pages ++ [] ∷ []) }
        ensures waits { self.new.waits ≡ self.old.waits }
        ensures items { self.new.items ≡ self.old.items }
        ensures nodes { self.new.nodes ≡ self.old.nodes }
        ensures err { OnErr result (self.new ≡ self.old) }
    {
        self.links.are_lists();
        self.links.reserve(0, count, 0)
    }

    /// One waiting list more, which is empty, so that there are so many. On want of memory nothing changes.
    pub fn add_waiting_list(&mut self, count: u32) -> Result<(), NoRoom>
        requires { count ≡ length self.old.waits + 1 }
        ensures pages { self.new.pages ≡ self.old.pages }
        ensures waits { OnOk result (self.new.waits ≡ self.old.waits ++ [] ∷ []) }
        ensures items { self.new.items ≡ self.old.items }
        ensures nodes { self.new.nodes ≡ self.old.nodes }
        ensures err { OnErr result (self.new ≡ self.old) }
    {
        self.links.are_lists();
        self.links.reserve(0, 0, count)
    }

    /// A call comes with its item to the end of a page list. On want of memory nothing changes, and the item comes back.
    pub fn add<L: Ledger>(
        &mut self,
        list: u32,
        call: u32,
        item: C,
        steps: &mut Steps<L>,
    ) -> Result<(), (NoRoom, C)>
        requires list { list < length self.old.pages }
        requires call { has_call self.old.items call ≡ false }
        requires few { total self.old.pages < 4294967295 }
        ensures pages { OnOk result (self.new.pages ≡ with_last list call self.old.pages) }
        ensures waits { self.new.waits ≡ self.old.waits }
        ensures items { OnOk result (ChangesItem call (Some (Some item)) self.old.items self.new.items) }
        ensures err { OnErr result (self.new ≡ self.old) }
        ensures item_returned { IfErr result (λ e. e.1 ≡ item) }
        ensures steps { steps.new ≤ steps.old + 10 }
    {
        match make_room(&mut self.links, &mut self.owners, &mut self.places) {
            Ok(()) => {
                self.links.are_lists();
                let node = self.links.add(list, steps);
                set_owner(&mut self.owners, node, call);
                let item = Some(item);
                place::put(&mut self.places, call, CallPlace { node, item });
                Ok(())
            }
            Err(NoRoom) => Err((NoRoom, item)),
        }
    }

    /// The present item of a call; `None` exactly where there is none. It takes no memory.
    pub fn get(&self, call: u32) -> Option<&C>
        ensures value { option_copied result ≡ present_item self.now.items call }
    {
        place::item(&self.places, call)
    }

    /// Hands the present item of a call out; `None` exactly where there is none. It takes no memory.
    pub fn lend(&mut self, call: u32) -> Option<C>
        ensures item { result ≡ present_item self.old.items call }
        ensures items { ChangesItem call (lent_out (item_of self.old.items call)) self.old.items self.new.items }
        ensures pages { self.new.pages ≡ self.old.pages }
        ensures waits { self.new.waits ≡ self.old.waits }
        ensures links { self.new.links ≡ self.old.links }
        ensures nodes { self.new.nodes ≡ self.old.nodes }
    {
        place::lend(&mut self.places, call)
    }

    /// Makes the item of a call present again, which was lent out. It takes no memory.
    pub fn give_back(&mut self, call: u32, item: C)
        requires { item_of self.old.items call ≡ Some None }
        ensures items { ChangesItem call (Some (Some item)) self.old.items self.new.items }
        ensures pages { self.new.pages ≡ self.old.pages }
        ensures waits { self.new.waits ≡ self.old.waits }
        ensures links { self.new.links ≡ self.old.links }
        ensures nodes { self.new.nodes ≡ self.old.nodes }
    {
        place::give_back(&mut self.places, call, item);
    }

    /// The first call of a page list. It takes no memory.
    pub fn first(&self, list: u32) -> Option<u32>
        requires { list < length self.now.pages }
        ensures { result ≡ first_of (list_at self.now.pages list) }
    {
        match self.links.first(list) {
            Some(node) => Some(self.owners[node as usize]),
            None => None,
        }
    }

    /// The call after a call in its page list; `None` where it stands in none, or is the last. It takes no memory.
    pub fn next(&self, call: u32) -> Option<u32>
        ensures { result ≡ after_among self.now.pages call }
    {
        let node = place::node(&self.places, call)?;
        let next = self.links.next(node)?;
        Some(self.owners[next as usize])
    }

    /// A call that does not wait yet comes to the end of a waiting list. It takes no memory.
    pub fn wait<L: Ledger>(&mut self, call: u32, list: u32, steps: &mut Steps<L>)
        requires call { has_call self.old.items call ≡ true }
        requires idle { stands_in call self.old.waits ≡ false }
        requires list { list < length self.old.waits }
        ensures pages { self.new.pages ≡ self.old.pages }
        ensures waits { self.new.waits ≡ with_last list call self.old.waits }
        ensures items { self.new.items ≡ self.old.items }
        ensures nodes { self.new.nodes ≡ self.old.nodes }
        ensures steps { steps.new ≤ steps.old + 5 }
    {
        self.links.are_lists();
        let Some(node) = place::node(&self.places, call) else {
            unreachable!()
        };
        self.links.wait(node, list, steps);
    }

    /// A call that waits does so no longer. It takes no memory.
    pub fn unwait<L: Ledger>(&mut self, call: u32, steps: &mut Steps<L>)
        requires { stands_in call self.old.waits ≡ true }
        ensures pages { self.new.pages ≡ self.old.pages }
        ensures waits { self.new.waits ≡ all_without call self.old.waits }
        ensures items { self.new.items ≡ self.old.items }
        ensures nodes { self.new.nodes ≡ self.old.nodes }
        ensures steps { steps.new ≤ steps.old + 6 }
    {
        self.links.are_lists();
        let Some(node) = place::node(&self.places, call) else {
            unreachable!()
        };
        self.links.unwait(node, steps);
    }

    /// The first call of a waiting list. It takes no memory.
    pub fn first_waiting(&self, list: u32) -> Option<u32>
        requires { list < length self.now.waits }
        ensures { result ≡ first_of (list_at self.now.waits list) }
    {
        self.links.are_lists();
        match self.links.first_waiting(list) {
            Some(node) => Some(self.owners[node as usize]),
            None => None,
        }
    }

    /// The call after a call that waits, in its waiting list; `None` exactly where it is the last. It takes no memory.
    pub fn next_waiting(&self, call: u32) -> Option<u32>
        requires { stands_in call self.now.waits ≡ true }
        ensures { result ≡ after_among self.now.waits call }
    {
        self.links.are_lists();
        let node = place::node(&self.places, call)?;
        let next = self.links.next_waiting(node)?;
        Some(self.owners[next as usize])
    }

    /// The calls of a waiting list, in their order.
    pub fn waiting(&self, alloc: Global, list: u32) -> Result<Items<u32>, NoRoom>
        requires { list < length self.now.waits }
        ensures { IfOk result (λ calls. calls ≡ list_at self.now.waits list) }
    {
        self.links.are_lists();
        waiting_calls(&self.links, &self.owners, alloc, list)
    }

    /// A call leaves its lists, and its item is handed out; `None` exactly where it was lent out or the call was not there. It
    /// takes no memory.
    pub fn drop_call<L: Ledger>(&mut self, call: u32, steps: &mut Steps<L>) -> Option<C>
        ensures item { result ≡ present_item self.old.items call }
        ensures pages { self.new.pages ≡ all_without call self.old.pages }
        ensures waits { self.new.waits ≡ all_without call self.old.waits }
        ensures items { ChangesItem call None self.old.items self.new.items }
        ensures steps { steps.new ≤ steps.old + 16 }
    {
        self.links.are_lists();
        let Some(place) = place::take(&mut self.places, call) else {
            return None;
        };
        self.links.remove(place.node, steps);
        place.item
    }

    /// The linked lists. It takes no memory.
    pub fn links(&self) -> &Links
        ensures { result.now ≡ self.now.links }
    {
        &self.links
    }

    /// The node of a call. It takes no memory.
    pub fn node_of(&self, call: u32) -> Option<u32>
        ensures { result ≡ node_in self.now.nodes call }
    {
        place::node(&self.places, call)
    }
}
