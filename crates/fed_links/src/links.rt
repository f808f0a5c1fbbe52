//! Nodes in page lists and waiting lists.
ghost use Rattle.std.specs.Prelude.{◌≡◌, ◌+◌, ◌<◌, ◌≤◌, [], ◌∷◌, ◌-◌, ◌^◌, true, false, cond, length, OnOk, OnErr};
ghost use Rattle.fed_links.specs.Lists.{stands_in, total, list_at, with_last, all_without, with_empty, with_free, first_of};
ghost use Rattle.fed_links.specs.Lists.{after_among, before_among, AreLinkLists};

use crate::node::{Ends, LinkNode, Slot};
use crate::writes::{
    add_lists, add_nodes, join, leave, make_room, put_last, put_last_waiting, tick_node,
};
use fed_io::{NoRoom, Steps};
use std::alloc::Global;
use std::marker::Model;
use std::sync::ledger::Ledger;

/// Nodes, of which each stands in one page list or is free, and in one waiting list at most. Lists are numbered from 0.
pub struct Links {
    slots: Vec<Slot>,
    pages: Vec<Ends>,
    origins: Vec<Ends>,
    /// The first free node.
    free: Option<u32>,
    /// How many nodes are free.
    spare: u32,
}

// Written out, so that one function lets it go wherever it ends.
impl Drop for Links {
    fn drop(self) {
        let Links {
            slots: _,
            pages: _,
            origins: _,
            free: _,
            spare: _,
        } = self;
    }
}

impl Model for Links {
    ghost use Rattle.fed_links.specs.Lists.{LinkLists};
    ghost use Rattle.fed_links.specs.Threads.{shown, AreTied};

    ghost Value = { LinkLists };

    ghost view = { λ s. shown s.slots.items s.pages.items s.origins.items s.free s.spare };

    ghost invariant = { λ s. AreTied s.slots.items s.pages.items s.origins.items s.free s.spare
        (shown s.slots.items s.pages.items s.origins.items s.free s.spare) };
}

impl Links {
    /// No node and no list. It takes no memory.
    pub fn new(alloc: Global) -> Links
        ensures { result ≡ record { pages = []; waits = []; free = []; spare = 0 } }
    {
        Links {
            slots: Vec::new(alloc),
            pages: Vec::new(alloc),
            origins: Vec::new(alloc),
            free: None,
            spare: 0,
        }
    }

    /// What is so of all linked lists. It does nothing, and takes no memory.
    pub fn are_lists(&self)
        ensures { AreLinkLists self.now }
    {
        let _ = &self.slots;
    }

    /// Afterwards at least `nodes` nodes can be added without memory, and there are at least `pages` page lists and `origins`
    /// waiting lists; the new ones are empty. On want of memory nothing changes.
    pub fn reserve(&mut self, nodes: u32, pages: u32, origins: u32) -> Result<(), NoRoom>
        requires { total self.old.pages + nodes < 2 ^ 32 }
        ensures pages { OnOk result (self.new.pages ≡ with_empty pages self.old.pages) }
        ensures waits { OnOk result (self.new.waits ≡ with_empty origins self.old.waits) }
        ensures free { OnOk result (self.new.free
            ≡ with_free (nodes - self.old.spare) (total self.old.pages + length self.old.free) self.old.free) }
        ensures spare { OnOk result (self.new.spare ≡ self.old.spare + (nodes - self.old.spare)) }
        ensures err { OnErr result (self.new ≡ self.old) }
    {
        let more_nodes = nodes.saturating_sub(self.spare);
        let more_pages = (pages as usize).saturating_sub(self.pages.len());
        let more_origins = (origins as usize).saturating_sub(self.origins.len());
        make_room(
            &mut self.slots,
            &mut self.pages,
            &mut self.origins,
            more_nodes as usize,
            more_pages,
            more_origins,
        )?;
        add_nodes(&mut self.slots, &mut self.free, more_nodes);
        self.spare += more_nodes;
        add_lists(&mut self.pages, more_pages);
        add_lists(&mut self.origins, more_origins);
        Ok(())
    }

    /// A free node comes to the end of a page list, and is answered. It takes no memory.
    pub fn add<L: Ledger>(&mut self, page: u32, steps: &mut Steps<L>) -> u32
        requires spare { 0 < self.old.spare }
        requires page { page < length self.old.pages }
        ensures pages { self.new.pages ≡ with_last page result self.old.pages }
        ensures waits { self.new.waits ≡ self.old.waits }
        ensures free { self.old.free ≡ result ∷ self.new.free }
        ensures spare { self.new.spare ≡ self.old.spare - 1 }
        ensures counted { steps.new ≡ steps.old + 10 }
        ensures steps { steps.new ≤ steps.old + 16 }
    {
        steps.tick();
        let Some(node) = self.free else {
            unreachable!()
        };
        steps.tick();
        let next = self.slots[node as usize].node.after;
        let ends = &mut self.pages[page as usize];
        put_last(&mut self.slots, ends, page, node, steps);
        steps.tick();
        self.free = next;
        self.spare -= 1;
        node
    }

    /// A node that waits nowhere comes to the end of a waiting list. It takes no memory.
    pub fn wait<L: Ledger>(&mut self, node: u32, origin: u32, steps: &mut Steps<L>)
        requires node { stands_in node self.old.pages ≡ true }
        requires idle { stands_in node self.old.waits ≡ false }
        requires origin { origin < length self.old.waits }
        ensures waits { self.new.waits ≡ with_last origin node self.old.waits }
        ensures pages { self.new.pages ≡ self.old.pages }
        ensures free { self.new.free ≡ self.old.free }
        ensures spare { self.new.spare ≡ self.old.spare }
        ensures counted { steps.new ≡ steps.old + 5 }
        ensures steps { steps.new ≤ steps.old + 16 }
    {
        let ends = &mut self.origins[origin as usize];
        put_last_waiting(&mut self.slots, ends, origin, node, steps);
    }

    /// A node leaves its waiting list. It takes no memory.
    pub fn unwait<L: Ledger>(&mut self, node: u32, steps: &mut Steps<L>)
        requires { stands_in node self.old.waits ≡ true }
        ensures waits { self.new.waits ≡ all_without node self.old.waits }
        ensures pages { self.new.pages ≡ self.old.pages }
        ensures free { self.new.free ≡ self.old.free }
        ensures spare { self.new.spare ≡ self.old.spare }
        ensures counted { steps.new ≡ steps.old + 6 }
        ensures steps { steps.new ≤ steps.old + 16 }
    {
        let Some(origin) = self.slots[node as usize].origin else {
            unreachable!()
        };
        let ends = &mut self.origins[origin as usize];
        leave(&mut self.slots, ends, node, steps);
    }

    // A node leaves its waiting list, if it stands in one.
    fn forget<L: Ledger>(&mut self, node: u32, steps: &mut Steps<L>)
        requires { stands_in node self.old.pages ≡ true }
        ensures waits { self.new.waits ≡ all_without node self.old.waits }
        ensures idle { stands_in node self.new.waits ≡ false }
        ensures pages { self.new.pages ≡ self.old.pages }
        ensures free { self.new.free ≡ self.old.free }
        ensures spare { self.new.spare ≡ self.old.spare }
        ensures counted { steps.new ≡ steps.old + cond (stands_in node self.old.waits) 6 0 }
        ensures steps { steps.new ≤ steps.old + 6 }
    {
        let Some(_) = self.slots[node as usize].origin else {
            return;
        };
        self.unwait(node, steps);
    }

    /// A node leaves both its lists and becomes free. It takes no memory.
    pub fn remove<L: Ledger>(&mut self, node: u32, steps: &mut Steps<L>)
        requires { stands_in node self.old.pages ≡ true }
        ensures pages { self.new.pages ≡ all_without node self.old.pages }
        ensures waits { self.new.waits ≡ all_without node self.old.waits }
        ensures free { self.new.free ≡ node ∷ self.old.free }
        ensures spare { self.new.spare ≡ self.old.spare + 1 }
        ensures counted { steps.new ≡ steps.old + (cond (stands_in node self.old.waits) 6 0 + 10) }
        ensures steps { steps.new ≤ steps.old + 16 }
    {
        self.forget(node, steps);
        let Some(page) = self.slots[node as usize].page else {
            unreachable!()
        };
        let ends = &mut self.pages[page as usize];
        join(&mut self.slots, ends, node, steps);
        steps.tick();
        let links = LinkNode {
            before: None,
            after: self.free,
            wait_before: None,
            wait_after: None,
        };
        tick_node(steps);
        self.slots[node as usize] = Slot {
            node: links,
            page: None,
            origin: None,
        };
        steps.tick();
        self.free = Some(node);
        self.spare += 1;
    }

    /// The first node of a page list; `None` exactly where it is empty. It takes no memory.
    pub fn first(&self, page: u32) -> Option<u32>
        requires { page < length self.now.pages }
        ensures { result ≡ first_of (list_at self.now.pages page) }
    {
        self.pages[page as usize].first
    }

    /// The node after a node in its page list; `None` exactly where it is the last. It takes no memory.
    pub fn next(&self, node: u32) -> Option<u32>
        requires { stands_in node self.now.pages ≡ true }
        ensures { result ≡ after_among self.now.pages node }
    {
        self.slots[node as usize].node.after
    }

    /// The first node of a waiting list; `None` exactly where it is empty. It takes no memory.
    pub fn first_waiting(&self, origin: u32) -> Option<u32>
        requires { origin < length self.now.waits }
        ensures { result ≡ first_of (list_at self.now.waits origin) }
    {
        self.origins[origin as usize].first
    }

    /// The node after a node in its waiting list; `None` exactly where it is the last. It takes no memory.
    pub fn next_waiting(&self, node: u32) -> Option<u32>
        requires { stands_in node self.now.waits ≡ true }
        ensures { result ≡ after_among self.now.waits node }
    {
        self.slots[node as usize].node.wait_after
    }

    /// What is stored for a node that stands in a page list: its neighbours there, and its neighbours in its waiting list, where
    /// there are none if it waits nowhere. It takes no memory.
    pub fn node(&self, node: u32) -> &LinkNode
        requires { stands_in node self.now.pages ≡ true }
        ensures before { result.now.before ≡ before_among self.now.pages node }
        ensures after { result.now.after ≡ after_among self.now.pages node }
        ensures wait_before { result.now.wait_before ≡ before_among self.now.waits node }
        ensures wait_after { result.now.wait_after ≡ after_among self.now.waits node }
    {
        &self.slots[node as usize].node
    }
}
