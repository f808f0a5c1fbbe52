//! The table of pages and pending calls.
ghost use Rattle.std.specs.Prelude.{◌≡◌, ◌<◌, ◌≤◌, ◌+◌, ◌*◌, ◌++◌, [], ◌∷◌, nat_eq, length, true, position};
ghost use Rattle.std.specs.Prelude.{false, Some, None, slice_get, OnOk, OnErr, IfOk, IfErr};
ghost use Rattle.std.specs.List.{list_any};
ghost use Rattle.std.specs.Map.{keys_of};
ghost use Rattle.std.specs.Option.{option_copied};
ghost use Rattle.fed_origin.specs.Origin.{same_origin};
ghost use Rattle.fed_table.specs.Lists.{all_without, all_without_calls, stands_in, next_in, with_key, with_last, emptied, total};
ghost use Rattle.fed_table.specs.Table.{has_page, page_calls, waiting_for, item_of, has_call, present_item, lent_out, node_in};
ghost use Rattle.fed_table.specs.Table.{ChangesItem, LosesItems, IsCallTable};

use crate::calls::Calls;
use crate::keys::{page_place, place_of, put};
use fed_io::{Items, NoRoom, Steps};
use fed_links::Links;
use fed_numbers::Numbers;
use fed_origin::Origin;
use indexmap::IndexSet;
use std::alloc::Global;
use std::marker::Model;
use std::sync::ledger::Ledger;

/// Pages in order of first opening, each with its pending calls; provider origins, each with the calls that wait for it; and
/// an item for each call, which is present or lent out.
pub struct Table<C> {
    /// The place of a page is the number of its list.
    pages: Numbers,
    /// The place of an origin is the number of its list.
    origins: IndexSet<Origin>,
    calls: Calls<C>,
    alloc: Global,
}

// Written out, so that one function lets it go wherever it ends.
impl<C: Drop> Drop for Table<C> {
    fn drop(self) {
        let Table {
            pages: _,
            origins: _,
            calls: _,
            alloc: _,
        } = self;
    }
}

impl<C> Model for Table<C> {
    ghost use Rattle.fed_table.specs.Table.{TableParts};

    ghost Value = { TableParts C };

    ghost use Rattle.fed_table.specs.Kept.{AreListed, table_shown};

    ghost view = { λ t. table_shown t.pages t.origins.keys t.calls };

    ghost invariant = { λ t. AreListed t.pages t.origins.keys t.calls };
}

impl<C: Drop> Table<C> {
    /// No page and no call. It takes no memory.
    pub fn new(alloc: Global) -> Table<C>
        ensures { result ≡ record {
          pages = [];
          waits = [];
          items = [];
          links = record { pages = []; waits = []; free = []; spare = 0 };
          nodes = [];
        } }
    {
        Table {
            pages: Numbers::new(alloc),
            origins: IndexSet::new(alloc),
            calls: Calls::new(alloc),
            alloc,
        }
    }

    /// What is so of each table. It does nothing, and takes no memory.
    pub fn are_lists(&self)
        ensures { IsCallTable self.now }
    {
        self.calls.are_calls();
        let _ = self.pages.len();
        let _ = self.origins.len();
    }

    /// Adds a page. One that was added before keeps its place and its calls; a new one goes last, with no calls. On want of
    /// memory nothing changes.
    pub fn add_page(&mut self, page: u32) -> Result<(), NoRoom>
        requires { length self.old.pages < 4294967295 }
        ensures pages { OnOk result (self.new.pages ≡ with_key nat_eq page self.old.pages) }
        ensures waits { self.new.waits ≡ self.old.waits }
        ensures items { self.new.items ≡ self.old.items }
        ensures nodes { self.new.nodes ≡ self.old.nodes }
        ensures err { OnErr result (self.new ≡ self.old) }
    {
        match page_place(&self.pages, page) {
            Some(_) => Ok(()),
            None => enter_page(&mut self.pages, &mut self.calls, page),
        }
    }

    /// Adds a call with its item, last in the list of its page. On want of memory nothing changes, and the item comes back.
    pub fn add<L: Ledger>(
        &mut self,
        page: u32,
        call: u32,
        item: C,
        steps: &mut Steps<L>,
    ) -> Result<(), (NoRoom, C)>
        requires page { has_page self.old.pages page ≡ true }
        requires call { has_call self.old.items call ≡ false }
        requires few { total self.old.pages < 4294967295 }

        // The call is the last of its page, and its item is there.
        ensures pages { OnOk result (self.new.pages ≡ with_last nat_eq page call self.old.pages) }
        ensures waits { self.new.waits ≡ self.old.waits }
        ensures items { OnOk result (ChangesItem call (Some (Some item)) self.old.items self.new.items) }

        // Or nothing changes.
        ensures err { OnErr result (self.new ≡ self.old) }
        ensures item_returned { IfErr result (λ e. e.1 ≡ item) }

        ensures steps { steps.new ≤ steps.old + 20 }
    {
        let Some(list) = page_place(&self.pages, page) else {
            return Err((NoRoom, item));
        };
        self.calls.add(list, call, item, steps)
    }

    /// The present item of a call; `None` exactly where there is none. It takes no memory.
    pub fn get(&self, call: u32) -> Option<&C>
        ensures value { option_copied result ≡ present_item self.now.items call }
    {
        self.calls.get(call)
    }

    /// Hands the present item of a call out; `None` exactly where there is none. It takes no memory.
    pub fn lend(&mut self, call: u32) -> Option<C>
        ensures item { result ≡ present_item self.old.items call }
        ensures items { ChangesItem call (lent_out (item_of self.old.items call)) self.old.items self.new.items }
        ensures pages { self.new.pages ≡ self.old.pages }
        ensures waits { self.new.waits ≡ self.old.waits }
        ensures links { self.new.links ≡ self.old.links }
        ensures nodes { self.new.nodes ≡ self.old.nodes }
    {
        self.calls.lend(call)
    }

    /// Makes the item of a call present again, which was lent out. It takes no memory.
    pub fn give_back(&mut self, call: u32, item: C)
        requires { item_of self.old.items call ≡ Some None }
        ensures items { ChangesItem call (Some (Some item)) self.old.items self.new.items }
        ensures pages { self.new.pages ≡ self.old.pages }
        ensures waits { self.new.waits ≡ self.old.waits }
        ensures links { self.new.links ≡ self.old.links }
        ensures nodes { self.new.nodes ≡ self.old.nodes }
    {
        self.calls.give_back(call, item);
    }

    /// The first call of a page that was added; `None` exactly where it has none. It takes no memory.
    pub fn first(&self, page: u32) -> Option<u32>
        requires { has_page self.now.pages page ≡ true }
        ensures value { result ≡ slice_get (page_calls self.now.pages page) 0 }
    {
        match page_place(&self.pages, page) {
            Some(list) => self.first_at(page, list),
            None => None,
        }
    }

    // The first call of the page whose list has this number.
    fn first_at(&self, page: u32, list: u32) -> Option<u32>
        requires { position (nat_eq page) (keys_of self.now.pages) ≡ Some list }
        ensures value { result ≡ slice_get (page_calls self.now.pages page) 0 }
        ensures lists { IsCallTable self.now }
    {
        let _ = page;
        self.are_lists();
        self.calls.first(list)
    }

    /// The call after a call in the list of its page; `None` exactly where it is the last. It takes no memory.
    pub fn next(&self, call: u32) -> Option<u32>
        requires { has_call self.now.items call ≡ true }
        ensures value { result ≡ next_in call self.now.pages }
    {
        self.calls.next(call)
    }

    /// A call that does not wait yet waits for an origin from now on, last in its list. On want of memory nothing changes.
    pub fn wait<L: Ledger>(
        &mut self,
        call: u32,
        origin: &Origin,
        steps: &mut Steps<L>,
    ) -> Result<(), NoRoom>
        requires call { has_call self.old.items call ≡ true }
        requires idle { stands_in call self.old.waits ≡ false }
        requires few { length self.old.waits < 4294967295 }
        ensures pages { self.new.pages ≡ self.old.pages }
        ensures waits { OnOk result (self.new.waits ≡ with_last same_origin origin.now call self.old.waits) }
        ensures items { self.new.items ≡ self.old.items }
        ensures nodes { self.new.nodes ≡ self.old.nodes }
        ensures err { OnErr result (self.new ≡ self.old) }

        ensures steps { steps.new ≤ steps.old + 20 }
    {
        match place_of(&self.origins, origin) {
            Some(list) => {
                self.calls.wait(call, list, steps);
                Ok(())
            }
            None => {
                let list = enter_origin(&mut self.origins, &mut self.calls, self.alloc, origin)?;
                self.calls.wait(call, list, steps);
                Ok(())
            }
        }
    }

    /// A call that waits does so no longer. It takes no memory.
    pub fn unwait<L: Ledger>(&mut self, call: u32, steps: &mut Steps<L>)
        requires { stands_in call self.old.waits ≡ true }
        ensures pages { self.new.pages ≡ self.old.pages }
        ensures waits { self.new.waits ≡ all_without call self.old.waits }
        ensures items { self.new.items ≡ self.old.items }
        ensures nodes { self.new.nodes ≡ self.old.nodes }

        ensures steps { steps.new ≤ steps.old + 20 }
    {
        self.calls.unwait(call, steps);
    }

    /// The first call that waits for an origin; `None` exactly where none does. It takes no memory.
    pub fn first_waiting(&self, origin: &Origin) -> Option<u32>
        ensures value { result ≡ slice_get (waiting_for self.now.waits origin.now) 0 }
    {
        match place_of(&self.origins, origin) {
            Some(list) => self.calls.first_waiting(list),
            None => None,
        }
    }

    /// The calls that wait for an origin, in their order.
    pub fn waiting(&self, alloc: Global, origin: &Origin) -> Result<Items<u32>, NoRoom>
        ensures value { IfOk result (λ calls. calls ≡ waiting_for self.now.waits origin.now) }
    {
        match place_of(&self.origins, origin) {
            Some(list) => self.calls.waiting(alloc, list),
            None => Ok(Items::new(alloc)),
        }
    }

    /// The call after a call that waits, in its waiting list; `None` exactly where it is the last. It takes no memory.
    pub fn next_waiting(&self, call: u32) -> Option<u32>
        requires { stands_in call self.now.waits ≡ true }
        ensures value { result ≡ next_in call self.now.waits }
    {
        self.calls.next_waiting(call)
    }

    /// A call leaves the table, with its item; `None` exactly where its item was lent out or it was not there. It takes no
    /// memory.
    pub fn drop_call<L: Ledger>(&mut self, call: u32, steps: &mut Steps<L>) -> Option<C>
        ensures item { result ≡ present_item self.old.items call }
        ensures pages { self.new.pages ≡ all_without call self.old.pages }
        ensures waits { self.new.waits ≡ all_without call self.old.waits }
        ensures items { ChangesItem call None self.old.items self.new.items }

        ensures steps { steps.new ≤ steps.old + 20 }
    {
        self.calls.drop_call(call, steps)
    }

    /// Every call of a page leaves the table, and their number is answered. It takes no memory.
    pub fn close_page<L: Ledger>(&mut self, page: u32, steps: &mut Steps<L>) -> u32
        ensures count { result ≡ length (page_calls self.old.pages page) }
        ensures pages { self.new.pages ≡ emptied (nat_eq page) self.old.pages }
        ensures waits { self.new.waits ≡ all_without_calls (page_calls self.old.pages page) self.old.waits }
        ensures items { LosesItems (page_calls self.old.pages page) self.old.items self.new.items }

        ensures steps { steps.new ≤ steps.old + (20 * length (page_calls self.old.pages page) + 8) }
    {
        self.are_lists();
        let Some(list) = page_place(&self.pages, page) else {
            return 0;
        };
        let mut count = 0;
        while let Some(call) = self.first_at(page, list) {
            let _ = self.drop_call(call, steps);
            count += 1;
        }
        count
    }

    /// The linked lists of the nodes. It takes no memory.
    pub fn links(&self) -> &Links
        ensures { result.now ≡ self.now.links }
    {
        self.calls.links()
    }

    /// The node of a call; `None` exactly where it is not in the table. It takes no memory.
    pub fn node_of(&self, call: u32) -> Option<u32>
        ensures { result ≡ node_in self.now.nodes call }
    {
        self.calls.node_of(call)
    }
}

// A new page comes last, with an empty list. On want of memory nothing changes.
fn enter_page<C: Drop>(pages: &mut Numbers, calls: &mut Calls<C>, page: u32) -> Result<(), NoRoom>
    requires few { length pages.old < 4294967295 }
    requires new { list_any (nat_eq page) pages.old ≡ false }
    requires lists { length pages.old ≡ length calls.old.pages }
    ensures keys { OnOk result (pages.new ≡ pages.old ++ page ∷ []) }
    ensures pages { OnOk result (calls.new.pages ≡ calls.old.pages ++ [] ∷ []) }
    ensures waits { calls.new.waits ≡ calls.old.waits }
    ensures items { calls.new.items ≡ calls.old.items }
    ensures nodes { calls.new.nodes ≡ calls.old.nodes }
    ensures err { OnErr result (calls.new ≡ calls.old) }
    ensures err_keys { OnErr result (pages.new ≡ pages.old) }
{
    pages.insert(page)?;
    let added = calls.add_page_list(pages.len() as u32);
    if added.is_err() {
        let _ = pages.take_last();
    }
    added
}

// A new origin comes last, with an empty list, whose number is answered. On want of memory nothing changes.
fn enter_origin<C: Drop>(
    origins: &mut IndexSet<Origin>,
    calls: &mut Calls<C>,
    alloc: Global,
    origin: &Origin,
) -> Result<u32, NoRoom>
    requires few { length origins.old.keys < 4294967295 }
    requires new { list_any (same_origin origin.now) origins.old.keys ≡ false }
    requires lists { length origins.old.keys ≡ length calls.old.waits }
    ensures keys { OnOk result (origins.new.keys ≡ origins.old.keys ++ origin.now ∷ []) }
    ensures list { IfOk result (λ list. list ≡ length origins.old.keys) }
    ensures pages { calls.new.pages ≡ calls.old.pages }
    ensures waits { OnOk result (calls.new.waits ≡ calls.old.waits ++ [] ∷ []) }
    ensures items { calls.new.items ≡ calls.old.items }
    ensures nodes { calls.new.nodes ≡ calls.old.nodes }
    ensures err { OnErr result (calls.new ≡ calls.old) }
    ensures err_keys { OnErr result (origins.new.keys ≡ origins.old.keys) }
{
    let origin = origin.copy(alloc)?;
    origins.reserve(1)?;
    let list = origins.len() as u32;
    calls.add_waiting_list(list + 1)?;
    put(origins, origin);
    Ok(list)
}
