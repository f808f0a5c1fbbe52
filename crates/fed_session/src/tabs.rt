//! The pages that stand, and the calls that were taken.
ghost use Rattle.std.specs.Prelude.{◌≡◌, ◌<◌, ◌≤◌, ◌+◌, ◌*◌, length, [], nat_eq, is_some, true, false, cond, Some, None, IfOk, OnOk, OnErr};
ghost use Rattle.std.specs.Prelude.{IfSome};
ghost use Rattle.std.specs.Prelude.{option_copied, option_and_then};
ghost use Rattle.fed_origin.specs.Origin.{same_origin};
ghost use Rattle.std.specs.List.{list_any};
ghost use Rattle.std.specs.Map.{lookup};
ghost use Rattle.indexmap.specs.IndexMap.{insert_entry, shift_remove_entry};
ghost use Rattle.fed_table.specs.Lists.{all_without, with_key, with_last, emptied, stands_in, total};
ghost use Rattle.fed_table.specs.Table.{has_page, has_call, item_of, page_calls, waiting_for, node_in, ChangesItem, IsCallTable};
ghost use Rattle.fed_trace.specs.Begun.{is_get};
ghost use Rattle.fed_trace.specs.Call.{Known};
ghost use Rattle.fed_session.specs.Account.{account_known};
ghost use Rattle.fed_session.specs.Session.{item_known, no_table};
ghost use Rattle.fed_session.specs.StepParts.{get_but, awaits, awaited_in};
ghost use Rattle.fed_session.specs.Tabs.{ChangesGet, Ends, Begins, Enters, Stays, Waits, Leaves, GoesOn, waits_next};
ghost use Rattle.fed_session.specs.StepParts as spec;

use crate::calls::Kept;
use crate::view::{shown_calls, shown_pages};
use fed_entries::Entries;
use fed_io::{Items, NoRoom, Steps};
use fed_links::Links;
use fed_numbers::Numbers;
use fed_origin::{Origin, SharedOrigin, Stage};
use fed_table::Table;
use indexmap::IndexMap;
use std::alloc::Global;
use std::marker::Model;
use std::sync::ledger::Ledger;

/// The pages that stand, and the calls that were taken. What names one page or one call looks at no other.
pub struct Tabs {
    /// The pages that stand, with their origins, which the calls of a page share.
    pages: Entries<u32, SharedOrigin>,
    /// The pending get of each page that has one.
    gets: IndexMap<u32, u32>,
    /// The calls that were taken.
    taken: Numbers,
    /// The pages that were ever loaded, each with its pending calls.
    table: Table<Kept>,
    /// How many loads, calls and opened windows there were. There are no more pages, pending calls and origins waited for.
    changes: u32,
}

// Written out, so that one function lets it go wherever it ends.
impl Drop for Tabs {
    fn drop(self) {
        let Tabs {
            pages: _,
            gets: _,
            taken: _,
            table: _,
            changes: _,
        } = self;
    }
}

impl Model for Tabs {
    ghost use Rattle.fed_session.specs.Session.{TabsParts};
    ghost use Rattle.fed_session.specs.Tabs.{AreTabs};

    ghost Value = { TabsParts };

    ghost view = { λ t. record { pages = t.pages; gets = t.gets.entries; taken = t.taken; table = t.table } };

    ghost invariant = { λ t. AreTabs t.pages t.taken t.table t.changes };
}

impl Tabs {
    /// No page and no call. It takes no memory.
    pub(crate) fn new(alloc: Global) -> Tabs
        ensures { result ≡ record { pages = []; gets = []; taken = []; table = no_table } }
    {
        Tabs {
            pages: Entries::new(alloc),
            gets: IndexMap::new(alloc),
            taken: Numbers::new(alloc),
            table: Table::new(alloc),
            changes: 0,
        }
    }

    /// The origin of a page; `None` exactly where it does not stand. It takes no memory.
    pub(crate) fn origin(&self, page: u32) -> Option<&Origin>
        ensures { option_copied result ≡ lookup (nat_eq page) self.now.pages }
    {
        match self.pages.get(page) {
            Some(origin) => Some(origin.get()),
            None => None,
        }
    }

    /// The same, to be shared.
    pub(crate) fn shared_origin(&self, page: u32) -> Option<&SharedOrigin>
        ensures { option_copied result ≡ lookup (nat_eq page) self.now.pages }
    {
        self.pages.get(page)
    }

    /// Whether a page has a pending get. It takes no memory.
    pub(crate) fn is_busy(&self, page: u32) -> bool
        ensures { result ≡ is_some (lookup (nat_eq page) self.now.gets) }
    {
        self.gets.contains_key(&page)
    }

    /// Whether a call was taken. It takes no memory.
    pub(crate) fn was_taken(&self, call: u32) -> bool
        ensures { result ≡ list_any (nat_eq call) self.now.taken }
    {
        self.taken.has(call)
    }

    /// A page's pending calls end, and it stands with this origin: one that stands keeps its place, and a new one enters last.
    pub(crate) fn load<L: Ledger>(
        &mut self,
        page: u32,
        origin: SharedOrigin,
        steps: &mut Steps<L>,
    ) -> Result<(), NoRoom>
        ensures ok { OnOk result (Ends page (insert_entry nat_eq self.old.pages page origin)
            (with_key nat_eq page (emptied (nat_eq page) self.old.table.pages)) self.old self.new) }
        ensures steps { steps.new ≤ steps.old + (20 * length (page_calls self.old.table.pages page) + 8) }
    {
        self.end_calls(page, steps);
        let Some(changes) = self.changes.checked_add(1) else {
            return Err(NoRoom);
        };
        self.changes = changes;
        self.table.add_page(page)?;
        self.pages.insert(page, origin)?;
        Ok(())
    }

    /// A page's pending calls end, and it no longer stands. It takes no memory.
    pub(crate) fn close<L: Ledger>(&mut self, page: u32, steps: &mut Steps<L>)
        ensures tabs { Ends page (shift_remove_entry (nat_eq page) self.old.pages) (emptied (nat_eq page) self.old.table.pages)
            self.old self.new }
        ensures steps { steps.new ≤ steps.old + (20 * length (page_calls self.old.table.pages page) + 8) }
    {
        self.end_calls(page, steps);
        self.pages.remove(page);
    }

    // A page's pending calls end.
    fn end_calls<L: Ledger>(&mut self, page: u32, steps: &mut Steps<L>)
        ensures tabs { Ends page self.old.pages (emptied (nat_eq page) self.old.table.pages) self.old self.new }
        ensures steps { steps.new ≤ steps.old + (20 * length (page_calls self.old.table.pages page) + 8) }
    {
        let _ = self.gets.swap_remove(&page);
        let _ = self.table.close_page(page, steps);
    }

    /// A call of a page that stands is taken. Unless it is over it is a pending call of the page from now on.
    pub(crate) fn begin<L: Ledger>(
        &mut self,
        page: u32,
        call: u32,
        kept: Kept,
        steps: &mut Steps<L>,
    ) -> Result<(), NoRoom>
        requires stands { is_some (lookup (nat_eq page) self.old.pages) ≡ true }
        requires fresh { list_any (nat_eq call) self.old.taken ≡ false }
        requires idle { awaited_in kept ≡ None }
        ensures ok { OnOk result (Begins page call kept self.old self.new) }
        ensures steps { steps.new ≤ steps.old + 20 }
    {
        if kept.page() == None {
            self.taken.insert(call)?;
            return Ok(());
        }
        self.enter(page, call, kept, steps)
    }

    // A call of a page that stands is taken, and is pending from now on.
    fn enter<L: Ledger>(
        &mut self,
        page: u32,
        call: u32,
        kept: Kept,
        steps: &mut Steps<L>,
    ) -> Result<(), NoRoom>
        requires stands { is_some (lookup (nat_eq page) self.old.pages) ≡ true }
        requires fresh { list_any (nat_eq call) self.old.taken ≡ false }
        requires idle { awaited_in kept ≡ None }
        ensures ok { OnOk result ((known : Known) → kept ≡ Some known → Enters page call known self.old self.new) }
        ensures steps { steps.new ≤ steps.old + 20 }
    {
        let Some(changes) = self.changes.checked_add(1) else {
            return Err(NoRoom);
        };
        let is_get = kept.is_get();
        self.table.are_lists();
        self.taken.insert(call)?;
        self.changes = changes;
        add(&mut self.table, page, call, kept, steps)?;
        hold_get(&mut self.gets, page, call, is_get)?;
        Ok(())
    }

    /// Hands out what is kept of a call; `None` exactly where it is not pending. It takes no memory.
    pub(crate) fn lend(&mut self, call: u32) -> Option<Kept>
        ensures known { option_and_then (λ kept. kept) result ≡ item_known self.old.table.items call }
        ensures lent { IfSome result (λ kept. item_of self.new.table.items call ≡ Some None) }
        ensures begun { IfSome result (λ kept. list_any (nat_eq call) self.old.taken ≡ true) }
        ensures waits { IfSome result (λ kept. (known : Known) → kept ≡ Some known
            → stands_in call self.new.table.waits ≡ is_some (awaits known)) }
        ensures tabs { Stays call None self.old.table.waits self.old self.new }
    {
        self.table.lend(call)
    }

    /// What is kept of a call of a page, which waited or not, goes back to its place; where the call is over it leaves the page.
    pub(crate) fn give_back<L: Ledger>(
        &mut self,
        page: u32,
        call: u32,
        waited: bool,
        kept: Kept,
        steps: &mut Steps<L>,
    ) -> Result<(), NoRoom>
        requires lent { item_of self.old.table.items call ≡ Some None }
        requires waits { stands_in call self.old.table.waits ≡ waited }
        ensures ok { OnOk result (GoesOn page call waited kept self.old self.new) }
        ensures steps { steps.new ≤ steps.old + 20 }
    {
        if kept.page() == None {
            self.leave(page, call, steps);
            return Ok(());
        }
        self.set_waiting(call, waited, &kept, steps)?;
        self.keep(call, kept);
        Ok(())
    }

    // A call that was lent waits from now on where its login window is open.
    fn set_waiting<L: Ledger>(
        &mut self,
        call: u32,
        waited: bool,
        kept: &Kept,
        steps: &mut Steps<L>,
    ) -> Result<(), NoRoom>
        requires lent { item_of self.old.table.items call ≡ Some None }
        requires waits { stands_in call self.old.table.waits ≡ waited }
        ensures ok { OnOk result (Waits (waits_next waited call (awaited_in kept.now) self.old.table.waits) self.old self.new) }
        ensures steps { steps.new ≤ steps.old + 20 }
    {
        match (waited, kept.waits_for()) {
            (false, Some(origin)) => self.wait(call, origin, steps),
            (true, None) => {
                self.unwait(call, steps);
                Ok(())
            }
            (false, None) | (true, Some(_)) => Ok(()),
        }
    }

    // A call that was lent is the last that waits for an origin.
    fn wait<L: Ledger>(
        &mut self,
        call: u32,
        origin: &Origin,
        steps: &mut Steps<L>,
    ) -> Result<(), NoRoom>
        requires lent { item_of self.old.table.items call ≡ Some None }
        requires idle { stands_in call self.old.table.waits ≡ false }
        ensures ok { OnOk result (Waits (with_last same_origin origin.now call self.old.table.waits) self.old self.new) }
        ensures steps { steps.new ≤ steps.old + 20 }
    {
        let Some(changes) = self.changes.checked_add(1) else {
            return Err(NoRoom);
        };
        self.changes = changes;
        self.table.wait(call, origin, steps)?;
        Ok(())
    }

    // A call that was lent waits no longer.
    fn unwait<L: Ledger>(&mut self, call: u32, steps: &mut Steps<L>)
        requires lent { item_of self.old.table.items call ≡ Some None }
        requires waits { stands_in call self.old.table.waits ≡ true }
        ensures tabs { Waits (all_without call self.old.table.waits) self.old self.new }
        ensures steps { steps.new ≤ steps.old + 20 }
    {
        self.table.unwait(call, steps);
    }

    // What is kept of a call that was lent goes back to its place.
    fn keep(&mut self, call: u32, kept: Kept)
        requires lent { item_of self.old.table.items call ≡ Some None }
        requires waits { stands_in call self.old.table.waits ≡ is_some (awaited_in kept) }
        ensures { Stays call kept self.old.table.waits self.old self.new }
    {
        self.table.give_back(call, kept);
    }

    // A call is no longer a pending call of its page.
    fn leave<L: Ledger>(&mut self, page: u32, call: u32, steps: &mut Steps<L>)
        ensures tabs { Leaves page call self.old self.new }
        ensures steps { steps.new ≤ steps.old + 20 }
    {
        let _ = self.table.drop_call(call, steps);
        drop_get(&mut self.gets, page, call);
    }

    /// The calls that wait for an origin, in their order.
    pub(crate) fn waiting(&self, alloc: Global, origin: &Origin) -> Result<Items<u32>, NoRoom>
        ensures { IfOk result (λ calls. calls ≡ waiting_for self.now.table.waits origin.now) }
    {
        self.table.waiting(alloc, origin)
    }

    /// The linked lists of the nodes of pending calls. It takes no memory.
    pub(crate) fn links(&self) -> &Links
        ensures links { result.now ≡ self.now.table.links }
        ensures lists { IsCallTable self.now.table }
    {
        self.table.are_lists();
        self.table.links()
    }

    /// The node of a call; `None` exactly where it is not pending. It takes no memory.
    pub(crate) fn node_of(&self, call: u32) -> Option<u32>
        ensures node { result ≡ node_in self.now.table.nodes call }
        ensures lists { IsCallTable self.now.table }
    {
        self.table.are_lists();
        self.table.node_of(call)
    }

    /// The id of the account whose token a call awaits; none of another call. It takes no memory.
    pub(crate) fn account(&self, call: u32) -> Option<&str>
        ensures { option_copied result ≡ account_known (item_known self.now.table.items call) }
    {
        self.table.get(call)?.state.account()
    }

    /// The pages that stand, with their origins, in order of entering.
    pub(crate) fn shown_pages(&self, alloc: Global) -> Result<Items<(u32, Origin)>, NoRoom>
        ensures { IfOk result (λ shown. shown ≡ self.now.pages) }
    {
        shown_pages(alloc, self.pages.slots())
    }

    /// The calls that are pending, in order of beginning.
    pub(crate) fn shown_calls(&self, alloc: Global) -> Result<Items<(u32, u32, Stage)>, NoRoom>
        ensures { IfOk result (λ shown. shown ≡ spec.shown_calls (item_known self.now.table.items) self.now.taken) }
    {
        shown_calls(alloc, &self.taken, &self.table)
    }
}

// A call goes last in the list of its page. On want of memory nothing changes.
fn add<L: Ledger>(
    table: &mut Table<Kept>,
    page: u32,
    call: u32,
    kept: Kept,
    steps: &mut Steps<L>,
) -> Result<(), NoRoom>
    requires page { has_page table.old.pages page ≡ true }
    requires call { has_call table.old.items call ≡ false }
    requires few { total table.old.pages < 4294967295 }
    ensures pages { OnOk result (table.new.pages ≡ with_last nat_eq page call table.old.pages) }
    ensures waits { table.new.waits ≡ table.old.waits }
    ensures items { OnOk result (ChangesItem call (Some (Some kept)) table.old.items table.new.items) }
    ensures err { OnErr result (table.new ≡ table.old) }
    ensures steps { steps.new ≤ steps.old + 20 }
{
    match table.add(page, call, kept, steps) {
        Ok(()) => Ok(()),
        Err((NoRoom, _)) => Err(NoRoom),
    }
}

// Where the call is a get, it is the pending one of its page.
fn hold_get(gets: &mut IndexMap<u32, u32>, page: u32, call: u32, is_get: bool) -> Result<(), NoRoom>
    ensures { OnOk result (ChangesGet page (cond is_get (Some call) (lookup (nat_eq page) gets.old.entries)) gets.old.entries
        gets.new.entries) }
{
    if is_get {
        gets.insert(page, call)?;
    }
    Ok(())
}

// The call is no longer the pending get of its page, if it is.
fn drop_get(gets: &mut IndexMap<u32, u32>, page: u32, call: u32)
    ensures { ChangesGet page (get_but call (lookup (nat_eq page) gets.old.entries)) gets.old.entries gets.new.entries }
{
    if gets.get(&page).copied() == Some(call) {
        let _ = gets.swap_remove(&page);
    }
}
