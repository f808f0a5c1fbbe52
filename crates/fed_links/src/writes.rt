//! Reads and writes of links. Each link that is read or written counts one step.
ghost use Rattle.std.specs.Prelude.{◌≡◌, ◌+◌, ◌<◌, ◌≤◌, ◌^◌, ◌++◌, Some, None, IfSome, OnOk, slice_set, length, vec_capacity};
ghost use Rattle.std.specs.Prelude.{replicate};
ghost use Rattle.fed_links.specs.Changes.{with_after, with_before, with_wait_after, with_wait_before, with_slot, with_first_link};
ghost use Rattle.fed_links.specs.Changes.{with_last_link, waiting_slot, idle_slot, slots_after_add, ends_after_add};
ghost use Rattle.fed_links.specs.Changes.{slots_after_wait, slots_after_join, ends_after_join, slots_after_leave, with_free_slots};
ghost use Rattle.fed_links.specs.Threads.{before_at, after_at, wait_before_at, wait_after_at, no_ends};

use crate::node::{Ends, LinkNode, Slot};
use fed_io::{NoRoom, Steps};
use std::sync::ledger::Ledger;

// Links forward in a page list; from none, that is the first of the list.
fn write_after<L: Ledger>(
    slots: &mut Vec<Slot>,
    ends: &mut Ends,
    before: Option<u32>,
    after: Option<u32>,
    steps: &mut Steps<L>,
)
    requires { IfSome before (λ n. n < length slots.old.items) }
    ensures slots { slots.new.items ≡ with_slot (with_after after) slots.old.items before }
    ensures ends { ends.new ≡ with_first_link ends.old before after }
    ensures steps { steps.new ≡ steps.old + 1 }
{
    steps.tick();
    match before {
        Some(n) => slots[n as usize].node.after = after,
        None => ends.first = after,
    }
}

// Links back in a page list; from none, that is the last of the list.
fn write_before<L: Ledger>(
    slots: &mut Vec<Slot>,
    ends: &mut Ends,
    after: Option<u32>,
    before: Option<u32>,
    steps: &mut Steps<L>,
)
    requires { IfSome after (λ n. n < length slots.old.items) }
    ensures slots { slots.new.items ≡ with_slot (with_before before) slots.old.items after }
    ensures ends { ends.new ≡ with_last_link ends.old after before }
    ensures steps { steps.new ≡ steps.old + 1 }
{
    steps.tick();
    match after {
        Some(n) => slots[n as usize].node.before = before,
        None => ends.last = before,
    }
}

// Links forward in a waiting list; from none, that is the first of the list.
fn write_wait_after<L: Ledger>(
    slots: &mut Vec<Slot>,
    ends: &mut Ends,
    before: Option<u32>,
    after: Option<u32>,
    steps: &mut Steps<L>,
)
    requires { IfSome before (λ n. n < length slots.old.items) }
    ensures slots { slots.new.items ≡ with_slot (with_wait_after after) slots.old.items before }
    ensures ends { ends.new ≡ with_first_link ends.old before after }
    ensures steps { steps.new ≡ steps.old + 1 }
{
    steps.tick();
    match before {
        Some(n) => slots[n as usize].node.wait_after = after,
        None => ends.first = after,
    }
}

// Links back in a waiting list; from none, that is the last of the list.
fn write_wait_before<L: Ledger>(
    slots: &mut Vec<Slot>,
    ends: &mut Ends,
    after: Option<u32>,
    before: Option<u32>,
    steps: &mut Steps<L>,
)
    requires { IfSome after (λ n. n < length slots.old.items) }
    ensures slots { slots.new.items ≡ with_slot (with_wait_before before) slots.old.items after }
    ensures ends { ends.new ≡ with_last_link ends.old after before }
    ensures steps { steps.new ≡ steps.old + 1 }
{
    steps.tick();
    match after {
        Some(n) => slots[n as usize].node.wait_before = before,
        None => ends.last = before,
    }
}

/// Counts the four links of a node, which are written at once.
pub fn tick_node<L: Ledger>(steps: &mut Steps<L>)
    ensures { steps.new ≡ steps.old + 4 }
{
    steps.tick();
    steps.tick();
    steps.tick();
    steps.tick();
}

/// A node comes to the end of a page list.
pub fn put_last<L: Ledger>(
    slots: &mut Vec<Slot>,
    ends: &mut Ends,
    page: u32,
    node: u32,
    steps: &mut Steps<L>,
)
    requires node { node < length slots.old.items }
    requires last { IfSome ends.old.last (λ n. n < length slots.old.items) }
    ensures slots { slots.new.items ≡ slots_after_add slots.old.items ends.old page node }
    ensures ends { ends.new ≡ ends_after_add ends.old node }
    ensures steps { steps.new ≡ steps.old + 7 }
{
    steps.tick();
    let last = ends.last;
    tick_node(steps);
    let links = LinkNode {
        before: last,
        after: None,
        wait_before: None,
        wait_after: None,
    };
    slots[node as usize] = Slot {
        node: links,
        page: Some(page),
        origin: None,
    };
    write_after(slots, ends, last, Some(node), steps);
    steps.tick();
    ends.last = Some(node);
}

// A node waits after another.
fn begin_waiting<L: Ledger>(slot: &mut Slot, before: Option<u32>, origin: u32, steps: &mut Steps<L>)
    ensures slot { slot.new ≡ waiting_slot before origin slot.old }
    ensures steps { steps.new ≡ steps.old + 2 }
{
    steps.tick();
    slot.node.wait_before = before;
    steps.tick();
    slot.node.wait_after = None;
    slot.origin = Some(origin);
}

// A node waits nowhere.
fn stop_waiting<L: Ledger>(slot: &mut Slot, steps: &mut Steps<L>)
    ensures slot { slot.new ≡ idle_slot slot.old }
    ensures steps { steps.new ≡ steps.old + 2 }
{
    steps.tick();
    slot.node.wait_before = None;
    steps.tick();
    slot.node.wait_after = None;
    slot.origin = None;
}

/// Puts a node at the end of a waiting list.
pub fn put_last_waiting<L: Ledger>(
    slots: &mut Vec<Slot>,
    ends: &mut Ends,
    origin: u32,
    node: u32,
    steps: &mut Steps<L>,
)
    requires node { node < length slots.old.items }
    requires last { IfSome ends.old.last (λ n. n < length slots.old.items) }
    ensures slots { slots.new.items ≡ slots_after_wait slots.old.items ends.old origin node }
    ensures ends { ends.new ≡ ends_after_add ends.old node }
    ensures steps { steps.new ≡ steps.old + 5 }
{
    steps.tick();
    let last = ends.last;
    let place = node as usize;
    begin_waiting(&mut slots[place], last, origin, steps);
    write_wait_after(slots, ends, last, Some(node), steps);
    steps.tick();
    ends.last = Some(node);
}

/// The neighbours of a node in its page list become one another's.
pub fn join<L: Ledger>(slots: &mut Vec<Slot>, ends: &mut Ends, node: u32, steps: &mut Steps<L>)
    requires node { node < length slots.old.items }
    requires before { IfSome (before_at slots.old.items node) (λ n. n < length slots.old.items) }
    requires after { IfSome (after_at slots.old.items node) (λ n. n < length slots.old.items) }
    ensures slots { slots.new.items ≡ slots_after_join slots.old.items node }
    ensures ends { ends.new ≡ ends_after_join ends.old (before_at slots.old.items node) (after_at slots.old.items node) }
    ensures steps { steps.new ≡ steps.old + 4 }
{
    let place = node as usize;
    steps.tick();
    let before = slots[place].node.before;
    steps.tick();
    let after = slots[place].node.after;
    write_after(slots, ends, before, after, steps);
    write_before(slots, ends, after, before, steps);
}

/// Takes a node out of its waiting list.
pub fn leave<L: Ledger>(slots: &mut Vec<Slot>, ends: &mut Ends, node: u32, steps: &mut Steps<L>)
    requires node { node < length slots.old.items }
    requires before { IfSome (wait_before_at slots.old.items node) (λ n. n < length slots.old.items) }
    requires after { IfSome (wait_after_at slots.old.items node) (λ n. n < length slots.old.items) }
    ensures slots { slots.new.items ≡ slots_after_leave slots.old.items node }
    ensures ends { ends.new ≡ ends_after_join ends.old (wait_before_at slots.old.items node) (wait_after_at slots.old.items node) }
    ensures steps { steps.new ≡ steps.old + 6 }
{
    let place = node as usize;
    steps.tick();
    let before = slots[place].node.wait_before;
    steps.tick();
    let after = slots[place].node.wait_after;
    write_wait_after(slots, ends, before, after, steps);
    write_wait_before(slots, ends, after, before, steps);
    stop_waiting(&mut slots[place], steps);
}

/// Makes room for more nodes and lists. On want of memory they are as they were.
pub fn make_room(
    slots: &mut Vec<Slot>,
    pages: &mut Vec<Ends>,
    origins: &mut Vec<Ends>,
    nodes: usize,
    more_pages: usize,
    more_origins: usize,
) -> Result<(), NoRoom>
    ensures slots { slots.new.items ≡ slots.old.items }
    ensures pages { pages.new.items ≡ pages.old.items }
    ensures origins { origins.new.items ≡ origins.old.items }
    ensures node_room { OnOk result (length slots.old.items + nodes ≤ vec_capacity slots.new) }
    ensures page_room { OnOk result (length pages.old.items + more_pages ≤ vec_capacity pages.new) }
    ensures origin_room { OnOk result (length origins.old.items + more_origins ≤ vec_capacity origins.new) }
{
    slots.reserve(nodes)?;
    pages.reserve(more_pages)?;
    origins.reserve(more_origins)?;
    Ok(())
}

/// Adds free nodes. There is room for them.
pub fn add_nodes(slots: &mut Vec<Slot>, free: &mut Option<u32>, more: u32)
    requires room { length slots.old.items + more ≤ vec_capacity slots.old }
    requires fits { length slots.old.items + more < 2 ^ 32 }
    ensures slots { slots.new.items ≡ (with_free_slots more slots.old.items free.old).0 }
    ensures free { free.new ≡ (with_free_slots more slots.old.items free.old).1 }
{
    let mut left = more;
    while left > 0 {
        let node = slots.len() as u32;
        let links = LinkNode {
            before: None,
            after: *free,
            wait_before: None,
            wait_after: None,
        };
        slots.push_reserved(Slot {
            node: links,
            page: None,
            origin: None,
        });
        *free = Some(node);
        left -= 1;
    }
}

/// Adds empty lists. There is room for them.
pub fn add_lists(ends: &mut Vec<Ends>, more: usize)
    requires { length ends.old.items + more ≤ vec_capacity ends.old }
    ensures { ends.new.items ≡ ends.old.items ++ replicate more no_ends }
{
    let mut left = more;
    while left > 0 {
        ends.push_reserved(Ends {
            first: None,
            last: None,
        });
        left -= 1;
    }
}
