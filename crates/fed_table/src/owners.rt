//! The calls of nodes.
ghost use Rattle.std.specs.Prelude.{◌≡◌, ◌<◌, ◌≤◌, ◌+◌, ◌-◌, ◌^◌, ℕ, length, map, true, vec_capacity, OnOk, OnErr, IfOk};
ghost use Rattle.indexmap.specs.IndexMap.{spare};
ghost use Rattle.fed_links.specs.Lists.{list_at, stands_in, total, with_free};
ghost use Rattle.fed_table.specs.Kept.{owner, with_owner};

use crate::place::CallPlaces;
use fed_io::{Items, NoRoom};
use fed_links::Links;
use std::alloc::Global;

/// Writes down the call of a node: one that had a call before, or the next.
pub fn set_owner(owners: &mut Vec<u32>, node: u32, call: u32)
    requires node { node ≤ length owners.old.items }
    requires room { length owners.old.items + 1 ≤ vec_capacity owners.old }
    ensures { owners.new.items ≡ with_owner node call owners.old.items }
{
    let place = node as usize;
    if place == owners.len() {
        owners.push_reserved(call);
    } else {
        owners[place] = call;
    }
}

/// Makes room for a call more. On want of memory the links and the places are as they were, and so are the calls of nodes.
pub fn make_room<C: Drop>(
    links: &mut Links,
    owners: &mut Vec<u32>,
    places: &mut CallPlaces<C>,
) -> Result<(), NoRoom>
    requires { total links.old.pages + 1 < 2 ^ 32 }
    ensures pages { links.new.pages ≡ links.old.pages }
    ensures waits { links.new.waits ≡ links.old.waits }
    ensures free { OnOk result (links.new.free
        ≡ with_free (1 - links.old.spare) (total links.old.pages + length links.old.free) links.old.free) }
    ensures spare { OnOk result (0 < links.new.spare) }
    ensures err { OnErr result (links.new ≡ links.old) }
    ensures owners { owners.new.items ≡ owners.old.items }
    ensures owner_room { OnOk result (length owners.old.items + 1 ≤ vec_capacity owners.new) }
    ensures places { places.new.entries ≡ places.old.entries }
    ensures place_room { OnOk result (0 < spare places.new) }
{
    places.reserve(1)?;
    owners.reserve(1)?;
    links.reserve(1, 0, 0)
}

/// The calls of the nodes of a waiting list, in their order.
pub fn waiting_calls(
    links: &Links,
    owners: &Vec<u32>,
    alloc: Global,
    list: u32,
) -> Result<Items<u32>, NoRoom>
    requires list { list < length links.now.waits }
    requires within { (node : ℕ) → stands_in node links.now.waits ≡ true → node < length owners.now.items }
    ensures { IfOk result (λ calls. calls ≡ map (owner owners.now.items) (list_at links.now.waits list)) }
{
    links.are_lists();
    let mut calls = Items::new(alloc);
    let mut next = links.first_waiting(list);
    while let Some(node) = next {
        calls.push(owners[node as usize])?;
        next = links.next_waiting(node);
    }
    Ok(calls)
}
