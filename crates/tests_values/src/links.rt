//! Each call of the links, with ample memory.
ghost use Rattle.std.specs.Prelude.{◌≡◌, ◌<◌, [], ◌∷◌, IfOk};

use fed_io::{NoRoom, Steps};
use fed_links::{LinkNode, Links};
use std::alloc::Global;
use std::marker::Brand;
use std::process::Abort;
use std::sync::ledger::{Blank, Ledger};
use std::test::Fail;

// Page list 0 has the nodes 2 and 0, page list 1 has node 1, and there is an empty waiting list.
fn filled<L: Ledger>(alloc: Global, steps: &mut Steps<L>) -> Result<Links, NoRoom>
    ensures pages { IfOk result (λ links. links.pages ≡ (2 ∷ 0 ∷ []) ∷ (1 ∷ []) ∷ []) }
    ensures waits { IfOk result (λ links. links.waits ≡ [] ∷ []) }
{
    let mut links = Links::new(alloc);
    links.reserve(3, 2, 1)?;
    let _ = links.add(0, steps);
    let _ = links.add(1, steps);
    let _ = links.add(0, steps);
    Ok(links)
}

fn reading<L: Ledger>(alloc: Global, blank: Blank) -> Result<[Option<u32>; 5], NoRoom>
    requires name { blank.name ≡ L.name }
    requires parts { blank.parts ≡ L.parts }
    requires some { 0 < L.parts }
{
    let mut steps: Steps<L> = Steps::new(blank);
    let links = filled(alloc, &mut steps)?;
    let first = links.first(0);
    let second = links.next(2);
    let none = links.next(0);
    let only = links.first(1);
    Ok([first, second, none, only, links.next(1)])
}

#[test]
fn nodes_come_to_the_ends_of_page_lists(rt: HostRuntime) -> Result<(), Fail> {
    let found = reading::<Brand>(rt.alloc(), Blank::new(1))?;
    assert_eq!(rt; found, [Some(2), Some(0), None, Some(1), None]);
    Ok(())
}

// Nodes 2 and 1 wait; then 2 waits no longer, and 1 goes and comes again.
fn wait_and_go<L: Ledger>(links: &mut Links, steps: &mut Steps<L>) -> [Option<u32>; 7]
    requires pages { links.old.pages ≡ (2 ∷ 0 ∷ []) ∷ (1 ∷ []) ∷ [] }
    requires waits { links.old.waits ≡ [] ∷ [] }
{
    links.wait(2, 0, steps);
    links.wait(1, 0, steps);
    let first = links.first_waiting(0);
    let second = links.next_waiting(2);
    let none = links.next_waiting(1);
    links.unwait(2, steps);
    let only = links.first_waiting(0);
    links.remove(1, steps);
    let gone = links.first_waiting(0);
    let empty = links.first(1);
    let again = links.add(1, steps);
    [first, second, none, only, gone, empty, Some(again)]
}

fn waiting<L: Ledger>(alloc: Global, blank: Blank) -> Result<[Option<u32>; 7], NoRoom>
    requires name { blank.name ≡ L.name }
    requires parts { blank.parts ≡ L.parts }
    requires some { 0 < L.parts }
{
    let mut steps: Steps<L> = Steps::new(blank);
    let mut links = filled(alloc, &mut steps)?;
    Ok(wait_and_go(&mut links, &mut steps))
}

#[test]
fn a_node_that_goes_leaves_both_lists(rt: HostRuntime) -> Result<(), Fail> {
    let found = waiting::<Brand>(rt.alloc(), Blank::new(1))?;
    let expected = [Some(2), Some(1), None, Some(1), None, None, Some(1)];
    assert_eq!(rt; found, expected);
    Ok(())
}

// Node 0 waits after node 2.
fn looking<L: Ledger>(alloc: Global, blank: Blank) -> Result<LinkNode, NoRoom>
    requires name { blank.name ≡ L.name }
    requires parts { blank.parts ≡ L.parts }
    requires some { 0 < L.parts }
{
    let mut steps: Steps<L> = Steps::new(blank);
    let mut links = filled(alloc, &mut steps)?;
    links.are_lists();
    links.wait(2, 0, &mut steps);
    links.wait(0, 0, &mut steps);
    Ok(*links.node(0))
}

#[test]
fn a_node_knows_its_neighbours(rt: HostRuntime) -> Result<(), Fail> {
    let found = looking::<Brand>(rt.alloc(), Blank::new(1))?;
    let expected = LinkNode {
        before: Some(2),
        after: None,
        wait_before: Some(2),
        wait_after: None,
    };
    assert_eq!(rt; found, expected);
    Ok(())
}
