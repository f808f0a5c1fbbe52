//! Each call of the table, with ample memory.
ghost use Rattle.std.specs.Prelude.{◌≡◌, ◌<◌, OnOk, true, nat_eq, [], ◌∷◌};
ghost use Rattle.fed_table.specs.Lists.{times_in, total, with_last};
ghost use Rattle.fed_table.specs.Table.{has_page};

use fed_io::{NoRoom, Steps};
use fed_origin::{Origin, WebUrl};
use fed_table::Table;
use std::alloc::Global;
use std::marker::Brand;
use std::process::Abort;
use std::sync::ledger::{Blank, Ledger};
use std::test::Fail;

#[derive(Debug, Drop, PartialEq, Eq)]
struct Item(u32);

fn put<L: Ledger>(
    table: &mut Table<Item>,
    page: u32,
    call: u32,
    steps: &mut Steps<L>,
) -> Result<(), NoRoom>
    requires page { has_page table.old.pages page ≡ true }
    requires call { times_in call table.old.pages ≡ 0 }
    requires few { total table.old.pages < 1000 }
    ensures pages { OnOk result (table.new.pages ≡ with_last nat_eq page call table.old.pages) }
    ensures waits { table.new.waits ≡ table.old.waits }
{
    table.are_lists();
    match table.add(page, call, Item(call), steps) {
        Ok(()) => Ok(()),
        Err((none, _)) => Err(none),
    }
}

// Page 1 has three calls, and page 2 has one.
fn fill<L: Ledger>(table: &mut Table<Item>, steps: &mut Steps<L>) -> Result<(), NoRoom>
    requires pages { table.old.pages ≡ [] }
    requires waits { table.old.waits ≡ [] }
    ensures pages { OnOk result (table.new.pages ≡ (1, 10 ∷ 11 ∷ 12 ∷ []) ∷ (2, 20 ∷ []) ∷ []) }
    ensures waits { OnOk result (table.new.waits ≡ []) }
{
    table.add_page(1)?;
    table.add_page(2)?;
    put(table, 1, 10, steps)?;
    put(table, 2, 20, steps)?;
    put(table, 1, 11, steps)?;
    table.add_page(1)?;
    put(table, 1, 12, steps)
}

// What is found of page 1 as it closes, and of page 2.
fn fill_and_close<L: Ledger>(
    table: &mut Table<Item>,
    steps: &mut Steps<L>,
) -> Result<[Option<u32>; 7], NoRoom>
    requires pages { table.old.pages ≡ [] }
    requires waits { table.old.waits ≡ [] }
{
    fill(table, steps)?;
    table.are_lists();
    let first = table.first(1);
    let second = table.next(10);
    let third = table.next(11);
    let last = table.next(12);
    let count = table.close_page(1, steps);
    let none = table.first(1);
    let other = table.first(2);
    Ok([first, second, third, last, Some(count), none, other])
}

fn closing<L: Ledger>(alloc: Global, blank: Blank) -> Result<[Option<u32>; 7], NoRoom>
    requires name { blank.name ≡ L.name }
    requires parts { blank.parts ≡ L.parts }
    requires some { 0 < L.parts }
{
    let mut steps: Steps<L> = Steps::new(blank);
    let mut table = Table::new(alloc);
    fill_and_close(&mut table, &mut steps)
}

#[test]
fn a_page_closes_with_its_calls(rt: HostRuntime) -> Result<(), Fail> {
    let found = closing::<Brand>(rt.alloc(), Blank::new(1))?;
    let expected = [Some(10), Some(11), Some(12), None, Some(3), None, Some(20)];
    assert_eq!(rt; found, expected);
    Ok(())
}

fn number(item: Option<&Item>) -> u32 {
    match item {
        Some(item) => item.0,
        None => 0,
    }
}

// The item of call 10 as it is lent out, given back and dropped; 0 where none is present.
fn fill_and_lend<L: Ledger>(
    table: &mut Table<Item>,
    steps: &mut Steps<L>,
) -> Result<[u32; 6], NoRoom>
    requires pages { table.old.pages ≡ [] }
    requires waits { table.old.waits ≡ [] }
{
    fill(table, steps)?;
    let before = number(table.get(10));
    let lent = lend_and_give(table);
    let back = number(table.get(10));
    let dropped = number(table.drop_call(10, steps).as_ref());
    let gone = number(table.drop_call(10, steps).as_ref());
    let other = number(table.lend(20).as_ref());
    Ok([before, lent, back, dropped, gone, other])
}

fn lending<L: Ledger>(alloc: Global, blank: Blank) -> Result<[u32; 6], NoRoom>
    requires name { blank.name ≡ L.name }
    requires parts { blank.parts ≡ L.parts }
    requires some { 0 < L.parts }
{
    let mut steps: Steps<L> = Steps::new(blank);
    let mut table = Table::new(alloc);
    fill_and_lend(&mut table, &mut steps)
}

// The item is lent out, and another is given back; 0 is answered where none was there, or one still is.
fn lend_and_give(table: &mut Table<Item>) -> u32 {
    let Some(item) = table.lend(10) else {
        return 0;
    };
    if let Some(_) = table.get(10) {
        return 0;
    }
    table.give_back(10, Item(7));
    item.0
}

#[test]
fn an_item_is_lent_out_and_given_back(rt: HostRuntime) -> Result<(), Fail> {
    let numbers = lending::<Brand>(rt.alloc(), Blank::new(1))?;
    assert_eq!(rt; numbers, [10, 10, 7, 7, 0, 20]);
    Ok(())
}

fn origin(alloc: Global, url: &str) -> Result<Origin, NoRoom> {
    match WebUrl::read(alloc, url) {
        Ok(url) => Origin::of_url(alloc, &url),
        Err(_) => Err(NoRoom),
    }
}

// Calls 10 and 11 wait; 10 goes on and waits again, so it stands last.
fn wait_again<L: Ledger>(
    table: &mut Table<Item>,
    origin: &Origin,
    steps: &mut Steps<L>,
) -> Result<[Option<u32>; 4], NoRoom>
    requires pages { table.old.pages ≡ (1, 10 ∷ 11 ∷ 12 ∷ []) ∷ (2, 20 ∷ []) ∷ [] }
    requires waits { table.old.waits ≡ [] }
{
    table.are_lists();
    table.wait(10, origin, steps)?;
    table.wait(11, origin, steps)?;
    table.unwait(10, steps);
    table.wait(10, origin, steps)?;
    let first = table.first_waiting(origin);
    let second = table.next_waiting(11);
    let last = table.next_waiting(10);
    let _ = table.drop_call(11, steps);
    Ok([first, second, last, table.first_waiting(origin)])
}

fn fill_and_wait<L: Ledger>(
    table: &mut Table<Item>,
    origin: &Origin,
    steps: &mut Steps<L>,
) -> Result<[Option<u32>; 4], NoRoom>
    requires pages { table.old.pages ≡ [] }
    requires waits { table.old.waits ≡ [] }
{
    fill(table, steps)?;
    wait_again(table, origin, steps)
}

fn waiting<L: Ledger>(alloc: Global, blank: Blank) -> Result<[Option<u32>; 4], NoRoom>
    requires name { blank.name ≡ L.name }
    requires parts { blank.parts ≡ L.parts }
    requires some { 0 < L.parts }
{
    let mut steps: Steps<L> = Steps::new(blank);
    let origin = origin(alloc, "https://a.example/")?;
    let mut table = Table::new(alloc);
    fill_and_wait(&mut table, &origin, &mut steps)
}

#[test]
fn a_call_that_waits_again_stands_last(rt: HostRuntime) -> Result<(), Fail> {
    let found = waiting::<Brand>(rt.alloc(), Blank::new(1))?;
    assert_eq!(rt; found, [Some(11), Some(10), None, Some(10)]);
    Ok(())
}

// The nodes of calls 10, 11 and 20, and that of call 10 once it is dropped; then that of a call that comes.
fn fill_and_number<L: Ledger>(
    table: &mut Table<Item>,
    steps: &mut Steps<L>,
) -> Result<[Option<u32>; 5], NoRoom>
    requires pages { table.old.pages ≡ [] }
    requires waits { table.old.waits ≡ [] }
{
    fill(table, steps)?;
    let first = table.node_of(10);
    let second = table.node_of(11);
    let other = table.node_of(20);
    let _ = table.drop_call(10, steps);
    let gone = table.node_of(10);
    table.are_lists();
    put(table, 2, 21, steps)?;
    let _ = table.links();
    Ok([first, second, other, gone, table.node_of(21)])
}

fn numbering<L: Ledger>(alloc: Global, blank: Blank) -> Result<[Option<u32>; 5], NoRoom>
    requires name { blank.name ≡ L.name }
    requires parts { blank.parts ≡ L.parts }
    requires some { 0 < L.parts }
{
    let mut steps: Steps<L> = Steps::new(blank);
    let mut table = Table::new(alloc);
    fill_and_number(&mut table, &mut steps)
}

#[test]
fn a_call_has_a_node_of_its_own(rt: HostRuntime) -> Result<(), Fail> {
    let [first, second, other, gone, next] = numbering::<Brand>(rt.alloc(), Blank::new(1))?;
    assert!(rt; first.is_some() && second.is_some() && other.is_some() && next.is_some());
    assert!(rt; first != second && first != other && second != other);
    assert!(rt; next != second && next != other);
    assert_eq!(rt; gone, None);
    Ok(())
}
