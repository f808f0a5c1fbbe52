//! Numbers that events give.
ghost use Rattle.std.specs.Prelude.{◌≡◌, IfOk, OnOk};
ghost use Rattle.fed_slice.specs.Gather.{Adds};
ghost use Rattle.fed_slice.specs.Linked.{AreLoaded};

use fed_io::NoRoom;
use fed_script::{Event, Numbered};
use indexmap::IndexSet;
use std::alloc::Global;

/// Adds the number that is given, if one is.
pub(crate) fn add(numbers: &mut IndexSet<u32>, given: Option<u32>) -> Result<(), NoRoom>
    ensures { OnOk result (Adds given numbers.old.keys numbers.new.keys) }
{
    match given {
        Some(number) => {
            numbers.insert(number)?;
            Ok(())
        }
        None => Ok(()),
    }
}

/// The page numbers that are loaded.
pub(crate) fn loaded_pages(alloc: Global, events: &[Numbered]) -> Result<IndexSet<u32>, NoRoom>
    ensures { IfOk result (λ pages. AreLoaded events.now pages.keys) }
{
    let mut pages: IndexSet<u32> = IndexSet::new(alloc);
    for numbered in events {
        if let Event::Load { page, .. } = &numbered.event {
            pages.insert(*page)?;
        }
    }
    Ok(pages)
}
