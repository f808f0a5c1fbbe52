//! The parties that a party is linked with.
ghost use Rattle.std.specs.Prelude.{bytes_eq, IfOk};
ghost use Rattle.std.specs.List.{IsDistinct};
ghost use Rattle.fed_slice.specs.Closure.{IsClosure, RiseByBytes};
ghost use Rattle.fed_slice.specs.Gather.{SameMembers};
ghost use Rattle.fed_slice.specs.Linked.{Linked, pairs};

use crate::numbers::loaded_pages;
use crate::parties::Parties;
use fed_io::{Bytes, NoRoom};
use fed_script::Script;
use std::alloc::Global;

// The parties of a script, those of each page number joined.
fn linked(alloc: Global, script: &Script) -> Result<Parties, NoRoom>
    ensures { IfOk result (λ parties. Linked (pairs script.now) parties) }
{
    let events = script.events();
    let loaded = loaded_pages(alloc, events)?;
    let mut parties = Parties::new(alloc);
    parties.link_all(alloc, &script.header().rules, &loaded, events)?;
    Ok(parties)
}

// The same parties, rising by bytes.
fn raised(mut parties: Vec<Bytes>) -> Result<Vec<Bytes>, NoRoom>
    requires { IsDistinct bytes_eq parties.items }
    ensures members { IfOk result (λ risen. SameMembers risen.items parties.items) }
    ensures rising { IfOk result (λ risen. RiseByBytes risen.items) }
{
    parties.sort()?;
    Ok(parties)
}

/// The parties that a party is linked with in a script, by page numbers and in turn by each other's, and itself: the least closed
/// set that has it. They rise by bytes.
pub fn closure(alloc: Global, script: &Script, party: &[u8]) -> Result<Vec<Bytes>, NoRoom>
    ensures { IfOk result (λ parties. IsClosure script.now party.now parties.items) }
{
    let mut parties = linked(alloc, script)?;
    let closed = parties.closed_with(alloc, party)?;
    let risen = raised(closed)?;
    Ok(risen)
}
