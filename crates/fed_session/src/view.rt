//! What stands in a session.
ghost use Rattle.std.specs.Prelude.{◌≡◌, IfOk, option_map};
ghost use Rattle.fed_entries.specs.Entries.{entries_in};
ghost use Rattle.fed_trace.specs.Call.{page_of, stage_of};
ghost use Rattle.fed_session.specs.Session.{item_known};
ghost use Rattle.fed_session.specs.StepParts as spec;

use crate::calls::Kept;
use fed_entries::Slot;
use fed_io::{Items, NoRoom};
use fed_jar::Cookie;
use fed_numbers::Numbers;
use fed_origin::{LoginStatus, Origin, SharedOrigin, Stage, Triple};
use fed_status::{LoginMap, SilentFlags};
use fed_table::Table;
use std::alloc::Global;

/// What stands in a session after the events that it took. Each list is in order of first entering.
#[derive(Drop)]
pub struct View {
    /// The time, in seconds since 1970.
    pub now: u64,
    /// The login statuses of providers that were set.
    pub login: Items<(Origin, LoginStatus)>,
    /// The kept permissions.
    pub kept: Items<Triple>,
    /// The origins whose prevent-silent flag is set.
    pub silent: Items<Origin>,
    /// The cookies.
    pub cookies: Items<Cookie>,
    /// The pages that stand, with their origins.
    pub pages: Items<(u32, Origin)>,
    /// The calls that are pending: the number, the page and the stage of each.
    pub calls: Items<(u32, u32, Stage)>,
}

/// The login statuses that were set.
pub(crate) fn shown_logins(
    alloc: Global,
    login: &LoginMap,
) -> Result<Items<(Origin, LoginStatus)>, NoRoom>
    ensures { IfOk result (λ shown. shown ≡ login.now) }
{
    let mut shown = Items::new(alloc);
    for place in 0..login.len() {
        if let Some((origin, status)) = login.item(place) {
            shown.push((origin.copy(alloc)?, status))?;
        }
    }
    Ok(shown)
}

/// The origins whose flag is set.
pub(crate) fn shown_flags(alloc: Global, flags: &SilentFlags) -> Result<Items<Origin>, NoRoom>
    ensures { IfOk result (λ shown. shown ≡ flags.now) }
{
    let mut shown = Items::new(alloc);
    for place in 0..flags.len() {
        if let Some(origin) = flags.item(place) {
            shown.push(origin.copy(alloc)?)?;
        }
    }
    Ok(shown)
}

/// The pages with their origins.
pub(crate) fn shown_pages(
    alloc: Global,
    slots: &[Slot<u32, SharedOrigin>],
) -> Result<Items<(u32, Origin)>, NoRoom>
    ensures { IfOk result (λ shown. shown ≡ entries_in slots.now) }
{
    let mut shown = Items::new(alloc);
    for slot in slots {
        if let Some((page, origin)) = slot {
            shown.push((*page, origin.get().copy(alloc)?))?;
        }
    }
    Ok(shown)
}

/// The calls that are pending.
pub(crate) fn shown_calls(
    alloc: Global,
    taken: &Numbers,
    table: &Table<Kept>,
) -> Result<Items<(u32, u32, Stage)>, NoRoom>
    ensures { IfOk result (λ shown. shown ≡ spec.shown_calls (item_known table.now.items) taken.now) }
{
    let mut shown = Items::new(alloc);
    for call in taken.list(alloc)?.as_slice() {
        if let Some((page, stage)) = stage_of(table, *call) {
            shown.push((*call, page, stage))?;
        }
    }
    Ok(shown)
}

// The page and the stage of a call, where it is pending.
fn stage_of(table: &Table<Kept>, call: u32) -> Option<(u32, Stage)>
    ensures { result ≡ option_map (λ known. (page_of known, stage_of known)) (item_known table.now.items call) }
{
    let kept = table.get(call)?;
    let page = kept.state.page()?;
    Some((page, kept.state.stage()))
}
