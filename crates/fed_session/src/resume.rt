//! A page that says that the user has signed in at its origin (FedCM, "IdentityProvider.close").
ghost use Rattle.std.specs.Prelude.{◌≡◌, ◌≤◌, ◌+◌, ◌*◌, length, nat_eq, IfOk, OnOk};
ghost use Rattle.std.specs.Map.{lookup};
ghost use Rattle.fed_consent.specs.declared.table.input.Input.TheVariants.{Resume};
ghost use Rattle.fed_table.specs.Table.{waiting_for};
ghost use Rattle.fed_trace.specs.Records.{records_of};
ghost use Rattle.fed_trace.specs.Row.{resume_effects};
ghost use Rattle.fed_session.specs.Links.{resumed_calls};
ghost use Rattle.fed_session.specs.Session.{item_known};
ghost use Rattle.fed_session.specs.StepParts.{cookies_of, world_in, kept_next};
ghost use Rattle.fed_session.specs.Tabs.{Takes, AreResumed, Resumed};

use crate::apply::{answered, ignored};
use crate::sight::Sight;
use crate::tabs::Tabs;
use fed_consent::{Input, Why};
use fed_io::{Items, NoRoom, Steps};
use fed_trace::Out;
use std::alloc::Global;
use std::sync::ledger::Ledger;

/// Each call that waits for the origin of the page asks for its accounts again, in the order of waiting; ignored where the page
/// does not stand, is not trustworthy, or nobody waits for it. It sets nothing.
pub(crate) fn resume<L: Ledger>(
    alloc: Global,
    line: u32,
    sight: &Sight,
    tabs: &mut Tabs,
    page: u32,
    steps: &mut Steps<L>,
) -> Result<Items<Out>, NoRoom>
    ensures ok { IfOk result (λ outs. Resumed (world_in sight.now) (cookies_of sight.now) line (lookup (nat_eq page) tabs.old.pages)
        tabs.old outs tabs.new) }
    ensures steps { steps.new ≤ steps.old
        + 20 * length (resumed_calls (waiting_for tabs.old.table.waits) (lookup (nat_eq page) tabs.old.pages)) }
{
    let Some(origin) = tabs.origin(page) else {
        return ignored(alloc, line, Why::NoPage);
    };
    if !origin.is_trustworthy() {
        return ignored(alloc, line, Why::PageInsecure);
    }
    let calls = tabs.waiting(alloc, origin)?;
    if calls.len() == 0 {
        return ignored(alloc, line, Why::NobodyWaits);
    }
    resume_all(alloc, line, sight, tabs, calls.as_slice(), steps)
}

// The calls go on, one after the other.
fn resume_all<L: Ledger>(
    alloc: Global,
    line: u32,
    sight: &Sight,
    tabs: &mut Tabs,
    calls: &[u32],
    steps: &mut Steps<L>,
) -> Result<Items<Out>, NoRoom>
    ensures ok { IfOk result (λ outs. AreResumed (world_in sight.now) (cookies_of sight.now) line calls.now tabs.old outs tabs.new) }
    ensures steps { steps.new ≤ steps.old + 20 * length calls.now }
{
    let mut outs = Vec::new(alloc);
    for call in calls {
        let mut more = resume_one(alloc, line, sight, tabs, *call, steps)?.into_vec();
        outs.append(&mut more)?;
    }
    Ok(Items::from_vec(outs))
}

// A call that waits goes on.
fn resume_one<L: Ledger>(
    alloc: Global,
    line: u32,
    sight: &Sight,
    tabs: &mut Tabs,
    call: u32,
    steps: &mut Steps<L>,
) -> Result<Items<Out>, NoRoom>
    ensures outs { IfOk result (λ outs. outs ≡ records_of line (resume_effects (world_in sight.now) (cookies_of sight.now)
        (item_known tabs.old.table.items) call)) }
    ensures tabs { OnOk result (Takes call (item_known tabs.old.table.items call)
        (kept_next (world_in sight.now) (item_known tabs.old.table.items call) Resume) tabs.old tabs.new) }
    ensures steps { steps.new ≤ steps.old + 20 }
{
    let Some(kept) = tabs.lend(call) else {
        return ignored(alloc, line, Why::CallEnded);
    };
    let state = kept.into_state();
    let page = state.page();
    let waited = state.waits();
    let (kept, effects) = state.advance(alloc, &Input::Resume, &sight.lent())?;
    let Some(page) = page else {
        return ignored(alloc, line, Why::CallEnded);
    };
    tabs.give_back(page, call, waited, kept, steps)?;
    let outs = answered(alloc, line, sight, call, page, effects)?;
    Ok(outs)
}
