//! Calls of `IdentityCredential.disconnect`.
ghost use Rattle.std.specs.Prelude.{◌≡◌, ◌≤◌, ◌+◌, nat_eq, is_some, false, Some, IfOk, OnOk};
ghost use Rattle.std.specs.List.{list_any};
ghost use Rattle.std.specs.Map.{lookup};
ghost use Rattle.fed_disconnect.specs.Facts.{disconnect_options, disconnect_stage, disconnect_started};
ghost use Rattle.fed_disconnect.specs.Rows.{disconnect_start_row};
ghost use Rattle.fed_disconnect.specs.State.{disconnect_facts_of};
ghost use Rattle.fed_trace.specs.Begun.{ToDisconnect};
ghost use Rattle.fed_trace.specs.Call.{first_row};
ghost use Rattle.fed_trace.specs.Row.{begin_effects};
ghost use Rattle.fed_trace.specs.Records.{records_of};
ghost use Rattle.fed_session.specs.StepParts.{cookies_of, world_in, begin_kept, begun_as};
ghost use Rattle.fed_session.specs.Tabs.{BeginsIf};

use crate::apply::{answered, ignored};
use crate::calls::Kept;
use crate::sight::Sight;
use crate::tabs::Tabs;
use fed_consent::{Effect, Why};
use fed_disconnect::DState;
use fed_io::{Items, NoRoom, Steps, Text};
use fed_origin::{Scheme, SharedOrigin, WebUrl};
use fed_trace::Out;
use std::alloc::Global;
use std::sync::ledger::Ledger;

/// A disconnect call, which sets nothing: its records, and the pages and calls after it.
pub(crate) fn disconnect<L: Ledger>(
    alloc: Global,
    line: u32,
    sight: &mut Sight,
    tabs: &mut Tabs,
    page: u32,
    call: u32,
    config: &WebUrl,
    client: &Text,
    hint: &Text,
    steps: &mut Steps<L>,
) -> Result<Items<Out>, NoRoom>
    requires { list_any (nat_eq call) tabs.old.taken ≡ false }
    ensures outs { IfOk result (λ outs. outs ≡ records_of line (begin_effects (world_in sight.old) (cookies_of sight.old)
        (lookup (nat_eq page) tabs.old.pages) (is_some (lookup (nat_eq page) tabs.old.gets)) page call
        (ToDisconnect (disconnect_options config.now client.now hint.now)))) }
    ensures tabs { OnOk result (BeginsIf page call (begin_kept (world_in sight.old) (lookup (nat_eq page) tabs.old.pages)
        (is_some (lookup (nat_eq page) tabs.old.gets)) page call
        (ToDisconnect (disconnect_options config.now client.now hint.now))) tabs.old tabs.new) }
    ensures steps { steps.new ≤ steps.old + 20 }
    ensures sight { sight.new ≡ sight.old }
{
    let Some(origin) = tabs.shared_origin(page) else {
        return ignored(alloc, line, Why::NoPage);
    };
    if !origin.get().is_trustworthy() {
        return ignored(alloc, line, Why::PageInsecure);
    }
    let (kept, effects) = begin(alloc, sight, page, call, origin, config, client, hint)?;
    tabs.begin(page, call, kept, steps)?;
    let outs = answered(alloc, line, sight, call, page, effects)?;
    Ok(outs)
}

// A disconnect call that is taken: what is kept of it, and what it does.
fn begin(
    alloc: Global,
    sight: &mut Sight,
    page: u32,
    call: u32,
    origin: &SharedOrigin,
    config: &WebUrl,
    client: &Text,
    hint: &Text,
) -> Result<(Kept, Items<Effect>), NoRoom>
    ensures effects { IfOk result (λ r. r.1 ≡ (first_row (world_in sight.old) false origin.now
        (ToDisconnect (disconnect_options config.now client.now hint.now))).effects) }
    ensures kept { IfOk result (λ r. r.0 ≡ begun_as (world_in sight.old) false (record {
      call = call;
      page = page;
      origin = origin.now;
      options = ToDisconnect (disconnect_options config.now client.now hint.now);
    })) }
    ensures sight { sight.new ≡ sight.old }
{
    let (state, effects) = start(
        alloc,
        sight,
        page,
        call,
        origin.copy()?,
        config.copy(alloc)?,
        client.copy(alloc)?,
        hint.copy(alloc)?,
    )?;
    Ok((Kept::of_disconnect(state), effects))
}

// A call that begins. The well-known URL is looked for among those that are known.
fn start(
    alloc: Global,
    sight: &mut Sight,
    page: u32,
    call: u32,
    origin: SharedOrigin,
    config: WebUrl,
    client: Text,
    hint: Text,
) -> Result<(DState, Items<Effect>), NoRoom>
    ensures effects { IfOk result (λ r. r.1 ≡ (disconnect_start_row (world_in sight.old) origin
        (disconnect_options config client hint)).effects) }
    ensures state { IfOk result (λ r. disconnect_facts_of r.0 ≡ disconnect_started call page origin (disconnect_options config client
        hint) (disconnect_start_row (world_in sight.old) origin (disconnect_options config client hint))) }
    ensures stage { IfOk result (λ r. Some (disconnect_stage (disconnect_facts_of r.0))
        ≡ (disconnect_start_row (world_in sight.old) origin (disconnect_options config client hint)).stage) }
    ensures sight { sight.new ≡ sight.old }
{
    if config.scheme() == Scheme::Http {
        let origin = origin.get().copy(alloc)?;
        return DState::start(
            alloc,
            call,
            page,
            origin,
            config,
            client,
            hint,
            &sight.lent(),
        );
    }
    let wellknown = sight.cookies.wellknown(alloc, &config)?;
    DState::start_with(
        alloc,
        call,
        page,
        origin,
        config,
        client,
        hint,
        wellknown,
        &sight.lent(),
    )
}
