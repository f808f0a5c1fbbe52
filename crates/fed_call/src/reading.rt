//! A call whose only provider's well-known file and configuration are awaited.
ghost use Rattle.std.specs.Prelude.{◌≡◌, IfOk, IsTrue, Some};
ghost use Rattle.fed_origin.specs.WebUrl.{scheme_of};
ghost use Rattle.fed_provider.specs.FirstReplies.{reply_heard};
ghost use Rattle.fed_consent.specs.Outcomes.{only_place};
ghost use Rattle.fed_call.specs.declared.stages.At.TheVariants as ats;
ghost use Rattle.fed_call.specs.Fits.{is_https, is_one};
ghost use Rattle.fed_call.specs.Heard.{by_heard, facts_heard};
ghost use Rattle.fed_call.specs.ReadingRows as spec;
ghost use Rattle.fed_call.specs.State.{at_facts, facts_of};
ghost use Rattle.fed_status.specs.Shared.{world_of};

use crate::CallState;
use crate::begun::Call;
use crate::effects::{fails, ignores};
use crate::stages::At;
use fed_consent::{Ask, Effect, Failure, ONLY_PLACE, Why};
use fed_io::{Items, NoRoom};
use fed_origin::{ReplyKind, WebUrl};
use fed_provider::{FirstReplies, Heard, SharedConfig};
use fed_status::Shared;
use std::alloc::Global;

/// A first reply of the only provider, after these: rows C8 to C13a.
pub fn first_reply(
    alloc: Global,
    shared: &Shared<'_>,
    begun: Call,
    replies: FirstReplies,
    kind: ReplyKind,
    raw: &[u8],
) -> Result<(CallState, Items<Effect>), NoRoom>
    requires one { IsTrue (is_one begun) }
    requires secure { IsTrue (is_https (scheme_of begun.provider.config)) }
    ensures effects { IfOk result (λ r. r.1
        ≡ (by_heard (reply_heard (world_of shared.now).rules replies begun.provider.config kind raw.now)).effects) }
    ensures state { IfOk result (λ r. facts_of r.0
        ≡ facts_heard begun (reply_heard (world_of shared.now).rules replies begun.provider.config kind raw.now)) }
{
    let config = &begun.provider().config;
    let heard = replies.hear(alloc, shared.rules, config, kind, raw)?;
    hears(alloc, begun, heard)
}

// A reply of the only provider came to this: the call fails (rows C8 and C11, and C10a and C13a where the files do not agree), awaits the
// other file (rows C9 and C12), or asks for the accounts (rows C10 and C13).
fn hears(alloc: Global, begun: Call, heard: Heard) -> Result<(CallState, Items<Effect>), NoRoom>
    requires one { IsTrue (is_one begun) }
    requires secure { IsTrue (is_https (scheme_of begun.provider.config)) }
    ensures effects { IfOk result (λ r. r.1 ≡ (by_heard heard).effects) }
    ensures state { IfOk result (λ r. facts_of r.0 ≡ facts_heard begun heard) }
{
    match heard {
        Heard::Refused(step) => fails(alloc, Failure::of_provider(step)),
        Heard::Waits(replies) => Ok((
            CallState::pending(begun, At::Reading(replies)),
            Items::new(alloc),
        )),
        Heard::Both(config) => asks_accounts(alloc, begun, config),
        Heard::NotWaited(replies) => ignores(
            alloc,
            CallState::pending(begun, At::Reading(replies)),
            Why::NotWaited,
        ),
    }
}

/// The accounts of the only provider are asked for.
pub fn asks_accounts(
    alloc: Global,
    begun: Call,
    config: SharedConfig,
) -> Result<(CallState, Items<Effect>), NoRoom>
    requires { IsTrue (is_one begun) }
    ensures effects { IfOk result (λ r. r.1 ≡ (spec.asks_accounts only_place config).effects) }
    ensures state { IfOk result (λ r. facts_of r.0 ≡ Some (at_facts begun (ats.Listing config))) }
{
    let effects = accounts_request(alloc, ONLY_PLACE, &config.get().accounts)?.alone(alloc)?;
    Ok((CallState::pending(begun, At::Listing(config)), effects))
}

/// The request for the accounts of the provider at this place.
pub fn accounts_request(alloc: Global, place: u32, to: &WebUrl) -> Result<Effect, NoRoom>
    ensures { IfOk result (λ effect. effect ≡ Effect.Send place (Ask.Accounts to.now)) }
{
    let to = to.copy(alloc)?;
    Ok(Effect::Send(place, Ask::Accounts { to }))
}
