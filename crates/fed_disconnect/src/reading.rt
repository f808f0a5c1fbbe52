//! The first replies of a disconnect call, with its well-known file and its configuration.
ghost use Rattle.std.specs.Prelude.{◌≡◌, [], ◌∷◌, IfOk, unwrap_or};
ghost use Rattle.fed_consent.specs.Outcomes.{only_place};
ghost use Rattle.fed_consent.specs.declared.table.input.Input.TheVariants as inputs;
ghost use Rattle.fed_status.specs.Shared.{world_of};
ghost use Rattle.fed_disconnect.specs.Facts.{at_stage, both_taken, taken};
ghost use Rattle.fed_disconnect.specs.Rows as spec;
ghost use Rattle.fed_disconnect.specs.State.{disconnect_facts_of, facts_at};

use crate::DState;
use crate::begun::Begun;
use crate::effects::{fails, not_taken};
use crate::pending::{At, Pending};
use fed_consent::{Ask, Effect, FailStep, Failure, ONLY_PLACE, Why};
use fed_io::{Items, NoRoom, Placed};
use fed_origin::{ReplyKind, Stage, WebUrl};
use fed_provider::{FirstReplies, Heard, SharedConfig};
use fed_status::Shared;
use std::alloc::Global;

/// A call of which these replies were taken, after one more: what is read of it is looked at together with them.
pub fn hears(
    alloc: Global,
    shared: &Shared<'_>,
    begun: Begun,
    replies: FirstReplies,
    kind: ReplyKind,
    raw: &[u8],
) -> Result<(DState, Items<Effect>), NoRoom>
    ensures effects { IfOk result (λ r. r.1 ≡ (spec.stage_reply (world_of shared.now) (facts_at begun (At.Reading replies)) Stage.Reading
        kind raw.now).effects) }
    ensures state { IfOk result (λ r. disconnect_facts_of r.0
        ≡ spec.input_facts (world_of shared.now) (facts_at begun (At.Reading replies)) (inputs.Reply only_place kind raw.now)) }
{
    let heard = replies.hear(alloc, shared.rules, begun.config(), kind, raw)?;
    goes_on(alloc, begun, heard)
}

// What a call does by what a reply comes to.
fn goes_on(alloc: Global, begun: Begun, heard: Heard) -> Result<(DState, Items<Effect>), NoRoom>
    ensures effects { IfOk result (λ r. r.1 ≡ (spec.by_heard begun.origin begun.options heard).effects) }
    ensures state { IfOk result (λ r. disconnect_facts_of r.0
        ≡ at_stage (unwrap_or (spec.by_heard begun.origin begun.options heard).stage Stage.Reading)
        (record begun { replies = taken heard })) }
{
    match heard {
        Heard::Refused(step) => fails(alloc, Failure::of_provider(step)),
        Heard::Waits(replies) => {
            let at = At::Reading(replies);
            Ok((DState::Pending(Pending { begun, at }), Items::new(alloc)))
        }
        Heard::Both(config) => asks_disconnect(alloc, begun, config),
        Heard::NotWaited(replies) => {
            let effects = not_taken(alloc, Why::NotWaited)?;
            let at = At::Reading(replies);
            Ok((DState::Pending(Pending { begun, at }), effects))
        }
    }
}

// Both files are good, and the provider is asked to disconnect the account, if it has an endpoint for it.
fn asks_disconnect(
    alloc: Global,
    begun: Begun,
    config: SharedConfig,
) -> Result<(DState, Items<Effect>), NoRoom>
    ensures effects { IfOk result (λ r. r.1 ≡ (spec.asks_disconnect begun.origin begun.options config.disconnect).effects) }
    ensures state { IfOk result (λ r. disconnect_facts_of r.0
        ≡ at_stage (unwrap_or (spec.asks_disconnect begun.origin begun.options config.disconnect).stage Stage.Reading)
        (record begun { replies = both_taken config })) }
{
    match &config.get().disconnect {
        Some(to) => {
            let effects = begun.disconnect_request(alloc, to)?;
            let at = At::Sending(config);
            Ok((DState::Pending(Pending { begun, at }), effects))
        }
        None => fails(alloc, Failure::plain(FailStep::NoDisconnect)),
    }
}

impl Begun {
    // The request for the end of the account's permission.
    fn disconnect_request(&self, alloc: Global, to: &WebUrl) -> Result<Items<Effect>, NoRoom>
        ensures { IfOk result (λ effects. effects ≡ Effect.Send only_place (Ask.Disconnect to.now self.now.options.client
            self.now.options.hint
            self.now.origin) ∷ []) }
    {
        let ask = Ask::Disconnect {
            to: to.copy(alloc)?,
            client: self.place.client.copy(alloc)?,
            hint: Placed::new(alloc, self.place.hint.copy(alloc)?)?,
            origin: Placed::new(alloc, self.origin().copy(alloc)?)?,
        };
        Effect::Send(ONLY_PLACE, ask).alone(alloc)
    }
}
