//! A disconnect call that is not over.
ghost use Rattle.std.specs.Prelude.{◌≡◌, ◌==◌, ◌&&◌, true, IfOk, IfSome};
ghost use Rattle.fed_consent.specs.Outcomes.{ignored, only_place};
ghost use Rattle.fed_consent.specs.declared.table.input.Input.TheVariants as inputs;
ghost use Rattle.fed_status.specs.Shared.{world_of};
ghost use Rattle.fed_disconnect.specs.Rows as spec;
ghost use Rattle.fed_disconnect.specs.State.{awaited, disconnect_facts_of, facts_at, pending_facts};

use crate::DState;
use crate::begun::Begun;
use crate::effects::not_taken;
use crate::reading::hears;
use crate::sending::answered;
use fed_consent::{Effect, Input, ONLY_PLACE, Why};
use fed_io::{Items, NoRoom};
use fed_origin::{ReplyKind, Stage, WebUrl};
use fed_provider::{FirstReplies, SharedConfig};
use fed_status::Shared;
use std::alloc::Global;

/// A disconnect call that is not over: what it began with, and its stage.
pub struct Pending {
    pub(crate) begun: Begun,
    pub(crate) at: At,
}

/// The stage of a disconnect call, with what is kept of the call there.
pub enum At {
    /// The well-known file and the configuration are awaited, but for those that were taken.
    Reading(FirstReplies),
    /// The disconnect reply is awaited.
    Sending(SharedConfig),
}

impl Drop for Pending {
    fn drop(self) {
        let Pending { begun: _, at: _ } = self;
    }
}

impl Drop for At {
    fn drop(self) {
        match self {
            At::Reading(_) | At::Sending(_) => {}
        }
    }
}

impl Pending {
    /// The call after an input, and what it does there. What no stage takes stands here alone.
    pub(crate) fn advance(
        self,
        alloc: Global,
        input: &Input,
        shared: &Shared<'_>,
    ) -> Result<(DState, Items<Effect>), NoRoom>
        ensures effects { IfOk result (λ r. r.1 ≡ (spec.input_row (world_of shared.now) (pending_facts self) input.now).effects) }
        ensures state { IfOk result (λ r. disconnect_facts_of r.0
            ≡ spec.input_facts (world_of shared.now) (pending_facts self) input.now) }
    {
        match input {
            Input::Reply {
                provider,
                kind,
                raw,
            } => self.reply(alloc, shared, *provider, *kind, raw.as_slice()),
            Input::Abort
            | Input::Choose { .. }
            | Input::GoOn
            | Input::Cancel
            | Input::SignIn
            | Input::Shut
            | Input::Resume => self.declines(alloc, Why::NotOffered),
        }
    }

    // The call does not take the event.
    fn declines(self, alloc: Global, why: Why) -> Result<(DState, Items<Effect>), NoRoom>
        ensures effects { IfOk result (λ r. r.1 ≡ (ignored why).effects) }
        ensures state { IfOk result (λ r. r.0 ≡ DState.Pending self) }
    {
        let effects = not_taken(alloc, why)?;
        Ok((DState::Pending(self), effects))
    }

    // A reply for the provider at this place: nothing is read of one that is not awaited.
    fn reply(
        self,
        alloc: Global,
        shared: &Shared<'_>,
        place: u32,
        kind: ReplyKind,
        raw: &[u8],
    ) -> Result<(DState, Items<Effect>), NoRoom>
        ensures effects { IfOk result (λ r. r.1
            ≡ (spec.provider_reply (world_of shared.now) (pending_facts self) (place == only_place) kind raw.now).effects) }
        ensures state { IfOk result (λ r. disconnect_facts_of r.0
            ≡ spec.input_facts (world_of shared.now) (pending_facts self) (inputs.Reply place kind raw.now)) }
    {
        if self.awaits(place, kind) {
            let Pending { begun, at } = self;
            return at.takes(alloc, shared, begun, kind, raw);
        }
        self.declines(alloc, Why::NotWaited)
    }

    // Whether a reply of this kind of the provider at this place is awaited.
    fn awaits(&self, place: u32, kind: ReplyKind) -> bool
        ensures { result ≡ ((place == only_place) && awaited self.now.at kind) }
    {
        place == ONLY_PLACE && self.at.awaits(kind)
    }

    /// How far the call has come. It takes no memory.
    pub(crate) fn stage(&self) -> Stage
        ensures { result ≡ (pending_facts self.now).stage }
    {
        match &self.at {
            At::Reading(_) => Stage::Reading,
            At::Sending(_) => Stage::Asserting,
        }
    }

    /// The configuration URL of a call whose first replies are awaited. It takes no memory.
    pub(crate) fn reads(&self) -> Option<&WebUrl>
        ensures { IfSome result (λ url. url.now ≡ (pending_facts self.now).options.config) }
    {
        match &self.at {
            At::Reading(_) => Some(self.begun.config()),
            At::Sending(_) => None,
        }
    }
}

impl At {
    // Whether replies of this kind are awaited at the stage.
    fn awaits(&self, kind: ReplyKind) -> bool
        ensures { result ≡ awaited self.now kind }
    {
        match self {
            At::Reading(_) => matches!(kind, ReplyKind::WellKnown | ReplyKind::Config),
            At::Sending(_) => matches!(kind, ReplyKind::Disconnect),
        }
    }

    // The call that began so after a reply of a kind that is awaited, and what it does there.
    fn takes(
        self,
        alloc: Global,
        shared: &Shared<'_>,
        begun: Begun,
        kind: ReplyKind,
        raw: &[u8],
    ) -> Result<(DState, Items<Effect>), NoRoom>
        requires { awaited self kind ≡ true }
        ensures effects { IfOk result (λ r. r.1 ≡ (spec.stage_reply (world_of shared.now) (facts_at begun self)
            (facts_at begun self).stage kind raw.now).effects) }
        ensures state { IfOk result (λ r. disconnect_facts_of r.0
            ≡ spec.input_facts (world_of shared.now) (facts_at begun self) (inputs.Reply only_place kind raw.now)) }
    {
        match self {
            At::Reading(replies) => hears(alloc, shared, begun, replies, kind, raw),
            At::Sending(_) => {
                let effects = answered(alloc, shared, &begun, raw)?;
                Ok((DState::Ended, effects))
            }
        }
    }
}
