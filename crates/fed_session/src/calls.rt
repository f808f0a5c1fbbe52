//! What is kept of calls.
ghost use Rattle.std.specs.Prelude.{◌≡◌, true, is_some, IfOk, Some, None, option_copied, option_map};
ghost use Rattle.fed_call.specs.State.{facts_of};
ghost use Rattle.fed_disconnect.specs.State.{disconnect_facts_of};
ghost use Rattle.fed_status.specs.Shared.{world_of};
ghost use Rattle.fed_trace.specs.Begun.{is_get};
ghost use Rattle.fed_trace.specs.Call.{Known, OfGet, OfDisconnect, kind_of, page_of};
ghost use Rattle.fed_session.specs.Account.{account_known};
ghost use Rattle.fed_session.specs.StepParts.{known_of, awaited_in, stage_in, outcome_at, kept_next};

use fed_call::CallState;
use fed_consent::{Effect, Input};
use fed_disconnect::DState;
use fed_io::{Items, NoRoom};
use fed_origin::{Origin, Stage, WebUrl};
use fed_status::Shared;
use std::alloc::Global;
use std::marker::Model;

/// The state of a call, by its kind. It is small: what is large of it stands in places of its own.
#[derive(Drop)]
pub enum Pending {
    Get(CallState),
    Disconnect(DState),
}

/// What is kept of a call that was taken: its state, where it is pending or over.
#[derive(Drop)]
pub struct Kept {
    pub state: Pending,
}

impl Model for Kept {
    ghost use Rattle.std.specs.Prelude.{Option};
    ghost use Rattle.fed_trace.specs.Call.{Known};
    ghost use Rattle.fed_session.specs.StepParts.{known_of};

    ghost Value = { Option Known };

    ghost view = { λ kept. known_of kept.state };
}

impl Pending {
    /// The call after an input, and what it does there.
    pub(crate) fn advance(
        self,
        alloc: Global,
        input: &Input,
        shared: &Shared<'_>,
    ) -> Result<(Kept, Items<Effect>), NoRoom>
        ensures effects { IfOk result (λ r. r.1 ≡ (outcome_at (world_of shared.now) true (known_of self) input.now).effects) }
        ensures kept { IfOk result (λ r. r.0 ≡ kept_next (world_of shared.now) (known_of self) input.now) }
    {
        match self {
            Pending::Get(state) => {
                let (state, effects) = state.advance(alloc, input, shared)?;
                Ok((Kept::of_get(state), effects))
            }
            Pending::Disconnect(state) => {
                let (state, effects) = state.advance(alloc, input, shared)?;
                Ok((Kept::of_disconnect(state), effects))
            }
        }
    }

    /// The page of the call; none where it is over. It takes no memory.
    pub(crate) fn page(&self) -> Option<u32>
        ensures { result ≡ option_map page_of (known_of self.now) }
    {
        match self {
            Pending::Get(state) => state.page(),
            Pending::Disconnect(state) => state.page(),
        }
    }

    /// The configuration URL of the provider at this place whose well-known file or configuration the call awaits; none of another. It takes
    /// no memory.
    pub(crate) fn reads(&self, place: u32) -> Option<&WebUrl> {
        match self {
            Pending::Get(state) => state.reads(place),
            Pending::Disconnect(state) => state.reads(),
        }
    }

    /// Whether the login window of the call is open. It takes no memory.
    pub(crate) fn waits(&self) -> bool
        ensures { result ≡ is_some (awaited_in (known_of self.now)) }
    {
        self.waits_for().is_some()
    }

    /// The origin of the provider whose login window is open; none where none is. It takes no memory.
    pub(crate) fn waits_for(&self) -> Option<&Origin>
        ensures { option_copied result ≡ awaited_in (known_of self.now) }
    {
        match self {
            Pending::Get(state) => state.waits_for(),
            Pending::Disconnect(_) => None,
        }
    }

    /// The id of the account whose token is awaited; none of another call. It takes no memory.
    pub(crate) fn account(&self) -> Option<&str>
        ensures { option_copied result ≡ account_known (known_of self.now) }
    {
        match self {
            Pending::Get(state) => state.account(),
            Pending::Disconnect(_) => None,
        }
    }

    /// How far the call has come. It takes no memory.
    pub(crate) fn stage(&self) -> Stage
        ensures { result ≡ stage_in (known_of self.now) }
    {
        match self {
            Pending::Get(state) => state.stage(),
            Pending::Disconnect(state) => state.stage(),
        }
    }
}

impl Kept {
    /// What is kept of a get in this state. It takes no memory.
    pub(crate) fn of_get(state: CallState) -> Kept
        ensures { result ≡ option_map OfGet (facts_of state) }
    {
        Kept {
            state: Pending::Get(state),
        }
    }

    /// What is kept of a disconnect call in this state. It takes no memory.
    pub(crate) fn of_disconnect(state: DState) -> Kept
        ensures { result ≡ option_map OfDisconnect (disconnect_facts_of state) }
    {
        Kept {
            state: Pending::Disconnect(state),
        }
    }

    /// The state of the call. It takes no memory.
    pub(crate) fn into_state(self) -> Pending
        ensures { known_of result ≡ self }
    {
        self.state
    }

    /// The page of the call, where it is pending. It takes no memory.
    pub(crate) fn page(&self) -> Option<u32>
        ensures { result ≡ option_map page_of self.now }
    {
        self.state.page()
    }

    /// The origin for which the call waits; none where it waits for none. It takes no memory.
    pub(crate) fn waits_for(&self) -> Option<&Origin>
        ensures { option_copied result ≡ awaited_in self.now }
    {
        self.state.waits_for()
    }

    /// Whether the call, which is pending, is a get. It takes no memory.
    pub(crate) fn is_get(&self) -> bool
        ensures { (known : Known) → self.now ≡ Some known → result ≡ is_get (kind_of known) }
    {
        matches!(self.state, Pending::Get(_))
    }

    /// What is kept of a call that is over.
    pub(crate) fn over() -> Kept
        ensures { result ≡ None }
    {
        Kept::of_get(CallState::ended())
    }
}
