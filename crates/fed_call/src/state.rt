//! The state of a call.
ghost use Rattle.std.specs.Prelude.{◌≡◌, ◌≤◌, IfOk, IfSome, IsTrue, None, Some, length, option_map};
ghost use Rattle.std.specs.List.{AllZip};
ghost use Rattle.std.specs.Option.{option_copied};
ghost use Rattle.fed_origin.specs.WebUrl.{scheme_of};
ghost use Rattle.fed_provider.specs.WellKnown.{WellKnownUrlOf};
ghost use Rattle.fed_status.specs.Shared.{world_of};
ghost use Rattle.fed_call.specs.Facts.{provider_at, started, stage_of, next_facts};
ghost use Rattle.fed_call.specs.Fits.{fits};
ghost use Rattle.fed_call.specs.Opening.{Knows};
ghost use Rattle.fed_consent.specs.Outcomes.{only_place};
ghost use Rattle.fed_call.specs.Row.{start_row, call_row};
ghost use Rattle.fed_call.specs.Account.{account_awaited};
ghost use Rattle.fed_call.specs.State.{at_facts, facts_of, pending_facts};
ghost use Rattle.fed_call.specs.WindowRows.{awaited_by};

use crate::begun::Call;
use crate::effects::{fails, ignores};
use crate::pending::Pending;
use crate::several::first_of_all;
use crate::stages::At;
use crate::start::{first_requests, is_secure, only_provider, wellknowns};
use fed_consent::{Effect, FailStep, Failure, Input, Why};
use fed_io::{Items, NoRoom};
use fed_origin::{GetOptions, Origin, Scheme, SharedOrigin, Stage, WebUrl};
use fed_provider::{FirstReplies, ProviderStep, site_url};
use fed_status::Shared;
use std::alloc::Global;

/// A get call: what it began with, and its stage with what is kept of it there. Contracts see the facts of the call (`facts_of`), none
/// where it is over.
pub struct CallState {
    pending: Option<Pending>,
}

// Each type with a call in it has its drop written out, so that one function lets it go wherever it ends.
impl Drop for CallState {
    fn drop(self) {
        let CallState { pending: _ } = self;
    }
}

impl CallState {
    /// A call that begins, and what it does. With one provider it fails by the rows C2 to C6, or sends its first requests by row C7; with
    /// several it goes by the rows M1 to M4. It has one to ten.
    pub fn start(
        alloc: Global,
        call: u32,
        page: u32,
        origin: Origin,
        options: GetOptions,
        shared: &Shared<'_>,
    ) -> Result<(CallState, Items<Effect>), NoRoom>
        requires some { 1 ≤ length options.providers }
        requires few { length options.providers ≤ 10 }
        ensures effects { IfOk result (λ r. r.1 ≡ (start_row (world_of shared.now) origin options).effects) }
        ensures state { IfOk result (λ r. facts_of r.0
            ≡ started (world_of shared.now) call page origin options (start_row (world_of shared.now) origin options)) }
        ensures stage { IfOk result (λ r. Some (stage_of (facts_of r.0)) ≡ (start_row (world_of shared.now) origin options).stage) }
    {
        if options.providers.len() == 1 {
            return CallState::start_only(alloc, call, page, origin, options, shared);
        }
        let wellknown = wellknowns(alloc, shared.rules.suffixes(), options.providers.as_slice())?;
        let origin = SharedOrigin::new(alloc, origin)?;
        CallState::start_several(alloc, call, page, origin, options, wellknown, shared)
    }

    // The same with one provider.
    fn start_only(
        alloc: Global,
        call: u32,
        page: u32,
        origin: Origin,
        options: GetOptions,
        shared: &Shared<'_>,
    ) -> Result<(CallState, Items<Effect>), NoRoom>
        requires { length options.providers ≡ 1 }
        ensures effects { IfOk result (λ r. r.1 ≡ (start_row (world_of shared.now) origin options).effects) }
        ensures state { IfOk result (λ r. facts_of r.0
            ≡ started (world_of shared.now) call page origin options (start_row (world_of shared.now) origin options)) }
        ensures stage { IfOk result (λ r. Some (stage_of (facts_of r.0)) ≡ (start_row (world_of shared.now) origin options).stage) }
    {
        let provider = only_provider(&options);
        // Row C2.
        if !is_secure(provider) {
            return fails(alloc, Failure::plain(FailStep::ConfigScheme));
        }
        let wellknown = site_url(alloc, shared.rules.suffixes(), &provider.config)?;
        let origin = SharedOrigin::new(alloc, origin)?;
        CallState::start_with(alloc, call, page, origin, options, wellknown, shared)
    }

    /// The same for a call whose only provider's configuration URL is https, where its well-known URL is known and the calls of its page
    /// share the page's origin: neither is made anew. `wellknown` is what `wellknown_url` of fed_provider answers.
    pub fn start_with(
        alloc: Global,
        call: u32,
        page: u32,
        origin: SharedOrigin,
        options: GetOptions,
        wellknown: Result<WebUrl, ProviderStep>,
        shared: &Shared<'_>,
    ) -> Result<(CallState, Items<Effect>), NoRoom>
        requires one { length options.providers ≡ 1 }
        requires secure { IfSome (provider_at only_place options) (λ p. scheme_of p.config ≡ Scheme.Https) }
        requires known { IfSome (provider_at only_place options)
            (λ p. wellknown ≡ WellKnownUrlOf (world_of shared.now).rules p.config) }
        ensures effects { IfOk result (λ r. r.1 ≡ (start_row (world_of shared.now) origin options).effects) }
        ensures state { IfOk result (λ r. facts_of r.0
            ≡ started (world_of shared.now) call page origin options (start_row (world_of shared.now) origin options)) }
        ensures stage { IfOk result (λ r. Some (stage_of (facts_of r.0)) ≡ (start_row (world_of shared.now) origin options).stage) }
    {
        match first_requests(alloc, origin.get(), &options, wellknown, shared)? {
            Ok(effects) => {
                let begun = Call::new(alloc, call, page, origin, options)?;
                let at = At::Reading(FirstReplies::none());
                Ok((CallState::pending(begun, at), effects))
            }
            Err(step) => fails(alloc, Failure::plain(step)),
        }
    }

    /// The same for a call with two to ten providers, where the well-known URL of each whose configuration URL is https is known:
    /// `wellknown` has it, in their order, and anything for another.
    pub fn start_several(
        alloc: Global,
        call: u32,
        page: u32,
        origin: SharedOrigin,
        options: GetOptions,
        wellknown: Items<Result<WebUrl, ProviderStep>>,
        shared: &Shared<'_>,
    ) -> Result<(CallState, Items<Effect>), NoRoom>
        requires several { 2 ≤ length options.providers }
        requires few { length options.providers ≤ 10 }
        requires known { AllZip (Knows (world_of shared.now).rules) options.providers wellknown }
        ensures effects { IfOk result (λ r. r.1 ≡ (start_row (world_of shared.now) origin options).effects) }
        ensures state { IfOk result (λ r. facts_of r.0
            ≡ started (world_of shared.now) call page origin options (start_row (world_of shared.now) origin options)) }
        ensures stage { IfOk result (λ r. Some (stage_of (facts_of r.0)) ≡ (start_row (world_of shared.now) origin options).stage) }
    {
        match first_of_all(alloc, origin.get(), &options, wellknown, shared)? {
            Ok((progress, effects)) => {
                let begun = Call::new(alloc, call, page, origin, options)?;
                Ok((CallState::pending(begun, At::Gathering(progress)), effects))
            }
            Err(effects) => Ok((CallState::ended(), effects)),
        }
    }

    /// A call that is over. It takes no memory.
    pub fn ended() -> CallState
        ensures { facts_of result ≡ None }
    {
        CallState { pending: None }
    }

    // A call at this stage.
    pub(crate) fn pending(begun: Call, at: At) -> CallState
        requires { IsTrue (fits begun at) }
        ensures { facts_of result ≡ Some (at_facts begun at) }
    {
        CallState::of(Pending { begun, at })
    }

    // A call that is not over.
    pub(crate) fn of(pending: Pending) -> CallState
        ensures { facts_of result ≡ Some (pending_facts pending) }
    {
        CallState {
            pending: Some(pending),
        }
    }

    /// The call after an input, and what it does there: rows C8 to C34 and C36, M5 to M15. A call that is over ignores each input. On want
    /// of memory the call is gone, and a consent that was made is voided.
    pub fn advance(
        self,
        alloc: Global,
        input: &Input,
        shared: &Shared<'_>,
    ) -> Result<(CallState, Items<Effect>), NoRoom>
        ensures effects { IfOk result (λ r. r.1 ≡ (call_row (world_of shared.now) (facts_of self) input.now).effects) }
        ensures state { IfOk result (λ r. facts_of r.0
            ≡ next_facts (world_of shared.now) (facts_of self) input.now (call_row (world_of shared.now)
            (facts_of self) input.now)) }
    {
        let CallState { pending } = self;
        match pending {
            Some(pending) => pending.advance(alloc, input, shared),
            None => ignores(alloc, CallState::ended(), Why::CallEnded),
        }
    }

    /// How far the call has come. It takes no memory.
    pub fn stage(&self) -> Stage
        ensures { result ≡ stage_of (facts_of self.now) }
    {
        match &self.pending {
            Some(pending) => pending.stage(),
            None => Stage::Ended,
        }
    }

    /// The configuration URL of the provider at this place of a call that waits for its well-known file or its configuration; none of
    /// another call. It takes no memory.
    pub fn reads(&self, place: u32) -> Option<&WebUrl>
        ensures { IfSome result (λ url. IfSome (facts_of self.now) (λ facts. IfSome (provider_at place facts.options)
            (λ p. url.now ≡ p.config))) }
    {
        match &self.pending {
            Some(pending) => pending.reads(place),
            None => None,
        }
    }

    /// The origin of the provider whose login window is open; none where none is. It takes no memory.
    pub fn waits_for(&self) -> Option<&Origin>
        ensures { option_copied result ≡ awaited_by (facts_of self.now) }
    {
        match &self.pending {
            Some(pending) => pending.waits_for(),
            None => None,
        }
    }

    /// The id of the account whose token is awaited; none of another call. It takes no memory.
    pub fn account(&self) -> Option<&str>
        ensures { option_copied result ≡ account_awaited (facts_of self.now) }
    {
        match &self.pending {
            Some(pending) => pending.account(),
            None => None,
        }
    }

    /// The page of the call; none where it is over. It takes no memory.
    pub fn page(&self) -> Option<u32>
        ensures { result ≡ option_map (λ facts. facts.page) (facts_of self.now) }
    {
        match &self.pending {
            Some(pending) => Some(pending.page()),
            None => None,
        }
    }
}
