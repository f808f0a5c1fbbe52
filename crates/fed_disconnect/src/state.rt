//! The state of a disconnect call.
ghost use Rattle.std.specs.Prelude.{◌≡◌, IfOk, IfSome, Some, option_map};
ghost use Rattle.fed_origin.specs.WebUrl.{scheme_of};
ghost use Rattle.fed_provider.specs.WellKnown.{WellKnownUrlOf};
ghost use Rattle.fed_status.specs.Shared.{world_of};
ghost use Rattle.fed_disconnect.specs.Facts.{disconnect_options, disconnect_stage, disconnect_started, next_disconnect_facts};
ghost use Rattle.fed_disconnect.specs.Rows.{disconnect_row, disconnect_start_row};
ghost use Rattle.fed_disconnect.specs.State.{disconnect_facts_of};

use crate::begun::Begun;
use crate::effects::{fails, not_taken};
use crate::pending::{At, Pending};
use fed_consent::{Effect, FailStep, Failure, Input, Why};
use fed_io::{Items, NoRoom, Text};
use fed_origin::{Origin, Scheme, SharedOrigin, Stage, WebUrl};
use fed_provider::{FirstReplies, ProviderStep, site_url};
use fed_status::Shared;
use std::alloc::Global;

/// A disconnect call. Contracts see what is known of it (`disconnect_facts_of`), nothing where it is over.
pub enum DState {
    /// The call goes on.
    Pending(Pending),
    /// The call is over.
    Ended,
}

// Each type with a call in it has its drop written out, so that one function lets it go wherever it ends.
impl Drop for DState {
    fn drop(self) {
        match self {
            DState::Pending(_) | DState::Ended => {}
        }
    }
}

impl DState {
    /// A call of `IdentityCredential.disconnect` that begins, and what it does: it fails by the rows E1, E2 or E3, or sends
    /// its first requests by row E4. `config` is the configuration URL, `client` the relying party's id at the provider, and
    /// `hint` says which account is meant. On want of memory there is no call.
    pub fn start(
        alloc: Global,
        call: u32,
        page: u32,
        origin: Origin,
        config: WebUrl,
        client: Text,
        hint: Text,
        shared: &Shared<'_>,
    ) -> Result<(DState, Items<Effect>), NoRoom>
        ensures effects { IfOk result (λ r. r.1 ≡ (disconnect_start_row (world_of shared.now) origin
            (disconnect_options config client hint)).effects) }
        ensures state { IfOk result (λ r. disconnect_facts_of r.0 ≡ disconnect_started call page origin (disconnect_options config client
            hint) (disconnect_start_row (world_of shared.now) origin (disconnect_options config client hint))) }
        ensures stage { IfOk result (λ r. Some (disconnect_stage (disconnect_facts_of r.0))
            ≡ (disconnect_start_row (world_of shared.now) origin (disconnect_options config client hint)).stage) }
    {
        if config.scheme() == Scheme::Http {
            return fails(alloc, Failure::plain(FailStep::ConfigScheme));
        }
        let wellknown = site_url(alloc, shared.rules.suffixes(), &config)?;
        let origin = SharedOrigin::new(alloc, origin)?;
        DState::start_with(
            alloc, call, page, origin, config, client, hint, wellknown, shared,
        )
    }

    /// The same for a call whose configuration URL is https, where its well-known URL is known and the calls of its page share the
    /// page's origin: neither is made anew. `wellknown` is what `wellknown_url` of fed_provider answers.
    pub fn start_with(
        alloc: Global,
        call: u32,
        page: u32,
        origin: SharedOrigin,
        config: WebUrl,
        client: Text,
        hint: Text,
        wellknown: Result<WebUrl, ProviderStep>,
        shared: &Shared<'_>,
    ) -> Result<(DState, Items<Effect>), NoRoom>
        requires secure { scheme_of config ≡ Scheme.Https }
        requires known { wellknown ≡ WellKnownUrlOf (world_of shared.now).rules config }
        ensures effects { IfOk result (λ r. r.1 ≡ (disconnect_start_row (world_of shared.now) origin
            (disconnect_options config client hint)).effects) }
        ensures state { IfOk result (λ r. disconnect_facts_of r.0 ≡ disconnect_started call page origin (disconnect_options config client
            hint) (disconnect_start_row (world_of shared.now) origin (disconnect_options config client hint))) }
        ensures stage { IfOk result (λ r. Some (disconnect_stage (disconnect_facts_of r.0))
            ≡ (disconnect_start_row (world_of shared.now) origin (disconnect_options config client hint)).stage) }
    {
        let begun = Begun::new(alloc, call, page, origin, config, client, hint)?;
        match begun.first_requests(alloc, wellknown, shared)? {
            Ok(effects) => {
                let at = At::Reading(FirstReplies::none());
                Ok((DState::Pending(Pending { begun, at }), effects))
            }
            Err(step) => fails(alloc, Failure::plain(step)),
        }
    }

    /// The call after an input, and what it does there: rows E5 to E11 and E13. A call that is over ignores each input. On
    /// want of memory the call is gone.
    pub fn advance(
        self,
        alloc: Global,
        input: &Input,
        shared: &Shared<'_>,
    ) -> Result<(DState, Items<Effect>), NoRoom>
        ensures effects { IfOk result (λ r. r.1 ≡ (disconnect_row (world_of shared.now) (disconnect_facts_of self) input.now).effects) }
        ensures state { IfOk result (λ r. disconnect_facts_of r.0 ≡ next_disconnect_facts (world_of shared.now) (disconnect_facts_of
            self) input.now (disconnect_row (world_of shared.now) (disconnect_facts_of self) input.now)) }
    {
        match self {
            DState::Pending(call) => call.advance(alloc, input, shared),
            DState::Ended => {
                let effects = not_taken(alloc, Why::CallEnded)?;
                Ok((DState::Ended, effects))
            }
        }
    }

    /// How far the call has come: `Reading`, `Asserting` once the provider was asked to disconnect, or `Ended`. It takes no
    /// memory.
    pub fn stage(&self) -> Stage
        ensures { result ≡ disconnect_stage (disconnect_facts_of self.now) }
    {
        match self {
            DState::Pending(call) => call.stage(),
            DState::Ended => Stage::Ended,
        }
    }

    /// The configuration URL of a call whose well-known file and configuration are awaited; none of another call. It takes no memory.
    pub fn reads(&self) -> Option<&WebUrl>
        ensures { IfSome result (λ url. IfSome (disconnect_facts_of self.now) (λ facts. url.now ≡ facts.options.config)) }
    {
        match self {
            DState::Pending(call) => call.reads(),
            DState::Ended => None,
        }
    }

    /// The page of the call; none where it is over. It takes no memory.
    pub fn page(&self) -> Option<u32>
        ensures { result ≡ option_map (λ facts. facts.page) (disconnect_facts_of self.now) }
    {
        match self {
            DState::Pending(call) => Some(call.begun.place.page),
            DState::Ended => None,
        }
    }
}
