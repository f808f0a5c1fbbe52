//! What a disconnect call began with.
ghost use Rattle.std.specs.Prelude.{◌≡◌, [], ◌∷◌, IfOk};
ghost use Rattle.fed_origin.specs.WebUrl.{scheme_of};
ghost use Rattle.fed_provider.specs.WellKnown.{WellKnownUrlOf};
ghost use Rattle.fed_status.specs.Shared.{world_of};
ghost use Rattle.fed_consent.specs.Outcomes.{only_place};
ghost use Rattle.fed_disconnect.specs.Facts.{disconnect_options, fresh};
ghost use Rattle.fed_disconnect.specs.Rows as spec;

use fed_consent::{Ask, Effect, FailStep, ONLY_PLACE};
use fed_io::{Items, NoRoom, Text};
use fed_origin::{Origin, Scheme, SharedOrigin, WebUrl};
use fed_provider::ProviderStep;
use fed_status::Shared;
use std::alloc::Global;
use std::marker::Model;

// The parts of what a call began with.
pub struct BegunParts {
    pub call: u32,
    pub page: u32,
    // The page's origin, which the calls of a page share.
    pub origin: SharedOrigin,
    // The configuration URL.
    pub config: WebUrl,
    // The relying party's id at the provider.
    pub client: Text,
    // Which account is meant.
    pub hint: Text,
}

// Written out, so that one function lets it go wherever it ends.
impl Drop for BegunParts {
    fn drop(self) {
        let BegunParts {
            call: _,
            page: _,
            origin: _,
            config: _,
            client: _,
            hint: _,
        } = self;
    }
}

/// What a call began with. Its configuration URL is https. Contracts see it as what is known of the call at its beginning.
pub struct Begun {
    // In a place of their own, since each event moves the call's state several times.
    pub place: Box<BegunParts>,
}

impl Model for Begun {
    ghost use Rattle.fed_disconnect.specs.Facts.{DisconnectFacts, disconnect_options, fresh};

    ghost Value = { DisconnectFacts };

    ghost use Rattle.std.specs.Prelude.{◌≡◌};
    ghost use Rattle.fed_origin.specs.declared.scheme.Scheme.TheVariants.{Https};
    ghost use Rattle.fed_origin.specs.WebUrl.{scheme_of};

    ghost view = { λ b. fresh b.place.value.call b.place.value.page b.place.value.origin
        (disconnect_options b.place.value.config b.place.value.client b.place.value.hint) };

    ghost invariant = { λ b. scheme_of b.place.value.config ≡ Https };
}

// Written out, so that one function lets it go wherever it ends.
impl Drop for Begun {
    fn drop(self) {
        let Begun { place: _ } = self;
    }
}

impl Begun {
    /// What a call with these options begins with. Their configuration URL is https.
    pub fn new(
        alloc: Global,
        call: u32,
        page: u32,
        origin: SharedOrigin,
        config: WebUrl,
        client: Text,
        hint: Text,
    ) -> Result<Begun, NoRoom>
        requires { scheme_of config ≡ Scheme.Https }
        ensures { IfOk result (λ begun. begun ≡ fresh call page origin (disconnect_options config client hint)) }
    {
        let parts = BegunParts {
            call,
            page,
            origin,
            config,
            client,
            hint,
        };
        Ok(Begun {
            place: Box::new(alloc, parts)?,
        })
    }

    /// The configuration URL, which is https. It takes no memory.
    pub fn config(&self) -> &WebUrl
        ensures value { result.now ≡ self.now.options.config }
        ensures secure { scheme_of result.now ≡ Scheme.Https }
    {
        &self.place.config
    }

    /// The page's origin. It takes no memory.
    pub fn origin(&self) -> &Origin
        ensures { result.now ≡ self.now.origin }
    {
        self.place.origin.get()
    }

    /// The first requests of the call, whose well-known URL is this one, or the step at which it fails.
    pub fn first_requests(
        &self,
        alloc: Global,
        wellknown: Result<WebUrl, ProviderStep>,
        shared: &Shared<'_>,
    ) -> Result<Result<Items<Effect>, FailStep>, NoRoom>
        requires known { wellknown ≡ WellKnownUrlOf (world_of shared.now).rules self.now.options.config }
        ensures { IfOk result (λ first. spec.first_outcome first
            ≡ spec.disconnect_start_row (world_of shared.now) self.now.origin self.now.options) }
    {
        // Looked at first, so that the URL is known to be https in each arm.
        let provider = self.place.config.origin();
        let wellknown = match wellknown {
            Ok(url) => url,
            Err(_) => return Ok(Err(FailStep::NoSite)),
        };
        if !shared.kept.has_pair(self.origin(), provider) {
            return Ok(Err(FailStep::NotConnected));
        }
        Ok(Ok(requests(alloc, wellknown, &self.place.config)?))
    }
}

// The requests for the well-known file and the configuration.
fn requests(alloc: Global, wellknown: WebUrl, config: &WebUrl) -> Result<Items<Effect>, NoRoom>
    ensures { IfOk result (λ effects. effects ≡ Effect.Send only_place (Ask.WellKnown wellknown)
        ∷ Effect.Send only_place (Ask.Config config.now)
        ∷ []) }
{
    let config = config.copy(alloc)?;
    let next = Effect::Send(ONLY_PLACE, Ask::Config { to: config });
    Effect::Send(ONLY_PLACE, Ask::WellKnown { to: wellknown }).then(alloc, next)
}
