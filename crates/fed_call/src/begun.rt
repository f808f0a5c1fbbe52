//! What a call began with.
ghost use Rattle.std.specs.Prelude.{◌≡◌, ◌∷◌, ◌≤◌, Some, IfOk, IsTrue, is_some, length};
ghost use Rattle.fed_origin.specs.WebUrl.{origin_of};
ghost use Rattle.fed_call.specs.Begun.{about, options_of};
ghost use Rattle.fed_call.specs.Facts.{provider_at};
ghost use Rattle.fed_call.specs.WindowRows.{origin_at};
ghost use Rattle.fed_consent.specs.Outcomes.{only_place};

use fed_io::{Items, NoRoom};
use fed_origin::{Context, GetOptions, Mediation, Mode, Origin, ProviderOptions, SharedOrigin};
use std::alloc::Global;
use std::marker::Model;

// The parts of what a call began with.
struct CallParts {
    call: u32,
    page: u32,
    // The page's origin, which the calls of a page share.
    origin: SharedOrigin,
    mediation: Mediation,
    mode: Mode,
    activation: bool,
    context: Context,
    // The first provider, and no memory where there are no others.
    first: ProviderOptions,
    others: Items<ProviderOptions>,
    // The place of the provider that the call is about.
    place: u32,
}

impl Drop for CallParts {
    fn drop(self) {
        let CallParts {
            call: _,
            page: _,
            origin: _,
            mediation: _,
            mode: _,
            activation: _,
            context: _,
            first: _,
            others: _,
            place: _,
        } = self;
    }
}

/// What a call began with, and which provider it is about. It has one to ten.
pub struct Call {
    // In a place of their own, since each event moves the call's state several times.
    parts: Box<CallParts>,
}

impl Model for Call {
    ghost use Rattle.std.specs.Prelude.{◌∷◌, ◌≤◌, ◌<◌, length};
    ghost use Rattle.fed_call.specs.Begun.{Begun, provider_in};

    ghost Value = { Begun };

    ghost view = { λ c. record {
      call = c.parts.value.call;
      page = c.parts.value.page;
      origin = c.parts.value.origin;
      mediation = c.parts.value.mediation;
      mode = c.parts.value.mode;
      activation = c.parts.value.activation;
      context = c.parts.value.context;
      providers = c.parts.value.first ∷ c.parts.value.others;
      place = c.parts.value.place;
      provider = provider_in c.parts.value.first c.parts.value.others c.parts.value.place;
    } };

    ghost invariant = { λ c. record {
      inside : c.parts.value.place < length (c.parts.value.first ∷ c.parts.value.others);
      few : length (c.parts.value.first ∷ c.parts.value.others) ≤ 10;
    } };
}

impl Drop for Call {
    fn drop(self) {
        let Call { parts: _ } = self;
    }
}

// The first of a list, and the others.
fn parted(
    alloc: Global,
    providers: Items<ProviderOptions>,
) -> (ProviderOptions, Items<ProviderOptions>)
    requires { 1 ≤ length providers }
    ensures { providers ≡ result.0 ∷ result.1 }
{
    let mut list = providers.into_vec();
    let first = list.remove(0);
    if list.is_empty() {
        return (first, Items::new(alloc));
    }
    (first, Items::from_vec(list))
}

impl Call {
    /// What a call with these options begins with. They have one to ten providers; it is about the first.
    pub fn new(
        alloc: Global,
        call: u32,
        page: u32,
        origin: SharedOrigin,
        options: GetOptions,
    ) -> Result<Call, NoRoom>
        requires some { 1 ≤ length options.providers }
        requires few { length options.providers ≤ 10 }
        ensures options { IfOk result (λ begun. options_of begun ≡ options) }
        ensures call { IfOk result (λ begun. begun.call ≡ call) }
        ensures page { IfOk result (λ begun. begun.page ≡ page) }
        ensures origin { IfOk result (λ begun. begun.origin ≡ origin) }
        ensures first { IfOk result (λ begun. provider_at 0 options ≡ Some begun.provider) }
    {
        let GetOptions {
            mediation,
            mode,
            activation,
            context,
            providers,
        } = options;
        let (first, others) = parted(alloc, providers);
        let parts = CallParts {
            call,
            page,
            origin,
            mediation,
            mode,
            activation,
            context,
            first,
            others,
            place: 0,
        };
        Ok(Call {
            parts: Box::new(alloc, parts)?,
        })
    }

    /// Its number.
    pub fn call(&self) -> u32
        ensures { result ≡ self.now.call }
    {
        self.parts.call
    }

    /// The number of its page.
    pub fn page(&self) -> u32
        ensures { result ≡ self.now.page }
    {
        self.parts.page
    }

    /// The origin of its page.
    pub fn origin(&self) -> &Origin
        ensures { result.now ≡ self.now.origin }
    {
        self.parts.origin.get()
    }

    /// Its mediation.
    pub fn mediation(&self) -> Mediation
        ensures { result ≡ self.now.mediation }
    {
        self.parts.mediation
    }

    /// Its mode.
    pub fn mode(&self) -> Mode
        ensures { result ≡ self.now.mode }
    {
        self.parts.mode
    }

    /// Its context.
    pub fn context(&self) -> Context
        ensures { result ≡ self.now.context }
    {
        self.parts.context
    }

    /// How many providers it has.
    pub fn count(&self) -> usize
        ensures value { result ≡ length self.now.providers }
        ensures few { result ≤ 10 }
    {
        self.parts.others.len() + 1
    }

    /// Whether it has a provider at this place.
    pub fn has(&self, place: u32) -> bool
        ensures { result ≡ is_some (provider_at place (options_of self.now)) }
    {
        place as usize <= self.parts.others.len()
    }

    /// The provider at this place.
    pub fn provider_of(&self, place: u32) -> &ProviderOptions
        requires { IsTrue (is_some (provider_at place (options_of self.now))) }
        ensures { provider_at place (options_of self.now) ≡ Some result.now }
    {
        let parts = &self.parts;
        if place == 0 {
            return &parts.first;
        }
        &parts.others.as_slice()[place as usize - 1]
    }

    /// The place of the provider that it is about.
    pub fn place(&self) -> u32
        ensures value { result ≡ self.now.place }
        ensures inside { provider_at self.now.place (options_of self.now) ≡ Some self.now.provider }
    {
        self.parts.place
    }

    /// The provider that it is about.
    pub fn provider(&self) -> &ProviderOptions
        ensures value { result.now ≡ self.now.provider }
        ensures inside { provider_at self.now.place (options_of self.now) ≡ Some self.now.provider }
    {
        let parts = &self.parts;
        if parts.place == 0 {
            return &parts.first;
        }
        &parts.others.as_slice()[parts.place as usize - 1]
    }

    /// The origin of the first provider.
    pub fn first_origin(&self) -> &Origin
        ensures { Some result.now ≡ origin_at only_place (options_of self.now) }
    {
        self.parts.first.config.origin()
    }

    /// The origin of the provider that it is about.
    pub fn provider_origin(&self) -> &Origin
        ensures { result.now ≡ origin_of self.now.provider.config }
    {
        self.provider().config.origin()
    }

    /// The call is about the provider at this place from now on. It takes no memory.
    pub fn about(self, place: u32) -> Call
        requires { IsTrue (is_some (provider_at place (options_of self))) }
        ensures value { result ≡ about place result.provider self }
        ensures provider { provider_at place (options_of self) ≡ Some result.provider }
    {
        let Call { mut parts } = self;
        parts.place = place;
        Call { parts }
    }
}
