//! The beginning of a call with several providers.
ghost use Rattle.std.specs.Prelude.{◌≡◌, ◌≤◌, ◌++◌, ◌∷◌, [], IfOk, OnOk, bytes_eq, length, map};
ghost use Rattle.std.specs.List.{AllZip, list_any};
ghost use Rattle.url.specs.Parts.{serialize};
ghost use Rattle.fed_consent.specs.Failures.{plain};
ghost use Rattle.fed_status.specs.Shared.{world_of};
ghost use Rattle.fed_call.specs.declared.progress.Progress.TheVariants as progress_is;
ghost use Rattle.fed_call.specs.GatheringRows as spec;
ghost use Rattle.fed_call.specs.Opening.{Knows, opened_by, opens_by, several_outcome};
ghost use Rattle.fed_call.specs.Progress.{first_progress};

use crate::opening::{config_request, is_prevented, opening, wellknown_request};
use crate::progress::{Progress, all_dropped};
use fed_consent::{Effect, FailStep, Failure, Finish};
use fed_io::{Items, NoRoom};
use fed_origin::{GetOptions, Mode, Origin, ProviderOptions, WebUrl};
use fed_provider::{FirstReplies, ProviderStep};
use fed_status::Shared;
use std::alloc::Global;

/// How far each provider has come as a call of a page of this origin begins, with what is done; or what is done as the call fails.
/// `wellknown` has the well-known URL of each provider whose configuration URL is https.
pub fn first_of_all(
    alloc: Global,
    origin: &Origin,
    options: &GetOptions,
    wellknown: Items<Result<WebUrl, ProviderStep>>,
    shared: &Shared<'_>,
) -> Result<Result<(Items<Progress>, Items<Effect>), Items<Effect>>, NoRoom>
    requires several { 2 ≤ length options.now.providers }
    requires few { length options.now.providers ≤ 10 }
    requires known { AllZip (Knows (world_of shared.now).rules) options.now.providers wellknown }
    ensures value { IfOk result (λ first. several_outcome first ≡ spec.start_several (world_of shared.now) origin.now options.now) }
    ensures progress { IfOk result (λ first. IfOk first (λ r. r.0
        ≡ map (first_progress (world_of shared.now) options.now.mode) options.now.providers)) }
{
    // Row M1.
    if is_active(options.mode) {
        return Ok(Err(failed(alloc, FailStep::ActiveMany)?));
    }
    // Row M2.
    if is_twice(options.providers.as_slice()) {
        return Ok(Err(failed(alloc, FailStep::ProviderTwice)?));
    }
    // Row M3.
    if is_prevented(options.mediation, shared.flags, origin) {
        return Ok(Err(failed(alloc, FailStep::SilentPrevented)?));
    }
    open_several(alloc, origin, options, wellknown, shared)
}

// The call fails at this step.
fn failed(alloc: Global, step: FailStep) -> Result<Items<Effect>, NoRoom>
    ensures { IfOk result (λ effects. effects ≡ Effect.Finish (Finish.Failed (plain step)) ∷ []) }
{
    Effect::Finish(Finish::Failed(Failure::plain(step))).alone(alloc)
}

fn is_active(mode: Mode) -> bool
    ensures { result ≡ spec.is_active mode }
{
    match mode {
        Mode::Active => true,
        Mode::Passive => false,
    }
}

// Whether two providers have one configuration URL.
fn is_twice(providers: &[ProviderOptions]) -> bool
    ensures { result ≡ spec.has_twice (map (λ p. serialize p.config) providers.now) }
{
    let mut left = providers;
    while let Some((provider, others)) = left.split_first() {
        if is_among(provider.config.as_str(), others) {
            return true;
        }
        left = others;
    }
    false
}

// Whether one of these providers has this configuration URL.
fn is_among(url: &str, providers: &[ProviderOptions]) -> bool
    ensures { result ≡ list_any (bytes_eq url.now) (map (λ p. serialize p.config) providers.now) }
{
    providers
        .iter()
        .any(|provider| url == provider.config.as_str())
}

// Row M4: each provider drops out, or its files are asked for; and the call fails where all dropped out.
fn open_several(
    alloc: Global,
    origin: &Origin,
    options: &GetOptions,
    wellknown: Items<Result<WebUrl, ProviderStep>>,
    shared: &Shared<'_>,
) -> Result<Result<(Items<Progress>, Items<Effect>), Items<Effect>>, NoRoom>
    requires several { 2 ≤ length options.now.providers }
    requires few { length options.now.providers ≤ 10 }
    requires known { AllZip (Knows (world_of shared.now).rules) options.now.providers wellknown }
    ensures value { IfOk result (λ first. several_outcome first ≡ spec.start_all (world_of shared.now) origin.now options.now) }
    ensures progress { IfOk result (λ first. IfOk first (λ r. r.0
        ≡ map (first_progress (world_of shared.now) options.now.mode) options.now.providers)) }
{
    let providers = options.providers.as_slice();
    let Opened { progress, effects } = open_each(
        alloc,
        shared,
        options.mode,
        providers,
        wellknown,
    )?;
    match all_dropped(progress.as_slice()) {
        Some(failure) => {
            let mut effects = effects;
            effects.push(Effect::Finish(Finish::Failed(failure)))?;
            Ok(Err(effects))
        }
        None => Ok(Ok((progress, effects))),
    }
}

// How far the providers so far have come, and what was done for them.
#[derive(Drop)]
struct Opened {
    progress: Items<Progress>,
    effects: Items<Effect>,
}

impl Opened {
    // The provider at this place, with this configuration URL, drops out, or its files are asked for.
    fn add(
        &mut self,
        alloc: Global,
        place: u32,
        config: &WebUrl,
        opening: Result<WebUrl, FailStep>,
    ) -> Result<(), NoRoom>
        ensures progress { OnOk result (self.new.progress ≡ self.old.progress ++ opened_by opening ∷ []) }
        ensures effects { OnOk result (self.new.effects ≡ self.old.effects ++ opens_by place config.now opening) }
    {
        match opening {
            Ok(wellknown) => self.asks(alloc, place, config, wellknown),
            Err(step) => self.drops(place, Failure::plain(step)),
        }
    }

    // Its files are asked for.
    fn asks(
        &mut self,
        alloc: Global,
        place: u32,
        config: &WebUrl,
        wellknown: WebUrl,
    ) -> Result<(), NoRoom>
        ensures progress { OnOk result (self.new.progress ≡ self.old.progress ++ opened_by (Ok wellknown) ∷ []) }
        ensures effects { OnOk result (self.new.effects ≡ self.old.effects ++ opens_by place config.now (Ok wellknown)) }
    {
        let config = config_request(alloc, place, config)?;
        self.effects.push(wellknown_request(place, wellknown))?;
        self.effects.push(config)?;
        self.progress.push(Progress::Reading(FirstReplies::none()))
    }

    // It drops out.
    fn drops(&mut self, place: u32, failure: Failure) -> Result<(), NoRoom>
        ensures progress { OnOk result (self.new.progress ≡ self.old.progress ++ progress_is.Dropped failure ∷ []) }
        ensures effects { OnOk result (self.new.effects ≡ self.old.effects ++ Effect.Dropped place failure ∷ []) }
    {
        self.effects.push(Effect::Dropped(place, failure))?;
        self.progress.push(Progress::Dropped(failure))
    }
}

// What is done first for each of these providers, in their order.
fn open_each(
    alloc: Global,
    shared: &Shared<'_>,
    mode: Mode,
    providers: &[ProviderOptions],
    wellknown: Items<Result<WebUrl, ProviderStep>>,
) -> Result<Opened, NoRoom>
    requires few { length providers.now ≤ 10 }
    requires known { AllZip (Knows (world_of shared.now).rules) providers.now wellknown }
    ensures progress { IfOk result (λ r. r.progress ≡ map (first_progress (world_of shared.now) mode) providers.now) }
    ensures effects { IfOk result (λ r. r.effects ≡ spec.opens_from (world_of shared.now) mode 0 providers.now) }
{
    let mut opened = Opened {
        progress: Items::new(alloc),
        effects: Items::new(alloc),
    };
    let mut left = wellknown.into_vec();
    let mut place = 0;
    for provider in providers {
        let opening = opening(shared, mode, provider, left.remove(0));
        opened.add(alloc, place, &provider.config, opening)?;
        place += 1;
    }
    Ok(opened)
}
