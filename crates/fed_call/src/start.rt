//! The beginning of a call.
ghost use Rattle.std.specs.Prelude.{◌≡◌, ◌≤◌, [], ◌∷◌, Some, false, IfOk, IfSome, IsTrue, length};
ghost use Rattle.std.specs.List.{AllZip};
ghost use Rattle.fed_origin.specs.WebUrl.{scheme_of};
ghost use Rattle.fed_provider.specs.WellKnown.{WellKnownUrlOf};
ghost use Rattle.fed_status.specs.Shared.{world_of};
ghost use Rattle.fed_consent.specs.Outcomes.{only_place};
ghost use Rattle.fed_call.specs.Facts.{provider_at};
ghost use Rattle.fed_call.specs.Opening.{Knows};
ghost use Rattle.fed_call.specs.ReadingRows as spec;

use crate::opening::{config_request, is_gated, is_prevented, wellknown_request};
use fed_consent::{Effect, FailStep, ONLY_PLACE};
use fed_io::{Items, NoRoom};
use fed_origin::{GetOptions, Mode, Origin, ProviderOptions, Scheme, WebUrl};
use fed_provider::{ProviderStep, site_url};
use fed_status::Shared;
use fed_suffix::Suffixes;
use std::alloc::Global;

/// The provider of a list of one.
pub fn only_provider(options: &GetOptions) -> &ProviderOptions
    requires { length options.now.providers ≡ 1 }
    ensures { options.now.providers ≡ result.now ∷ [] }
{
    &options.providers.as_slice()[ONLY_PLACE as usize]
}

/// Whether the configuration URL of a provider is https (else row C2).
pub fn is_secure(provider: &ProviderOptions) -> bool
    ensures yes { IsTrue result → scheme_of provider.now.config ≡ Scheme.Https }
    ensures no { result ≡ false → scheme_of provider.now.config ≡ Scheme.Http }
{
    provider.config.scheme() == Scheme::Https
}

/// The well-known URL of each provider, in their order, where its configuration URL is https.
pub fn wellknowns(
    alloc: Global,
    rules: &Suffixes,
    providers: &[ProviderOptions],
) -> Result<Items<Result<WebUrl, ProviderStep>>, NoRoom>
    ensures { IfOk result (λ all. AllZip (Knows rules.now) providers.now all) }
{
    let mut all = Items::new(alloc);
    for provider in providers {
        all.push(wellknown(alloc, rules, provider)?)?;
    }
    Ok(all)
}

// The well-known URL of a provider, where its configuration URL is https.
fn wellknown(
    alloc: Global,
    rules: &Suffixes,
    provider: &ProviderOptions,
) -> Result<Result<WebUrl, ProviderStep>, NoRoom>
    ensures { IfOk result (λ url. Knows rules.now provider.now url) }
{
    if is_secure(provider) {
        return site_url(alloc, rules, &provider.config);
    }
    Ok(Err(ProviderStep::NoSite))
}

/// The first requests of a call of a page of this origin to its only provider, which has this well-known URL, or the step at which
/// the call fails.
pub fn first_requests(
    alloc: Global,
    origin: &Origin,
    options: &GetOptions,
    wellknown: Result<WebUrl, ProviderStep>,
    shared: &Shared<'_>,
) -> Result<Result<Items<Effect>, FailStep>, NoRoom>
    requires one { length options.now.providers ≡ 1 }
    requires secure { IfSome (provider_at only_place options.now) (λ p. scheme_of p.config ≡ Scheme.Https) }
    requires known { IfSome (provider_at only_place options.now)
        (λ p. wellknown ≡ WellKnownUrlOf (world_of shared.now).rules p.config) }
    ensures { IfOk result (λ first. IfSome (provider_at only_place options.now)
        (λ p. spec.first_outcome first ≡ spec.start_single (world_of shared.now) origin.now options.now p)) }
{
    // Looked at first, so that the provider is known in each arm.
    let provider = only_provider(options);
    // Row C3.
    if lacks_activation(options.mode, options.activation) {
        return Ok(Err(FailStep::NoActivation));
    }
    // Row C4.
    let wellknown = match wellknown {
        Ok(url) => url,
        Err(_) => return Ok(Err(FailStep::NoSite)),
    };
    // Row C5.
    if is_prevented(options.mediation, shared.flags, origin) {
        return Ok(Err(FailStep::SilentPrevented));
    }
    // Row C6.
    if is_gated(options.mode, shared.login, provider.config.origin()) {
        return Ok(Err(FailStep::LoggedOut));
    }
    // Row C7.
    let requests = requests(alloc, wellknown, &provider.config)?;
    Ok(Ok(requests))
}

// Whether the call is active and the user did nothing at the page.
fn lacks_activation(mode: Mode, activation: bool) -> bool
    ensures { result ≡ spec.lacks_activation mode activation }
{
    match mode {
        Mode::Passive => false,
        Mode::Active => !activation,
    }
}

// The requests for the well-known file and the configuration.
fn requests(alloc: Global, wellknown: WebUrl, config: &WebUrl) -> Result<Items<Effect>, NoRoom>
    ensures { IfOk result (λ effects. effects ≡ spec.first_requests only_place config.now wellknown) }
{
    let config = config_request(alloc, ONLY_PLACE, config)?;
    wellknown_request(ONLY_PLACE, wellknown).then(alloc, config)
}
