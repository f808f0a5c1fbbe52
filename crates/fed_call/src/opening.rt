//! What is done first for a provider as a call begins.
ghost use Rattle.std.specs.Prelude.{◌≡◌, [], ◌∷◌, IfOk};
ghost use Rattle.fed_status.specs.Flags.{has_flag};
ghost use Rattle.fed_status.specs.Login.{status_of};
ghost use Rattle.fed_status.specs.Shared.{world_of};
ghost use Rattle.fed_call.specs.Opening.{Knows, by_step};
ghost use Rattle.fed_call.specs.Progress as progress;
ghost use Rattle.fed_call.specs.ReadingRows as spec;

use fed_consent::{Ask, Effect, FailStep};
use fed_io::NoRoom;
use fed_origin::{LoginStatus, Mediation, Mode, Origin, ProviderOptions, Scheme, WebUrl};
use fed_provider::ProviderStep;
use fed_status::{LoginMap, Shared, SilentFlags};
use std::alloc::Global;

/// The well-known URL of a provider of a call in this mode, or the step at which no request goes out to it. `wellknown` is that URL,
/// where the configuration URL is https.
pub fn opening(
    shared: &Shared<'_>,
    mode: Mode,
    provider: &ProviderOptions,
    wellknown: Result<WebUrl, ProviderStep>,
) -> Result<WebUrl, FailStep>
    requires { Knows (world_of shared.now).rules provider.now wellknown }
    ensures { result ≡ by_step (progress.opening (world_of shared.now) mode provider.now) }
{
    if provider.config.scheme() == Scheme::Http {
        return Err(FailStep::ConfigScheme);
    }
    match wellknown {
        Ok(_) if is_gated(mode, shared.login, provider.config.origin()) => Err(FailStep::LoggedOut),
        Ok(url) => Ok(url),
        Err(_) => Err(FailStep::NoSite),
    }
}

/// Whether the call is silent and the flag of its page's origin is set.
pub fn is_prevented(mediation: Mediation, flags: &SilentFlags, origin: &Origin) -> bool
    ensures { result ≡ spec.is_prevented mediation (has_flag flags.now origin.now) }
{
    match mediation {
        Mediation::Silent => flags.is_set(origin),
        Mediation::Optional | Mediation::Required => false,
    }
}

/// Whether the call is passive and the user is logged out at the provider.
pub fn is_gated(mode: Mode, login: &LoginMap, provider: &Origin) -> bool
    ensures { result ≡ progress.is_gated mode (status_of login.now provider.now) }
{
    match mode {
        Mode::Active => false,
        Mode::Passive => login.get(provider) == LoginStatus::LoggedOut,
    }
}

/// The request for the well-known file of the provider at this place.
pub fn wellknown_request(place: u32, wellknown: WebUrl) -> Effect
    ensures { result ≡ Effect.Send place (Ask.WellKnown wellknown) }
{
    Effect::Send(place, Ask::WellKnown { to: wellknown })
}

/// The request for its configuration.
pub fn config_request(alloc: Global, place: u32, config: &WebUrl) -> Result<Effect, NoRoom>
    ensures { IfOk result (λ effect. effect ≡ Effect.Send place (Ask.Config config.now)) }
{
    let to = config.copy(alloc)?;
    Ok(Effect::Send(place, Ask::Config { to }))
}
