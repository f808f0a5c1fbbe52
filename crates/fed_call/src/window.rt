//! The login window of a call.
ghost use Rattle.std.specs.Prelude.{◌≡◌, ◌∷◌, [], IfOk, IsTrue, Some};
ghost use Rattle.fed_consent.specs.Outcomes.{only_place};
ghost use Rattle.fed_call.specs.declared.stages.At.TheVariants as ats;
ghost use Rattle.fed_call.specs.Fits.{is_one};
ghost use Rattle.fed_call.specs.State.{at_facts, facts_of};
ghost use Rattle.fed_call.specs.WindowRows as spec;

use crate::CallState;
use crate::begun::Call;
use crate::stages::At;
use fed_consent::{Effect, ONLY_PLACE};
use fed_io::{Items, NoRoom};
use fed_origin::{Mediation, Mode};
use fed_provider::SharedConfig;
use std::alloc::Global;

/// The user asked for the login window of the only provider, and it opens (row C28).
pub fn opens_window(
    alloc: Global,
    begun: Call,
    config: SharedConfig,
) -> Result<(CallState, Items<Effect>), NoRoom>
    requires { IsTrue (is_one begun) }
    ensures effects { IfOk result (λ r. r.1 ≡ Effect.Window only_place config.login ∷ []) }
    ensures state { IfOk result (λ r. facts_of r.0 ≡ Some (at_facts begun (ats.Window config))) }
{
    let effects = window_effect(alloc, &config)?.alone(alloc)?;
    Ok((CallState::pending(begun, At::Window(config)), effects))
}

/// Whether the call is active and not silent.
pub fn may_sign_in(begun: &Call) -> bool
    ensures { result ≡ spec.may_sign_in begun.now.mode begun.now.mediation }
{
    begun.mode() == Mode::Active && begun.mediation() != Mediation::Silent
}

/// The login window of the only provider opens.
pub fn window_effect(alloc: Global, config: &SharedConfig) -> Result<Effect, NoRoom>
    ensures { IfOk result (λ effect. effect ≡ Effect.Window only_place config.now.login) }
{
    Ok(Effect::Window(ONLY_PLACE, config.get().login.copy(alloc)?))
}
