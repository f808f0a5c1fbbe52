//! A call whose only provider's accounts are awaited.
ghost use Rattle.std.specs.Prelude.{◌≡◌, ◌∷◌, [], IfOk, IsTrue, Some, unwrap_or};
ghost use Rattle.fed_origin.specs.WebUrl.{origin_of};
ghost use Rattle.fed_consent.specs.Outcomes.{only_place};
ghost use Rattle.fed_call.specs.declared.progress.Progress.TheVariants as progress_is;
ghost use Rattle.fed_call.specs.declared.stages.At.TheVariants as ats;
ghost use Rattle.fed_call.specs.Accounts.{accounts_of};
ghost use Rattle.fed_call.specs.Dialogs as dialogs;
ghost use Rattle.fed_call.specs.Facts.{at_stage, with_came, with_settled};
ghost use Rattle.fed_call.specs.Fits.{is_one};
ghost use Rattle.fed_call.specs.Progress.{came_read};
ghost use Rattle.fed_call.specs.SettledRows.{settles};
ghost use Rattle.fed_call.specs.SingleRows as spec;
ghost use Rattle.fed_call.specs.State.{at_facts, begun_facts, facts_of};
ghost use Rattle.fed_status.specs.Login.{status_of};
ghost use Rattle.fed_status.specs.Shared.{world_of};

use crate::CallState;
use crate::accounts::{hinted_accounts, offer};
use crate::begun::Call;
use crate::configs::Configs;
use crate::dialogs::site;
use crate::settling::settle;
use crate::stages::At;
use crate::window::{may_sign_in, window_effect};
use fed_accounts::{Accounts, Offers};
use fed_consent::{Dialog, Effect, FailStep, Failure, Finish, ONLY_PLACE};
use fed_io::{Items, NoRoom};
use fed_origin::{LoginStatus, Mediation, Mode, Stage};
use fed_provider::SharedConfig;
use fed_status::Shared;
use std::alloc::Global;

/// The accounts reply of the only provider: rows C14 to C21.
pub fn accounts_reply(
    alloc: Global,
    shared: &Shared<'_>,
    begun: Call,
    config: SharedConfig,
    raw: &[u8],
) -> Result<(CallState, Items<Effect>), NoRoom>
    requires { begun.providers ≡ begun.provider ∷ [] }
    ensures effects { IfOk result (λ r. r.1 ≡ (spec.single_came (world_of shared.now) (at_facts begun (ats.Listing config)) only_place
        (origin_of begun.provider.config) (came_read config (accounts_of raw.now begun.provider))).effects) }
    ensures state { IfOk result (λ r. facts_of r.0
        ≡ at_stage (unwrap_or (spec.single_came (world_of shared.now) (at_facts begun (ats.Listing config)) only_place
        (origin_of begun.provider.config) (came_read config (accounts_of raw.now begun.provider))).stage Stage.Listing)
        (with_came (world_of shared.now) only_place (came_read config (accounts_of raw.now begun.provider))
        (at_facts begun (ats.Listing config)))) }
{
    match hinted_accounts(alloc, shared.rules.memory(), raw, begun.provider())? {
        Ok(accounts) => accepts(alloc, shared, begun, config, accounts),
        Err(step) => refuses(alloc, shared, begun, config, Failure::of_accounts(step)),
    }
}

// The accounts are refused, or none fits the hints of the call: the login window opens (row C14), or the user hears of it (row
// C15), or the page (row C16).
fn refuses(
    alloc: Global,
    shared: &Shared<'_>,
    begun: Call,
    config: SharedConfig,
    failure: Failure,
) -> Result<(CallState, Items<Effect>), NoRoom>
    requires { IsTrue (is_one begun) }
    ensures effects { IfOk result (λ r. r.1 ≡ Effect.SetLogin (origin_of begun.provider.config) LoginStatus.LoggedOut
        ∷ (spec.refused (world_of shared.now) (at_facts begun (ats.Listing config)) only_place (origin_of begun.provider.config)
        failure).effects) }
    ensures state { IfOk result (λ r. facts_of r.0
        ≡ at_stage (unwrap_or (spec.refused (world_of shared.now) (at_facts begun (ats.Listing config)) only_place
        (origin_of begun.provider.config) failure).stage Stage.Listing) (at_facts begun (ats.Listing config))) }
{
    let provider = begun.provider_origin().copy(alloc)?;
    if may_sign_in(&begun) {
        let window = window_effect(alloc, &config)?;
        let effects = Effect::SetLogin(provider, LoginStatus::LoggedOut).then(alloc, window)?;
        return Ok((CallState::pending(begun, At::Window(config)), effects));
    }
    if is_mismatch(&begun, shared) {
        let dialog = mismatch_dialog(alloc, &begun, shared, failure)?;
        let effects = Effect::SetLogin(provider, LoginStatus::LoggedOut).then(alloc, dialog)?;
        return Ok((CallState::pending(begun, At::Mismatch(config)), effects));
    }
    let failed = Effect::Finish(Finish::Failed(failure));
    let effects = Effect::SetLogin(provider, LoginStatus::LoggedOut).then(alloc, failed)?;
    Ok((CallState::ended(), effects))
}

// Whether the call is passive and not silent, and the user was logged in at the only provider.
fn is_mismatch(begun: &Call, shared: &Shared<'_>) -> bool
    ensures { result ≡ spec.is_mismatch begun.now.mode begun.now.mediation
        (status_of (world_of shared.now).login (origin_of begun.now.provider.config)) }
{
    let was = shared.login.get(begun.provider_origin());
    begun.mode() == Mode::Passive
        && begun.mediation() != Mediation::Silent
        && was == LoginStatus::LoggedIn
}

// The user is shown that the only provider gave no account.
fn mismatch_dialog(
    alloc: Global,
    begun: &Call,
    shared: &Shared<'_>,
    failure: Failure,
) -> Result<Effect, NoRoom>
    ensures { IfOk result (λ effect. effect
        ≡ Effect.Dialog (Dialog.Mismatch only_place (dialogs.site_of (world_of shared.now) begun.now.origin) failure)) }
{
    let dialog = Dialog::Mismatch {
        provider: ONLY_PLACE,
        site: site(alloc, shared.rules.suffixes(), &begun.origin().host)?,
        failure,
    };
    Effect::shows(alloc, dialog)
}

// The accounts are good: the user is logged in, and the only provider is settled.
fn accepts(
    alloc: Global,
    shared: &Shared<'_>,
    begun: Call,
    config: SharedConfig,
    accounts: Accounts,
) -> Result<(CallState, Items<Effect>), NoRoom>
    requires { begun.providers ≡ begun.provider ∷ [] }
    ensures effects { IfOk result (λ r. r.1 ≡ Effect.SetLogin (origin_of begun.provider.config) LoginStatus.LoggedIn
        ∷ (settles (world_of shared.now) (begun_facts begun Stage.Listing (progress_is.Listed config accounts ∷ []))).effects) }
    ensures state { IfOk result (λ r. facts_of r.0
        ≡ at_stage (unwrap_or (settles (world_of shared.now)
        (begun_facts begun Stage.Listing (progress_is.Listed config accounts ∷ []))).stage Stage.Listing)
        (with_settled (world_of shared.now) (begun_facts begun Stage.Listing (progress_is.Listed config accounts ∷ [])))) }
{
    let provider = begun.provider_origin().copy(alloc)?;
    let offer = offer(alloc, shared, &begun, ONLY_PLACE, accounts)?;
    let configs = Configs::one(config);
    let (state, effect) = settle(alloc, shared, begun, configs, Offers::one(offer))?;
    let effects = Effect::SetLogin(provider, LoginStatus::LoggedIn).then(alloc, effect)?;
    Ok((state, effects))
}
