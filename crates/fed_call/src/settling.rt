//! A call whose providers are all settled.
ghost use Rattle.std.specs.Prelude.{◌≡◌, ◌≤◌, ◌∷◌, [], Some, None, true, false, IfOk, IfSome, IsTrue, is_some, length, option_map};
ghost use Rattle.std.specs.Prelude.{slice_get, zip};
ghost use Rattle.std.specs.List.{AllByRecursion};
ghost use Rattle.fed_accounts.specs.Connection.{Connected};
ghost use Rattle.fed_accounts.specs.Offers.{AreWhole, IsWhole};
ghost use Rattle.fed_consent.specs.Consent.{AreRising, picks};
ghost use Rattle.fed_consent.specs.declared.consent.manner.Manner.TheVariants.{Reselected};
ghost use Rattle.fed_status.specs.Shared.{world_of};
ghost use Rattle.fed_call.specs.Accounts.{all_offered, needs_metadata};
ghost use Rattle.fed_call.specs.AssertingRows.{asserts};
ghost use Rattle.fed_call.specs.Begun.{options_of};
ghost use Rattle.fed_call.specs.Configs.{config_for};
ghost use Rattle.fed_call.specs.Facts.{by_offered, provider_at};
ghost use Rattle.fed_call.specs.Settling as spec;
ghost use Rattle.fed_call.specs.State.{begun_facts, facts_of, offered_as};

use crate::CallState;
use crate::asserting::{Asserting, assertion_request};
use crate::begun::Call;
use crate::choosing::Choosing;
use crate::configs::Configs;
use crate::dialogs::{choice_dialog, prompt_effect};
use crate::prompting::Prompting;
use crate::stages::At;
use fed_accounts::{Offer, Offers, reselect_all};
use fed_consent::{Chooser, Effect, FailStep, Failure, Finish, Prompt, Reselection};
use fed_io::{NoRoom, Placed};
use fed_origin::{Mediation, Stage};
use fed_provider::SharedConfig;
use fed_status::Shared;
use std::alloc::Global;

/// What these providers offer is all that there is: an account is reselected (rows C17 and M11), and else the user is asked. `configs` has
/// the configuration of each provider that offers something.
pub fn settle(
    alloc: Global,
    shared: &Shared<'_>,
    begun: Call,
    configs: Configs,
    offers: Offers,
) -> Result<(CallState, Effect), NoRoom>
    requires some { 1 ≤ length offers }
    requires known { AllByRecursion (spec.IsKnown begun.providers configs) offers }
    requires whole { AreWhole offers }
    requires rising { AreRising offers }
    ensures effect { IfOk result (λ r. r.1 ∷ [] ≡ spec.settled_effects (world_of shared.now) begun
        (spec.settling (world_of shared.now) begun configs offers)) }
    ensures state { IfOk result (λ r. facts_of r.0
        ≡ spec.settled_facts begun (spec.settling (world_of shared.now) begun configs offers)) }
{
    let flag = shared.flags.is_set(begun.origin());
    let mediation = begun.mediation();
    match reselect_all(offers.as_slice(), flag, mediation) {
        Some(places) => {
            let call = begun.call();
            let reselection = Reselection::new(call, offers, flag, mediation, places);
            reselects(alloc, begun, configs, reselection)
        }
        None => unless_silent(alloc, shared, begun, configs, offers),
    }
}

// The token of the account that is reselected is asked for.
fn reselects(
    alloc: Global,
    begun: Call,
    configs: Configs,
    reselection: Reselection,
) -> Result<(CallState, Effect), NoRoom>
    requires connected { reselection.candidate.connected ≡ true }
    requires provider { IsTrue (is_some (provider_at reselection.provider (options_of begun))) }
    requires config { IsTrue (is_some (config_for configs reselection.provider)) }
    ensures effect { IfOk result (λ r. IfSome (offered_as begun.providers configs reselection) (λ offered. r.1 ∷ []
        ≡ (asserts (begun_facts begun Stage.Reading []) offered Reselected false).effects)) }
    ensures state { IfOk result (λ r. IfSome (offered_as begun.providers configs reselection) (λ offered. facts_of r.0
        ≡ Some (spec.reselected_facts begun offered))) }
{
    let account = reselection.account().copy(alloc)?;
    let place = reselection.provider();
    let config = configs.take(place);
    let begun = begun.about(place);
    let effect = assertion_request(alloc, &begun, &config, reselection.proceed())?;
    let asserting = Asserting {
        config,
        account: Placed::new(alloc, account)?,
        connected: true,
        auto: true,
    };
    Ok((CallState::pending(begun, At::Asserting(asserting)), effect))
}

// No account is reselected: a silent call fails (rows C18 and M12), and else the user is asked.
fn unless_silent(
    alloc: Global,
    shared: &Shared<'_>,
    begun: Call,
    configs: Configs,
    offers: Offers,
) -> Result<(CallState, Effect), NoRoom>
    requires some { 1 ≤ length offers }
    requires known { AllByRecursion (spec.IsKnown begun.providers configs) offers }
    requires whole { AreWhole offers }
    requires rising { AreRising offers }
    ensures effect { IfOk result (λ r. r.1 ∷ [] ≡ spec.settled_effects (world_of shared.now) begun
        (by_offered begun.mediation [] None (all_offered (spec.lists_in begun.providers configs offers)))) }
    ensures state { IfOk result (λ r. facts_of r.0 ≡ spec.settled_facts begun
        (by_offered begun.mediation [] None (all_offered (spec.lists_in begun.providers configs offers)))) }
{
    match begun.mediation() {
        Mediation::Silent => {
            let failure = Failure::plain(FailStep::SilentNoAccount);
            Ok((CallState::ended(), Effect::Finish(Finish::Failed(failure))))
        }
        Mediation::Optional | Mediation::Required => asks(alloc, shared, begun, configs, offers),
    }
}

// The user is asked about the accounts.
fn asks(
    alloc: Global,
    shared: &Shared<'_>,
    begun: Call,
    configs: Configs,
    offers: Offers,
) -> Result<(CallState, Effect), NoRoom>
    requires some { 1 ≤ length offers }
    requires known { AllByRecursion (spec.IsKnown begun.providers configs) offers }
    requires whole { AreWhole offers }
    requires rising { AreRising offers }
    ensures effect { IfOk result (λ r. r.1 ∷ [] ≡ spec.settled_effects (world_of shared.now) begun
        (spec.asked (all_offered (spec.lists_in begun.providers configs offers)))) }
    ensures state { IfOk result (λ r. facts_of r.0 ≡ spec.settled_facts begun
        (spec.asked (all_offered (spec.lists_in begun.providers configs offers)))) }
{
    if is_alone(offers.as_slice()) {
        asks_about(alloc, shared, begun, configs, offers.take(0))
    } else {
        asks_for_choice(alloc, shared, begun, configs, offers)
    }
}

// Whether there is one account in all.
fn is_alone(offers: &[Offer]) -> bool
    ensures { result ≡ spec.is_alone offers.now }
{
    offers.len() == 1 && offers[0].accounts.list().len() == 1
}

// Whether a prompt for the only account of an offer needs the metadata of the client.
fn needs_metadata(offer: &Offer, config: &SharedConfig) -> bool
    requires one { length offer.now.accounts ≡ 1 }
    requires whole { IsWhole offer.now }
    ensures { option_map (λ entry. needs_metadata (Connected entry.0 offer.now.client entry.1) config.now.metadata)
        (slice_get (zip offer.now.accounts offer.now.kept) 0) ≡ Some result }
{
    !offer.connects(0) && config.get().metadata.is_some()
}

// The user is to go on with the only account (rows C20 and C21, M14 and M15).
fn asks_about(
    alloc: Global,
    shared: &Shared<'_>,
    begun: Call,
    configs: Configs,
    offer: Offer,
) -> Result<(CallState, Effect), NoRoom>
    requires one { length offer.accounts ≡ 1 }
    requires whole { IsWhole offer }
    requires known { IsTrue (is_some (spec.shortlist_as begun.providers configs offer)) }
    ensures effect { IfOk result (λ r. r.1 ∷ [] ≡ spec.settled_effects (world_of shared.now) begun
        (spec.asked (all_offered (spec.lists_in begun.providers configs (offer ∷ []))))) }
    ensures state { IfOk result (λ r. facts_of r.0 ≡ spec.settled_facts begun
        (spec.asked (all_offered (spec.lists_in begun.providers configs (offer ∷ []))))) }
{
    let place = offer.provider;
    let config = configs.take(place);
    let begun = begun.about(place);
    let waits = needs_metadata(&offer, &config);
    let prompt = Prompt::single(begun.call(), offer, waits);
    let effect = prompt_effect(alloc, shared, &begun, &config, &prompt)?;
    let prompting = Prompting {
        config,
        prompt: Placed::new(alloc, prompt)?,
    };
    Ok((CallState::pending(begun, At::Prompting(prompting)), effect))
}

// The user is to choose one of several accounts (rows C19 and M13).
fn asks_for_choice(
    alloc: Global,
    shared: &Shared<'_>,
    begun: Call,
    configs: Configs,
    offers: Offers,
) -> Result<(CallState, Effect), NoRoom>
    requires several { 2 ≤ length (picks (record { call = begun.call; offers = offers })) }
    requires known { AllByRecursion (spec.IsKnown begun.providers configs) offers }
    requires whole { AreWhole offers }
    requires rising { AreRising offers }
    ensures effect { IfOk result (λ r. r.1 ∷ [] ≡ spec.settled_effects (world_of shared.now) begun
        (spec.asked (all_offered (spec.lists_in begun.providers configs offers)))) }
    ensures state { IfOk result (λ r. facts_of r.0 ≡ spec.settled_facts begun
        (spec.asked (all_offered (spec.lists_in begun.providers configs offers)))) }
{
    let chooser = Chooser::new(begun.call(), offers);
    let effect = choice_dialog(alloc, shared, &begun, chooser.offers())?;
    let choosing = Choosing {
        configs,
        chooser: Placed::new(alloc, chooser)?,
    };
    Ok((CallState::pending(begun, At::Choosing(choosing)), effect))
}
