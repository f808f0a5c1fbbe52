//! A call with several providers, some of which are awaited.
ghost use Rattle.std.specs.Prelude.{◌≡◌, ◌≤◌, ◌∷◌, ◌++◌, [], false, IfOk, IfSome, IsTrue, Some, is_some, length, slice_get};
ghost use Rattle.std.specs.Prelude.{slice_set, unwrap_or};
ghost use Rattle.std.specs.List.{list_any};
ghost use Rattle.fed_origin.specs.WebUrl.{origin_of, scheme_of};
ghost use Rattle.fed_consent.specs.declared.table.input.Input.TheVariants as inputs;
ghost use Rattle.fed_status.specs.Shared.{world_of};
ghost use Rattle.fed_call.specs.declared.stages.At.TheVariants as ats;
ghost use Rattle.fed_call.specs.Accounts.{accounts_of};
ghost use Rattle.fed_call.specs.Begun.{options_of};
ghost use Rattle.fed_call.specs.Facts.{at_stage, conclusion_of, provider_at, with_came, with_settled};
ghost use Rattle.fed_call.specs.Fits.{is_https, is_one, may_all, may_come};
ghost use Rattle.fed_call.specs.Gathering.{came_as, is_sound, progress_read, said};
ghost use Rattle.fed_call.specs.GatheringRows as spec;
ghost use Rattle.fed_call.specs.Progress.{came, came_heard, came_to, is_awaited};
ghost use Rattle.fed_call.specs.Row.{input_facts, stage_reply};
ghost use Rattle.fed_call.specs.SettledRows.{settles};
ghost use Rattle.fed_call.specs.Settling.{settled_effects, settled_facts};
ghost use Rattle.fed_call.specs.State.{at_facts, facts_of};

use crate::CallState;
use crate::accounts::hinted_accounts;
use crate::begun::Call;
use crate::effects::ignores;
use crate::offers::gathered;
use crate::pending::Incoming;
use crate::progress::{Progress, all_dropped, awaits, progress_at, with_progress};
use crate::reading::accounts_request;
use crate::settling::settle;
use crate::stages::At;
use fed_consent::{Effect, Failure, Finish, Why};
use fed_io::{Items, NoRoom};
use fed_origin::{LoginStatus, ProviderOptions, ReplyKind, Stage};
use fed_provider::{Heard, SharedConfig};
use fed_status::Shared;
use std::alloc::Global;

/// A reply of one of several providers: rows M5 to M9. Only how far that provider has come is looked at.
pub fn gathers(
    alloc: Global,
    shared: &Shared<'_>,
    begun: Call,
    progress: Items<Progress>,
    incoming: &Incoming<'_>,
) -> Result<(CallState, Items<Effect>), NoRoom>
    requires several { is_one begun ≡ false }
    requires may { IsTrue (may_all begun.providers progress) }
    requires known { IsTrue (is_some (provider_at incoming.now.place (options_of begun))) }
    ensures effects { IfOk result (λ r. r.1 ≡ (stage_reply (world_of shared.now) (at_facts begun (ats.Gathering progress)) Stage.Gathering
        incoming.now.place incoming.now.kind incoming.now.raw.now).effects) }
    ensures state { IfOk result (λ r. facts_of r.0 ≡ input_facts (world_of shared.now) (at_facts begun (ats.Gathering progress))
        (inputs.Reply incoming.now.place incoming.now.kind incoming.now.raw.now)) }
{
    let place = incoming.place;
    match read(alloc, shared, &begun, progress.as_slice(), incoming)? {
        Taken::First(heard) => hears(alloc, shared, begun, progress, place, heard),
        Taken::Accounts(came) => lists(alloc, shared, begun, progress, place, came),
        Taken::Nothing => {
            ignores(
                alloc,
                CallState::pending(begun, At::Gathering(progress)),
                Why::NotWaited,
            )
        }
    }
}

// A reply of one of several providers, as it was read.
#[derive(Drop)]
pub enum Taken {
    // It is not awaited.
    Nothing,
    // One of the first two came to this.
    First(Heard),
    // After its accounts the provider has come so far.
    Accounts(Progress),
}

// What a reply of a provider says, by how far that provider has come.
fn read(
    alloc: Global,
    shared: &Shared<'_>,
    begun: &Call,
    progress: &[Progress],
    incoming: &Incoming<'_>,
) -> Result<Taken, NoRoom>
    requires may { IsTrue (may_all begun.now.providers progress.now) }
    requires known { IsTrue (is_some (provider_at incoming.now.place (options_of begun.now))) }
    ensures came { IfOk result (λ taken. IfSome (provider_at incoming.now.place (options_of begun.now)) (λ p. came_as taken
        ≡ came (world_of shared.now).rules (slice_get progress.now incoming.now.place) (Some p) incoming.now.kind
        incoming.now.raw.now)) }
    ensures sound { IfOk result (λ taken. IfSome (provider_at incoming.now.place (options_of begun.now))
        (λ p. IsTrue (is_sound p taken))) }
{
    let provider = begun.provider_of(incoming.place);
    match progress_at(progress, incoming.place) {
        Some(so_far) => read_by(alloc, shared, provider, so_far, incoming),
        None => Ok(Taken::Nothing),
    }
}

// The same of a provider that has come so far.
fn read_by(
    alloc: Global,
    shared: &Shared<'_>,
    provider: &ProviderOptions,
    so_far: &Progress,
    incoming: &Incoming<'_>,
) -> Result<Taken, NoRoom>
    requires { IsTrue (may_come provider.now so_far.now) }
    ensures came { IfOk result (λ taken. came_as taken
        ≡ came_to (world_of shared.now).rules so_far.now provider.now incoming.now.kind incoming.now.raw.now) }
    ensures sound { IfOk result (λ taken. IsTrue (is_sound provider.now taken)) }
{
    match so_far {
        Progress::Reading(replies) => {
            let replies = replies.copy(alloc)?;
            let config = &provider.config;
            let heard = replies.hear(alloc, shared.rules, config, incoming.kind, incoming.raw)?;
            Ok(Taken::First(heard))
        }
        Progress::Listing(config) => match incoming.kind {
            ReplyKind::Accounts => listed(alloc, shared, provider, config, incoming.raw),
            ReplyKind::WellKnown
            | ReplyKind::Config
            | ReplyKind::Metadata
            | ReplyKind::Assertion
            | ReplyKind::Disconnect => Ok(Taken::Nothing),
        },
        Progress::Listed(_, _) | Progress::Dropped(_) => Ok(Taken::Nothing),
    }
}

// A first reply of the provider at this place came to this: it drops out (row M5, and M7a where the files do not agree), the other is
// awaited (row M6), or the accounts are asked for (row M7).
fn hears(
    alloc: Global,
    shared: &Shared<'_>,
    begun: Call,
    progress: Items<Progress>,
    place: u32,
    heard: Heard,
) -> Result<(CallState, Items<Effect>), NoRoom>
    requires several { is_one begun ≡ false }
    requires may { IsTrue (may_all begun.providers progress) }
    requires secure { IfSome (provider_at place (options_of begun)) (λ p. IsTrue (is_https (scheme_of p.config))) }
    requires known { IsTrue (is_some (provider_at place (options_of begun))) }
    ensures effects { IfOk result (λ r. IfSome (provider_at place (options_of begun)) (λ p. r.1
        ≡ (spec.gathering_came (world_of shared.now) (at_facts begun (ats.Gathering progress)) place (origin_of p.config)
        (came_heard heard)).effects)) }
    ensures state { IfOk result (λ r. IfSome (provider_at place (options_of begun)) (λ p. facts_of r.0
        ≡ at_stage (unwrap_or (spec.gathering_came (world_of shared.now) (at_facts begun (ats.Gathering progress)) place
        (origin_of p.config) (came_heard heard)).stage Stage.Gathering)
        (with_came (world_of shared.now) place (came_heard heard) (at_facts begun (ats.Gathering progress))))) }
{
    let at = place as usize;
    match heard {
        Heard::Refused(step) => {
            let failure = Failure::of_provider(step);
            let progress = with_progress(progress, at, Progress::Dropped(failure));
            let first = Effect::Dropped(place, failure).alone(alloc)?;
            settles(alloc, shared, begun, progress, first)
        }
        Heard::Waits(replies) => {
            let progress = with_progress(progress, at, Progress::Reading(replies));
            Ok((
                CallState::pending(begun, At::Gathering(progress)),
                Items::new(alloc),
            ))
        }
        Heard::Both(config) => {
            let effects = accounts_request(alloc, place, &config.get().accounts)?.alone(alloc)?;
            let progress = with_progress(progress, at, Progress::Listing(config));
            Ok((CallState::pending(begun, At::Gathering(progress)), effects))
        }
        Heard::NotWaited(_) => ignores(
            alloc,
            CallState::pending(begun, At::Gathering(progress)),
            Why::NotWaited,
        ),
    }
}

// How far a provider has come after its accounts reply: these are there, or it drops out.
fn listed(
    alloc: Global,
    shared: &Shared<'_>,
    provider: &ProviderOptions,
    config: &SharedConfig,
    raw: &[u8],
) -> Result<Taken, NoRoom>
    ensures { IfOk result (λ taken. taken
        ≡ Taken.Accounts (progress_read config.now (accounts_of raw.now provider.now))) }
{
    match hinted_accounts(alloc, shared.rules.memory(), raw, provider)? {
        Ok(accounts) => Ok(Taken::Accounts(Progress::Listed(config.copy()?, accounts))),
        Err(step) => Ok(Taken::Accounts(Progress::Dropped(Failure::of_accounts(step)))),
    }
}

// The accounts of the provider at this place are there (row M9), or it drops out (row M8).
fn lists(
    alloc: Global,
    shared: &Shared<'_>,
    begun: Call,
    progress: Items<Progress>,
    place: u32,
    came: Progress,
) -> Result<(CallState, Items<Effect>), NoRoom>
    requires several { is_one begun ≡ false }
    requires may { IsTrue (may_all begun.providers progress) }
    requires settled { is_awaited came ≡ false }
    requires known { IsTrue (is_some (provider_at place (options_of begun))) }
    ensures effects { IfOk result (λ r. IfSome (provider_at place (options_of begun)) (λ p. r.1 ≡ said place (origin_of p.config) came
        ++ (settles (world_of shared.now) (at_facts begun (ats.Gathering (slice_set progress place came)))).effects)) }
    ensures state { IfOk result (λ r. facts_of r.0
        ≡ at_stage (unwrap_or (settles (world_of shared.now)
        (at_facts begun (ats.Gathering (slice_set progress place came)))).stage Stage.Gathering)
        (with_settled (world_of shared.now) (at_facts begun (ats.Gathering (slice_set progress place came))))) }
{
    let first = said(alloc, &begun, place, &came)?;
    let progress = with_progress(progress, place as usize, came);
    settles(alloc, shared, begun, progress, first)
}

// What is done first as an accounts reply of the provider at this place came to this.
fn said(alloc: Global, begun: &Call, place: u32, came: &Progress) -> Result<Items<Effect>, NoRoom>
    requires { IsTrue (is_some (provider_at place (options_of begun.now))) }
    ensures { IfOk result (λ effects. IfSome (provider_at place (options_of begun.now)) (λ p. effects
        ≡ said place (origin_of p.config) came.now)) }
{
    let provider = begun.provider_of(place).config.origin().copy(alloc)?;
    match came {
        Progress::Dropped(failure) => {
            let dropped = Effect::Dropped(place, *failure);
            Effect::SetLogin(provider, LoginStatus::LoggedOut).then(alloc, dropped)
        }
        Progress::Reading(_) | Progress::Listing(_) | Progress::Listed(_, _) => Effect::SetLogin(
            provider,
            LoginStatus::LoggedIn,
        ).alone(alloc),
    }
}

// A provider is settled, after these effects: where another is awaited the call waits, and else its providers are all settled.
fn settles(
    alloc: Global,
    shared: &Shared<'_>,
    begun: Call,
    progress: Items<Progress>,
    first: Items<Effect>,
) -> Result<(CallState, Items<Effect>), NoRoom>
    requires some { 1 ≤ length begun.providers }
    requires several { is_one begun ≡ false }
    requires may { IsTrue (may_all begun.providers progress) }
    ensures effects { IfOk result (λ r. r.1 ≡ first
        ++ (settles (world_of shared.now) (at_facts begun (ats.Gathering progress))).effects) }
    ensures state { IfOk result (λ r. facts_of r.0
        ≡ at_stage (unwrap_or (settles (world_of shared.now) (at_facts begun (ats.Gathering progress))).stage Stage.Gathering)
        (with_settled (world_of shared.now) (at_facts begun (ats.Gathering progress)))) }
{
    if awaits(progress.as_slice()) {
        return Ok((CallState::pending(begun, At::Gathering(progress)), first));
    }
    let (state, effect) = concludes(alloc, shared, begun, progress)?;
    let mut effects = first;
    effects.push(effect)?;
    Ok((state, effects))
}

// No provider is awaited any more: the call fails where all dropped out (row M10), and else accounts are offered.
fn concludes(
    alloc: Global,
    shared: &Shared<'_>,
    begun: Call,
    progress: Items<Progress>,
) -> Result<(CallState, Effect), NoRoom>
    requires some { 1 ≤ length begun.providers }
    requires may { IsTrue (may_all begun.providers progress) }
    requires settled { list_any is_awaited progress ≡ false }
    ensures effect { IfOk result (λ r. r.1 ∷ [] ≡ settled_effects (world_of shared.now) begun
        (conclusion_of (world_of shared.now) begun.origin (options_of begun) progress)) }
    ensures state { IfOk result (λ r. facts_of r.0 ≡ settled_facts begun
        (conclusion_of (world_of shared.now) begun.origin (options_of begun) progress)) }
{
    match all_dropped(progress.as_slice()) {
        Some(failure) => Ok((CallState::ended(), Effect::Finish(Finish::Failed(failure)))),
        None => {
            let (configs, offers) = gathered(alloc, shared, &begun, progress)?;
            settle(alloc, shared, begun, configs, offers)
        }
    }
}
