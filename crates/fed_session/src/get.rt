//! Calls of `navigator.credentials.get`.
ghost use Rattle.std.specs.Prelude.{◌≡◌, ◌≤◌, ◌+◌, length, nat_eq, is_some, false, Some, IfOk, IfSome, OnOk};
ghost use Rattle.std.specs.List.{AllZip, list_any};
ghost use Rattle.std.specs.Map.{lookup};
ghost use Rattle.fed_call.specs.Facts.{provider_at, stage_of, started};
ghost use Rattle.fed_call.specs.Opening.{Knows};
ghost use Rattle.fed_call.specs.Row.{start_row};
ghost use Rattle.fed_call.specs.State.{facts_of};
ghost use Rattle.fed_consent.specs.Outcomes.{fails, only_place};
ghost use Rattle.fed_consent.specs.Failures.{plain};
ghost use Rattle.fed_trace.specs.Records.{records_of};
ghost use Rattle.fed_trace.specs.Begun.{ToGet};
ghost use Rattle.fed_trace.specs.Call.{first_row};
ghost use Rattle.fed_trace.specs.Row.{begin_effects};
ghost use Rattle.fed_session.specs.StepParts.{cookies_of, world_in, begin_kept, begun_as};
ghost use Rattle.fed_session.specs.Tabs.{BeginsIf};

use crate::apply::{answered, ignored};
use crate::calls::Kept;
use crate::sight::Sight;
use crate::tabs::Tabs;
use fed_call::CallState;
use fed_consent::{Effect, FailStep, Failure, Finish, ONLY_PLACE, Why};
use fed_io::{Items, NoRoom, Steps};
use fed_origin::{GetOptions, ProviderOptions, Scheme, SharedOrigin, WebUrl};
use fed_provider::ProviderStep;
use fed_trace::Out;
use std::alloc::Global;
use std::sync::ledger::Ledger;

/// A get, which sets no status: its records, and the pages and calls after it.
pub(crate) fn get<L: Ledger>(
    alloc: Global,
    line: u32,
    sight: &mut Sight,
    tabs: &mut Tabs,
    page: u32,
    call: u32,
    options: &GetOptions,
    steps: &mut Steps<L>,
) -> Result<Items<Out>, NoRoom>
    requires some { 1 ≤ length options.now.providers }
    requires few { length options.now.providers ≤ 10 }
    requires fresh { list_any (nat_eq call) tabs.old.taken ≡ false }
    ensures outs { IfOk result (λ outs. outs ≡ records_of line (begin_effects (world_in sight.old) (cookies_of sight.old)
        (lookup (nat_eq page) tabs.old.pages) (is_some (lookup (nat_eq page) tabs.old.gets)) page call (ToGet options.now))) }
    ensures tabs { OnOk result (BeginsIf page call (begin_kept (world_in sight.old) (lookup (nat_eq page) tabs.old.pages)
        (is_some (lookup (nat_eq page) tabs.old.gets)) page call (ToGet options.now)) tabs.old tabs.new) }
    ensures steps { steps.new ≤ steps.old + 20 }
    ensures sight { sight.new ≡ sight.old }
{
    let Some(origin) = tabs.shared_origin(page) else {
        return ignored(alloc, line, Why::NoPage);
    };
    if !origin.get().is_trustworthy() {
        return ignored(alloc, line, Why::PageInsecure);
    }
    let (kept, effects) = begin(
        alloc,
        sight,
        tabs.is_busy(page),
        page,
        call,
        origin,
        options,
    )?;
    tabs.begin(page, call, kept, steps)?;
    let outs = answered(alloc, line, sight, call, page, effects)?;
    Ok(outs)
}

// A get that is taken: what is kept of it, and what it does.
fn begin(
    alloc: Global,
    sight: &mut Sight,
    busy: bool,
    page: u32,
    call: u32,
    origin: &SharedOrigin,
    options: &GetOptions,
) -> Result<(Kept, Items<Effect>), NoRoom>
    requires some { 1 ≤ length options.now.providers }
    requires few { length options.now.providers ≤ 10 }
    ensures effects { IfOk result (λ r. r.1 ≡ (first_row (world_in sight.old) busy origin.now (ToGet options.now)).effects) }
    ensures kept { IfOk result (λ r. r.0 ≡ begun_as (world_in sight.old) busy (record
        { call = call; page = page; origin = origin.now; options = ToGet options.now })) }
    ensures sight { sight.new ≡ sight.old }
{
    if busy {
        return Ok((Kept::over(), pending_elsewhere(alloc)?));
    }
    let (state, effects) = start(
        alloc,
        sight,
        page,
        call,
        origin.copy()?,
        options.copy(alloc)?,
    )?;
    Ok((Kept::of_get(state), effects))
}

// The configuration URL of the only provider.
fn config_of(options: &GetOptions) -> &WebUrl
    requires { length options.now.providers ≡ 1 }
    ensures { IfSome (provider_at only_place options.now) (λ p. result.now ≡ p.config) }
{
    &options.providers.as_slice()[ONLY_PLACE as usize].config
}

// A call that begins, whose page has no pending get.
fn start(
    alloc: Global,
    sight: &mut Sight,
    page: u32,
    call: u32,
    origin: SharedOrigin,
    options: GetOptions,
) -> Result<(CallState, Items<Effect>), NoRoom>
    requires some { 1 ≤ length options.providers }
    requires few { length options.providers ≤ 10 }
    ensures effects { IfOk result (λ r. r.1 ≡ (start_row (world_in sight.old) origin options).effects) }
    ensures state { IfOk result (λ r. facts_of r.0
        ≡ started (world_in sight.old) call page origin options (start_row (world_in sight.old) origin options)) }
    ensures stage { IfOk result (λ r. Some (stage_of (facts_of r.0)) ≡ (start_row (world_in sight.old) origin options).stage) }
    ensures sight { sight.new ≡ sight.old }
{
    if options.providers.len() == 1 {
        start_only(alloc, sight, page, call, origin, options)
    } else {
        start_several(alloc, sight, page, call, origin, options)
    }
}

// The same with one provider. Its well-known URL is looked for among those that are known.
fn start_only(
    alloc: Global,
    sight: &mut Sight,
    page: u32,
    call: u32,
    origin: SharedOrigin,
    options: GetOptions,
) -> Result<(CallState, Items<Effect>), NoRoom>
    requires { length options.providers ≡ 1 }
    ensures effects { IfOk result (λ r. r.1 ≡ (start_row (world_in sight.old) origin options).effects) }
    ensures state { IfOk result (λ r. facts_of r.0
        ≡ started (world_in sight.old) call page origin options (start_row (world_in sight.old) origin options)) }
    ensures stage { IfOk result (λ r. Some (stage_of (facts_of r.0)) ≡ (start_row (world_in sight.old) origin options).stage) }
    ensures sight { sight.new ≡ sight.old }
{
    let config = config_of(&options);
    if config.scheme() == Scheme::Http {
        let origin = origin.get().copy(alloc)?;
        return CallState::start(alloc, call, page, origin, options, &sight.lent());
    }
    let wellknown = sight.cookies.wellknown(alloc, config)?;
    CallState::start_with(alloc, call, page, origin, options, wellknown, &sight.lent())
}

// The same with several providers.
fn start_several(
    alloc: Global,
    sight: &mut Sight,
    page: u32,
    call: u32,
    origin: SharedOrigin,
    options: GetOptions,
) -> Result<(CallState, Items<Effect>), NoRoom>
    requires several { 2 ≤ length options.providers }
    requires few { length options.providers ≤ 10 }
    ensures effects { IfOk result (λ r. r.1 ≡ (start_row (world_in sight.old) origin options).effects) }
    ensures state { IfOk result (λ r. facts_of r.0
        ≡ started (world_in sight.old) call page origin options (start_row (world_in sight.old) origin options)) }
    ensures stage { IfOk result (λ r. Some (stage_of (facts_of r.0)) ≡ (start_row (world_in sight.old) origin options).stage) }
    ensures sight { sight.new ≡ sight.old }
{
    let wellknown = wellknowns(alloc, sight, options.providers.as_slice())?;
    CallState::start_several(alloc, call, page, origin, options, wellknown, &sight.lent())
}

// The well-known URL of each provider, in their order.
fn wellknowns(
    alloc: Global,
    sight: &mut Sight,
    providers: &[ProviderOptions],
) -> Result<Items<Result<WebUrl, ProviderStep>>, NoRoom>
    ensures known { IfOk result (λ all. AllZip (Knows (world_in sight.old).rules) providers.now all) }
    ensures sight { sight.new ≡ sight.old }
{
    let mut all = Items::from_vec(Vec::with_capacity(alloc, providers.len())?);
    for provider in providers {
        let wellknown = wellknown(alloc, sight, provider)?;
        all.push(wellknown)?;
    }
    Ok(all)
}

// The well-known URL of a provider, where its configuration URL is https; it is looked for among those that are known.
fn wellknown(
    alloc: Global,
    sight: &mut Sight,
    provider: &ProviderOptions,
) -> Result<Result<WebUrl, ProviderStep>, NoRoom>
    ensures known { IfOk result (λ url. Knows (world_in sight.old).rules provider.now url) }
    ensures sight { sight.new ≡ sight.old }
{
    if provider.config.scheme() == Scheme::Http {
        return Ok(Err(ProviderStep::NoSite));
    }
    sight.cookies.wellknown(alloc, &provider.config)
}

// The page has a pending get.
fn pending_elsewhere(alloc: Global) -> Result<Items<Effect>, NoRoom>
    ensures { IfOk result (λ effects. effects ≡ (fails (plain FailStep.CallPending)).effects) }
{
    let failure = Failure::plain(FailStep::CallPending);
    Effect::Finish(Finish::Failed(failure)).alone(alloc)
}
