//! Events that name a call.
ghost use Rattle.std.specs.Prelude.{◌≡◌, ◌≤◌, ◌+◌, nat_eq, if◌then◌else◌, IfOk, OnOk};
ghost use Rattle.std.specs.List.{list_any};
ghost use Rattle.fed_consent.specs.declared.table.why.Why.TheVariants.{NoCall, CallEnded};
ghost use Rattle.fed_trace.specs.Known as spec;
ghost use Rattle.fed_trace.specs.Records.{records_of};
ghost use Rattle.fed_trace.specs.Row.{input_effects};
ghost use Rattle.fed_session.specs.Session.{item_known};
ghost use Rattle.fed_session.specs.StepParts.{cookies_of, world_in, sight_after, outcome_at, kept_next};
ghost use Rattle.fed_session.specs.Tabs.{Takes};

use crate::apply::{apply, ignored};
use crate::calls::Pending;
use crate::sight::Sight;
use crate::tabs::Tabs;
use fed_consent::{Input, Why};
use fed_io::{Items, NoRoom, Steps};
use fed_script::Event;
use fed_trace::Out;
use std::alloc::Global;
use std::sync::ledger::Ledger;

/// An input of a call: its records, and what all calls look at, the pages and the calls after it.
pub(crate) fn take_input<L: Ledger>(
    alloc: Global,
    line: u32,
    sight: &mut Sight,
    tabs: &mut Tabs,
    call: u32,
    input: &Input,
    steps: &mut Steps<L>,
) -> Result<Items<Out>, NoRoom>
    ensures outs { IfOk result (λ outs. outs ≡ records_of line (input_effects (world_in sight.old) (cookies_of sight.old)
        (list_any (nat_eq call) tabs.old.taken) call (item_known tabs.old.table.items call) input.now)) }
    ensures sight { OnOk result (sight.new ≡ sight_after (outcome_at (world_in sight.old) (list_any (nat_eq call) tabs.old.taken)
        (item_known tabs.old.table.items call) input.now).effects sight.old) }
    ensures tabs { OnOk result (Takes call (item_known tabs.old.table.items call)
        (kept_next (world_in sight.old) (item_known tabs.old.table.items call) input.now) tabs.old tabs.new) }
    ensures steps { steps.new ≤ steps.old + 20 }
{
    let Some(kept) = tabs.lend(call) else {
        return ignored(alloc, line, unpending(tabs, call));
    };
    let state = kept.into_state();
    let page = state.page();
    let waited = state.waits();
    learn(alloc, sight, &state, input)?;
    let (kept, effects) = state.advance(alloc, input, &sight.lent())?;
    let Some(page) = page else {
        return ignored(alloc, line, Why::CallEnded);
    };
    tabs.give_back(page, call, waited, kept, steps)?;
    let outs = apply(alloc, line, sight, call, page, effects)?;
    Ok(outs)
}

// Keeps what a reply with a file of a provider says, so that the call, and the next one to the same provider, need not read it.
fn learn(alloc: Global, sight: &mut Sight, state: &Pending, input: &Input) -> Result<(), NoRoom>
    ensures { sight.new ≡ sight.old }
{
    let Input::Reply {
        provider,
        kind,
        raw,
    } = input
    else {
        return Ok(());
    };
    match state.reads(*provider) {
        Some(config) => sight.cookies.learn(alloc, config, *kind, raw.as_slice()),
        None => Ok(()),
    }
}

// Why a call that is not pending takes no input: it is over, or never was.
fn unpending(tabs: &Tabs, call: u32) -> Why
    ensures { result ≡ if list_any (nat_eq call) tabs.now.taken then CallEnded else NoCall }
{
    if tabs.was_taken(call) {
        Why::CallEnded
    } else {
        Why::NoCall
    }
}

/// The call that an event names, and the input that it brings to it, if it brings one.
pub(crate) fn input_of(alloc: Global, event: &Event) -> Result<Option<(u32, Input)>, NoRoom>
    ensures { IfOk result (λ brought. brought ≡ spec.input_of event.now) }
{
    Ok(match event {
        Event::Abort { call } => Some((*call, Input::Abort)),
        Event::GoOn { call } => Some((*call, Input::GoOn)),
        Event::Cancel { call } => Some((*call, Input::Cancel)),
        Event::SignIn { call } => Some((*call, Input::SignIn)),
        Event::ShutWindow { call } => Some((*call, Input::Shut)),
        Event::Choose {
            call,
            provider,
            account,
        } => {
            let choice = Input::Choose {
                provider: *provider,
                account: account.copy(alloc)?,
            };
            Some((*call, choice))
        }
        Event::Reply {
            call,
            provider,
            kind,
            raw,
        } => {
            let reply = Input::Reply {
                provider: *provider,
                kind: *kind,
                raw: raw.copy(alloc)?,
            };
            Some((*call, reply))
        }
        Event::Have(_)
        | Event::At { .. }
        | Event::Load { .. }
        | Event::ClosePage { .. }
        | Event::IdpClose { .. }
        | Event::Prevent { .. }
        | Event::SetStatus { .. }
        | Event::Get { .. }
        | Event::Disconnect { .. } => None,
    })
}
