//! What a call does: statuses, permissions and flags that it sets, and records.
ghost use Rattle.std.specs.Prelude.{◌≡◌, [], ◌∷◌, ◌++◌, IfOk, OnOk, Some};
ghost use Rattle.fed_trace.specs.Begun.{GetCall};
ghost use Rattle.fed_trace.specs.Effect.{Sent, Ignored};
ghost use Rattle.fed_trace.specs.Records.{records_of, record_of};
ghost use Rattle.fed_session.specs.StepParts.{cookies_of, call_records, CanApplyAll, sight_after};

use crate::sight::Sight;
use fed_consent::{Ask, Effect, Why};
use fed_io::{Items, NoRoom};
use fed_request::build;
use fed_trace::Out;
use std::alloc::Global;

/// The event is not taken.
pub(crate) fn ignored(alloc: Global, line: u32, why: Why) -> Result<Items<Out>, NoRoom>
    ensures { IfOk result (λ outs. outs ≡ records_of line (Ignored why ∷ [])) }
{
    Ok(Items::from_vec(Vec::from_array(alloc, [Out::Ignored { line, why }])?))
}

/// What a call of the page does, in its order: what it sets is set, and the rest is answered as records.
pub(crate) fn apply(
    alloc: Global,
    line: u32,
    sight: &mut Sight,
    call: u32,
    page: u32,
    effects: Items<Effect>,
) -> Result<Items<Out>, NoRoom>
    requires { CanApplyAll effects }
    ensures outs { IfOk result (λ outs. outs ≡ call_records line (cookies_of sight.old) call page effects) }
    ensures sight { OnOk result (sight.new ≡ sight_after effects sight.old) }
{
    set_all(alloc, sight, effects.as_slice())?;
    let outs = answered(alloc, line, sight, call, page, effects)?;
    Ok(outs)
}

/// The records of what a call of the page does, in their order.
pub(crate) fn answered(
    alloc: Global,
    line: u32,
    sight: &Sight,
    call: u32,
    page: u32,
    effects: Items<Effect>,
) -> Result<Items<Out>, NoRoom>
    ensures { IfOk result (λ outs. outs ≡ call_records line (cookies_of sight.now) call page effects) }
{
    // Room for all of them at once: a list that grows takes room for four records first, which is more than most need.
    let mut outs = Items::from_vec(Vec::with_capacity(alloc, effects.len())?);
    for effect in effects.into_vec() {
        answer(alloc, line, sight, call, page, effect, &mut outs)?;
    }
    Ok(outs)
}

// Sets the statuses, permissions and flags that a call sets, in their order.
fn set_all(alloc: Global, sight: &mut Sight, effects: &[Effect]) -> Result<(), NoRoom>
    requires { CanApplyAll effects.now }
    ensures { OnOk result (sight.new ≡ sight_after effects.now sight.old) }
{
    for effect in effects {
        sight.set(alloc, effect)?;
    }
    Ok(())
}

// Adds the record of what a call of the page does, if it is written. It is made where it is added, since it is large.
fn answer(
    alloc: Global,
    line: u32,
    sight: &Sight,
    call: u32,
    page: u32,
    effect: Effect,
    outs: &mut Items<Out>,
) -> Result<(), NoRoom>
    ensures { OnOk result (outs.new ≡ outs.old ++ call_records line (cookies_of sight.now) call page (effect ∷ [])) }
{
    match effect {
        Effect::Send(provider, ask) => {
            outs.push(request(alloc, line, sight, call, provider, &ask)?)
        }
        Effect::Dropped(provider, failure) => outs.push(Out::Dropped {
            line,
            call,
            provider,
            failure,
        }),
        Effect::Dialog(dialog) => outs.push(Out::Dialog { line, call, dialog }),
        Effect::Finish(finish) => outs.push(Out::Answer {
            line,
            call,
            page,
            finish,
        }),
        Effect::Ignored(why) => outs.push(Out::Ignored { line, why }),
        Effect::Window(provider, url) => outs.push(Out::Window {
            line,
            call,
            provider,
            url,
        }),
        Effect::SetLogin(_, _)
        | Effect::Keep(_)
        | Effect::Forget(_)
        | Effect::ForgetPair(_, _)
        | Effect::ClearFlag(_) => Ok(()),
    }
}

fn request(
    alloc: Global,
    line: u32,
    sight: &Sight,
    call: u32,
    provider: u32,
    ask: &Ask,
) -> Result<Out, NoRoom>
    ensures { IfOk result (λ out. Some out ≡ record_of line (Sent GetCall call provider ask.now (cookies_of sight.now ask.now))) }
{
    let cookies = sight.cookies(alloc, ask)?;
    Ok(Out::Request {
        line,
        call,
        provider,
        kind: ask.kind(),
        bytes: build(alloc, ask, cookies.as_slice())?,
    })
}
