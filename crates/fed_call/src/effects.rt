//! How a call ends, and how it takes nothing.
ghost use Rattle.std.specs.Prelude.{◌≡◌, None, Some, IfOk, IsTrue};
ghost use Rattle.fed_consent.specs.Outcomes as spec;
ghost use Rattle.fed_call.specs.Fits.{fits};
ghost use Rattle.fed_call.specs.Row.{declined, kept_declined};
ghost use Rattle.fed_call.specs.State.{at_facts, facts_of};

use crate::CallState;
use crate::begun::Call;
use crate::stages::At;
use fed_consent::{Effect, FailStep, Failure, Finish, Input, Why};
use fed_io::{Items, NoRoom};
use std::alloc::Global;

/// The page gets this, and the call is over.
pub fn finishes(alloc: Global, finish: Finish) -> Result<(CallState, Items<Effect>), NoRoom>
    ensures effects { IfOk result (λ r. r.1 ≡ (spec.finishes finish).effects) }
    ensures state { IfOk result (λ r. facts_of r.0 ≡ None) }
{
    let effects = Effect::Finish(finish).alone(alloc)?;
    Ok((CallState::ended(), effects))
}

/// The page gets the failure, and the call is over.
pub fn fails(alloc: Global, failure: Failure) -> Result<(CallState, Items<Effect>), NoRoom>
    ensures effects { IfOk result (λ r. r.1 ≡ (spec.fails failure).effects) }
    ensures state { IfOk result (λ r. facts_of r.0 ≡ None) }
{
    finishes(alloc, Finish::Failed(failure))
}

/// An event is not taken, and nothing changes.
pub fn ignores(
    alloc: Global,
    state: CallState,
    why: Why,
) -> Result<(CallState, Items<Effect>), NoRoom>
    ensures effects { IfOk result (λ r. r.1 ≡ (spec.ignored why).effects) }
    ensures state { IfOk result (λ r. facts_of r.0 ≡ facts_of state) }
{
    let effects = Effect::Ignored(why).alone(alloc)?;
    Ok((state, effects))
}

/// An input that the call's stage has no row for: an abort ends the call (row C34), and another is not taken (row C36).
pub fn declines(
    alloc: Global,
    begun: Call,
    at: At,
    input: &Input,
) -> Result<(CallState, Items<Effect>), NoRoom>
    requires { IsTrue (fits begun at) }
    ensures effects { IfOk result (λ r. r.1 ≡ (declined input.now).effects) }
    ensures state { IfOk result (λ r. facts_of r.0 ≡ kept_declined input.now (Some (at_facts begun at))) }
{
    let same = CallState::pending(begun, at);
    match input {
        Input::Abort => fails(alloc, Failure::plain(FailStep::Aborted)),
        Input::Reply { .. } => ignores(alloc, same, Why::NotWaited),
        Input::Choose { .. }
        | Input::GoOn
        | Input::Cancel
        | Input::SignIn
        | Input::Shut
        | Input::Resume => ignores(alloc, same, Why::NotOffered),
    }
}
