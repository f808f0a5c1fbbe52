//! What a disconnect call does, where it fails or takes nothing.
ghost use Rattle.std.specs.Prelude.{◌≡◌, None, IfOk};
ghost use Rattle.fed_consent.specs.Outcomes as spec;
ghost use Rattle.fed_disconnect.specs.State.{disconnect_facts_of};

use crate::DState;
use fed_consent::{Effect, Failure, Finish, Why};
use fed_io::{Items, NoRoom};
use std::alloc::Global;

/// What a call does that does not take the event.
pub fn not_taken(alloc: Global, why: Why) -> Result<Items<Effect>, NoRoom>
    ensures { IfOk result (λ effects. effects ≡ (spec.ignored why).effects) }
{
    Effect::Ignored(why).alone(alloc)
}

/// The page gets the failure, and the call is over.
pub fn fails(alloc: Global, failure: Failure) -> Result<(DState, Items<Effect>), NoRoom>
    ensures effects { IfOk result (λ r. r.1 ≡ (spec.fails failure).effects) }
    ensures state { IfOk result (λ r. disconnect_facts_of r.0 ≡ None) }
{
    let effects = Effect::Finish(Finish::Failed(failure)).alone(alloc)?;
    Ok((DState::Ended, effects))
}
