//! The disconnect reply of a disconnect call.
ghost use Rattle.std.specs.Prelude.{◌≡◌, IfOk};
ghost use Rattle.fed_origin.specs.Origin.{origin_text};
ghost use Rattle.fed_status.specs.Kept.{has_triple, triple_of};
ghost use Rattle.fed_status.specs.Shared.{world_of};
ghost use Rattle.fed_token.specs.Read.{DisconnectOf, IsDisconnectStep};
ghost use Rattle.fed_disconnect.specs.Facts.{provider_origin};
ghost use Rattle.fed_disconnect.specs.Rows as spec;

use crate::begun::Begun;
use fed_consent::{Detail, Effect, FailStep, Failure, Finish};
use fed_io::{Fault, Items, NoRoom, Placed, Text};
use fed_origin::Triple;
use fed_status::{KeptSet, Shared};
use fed_token::{TokenStep, read_disconnect_with};
use std::alloc::Global;

/// What a disconnect reply comes to: the permissions that go, and then what the page gets.
pub fn answered(
    alloc: Global,
    shared: &Shared<'_>,
    begun: &Begun,
    raw: &[u8],
) -> Result<Items<Effect>, NoRoom>
    ensures { IfOk result (λ effects. effects ≡ (spec.answered (world_of shared.now).kept begun.now.origin
        (provider_origin begun.now.options) (DisconnectOf raw.now (origin_text begun.now.origin))).effects) }
{
    match read_disconnect_with(alloc, shared.rules.memory(), raw, begun.origin()) {
        Ok(account) => {
            let forgets = begun.forgotten(alloc, shared.kept, account)?;
            forgets.then(alloc, Effect::Finish(Finish::Disconnected))
        }
        Err(Fault::Step(step)) => {
            let failure = refusal(step);
            let forgets = begun.all_forgotten(alloc)?;
            forgets.then(alloc, Effect::Finish(Finish::Failed(failure)))
        }
        Err(Fault::NoRoom) => Err(NoRoom),
    }
}

// The failure where the reply is refused. An error of the provider is no step of a disconnect reply.
fn refusal(step: TokenStep) -> Failure
    requires { IsDisconnectStep step }
    ensures { result ≡ spec.refusal step }
{
    match step {
        TokenStep::Reply(step) => Failure::detailed(FailStep::DisconnectReply, Detail::Reply(step)),
        TokenStep::Cors => Failure::plain(FailStep::DisconnectCors),
        TokenStep::Shape => Failure::plain(FailStep::DisconnectShape),
        TokenStep::ProviderError { .. } => unreachable!(),
    }
}

impl Begun {
    // The permissions that go with this account: its own where it is kept, and else all of the page and the provider.
    fn forgotten(&self, alloc: Global, kept: &KeptSet, account: Text) -> Result<Effect, NoRoom>
        ensures { IfOk result (λ effect. effect ≡ spec.forgotten self.now.origin (provider_origin self.now.options) account
            (has_triple kept.now (triple_of self.now.origin (provider_origin self.now.options) account))) }
    {
        if kept.has(self.origin(), self.place.config.origin(), &account) {
            let page = self.origin().copy(alloc)?;
            let provider = self.place.config.origin().copy(alloc)?;
            let triple = Triple {
                page,
                provider,
                account,
            };
            return Ok(Effect::Forget(Placed::new(alloc, triple)?));
        }
        self.all_forgotten(alloc)
    }

    // All permissions of the page and the provider go.
    fn all_forgotten(&self, alloc: Global) -> Result<Effect, NoRoom>
        ensures { IfOk result (λ effect. effect ≡ Effect.ForgetPair self.now.origin (provider_origin self.now.options)) }
    {
        let page = Placed::new(alloc, self.origin().copy(alloc)?)?;
        let provider = Placed::new(alloc, self.place.config.origin().copy(alloc)?)?;
        Ok(Effect::ForgetPair(page, provider))
    }
}
