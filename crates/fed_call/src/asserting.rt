//! A call whose token is awaited.
ghost use Rattle.std.specs.Prelude.{◌≡◌, ◌∷◌, [], Some, false, IfOk};
ghost use Rattle.fed_consent.specs.Consent.{assertion_fields};
ghost use Rattle.fed_call.specs.declared.stages.At.TheVariants as ats;
ghost use Rattle.fed_call.specs.AssertingRows as spec;
ghost use Rattle.fed_call.specs.State.{at_facts, facts_of};
ghost use Rattle.fed_origin.specs.WebUrl.{origin_of};
ghost use Rattle.fed_status.specs.Kept.{triple_of};

use crate::CallState;
use crate::begun::Call;
use crate::effects::finishes;
use crate::stages::At;
use fed_accounts::Account;
use fed_consent::{Ask, Consent, Detail, Effect, FailStep, Failure, Finish};
use fed_io::{Fault, Items, NoRoom, Placed, Text};
use fed_origin::Triple;
use fed_provider::SharedConfig;
use fed_status::Shared;
use fed_token::{TokenStep, read_assertion_with};
use std::alloc::Global;

/// The account that the token is for, and the configuration of its provider.
pub struct Asserting {
    pub config: SharedConfig,
    pub account: Placed<Account>,
    pub connected: bool,
    /// Whether it was settled on without the user.
    pub auto: bool,
}

impl Drop for Asserting {
    fn drop(self) {
        let Asserting {
            config: _,
            account: _,
            connected: _,
            auto: _,
        } = self;
    }
}

impl Asserting {
    ghost use Rattle.std.specs.Prelude.{◌≡◌, None, Ok, IfOk};
    ghost use Rattle.fed_origin.specs.Origin.{origin_text};
    ghost use Rattle.fed_status.specs.Shared.{world_of};
    ghost use Rattle.fed_token.specs.Read.{AssertionOf};
    ghost use Rattle.fed_call.specs.declared.stages.At.TheVariants as ats;
    ghost use Rattle.fed_call.specs.AssertingRows as spec;
    ghost use Rattle.fed_call.specs.State.{at_facts, facts_of, offered_in};

    /// The assertion reply: a token (row C32), or a step (row C33).
    pub fn answered(
        self,
        alloc: Global,
        shared: &Shared<'_>,
        begun: Call,
        raw: &[u8],
    ) -> Result<(CallState, Items<Effect>), NoRoom>
        ensures effects { IfOk result (λ r. r.1 ≡ (spec.by_token (at_facts begun (ats.Asserting self))
            (offered_in begun self.config (record { account = self.account; connected = self.connected }))
            (AssertionOf raw.now (origin_text begun.origin))).effects) }
        ensures state { IfOk result (λ r. facts_of r.0 ≡ None) }
    {
        match read_assertion_with(alloc, shared.rules.memory(), raw, begun.origin()) {
            Ok(token) => self.signs_in(alloc, begun, token),
            Err(Fault::Step(step)) => finishes(alloc, token_refused(step)),
            Err(Fault::NoRoom) => Err(NoRoom),
        }
    }

    // The page gets the token. The permission of the account is kept from now on, and silent access is prevented no longer where
    // the user took part.
    fn signs_in(
        self,
        alloc: Global,
        begun: Call,
        token: Text,
    ) -> Result<(CallState, Items<Effect>), NoRoom>
        ensures effects { IfOk result (λ r. r.1 ≡ (spec.by_token (at_facts begun (ats.Asserting self))
            (offered_in begun self.config (record { account = self.account; connected = self.connected })) (Ok token)).effects) }
        ensures state { IfOk result (λ r. facts_of r.0 ≡ None) }
    {
        let auto = self.auto;
        let kept = Placed::new(alloc, permission(alloc, &begun, self.account.get())?)?;
        let mut effects = Effect::Keep(kept).alone(alloc)?;
        if !auto {
            effects.push(Effect::ClearFlag(begun.origin().copy(alloc)?))?;
        }
        effects.push(Effect::Finish(Finish::Token {
            auto,
            provider: begun.place(),
            token,
        }))?;
        Ok((CallState::ended(), effects))
    }
}

// The permission of an account of the provider that the call is about.
fn permission(alloc: Global, begun: &Call, account: &Account) -> Result<Triple, NoRoom>
    ensures { IfOk result (λ triple. triple
        ≡ triple_of begun.now.origin (origin_of begun.now.provider.config) account.now.id) }
{
    Ok(Triple {
        page: begun.origin().copy(alloc)?,
        provider: begun.provider_origin().copy(alloc)?,
        account: account.id.copy(alloc)?,
    })
}

// What the page gets where the reply is refused, or gives an error (row C33).
fn token_refused(step: TokenStep) -> Finish
    ensures { result ≡ spec.token_refused step }
{
    match step {
        TokenStep::Reply(step) => Finish::Failed(Failure::detailed(
            FailStep::AssertionReply,
            Detail::Reply(step),
        )),
        TokenStep::Cors => Finish::Failed(Failure::plain(FailStep::AssertionCors)),
        TokenStep::Shape => Finish::Failed(Failure::plain(FailStep::AssertionShape)),
        TokenStep::ProviderError { code, url } => Finish::ProviderError { code, url },
    }
}

/// The request for a token to the provider that the call is about, on which the consent is spent; on want of memory it is voided.
pub fn assertion_request(
    alloc: Global,
    begun: &Call,
    config: &SharedConfig,
    consent: Consent,
) -> Result<Effect, NoRoom>
    ensures { IfOk result (λ effect. effect ≡ Effect.Send begun.now.place (Ask.Assertion
        (assertion_fields consent config.now.assertion begun.now.origin begun.now.provider))) }
{
    let to = &config.get().assertion;
    match consent.spend(alloc, to, begun.origin(), begun.provider()) {
        Ok(ask) => Ok(Effect::Send(begun.place(), ask)),
        Err((NoRoom, consent)) => {
            consent.void();
            Err(NoRoom)
        }
    }
}

/// The user agreed to the account of the provider that the call is about: the token for it is asked for. On want of memory the consent is
/// voided.
pub fn asserts(
    alloc: Global,
    begun: Call,
    config: SharedConfig,
    account: Account,
    connected: bool,
    consent: Consent,
) -> Result<(CallState, Items<Effect>), NoRoom>
    ensures effects { IfOk result (λ r. r.1 ≡ Effect.Send begun.place (Ask.Assertion
        (assertion_fields consent config.assertion begun.origin begun.provider)) ∷ []) }
    ensures state { IfOk result (λ r. facts_of r.0 ≡ Some (at_facts begun (ats.Asserting (record
        { config = config; account = account; connected = connected; auto = false })))) }
{
    let effect = assertion_request(alloc, &begun, &config, consent)?;
    let effects = effect.alone(alloc)?;
    let asserting = Asserting {
        config,
        account: Placed::new(alloc, account)?,
        connected,
        auto: false,
    };
    Ok((CallState::pending(begun, At::Asserting(asserting)), effects))
}
