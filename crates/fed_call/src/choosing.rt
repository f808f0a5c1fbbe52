//! A call whose user is to choose an account.
ghost use Rattle.std.specs.Prelude.{◌≡◌, [], Some, false, IfOk, unwrap_or};
ghost use Rattle.fed_call.specs.DialogRows as spec;
ghost use Rattle.fed_call.specs.Dialogs.{prompts};
ghost use Rattle.fed_call.specs.Facts.{at_stage, with_picked};
ghost use Rattle.fed_call.specs.Settling.{prompting_facts};
ghost use Rattle.fed_call.specs.State.{begun_facts, facts_of, offered_in};
ghost use Rattle.fed_status.specs.Shared.{world_of};

use crate::CallState;
use crate::asserting::asserts;
use crate::begun::Call;
use crate::configs::Configs;
use crate::dialogs::prompt_effect;
use crate::effects::ignores;
use crate::prompting::Prompting;
use crate::stages::At;
use fed_consent::{Chooser, Effect, Picked, Why};
use fed_io::{Items, NoRoom, Placed, Text};
use fed_origin::Stage;
use fed_provider::SharedConfig;
use fed_status::Shared;
use std::alloc::Global;

/// The accounts among which the user is to choose, and the configurations of their providers.
pub struct Choosing {
    pub configs: Configs,
    pub chooser: Placed<Chooser>,
}

impl Drop for Choosing {
    fn drop(self) {
        let Choosing {
            configs: _,
            chooser: _,
        } = self;
    }
}

impl Choosing {
    ghost use Rattle.std.specs.Prelude.{◌≡◌, ◌&&◌, IfOk, is_some};
    ghost use Rattle.fed_consent.specs.declared.table.input.Input.TheVariants as inputs;
    ghost use Rattle.fed_call.specs.declared.stages.At.TheVariants as ats;
    ghost use Rattle.fed_call.specs.DialogRows as spec;
    ghost use Rattle.fed_call.specs.Begun.{options_of};
    ghost use Rattle.fed_call.specs.Configs.{config_for};
    ghost use Rattle.fed_call.specs.Facts.{found_offered, provider_at};
    ghost use Rattle.fed_call.specs.Row.{input_facts};
    ghost use Rattle.fed_call.specs.State.{at_facts, facts_of};
    ghost use Rattle.fed_status.specs.Shared.{world_of};

    // Whether the provider at this place is one of the call's, and offers something.
    fn has(&self, begun: &Call, place: u32) -> bool
        ensures { result ≡ (is_some (provider_at place (options_of begun.now)) && is_some (config_for self.now.configs place)) }
    {
        begun.has(place) && self.configs.has(place)
    }

    /// The account with this id of the provider at this place was chosen, if it is offered (else row C25).
    pub fn choose(
        self,
        alloc: Global,
        shared: &Shared<'_>,
        begun: Call,
        place: u32,
        id: &Text,
    ) -> Result<(CallState, Items<Effect>), NoRoom>
        ensures effects { IfOk result (λ r. r.1 ≡ (spec.choice (world_of shared.now) (at_facts begun (ats.Choosing self))
            (found_offered place id.now (at_facts begun (ats.Choosing self)))).effects) }
        ensures state { IfOk result (λ r. facts_of r.0
            ≡ input_facts (world_of shared.now) (at_facts begun (ats.Choosing self)) (inputs.Choose place id.now)) }
    {
        if !self.has(&begun, place) {
            return ignores(
                alloc,
                CallState::pending(begun, At::Choosing(self)),
                Why::NoAccount,
            );
        }
        let Choosing { configs, chooser } = self;
        match chooser.open().choose(place, id) {
            Ok(picked) => chose(
                alloc,
                shared,
                begun.about(place),
                configs.take(place),
                picked,
            ),
            Err(chooser) => {
                let chooser = Placed::new(alloc, chooser)?;
                let same = At::Choosing(Choosing { configs, chooser });
                ignores(alloc, CallState::pending(begun, same), Why::NoAccount)
            }
        }
    }
}

// An account of the provider that the call is about was chosen: the token is asked for where it is connected (row C22), and else there is
// a prompt (rows C23 and C24).
fn chose(
    alloc: Global,
    shared: &Shared<'_>,
    begun: Call,
    config: SharedConfig,
    picked: Picked,
) -> Result<(CallState, Items<Effect>), NoRoom>
    ensures effects { IfOk result (λ r. r.1 ≡ (spec.by_connection (world_of shared.now) (begun_facts begun Stage.Choosing [])
        (offered_in begun config picked.candidate) picked.candidate.connected).effects) }
    ensures state { IfOk result (λ r. facts_of r.0
        ≡ at_stage (unwrap_or (spec.by_connection (world_of shared.now) (begun_facts begun Stage.Choosing [])
        (offered_in begun config picked.candidate) picked.candidate.connected).stage Stage.Choosing)
        (with_picked (offered_in begun config picked.candidate) (begun_facts begun Stage.Choosing []))) }
{
    let account = picked.account().copy(alloc)?;
    match picked.proceed() {
        Ok(consent) => asserts(alloc, begun, config, account, true, consent),
        Err(picked) => asks_about(alloc, shared, begun, config, picked),
    }
}

// The user is to go on with the account that was chosen, which is not connected.
fn asks_about(
    alloc: Global,
    shared: &Shared<'_>,
    begun: Call,
    config: SharedConfig,
    picked: Picked,
) -> Result<(CallState, Items<Effect>), NoRoom>
    requires { picked.candidate.connected ≡ false }
    ensures effects { IfOk result (λ r. r.1 ≡ (prompts (world_of shared.now) (begun_facts begun Stage.Choosing [])
        (offered_in begun config picked.candidate)).effects) }
    ensures state { IfOk result (λ r. facts_of r.0 ≡ Some (prompting_facts begun (offered_in begun config picked.candidate))) }
{
    let prompt = picked.prompt(config.get().metadata.is_some());
    let effects = prompt_effect(alloc, shared, &begun, &config, &prompt)?.alone(alloc)?;
    let prompting = Prompting {
        config,
        prompt: Placed::new(alloc, prompt)?,
    };
    Ok((CallState::pending(begun, At::Prompting(prompting)), effects))
}
