//! A call whose user is to go on with an account.

use crate::CallState;
use crate::asserting::asserts;
use crate::begun::Call;
use crate::dialogs::prompt_dialog;
use crate::effects::ignores;
use crate::stages::At;
use fed_consent::{Effect, Prompt, Why};
use fed_io::{Items, NoRoom, Placed};
use fed_origin::Stage;
use fed_provider::{SharedConfig, read_metadata_with};
use fed_status::Shared;
use std::alloc::Global;

/// The account that the user is to go on with, and the configuration of its provider. The prompt waits for the metadata of the client, or
/// is shown.
pub struct Prompting {
    pub config: SharedConfig,
    pub prompt: Placed<Prompt>,
}

impl Drop for Prompting {
    fn drop(self) {
        let Prompting {
            config: _,
            prompt: _,
        } = self;
    }
}

impl Prompting {
    ghost use Rattle.std.specs.Prelude.{◌≡◌, ◌∷◌, [], false, IfOk, Some, unwrap_or};
    ghost use Rattle.fed_provider.specs.Metadata.{MetadataOf};
    ghost use Rattle.fed_status.specs.Shared.{world_of};
    ghost use Rattle.fed_call.specs.declared.stages.At.TheVariants as ats;
    ghost use Rattle.fed_call.specs.DialogRows as spec;
    ghost use Rattle.fed_call.specs.Dialogs as dialogs;
    ghost use Rattle.fed_call.specs.Facts.{at_stage};
    ghost use Rattle.fed_call.specs.State.{at_facts, facts_of, offered_in};

    /// Whether the prompt waits for the metadata of the client.
    pub fn waits(&self) -> bool
        ensures { result ≡ self.now.prompt.waits }
    {
        self.prompt.get().waits()
    }

    /// The metadata came: the account is shown with the links of the client, and the call stays (row C26).
    pub fn shows_links(
        self,
        alloc: Global,
        shared: &Shared<'_>,
        begun: Call,
        raw: &[u8],
    ) -> Result<(CallState, Items<Effect>), NoRoom>
        ensures effects { IfOk result (λ r. r.1 ≡ dialogs.prompt_dialog (world_of shared.now) (at_facts begun (ats.Prompting self))
            (offered_in begun self.config self.prompt.pick.candidate) (MetadataOf raw.now) ∷ []) }
        ensures state { IfOk result (λ r. facts_of r.0 ≡ Some (record (at_facts begun (ats.Prompting self)) { waits = false })) }
    {
        let links = read_metadata_with(alloc, shared.rules.memory(), raw)?;
        let Prompting { config, prompt } = self;
        let prompt = prompt.open().ready();
        let effects = prompt_dialog(alloc, shared, &begun, &prompt, &links)?.alone(alloc)?;
        let prompting = Prompting {
            config,
            prompt: Placed::new(alloc, prompt)?,
        };
        Ok((CallState::pending(begun, At::Prompting(prompting)), effects))
    }

    /// The user went on with the account, if the prompt does not wait (row C27, else row C36).
    pub fn go_on(self, alloc: Global, begun: Call) -> Result<(CallState, Items<Effect>), NoRoom>
        ensures effects { IfOk result (λ r. r.1 ≡ (spec.went_on (at_facts begun (ats.Prompting self)) Stage.Prompting).effects) }
        ensures state { IfOk result (λ r. facts_of r.0
            ≡ at_stage (unwrap_or (spec.went_on (at_facts begun (ats.Prompting self)) Stage.Prompting).stage Stage.Prompting)
            (at_facts begun (ats.Prompting self))) }
    {
        let account = self.prompt.get().account().copy(alloc)?;
        let connected = self.prompt.get().connected();
        let Prompting { config, prompt } = self;
        match prompt.open().proceed() {
            Ok(consent) => asserts(alloc, begun, config, account, connected, consent),
            Err(prompt) => {
                let prompt = Placed::new(alloc, prompt)?;
                let same = At::Prompting(Prompting { config, prompt });
                ignores(alloc, CallState::pending(begun, same), Why::NotOffered)
            }
        }
    }
}
