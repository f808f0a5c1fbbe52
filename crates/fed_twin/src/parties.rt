//! The parties of providers.
ghost use Rattle.std.specs.Prelude.{◌≡◌, [], ◌∷◌, IfOk, OnOk};
ghost use Rattle.fed_twin.specs.Clauses.{parties_of, provider_parties, known_by, Gathers};
ghost use Rattle.fed_twin.specs.Providers.{is_provider};
ghost use Rattle.fed_twin.specs.Twin.{configs_in, configs, providers_of};

use fed_io::NoRoom;
use fed_origin::{Host, ProviderOptions};
use fed_script::{Event, Numbered, Script};
use fed_suffix::Suffixes;
use indexmap::IndexSet;
use std::alloc::Global;
use std::marker::Model;

/// The parties of the configuration URLs of two scripts. Contracts see them as a list of their texts.
#[derive(Drop)]
pub struct ProviderParties {
    parties: IndexSet<Vec<u8>>,
}

impl Model for ProviderParties {
    ghost use Rattle.std.specs.Prelude.{ℕ, List, map};

    ghost Value = { List (List ℕ) };

    ghost view = { λ p. map (λ party. party.items) p.parties.keys };
}

impl ProviderParties {
    /// The parties of all configuration URLs of both scripts, by the rules of the first.
    pub fn of(alloc: Global, a: &Script, b: &Script) -> Result<ProviderParties, NoRoom>
        ensures { IfOk result (λ parties. Gathers [] (providers_of a.now b.now).parties parties) }
    {
        let rules = &a.header().rules;
        let mut parties = ProviderParties {
            parties: IndexSet::new(alloc),
        };
        parties.add_all(alloc, rules, a.events())?;
        parties.add_all(alloc, rules, b.events())?;
        Ok(parties)
    }

    /// Whether the host is of the party of a provider. It takes no memory.
    pub fn has(&self, rules: &Suffixes, host: &Host) -> bool
        ensures { result ≡ is_provider (known_by rules.now self.now) host.now }
    {
        self.parties.contains(rules.party(host))
    }

    // Adds the parties of the configuration URLs of all these events.
    fn add_all(
        &mut self,
        alloc: Global,
        rules: &Suffixes,
        events: &[Numbered],
    ) -> Result<(), NoRoom>
        ensures { OnOk result (Gathers self.old (parties_of rules.now (configs events.now)) self.new) }
    {
        for numbered in events {
            self.add_of(alloc, rules, &numbered.event)?;
        }
        Ok(())
    }

    // Those of one event.
    fn add_of(&mut self, alloc: Global, rules: &Suffixes, event: &Event) -> Result<(), NoRoom>
        ensures { OnOk result (Gathers self.old (parties_of rules.now (configs_in event.now)) self.new) }
    {
        match event {
            Event::Get { options, .. } => {
                self.add_each(alloc, rules, options.providers.as_slice())
            }
            Event::Disconnect { config, .. } => self.add(alloc, rules.party(config.host())),
            _ => Ok(()),
        }
    }

    // Those of the providers of a get.
    fn add_each(
        &mut self,
        alloc: Global,
        rules: &Suffixes,
        providers: &[ProviderOptions],
    ) -> Result<(), NoRoom>
        ensures { OnOk result (Gathers self.old (provider_parties rules.now providers.now) self.new) }
    {
        for provider in providers {
            self.add(alloc, rules.party(provider.config.host()))?;
        }
        Ok(())
    }

    // Adds a party. One that is there already is not copied.
    fn add(&mut self, alloc: Global, party: &[u8]) -> Result<(), NoRoom>
        ensures { OnOk result (Gathers self.old (party.now ∷ []) self.new) }
    {
        if self.parties.contains(party) {
            return Ok(());
        }
        self.parties.insert(party.to_vec(alloc)?)?;
        Ok(())
    }
}
