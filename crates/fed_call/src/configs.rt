//! The configurations of a call's providers.
ghost use Rattle.std.specs.Prelude.{◌≡◌, ◌∷◌, [], IfOk, IsTrue, Some, is_some};
ghost use Rattle.fed_call.specs.Configs.{config_for};

use fed_io::{Items, NoRoom, Placed};
use fed_provider::SharedConfig;
use std::alloc::Global;
use std::marker::Model;

/// The configuration of each provider of a call, in their order, if it gave accounts. Contracts see the list. That of a call's only
/// provider takes no memory.
pub struct Configs {
    held: Held,
}

// One, or those of several in a place of their own, since each event moves the call's state several times.
#[derive(Drop)]
pub enum Held {
    One(SharedConfig),
    Several(Placed<Items<Option<SharedConfig>>>),
}

// Written out, so that one function lets it go wherever it ends.
impl Drop for Configs {
    fn drop(self) {
        let Configs { held: _ } = self;
    }
}

impl Model for Configs {
    ghost use Rattle.std.specs.Prelude.{List, Option};
    ghost use Rattle.fed_provider.specs.declared.config.Config.{Config};
    ghost use Rattle.fed_call.specs.Configs.{configs_in};

    ghost Value = { List (Option Config) };

    ghost view = { λ c. configs_in c.held };
}

impl Configs {
    /// That of the only provider. It takes no memory.
    pub fn one(config: SharedConfig) -> Configs
        ensures { result ≡ Some config ∷ [] }
    {
        Configs {
            held: Held::One(config),
        }
    }

    /// Those of several providers.
    pub fn several(alloc: Global, configs: Items<Option<SharedConfig>>) -> Result<Configs, NoRoom>
        ensures { IfOk result (λ r. r ≡ configs) }
    {
        Ok(Configs {
            held: Held::Several(Placed::new(alloc, configs)?),
        })
    }

    /// Whether the provider at this place has one. It takes no memory.
    pub fn has(&self, place: u32) -> bool
        ensures { result ≡ is_some (config_for self.now place) }
    {
        match &self.held {
            Held::One(_) => place == 0,
            Held::Several(configs) => is_kept(configs.get().as_slice(), place),
        }
    }

    /// That of the provider at this place; the others are given up. It takes no memory.
    pub fn take(self, place: u32) -> SharedConfig
        requires { IsTrue (is_some (config_for self place)) }
        ensures { config_for self place ≡ Some result }
    {
        let Configs { held } = self;
        match held {
            Held::One(config) => config,
            Held::Several(configs) => taken(configs.open(), place),
        }
    }
}

// Whether there is one at this place.
fn is_kept(configs: &[Option<SharedConfig>], place: u32) -> bool
    ensures { result ≡ is_some (config_for configs.now place) }
{
    match configs.get(place as usize) {
        Some(config) => config.is_some(),
        None => false,
    }
}

// The one at this place.
fn taken(configs: Items<Option<SharedConfig>>, place: u32) -> SharedConfig
    requires { IsTrue (is_some (config_for configs place)) }
    ensures { config_for configs place ≡ Some result }
{
    match configs.into_vec().swap_remove(place as usize) {
        Some(config) => config,
        None => unreachable!(),
    }
}
