//! What several providers offer.
ghost use Rattle.std.specs.Prelude.{◌≡◌, ◌∷◌, ◌++◌, [], IfOk, IfSome, IsTrue, OnOk, is_some, length, map, option_to_list};
ghost use Rattle.std.specs.List.{AllByRecursion};
ghost use Rattle.fed_status.specs.Shared.{world_of};
ghost use Rattle.fed_call.specs.Begun.{options_of};
ghost use Rattle.fed_call.specs.Facts.{provider_at, shortlist, shortlists};
ghost use Rattle.fed_call.specs.Gathering.{HasSome, listed_config};

use crate::accounts::offer;
use crate::begun::Call;
use crate::configs::Configs;
use crate::progress::Progress;
use fed_accounts::{Offer, Offers};
use fed_io::{Items, NoRoom};
use fed_provider::SharedConfig;
use fed_status::Shared;
use std::alloc::Global;

// What was found of the providers so far: of each its configuration, if it gave accounts, and what these offer.
struct Found {
    configs: Items<Option<SharedConfig>>,
    offers: Items<Offer>,
}

impl Drop for Found {
    fn drop(self) {
        let Found {
            configs: _,
            offers: _,
        } = self;
    }
}

impl Found {
    // All that was found.
    fn done(self, alloc: Global) -> Result<(Configs, Offers), NoRoom>
        ensures { IfOk result (λ r. r ≡ (self.configs, self.offers)) }
    {
        let Found { configs, offers } = self;
        Ok((Configs::several(alloc, configs)?, Offers::several(offers)))
    }

    // The provider at this place has come so far.
    fn add(
        &mut self,
        alloc: Global,
        shared: &Shared<'_>,
        begun: &Call,
        place: u32,
        progress: Progress,
    ) -> Result<(), NoRoom>
        requires known { IsTrue (is_some (provider_at place (options_of begun.now))) }
        requires some { AllByRecursion HasSome self.old.offers }
        ensures configs { OnOk result (self.new.configs ≡ self.old.configs ++ listed_config progress ∷ []) }
        ensures offers { OnOk result (IfSome (provider_at place (options_of begun.now)) (λ provider. self.new.offers ≡ self.old.offers
            ++ map (λ list. list.offer) (option_to_list
            (shortlist (world_of shared.now).kept begun.now.origin place provider progress)))) }
        ensures some { OnOk result (AllByRecursion HasSome self.new.offers) }
    {
        match progress.into_listed() {
            Some((config, accounts)) => {
                let offer = offer(alloc, shared, begun, place, accounts)?;
                self.offers.push(offer)?;
                self.configs.push(Some(config))
            }
            None => self.configs.push(None),
        }
    }
}

/// What each provider that gave accounts offers, and the configurations of these. No provider is awaited.
pub fn gathered(
    alloc: Global,
    shared: &Shared<'_>,
    begun: &Call,
    progress: Items<Progress>,
) -> Result<(Configs, Offers), NoRoom>
    requires { length progress ≡ length begun.now.providers }
    ensures configs { IfOk result (λ r. r.0 ≡ map listed_config progress) }
    ensures offers { IfOk result (λ r. r.1 ≡ map (λ list. list.offer)
        (shortlists (world_of shared.now).kept begun.now.origin 0 begun.now.providers progress)) }
    ensures some { IfOk result (λ r. AllByRecursion HasSome r.1) }
{
    let count = begun.count();
    let mut found = Found {
        configs: Items::from_vec(Vec::with_capacity(alloc, count)?),
        offers: Items::from_vec(Vec::with_capacity(alloc, count)?),
    };
    let mut place = 0;
    for progress in progress.into_vec() {
        found.add(alloc, shared, begun, place, progress)?;
        place += 1;
    }
    found.done(alloc)
}
