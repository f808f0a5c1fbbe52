//! The accounts that a call is about.
ghost use Rattle.std.specs.Prelude.{◌≡◌, ◌<◌, IfOk, IfSome, IsTrue, is_some, length, map};
ghost use Rattle.fed_accounts.specs.Offers.{IsWhole};
ghost use Rattle.fed_status.specs.Shared.{world_of};
ghost use Rattle.fed_call.specs.Accounts as spec;
ghost use Rattle.fed_call.specs.Begun.{options_of};
ghost use Rattle.fed_call.specs.Facts.{provider_at};

use crate::begun::Call;
use fed_accounts::{Account, Accounts, AccountsStep, Offer, read_hinted};
use fed_io::{Fault, Items, NoRoom, lent_text};
use fed_origin::{Origin, ProviderOptions};
use fed_reply::ReplyMemory;
use fed_status::{KeptSet, Shared};
use std::alloc::Global;

/// The accounts in an accounts reply that the hints of the call ask for, or the step at which they are refused.
#[tactic(auto, unfolding(crate::specs::Accounts::accounts_of, fed_accounts::specs::Hints::HintedOf))]
pub fn hinted_accounts(
    alloc: Global,
    memory: &ReplyMemory,
    raw: &[u8],
    provider: &ProviderOptions,
) -> Result<Result<Accounts, AccountsStep>, NoRoom>
    ensures { IfOk result (λ read. read ≡ spec.accounts_of raw.now provider.now) }
{
    let login = lent_text(&provider.login_hint);
    let domain = lent_text(&provider.domain_hint);
    match read_hinted(alloc, memory, raw, login, domain) {
        Ok(accounts) => Ok(Ok(accounts)),
        Err(Fault::Step(step)) => Ok(Err(step)),
        Err(Fault::NoRoom) => Err(NoRoom),
    }
}

// Of each of these accounts of the provider's origin, in their order, whether its permission at pages of an origin is kept.
fn kept_at(
    alloc: Global,
    kept: &KeptSet,
    page: &Origin,
    provider: &Origin,
    accounts: &[Account],
) -> Result<Items<bool>, NoRoom>
    ensures { IfOk result (λ all. all ≡ map (spec.is_kept kept.now page.now provider.now) accounts.now) }
{
    let mut all = Items::new(alloc);
    for account in accounts {
        all.push(kept.has(page, provider, &account.id))?;
    }
    Ok(all)
}

/// What the provider at this place offers, by the permissions that are kept.
pub fn offer(
    alloc: Global,
    shared: &Shared<'_>,
    begun: &Call,
    place: u32,
    accounts: Accounts,
) -> Result<Offer, NoRoom>
    requires { IsTrue (is_some (provider_at place (options_of begun.now))) }
    ensures value { IfOk result (λ offer. IfSome (provider_at place (options_of begun.now)) (λ provider. offer
        ≡ spec.offer_of (world_of shared.now).kept begun.now.origin place provider accounts)) }
    ensures whole { IfOk result (λ offer. IsWhole offer) }
    ensures some { IfOk result (λ offer. 0 < length offer.accounts) }
{
    let provider = begun.provider_of(place);
    let kept = kept_at(
        alloc,
        shared.kept,
        begun.origin(),
        provider.config.origin(),
        accounts.list(),
    )?;
    Ok(Offer {
        provider: place,
        client: provider.client.copy(alloc)?,
        accounts,
        kept,
    })
}
