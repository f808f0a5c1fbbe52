//! What providers offer to a call.
ghost use Rattle.std.specs.Prelude.{◌≡◌, ◌<◌, ◌∷◌, [], length, option_map, Some, slice_get, zip};
ghost use Rattle.fed_accounts.specs.Connection as spec;
ghost use Rattle.fed_accounts.specs.Offers.{IsWhole};

use crate::{Account, Accounts, connected};
use fed_io::{Items, Text};
use std::marker::Model;
use std::slice;

/// Accounts of a provider that a call is about.
pub struct Offer {
    /// The place of the provider in the call's list.
    pub provider: u32,
    /// The client's id at the provider.
    pub client: Text,
    /// The accounts, in the provider's order.
    pub accounts: Accounts,
    /// Of each account, in their order, whether its permission is kept.
    pub kept: Items<bool>,
}

// Written out, so that one function lets an offer go wherever it ends.
impl Drop for Offer {
    fn drop(self) {
        let Offer {
            provider: _,
            client: _,
            accounts: _,
            kept: _,
        } = self;
    }
}

impl Offer {
    /// Whether the account at this place from 0 is connected to the client (FedCM, "compute the connection status"). It takes no
    /// memory.
    pub fn connects(&self, place: usize) -> bool
        requires whole { IsWhole self.now }
        requires inside { place < length self.now.accounts }
        ensures { option_map (λ entry. spec.Connected entry.0 self.now.client entry.1)
            (slice_get (zip self.now.accounts self.now.kept) place) ≡ Some result }
    {
        connected(
            &self.accounts.list()[place],
            &self.client,
            self.kept.as_slice()[place],
        )
    }

    /// The account at this place from 0; the others are given up. It takes no memory.
    pub fn take(self, place: usize) -> Account
        requires { place < length self.accounts }
        ensures { slice_get self.accounts place ≡ Some result }
    {
        let Offer {
            provider: _,
            client: _,
            accounts,
            kept: _,
        } = self;
        accounts.take(place)
    }
}

/// What the providers of a call offer. Contracts see it as the list of the offers. One alone stands in place, so that the offer of a
/// call's only provider takes no memory.
pub struct Offers {
    held: Held,
}

// One offer, or several.
#[derive(Drop)]
enum Held {
    One(Offer),
    Several(Items<Offer>),
}

// Written out, so that one function lets offers go wherever they end.
impl Drop for Offers {
    fn drop(self) {
        let Offers { held: _ } = self;
    }
}

impl Model for Offers {
    ghost use Rattle.std.specs.Prelude.{List};
    ghost use Rattle.fed_accounts.specs.declared.offer.Offer.{Offer};
    ghost use Rattle.fed_accounts.specs.Offers.{offers_in};

    ghost Value = { List Offer };

    ghost view = { λ o. offers_in o.held };
}

impl Offers {
    /// What one provider offers. It takes no memory.
    pub fn one(offer: Offer) -> Offers
        ensures { result ≡ offer ∷ [] }
    {
        Offers {
            held: Held::One(offer),
        }
    }

    /// What several providers offer. It takes no memory.
    pub fn several(offers: Items<Offer>) -> Offers
        ensures { result ≡ offers }
    {
        Offers {
            held: Held::Several(offers),
        }
    }

    /// The offers, in their order. It takes no memory.
    pub fn as_slice(&self) -> &[Offer]
        ensures { result.now ≡ self.now }
    {
        match &self.held {
            Held::One(only) => slice::from_ref(only),
            Held::Several(offers) => offers.as_slice(),
        }
    }

    /// The offer at this place from 0; the others are given up. It takes no memory.
    pub fn take(self, place: usize) -> Offer
        requires { place < length self }
        ensures { slice_get self place ≡ Some result }
    {
        let Offers { held } = self;
        match held {
            Held::One(only) => only,
            Held::Several(offers) => offers.into_vec().swap_remove(place),
        }
    }
}
