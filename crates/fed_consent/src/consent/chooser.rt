//! A choice among several accounts.
ghost use Rattle.std.specs.Prelude.{◌≡◌, ◌≤◌, ◌<◌, Some, IfSome, length, ok_or, slice_get};
ghost use Rattle.std.specs.List.{position};
ghost use Rattle.fed_accounts.specs.Offers.{AreWhole, HasAccount};
ghost use Rattle.fed_consent.specs.Consent.{AreRising, chosen, picks};
ghost use Rattle.fed_consent.specs.Choice.{is_of, offered_at, place_in, places_of};

use super::Picked;
use fed_accounts::{Offer, Offers};
use fed_io::Text;
use std::marker::Model;

/// Several accounts, of one provider or of several, among which the user is to choose (FedCM, "Browser API", the account chooser).
/// Contracts see them with the call, as each provider offers them.
pub struct Chooser {
    call: u32,
    offers: Offers,
}

// Written out, so that one function lets it go wherever it ends.
impl Drop for Chooser {
    fn drop(self) {
        let Chooser { call: _, offers: _ } = self;
    }
}

impl Model for Chooser {
    ghost use Rattle.fed_accounts.specs.Offers.{AreWhole};
    ghost use Rattle.fed_consent.specs.Consent.{AreRising, Choices};

    ghost Value = { Choices };

    ghost view = { λ c. record { call = c.call; offers = c.offers } };

    ghost invariant = { λ c. record { rising : AreRising c.offers; whole : AreWhole c.offers } };
}

impl Chooser {
    /// A choice among what these providers offer: at least two accounts in all, and each provider once, in the order of their places.
    /// It takes no memory.
    pub fn new(call: u32, offers: Offers) -> Chooser
        requires rising { AreRising offers }
        requires each { AreWhole offers }
        requires several { 2 ≤ length (picks (record { call = call; offers = offers })) }
        ensures { result ≡ record { call = call; offers = offers } }
    {
        Chooser { call, offers }
    }

    /// The account with this id of the provider at this place in the call's list. `Err` comes exactly where that provider offers none,
    /// with the same chooser. It takes no memory.
    pub fn choose(self, provider: u32, id: &Text) -> Result<Picked, Chooser>
        ensures { result ≡ ok_or (chosen provider id.now self) self }
    {
        match places_in(self.offers(), provider, id) {
            Some(places) => Ok(self.pick(places)),
            None => Err(self),
        }
    }

    // The account at these places.
    fn pick(self, places: (usize, usize)) -> Picked
        requires { HasAccount places.1 (slice_get self.offers places.0) }
        ensures { offered_at self.call self.offers places ≡ Some result }
    {
        let Chooser { call, offers } = self;
        let offer = offers.take(places.0);
        let connected = offer.connects(places.1);
        Picked::new(call, offer.provider, offer.take(places.1), connected)
    }

    /// What the providers offer, in their order. It takes no memory.
    pub fn offers(&self) -> &[Offer]
        ensures value { result.now ≡ self.now.offers }
        ensures rising { AreRising result.now }
        ensures each { AreWhole result.now }
    {
        self.offers.as_slice()
    }
}

// The places of the provider's offer and of the account with this id in it.
fn places_in(offers: &[Offer], provider: u32, id: &Text) -> Option<(usize, usize)>
    ensures { result ≡ places_of provider id.now offers.now }
{
    let offer = offer_of(offers, provider)?;
    let account = place_of(&offers[offer], id)?;
    Some((offer, account))
}

// The place of the provider's offer.
fn offer_of(offers: &[Offer], provider: u32) -> Option<usize>
    ensures value { result ≡ position (is_of provider) offers.now }
    ensures inside { IfSome result (λ place. place < length offers.now) }
{
    offers.iter().position(|offer| provider == offer.provider)
}

// The place of the account with this id in an offer.
fn place_of(offer: &Offer, id: &Text) -> Option<usize>
    ensures { result ≡ place_in id.now offer.now.accounts }
{
    offer
        .accounts
        .list()
        .iter()
        .position(|account| account.id == *id)
}
