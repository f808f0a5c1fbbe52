//! An account that is signed in again without the user.
ghost use Rattle.std.specs.Prelude.{◌≡◌, Some};
ghost use Rattle.fed_accounts.specs.Connection.{Reselect};
ghost use Rattle.fed_accounts.specs.Offers.{AreWhole};
ghost use Rattle.fed_consent.specs.Consent.{reselection_on, by_reselection};

use super::{Consent, Manner};
use fed_accounts::{Account, Offers};
use fed_origin::Mediation;
use std::marker::Model;

/// The account that the rules of reselection name (FedCM, "auto re-authentication"; the rules are this profile's own). Contracts
/// see it with the call and the place of the provider in its list; it is connected.
pub struct Reselection {
    call: u32,
    provider: u32,
    account: Account,
}

// Written out, so that one function lets it go wherever it ends.
impl Drop for Reselection {
    fn drop(self) {
        let Reselection {
            call: _,
            provider: _,
            account: _,
        } = self;
    }
}

impl Model for Reselection {
    ghost use Rattle.std.specs.Prelude.{true};
    ghost use Rattle.fed_consent.specs.Consent.{Pick};

    ghost Value = { Pick };

    ghost view = { λ r. record { call = r.call; provider = r.provider; candidate = record { account = r.account; connected = true } } };
}

impl Reselection {
    /// The account at `place`, which the rules name: `reselect_all` answers these places of its offer and in it for these offers, the
    /// flag of the page's origin and the mediation of the call. It takes no memory.
    pub fn new(
        call: u32,
        offers: Offers,
        flag: bool,
        mediation: Mediation,
        place: (usize, usize),
    ) -> Reselection
        requires each { AreWhole offers }
        requires named { Reselect offers flag mediation ≡ Some place }
        ensures { reselection_on (record { call = call; offers = offers; flag = flag; mediation = mediation }) ≡ Some result }
    {
        let offer = offers.take(place.0);
        Reselection {
            call,
            provider: offer.provider,
            account: offer.take(place.1),
        }
    }

    /// The account as a consent, of which the user was shown nothing. It takes no memory.
    pub fn proceed(self) -> Consent
        ensures { result ≡ by_reselection self }
    {
        let Reselection {
            call,
            provider,
            account,
        } = self;
        Consent {
            call,
            provider,
            account,
            manner: Manner::Reselected,
            disclosure: false,
        }
    }

    /// The place of its provider in the call's list. It takes no memory.
    pub fn provider(&self) -> u32
        ensures { result ≡ self.now.provider }
    {
        self.provider
    }

    /// The account. It takes no memory.
    pub fn account(&self) -> &Account
        ensures { result.now ≡ self.now.candidate.account }
    {
        &self.account
    }
}
