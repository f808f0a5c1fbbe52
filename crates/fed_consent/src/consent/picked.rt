//! An account that the user chose.
ghost use Rattle.std.specs.Prelude.{◌≡◌, false};
ghost use Rattle.fed_consent.specs.Consent.{by_choice};

use super::{Consent, Manner, Prompt};
use fed_accounts::Account;
use std::marker::Model;

/// The account that the user chose among several. Contracts see it with the call, the place of the provider in its list, and
/// whether it is connected.
#[derive(Drop)]
pub struct Picked {
    pub(super) call: u32,
    pub(super) provider: u32,
    pub(super) account: Account,
    pub(super) connected: bool,
}

impl Model for Picked {
    ghost use Rattle.fed_consent.specs.Consent.{Pick};

    ghost Value = { Pick };

    ghost view = { λ p. record { call = p.call; provider = p.provider; candidate = record { account = p.account; connected = p.connected } } };
}

impl Picked {
    // The account was chosen.
    pub(super) fn new(call: u32, provider: u32, account: Account, connected: bool) -> Picked
        ensures { result ≡ record { call = call; provider = provider; candidate = record { account = account; connected = connected } } }
    {
        Picked {
            call,
            provider,
            account,
            connected,
        }
    }

    /// The choice as a consent. `Err` comes exactly where the account is not connected, with the same choice. It takes no
    /// memory.
    pub fn proceed(self) -> Result<Consent, Picked>
        ensures { result ≡ by_choice self }
    {
        if !self.connected {
            return Err(self);
        }
        let Picked {
            call,
            provider,
            account,
            connected: _,
        } = self;
        Ok(Consent {
            call,
            provider,
            account,
            manner: Manner::Chosen,
            disclosure: false,
        })
    }

    /// A prompt for the account, which waits for the metadata of the client where `waits` says so. It takes no memory.
    pub fn prompt(self, waits: bool) -> Prompt
        ensures { result ≡ record { pick = self; waits = waits } }
    {
        Prompt {
            picked: self,
            waits,
        }
    }

    /// The account. It takes no memory.
    pub fn account(&self) -> &Account
        ensures { result.now ≡ self.now.candidate.account }
    {
        &self.account
    }

    /// Whether the account is connected. It takes no memory.
    pub fn connected(&self) -> bool
        ensures { result ≡ self.now.candidate.connected }
    {
        self.connected
    }
}
