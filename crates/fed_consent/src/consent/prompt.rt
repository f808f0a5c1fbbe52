//! An account that is to be confirmed.
ghost use Rattle.std.specs.Prelude.{◌≡◌, ◌∷◌, [], false, length};
ghost use Rattle.fed_consent.specs.Consent.{by_prompt, picks_of};

use super::{Consent, Manner, Picked};
use fed_accounts::{Account, Offer};
use std::marker::Model;

/// An account that the user is asked to go on with (FedCM, "Browser API", the account prompt). Contracts see the account with
/// its call, provider and connection, and whether the prompt waits for metadata.
pub struct Prompt {
    pub(super) picked: Picked,
    pub(super) waits: bool,
}

// Written out, so that one function lets it go wherever it ends.
impl Drop for Prompt {
    fn drop(self) {
        let Prompt {
            picked: _,
            waits: _,
        } = self;
    }
}

impl Model for Prompt {
    ghost use Rattle.fed_consent.specs.Consent.{Question};

    ghost Value = { Question };

    ghost view = { λ p. record { pick = p.picked; waits = p.waits } };
}

impl Prompt {
    /// A prompt for the only account of an offer, which waits for the metadata of the client where `waits` says so. It takes no memory.
    pub fn single(call: u32, offer: Offer, waits: bool) -> Prompt
        requires one { length offer.accounts ≡ 1 }
        requires kept { length offer.kept ≡ 1 }
        ensures waits { result.waits ≡ waits }
        ensures pick { picks_of call offer ≡ result.pick ∷ [] }
    {
        let connected = offer.connects(0);
        Prompt {
            picked: Picked::new(call, offer.provider, offer.take(0), connected),
            waits,
        }
    }

    /// The same prompt, which waits no longer. It takes no memory.
    pub fn ready(self) -> Prompt
        ensures { result ≡ record self { waits = false } }
    {
        let Prompt { picked, waits: _ } = self;
        Prompt {
            picked,
            waits: false,
        }
    }

    /// The prompt as a consent, after the user went on. `Err` comes exactly where it waits for metadata, with the same prompt.
    /// It takes no memory.
    pub fn proceed(self) -> Result<Consent, Prompt>
        ensures { result ≡ by_prompt self }
    {
        if self.waits {
            return Err(self);
        }
        let Prompt { picked, waits: _ } = self;
        let Picked {
            call,
            provider,
            account,
            connected,
        } = picked;
        Ok(Consent {
            call,
            provider,
            account,
            manner: Manner::Prompted,
            disclosure: !connected,
        })
    }

    /// The account. It takes no memory.
    pub fn account(&self) -> &Account
        ensures { result.now ≡ self.now.pick.candidate.account }
    {
        self.picked.account()
    }

    /// Whether the account is connected. It takes no memory.
    pub fn connected(&self) -> bool
        ensures { result ≡ self.now.pick.candidate.connected }
    {
        self.picked.connected()
    }

    /// Whether the prompt waits for metadata. It takes no memory.
    pub fn waits(&self) -> bool
        ensures { result ≡ self.now.waits }
    {
        self.waits
    }
}
