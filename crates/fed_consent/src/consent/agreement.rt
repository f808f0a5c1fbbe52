//! What the user agreed to.
ghost use Rattle.std.specs.Prelude.{◌≡◌, IfOk, IfErr};
ghost use Rattle.fed_consent.specs.Consent.{assertion_fields};

use super::{AssertionAsk, Manner};
use crate::Ask;
use fed_accounts::Account;
use fed_io::NoRoom;
use fed_origin::{Origin, ProviderOptions, WebUrl};
use std::alloc::Global;
use std::marker::Model;

/// Leave to name the page to the provider, once, for one account. Only `Picked::proceed`, `Prompt::proceed` and
/// `Reselection::proceed` make one. It must be spent or voided: it is not `Drop`, so that forgetting it does not compile, and
/// neither does using it twice.
/// Contracts see it as the call, the place of the provider in its list, the account's id, how the account was settled on, and
/// whether the user was shown what the provider tells the page.
pub struct Consent {
    pub(super) call: u32,
    pub(super) provider: u32,
    pub(super) account: Account,
    pub(super) manner: Manner,
    pub(super) disclosure: bool,
}

impl Model for Consent {
    ghost use Rattle.fed_consent.specs.Consent.{Agreement};

    ghost Value = { Agreement };

    ghost view = { λ c. record { call = c.call; provider = c.provider; account = c.account.id; manner = c.manner; disclosure = c.disclosure } };
}

impl Consent {
    /// Spends the consent on a request for a token to the assertion endpoint `to`, which names the origin of the page and what
    /// the call said of the provider. On want of memory the consent is handed back.
    pub fn spend(
        self,
        alloc: Global,
        to: &WebUrl,
        origin: &Origin,
        options: &ProviderOptions,
    ) -> Result<Ask, (NoRoom, Consent)>
        ensures ok { IfOk result (λ ask. ask ≡ Ask.Assertion (assertion_fields self to.now origin.now options.now)) }
        ensures err { IfErr result (λ back. back.1 ≡ self) }
    {
        match AssertionAsk::new(alloc, &self, to, origin, options) {
            Ok(ask) => {
                self.void();
                Ok(Ask::Assertion(ask))
            }
            Err(NoRoom) => Err((NoRoom, self)),
        }
    }

    /// Gives the consent up. It takes no memory.
    pub fn void(self) {
        let Consent {
            call: _,
            provider: _,
            account: _,
            manner: _,
            disclosure: _,
        } = self;
    }
}
