//! Lists of accounts.
ghost use Rattle.std.specs.Prelude.{◌≡◌, ◌<◌, Some, length, slice_get};
ghost use Rattle.fed_accounts.specs.Accounts.{AreAccounts};

use crate::Account;
use fed_io::Items;
use std::marker::Model;

/// The accounts of a user at a provider, in the provider's order. There is at least one, and their
/// ids differ. Contracts see them as the list of the accounts.
pub struct Accounts {
    list: Items<Account>,
}

// Written out, so that one function lets it go wherever it ends.
impl Drop for Accounts {
    fn drop(self) {
        let Accounts { list: _ } = self;
    }
}

impl Model for Accounts {
    ghost use Rattle.std.specs.Prelude.{List};
    ghost use Rattle.fed_accounts.specs.declared.account.Account.{Account};
    ghost use Rattle.fed_accounts.specs.Accounts.{AreAccounts};

    ghost Value = { List Account };

    ghost view = { λ a. a.list };

    ghost invariant = { λ a. AreAccounts a.list };
}

impl Accounts {
    // The accounts of a list of some, whose ids differ.
    pub(crate) fn new(list: Items<Account>) -> Accounts
        requires { AreAccounts list }
        ensures { result ≡ list }
    {
        Accounts { list }
    }

    /// The accounts, in the provider's order. There is at least one, and their ids differ.
    pub fn list(&self) -> &[Account]
        ensures value { result.now ≡ self.now }
        ensures accounts { AreAccounts self.now }
    {
        self.list.as_slice()
    }

    /// The account at this place from 0; the others are given up. It takes no memory.
    pub fn take(self, place: usize) -> Account
        requires { place < length self }
        ensures { slice_get self place ≡ Some result }
    {
        self.into_items().into_vec().swap_remove(place)
    }

    // The list of the accounts.
    pub(crate) fn into_items(self) -> Items<Account>
        ensures value { result ≡ self }
        ensures accounts { AreAccounts result }
    {
        let Accounts { list } = self;
        list
    }
}
