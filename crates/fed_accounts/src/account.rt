//! Accounts.
ghost use Rattle.std.specs.Prelude.{◌≡◌, IfOk};

use fed_io::{Items, NoRoom, Placed, Text, copy_placed, copy_text, copy_texts};
use std::alloc::Global;

/// An account of the user at a provider (FedCM, IdentityProviderAccount).
pub struct Account {
    /// What tells the account from the others of the provider.
    pub id: Text,
    /// The user's full name.
    pub name: Text,
    /// The user's address of electronic mail.
    pub email: Text,
    /// The user's given name.
    pub given_name: Option<Text>,
    /// The address of a picture of the user, as the provider wrote it.
    pub picture: Option<Placed<Text>>,
    /// The clients with which the account is connected, where the provider lists them, in the
    /// provider's order.
    pub approved: Option<Items<Text>>,
    /// The login hints that ask for the account, in the provider's order.
    pub login_hints: Items<Text>,
    /// The domain hints that ask for the account, in the provider's order.
    pub domain_hints: Items<Text>,
}

// Written out, so that one function lets an account go wherever it ends.
impl Drop for Account {
    fn drop(self) {
        let Account {
            id: _,
            name: _,
            email: _,
            given_name: _,
            picture: _,
            approved: _,
            login_hints: _,
            domain_hints: _,
        } = self;
    }
}

impl Account {
    /// The same account.
    pub fn copy(&self, alloc: Global) -> Result<Account, NoRoom>
        ensures { IfOk result (λ copy. copy ≡ self.now) }
    {
        Ok(Account {
            id: self.id.copy(alloc)?,
            name: self.name.copy(alloc)?,
            email: self.email.copy(alloc)?,
            given_name: copy_text(alloc, &self.given_name)?,
            picture: copy_placed(alloc, &self.picture)?,
            approved: copy_list(alloc, &self.approved)?,
            login_hints: copy_texts(alloc, self.login_hints.as_slice())?,
            domain_hints: copy_texts(alloc, self.domain_hints.as_slice())?,
        })
    }
}

// The same list, where there is one.
fn copy_list(alloc: Global, texts: &Option<Items<Text>>) -> Result<Option<Items<Text>>, NoRoom>
    ensures { IfOk result (λ copy. copy ≡ texts.now) }
{
    match texts {
        Some(texts) => Ok(Some(copy_texts(alloc, texts.as_slice())?)),
        None => Ok(None),
    }
}
