//! Login statuses and kept permissions.
ghost use Rattle.std.specs.Prelude.{◌≡◌, IfOk};

use crate::Origin;
use fed_io::{NoRoom, Text};
use std::alloc::Global;

/// Whether the user is logged in at a provider, as the browser knows it (Login Status API, "login status").
#[derive(Clone, Copy, Debug, PartialEq, Eq)]
pub enum LoginStatus {
    /// Never said.
    Unknown,
    /// The provider said that the user is logged in.
    LoggedIn,
    /// The provider said that the user is logged out.
    LoggedOut,
}

impl LoginStatus {
    ghost use Rattle.std.specs.Prelude.{◌≡◌, true, IfSome};
    ghost use Rattle.std.specs.Option.{option_copied};
    ghost use Rattle.fed_origin.specs.Status.{is_known};
    ghost use Rattle.fed_origin.specs.Words.{status_text, status_of_word};

    /// The word of the status, as providers, pages and scripts say it. That nothing was said has no word.
    pub fn as_str(self) -> Option<&'static str>
        ensures { option_copied result ≡ status_text self }
    {
        match self {
            LoginStatus::Unknown => None,
            LoginStatus::LoggedIn => Some("logged-in"),
            LoginStatus::LoggedOut => Some("logged-out"),
        }
    }

    /// The status that a word says, if it is the word of one.
    pub fn of_word(word: &str) -> Option<LoginStatus>
        ensures value { result ≡ status_of_word word.now }
        ensures known { IfSome result (λ status. is_known status ≡ true) }
    {
        match word {
            "logged-in" => Some(LoginStatus::LoggedIn),
            "logged-out" => Some(LoginStatus::LoggedOut),
            _ => None,
        }
    }
}

/// A kept permission: the user let this account of the provider sign in at pages of this origin
/// (FedCM, "connected accounts set").
#[derive(PartialEq, Eq, PartialOrd, Ord, Hash)]
pub struct Triple {
    /// The origin of the pages.
    pub page: Origin,
    /// The provider's origin.
    pub provider: Origin,
    /// The account's id at the provider.
    pub account: Text,
}

// Written out, so that one function lets it go wherever it ends.
impl Drop for Triple {
    fn drop(self) {
        let Triple {
            page: _,
            provider: _,
            account: _,
        } = self;
    }
}

impl Triple {
    /// The same permission.
    pub fn copy(&self, alloc: Global) -> Result<Triple, NoRoom>
        ensures { IfOk result (λ copy. copy ≡ self.now) }
    {
        Ok(Triple {
            page: self.page.copy(alloc)?,
            provider: self.provider.copy(alloc)?,
            account: self.account.copy(alloc)?,
        })
    }
}
