//! What the calls of a test look at.
ghost use Rattle.std.specs.Prelude.{◌≡◌, true};
ghost use Rattle.fed_origin.specs.Status.{is_known};

use crate::values::{CONFIG, PAGE, origin_of};
use fed_io::{NoRoom, Text};
use fed_origin::{LoginStatus, Mediation, Mode, Triple};
use fed_provider::Rules;
use fed_status::{KeptSet, LoginMap, Shared, SilentFlags};
use fed_suffix::Suffixes;
use std::alloc::Global;

pub struct Browser {
    rules: Rules,
    login: LoginMap,
    kept: KeptSet,
    flags: SilentFlags,
    // The mediation and the mode of the get calls, and whether the user acted at the page.
    pub mediation: Mediation,
    pub mode: Mode,
    pub activation: bool,
}

impl Drop for Browser {
    fn drop(self) {
        let Browser {
            rules: _,
            login: _,
            kept: _,
            flags: _,
            mediation: _,
            mode: _,
            activation: _,
        } = self;
    }
}

impl Browser {
    pub fn new(alloc: Global) -> Browser {
        Browser {
            rules: Rules::new(alloc, Suffixes::new(alloc)),
            login: LoginMap::new(alloc),
            kept: KeptSet::new(alloc),
            flags: SilentFlags::new(alloc),
            mediation: Mediation::Optional,
            mode: Mode::Passive,
            activation: true,
        }
    }

    // The same for active calls.
    pub fn active(self) -> Browser {
        let mut browser = self;
        browser.mode = Mode::Active;
        browser
    }

    // The same where the user did nothing at the page.
    pub fn idle(self) -> Browser {
        let mut browser = self;
        browser.activation = false;
        browser
    }

    // The same for calls of this mediation.
    pub fn mediated(self, mediation: Mediation) -> Browser {
        let mut browser = self;
        browser.mediation = mediation;
        browser
    }

    // The same where the flag of the page's origin is set.
    pub fn prevented(self, alloc: Global) -> Result<Browser, NoRoom> {
        let origin = origin_of(alloc, PAGE)?;
        let mut browser = self;
        browser.flags.set(&origin)?;
        Ok(browser)
    }

    // The same where the account `u1` of the provider with this configuration URL may sign in at the page.
    pub fn permitted(self, alloc: Global, config: &str) -> Result<Browser, NoRoom> {
        let mut browser = self;
        browser.kept.add(permission(alloc, PAGE, config)?)?;
        Ok(browser)
    }

    pub fn lent(&self) -> Shared<'_> {
        Shared {
            rules: &self.rules,
            login: &self.login,
            kept: &self.kept,
            flags: &self.flags,
        }
    }
}

// What all calls look at where the origin of this URL has this status.
pub fn with_status(alloc: Global, of: &str, status: LoginStatus) -> Result<Browser, NoRoom>
    requires { is_known status ≡ true }
{
    let origin = origin_of(alloc, of)?;
    let mut browser = Browser::new(alloc);
    browser.login.set(&origin, status)?;
    Ok(browser)
}

// What calls look at where the account `u1` of the provider may sign in at pages of this URL's origin.
pub fn with_permission(alloc: Global, page: &str) -> Result<Browser, NoRoom> {
    let mut browser = Browser::new(alloc);
    browser.kept.add(permission(alloc, page, CONFIG)?)?;
    Ok(browser)
}

// That of the account `u1`.
fn permission(alloc: Global, page: &str, config: &str) -> Result<Triple, NoRoom> {
    Ok(Triple {
        page: origin_of(alloc, page)?,
        provider: origin_of(alloc, config)?,
        account: Text::of(alloc, "u1")?,
    })
}
