//! A jar with its rules, for the tests.
use fed_cookie::read_set_cookie;
use fed_io::Bytes;
use fed_jar::{Cookie, Jar, Numbered};
use fed_origin::WebUrl;
use fed_suffix::Suffixes;
use std::alloc::Global;
use std::marker::Model;
use std::test::Fail;

/// The time at which cookies are stored.
pub const NOW: u64 = 1700000000;

/// A jar of which each cookie is kept under its party by the rules, and how many fields it was given.
pub struct Filled {
    rules: Suffixes,
    jar: Jar,
    given: u64,
}

impl Drop for Filled {
    fn drop(self) {
        let Filled {
            rules: _,
            jar: _,
            given: _,
        } = self;
    }
}

impl Model for Filled {
    ghost use Rattle.std.specs.Prelude.{◌≤◌, ℕ};
    ghost use Rattle.fed_jar.specs.Store.{IsKeptBy};

    ghost Value = { ℕ };

    ghost view = { λ f. f.given };

    ghost invariant = { λ f. IsKeptBy f.rules f.jar × (f.jar.entered ≤ f.given) };
}

impl Filled {
    pub fn new(alloc: Global, rules: Suffixes) -> Filled {
        Filled {
            rules,
            jar: Jar::new(alloc),
            given: 0,
        }
    }

    /// Whether the field of a page is stored.
    pub fn store(&mut self, alloc: Global, url: &str, field: &[u8]) -> Result<bool, Fail> {
        let url = WebUrl::read(alloc, url)?;
        let raw = read_set_cookie(alloc, field)?.ok_or("no cookie")?;
        let given = self.given;
        if given >= u64::MAX - 1 {
            return Ok(false);
        }
        self.given = given + 1;
        Ok(self.jar.store(&self.rules, &url, NOW, raw)?)
    }

    pub fn text(&self, alloc: Global, url: &WebUrl, now: u64) -> Result<Bytes, Fail> {
        Ok(self.jar.cookie_text(alloc, &self.rules, url, now)?)
    }

    pub fn list(&self, alloc: Global) -> Result<Vec<Cookie>, Fail> {
        Ok(self.jar.list(alloc)?)
    }

    pub fn list_of(&self, alloc: Global, party: &[u8]) -> Result<Vec<Cookie>, Fail> {
        Ok(self.jar.list_of(alloc, &self.rules, party)?)
    }

    pub fn of_party(&self, party: &[u8]) -> &[Numbered] {
        self.jar.of_party(party)
    }
}
