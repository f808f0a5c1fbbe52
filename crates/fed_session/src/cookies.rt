//! The public suffix rules and the jar of a session.
ghost use Rattle.std.specs.Prelude.{◌≡◌, ◌<◌, ◌-◌, ◌^◌, [], IfOk, OnOk};
ghost use Rattle.fed_cookie.specs.SetCookie.{HasNoLineEnd};
ghost use Rattle.fed_jar.specs.Send.{jar_text};
ghost use Rattle.fed_jar.specs.Store.{cookie_of};
ghost use Rattle.fed_origin.specs.WebUrl.{scheme_of};
ghost use Rattle.fed_provider.specs.WellKnown.{WellKnownUrlOf};
ghost use Rattle.fed_session.specs.Cookies.{with_stored};

use fed_cookie::RawCookie;
use fed_io::{Bytes, NoRoom};
use fed_jar::{Cookie, Jar};
use fed_origin::{ReplyKind, Scheme, WebUrl};
use fed_provider::{ProviderStep, Rules};
use fed_suffix::Suffixes;
use std::alloc::Global;
use std::marker::Model;

/// The public suffix rules, and the cookies, each of which is kept under its party by these rules.
pub struct Cookies {
    rules: Rules,
    jar: Jar,
}

impl Model for Cookies {
    ghost use Rattle.std.specs.Coded.{codes};
    ghost use Rattle.std.specs.FinSet as set;
    ghost use Rattle.fed_suffix.specs.Rule.{rule_cmp, rule_code};
    ghost use Rattle.fed_session.specs.Cookies.{CookieParts};

    ghost Value = { CookieParts };

    ghost coded = { Prim.hlevel (codes, set.code {R = rule_cmp} rule_code) };

    ghost use Rattle.fed_jar.specs.Cookie.{cookies_in};
    ghost use Rattle.fed_jar.specs.Store.{IsKeptBy};

    ghost view = { λ c. record { rules = c.rules; list = cookies_in c.jar; entered = c.jar.entered } };

    ghost invariant = { λ c. IsKeptBy c.rules c.jar };
}

// Written out, so that one function lets them go wherever they end.
impl Drop for Cookies {
    fn drop(self) {
        let Cookies { rules: _, jar: _ } = self;
    }
}

impl Cookies {
    /// The rules. It takes no memory.
    pub(crate) fn suffixes(&self) -> &Suffixes
        ensures { result.now ≡ self.now.rules }
    {
        self.rules.suffixes()
    }

    /// No cookies. It takes no memory.
    pub(crate) fn new(alloc: Global, rules: Suffixes) -> Cookies
        ensures { result ≡ record { rules = rules; list = []; entered = 0 } }
    {
        Cookies {
            rules: Rules::new(alloc, rules),
            jar: Jar::new(alloc),
        }
    }

    /// The public suffix rules, with what was made by them.
    pub(crate) fn rules(&self) -> &Rules
        ensures { result.now ≡ self.now.rules }
    {
        &self.rules
    }

    /// Keeps what a reply with a file of the configuration URL says, where it has one. Contracts do not see that.
    pub(crate) fn learn(
        &mut self,
        alloc: Global,
        config: &WebUrl,
        kind: ReplyKind,
        raw: &[u8],
    ) -> Result<(), NoRoom>
        ensures { self.new ≡ self.old }
    {
        self.rules.learn(alloc, config, kind, raw)
    }

    /// The well-known URL of a configuration URL that is https, or the step where it has no site.
    pub(crate) fn wellknown(
        &mut self,
        alloc: Global,
        config: &WebUrl,
    ) -> Result<Result<WebUrl, ProviderStep>, NoRoom>
        requires { scheme_of config.now ≡ Scheme.Https }
        ensures answer { IfOk result (λ url. url ≡ WellKnownUrlOf self.old.rules config.now) }
        ensures same { self.new ≡ self.old }
    {
        self.rules.wellknown(alloc, config)
    }

    /// The Cookie field of a request to the URL at the time.
    pub(crate) fn text(&self, alloc: Global, to: &WebUrl, now: u64) -> Result<Bytes, NoRoom>
        ensures value { IfOk result (λ text. text ≡ jar_text self.now.rules to.now now self.now.list) }
        ensures line { IfOk result (λ text. HasNoLineEnd text) }
    {
        self.jar.cookie_text(alloc, self.rules.suffixes(), to, now)
    }

    /// Stores the cookie of a Set-Cookie field of a page of the URL, unless it is ignored.
    pub(crate) fn store(&mut self, url: &WebUrl, now: u64, raw: RawCookie) -> Result<(), NoRoom>
        requires { self.old.entered < 2 ^ 64 - 1 }
        ensures { OnOk result (self.new ≡ with_stored now self.old (cookie_of self.old.rules url.now now raw)) }
    {
        self.jar.store(self.rules.suffixes(), url, now, raw)?;
        Ok(())
    }

    /// The cookies, in order of first storing.
    pub(crate) fn list(&self, alloc: Global) -> Result<Vec<Cookie>, NoRoom>
        ensures { IfOk result (λ list. list.items ≡ self.now.list) }
    {
        self.jar.list(alloc)
    }
}
