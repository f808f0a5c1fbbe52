//! What all calls look at, and what their rows set.
ghost use Rattle.std.specs.Prelude.{◌≡◌, ◌<◌, ◌-◌, ◌^◌, [], ◌∷◌, IfOk, OnOk};
ghost use Rattle.fed_cookie.specs.SetCookie.{HasNoLineEnd};
ghost use Rattle.fed_request.specs.Request.{TakesCookies};
ghost use Rattle.fed_status.specs.Shared.{world_of};
ghost use Rattle.fed_trace.specs.Row.{cookies_from};
ghost use Rattle.fed_session.specs.Cookies.{with_all_stored};
ghost use Rattle.fed_session.specs.StepParts.{cookies_of, world_in, CanApply, sight_by};

use crate::cookies::Cookies;
use fed_consent::{Ask, Effect};
use fed_cookie::read_set_cookie;
use fed_io::{Bytes, NoRoom};
use fed_origin::WebUrl;
use fed_script::Header;
use fed_status::{KeptSet, LoginMap, Shared, SilentFlags};
use std::alloc::Global;

/// What all calls look at, and what their rows set.
pub struct Sight {
    /// The time, in seconds since 1970.
    pub time: u64,
    /// The public suffix rules and the cookies.
    pub cookies: Cookies,
    /// The login statuses of providers that were set.
    pub login: LoginMap,
    /// The kept permissions.
    pub kept: KeptSet,
    /// The origins whose prevent-silent flag is set.
    pub flags: SilentFlags,
}

// Written out, so that one function lets it go wherever it ends.
impl Drop for Sight {
    fn drop(self) {
        let Sight {
            time: _,
            cookies: _,
            login: _,
            kept: _,
            flags: _,
        } = self;
    }
}

impl Sight {
    /// Nothing is set or kept.
    pub(crate) fn new(alloc: Global, header: Header) -> Sight
        ensures { result ≡ record {
          time = header.now;
          cookies = record { rules = header.rules; list = []; entered = 0 };
          login = [];
          kept = [];
          flags = [];
        } }
    {
        Sight {
            time: header.now,
            cookies: Cookies::new(alloc, header.rules),
            login: LoginMap::new(alloc),
            kept: KeptSet::new(alloc),
            flags: SilentFlags::new(alloc),
        }
    }

    /// What is lent to a call.
    pub(crate) fn lent(&self) -> Shared<'_>
        ensures { world_of result ≡ world_in self.now }
    {
        Shared {
            rules: self.cookies.rules(),
            login: &self.login,
            kept: &self.kept,
            flags: &self.flags,
        }
    }

    /// The Cookie field of a request, empty where it carries none.
    pub(crate) fn cookies(&self, alloc: Global, ask: &Ask) -> Result<Bytes, NoRoom>
        ensures value { IfOk result (λ text. text ≡ cookies_of self.now ask.now) }
        ensures line { IfOk result (λ text. HasNoLineEnd text) }
        ensures taken { IfOk result (λ text. TakesCookies ask.now text) }
    {
        match ask {
            Ask::Accounts { to } | Ask::Disconnect { to, .. } => {
                self.cookies.text(alloc, to, self.time)
            }
            Ask::Assertion(ask) => { self.cookies.text(alloc, ask.to(), self.time) }
            Ask::WellKnown { .. } | Ask::Config { .. } | Ask::Metadata { .. } => {
                Bytes::of(alloc, b"")
            }
        }
    }

    /// Stores the cookie of one Set-Cookie value of a reply from the URL, unless it is ignored (RFC 6265, 5.3).
    pub(crate) fn store(&mut self, alloc: Global, url: &WebUrl, field: &[u8]) -> Result<(), NoRoom>
        requires { self.old.cookies.entered < 2 ^ 64 - 1 }
        ensures { OnOk result (self.new ≡ record self.old {
          cookies =
              with_all_stored self.old.time self.old.cookies (cookies_from self.old.cookies.rules url.now self.old.time (field.now ∷ []));
        }) }
    {
        if let Some(raw) = read_set_cookie(alloc, field)? {
            self.cookies.store(url, self.time, raw)?;
        }
        Ok(())
    }

    /// Sets the login status, the permission or the flag that an effect of a call sets, if it sets one.
    pub(crate) fn set(&mut self, alloc: Global, effect: &Effect) -> Result<(), NoRoom>
        requires { CanApply effect.now }
        ensures { OnOk result (self.new ≡ sight_by effect.now self.old) }
    {
        match effect {
            Effect::SetLogin(origin, status) => self.login.set(origin, *status)?,
            Effect::Keep(triple) => self.kept.add(triple.get().copy(alloc)?)?,
            Effect::Forget(triple) => {
                let triple = triple.get();
                self.kept
                    .remove(&triple.page, &triple.provider, &triple.account)
            }
            Effect::ForgetPair(page, provider) => {
                self.kept.remove_pair(page.get(), provider.get())
            }
            Effect::ClearFlag(origin) => self.flags.clear(origin),
            Effect::Send(_, _)
            | Effect::Dropped(_, _)
            | Effect::Dialog(_)
            | Effect::Window(_, _)
            | Effect::Finish(_)
            | Effect::Ignored(_) => {}
        }
        Ok(())
    }
}
