//! Cookies that a jar holds.
ghost use Rattle.std.specs.Prelude.{◌≡◌, IfOk};

use fed_cookie::SameSite;
use fed_io::{Bytes, NoRoom};
use std::alloc::Global;
use std::marker::Model;

/// A cookie that a jar holds (RFC 6265, 5.3). That name and value hold no CR and no LF is a fact
/// of the type.
#[derive(Drop)]
pub struct Cookie {
    pub name: Bytes,
    pub value: Bytes,
    pub domain: Bytes,
    /// Whether it goes to that host alone, and not to the hosts below it.
    pub host_only: bool,
    pub path: Bytes,
    /// From when on it is not sent, in seconds since 1970.
    pub expiry: Option<u64>,
    pub secure: bool,
    pub same_site: SameSite,
}

impl Model for Cookie {
    ghost use Rattle.fed_cookie.specs.SetCookie.{HasNoLineEnd};
    ghost use Rattle.fed_jar.specs.Cookie.{StoredCookie};

    ghost Value = { StoredCookie };

    ghost view = { λ c. record {
      name = c.name;
      value = c.value;
      domain = c.domain;
      host_only = c.host_only;
      path = c.path;
      expiry = c.expiry;
      secure =
          c.secure;
      same_site = c.same_site;
    } };

    ghost invariant = { λ c. HasNoLineEnd c.name × HasNoLineEnd c.value };
}

impl Cookie {
    /// The same cookie.
    pub fn copy(&self, alloc: Global) -> Result<Cookie, NoRoom>
        ensures { IfOk result (λ cookie. cookie ≡ self.now) }
    {
        Ok(Cookie {
            name: self.name.copy(alloc)?,
            value: self.value.copy(alloc)?,
            domain: self.domain.copy(alloc)?,
            host_only: self.host_only,
            path: self.path.copy(alloc)?,
            expiry: self.expiry,
            secure: self.secure,
            same_site: self.same_site,
        })
    }
}
