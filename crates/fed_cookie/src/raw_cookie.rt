//! What a Set-Cookie field says.
ghost use Rattle.fed_cookie.specs.SetCookie.{HasNoLineEnd};

use crate::SameSite;
use fed_io::Bytes;
use std::marker::Model;

/// A cookie as a Set-Cookie field says it (RFC 6265, 5.2), before a jar looks at it. That name and
/// value hold no CR and no LF is a fact of the type.
#[derive(Drop)]
pub struct RawCookie {
    pub name: Bytes,
    pub value: Bytes,
    /// The Domain attribute in lower case, without a dot in front.
    pub domain: Option<Bytes>,
    /// The Path attribute, where it begins with `/`.
    pub path: Option<Bytes>,
    /// The Expires attribute, in seconds since 1970.
    pub expires: Option<u64>,
    /// The Max-Age attribute, in seconds.
    pub max_age: Option<i64>,
    pub secure: bool,
    pub same_site: SameSite,
}

impl Model for RawCookie {
    ghost use Rattle.fed_cookie.specs.SetCookie.{SetCookie, HasNoLineEnd};

    ghost Value = { SetCookie };

    ghost view = { λ c. record {
      name = c.name;
      value = c.value;
      domain = c.domain;
      path = c.path;
      expires = c.expires;
      max_age = c.max_age;
      secure =
          c.secure;
      same_site = c.same_site;
    } };

    ghost invariant = { λ c. HasNoLineEnd c.name × HasNoLineEnd c.value };
}
