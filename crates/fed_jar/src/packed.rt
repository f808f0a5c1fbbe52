//! A cookie as a jar keeps it.
ghost use Rattle.std.specs.Prelude.{◌≡◌, ◌+◌, ◌++◌, ◌∷◌, IfOk, length};
ghost use Rattle.fed_cookie.specs.SetCookie.{HasNoLineEnd};
ghost use Rattle.fed_jar.specs.Send.{pair_text};

use crate::Cookie;
use fed_cookie::SameSite;
use fed_io::{Bytes, NoRoom};
use std::alloc::Global;
use std::marker::Model;

/// A cookie of which the texts are lent. That name and value hold no CR and no LF is a fact of the
/// type.
#[derive(Drop)]
pub struct LentCookie<'a> {
    pub name: &'a [u8],
    pub value: &'a [u8],
    pub domain: &'a [u8],
    pub host_only: bool,
    pub path: &'a [u8],
    pub expiry: Option<u64>,
    pub secure: bool,
    pub same_site: SameSite,
}

impl<'a> Model for LentCookie<'a> {
    ghost use Rattle.fed_cookie.specs.SetCookie.{HasNoLineEnd};
    ghost use Rattle.fed_jar.specs.Cookie.{StoredCookie};

    ghost Value = { StoredCookie };

    ghost view = { λ c. record {
      name = c.name.now;
      value = c.value.now;
      domain = c.domain.now;
      host_only = c.host_only;
      path = c.path.now;
      expiry = c.expiry;
      secure =
          c.secure;
      same_site = c.same_site;
    } };

    ghost invariant = { λ c. HasNoLineEnd c.name.now × HasNoLineEnd c.value.now };
}

/// A cookie whose texts stand one after another in one piece of memory. Contracts see it as they
/// see a `Cookie`.
#[derive(Drop)]
pub struct PackedCookie {
    // Path, domain, and name and value with a `=` between them, as they are sent.
    texts: Bytes,
    // 0 where there is none.
    expiry: u64,
    path_end: u32,
    domain_end: u32,
    name_end: u32,
    has_expiry: bool,
    host_only: bool,
    secure: bool,
    same_site: SameSite,
}

impl Model for PackedCookie {
    ghost use Rattle.std.specs.Prelude.{◌+◌, take, drop};
    ghost use Rattle.fed_cookie.specs.SetCookie.{HasNoLineEnd};
    ghost use Rattle.fed_jar.specs.Cookie.{StoredCookie};
    ghost use Rattle.fed_jar.specs.Packed.{AreEnds, expiry_in, text_between};

    ghost Value = { StoredCookie };

    ghost view = { λ c. record {
      name = text_between c.domain_end c.name_end c.texts;
      value = drop (c.name_end + 1) c.texts;
      domain = text_between c.path_end c.domain_end c.texts;
      host_only = c.host_only;
      path = take c.path_end c.texts;
      expiry = expiry_in c.has_expiry c.expiry;
      secure =
          c.secure;
      same_site = c.same_site;
    } };

    ghost invariant = { λ c. AreEnds c.path_end c.domain_end c.name_end c.texts
        × HasNoLineEnd (text_between c.domain_end c.name_end c.texts) × HasNoLineEnd (drop (c.name_end + 1) c.texts) };
}

impl PackedCookie {
    /// The cookie in one piece of memory. It is want of memory too where the texts have 2^32 bytes
    /// together.
    pub fn of(alloc: Global, cookie: &LentCookie<'_>) -> Result<PackedCookie, NoRoom>
        ensures { IfOk result (λ packed. packed ≡ cookie.now) }
    {
        let path_end = end_after(0, cookie.path)?;
        let domain_end = end_after(path_end, cookie.domain)?;
        let name_end = end_after(domain_end, cookie.name)?;
        let end = end_after(end_after(name_end, b"=")?, cookie.value)?;
        Ok(PackedCookie {
            texts: joined(alloc, cookie, end as usize)?,
            expiry: cookie.expiry.unwrap_or(0),
            path_end,
            domain_end,
            name_end,
            has_expiry: cookie.expiry.is_some(),
            host_only: cookie.host_only,
            secure: cookie.secure,
            same_site: cookie.same_site,
        })
    }

    /// A copy with texts of its own.
    pub fn unpack(&self, alloc: Global) -> Result<Cookie, NoRoom>
        ensures { IfOk result (λ cookie. cookie ≡ self.now) }
    {
        Ok(Cookie {
            name: Bytes::of(alloc, self.name())?,
            value: Bytes::of(alloc, self.value())?,
            domain: Bytes::of(alloc, self.domain())?,
            host_only: self.host_only(),
            path: Bytes::of(alloc, self.path())?,
            expiry: self.expiry(),
            secure: self.secure(),
            same_site: self.same_site(),
        })
    }

    /// The name.
    #[inline(always)]
    pub fn name(&self) -> &[u8]
        ensures value { result.now ≡ self.now.name }
        ensures line { HasNoLineEnd result.now }
    {
        &self.texts.as_slice()[self.domain_end as usize..self.name_end as usize]
    }

    /// The value.
    #[inline(always)]
    pub fn value(&self) -> &[u8]
        ensures value { result.now ≡ self.now.value }
        ensures line { HasNoLineEnd result.now }
    {
        &self.texts.as_slice()[self.name_end as usize + 1..]
    }

    /// `name=value`.
    #[inline(always)]
    pub fn pair(&self) -> &[u8]
        ensures value { result.now ≡ pair_text self.now }
        ensures line { HasNoLineEnd result.now }
    {
        &self.texts.as_slice()[self.domain_end as usize..]
    }

    /// The domain.
    #[inline(always)]
    pub fn domain(&self) -> &[u8]
        ensures { result.now ≡ self.now.domain }
    {
        &self.texts.as_slice()[self.path_end as usize..self.domain_end as usize]
    }

    /// The path.
    #[inline(always)]
    pub fn path(&self) -> &[u8]
        ensures { result.now ≡ self.now.path }
    {
        &self.texts.as_slice()[..self.path_end as usize]
    }

    /// From when on it is not sent, in seconds since 1970.
    #[inline(always)]
    pub fn expiry(&self) -> Option<u64>
        ensures { result ≡ self.now.expiry }
    {
        if self.has_expiry {
            return Some(self.expiry);
        }
        None
    }

    /// Whether it goes to the host that is its domain alone.
    #[inline(always)]
    pub fn host_only(&self) -> bool
        ensures { result ≡ self.now.host_only }
    {
        self.host_only
    }

    /// Whether it is Secure.
    #[inline(always)]
    pub fn secure(&self) -> bool
        ensures { result ≡ self.now.secure }
    {
        self.secure
    }

    /// Its SameSite attribute.
    #[inline(always)]
    pub fn same_site(&self) -> SameSite
        ensures { result ≡ self.now.same_site }
    {
        self.same_site
    }
}

// Where the text ends that begins there.
fn end_after(start: u32, text: &[u8]) -> Result<u32, NoRoom>
    ensures { IfOk result (λ end. end ≡ start + length text.now) }
{
    let count = u32::try_from(text.len()).map_err(|_| NoRoom)?;
    start.checked_add(count).ok_or(NoRoom)
}

// Path, domain, name, `=` and value one after another, which have so many bytes.
fn joined(alloc: Global, cookie: &LentCookie<'_>, count: usize) -> Result<Bytes, NoRoom>
    ensures { IfOk result (λ texts. texts ≡ cookie.now.path ++ cookie.now.domain ++ cookie.now.name ++ 61 ∷ cookie.now.value) }
{
    let mut texts = Vec::with_capacity(alloc, count)?;
    texts.extend_from_slice(cookie.path)?;
    texts.extend_from_slice(cookie.domain)?;
    texts.extend_from_slice(cookie.name)?;
    texts.push(b'=')?;
    texts.extend_from_slice(cookie.value)?;
    Ok(Bytes::from_vec(texts))
}
