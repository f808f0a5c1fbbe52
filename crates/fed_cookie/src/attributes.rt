//! The attributes of a Set-Cookie field (RFC 6265, 5.2.1 to 5.2.6).
ghost use Rattle.std.specs.Prelude.{◌≡◌, ◌-◌, ◌^◌, ◌≤◌, ◌∷◌, [], min, pos, neg_ℤ, map, Option, option_map, option_copied};
ghost use Rattle.std.specs.Char.{to_ascii_lowercase, is_ascii_digit};
ghost use Rattle.std.specs.List.{slice_split, list_all};
ghost use Rattle.fed_cookie.specs.Fields as spec;
ghost use Rattle.std.specs.Prelude.{◌==◌};

use crate::SameSite;
use crate::bytes::{cut, number};
use crate::date::cookie_date;
use fed_io::trim;
use std::marker::Model;

#[derive(Clone, Copy)]
enum AttributeKind {
    Expires,
    MaxAge,
    Domain,
    Path,
    Secure,
    SameSite,
    Other,
}

// What the attributes read so far say, in parts of the field.
#[derive(Drop)]
pub struct Attributes<'a> {
    pub expires: Option<u64>,
    pub max_age: Option<i64>,
    pub domain: Option<&'a [u8]>,
    pub path: Option<&'a [u8]>,
    pub secure: bool,
    pub same_site: SameSite,
}

impl<'a> Model for Attributes<'a> {
    ghost use Rattle.std.specs.Prelude.{option_copied};
    ghost use Rattle.fed_cookie.specs.Fields as spec;

    ghost Value = { spec.Attributes };

    ghost view = { λ a. record {
      expires = a.expires;
      max_age = a.max_age;
      domain = option_copied a.domain;
      path = option_copied a.path;
      secure =
          a.secure;
      same_site = a.same_site;
    } };
}

impl<'a> Attributes<'a> {
    pub fn none() -> Attributes<'a>
        ensures { result ≡ spec.no_attributes }
    {
        Attributes {
            expires: None,
            max_age: None,
            domain: None,
            path: None,
            secure: false,
            same_site: SameSite::Lax,
        }
    }

    // The attributes of the parts between semicolons.
    pub fn of(parts: &'a [u8]) -> Attributes<'a>
        ensures { result ≡ spec.attributes_of spec.no_attributes (slice_split (λ b. b == 59) parts.now) }
    {
        let mut found = Attributes::none();
        let mut rest = parts;
        while let Some((part, after)) = cut(b';', rest) {
            found.add(part);
            rest = after;
        }
        found.add(rest);
        found
    }

    // One more attribute, which counts over an earlier one of its kind. What was said before stays
    // in its place, so that no attribute costs a copy of all of it.
    #[tactic(auto, unfolding(crate::specs::Fields::attributes_of))]
    fn add(&mut self, part: &'a [u8])
        ensures { self.new ≡ spec.attributes_of self.old (part.now ∷ []) }
    {
        let (name, value) = attribute(part);
        match kind_of(name) {
            AttributeKind::Expires => self.expires = cookie_date(value).or(self.expires),
            AttributeKind::MaxAge => self.max_age = max_age_of(value).or(self.max_age),
            AttributeKind::Domain => self.domain = domain_of(value).or(self.domain),
            AttributeKind::Path => self.path = path_of(value),
            AttributeKind::Secure => self.secure = true,
            AttributeKind::SameSite => self.same_site = same_site_of(value),
            AttributeKind::Other => {}
        }
    }
}

// Name and value round the first `=`, without blanks at their ends.
pub fn named_value(part: &[u8]) -> Option<(&[u8], &[u8])>
    ensures { option_map (λ r. (r.0.now, r.1.now)) result ≡ spec.named_value part.now }
{
    match cut(b'=', part) {
        Some((name, value)) => Some((trim(name), trim(value))),
        None => None,
    }
}

// The same of an attribute, whose value may be missing.
fn attribute(part: &[u8]) -> (&[u8], &[u8])
    ensures name { result.0.now ≡ (spec.attribute part.now).0 }
    ensures value { result.1.now ≡ spec.attribute_value part.now }
{
    match named_value(part) {
        Some(found) => found,
        None => (trim(part), b""),
    }
}

fn kind_of(name: &[u8]) -> AttributeKind
    ensures { result ≡ spec.kind_of (map to_ascii_lowercase name.now) }
{
    if name.eq_ignore_ascii_case(b"expires") {
        AttributeKind::Expires
    } else if name.eq_ignore_ascii_case(b"max-age") {
        AttributeKind::MaxAge
    } else if name.eq_ignore_ascii_case(b"domain") {
        AttributeKind::Domain
    } else if name.eq_ignore_ascii_case(b"path") {
        AttributeKind::Path
    } else if name.eq_ignore_ascii_case(b"secure") {
        AttributeKind::Secure
    } else if name.eq_ignore_ascii_case(b"samesite") {
        AttributeKind::SameSite
    } else {
        AttributeKind::Other
    }
}

fn max_age_of(value: &[u8]) -> Option<i64>
    ensures { result ≡ spec.max_age_of value.now }
{
    match value {
        [b'-', digits @ ..] => negative_seconds_of(digits),
        _ => seconds_of(value),
    }
}

fn seconds_of(digits: &[u8]) -> Option<i64>
    ensures { result ≡ spec.seconds_of digits.now }
{
    if !is_digits(digits) {
        return None;
    }
    Some(number(digits).min(i64::MAX as u64) as i64)
}

fn negative_seconds_of(digits: &[u8]) -> Option<i64>
    ensures { result ≡ spec.negative_seconds_of digits.now }
{
    if !is_digits(digits) {
        return None;
    }
    Some(negated(number(digits)))
}

fn negated(seconds: u64) -> i64
    requires { seconds ≤ 2 ^ 63 }
    ensures { result ≡ neg_ℤ (pos seconds) }
{
    if seconds == 1 << 63 {
        return i64::MIN;
    }
    -(seconds as i64)
}

fn is_digits(bytes: &[u8]) -> bool
    ensures { result ≡ spec.is_digits bytes.now }
{
    !bytes.is_empty() && all_digits(bytes)
}

fn all_digits(bytes: &[u8]) -> bool
    ensures { result ≡ list_all is_ascii_digit bytes.now }
{
    bytes.iter().all(|b| b.is_ascii_digit())
}

// The domain without a dot in front.
fn domain_of(value: &[u8]) -> Option<&[u8]>
    ensures { option_copied result ≡ spec.domain_of value.now }
{
    match value {
        [] => None,
        [b'.', rest @ ..] => Some(rest),
        _ => Some(value),
    }
}

fn path_of(value: &[u8]) -> Option<&[u8]>
    ensures { option_copied result ≡ spec.path_of value.now }
{
    match value {
        [b'/', ..] => Some(value),
        _ => None,
    }
}

fn same_site_of(value: &[u8]) -> SameSite
    ensures { result ≡ spec.same_site_of (map to_ascii_lowercase value.now) }
{
    if value.eq_ignore_ascii_case(b"none") {
        SameSite::NoLimit
    } else if value.eq_ignore_ascii_case(b"strict") {
        SameSite::Strict
    } else {
        SameSite::Lax
    }
}
