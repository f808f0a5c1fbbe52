//! Which cookies a request sends, and in which order (RFC 6265, 5.4).
ghost use Rattle.std.specs.Prelude.{◌≡◌, ◌≤◌, ◌+◌, ◌++◌, ◌==◌, IfOk, OnOk, filter, length, not, vec_len, vec_capacity};
ghost use Rattle.std.specs.List.{flat_map};
ghost use Rattle.std.specs.Option.{option_copied};
ghost use Rattle.fed_suffix.specs.Registrable.{registrable};
ghost use Rattle.fed_cookie.specs.SetCookie.{HasNoLineEnd};
ghost use Rattle.fed_origin.specs.WebUrl.{host_of};
ghost use Rattle.fed_jar.specs.Parts.{lent_cookie, lent_cookies, numbered_cookies};
ghost use Rattle.fed_jar.specs.Send as spec;
ghost use Rattle.fed_jar.specs.Store as within;

use crate::PackedCookie;
use crate::numbered::{Lent, Numbered};
use crate::store::is_within;
use fed_cookie::{SameSite, path_matches};
use fed_io::{Bytes, NoRoom};
use fed_origin::{Host, WebUrl};
use fed_suffix::Suffixes;
use std::alloc::Global;
use std::cmp::Reverse;

/// The Cookie field of a request to the URL at the time, of a jar with these cookies of the party.
/// The registrable domain of the URL's host is given.
#[tactic(auto, unfolding(crate::specs::Send::jar_text))]
pub fn cookie_text(
    alloc: Global,
    cookies: &[Numbered],
    rules: &Suffixes,
    url: &WebUrl,
    site: Option<&[u8]>,
    now: u64,
) -> Result<Bytes, NoRoom>
    requires { option_copied site ≡ registrable rules.now (host_of url.now) }
    ensures value { IfOk result (λ text. text ≡ spec.jar_text rules.now url.now now (numbered_cookies cookies.now)) }
    ensures line { IfOk result (λ text. HasNoLineEnd text) }
{
    let sent = cookies_sent(alloc, cookies, rules, url, site, now)?;
    let ordered = longest_first(alloc, sent.as_slice())?;
    pairs_text(alloc, ordered.as_slice())
}

fn cookies_sent<'a>(
    alloc: Global,
    cookies: &'a [Numbered],
    rules: &Suffixes,
    url: &WebUrl,
    site: Option<&[u8]>,
    now: u64,
) -> Result<Vec<Lent<'a>>, NoRoom>
    requires { option_copied site ≡ registrable rules.now (host_of url.now) }
    ensures { IfOk result (λ sent. lent_cookies sent.items ≡ filter (spec.is_sent rules.now url.now now) (numbered_cookies cookies.now)) }
{
    let mut last = None;
    // Room for all at once, so that no push asks whether there is some.
    let mut sent = Vec::with_capacity(alloc, cookies.len())?;
    for one in cookies {
        if is_sent(rules, url, site, now, &mut last, &one.cookie) {
            sent.push_reserved(Lent { one });
        }
    }
    Ok(sent)
}

// Longer paths first, then in their order. Those with the longest path are taken out before the
// others are sorted: where there are two lengths, the sort finds the others in order.
fn longest_first<'a>(alloc: Global, sent: &[Lent<'a>]) -> Result<Vec<Lent<'a>>, NoRoom>
    ensures { IfOk result (λ ordered. lent_cookies ordered.items ≡ spec.largest_first spec.path_length (lent_cookies sent.now)) }
{
    let mut first = Vec::with_capacity(alloc, sent.len())?;
    let mut others = Vec::with_capacity(alloc, sent.len())?;
    divide(sent, longest_path(sent), &mut first, &mut others);
    put_longest_first(&mut others)?;
    first.append(&mut others)?;
    Ok(first)
}

// The length of the longest path.
fn longest_path(sent: &[Lent<'_>]) -> usize
    ensures { result ≡ spec.longest_path (lent_cookies sent.now) }
{
    let mut longest = 0;
    for lent in sent {
        longest = path_length(lent).max(longest);
    }
    longest
}

// The cookies with a path of this length, and the others, in their order. There is room for all in
// both.
fn divide<'a>(
    sent: &[Lent<'a>],
    longest: usize,
    first: &mut Vec<Lent<'a>>,
    others: &mut Vec<Lent<'a>>,
)
    requires first { vec_len first.old + length sent.now ≤ vec_capacity first.old }
    requires others { vec_len others.old + length sent.now ≤ vec_capacity others.old }
    ensures first { lent_cookies first.new.items
        ≡ lent_cookies first.old.items ++ filter (λ c. spec.path_length c == longest) (lent_cookies sent.now) }
    ensures others { lent_cookies others.new.items
        ≡ lent_cookies others.old.items ++ filter (λ c. not (spec.path_length c == longest)) (lent_cookies sent.now) }
{
    for lent in sent {
        if path_length(lent) == longest {
            first.push_reserved(*lent);
        } else {
            others.push_reserved(*lent);
        }
    }
}

fn path_length(lent: &Lent<'_>) -> usize
    ensures { result ≡ spec.path_length (lent_cookie lent.now) }
{
    lent.one.cookie.path().len()
}

// The same by sorting alone.
fn put_longest_first(sent: &mut Vec<Lent<'_>>) -> Result<(), NoRoom>
    ensures { OnOk result (lent_cookies sent.new.items ≡ spec.largest_first spec.path_length (lent_cookies sent.old.items)) }
{
    sent.sort_by_key(
        |lent: &Lent<'_>| -> Reverse<usize>
            ensures { result.0 ≡ spec.path_length (lent_cookie lent.now) }
        { Reverse(path_length(lent)) },
    )?;
    Ok(())
}

// The pairs joined by `; `.
fn pairs_text(alloc: Global, sent: &[Lent<'_>]) -> Result<Bytes, NoRoom>
    ensures value { IfOk result (λ text. text ≡ spec.pairs_text (lent_cookies sent.now)) }
    ensures line { IfOk result (λ text. HasNoLineEnd text) }
{
    match sent {
        [] => Ok(Bytes::from_vec(Vec::new(alloc))),
        [first, others @ ..] => joined(alloc, first, others),
    }
}

fn joined(alloc: Global, first: &Lent<'_>, others: &[Lent<'_>]) -> Result<Bytes, NoRoom>
    ensures value { IfOk result (λ text. text ≡ spec.pair_text (lent_cookie first.now) ++ flat_map spec.next_text (lent_cookies others.now)) }
    ensures line { IfOk result (λ text. HasNoLineEnd text) }
{
    let mut text = Vec::new(alloc);
    push_pair(&mut text, first)?;
    for lent in others {
        push_next(&mut text, lent)?;
    }
    Ok(Bytes::from_vec(text))
}

#[tactic(auto, unfolding(crate::specs::Send::next_text))]
fn push_next(text: &mut Vec<u8>, lent: &Lent<'_>) -> Result<(), NoRoom>
    ensures value { OnOk result (text.new.items ≡ text.old.items ++ spec.next_text (lent_cookie lent.now)) }
    ensures line { HasNoLineEnd text.old.items → OnOk result (HasNoLineEnd text.new.items) }
{
    // Byte by byte: a slice of two costs more than the two.
    text.reserve(2)?;
    text.push_reserved(b';');
    text.push_reserved(b' ');
    push_pair(text, lent)
}

fn push_pair(text: &mut Vec<u8>, lent: &Lent<'_>) -> Result<(), NoRoom>
    ensures value { OnOk result (text.new.items ≡ text.old.items ++ spec.pair_text (lent_cookie lent.now)) }
    ensures line { HasNoLineEnd text.old.items → OnOk result (HasNoLineEnd text.new.items) }
{
    text.extend_from_slice(lent.one.cookie.pair())?;
    Ok(())
}

/// Whether the cookie goes with a request to the URL at the time. The registrable domain of the
/// URL's host is given, and `last` is the domain that was looked at last, with its answer: where
/// the next cookie has the same, it spares a walk through the suffix rules.
#[tactic(auto, unfolding(crate::specs::Send::is_sent))]
fn is_sent<'a>(
    rules: &Suffixes,
    url: &WebUrl,
    site: Option<&[u8]>,
    now: u64,
    last: &mut Option<(&'a [u8], bool)>,
    cookie: &'a PackedCookie,
) -> bool
    requires site { option_copied site ≡ registrable rules.now (host_of url.now) }
    requires known { spec.IsKnown rules.now (host_of url.now) last.old }
    ensures value { result ≡ spec.is_sent rules.now url.now now cookie.now }
    ensures known { spec.IsKnown rules.now (host_of url.now) last.new }
{
    cookie.secure()
        && cookie.same_site() == SameSite::NoLimit
        && is_fresh(now, cookie.expiry())
        && path_matches(url.path().as_bytes(), cookie.path())
        && goes_to(rules, url.host(), site, last, cookie)
}

/// Whether there is no expiry, or one above the time.
pub fn is_fresh(now: u64, expiry: Option<u64>) -> bool
    ensures { result ≡ spec.is_fresh now expiry }
{
    match expiry {
        Some(expiry) => now < expiry,
        None => true,
    }
}

fn goes_to<'a>(
    rules: &Suffixes,
    host: &Host,
    site: Option<&[u8]>,
    last: &mut Option<(&'a [u8], bool)>,
    cookie: &'a PackedCookie,
) -> bool
    requires site { option_copied site ≡ registrable rules.now host.now }
    requires known { spec.IsKnown rules.now host.now last.old }
    ensures value { result ≡ spec.goes_to rules.now host.now cookie.now }
    ensures known { spec.IsKnown rules.now host.now last.new }
{
    if cookie.host_only() {
        return cookie.domain() == host.text.as_str().as_bytes();
    }
    is_within_last(rules, host, site, last, cookie.domain())
}

// Whether the host is within the domain, which may be the one that was looked at last.
fn is_within_last<'a>(
    rules: &Suffixes,
    host: &Host,
    site: Option<&[u8]>,
    last: &mut Option<(&'a [u8], bool)>,
    domain: &'a [u8],
) -> bool
    requires site { option_copied site ≡ registrable rules.now host.now }
    requires known { spec.IsKnown rules.now host.now last.old }
    ensures value { result ≡ within.is_within rules.now host.now domain.now }
    ensures known { spec.IsKnown rules.now host.now last.new }
{
    if let Some((seen, within)) = *last {
        if seen == domain {
            return within;
        }
    }
    let within = is_within(rules, host, site, domain);
    *last = Some((domain, within));
    within
}
