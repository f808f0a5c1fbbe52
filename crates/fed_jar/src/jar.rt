//! The jar.
ghost use Rattle.std.specs.Prelude.{◌≡◌, ◌≢◌, ◌<◌, ◌+◌, ◌-◌, ◌^◌, ℕ, List, [], OnOk, OnErr, IfOk, Some, is_some, filter, map};
ghost use Rattle.std.specs.Prelude.{bytes_eq, not, if◌then◌else◌};
ghost use Rattle.std.specs.List.{IsDistinct, list_any};
ghost use Rattle.std.specs.Map.{keys_of};
ghost use Rattle.fed_origin.specs.WebUrl.{host_of};
ghost use Rattle.std.specs.Option.{option_copied};
ghost use Rattle.fed_suffix.specs.Registrable.{party, registrable};
ghost use Rattle.fed_cookie.specs.SetCookie.{HasNoLineEnd};
ghost use Rattle.fed_jar.specs.Cookie.{AreDistinct, cookies_in, kept_under};
ghost use Rattle.fed_jar.specs.Limit.{jar_after, stored};
ghost use Rattle.fed_jar.specs.Parts.{AreOwn, IsPlace, list_under, same_numbered, store_under};
ghost use Rattle.fed_jar.specs.Parts.{all_numbered, lent_cookies, lent_numbered, lists_of, numbered_cookies, numbered_of, smallest_first};
ghost use Rattle.fed_jar.specs.Store.{IsKeptBy, cookie_of, is_of_party};
ghost use Rattle.fed_jar.specs.Store as storing;
ghost use Rattle.fed_jar.specs.Send as spec;

use crate::lists::{
    Kept, Parties, Place, all_lent, keep_first, keep_more, listed, party_at, place_of,
};
use crate::numbered::{Lent, Numbered};
use crate::store::{cookie_from, host_only_of, is_refused_of, site_by};
use crate::{Cookie, PackedCookie, send};
use fed_cookie::RawCookie;
use fed_io::{Bytes, NoRoom};
use fed_origin::{Host, WebUrl};
use fed_suffix::Suffixes;
use indexmap::IndexMap;
use std::alloc::Global;
use std::marker::Model;

/// Cookies, no two with the same name, domain and path, kept by the parties of the hosts that stored
/// them. Contracts see them in the order of first storing over all parties, the party of each, and
/// how many new keys ever entered.
pub struct Jar {
    parties: Parties,
    // Where the last cookie for one host alone was put: the next from the same host finds its party
    // there.
    last: Place,
    entered: u64,
    alloc: Global,
}

// Written out, so that one function lets it go wherever it ends.
impl Drop for Jar {
    fn drop(self) {
        let Jar {
            parties: _,
            last: _,
            entered: _,
            alloc: _,
        } = self;
    }
}

impl Model for Jar {
    ghost use Rattle.fed_jar.specs.Cookie.{JarParts};

    ghost Value = { JarParts };

    ghost use Rattle.fed_jar.specs.Parts.{AreLists, jar_of, lists_of};

    ghost view = { λ j. jar_of (lists_of (λ key. key.items) j.parties.entries) j.entered };

    ghost invariant = { λ j. AreLists (lists_of (λ key. key.items) j.parties.entries) j.entered };
}

impl Jar {
    /// A jar without cookies. It takes no memory.
    pub fn new(alloc: Global) -> Jar
        ensures { result ≡ record { kept = []; entered = 0 } }
    {
        Jar {
            parties: IndexMap::new(alloc),
            last: Place {
                party: 0,
                cookie: 0,
            },
            entered: 0,
            alloc,
        }
    }

    /// Stores the cookie of a Set-Cookie field of a page of the URL (RFC 6265, 5.3). `false` exactly
    /// where it is ignored, and then the jar is unchanged: name and value have more than 4,096
    /// bytes together; there is a Domain attribute, and the host is no name that matches it within
    /// one registrable domain and no equal of it; it is Secure and the URL is http; it is
    /// `SameSite=None` and not Secure; its name begins with `__Secure-` and it is not Secure, or
    /// with `__Host-` and it is not Secure, has a Domain attribute or a path other than `/`. On
    /// `true` the cookie stands in the place of the same name, domain and path, or last. Where it
    /// is new so and its party already had 180 cookies, one of these is gone: the first whose
    /// expiry is at or below the time, else the first.
    pub fn store(
        &mut self,
        rules: &Suffixes,
        url: &WebUrl,
        now: u64,
        raw: RawCookie,
    ) -> Result<bool, NoRoom>
        requires kept { IsKeptBy rules.now self.old }
        requires entered { self.old.entered < 2 ^ 64 - 1 }
        ensures ok { IfOk result (λ stored. stored ≡ is_some (cookie_of rules.now url.now now raw)) }
        ensures value { OnOk result (cookies_in self.new
            ≡ stored rules.now now (cookies_in self.old) (cookie_of rules.now url.now now raw)) }
        ensures err { OnErr result (self.new ≡ self.old) }

        // The cookies of every other party are as they were, in their order.
        ensures others { (name : List ℕ) → name ≢ party rules.now (host_of url.now)
            → filter (is_of_party rules.now name) (cookies_in self.new) ≡ filter (is_of_party rules.now name) (cookies_in self.old) }

        // A new cookie is kept under the host's party with the number of the new keys before it, and one that replaces another
        // under that one's party and number.
        ensures parts { OnOk result (self.new
            ≡ jar_after now (party rules.now (host_of url.now)) self.old (cookie_of rules.now url.now now raw)) }
        ensures kept { IsKeptBy rules.now self.new }
    {
        self.write(rules, url, now, raw)
    }

    fn write(
        &mut self,
        rules: &Suffixes,
        url: &WebUrl,
        now: u64,
        raw: RawCookie,
    ) -> Result<bool, NoRoom>
        requires kept { IsKeptBy rules.now self.old }
        requires entered { self.old.entered < 2 ^ 64 - 1 }
        ensures ok { IfOk result (λ stored. stored ≡ is_some (cookie_of rules.now url.now now raw)) }
        ensures parts { OnOk result (self.new
            ≡ jar_after now (party rules.now (host_of url.now)) self.old (cookie_of rules.now url.now now raw)) }
        ensures err { OnErr result (self.new ≡ self.old) }
    {
        let Some(host_only) = self.scope_of(rules, url, &raw) else {
            return Ok(false);
        };
        let cookie = cookie_from(self.alloc, url, now, &raw, host_only)?;
        self.put(rules, url.host(), now, cookie)?;
        Ok(true)
    }

    // Whether the cookie is for the host alone, or `None` where it is ignored.
    fn scope_of(&self, rules: &Suffixes, url: &WebUrl, raw: &RawCookie) -> Option<bool>
        requires { IsKeptBy rules.now self.now }
        ensures { result ≡ storing.scope_of rules.now url.now raw.now }
    {
        if is_refused_of(url, raw) {
            return None;
        }
        match &raw.domain {
            Some(domain) => {
                let host = url.host();
                host_only_of(rules, host, self.site_of(rules, host), domain.as_slice())
            }
            None => Some(true),
        }
    }

    // The registrable domain of the host.
    fn site_of<'a>(&'a self, rules: &Suffixes, host: &'a Host) -> Option<&'a [u8]>
        requires { IsKeptBy rules.now self.now }
        ensures { option_copied result ≡ registrable rules.now host.now }
    {
        match party_at(&self.parties, self.last, host.text.as_str().as_bytes()) {
            Some((_, party)) => site_by(rules, host, party),
            None => rules.registrable(host),
        }
    }

    // Puts the cookie, whose party is that of the host, under it.
    fn put(
        &mut self,
        rules: &Suffixes,
        host: &Host,
        now: u64,
        cookie: PackedCookie,
    ) -> Result<(), NoRoom>
        requires kept { IsKeptBy rules.now self.old }
        requires own { party rules.now cookie.domain ≡ party rules.now host.now }
        requires entered { self.old.entered < 2 ^ 64 - 1 }
        ensures ok { OnOk result (self.new ≡ jar_after now (party rules.now host.now) self.old (Some cookie)) }
        ensures err { OnErr result (self.new ≡ self.old) }
    {
        let number = self.entered;
        let host_only = cookie.host_only();
        let new = Numbered { cookie, number };
        let writer = Writer {
            rules,
            host,
            time: now,
        };
        let kept = keep(&mut self.parties, self.alloc, self.last, &writer, new)?;
        self.entered = after(number, kept.is_new);
        self.last = if host_only { kept.place } else { self.last };
        Ok(())
    }

    /// The value of the Cookie field of a FedCM request to the URL at the time (RFC 6265, 5.4),
    /// empty where no cookie is sent. It is a function of the cookies of the party of the URL's
    /// host, and holds no CR and no LF. No other party's cookies are looked at.
    pub fn cookie_text(
        &self,
        alloc: Global,
        rules: &Suffixes,
        url: &WebUrl,
        now: u64,
    ) -> Result<Bytes, NoRoom>
        requires { IsKeptBy rules.now self.now }
        ensures value { IfOk result (λ text. text ≡ spec.jar_text rules.now url.now now (cookies_in self.now)) }
        ensures line { IfOk result (λ text. HasNoLineEnd text) }
    {
        // A jar without cookies needs no walk through the rules.
        if self.parties.is_empty() {
            return Ok(Bytes::from_vec(Vec::new(alloc)));
        }
        let host = url.host();
        let party = rules.party(host);
        let site = site_by(rules, host, party);
        send::cookie_text(alloc, self.of_party(party), rules, url, site, now)
    }

    /// The cookies whose domain's party this is, in the jar's order.
    pub fn list_of(
        &self,
        alloc: Global,
        rules: &Suffixes,
        party: &[u8],
    ) -> Result<Vec<Cookie>, NoRoom>
        requires { IsKeptBy rules.now self.now }
        ensures { IfOk result (λ list. list.items ≡ filter (is_of_party rules.now party.now) (cookies_in self.now)) }
    {
        copies(alloc, self.of_party(party))
    }

    /// All cookies, in the jar's order. No two have the same name, domain and path.
    pub fn list(&self, alloc: Global) -> Result<Vec<Cookie>, NoRoom>
        ensures value { IfOk result (λ list. list.items ≡ cookies_in self.now) }
        ensures distinct { AreDistinct (cookies_in self.now) }
    {
        all_cookies(alloc, &self.parties)
    }

    /// The cookies that are kept under the party, in the jar's order, each with the number of the new
    /// keys that had entered before it. It takes no memory.
    pub fn of_party(&self, party: &[u8]) -> &[Numbered]
        ensures { result.now ≡ map numbered_of (kept_under party.now self.now.kept) }
    {
        listed(&self.parties, party)
    }
}

// Who stores a cookie, under whose party by the rules, and when.
#[derive(Clone, Copy)]
struct Writer<'a> {
    rules: &'a Suffixes,
    host: &'a Host,
    time: u64,
}

// Puts the cookie into the list of the party of the host, of whose cookies one may stand at `last`.
fn keep(
    parties: &mut Parties,
    alloc: Global,
    last: Place,
    writer: &Writer<'_>,
    new: Numbered,
) -> Result<Kept, NoRoom>
    requires named { IsDistinct bytes_eq (keys_of (lists_of (λ key. key.items) parties.old.entries)) }
    requires own { AreOwn writer.now.rules.now (lists_of (λ key. key.items) parties.old.entries) }
    ensures ok { OnOk result (lists_of (λ key. key.items) parties.new.entries
        ≡ store_under writer.now.time (party writer.now.rules.now writer.now.host.now)
        (lists_of (λ key. key.items) parties.old.entries) new) }
    ensures fresh { IfOk result (λ kept. kept.is_new ≡ not (list_any (same_numbered new)
        (list_under (party writer.now.rules.now writer.now.host.now) (lists_of (λ key. key.items) parties.old.entries)))) }
    ensures err { OnErr result (lists_of (λ key. key.items) parties.new.entries ≡ lists_of (λ key. key.items) parties.old.entries) }
{
    match place_by(parties, last, writer.rules, writer.host) {
        Some(at) => keep_more(parties, alloc, at, writer.time, new),
        None => keep_first(parties, alloc, writer.rules.party(writer.host), new),
    }
}

// The place of the party of the host.
fn place_by(parties: &Parties, last: Place, rules: &Suffixes, host: &Host) -> Option<usize>
    requires { AreOwn rules.now (lists_of (λ key. key.items) parties.now.entries) }
    ensures { IsPlace (party rules.now host.now) result (lists_of (λ key. key.items) parties.now.entries) }
{
    match party_at(parties, last, host.text.as_str().as_bytes()) {
        Some((place, _)) => Some(place),
        None => place_of(parties, rules.party(host)),
    }
}

// The number of the new keys, after one that is new or not.
fn after(number: u64, is_new: bool) -> u64
    requires { number < 2 ^ 64 - 1 }
    ensures { result ≡ (if is_new then number + 1 else number) }
{
    if is_new {
        return number + 1;
    }
    number
}

fn copies(alloc: Global, cookies: &[Numbered]) -> Result<Vec<Cookie>, NoRoom>
    ensures { IfOk result (λ list. list.items ≡ numbered_cookies cookies.now) }
{
    let mut list = Vec::new(alloc);
    for one in cookies {
        list.push(one.cookie.unpack(alloc)?)?;
    }
    Ok(list)
}

fn all_cookies(alloc: Global, parties: &Parties) -> Result<Vec<Cookie>, NoRoom>
    ensures { IfOk result (λ list. list.items
        ≡ numbered_cookies (smallest_first (λ n. n.number) (all_numbered (lists_of (λ key. key.items) parties.now.entries)))) }
{
    let mut all = all_lent(alloc, parties)?;
    put_smallest_first(&mut all)?;
    lent_copies(alloc, all.as_slice())
}

fn put_smallest_first(all: &mut Vec<Lent<'_>>) -> Result<(), NoRoom>
    ensures { OnOk result (lent_numbered all.new.items ≡ smallest_first (λ n. n.number) (lent_numbered all.old.items)) }
{
    all.sort_by_key(
        |lent: &Lent<'_>| -> u64
            ensures { result ≡ lent.now.one.now.number }
        { lent.one.number },
    )?;
    Ok(())
}

fn lent_copies(alloc: Global, all: &[Lent<'_>]) -> Result<Vec<Cookie>, NoRoom>
    ensures { IfOk result (λ list. list.items ≡ lent_cookies all.now) }
{
    let mut list = Vec::new(alloc);
    for lent in all {
        list.push(lent.one.cookie.unpack(alloc)?)?;
    }
    Ok(list)
}
