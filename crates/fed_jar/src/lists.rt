//! The lists of a jar, by parties.
ghost use Rattle.std.specs.Prelude.{◌≡◌, ◌<◌, ◌++◌, ℕ, length, List, IfOk, IfSome, OnOk, OnErr, None, Some, not, bytes_eq};
ghost use Rattle.std.specs.List.{IsDistinct, list_any};
ghost use Rattle.std.specs.Map.{keys_of};
ghost use Rattle.fed_suffix.specs.Rule.{RuleSet};
ghost use Rattle.fed_suffix.specs.Registrable.{party};
ghost use Rattle.fed_jar.specs.Parts.{AreOwn, IsPlace, cookies_held};
ghost use Rattle.fed_jar.specs.Parts.{lists_of, list_under, put_limited, store_under, same_numbered, all_numbered, lent_numbered};

use crate::numbered::{Lent, Numbered};
use crate::party_cookies::PartyCookies;
use fed_io::NoRoom;
use indexmap::IndexMap;
use std::alloc::Global;

/// The cookies of each party by its text, in the order of first storing. A look-up by a slice takes no memory.
pub type Parties = IndexMap<Vec<u8>, PartyCookies>;

/// The cookies that are kept under the party.
pub fn listed<'a>(parties: &'a Parties, party: &[u8]) -> &'a [Numbered]
    ensures { result.now ≡ list_under party.now (lists_of (λ key. key.items) parties.now.entries) }
{
    match parties.get(party) {
        Some(cookies) => cookies.as_slice(),
        None => &[],
    }
}

/// Where a cookie stood when it was stored: the place of its party, and its own under the party.
#[derive(Clone, Copy)]
pub struct Place {
    pub party: usize,
    pub cookie: usize,
}

/// The party under which the cookie at the place is kept, where its domain is the host, and the
/// party's place: a look at one cookie spares the walk through the suffix rules and the look-up of
/// the party's text.
pub fn party_at<'a>(parties: &'a Parties, place: Place, host: &[u8]) -> Option<(usize, &'a [u8])>
    ensures place { IfSome result (λ found. IsPlace found.1.now (Some found.0) (lists_of (λ key. key.items) parties.now.entries)) }
    ensures own { (rules : RuleSet) → AreOwn rules (lists_of (λ key. key.items) parties.now.entries)
        → IfSome result (λ found. found.1.now ≡ party rules host.now) }
{
    let (name, cookies) = parties.get_index(place.party)?;
    let one = cookies.get(place.cookie)?;
    if one.cookie.domain() != host {
        return None;
    }
    Some((place.party, name.as_slice()))
}

/// The place of the party.
pub fn place_of(parties: &Parties, party: &[u8]) -> Option<usize>
    ensures { IsPlace party.now result (lists_of (λ key. key.items) parties.now.entries) }
{
    match parties.get_full(party) {
        Some((place, _, _)) => Some(place),
        None => None,
    }
}

/// Whether a cookie's name, domain and path are new under its party, and where it stands.
#[derive(Clone, Copy)]
pub struct Kept {
    pub is_new: bool,
    pub place: Place,
}

/// The first cookie of a party: the party stands from it on, so none stands without a cookie. It
/// makes none go, whatever the time.
pub fn keep_first(
    parties: &mut Parties,
    alloc: Global,
    party: &[u8],
    new: Numbered,
) -> Result<Kept, NoRoom>
    requires { IsPlace party.now None (lists_of (λ key. key.items) parties.old.entries) }
    ensures ok { OnOk result ((now : ℕ) → lists_of (λ key. key.items) parties.new.entries
        ≡ store_under now party.now (lists_of (λ key. key.items) parties.old.entries) new) }
    ensures fresh { IfOk result (λ kept. kept.is_new
        ≡ not (list_any (same_numbered new) (list_under party.now (lists_of (λ key. key.items) parties.old.entries)))) }
    ensures err { OnErr result (lists_of (λ key. key.items) parties.new.entries ≡ lists_of (λ key. key.items) parties.old.entries) }
{
    let name = party.to_vec(alloc)?;
    let place = Place {
        party: parties.len(),
        cookie: 0,
    };
    parties.insert(name, PartyCookies::One(new))?;
    Ok(Kept {
        is_new: true,
        place,
    })
}

/// One more cookie of the party at the place: one that takes the number of that which it replaces,
/// or a new one, which makes another go where the party is full.
pub fn keep_more(
    parties: &mut Parties,
    alloc: Global,
    at: usize,
    now: u64,
    new: Numbered,
) -> Result<Kept, NoRoom>
    requires named { IsDistinct bytes_eq (keys_of (lists_of (λ key. key.items) parties.old.entries)) }
    requires there { at < length parties.old.entries }
    ensures ok { OnOk result ((name : List ℕ) → IsPlace name (Some at) (lists_of (λ key. key.items) parties.old.entries)
        → lists_of (λ key. key.items) parties.new.entries ≡ store_under now name (lists_of (λ key. key.items) parties.old.entries) new) }
    ensures fresh { IfOk result (λ kept. (name : List ℕ) → IsPlace name (Some at) (lists_of (λ key. key.items) parties.old.entries)
        → kept.is_new ≡ not (list_any (same_numbered new) (list_under name (lists_of (λ key. key.items) parties.old.entries)))) }
    ensures err { OnErr result (lists_of (λ key. key.items) parties.new.entries ≡ lists_of (λ key. key.items) parties.old.entries) }
{
    match parties.get_index_mut(at) {
        Some(cookies) => put(cookies, alloc, at, now, new),
        None => unreachable!(),
    }
}

fn put(
    cookies: &mut PartyCookies,
    alloc: Global,
    at: usize,
    now: u64,
    new: Numbered,
) -> Result<Kept, NoRoom>
    ensures ok { OnOk result (cookies_held cookies.new ≡ put_limited now (cookies_held cookies.old) new) }
    ensures fresh { IfOk result (λ kept. kept.is_new ≡ not (list_any (same_numbered new) (cookies_held cookies.old))) }
    ensures err { OnErr result (cookies_held cookies.new ≡ cookies_held cookies.old) }
{
    let entered = cookies.put(alloc, now, new)?;
    Ok(Kept {
        is_new: entered.is_new,
        place: Place {
            party: at,
            cookie: entered.place,
        },
    })
}

/// All cookies, one party after another.
pub fn all_lent(alloc: Global, parties: &Parties) -> Result<Vec<Lent<'_>>, NoRoom>
    ensures { IfOk result (λ list. lent_numbered list.items ≡ all_numbered (lists_of (λ key. key.items) parties.now.entries)) }
{
    let mut list = Vec::new(alloc);
    for (_, cookies) in parties.iter() {
        push_all(&mut list, cookies.as_slice())?;
    }
    Ok(list)
}

fn push_all<'a>(list: &mut Vec<Lent<'a>>, cookies: &'a [Numbered]) -> Result<(), NoRoom>
    ensures { OnOk result (lent_numbered list.new.items ≡ lent_numbered list.old.items ++ cookies.now) }
{
    for one in cookies {
        list.push(Lent { one })?;
    }
    Ok(())
}
