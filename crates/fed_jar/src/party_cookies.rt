//! The cookies of one party.
ghost use Rattle.std.specs.Prelude.{◌≡◌, ◌≤◌, ◌<◌, ◌++◌, ◌∷◌, [], false, true, not, length, option_map, position, slice_get};
ghost use Rattle.std.specs.Prelude.{IfNone, IfOk, IfSome, OnErr, OnOk};
ghost use Rattle.std.specs.Option.{option_copied};
ghost use Rattle.std.specs.List.{list_any};
ghost use Rattle.indexmap.specs.IndexSet.{IsEmpty, get_by, spare};
ghost use Rattle.fed_jar.specs.Limit.{first_to_go, most_cookies};
ghost use Rattle.fed_jar.specs.Parts.{IsOther, cookies_held, numbered_cookies, put_limited, same_numbered};
ghost use Rattle.fed_jar.specs.Send as spec;

use crate::numbered::Numbered;
use crate::send::is_fresh;
use fed_io::NoRoom;
use indexmap::IndexSet;
use std::alloc::Global;
use std::{mem, slice};

// The most cookies of a party.
const MOST_COOKIES: usize = 180;

/// The cookies of a party, in the order of first storing. One alone stands in place: a set of its
/// own takes about 770 bytes more.
#[derive(Drop)]
pub enum PartyCookies {
    Empty,
    One(Numbered),
    Many(Box<IndexSet<Numbered>>),
}

/// Whether a cookie's name, domain and path are new, and its place.
#[derive(Clone, Copy)]
pub struct Entered {
    pub is_new: bool,
    pub place: usize,
}

impl PartyCookies {
    /// The cookies.
    pub fn as_slice(&self) -> &[Numbered]
        ensures { result.now ≡ cookies_held self.now }
    {
        match self {
            PartyCookies::Empty => &[],
            PartyCookies::One(only) => slice::from_ref(only),
            PartyCookies::Many(cookies) => cookies.as_slice(),
        }
    }

    /// The cookie at the place.
    pub fn get(&self, place: usize) -> Option<&Numbered>
        ensures { option_copied result ≡ slice_get (cookies_held self.now) place }
    {
        self.as_slice().get(place)
    }

    /// One more cookie: one that takes the number of that which it replaces, or a new one, and where
    /// there were 180 one of these goes: the first whose expiry is at or below the time, else the
    /// first. On want of memory nothing changes.
    pub fn put(&mut self, alloc: Global, now: u64, new: Numbered) -> Result<Entered, NoRoom>
        ensures ok { OnOk result (cookies_held self.new ≡ put_limited now (cookies_held self.old) new) }
        ensures fresh { IfOk result (λ entered. entered.is_new ≡ not (list_any (same_numbered new) (cookies_held self.old))) }
        ensures err { OnErr result (cookies_held self.new ≡ cookies_held self.old) }
    {
        match self {
            PartyCookies::Empty => {
                *self = PartyCookies::One(new);
                Ok(Entered {
                    is_new: true,
                    place: 0,
                })
            }
            PartyCookies::One(only) => {
                if new == *only {
                    let Numbered { cookie, number: _ } = new;
                    only.cookie = cookie;
                    return Ok(Entered {
                        is_new: false,
                        place: 0,
                    });
                }
                self.add_second(alloc, new)?;
                Ok(Entered {
                    is_new: true,
                    place: 1,
                })
            }
            PartyCookies::Many(cookies) => put_in_set(cookies, now, new),
        }
    }

    // A set of the one cookie and of another after it. All that takes memory comes before the one
    // is taken out.
    fn add_second(&mut self, alloc: Global, new: Numbered) -> Result<(), NoRoom>
        requires apart { IsOther new self.old }
        ensures ok { OnOk result (cookies_held self.new ≡ cookies_held self.old ++ new ∷ []) }
        ensures err { OnErr result (cookies_held self.new ≡ cookies_held self.old) }
    {
        let both = room_for_two(alloc)?;
        let PartyCookies::One(first) = mem::replace(self, PartyCookies::Empty) else {
            unreachable!()
        };
        *self = PartyCookies::Many(filled(both, first, new));
        Ok(())
    }
}

fn room_for_two(alloc: Global) -> Result<Box<IndexSet<Numbered>>, NoRoom>
    ensures empty { IfOk result (λ set. IsEmpty set.value) }
    ensures room { IfOk result (λ set. 2 ≤ spare set.value) }
{
    Ok(Box::new(alloc, IndexSet::with_capacity(alloc, 2)?)?)
}

fn filled(
    mut set: Box<IndexSet<Numbered>>,
    first: Numbered,
    second: Numbered,
) -> Box<IndexSet<Numbered>>
    requires empty { IsEmpty set.value }
    requires room { 2 ≤ spare set.value }
    requires apart { same_numbered second first ≡ false }
    ensures { result.value.keys ≡ first ∷ second ∷ [] }
{
    set.insert(first).unwrap();
    set.insert(second).unwrap();
    set
}

fn put_in_set(cookies: &mut IndexSet<Numbered>, now: u64, new: Numbered) -> Result<Entered, NoRoom>
    ensures ok { OnOk result (cookies.new.keys ≡ put_limited now cookies.old.keys new) }
    ensures fresh { IfOk result (λ entered. entered.is_new ≡ not (list_any (same_numbered new) cookies.old.keys)) }
    ensures err { OnErr result (cookies.new.keys ≡ cookies.old.keys) }
{
    match number_of(cookies, &new) {
        Some(number) => {
            let Numbered { cookie, number: _ } = new;
            let (place, _) = cookies.replace_full(Numbered { cookie, number })?;
            Ok(Entered {
                is_new: false,
                place,
            })
        }
        None => Ok(Entered {
            is_new: true,
            place: put_last(cookies, now, new)?,
        }),
    }
}

// A cookie of a new key, and its place. The place of the one that goes is looked up first and the
// cookie then inserted, which alone may find no memory: nothing has gone then.
fn put_last(cookies: &mut IndexSet<Numbered>, now: u64, new: Numbered) -> Result<usize, NoRoom>
    requires absent { list_any (same_numbered new) cookies.old.keys ≡ false }
    ensures ok { OnOk result (cookies.new.keys ≡ put_limited now cookies.old.keys new) }
    ensures err { OnErr result (cookies.new.keys ≡ cookies.old.keys) }
{
    let going = place_to_go(cookies.as_slice(), now);
    let (place, _) = cookies.insert_full(new)?;
    match going {
        Some(going) => {
            let _ = cookies.shift_remove_index(going);
            Ok(cookies.len() - 1)
        }
        None => Ok(place),
    }
}

// The place of the cookie that one of a new key makes go, if the party is full: of the first that
// is expired, else the first.
fn place_to_go(cookies: &[Numbered], now: u64) -> Option<usize>
    ensures room { IfNone result (length cookies.now < most_cookies) }
    ensures full { IfSome result (λ place. most_cookies ≤ length cookies.now) }
    ensures goes { IfSome result (λ place. option_map (λ n. n.cookie) (slice_get cookies.now place)
        ≡ first_to_go now (numbered_cookies cookies.now)) }
{
    if cookies.len() < MOST_COOKIES {
        return None;
    }
    Some(expired_place(cookies, now).unwrap_or(0))
}

// The place of the first cookie whose expiry is at or below the time.
fn expired_place(cookies: &[Numbered], now: u64) -> Option<usize>
    ensures { result ≡ position (λ n. not (spec.is_fresh now n.cookie.expiry)) cookies.now }
{
    cookies
        .iter()
        .position(|one| !is_fresh(now, one.cookie.expiry()))
}

// The number of the cookie with this name, domain and path.
fn number_of(cookies: &IndexSet<Numbered>, new: &Numbered) -> Option<u64>
    ensures { result ≡ option_map (λ n. n.number) (get_by (same_numbered new.now) cookies.now) }
{
    match cookies.get(new) {
        Some(old) => Some(old.number),
        None => None,
    }
}
