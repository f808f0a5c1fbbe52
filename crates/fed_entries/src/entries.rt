//! Entries in order of entering.
ghost use Rattle.std.specs.Prelude.{◌≡◌, ◌<◌, ◌≤◌, ◌^◌, ◌++◌, ◌∷◌, [], true, false, Some, None, is_some, length, slice_get};
ghost use Rattle.std.specs.Prelude.{option_copied, option_map, option_and_then, OnOk, OnErr};
ghost use Rattle.std.specs.List.{IsDistinct};
ghost use Rattle.std.specs.Map.{keys_of, values_of, lookup};
ghost use Rattle.indexmap.specs.IndexMap.{spare, insert_entry, shift_remove_entry};
ghost use Rattle.fed_entries.specs.Entries.{AreEntries, CountsOne, PlacesOne, with_hole, with_value, entries_in, place_in};

use fed_io::NoRoom;
use indexmap::IndexMap;
use std::alloc::Global;
use std::hash::Hash;
use std::marker::Model;

/// An entry, or the hole that one has left.
pub type Slot<K, V> = Option<(K, V)>;

/// Values under keys, in order of entering. One that goes leaves a hole and moves none of the others, so what it costs does
/// not grow with them. Contracts see those that stand.
pub struct Entries<K: Eq + Hash, V> {
    /// The place of each among the slots.
    places: IndexMap<K, u32>,
    /// In order of entering.
    slots: Vec<Slot<K, V>>,
}

// Written out, so that one function lets it go wherever it ends.
impl<K: Eq + Hash + Drop, V: Drop> Drop for Entries<K, V> {
    fn drop(self) {
        let Entries {
            places: _,
            slots: _,
        } = self;
    }
}

impl<K: Eq + Hash, V> Model for Entries<K, V> {
    ghost use Rattle.std.specs.Prelude.{List};
    ghost use Rattle.fed_entries.specs.Entries.{AreEntries, entries_in};

    ghost Value = { List (K × V) };

    ghost view = { λ e. entries_in e.slots.items };

    ghost invariant = { λ e. AreEntries K.eq e.places.entries e.slots.items };
}

impl<K: Copy + Eq + Hash + Drop, V: Drop> Entries<K, V> {
    /// No entry. It takes no memory.
    pub fn new(alloc: Global) -> Entries<K, V>
        ensures { result ≡ [] }
    {
        Entries {
            places: IndexMap::new(alloc),
            slots: Vec::new(alloc),
        }
    }

    /// The value under a key; `None` exactly where there is none. It takes no memory.
    pub fn get(&self, key: K) -> Option<&V>
        ensures { option_copied result ≡ lookup (K.eq key) self.now }
    {
        match self.places.get(&key) {
            Some(place) => value_at(self.slots.as_slice(), *place as usize),
            None => None,
        }
    }

    /// Whether an entry stands under a key. It takes no memory.
    pub fn has(&self, key: K) -> bool
        ensures { result ≡ is_some (lookup (K.eq key) self.now) }
    {
        self.places.contains_key(&key)
    }

    /// Puts a value under a key. A key that stands keeps its place, and a new one enters last. On want of memory the entries
    /// are unchanged.
    pub fn insert(&mut self, key: K, value: V) -> Result<(), NoRoom>
        ensures ok { OnOk result (self.new ≡ insert_entry K.eq self.old key value) }
        ensures err { OnErr result (self.new ≡ self.old) }
    {
        if let Some(place) = self.places.get(&key) {
            write(&mut self.slots, *place, value);
            return Ok(());
        }
        self.insert_new(key, value)
    }

    /// Puts a value under a key that has none, and it enters last: the key need not be looked up. On want of memory the entries
    /// are unchanged.
    pub fn insert_new(&mut self, key: K, value: V) -> Result<(), NoRoom>
        requires { is_some (lookup (K.eq key) self.old) ≡ false }
        ensures ok { OnOk result (self.new ≡ insert_entry K.eq self.old key value) }
        ensures err { OnErr result (self.new ≡ self.old) }
    {
        close_up(&mut self.places, &mut self.slots);
        enter(&mut self.places, &mut self.slots, key, value)?;
        Ok(())
    }

    /// Removes the entry under a key, where one stands; the others keep their order. It takes no memory.
    pub fn remove(&mut self, key: K)
        ensures { self.new ≡ shift_remove_entry (K.eq key) self.old }
    {
        if let Some(place) = self.places.swap_remove(&key) {
            leave_hole(&mut self.slots, place);
        }
    }

    /// How many entries stand. It takes no memory.
    pub fn len(&self) -> usize
        ensures { result ≡ length self.now }
    {
        self.places.len()
    }

    /// The value at place `k` from 0 in order of entering; `None` exactly where `k` is at least `len`. It takes no memory.
    pub fn item(&self, k: usize) -> Option<&V>
        ensures { option_copied result ≡ slice_get (values_of self.now) k }
    {
        // Without holes an entry stands at the place of its slot: then a walk over all places takes linear time.
        if self.slots.len() == self.places.len() {
            return at_slot(self.slots.as_slice(), k);
        }
        standing(self.slots.as_slice(), k)
    }

    /// Where the entries stand, with holes between them: for a walk over all. It takes no memory.
    pub fn slots(&self) -> &[Slot<K, V>]
        ensures { entries_in result.now ≡ self.now }
    {
        self.slots.as_slice()
    }
}

// The value of the entry at a place.
fn value_at<K, V>(slots: &[Slot<K, V>], place: usize) -> Option<&V>
    ensures { option_copied result
        ≡ option_map (λ entry. entry.1) (option_and_then (λ slot. slot) (slice_get slots.now place)) }
{
    match slots.get(place) {
        Some(Some((_, value))) => Some(value),
        _ => None,
    }
}

// The entry at a place has another value.
fn write<K: Drop, V: Drop>(slots: &mut Vec<Slot<K, V>>, place: u32, value: V)
    ensures { slots.new.items ≡ with_value value place slots.old.items }
{
    if let Some(slot) = slots.get_mut(place as usize) {
        set_value(slot, value);
    }
}

// The entry of a slot has another value.
fn set_value<K: Drop, V: Drop>(slot: &mut Slot<K, V>, value: V)
    ensures { slot.new ≡ option_map (λ entry. (entry.0, value)) slot.old }
{
    if let Some(entry) = slot {
        entry.1 = value;
    }
}

// Takes the holes out, where there are as many as entries: the removals that made them pay for the pass over all.
fn close_up<K: Eq + Hash + Drop, V: Drop>(
    places: &mut IndexMap<K, u32>,
    slots: &mut Vec<Slot<K, V>>,
)
    requires { AreEntries K.eq places.old.entries slots.old.items }
    ensures entries { entries_in slots.new.items ≡ entries_in slots.old.items }
    ensures kept { AreEntries K.eq places.new.entries slots.new.items }
{
    if slots.len() / 2 >= places.len() {
        slots.retain(
            |slot: &Slot<K, V>| -> bool
                ensures { result ≡ is_some slot.now }
            { slot.is_some() },
        );
        place_anew(places, slots.as_slice());
    }
}

// Each entry has the place of its slot.
fn place_anew<K: Eq + Hash, V>(places: &mut IndexMap<K, u32>, slots: &[Slot<K, V>])
    requires fits { length slots.now ≤ 2 ^ 32 }
    requires distinct { IsDistinct K.eq (keys_of (entries_in slots.now)) }
    requires found { (key : K) → is_some (lookup (K.eq key) places.old.entries) ≡ is_some (place_in (K.eq key) slots.now) }
    ensures found { (key : K) → lookup (K.eq key) places.new.entries ≡ place_in (K.eq key) slots.now }
    ensures count { length places.new.entries ≡ length places.old.entries }
{
    for place in 0..slots.len() {
        if let Some((key, _)) = &slots[place] {
            place_at(places, key, place as u32);
        }
    }
}

// An entry has this place.
fn place_at<K: Eq + Hash>(places: &mut IndexMap<K, u32>, key: &K, place: u32)
    requires { is_some (lookup (K.eq key.now) places.old.entries) ≡ true }
    ensures places { PlacesOne K.eq key.now place places.old.entries places.new.entries }
    ensures count { length places.new.entries ≡ length places.old.entries }
{
    if let Some(there) = places.get_mut(key) {
        *there = place;
    }
}

// Adds an entry.
fn enter<K: Copy + Eq + Hash + Drop, V: Drop>(
    places: &mut IndexMap<K, u32>,
    slots: &mut Vec<Slot<K, V>>,
    key: K,
    value: V,
) -> Result<(), NoRoom>
    ensures places { OnOk result (PlacesOne K.eq key (length slots.old.items) places.old.entries places.new.entries) }
    ensures count { OnOk result (CountsOne K.eq key places.old.entries places.new.entries) }
    ensures slots { OnOk result (slots.new.items ≡ slots.old.items ++ Some (key, value) ∷ []) }
    ensures fits { OnOk result (length slots.old.items < 2 ^ 32) }
    ensures err_places { OnErr result (places.new.entries ≡ places.old.entries) }
    ensures err_slots { OnErr result (slots.new.items ≡ slots.old.items) }
{
    let Ok(place) = u32::try_from(slots.len()) else {
        return Err(NoRoom);
    };
    places.reserve(1)?;
    slots.push(Some((key, value)))?;
    put_place(places, key, place);
    Ok(())
}

// Puts a place, for which there is room.
fn put_place<K: Eq + Hash + Drop>(places: &mut IndexMap<K, u32>, key: K, place: u32)
    requires { 0 < spare places.old }
    ensures places { PlacesOne K.eq key place places.old.entries places.new.entries }
    ensures count { CountsOne K.eq key places.old.entries places.new.entries }
{
    let _ = places.insert(key, place);
}

// The entry at a place goes.
fn leave_hole<K: Drop, V: Drop>(slots: &mut Vec<Slot<K, V>>, place: u32)
    ensures { slots.new.items ≡ with_hole place slots.old.items }
{
    if let Some(slot) = slots.get_mut(place as usize) {
        *slot = None;
    }
}

// The value at place k, where there are no holes.
fn at_slot<K, V>(slots: &[Slot<K, V>], k: usize) -> Option<&V>
    requires { length (entries_in slots.now) ≡ length slots.now }
    ensures { option_copied result ≡ slice_get (values_of (entries_in slots.now)) k }
{
    value_at(slots, k)
}

// The value at place k among those that stand.
fn standing<K, V>(slots: &[Slot<K, V>], k: usize) -> Option<&V>
    ensures { option_copied result ≡ slice_get (values_of (entries_in slots.now)) k }
{
    let mut before = k;
    for slot in slots {
        if let Some((_, value)) = slot {
            if before == 0 {
                return Some(value);
            }
            before -= 1;
        }
    }
    None
}
