//! Different numbers, of which the first ones rise.
ghost use Rattle.std.specs.Prelude.{ℕ, ◌≡◌, ◌<◌, ◌+◌, ◌^◌, ◌++◌, ◌∷◌, [], false, true, nat_eq, is_some, option_to_list, length, position, slice_index_or, IfSome, IfNone, IfOk, OnOk, OnErr};
ghost use Rattle.std.specs.List.{IsDistinct, list_any};
ghost use Rattle.fed_numbers.specs.Numbers.{AreRising};

use fed_io::{Items, NoRoom};
use indexmap::IndexSet;
use std::alloc::Global;
use std::marker::Model;

/// Different numbers of 32 bits, in order of entering. While each that enters is above the one before it, a number takes four
/// bytes, and is looked for by halves; from the first one that is not, the numbers that enter are found by their hash. That no
/// number stands twice is a fact of the type.
pub struct Numbers {
    /// The first numbers, each above the one before it.
    rising: Vec<u32>,
    /// Those that entered since one came that was not above the last.
    others: IndexSet<u32>,
}

// Written out, so that one function lets it go wherever it ends.
impl Drop for Numbers {
    fn drop(self) {
        let Numbers {
            rising: _,
            others: _,
        } = self;
    }
}

impl Model for Numbers {
    ghost use Rattle.std.specs.Prelude.{ℕ, List, ◌++◌, nat_eq};
    ghost use Rattle.std.specs.List.{IsDistinct};
    ghost use Rattle.fed_numbers.specs.Numbers.{AreRising};

    ghost Value = { List ℕ };

    ghost view = { λ n. n.rising.items ++ n.others.keys };

    ghost invariant = { λ n. AreRising n.rising.items × IsDistinct nat_eq (n.rising.items ++ n.others.keys) };
}

impl Numbers {
    /// No number. It takes no memory.
    pub fn new(alloc: Global) -> Numbers
        ensures { result ≡ [] }
    {
        Numbers {
            rising: Vec::new(alloc),
            others: IndexSet::new(alloc),
        }
    }

    /// How many numbers entered. It takes no memory.
    pub fn len(&self) -> usize
        ensures value { result ≡ length self.now }
        ensures distinct { IsDistinct nat_eq self.now }
    {
        self.rising.len() + self.others.len()
    }

    /// The numbers in order of entering.
    pub fn list(&self, alloc: Global) -> Result<Items<u32>, NoRoom>
        ensures { IfOk result (λ list. list ≡ self.now) }
    {
        let mut list = self.rising.as_slice().to_vec(alloc)?;
        list.extend_from_slice(self.others.as_slice())?;
        Ok(Items::from_vec(list))
    }

    /// Whether a number entered. It takes no memory.
    pub fn has(&self, number: u32) -> bool
        ensures { result ≡ list_any (nat_eq number) self.now }
    {
        self.place_of(number).is_some()
    }

    /// The place of a number in order of entering, from 0; `None` exactly where it did not enter. It takes no memory.
    pub fn place_of(&self, number: u32) -> Option<usize>
        ensures place { result ≡ position (nat_eq number) self.now }
        ensures found { is_some result ≡ list_any (nat_eq number) self.now }
        ensures within { IfSome result (λ place. place < length self.now) }
        ensures distinct { IsDistinct nat_eq self.now }
    {
        match place_rising(self.rising.as_slice(), number) {
            Some(place) => Some(place),
            None => match place_among(&self.others, number) {
                Some(place) => Some(self.rising.len() + place),
                None => None,
            },
        }
    }

    /// A number that did not enter enters last. On want of memory the numbers are as they were.
    pub fn insert(&mut self, number: u32) -> Result<(), NoRoom>
        requires { list_any (nat_eq number) self.old ≡ false }
        ensures ok { OnOk result (self.new ≡ self.old ++ number ∷ []) }
        ensures err { OnErr result (self.new ≡ self.old) }
    {
        if self.others.is_empty() && is_above(self.rising.as_slice(), number) {
            self.rising.push(number)?;
        } else {
            self.others.insert(number)?;
        }
        Ok(())
    }

    /// Takes the number that entered last out; `None` exactly where there is none. It takes no memory.
    pub fn take_last(&mut self) -> Option<u32>
        ensures left { self.old ≡ self.new ++ option_to_list result }
        ensures none { IfNone result (self.old ≡ []) }
    {
        if self.others.is_empty() {
            return self.rising.pop();
        }
        self.others.pop()
    }
}

// Whether a number is above all numbers that rise.
fn is_above(rising: &[u32], number: u32) -> bool
    requires { AreRising rising.now }
    ensures { result ≡ true → (place : ℕ) → place < length rising.now → slice_index_or rising.now place 0 < number }
{
    match rising.last() {
        Some(last) => *last < number,
        None => true,
    }
}

// The place of a number among numbers that rise.
fn place_rising(rising: &[u32], number: u32) -> Option<usize>
    requires { AreRising rising.now }
    ensures { result ≡ position (nat_eq number) rising.now }
{
    if is_above(rising, number) {
        return None;
    }
    rising.binary_search(&number).ok()
}

// The place of a number among those that rise no longer.
fn place_among(others: &IndexSet<u32>, number: u32) -> Option<usize>
    ensures place { result ≡ position (nat_eq number) others.now.keys }
    ensures small { IfSome result (λ place. place < 2 ^ 63) }
{
    if others.len() == 0 {
        return None;
    }
    others.get_index_of(&number)
}
