//! Texts and lists of bytes, which contracts see as their bytes.
ghost use Rattle.std.specs.Prelude.{◌≡◌, Some, IfOk, IfSome, bytes_eq, refl};
ghost use Rattle.std.specs.Option.{option_copied};
ghost use Rattle.std.proofs.Common.{rules};
ghost use Rattle.std.specs.Ordering.{nat_cmp};
ghost use Rattle.std.specs.Hash as fed;
ghost use Rattle.std.specs.Cmp.{partial_equiv_from_equiv};
ghost use Rattle.std.specs.Cmp.Lexicographic.{slice_cmp, nat_list_eq_equiv, nat_list_cmp_total, texts_ties, texts_po};
ghost use Rattle.std.specs.Cmp.Rules.{hashing};

use crate::{Items, NoRoom};
use arrayvec::ArrayString;
use std::alloc::Global;
use std::cmp::Ordering;
use std::hash::{Hash, Hasher};
use std::marker::Model;

// The bytes of a text that stands in the value itself, as short names of hosts, ids and hints do: each piece of memory takes some 180
// instructions.
const SHORT: usize = 24;

// The text as one that stands in the value, where it is short. A longer one is told by its length, before there is an array for it.
fn short(s: &str) -> Option<ArrayString<SHORT>>
    ensures { IfSome result (λ here. here.bytes ≡ s.now) }
{
    if s.len() > SHORT {
        return None;
    }
    ArrayString::from(s).ok()
}

// Where the bytes of a text stand.
#[derive(Drop)]
enum Place {
    Here(ArrayString<SHORT>),
    There(String),
}

/// A text. Contracts see it as its bytes; equality, order and hash are by these. One of at most 24 bytes takes no memory of its own.
pub struct Text {
    place: Place,
}

// Written out, so that one function lets a text go wherever it ends.
impl Drop for Text {
    fn drop(self) {
        let Text { place: _ } = self;
    }
}

impl Model for Text {
    ghost use Rattle.std.specs.Prelude.{List, ℕ};
    ghost use Rattle.fed_io.specs.Text.{bytes_at};

    ghost Value = { List ℕ };

    ghost view = { λ t. bytes_at t.place };
}

impl Text {
    /// A copy of this text.
    pub fn of(alloc: Global, s: &str) -> Result<Text, NoRoom>
        ensures { IfOk result (λ text. text ≡ s.now) }
    {
        let place = match short(s) {
            Some(here) => Place::Here(here),
            None => Place::There(String::from_str(alloc, s)?),
        };
        Ok(Text { place })
    }

    /// The text.
    pub fn as_str(&self) -> &str
        ensures { result.now ≡ self.now }
    {
        match &self.place {
            Place::Here(here) => here.as_str(),
            Place::There(there) => there.as_str(),
        }
    }

    /// A text equal to this one.
    pub fn copy(&self, alloc: Global) -> Result<Text, NoRoom>
        ensures { IfOk result (λ text. text ≡ self.now) }
    {
        let place = match &self.place {
            Place::Here(here) => Place::Here(*here),
            Place::There(there) => Place::There(String::from_str(alloc, there.as_str())?),
        };
        Ok(Text { place })
    }
}

/// A copy of the text, where there is one.
pub fn text_of(alloc: Global, text: Option<&str>) -> Result<Option<Text>, NoRoom>
    ensures { IfOk result (λ copy. copy ≡ option_copied text.entry) }
{
    match text {
        Some(text) => Ok(Some(Text::of(alloc, text)?)),
        None => Ok(None),
    }
}

/// The same text, where there is one.
pub fn copy_text(alloc: Global, text: &Option<Text>) -> Result<Option<Text>, NoRoom>
    ensures { IfOk result (λ copy. copy ≡ text.now) }
{
    match text {
        Some(text) => Ok(Some(text.copy(alloc)?)),
        None => Ok(None),
    }
}

/// The same texts, in their order.
pub fn copy_texts(alloc: Global, texts: &[Text]) -> Result<Items<Text>, NoRoom>
    ensures { IfOk result (λ copy. copy ≡ texts.now) }
{
    let mut copy = Items::new(alloc);
    for text in texts {
        copy.push(text.copy(alloc)?)?;
    }
    Ok(copy)
}

impl PartialEq for Text {
    ghost eq = { bytes_eq };

    ghost laws = { partial_equiv_from_equiv nat_list_eq_equiv };

    fn eq(&self, other: &Text) -> bool {
        self.as_str() == other.as_str()
    }
}

impl Eq for Text {
    ghost laws = { nat_list_eq_equiv };
}

impl PartialOrd for Text {
    ghost partial_cmp = { λ x y. Some (slice_cmp nat_cmp x y) };

    ghost laws = { texts_po };

    fn partial_cmp(&self, other: &Text) -> Option<Ordering> {
        Some(self.cmp(other))
    }
}

impl Ord for Text {
    ghost cmp = { slice_cmp nat_cmp };

    ghost total = { nat_list_cmp_total };

    ghost matches_partial_cmp = { λ x y. refl };

    ghost matches_eq = { λ x y. texts_ties x y };

    fn cmp(&self, other: &Text) -> Ordering {
        self.as_str().cmp(other.as_str())
    }
}

impl Hash for Text {
    ghost hash_input = { fed.str };

    ghost respects_eq = { Prim.search (hashing, rules) };

    fn hash<H: Hasher>(&self, state: &mut H) {
        self.as_str().hash(state);
    }
}

/// Bytes. Contracts see them as their list; equality, order and hash are by it.
pub struct Bytes {
    inner: Vec<u8>,
}

// Written out, so that one function lets it go wherever it ends.
impl Drop for Bytes {
    fn drop(self) {
        let Bytes { inner: _ } = self;
    }
}

impl Model for Bytes {
    ghost use Rattle.std.specs.Prelude.{List, ℕ};

    ghost Value = { List ℕ };

    ghost view = { λ b. b.inner.items };
}

impl Bytes {
    /// A copy of these bytes.
    pub fn of(alloc: Global, b: &[u8]) -> Result<Bytes, NoRoom>
        ensures { IfOk result (λ bytes. bytes ≡ b.now) }
    {
        Ok(Bytes {
            inner: b.to_vec(alloc)?,
        })
    }

    /// The bytes of a vector. It takes no memory.
    pub fn from_vec(inner: Vec<u8>) -> Bytes
        ensures { result ≡ inner.items }
    {
        Bytes { inner }
    }

    /// The bytes.
    pub fn as_slice(&self) -> &[u8]
        ensures { result.now ≡ self.now }
    {
        self.inner.as_slice()
    }

    /// Bytes equal to these.
    pub fn copy(&self, alloc: Global) -> Result<Bytes, NoRoom>
        ensures { IfOk result (λ bytes. bytes ≡ self.now) }
    {
        Bytes::of(alloc, self.as_slice())
    }
}

impl PartialEq for Bytes {
    ghost eq = { bytes_eq };

    ghost laws = { partial_equiv_from_equiv nat_list_eq_equiv };

    fn eq(&self, other: &Bytes) -> bool {
        self.as_slice() == other.as_slice()
    }
}

impl Eq for Bytes {
    ghost laws = { nat_list_eq_equiv };
}

impl PartialOrd for Bytes {
    ghost partial_cmp = { λ x y. Some (slice_cmp nat_cmp x y) };

    ghost laws = { texts_po };

    fn partial_cmp(&self, other: &Bytes) -> Option<Ordering> {
        Some(self.cmp(other))
    }
}

impl Ord for Bytes {
    ghost cmp = { slice_cmp nat_cmp };

    ghost total = { nat_list_cmp_total };

    ghost matches_partial_cmp = { λ x y. refl };

    ghost matches_eq = { λ x y. texts_ties x y };

    fn cmp(&self, other: &Bytes) -> Ordering {
        self.as_slice().cmp(other.as_slice())
    }
}

impl Hash for Bytes {
    ghost hash_input = { fed.slice fed.u8 };

    ghost respects_eq = { Prim.search (hashing, rules) };

    fn hash<H: Hasher>(&self, state: &mut H) {
        self.as_slice().hash(state);
    }
}
