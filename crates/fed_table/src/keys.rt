//! Keys whose place is the number of a list.
ghost use Rattle.std.specs.Prelude.{◌≡◌, ◌<◌, ◌++◌, [], ◌∷◌, false, nat_eq, length, position, is_some, IfSome};
ghost use Rattle.std.specs.List.{list_any};
ghost use Rattle.indexmap.specs.IndexSet.{spare};

use fed_numbers::Numbers;
use indexmap::IndexSet;
use std::hash::Hash;

/// The number of a key's list.
pub fn place_of<K: Eq + Hash>(keys: &IndexSet<K>, key: &K) -> Option<u32>
    requires { length keys.now.keys < 4294967296 }
    ensures place { result ≡ position (K.eq key.now) keys.now.keys }
    ensures found { is_some result ≡ list_any (K.eq key.now) keys.now.keys }
    ensures within { IfSome result (λ place. place < length keys.now.keys) }
{
    match keys.get_index_of(key) {
        Some(place) => Some(place as u32),
        None => None,
    }
}

/// The number of a page's list.
pub fn page_place(pages: &Numbers, page: u32) -> Option<u32>
    requires { length pages.now < 4294967296 }
    ensures place { result ≡ position (nat_eq page) pages.now }
    ensures found { is_some result ≡ list_any (nat_eq page) pages.now }
    ensures within { IfSome result (λ place. place < length pages.now) }
{
    match pages.place_of(page) {
        Some(place) => Some(place as u32),
        None => None,
    }
}

/// A new key goes last. There is room for it.
pub fn put<K: Eq + Hash + Drop>(keys: &mut IndexSet<K>, key: K)
    requires room { 0 < spare keys.old }
    requires new { list_any (K.eq key) keys.old.keys ≡ false }
    ensures { keys.new.keys ≡ keys.old.keys ++ key ∷ [] }
{
    let _ = keys.insert(key);
}
