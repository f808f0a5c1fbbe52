//! Where calls stand.
ghost use Rattle.std.specs.Prelude.{◌≡◌, ◌<◌, nat_eq, Some, None, option_and_then, option_copied, option_map};
ghost use Rattle.std.specs.Map.{lookup, set_value};
ghost use Rattle.std.specs.Option.{option_map_or};
ghost use Rattle.indexmap.specs.IndexMap.{spare};
ghost use Rattle.fed_table.specs.Kept.{place_node, with_item, ChangesPlace};

use indexmap::IndexMap;

/// Where a call stands: its node. Its item is none while it is lent out.
#[derive(Drop)]
pub struct CallPlace<C> {
    pub node: u32,
    pub item: Option<C>,
}

/// The places of calls. Their order says nothing, so that a call that goes moves at most one other.
pub type CallPlaces<C> = IndexMap<u32, CallPlace<C>>;

/// Puts the place of a new call, for which there is room.
pub fn put<C: Drop>(places: &mut CallPlaces<C>, call: u32, place: CallPlace<C>)
    requires { 0 < spare places.old }
    ensures { ChangesPlace call (Some place) places.old.entries places.new.entries }
{
    let _ = places.insert(call, place);
}

/// Takes the place of a call out.
pub fn take<C: Drop>(places: &mut CallPlaces<C>, call: u32) -> Option<CallPlace<C>>
    ensures place { result ≡ lookup (nat_eq call) places.old.entries }
    ensures others { ChangesPlace call None places.old.entries places.new.entries }
{
    places.swap_remove(&call)
}

/// The present item of a call.
pub fn item<C>(places: &CallPlaces<C>, call: u32) -> Option<&C>
    ensures { option_copied result ≡ option_and_then (λ place. place.item) (lookup (nat_eq call) places.now.entries) }
{
    match places.get(&call) {
        Some(place) => place.item.as_ref(),
        None => None,
    }
}

/// The node of a call.
pub fn node<C>(places: &CallPlaces<C>, call: u32) -> Option<u32>
    ensures { result ≡ place_node places.now.entries call }
{
    match places.get(&call) {
        Some(place) => Some(place.node),
        None => None,
    }
}

/// Takes the present item of a call out; the call stays where it stands.
pub fn lend<C: Drop>(places: &mut CallPlaces<C>, call: u32) -> Option<C>
    ensures item { result ≡ option_and_then (λ place. place.item) (lookup (nat_eq call) places.old.entries) }
    ensures places { ChangesPlace call (option_map (with_item None) (lookup (nat_eq call) places.old.entries)) places.old.entries
        places.new.entries }
    ensures entries { places.new.entries ≡ option_map_or (λ place. set_value (nat_eq call) places.old.entries (with_item None place))
        (lookup (nat_eq call) places.old.entries) places.old.entries }
{
    match places.get_mut(&call) {
        Some(place) => place.item.take(),
        None => None,
    }
}

/// Puts the item of a call that is there; the call stays where it stands.
pub fn give_back<C: Drop>(places: &mut CallPlaces<C>, call: u32, item: C)
    ensures places { ChangesPlace call (option_map (with_item (Some item)) (lookup (nat_eq call) places.old.entries)) places.old.entries
        places.new.entries }
    ensures entries { places.new.entries
        ≡ option_map_or (λ place. set_value (nat_eq call) places.old.entries (with_item (Some item) place))
        (lookup (nat_eq call) places.old.entries) places.old.entries }
{
    if let Some(place) = places.get_mut(&call) {
        place.item = Some(item);
    }
}
