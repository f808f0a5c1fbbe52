//! The clause of the twin test on loads, and the origins that events name.
ghost use Rattle.std.specs.Prelude.{◌≡◌, ◌↔◌, Some, IsTrue, IfOk};
ghost use Rattle.fed_twin.specs.Clauses.{known_by, AreFarOrigins};
ghost use Rattle.fed_script.specs.declared.event.Event.TheVariants as events;
ghost use Rattle.fed_twin.specs.Twin as spec;
ghost use Rattle.fed_twin.specs.Twin.{SharesLoad, both_named};

use crate::parties::ProviderParties;
use fed_io::{Bytes, NoRoom};
use fed_origin::Origin;
use fed_script::{Event, Have};
use fed_suffix::Suffixes;
use std::alloc::Global;

// The origin that a load names, or a flag from before.
fn origin_named(alloc: Global, event: &Event) -> Result<Option<Origin>, NoRoom>
    ensures { IfOk result (λ origin. origin ≡ spec.origin_named event.now) }
{
    match event {
        Event::Load { url, .. } => {
            let origin = Origin::of_url(alloc, url)?;
            Ok(Some(origin))
        }
        Event::Have(have) => silent_origin(alloc, have.get()),
        _ => Ok(None),
    }
}

// The origin of a flag from before.
fn silent_origin(alloc: Global, have: &Have) -> Result<Option<Origin>, NoRoom>
    ensures { IfOk result (λ origin. origin ≡ spec.origin_named (events.Have have.now)) }
{
    match have {
        Have::Silent { origin } => {
            let origin = origin.copy(alloc)?;
            Ok(Some(origin))
        }
        _ => Ok(None),
    }
}

/// The origins that two events name.
pub fn named_together(
    alloc: Global,
    a: &Event,
    b: &Event,
) -> Result<Option<(Origin, Origin)>, NoRoom>
    ensures { IfOk result (λ origins. origins ≡ both_named (spec.origin_named a.now) (spec.origin_named b.now)) }
{
    let first = origin_named(alloc, a)?;
    let second = origin_named(alloc, b)?;
    match (first, second) {
        (Some(first), Some(second)) => Ok(Some((first, second))),
        _ => Ok(None),
    }
}

/// Whether two loads, of which these are the origins, are of one page, and equal or far from every provider. Of other events
/// there is nothing to look at here. It takes no memory.
pub fn same_load(
    rules: &Suffixes,
    parties: &ProviderParties,
    a: &Event,
    b: &Event,
    first: &Origin,
    second: &Origin,
) -> bool
    requires { both_named (spec.origin_named a.now) (spec.origin_named b.now) ≡ Some (first.now, second.now) }
    ensures { IsTrue result ↔ SharesLoad (known_by rules.now parties.now) a.now b.now }
{
    match (a, b) {
        (
            Event::Load { page, url, raw },
            Event::Load {
                page: number,
                url: other,
                raw: bytes,
            },
        ) => {
            *page == *number
                && (url.is_same(other) && same_raw(raw, bytes)
                    || are_far(rules, parties, first, second))
        }
        _ => true,
    }
}

// The bytes that two loads bring are equal.
fn same_raw(a: &Option<Bytes>, b: &Option<Bytes>) -> bool
    ensures { IsTrue result ↔ (a.now ≡ b.now) }
{
    match (a, b) {
        (Some(a), Some(b)) => *a == *b,
        (None, None) => true,
        (Some(_), None) | (None, Some(_)) => false,
    }
}

// Both are trustworthy or neither is, and no provider has the party of either.
fn are_far(rules: &Suffixes, parties: &ProviderParties, first: &Origin, second: &Origin) -> bool
    ensures { IsTrue result ↔ AreFarOrigins (known_by rules.now parties.now) first.now second.now }
{
    first.is_trustworthy() == second.is_trustworthy()
        && !parties.has(rules, &first.host)
        && !parties.has(rules, &second.host)
}
