//! The members of the form of a request.
ghost use Rattle.std.specs.Prelude.{◌≡◌, ◌∷◌, ◌<◌, ℕ, List, [], IfOk, MatchOption};
ghost use Rattle.std.specs.Option.{option_copied};
ghost use Rattle.form_urlencoded.specs.Parse.{pairs_left};
ghost use Rattle.fed_audit.specs.Consent as spec;
ghost use Rattle.fed_audit.specs.Front.{are_due as due_of, first_value, only_value};

use fed_io::{NoRoom, Text};
use form_urlencoded::{Pairs, parse};
use std::alloc::Global;

/// A pair of a form.
#[derive(Drop)]
struct Pair {
    name: Text,
    value: Text,
}

// The next pair, with its texts.
fn next_pair(alloc: Global, pairs: &mut Pairs<'_>) -> Result<Option<Pair>, NoRoom>
    ensures { IfOk result (λ pair. MatchOption pair (pairs_left pairs.old ≡ [])
        (λ p. (n : List ℕ) × (v : List ℕ) × (pairs_left pairs.old ≡ (n, v) ∷ pairs_left pairs.new)
        × (p.name ≡ spec.form_text n) × (p.value ≡ spec.form_text v))) }
{
    let Some(pair) = pairs.next() else {
        return Ok(None);
    };
    let (name, value) = pair?;
    Ok(Some(Pair {
        name: Text::of(alloc, &name)?,
        value: Text::of(alloc, &value)?,
    }))
}

// The first value of a name among the pairs that are left, and the pairs after it.
fn first_pair(alloc: Global, pairs: &mut Pairs<'_>, name: &str) -> Result<Option<Text>, NoRoom>
    ensures { IfOk result (λ value. MatchOption value (spec.values_among name.now (pairs_left pairs.old) ≡ [])
        (λ v. spec.values_among name.now (pairs_left pairs.old) ≡ v ∷ spec.values_among name.now (pairs_left pairs.new))) }
{
    while let Some(pair) = next_pair(alloc, pairs)? {
        if pair.name.as_str() == name {
            return Ok(Some(pair.value));
        }
    }
    Ok(None)
}

/// The only value of the pairs of a name in a form, if there is just one.
pub(crate) fn only_pair(alloc: Global, body: &[u8], name: &str) -> Result<Option<Text>, NoRoom>
    ensures { IfOk result (λ value. value ≡ only_value (spec.values_of name.now body.now)) }
{
    let mut pairs = parse(alloc, body);
    let Some(value) = first_pair(alloc, &mut pairs, name)? else {
        return Ok(None);
    };
    match first_pair(alloc, &mut pairs, name)? {
        Some(_) => Ok(None),
        None => Ok(Some(value)),
    }
}

/// The first value of the pairs of a name in a form, if there is one.
pub(crate) fn member_of(alloc: Global, body: &[u8], name: &str) -> Result<Option<Text>, NoRoom>
    ensures { IfOk result (λ value. value ≡ first_value (spec.values_of name.now body.now)) }
{
    first_pair(alloc, &mut parse(alloc, body), name)
}

/// Whether the pairs of a name in a form have no value where none is due, and else exactly that one.
pub(crate) fn is_member_due(
    alloc: Global,
    body: &[u8],
    name: &str,
    due: &Option<Text>,
) -> Result<bool, NoRoom>
    ensures { IfOk result (λ is. is ≡ due_of due.now (spec.values_of name.now body.now)) }
{
    let mut pairs = parse(alloc, body);
    match (first_pair(alloc, &mut pairs, name)?, due) {
        (None, None) => Ok(true),
        (Some(value), Some(due)) => {
            if value.as_str() != due.as_str() {
                return Ok(false);
            }
            Ok(first_pair(alloc, &mut pairs, name)?.is_none())
        }
        (None, Some(_)) | (Some(_), None) => Ok(false),
    }
}
