//! Numbers, as JSON writes them.
ghost use Rattle.std.specs.Prelude.{◌≡◌, ◌<◌, ◌==◌, IsTrue, is_some, option_and_then, length, slice_index, true, false};
ghost use Rattle.serde_json.specs.Find.{as_u64};
ghost use Rattle.serde_json.specs.Read.{float_of, number_from, number_of};

use fast_float::Numeral;

// Whether a literal begins with a minus sign.
fn has_minus(literal: &[u8]) -> bool
    ensures value { result ≡ (slice_index literal.now 0 == 45) }
    ensures some { IsTrue result → 0 < length literal.now }
{
    !literal.is_empty() && literal[0] == b'-'
}

// Whether the nearest float is finite.
fn has_float(negative: bool, numeral: &Numeral<'_>) -> bool
    ensures { result ≡ is_some (float_of negative numeral.now) }
{
    numeral.to_float::<f64>(negative).is_finite()
}

// Whether a numeral without a sign is in range.
fn fits_unsigned(numeral: &Numeral<'_>) -> bool
    ensures { result ≡ is_some (number_from false numeral.now) }
{
    numeral.to_u64().is_some() || has_float(false, numeral)
}

// Whether a numeral after a minus sign is in range.
fn fits_negative(numeral: &Numeral<'_>) -> bool
    ensures { result ≡ is_some (number_from true numeral.now) }
{
    match numeral.to_i64(true) {
        Some(n) if n < 0 => true,
        _ => has_float(true, numeral),
    }
}

/// Whether a literal is in range: an integer of 64 bits, or a number whose nearest float is finite.
pub(crate) fn is_in_range(literal: &str) -> bool
    ensures { result ≡ is_some (number_of literal.now) }
{
    let bytes = literal.as_bytes();
    if has_minus(bytes) {
        fits_negative(&Numeral::scan(&bytes[1..]))
    } else {
        fits_unsigned(&Numeral::scan(bytes))
    }
}

// The whole number of 64 bits that a numeral without a sign writes.
fn whole_unsigned(numeral: &Numeral<'_>) -> Option<u64>
    ensures { result ≡ option_and_then as_u64 (number_from false numeral.now) }
{
    numeral.to_u64()
}

/// The whole number of 64 bits that a literal writes.
pub(crate) fn whole_of(literal: &str) -> Option<u64>
    ensures { result ≡ option_and_then as_u64 (number_of literal.now) }
{
    let bytes = literal.as_bytes();
    if has_minus(bytes) {
        None
    } else {
        whole_unsigned(&Numeral::scan(bytes))
    }
}
