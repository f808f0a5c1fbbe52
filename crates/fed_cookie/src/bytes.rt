//! What the readers share.
ghost use Rattle.std.specs.Prelude.{◌≡◌, ◌+◌, ◌-◌, ◌^◌, ◌==◌, ◌<◌, min, length, option_map, IfSome, IfNone, [], ◌∷◌};
ghost use Rattle.std.specs.List.{slice_split};
ghost use Rattle.fed_cookie.specs.Bytes as spec;

use fed_io::place_of;

// The number that decimal digits write, at most 2^63.
pub fn number(digits: &[u8]) -> u64
    ensures { result ≡ min (spec.number_of digits.now) (2 ^ 63) }
{
    let mut value: u64 = 0;
    for digit in digits {
        let units = u64::from(digit.saturating_sub(b'0'));
        value = value.saturating_mul(10).saturating_add(units).min(1 << 63);
    }
    value
}

// What stands before the first such byte, and after it.
pub fn cut(byte: u8, bytes: &[u8]) -> Option<(&[u8], &[u8])>
    ensures none { IfNone result (slice_split (λ b. b == byte) bytes.now ≡ bytes.now ∷ []) }
    ensures some { IfSome result (λ r. slice_split (λ b. b == byte) bytes.now ≡ r.0.now ∷ slice_split (λ b. b == byte) r.1.now) }
    ensures value { option_map (λ r. (r.0.now, r.1.now)) result ≡ spec.cut_at byte bytes.now }
    ensures shorter { IfSome result (λ r. length r.1.now < length bytes.now) }
{
    match place_of(byte, bytes) {
        Some(at) => Some((&bytes[..at], &bytes[at + 1..])),
        None => None,
    }
}
