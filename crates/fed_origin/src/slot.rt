//! Places for what is kept of URLs.
ghost use Rattle.std.specs.Prelude.{◌<◌};

/// How many places a table has of what was read or made of URLs (this profile's own).
pub const SLOTS: usize = 256;

/// The powers of 37 below 256, a byte each: the high byte of a product with them has each of eight bytes in it.
const POWERS: u64 = 0x0dc9_d5f1_dd59_2501;

/// The place of a URL's text in such a table, below 256, by all its bytes: a text that comes later under the same number takes the place.
/// It takes no memory.
pub fn slot_of(text: &str) -> usize
    ensures { result < 256 }
{
    // Eight bytes at a time, since each look that does not begin at the right place asks for it.
    let (words, rest) = text.as_bytes().as_chunks::<8>();
    let mut sum: u64 = 0;
    for word in words {
        sum = sum.wrapping_mul(33).wrapping_add(u64::from_le_bytes(*word));
    }
    for byte in rest {
        sum = sum.wrapping_mul(33).wrapping_add(u64::from(*byte));
    }
    let [high, ..] = sum.wrapping_mul(POWERS).to_be_bytes();
    usize::from(high)
}
