//! Bytes that stand for themselves in a text, by vectors.
ghost use Rattle.std.specs.Prelude.{◌≡◌, ◌≤◌, ◌<◌, ◌+◌, ◌++◌, length, take, map};
ghost use Rattle.std.specs.List.{prefix_len};
ghost use Rattle.std.specs.Simd.Lanes.{mask_l};
ghost use Rattle.json.specs.Run.{is_stop, is_plain};

use std::simd::prelude::*;

/// Whether a byte stands for itself in a text of JSON.
#[inline(always)]
pub fn stands_for_itself(b: u8) -> bool
    ensures { result ≡ is_plain b }
{
    !(b == b'"' || b == b'\\' || b < 32)
}

// A bit for each of 16 bytes: whether it stands for something else.
#[inline(always)]
fn stops_of_16(bytes: u8x16) -> u64
    ensures { result ≡ mask_l (map is_stop bytes) }
{
    (bytes.simd_eq(u8x16::splat(b'"'))
        | bytes.simd_eq(u8x16::splat(b'\\'))
        | bytes.simd_lt(u8x16::splat(0x20))).to_bitmask()
}

// A bit for each of 8 bytes: whether it stands for something else.
#[inline(always)]
fn stops_of_8(bytes: u8x8) -> u64
    ensures { result ≡ mask_l (map is_stop bytes) }
{
    (bytes.simd_eq(u8x8::splat(b'"'))
        | bytes.simd_eq(u8x8::splat(b'\\'))
        | bytes.simd_lt(u8x8::splat(0x20))).to_bitmask()
}

/// Writes 16 bytes at a place of the room: how many of them, from the first on, stand for themselves.
#[inline(always)]
pub(crate) fn put_run_16(left: &[u8], room: &mut [u8], at: usize) -> usize
    requires { (16 ≤ length left.now) × (at + 16 ≤ length room.old) }
    ensures plain { result ≤ prefix_len is_plain left.now }
    ensures some { 0 < prefix_len is_plain left.now → 0 < result }
    ensures within { result ≤ 16 }
    ensures written { take (at + result) room.new ≡ take at room.old ++ take result left.now }
    ensures len { length room.new ≡ length room.old }
{
    let bytes = u8x16::from_slice(left);
    bytes.copy_to_slice(&mut room[at..]);
    let stops = stops_of_16(bytes);
    if stops == 0 {
        return 16;
    }
    stops.trailing_zeros() as usize
}

/// The same of 8 bytes.
#[inline(always)]
pub(crate) fn put_run_8(left: &[u8], room: &mut [u8], at: usize) -> usize
    requires { (8 ≤ length left.now) × (at + 8 ≤ length room.old) }
    ensures plain { result ≤ prefix_len is_plain left.now }
    ensures some { 0 < prefix_len is_plain left.now → 0 < result }
    ensures within { result ≤ 8 }
    ensures written { take (at + result) room.new ≡ take at room.old ++ take result left.now }
    ensures len { length room.new ≡ length room.old }
{
    let bytes = u8x8::from_slice(left);
    bytes.copy_to_slice(&mut room[at..]);
    let stops = stops_of_8(bytes);
    if stops == 0 {
        return 8;
    }
    stops.trailing_zeros() as usize
}
