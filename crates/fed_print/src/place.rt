//! Pieces that are put behind the first bytes of a room.
ghost use Rattle.std.specs.Prelude.{◌≡◌, ◌≤◌, ◌<◌, ◌+◌, ◌++◌, ◌∷◌, [], cond, decimal, length, take};
ghost use Rattle.json.specs.Print.{token_text, separator};
ghost use Rattle.json.specs.Token as token;
ghost use Rattle.fed_print.specs.Written.{IsName};

use itoa::write_digits;
use std::simd::prelude::*;

/// Puts a piece there: where it ends.
#[inline(always)]
pub(crate) fn put(room: &mut [u8], at: usize, piece: &[u8]) -> usize
    requires { at + length piece.now ≤ length room.old }
    ensures written { take result room.new ≡ take at room.old ++ piece.now }
    ensures end { result ≡ at + length piece.now }
    ensures len { length room.new ≡ length room.old }
{
    let end = at + piece.len();
    room[at..end].copy_from_slice(piece);
    end
}

#[inline(always)]
fn put_byte(room: &mut [u8], at: usize, byte: u8) -> usize
    requires { at < length room.old }
    ensures written { take result room.new ≡ take at room.old ++ byte ∷ [] }
    ensures end { result ≡ at + 1 }
    ensures len { length room.new ≡ length room.old }
{
    room[at] = byte;
    at + 1
}

/// Puts the comma that stands between two values there, where a value has just ended.
#[inline(always)]
pub(crate) fn put_comma(room: &mut [u8], at: usize, after_value: bool) -> usize
    requires { at < length room.old }
    ensures written { take result room.new ≡ take at room.old ++ cond after_value (44 ∷ []) [] }
    ensures end { result ≤ at + 1 }
    ensures len { length room.new ≡ length room.old }
{
    room[at] = b',';
    if after_value { at + 1 } else { at }
}

/// Puts the name of a member there, with the comma before it and the colon behind it.
#[inline(always)]
pub(crate) fn put_name(room: &mut [u8], at: usize, after_value: bool, name: &[u8]) -> usize
    requires plain { IsName name.now }
    requires fits { at + (length name.now + 4) ≤ length room.old }
    ensures written { take result room.new
        ≡ take at room.old ++ (separator after_value (token.key name.now) ++ token_text (token.key name.now)) }
    ensures end { result ≤ at + (length name.now + 4) }
    ensures len { length room.new ≡ length room.old }
{
    let first = put_comma(room, at, after_value);
    let opened = put_byte(room, first, b'"');
    let named = put(room, opened, name);
    let closed = put_byte(room, named, b'"');
    put_byte(room, closed, b':')
}

/// Puts a number there. Room for 16 bytes is wanted, which are put at once.
#[inline(always)]
pub(crate) fn put_number(room: &mut [u8], at: usize, number: u32) -> usize
    requires { at + 16 ≤ length room.old }
    ensures written { take result room.new ≡ take at room.old ++ decimal number }
    ensures end { result ≤ at + 16 }
    ensures len { length room.new ≡ length room.old }
{
    if number < 10 {
        return put_byte(room, at, b'0' + number as u8);
    }
    let mut digits = [0; 32];
    let start = write_digits(u64::from(number), &mut digits, 16);
    u8x16::from_slice(&digits[start..]).copy_to_slice(&mut room[at..]);
    at + (16 - start)
}
