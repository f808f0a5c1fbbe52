//! The text that stands for bytes.
ghost use Rattle.std.specs.Prelude.{◌≡◌, ◌≤◌, ◌<◌, ◌+◌, ◌*◌, ◌++◌, length, take, IfSome, IfNone};
ghost use Rattle.std.specs.Char.{digit_char};
ghost use Rattle.json.specs.Print.{escape, escape_byte, escape_letter};

use crate::vectors::{put_run_8, put_run_16, stands_for_itself};

// Writes a piece at a place: where it ends.
#[inline(always)]
fn put(room: &mut [u8], at: usize, piece: &[u8]) -> usize
    requires { at + length piece.now ≤ length room.old }
    ensures written { take result room.new ≡ take at room.old ++ piece.now }
    ensures end { result ≡ at + length piece.now }
    ensures len { length room.new ≡ length room.old }
{
    room[at..at + piece.len()].copy_from_slice(piece);
    at + piece.len()
}

// A digit of base 16.
fn hex(digit: u8) -> u8
    requires { digit < 16 }
    ensures { result ≡ digit_char digit }
{
    if digit < 10 {
        b'0' + digit
    } else {
        b'a' - 10 + digit
    }
}

// The escape of two characters that stands for a byte, where there is one.
#[tactic(auto, unfolding(json::specs::Print::escape_byte))]
fn short_escape(b: u8) -> Option<[u8; 2]>
    ensures some { IfSome result (λ escape. escape ≡ escape_byte b) }
    ensures none { IfNone result (escape_letter b ≡ 0) }
{
    match b {
        b'"' => Some([b'\\', b'"']),
        b'\\' => Some([b'\\', b'\\']),
        8 => Some([b'\\', b'b']),
        12 => Some([b'\\', b'f']),
        b'\n' => Some([b'\\', b'n']),
        b'\r' => Some([b'\\', b'r']),
        b'\t' => Some([b'\\', b't']),
        _ => None,
    }
}

// Writes what stands for a byte that has no such escape: where it ends.
fn put_other(room: &mut [u8], at: usize, b: u8) -> usize
    requires letter { escape_letter b ≡ 0 }
    requires room { at + 6 ≤ length room.old }
    ensures written { take result room.new ≡ take at room.old ++ escape_byte b }
    ensures end { (at < result) × (result ≤ at + 6) }
    ensures len { length room.new ≡ length room.old }
{
    if b < 32 {
        return put(
            room,
            at,
            &[b'\\', b'u', b'0', b'0', hex(b / 16), hex(b % 16)],
        );
    }
    put(room, at, &[b])
}

// Writes what stands for a byte: where it ends.
fn put_byte(room: &mut [u8], at: usize, b: u8) -> usize
    requires { at + 6 ≤ length room.old }
    ensures written { take result room.new ≡ take at room.old ++ escape_byte b }
    ensures end { (at < result) × (result ≤ at + 6) }
    ensures len { length room.new ≡ length room.old }
{
    match short_escape(b) {
        Some(escape) => put(room, at, &escape),
        None => put_other(room, at, b),
    }
}

/// Writes the text that stands for bytes behind the first bytes of a room: where it ends. What stands in the room behind it is not told.
pub fn escape_into(room: &mut [u8], at: usize, bytes: &[u8]) -> usize
    requires { at + (6 * length bytes.now + 16) ≤ length room.old }
    ensures written { take result room.new ≡ take at room.old ++ escape bytes.now }
    ensures end { result ≤ at + 6 * length bytes.now }
    ensures len { length room.new ≡ length room.old }
{
    let mut read = 0;
    let mut end = at;
    while read < bytes.len() {
        let b = bytes[read];
        if !stands_for_itself(b) {
            end = put_byte(room, end, b);
            read += 1;
        } else if bytes.len() - read >= 16 {
            let run = put_run_16(&bytes[read..], room, end);
            read += run;
            end += run;
        } else if bytes.len() - read >= 8 {
            let run = put_run_8(&bytes[read..], room, end);
            read += run;
            end += run;
        } else {
            room[end] = b;
            read += 1;
            end += 1;
        }
    }
    end
}
