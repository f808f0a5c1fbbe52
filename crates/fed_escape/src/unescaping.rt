//! The bytes for which a text stands.
ghost use Rattle.std.specs.Prelude.{◌≡◌, ◌≤◌, ◌++◌, ◌∷◌, [], length, take, drop, IfOk, IfSome};
ghost use Rattle.json.specs.Print.{escape, escape_byte};

use crate::vectors::{put_run_16, stands_for_itself};
use fed_io::NoRoom;
use std::alloc::Global;

// The byte for which an escape of this letter stands, where it is the shortest one.
#[tactic(auto, unfolding(json::specs::Print::escape_byte))]
fn escaped_byte(letter: u8) -> Option<u8>
    ensures { IfSome result (λ b. escape_byte b ≡ 92 ∷ letter ∷ []) }
{
    match letter {
        b'"' => Some(b'"'),
        b'\\' => Some(b'\\'),
        b'n' => Some(b'\n'),
        b'r' => Some(b'\r'),
        b't' => Some(b'\t'),
        _ => None,
    }
}

// Writes the bytes for which the front of a text stands: how many these are, and where the text goes on with what is none of the
// shortest escapes, a quote or a control character.
fn unescape_into(bytes: &[u8], room: &mut [u8]) -> (usize, usize)
    requires { length bytes.now ≤ length room.old }
    ensures text { bytes.now ≡ escape (take result.0 room.new) ++ drop result.1 bytes.now }
    ensures within { (result.0 ≤ length room.new) × (result.1 ≤ length bytes.now) }
    ensures len { length room.new ≡ length room.old }
{
    let mut read = 0;
    let mut end = 0;
    while read < bytes.len() {
        let b = bytes[read];
        if stands_for_itself(b) {
            if bytes.len() - read >= 16 {
                let run = put_run_16(&bytes[read..], room, end);
                read += run;
                end += run;
            } else {
                room[end] = b;
                read += 1;
                end += 1;
            }
            continue;
        }
        if b != b'\\' || bytes.len() - read < 2 {
            break;
        }
        let Some(meant) = escaped_byte(bytes[read + 1]) else {
            break;
        };
        room[end] = meant;
        read += 2;
        end += 1;
    }
    (end, read)
}

/// The bytes for which the front of a text stands, and what is left from the first byte on that no such text has there: a quote, a control
/// character, or an escape that is not the shortest one.
pub fn unescaped(alloc: Global, bytes: &[u8]) -> Result<(Vec<u8>, &[u8]), NoRoom>
    ensures { IfOk result (λ found. bytes.now ≡ escape found.0.items ++ found.1.now) }
{
    // Room for all at once: what escapes take more than the bytes that they stand for is little.
    let mut text = Vec::new(alloc);
    text.resize(bytes.len(), 0)?;
    let (end, read) = unescape_into(bytes, text.as_mut_slice());
    text.truncate(end);
    Ok((text, &bytes[read..]))
}
