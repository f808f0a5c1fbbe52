//! The texts of replies.
ghost use Rattle.std.specs.Prelude.{◌≡◌, ◌++◌, codes, IfOk, IfSome, IsUtf8};
ghost use Rattle.json.specs.Print.{escape};

use fed_escape::unescaped;
use fed_io::{Bytes, NoRoom};
use std::alloc::Global;
use std::str;

// What stands behind the last text of a line.
const END: &[u8] = b"\"}";

/// The bytes for which a whole text stands, where it has the shortest escapes and they are UTF-8.
pub(crate) fn text_bytes(alloc: Global, escaped: &[u8]) -> Result<Option<Bytes>, NoRoom>
    ensures { IfOk result (λ found. IfSome found (λ bytes. (escaped.now ≡ escape bytes) × IsUtf8 bytes)) }
{
    let (text, left) = unescaped(alloc, escaped)?;
    if !left.is_empty() || str::from_utf8(text.as_slice()).is_err() {
        return Ok(None);
    }
    Ok(Some(Bytes::from_vec(text)))
}

/// A text that is the last of its line, without what stands behind it.
pub(crate) fn last_text(rest: &[u8]) -> Option<&[u8]>
    ensures { IfSome result (λ text. rest.now ≡ text.now ++ codes "\"}") }
{
    if rest.len() < END.len() {
        return None;
    }
    let (text, end) = rest.split_at(rest.len() - END.len());
    if end == END { Some(text) } else { None }
}
