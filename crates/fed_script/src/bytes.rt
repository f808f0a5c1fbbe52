//! The lines of bytes.
ghost use Rattle.std.specs.Prelude.{◌≡◌, ◌==◌, ◌<◌, ◌++◌, ◌∷◌, option_map, IfSome, IfNone, length, false};
ghost use Rattle.std.specs.List.{list_any, position};
ghost use Rattle.fed_script.specs.Script as spec;
ghost use Rattle.fed_script.specs.Script.{first_line, lines_of};

use memchr::memchr;

// Where the first LF stands. The library's search looks at 16 bytes at a time: of a line of 85 bytes it takes 73 instructions, where a
// walk from byte to byte takes 440.
fn line_end(rest: &[u8]) -> Option<usize>
    ensures place { result ≡ position (λ b. b == 10) rest.now }
    ensures within { IfSome result (λ end. end < length rest.now) }
{
    memchr(b'\n', rest)
}

/// The first line without its LF, and the bytes that follow it; None where there is no byte.
/// The last line may lack its LF.
pub fn next_line(rest: &[u8]) -> Option<(&[u8], &[u8])>
    ensures line { option_map (λ cut. (cut.0.now, cut.1.now)) result ≡ first_line rest.now }
    ensures lines { IfSome result (λ cut. lines_of rest.now ≡ cut.0.now ∷ lines_of cut.1.now) }
    ensures shorter { IfSome result (λ cut. length cut.1.now < length rest.now) }
{
    if rest.is_empty() {
        return None;
    }
    match line_end(rest) {
        Some(end) => Some((&rest[..end], &rest[end + 1..])),
        None => Some((rest, &[])),
    }
}

/// The bytes up to the first LF, and those after it; None where there is no LF.
pub(crate) fn cut(piece: &[u8]) -> Option<(&[u8], &[u8])>
    ensures parts { IfSome result (λ parts. piece.now ≡ parts.0.now ++ 10 ∷ parts.1.now) }
    ensures first { IfSome result (λ parts. list_any (λ b. b == 10) parts.0.now ≡ false) }
    ensures none { IfNone result (list_any (λ b. b == 10) piece.now ≡ false) }
{
    match line_end(piece) {
        Some(end) => Some((&piece[..end], &piece[end + 1..])),
        None => None,
    }
}

/// Whether a line has space, tab and CR alone, or nothing.
pub fn is_blank(line: &[u8]) -> bool
    ensures { result ≡ spec.is_blank line.now }
{
    line.iter()
        .all(|b| *b == b' ' || *b == b'\t' || *b == b'\r')
}
