//! A script and a transcript that was written for it, which a line divides.
ghost use Rattle.std.specs.Prelude.{◌≡◌, ℕ, ◌^◌, ◌<◌, ◌≤◌, List, ◌++◌, drop, length, option_map, Err};
ghost use Rattle.std.specs.Prelude.{IfOk, IfSome, MatchOption};
ghost use Rattle.std.specs.List.{prefix_len};
ghost use Rattle.fed_io.specs.Fault.{AnswersBy};
ghost use Rattle.fed_script.specs.Half.{halves_by};
ghost use Rattle.fed_script.specs.Pair.{undivided};
ghost use Rattle.fed_script.specs.Script.{is_margin, lines_of, script_of};
ghost use Rattle.fed_run.specs.Recorded as spec;
ghost use Rattle.fed_run.specs.Recorded.{halves_of, recorded_after, recorded_in, recorded_of, recorded_bad_within};

use crate::alone::{count_lines, if_among, read_alone};
use fed_io::{Fault, NoRoom};
use fed_script::{PairCause, PairStop, Script, is_blank, next_line};
use std::alloc::Global;

/// A script, and the bytes of a transcript that was written for it, whose first line has this number among all lines.
#[derive(Drop)]
pub struct Recorded<'a> {
    pub script: Script,
    pub text: &'a [u8],
    pub first: u32,
}

// The dividing line.
const DIVIDER: &[u8] = br#"{"next":"transcript"}"#;

// The bytes from the first on that is no space, tab or CR.
fn after_margin(line: &[u8]) -> &[u8]
    ensures { result.now ≡ drop (prefix_len is_margin line.now) line.now }
{
    let mut rest = line;
    while let Some((first, after)) = rest.split_first() {
        if *first != b' ' && *first != b'\t' && *first != b'\r' {
            return rest;
        }
        rest = after;
    }
    rest
}

// Whether a line is the dividing line, but for space, tab and CR at its ends.
fn is_divider(line: &[u8]) -> bool
    ensures { result ≡ spec.is_divider line.now }
{
    let rest = after_margin(line);
    rest.starts_with(DIVIDER) && is_blank(rest.split_at(DIVIDER.len()).1)
}

// How many lines stand before the first dividing line, and the bytes before and after that line; where no line divides,
// how many lines there are.
fn divide(bytes: &[u8]) -> (u32, Option<(&[u8], &[u8])>)
    requires { length bytes.now < 2 ^ 31 }
    ensures halves { option_map (λ cut. halves_by cut.0.now cut.1.now) result.1 ≡ halves_of (lines_of bytes.now) }
    ensures before { MatchOption result.1 (result.0 ≡ length (lines_of bytes.now)) (λ cut. result.0 ≡ length (lines_of cut.0.now)) }
    ensures few { result.0 ≤ length bytes.now }
    ensures within { IfSome result.1 (λ cut. length cut.0.now < length bytes.now) }
{
    let mut before: u32 = 0;
    let mut rest = bytes;
    while let Some((line, after)) = next_line(rest) {
        if is_divider(line) {
            let (first, _) = bytes.split_at(bytes.len() - rest.len());
            return (before, Some((first, after)));
        }
        rest = after;
        before += 1;
    }
    (before, None)
}

// A script of so many lines, and the transcript after the dividing line.
fn read_divided<'a>(
    alloc: Global,
    before: u32,
    script: &[u8],
    text: &'a [u8],
) -> Result<Recorded<'a>, Fault<PairStop>>
    requires before { before < 2 ^ 31 }
    requires few { length script.now < 2 ^ 31 }
    ensures { AnswersBy recorded_in result (recorded_after before (script_of script.now) (lines_of text.now)) }
{
    match read_alone(alloc, script) {
        Ok(script) => Ok(Recorded {
            script,
            text,
            first: before + 2,
        }),
        Err(fault) => Err(fault),
    }
}

// The first bad line of so many, of which none divides them, or the dividing line that is missing after them.
fn read_undivided<'a>(
    alloc: Global,
    lines: u32,
    bytes: &[u8],
) -> Result<Recorded<'a>, Fault<PairStop>>
    requires lines { lines < 2 ^ 31 }
    requires few { length bytes.now < 2 ^ 31 }
    ensures { AnswersBy recorded_in result (Err (undivided lines (script_of bytes.now))) }
{
    match read_alone(alloc, bytes) {
        Ok(_) => {}
        Err(fault) => return Err(fault),
    }
    Err(Fault::Step(PairStop {
        line: lines + 1,
        cause: PairCause::NoNext,
    }))
}

/// Reads a script and what follows the first line that is `{"next":"transcript"}`, but for space, tab and CR at its ends. The step that
/// is refused is the script's first bad line, or NoNext at the line after the last where no line divides; the lines of the transcript
/// are not read.
pub fn read_recorded(alloc: Global, bytes: &[u8]) -> Result<Recorded<'_>, Fault<PairStop>>
    requires { length bytes.now < 2 ^ 31 }
    ensures { AnswersBy recorded_in result (recorded_of bytes.now) }
{
    let (before, cut) = divide(bytes);
    match cut {
        Some((script, text)) => read_divided(alloc, before, script, text),
        None => read_undivided(alloc, before, bytes),
    }
}

/// The first bad line of a script and a transcript of which these are the first bytes, where it ends within them: whatever bytes follow,
/// `read_recorded` refuses that line. None where no line that ends within them is known to be bad.
pub fn bad_line_before(alloc: Global, bytes: &[u8]) -> Result<Option<PairStop>, NoRoom>
    requires { length bytes.now < 2 ^ 31 }
    ensures { IfOk result (λ found. (more : List ℕ) → 0 < length more
        → found ≡ recorded_bad_within (length bytes.now) (bytes.now ++ more)) }
{
    let lines = count_lines(bytes);
    let Err(fault) = read_recorded(alloc, bytes) else {
        return Ok(None);
    };
    match fault {
        Fault::Step(stop) => Ok(if_among(lines, stop)),
        Fault::NoRoom => Err(NoRoom),
    }
}
