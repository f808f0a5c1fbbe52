//! Two scripts that a line divides.
ghost use Rattle.std.specs.Prelude.{◌≡◌, ◌==◌, ℕ, ◌+◌, ◌^◌, ◌<◌, ◌≤◌, List, ◌++◌, length, drop};
ghost use Rattle.std.specs.Prelude.{count_by, option_map, IfSome, IfOk, MatchOption};
ghost use Rattle.std.specs.List.{prefix_len};
ghost use Rattle.fed_io.specs.Fault.{Answers};
ghost use Rattle.fed_script.specs.Half.{half_of, halves_by};
ghost use Rattle.fed_script.specs.Pair as spec;
ghost use Rattle.fed_script.specs.Pair.{halves_of, pair_of, bad_within};
ghost use Rattle.fed_script.specs.Script.{is_margin, lines_of, script_of};

use crate::bytes::{is_blank, next_line};
use crate::cause::{BadLine, PairCause, PairStop};
use crate::script::{Script, read_script};
use fed_io::{Fault, NoRoom};
use std::alloc::Global;

/// Two scripts that are read together.
#[derive(Drop)]
pub struct Pair {
    /// The script before the dividing line.
    pub first: Script,
    /// The script after it.
    pub second: Script,
}

// The dividing line.
const DIVIDER: &[u8] = br#"{"next":"script"}"#;

// The bytes from the first on that is no space, tab or CR.
fn after_margin(line: &[u8]) -> &[u8]
    ensures { result.now ≡ drop (prefix_len is_margin line.now) line.now }
{
    let mut rest = line;
    while let Some((first, after)) = rest.split_first() {
        if *first != b' ' && *first != b'\t' && *first != b'\r' {
            return rest;
        }
        rest = after;
    }
    rest
}

// Whether a line is the dividing line, but for space, tab and CR at its ends.
fn is_divider(line: &[u8]) -> bool
    ensures { result ≡ spec.is_divider line.now }
{
    let rest = after_margin(line);
    rest.starts_with(DIVIDER) && is_blank(rest.split_at(DIVIDER.len()).1)
}

// How many lines stand before the first dividing line, and the bytes before and after that line; where no line divides,
// how many lines there are.
fn divide(bytes: &[u8]) -> (u32, Option<(&[u8], &[u8])>)
    requires { length bytes.now < 2 ^ 31 }
    ensures halves { option_map (λ cut. halves_by cut.0.now cut.1.now) result.1 ≡ halves_of (lines_of bytes.now) }
    ensures before { MatchOption result.1 (result.0 ≡ length (lines_of bytes.now)) (λ cut. result.0 ≡ length (lines_of cut.0.now)) }
    ensures few { result.0 ≤ length bytes.now }
    ensures within { IfSome result.1 (λ cut. (length cut.0.now < length bytes.now) × (result.0 + length cut.1.now < length bytes.now)) }
{
    let mut before: u32 = 0;
    let mut rest = bytes;
    while let Some((line, after)) = next_line(rest) {
        if is_divider(line) {
            let (first, _) = bytes.split_at(bytes.len() - rest.len());
            return (before, Some((first, after)));
        }
        rest = after;
        before += 1;
    }
    (before, None)
}

// The bad line of a script that so many lines stand before.
fn moved(before: u32, bad: BadLine) -> PairStop
    requires { before + bad.line < 2 ^ 32 }
    ensures { result ≡ record { line = before + bad.line; cause = PairCause.Line bad.cause } }
{
    PairStop {
        line: before + bad.line,
        cause: PairCause::Line(bad.cause),
    }
}

// A script that so many lines stand before.
fn read_half(alloc: Global, before: u32, bytes: &[u8]) -> Result<Script, Fault<PairStop>>
    requires { before + length bytes.now < 2 ^ 31 }
    ensures { Answers result (half_of before (script_of bytes.now)) }
{
    match read_script(alloc, bytes) {
        Ok(script) => Ok(script),
        Err(Fault::Step(bad)) => Err(Fault::Step(moved(before, bad))),
        Err(Fault::NoRoom) => Err(Fault::NoRoom),
    }
}

// Two scripts, of which so many lines stand before the second.
fn read_halves(
    alloc: Global,
    first: &[u8],
    before: u32,
    second: &[u8],
) -> Result<Pair, Fault<PairStop>>
    requires first { length first.now < 2 ^ 31 }
    requires second { before + length second.now < 2 ^ 31 }
    ensures { Answers result (spec.pair_after before (script_of first.now) (script_of second.now)) }
{
    match read_half(alloc, 0, first) {
        Ok(first) => match read_half(alloc, before, second) {
            Ok(second) => Ok(Pair { first, second }),
            Err(fault) => Err(fault),
        },
        Err(fault) => Err(fault),
    }
}

// The first bad line of so many, of which none divides them, or the dividing line that is missing after them.
fn read_undivided(alloc: Global, lines: u32, bytes: &[u8]) -> Result<Pair, Fault<PairStop>>
    requires lines { lines < 2 ^ 31 }
    requires few { length bytes.now < 2 ^ 31 }
    ensures { Answers result (Err (spec.undivided lines (script_of bytes.now))) }
{
    match read_half(alloc, 0, bytes) {
        Ok(_) => {}
        Err(fault) => return Err(fault),
    }
    Err(Fault::Step(PairStop {
        line: lines + 1,
        cause: PairCause::NoNext,
    }))
}

/// Reads two scripts with a dividing line between them (this profile's own): the first line that is `{"next":"script"}`,
/// but for space, tab and CR at its ends. Each is read as `read_script` reads it. The step that is refused is the first
/// bad line, numbered among all lines from 1; a script without a line is not JSON where its line 1 would be. Where no
/// line divides, and all is one script, it is NoNext at the line after the last.
pub fn read_pair(alloc: Global, bytes: &[u8]) -> Result<Pair, Fault<PairStop>>
    requires { length bytes.now < 2 ^ 31 }
    ensures { Answers result (pair_of bytes.now) }
{
    let (before, cut) = divide(bytes);
    match cut {
        Some((first, second)) => read_halves(alloc, first, before + 1, second),
        None => read_undivided(alloc, before, bytes),
    }
}

// How many lines end with LF.
fn count_lines(bytes: &[u8]) -> usize
    ensures { result ≡ count_by (λ b. b == 10) bytes.now }
{
    bytes.iter().filter(|b| **b == b'\n').count()
}

// A bad line, if it is one of the first so many lines.
fn stop_within(lines: usize, stop: PairStop) -> Option<PairStop>
    ensures { result ≡ spec.stop_within lines (Err stop) }
{
    if stop.line as usize <= lines {
        Some(stop)
    } else {
        None
    }
}

/// The first bad line of two scripts of which these are the first bytes, where it ends within them: whatever bytes
/// follow, `read_pair` refuses that line. None where no line that ends within them is known to be bad.
pub fn bad_line_in(alloc: Global, bytes: &[u8]) -> Result<Option<PairStop>, NoRoom>
    requires { length bytes.now < 2 ^ 31 }
    ensures { IfOk result (λ found. (more : List ℕ) → 0 < length more → found ≡ bad_within (length bytes.now) (bytes.now ++ more)) }
{
    let lines = count_lines(bytes);
    let Err(fault) = read_pair(alloc, bytes) else {
        return Ok(None);
    };
    match fault {
        Fault::Step(stop) => Ok(stop_within(lines, stop)),
        Fault::NoRoom => Err(NoRoom),
    }
}
