//! One script that is read whole.
ghost use Rattle.std.specs.Prelude.{◌≡◌, ◌==◌, ℕ, ◌^◌, ◌<◌, List, ◌++◌, length, count_by, IfOk};
ghost use Rattle.fed_io.specs.Fault.{Answers};
ghost use Rattle.fed_run.specs.Alone as spec;
ghost use Rattle.fed_run.specs.Alone.{alone_of, alone_bad_within};
ghost use Rattle.fed_run.specs.Ends.{TellsCut};

use crate::ran::{Ran, stopped};
use crate::status::Status;
use fed_io::{Bytes, Fault, NoRoom};
use fed_script::{BadLine, PairCause, PairStop, Script, read_script};
use std::alloc::Global;

// A bad line of a script.
fn stop_at(bad: BadLine) -> PairStop
    ensures { result ≡ record { line = bad.line; cause = PairCause.Line bad.cause } }
{
    PairStop {
        line: bad.line,
        cause: PairCause::Line(bad.cause),
    }
}

/// Reads a script. The step that is refused is its first bad line.
pub fn read_alone(alloc: Global, bytes: &[u8]) -> Result<Script, Fault<PairStop>>
    requires { length bytes.now < 2 ^ 31 }
    ensures { Answers result (alone_of bytes.now) }
{
    match read_script(alloc, bytes) {
        Ok(script) => Ok(script),
        Err(Fault::Step(bad)) => Err(Fault::Step(stop_at(bad))),
        Err(Fault::NoRoom) => Err(Fault::NoRoom),
    }
}

/// How many lines end with LF.
pub fn count_lines(bytes: &[u8]) -> usize
    ensures { result ≡ count_by (λ b. b == 10) bytes.now }
{
    bytes.iter().filter(|b| **b == b'\n').count()
}

/// A bad line, unless it stands after the first so many lines.
pub fn if_among(lines: usize, stop: PairStop) -> Option<PairStop>
    ensures { result ≡ spec.if_among lines stop }
{
    if stop.line as usize <= lines {
        Some(stop)
    } else {
        None
    }
}

/// The first bad line of a script of which these are the first bytes, where it ends within them: whatever bytes follow, `read_alone`
/// refuses that line. None where no line that ends within them is bad.
pub fn bad_line_alone(alloc: Global, bytes: &[u8]) -> Result<Option<PairStop>, NoRoom>
    requires { length bytes.now < 2 ^ 31 }
    ensures { IfOk result (λ found. (more : List ℕ) → 0 < length more
        → found ≡ alone_bad_within (length bytes.now) (bytes.now ++ more)) }
{
    let lines = count_lines(bytes);
    let Err(fault) = read_alone(alloc, bytes) else {
        return Ok(None);
    };
    match fault {
        Fault::Step(stop) => Ok(if_among(lines, stop)),
        Fault::NoRoom => Err(NoRoom),
    }
}

/// Answers where these are the first bytes of more: a bad line that ends within them is told, or else that they are too many.
pub fn alone_front(alloc: Global, bytes: &[u8]) -> Result<Ran, NoRoom>
    requires { length bytes.now < 2 ^ 31 }
    ensures { IfOk result (λ ran. (more : List ℕ) → 0 < length more
        → TellsCut (alone_bad_within (length bytes.now) (bytes.now ++ more)) ran.status ran.text) }
{
    match bad_line_alone(alloc, bytes)? {
        Some(stop) => stopped(alloc, stop),
        None => Ok(Ran {
            text: Bytes::from_vec(Vec::new(alloc)),
            status: Status::TooLong,
        }),
    }
}
