//! A script that comes in pieces, and faults between them.
ghost use Rattle.std.specs.Prelude.{◌<◌};

use crate::lines::told;
use crate::runs::{Limits, QUIET, ran};
use crate::tokens::{sign_up, sign_up_records};
use fed_io::NoRoom;
use fed_run::Status;
use std::alloc::Global;
use std::test::Fail;

// How many records a sign-up has written after so many of its lines.
const RECORDS_AFTER: [usize; 11] = [0, 0, 0, 2, 2, 3, 4, 5, 6, 7, 8];

// Whether a run over a source that gives at most so many bytes a call is done, and writes this text.
fn gives_by(alloc: Global, most_taken: usize, script: &str, whole: &str) -> Result<bool, NoRoom>
    requires { 0 < most_taken }
{
    let limits = Limits {
        most_taken,
        ..QUIET
    };
    let (status, text) = ran(alloc, "run", script, limits)?;
    Ok(status == Status::Done && text.as_slice() == whole.as_bytes())
}

// How many bytes a call give another text, if any do.
fn wrong_size(alloc: Global, script: &str, whole: &str) -> Result<Option<usize>, NoRoom> {
    for most_taken in [1, 7, 100, 100_000] {
        if !gives_by(alloc, most_taken, script, whole)? {
            return Ok(Some(most_taken));
        }
    }
    Ok(None)
}

#[test]
fn any_pieces_give_one_text(rt: HostRuntime) -> Result<(), Fail> {
    let script = sign_up(rt.alloc())?;
    let whole = sign_up_records(rt.alloc())?;
    assert_eq!(rt;
        wrong_size(rt.alloc(), script.as_str(), whole.as_str())?,
        None
    );
    Ok(())
}

// A load and a close, whose line has no end.
fn cut_lines() -> &'static str {
    r#"HEADER
LOAD 1 https://rp.example/
{"do":"closepage","page":1}\"#
}

#[test]
fn a_last_line_may_lack_its_end(rt: HostRuntime) -> Result<(), Fail> {
    let script = told(rt.alloc(), "", cut_lines())?;
    let end = "{\"events\":2,\"out\":\"end\"}\n";
    assert_eq!(rt; wrong_size(rt.alloc(), script.as_str(), end)?, None);
    Ok(())
}

// How many lines end in these bytes.
fn lines_in(bytes: &[u8]) -> usize {
    bytes.iter().filter(|byte| **byte == b'\n').count()
}

// Whether a text is as many records of the whole as a sign-up has written after so many lines.
fn are_records(text: &[u8], whole: &[u8], lines: usize) -> bool {
    let is_cut = !text.is_empty() && !text.ends_with(b"\n");
    !is_cut && whole.starts_with(text) && RECORDS_AFTER.get(lines) == Some(&lines_in(text))
}

// The bytes that a source of 7 bytes a call gives before this take.
fn before_take(bytes: &[u8], take: usize) -> &[u8] {
    let (first, _) = bytes.split_at(take.saturating_sub(1).saturating_mul(7).min(bytes.len()));
    first
}

// Whether the records of the lines that had come are written where this take fails.
fn stops_at(alloc: Global, take: usize, script: &str, whole: &str) -> Result<bool, NoRoom> {
    let limits = Limits {
        failing_take: take as u64,
        ..QUIET
    };
    let (status, text) = ran(alloc, "run", script, limits)?;
    let lines = lines_in(before_take(script.as_bytes(), take));
    Ok(status == Status::ReadFault && are_records(text.as_slice(), whole.as_bytes(), lines))
}

// The first of so many takes at which a run ends otherwise, if it does at any.
fn wrong_take(
    alloc: Global,
    takes: usize,
    script: &str,
    whole: &str,
) -> Result<Option<usize>, NoRoom> {
    for take in 1..=takes {
        if !stops_at(alloc, take, script, whole)? {
            return Ok(Some(take));
        }
    }
    Ok(None)
}

// How a run ends whose take of this number fails.
fn end_at(alloc: Global, take: usize, script: &str) -> Result<Status, NoRoom> {
    let limits = Limits {
        failing_take: take as u64,
        ..QUIET
    };
    let (status, _) = ran(alloc, "run", script, limits)?;
    Ok(status)
}

// A source of 7 bytes a call, of which each take fails in turn, also the one that finds the end: the records of the lines that
// had come are written.
#[test]
fn each_take_may_fail(rt: HostRuntime) -> Result<(), Fail> {
    let alloc = rt.alloc();
    let script = sign_up(alloc)?;
    let whole = sign_up_records(alloc)?;
    let takes = script
        .as_str()
        .as_bytes()
        .len()
        .div_ceil(7)
        .saturating_add(1);
    assert_eq!(rt;
        wrong_take(alloc, takes, script.as_str(), whole.as_str())?,
        None
    );
    assert_eq!(rt;
        end_at(alloc, takes.saturating_add(1), script.as_str())?,
        Status::Done
    );
    Ok(())
}

// How many bytes of the whole text are written where this put fails, and whether the run is done all the same; none where it
// ends otherwise.
fn written(
    alloc: Global,
    put: u64,
    script: &str,
    whole: &str,
) -> Result<Option<(usize, bool)>, NoRoom> {
    let limits = Limits {
        most_put: 7,
        failing_put: put,
        ..QUIET
    };
    let (status, text) = ran(alloc, "run", script, limits)?;
    let is_done = status == Status::Done;
    let is_front = whole.as_bytes().starts_with(text.as_slice());
    if is_front && (is_done || status == Status::WriteFault) {
        Ok(Some((text.len(), is_done)))
    } else {
        Ok(None)
    }
}

// The first put that no run comes to, if each before it leaves a front of the whole text, and each more than the one before.
fn first_unmet(alloc: Global, script: &str, whole: &str) -> Result<Option<u64>, NoRoom> {
    let mut before = None;
    for put in 1..1_000u64 {
        match written(alloc, put, script, whole)? {
            Some((length, is_done)) if before < Some(length) => {
                if is_done {
                    return Ok((length == whole.len()).then_some(put));
                }
                before = Some(length);
            }
            _ => return Ok(None),
        }
    }
    Ok(None)
}

// A sink of 7 bytes a call, of which each put fails in turn, up to the first run that meets no fault: a front of the text is
// written, which grows.
#[test]
fn each_put_may_fail(rt: HostRuntime) -> Result<(), Fail> {
    let script = sign_up(rt.alloc())?;
    let whole = sign_up_records(rt.alloc())?;
    assert!(rt; first_unmet(rt.alloc(), script.as_str(), whole.as_str())?.is_some());
    Ok(())
}
