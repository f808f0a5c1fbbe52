//! The forms of the command line, and their faults.
ghost use Rattle.std.specs.Prelude.{◌≡◌, ◌<◌};

use crate::lines::told;
use crate::runs::{Limits, QUIET, gives, ran, word_of, words_of};
use fed_io::{MemSink, MemSource, NoRoom, QuietSink, QuietSource, Steps, Text};
use fed_run::{Status, fedcm, fedcm_in_memory};
use std::alloc::Global;
use std::marker::Brand;
use std::sync::ledger::{Blank, Ledger};
use std::test::Fail;

const HEADER: &str = "{\"fedcm\":1,\"now\":1700000000,\"rules\":\"\"}\n";

// Words that are no form, the first row none at all.
fn no_forms() -> &'static str {
    "
run|run
check|check
checks
make
make 3
twins
audit|x
audits
compare|x
|
make||
make|0
make|03
make|+3
make|3 |
make|20001
make|4294967299
make|x
make|3|3
run|3
slice
slice||
slice|a|b
slices|a
Slice|a
saves
Save
save|x"
}

// The first words that are taken as a form, or "", and how many are not.
fn first_form<'a>(alloc: Global, rows: &'a str) -> Result<(&'a str, u32), Fail> {
    let mut count: u32 = 0;
    for words in rows.split('\n') {
        if !gives(alloc, words, HEADER, "usage", "")? {
            return Ok((words, count));
        }
        count = count.wrapping_add(1);
    }
    Ok(("", count))
}

#[test]
fn other_words_are_no_form(rt: HostRuntime) -> Result<(), Fail> {
    assert_eq!(rt; first_form(rt.alloc(), no_forms())?, ("", 29));
    Ok(())
}

// The take of the source that fails or the put of the sink, the word of the status, and how many bytes the sink took.
fn faults() -> &'static str {
    "1 0 read-fault 0
2 0 read-fault 0
30 0 read-fault 0
0 1 write-fault 0
0 2 write-fault 40
0 11 write-fault 400"
}

// Whether a run ends as a row says: with its status, after so many bytes of the whole text.
fn ends_by(alloc: Global, row: &str, script: &str, whole: &str) -> Result<bool, NoRoom> {
    let (take, rest) = row.split_once(' ').unwrap_or((row, ""));
    let (put, rest) = rest.split_once(' ').unwrap_or((rest, ""));
    let (status, taken) = rest.split_once(' ').unwrap_or((rest, ""));
    let limits = Limits {
        failing_take: take.parse::<u64>().unwrap_or(0),
        failing_put: put.parse::<u64>().unwrap_or(0),
        ..QUIET
    };
    let (found, text) = ran(alloc, "run", script, limits)?;
    let is_front = whole.as_bytes().starts_with(text.as_slice());
    Ok(is_front && word_of(found) == status && taken.parse::<usize>() == Ok(text.len()))
}

// The first row that is wrong, or "".
fn first_wrong_fault<'a>(
    alloc: Global,
    rows: &'a str,
    script: &str,
    whole: &str,
) -> Result<&'a str, Fail> {
    for row in rows.split('\n') {
        if !ends_by(alloc, row, script, whole)? {
            return Ok(row);
        }
    }
    Ok("")
}

#[test]
fn a_fault_ends_the_run(rt: HostRuntime) -> Result<(), Fail> {
    let alloc = rt.alloc();
    let script = told(alloc, "", "HEADER\nLOAD 1 https://rp.example/\nGET 1 1")?;
    let whole = told(alloc, "", "WELL_KNOWN_REQUEST 1 3\nCONFIG_REQUEST 1 3")?;
    let wrong = first_wrong_fault(alloc, faults(), script.as_str(), whole.as_str())?;
    assert_eq!(rt; wrong, "");
    Ok(())
}

const SUMMARY: &str =
    "{\"calls\":3,\"dialogs\":2,\"events\":21,\"ignored\":0,\"mix\":509568392,\"out\":\"summary\",\"requests\":12,\"tokens\":3}\n";

// Whether a run whose source and whose second put fail makes a script, and writes this front of its summary.
fn fails_to_write(alloc: Global, front: &[u8]) -> Result<bool, NoRoom> {
    let limits = Limits {
        failing_take: 1,
        failing_put: 2,
        ..QUIET
    };
    let (status, text) = ran(alloc, "make|3", "no script", limits)?;
    Ok(status == Status::WriteFault && text.as_slice() == front)
}

// The source is not read: what it has is no script.
#[test]
fn a_script_is_made(rt: HostRuntime) -> Result<(), Fail> {
    let alloc = rt.alloc();
    assert!(rt; gives(alloc, "make|3", "no script", "done", SUMMARY)?);
    assert!(rt; fails_to_write(alloc, &SUMMARY.as_bytes()[..40])?);
    Ok(())
}

// A run that counts no step, over a source and a sink that never fail.
fn quiet<L: Ledger>(
    alloc: Global,
    blank: Blank,
    words: &[Text],
    script: Vec<u8>,
) -> Result<(Status, u64), NoRoom>
    requires name { blank.name ≡ L.name }
    requires parts { blank.parts ≡ L.parts }
    requires some { 0 < L.parts }
{
    let mut source = QuietSource::new(script);
    let mut sink = QuietSink::new();
    let mut steps: Steps<L> = Steps::new(blank);
    let status = fedcm(alloc, words, &mut source, &mut sink, &mut steps);
    Ok((status, sink.count()))
}

#[test]
fn quiet_ones_are_run_to_the_end(rt: HostRuntime) -> Result<(), Fail> {
    let words = words_of(rt.alloc(), "run")?;
    let script = HEADER.as_bytes().to_vec(rt.alloc())?;
    let (status, count) = quiet::<Brand>(rt.alloc(), Blank::new(1), &words, script)?;
    assert_eq!(rt; status, Status::Done);
    assert_eq!(rt; count, 25);
    Ok(())
}

// A run over a source and a sink in memory that are set to fail nowhere.
fn in_memory<L: Ledger>(
    alloc: Global,
    blank: Blank,
    words: &[Text],
    script: Vec<u8>,
) -> Result<(Status, Vec<u8>), NoRoom>
    requires name { blank.name ≡ L.name }
    requires parts { blank.parts ≡ L.parts }
    requires some { 0 < L.parts }
{
    let source = MemSource::new(script, 7, Vec::new(alloc));
    let sink = MemSink::new(alloc, 4096, 7, Vec::new(alloc))?;
    let mut steps: Steps<L> = Steps::new(blank);
    let (status, sink) = fedcm_in_memory(alloc, words, source, sink, &mut steps);
    Ok((status, sink.taken().to_vec(alloc)?))
}

#[test]
fn memory_takes_the_whole_text(rt: HostRuntime) -> Result<(), Fail> {
    let words = words_of(rt.alloc(), "run")?;
    let script = HEADER.as_bytes().to_vec(rt.alloc())?;
    let (status, text) = in_memory::<Brand>(rt.alloc(), Blank::new(1), &words, script)?;
    assert_eq!(rt; status, Status::Done);
    assert!(rt; text.as_slice() == "{\"events\":0,\"out\":\"end\"}\n".as_bytes());
    Ok(())
}
