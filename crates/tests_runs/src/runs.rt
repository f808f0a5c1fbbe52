//! Runs of words over a script, and the scenarios of a table.
ghost use Rattle.std.specs.Prelude.{◌≡◌, ◌<◌};

use crate::lines::told;
use fed_io::{MemSink, MemSource, NoRoom, Steps, Text};
use fed_run::{Status, fedcm};
use std::alloc::Global;
use std::marker::Brand;
use std::sync::ledger::{Blank, Ledger};
use std::test::Fail;

/// Words that each end in a bar, which the last of them may lack unless it is empty.
pub fn words_of(alloc: Global, words: &str) -> Result<Vec<Text>, NoRoom> {
    let mut list = Vec::new(alloc);
    for word in words.split_terminator('|') {
        list.push(Text::of(alloc, word)?)?;
    }
    Ok(list)
}

/// How much a source gives and a sink takes in a call, which call of each fails, counted from 1, and how much the sink takes in all.
#[derive(Clone, Copy)]
pub struct Limits {
    pub most_taken: usize,
    pub most_put: usize,
    pub failing_take: u64,
    pub failing_put: u64,
    pub room: usize,
}

/// No call fails.
pub const QUIET: Limits = Limits {
    most_taken: 7,
    most_put: 40,
    failing_take: 0,
    failing_put: 0,
    room: 65_536,
};

// The answer over a source and a sink with these limits, and what the sink took.
fn answer<L: Ledger>(
    alloc: Global,
    blank: Blank,
    words: &[Text],
    script: Vec<u8>,
    limits: Limits,
) -> Result<(Status, Vec<u8>), NoRoom>
    requires taken { 0 < limits.most_taken }
    requires put { 0 < limits.most_put }
    requires name { blank.name ≡ L.name }
    requires parts { blank.parts ≡ L.parts }
    requires some { 0 < L.parts }
{
    let takes = [limits.failing_take].to_vec(alloc)?;
    let puts = [limits.failing_put].to_vec(alloc)?;
    let mut source = MemSource::new(script, limits.most_taken, takes);
    let mut sink = MemSink::new(alloc, limits.room, limits.most_put, puts)?;
    let mut steps: Steps<L> = Steps::new(blank);
    let status = fedcm(alloc, words, &mut source, &mut sink, &mut steps);
    Ok((status, sink.taken().to_vec(alloc)?))
}

/// How a run of these words over a script ends, and what it writes.
pub fn ran(
    alloc: Global,
    words: &str,
    script: &str,
    limits: Limits,
) -> Result<(Status, Vec<u8>), NoRoom>
    requires taken { 0 < limits.most_taken }
    requires put { 0 < limits.most_put }
{
    let words = words_of(alloc, words)?;
    let script = script.as_bytes().to_vec(alloc)?;
    answer::<Brand>(alloc, Blank::new(1), &words, script, limits)
}

/// The word of a status in a table.
pub fn word_of(status: Status) -> &'static str {
    match status {
        Status::Done => "done",
        Status::Usage => "usage",
        Status::BadScript => "bad-script",
        Status::ReadFault => "read-fault",
        Status::WriteFault => "write-fault",
        Status::NotTwins => "not-twins",
        Status::Faulty => "faulty",
        Status::NotSaved => "not-saved",
        Status::Differs => "differs",
        Status::NoRoom | Status::TooLong => "",
    }
}

/// Whether the words and the script give the status of this word, and this transcript.
pub fn gives(
    alloc: Global,
    words: &str,
    script: &str,
    status: &str,
    transcript: &str,
) -> Result<bool, NoRoom> {
    let (found, text) = ran(alloc, words, script, QUIET)?;
    Ok(word_of(found) == status && text.as_slice() == transcript.as_bytes())
}

// Whether the script of a scenario, of which these are the rows below its title, ends as it says.
fn is_right(alloc: Global, words: &str, blocks: &str, rows: &str) -> Result<bool, NoRoom> {
    let (script, end) = rows.split_once("= ").unwrap_or((rows, ""));
    let (status, transcript) = end.split_once('\n').unwrap_or((end, ""));
    let script = told(alloc, blocks, script)?;
    let transcript = told(alloc, blocks, transcript)?;
    gives(alloc, words, script.as_str(), status, transcript.as_str())
}

/// The title of the first scenario that ends otherwise than it says, or "", and how many before it end as they say.
pub fn first_wrong<'a>(
    alloc: Global,
    words: &str,
    blocks: &'a str,
) -> Result<(&'a str, u32), Fail> {
    let mut count: u32 = 0;
    for block in blocks.split("\n\n") {
        let (title, rows) = block.split_once('\n').unwrap_or((block, ""));
        if title.starts_with("# ") {
            if !is_right(alloc, words, blocks, rows)? {
                return Ok((title, count));
            }
            count = count.wrapping_add(1);
        }
    }
    Ok(("", count))
}
