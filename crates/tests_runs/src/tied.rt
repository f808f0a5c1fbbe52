//! The output that is written before the next bytes are taken.
ghost use Rattle.std.specs.Prelude.{◌≡◌, ◌<◌};

use crate::runs::words_of;
use crate::tokens::{sign_up, sign_up_records};
use fed_io::{NoRoom, Sink, Steps};
use fed_run::{Output, Status, TiedSink, TiedSource, close, fedcm};
use std::alloc::Global;
use std::cell::RefCell;
use std::io::{self, Read, Write};
use std::marker::Brand;
use std::sync::ledger::{Blank, Ledger};
use std::test::Fail;

// A reader that gives a line at a time.
#[derive(Drop)]
struct Lines<'a> {
    left: &'a [u8],
}

impl<'a> Read for Lines<'a> {
    fn read(&mut self, buf: &mut [u8]) -> io::Result<usize> {
        let line = match self.left.iter().position(|byte| *byte == b'\n') {
            Some(at) => at.saturating_add(1),
            None => self.left.len(),
        };
        let count = line.min(buf.len()).min(self.left.len());
        let (first, rest) = self.left.split_at(count);
        for (place, byte) in buf.iter_mut().zip(first) {
            *place = *byte;
        }
        self.left = rest;
        Ok(count)
    }
}

// A writer that counts its writes, of which one may fail.
#[derive(Drop)]
struct Counted {
    text: Vec<u8>,
    writes: u32,
    failing: u32,
}

impl Write for Counted {
    fn write(&mut self, buf: &[u8]) -> io::Result<usize> {
        self.writes = self.writes.saturating_add(1);
        if self.writes == self.failing || self.text.extend_from_slice(buf).is_err() {
            return Err(io::Error::from(io::ErrorKind::BrokenPipe));
        }
        Ok(buf.len())
    }

    fn flush(&mut self) -> io::Result<()> {
        Ok(())
    }
}

// How a run over a script ends that comes line by line, where the write of a number fails, what is written, and by how many writes.
fn ran_by<L: Ledger>(
    alloc: Global,
    blank: Blank,
    script: Vec<u8>,
    failing: u32,
) -> Result<(Status, Vec<u8>, u32), NoRoom>
    requires name { blank.name ≡ L.name }
    requires parts { blank.parts ≡ L.parts }
    requires some { 0 < L.parts }
{
    let words = words_of(alloc, "run")?;
    let mut written = Counted {
        text: Vec::new(alloc),
        writes: 0,
        failing,
    };
    let output = RefCell::new(Output::new(alloc, &mut written));
    let reader = Lines {
        left: script.as_slice(),
    };
    let mut source = TiedSource::new(reader, &output);
    let mut sink = TiedSink::new(&output);
    let mut steps: Steps<L> = Steps::new(blank);
    let status = fedcm(alloc, &words, &mut source, &mut sink, &mut steps);
    let status = close(&output, status);
    drop(output);
    Ok((status, written.text, written.writes))
}

// A sign-up that comes so.
fn ran_tied(alloc: Global, failing: u32) -> Result<(Status, Vec<u8>, u32), NoRoom> {
    let script = sign_up(alloc)?.as_str().as_bytes().to_vec(alloc)?;
    ran_by::<Brand>(alloc, Blank::new(1), script, failing)
}

// Seven lines of a sign-up have records, one of them two; the end is written at the end.
#[test]
fn records_are_written_before_the_next_line_is_taken(rt: HostRuntime) -> Result<(), Fail> {
    let whole = sign_up_records(rt.alloc())?;
    let (status, text, writes) = ran_tied(rt.alloc(), 0)?;
    assert_eq!(rt; status, Status::Done);
    assert_eq!(rt; writes, 8);
    assert_eq!(rt; text.as_slice(), whole.as_str().as_bytes());
    Ok(())
}

// How many bytes are written where a write fails, unless the run ends otherwise than so, or what is written is no front.
fn written_at(alloc: Global, failing: u32, whole: &str) -> Result<Option<usize>, NoRoom> {
    let (status, text, writes) = ran_tied(alloc, failing)?;
    let is_front = whole.as_bytes().starts_with(text.as_slice());
    let is_told = status == Status::WriteFault && writes == failing;
    Ok((is_told && is_front).then_some(text.len()))
}

// Each of the writes fails in turn, the one at the end too: nothing more is written.
#[test]
fn a_write_that_fails_is_told(rt: HostRuntime) -> Result<(), Fail> {
    let whole = sign_up_records(rt.alloc())?;
    let mut before = None;
    for failing in 1..=8u32 {
        let written = written_at(rt.alloc(), failing, whole.as_str())?;
        assert!(rt; before < written);
        before = written;
    }
    Ok(())
}

// What has no room behind what is kept is written after it.
#[test]
fn a_long_piece_is_written_after_what_is_kept(rt: HostRuntime) -> Result<(), Fail> {
    let alloc = rt.alloc();
    let mut written = Counted {
        text: Vec::new(alloc),
        writes: 0,
        failing: 0,
    };
    let output = RefCell::new(Output::new(alloc, &mut written));
    let mut sink = TiedSink::new(&output);
    let long = vec![in alloc; b'l'; 65_536]?;
    assert_eq!(rt; sink.put(b"k"), Ok(1));
    assert_eq!(rt; sink.put(long.as_slice()), Ok(65_536));
    assert_eq!(rt; close(&output, Status::Done), Status::Done);
    drop(output);
    assert_eq!(rt; written.writes, 2);
    assert_eq!(rt; written.text.len(), 65_537);
    assert!(rt; written.text.as_slice().starts_with(b"kl"));
    Ok(())
}
