//! A run that is fed its script in pieces.
ghost use Rattle.std.specs.Prelude.{◌≡◌, ◌++◌, ◌+◌, ◌≤◌, ◌<◌, ℕ, List, [], length, Some, None, IsSome, IfOk, IfSome, IfNone};
ghost use Rattle.fed_run.specs.Ends.{EndsRun};
ghost use Rattle.fed_run.specs.Fed.{Goes, FedBy};
ghost use Rattle.fed_run.specs.Streams.{IsAt};

use crate::grown::Grown;
use crate::pieces::{put_last, take_piece};
use crate::read::LIMIT;
use crate::status::Status;
use crate::stop::Stop;
use crate::stream::take_end;
use fed_io::Steps;
use fed_print::RecordLines;
use fed_script::ScriptReader;
use fed_session::Session;
use std::alloc::Global;
use std::marker::Brand;
use std::sync::ledger::{Blank, Ledger};

/// A run that is fed its script in pieces, and keeps its transcript. `end` is none while it goes on.
#[derive(Drop)]
pub struct Live {
    alloc: Global,
    pub reader: ScriptReader,
    pub session: Option<Session>,
    lines: RecordLines,
    pub sink: Grown,
    pub count: usize,
    pub end: Option<Status>,
}

// Takes a piece, and answers the end where a line in it is bad.
fn take<L: Ledger>(live: &mut Live, piece: &[u8], blank: Blank) -> Result<Option<Status>, Stop>
    requires name { blank.name ≡ L.name }
    requires parts { blank.parts ≡ L.parts }
    requires some { 0 < L.parts }
    requires at { (bytes : List ℕ) × IsAt live.old.reader live.old.session (Some []) (Some live.old.sink.text.items) bytes
        × (length bytes + length piece.now ≤ 67108864) }
    ensures none { IfOk result (λ end. IfNone end ((bytes : List ℕ)
        → IsAt live.old.reader live.old.session (Some []) (Some live.old.sink.text.items) bytes
        → IsAt live.new.reader live.new.session (Some []) (Some live.new.sink.text.items) (bytes ++ piece.now))) }
    ensures some { IfOk result (λ end. IfSome end (λ status. (bytes more : List ℕ)
        → IsAt live.old.reader live.old.session (Some []) (Some live.old.sink.text.items) bytes
        → length (bytes ++ piece.now) ≤ 67108864
        → EndsRun 67108864 ((bytes ++ piece.now) ++ more) status live.new.sink.text.items)) }
    ensures count { live.new.count ≡ live.old.count }
{
    let mut steps: Steps<L> = Steps::new(blank);
    match take_piece(
        live.alloc,
        &mut live.reader,
        &mut live.session,
        &mut live.sink,
        &mut live.lines,
        &mut steps,
        piece,
    ) {
        Err(stop) => Err(stop),
        Ok(None) => Ok(None),
        Ok(Some(bad)) => match put_last(live.alloc, 0, Some(bad), &mut live.sink) {
            Err(stop) => Err(stop),
            Ok(status) => Ok(Some(status)),
        },
    }
}

// Takes the last line, and the end.
fn close<L: Ledger>(live: &mut Live, blank: Blank) -> Result<Status, Stop>
    requires name { blank.name ≡ L.name }
    requires parts { blank.parts ≡ L.parts }
    requires some { 0 < L.parts }
    requires at { (bytes : List ℕ) × IsAt live.old.reader live.old.session (Some []) (Some live.old.sink.text.items) bytes }
    ensures ok { IfOk result (λ status. (bytes : List ℕ)
        → IsAt live.old.reader live.old.session (Some []) (Some live.old.sink.text.items) bytes
        → length bytes ≤ 67108864 → EndsRun 67108864 bytes status live.new.sink.text.items) }
{
    let mut steps: Steps<L> = Steps::new(blank);
    match take_end(
        live.alloc,
        &mut live.reader,
        &mut live.session,
        &mut live.sink,
        &mut live.lines,
        &mut steps,
    ) {
        Err(stop) => Err(stop),
        Ok(status) => Ok(status),
    }
}

impl Live {
    /// A run that was fed nothing. It takes no memory.
    pub fn new(alloc: Global) -> Live
        ensures { (result.end ≡ None) × Goes result [] }
    {
        Live {
            alloc,
            reader: ScriptReader::new(alloc),
            session: None,
            lines: RecordLines::new(alloc),
            sink: Grown::new(alloc),
            count: 0,
            end: None,
        }
    }

    // Takes the front of a piece, which passes no limit.
    fn feed_front(&mut self, front: &[u8])
        requires { (bytes : List ℕ) × Goes self.old bytes × (length bytes + length front.now ≤ 67108864) }
        ensures none { IfNone self.new.end ((bytes : List ℕ) → Goes self.old bytes → Goes self.new (bytes ++ front.now)) }
        ensures some { IfSome self.new.end (λ status. (bytes more : List ℕ) → Goes self.old bytes
            → FedBy (Some status) self.new ((bytes ++ front.now) ++ more)) }
    {
        match take::<Brand>(self, front, Blank::new(1)) {
            Err(_) => self.end = Some(Status::NoRoom),
            Ok(end) => {
                self.count += front.len();
                self.end = end;
            }
        }
    }

    /// Takes a piece. While the run goes on its text is what the lines say that end in all pieces; with a bad line, and past the limit,
    /// it is all that a run writes for them, and the run is over. After its end, and after want of memory, it takes nothing.
    pub fn feed(&mut self, piece: &[u8])
        requires { self.old.end ≡ None → (bytes : List ℕ) × Goes self.old bytes }
        ensures fed { (bytes : List ℕ) → self.old.end ≡ None → Goes self.old bytes → FedBy self.new.end self.new (bytes ++ piece.now) }
        ensures over { IsSome self.old.end → self.new ≡ self.old }
    {
        if self.end.is_some() {
            return;
        }
        let room = LIMIT.saturating_sub(self.count).min(piece.len());
        self.feed_front(&piece[..room]);
        if self.end.is_none() && room < piece.len() {
            self.end = Some(Status::TooLong);
        }
    }

    /// The pieces are all: the text is the whole transcript, unless there is no memory.
    pub fn finish(&mut self)
        requires { self.old.end ≡ None → (bytes : List ℕ) × Goes self.old bytes }
        ensures fed { (bytes : List ℕ) → self.old.end ≡ None → Goes self.old bytes → FedBy self.new.end self.new bytes }
        ensures over { IsSome self.old.end → self.new ≡ self.old }
        ensures ended { IsSome self.new.end }
    {
        if self.end.is_some() {
            return;
        }
        match close::<Brand>(self, Blank::new(1)) {
            Err(_) => self.end = Some(Status::NoRoom),
            Ok(status) => self.end = Some(status),
        }
    }

    /// What was written up to now. It takes no memory.
    pub fn text(&self) -> &[u8]
        ensures { result.now ≡ self.now.sink.text.items }
    {
        self.sink.text.as_slice()
    }
}
