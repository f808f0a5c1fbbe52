//! The program over a source and a sink in memory that are set to fail nowhere: no fault comes.
ghost use Rattle.std.specs.Prelude.{◌≡◌, ◌<◌, ◌+◌, ◌⊎◌, ℕ, [], length, Some, IsSome, IfOk};
ghost use Rattle.std.specs.Io.{ReadsAtMost, WritesAtMost};
ghost use Rattle.std.specs.Io.KnownBytes.{ReadConsumes, WriteAppends};
ghost use Rattle.fed_io.specs.Io.{HasCause};
ghost use Rattle.fed_run.specs.Ends.{Writes};
ghost use Rattle.fed_run.specs.Memory.{HasRoomFor};
ghost use Rattle.fed_run.specs.Words.{form_of as form};

use crate::read::LIMIT;
use crate::status::Status;
use crate::top::fedcm;
use fed_io::{Failed, MemSink, MemSource, Sink, Source, Steps, Text};
use std::alloc::Global;
use std::marker::{Brand, Model, PhantomData};
use std::sync::ledger::Ledger;

/// How many bytes a sink takes in all.
trait Capacity {
    ghost bytes: { ℕ };
}

impl Capacity for Brand {
    ghost bytes = { 0 };
}

// A source in memory that is set to fail nowhere, and has not failed.
#[derive(Drop)]
struct CalmSource {
    inner: MemSource,
}

impl Model for CalmSource {
    ghost use Rattle.std.specs.Prelude.{◌≡◌, []};
    ghost use Rattle.fed_io.specs.Memory.{MemorySource};

    ghost Value = { MemorySource };

    ghost view = { λ s. s.inner };

    ghost invariant = { λ s. (s.inner.fail ≡ []) × (s.inner.faults ≡ 0) };
}

impl Source for CalmSource {
    ghost left = { λ s. Some s.left };

    ghost faults = { λ s. s.faults };

    fn take(&mut self, buf: &mut [u8]) -> Result<usize, Failed>
        requires { 0 < length buf.old }
        ensures bound { ReadsAtMost result buf.new }
        ensures bytes { ReadConsumes (Some self.old.left) (Some self.new.left) result buf.new }
        ensures cause { HasCause self.old.faults self.new.faults result }
    {
        self.inner.take(buf)
    }
}

// A sink in memory that is set to fail nowhere, and has not failed before it was full. Its capacity stays, so that a caller of
// the sink knows from the bytes taken whether it is full.
#[derive(Drop)]
struct CalmSink<C: Capacity> {
    inner: MemSink,
    of: PhantomData<C>,
}

impl<C: Capacity> Model for CalmSink<C> {
    ghost use Rattle.std.specs.Prelude.{◌≡◌, ◌+◌, ◌⊎◌, [], length};
    ghost use Rattle.fed_io.specs.Memory.{MemorySink};

    ghost Value = { MemorySink };

    ghost view = { λ s. s.inner };

    ghost invariant = { λ s. (s.inner.fail ≡ []) × (length s.inner.taken + s.inner.room ≡ C.bytes)
        × ((s.inner.faults ≡ 0) ⊎ (s.inner.room ≡ 0)) };
}

impl<C: Capacity> Sink for CalmSink<C> {
    ghost taken = { λ s. Some s.taken };

    ghost faults = { λ s. s.faults };

    fn put(&mut self, piece: &[u8]) -> Result<usize, Failed>
        requires { 0 < length piece.now }
        ensures bound { WritesAtMost result piece.now }
        ensures some { IfOk result (λ n. 0 < n) }
        ensures bytes { WriteAppends (Some self.old.taken) (Some self.new.taken) result piece.now }
        ensures cause { HasCause self.old.faults self.new.faults result }
    {
        self.inner.put(piece)
    }
}

/// `fedcm` over a source and a sink in memory that are set to fail nowhere and have not failed. Where the sink has room for the
/// text, the form ends as its bytes say and the whole text is written, unless memory runs out.
pub fn fedcm_in_memory<L: Ledger>(
    alloc: Global,
    words: &[Text],
    source: MemSource,
    sink: MemSink,
    steps: &mut Steps<L>,
) -> (Status, MemSink)
    requires calm_source { (source.fail ≡ []) × (source.faults ≡ 0) }
    requires calm_sink { (sink.fail ≡ []) × (sink.faults ≡ 0) }
    ensures complete { IsSome (form words.now) → HasRoomFor LIMIT (form words.now) source.left sink.room
        → Writes LIMIT (form words.now) source.left result.0 (Some sink.taken) (Some result.1.taken) ⊎ (result.0 ≡ Status.NoRoom) }
{
    calmly::<Brand, L>(alloc, words, source, sink, steps)
}

// The same, of a sink of this capacity.
fn calmly<C: Capacity, L: Ledger>(
    alloc: Global,
    words: &[Text],
    source: MemSource,
    sink: MemSink,
    steps: &mut Steps<L>,
) -> (Status, MemSink)
    requires calm_source { (source.fail ≡ []) × (source.faults ≡ 0) }
    requires calm_sink { (sink.fail ≡ []) × (sink.faults ≡ 0) }
    requires capacity { length sink.taken + sink.room ≡ C.bytes }
    ensures complete { IsSome (form words.now) → HasRoomFor LIMIT (form words.now) source.left sink.room
        → Writes LIMIT (form words.now) source.left result.0 (Some sink.taken) (Some result.1.taken) ⊎ (result.0 ≡ Status.NoRoom) }
{
    let mut source = CalmSource { inner: source };
    let mut sink: CalmSink<C> = CalmSink {
        inner: sink,
        of: PhantomData,
    };
    let status = fedcm(alloc, words, &mut source, &mut sink, steps);
    (status, sink.inner)
}
