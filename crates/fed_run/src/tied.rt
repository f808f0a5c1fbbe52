//! The process's own output, tied to its input: what is put is kept, and written at the latest before the next bytes are taken.
ghost use Rattle.std.specs.Prelude.{◌≡◌, ◌<◌, ◌⊎◌, [], None, IfOk, OnOk, length};
ghost use Rattle.std.specs.Io.{ReadsAtMost, WritesAtMost};
ghost use Rattle.std.specs.Io.KnownBytes.{Appends, ReadConsumes, WriteAppends, append_known};
ghost use Rattle.fed_io.specs.Io.{HasCause};

use crate::status::Status;
use fed_io::{Failed, Sink, Source, StdSink, put_all};
use std::alloc::Global;
use std::cell::RefCell;
use std::io::{Read, Write};

// How many bytes are kept at most.
const ROOM: usize = 65536;

/// A writer, and the bytes that were put and are not written yet: at most 65,536. After a write that failed nothing more is written.
#[derive(Drop)]
pub struct Output<W: Write> {
    sink: StdSink<W>,
    kept: Vec<u8>,
    failed: bool,
}

impl<W: Write> Output<W> {
    /// Nothing was put. It takes no memory.
    pub fn new(alloc: Global, writer: W) -> Output<W>
        ensures { (result.sink.inner ≡ writer) × (result.kept.items ≡ []) }
    {
        Output {
            sink: StdSink::new(writer),
            kept: Vec::new(alloc),
            failed: false,
        }
    }

    // Writes a piece behind what is written.
    fn write(&mut self, piece: &[u8]) -> Result<(), Failed>
        ensures written { OnOk result (Appends (W.contents self.old.sink.inner) (W.contents self.new.sink.inner) piece.now) }
        ensures kept { self.new.kept.items ≡ self.old.kept.items }
    {
        match put_all(&mut self.sink, piece) {
            Ok(()) => Ok(()),
            Err(Failed) => {
                self.failed = true;
                Err(Failed)
            }
        }
    }

    /// Writes what is kept. It fails too where a write failed before.
    pub fn flush(&mut self) -> Result<(), Failed>
        ensures written { OnOk result (Appends (W.contents self.old.sink.inner) (W.contents self.new.sink.inner) self.old.kept.items) }
        ensures empty { OnOk result (self.new.kept.items ≡ []) }
    {
        if self.failed {
            return Err(Failed);
        }
        match put_all(&mut self.sink, self.kept.as_slice()) {
            Ok(()) => {
                self.kept.clear();
                Ok(())
            }
            Err(Failed) => {
                self.failed = true;
                Err(Failed)
            }
        }
    }

    /// Keeps a piece, or writes it behind what is kept, where there is no room or no memory for it.
    pub fn put(&mut self, piece: &[u8]) -> Result<(), Failed>
        ensures { OnOk result (Appends (append_known (W.contents self.old.sink.inner) self.old.kept.items)
            (append_known (W.contents self.new.sink.inner) self.new.kept.items) piece.now) }
    {
        if piece.len() <= ROOM.saturating_sub(self.kept.len())
            && self.kept.extend_from_slice(piece).is_ok()
        {
            return Ok(());
        }
        self.flush()?;
        self.write(piece)
    }
}

/// A sink over an output that a source may be tied to. It tells no bytes.
#[derive(Drop)]
pub struct TiedSink<'a, W: Write> {
    output: &'a RefCell<Output<W>>,
    faults: u64,
}

impl<'a, W: Write> TiedSink<'a, W> {
    /// A sink over this output.
    pub fn new(output: &'a RefCell<Output<W>>) -> TiedSink<'a, W> {
        TiedSink { output, faults: 0 }
    }
}

impl<'a, W: Write> Sink for TiedSink<'a, W> {
    ghost taken = { λ _. None };

    ghost faults = { λ s. s.faults };

    fn put(&mut self, piece: &[u8]) -> Result<usize, Failed>
        requires { 0 < length piece.now }
        ensures bound { WritesAtMost result piece.now }
        ensures some { IfOk result (λ n. 0 < n) }
        ensures bytes { WriteAppends None None result piece.now }
        ensures cause { HasCause self.old.faults self.new.faults result }
    {
        if let Ok(mut output) = self.output.try_borrow_mut() {
            if output.put(piece).is_ok() {
                return Ok(piece.len());
            }
        }
        self.faults = self.faults.saturating_add(1);
        Err(Failed)
    }
}

/// A source over a reader: before each read it writes what its output keeps, and it fails where that fails.
#[derive(Drop)]
pub struct TiedSource<'a, R: Read, W: Write> {
    reader: R,
    output: &'a RefCell<Output<W>>,
    faults: u64,
}

impl<'a, R: Read, W: Write> TiedSource<'a, R, W> {
    /// A source over this reader, tied to this output.
    pub fn new(reader: R, output: &'a RefCell<Output<W>>) -> TiedSource<'a, R, W> {
        TiedSource {
            reader,
            output,
            faults: 0,
        }
    }

    // Writes what the output keeps, and reads.
    fn read(&mut self, buf: &mut [u8]) -> Result<usize, Failed>
        requires { 0 < length buf.old }
        ensures bound { ReadsAtMost result buf.new }
        ensures bytes { ReadConsumes (R.remaining self.old.reader) (R.remaining self.new.reader) result buf.new }
        ensures faults { self.new.faults ≡ self.old.faults }
    {
        match self.output.try_borrow_mut() {
            Ok(mut output) => output.flush()?,
            Err(_) => return Err(Failed),
        }
        match self.reader.read(buf) {
            Ok(count) => Ok(count),
            Err(_) => Err(Failed),
        }
    }
}

impl<'a, R: Read, W: Write> Source for TiedSource<'a, R, W> {
    ghost left = { λ s. R.remaining s.reader };

    ghost faults = { λ s. s.faults };

    fn take(&mut self, buf: &mut [u8]) -> Result<usize, Failed>
        requires { 0 < length buf.old }
        ensures bound { ReadsAtMost result buf.new }
        ensures bytes { ReadConsumes (R.remaining self.old.reader) (R.remaining self.new.reader) result buf.new }
        ensures cause { HasCause self.old.faults self.new.faults result }
    {
        match self.read(buf) {
            Ok(count) => Ok(count),
            Err(Failed) => {
                self.faults = self.faults.saturating_add(1);
                Err(Failed)
            }
        }
    }
}

/// How a run over this output ends that ended so: what is kept is written, and a write that failed is answered as one, whenever it
/// was made.
pub fn close<W: Write>(output: &RefCell<Output<W>>, status: Status) -> Status
    ensures { (result ≡ status) ⊎ (result ≡ Status.WriteFault) }
{
    let Ok(mut output) = output.try_borrow_mut() else {
        return Status::WriteFault;
    };
    match output.flush() {
        Ok(()) => status,
        Err(Failed) => Status::WriteFault,
    }
}
