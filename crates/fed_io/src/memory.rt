//! A source and a sink in memory, which fail where they are told to.
ghost use Rattle.std.specs.Prelude.{◌≡◌, ◌+◌, ◌<◌, ◌≤◌, vec_len, vec_capacity, ◌↔◌, ◌⊎◌, ◌++◌, [], min, length, take, drop, Some, IfOk};
ghost use Rattle.std.specs.Prelude.{IsErr, Contains};
ghost use Rattle.std.specs.Io.{ReadsAtMost, WritesAtMost};
ghost use Rattle.std.specs.Io.KnownBytes.{ReadConsumes, WriteAppends};
ghost use Rattle.fed_io.specs.Io.{HasCause, counted};
ghost use Rattle.fed_io.specs.Memory.{source_after, sink_after};

use crate::{Failed, NoRoom, Sink, Source};
use std::alloc::Global;
use std::marker::Model;

/// A source over bytes in memory that gives at most so many bytes a call and fails the calls with the numbers in
/// `fail`, counted from 1. Contracts see it as a `MemorySource`.
#[derive(Drop)]
pub struct MemSource {
    bytes: Vec<u8>,
    at: usize,
    most: usize,
    fail: Vec<u64>,
    calls: u64,
    faults: u64,
}

impl Model for MemSource {
    ghost use Rattle.std.specs.Prelude.{◌≤◌, ◌<◌, drop, length};
    ghost use Rattle.fed_io.specs.Memory.{MemorySource};

    ghost Value = { MemorySource };

    ghost view = { λ s. record { left = drop s.at s.bytes.items; most = s.most; fail = s.fail.items; calls = s.calls; faults = s.faults } };

    ghost invariant = { λ s. (s.at ≤ length s.bytes.items) × (0 < s.most) };
}

impl MemSource {
    /// A source of these bytes. It takes no memory.
    pub fn new(bytes: Vec<u8>, most: usize, fail: Vec<u64>) -> MemSource
        requires { 0 < most }
        ensures { result ≡ record { left = bytes.items; most = most; fail = fail.items; calls = 0; faults = 0 } }
    {
        MemSource {
            bytes,
            at: 0,
            most,
            fail,
            calls: 0,
            faults: 0,
        }
    }
}

impl Source for MemSource {
    ghost left = { λ s. Some s.left };

    ghost faults = { λ s. s.faults };

    fn take(&mut self, buf: &mut [u8]) -> Result<usize, Failed>
        requires { 0 < length buf.old }
        ensures bound { ReadsAtMost result buf.new }
        ensures bytes { ReadConsumes (Some self.old.left) (Some self.new.left) result buf.new }
        ensures cause { HasCause self.old.faults self.new.faults result }
        ensures fails { IsErr result ↔ Contains self.old.fail (counted self.old.calls) }
        ensures most { IfOk result (λ n. n ≡ min (min self.old.most (length buf.old)) (length self.old.left)) }
        ensures frame { self.new ≡ source_after self.old result }
    {
        self.calls = raised(self.calls);
        if self.fail.contains(&self.calls) {
            self.faults = raised(self.faults);
            return Err(Failed);
        }
        let count = give(&self.bytes[self.at..], buf, self.most);
        self.at += count;
        Ok(count)
    }
}

/// A sink in memory that takes at most so many bytes a call, and so many in all, and fails the calls with the numbers
/// in `fail`, counted from 1. Contracts see it as a `MemorySink`.
#[derive(Drop)]
pub struct MemSink {
    taken: Vec<u8>,
    room: usize,
    most: usize,
    fail: Vec<u64>,
    calls: u64,
    faults: u64,
}

impl Model for MemSink {
    ghost use Rattle.std.specs.Prelude.{◌≤◌, ◌<◌, ◌-◌, ◌+◌, length, vec_len, vec_capacity};
    ghost use Rattle.fed_io.specs.Memory.{MemorySink};

    ghost Value = { MemorySink };

    ghost view = { λ s. record { taken = s.taken.items; room = s.room; most = s.most; fail = s.fail.items; calls = s.calls; faults = s.faults } };

    ghost invariant = { λ s. (vec_len s.taken + s.room ≤ vec_capacity s.taken) × (0 < s.most) };
}

impl MemSink {
    /// A sink with room for so many bytes, whose memory is taken here.
    pub fn new(alloc: Global, room: usize, most: usize, fail: Vec<u64>) -> Result<MemSink, NoRoom>
        requires { 0 < most }
        ensures { IfOk result (λ s. s ≡ record { taken = []; room = room; most = most; fail = fail.items; calls = 0; faults = 0 }) }
    {
        Ok(MemSink {
            taken: Vec::with_capacity(alloc, room)?,
            room,
            most,
            fail,
            calls: 0,
            faults: 0,
        })
    }

    /// The bytes that were taken.
    pub fn taken(&self) -> &[u8]
        ensures { result.now ≡ self.now.taken }
    {
        self.taken.as_slice()
    }
}

impl Sink for MemSink {
    ghost taken = { λ s. Some s.taken };

    ghost faults = { λ s. s.faults };

    fn put(&mut self, piece: &[u8]) -> Result<usize, Failed>
        requires { 0 < length piece.now }
        ensures bound { WritesAtMost result piece.now }
        ensures some { IfOk result (λ n. 0 < n) }
        ensures bytes { WriteAppends (Some self.old.taken) (Some self.new.taken) result piece.now }
        ensures cause { HasCause self.old.faults self.new.faults result }
        ensures fails { IsErr result ↔ (Contains self.old.fail (counted self.old.calls) ⊎ (self.old.room ≡ 0)) }
        ensures most { IfOk result (λ n. n ≡ min (min self.old.most (length piece.now)) self.old.room) }
        ensures frame { self.new ≡ sink_after self.old piece.now result }
    {
        self.calls = raised(self.calls);
        if self.room == 0 || self.fail.contains(&self.calls) {
            self.faults = raised(self.faults);
            return Err(Failed);
        }
        let count = self.most.min(piece.len()).min(self.room);
        push_all(&mut self.taken, &piece[..count]);
        self.room -= count;
        Ok(count)
    }
}

// Copies the front of `from` to the front of `buf`, at most so many bytes, and answers how many.
pub(crate) fn give(from: &[u8], buf: &mut [u8], most: usize) -> usize
    ensures count { result ≡ min (min most (length buf.old)) (length from.now) }
    ensures front { from.now ≡ take result buf.new ++ drop result from.now }
{
    let count = most.min(buf.len()).min(from.len());
    buf[..count].copy_from_slice(&from[..count]);
    count
}

// Adds the bytes, for which there is room.
fn push_all(to: &mut Vec<u8>, bytes: &[u8])
    requires { vec_len to.old + length bytes.now ≤ vec_capacity to.old }
    ensures items { to.new.items ≡ to.old.items ++ bytes.now }
    ensures capacity { vec_capacity to.old ≤ vec_capacity to.new }
{
    let _ = to.extend_from_slice(bytes);
}

// A count after one more, which stays at the greatest u64.
pub(crate) fn raised(count: u64) -> u64
    ensures { result ≡ counted count }
{
    count.saturating_add(1)
}
