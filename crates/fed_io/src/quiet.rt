//! A source and a sink in memory that never fail.
ghost use Rattle.std.specs.Prelude.{◌≡◌, ◌<◌, ◌≤◌, Some, None, IfOk, IsOk, length, take, drop, min};
ghost use Rattle.std.specs.Io.{ReadsAtMost, WritesAtMost};
ghost use Rattle.std.specs.Io.KnownBytes.{ReadConsumes, WriteAppends};
ghost use Rattle.fed_io.specs.Io.{HasCause};
ghost use Rattle.fed_io.specs.Quiet.{counted_bytes};

use crate::memory::give;
use crate::{Failed, Sink, Source};
use std::marker::Model;

/// A source over bytes in memory: its count of faults is 0 for good. Contracts see it as the bytes that are left.
#[derive(Drop)]
pub struct QuietSource {
    bytes: Vec<u8>,
    at: usize,
}

impl Model for QuietSource {
    ghost use Rattle.std.specs.Prelude.{List, ℕ, ◌≤◌, drop, length};

    ghost Value = { List ℕ };

    ghost view = { λ s. drop s.at s.bytes.items };

    ghost invariant = { λ s. s.at ≤ length s.bytes.items };
}

impl QuietSource {
    /// A source of these bytes. It takes no memory.
    pub fn new(bytes: Vec<u8>) -> QuietSource
        ensures { result ≡ bytes.items }
    {
        QuietSource { bytes, at: 0 }
    }
}

impl Source for QuietSource {
    ghost left = { λ s. Some s };

    ghost faults = { λ _. 0 };

    fn take(&mut self, buf: &mut [u8]) -> Result<usize, Failed>
        requires { 0 < length buf.old }
        ensures bound { ReadsAtMost result buf.new }
        ensures bytes { ReadConsumes (Some self.old) (Some self.new) result buf.new }
        ensures cause { HasCause 0 0 result }
        ensures never_fails { IsOk result }
        ensures most { IfOk result (λ n. n ≡ min (length buf.old) (length self.old)) }
    {
        let rest = &self.bytes[self.at..];
        let count = give(rest, buf, rest.len());
        self.at += count;
        Ok(count)
    }
}

/// A sink that takes every byte and keeps their number alone: its count of faults is 0 for good. Contracts see it as
/// that number, which stays at the greatest u64.
#[derive(Drop)]
pub struct QuietSink {
    count: u64,
}

impl Model for QuietSink {
    ghost use Rattle.std.specs.Prelude.{ℕ};

    ghost Value = { ℕ };

    ghost view = { λ s. s.count };
}

impl QuietSink {
    /// A sink that has taken nothing. It takes no memory.
    pub fn new() -> QuietSink
        ensures { result ≡ 0 }
    {
        QuietSink { count: 0 }
    }

    /// How many bytes were taken, up to the greatest u64.
    pub fn count(&self) -> u64
        ensures { result ≡ self.now }
    {
        self.count
    }
}

impl Sink for QuietSink {
    ghost taken = { λ _. None };

    ghost faults = { λ _. 0 };

    fn put(&mut self, piece: &[u8]) -> Result<usize, Failed>
        requires { 0 < length piece.now }
        ensures bound { WritesAtMost result piece.now }
        ensures some { IfOk result (λ n. 0 < n) }
        ensures bytes { WriteAppends None None result piece.now }
        ensures cause { HasCause 0 0 result }
        ensures whole { IfOk result (λ n. n ≡ length piece.now) }
        ensures never_fails { IsOk result }
        ensures counted { self.new ≡ counted_bytes self.old (length piece.now) }
    {
        self.count = self.count.saturating_add(piece.len() as u64);
        Ok(piece.len())
    }
}
