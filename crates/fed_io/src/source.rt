//! Where bytes come from, and where they go.
ghost use Rattle.std.specs.Prelude.{◌<◌, ℕ, List, length, Option, IfOk, OnErr};
ghost use Rattle.std.specs.Io.{ReadsAtMost, WritesAtMost};
ghost use Rattle.std.specs.Io.KnownBytes.{ReadConsumes, WriteAppends};
ghost use Rattle.fed_io.specs.Io.{PutsAll, AppendsLess, HasCause};

use crate::Failed;

/// Where bytes come from.
pub trait Source {
    // The bytes that are left, where they are told.
    ghost left: { Self → Option (List ℕ) };

    // How often the source has failed: it never falls.
    ghost faults: { Self → ℕ };

    /// Puts the next bytes at the front of `buf`, and answers how many. `Ok(0)` is the end. Where it fails nothing was
    /// taken, and the count of faults rose.
    fn take(&mut self, buf: &mut [u8]) -> Result<usize, Failed>
        requires { 0 < length buf.old }
        ensures bound { ReadsAtMost result buf.new }
        ensures bytes { ReadConsumes (left self.old) (left self.new) result buf.new }
        ensures cause { HasCause (faults self.old) (faults self.new) result };
}

/// Where bytes go.
pub trait Sink {
    // The bytes that were taken, where they are told.
    ghost taken: { Self → Option (List ℕ) };

    // How often the sink has failed: it never falls.
    ghost faults: { Self → ℕ };

    /// Takes the front of the piece, at least one byte, and answers how many. Where it fails nothing was taken, and the
    /// count of faults rose.
    fn put(&mut self, piece: &[u8]) -> Result<usize, Failed>
        requires { 0 < length piece.now }
        ensures bound { WritesAtMost result piece.now }
        ensures some { IfOk result (λ n. 0 < n) }
        ensures bytes { WriteAppends (taken self.old) (taken self.new) result piece.now }
        ensures cause { HasCause (faults self.old) (faults self.new) result };
}

/// Puts all the bytes. Where the sink fails a front of them was taken. It takes no memory.
pub fn put_all<K: Sink>(sink: &mut K, bytes: &[u8]) -> Result<(), Failed>
    ensures bytes { PutsAll (K.taken sink.old) (K.taken sink.new) result bytes.now }
    // A sink that failed did not take all.
    ensures less { OnErr result (AppendsLess (K.taken sink.old) (K.taken sink.new) bytes.now) }
    ensures cause { HasCause (K.faults sink.old) (K.faults sink.new) result }
{
    let mut at = 0;
    while at < bytes.len() {
        at += sink.put(&bytes[at..])?;
    }
    Ok(())
}
