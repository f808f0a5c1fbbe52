//! A sink in memory that grows.
ghost use Rattle.std.specs.Prelude.{◌≡◌, ◌<◌, [], Some, IfOk, length};
ghost use Rattle.std.specs.Io.{WritesAtMost};
ghost use Rattle.std.specs.Io.KnownBytes.{WriteAppends};
ghost use Rattle.fed_io.specs.Io.{HasCause};

use fed_io::{Failed, Sink};
use std::alloc::Global;

/// A sink in memory that grows. It fails only where there is no memory.
#[derive(Drop)]
pub struct Grown {
    pub text: Vec<u8>,
    faults: u64,
}

impl Grown {
    /// A sink that took nothing. It takes no memory.
    pub fn new(alloc: Global) -> Grown
        ensures { result.text.items ≡ [] }
    {
        Grown {
            text: Vec::new(alloc),
            faults: 0,
        }
    }
}

impl Sink for Grown {
    ghost taken = { λ s. Some s.text.items };

    ghost faults = { λ s. s.faults };

    fn put(&mut self, piece: &[u8]) -> Result<usize, Failed>
        requires { 0 < length piece.now }
        ensures bound { WritesAtMost result piece.now }
        ensures some { IfOk result (λ n. 0 < n) }
        ensures bytes { WriteAppends (Some self.old.text.items) (Some self.new.text.items) result piece.now }
        ensures cause { HasCause self.old.faults self.new.faults result }
    {
        match self.text.extend_from_slice(piece) {
            Ok(()) => Ok(piece.len()),
            Err(_) => {
                self.faults = self.faults.saturating_add(1);
                Err(Failed)
            }
        }
    }
}
