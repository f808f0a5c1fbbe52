//! Reading the input.
ghost use Rattle.std.specs.Prelude.{◌≡◌, ◌≤◌, ◌<◌, ◌+◌, length, IfOk, IsErrOf};
ghost use Rattle.std.specs.Io.KnownBytes.{Consumes, IsAtEnd};
ghost use Rattle.fed_io.specs.Io.{Rose};
ghost use Rattle.fed_run.specs.Run.{TakesAtMost};
ghost use Rattle.fed_run.specs.declared.read.ReadEnd.TheVariants.{NoRoom as no_room};

use fed_io::Source;
use std::alloc::{AllocError, Global};

/// The most bytes of an input: 67,108,864.
pub const LIMIT: usize = 67_108_864;

/// So many bytes are asked of the source at a time: 16,384. The profile allows pieces of 65,536; what is asked for stands in memory.
pub const PIECE: usize = 16_384;

/// Why the input was not read.
#[derive(Clone, Copy, Debug, PartialEq, Eq)]
pub enum ReadEnd {
    Fault,
    NoRoom,
}

impl From<AllocError> for ReadEnd {
    ghost from_gives = { λ _ e. e ≡ no_room };

    fn from(_: AllocError) -> ReadEnd {
        ReadEnd::NoRoom
    }
}

/// Reads the source to its end, or up to one byte more than the limit.
pub fn read_all<S: Source>(alloc: Global, source: &mut S) -> Result<Vec<u8>, ReadEnd>
    ensures bytes { IfOk result (λ bytes. Consumes (S.left source.old) (S.left source.new) bytes.items) }
    ensures end { IfOk result (λ bytes. length bytes.items ≤ LIMIT → IsAtEnd (S.left source.new)) }
    ensures limit { IfOk result (λ bytes. length bytes.items ≤ LIMIT + 1) }
    ensures takes { TakesAtMost (S.left source.old) (S.left source.new) (LIMIT + 1) }
    ensures later { S.faults source.old ≤ S.faults source.new }
    ensures fault { IsErrOf result ReadEnd.Fault → Rose (S.faults source.old) (S.faults source.new) }
{
    let mut bytes = Vec::new(alloc);
    let mut buffer = [0u8; PIECE];
    while bytes.len() <= LIMIT {
        let room = (LIMIT + 1 - bytes.len()).min(PIECE);
        match source.take(&mut buffer[..room]) {
            Err(_) => return Err(ReadEnd::Fault),
            Ok(0) => return Ok(bytes),
            Ok(n) => bytes.extend_from_slice(&buffer[..n])?,
        }
    }
    Ok(bytes)
}
