//! What replies are read from, from one reply to the next.

use crate::JsonBuffer;
use fed_io::NoRoom;
use std::alloc::Global;
use std::cell::Cell;

// The most bytes of a reply after which what it was read from is kept.
const MOST_BYTES: usize = 16_384;

/// What replies are read from, kept from one reply to the next, so that its 16 KB are not filled with zeros for each. It is lent to
/// one reader at a time. Contracts see nothing of it, and no answer hangs on it.
#[derive(Drop)]
pub struct ReplyMemory {
    // None before the first reply, and while it is lent.
    kept: Cell<Option<Box<JsonBuffer>>>,
}

impl ReplyMemory {
    /// Before the first reply. It takes no memory.
    pub fn new() -> ReplyMemory {
        ReplyMemory {
            kept: Cell::new(None),
        }
    }

    /// Lends what a reply is read from.
    pub fn lend(&self, alloc: Global) -> Result<Box<JsonBuffer>, NoRoom> {
        match self.kept.replace(None) {
            Some(buffer) => Ok(buffer),
            None => new_buffer(alloc),
        }
    }

    /// Takes back what this reply was read from. After a reply of more than 16,384 bytes it is let go, since it grew with it.
    pub fn take_back(&self, raw: &[u8], buffer: Box<JsonBuffer>) {
        if raw.len() <= MOST_BYTES {
            self.kept.set(Some(buffer));
        }
    }
}

#[inline(never)]
fn new_buffer(alloc: Global) -> Result<Box<JsonBuffer>, NoRoom> {
    Ok(Box::new(alloc, JsonBuffer::new(alloc))?)
}
