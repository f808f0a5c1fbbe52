//! A source over bytes that are lent.
ghost use Rattle.std.specs.Prelude.{◌<◌, Some, length};
ghost use Rattle.std.specs.Io.{ReadsAtMost};
ghost use Rattle.std.specs.Io.KnownBytes.{ReadConsumes};
ghost use Rattle.fed_io.specs.Io.{HasCause};

use fed_io::{Failed, Source};

/// A source over bytes that are lent. It never fails.
#[derive(Drop)]
pub struct Lent<'a> {
    pub bytes: &'a [u8],
}

impl<'a> Source for Lent<'a> {
    ghost left = { λ s. Some s.bytes.now };

    ghost faults = { λ _. 0 };

    fn take(&mut self, buf: &mut [u8]) -> Result<usize, Failed>
        requires { 0 < length buf.old }
        ensures bound { ReadsAtMost result buf.new }
        ensures bytes { ReadConsumes (Some self.old.bytes.now) (Some self.new.bytes.now) result buf.new }
        ensures cause { HasCause 0 0 result }
    {
        let count = buf.len().min(self.bytes.len());
        buf[..count].copy_from_slice(&self.bytes[..count]);
        self.bytes = &self.bytes[count..];
        Ok(count)
    }
}
