//! The lines of records, one behind the other.
ghost use Rattle.std.specs.Prelude.{◌≡◌, ◌++◌, [], OnOk, OnErr};
ghost use Rattle.fed_print.specs.Lines.{record_line, text_of};

use crate::line_writer::LineWriter;
use crate::records::print_record;
use fed_io::NoRoom;
use fed_trace::Out;
use std::alloc::Global;
use std::marker::Model;

/// The lines of records: of each the compact JSON text of its object, members in byte order of their names, and LF (this profile's
/// own). Contracts see them as their bytes. Their memory is used again.
pub struct RecordLines {
    alloc: Global,
    lines: LineWriter,
}

// Written out, so that one function lets them go wherever they end.
impl Drop for RecordLines {
    fn drop(self) {
        let RecordLines { alloc: _, lines: _ } = self;
    }
}

impl Model for RecordLines {
    ghost use Rattle.std.specs.Prelude.{List, ℕ};

    ghost Value = { List ℕ };

    ghost view = { λ l. l.lines.bytes };
}

impl RecordLines {
    /// No lines. It takes no memory.
    pub fn new(alloc: Global) -> RecordLines
        ensures { result ≡ [] }
    {
        RecordLines {
            alloc,
            lines: LineWriter::new(alloc),
        }
    }

    /// No lines any more. It takes no memory.
    pub fn clear(&mut self)
        ensures { self.new ≡ [] }
    {
        self.lines.clear();
    }

    /// The lines. It takes no memory.
    pub fn as_slice(&self) -> &[u8]
        ensures { result.now ≡ self.now }
    {
        self.lines.as_slice()
    }

    /// Appends the line of a record, as `print` does. On want of memory a part of the line may stand behind the lines.
    pub fn push(&mut self, out: &Out) -> Result<(), NoRoom>
        ensures { OnOk result (self.new ≡ self.old ++ record_line out.now) }
    {
        self.lines.begin_line();
        print_record(self.alloc, &mut self.lines, out)?;
        self.lines.end_line()?;
        Ok(())
    }

    /// Appends the lines of records, in their order. On want of memory a part of them may stand behind the lines.
    pub fn push_all(&mut self, outs: &[Out]) -> Result<(), NoRoom>
        ensures { OnOk result (self.new ≡ self.old ++ text_of outs.now) }
    {
        for out in outs {
            self.push(out)?;
        }
        Ok(())
    }
}

/// Appends the line of a record. On want of memory the text is unchanged.
pub fn print(alloc: Global, out: &Out, text: &mut Vec<u8>) -> Result<(), NoRoom>
    ensures ok { OnOk result (text.new.items ≡ text.old.items ++ record_line out.now) }
    ensures err { OnErr result (text.new.items ≡ text.old.items) }
{
    let mut lines = RecordLines::new(alloc);
    lines.push(out)?;
    text.extend_from_slice(lines.as_slice())?;
    Ok(())
}
