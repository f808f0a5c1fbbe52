//! A reader of a script that comes in pieces.
ghost use Rattle.std.specs.Prelude.{◌≡◌, ◌+◌, ◌++◌, ◌^◌, ◌-◌, ◌<◌, ◌∷◌, [], length, nat_lt, nat_eq, true, false, Some, None};
ghost use Rattle.std.specs.Prelude.{IfOk, OnOk, OnErr, IsErr, IfSome, IfNone};
ghost use Rattle.std.specs.Option.{option_to_list};
ghost use Rattle.fed_script.specs.Reader.{read_as, used_by, used_past, events_read, phase_after, fresh, LineMayFollow};
ghost use Rattle.fed_script.specs.Reader.{HasRead, HasRoom, Feeds, ReadsLine, ReadsNoLine, Finishes};

use crate::bytes::cut;
use crate::cause::LineCause;
use crate::event::Line;
use crate::reading::Reading;
use fed_io::{Items, NoRoom};
use std::alloc::Global;
use std::marker::Model;

// How much memory, in bytes, stays for the lines that the ends of pieces cut.
const STAYS: usize = 16_384;

/// A reader of a script that comes in pieces, which may end anywhere. Of the bytes it keeps those alone that follow the
/// last line end. It reads the lines as `read_script` does: the first as the header, each later one as blank or as an
/// event, up to the first bad one. After want of memory it answers that from then on.
pub struct ScriptReader {
    rest: Vec<u8>,
    reading: Reading,
    alive: bool,
    alloc: Global,
}

// Written out, so that one function lets it go wherever it ends.
impl Drop for ScriptReader {
    fn drop(self) {
        let ScriptReader {
            rest: _,
            reading: _,
            alive: _,
            alloc: _,
        } = self;
    }
}

impl Model for ScriptReader {
    ghost use Rattle.fed_script.specs.Reader.{ReaderParts};

    ghost Value = { ReaderParts };

    ghost view = { λ r. record { rest = r.rest.items; phase = r.reading; alive = r.alive } };
}

// The line, if there is one, as a list.
fn list_of(alloc: Global, found: Option<Line>) -> Result<Items<Line>, NoRoom>
    ensures { IfOk result (λ lines. lines ≡ option_to_list found) }
{
    let mut lines = Items::new(alloc);
    match found {
        Some(line) => {
            lines.push(line)?;
            Ok(lines)
        }
        None => Ok(lines),
    }
}

impl ScriptReader {
    /// A reader that was fed nothing. It takes no memory.
    pub fn new(alloc: Global) -> ScriptReader
        ensures value { result ≡ record { rest = []; phase = fresh; alive = true } }
        ensures read { HasRead result [] }
    {
        ScriptReader {
            rest: Vec::new(alloc),
            reading: Reading::new(),
            alive: true,
            alloc,
        }
    }

    /// Reads a piece, and gives the lines that end in it, in their order, up to and with the first bad one. After a bad
    /// line, and after `finish`, it reads nothing and gives no line. All pieces together have at most 67,108,865 bytes.
    pub fn feed(&mut self, piece: &[u8]) -> Result<Items<Line>, NoRoom>
        requires few { HasRoom self.old (length piece.now) }
        ensures lines { IfOk result (Feeds self.old self.new piece.now) }
        ensures over { self.old.phase.over ≡ true → IfOk result (λ lines. lines ≡ []) }
        ensures stays_over { self.old.phase.over ≡ true → OnOk result (self.new.phase.over ≡ true) }
        ensures dead { OnErr result (self.new.alive ≡ false) }
        ensures stays_dead { self.old.alive ≡ false → IsErr result }
    {
        if !self.alive {
            return Err(NoRoom);
        }
        self.set_alive(false);
        let lines = self.read_piece(piece)?;
        self.set_alive(true);
        Ok(lines)
    }

    /// The pieces are all: gives the last line, where it lacks its line end, and a bad one where there was no byte at
    /// all. From then on nothing more is read.
    pub fn finish(&mut self) -> Result<Items<Line>, NoRoom>
        ensures lines { IfOk result (Finishes self.old) }
        ensures none { self.old.phase.over ≡ true → IfOk result (λ lines. lines ≡ []) }
        ensures over { OnOk result (self.new.phase.over ≡ true) }
        ensures dead { OnErr result (self.new.alive ≡ false) }
        ensures stays_dead { self.old.alive ≡ false → IsErr result }
    {
        let found = self.last()?;
        self.listed(found)
    }

    /// `feed` by single lines, so that a caller keeps no more than one: reads the next line that ends in the piece, and
    /// gives it with the bytes after it, which are to be given next. None where no line ends in the piece, or nothing
    /// more is read; then the whole piece was read.
    pub fn next<'a>(&mut self, piece: &'a [u8]) -> Result<Option<(Line, &'a [u8])>, NoRoom>
        requires few { HasRoom self.old (length piece.now) }
        ensures some { IfOk result (λ found. IfSome found (λ cut. ReadsLine self.old self.new piece.now cut.1.now cut.0)) }
        ensures none { IfOk result (λ found. IfNone found (ReadsNoLine self.old self.new piece.now)) }
        ensures shorter { IfOk result (λ found. IfSome found (λ cut. length cut.1.now < length piece.now)) }
        ensures follows { IfOk result (λ found. IfSome found (λ cut. LineMayFollow self.old.phase.used cut.0)) }
        ensures over { self.old.phase.over ≡ true → IfOk result (λ found. found ≡ None) }
        ensures dead { OnErr result (self.new.alive ≡ false) }
        ensures stays_dead { self.old.alive ≡ false → IsErr result }
    {
        if !self.alive {
            return Err(NoRoom);
        }
        self.set_alive(false);
        let found = self.read(piece)?;
        self.set_alive(true);
        Ok(found)
    }

    /// `finish` for a caller that keeps no list of lines: gives the last line, if there is one.
    pub fn last(&mut self) -> Result<Option<Line>, NoRoom>
        ensures lines { IfOk result (λ found. Finishes self.old (option_to_list found)) }
        ensures none { self.old.phase.over ≡ true → IfOk result (λ found. found ≡ None) }
        ensures follows { IfOk result (λ found. IfSome found (LineMayFollow self.old.phase.used)) }
        ensures used { IfOk result (λ found. self.new.phase.used ≡ used_past found self.old.phase.used) }
        ensures over { OnOk result (self.new.phase.over ≡ true) }
        ensures dead { OnErr result (self.new.alive ≡ false) }
        ensures stays_dead { self.old.alive ≡ false → IsErr result }
    {
        if !self.alive {
            return Err(NoRoom);
        }
        self.set_alive(false);
        let found = self.read_last()?;
        self.end();
        self.set_alive(true);
        Ok(found)
    }

    /// How many events were read.
    pub fn events(&self) -> u32
        ensures { result ≡ events_read self.now.phase.used }
    {
        self.reading.events()
    }

    fn set_alive(&mut self, alive: bool)
        ensures { self.new ≡ record self.old { alive = alive } }
    {
        self.alive = alive;
    }

    // From now on nothing more is read.
    fn end(&mut self)
        ensures over { self.new.phase.over ≡ true }
        ensures used { self.new.phase.used ≡ self.old.phase.used }
        ensures alive { self.new.alive ≡ self.old.alive }
    {
        self.reading.end();
    }

    // Whether nothing more is read.
    fn is_over(&self) -> bool
        ensures { result ≡ self.now.phase.over }
    {
        self.reading.is_over()
    }

    // Whether bytes are kept.
    fn keeps_some(&self) -> bool
        ensures { result ≡ nat_lt 0 (length self.now.rest) }
    {
        !self.rest.is_empty()
    }

    // Whether no line was read.
    fn is_fresh(&self) -> bool
        ensures { result ≡ nat_eq self.now.phase.number 1 }
    {
        self.reading.is_fresh()
    }

    // Keeps bytes in which no line ends.
    fn keep(&mut self, piece: &[u8]) -> Result<(), NoRoom>
        ensures rest { OnOk result (self.new.rest ≡ self.old.rest ++ piece.now) }
        ensures phase { self.new.phase ≡ self.old.phase }
        ensures alive { self.new.alive ≡ self.old.alive }
    {
        self.rest.extend_from_slice(piece)?;
        Ok(())
    }

    // Reads the line of what is kept and then these bytes. A line that lies in one piece is read where it stands; only
    // one that a piece's end cuts is put together, in memory that stays where the line is not long.
    fn read_line(&mut self, bytes: &[u8]) -> Result<Line, NoRoom>
        requires few { self.old.phase.number < 2 ^ 32 - 1 }
        ensures line { IfOk result (λ found. found ≡ read_as self.old.phase (self.old.rest ++ bytes.now)) }
        ensures phase { IfOk result (λ found. self.new.phase ≡ phase_after self.old.phase found) }
        ensures rest { OnOk result (self.new.rest ≡ []) }
        ensures follows { IfOk result (LineMayFollow self.old.phase.used) }
        ensures alive { self.new.alive ≡ self.old.alive }
    {
        if self.rest.is_empty() {
            return self.reading.take(self.alloc, bytes);
        }
        self.rest.extend_from_slice(bytes)?;
        let found = self.reading.take(self.alloc, self.rest.as_slice())?;
        self.let_go();
        Ok(found)
    }

    // Keeps no bytes. The memory of a long line goes, so that it does not stand while its event is taken.
    fn let_go(&mut self)
        ensures rest { self.new.rest ≡ [] }
        ensures phase { self.new.phase ≡ self.old.phase }
        ensures alive { self.new.alive ≡ self.old.alive }
    {
        if self.rest.capacity() > STAYS {
            self.rest = Vec::new(self.alloc);
        } else {
            self.rest.clear();
        }
    }

    // Reads the next line that ends in the piece, or keeps the piece.
    fn read<'a>(&mut self, piece: &'a [u8]) -> Result<Option<(Line, &'a [u8])>, NoRoom>
        requires few { self.old.phase.over ≡ false → self.old.phase.number < 2 ^ 32 - 1 }
        ensures some { IfOk result (λ found. IfSome found (λ cut. ReadsLine self.old self.new piece.now cut.1.now cut.0)) }
        ensures none { IfOk result (λ found. IfNone found (ReadsNoLine self.old self.new piece.now)) }
        ensures shorter { IfOk result (λ found. IfSome found (λ cut. length cut.1.now < length piece.now)) }
        ensures follows { IfOk result (λ found. IfSome found (λ cut. LineMayFollow self.old.phase.used cut.0)) }
        ensures going { IfOk result (λ found. IfSome found (λ cut. self.old.phase.over ≡ false)) }
        ensures alive { self.new.alive ≡ self.old.alive }
    {
        if self.is_over() {
            return Ok(None);
        }
        match cut(piece) {
            Some((line, further)) => {
                let found = self.read_line(line)?;
                Ok(Some((found, further)))
            }
            None => {
                self.keep(piece)?;
                Ok(None)
            }
        }
    }

    // Reads a piece, and gives the lines that end in it.
    fn read_piece(&mut self, piece: &[u8]) -> Result<Items<Line>, NoRoom>
        requires few { self.old.phase.over ≡ false → self.old.phase.number + length piece.now < 2 ^ 32 - 1 }
        ensures lines { IfOk result (Feeds self.old self.new piece.now) }
        ensures over { self.old.phase.over ≡ true → IfOk result (λ lines. lines ≡ []) }
        ensures stays_over { self.old.phase.over ≡ true → OnOk result (self.new.phase.over ≡ true) }
        ensures alive { self.new.alive ≡ self.old.alive }
    {
        let mut lines = Items::new(self.alloc);
        let mut rest = piece;
        while let Some((line, further)) = self.read(rest)? {
            lines.push(line)?;
            rest = further;
        }
        Ok(lines)
    }

    // Reads what is kept, which no LF ends.
    fn read_rest(&mut self) -> Result<Line, NoRoom>
        ensures line { IfOk result (λ found. found ≡ read_as self.old.phase self.old.rest) }
        ensures used { IfOk result (λ found. self.new.phase.used ≡ used_by found self.old.phase.used) }
        ensures follows { IfOk result (LineMayFollow self.old.phase.used) }
        ensures alive { self.new.alive ≡ self.old.alive }
    {
        let found = self.reading.read(self.alloc, self.rest.as_slice())?;
        Ok(found)
    }

    // Reads the last line, which ends with no LF.
    fn read_last(&mut self) -> Result<Option<Line>, NoRoom>
        ensures lines { IfOk result (λ found. Finishes self.old (option_to_list found)) }
        ensures none { self.old.phase.over ≡ true → IfOk result (λ found. found ≡ None) }
        ensures follows { IfOk result (λ found. IfSome found (LineMayFollow self.old.phase.used)) }
        ensures used { IfOk result (λ found. self.new.phase.used ≡ used_past found self.old.phase.used) }
        ensures alive { self.new.alive ≡ self.old.alive }
    {
        if self.is_over() {
            return Ok(None);
        }
        if self.keeps_some() {
            let found = self.read_rest()?;
            return Ok(Some(found));
        }
        if self.is_fresh() {
            return Ok(Some(Line::Bad(1, LineCause::NotJson)));
        }
        Ok(None)
    }

    // The line, if there is one, as a list.
    fn listed(&mut self, found: Option<Line>) -> Result<Items<Line>, NoRoom>
        ensures lines { IfOk result (λ lines. lines ≡ option_to_list found) }
        ensures phase { self.new.phase ≡ self.old.phase }
        ensures dead { OnErr result (self.new.alive ≡ false) }
    {
        self.set_alive(false);
        let lines = list_of(self.alloc, found)?;
        self.set_alive(true);
        Ok(lines)
    }
}
