//! The check of a script that comes in pieces.
ghost use Rattle.std.specs.Prelude.{◌≡◌, ◌<◌, ◌==◌, ◌++◌, ◌∷◌, [], length, nat_lt, true, false};
ghost use Rattle.std.specs.Prelude.{IfOk, OnOk, OnErr, IsErr, IfSome, IfNone};
ghost use Rattle.std.specs.List.{list_any};
ghost use Rattle.fed_check.specs.Stage.{found_at, stage_after, is_head, IsFew, HasChecked, HasRoom, Checks, ChecksLine, Finishes};

use crate::finding::Finding;
use crate::stage::{Stage, check_line, note_bad};
use fed_io::{Items, NoRoom, place_of};
use fed_script::LineCause;
use std::alloc::Global;
use std::marker::Model;

// How much memory, in bytes, stays for the lines that the ends of pieces cut.
const STAYS: usize = 16_384;

// The bytes up to the first LF, and those after it; None where there is no LF.
fn cut(piece: &[u8]) -> Option<(&[u8], &[u8])>
    ensures parts { IfSome result (λ parts. piece.now ≡ parts.0.now ++ 10 ∷ parts.1.now) }
    ensures first { IfSome result (λ parts. list_any (λ b. b == 10) parts.0.now ≡ false) }
    ensures none { IfNone result (list_any (λ b. b == 10) piece.now ≡ false) }
{
    match place_of(b'\n', piece) {
        Some(end) => Some((&piece[..end], &piece[end + 1..])),
        None => None,
    }
}

/// The check of a script that comes in pieces, which may end anywhere. Of the bytes it keeps those alone that follow the last line
/// end. After want of memory it answers that from then on.
pub struct Checker {
    rest: Vec<u8>,
    stage: Stage,
    alive: bool,
    alloc: Global,
}

// Written out, so that one function lets it go wherever it ends.
impl Drop for Checker {
    fn drop(self) {
        let Checker {
            rest: _,
            stage: _,
            alive: _,
            alloc: _,
        } = self;
    }
}

impl Model for Checker {
    ghost use Rattle.fed_check.specs.Stage.{CheckerParts};

    ghost Value = { CheckerParts };

    ghost view = { λ c. record { rest = c.rest.items; stage = c.stage; alive = c.alive } };
}

impl Checker {
    /// A checker that was given nothing. It takes no memory.
    pub fn new(alloc: Global) -> Checker
        ensures value { result ≡ record { rest = []; stage = Stage.Head; alive = true } }
        ensures none { HasChecked result [] }
    {
        Checker {
            rest: Vec::new(alloc),
            stage: Stage::Head,
            alive: true,
            alloc,
        }
    }

    /// Takes a piece, and gives what is found in the lines that end in it, in their order. All pieces together have at most
    /// 67,108,865 bytes.
    pub fn feed(&mut self, piece: &[u8]) -> Result<Items<Finding>, NoRoom>
        requires few { HasRoom self.old (length piece.now) }
        ensures found { IfOk result (Checks self.old self.new piece.now) }
        ensures dead { OnErr result (self.new.alive ≡ false) }
        ensures stays_dead { self.old.alive ≡ false → IsErr result }
    {
        if !self.alive {
            return Err(NoRoom);
        }
        match self.take_piece(piece) {
            Ok(found) => Ok(found),
            Err(NoRoom) => {
                self.die();
                Err(NoRoom)
            }
        }
    }

    /// The pieces are all: gives what is found in the last line, where it lacks its line end, or that there is no line at all.
    pub fn last(mut self) -> Result<Items<Finding>, NoRoom>
        requires few { HasRoom self 0 }
        ensures found { IfOk result (Finishes self) }
        ensures stays_dead { self.alive ≡ false → IsErr result }
    {
        if !self.alive {
            return Err(NoRoom);
        }
        self.take_last()
    }

    fn die(&mut self)
        ensures { self.new ≡ record self.old { alive = false } }
    {
        self.alive = false;
    }

    // Keeps bytes in which no line ends.
    fn keep(&mut self, piece: &[u8]) -> Result<(), NoRoom>
        ensures { OnOk result (self.new ≡ record self.old { rest = self.old.rest ++ piece.now }) }
    {
        self.rest.extend_from_slice(piece)?;
        Ok(())
    }

    // Keeps no bytes. The memory of a long line goes.
    fn let_go(&mut self)
        ensures { self.new ≡ record self.old { rest = [] } }
    {
        if self.rest.capacity() > STAYS {
            self.rest = Vec::new(self.alloc);
        } else {
            self.rest.clear();
        }
    }

    // Notes what is found in the line of what is kept.
    fn check_rest(&mut self, found: &mut Items<Finding>) -> Result<(), NoRoom>
        requires few { IsFew self.old.stage }
        ensures found { OnOk result (found.new ≡ found.old ++ found_at self.old.stage self.old.rest) }
        ensures stage { OnOk result (self.new ≡ record self.old { stage = stage_after self.old.stage self.old.rest }) }
    {
        check_line(self.alloc, &mut self.stage, self.rest.as_slice(), found)
    }

    // Notes what is found in the line of what is kept and then these bytes.
    fn check(&mut self, bytes: &[u8], found: &mut Items<Finding>) -> Result<(), NoRoom>
        requires few { IsFew self.old.stage }
        ensures found { OnOk result (found.new ≡ found.old ++ found_at self.old.stage (self.old.rest ++ bytes.now)) }
        ensures stage { OnOk result
            (self.new ≡ record self.old { rest = []; stage = stage_after self.old.stage (self.old.rest ++ bytes.now) }) }
    {
        self.keep(bytes)?;
        self.check_rest(found)?;
        self.let_go();
        Ok(())
    }

    // Takes the next line that ends in the piece, and answers the bytes after it; or keeps the piece.
    fn take<'a>(
        &mut self,
        piece: &'a [u8],
        found: &mut Items<Finding>,
    ) -> Result<Option<&'a [u8]>, NoRoom>
        requires few { IsFew self.old.stage }
        ensures some { IfOk result (λ further. IfSome further
            (λ further. ChecksLine self.old self.new piece.now further.now found.old found.new)) }
        ensures none { IfOk result (λ further. IfNone further
            ((found.new ≡ found.old) × Checks self.old self.new piece.now [])) }
        ensures shorter { IfOk result (λ further. IfSome further (λ further. length further.now < length piece.now)) }
        ensures alive { OnOk result (self.new.alive ≡ self.old.alive) }
    {
        match cut(piece) {
            Some((line, further)) => {
                self.check(line, found)?;
                Ok(Some(further))
            }
            None => {
                self.keep(piece)?;
                Ok(None)
            }
        }
    }

    // Takes the lines that end in a piece.
    fn take_piece(&mut self, piece: &[u8]) -> Result<Items<Finding>, NoRoom>
        requires few { HasRoom (record self.old { alive = true }) (length piece.now) }
        ensures found { IfOk result (Checks self.old self.new piece.now) }
    {
        let mut found = Items::new(self.alloc);
        let mut rest = piece;
        while let Some(further) = self.take(rest, &mut found)? {
            rest = further;
        }
        Ok(found)
    }

    // Whether bytes are kept.
    fn keeps_some(&self) -> bool
        ensures { result ≡ nat_lt 0 (length self.now.rest) }
    {
        !self.rest.is_empty()
    }

    // Whether no line was read.
    fn is_at_head(&self) -> bool
        ensures { result ≡ is_head self.now.stage }
    {
        matches!(self.stage, Stage::Head)
    }

    // Takes the last line, which ends with no LF.
    fn take_last(&mut self) -> Result<Items<Finding>, NoRoom>
        requires few { IsFew self.old.stage }
        ensures { IfOk result (Finishes self.old) }
    {
        let mut found = Items::new(self.alloc);
        if self.keeps_some() {
            self.check_rest(&mut found)?;
            return Ok(found);
        }
        if self.is_at_head() {
            note_bad(1, LineCause::NotJson, &mut found)?;
            return Ok(found);
        }
        Ok(found)
    }
}
