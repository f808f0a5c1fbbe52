//! Where the check of a script's lines stands.
ghost use Rattle.std.specs.Prelude.{◌≡◌, ◌<◌, ◌++◌, ◌∷◌, [], IfOk, OnOk};
ghost use Rattle.fed_script.specs.Line.{header_of, event_of};
ghost use Rattle.fed_check.specs.Check.{found_in_header, found_in_event, used_past};
ghost use Rattle.fed_check.specs.Stage.{found_at, stage_after, after_header, used_by, IsFew};

use crate::finding::Finding;
use crate::table::{event_members, header_members};
use crate::unread::note_unread;
use fed_io::{Fault, Items, NoRoom};
use fed_script::{LineCause, Used, is_blank, read_event, read_header};
use std::alloc::Global;

/// Where the check of lines stands.
pub enum Stage {
    /// Before the first line.
    Head,
    /// After the header: the number of the next line, and what the lines before it used.
    Events(u32, Used),
    /// After a bad header. No further line is judged.
    Over,
}

// Written out, so that one function lets it go wherever it ends.
impl Drop for Stage {
    fn drop(self) {
        match self {
            Stage::Head | Stage::Events(_, _) | Stage::Over => {}
        }
    }
}

/// Notes that a line is bad.
pub(crate) fn note_bad(
    number: u32,
    cause: LineCause,
    found: &mut Items<Finding>,
) -> Result<(), NoRoom>
    ensures { OnOk result (found.new ≡ found.old ++ Finding.Bad number cause ∷ []) }
{
    found.push(Finding::Bad(number, cause))
}

// Notes what is found in the first line, and answers where the check stands after it.
fn check_header(alloc: Global, line: &[u8], found: &mut Items<Finding>) -> Result<Stage, NoRoom>
    ensures found { OnOk result (found.new ≡ found.old ++ found_in_header line.now (header_of line.now)) }
    ensures stage { IfOk result (λ stage. stage ≡ after_header (header_of line.now)) }
{
    match read_header(alloc, line) {
        Ok(header) => {
            note_unread(alloc, 1, header_members(), line, found)?;
            Ok(Stage::Events(2, Used::new(alloc, header.now)))
        }
        Err(Fault::Step(cause)) => {
            note_bad(1, cause, found)?;
            Ok(Stage::Over)
        }
        Err(Fault::NoRoom) => Err(NoRoom),
    }
}

// Notes what is found in a further line that is not blank. What the line uses is used from then on.
fn check_event(
    alloc: Global,
    number: u32,
    line: &[u8],
    used: &mut Used,
    found: &mut Items<Finding>,
) -> Result<(), NoRoom>
    ensures found { OnOk result
        (found.new ≡ found.old ++ found_in_event number line.now (event_of line.now used.old)) }
    ensures used { OnOk result (used.new ≡ used_past (event_of line.now used.old) used.old) }
{
    match read_event(alloc, line, used) {
        Ok(event) => note_unread(alloc, number, event_members(&event), line, found),
        Err(Fault::Step(cause)) => note_bad(number, cause, found),
        Err(Fault::NoRoom) => Err(NoRoom),
    }
}

// The same of any further line.
fn check_further(
    alloc: Global,
    number: u32,
    line: &[u8],
    used: &mut Used,
    found: &mut Items<Finding>,
) -> Result<(), NoRoom>
    ensures found { OnOk result (found.new ≡ found.old ++ found_at (Stage.Events number used.old) line.now) }
    ensures used { OnOk result (used.new ≡ used_by line.now used.old) }
{
    if is_blank(line) {
        return Ok(());
    }
    check_event(alloc, number, line, used, found)
}

/// Notes what is found in the next line. The check goes on after it.
pub(crate) fn check_line(
    alloc: Global,
    stage: &mut Stage,
    line: &[u8],
    found: &mut Items<Finding>,
) -> Result<(), NoRoom>
    requires few { IsFew stage.old }
    ensures found { OnOk result (found.new ≡ found.old ++ found_at stage.old line.now) }
    ensures stage { OnOk result (stage.new ≡ stage_after stage.old line.now) }
{
    match stage {
        Stage::Head => {
            *stage = check_header(alloc, line, found)?;
            Ok(())
        }
        Stage::Events(number, used) => {
            check_further(alloc, *number, line, used, found)?;
            *number += 1;
            Ok(())
        }
        Stage::Over => Ok(()),
    }
}
