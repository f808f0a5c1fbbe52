//! The slice of a script by a party.
ghost use Rattle.std.specs.Prelude.{◌<◌, ◌^◌, length, IfOk};
ghost use Rattle.fed_run.specs.Alone.{alone_of};
ghost use Rattle.fed_run.specs.Ends.{TellsPart, TellsSlice};

use crate::alone::read_alone;
use crate::ran::{Ran, stopped};
use crate::status::Status;
use fed_io::{Fault, NoRoom};
use fed_script::Script;
use fed_slice::{closure, slice_text};
use std::alloc::Global;

// The lines of a script's slice by all that the party is linked with.
fn part(alloc: Global, party: &[u8], script: &Script, bytes: &[u8]) -> Result<Ran, NoRoom>
    requires { length bytes.now < 2 ^ 31 }
    ensures { IfOk result (λ ran. TellsPart party.now bytes.now script.now ran.status ran.text) }
{
    let parties = closure(alloc, script, party)?;
    let text = slice_text(alloc, script, parties.as_slice(), bytes)?;
    Ok(Ran {
        text,
        status: Status::Done,
    })
}

/// Gives the slice of the script of these bytes by a party.
pub fn slice(alloc: Global, party: &[u8], bytes: &[u8]) -> Result<Ran, NoRoom>
    requires { length bytes.now < 2 ^ 31 }
    ensures { IfOk result (λ ran. TellsSlice party.now bytes.now (alone_of bytes.now) ran.status ran.text) }
{
    match read_alone(alloc, bytes) {
        Ok(script) => part(alloc, party, &script, bytes),
        Err(Fault::Step(stop)) => stopped(alloc, stop),
        Err(Fault::NoRoom) => Err(NoRoom),
    }
}
