//! The twin test of two scripts.
ghost use Rattle.std.specs.Prelude.{◌≡◌, ◌<◌, ◌^◌, ◌++◌, length, List, ℕ, IfOk};
ghost use Rattle.fed_script.specs.Pair.{pair_of, bad_within};
ghost use Rattle.fed_twin.specs.Twin.{Twin};
ghost use Rattle.fed_print.specs.Lines.{line_of};
ghost use Rattle.fed_run.specs.Text.{not_twins_members};
ghost use Rattle.fed_run.specs.Ends.{TellsTwins, TellsScripts, TellsPair, TellsCut};

use crate::print::{print_not_twins, print_twins};
use crate::ran::{Ran, stopped};
use crate::status::Status;
use fed_io::{Bytes, Fault, NoRoom};
use fed_script::{Script, bad_line_in, read_pair};
use fed_twin::{TwinFault, compare, twin_fault};
use std::alloc::Global;

// Two scripts are no twins.
fn not_twins(alloc: Global, fault: TwinFault) -> Result<Ran, NoRoom>
    ensures { IfOk result (λ ran. (ran.status ≡ Status.NotTwins) × (ran.text ≡ line_of (not_twins_members fault))) }
{
    let mut text = Vec::new(alloc);
    print_not_twins(alloc, fault, &mut text)?;
    Ok(Ran {
        text: Bytes::from_vec(text),
        status: Status::NotTwins,
    })
}

// Two scripts are twins: how far they are quiet, and how many requests are compared.
fn twins(alloc: Global, first: &Script, second: &Script) -> Result<Ran, NoRoom>
    requires { Twin first.now second.now }
    ensures { IfOk result (λ ran. TellsTwins first.now second.now ran.status ran.text) }
{
    let (quiet, compared) = compare(alloc, first, second)?;
    let mut text = Vec::new(alloc);
    print_twins(alloc, compared, quiet, &mut text)?;
    Ok(Ran {
        text: Bytes::from_vec(text),
        status: Status::Done,
    })
}

// What is told of two scripts.
fn told(alloc: Global, first: &Script, second: &Script) -> Result<Ran, NoRoom>
    ensures { IfOk result (λ ran. TellsScripts first.now second.now ran.status ran.text) }
{
    match twin_fault(alloc, first, second)? {
        Some(fault) => not_twins(alloc, fault),
        None => twins(alloc, first, second),
    }
}

/// Tells of the two scripts of these bytes whether they are twins, and how far they are compared.
pub fn twin(alloc: Global, bytes: &[u8]) -> Result<Ran, NoRoom>
    requires { length bytes.now < 2 ^ 31 }
    ensures { IfOk result (λ ran. TellsPair (pair_of bytes.now) ran.status ran.text) }
{
    match read_pair(alloc, bytes) {
        Ok(pair) => told(alloc, &pair.first, &pair.second),
        Err(Fault::Step(stop)) => stopped(alloc, stop),
        Err(Fault::NoRoom) => Err(NoRoom),
    }
}

/// Answers where these are the first bytes of more: a bad line that ends within them is told, or else that they are too many.
pub fn twin_of_front(alloc: Global, bytes: &[u8]) -> Result<Ran, NoRoom>
    requires { length bytes.now < 2 ^ 31 }
    ensures { IfOk result (λ ran. (more : List ℕ) → 0 < length more
        → TellsCut (bad_within (length bytes.now) (bytes.now ++ more)) ran.status ran.text) }
{
    match bad_line_in(alloc, bytes)? {
        Some(stop) => stopped(alloc, stop),
        None => Ok(Ran {
            text: Bytes::from_vec(Vec::new(alloc)),
            status: Status::TooLong,
        }),
    }
}
