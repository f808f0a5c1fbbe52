//! What a form of the command line comes to.
ghost use Rattle.std.specs.Prelude.{IfOk};
ghost use Rattle.fed_run.specs.Ends.{TellsStop};

use crate::print::print_pair_bad;
use crate::status::Status;
use fed_io::{Bytes, NoRoom};
use fed_script::PairStop;
use std::alloc::Global;

/// What is written for the bytes of an input, and how the program ends where nothing fails.
#[derive(Drop)]
pub struct Ran {
    pub text: Bytes,
    pub status: Status,
}

/// A line is bad or missing.
pub fn stopped(alloc: Global, stop: PairStop) -> Result<Ran, NoRoom>
    ensures { IfOk result (λ ran. TellsStop stop ran.status ran.text) }
{
    let mut text = Vec::new(alloc);
    print_pair_bad(alloc, stop, &mut text)?;
    Ok(Ran {
        text: Bytes::from_vec(text),
        status: Status::BadScript,
    })
}
