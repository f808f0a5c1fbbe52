//! The program over the process's words, its standard input and its standard output.
ghost use Rattle.std.specs.Prelude.{◌≡◌, ◌<◌};

use fed_io::{NoRoom, Steps, Text};
use fed_run::{Output, Status, TiedSink, TiedSource, close, fedcm};
use std::alloc::Global;
use std::cell::RefCell;
use std::env::{self, Args};
use std::io;
use std::sync::ledger::{Blank, Ledger};

// The words without the program's name.
fn words_of(alloc: Global, args: Args<Global>) -> Result<Vec<Text>, NoRoom> {
    let mut words = Vec::new(alloc);
    for word in args.skip(1) {
        words.push(Text::of(alloc, word.as_str())?)?;
    }
    Ok(words)
}

/// Runs the program.
pub fn program<L: Ledger>(rt: &HostRuntime, blank: Blank) -> Status
    requires name { blank.name ≡ L.name }
    requires parts { blank.parts ≡ L.parts }
    requires some { 0 < L.parts }
{
    let alloc = rt.alloc();
    let args = match env::args(rt) {
        Ok(args) => args,
        Err(e) => {
            return match e.kind() {
                io::ErrorKind::OutOfMemory => Status::NoRoom,
                _ => Status::Usage,
            };
        }
    };
    let Ok(words) = words_of(alloc, args) else {
        return Status::NoRoom;
    };
    let output = RefCell::new(Output::new(alloc, rt.stdout()));
    let mut source = TiedSource::new(rt.stdin(), &output);
    let mut sink = TiedSink::new(&output);
    let mut steps: Steps<L> = Steps::new(blank);
    let status = fedcm(alloc, &words, &mut source, &mut sink, &mut steps);
    close(&output, status)
}
