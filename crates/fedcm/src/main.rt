//! The browser's part in federated sign-in, as a program: it reads a session script and writes its transcript.
#![tactic(auto)]

mod program;

use program::program;
use std::marker::Brand;
use std::process::ExitCode;
use std::sync::ledger::Blank;

fn main(rt: HostRuntime) -> ExitCode {
    ExitCode::from(program::<Brand>(&rt, Blank::new(1)).code())
}
