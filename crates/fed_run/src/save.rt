//! The state that a script leaves behind, as a script.
ghost use Rattle.std.specs.Prelude.{◌≡◌, ◌<◌, ◌^◌, length, IfOk, OnOk};
ghost use Rattle.fed_print.specs.Lines.{line_of};
ghost use Rattle.fed_session.specs.Session.{Stands};
ghost use Rattle.fed_trace.specs.OfScript.{start, trace_of};
ghost use Rattle.fed_run.specs.Alone.{alone_of};
ghost use Rattle.fed_run.specs.Ends.{TellsSave, TellsSaved, TellsState};
ghost use Rattle.fed_run.specs.Text.{lost_members, pending_members};

use crate::alone::read_alone;
use crate::print::{print_lost, print_pending};
use crate::ran::{Ran, stopped};
use crate::status::Status;
use fed_io::{Bytes, Fault, NoRoom, Steps};
use fed_profile::{Saved, save};
use fed_script::Script;
use fed_session::Session;
use std::alloc::Global;
use std::marker::Brand;
use std::sync::ledger::{Blank, Ledger};

// Takes the events of the script in a session in which nothing happened.
fn take_events<L: Ledger>(
    session: &mut Session,
    script: &Script,
    steps: &mut Steps<L>,
) -> Result<(), NoRoom>
    requires { Stands session.old (start script.now.header) }
    ensures { OnOk result (Stands session.new (trace_of script.now)) }
{
    let events = script.events();
    for n in events {
        let _records = session.step(n.line, &n.event, steps)?;
    }
    Ok(())
}

// The session after a script.
fn session_after<L: Ledger>(alloc: Global, blank: Blank, script: &Script) -> Result<Session, NoRoom>
    requires name { blank.name ≡ L.name }
    requires parts { blank.parts ≡ L.parts }
    requires some { 0 < L.parts }
    ensures { IfOk result (λ session. Stands session (trace_of script.now)) }
{
    let mut steps: Steps<L> = Steps::new(blank);
    let mut session = Session::new(alloc, script.header().copy(alloc)?)?;
    take_events(&mut session, script, &mut steps)?;
    Ok(session)
}

// This call is pending.
fn pending(alloc: Global, call: u32) -> Result<Ran, NoRoom>
    ensures { IfOk result (λ ran. (ran.status ≡ Status.NotSaved) × (ran.text ≡ line_of (pending_members call))) }
{
    let mut text = Vec::new(alloc);
    print_pending(alloc, call, &mut text)?;
    Ok(Ran {
        text: Bytes::from_vec(text),
        status: Status::NotSaved,
    })
}

// The line at this place does not restore its item.
fn lost(alloc: Global, place: u32) -> Result<Ran, NoRoom>
    ensures { IfOk result (λ ran. (ran.status ≡ Status.NotSaved) × (ran.text ≡ line_of (lost_members place))) }
{
    let mut text = Vec::new(alloc);
    print_lost(alloc, place, &mut text)?;
    Ok(Ran {
        text: Bytes::from_vec(text),
        status: Status::NotSaved,
    })
}

// What is told of what a session is saved as.
fn told(alloc: Global, saved: Saved) -> Result<Ran, NoRoom>
    ensures { IfOk result (λ ran. TellsSaved saved ran.status ran.text) }
{
    match saved {
        Saved::Lines(text) => Ok(Ran {
            text,
            status: Status::Done,
        }),
        Saved::Pending(call) => pending(alloc, call),
        Saved::Item(place) => lost(alloc, place),
    }
}

// What is told of a script.
fn state(alloc: Global, script: &Script) -> Result<Ran, NoRoom>
    ensures { IfOk result (λ ran. TellsState (trace_of script.now) ran.status ran.text) }
{
    let session = session_after::<Brand>(alloc, Blank::new(1), script)?;
    let saved = save(alloc, &session)?;
    told(alloc, saved)
}

/// Saves the state that the script of these bytes leaves behind.
pub fn save_of(alloc: Global, bytes: &[u8]) -> Result<Ran, NoRoom>
    requires { length bytes.now < 2 ^ 31 }
    ensures { IfOk result (λ ran. TellsSave (alone_of bytes.now) ran.status ran.text) }
{
    match read_alone(alloc, bytes) {
        Ok(script) => state(alloc, &script),
        Err(Fault::Step(stop)) => stopped(alloc, stop),
        Err(Fault::NoRoom) => Err(NoRoom),
    }
}
