//! What a caller concludes from the contracts of sessions, and of two scripts.
ghost use Rattle.std.specs.Prelude.{◌≡◌, ◌<◌, ◌≤◌, ◌+◌, false, length, IfOk, OnOk};
ghost use Rattle.fed_script.specs.Script.{Script as Lines};
ghost use Rattle.fed_session.specs.Session.{Stands, Shows};
ghost use Rattle.fed_trace.specs.OfScript.{start, trace_of};
ghost use Rattle.fed_trace.specs.Trace.{Trace, pending_of};
ghost use Rattle.tests_callers.specs.Compared.{AreCompared};

use fed_io::{NoRoom, Steps};
use fed_origin::WebUrl;
use fed_script::{Event, Script};
use fed_session::{Session, View};
use fed_twin::{compare, twin_fault};
use std::alloc::Global;
use std::sync::ledger::{Blank, Ledger};

/// Whether a load found memory, and whether the next one did: it does not where the first did not.
pub fn load_twice<L: Ledger>(
    session: &mut Session,
    url: WebUrl,
    steps: &mut Steps<L>,
) -> (bool, bool)
    requires few { session.old.steps < 999999 }
    ensures dead { result.0 ≡ false → result.1 ≡ false }
{
    let event = Event::Load {
        page: 1,
        url,
        raw: None,
    };
    let first = session.step(2, &event, steps).is_ok();
    let second = session.step(3, &event, steps).is_ok();
    (first, second)
}

/// Closes a page: where four calls of it are pending that takes at most 88 link steps, whatever other pages stand.
pub fn close_page<L: Ledger>(
    session: &mut Session,
    page: u32,
    steps: &mut Steps<L>,
) -> Result<(), NoRoom>
    requires few { session.old.steps < 1000000 }
    ensures few_steps { (T : Trace) → Stands session.old T → length (pending_of T page) ≡ 4 → steps.new ≤ steps.old + 88 }
{
    let _ignored = session.step(4, &Event::ClosePage { page }, steps)?;
    Ok(())
}

// Takes the events of a script in a session in which nothing happened.
fn take_events<L: Ledger>(
    session: &mut Session,
    script: &Script,
    steps: &mut Steps<L>,
) -> Result<(), NoRoom>
    requires { Stands session.old (start script.now.header) }
    ensures { OnOk result (Stands session.new (trace_of script.now)) }
{
    let events = script.events();
    for n in events {
        let _records = session.step(n.line, &n.event, steps)?;
    }
    Ok(())
}

/// What a session shows after a whole script is what stands after all that happened.
pub fn view_after<L: Ledger>(alloc: Global, blank: Blank, script: &Script) -> Result<View, NoRoom>
    requires name { blank.name ≡ L.name }
    requires parts { blank.parts ≡ L.parts }
    requires some { 0 < L.parts }
    ensures { IfOk result (λ view. Shows view (trace_of script.now)) }
{
    let mut steps: Steps<L> = Steps::new(blank);
    let mut session = Session::new(alloc, script.header().copy(alloc)?)?;
    take_events(&mut session, script, &mut steps)?;
    session.view()
}

/// How far two scripts are compared, and how many requests; nothing exactly where they are no twins.
pub fn compared(alloc: Global, a: &Script, b: &Script) -> Result<Option<(u64, u64)>, NoRoom>
    ensures { IfOk result (AreCompared a.now b.now) }
{
    match twin_fault(alloc, a, b)? {
        Some(_) => Ok(None),
        None => Ok(Some(compare(alloc, a, b)?)),
    }
}
