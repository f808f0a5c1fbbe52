//! The part of a script that parties have.
ghost use Rattle.std.specs.Prelude.{◌≡◌, ◌&&◌, not, map, Option, Some, None, IfOk, if◌then◌else◌};
ghost use Rattle.fed_slice.specs.Closure.{is_loaded, loads};
ghost use Rattle.fed_slice.specs.Gather.{AreThose, Gives, IsPartOf, is_outside, names_outside, part_kept};
ghost use Rattle.fed_slice.specs.Linked.{is_number};
ghost use Rattle.fed_slice.specs.Part as spec;
ghost use Rattle.fed_slice.specs.Slice.{begins_on, call_on};
ghost use Rattle.fed_slice.specs.Slice as slice;

use crate::numbers::add;
use crate::party_set::{PartySet, has_each};
use fed_io::{Bytes, NoRoom};
use fed_script::{Event, Have, Numbered, Script};
use fed_suffix::Suffixes;
use indexmap::IndexSet;
use std::alloc::Global;

/// The part of a script that parties have: them, and the numbers of pages and calls that are in it.
#[derive(Drop)]
pub(crate) struct ScriptPart {
    pub parties: PartySet,
    pub pages: IndexSet<u32>,
    pub calls: IndexSet<u32>,
}

/// The number, unless the test holds.
pub(crate) fn unless(number: u32, test: bool) -> Option<u32>
    ensures { result ≡ (if test then None else Some number) }
{
    if test { None } else { Some(number) }
}

// The page number that an event names with a host outside of the parties.
fn page_outside(rules: &Suffixes, parties: &PartySet, event: &Event) -> Option<u32>
    ensures { Gives (λ q. names_outside rules.now parties.now q event.now) result }
{
    match event {
        Event::Load { page, url, .. } => unless(*page, parties.has(rules, url.host())),
        Event::Get { page, options, .. } => unless(
            *page,
            has_each(parties, rules, options.providers.as_slice()),
        ),
        Event::Disconnect { page, config, .. } => unless(*page, parties.has(rules, config.host())),
        _ => None,
    }
}

// The page numbers with a host outside of the parties.
fn pages_outside(
    alloc: Global,
    rules: &Suffixes,
    parties: &PartySet,
    events: &[Numbered],
) -> Result<IndexSet<u32>, NoRoom>
    ensures { IfOk result (λ pages. AreThose (is_outside rules.now parties.now events.now) pages.keys) }
{
    let mut pages: IndexSet<u32> = IndexSet::new(alloc);
    for numbered in events {
        add(&mut pages, page_outside(rules, parties, &numbered.event))?;
    }
    Ok(pages)
}

// The page number that an event loads, where none of its hosts is outside.
fn page_inside(outside: &IndexSet<u32>, event: &Event) -> Option<u32>
    ensures { Gives (λ q. loads q event.now && not (is_number outside.now.keys q)) result }
{
    match event {
        Event::Load { page, .. } => unless(*page, outside.contains(page)),
        _ => None,
    }
}

// The page numbers that are loaded, without those outside.
fn pages_inside(
    alloc: Global,
    outside: &IndexSet<u32>,
    events: &[Numbered],
) -> Result<IndexSet<u32>, NoRoom>
    ensures { IfOk result (λ pages. AreThose (λ q. is_loaded events.now q && not (is_number outside.now.keys q)) pages.keys) }
{
    let mut pages: IndexSet<u32> = IndexSet::new(alloc);
    for numbered in events {
        add(&mut pages, page_inside(outside, &numbered.event))?;
    }
    Ok(pages)
}

// The number of the call that an event begins on one of the pages.
fn call_inside(pages: &IndexSet<u32>, event: &Event) -> Option<u32>
    ensures { Gives (λ q. begins_on (is_number pages.now.keys) q event.now) result }
{
    match event {
        Event::Get { page, call, .. } => unless(*call, !pages.contains(page)),
        Event::Disconnect { page, call, .. } => unless(*call, !pages.contains(page)),
        _ => None,
    }
}

// The numbers of the calls that begin on one of the pages.
fn calls_inside(
    alloc: Global,
    pages: &IndexSet<u32>,
    events: &[Numbered],
) -> Result<IndexSet<u32>, NoRoom>
    ensures { IfOk result (λ calls. AreThose (call_on (is_number pages.now.keys) events.now) calls.keys) }
{
    let mut calls: IndexSet<u32> = IndexSet::new(alloc);
    for numbered in events {
        add(&mut calls, call_inside(pages, &numbered.event))?;
    }
    Ok(calls)
}

impl ScriptPart {
    /// The part of a script by these parties.
    pub(crate) fn of(
        alloc: Global,
        script: &Script,
        parties: &[Bytes],
    ) -> Result<ScriptPart, NoRoom>
        ensures { IfOk result (IsPartOf script.now parties.now) }
    {
        let events = script.events();
        let parties = PartySet::of(alloc, parties)?;
        let outside = pages_outside(alloc, &script.header().rules, &parties, events)?;
        let pages = pages_inside(alloc, &outside, events)?;
        let calls = calls_inside(alloc, &pages, events)?;
        Ok(ScriptPart {
            parties,
            pages,
            calls,
        })
    }

    // Whether what stands from before is in it.
    #[tactic(auto, unfolding(crate::specs::Part::has))]
    fn has_have(&self, rules: &Suffixes, have: &Have) -> bool
        ensures { result ≡ spec.has_have (part_kept rules.now self.now) have.now }
    {
        match have {
            Have::Login { origin, .. } | Have::Silent { origin } => {
                self.parties.has(rules, &origin.host)
            }
            Have::Kept(triple) => {
                self.parties.has(rules, &triple.page.host)
                    && self.parties.has(rules, &triple.provider.host)
            }
            Have::Cookie { url, .. } => self.parties.has(rules, url.host()),
        }
    }

    /// Whether the event is in it. It takes no memory.
    pub(crate) fn has_event(&self, rules: &Suffixes, event: &Event) -> bool
        ensures { result ≡ spec.has_event (part_kept rules.now self.now) event.now }
    {
        match event {
            Event::Have(have) => self.has_have(rules, have.get()),
            Event::At { .. } => true,
            Event::Load { page, .. }
            | Event::ClosePage { page }
            | Event::Get { page, .. }
            | Event::IdpClose { page }
            | Event::Prevent { page }
            | Event::SetStatus { page, .. }
            | Event::Disconnect { page, .. } => self.pages.contains(page),
            Event::Abort { call }
            | Event::GoOn { call }
            | Event::Cancel { call }
            | Event::SignIn { call }
            | Event::ShutWindow { call }
            | Event::Reply { call, .. }
            | Event::Choose { call, .. } => self.calls.contains(call),
        }
    }
}

// Of each event, whether it is in the part.
fn marks(
    alloc: Global,
    part: &ScriptPart,
    rules: &Suffixes,
    events: &[Numbered],
) -> Result<Vec<bool>, NoRoom>
    ensures { IfOk result (λ inside. inside.items ≡ map (λ n. spec.has_event (part_kept rules.now part.now) n.event) events.now) }
{
    let mut inside: Vec<bool> = Vec::new(alloc);
    for numbered in events {
        inside.push(part.has_event(rules, &numbered.event))?;
    }
    Ok(inside)
}

/// Of each event of a script, whether it is in the slice by these parties.
pub fn in_slice(alloc: Global, script: &Script, parties: &[Bytes]) -> Result<Vec<bool>, NoRoom>
    ensures { IfOk result (λ inside. inside.items ≡ map (λ n. slice.in_slice script.now parties.now n.event) script.now.events) }
{
    let part = ScriptPart::of(alloc, script, parties)?;
    let inside = marks(alloc, &part, &script.header().rules, script.events())?;
    Ok(inside)
}
