//! What the lines before a line leave for it.
ghost use Rattle.std.specs.Prelude.{◌≡◌, ◌<◌, not, nat_lt, OnOk, OnErr};
ghost use Rattle.fed_io.specs.Fault.{Answers};
ghost use Rattle.fed_script.specs.Line.{event_named};
ghost use Rattle.fed_script.specs.Used as spec;
ghost use Rattle.fed_script.specs.Used.{unused, used_after, is_used, is_late, is_back, IsUnused};

use crate::cause::LineCause;
use crate::event::Event;
use crate::line::{LineMemory, event_named};
use fed_io::{Fault, NoRoom};
use fed_numbers::Numbers;
use std::alloc::Global;
use std::marker::Model;

/// The numbers of the calls that the lines so far used, whether one of them was an event other than a `have`, the
/// number of their events, and the time in seconds since 1970.
#[derive(Drop)]
pub struct Used {
    calls: Numbers,
    started: bool,
    events: u32,
    time: u64,
    memory: LineMemory,
}

impl Model for Used {
    ghost use Rattle.fed_script.specs.Used.{UsedState};

    ghost Value = { UsedState };

    ghost view = { λ u. record { calls = u.calls; started = u.started; events = u.events; time = u.time } };
}

impl Used {
    /// Nothing is used after a header of this time, in seconds since 1970.
    pub fn new(alloc: Global, time: u64) -> Used
        ensures { result ≡ unused time }
    {
        Used {
            calls: Numbers::new(alloc),
            started: false,
            events: 0,
            time,
            memory: LineMemory::new(alloc),
        }
    }

    /// How many events were read.
    pub fn events(&self) -> u32
        ensures { result ≡ self.now.events }
    {
        self.events
    }

    /// Whether a further event is too many.
    pub fn is_full(&self) -> bool
        ensures { result ≡ not (nat_lt self.now.events 1000000) }
    {
        self.events >= 1_000_000
    }

    /// Whether the event is a get or a disconnect whose number is used.
    pub(crate) fn is_used(&self, event: &Event) -> bool
        ensures { result ≡ is_used self.now event.now }
    {
        match event {
            Event::Get { call, .. } | Event::Disconnect { call, .. } => self.calls.has(*call),
            _ => false,
        }
    }

    /// Whether the event is a `have` after an event of another kind.
    pub(crate) fn is_late(&self, event: &Event) -> bool
        ensures { result ≡ is_late self.now event.now }
    {
        match event {
            Event::Have(_) => self.started,
            _ => false,
        }
    }

    /// Whether the event is an `at` whose time is below the time before it.
    pub(crate) fn is_back(&self, event: &Event) -> bool
        ensures { result ≡ is_back self.now event.now }
    {
        match event {
            Event::At { time } => *time < self.time,
            _ => false,
        }
    }

    /// The event that a line names, before the lines before it are looked at.
    pub(crate) fn event_named(
        &mut self,
        alloc: Global,
        line: &[u8],
    ) -> Result<Event, Fault<LineCause>>
        ensures answer { Answers result (event_named line.now) }
        ensures same { self.new ≡ self.old }
    {
        event_named(alloc, &mut self.memory, line)
    }

    /// Counts an event, its call's number as used, and the time that it names. On NoRoom nothing changes.
    pub(crate) fn note(&mut self, event: &Event) -> Result<(), NoRoom>
        requires few { self.old.events < 1000000 }
        requires once { IsUnused self.old event.now }
        ensures ok { OnOk result (self.new ≡ used_after event.now self.old) }
        ensures err { OnErr result (self.new ≡ self.old) }
    {
        if let Event::Get { call, .. } | Event::Disconnect { call, .. } = event {
            self.calls.insert(*call)?;
        }
        self.started = started_after(event, self.started);
        self.time = time_after(event, self.time);
        self.events += 1;
        Ok(())
    }
}

// Whether an event other than a `have` came, after an event.
fn started_after(event: &Event, started: bool) -> bool
    ensures { result ≡ spec.started_after event.now started }
{
    match event {
        Event::Have(_) => started,
        _ => true,
    }
}

// The time after an event.
fn time_after(event: &Event, before: u64) -> u64
    ensures { result ≡ spec.time_after event.now before }
{
    match event {
        Event::At { time } => *time,
        _ => before,
    }
}
