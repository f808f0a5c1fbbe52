//! What is kept while a transcript is audited.
ghost use Rattle.std.specs.Prelude.{◌≡◌, ◌<◌, ◌≤◌, ◌+◌, ◌∷◌, [], None, nat_eq, nat_lt, unwrap_or, length, OnOk, IfOk};
ghost use Rattle.std.specs.Map.{lookup};
ghost use Rattle.fed_script.specs.Used.{HasProviders, HasKnownStatus};
ghost use Rattle.fed_session.specs.Session.{Stands, IsFresh};
ghost use Rattle.fed_trace.specs.OfScript.{start};
ghost use Rattle.fed_trace.specs.Row.{with_event};
ghost use Rattle.fed_trace.specs.Trace.{Trace, page_at};
ghost use Rattle.std.specs.Option.{option_copied};
ghost use Rattle.fed_audit.specs.Walk.{AreAbove, Walks, last_line};
ghost use Rattle.fed_audit.specs.Follow.{Follows, Notes, asked_with, answered_with, kept_with, noted};

use crate::asked::first_asked;
use fed_entries::Entries;
use fed_io::{NoRoom, Steps};
use fed_numbers::Numbers;
use fed_origin::{Origin, ReplyKind};
use fed_reply::ReplyMemory;
use fed_script::{Event, Header, Numbered, Script};
use fed_session::Session;
use std::alloc::Global;
use std::sync::ledger::Ledger;

/// A call that began.
#[derive(Drop)]
pub(crate) struct Call {
    pub page: u32,
    pub origin: Origin,
    /// How many providers it has.
    pub providers: u32,
    /// The number of the event by which it began, counted from 1.
    pub begun: u32,
}

/// How far the events of a script are taken: the last that was taken, if one was, and those that are left.
#[derive(Clone, Copy)]
pub(crate) struct Taken<'e> {
    pub last: Option<&'e Numbered>,
    pub left: &'e [Numbered],
}

impl<'e> Taken<'e> {
    ghost use Rattle.std.specs.Prelude.{◌≡◌, None};
    ghost use Rattle.fed_script.specs.Script.{IsRead};
    ghost use Rattle.std.specs.Option.{option_copied};

    /// No event is taken.
    pub(crate) fn none_of(script: &'e Script) -> Taken<'e>
        ensures last { option_copied result.last ≡ None }
        ensures left { result.left.now ≡ script.now.events }
        ensures read { IsRead script.now }
    {
        Taken {
            last: None,
            left: script.events(),
        }
    }
}

/// What happened up to the line of the last record, and what the records said.
pub(crate) struct Seen {
    pub alloc: Global,
    pub session: Session,
    /// What replies are read from.
    pub memory: ReplyMemory,
    /// How many events were taken.
    pub taken: u32,
    /// The calls that began.
    pub calls: Entries<u32, Call>,
    /// The number of the event by which each page was last loaded or closed, counted from 1.
    pub replaced: Entries<u32, u32>,
    /// Whom the last row asks for a token: the call and the provider.
    pub asks: Option<(u32, u32)>,
    /// The provider that a record asks for a token of each call.
    pub asked: Entries<u32, u32>,
    /// The calls of which a record is a result.
    pub answered: Numbers,
}

impl Drop for Seen {
    fn drop(self) {
        let Seen {
            alloc: _,
            session: _,
            memory: _,
            taken: _,
            calls: _,
            replaced: _,
            asks: _,
            asked: _,
            answered: _,
        } = self;
    }
}

impl Seen {
    /// Nothing happened, and nothing was said.
    pub(crate) fn new(alloc: Global, header: Header) -> Result<Seen, NoRoom>
        ensures follows { IfOk result (λ seen. Follows seen (start header)) }
        ensures notes { IfOk result (λ seen. Notes seen []) }
    {
        Ok(Seen {
            alloc,
            session: Session::new(alloc, header)?,
            memory: ReplyMemory::new(),
            taken: 0,
            calls: Entries::new(alloc),
            replaced: Entries::new(alloc),
            asks: None,
            asked: Entries::new(alloc),
            answered: Numbers::new(alloc),
        })
    }

    // A call begins, where its page stands and is trustworthy.
    fn begins(&mut self, page: u32, call: u32, providers: u32) -> Result<(), NoRoom>
        requires { self.old.taken < 1000000 }
        ensures frame { self.new ≡ record self.old { calls = self.new.calls } }
        ensures begins { (T : Trace) → Stands self.old.session T → OnOk result (self.new
            ≡ record self.old { calls = kept_with (page_at T page) page call providers (self.old.taken + 1) self.old.calls }) }
    {
        let Some(origin) = self.session.page_origin(page) else {
            return Ok(());
        };
        if !origin.is_trustworthy() {
            return Ok(());
        }
        let begun = Call {
            page,
            origin: origin.copy(self.alloc)?,
            providers,
            begun: self.taken + 1,
        };
        self.calls.insert(call, begun)
    }

    // Takes note of an event that the session is to take.
    fn note(&mut self, event: &Event) -> Result<(), NoRoom>
        requires one { HasProviders event.now }
        requires few { self.old.taken < 1000000 }
        ensures frame { self.new ≡ record self.old { calls = self.new.calls; replaced = self.new.replaced } }
        ensures noted { (T : Trace) → Stands self.old.session T → OnOk result (self.new ≡ noted T event.now self.old) }
    {
        match event {
            Event::Load { page, .. } | Event::ClosePage { page } => {
                self.replaced.insert(*page, self.taken + 1)
            }
            Event::Get {
                page,
                call,
                options,
            } => self.begins(*page, *call, options.providers.len() as u32),
            Event::Disconnect { page, call, .. } => self.begins(*page, *call, 1),
            Event::Have(_)
            | Event::At { .. }
            | Event::Abort { .. }
            | Event::GoOn { .. }
            | Event::Cancel { .. }
            | Event::SignIn { .. }
            | Event::ShutWindow { .. }
            | Event::Reply { .. }
            | Event::Choose { .. }
            | Event::IdpClose { .. }
            | Event::Prevent { .. }
            | Event::SetStatus { .. } => Ok(()),
        }
    }

    /// Takes an event.
    pub(crate) fn take<L: Ledger>(
        &mut self,
        n: &Numbered,
        steps: &mut Steps<L>,
    ) -> Result<(), NoRoom>
        requires few { self.old.session.steps < 1000000 }
        requires taken { self.old.taken < 1000000 }
        requires fresh { IsFresh self.old.session n.now.event }
        requires providers { HasProviders n.now.event }
        requires status { HasKnownStatus n.now.event }
        ensures follows { (T : Trace) → Follows self.old T → OnOk result (Follows self.new (with_event T n.now.line n.now.event)) }
        ensures asked { self.new.asked ≡ self.old.asked }
        ensures answered { self.new.answered ≡ self.old.answered }
    {
        self.note(&n.event)?;
        let outs = self.session.step(n.line, &n.event, steps)?;
        self.asks = first_asked(outs.as_slice());
        self.taken += 1;
        Ok(())
    }

    /// Takes the events up to a line.
    pub(crate) fn take_to<'e, L: Ledger>(
        &mut self,
        script: &Script,
        at: Taken<'e>,
        line: u32,
        steps: &mut Steps<L>,
    ) -> Result<Taken<'e>, NoRoom>
        requires walks { Walks script.now self.old (option_copied at.last) at.left.now }
        requires low { last_line (option_copied at.last) ≤ line }
        ensures walks { IfOk result (λ r. Walks script.now self.new (option_copied r.last) r.left.now) }
        ensures low { IfOk result (λ r. last_line (option_copied r.last) ≤ line) }
        ensures above { IfOk result (λ r. AreAbove line r.left.now) }
        ensures asked { self.new.asked ≡ self.old.asked }
        ensures answered { self.new.answered ≡ self.old.answered }
    {
        let mut last = at.last;
        let mut rest = at.left;
        while let Some((n, after)) = rest.split_first() {
            if n.line > line {
                break;
            }
            self.take(n, steps)?;
            last = Some(n);
            rest = after;
        }
        Ok(Taken { last, left: rest })
    }

    /// A record is a request of this kind, which passed.
    pub(crate) fn note_request(
        &mut self,
        call: u32,
        provider: u32,
        kind: ReplyKind,
    ) -> Result<(), NoRoom>
        ensures frame { self.new ≡ record self.old { asked = self.new.asked } }
        ensures ok { OnOk result (self.new.asked ≡ asked_with kind call provider self.old.asked) }
    {
        match kind {
            ReplyKind::Assertion => self.asked.insert(call, provider),
            ReplyKind::WellKnown
            | ReplyKind::Config
            | ReplyKind::Accounts
            | ReplyKind::Metadata
            | ReplyKind::Disconnect => Ok(()),
        }
    }

    /// A record is a result of a call, which passed.
    pub(crate) fn note_result(&mut self, call: u32) -> Result<(), NoRoom>
        ensures frame { self.new ≡ record self.old { answered = self.new.answered } }
        ensures ok { OnOk result (self.new.answered ≡ answered_with call self.old.answered) }
    {
        if self.answered.has(call) {
            return Ok(());
        }
        self.answered.insert(call)
    }

    /// Whether the page of a call was loaded or closed since it began.
    pub(crate) fn is_replaced(&self, call: &Call) -> bool
        ensures { result ≡ nat_lt call.now.begun (unwrap_or (lookup (nat_eq call.now.page) self.now.replaced) 0) }
    {
        match self.replaced.get(call.page) {
            Some(last) => call.begun < *last,
            None => false,
        }
    }
}
