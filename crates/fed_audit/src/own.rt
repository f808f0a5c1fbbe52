//! This program's own records, row by row.
ghost use Rattle.std.specs.Prelude.{◌≡◌, ◌∷◌, [], IfOk, OnOk};
ghost use Rattle.fed_audit.specs.Compare.{At, before, arrive, end_lacks};
ghost use Rattle.fed_audit.specs.Rows.{IsAt, Took, HasArrived, missing_in};
ghost use Rattle.fed_audit.specs.Told as spec;

use crate::aspect::{About, Aspect, Key, Subject};
use crate::difference::Difference;
use fed_consent::Finish;
use fed_entries::Entries;
use fed_io::{Items, NoRoom, Steps};
use fed_script::{Numbered, Script};
use fed_session::{Out, Session};
use std::alloc::Global;
use std::sync::ledger::Ledger;

/// What a record is about, if it is a request or a token.
pub(crate) fn about_of(out: &Out) -> Option<About>
    ensures { result ≡ spec.about_of out.now }
{
    match out {
        Out::Request {
            call,
            provider,
            kind,
            ..
        } => Some(About {
            call: *call,
            provider: *provider,
            subject: Subject::of_kind(*kind),
        }),
        Out::Answer {
            call,
            finish: Finish::Token { provider, .. },
            ..
        } => Some(About {
            call: *call,
            provider: *provider,
            subject: Subject::Token,
        }),
        Out::Answer { .. }
        | Out::Dropped { .. }
        | Out::Dialog { .. }
        | Out::Window { .. }
        | Out::Ignored { .. } => None,
    }
}

/// The rows of a script, one after the other.
pub(crate) struct Rows<'e> {
    pub alloc: Global,
    session: Session,
    events: &'e [Numbered],
    /// The line of the last row; 0 before the first.
    pub line: u32,
    /// The requests and tokens of that row that have no counterpart yet.
    pub left: Entries<Key, Out>,
}

impl<'e> Drop for Rows<'e> {
    fn drop(self) {
        let Rows {
            alloc: _,
            session: _,
            events: _,
            line: _,
            left: _,
        } = self;
    }
}

impl<'e> Rows<'e> {
    /// Before the first row.
    pub(crate) fn new(alloc: Global, script: &'e Script) -> Result<Rows<'e>, NoRoom>
        ensures { IfOk result (λ rows. IsAt rows (before script.now)) }
    {
        Ok(Rows {
            alloc,
            session: Session::new(alloc, script.header().copy(alloc)?)?,
            events: script.events(),
            line: 0,
            left: Entries::new(alloc),
        })
    }

    // A record of the row needs a counterpart, if it is a request or a token.
    fn expect(&mut self, out: Out) -> Result<(), NoRoom>
        ensures { OnOk result (self.new ≡ record self.old { left = spec.with_told (spec.about_of out) out self.old.left }) }
    {
        let Some(about) = about_of(&out) else {
            return Ok(());
        };
        self.left.insert(about.key(), out)
    }

    // The records of the row need counterparts, those that are requests or tokens.
    fn expect_all(&mut self, outs: Items<Out>) -> Result<(), NoRoom>
        ensures { OnOk result (self.new ≡ record self.old { left = spec.told_after outs self.old.left }) }
    {
        for out in outs.into_vec() {
            self.expect(out)?;
        }
        Ok(())
    }

    // Takes the event of the next row, after which these are left.
    fn take<L: Ledger>(
        &mut self,
        n: &Numbered,
        after: &'e [Numbered],
        steps: &mut Steps<L>,
    ) -> Result<(), NoRoom>
        requires { (at : At) × IsAt self.old at × (self.old.events.now ≡ n.now ∷ after.now) × (self.old.left ≡ []) }
        ensures took { (at : At) → IsAt self.old at → OnOk result (Took self.new at) }
        ensures events { OnOk result (self.new.events.now ≡ after.now) }
    {
        let outs = self.session.step(n.line, &n.event, steps)?;
        self.line = n.line;
        self.events = after;
        self.expect_all(outs)?;
        Ok(())
    }

    /// The first record of the row that has no counterpart.
    pub(crate) fn missing(&self) -> Option<Difference>
        ensures { result ≡ missing_in self.now.line self.now.left }
    {
        let Some(out) = self.left.item(0) else {
            return None;
        };
        Some(Difference {
            line: self.line,
            about: about_of(out),
            aspect: Aspect::Missing,
            due: None,
        })
    }

    /// Goes on to the row of a line, if there is one. It answers the first record on the way that has no counterpart.
    pub(crate) fn arrive<L: Ledger>(
        &mut self,
        line: u32,
        steps: &mut Steps<L>,
    ) -> Result<Option<Difference>, NoRoom>
        requires { (at : At) × IsAt self.old at }
        ensures { (at : At) → IsAt self.old at
            → IfOk result (λ found. HasArrived self.new (arrive line at.line at.left at.rows) found) }
    {
        'rows: while self.line < line {
            let missing = self.missing();
            if missing.is_some() {
                return Ok(missing);
            }
            let Some((n, after)) = self.events.split_first() else {
                return Ok(None);
            };
            if n.line > line {
                return Ok(None);
            }
            self.take(n, after, steps)?;
        }
        Ok(None)
    }

    /// Goes on to the end. It answers the first record that has no counterpart.
    pub(crate) fn finish<L: Ledger>(
        &mut self,
        steps: &mut Steps<L>,
    ) -> Result<Option<Difference>, NoRoom>
        requires { (at : At) × IsAt self.old at }
        ensures { (at : At) → IsAt self.old at → IfOk result (λ found. found ≡ end_lacks at.line at.left at.rows) }
    {
        'rows: loop {
            let missing = self.missing();
            if missing.is_some() {
                return Ok(missing);
            }
            let Some((n, after)) = self.events.split_first() else {
                return Ok(None);
            };
            self.take(n, after, steps)?;
        }
    }
}
