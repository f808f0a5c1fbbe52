//! One event at a time.
ghost use Rattle.std.specs.Prelude.{◌≡◌, ◌<◌, ◌≤◌, ◌+◌, ◌*◌, ℕ, OnOk, nat_eq, [], length, is_some, true, false, IfOk, OnErr, IsErr};
ghost use Rattle.std.specs.Option.{option_copied};
ghost use Rattle.std.specs.List.{list_any};
ghost use Rattle.std.specs.Map.{lookup};
ghost use Rattle.fed_script.specs.declared.event.Event.TheVariants as events;
ghost use Rattle.fed_script.specs.Used.{HasProviders, HasKnownStatus, SaysKnown};
ghost use Rattle.fed_call.specs.Account.{account_awaited};
ghost use Rattle.fed_jar.specs.Send.{jar_text};
ghost use Rattle.fed_trace.specs.Known.{facts_at, input_of};
ghost use Rattle.fed_trace.specs.Records.{records};
ghost use Rattle.fed_trace.specs.Row.{row_of, with_event};
ghost use Rattle.fed_table.specs.Table.{page_calls, waiting_for, node_in};
ghost use Rattle.fed_session.specs.Links.{most_steps, resumed_calls, AreLinked};
ghost use Rattle.fed_session.specs.Session.{Stands, Shows, IsFresh};
ghost use Rattle.fed_session.specs.StepParts.{revived, stepped};
ghost use Rattle.fed_trace.specs.Trace.{Trace, pending_of, page_at, now_at, cookies};
ghost use Rattle.fed_trace.specs.Windows.{windows_of};

use crate::disconnect::disconnect;
use crate::get::get;
use crate::input::{input_of, take_input};
use crate::load::{page_origin, take_have, take_head};
use crate::page::{close, prevent, set_page_status};
use crate::resume::resume;
use crate::sight::Sight;
use crate::tabs::Tabs;
use crate::view::{View, shown_flags, shown_logins};
use fed_io::{Bytes, Items, NoRoom, Steps, Text};
use fed_links::Links;
use fed_origin::{GetOptions, Origin, WebUrl};
use fed_script::{Event, Have, Header};
use fed_suffix::Suffixes;
use fed_trace::Out;
use std::alloc::Global;
use std::marker::Model;
use std::sync::ledger::Ledger;

/// A session: what stands after the events that it took. Contracts see it as a `State`, and `Stands` says for which
/// traces it stands.
pub struct Session {
    alloc: Global,
    alive: bool,
    steps: u32,
    sight: Sight,
    tabs: Tabs,
}

impl Model for Session {
    ghost use Rattle.std.specs.Prelude.{◌≡◌, ◌≤◌, ◌*◌, true};
    ghost use Rattle.std.specs.Coded.{codes};
    ghost use Rattle.std.specs.FinSet as set;
    ghost use Rattle.fed_suffix.specs.Rule.{rule_cmp, rule_code};
    ghost use Rattle.fed_session.specs.Session.{State};

    ghost Value = { State };

    ghost coded = { Prim.hlevel (codes, set.code {R = rule_cmp} rule_code) };

    ghost view = { λ s. record {
      alive = s.alive;
      steps = s.steps;
      time = s.sight.time;
      rules = s.sight.cookies.rules;
      cookies = s.sight.cookies.list;
      entered = s.sight.cookies.entered;
      login =
          s.sight.login;
      kept = s.sight.kept;
      flags = s.sight.flags;
      tabs = s.tabs;
    } };

    // A step stores at most 128 cookies.
    ghost invariant = { λ s. s.alive ≡ true → s.sight.cookies.entered ≤ 128 * s.steps };
}

// Written out, so that one function lets a session go wherever it ends.
impl Drop for Session {
    fn drop(self) {
        let Session {
            alloc: _,
            alive: _,
            steps: _,
            sight: _,
            tabs: _,
        } = self;
    }
}

impl Session {
    /// A session in which nothing happened.
    pub fn new(alloc: Global, header: Header) -> Result<Session, NoRoom>
        ensures { IfOk result (λ session. Stands session (record { header = header; rows = [] })) }
    {
        Ok(Session {
            alloc,
            alive: true,
            steps: 0,
            sight: Sight::new(alloc, header),
            tabs: Tabs::new(alloc),
        })
    }

    /// Takes one event, and answers its records in their order. After want of memory the session is dead: each further
    /// step answers want of memory.
    pub fn step<L: Ledger>(
        &mut self,
        line: u32,
        event: &Event,
        steps: &mut Steps<L>,
    ) -> Result<Items<Out>, NoRoom>
        requires few { self.old.steps < 1000000 }
        requires fresh { IsFresh self.old event.now }
        requires providers { HasProviders event.now }
        requires status { HasKnownStatus event.now }
        ensures row { (T : Trace) → Stands self.old T
            → IfOk result (λ outs. (outs ≡ records (row_of T line event.now)) × Stands self.new (with_event T line event.now)) }
        ensures dead { OnErr result (self.new.alive ≡ false) }
        ensures stays_dead { self.old.alive ≡ false → IsErr result }
        ensures count { self.new.steps ≤ self.old.steps + 1 }
        ensures link_steps { (T : Trace) → Stands self.old T → steps.new ≤ steps.old + most_steps (λ page. length (pending_of T page))
            (λ page. length (resumed_calls (windows_of T) (page_at T page))) event.now }
    {
        if !self.alive {
            return Err(NoRoom);
        }
        self.alive = false;
        let outs = self.take(line, event, steps)?;
        self.steps += 1;
        self.alive = true;
        Ok(outs)
    }

    // Takes one event, but for the count of steps.
    fn take<L: Ledger>(
        &mut self,
        line: u32,
        event: &Event,
        steps: &mut Steps<L>,
    ) -> Result<Items<Out>, NoRoom>
        requires fresh { IsFresh self.old event.now }
        requires providers { HasProviders event.now }
        requires status { HasKnownStatus event.now }
        requires off { self.old.alive ≡ false }
        requires few { self.old.steps < 1000000 }
        requires room { self.old.entered ≤ 128 * self.old.steps }
        ensures room { OnOk result (self.new.entered ≤ self.old.entered + 128) }
        ensures row { (T : Trace) → Stands (revived self.old) T
            → IfOk result (λ outs. (outs ≡ records (row_of T line event.now)) × Stands (stepped self.new) (with_event T line event.now)) }
        ensures steps { self.new.steps ≡ self.old.steps }
        ensures alive { self.new.alive ≡ self.old.alive }
        ensures link_steps { steps.new ≤ steps.old + most_steps (λ page. length (page_calls self.old.tabs.table.pages page))
            (λ page. length (resumed_calls (waiting_for self.old.tabs.table.waits) (lookup (nat_eq page) self.old.tabs.pages))) event.now }
    {
        match event {
            Event::Have(have) => self.have(have.get()),
            Event::At { time } => {
                self.sight.time = *time;
                Ok(Items::new(self.alloc))
            }
            Event::Load { page, url, raw } => self.load(*page, url, raw, steps),
            Event::ClosePage { page } => {
                let outs = close(self.alloc, line, &mut self.tabs, *page, steps)?;
                Ok(outs)
            }
            Event::IdpClose { page } => self.idpclose(line, *page, steps),
            Event::Prevent { page } => {
                let (tabs, flags) = (&self.tabs, &mut self.sight.flags);
                let outs = prevent(self.alloc, line, tabs, flags, *page)?;
                Ok(outs)
            }
            Event::SetStatus { page, status } => {
                let (tabs, login) = (&self.tabs, &mut self.sight.login);
                let outs = set_page_status(self.alloc, line, tabs, login, *page, *status)?;
                Ok(outs)
            }
            Event::Get {
                page,
                call,
                options,
            } => self.get(line, *page, *call, options, steps),
            Event::Disconnect {
                page,
                call,
                config,
                client,
                hint,
            } => self.disconnect(line, *page, *call, config, client, hint.get(), steps),
            Event::Abort { .. }
            | Event::GoOn { .. }
            | Event::Cancel { .. }
            | Event::SignIn { .. }
            | Event::ShutWindow { .. }
            | Event::Choose { .. }
            | Event::Reply { .. } => self.called(line, event, steps),
        }
    }

    // What stands from before the script.
    fn have(&mut self, have: &Have) -> Result<Items<Out>, NoRoom>
        requires known { SaysKnown have.now }
        requires off { self.old.alive ≡ false }
        requires few { self.old.steps < 1000000 }
        requires room { self.old.entered ≤ 128 * self.old.steps }
        ensures room { OnOk result (self.new.entered ≤ self.old.entered + 128) }
        ensures row { (T : Trace) (line : ℕ) → Stands (revived self.old) T
            → IfOk result (λ outs. (outs ≡ records (row_of T line (events.Have have.now)))
            × Stands (stepped self.new) (with_event T line (events.Have have.now))) }
        ensures steps { self.new.steps ≡ self.old.steps }
        ensures alive { self.new.alive ≡ self.old.alive }
    {
        take_have(self.alloc, &mut self.sight, have)?;
        Ok(Items::new(self.alloc))
    }

    // A page is loaded.
    fn load<L: Ledger>(
        &mut self,
        page: u32,
        url: &WebUrl,
        raw: &Option<Bytes>,
        steps: &mut Steps<L>,
    ) -> Result<Items<Out>, NoRoom>
        requires off { self.old.alive ≡ false }
        requires few { self.old.steps < 1000000 }
        requires room { self.old.entered ≤ 128 * self.old.steps }
        ensures room { OnOk result (self.new.entered ≤ self.old.entered + 128) }
        ensures row { (T : Trace) (line : ℕ) → Stands (revived self.old) T
            → IfOk result (λ outs. (outs ≡ records (row_of T line (events.Load page url.now raw.now)))
            × Stands (stepped self.new) (with_event T line (events.Load page url.now raw.now))) }
        ensures steps { self.new.steps ≡ self.old.steps }
        ensures alive { self.new.alive ≡ self.old.alive }
        ensures link_steps { steps.new ≤ steps.old + (20 * length (page_calls self.old.tabs.table.pages page) + 8) }
    {
        let origin = page_origin(self.alloc, url)?;
        self.tabs.load(page, origin, steps)?;
        take_head(self.alloc, &mut self.sight, url, raw)?;
        Ok(Items::new(self.alloc))
    }

    // A page calls for a credential.
    fn get<L: Ledger>(
        &mut self,
        line: u32,
        page: u32,
        call: u32,
        options: &GetOptions,
        steps: &mut Steps<L>,
    ) -> Result<Items<Out>, NoRoom>
        requires fresh { list_any (nat_eq call) self.old.tabs.taken ≡ false }
        requires some { 1 ≤ length options.now.providers }
        requires few { length options.now.providers ≤ 10 }
        requires off { self.old.alive ≡ false }
        ensures stored { OnOk result (self.new.entered ≡ self.old.entered) }
        ensures row { (T : Trace) → Stands (revived self.old) T
            → IfOk result (λ outs. (outs ≡ records (row_of T line (events.Get page call options.now)))
            × Stands (stepped self.new) (with_event T line (events.Get page call options.now))) }
        ensures steps { self.new.steps ≡ self.old.steps }
        ensures alive { self.new.alive ≡ self.old.alive }
        ensures link_steps { steps.new ≤ steps.old + 20 }
    {
        let outs = get(
            self.alloc,
            line,
            &mut self.sight,
            &mut self.tabs,
            page,
            call,
            options,
            steps,
        )?;
        Ok(outs)
    }

    // A page calls to be disconnected.
    fn disconnect<L: Ledger>(
        &mut self,
        line: u32,
        page: u32,
        call: u32,
        config: &WebUrl,
        client: &Text,
        hint: &Text,
        steps: &mut Steps<L>,
    ) -> Result<Items<Out>, NoRoom>
        requires fresh { list_any (nat_eq call) self.old.tabs.taken ≡ false }
        requires off { self.old.alive ≡ false }
        ensures stored { OnOk result (self.new.entered ≡ self.old.entered) }
        ensures row { (T : Trace) → Stands (revived self.old) T
            → IfOk result (λ outs. (outs ≡ records (row_of T line (events.Disconnect page call config.now client.now hint.now)))
            × Stands (stepped self.new) (with_event T line (events.Disconnect page call config.now client.now hint.now))) }
        ensures steps { self.new.steps ≡ self.old.steps }
        ensures alive { self.new.alive ≡ self.old.alive }
        ensures link_steps { steps.new ≤ steps.old + 20 }
    {
        let outs = disconnect(
            self.alloc,
            line,
            &mut self.sight,
            &mut self.tabs,
            page,
            call,
            config,
            client,
            hint,
            steps,
        )?;
        Ok(outs)
    }

    // An event that names a call, and brings it an input.
    fn called<L: Ledger>(
        &mut self,
        line: u32,
        event: &Event,
        steps: &mut Steps<L>,
    ) -> Result<Items<Out>, NoRoom>
        requires brought { is_some (input_of event.now) ≡ true }
        requires off { self.old.alive ≡ false }
        ensures stored { OnOk result (self.new.entered ≡ self.old.entered) }
        ensures row { (T : Trace) → Stands (revived self.old) T
            → IfOk result (λ outs. (outs ≡ records (row_of T line event.now)) × Stands (stepped self.new) (with_event T line event.now)) }
        ensures steps { self.new.steps ≡ self.old.steps }
        ensures alive { self.new.alive ≡ self.old.alive }
        ensures link_steps { steps.new ≤ steps.old + 20 }
    {
        let Some((call, input)) = input_of(self.alloc, event)? else {
            unreachable!()
        };
        let outs = take_input(
            self.alloc,
            line,
            &mut self.sight,
            &mut self.tabs,
            call,
            &input,
            steps,
        )?;
        Ok(outs)
    }

    // A page says that the user has signed in at its origin.
    fn idpclose<L: Ledger>(
        &mut self,
        line: u32,
        page: u32,
        steps: &mut Steps<L>,
    ) -> Result<Items<Out>, NoRoom>
        requires off { self.old.alive ≡ false }
        ensures stored { OnOk result (self.new.entered ≡ self.old.entered) }
        ensures row { (T : Trace) → Stands (revived self.old) T
            → IfOk result (λ outs. (outs ≡ records (row_of T line (events.IdpClose page)))
            × Stands (stepped self.new) (with_event T line (events.IdpClose page))) }
        ensures steps { self.new.steps ≡ self.old.steps }
        ensures alive { self.new.alive ≡ self.old.alive }
        ensures link_steps { steps.new ≤ steps.old
            + 20 * length (resumed_calls (waiting_for self.old.tabs.table.waits) (lookup (nat_eq page) self.old.tabs.pages)) }
    {
        let outs = resume(self.alloc, line, &self.sight, &mut self.tabs, page, steps)?;
        Ok(outs)
    }

    /// The linked lists of the nodes of pending calls. It takes no memory.
    pub fn links(&self) -> &Links
        ensures links { result.now ≡ self.now.tabs.table.links }
        ensures linked { (T : Trace) → Stands self.now T → AreLinked self.now.tabs.table.links self.now.tabs.table.nodes T }
    {
        self.tabs.links()
    }

    /// The node of a call; `None` exactly where it is not pending. It takes no memory.
    pub fn node_of(&self, call: u32) -> Option<u32>
        ensures node { result ≡ node_in self.now.tabs.table.nodes call }
        ensures linked { (T : Trace) → Stands self.now T → AreLinked self.now.tabs.table.links self.now.tabs.table.nodes T }
    {
        self.tabs.node_of(call)
    }

    /// The Cookie field of a request to the URL now, empty where no cookie goes. A dead session answers want of memory.
    pub fn cookie_text(&self, url: &WebUrl) -> Result<Bytes, NoRoom>
        ensures text { (T : Trace) → Stands self.now T
            → IfOk result (λ text. text ≡ jar_text T.header.rules url.now (now_at T) (cookies T)) }
        ensures stays_dead { self.now.alive ≡ false → IsErr result }
    {
        if !self.alive {
            return Err(NoRoom);
        }
        self.sight.cookies.text(self.alloc, url, self.sight.time)
    }

    /// The origin of a page; `None` where it does not stand. It takes no memory.
    pub fn page_origin(&self, page: u32) -> Option<&Origin>
        ensures { (T : Trace) → Stands self.now T → option_copied result ≡ page_at T page }
    {
        self.tabs.origin(page)
    }

    /// The id of the account whose token a get awaits; `None` of another call. It takes no memory.
    pub fn account(&self, call: u32) -> Option<&str>
        ensures { (T : Trace) → Stands self.now T → option_copied result ≡ account_awaited (facts_at T call) }
    {
        self.tabs.account(call)
    }

    /// The public suffix rules. It takes no memory.
    pub fn rules(&self) -> &Suffixes
        ensures { result.now ≡ self.now.rules }
    {
        self.sight.cookies.suffixes()
    }

    /// What stands now. A dead session answers want of memory.
    pub fn view(&self) -> Result<View, NoRoom>
        ensures shows { (T : Trace) → Stands self.now T → IfOk result (λ view. Shows view T) }
        ensures stays_dead { self.now.alive ≡ false → IsErr result }
    {
        if !self.alive {
            return Err(NoRoom);
        }
        Ok(View {
            now: self.sight.time,
            login: shown_logins(self.alloc, &self.sight.login)?,
            kept: self.sight.kept.list(self.alloc)?,
            silent: shown_flags(self.alloc, &self.sight.flags)?,
            cookies: Items::from_vec(self.sight.cookies.list(self.alloc)?),
            pages: self.tabs.shown_pages(self.alloc)?,
            calls: self.tabs.shown_calls(self.alloc)?,
        })
    }
}
