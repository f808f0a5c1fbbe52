//! A call that is not over.
ghost use Rattle.std.specs.Prelude.{IsTrue};
ghost use Rattle.fed_call.specs.Fits.{fits};

use crate::CallState;
use crate::asserting::Asserting;
use crate::begun::Call;
use crate::effects::{declines, fails, ignores};
use crate::gathering::gathers;
use crate::listing::accounts_reply;
use crate::progress::Progress;
use crate::reading::{asks_accounts, first_reply};
use crate::stages::At;
use crate::window::opens_window;
use fed_consent::{Effect, FailStep, Failure, Input, Why};
use fed_io::{Items, NoRoom};
use fed_origin::{Origin, ReplyKind, Stage, WebUrl};
use fed_status::Shared;
use std::alloc::Global;

/// What all stages of a call share, and its stage.
pub struct Pending {
    pub(crate) begun: Call,
    pub(crate) at: At,
    ghost fits: { IsTrue (fits begun at) },
}

// Written out, so that one function lets it go wherever it ends.
impl Drop for Pending {
    fn drop(self) {
        let Pending { begun: _, at: _ } = self;
    }
}

/// A reply that came, as an event names it.
#[derive(Drop)]
pub struct Incoming<'a> {
    /// The place of its provider.
    pub place: u32,
    pub kind: ReplyKind,
    pub raw: &'a [u8],
}

impl Pending {
    ghost use Rattle.std.specs.Prelude.{◌≡◌, IfOk, IfSome, Some, IsTrue};
    ghost use Rattle.std.specs.Option.{option_copied};
    ghost use Rattle.fed_status.specs.Shared.{world_of};
    ghost use Rattle.fed_consent.specs.declared.table.input.Input.TheVariants as inputs;
    ghost use Rattle.fed_call.specs.Awaits as spec;
    ghost use Rattle.fed_call.specs.Begun.{options_of};
    ghost use Rattle.fed_call.specs.Facts.{provider_at};
    ghost use Rattle.fed_call.specs.Row.{input_facts, input_row};
    ghost use Rattle.fed_call.specs.Account.{id_awaited};
    ghost use Rattle.fed_call.specs.State.{facts_of, pending_facts};
    ghost use Rattle.fed_call.specs.WindowRows.{awaited};

    /// The call after an input, and what it does there.
    pub(crate) fn advance(
        self,
        alloc: Global,
        input: &Input,
        shared: &Shared<'_>,
    ) -> Result<(CallState, Items<Effect>), NoRoom>
        ensures effects { IfOk result (λ r. r.1 ≡ (input_row (world_of shared.now) (pending_facts self) input.now).effects) }
        ensures state { IfOk result (λ r. facts_of r.0 ≡ input_facts (world_of shared.now) (pending_facts self) input.now) }
    {
        if let Input::Reply {
            provider,
            kind,
            raw,
        } = input
        {
            let incoming = Incoming {
                place: *provider,
                kind: *kind,
                raw: raw.as_slice(),
            };
            return self.reply(alloc, shared, &incoming);
        }
        let Pending { begun, at } = self;
        match at {
            At::Choosing(choosing) => match input {
                Input::Choose { provider, account } => choosing.choose(
                    alloc, shared, begun, *provider, account,
                ),
                // Row C31.
                Input::Cancel => fails(alloc, Failure::plain(FailStep::UserCancelled)),
                input => declines(alloc, begun, At::Choosing(choosing), input),
            },
            At::Prompting(prompting) => match input {
                Input::GoOn => prompting.go_on(alloc, begun),
                // Row C31.
                Input::Cancel => fails(alloc, Failure::plain(FailStep::UserCancelled)),
                input => declines(alloc, begun, At::Prompting(prompting), input),
            },
            At::Mismatch(config) => match input {
                Input::SignIn => opens_window(alloc, begun, config),
                // Row C31.
                Input::Cancel => fails(alloc, Failure::plain(FailStep::UserCancelled)),
                input => declines(alloc, begun, At::Mismatch(config), input),
            },
            At::Window(config) => match input {
                Input::Resume => asks_accounts(alloc, begun, config),
                // Row C30.
                Input::Shut => fails(alloc, Failure::plain(FailStep::WindowShut)),
                input => declines(alloc, begun, At::Window(config), input),
            },
            at => declines(alloc, begun, at, input),
        }
    }

    // A reply: it is read where the stage awaits it.
    fn reply(
        self,
        alloc: Global,
        shared: &Shared<'_>,
        incoming: &Incoming<'_>,
    ) -> Result<(CallState, Items<Effect>), NoRoom>
        ensures effects { IfOk result (λ r. r.1 ≡ (input_row (world_of shared.now) (pending_facts self)
            (inputs.Reply incoming.now.place incoming.now.kind incoming.now.raw.now)).effects) }
        ensures state { IfOk result (λ r. facts_of r.0 ≡ input_facts (world_of shared.now) (pending_facts self)
            (inputs.Reply incoming.now.place incoming.now.kind incoming.now.raw.now)) }
    {
        if !self.awaits(incoming.place, incoming.kind) {
            return ignores(alloc, CallState::of(self), Why::NotWaited);
        }
        let Pending { begun, at } = self;
        let raw = incoming.raw;
        match at {
            At::Reading(replies) => first_reply(alloc, shared, begun, replies, incoming.kind, raw),
            At::Listing(config) => accounts_reply(alloc, shared, begun, config, raw),
            At::Gathering(progress) => gathers(alloc, shared, begun, progress, incoming),
            At::Prompting(prompting) => prompting.shows_links(alloc, shared, begun, raw),
            At::Asserting(asserting) => asserting.answered(alloc, shared, begun, raw),
            At::Mismatch(_) | At::Window(_) | At::Choosing(_) => unreachable!(),
        }
    }

    // Whether a reply of this kind of the provider at this place is awaited, so far as the stage says.
    fn awaits(&self, place: u32, kind: ReplyKind) -> bool
        ensures value { result ≡ spec.awaits self.now.begun self.now.at place kind }
        ensures about { provider_at self.now.begun.place (options_of self.now.begun) ≡ Some self.now.begun.provider }
    {
        let about = self.begun.place();
        match (&self.at, kind) {
            (At::Reading(_) | At::Gathering(_), ReplyKind::WellKnown | ReplyKind::Config)
            | (At::Listing(_) | At::Gathering(_), ReplyKind::Accounts) => self.begun.has(place),
            (At::Prompting(prompting), ReplyKind::Metadata) => prompting.waits() && place == about,
            (At::Asserting(_), ReplyKind::Assertion) => place == about,
            _ => false,
        }
    }

    /// How far the call has come.
    pub fn stage(&self) -> Stage
        ensures { result ≡ (pending_facts self.now).stage }
    {
        match &self.at {
            At::Reading(_) => Stage::Reading,
            At::Listing(_) => Stage::Listing,
            At::Gathering(_) => Stage::Gathering,
            At::Mismatch(_) => Stage::Mismatch,
            At::Window(_) => Stage::Window,
            At::Choosing(_) => Stage::Choosing,
            At::Prompting(_) => Stage::Prompting,
            At::Asserting(_) => Stage::Asserting,
        }
    }

    /// The configuration URL of the provider at this place, where its well-known file or its configuration is awaited.
    pub fn reads(&self, place: u32) -> Option<&WebUrl>
        ensures { IfSome result (λ url. IfSome (provider_at place (options_of self.now.begun)) (λ p. url.now ≡ p.config)) }
    {
        let reads = match &self.at {
            At::Reading(_) => true,
            At::Gathering(progress) => is_reading(progress.as_slice(), place),
            At::Listing(_)
            | At::Mismatch(_)
            | At::Window(_)
            | At::Choosing(_)
            | At::Prompting(_)
            | At::Asserting(_) => false,
        };
        if reads && self.begun.has(place) {
            return Some(&self.begun.provider_of(place).config);
        }
        None
    }

    /// The origin of the provider whose login window is open.
    pub fn waits_for(&self) -> Option<&Origin>
        ensures { option_copied result ≡ awaited (pending_facts self.now).options (pending_facts self.now).stage }
    {
        match &self.at {
            At::Window(_) => Some(self.begun.first_origin()),
            At::Reading(_)
            | At::Listing(_)
            | At::Gathering(_)
            | At::Mismatch(_)
            | At::Choosing(_)
            | At::Prompting(_)
            | At::Asserting(_) => None,
        }
    }

    /// The id of the account whose token is awaited.
    pub fn account(&self) -> Option<&str>
        ensures { option_copied result ≡ id_awaited (pending_facts self.now).stage (pending_facts self.now).picked }
    {
        match &self.at {
            At::Asserting(asserting) => Some(asserting.account.get().id.as_str()),
            At::Reading(_)
            | At::Listing(_)
            | At::Gathering(_)
            | At::Mismatch(_)
            | At::Window(_)
            | At::Choosing(_)
            | At::Prompting(_) => None,
        }
    }

    /// The page of the call.
    pub fn page(&self) -> u32
        ensures { result ≡ (pending_facts self.now).page }
    {
        self.begun.page()
    }
}

// Whether the provider at this place is awaited with its well-known file or its configuration.
fn is_reading(progress: &[Progress], place: u32) -> bool {
    match progress.get(place as usize) {
        Some(Progress::Reading(_)) => true,
        Some(Progress::Listing(_) | Progress::Listed(_, _) | Progress::Dropped(_)) | None => false,
    }
}
