//! What a token that a page gets has to be.
ghost use Rattle.std.specs.Prelude.{◌≡◌, ◌&&◌, ℕ, List, Option, Bool, not, nat_eq, option_map, unwrap_or, false, IfOk};
ghost use Rattle.std.specs.Option.{option_copied};
ghost use Rattle.fed_audit.specs.declared.record.Record.TheVariants.{Token};
ghost use Rattle.fed_audit.specs.Follow.{Follows, Notes};
ghost use Rattle.fed_audit.specs.Found as found;
ghost use Rattle.fed_audit.specs.Scene.{Scene, trace_through};

use crate::fault::AuditClause;
use crate::seen::Seen;
use fed_io::{Fault, NoRoom};
use fed_origin::{Origin, ReplyKind};
use fed_reply::ReplyMemory;
use fed_script::Event;
use fed_token::read_assertion_with;
use std::alloc::Global;

/// A record that says that the page of a call gets a token of the provider at this place.
#[derive(Clone, Copy)]
pub(crate) struct Giving<'a> {
    pub call: u32,
    pub provider: u32,
    pub token: &'a str,
}

// Whether the token that bytes hold, which came for a page of this origin, is this.
fn is_token(
    alloc: Global,
    memory: &ReplyMemory,
    raw: &[u8],
    page: &Origin,
    token: &str,
) -> Result<bool, NoRoom>
    ensures { IfOk result (λ is. is ≡ found.is_token raw.now page.now token.now) }
{
    match read_assertion_with(alloc, memory, raw, page) {
        Ok(read) => Ok(read.as_str() == token),
        Err(Fault::Step(_)) => Ok(false),
        Err(Fault::NoRoom) => Err(NoRoom),
    }
}

// The bytes of the reply for a token that an event brings to this call from this provider, if it brings one.
fn reply_in(event: &Event, call: u32, provider: u32) -> Option<&[u8]>
    ensures { option_copied result ≡ found.reply_in call provider event.now }
{
    match event {
        Event::Reply {
            call: c,
            provider: p,
            kind: ReplyKind::Assertion,
            raw,
        } => {
            if *c == call && *p == provider {
                Some(raw.as_slice())
            } else {
                None
            }
        }
        _ => None,
    }
}

// Whether the event is the provider's reply with the token.
fn is_reply(
    alloc: Global,
    memory: &ReplyMemory,
    event: &Event,
    page: &Origin,
    giving: &Giving<'_>,
) -> Result<bool, NoRoom>
    ensures { IfOk result (λ is. is ≡ found.is_reply giving.now.call giving.now.provider event.now page.now giving.now.token.now) }
{
    match reply_in(event, giving.call, giving.provider) {
        Some(raw) => is_token(alloc, memory, raw, page, giving.token),
        None => Ok(false),
    }
}

// Whether this provider was asked.
fn is_place(place: Option<&u32>, provider: u32) -> bool
    ensures { result ≡ unwrap_or (option_map (nat_eq provider) (option_copied place.entry)) false }
{
    match place {
        Some(asked) => provider == *asked,
        None => false,
    }
}

// Whether the token was asked for, nothing was given before, the page stands, and this is the reply.
fn are_given(asked: bool, answered: bool, replaced: bool, reply: bool) -> bool
    ensures { result ≡ (asked && (not answered && (not replaced && reply))) }
{
    asked && !answered && !replaced && reply
}

/// The first clause that a token of a call fails, if it fails one.
pub(crate) fn token_fault(
    alloc: Global,
    seen: &Seen,
    event: &Event,
    giving: &Giving<'_>,
) -> Result<Option<AuditClause>, NoRoom>
    ensures { (s : Scene) (line : ℕ) (page : Option ℕ) (auto : Option Bool) → Follows seen.now (trace_through s)
        → Notes seen.now s.earlier → event.now ≡ s.row.event
        → IfOk result (found.IsFirst s (Token line giving.now.call giving.now.provider giving.now.token.now page auto)) }
{
    let Some(begun) = seen.calls.get(giving.call) else {
        return Ok(Some(AuditClause::Call));
    };
    if giving.provider >= begun.providers {
        return Ok(Some(AuditClause::Call));
    }
    let asked = is_place(seen.asked.get(giving.call), giving.provider);
    let answered = seen.answered.has(giving.call);
    let replaced = seen.is_replaced(begun);
    let reply = is_reply(alloc, &seen.memory, event, &begun.origin, giving)?;
    if are_given(asked, answered, replaced, reply) {
        return Ok(None);
    }
    Ok(Some(AuditClause::Token))
}
