//! Lines of the kind `reply`.
ghost use Rattle.std.specs.Prelude.{◌≡◌};
ghost use Rattle.fed_json.specs.Begun.{begun_data};
ghost use Rattle.fed_script.specs.Said.{shown};
ghost use Rattle.fed_io.specs.Fault.{Answers};
ghost use Rattle.fed_origin.specs.Words.{kind_of_word};
ghost use Rattle.fed_script.specs.Member.{required, as_word};
ghost use Rattle.fed_script.specs.Reply as spec;
ghost use Rattle.fed_script.specs.declared.cause.MemberName.TheVariants as names;

use crate::cause::{LineCause, MemberName};
use crate::event::Event;
use crate::member::{member, number, optional_number};
use crate::raw::required_bytes;
use crate::said::Said;
use fed_io::Fault;
use fed_json::Begun;
use fed_origin::ReplyKind;
use std::alloc::Global;

// The kind of reply that a value names.
fn as_kind(found: &Begun<'_>) -> Option<ReplyKind>
    ensures { result ≡ as_word kind_of_word (begun_data found.now) }
{
    ReplyKind::of_word(found.as_str()?)
}

// The member `to`.
fn kind(d: &Said<'_>) -> Result<ReplyKind, LineCause>
    ensures { result ≡ required (as_word kind_of_word) names.To (shown d.now) }
{
    let Some(found) = member(d, MemberName::To) else {
        return Err(LineCause::Member(MemberName::To));
    };
    as_kind(&found).ok_or(LineCause::Member(MemberName::To))
}

/// The reply that a line names.
pub(crate) fn reply(alloc: Global, d: &Said<'_>) -> Result<Event, Fault<LineCause>>
    ensures { Answers result (spec.reply_of (shown d.now)) }
{
    let call = number(d, MemberName::Call).map_err(Fault::Step)?;
    let provider = optional_number(d, MemberName::Provider).map_err(Fault::Step)?;
    let kind = kind(d).map_err(Fault::Step)?;
    let raw = required_bytes(alloc, d)?;
    Ok(Event::Reply {
        call,
        provider: provider.unwrap_or(0),
        kind,
        raw,
    })
}
