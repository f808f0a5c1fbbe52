//! Login statuses, and lines of the kind `setstatus`.
ghost use Rattle.std.specs.Prelude.{◌≡◌};
ghost use Rattle.fed_json.specs.Begun.{begun_data};
ghost use Rattle.fed_script.specs.Said.{shown};
ghost use Rattle.fed_origin.specs.Words.{status_of_word};
ghost use Rattle.fed_script.specs.Member.{required, as_word};
ghost use Rattle.fed_script.specs.Status as spec;
ghost use Rattle.fed_script.specs.declared.cause.MemberName.TheVariants as names;

use crate::cause::{LineCause, MemberName};
use crate::event::Event;
use crate::member::{member, number};
use crate::said::Said;
use fed_json::Begun;
use fed_origin::LoginStatus;

// The status that a value names.
fn as_status(found: &Begun<'_>) -> Option<LoginStatus>
    ensures { result ≡ as_word status_of_word (begun_data found.now) }
{
    LoginStatus::of_word(found.as_str()?)
}

/// The member `status`.
pub(crate) fn status(d: &Said<'_>) -> Result<LoginStatus, LineCause>
    ensures { result ≡ required (as_word status_of_word) names.Status (shown d.now) }
{
    let Some(found) = member(d, MemberName::Status) else {
        return Err(LineCause::Member(MemberName::Status));
    };
    as_status(&found).ok_or(LineCause::Member(MemberName::Status))
}

/// The status that a page sets.
pub(crate) fn set_status(d: &Said<'_>) -> Result<Event, LineCause>
    ensures { result ≡ spec.setstatus_of (shown d.now) }
{
    let page = number(d, MemberName::Page)?;
    let status = status(d)?;
    Ok(Event::SetStatus { page, status })
}
