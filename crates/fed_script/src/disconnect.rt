//! Lines of the kind `disconnect`.
ghost use Rattle.std.specs.Prelude.{◌≡◌};
ghost use Rattle.std.specs.Result.{result_map_both};
ghost use Rattle.fed_script.specs.Said.{shown};
ghost use Rattle.fed_io.specs.Fault.{Answers};
ghost use Rattle.fed_script.specs.Disconnect as spec;

use crate::cause::{LineCause, MemberName};
use crate::config::KeptConfigs;
use crate::event::Event;
use crate::member::{number, text};
use crate::said::Said;
use fed_io::{Fault, Placed, Text};
use std::alloc::Global;

/// The members of a disconnect call, its URL as text.
#[derive(Clone, Copy, Drop)]
pub(crate) struct DisconnectMembers<'a> {
    pub page: u32,
    pub call: u32,
    pub config: &'a str,
    pub client: &'a str,
    pub hint: &'a str,
}

fn disconnect_members<'a>(d: &Said<'a>) -> Result<DisconnectMembers<'a>, LineCause>
    ensures { result_map_both spec.disconnect_seen (λ e. e) result ≡ spec.disconnect_members (shown d.now) }
{
    Ok(DisconnectMembers {
        page: number(d, MemberName::Page)?,
        call: number(d, MemberName::Call)?,
        config: text(d, MemberName::Config)?,
        client: text(d, MemberName::Client)?,
        hint: text(d, MemberName::Hint)?,
    })
}

/// The disconnect call that a line names; `kept` are configuration URLs of lines before it.
pub(crate) fn disconnect(
    alloc: Global,
    kept: &mut KeptConfigs,
    d: &Said<'_>,
) -> Result<Event, Fault<LineCause>>
    ensures { Answers result (spec.disconnect_of (shown d.now)) }
{
    match disconnect_members(d) {
        Err(cause) => Err(Fault::Step(cause)),
        Ok(members) => disconnect_by(alloc, kept, &members),
    }
}

/// The disconnect call with these members.
pub(crate) fn disconnect_by(
    alloc: Global,
    kept: &mut KeptConfigs,
    members: &DisconnectMembers<'_>,
) -> Result<Event, Fault<LineCause>>
    ensures { Answers result (spec.disconnect_by (spec.disconnect_seen members.now)) }
{
    let config = kept.read(alloc, members.config)?;
    Ok(Event::Disconnect {
        page: members.page,
        call: members.call,
        config,
        client: Text::of(alloc, members.client)?,
        hint: Placed::new(alloc, Text::of(alloc, members.hint)?)?,
    })
}
