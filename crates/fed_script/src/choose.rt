//! Lines of the kind `choose`.
ghost use Rattle.fed_script.specs.Said.{shown};
ghost use Rattle.fed_io.specs.Fault.{Answers};
ghost use Rattle.fed_script.specs.Choose as spec;

use crate::cause::{LineCause, MemberName};
use crate::event::Event;
use crate::member::{number, optional_number, text};
use crate::said::Said;
use fed_io::{Fault, Text};
use std::alloc::Global;

/// The choice that a line names.
pub(crate) fn choose(alloc: Global, d: &Said<'_>) -> Result<Event, Fault<LineCause>>
    ensures { Answers result (spec.choose_of (shown d.now)) }
{
    let call = number(d, MemberName::Call).map_err(Fault::Step)?;
    let provider = optional_number(d, MemberName::Provider).map_err(Fault::Step)?;
    let account = text(d, MemberName::Account).map_err(Fault::Step)?;
    Ok(Event::Choose {
        call,
        provider: provider.unwrap_or(0),
        account: Text::of(alloc, account)?,
    })
}
