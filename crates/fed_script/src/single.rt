//! Lines of the kinds that have one member.
ghost use Rattle.std.specs.Prelude.{◌≡◌};
ghost use Rattle.fed_script.specs.Said.{shown};
ghost use Rattle.fed_script.specs.Single as spec;

use crate::cause::{LineCause, MemberName};
use crate::event::Event;
use crate::member::{number, whole};
use crate::said::Said;

/// The time that a line names.
pub(crate) fn at(d: &Said<'_>) -> Result<Event, LineCause>
    ensures { result ≡ spec.at_of (shown d.now) }
{
    let time = whole(d, MemberName::Time)?;
    Ok(Event::At { time })
}

/// The page that a line closes.
pub(crate) fn close_page(d: &Said<'_>) -> Result<Event, LineCause>
    ensures { result ≡ spec.closepage_of (shown d.now) }
{
    let page = number(d, MemberName::Page)?;
    Ok(Event::ClosePage { page })
}

/// The call that a line aborts.
pub(crate) fn abort(d: &Said<'_>) -> Result<Event, LineCause>
    ensures { result ≡ spec.abort_of (shown d.now) }
{
    let call = number(d, MemberName::Call)?;
    Ok(Event::Abort { call })
}

/// The call whose prompt a line answers.
pub(crate) fn go_on(d: &Said<'_>) -> Result<Event, LineCause>
    ensures { result ≡ spec.go_on_of (shown d.now) }
{
    let call = number(d, MemberName::Call)?;
    Ok(Event::GoOn { call })
}

/// The call whose dialog a line closes.
pub(crate) fn cancel(d: &Said<'_>) -> Result<Event, LineCause>
    ensures { result ≡ spec.cancel_of (shown d.now) }
{
    let call = number(d, MemberName::Call)?;
    Ok(Event::Cancel { call })
}

/// The call whose login window the user asks for.
pub(crate) fn sign_in(d: &Said<'_>) -> Result<Event, LineCause>
    ensures { result ≡ spec.signin_of (shown d.now) }
{
    let call = number(d, MemberName::Call)?;
    Ok(Event::SignIn { call })
}

/// The call whose login window the user closes.
pub(crate) fn shut_window(d: &Said<'_>) -> Result<Event, LineCause>
    ensures { result ≡ spec.shutwindow_of (shown d.now) }
{
    let call = number(d, MemberName::Call)?;
    Ok(Event::ShutWindow { call })
}

/// The page that says that the user has signed in.
pub(crate) fn idp_close(d: &Said<'_>) -> Result<Event, LineCause>
    ensures { result ≡ spec.idpclose_of (shown d.now) }
{
    let page = number(d, MemberName::Page)?;
    Ok(Event::IdpClose { page })
}

/// The page that prevents silent access.
pub(crate) fn prevent(d: &Said<'_>) -> Result<Event, LineCause>
    ensures { result ≡ spec.prevent_of (shown d.now) }
{
    let page = number(d, MemberName::Page)?;
    Ok(Event::Prevent { page })
}
