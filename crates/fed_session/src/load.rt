//! What replies of page loads, and lines of the kind `have`, say of cookies and login statuses.
ghost use Rattle.std.specs.Prelude.{◌≡◌, ◌<◌, ◌+◌, ◌-◌, ◌^◌, [], ◌∷◌, length, IfOk, OnOk};
ghost use Rattle.fed_origin.specs.WebUrl.{origin_of};
ghost use Rattle.fed_reply.specs.Fields.{values};
ghost use Rattle.fed_script.specs.Used.{SaysKnown};
ghost use Rattle.fed_trace.specs.Row.{cookies_from, have_cookies, set_cookies, set_cookie_name, set_logins, set_login_name};
ghost use Rattle.fed_session.specs.Cookies.{with_all_stored};
ghost use Rattle.fed_session.specs.StepParts.{with_statuses, logins_in, have_statuses, have_kept, have_flags};

use crate::sight::Sight;
use fed_io::{Bytes, Fault, NoRoom};
use fed_origin::{Origin, SharedOrigin, WebUrl};
use fed_reply::{Reply, read_head};
use fed_script::Have;
use fed_status::{LoginMap, read_set_login};
use std::alloc::Global;

/// The origin of a page that is loaded from a URL, which the calls of the page share.
pub(crate) fn page_origin(alloc: Global, url: &WebUrl) -> Result<SharedOrigin, NoRoom>
    ensures { IfOk result (λ origin. origin ≡ origin_of url.now) }
{
    SharedOrigin::new(alloc, Origin::of_url(alloc, url)?)
}

/// Stores the Set-Cookie values of a load's reply, in their order (RFC 6265, 5.3), and then sets the status of its URL's
/// origin by its Set-Login values, in their order (Login Status API). A reply whose head is not read has none.
pub(crate) fn take_head(
    alloc: Global,
    sight: &mut Sight,
    url: &WebUrl,
    raw: &Option<Bytes>,
) -> Result<(), NoRoom>
    requires { sight.old.cookies.entered + length (set_cookies raw.now) < 2 ^ 64 }
    ensures { OnOk result (sight.new ≡ record sight.old {
      cookies =
          with_all_stored sight.old.time sight.old.cookies
          (cookies_from sight.old.cookies.rules url.now sight.old.time (set_cookies raw.now));
      login =
          with_statuses (origin_of url.now) (set_logins raw.now) sight.old.login;
    }) }
{
    let Some(raw) = raw else {
        return Ok(());
    };
    match read_head(alloc, raw.as_slice()) {
        Ok(head) => {
            store_fields(alloc, sight, url, &head)?;
            let origin = Origin::of_url(alloc, url)?;
            set_statuses(&mut sight.login, &origin, &head)
        }
        Err(Fault::Step(_)) => Ok(()),
        Err(Fault::NoRoom) => Err(NoRoom),
    }
}

// Stores each Set-Cookie value of a reply.
fn store_fields(alloc: Global, sight: &mut Sight, url: &WebUrl, head: &Reply) -> Result<(), NoRoom>
    requires { sight.old.cookies.entered + length (values set_cookie_name head.now.fields) < 2 ^ 64 }
    ensures { OnOk result (sight.new ≡ record sight.old {
      cookies =
          with_all_stored sight.old.time sight.old.cookies
          (cookies_from sight.old.cookies.rules url.now sight.old.time (values set_cookie_name head.now.fields));
    }) }
{
    for value in head.values("set-cookie") {
        sight.store(alloc, url, value.as_bytes())?;
    }
    Ok(())
}

// Sets the status of an origin by each Set-Login value of a reply.
fn set_statuses(login: &mut LoginMap, origin: &Origin, head: &Reply) -> Result<(), NoRoom>
    ensures { OnOk result (login.new ≡ with_statuses origin.now (logins_in (values set_login_name head.now.fields)) login.old) }
{
    for value in head.values("set-login") {
        set_status(login, origin, value.as_bytes())?;
    }
    Ok(())
}

// Sets the status of an origin by a Set-Login value, unless it is ignored.
fn set_status(login: &mut LoginMap, origin: &Origin, field: &[u8]) -> Result<(), NoRoom>
    ensures { OnOk result (login.new ≡ with_statuses origin.now (logins_in (field.now ∷ [])) login.old) }
{
    match read_set_login(field) {
        Some(status) => login.set(origin, status),
        None => Ok(()),
    }
}

/// Stores the cookie, or sets the status, the permission or the flag, that a line of the kind `have` names.
pub(crate) fn take_have(alloc: Global, sight: &mut Sight, have: &Have) -> Result<(), NoRoom>
    requires known { SaysKnown have.now }
    requires room { sight.old.cookies.entered < 2 ^ 64 - 1 }
    ensures { OnOk result (sight.new ≡ record sight.old {
      cookies =
          with_all_stored sight.old.time sight.old.cookies (have_cookies sight.old.cookies.rules sight.old.time have.now);
      login =
          have_statuses have.now sight.old.login;
      kept = have_kept have.now sight.old.kept;
      flags = have_flags have.now sight.old.flags;
    }) }
{
    match have {
        Have::Cookie { url, field } => sight.store(alloc, url, field.as_slice()),
        Have::Login { origin, status } => sight.login.set(origin, *status),
        Have::Kept(triple) => sight.kept.add(triple.copy(alloc)?),
        Have::Silent { origin } => sight.flags.set(origin),
    }
}
