//! What a caller concludes from the contracts of statuses, permissions, flags and cookies.
ghost use Rattle.std.specs.Prelude.{◌≡◌, [], true, false, IfOk, nat_eq, slice_get, length, ◌-◌, Some};
ghost use Rattle.std.specs.List.{starts_with};
ghost use Rattle.fed_origin.specs.Origin.{same_origin};
ghost use Rattle.fed_origin.specs.Status.{is_known};

use fed_cookie::path_matches;
use fed_io::{Bytes, NoRoom};
use fed_jar::Jar;
use fed_origin::{Origin, WebUrl};
use fed_status::{KeptSet, LoginMap, LoginStatus, SilentFlags, Triple};
use fed_suffix::Suffixes;
use std::alloc::Global;

/// The status that is set first is read back.
pub fn first_status(
    alloc: Global,
    origin: &Origin,
    status: LoginStatus,
) -> Result<LoginStatus, NoRoom>
    requires { is_known status ≡ true }
    ensures { IfOk result (λ read. read ≡ status) }
{
    let mut logins = LoginMap::new(alloc);
    logins.set(origin, status)?;
    Ok(logins.get(origin))
}

/// A status that is set first is that of no other origin.
pub fn other_status(
    alloc: Global,
    origin: &Origin,
    other: &Origin,
    status: LoginStatus,
) -> Result<LoginStatus, NoRoom>
    requires known { is_known status ≡ true }
    requires other { same_origin other.now origin.now ≡ false }
    ensures { IfOk result (λ read. read ≡ LoginStatus.Unknown) }
{
    let mut statuses = LoginMap::new(alloc);
    statuses.set(origin, status)?;
    Ok(statuses.get(other))
}

/// The flag that is set first is there.
pub fn first_flag(alloc: Global, origin: &Origin) -> Result<bool, NoRoom>
    ensures { IfOk result (λ set. set ≡ true) }
{
    let mut flags = SilentFlags::new(alloc);
    flags.set(origin)?;
    Ok(flags.is_set(origin))
}

/// The permission that is kept first is there.
#[tactic(auto, using(crate::proofs::kept::Itself::same_itself))]
pub fn first_permission(alloc: Global, triple: &Triple) -> Result<bool, NoRoom>
    ensures { IfOk result (λ kept. kept ≡ true) }
{
    let copy = triple.copy(alloc)?;
    let mut kept = KeptSet::new(alloc);
    kept.add(copy)?;
    Ok(kept.has(&triple.page, &triple.provider, &triple.account))
}

/// A jar without cookies sends none, to any URL at any time.
#[tactic(auto, unfolding(fed_jar::specs::Send::jar_text))]
pub fn nothing_sent(
    alloc: Global,
    rules: &Suffixes,
    url: &WebUrl,
    now: u64,
) -> Result<Bytes, NoRoom>
    ensures { IfOk result (λ text. text ≡ []) }
{
    let jar = Jar::new(alloc);
    jar.cookie_text(alloc, rules, url, now)
}

/// A cookie's path that ends in a slash matches each path that begins with it.
#[tactic(auto, unfolding(fed_cookie::specs::Matches::path_matches))]
pub fn folder_matches(request: &[u8], folder: &[u8]) -> bool
    requires folder { slice_get folder.now (length folder.now - 1) ≡ Some 47 }
    requires begins { starts_with nat_eq request.now folder.now ≡ true }
    ensures { result ≡ true }
{
    path_matches(request, folder)
}
