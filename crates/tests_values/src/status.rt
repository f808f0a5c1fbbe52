//! The maps in order of entering, each on a list of steps, and the values of Set-Login.
use crate::lines::{assert_so, assert_word, parts};
use crate::values::{origin_of, triple};
use fed_io::NoRoom;
use fed_origin::Origin;
use fed_provider::Rules;
use fed_status::{KeptSet, LoginMap, LoginStatus, Shared, SilentFlags, Triple, read_set_login};
use fed_suffix::Suffixes;
use std::alloc::Global;
use std::process::Abort;
use std::test::Fail;

const VALUES: &str = "logged-in | in
logged-out | out
\t logged-in \t; x=1 | in
logged-out;logged-in | out
Logged-In | ignored
logged-in x | ignored
\"logged-in\" | ignored
logged-in\u{b} | ignored
; logged-in | ignored
 | ignored";

// A status that is set again keeps its place.
const STATUSES: &str = "is | https://a.example | unknown
set | https://b.example:8443 | in
set | https://a.example | in
set | https://b.example:8443 | out
is | https://b.example:8443 | out
is | https://a.example | in
is | https://b.example | unknown
first | https://b.example:8443 | out";

// A flag that goes closes up.
const FLAGS: &str = "set | https://a.example
set | https://b.example
set | https://a.example
first | https://a.example
clear | https://a.example
clear | https://a.example
is-not | https://a.example
is | https://b.example
first | https://b.example";

// Two accounts of one pair, and one of another: one goes alone, and then the pair. One that comes back goes last.
const PERMISSIONS: &str = "lacks | https://a.example | https://b.example | u1
no-pair | https://a.example | https://b.example | u1
add | https://a.example | https://b.example | u1
add | https://b.example | https://b.example | u1
add | https://a.example | https://b.example | u2
add | https://a.example | https://b.example | u1
first | https://a.example | https://b.example | u1
lacks | https://b.example | https://b.example | u2
has | https://a.example | https://b.example | u2
remove | https://b.example | https://b.example | u2
remove | https://a.example | https://b.example | u1
lacks | https://a.example | https://b.example | u1
pair | https://a.example | https://b.example | u1
no-pair | https://b.example | https://a.example | u1
first | https://b.example | https://b.example | u1
second | https://a.example | https://b.example | u2
add | https://a.example | https://b.example | u1
second | https://a.example | https://b.example | u2
third | https://a.example | https://b.example | u1
remove-pair | https://a.example | https://b.example | u1
no-pair | https://a.example | https://b.example | u1
pair | https://b.example | https://b.example | u1
first | https://b.example | https://b.example | u1
remove | https://b.example | https://b.example | u1
no-pair | https://b.example | https://b.example | u1";

// All that is known, which is let go in one place.
struct Known {
    rules: Rules,
    login: LoginMap,
    kept: KeptSet,
    flags: SilentFlags,
}

impl Drop for Known {
    fn drop(self) {
        let Known {
            rules: _,
            login: _,
            kept: _,
            flags: _,
        } = self;
    }
}

impl Known {
    fn new(alloc: Global) -> Known {
        Known {
            rules: Rules::new(alloc, Suffixes::new(alloc)),
            login: LoginMap::new(alloc),
            kept: KeptSet::new(alloc),
            flags: SilentFlags::new(alloc),
        }
    }

    fn lent(&self) -> Shared<'_> {
        Shared {
            rules: &self.rules,
            login: &self.login,
            kept: &self.kept,
            flags: &self.flags,
        }
    }
}

fn word(status: LoginStatus) -> &'static str {
    match status {
        LoginStatus::Unknown => "unknown",
        LoginStatus::LoggedIn => "in",
        LoginStatus::LoggedOut => "out",
    }
}

fn read_word(value: &str) -> &'static str {
    match read_set_login(value.as_bytes()) {
        Some(status) => word(status),
        None => "ignored",
    }
}

#[test]
fn values_of_set_login(rt: HostRuntime) -> Result<(), Fail> {
    for line in VALUES.split('\n') {
        let (value, expected) = parts(line)?;
        assert_word(&rt, read_word(value), expected, line);
    }
    Ok(())
}

fn first_status(statuses: &LoginMap, origin: &Origin) -> &'static str {
    match statuses.item(0) {
        Some((first, status)) if first == origin => word(status),
        _ => "none",
    }
}

fn set_status(statuses: &mut LoginMap, origin: &Origin, status: &str) -> Result<(), NoRoom> {
    match status {
        "in" => statuses.set(origin, LoginStatus::LoggedIn),
        _ => statuses.set(origin, LoginStatus::LoggedOut),
    }
}

fn status_step(
    rt: &impl Abort,
    alloc: Global,
    statuses: &mut LoginMap,
    line: &str,
) -> Result<(), Fail> {
    let (step, more) = parts(line)?;
    let (url, status) = parts(more)?;
    let origin = origin_of(alloc, url)?;
    match step {
        "set" => set_status(statuses, &origin, status)?,
        "is" => assert_word(rt, word(statuses.get(&origin)), status, line),
        _ => assert_word(rt, first_status(statuses, &origin), status, line),
    }
    Ok(())
}

fn status_steps(rt: &impl Abort, alloc: Global, statuses: &mut LoginMap) -> Result<(), Fail> {
    for line in STATUSES.split('\n') {
        status_step(rt, alloc, statuses, line)?;
    }
    assert_so(rt, statuses.len() == 2, "two statuses");
    Ok(())
}

#[test]
fn statuses_keep_their_places(rt: HostRuntime) -> Result<(), Fail> {
    let mut known = Known::new(rt.alloc());
    status_steps(&rt, rt.alloc(), &mut known.login)
}

// Whether the step is as it says; `clear` is done.
fn follows_flag(flags: &mut SilentFlags, step: &str, origin: &Origin) -> bool {
    match step {
        "is" => flags.is_set(origin),
        "is-not" => !flags.is_set(origin),
        "first" => flags.item(0) == Some(origin),
        _ => {
            flags.clear(origin);
            true
        }
    }
}

fn flag_step(
    rt: &impl Abort,
    alloc: Global,
    flags: &mut SilentFlags,
    line: &str,
) -> Result<(), Fail> {
    let (step, url) = parts(line)?;
    let origin = origin_of(alloc, url)?;
    if step == "set" {
        flags.set(&origin)?;
    } else {
        assert_so(rt, follows_flag(flags, step, &origin), line);
    }
    Ok(())
}

fn flag_steps(rt: &impl Abort, alloc: Global, flags: &mut SilentFlags) -> Result<(), Fail> {
    for line in FLAGS.split('\n') {
        flag_step(rt, alloc, flags, line)?;
    }
    assert_so(rt, flags.len() == 1, "one flag");
    Ok(())
}

#[test]
fn flags_close_up(rt: HostRuntime) -> Result<(), Fail> {
    let mut known = Known::new(rt.alloc());
    flag_steps(&rt, rt.alloc(), &mut known.flags)
}

fn read_triple(alloc: Global, names: &str) -> Result<Triple, Fail> {
    let (page, more) = parts(names)?;
    let (provider, account) = parts(more)?;
    Ok(triple(alloc, page, provider, account)?)
}

fn is_at(kept: &KeptSet, place: usize, triple: &Triple) -> bool {
    match kept.item(place) {
        Some(item) => item == triple,
        None => false,
    }
}

// Whether the triple has the place that the step says, the third as the last.
fn has_place(kept: &KeptSet, step: &str, triple: &Triple) -> bool {
    match step {
        "first" => is_at(kept, 0, triple),
        "second" => is_at(kept, 1, triple),
        _ => is_at(kept, 2, triple) && kept.item(3).is_none(),
    }
}

fn is_so(kept: &KeptSet, step: &str, triple: &Triple) -> bool {
    match step {
        "has" => kept.has(&triple.page, &triple.provider, &triple.account),
        "lacks" => !kept.has(&triple.page, &triple.provider, &triple.account),
        "pair" => kept.has_pair(&triple.page, &triple.provider),
        "no-pair" => !kept.has_pair(&triple.page, &triple.provider),
        _ => has_place(kept, step, triple),
    }
}

// Whether the step is as it says; a removal is done.
fn follows(kept: &mut KeptSet, step: &str, triple: &Triple) -> bool {
    match step {
        "remove" => {
            kept.remove(&triple.page, &triple.provider, &triple.account);
            true
        }
        "remove-pair" => {
            kept.remove_pair(&triple.page, &triple.provider);
            true
        }
        _ => is_so(kept, step, triple),
    }
}

fn permission_step(
    rt: &impl Abort,
    alloc: Global,
    kept: &mut KeptSet,
    line: &str,
) -> Result<(), Fail> {
    let (step, names) = parts(line)?;
    let triple = read_triple(alloc, names)?;
    if step == "add" {
        kept.add(triple)?;
    } else {
        assert_so(rt, follows(kept, step, &triple), line);
    }
    Ok(())
}

fn permission_steps(rt: &impl Abort, alloc: Global, kept: &mut KeptSet) -> Result<(), Fail> {
    for line in PERMISSIONS.split('\n') {
        permission_step(rt, alloc, kept, line)?;
    }
    assert_so(rt, kept.len() == 0, "no permission");
    Ok(())
}

#[test]
fn permissions_come_and_go(rt: HostRuntime) -> Result<(), Fail> {
    let mut known = Known::new(rt.alloc());
    permission_steps(&rt, rt.alloc(), &mut known.kept)
}

fn knows_none(shared: &Shared, rules: &Suffixes) -> bool {
    shared.login.len() == 0
        && shared.kept.len() == 0
        && shared.flags.len() == 0
        && shared.rules.suffixes().same(rules)
}

#[test]
fn shared_is_lent(rt: HostRuntime) {
    let known = Known::new(rt.alloc());
    assert_so(
        &rt,
        knows_none(&known.lent(), known.rules.suffixes()),
        "lent",
    );
}
