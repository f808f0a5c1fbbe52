//! Calls with several providers, from their beginning until all providers are settled.
use crate::browser::{Browser, with_status};
use crate::lines::assert_word;
use crate::several_words::{after, after_its_end, begin_all, follow, read_all, stands};
use crate::values::CONFIG;
use fed_origin::{LoginStatus, Mediation};
use std::alloc::Global;
use std::test::Fail;

// A line: the providers of a call, what it does when it begins, and its stage then.
const BEGINS: &str =
    "idp two | idp@0 wellknown, idp@0 config, two@1 wellknown, two@1 config | gathering
two idp | two@0 wellknown, two@0 config, idp@1 wellknown, idp@1 config | gathering
idp fragment | idp@0 wellknown, idp@0 config, idp@1 wellknown, idp@1 config | gathering
idp | idp@0 wellknown, idp@0 config | reading";

const DROPS: &str = "idp http | idp@0 wellknown, idp@0 config, drop@1 config-scheme | gathering
address two | drop@0 no-site, two@1 wellknown, two@1 config | gathering
http address | drop@0 config-scheme, drop@1 no-site, fails config-scheme | ended
address http | drop@0 no-site, drop@1 config-scheme, fails no-site | ended
http | fails config-scheme | ended";

const TWICE: &str = "idp idp | fails provider-twice | ended
idp port | fails provider-twice | ended
idp two idp | fails provider-twice | ended
http two http | fails provider-twice | ended";

const ACTIVE: &str = "idp two | fails active-many | ended
idp idp | fails active-many | ended
http address | fails active-many | ended";

const PREVENTED: &str = "idp two | fails silent-prevented | ended
http address | fails silent-prevented | ended
idp idp | fails provider-twice | ended";

const LOGGED_OUT: &str = "idp two | drop@0 logged-out, two@1 wellknown, two@1 config | gathering
two idp | two@0 wellknown, two@0 config, drop@1 logged-out | gathering
http idp | drop@0 config-scheme, drop@1 logged-out, fails config-scheme | ended
idp fragment | drop@0 logged-out, drop@1 logged-out, fails logged-out | ended
idp | fails logged-out | ended";

// A line: the inputs of a call, what it does at the last of them, and its stage then.
const FIRST_REPLIES: &str = "wellknown | - | gathering
wellknown config | idp@0 accounts | gathering
config wellknown | idp@0 accounts | gathering
wellknown@1 config@1 | two@1 accounts | gathering
wellknown config@1 | - | gathering
config@1 wellknown config | idp@0 accounts | gathering
lost | drop@0 well-known-reply status | gathering
wellknown broken | drop@0 config-shape | gathering
broken@1 | drop@1 config-shape | gathering";

const ACCOUNTS: &str = "wellknown config ann | idp in | gathering
wellknown@1 config@1 both@1 | two in | gathering
wellknown config gone | idp out, drop@0 accounts-reply status | gathering
wellknown config empty | idp out, drop@0 accounts-empty | gathering
wellknown@1 config@1 accounts@1 | two out, drop@1 accounts-shape | gathering";

const NOT_TAKEN: &str = "wellknown wellknown | not-waited | gathering
wellknown config config | not-waited | gathering
wellknown@2 | not-waited | gathering
ann | not-waited | gathering
wellknown config ann@1 | not-waited | gathering
wellknown config ann ann | not-waited | gathering
wellknown config ann config | not-waited | gathering
links | not-waited | gathering
token | not-waited | gathering
lost wellknown | not-waited | gathering
lost config | not-waited | gathering
wellknown broken ann | not-waited | gathering
wellknown config gone ann | not-waited | gathering
u1 | not-offered | gathering
go | not-offered | gathering
cancel | not-offered | gathering
signin | not-offered | gathering
shut | not-offered | gathering
resume | not-offered | gathering";

const ABORTED: &str = "abort | fails aborted | ended
lost abort | fails aborted | ended
wellknown config ann abort | fails aborted | ended
abort wellknown | call-ended | ended";

// The failure is that of the first provider, whichever was the last.
const ALL_DROP: &str =
    "lost lost@1 | drop@1 well-known-reply status, fails well-known-reply status | ended
lost@1 wellknown broken | drop@0 config-shape, fails config-shape | ended
wellknown broken lost@1 | drop@1 well-known-reply status, fails config-shape | ended
lost wellknown@1 config@1 gone@1 | two out, drop@1 accounts-reply status, fails well-known-reply status | ended
lost@1 wellknown config empty | idp out, drop@0 accounts-empty, fails accounts-empty | ended
lost lost@1 wellknown | call-ended | ended";

const ONE_LEFT: &str = "wellknown | not-waited | gathering
wellknown@1 config@1 ann@1 | two in, prompt u1@1 | prompting
lost@1 | drop@1 well-known-reply status, fails logged-out | ended";

// A line: the providers of a call, its inputs, and which of those at the places 0 to 2 are awaited with their first replies.
const READING: &str = "idp two | go | idp two -
two idp | go | two idp -
http two | go | - two -
idp two | wellknown | idp two -
idp two | wellknown config | - two -
idp two | lost | - two -
idp two | wellknown config lost@1 | - - -
idp two | lost lost@1 | - - -
idp | go | idp - -
idp | wellknown | idp - -
idp | wellknown config | - - -
idp | lost | - - -";

#[test]
fn calls_begin(rt: HostRuntime) -> Result<(), Fail> {
    let browser = Browser::new(rt.alloc());
    begin_all(&rt, rt.alloc(), &browser, BEGINS)?;
    begin_all(&rt, rt.alloc(), &browser.idle(), BEGINS)?;
    let silent = Browser::new(rt.alloc()).mediated(Mediation::Silent);
    begin_all(&rt, rt.alloc(), &silent, BEGINS)?;
    let prevented = Browser::new(rt.alloc()).prevented(rt.alloc())?;
    begin_all(&rt, rt.alloc(), &prevented, BEGINS)
}

#[test]
fn providers_drop_out_at_once(rt: HostRuntime) -> Result<(), Fail> {
    let browser = Browser::new(rt.alloc());
    begin_all(&rt, rt.alloc(), &browser, DROPS)?;
    let browser = with_status(rt.alloc(), CONFIG, LoginStatus::LoggedOut)?;
    begin_all(&rt, rt.alloc(), &browser, LOGGED_OUT)
}

#[test]
fn a_provider_is_named_twice(rt: HostRuntime) -> Result<(), Fail> {
    let browser = Browser::new(rt.alloc());
    begin_all(&rt, rt.alloc(), &browser, TWICE)
}

#[test]
fn an_active_call_has_one_provider(rt: HostRuntime) -> Result<(), Fail> {
    let browser = Browser::new(rt.alloc()).active();
    begin_all(&rt, rt.alloc(), &browser, ACTIVE)?;
    let silent = browser
        .idle()
        .prevented(rt.alloc())?
        .mediated(Mediation::Silent);
    begin_all(&rt, rt.alloc(), &silent, ACTIVE)
}

#[test]
fn silent_access_is_prevented(rt: HostRuntime) -> Result<(), Fail> {
    let prevented = Browser::new(rt.alloc()).prevented(rt.alloc())?;
    let silent = prevented.mediated(Mediation::Silent);
    begin_all(&rt, rt.alloc(), &silent, PREVENTED)
}

#[test]
fn first_replies(rt: HostRuntime) -> Result<(), Fail> {
    let browser = Browser::new(rt.alloc());
    follow(&rt, rt.alloc(), &browser, FIRST_REPLIES)
}

#[test]
fn accounts_replies(rt: HostRuntime) -> Result<(), Fail> {
    let browser = Browser::new(rt.alloc());
    follow(&rt, rt.alloc(), &browser, ACCOUNTS)
}

#[test]
fn what_is_not_taken(rt: HostRuntime) -> Result<(), Fail> {
    let browser = Browser::new(rt.alloc());
    follow(&rt, rt.alloc(), &browser, NOT_TAKEN)
}

#[test]
fn a_call_is_aborted(rt: HostRuntime) -> Result<(), Fail> {
    let browser = Browser::new(rt.alloc());
    follow(&rt, rt.alloc(), &browser, ABORTED)
}

#[test]
fn all_providers_drop_out(rt: HostRuntime) -> Result<(), Fail> {
    let browser = Browser::new(rt.alloc());
    follow(&rt, rt.alloc(), &browser, ALL_DROP)?;
    let silent = browser.mediated(Mediation::Silent);
    follow(&rt, rt.alloc(), &silent, ALL_DROP)
}

#[test]
fn one_dropped_out_at_once(rt: HostRuntime) -> Result<(), Fail> {
    let browser = with_status(rt.alloc(), CONFIG, LoginStatus::LoggedOut)?;
    follow(&rt, rt.alloc(), &browser, ONE_LEFT)
}

#[test]
fn who_is_awaited(rt: HostRuntime) -> Result<(), Fail> {
    let browser = Browser::new(rt.alloc());
    read_all(&rt, rt.alloc(), &browser, READING)
}

// ---- the most providers that there are, and a call that is over

// The configuration URLs of ten providers, with this before their numbers.
fn ten(alloc: Global, scheme: &str) -> Result<String, Fail> {
    let mut names = String::new(alloc);
    for n in 0..10 {
        if n > 0 {
            names.push_str(" ")?;
        }
        let name = format!(in alloc; "{scheme}{n}.example/fedcm.json")?;
        names.push_str(name.as_str())?;
    }
    Ok(names)
}

// What a call with ten providers says of each.
fn ten_times(alloc: Global, before: &str, after: &str) -> Result<String, Fail> {
    let mut said = String::new(alloc);
    for n in 0..10 {
        if n > 0 {
            said.push_str(", ")?;
        }
        let one = format!(in alloc; "{before}@{n} {after}")?;
        said.push_str(one.as_str())?;
    }
    Ok(said)
}

#[test]
fn ten_providers(rt: HostRuntime) -> Result<(), Fail> {
    let browser = Browser::new(rt.alloc());
    let names = ten(rt.alloc(), "http://p")?;
    let said = ten_times(rt.alloc(), "drop", "config-scheme")?;
    let line = format!(in rt.alloc(); "{names} | {said}, fails config-scheme | ended")?;
    begin_all(&rt, rt.alloc(), &browser, line.as_str())?;
    let names = ten(rt.alloc(), "https://p")?;
    let call = after(rt.alloc(), names.as_str(), "lost@9", &browser)?;
    assert_word(
        &rt,
        call.said.as_str(),
        "drop@9 well-known-reply status",
        "the tenth",
    );
    let call = after(rt.alloc(), names.as_str(), "lost@10", &browser)?;
    assert_word(&rt, call.said.as_str(), "not-waited", "an eleventh");
    Ok(())
}

// A call that is over takes nothing, and is of no page.
#[test]
fn a_call_that_is_over(rt: HostRuntime) -> Result<(), Fail> {
    let browser = Browser::new(rt.alloc());
    let call = after_its_end(rt.alloc(), &browser, "abort")?;
    stands(&rt, &call, "call-ended", "ended", "abort");
    let call = after_its_end(rt.alloc(), &browser, "wellknown")?;
    stands(&rt, &call, "call-ended", "ended", "wellknown");
    Ok(())
}
