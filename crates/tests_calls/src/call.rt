//! Calls from their beginning to their accounts request.
use crate::browser::{Browser, with_status};
use crate::call_words::{begin_all, follow};
use crate::values::{CONFIG, PAGE};
use fed_origin::{LoginStatus, Mediation};
use std::test::Fail;

// What a call does when it begins: its provider, its mode, what it does, and its page.
const BEGINS: &str = "provider passive | first | 7";

const LOGGED_OUT: &str = "provider passive | logged-out | over
provider active | first | 7";

const PREVENTED: &str = "provider passive | silent-prevented | over";

const FAILS: &str = "http passive | config-scheme | over
address passive | no-site | over
address active | no-site | over";

// Where the user did nothing at the page.
const IDLE: &str = "provider passive | first | 7
provider active | no-activation | over
http active | config-scheme | over
address active | no-activation | over";

const IDLE_AND_PREVENTED: &str = "provider active | no-activation | over";

// The bodies of well-known replies.
const WELL_KNOWN_FILES: &str = "{\"provider_urls\":[\"/a\",\"/b\"]} | well-known-shape | ended
{\"provider_urls\":[\"https://accounts.idp.example/other.json\"]} | well-known-other | ended
{\"provider_urls\":[\"//accounts.idp.example/fedcm.json\"]} | nothing | reading";

// The two first replies come in either order.
const EITHER_ORDER: &str = "config lost | status | ended
wellknown broken | config-shape | ended
config wellknown | accounts | listing
wellknown config | accounts | listing";

const NOT_TAKEN: &str = "wellknown wellknown | not-waited | reading
config config | not-waited | reading
wellknown@1 | not-waited | reading
accounts | not-waited | reading
cancel | not-offered | reading
signin | not-offered | reading
shut | not-offered | reading
resume | not-offered | reading
wellknown config links | not-waited | listing
lost wellknown | call-ended | ended";

const ABORTED: &str = "abort | aborted | ended
wellknown config abort | aborted | ended";

#[test]
fn logged_out_at_the_provider(rt: HostRuntime) -> Result<(), Fail> {
    let browser = with_status(rt.alloc(), CONFIG, LoginStatus::LoggedOut)?;
    begin_all(&rt, rt.alloc(), &browser, LOGGED_OUT)
}

#[test]
fn logged_out_at_the_page(rt: HostRuntime) -> Result<(), Fail> {
    let browser = with_status(rt.alloc(), PAGE, LoginStatus::LoggedOut)?;
    begin_all(&rt, rt.alloc(), &browser, BEGINS)
}

#[test]
fn logged_in(rt: HostRuntime) -> Result<(), Fail> {
    let browser = with_status(rt.alloc(), CONFIG, LoginStatus::LoggedIn)?;
    begin_all(&rt, rt.alloc(), &browser, BEGINS)
}

#[test]
fn silent_access_is_prevented(rt: HostRuntime) -> Result<(), Fail> {
    let browser = Browser::new(rt.alloc()).prevented(rt.alloc())?;
    begin_all(&rt, rt.alloc(), &browser, BEGINS)?;
    let silent = browser.mediated(Mediation::Silent);
    begin_all(&rt, rt.alloc(), &silent, PREVENTED)
}

#[test]
fn silent_access_is_allowed(rt: HostRuntime) -> Result<(), Fail> {
    let browser = Browser::new(rt.alloc()).mediated(Mediation::Silent);
    begin_all(&rt, rt.alloc(), &browser, BEGINS)
}

#[test]
fn a_call_fails_at_once(rt: HostRuntime) -> Result<(), Fail> {
    let browser = Browser::new(rt.alloc());
    begin_all(&rt, rt.alloc(), &browser, FAILS)
}

#[test]
fn an_active_call_needs_the_user(rt: HostRuntime) -> Result<(), Fail> {
    let idle = Browser::new(rt.alloc()).idle();
    begin_all(&rt, rt.alloc(), &idle, IDLE)?;
    let prevented = idle.prevented(rt.alloc())?.mediated(Mediation::Silent);
    begin_all(&rt, rt.alloc(), &prevented, IDLE_AND_PREVENTED)
}

#[test]
fn well_known_file(rt: HostRuntime) -> Result<(), Fail> {
    let browser = Browser::new(rt.alloc());
    follow(&rt, rt.alloc(), &browser, WELL_KNOWN_FILES)
}

#[test]
fn either_order(rt: HostRuntime) -> Result<(), Fail> {
    let browser = Browser::new(rt.alloc());
    follow(&rt, rt.alloc(), &browser, EITHER_ORDER)
}

#[test]
fn what_is_not_taken(rt: HostRuntime) -> Result<(), Fail> {
    let browser = Browser::new(rt.alloc());
    follow(&rt, rt.alloc(), &browser, NOT_TAKEN)
}

#[test]
fn a_call_is_aborted(rt: HostRuntime) -> Result<(), Fail> {
    let browser = Browser::new(rt.alloc());
    follow(&rt, rt.alloc(), &browser, ABORTED)
}
