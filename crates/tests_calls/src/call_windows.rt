//! Login windows of calls.
use crate::browser::{Browser, with_status};
use crate::call_words::{follow, wait_all};
use crate::values::CONFIG;
use fed_origin::{LoginStatus, Mediation};
use std::test::Fail;

// The accounts of an active call are refused.
const ACTIVE: &str = "wellknown config gone | window | window
wellknown config empty | window | window
wellknown config gone signin | not-offered | window
wellknown config gone cancel | not-offered | window
wellknown config gone go | not-offered | window
wellknown config gone u1 | not-offered | window
wellknown config gone ann | not-waited | window
wellknown config gone abort | aborted | ended
wellknown config gone shut | window-shut | ended
wellknown config gone shut resume | call-ended | ended
wellknown config gone resume | accounts | listing
wellknown config gone resume resume | not-offered | listing
wellknown config gone resume ann | prompt | prompting
wellknown config gone resume gone | window | window
wellknown config gone resume gone resume | accounts | listing
wellknown config ann resume | not-offered | prompting
wellknown config ann shut | not-offered | prompting";

// The user asks for the window of a passive call at the mismatch dialog.
const ASKED: &str = "wellknown config gone signin | window | window
wellknown config gone shut | not-offered | mismatch
wellknown config gone resume | not-offered | mismatch
wellknown config gone signin signin | not-offered | window
wellknown config gone signin shut | window-shut | ended
wellknown config gone signin resume | accounts | listing
wellknown config gone signin resume both | choose | choosing
wellknown config gone signin resume gone | mismatch | mismatch";

const SILENT: &str = "wellknown config gone | status | ended
wellknown config empty | accounts-empty | ended";

// Whether an active call waits for its provider.
const WAITING: &str = "wellknown config gone | yes
wellknown config | no
wellknown config gone resume | no
wellknown config gone shut | no";

#[test]
fn a_window_opens_for_an_active_call(rt: HostRuntime) -> Result<(), Fail> {
    let browser = Browser::new(rt.alloc()).active();
    follow(&rt, rt.alloc(), &browser, ACTIVE)?;
    let browser = with_status(rt.alloc(), CONFIG, LoginStatus::LoggedIn)?.active();
    follow(&rt, rt.alloc(), &browser, ACTIVE)?;
    let browser = with_status(rt.alloc(), CONFIG, LoginStatus::LoggedOut)?.active();
    follow(&rt, rt.alloc(), &browser, ACTIVE)
}

#[test]
fn the_user_asks_for_a_window(rt: HostRuntime) -> Result<(), Fail> {
    let browser = with_status(rt.alloc(), CONFIG, LoginStatus::LoggedIn)?;
    follow(&rt, rt.alloc(), &browser, ASKED)
}

#[test]
fn a_silent_call_opens_no_window(rt: HostRuntime) -> Result<(), Fail> {
    let browser = with_status(rt.alloc(), CONFIG, LoginStatus::LoggedIn)?;
    let silent = browser.active().mediated(Mediation::Silent);
    follow(&rt, rt.alloc(), &silent, SILENT)
}

#[test]
fn a_call_waits_for_its_provider(rt: HostRuntime) -> Result<(), Fail> {
    let browser = Browser::new(rt.alloc()).active();
    wait_all(&rt, rt.alloc(), &browser, WAITING)
}
