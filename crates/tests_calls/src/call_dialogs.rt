//! Accounts and dialogs of calls.
use crate::browser::{Browser, with_permission, with_status};
use crate::call_words::follow;
use crate::values::{CONFIG, PAGE};
use fed_origin::{LoginStatus, Mediation};
use std::test::Fail;

const REFUSED: &str = "wellknown config empty | accounts-empty | ended
wellknown config accounts | accounts-shape | ended
wellknown config gone | status | ended";

// The accounts are refused where the provider had said that the user is logged in.
const SAID_LOGGED_IN: &str = "wellknown config gone | mismatch | mismatch
wellknown config gone cancel | user-cancelled | ended";

const CHOICES: &str = "wellknown linked both | choose | choosing
wellknown linked both cancel | user-cancelled | ended";

const PROMPTS: &str = "wellknown config ann | prompt | prompting
wellknown linked approved | connected | prompting
wellknown linked ann | metadata | prompting
wellknown linked ann links | linked | prompting
wellknown linked ann links links | not-waited | prompting
wellknown config ann cancel | user-cancelled | ended";

// The account of a kept permission is connected.
const PERMITTED: &str = "wellknown linked ann | connected | prompting";

// It is reselected where nothing is against it, among several too.
const RESELECTED: &str = "wellknown linked ann | asserts u1 again | asserting
wellknown linked both | asserts u1 again | asserting
wellknown linked ann go | not-offered | asserting
wellknown linked ann token | token again | ended
wellknown linked ann denied | IdentityCredentialError | ended";

const SILENT: &str = "wellknown linked ann | silent-no-account | ended
wellknown linked both | silent-no-account | ended";

#[test]
fn accounts_are_refused(rt: HostRuntime) -> Result<(), Fail> {
    let browser = Browser::new(rt.alloc());
    follow(&rt, rt.alloc(), &browser, REFUSED)
}

#[test]
fn the_provider_said_logged_in(rt: HostRuntime) -> Result<(), Fail> {
    let browser = with_status(rt.alloc(), CONFIG, LoginStatus::LoggedIn)?;
    follow(&rt, rt.alloc(), &browser, SAID_LOGGED_IN)
}

#[test]
fn a_choice_is_shown(rt: HostRuntime) -> Result<(), Fail> {
    let browser = Browser::new(rt.alloc());
    follow(&rt, rt.alloc(), &browser, CHOICES)
}

#[test]
fn a_prompt_is_shown(rt: HostRuntime) -> Result<(), Fail> {
    let browser = Browser::new(rt.alloc());
    follow(&rt, rt.alloc(), &browser, PROMPTS)
}

#[test]
fn a_kept_permission_connects(rt: HostRuntime) -> Result<(), Fail> {
    let browser = with_permission(rt.alloc(), PAGE)?.mediated(Mediation::Required);
    follow(&rt, rt.alloc(), &browser, PERMITTED)?;
    let browser = with_permission(rt.alloc(), PAGE)?.prevented(rt.alloc())?;
    follow(&rt, rt.alloc(), &browser, PERMITTED)
}

#[test]
fn a_kept_permission_reselects(rt: HostRuntime) -> Result<(), Fail> {
    let browser = with_permission(rt.alloc(), PAGE)?;
    follow(&rt, rt.alloc(), &browser, RESELECTED)?;
    let browser = with_permission(rt.alloc(), PAGE)?.mediated(Mediation::Silent);
    follow(&rt, rt.alloc(), &browser, RESELECTED)
}

#[test]
fn a_silent_call_shows_nothing(rt: HostRuntime) -> Result<(), Fail> {
    let browser = Browser::new(rt.alloc()).mediated(Mediation::Silent);
    follow(&rt, rt.alloc(), &browser, SILENT)
}
