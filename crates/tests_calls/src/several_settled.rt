//! Calls whose providers are all settled, and what their users do then.
use crate::browser::{Browser, with_permission};
use crate::several_words::{follow, follow_on};
use crate::values::{CONFIG, PAGE, TWO};
use fed_origin::Mediation;
use std::test::Fail;

// A line: the inputs of a call, what it does at the last of them, and its stage then. The account `u1` of `both` and of `approved` is
// connected to the client of the first provider, which the second has another id for.
const CHOICES: &str =
    "wellknown config ann wellknown@1 config@1 ann@1 | two in, choose u1@0 u1@1 | choosing
wellknown@1 config@1 ann@1 wellknown config both | idp in, choose u1@0+ u2@0 u1@1 | choosing
wellknown config ann wellknown@1 config@1 both@1 | two in, choose u1@0 u1@1 u2@1 | choosing
lost wellknown@1 config@1 both@1 | two in, choose u1@1 u2@1 | choosing
wellknown config both lost@1 | drop@1 well-known-reply status, choose u1@0+ u2@0 | choosing
wellknown config both wellknown@1 config@1 gone@1 | two out, drop@1 accounts-reply status, choose u1@0+ u2@0 | choosing";

const PROMPTS: &str =
    "wellknown config ann lost@1 | drop@1 well-known-reply status, prompt u1@0 | prompting
wellknown linked approved lost@1 | drop@1 well-known-reply status, prompt u1@0+ | prompting
wellknown linked ann lost@1 | drop@1 well-known-reply status, idp@0 metadata c1 | prompting
wellknown config ann wellknown@1 config@1 gone@1 | two out, drop@1 accounts-reply status, prompt u1@0 | prompting
lost wellknown@1 config@1 ann@1 | two in, prompt u1@1 | prompting
lost wellknown@1 config@1 approved@1 | two in, prompt u1@1 | prompting
lost wellknown@1 linked@1 approved@1 | two in, two@1 metadata c2 | prompting";

// Inputs that bring the chooser for `u1` (connected) and `u2` of the first provider, and `u1` of the second.
const CHOOSER: &str = "wellknown config both wellknown@1 linked@1 ann@1";

const CHOSEN: &str = "u1 | idp@0 token u1 | asserting
u2 | prompt u2@0 | prompting
u1@1 | two@1 metadata c2 | prompting
u2@1 | no-account | choosing
u3 | no-account | choosing
u1@2 | no-account | choosing
u2@1 u1@1 | two@1 metadata c2 | prompting
cancel | fails user-cancelled | ended
abort | fails aborted | ended
go | not-offered | choosing
signin | not-offered | choosing
wellknown | not-waited | choosing
ann@1 | not-waited | choosing
u1 u1 | not-offered | asserting
u1 token@1 | not-waited | asserting
u1 token | keep idp u1, clear, token@0 | ended
u1 denied | IdentityCredentialError | ended
u2 go | idp@0 token u2 shown | asserting
u1@1 u1 | not-offered | prompting
u1@1 go | not-offered | prompting
u1@1 links | not-waited | prompting
u1@1 cancel | fails user-cancelled | ended
u1@1 links@1 | prompt u1@1 linked | prompting
u1@1 links@1 go | two@1 token u1 shown | asserting
u1@1 links@1 go token | not-waited | asserting
u1@1 links@1 go token@1 | keep two u1, clear, token@1 | ended";

// A provider that dropped out offers nothing.
const DROPPED: &str = "wellknown config both lost@1 u1@1 | no-account | choosing
wellknown config both lost@1 config@1 | not-waited | choosing
wellknown config both lost@1 u1 | idp@0 token u1 | asserting
lost wellknown@1 config@1 both@1 u1 | no-account | choosing
lost wellknown@1 config@1 both@1 u2@1 | prompt u2@1 | prompting
lost wellknown@1 linked@1 ann@1 links | not-waited | prompting
lost wellknown@1 linked@1 ann@1 links@1 go token@1 | keep two u1, clear, token@1 | ended";

const SILENT: &str =
    "wellknown config ann wellknown@1 config@1 ann@1 | two in, fails silent-no-account | ended
wellknown config ann lost@1 | drop@1 well-known-reply status, fails silent-no-account | ended";

const SILENT_BOTH_KEPT: &str =
    "wellknown config ann wellknown@1 config@1 ann@1 | two in, fails silent-no-account | ended
wellknown config ann lost@1 | drop@1 well-known-reply status, idp@0 token u1 again | asserting";

// The permission of the account `u1` of the first provider is kept.
const FIRST_KEPT: &str =
    "wellknown config ann wellknown@1 config@1 ann@1 | two in, idp@0 token u1 again | asserting
wellknown@1 config@1 both@1 wellknown linked both | idp in, idp@0 token u1 again | asserting
wellknown config ann lost@1 | drop@1 well-known-reply status, idp@0 token u1 again | asserting
lost wellknown@1 config@1 ann@1 lost | not-waited | prompting
wellknown config ann lost@1 token@1 | not-waited | asserting
wellknown config ann lost@1 token | keep idp u1, token@0 again | ended";

// That of the second provider.
const SECOND_KEPT: &str =
    "wellknown config both wellknown@1 config@1 ann@1 | two in, two@1 token u1 again | asserting
wellknown@1 config@1 ann@1 lost | drop@0 well-known-reply status, two@1 token u1 again | asserting
wellknown@1 config@1 ann@1 lost token@1 | keep two u1, token@1 again | ended
wellknown config ann wellknown@1 config@1 approved@1 | two in, choose u1@0 u1@1 | choosing
wellknown config ann lost@1 | drop@1 well-known-reply status, prompt u1@0 | prompting";

// Those of both: there is no single one, unless the other provider drops out.
const BOTH_KEPT: &str =
    "wellknown config ann wellknown@1 linked@1 ann@1 | two in, choose u1@0+ u1@1+ | choosing
wellknown config ann wellknown@1 linked@1 ann@1 u1@1 | two@1 token u1 | asserting
wellknown config ann wellknown@1 config@1 empty@1 | two out, drop@1 accounts-empty, idp@0 token u1 again | asserting";

// No account is reselected; the permission connects.
const CONNECTED: &str =
    "wellknown config ann wellknown@1 config@1 ann@1 | two in, choose u1@0+ u1@1 | choosing
wellknown linked ann lost@1 | drop@1 well-known-reply status, prompt u1@0+ | prompting";

#[test]
fn a_choice_is_shown(rt: HostRuntime) -> Result<(), Fail> {
    let browser = Browser::new(rt.alloc());
    follow(&rt, rt.alloc(), &browser, CHOICES)
}

#[test]
fn a_prompt_is_shown(rt: HostRuntime) -> Result<(), Fail> {
    let browser = Browser::new(rt.alloc());
    follow(&rt, rt.alloc(), &browser, PROMPTS)
}

#[test]
fn an_account_is_chosen(rt: HostRuntime) -> Result<(), Fail> {
    let browser = Browser::new(rt.alloc());
    follow_on(&rt, rt.alloc(), &browser, CHOOSER, CHOSEN)
}

#[test]
fn a_dropped_provider_offers_nothing(rt: HostRuntime) -> Result<(), Fail> {
    let browser = Browser::new(rt.alloc());
    follow(&rt, rt.alloc(), &browser, DROPPED)
}

#[test]
fn a_silent_call_shows_nothing(rt: HostRuntime) -> Result<(), Fail> {
    let browser = Browser::new(rt.alloc()).mediated(Mediation::Silent);
    follow(&rt, rt.alloc(), &browser, SILENT)?;
    let browser = with_permission(rt.alloc(), PAGE)?.permitted(rt.alloc(), TWO)?;
    let silent = browser.mediated(Mediation::Silent);
    follow(&rt, rt.alloc(), &silent, SILENT_BOTH_KEPT)
}

#[test]
fn a_kept_permission_reselects(rt: HostRuntime) -> Result<(), Fail> {
    let first = with_permission(rt.alloc(), PAGE)?;
    follow(&rt, rt.alloc(), &first, FIRST_KEPT)?;
    let second = Browser::new(rt.alloc()).permitted(rt.alloc(), TWO)?;
    follow(&rt, rt.alloc(), &second, SECOND_KEPT)
}

#[test]
fn two_kept_permissions(rt: HostRuntime) -> Result<(), Fail> {
    let browser = Browser::new(rt.alloc()).permitted(rt.alloc(), CONFIG)?;
    let both = browser.permitted(rt.alloc(), TWO)?;
    follow(&rt, rt.alloc(), &both, BOTH_KEPT)
}

#[test]
fn a_kept_permission_connects(rt: HostRuntime) -> Result<(), Fail> {
    let required = with_permission(rt.alloc(), PAGE)?.mediated(Mediation::Required);
    follow(&rt, rt.alloc(), &required, CONNECTED)?;
    let prevented = with_permission(rt.alloc(), PAGE)?.prevented(rt.alloc())?;
    follow(&rt, rt.alloc(), &prevented, CONNECTED)
}
