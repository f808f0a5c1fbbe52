//! Disconnect calls by the rows of their table.
use crate::browser::{Browser, with_permission};
use crate::disconnect_words::{begin_all, follow};
use crate::values::PAGE;
use std::test::Fail;

// What a call does when it begins: its provider, what it does, and its page.
const FAILS: &str = "http | config-scheme | over
address | no-site | over
provider | not-connected | over";

const NOT_CONNECTED: &str = "provider | not-connected | over";

const BEGINS: &str = "provider | first | 7";

// A line has the inputs of a call where `u1` is kept, and what it does at the last of them: the permissions that go, what
// else, the detail of a failure, and the stage.

// One of the first replies, or none yet.
const FIRST_REPLIES: &str = "lost | - | well-known-reply | status | ended
shapeless | - | well-known-shape | - | ended
config lost | - | well-known-reply | status | ended
wellknown broken | - | config-shape | - | ended
wellknown | - | nothing | - | reading
config | - | nothing | - | reading";

// Both first replies came.
const BOTH_FILES: &str = "wellknown plain | - | no-disconnect | - | ended
plain wellknown | - | no-disconnect | - | ended
wellknown config | - | asks | - | asserting
config wellknown | - | asks | - | asserting
direct | - | nothing | - | reading
direct config | - | asks | - | asserting
config direct | - | asks | - | asserting
direct plain | - | no-disconnect | - | ended
elsewhere | - | nothing | - | reading
elsewhere config | - | config-other | accounts_endpoint | ended
config elsewhere | - | config-other | accounts_endpoint | ended
elsewhere plain | - | config-other | accounts_endpoint | ended
elsewhere broken | - | config-shape | - | ended
direct wellknown | - | not-waited | - | reading";

// The account that the provider names goes, else all of the pair.
const DISCONNECTED: &str = "wellknown config u1 | u1 | disconnected | - | ended
wellknown config u2 | all | disconnected | - | ended";

// The disconnect reply is refused.
const REFUSED: &str = "wellknown config refused | all | disconnect-reply | status | ended
wellknown config silence | all | disconnect-reply | head | ended
wellknown config unshared | all | disconnect-cors | - | ended
wellknown config denied | all | disconnect-shape | - | ended";

// What is not taken, and a call that is over.
const NOT_TAKEN: &str = "wellknown wellknown | - | not-waited | - | reading
config plain | - | not-waited | - | reading
wellknown-elsewhere | - | not-waited | - | reading
accounts | - | not-waited | - | reading
u1 | - | not-waited | - | reading
cancel | - | not-offered | - | reading
abort | - | not-offered | - | reading
wellknown config lost | - | not-waited | - | asserting
wellknown config broken | - | not-waited | - | asserting
wellknown config accounts | - | not-waited | - | asserting
wellknown config u1-elsewhere | - | not-waited | - | asserting
wellknown config abort | - | not-offered | - | asserting
wellknown config abort u1 | u1 | disconnected | - | ended
lost wellknown | - | call-ended | - | ended";

#[test]
fn a_call_fails_at_once(rt: HostRuntime) -> Result<(), Fail> {
    let browser = Browser::new(rt.alloc());
    begin_all(&rt, rt.alloc(), &browser, FAILS)
}

#[test]
fn another_page_is_connected(rt: HostRuntime) -> Result<(), Fail> {
    let browser = with_permission(rt.alloc(), "https://rp.example:8443/")?;
    begin_all(&rt, rt.alloc(), &browser, NOT_CONNECTED)
}

#[test]
fn a_call_begins(rt: HostRuntime) -> Result<(), Fail> {
    let browser = with_permission(rt.alloc(), PAGE)?;
    begin_all(&rt, rt.alloc(), &browser, BEGINS)
}

#[test]
fn first_replies(rt: HostRuntime) -> Result<(), Fail> {
    let browser = with_permission(rt.alloc(), PAGE)?;
    follow(&rt, rt.alloc(), &browser, FIRST_REPLIES)
}

#[test]
fn both_files(rt: HostRuntime) -> Result<(), Fail> {
    let browser = with_permission(rt.alloc(), PAGE)?;
    follow(&rt, rt.alloc(), &browser, BOTH_FILES)
}

#[test]
fn disconnected(rt: HostRuntime) -> Result<(), Fail> {
    let browser = with_permission(rt.alloc(), PAGE)?;
    follow(&rt, rt.alloc(), &browser, DISCONNECTED)
}

#[test]
fn a_refused_reply(rt: HostRuntime) -> Result<(), Fail> {
    let browser = with_permission(rt.alloc(), PAGE)?;
    follow(&rt, rt.alloc(), &browser, REFUSED)
}

#[test]
fn what_is_not_taken(rt: HostRuntime) -> Result<(), Fail> {
    let browser = with_permission(rt.alloc(), PAGE)?;
    follow(&rt, rt.alloc(), &browser, NOT_TAKEN)
}
