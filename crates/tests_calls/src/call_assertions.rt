//! Consents and tokens of calls.
use crate::browser::Browser;
use crate::call_words::follow;
use std::test::Fail;

const CHOSEN: &str = "wellknown linked both u1 | asserts u1 | asserting
wellknown linked both u2 | metadata | prompting
wellknown config both u2 | prompt | prompting
wellknown config both u3 | no-account | choosing
wellknown config both u1@1 | no-account | choosing
wellknown config ann u1 | not-offered | prompting";

// The user chooses an account that is not connected, and goes on once the links are shown.
const SIGN_UP: &str = "wellknown linked both u2 links go | asserts u2, disclosed | asserting
wellknown linked both u2 links go token | token | ended";

// The user goes on before the links are shown, and again afterwards.
const TOO_EARLY: &str = "wellknown linked ann go | not-offered | prompting
wellknown linked ann go links go | asserts u1, disclosed | asserting
wellknown linked ann go links go go | not-offered | asserting
wellknown linked approved go | asserts u1 | asserting";

const NO_TOKEN: &str = "wellknown config ann go unshared | assertion-cors | ended
wellknown config ann go denied | IdentityCredentialError | ended
wellknown config ann go abort | aborted | ended";

#[test]
fn an_account_is_chosen(rt: HostRuntime) -> Result<(), Fail> {
    let browser = Browser::new(rt.alloc());
    follow(&rt, rt.alloc(), &browser, CHOSEN)
}

#[test]
fn a_sign_up(rt: HostRuntime) -> Result<(), Fail> {
    let browser = Browser::new(rt.alloc());
    follow(&rt, rt.alloc(), &browser, SIGN_UP)
}

#[test]
fn too_early_twice(rt: HostRuntime) -> Result<(), Fail> {
    let browser = Browser::new(rt.alloc());
    follow(&rt, rt.alloc(), &browser, TOO_EARLY)
}

#[test]
fn no_token(rt: HostRuntime) -> Result<(), Fail> {
    let browser = Browser::new(rt.alloc());
    follow(&rt, rt.alloc(), &browser, NO_TOKEN)
}
