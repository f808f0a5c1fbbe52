//! Events of a page's calls.

use crate::script::taken;
use crate::script_events::event;
use fed_origin::{Context, Mediation, Mode, ReplyKind};
use fed_script::Event;
use std::alloc::Global;
use std::test::Fail;

// Whether an event says this of a page or a call of this number.
fn is_single(event: &Event, what: &str, number: u32) -> bool {
    match event {
        Event::ClosePage { page } => what == "closepage" && *page == number,
        Event::Abort { call } => what == "abort" && *call == number,
        Event::Cancel { call } => what == "cancel" && *call == number,
        Event::GoOn { call } => what == "continue" && *call == number,
        Event::SignIn { call } => what == "signin" && *call == number,
        Event::ShutWindow { call } => what == "shutwindow" && *call == number,
        Event::IdpClose { page } => what == "idpclose" && *page == number,
        _ => false,
    }
}

fn says(alloc: Global, line: &str, what: &str, number: u32) -> bool {
    match event(alloc, line) {
        Some(event) => is_single(&event, what, number),
        None => false,
    }
}

// Whether an event is a choice of this account, for this call and of this provider.
fn is_choice(event: &Event, place: (u32, u32), id: &str) -> bool {
    match event {
        Event::Choose {
            call,
            provider,
            account,
        } => *call == place.0 && *provider == place.1 && account.as_str() == id,
        _ => false,
    }
}

fn chooses(alloc: Global, line: &str, place: (u32, u32), id: &str) -> bool {
    match event(alloc, line) {
        Some(event) => is_choice(&event, place, id),
        None => false,
    }
}

// Whether an event is a reply to this call and provider, of this kind and of so many bytes.
fn is_reply(event: &Event, place: (u32, u32), to: ReplyKind, length: usize) -> bool {
    match event {
        Event::Reply {
            call,
            provider,
            kind,
            raw,
        } => {
            *call == place.0
                && *provider == place.1
                && *kind == to
                && raw.as_slice().len() == length
        }
        _ => false,
    }
}

fn replies_to(alloc: Global, line: &str, place: (u32, u32), to: ReplyKind, length: usize) -> bool {
    match event(alloc, line) {
        Some(event) => is_reply(&event, place, to, length),
        None => false,
    }
}

// Whether an event is a get with this context, whose other options have their defaults.
fn has_context(event: &Event, context: Context) -> bool {
    match event {
        Event::Get { options, .. } => {
            options.mediation == Mediation::Optional
                && options.mode == Mode::Passive
                && !options.activation
                && options.context == context
        }
        _ => false,
    }
}

fn reads_context(alloc: Global, line: &str, context: Context) -> bool {
    match event(alloc, line) {
        Some(event) => has_context(&event, context),
        None => false,
    }
}

fn bad_contexts() -> &'static str {
    r#"member.context | {"do":"get","page":1,"call":1,"context":"SignIn","providers":1}
member.context | {"do":"get","page":1,"call":1,"context":"","providers":1}
member.context | {"do":"get","page":1,"call":1,"context":true,"providers":1}
member.context | {"do":"get","page":1,"call":1,"context":["use"],"providers":1}
member.providers | {"do":"get","page":1,"call":1,"context":"use","providers":1}
member.providers | {"do":"get","page":1,"call":1,"activation":true,"context":"use"}"#
}

#[test]
fn contexts(rt: HostRuntime) -> Result<(), Fail> {
    let alloc = rt.alloc();
    let absent =
        r#"{"do":"get","page":1,"call":1,"context":null,"providers":[{"config":"https://a","client":"c"}]}"#;
    assert!(rt; reads_context(alloc, absent, Context::SignIn));
    let sign_in =
        r#"{"do":"get","page":1,"call":1,"context":"signin","providers":[{"config":"https://a","client":"c"}]}"#;
    assert!(rt; reads_context(alloc, sign_in, Context::SignIn));
    let sign_up =
        r#"{"do":"get","page":1,"call":1,"context":"signup","providers":[{"config":"https://a","client":"c"}]}"#;
    assert!(rt; reads_context(alloc, sign_up, Context::SignUp));
    let use_here =
        r#"{"do":"get","page":1,"call":1,"context":"use","providers":[{"config":"https://a","client":"c"}]}"#;
    assert!(rt; reads_context(alloc, use_here, Context::UseHere));
    let go_on =
        r#"{"do":"get","page":1,"call":1,"context":"continue","providers":[{"config":"https://a","client":"c"}]}"#;
    assert!(rt; reads_context(alloc, go_on, Context::GoOn));
    assert_eq!(rt; taken(alloc, 0, bad_contexts())?, ("", 0));
    Ok(())
}

// A call that no line began may be named, and again.
fn rows_of_pages_and_calls() -> &'static str {
    r#"ok | {"do":"abort","call":4294967295}
ok | {"do":"abort","call":4294967295}
ok | {"do":"cancel","call":0}
ok | {"do":"continue","call":2}
member.page | {"do":"closepage"}
member.page | {"do":"closepage","page":"7"}
member.call | {"do":"abort"}
member.call | {"do":"abort","call":4294967296}
member.call | {"do":"cancel","page":1}
member.call | {"do":"cancel","call":-1}
member.call | {"do":"continue"}
member.call | {"do":"continue","call":null}"#
}

#[test]
fn pages_and_calls(rt: HostRuntime) -> Result<(), Fail> {
    let alloc = rt.alloc();
    assert!(rt; says(alloc, r#"{"do":"closepage","page":7}"#, "closepage", 7));
    assert!(rt;
        says(
            alloc,
            r#"{"do":"abort","call":4294967295}"#,
            "abort",
            u32::MAX
        )
    );
    assert!(rt; says(alloc, r#"{"do":"cancel","call":0}"#, "cancel", 0));
    assert!(rt; says(alloc, r#"{"do":"continue","call":2}"#, "continue", 2));
    assert_eq!(rt; taken(alloc, 0, rows_of_pages_and_calls())?, ("", 4));
    Ok(())
}

// A page that no line loaded may be named.
fn rows_of_windows() -> &'static str {
    r#"ok | {"do":"signin","call":3}
ok | {"do":"shutwindow","call":3}
ok | {"do":"idpclose","page":9}
member.call | {"do":"signin","call":"3"}
member.call | {"do":"shutwindow","call":null}
member.page | {"do":"idpclose","page":4294967296}"#
}

#[test]
fn windows(rt: HostRuntime) -> Result<(), Fail> {
    let alloc = rt.alloc();
    assert!(rt; says(alloc, r#"{"do":"signin","call":3}"#, "signin", 3));
    assert!(rt; says(alloc, r#"{"do":"shutwindow","call":0}"#, "shutwindow", 0));
    assert!(rt;
        says(
            alloc,
            r#"{"do":"idpclose","page":4294967295}"#,
            "idpclose",
            u32::MAX
        )
    );
    assert_eq!(rt; taken(alloc, 0, rows_of_windows())?, ("", 3));
    Ok(())
}

// Whether an event is a get of this mode, with an activation or without.
fn has_mode(event: &Event, mode: Mode, activation: bool) -> bool {
    match event {
        Event::Get { options, .. } => options.mode == mode && options.activation == activation,
        _ => false,
    }
}

fn reads_mode(alloc: Global, line: &str, mode: Mode, activation: bool) -> bool {
    match event(alloc, line) {
        Some(event) => has_mode(&event, mode, activation),
        None => false,
    }
}

#[test]
fn modes(rt: HostRuntime) -> Result<(), Fail> {
    let alloc = rt.alloc();
    let absent =
        r#"{"do":"get","page":1,"call":1,"mode":null,"activation":null,"providers":[{"config":"https://a","client":"c"}]}"#;
    assert!(rt; reads_mode(alloc, absent, Mode::Passive, false));
    let passive =
        r#"{"do":"get","page":1,"call":1,"mode":"passive","activation":true,"providers":[{"config":"https://a","client":"c"}]}"#;
    assert!(rt; reads_mode(alloc, passive, Mode::Passive, true));
    let active =
        r#"{"do":"get","page":1,"call":1,"activation":false,"mode":"active","providers":[{"config":"https://a","client":"c"}]}"#;
    assert!(rt; reads_mode(alloc, active, Mode::Active, false));
    let both =
        r#"{"do":"get","page":1,"call":1,"mode":"active","activation":true,"providers":[{"config":"https://a","client":"c"}]}"#;
    assert!(rt; reads_mode(alloc, both, Mode::Active, true));
    let written =
        r#"{"do":"get","page":1,"call":1,"providers":[{"config":"https://a","client":"c"}],"mode":"active","activation":true}"#;
    assert!(rt; reads_mode(alloc, written, Mode::Active, true));
    Ok(())
}

// A reply uses no call's number up.
fn rows_of_replies() -> &'static str {
    r#"ok | {"do":"reply","call":1,"to":"wellknown","text":"HTTP/1.1 200 OK"}
ok | {"do":"reply","raw":"","to":"config","provider":3,"call":1}
not-json | {"do":"reply","call":1,"to":"config","text":"HTTP/1.1 200 OK\r\n\q"}
not-json | {"do":"reply","call":1,"to":"config","text":"HTTP/1.1 200 OK"
member.call | {"do":"reply","provider":"x"}
member.provider | {"do":"reply","call":1,"provider":"x"}
member.provider | {"do":"reply","call":1,"provider":4294967296}
member.to | {"do":"reply","call":1,"provider":null,"text":1}
member.to | {"do":"reply","call":1,"to":5,"text":1}
member.to | {"do":"reply","call":1,"to":"Disconnect","text":1}
member.text | {"do":"reply","call":1,"to":"disconnect","text":1}
member.to | {"do":"reply","call":1,"to":"Accounts","text":1}
member.to | {"do":"reply","call":1,"to":"well-known","text":""}
member.text | {"do":"reply","call":1,"to":"config"}
member.text | {"do":"reply","call":1,"to":"config","text":"","raw":"="}
member.raw | {"do":"reply","call":1,"to":"config","raw":"="}
ok | {"do":"get","page":1,"call":1,"providers":[{"config":"https://accounts.idp.example/fedcm.json","client":"c1","nonce":"n1"}]}"#
}

#[test]
fn replies(rt: HostRuntime) -> Result<(), Fail> {
    let alloc = rt.alloc();
    let well_known = r#"{"do":"reply","call":1,"to":"wellknown","text":"HTTP/1.1 200 OK"}"#;
    assert!(rt; replies_to(alloc, well_known, (1, 0), ReplyKind::WellKnown, 15));
    let config = r#"{"do":"reply","raw":"","to":"config","provider":3,"call":1}"#;
    assert!(rt; replies_to(alloc, config, (1, 3), ReplyKind::Config, 0));
    let accounts = r#"{"do":"reply","call":1,"to":"accounts","raw":"aGk="}"#;
    assert!(rt; replies_to(alloc, accounts, (1, 0), ReplyKind::Accounts, 2));
    let metadata = r#"{"do":"reply","call":1,"to":"metadata","text":""}"#;
    assert!(rt; replies_to(alloc, metadata, (1, 0), ReplyKind::Metadata, 0));
    let assertion = r#"{"do":"reply","call":4294967295,"provider":1,"to":"assertion","text":"é"}"#;
    assert!(rt; replies_to(alloc, assertion, (u32::MAX, 1), ReplyKind::Assertion, 2));
    let disconnect = r#"{"do":"reply","call":2,"to":"disconnect","text":"no"}"#;
    assert!(rt; replies_to(alloc, disconnect, (2, 0), ReplyKind::Disconnect, 2));
    assert_eq!(rt; taken(alloc, 0, rows_of_replies())?, ("", 3));
    Ok(())
}

fn rows_of_choices() -> &'static str {
    r#"ok | {"do":"choose","call":1,"account":"u1"}
ok | {"do":"choose","call":1,"account":"u1"}
member.call | {"do":"choose","provider":"x"}
member.call | {"do":"choose","call":1.0,"provider":"x"}
member.provider | {"do":"choose","call":1,"provider":"0"}
member.provider | {"do":"choose","call":1,"provider":4294967296,"account":1}
member.provider | {"do":"choose","call":1,"provider":-1}
member.account | {"do":"choose","call":1}
member.account | {"do":"choose","call":1,"provider":1,"account":null}
member.account | {"do":"choose","call":1,"account":1}"#
}

#[test]
fn choices(rt: HostRuntime) -> Result<(), Fail> {
    let alloc = rt.alloc();
    let first = r#"{"do":"choose","call":1,"account":"u1"}"#;
    assert!(rt; chooses(alloc, first, (1, 0), "u1"));
    let second = r#"{"account":"","provider":9,"do":"choose","call":2}"#;
    assert!(rt; chooses(alloc, second, (2, 9), ""));
    let third = r#"{"do":"choose","call":0,"provider":null,"account":"\u00e9\u0000"}"#;
    assert!(rt; chooses(alloc, third, (0, 0), "é\0"));
    assert_eq!(rt; taken(alloc, 0, rows_of_choices())?, ("", 2));
    Ok(())
}
