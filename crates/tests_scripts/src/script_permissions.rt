//! Events of kept permissions, of silent access and of disconnect calls.

use crate::script::taken;
use crate::script_events::event;
use fed_origin::Mediation;
use fed_script::{Event, Have};
use std::alloc::Global;
use std::test::Fail;

const KEPT: &str =
    r#"{"do":"have","what":"kept","page":"https://rp.example/a","provider":"https://idp.example:8443/b","account":"u1"}"#;

const SILENT: &str = r#"{"do":"have","what":"silent","origin":"http://localhost/"}"#;

const DISCONNECT: &str =
    r#"{"do":"disconnect","page":1,"call":2,"config":"https://idp.example/f?g","client":"c1","hint":"u1"}"#;

// Whether an event is what the line KEPT says.
fn keeps(event: Option<&Event>) -> bool {
    match event {
        Some(Event::Have(have)) => match have.get() {
            Have::Kept(triple) => {
                triple.page.host.text.as_str() == "rp.example"
                    && triple.page.port == 443
                    && triple.provider.host.text.as_str() == "idp.example"
                    && triple.provider.port == 8443
                    && triple.account.as_str() == "u1"
            }
            _ => false,
        },
        _ => false,
    }
}

// Whether an event is what the line SILENT says.
fn is_silent(event: Option<&Event>) -> bool {
    match event {
        Some(Event::Have(have)) => match have.get() {
            Have::Silent { origin } => {
                origin.host.text.as_str() == "localhost" && origin.port == 80
            }
            _ => false,
        },
        _ => false,
    }
}

// Whether an event is what the line DISCONNECT says.
fn disconnects(event: Option<&Event>) -> bool {
    match event {
        Some(
            Event::Disconnect {
                page,
                call,
                config,
                client,
                hint,
            },
        ) => {
            (*page, *call) == (1, 2)
                && config.as_str() == "https://idp.example/f?g"
                && client.as_str() == "c1"
                && hint.get().as_str() == "u1"
        }
        _ => false,
    }
}

fn is_prevented(event: Option<&Event>) -> bool {
    match event {
        Some(Event::Prevent { page }) => *page == 7,
        _ => false,
    }
}

fn bad_lines() -> &'static str {
    r#"member.page | {"do":"have","what":"kept","page":1,"provider":1,"account":1}
member.provider | {"do":"have","what":"kept","page":"x","provider":1,"account":1}
member.account | {"do":"have","what":"kept","page":"x","provider":"x","account":1}
bad-url | {"do":"have","what":"kept","page":"x","provider":"https://idp.example/","account":"u1"}
bad-url | {"do":"have","what":"kept","page":"https://rp.example/","provider":"x","account":"u1"}
member.origin | {"do":"have","what":"silent"}
bad-url | {"do":"have","what":"silent","origin":"ftp://x/"}
member.page | {"do":"prevent","page":"7"}
member.page | {"do":"disconnect","call":"x"}
member.call | {"do":"disconnect","page":1,"config":1}
member.config | {"do":"disconnect","page":1,"call":1,"client":1}
member.client | {"do":"disconnect","page":1,"call":1,"config":"","hint":1}
member.hint | {"do":"disconnect","page":1,"call":1,"config":"","client":""}
bad-url | {"do":"disconnect","page":1,"call":1,"config":"","client":"","hint":""}"#
}

// A get and a disconnect use one number; a `have` of any kind comes before the first of them.
fn numbers_and_order() -> &'static str {
    r#"ok | {"do":"have","what":"silent","origin":"https://rp.example/"}
ok | {"do":"disconnect","page":1,"call":2,"config":"https://idp.example/f","client":"c1","hint":"u1"}
call-twice | {"do":"disconnect","page":2,"call":2,"config":"https://idp.example/g","client":"c1","hint":"u1"}
call-twice | {"do":"get","page":1,"call":2,"providers":[{"config":"https://idp.example/f","client":"c1"}]}
ok | {"do":"get","page":1,"call":1,"providers":[{"config":"https://idp.example/f","client":"c1"}]}
call-twice | {"do":"disconnect","page":1,"call":1,"config":"https://idp.example/f","client":"c1","hint":"u1"}
have-late | {"do":"have","what":"silent","origin":"https://rp.example/"}
have-late | {"do":"have","what":"kept","page":"https://rp.example/","provider":"https://idp.example/","account":"u1"}
ok | {"do":"prevent","page":1}"#
}

#[test]
fn permissions_and_disconnects(rt: HostRuntime) -> Result<(), Fail> {
    let alloc = rt.alloc();
    assert!(rt; keeps(event(alloc, KEPT).as_ref()));
    assert!(rt; is_silent(event(alloc, SILENT).as_ref()));
    assert!(rt; disconnects(event(alloc, DISCONNECT).as_ref()));
    assert!(rt; is_prevented(event(alloc, r#"{"do":"prevent","page":7}"#).as_ref()));
    assert_eq!(rt; taken(alloc, 0, bad_lines())?, ("", 0));
    assert_eq!(rt; taken(alloc, 0, numbers_and_order())?, ("", 4));
    Ok(())
}

fn is_get_by(event: &Event, mediation: Mediation) -> bool {
    match event {
        Event::Get { options, .. } => options.mediation == mediation,
        _ => false,
    }
}

fn reads(alloc: Global, line: &str, mediation: Mediation) -> bool {
    match event(alloc, line) {
        Some(event) => is_get_by(&event, mediation),
        None => false,
    }
}

#[test]
fn mediations(rt: HostRuntime) {
    let alloc = rt.alloc();
    let silent =
        r#"{"do":"get","page":1,"call":1,"mediation":"silent","providers":[{"config":"https://a","client":"c"}]}"#;
    assert!(rt; reads(alloc, silent, Mediation::Silent));
    let optional =
        r#"{"do":"get","page":1,"call":1,"mediation":"optional","providers":[{"config":"https://a","client":"c"}]}"#;
    assert!(rt; reads(alloc, optional, Mediation::Optional));
    let required =
        r#"{"do":"get","page":1,"call":1,"mediation":"required","providers":[{"config":"https://a","client":"c"}]}"#;
    assert!(rt; reads(alloc, required, Mediation::Required));
}
