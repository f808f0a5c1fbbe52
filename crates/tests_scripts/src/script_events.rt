//! Events of each kind.

use crate::script::{GET, LOAD, taken};
use fed_io::Fault;
use fed_origin::{Context, LoginStatus, Mediation, Mode, Scheme, slot_of};
use fed_script::{Event, Have, LineCause, Used, read_event};
use std::alloc::Global;
use std::test::Fail;

// The event of a line that is the first after a header.
pub fn event(alloc: Global, line: &str) -> Option<Event> {
    let mut used = Used::new(alloc, 0);
    read_event(alloc, line.as_bytes(), &mut used).ok()
}

// Whether an event is what the line LOAD says.
fn loads(event: &Event) -> bool {
    match event {
        Event::Load { page, url, raw } => {
            *page == 1 && url.as_str() == "https://rp.example/" && raw.is_none()
        }
        _ => false,
    }
}

fn is_load(alloc: Global) -> bool {
    match event(alloc, LOAD) {
        Some(event) => loads(&event),
        None => false,
    }
}

// Whether an event is what the line GET says.
fn gets(event: &Event) -> bool {
    match event {
        Event::Get {
            page,
            call,
            options,
        } => match options.providers.as_slice() {
            [provider] => {
                (*page, *call) == (1, 1)
                    && provider.config.as_str() == "https://accounts.idp.example/fedcm.json"
                    && provider.client.as_str() == "c1"
                    && provider.nonce.is_some()
                    && provider.params.is_none()
                    && options.context == Context::SignIn
            }
            _ => false,
        },
        _ => false,
    }
}

fn is_get(alloc: Global) -> bool {
    match event(alloc, GET) {
        Some(event) => gets(&event),
        None => false,
    }
}

// Whether an event is a get of page 7 and call 89 whose provider names nothing but a configuration and a client.
fn gets_alone(event: &Event) -> bool {
    match event {
        Event::Get {
            page,
            call,
            options,
        } => match options.providers.as_slice() {
            [provider] => {
                (*page, *call) == (7, 89)
                    && provider.config.as_str() == "https://a.example/f"
                    && provider.client.as_str() == "c 1"
                    && provider.nonce.is_none()
                    && provider.login_hint.is_none()
                    && provider.domain_hint.is_none()
                    && provider.params.is_none()
                    && (options.mediation, options.mode) == (Mediation::Optional, Mode::Passive)
                    && (options.activation, options.context) == (false, Context::SignIn)
            }
            _ => false,
        },
        _ => false,
    }
}

fn is_get_alone(alloc: Global, line: &str) -> bool {
    match event(alloc, line) {
        Some(event) => gets_alone(&event),
        None => false,
    }
}

// A get as JSON writers give it, and the same with a space.
#[test]
fn gets_that_name_nothing_else(rt: HostRuntime) {
    let plain =
        r#"{"do":"get","page":7,"call":89,"providers":[{"config":"https://a.example/f","client":"c 1"}]}"#;
    let spaced =
        r#"{"do":"get", "page":7,"call":89,"providers":[{"config":"https://a.example/f","client":"c 1"}]}"#;
    assert!(rt; is_get_alone(rt.alloc(), plain));
    assert!(rt; is_get_alone(rt.alloc(), spaced));
}

// Whether an event is a get of one provider with this configuration URL.
fn has_config(event: &Event, config: &str) -> bool {
    match event {
        Event::Get { options, .. } => match options.providers.as_slice() {
            [provider] => provider.config.as_str() == config,
            _ => false,
        },
        _ => false,
    }
}

// Whether the next get names this configuration URL.
fn names_next(alloc: Global, used: &mut Used, call: u32, config: &str) -> Result<bool, Fail> {
    let line = format!(in alloc;
        "{{\"do\":\"get\",\"page\":1,\"call\":{call},\"providers\":[{{\"config\":\"{config}\",\"client\":\"c\"}}]}}"
    )?;
    match read_event(alloc, line.as_bytes(), used) {
        Ok(event) => Ok(has_config(&event, config)),
        Err(_) => Ok(false),
    }
}

// The first two have one place among the configuration URLs that are kept.
#[test]
fn configuration_urls_in_turn(rt: HostRuntime) -> Result<(), Fail> {
    let (first, later) = ("https://p4.example/f.json", "https://p76.example/f.json");
    assert!(rt; slot_of(first) == slot_of(later));
    let mut used = Used::new(rt.alloc(), 0);
    let _load = read_event(rt.alloc(), LOAD.as_bytes(), &mut used);
    let other = "https://p1.example/f.json";
    let gets = [
        (1, first),
        (2, other),
        (3, first),
        (4, later),
        (5, first),
        (6, later),
        (7, later),
        (8, other),
    ];
    for (call, config) in gets {
        assert!(rt;
            names_next(rt.alloc(), &mut used, call, config)?,
            "at {call}"
        );
    }
    Ok(())
}

#[test]
fn loads_and_gets(rt: HostRuntime) {
    assert!(rt; is_load(rt.alloc()));
    assert!(rt; is_get(rt.alloc()));
}

// Whether an event is what the line COOKIE says.
fn has_cookie(event: &Event) -> bool {
    match event {
        Event::Have(have) => match have.get() {
            Have::Cookie { url, field } => {
                url.as_str() == "https://rp.example/a"
                    && field.as_slice() == b"x=1; Secure".as_slice()
            }
            _ => false,
        },
        _ => false,
    }
}

fn is_cookie(alloc: Global) -> bool {
    match event(alloc, COOKIE) {
        Some(event) => has_cookie(&event),
        None => false,
    }
}

// Whether an event is what the line LOGIN says.
fn has_login(event: &Event) -> bool {
    match event {
        Event::Have(have) => match have.get() {
            Have::Login { origin, status } => {
                origin.scheme == Scheme::Https
                    && origin.host.text.as_str() == "idp.example"
                    && origin.port == 8443
                    && *status == LoginStatus::LoggedOut
            }
            _ => false,
        },
        _ => false,
    }
}

fn is_login(alloc: Global) -> bool {
    match event(alloc, LOGIN) {
        Some(event) => has_login(&event),
        None => false,
    }
}

// Whether an event sets this status on this page.
fn is_status(event: &Event, number: u32, set: LoginStatus) -> bool {
    match event {
        Event::SetStatus { page, status } => *page == number && *status == set,
        _ => false,
    }
}

fn sets(alloc: Global, line: &str, number: u32, set: LoginStatus) -> bool {
    match event(alloc, line) {
        Some(event) => is_status(&event, number, set),
        None => false,
    }
}

// Whether bytes are these numbers, each of which ends in a space.
fn are_numbers(bytes: &[u8], numbers: &str) -> bool {
    let mut rest = bytes;
    for number in numbers.split_terminator(' ') {
        match rest.split_first() {
            Some((byte, more)) if number.parse::<u8>() == Ok(*byte) => rest = more,
            _ => return false,
        }
    }
    rest.is_empty()
}

// Whether an event is a load with a reply of these bytes as numbers, or of no bytes at `none`.
fn has_bytes(event: &Event, numbers: &str) -> bool {
    match event {
        Event::Load { raw: Some(raw), .. } => are_numbers(raw.as_slice(), numbers),
        Event::Load { raw: None, .. } => numbers == "none",
        _ => false,
    }
}

fn gives(alloc: Global, line: &str, numbers: &str) -> bool {
    match event(alloc, line) {
        Some(event) => has_bytes(&event, numbers),
        None => false,
    }
}

// The first row that is wrong, or "". Each row is the bytes of a reply and, after a bar, the load that gives them.
fn first_other_bytes<'a>(alloc: Global, rows: &'a str) -> Result<&'a str, Fail> {
    for row in rows.split('\n') {
        let (numbers, line) = row.split_once("| ").ok_or("a row")?;
        if !gives(alloc, line, numbers) {
            return Ok(row);
        }
    }
    Ok("")
}

// The first row and the third have no bytes, and the last three no reply.
fn loads_with_bytes() -> &'static str {
    r#"| {"do":"load","page":1,"url":"https://a","text":""}
97 0 195 169 | {"do":"load","page":1,"url":"https://a","text":"a\u0000\u00e9","raw":null}
| {"do":"load","page":1,"url":"https://a","raw":""}
104 105 | {"do":"load","page":1,"url":"https://a","raw":"aGk=","text":null}
97 | {"do":"load","page":1,"url":"https://a","raw":"YQ=="}
34 92 47 10 13 9 97 195 169 | {"do":"load","page":1,"url":"https://a","text":"\"\\/\n\r\taé"}
8 12 47 31 | {"do":"load","page":1,"url":"https://a","text":"\b\f\/\u001f"}
10 | {"do":"load","page":1,"url":"https://a","text":"\n" }
251 255 254 | {"do":"load","page":1,"url":"https://a","raw":"+/\/+"}
0 255 0 | {"do":"load","page":1,"url":"https://a","raw":"AP8A"}
none| {"do":"load","page":1,"url":"https://a"}
none| {"do":"load","page":1,"url":"https://a","text":null}
none| {"do":"load","page":1,"url":"https://a","raw":null,"text":null}"#
}

// Among them texts of base64 without their padding, with too much of it, with bits left over, of another alphabet, and with white space.
fn loads_with_bad_bytes() -> &'static str {
    r#"member.text | {"do":"load","page":1,"url":"https://a","text":5}
member.text | {"do":"load","page":1,"url":"https://a","text":[],"raw":"aGk="}
member.text | {"do":"load","page":1,"url":"https://a","text":"hi","raw":"aGk="}
member.text | {"do":"load","page":1,"url":"https://a","text":"hi","raw":5}
member.text | {"do":"load","page":1,"url":"https://a","text":"","raw":""}
member.raw | {"do":"load","page":1,"url":"https://a","raw":5}
member.raw | {"do":"load","page":1,"url":"https://a","raw":"aGk"}
member.raw | {"do":"load","page":1,"url":"https://a","raw":"aGk=="}
member.raw | {"do":"load","page":1,"url":"https://a","raw":"aGl="}
member.raw | {"do":"load","page":1,"url":"https://a","raw":"="}
member.raw | {"do":"load","page":1,"url":"https://a","raw":"A-__"}
member.raw | {"do":"load","page":1,"url":"https://a","raw":"aGk= "}
member.raw | {"do":"load","page":1,"url":"https://a","raw":"aGk=\n"}"#
}

#[test]
fn bytes_of_a_reply(rt: HostRuntime) -> Result<(), Fail> {
    assert_eq!(rt; first_other_bytes(rt.alloc(), loads_with_bytes())?, "");
    assert_eq!(rt; taken(rt.alloc(), 0, loads_with_bad_bytes())?, ("", 0));
    Ok(())
}

const COOKIE: &str =
    r#"{"do":"have","what":"cookie","url":"https://rp.example/a","text":"x=1; Secure"}"#;

fn bad_cookies() -> &'static str {
    r#"member.what | {"do":"have"}
member.what | {"do":"have","what":null}
member.what | {"do":"have","what":5}
member.what | {"do":"have","what":"Cookie"}
member.what | {"do":"have","what":"Login"}
member.what | {"do":"have","what":"Kept"}
member.url | {"do":"have","what":"cookie","text":5}
member.url | {"do":"have","what":"cookie","url":null,"text":5}
member.text | {"do":"have","what":"cookie","url":"ftp://x/"}
member.text | {"do":"have","what":"cookie","url":"ftp://x/","text":"","raw":""}
member.raw | {"do":"have","what":"cookie","url":"ftp://x/","raw":"="}
bad-url | {"do":"have","what":"cookie","url":"ftp://x/","text":""}"#
}

#[test]
fn cookies(rt: HostRuntime) -> Result<(), Fail> {
    assert!(rt; is_cookie(rt.alloc()));
    assert_eq!(rt; taken(rt.alloc(), 0, bad_cookies())?, ("", 0));
    Ok(())
}

const LOGIN: &str =
    r#"{"do":"have","what":"login","origin":"https://idp.example:8443/a?b","status":"logged-out"}"#;

fn rows_of_statuses() -> &'static str {
    r#"ok | {"do":"have","what":"login","origin":"https://idp.example:8443/a?b","status":"logged-out"}
ok | {"do":"load","page":1,"url":"https://rp.example/"}
member.origin | {"do":"have","what":"login","status":"x"}
member.origin | {"do":"have","what":"login","origin":null,"status":"x"}
member.status | {"do":"have","what":"login","origin":"ftp://x"}
member.status | {"do":"have","what":"login","origin":"ftp://x","status":"unknown"}
member.status | {"do":"have","what":"login","origin":"ftp://x","status":1}
bad-url | {"do":"have","what":"login","origin":"ftp://x","status":"logged-in"}
have-late | {"do":"have","what":"login","origin":"https://idp.example:8443/a?b","status":"logged-out"}
member.page | {"do":"setstatus"}
member.status | {"do":"setstatus","page":7}
member.status | {"do":"setstatus","page":7,"status":"Logged-In"}
member.status | {"do":"setstatus","page":7,"status":["logged-in"]}"#
}

#[test]
fn statuses(rt: HostRuntime) -> Result<(), Fail> {
    let alloc = rt.alloc();
    assert!(rt; is_login(alloc));
    let line = r#"{"do":"setstatus","page":7,"status":"logged-in"}"#;
    assert!(rt; sets(alloc, line, 7, LoginStatus::LoggedIn));
    assert_eq!(rt; taken(alloc, 0, rows_of_statuses())?, ("", 2));
    Ok(())
}

// Lines after a header of the time 1,700,000,000. What is refused changes nothing, and no `have` is late after another.
fn lines_in_time() -> &'static str {
    r#"ok | {"do":"have","what":"cookie","url":"https://rp.example/a","text":"x=1; Secure"}
time-back | {"do":"at","time":1699999999}
ok | {"do":"have","what":"cookie","url":"https://rp.example/a","text":"x=1; Secure"}
member.time | {"do":"at"}
member.time | {"do":"at","time":null}
member.time | {"do":"at","time":1.7e9}
member.time | {"do":"at","time":18446744073709551616}
ok | {"do":"at","time":1700000000}
have-late | {"do":"have","what":"cookie","url":"https://rp.example/a","text":"x=1; Secure"}
bad-url | {"do":"have","what":"cookie","url":"ftp://x/","text":""}
ok | {"do":"at","time":1700000005}
time-back | {"do":"at","time":1700000004}
ok | {"do":"load","page":1,"url":"https://rp.example/"}
ok | {"do":"at","time":18446744073709551615}
time-back | {"do":"at","time":0}"#
}

fn have_after_a_load() -> &'static str {
    r#"ok | {"do":"load","page":1,"url":"https://rp.example/"}
have-late | {"do":"have","what":"cookie","url":"https://rp.example/a","text":"x=1; Secure"}"#
}

#[test]
fn late_and_back(rt: HostRuntime) -> Result<(), Fail> {
    assert_eq!(rt; taken(rt.alloc(), 1_700_000_000, lines_in_time())?, ("", 6));
    assert_eq!(rt; taken(rt.alloc(), 0, have_after_a_load())?, ("", 1));
    Ok(())
}

// Whether so many lines are read.
fn reads_so_many(alloc: Global, line: &[u8], count: u32, used: &mut Used) -> bool {
    for _ in 0..count {
        if read_event(alloc, line, used).is_err() {
            return false;
        }
    }
    true
}

#[test]
fn a_million_events(rt: HostRuntime) {
    let mut used = Used::new(rt.alloc(), 0);
    assert!(rt; reads_so_many(rt.alloc(), LOAD.as_bytes(), 1_000_000, &mut used));
    let cause = match read_event(rt.alloc(), LOAD.as_bytes(), &mut used) {
        Err(Fault::Step(cause)) => Some(cause),
        _ => None,
    };
    assert_eq!(rt; cause, Some(LineCause::TooManyEvents));
}
