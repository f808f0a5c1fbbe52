//! Lists of accounts as they come, and which accounts a call is about.
use crate::steps::{parts, reply_name};
use fed_accounts::{
    Account, Accounts, AccountsStep, connected, eligible, keep_hinted, read_accounts, read_hinted,
    reselect,
};
use fed_io::{Fault, NoRoom, Text, lent_text};
use fed_origin::Mediation;
use fed_reply::ReplyMemory;
use std::alloc::{AllocError, Global};
use std::process::Abort;
use std::test::Fail;

// A line: the step at which the reply is refused, or the ids that are read, and then what follows
// the first line of the head. `~` stands for CR LF.
const REPLIES: &str =
    r#"empty | Content-Type: application/json~Transfer-Encoding: chunked~~f~{"accounts":[]}~0~~
chunk | Content-Type: application/json~Transfer-Encoding: chunked~~10~{"accounts":[]}~0~~
short | Content-Type: application/json~Transfer-Encoding: chunked~~10~{"accounts":[]}
coding | Content-Type: application/json~Content-Encoding: gzip~~{"accounts":[]}
length | Content-Type: application/json~Content-Length: x~~{"accounts":[]}
mime | Content-Type: text/html~~{"accounts":[]}
json | Content-Type: application/json~~{"accounts":[}
head | Content-Type application/json~~{"accounts":[]}"#;

// A line: the step, or the ids that are read, and then the accounts.
const LISTS: &str = r#"u1 | [{"id":"u1","name":"Ann","email":"a@x"}]
u1,u2 | [{"id":"u1","name":"Ann","email":"a@x"},{"id":"u2","name":"Bob","email":"b@x"},{"id":"u1","name":"","email":""}]
u2,u1 | [{"id":"u2","name":"Bob","email":"b@x"},{"id":"u2","name":"","email":""},{"id":"u1","name":"","email":""}]
u1 | [{"id":"u0","id":"u1","name":"Ann","email":"a@x","more":[]}]
,U1,u1 | [{"id":"","name":"","email":""},{"id":"U1","name":"","email":""},{"id":"u1","name":"","email":""}]
u1 | [{"id":"u1","name":"Ann","email":"a@x","given_name":null,"picture":null,"approved_clients":null,"login_hints":null,"domain_hints":null}]
u1 | [{"id":"u1","name":"Ann","email":"a@x","given_name":"A","picture":"no URL","approved_clients":[],"login_hints":[""],"domain_hints":["x","x"]}]
empty | []
shape | null
shape | {}
shape | "u1"
shape | [null]
shape | [[]]
shape | ["u1"]
shape | [{}]
shape | [{"name":"Ann","email":"a@x"}]
shape | [{"id":1,"name":"Ann","email":"a@x"}]
shape | [{"id":null,"name":"Ann","email":"a@x"}]
shape | [{"id":"u1","email":"a@x"}]
shape | [{"id":"u1","name":"Ann"}]
shape | [{"id":"u1","name":"Ann","email":["a@x"]}]
shape | [{"id":"u1","name":"Ann","email":"a@x","given_name":1}]
shape | [{"id":"u1","name":"Ann","email":"a@x","picture":false}]
shape | [{"id":"u1","name":"Ann","email":"a@x","approved_clients":"c1"}]
shape | [{"id":"u1","name":"Ann","email":"a@x","approved_clients":["c1",null]}]
shape | [{"id":"u1","name":"Ann","email":"a@x","login_hints":{}}]
shape | [{"id":"u1","name":"Ann","email":"a@x","login_hints":[1]}]
shape | [{"id":"u1","name":"Ann","email":"a@x","domain_hints":0}]
shape | [{"id":"u1","name":"Ann","email":"a@x","domain_hints":[[]]}]
shape | [{"id":"u1","name":"Ann","email":"a@x"},{"id":"u1"}]
u2 | [{"id":"u1","name":"","email":""}],"accounts":[{"id":"u2","name":"","email":""}]
u2 | [{"id":"u1"}],"accounts":[{"id":"u2","name":"","email":""}],"more":{"accounts":[]}
u1 | [{"id":"u1","name":1,"email":"","login_hints":[1,{}],"more":[[1e300,{"id":2}],true],"name":"","login_hints":null}]
shape | [{"id":"u1","name":"","email":""}],"accounts":null
empty | [1],"accounts":[]
shape | [{"id":"u1"},[{"more":[]}],1,"",null]
json | [{"id":"u1"},[{"more":[}]]
json | [{"id":"u1","name":"","email":"","more":1e999}]
json | 1,"more":[-1e999]
json | {},"more":tru
json | [],"accounts"
json | []}{"more":{}"#;

// A line: the ids that are left, or `none`, a login hint and a domain hint (`-` for no hint).
const HINTS: &str = "u1,u2,u3 | - | -
u1 | ann | -
u2 | BOB | -
none | bob | -
u1,u3 | - | any
u1,u3 | - | a.example
u3 | - | b.example
none | - | c.example
u1 | ann | any
none | BOB | any
none | ann | b.example
u3 | any | any";

const HINTED: &str =
    r#"[{"id":"u1","name":"","email":"","login_hints":["x","ann"],"domain_hints":["a.example"]},
{"id":"u2","name":"","email":"","login_hints":["BOB"]},
{"id":"u3","name":"","email":"","login_hints":["any"],"domain_hints":["b.example","a.example"]}]"#;

// A line: the place that is reselected, or `none`, which permissions are kept (1 or 0 for each of
// the accounts below), whether the flag is set, and the mediation.
const RESELECTED: &str = "0 | 1000 | off | optional
1 | 0100 | off | silent
none | 0000 | off | optional
none | 1100 | off | optional
none | 1000 | on | optional
none | 1000 | off | required
none | 0010 | off | optional
0 | 1010 | off | optional
3 | 0011 | off | optional
none | 1111 | off | optional";

const CLIENTS: &str = r#"[{"id":"u1","name":"","email":""},
{"id":"u2","name":"","email":"","approved_clients":["c0","c1"]},
{"id":"u3","name":"","email":"","approved_clients":["other"]},
{"id":"u4","name":"","email":"","approved_clients":["c1"]}]"#;

fn step_name(step: AccountsStep) -> &'static str {
    match step {
        AccountsStep::Reply(step) => reply_name(step),
        AccountsStep::Shape => "shape",
        AccountsStep::Empty => "empty",
        AccountsStep::HintsNone => "none",
    }
}

// The ids of accounts.
fn ids_of(alloc: Global, accounts: &[Account]) -> Result<String, Fail> {
    let mut ids = String::new(alloc);
    for (place, account) in accounts.iter().enumerate() {
        if place > 0 {
            ids.push_str(",")?;
        }
        ids.push_str(account.id.as_str())?;
    }
    Ok(ids)
}

// The ids that are read, or the name of the step.
fn shown(alloc: Global, answer: Result<Accounts, Fault<AccountsStep>>) -> Result<String, Fail> {
    match answer {
        Ok(accounts) => ids_of(alloc, accounts.list()),
        Err(Fault::Step(step)) => Ok(String::from_str(alloc, step_name(step))?),
        Err(Fault::NoRoom) => Err(Fail::from(NoRoom)),
    }
}

// A reply with a list.
fn reply_with(alloc: Global, list: &str) -> Result<String, AllocError> {
    format!(in alloc;
        "HTTP/1.1 200 OK\r\nContent-Type: application/json\r\n\r\n{{\"accounts\":{list}}}"
    )
}

/// The accounts that a list gives.
pub fn read_list(alloc: Global, list: &str) -> Result<Accounts, Fault<AccountsStep>> {
    let raw = reply_with(alloc, list)?;
    read_accounts(alloc, raw.as_bytes())
}

// The ids that a list gives with these hints, or the name of the step.
fn hinted_ids(
    alloc: Global,
    list: &str,
    login: Option<&Text>,
    domain: Option<&Text>,
) -> Result<String, Fail> {
    let raw = reply_with(alloc, list)?;
    let memory = ReplyMemory::new();
    shown(
        alloc,
        read_hinted(alloc, &memory, raw.as_bytes(), login, domain),
    )
}

fn reply_line(rt: &impl Abort, alloc: Global, line: &str) -> Result<(), Fail> {
    let (wanted, more) = parts(line)?;
    let more = more.replace(alloc, "~", "\r\n")?;
    let raw = format!(in alloc; "HTTP/1.1 200 OK\r\n{more}")?;
    let found = shown(alloc, read_accounts(alloc, raw.as_bytes()))?;
    assert_eq!(rt; found.as_str(), wanted, "{line}");
    Ok(())
}

#[test]
fn replies(rt: HostRuntime) -> Result<(), Fail> {
    for line in REPLIES.split('\n') {
        reply_line(&rt, rt.alloc(), line)?;
    }
    Ok(())
}

#[test]
fn redirects_and_values(rt: HostRuntime) -> Result<(), Fail> {
    let head = "Content-Type: application/json\r\n\r\n";
    let moved = format!(in rt.alloc(); "HTTP/1.1 301 Moved\r\n{head}{{\"accounts\":[]}}")?;
    let found = shown(rt.alloc(), read_accounts(rt.alloc(), moved.as_bytes()))?;
    assert_eq!(rt; found.as_str(), "status");
    let list = format!(in rt.alloc(); "HTTP/1.1 200 OK\r\n{head}[]")?;
    let found = shown(rt.alloc(), read_accounts(rt.alloc(), list.as_bytes()))?;
    assert_eq!(rt; found.as_str(), "shape");
    Ok(())
}

fn list_line(rt: &impl Abort, alloc: Global, line: &str) -> Result<(), Fail> {
    let (wanted, list) = parts(line)?;
    let found = shown(alloc, read_list(alloc, list))?;
    assert_eq!(rt; found.as_str(), wanted, "{line}");
    Ok(())
}

#[test]
fn lists(rt: HostRuntime) -> Result<(), Fail> {
    for line in LISTS.split('\n') {
        list_line(&rt, rt.alloc(), line)?;
    }
    Ok(())
}

// A hint, where it is given.
fn hint_of(alloc: Global, hint: &str) -> Result<Option<Text>, NoRoom> {
    if hint == "-" {
        return Ok(None);
    }
    Ok(Some(Text::of(alloc, hint)?))
}

fn hint_line(rt: &impl Abort, alloc: Global, line: &str) -> Result<(), Fail> {
    let (wanted, hints) = parts(line)?;
    let (login, domain) = parts(hints)?;
    let login = hint_of(alloc, login)?;
    let domain = hint_of(alloc, domain)?;
    let read = hinted_ids(alloc, HINTED, login.as_ref(), domain.as_ref())?;
    assert_eq!(rt; read.as_str(), wanted, "read by {line}");
    let accounts = read_list(alloc, HINTED)?;
    let kept = keep_hinted(alloc, accounts, login.as_ref(), domain.as_ref());
    let found = shown(alloc, kept)?;
    assert_eq!(rt; found.as_str(), wanted, "{line}");
    Ok(())
}

#[test]
fn hints(rt: HostRuntime) -> Result<(), Fail> {
    for line in HINTS.split('\n') {
        hint_line(&rt, rt.alloc(), line)?;
    }
    Ok(())
}

/// The mediation that a word names.
pub fn mediation_of(word: &str) -> Mediation {
    match word {
        "silent" => Mediation::Silent,
        "required" => Mediation::Required,
        _ => Mediation::Optional,
    }
}

/// Of each account whether its permission is kept, by a digit.
pub fn kept_of(alloc: Global, digits: &str) -> Result<Vec<bool>, Fail> {
    let mut kept = Vec::new(alloc);
    for digit in digits.bytes() {
        kept.push(digit == b'1')?;
    }
    Ok(kept)
}

// The place that is reselected, or `none`.
fn place_of(
    alloc: Global,
    accounts: &Accounts,
    kept: &[bool],
    flag: bool,
    mediation: Mediation,
) -> Result<String, Fail> {
    if kept.len() != accounts.list().len() {
        return Err(Fail::from("lengths"));
    }
    let client = Text::of(alloc, "c1")?;
    match reselect(accounts, &client, kept, flag, mediation) {
        Some(place) => Ok(format!(in alloc; "{place}")?),
        None => Ok(String::from_str(alloc, "none")?),
    }
}

fn reselect_line(
    rt: &impl Abort,
    alloc: Global,
    accounts: &Accounts,
    line: &str,
) -> Result<(), Fail> {
    let (wanted, more) = parts(line)?;
    let (digits, more) = parts(more)?;
    let (flag, mediation) = parts(more)?;
    let kept = kept_of(alloc, digits)?;
    let found = place_of(
        alloc,
        accounts,
        kept.as_slice(),
        flag == "on",
        mediation_of(mediation),
    )?;
    assert_eq!(rt; found.as_str(), wanted, "{line}");
    Ok(())
}

#[test]
fn reselection(rt: HostRuntime) -> Result<(), Fail> {
    let accounts = read_list(rt.alloc(), CLIENTS)?;
    for line in RESELECTED.split('\n') {
        reselect_line(&rt, rt.alloc(), &accounts, line)?;
    }
    Ok(())
}

#[test]
fn connections(rt: HostRuntime) -> Result<(), Fail> {
    let accounts = read_list(rt.alloc(), CLIENTS)?;
    let client = Text::of(rt.alloc(), "c1")?;
    let mut found = String::new(rt.alloc());
    for account in accounts.list() {
        for kept in [false, true] {
            found.push(if connected(account, &client, kept) {
                'c'
            } else {
                '-'
            })?;
            found.push(if eligible(account, &client, kept) {
                'e'
            } else {
                '-'
            })?;
        }
    }
    assert_eq!(rt; found.as_str(), "--cec-ce----c-ce");
    Ok(())
}

// Adds each text and a semicolon.
fn add_texts(found: &mut String, texts: &[Text]) -> Result<(), AllocError> {
    for text in texts {
        found.push_str(text.as_str())?;
        found.push(';')?;
    }
    Ok(())
}

// Adds the text, where there is one, and a semicolon.
fn add_text(found: &mut String, text: Option<&Text>) -> Result<(), AllocError> {
    if let Some(text) = text {
        found.push_str(text.as_str())?;
    }
    found.push(';')
}

// The members of an account, each before a semicolon.
fn members_of(alloc: Global, account: &Account) -> Result<String, AllocError> {
    let id = account.id.as_str();
    let name = account.name.as_str();
    let email = account.email.as_str();
    let mut found = format!(in alloc; "{id};{name};{email};")?;
    add_text(&mut found, account.given_name.as_ref())?;
    add_text(&mut found, lent_text(&account.picture))?;
    if let Some(clients) = &account.approved {
        add_texts(&mut found, clients.as_slice())?;
    }
    add_texts(&mut found, account.login_hints.as_slice())?;
    add_texts(&mut found, account.domain_hints.as_slice())?;
    Ok(found)
}

const WHOLE: &str =
    r#"[{"id":"u1","name":"Ann","email":"ann@idp.example","given_name":"A","picture":"/a","approved_clients":["c1","c2"],"login_hints":["l"],"domain_hints":["d"]}]"#;

#[test]
fn an_account_is_read_and_copied(rt: HostRuntime) -> Result<(), Fail> {
    let accounts = read_list(rt.alloc(), WHOLE)?;
    for account in accounts.list() {
        let copy = account.copy(rt.alloc())?;
        let members = members_of(rt.alloc(), &copy)?;
        assert_eq!(rt; members.as_str(), "u1;Ann;ann@idp.example;A;/a;c1;c2;l;d;");
    }
    Ok(())
}

// A list of accounts, each id twice.
fn many(alloc: Global, count: u32) -> Result<String, Fail> {
    let mut list = String::new(alloc);
    list.push('[')?;
    for number in 0..count {
        let id = number / 2;
        let entry = format!(in alloc; "{{\"id\":\"user{id}\",\"name\":\"\",\"email\":\"\"}},")?;
        list.push_str(entry.as_str())?;
    }
    list.push_str(r#"{"id":"last","name":"","email":""}]"#)?;
    Ok(list)
}

#[test]
fn many_accounts(rt: HostRuntime) -> Result<(), Fail> {
    let list = many(rt.alloc(), 20_000)?;
    let accounts = read_list(rt.alloc(), list.as_str())?;
    assert_eq!(rt; accounts.list().len(), 10_001);
    Ok(())
}
