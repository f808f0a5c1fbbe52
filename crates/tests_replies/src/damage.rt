//! Damaged replies, each with the first step that refuses it, and those that are good.
use crate::accounts::read_list;
use crate::provider::{CONFIG, ok, step_of};
use crate::steps::{parts, reply_name};
use crate::token::{origin_of, shown};
use fed_io::{Fault, NoRoom};
use fed_origin::{Origin, WebUrl};
use fed_provider::read_config;
use fed_reply::{Asked, JsonBuffer, read_reply, read_texts};
use fed_token::read_assertion;
use std::alloc::{AllocError, Global};
use std::process::Abort;
use std::test::Fail;

// In each table a line has what is wanted, and then what is read. `~` stands for CR LF.

// The name of the step, or `good` and the body. Then follows a reply.
const REPLIES: &str =
    "length | HTTP/1.1 200 OK~Content-Type: application/json~Content-Length: 2~Content-Length: 3~~{}
length | HTTP/1.1 200 OK~Content-Type: application/json~Content-Length: 2, 2~~{}
length | HTTP/1.1 200 OK~Content-Type: application/json~Content-Length: 00000000000000000002~~{}
good {} | HTTP/1.1 200 OK~Content-Type: application/json~Content-Length: 2~Content-Length: 2~~{}more
short | HTTP/1.1 200 OK~Content-Type: application/json~Content-Length: 9999999999999999999~~{}
coding | HTTP/1.1 200 OK~Content-Type: application/json~Transfer-Encoding: gzip, chunked~~2~{}~0~~
coding | HTTP/1.1 200 OK~Content-Type: application/json~Transfer-Encoding: chunked~Transfer-Encoding: chunked~~2~{}~0~~
chunk | HTTP/1.1 200 OK~Content-Type: application/json~Transfer-Encoding: chunked~~ffffffffffffffffffffffffffffffffffffffff~{}~0~~
chunk | HTTP/1.1 200 OK~Content-Type: application/json~Transfer-Encoding: chunked~~2~{}~
short | HTTP/1.1 200 OK~Content-Type: application/json~Transfer-Encoding: chunked~~2~{
short | HTTP/1.1 200 OK~Content-Type: application/json~Transfer-Encoding: chunked~~2~{}
short | HTTP/1.1 200 OK~Content-Type: application/json~Transfer-Encoding: chunked~~2~{}\r
mime | HTTP/1.1 204 No Content~~
mime | HTTP/1.1 200~Content-Type: application/json, text/html~~{}
good {} | HTTP/1.1 200~Content-Type: Application/JSON;charset=x~~{}
good {} | HTTP/1.1 299~Content-Type: application/x+json~~{}
json | HTTP/1.1 200 OK~Content-Type: application/json~~\u{feff}\u{feff}{}
head | HTTP/2 200 OK~~
head | ";

// The name of the step. Then follows the accounts endpoint of a configuration.
const ENDPOINTS: &str = "accounts | https://accounts.idp.example:444/a
accounts | //evil.example/
accounts | javascript:1
accounts | https://u:p@accounts.idp.example/a";

// The token, the step or the error, as in the tables of tokens. Then follow fields, which come before those that pass the
// check, and the body.
const ASSERTIONS: &str = r#"cors | Access-Control-Allow-Origin: https://rp.example~ | {"token":"T1"}
"" |  | {"token":""}
error  - |  | {"token":1,"error":{"code":7}}"#;

// `good` and the body.
fn good_line(alloc: Global, body: &[u8]) -> Result<String, Fail> {
    let body = str::from_utf8(body)?;
    Ok(format!(in alloc; "good {body}")?)
}

// `good` and the body, or the name of the step at which the value of a reply is refused.
fn value_line(alloc: Global, raw: &[u8], body: &[u8]) -> Result<String, Fail> {
    let mut buffer = JsonBuffer::new(alloc);
    line_by(alloc, raw, body, &mut buffer)
}

// The same, with what is read from.
fn line_by(
    alloc: Global,
    raw: &[u8],
    body: &[u8],
    buffer: &mut JsonBuffer,
) -> Result<String, Fail> {
    let mut asked = [Asked::new("a")];
    match read_texts(alloc, raw, buffer, &mut asked) {
        Ok(()) => good_line(alloc, body),
        Err(Fault::Step(step)) => Ok(String::from_str(alloc, reply_name(step))?),
        Err(Fault::NoRoom) => Err(Fail::from(NoRoom)),
    }
}

// `good` and the body of a reply, or the name of the first step that refuses it.
fn answer_line(alloc: Global, raw: &[u8]) -> Result<String, Fail> {
    match read_reply(alloc, raw) {
        Ok(reply) => value_line(alloc, raw, reply.body()),
        Err(Fault::Step(step)) => Ok(String::from_str(alloc, reply_name(step))?),
        Err(Fault::NoRoom) => Err(Fail::from(NoRoom)),
    }
}

fn reply_line(rt: &impl Abort, alloc: Global, line: &str) -> Result<(), Fail> {
    let (wanted, reply) = parts(line)?;
    let raw = reply.replace(alloc, "~", "\r\n")?;
    let found = answer_line(alloc, raw.as_bytes())?;
    assert_eq!(rt; found.as_str(), wanted, "{line}");
    Ok(())
}

#[test]
fn replies(rt: HostRuntime) -> Result<(), Fail> {
    for line in REPLIES.split('\n') {
        reply_line(&rt, rt.alloc(), line)?;
    }
    Ok(())
}

// A reply with that many fields, whose body is that many lists, each in the one before it.
fn large(alloc: Global, fields: u32, depth: u32) -> Result<String, AllocError> {
    let mut raw = String::from_str(
        alloc,
        "HTTP/1.1 200 OK\r\nContent-Type: application/json\r\n",
    )?;
    for _ in 1..fields {
        raw.push_str("A: b\r\n")?;
    }
    raw.push_str("\r\n")?;
    for _ in 0..depth {
        raw.push('[')?;
    }
    for _ in 0..depth {
        raw.push(']')?;
    }
    Ok(raw)
}

// Tests that what is read of such a reply begins as is wanted.
fn large_line(
    rt: &impl Abort,
    alloc: Global,
    fields: u32,
    depth: u32,
    wanted: &str,
) -> Result<(), Fail> {
    let raw = large(alloc, fields, depth)?;
    let found = answer_line(alloc, raw.as_bytes())?;
    assert!(rt;
        found.as_str().starts_with(wanted),
        "{fields} fields, {depth} lists"
    );
    Ok(())
}

#[test]
fn limits(rt: HostRuntime) -> Result<(), Fail> {
    large_line(&rt, rt.alloc(), 129, 1, "head")?;
    large_line(&rt, rt.alloc(), 1, 128, "json")?;
    large_line(&rt, rt.alloc(), 128, 127, "good [")?;
    Ok(())
}

fn endpoint_line(rt: &impl Abort, alloc: Global, config: &WebUrl, line: &str) -> Result<(), Fail> {
    let (wanted, endpoint) = parts(line)?;
    let others = r#""id_assertion_endpoint":"/assert","login_url":"/login""#;
    let body = format!(in alloc; "{{\"accounts_endpoint\":\"{endpoint}\",{others}}}")?;
    let raw = ok(alloc, body.as_str())?;
    let found = step_of(read_config(alloc, raw.as_bytes(), config))?;
    assert_eq!(rt; found, wanted, "{line}");
    Ok(())
}

#[test]
fn endpoints(rt: HostRuntime) -> Result<(), Fail> {
    let config = WebUrl::read(rt.alloc(), CONFIG)?;
    for line in ENDPOINTS.split('\n') {
        endpoint_line(&rt, rt.alloc(), &config, line)?;
    }
    Ok(())
}

// A list of accounts of one id, each of which has its place as its name.
fn of_one_id(alloc: Global, count: u32) -> Result<String, Fail> {
    let mut list = String::new(alloc);
    list.push('[')?;
    for place in 0..count {
        if place > 0 {
            list.push(',')?;
        }
        let entry = format!(in alloc; "{{\"id\":\"u1\",\"name\":\"{place}\",\"email\":\"\"}}")?;
        list.push_str(entry.as_str())?;
    }
    list.push(']')?;
    Ok(list)
}

#[test]
fn accounts_of_one_id(rt: HostRuntime) -> Result<(), Fail> {
    let list = of_one_id(rt.alloc(), 100_000)?;
    let accounts = read_list(rt.alloc(), list.as_str())?;
    assert_eq!(rt; accounts.list().len(), 1);
    for account in accounts.list() {
        assert_eq!(rt; account.name.as_str(), "0");
    }
    Ok(())
}

// A reply with those fields, then the ones that pass the check for `https://rp.example`, and the body.
fn assertion(alloc: Global, fields: &str, body: &str) -> Result<String, Fail> {
    let fields = fields.replace(alloc, "~", "\r\n")?;
    let passing =
        "Access-Control-Allow-Origin: https://rp.example\r\nAccess-Control-Allow-Credentials: true\r\n";
    Ok(format!(in alloc;
        "HTTP/1.1 200 OK\r\nContent-Type: application/json\r\n{fields}{passing}\r\n{body}"
    )?)
}

fn assertion_line(rt: &impl Abort, alloc: Global, origin: &Origin, line: &str) -> Result<(), Fail> {
    let (wanted, more) = parts(line)?;
    let (fields, body) = parts(more)?;
    let raw = assertion(alloc, fields, body)?;
    let found = shown(alloc, read_assertion(alloc, raw.as_bytes(), origin))?;
    assert_eq!(rt; found.as_str(), wanted, "{line}");
    Ok(())
}

#[test]
fn assertions(rt: HostRuntime) -> Result<(), Fail> {
    let origin = origin_of(rt.alloc(), "https://rp.example/")?;
    for line in ASSERTIONS.split('\n') {
        assertion_line(&rt, rt.alloc(), &origin, line)?;
    }
    Ok(())
}
