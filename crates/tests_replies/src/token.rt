//! Replies of the assertion and the disconnect endpoints, and the step at which they are refused.
use crate::steps::{parts, reply_name};
use fed_io::{Fault, NoRoom, Text};
use fed_origin::{Origin, WebUrl};
use fed_reply::read_reply;
use fed_token::{TokenStep, cors_passes, read_assertion, read_disconnect};
use std::alloc::Global;
use std::process::Abort;
use std::test::Fail;

// In each table a line has what is wanted: the text that is read (in quotes), the name of the step,
// or `error`, the code and the address of the provider's error. `~` stands for CR LF.

// Then follow the fields of a reply with a token, to a page of `https://rp.example`.
const FIELDS: &str =
    r#""T1" | Access-Control-Allow-Origin: https://rp.example~Access-Control-Allow-Credentials: true~
"T1" | access-control-allow-credentials:true~ACCESS-CONTROL-ALLOW-ORIGIN:  https://rp.example ~
"T1" | a:~b:~c:~d:~e:~f:~g:~h:~i:~j:~k:~l:~m:~n:~o:~p:~Access-Control-Allow-Origin: https://rp.example~Access-Control-Allow-Credentials: true~
cors | a:~b:~c:~d:~e:~f:~g:~h:~i:~j:~k:~l:~m:~n:~o:~p:~Access-Control-Allow-Origin: https://rp.example~Access-Control-Allow-Credentials: false~
cors | Access-Control-Allow-Origin: *~Access-Control-Allow-Credentials: true~
cors | Access-Control-Allow-Origin: https://rp.example~Access-Control-Allow-Origin: *~Access-Control-Allow-Credentials: true~
cors | Access-Control-Allow-Origin: https://rp.example~
cors | Access-Control-Allow-Credentials: true~
cors | Access-Control-Allow-Origin: https://rp.example/~Access-Control-Allow-Credentials: true~
cors | Access-Control-Allow-Origin: HTTPS://rp.example~Access-Control-Allow-Credentials: true~
cors | Access-Control-Allow-Origin: https://rp.example:443~Access-Control-Allow-Credentials: true~
cors | Access-Control-Allow-Origin: http://rp.example~Access-Control-Allow-Credentials: true~
cors | Access-Control-Allow-Origin: null~Access-Control-Allow-Credentials: true~
cors | Access-Control-Allow-Origin: https://rp.example, https://rp.example~Access-Control-Allow-Credentials: true~
cors | Access-Control-Allow-Origin: https://rp.example~Access-Control-Allow-Credentials: True~
cors | Access-Control-Allow-Origin: https://rp.example~Access-Control-Allow-Credentials: true~Access-Control-Allow-Credentials: true~
cors | "#;

// Then follows the body of a reply that passes the check.
const BODIES: &str = r#""T1" | {"token":"T1"}
"T1" | {"token":"T1","error":{"code":"access_denied"}}
"T2" | {"token":1,"token":"T2","more":0}
error access_denied https://idp.example/why | {"error":{"code":"access_denied","url":"https://idp.example/why"}}
error access_denied - | {"error":{"code":"access_denied"}}
error  /why | {"error":{"url":"/why"}}
error  - | {"error":{"code":1,"url":["/why"]}}
error  - | {"token":null,"error":{"code":null}}
error x - | {"token":["T1"],"error":{"code":"x"}}
"T1" | {"x":[{"token":"no"},[[]],{}],"token":"T1"}
error b - | {"error":{"code":"a"},"error":{"code":"c","code":"b"}}
shape | {"error":{"code":"a"},"error":null}
json | {"token":"T1"}x
json | {"token":"T1","x":1e999}
json | {"token":1,"error":{"code":"a",}}
shape | {}
shape | {"error":null}
shape | {"error":"access_denied"}
shape | {"error":[]}
shape | {"token":1}
shape | {"account_id":"u1"}
shape | []
shape | "T1"
json | {"token":"T1"
json | "#;

// Then follows the body of a reply of the disconnect endpoint.
const DISCONNECTED: &str = r#""u1" | {"account_id":"u1"}
"zz" | {"account_id":"zz","error":{"code":"x"}}
"" | {"account_id":""}
shape | {"account_id":null}
shape | {"account_id":1}
shape | {"error":{"code":"access_denied"}}
shape | {"token":"T1"}
shape | []
json | {"#;

// Then follows a reply. In the order of the steps, each reply has the faults of the later steps too.
const STEPS: &str = r#"head | HTTP/2 200 OK~Content-Encoding: gzip~~
coding | HTTP/1.1 500 No~Content-Encoding: gzip~Content-Length: x~~
length | HTTP/1.1 500 No~Content-Length: x~~
chunk | HTTP/1.1 500 No~Transfer-Encoding: chunked~~x
short | HTTP/1.1 500 No~Transfer-Encoding: chunked~~5~{
cors | HTTP/1.1 500 No~Content-Type: text/html~~{
status | HTTP/1.1 500 No~Access-Control-Allow-Origin: https://rp.example~Access-Control-Allow-Credentials: true~Content-Type: text/html~~{
status | HTTP/1.1 302 No~Access-Control-Allow-Origin: https://rp.example~Access-Control-Allow-Credentials: true~Content-Type: application/json~~{"token":"T1"}
mime | HTTP/1.1 200 OK~Access-Control-Allow-Origin: https://rp.example~Access-Control-Allow-Credentials: true~Content-Type: text/html~~{
json | HTTP/1.1 200 OK~Access-Control-Allow-Origin: https://rp.example~Access-Control-Allow-Credentials: true~Content-Type: application/json~~{"#;

fn error_line(alloc: Global, code: &Text, url: &Option<Text>) -> Result<String, Fail> {
    let code = code.as_str();
    let url = match url {
        Some(url) => url.as_str(),
        None => "-",
    };
    Ok(format!(in alloc; "error {code} {url}")?)
}

fn step_line(alloc: Global, step: &TokenStep) -> Result<String, Fail> {
    match step {
        TokenStep::Reply(step) => Ok(String::from_str(alloc, reply_name(*step))?),
        TokenStep::Cors => Ok(String::from_str(alloc, "cors")?),
        TokenStep::Shape => Ok(String::from_str(alloc, "shape")?),
        TokenStep::ProviderError { code, url } => error_line(alloc, code, url),
    }
}

/// The text that is read, in quotes, or the step.
pub fn shown(alloc: Global, answer: Result<Text, Fault<TokenStep>>) -> Result<String, Fail> {
    match answer {
        Ok(text) => {
            let text = text.as_str();
            Ok(format!(in alloc; "\"{text}\"")?)
        }
        Err(Fault::Step(step)) => step_line(alloc, &step),
        Err(Fault::NoRoom) => Err(Fail::from(NoRoom)),
    }
}

/// The origin of a URL.
pub fn origin_of(alloc: Global, url: &str) -> Result<Origin, Fail> {
    let url = WebUrl::read(alloc, url)?;
    Ok(Origin::of_url(alloc, &url)?)
}

// A reply with the fields that pass the check for `https://rp.example`, and the body.
fn allowed(alloc: Global, body: &str) -> Result<String, Fail> {
    let fields =
        "Access-Control-Allow-Origin: https://rp.example\r\nAccess-Control-Allow-Credentials: true";
    Ok(format!(in alloc;
        "HTTP/1.1 200 OK\r\nContent-Type: application/json\r\n{fields}\r\n\r\n{body}"
    )?)
}

fn field_line(rt: &impl Abort, alloc: Global, origin: &Origin, line: &str) -> Result<(), Fail> {
    let (wanted, fields) = parts(line)?;
    let fields = fields.replace(alloc, "~", "\r\n")?;
    let raw = format!(in alloc;
        "HTTP/1.1 200 OK\r\nContent-Type: application/json\r\n{fields}\r\n{{\"token\":\"T1\"}}"
    )?;
    let found = shown(alloc, read_assertion(alloc, raw.as_bytes(), origin))?;
    assert_eq!(rt; found.as_str(), wanted, "{line}");
    Ok(())
}

#[test]
fn fields(rt: HostRuntime) -> Result<(), Fail> {
    let origin = origin_of(rt.alloc(), "https://rp.example/path")?;
    for line in FIELDS.split('\n') {
        field_line(&rt, rt.alloc(), &origin, line)?;
    }
    Ok(())
}

fn body_line(rt: &impl Abort, alloc: Global, origin: &Origin, line: &str) -> Result<(), Fail> {
    let (wanted, body) = parts(line)?;
    let raw = allowed(alloc, body)?;
    let found = shown(alloc, read_assertion(alloc, raw.as_bytes(), origin))?;
    assert_eq!(rt; found.as_str(), wanted, "{line}");
    Ok(())
}

#[test]
fn bodies(rt: HostRuntime) -> Result<(), Fail> {
    let origin = origin_of(rt.alloc(), "https://rp.example/")?;
    for line in BODIES.split('\n') {
        body_line(&rt, rt.alloc(), &origin, line)?;
    }
    Ok(())
}

fn disconnect_line(
    rt: &impl Abort,
    alloc: Global,
    origin: &Origin,
    line: &str,
) -> Result<(), Fail> {
    let (wanted, body) = parts(line)?;
    let raw = allowed(alloc, body)?;
    let found = shown(alloc, read_disconnect(alloc, raw.as_bytes(), origin))?;
    assert_eq!(rt; found.as_str(), wanted, "{line}");
    Ok(())
}

#[test]
fn disconnected(rt: HostRuntime) -> Result<(), Fail> {
    let origin = origin_of(rt.alloc(), "https://rp.example/")?;
    for line in DISCONNECTED.split('\n') {
        disconnect_line(&rt, rt.alloc(), &origin, line)?;
    }
    Ok(())
}

fn step_row(rt: &impl Abort, alloc: Global, origin: &Origin, line: &str) -> Result<(), Fail> {
    let (wanted, reply) = parts(line)?;
    let raw = reply.replace(alloc, "~", "\r\n")?;
    let found = shown(alloc, read_assertion(alloc, raw.as_bytes(), origin))?;
    assert_eq!(rt; found.as_str(), wanted, "{line}");
    let found = shown(alloc, read_disconnect(alloc, raw.as_bytes(), origin))?;
    assert_eq!(rt; found.as_str(), wanted, "{line}");
    Ok(())
}

#[test]
fn steps(rt: HostRuntime) -> Result<(), Fail> {
    let origin = origin_of(rt.alloc(), "https://rp.example/")?;
    for line in STEPS.split('\n') {
        step_row(&rt, rt.alloc(), &origin, line)?;
    }
    Ok(())
}

#[test]
fn the_check_alone(rt: HostRuntime) -> Result<(), Fail> {
    let raw =
        b"HTTP/1.1 404 No\r\nAccess-Control-Allow-Origin: http://localhost:8080\r\nAccess-Control-Allow-Credentials: true\r\n\r\n";
    let reply = read_reply(rt.alloc(), raw.as_slice())?;
    let origin = origin_of(rt.alloc(), "http://localhost:8080/")?.serialize(rt.alloc())?;
    assert!(rt; cors_passes(&reply, origin.as_str().as_bytes()));
    assert!(rt; !cors_passes(&reply, b"http://localhost"));
    assert!(rt; !cors_passes(&reply, b""));
    Ok(())
}
