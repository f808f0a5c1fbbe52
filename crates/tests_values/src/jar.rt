//! The jar on worked examples, each a list of steps, and a table of what is stored.
use crate::filled::{Filled, NOW};
use crate::lines::{assert_so, assert_text, parts};
use crate::values::rules_of;
use fed_io::Bytes;
use fed_jar::{Cookie, Numbered};
use fed_origin::WebUrl;
use fed_suffix::Suffixes;
use std::alloc::{AllocError, Global};
use std::process::Abort;
use std::test::Fail;

// A cookie under a nested suffix names the registrable domain of the other suffix.
const NESTED_SUFFIX: &str =
    "store | https://foo.blog.example.com/ | x=1; Domain=example.com; Path=/; SameSite=None; Secure | no
text | 0 | https://example.com/accounts | none
store | https://a.example.com/ | x=1; Domain=example.com; Path=/; SameSite=None; Secure | yes
text | 0 | https://example.com/accounts | x=1
text | 0 | https://foo.blog.example.com/ | none";

// A cookie that is replaced keeps its place; a Lax one is not sent; longer paths go first.
const COOKIES_IN_ORDER: &str =
    "store | https://accounts.idp.example/login/start | a=1; Path=/; SameSite=None; Secure | yes
store | https://accounts.idp.example/login/start | b=2; Path=/accounts; SameSite=None; Secure | yes
store | https://accounts.idp.example/login/start | c=3; Path=/ | yes
store | https://accounts.idp.example/login/start | d=4; Domain=idp.example; Path=/; SameSite=None; Secure | yes
store | https://accounts.idp.example/login/start | e=6; SameSite=None; Secure | yes
store | https://accounts.idp.example/login/start | a=5; Path=/; SameSite=None; Secure | yes
text | 0 | https://accounts.idp.example/accounts | b=2; a=5; d=4
list | idp.example | a=5 /;b=2 /accounts;c=3 /;d=4 /;e=6 /login;
all | - | a=5 /;b=2 /accounts;c=3 /;d=4 /;e=6 /login;
numbers | idp.example | a=5 /;0 b=2 /accounts;1 c=3 /;2 d=4 /;3 e=6 /login;4 
store | https://other.example/ | o=1 | yes
store | https://idp.example/ | n=1 | yes
list | idp.example | a=5 /;b=2 /accounts;c=3 /;d=4 /;e=6 /login;n=1 /;
all | - | a=5 /;b=2 /accounts;c=3 /;d=4 /;e=6 /login;o=1 /;n=1 /;
numbers | idp.example | a=5 /;0 b=2 /accounts;1 c=3 /;2 d=4 /;3 e=6 /login;4 n=1 /;6 
numbers | other.example | o=1 /;5 
numbers | accounts.idp.example | none";

// Max-Age counts before Expires, and an expired cookie keeps its place.
const EXPIRY: &str =
    "store | https://a.example/ | a=1; SameSite=None; Secure; Max-Age=10; Expires=Thu, 01 Jan 1970 00:00:00 GMT | yes
store | https://a.example/ | b=1; SameSite=None; Secure; Max-Age=0; Expires=Thu, 01 Jan 2099 00:00:00 GMT | yes
store | https://a.example/ | c=1; SameSite=None; Secure; Expires=Thu, 01 Jan 2099 00:00:00 GMT | yes
text | 9 | https://a.example/ | a=1; c=1
text | 10 | https://a.example/ | c=1
store | https://a.example/ | b=2; SameSite=None; Secure | yes
text | 0 | https://a.example/ | a=1; b=2; c=1";

// What a jar without cookies makes of a field: the cookie is for hosts below too (`domain`), for
// the host alone (`host`), or ignored (`no`), under the rules `com`, `co.example` and `*.ck`. Of
// these RFC 6265 has no prefixes, no rule on SameSite and none on Secure over http, and stores a
// cookie of a domain that is no registrable domain's.
const FIELDS: &str = "alone | https://a.example/ | x=1 | host
alone | https://a.example/ | x=1; SameSite=None | no
alone | https://a.example/ | x=1; SameSite=None; Secure | host
alone | http://a.example/ | x=1; Secure | no
alone | http://a.example/ | x=1 | host
alone | https://a.example/ | __Host-a=1; Secure; Path=/p | no
alone | https://a.example/ | __Host-a=1; Secure; Path=/ | host
alone | https://a.example/ | __Host-a=1; Secure | host
alone | https://a.example/p/q | __Host-a=1; Secure | no
alone | https://a.example/ | __Host-a=1; Path=/ | no
alone | https://a.example/ | __Host-a=1; Secure; Path=/; Domain=a.example | no
alone | https://a.example/ | __host-a=1; Path=/p | host
alone | https://a.example/ | __Secure-a=1 | no
alone | https://a.example/ | __Secure-a=1; Secure; Path=/p | host
alone | https://localhost/ | x=1; Domain=localhost | host
alone | https://a.localhost/ | x=1; Domain=localhost | no
alone | https://127.0.0.1/ | x=1; Domain=127.0.0.1 | host
alone | https://127.0.0.1/ | x=1; Domain=0.0.1 | no
alone | https://a.example/ | x=1; Domain=. | no
alone | https://a.example/ | x=1; Domain= | host
alone | https://a.example/ | x=1; Domain=example | no
alone | https://a.example/ | x=1; Domain=a.example | domain
alone | https://b.a.example/ | x=1; Domain=.A.Example | domain
alone | https://a.example/ | x=1; Domain=b.a.example | no
alone | https://a.example/ | x=1; Domain=b.example | no
alone | https://a.co.example/ | x=1; Domain=co.example | no
alone | https://co.example/ | x=1; Domain=co.example | host
alone | https://b.a.co.example/ | x=1; Domain=a.co.example | domain
alone | https://a.b.ck/ | x=1; Domain=b.ck | no";

fn push(text: &mut Vec<u8>, cookie: &Cookie) -> Result<(), AllocError> {
    text.extend_from_slice(cookie.name.as_slice())?;
    text.push(b'=')?;
    text.extend_from_slice(cookie.value.as_slice())?;
    text.push(b' ')?;
    text.extend_from_slice(cookie.path.as_slice())?;
    text.push(b';')?;
    Ok(())
}

// Names, values and paths, of copies.
fn push_all(text: &mut Vec<u8>, alloc: Global, cookies: &[Cookie]) -> Result<(), Fail> {
    for cookie in cookies {
        push(text, &cookie.copy(alloc)?)?;
    }
    Ok(())
}

fn push_number(text: &mut Vec<u8>, alloc: Global, number: u64) -> Result<(), AllocError> {
    let word = format!(in alloc; "{number} ")?;
    text.extend_from_slice(word.as_bytes())
}

// Names, values and paths, of copies, each with its number.
fn push_numbered(text: &mut Vec<u8>, alloc: Global, list: &[Numbered]) -> Result<(), Fail> {
    for one in list {
        push(text, &one.cookie.unpack(alloc)?)?;
        push_number(text, alloc, one.number)?;
    }
    Ok(())
}

// Whether the field of a page is stored is what the step says.
pub fn store_step(
    rt: &impl Abort,
    jar: &mut Filled,
    alloc: Global,
    step: &str,
) -> Result<(), Fail> {
    let (url, more) = parts(step)?;
    let (field, answer) = parts(more)?;
    let is_stored = jar.store(alloc, url, field.as_bytes())?;
    assert_so(rt, is_stored == (answer == "yes"), step);
    Ok(())
}

// That cookies are for their host alone, or none of them is.
fn assert_scopes(rt: &impl Abort, cookies: &[Cookie], host_only: bool, step: &str) {
    for cookie in cookies {
        assert_so(rt, cookie.host_only == host_only, step);
    }
}

fn assert_listed(
    rt: &impl Abort,
    jar: &Filled,
    alloc: Global,
    host_only: bool,
    step: &str,
) -> Result<(), Fail> {
    let list = jar.list(alloc)?;
    assert_scopes(rt, list.as_slice(), host_only, step);
    Ok(())
}

// What an empty jar makes of a field.
fn first_step(rt: &impl Abort, jar: &mut Filled, alloc: Global, step: &str) -> Result<(), Fail> {
    let (url, more) = parts(step)?;
    let (field, scope) = parts(more)?;
    let is_stored = jar.store(alloc, url, field.as_bytes())?;
    assert_so(rt, is_stored == (scope != "no"), step);
    assert_listed(rt, jar, alloc, scope == "host", step)
}

fn alone_step(rt: &impl Abort, alloc: Global, list: &str, step: &str) -> Result<(), Fail> {
    let mut jar = Filled::new(alloc, rules_of(alloc, list)?);
    first_step(rt, &mut jar, alloc, step)
}

// A text that is wanted, where `none` stands for the empty one.
fn wanted_text(word: &str) -> &[u8] {
    if word == "none" {
        return b"".as_slice();
    }
    word.as_bytes()
}

fn sent(jar: &Filled, alloc: Global, url: &str, now: u64) -> Result<Bytes, Fail> {
    let url = WebUrl::read(alloc, url)?;
    jar.text(alloc, &url, now)
}

fn text_step(rt: &impl Abort, jar: &Filled, alloc: Global, step: &str) -> Result<(), Fail> {
    let (later, more) = parts(step)?;
    let (url, wanted) = parts(more)?;
    let now = NOW.saturating_add(later.parse::<u64>().unwrap_or(0));
    let text = sent(jar, alloc, url, now)?;
    assert_text(rt, text.as_slice(), wanted_text(wanted), step);
    Ok(())
}

fn listed(jar: &Filled, alloc: Global, party: &str) -> Result<Vec<Cookie>, Fail> {
    if party == "-" {
        return jar.list(alloc);
    }
    jar.list_of(alloc, party.as_bytes())
}

fn push_listed(text: &mut Vec<u8>, jar: &Filled, alloc: Global, party: &str) -> Result<(), Fail> {
    let list = listed(jar, alloc, party)?;
    push_all(text, alloc, list.as_slice())
}

fn list_step(rt: &impl Abort, jar: &Filled, alloc: Global, step: &str) -> Result<(), Fail> {
    let (party, wanted) = parts(step)?;
    let mut text = Vec::new(alloc);
    push_listed(&mut text, jar, alloc, party)?;
    assert_text(rt, text.as_slice(), wanted.as_bytes(), step);
    Ok(())
}

fn number_step(rt: &impl Abort, jar: &Filled, alloc: Global, step: &str) -> Result<(), Fail> {
    let (party, wanted) = parts(step)?;
    let mut text = Vec::new(alloc);
    push_numbered(&mut text, alloc, jar.of_party(party.as_bytes()))?;
    assert_text(rt, text.as_slice(), wanted_text(wanted), step);
    Ok(())
}

// A step begins with its kind.
fn take_step(
    rt: &impl Abort,
    jar: &mut Filled,
    alloc: Global,
    list: &str,
    line: &str,
) -> Result<(), Fail> {
    let (word, step) = parts(line)?;
    match word {
        "store" => store_step(rt, jar, alloc, step),
        "alone" => alone_step(rt, alloc, list, step),
        "text" => text_step(rt, jar, alloc, step),
        "numbers" => number_step(rt, jar, alloc, step),
        _ => list_step(rt, jar, alloc, step),
    }
}

fn take_steps(
    rt: &impl Abort,
    jar: &mut Filled,
    alloc: Global,
    list: &str,
    steps: &str,
) -> Result<(), Fail> {
    for line in steps.split('\n') {
        take_step(rt, jar, alloc, list, line)?;
    }
    Ok(())
}

fn follows(rt: &impl Abort, alloc: Global, list: &str, steps: &str) -> Result<(), Fail> {
    let mut jar = Filled::new(alloc, rules_of(alloc, list)?);
    take_steps(rt, &mut jar, alloc, list, steps)
}

#[test]
fn nested_suffix(rt: HostRuntime) -> Result<(), Fail> {
    follows(&rt, rt.alloc(), "com\nblog.example.com", NESTED_SUFFIX)
}

#[test]
fn cookies_in_order(rt: HostRuntime) -> Result<(), Fail> {
    follows(&rt, rt.alloc(), "", COOKIES_IN_ORDER)
}

#[test]
fn expiry(rt: HostRuntime) -> Result<(), Fail> {
    follows(&rt, rt.alloc(), "", EXPIRY)
}

#[test]
fn stored_fields(rt: HostRuntime) -> Result<(), Fail> {
    follows(&rt, rt.alloc(), "com\nco.example\n*.ck", FIELDS)
}

fn push_long(field: &mut Vec<u8>, count: usize) -> Result<(), AllocError> {
    field.extend_from_slice(b"name=")?;
    for _ in 4..count {
        field.push(b'v')?;
    }
    Ok(())
}

// Whether a cookie whose name and value have so many bytes together is stored.
fn stores_bytes(alloc: Global, count: usize) -> Result<bool, Fail> {
    let mut field = Vec::new(alloc);
    push_long(&mut field, count)?;
    let mut jar = Filled::new(alloc, Suffixes::new(alloc));
    jar.store(alloc, "https://a.example/", field.as_slice())
}

#[test]
fn longest_cookie(rt: HostRuntime) -> Result<(), Fail> {
    assert_so(&rt, stores_bytes(rt.alloc(), 4096)?, "4096");
    assert_so(&rt, !stores_bytes(rt.alloc(), 4097)?, "4097");
    Ok(())
}
