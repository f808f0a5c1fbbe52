//! URLs that are read or refused, their parts, joins, origins and hosts, one case a line.
use crate::lines::{assert_so, parts};
use crate::values::{origin_of, triple, url};
use fed_io::{Fault, Items, NoRoom, Text, placed_text};
use fed_origin::{
    Context, GetOptions, HostKind, Mediation, Mode, Origin, ProviderOptions, UrlRefusal, WebUrl,
};
use std::alloc::Global;
use std::process::Abort;
use std::test::Fail;

// A text, and why it is no URL here, or that it is read.
const REFUSALS: &str = " https://h/  | read
HTTP://h | read
https://@h/ | read
h | no URL
 | no URL
https://a b/ | no URL
https://idp.example.256/ | no URL
ftp://u@h/ | no web
javascript:1 | no web
https://u@h/ | has user
https://:p@h/ | has user";

// A text, and the serialized text, the path and the target of its URL.
const PARTS: &str = "https://IDP.example:443/a/b?q#f | https://idp.example/a/b?q#f | /a/b | /a/b?q
https://h:8/a? | https://h:8/a? | /a | /a?
https://idp.example/.well-known/web-identity | https://idp.example/.well-known/web-identity | \
    /.well-known/web-identity | /.well-known/web-identity
https://idp.example/a/./b/..?q=%41/.. | https://idp.example/a/?q=%41/.. | /a/ | /a/?q=%41/..
https://idp.example/a^b | https://idp.example/a%5Eb | /a%5Eb | /a%5Eb
http:h | http://h/ | / | /";

// A text, what it joins to at the base `https://idp.example/a/b`, and whether that has the base's origin.
const JOINS: &str = "c | https://idp.example/a/c | same
/c?d | https://idp.example/c?d | same
//idp.example:444/c | https://idp.example:444/c | other
//evil.example/ | https://evil.example/ | other
/\\evil.example/ | https://evil.example/ | other
/..//c/. | https://idp.example//c/ | same
http://idp.example/ | http://idp.example/ | other
javascript:1 | none | -
https://u:p@idp.example/ | none | -";

// Two texts, and whether they are one URL.
const PAIRS: &str = "https://IDP.example:443/a | https://idp.example/a | same
https://idp.example/a#f | https://idp.example/a#g | other
https://idp.example/a? | https://idp.example/a | other";

// A URL and the kind of its host.
const KINDS: &str = "https://a.1.2.example/ | name
https://127.1/ | v4
https://0x7f.0.0.1/ | v4
https://[::1]/ | v6
https://1.2.3.4.example/ | name";

// A URL, its origin, and whether that is trustworthy.
const ORIGINS: &str = "https://rp.example/a | https://rp.example | trusted
https://rp.example:8443/ | https://rp.example:8443 | trusted
http://rp.example:80/ | http://rp.example | not
http://localhost:3000/ | http://localhost:3000 | trusted
http://localhost./ | http://localhost. | trusted
http://a.localhost/ | http://a.localhost | trusted
http://a.localhost./ | http://a.localhost. | trusted
http://notlocalhost/ | http://notlocalhost | not
http://127.9.9.9/ | http://127.9.9.9 | trusted
http://128.0.0.1/ | http://128.0.0.1 | not
http://127.example/ | http://127.example | not
http://[::1]/ | http://[::1] | trusted
http://[::2]/ | http://[::2] | not";

// What the lines of a table are about.
#[derive(Clone, Copy)]
enum About {
    Refusal,
    Parts,
    Join,
    Pair,
    Kind,
    Origin,
}

fn refusal_word(refusal: UrlRefusal) -> &'static str {
    match refusal {
        UrlRefusal::NotUrl => "no URL",
        UrlRefusal::NotWeb => "no web",
        UrlRefusal::HasUser => "has user",
    }
}

fn reading(alloc: Global, text: &str) -> Result<&'static str, NoRoom> {
    match WebUrl::read(alloc, text) {
        Ok(_) => Ok("read"),
        Err(Fault::Step(refusal)) => Ok(refusal_word(refusal)),
        Err(Fault::NoRoom) => Err(NoRoom),
    }
}

fn is_refused(alloc: Global, line: &str) -> Result<bool, Fail> {
    let (text, word) = parts(line)?;
    Ok(reading(alloc, text)? == word)
}

fn copy_of(alloc: Global, text: &str) -> Result<WebUrl, NoRoom> {
    let url = url(alloc, text)?;
    url.copy(alloc)
}

fn is_written(url: &WebUrl, text: &str, path: &str, target: &str) -> bool {
    url.as_str() == text
        && url.is_text(text)
        && !url.is_text(path)
        && url.path() == path
        && url.path_query() == target
}

fn has_parts(alloc: Global, line: &str) -> Result<bool, Fail> {
    let (text, more) = parts(line)?;
    let (written, more) = parts(more)?;
    let (path, target) = parts(more)?;
    let copy = copy_of(alloc, text)?;
    Ok(is_written(&copy, written, path, target))
}

// What the text joins to at the base; none where it is refused.
fn joined(alloc: Global, base: &WebUrl, text: &str) -> Result<Option<WebUrl>, NoRoom> {
    match base.join(alloc, text) {
        Ok(url) => Ok(Some(url)),
        Err(Fault::Step(_)) => Ok(None),
        Err(Fault::NoRoom) => Err(NoRoom),
    }
}

fn is_joined(base: &WebUrl, url: &Option<WebUrl>, expected: &str, origin: &str) -> bool {
    match url {
        Some(url) => url.as_str() == expected && base.same_origin(url) == (origin == "same"),
        None => expected == "none",
    }
}

fn joins(alloc: Global, line: &str) -> Result<bool, Fail> {
    let (text, more) = parts(line)?;
    let (expected, origin) = parts(more)?;
    let base = url(alloc, "https://idp.example/a/b")?;
    let url = joined(alloc, &base, text)?;
    Ok(is_joined(&base, &url, expected, origin))
}

// Whether both texts are read as one URL.
fn are_one(alloc: Global, first: &str, second: &str) -> Result<bool, NoRoom> {
    let first = url(alloc, first)?;
    let second = url(alloc, second)?;
    Ok(first.is_same(&second))
}

fn are_same(alloc: Global, line: &str) -> Result<bool, Fail> {
    let (first, more) = parts(line)?;
    let (second, word) = parts(more)?;
    Ok(are_one(alloc, first, second)? == (word == "same"))
}

fn kind_word(kind: HostKind) -> &'static str {
    match kind {
        HostKind::Name => "name",
        HostKind::V4 => "v4",
        HostKind::V6 => "v6",
    }
}

fn kind_of(alloc: Global, text: &str) -> Result<&'static str, NoRoom> {
    let url = url(alloc, text)?;
    let host = url.host().copy(alloc)?;
    Ok(kind_word(host.kind()))
}

fn has_kind(alloc: Global, line: &str) -> Result<bool, Fail> {
    let (text, kind) = parts(line)?;
    Ok(kind_of(alloc, text)? == kind)
}

// A copy of the URL's origin; none where it is not the same.
fn copy_of_origin(alloc: Global, text: &str) -> Result<Option<Origin>, NoRoom> {
    let origin = origin_of(alloc, text)?;
    let copy = origin.copy(alloc)?;
    Ok(if copy == origin { Some(copy) } else { None })
}

fn is_serialized(alloc: Global, origin: &Origin, expected: &str) -> Result<bool, NoRoom> {
    let text = origin.serialize(alloc)?;
    Ok(text.as_str() == expected)
}

// Whether a copy of the URL's origin is the same, is written so, and is trustworthy or not.
fn has_origin(alloc: Global, line: &str) -> Result<bool, Fail> {
    let (text, more) = parts(line)?;
    let (expected, word) = parts(more)?;
    match copy_of_origin(alloc, text)? {
        Some(origin) if origin.is_trustworthy() == (word == "trusted") => {
            Ok(is_serialized(alloc, &origin, expected)?)
        }
        _ => Ok(false),
    }
}

fn is_right(alloc: Global, about: About, line: &str) -> Result<bool, Fail> {
    match about {
        About::Refusal => is_refused(alloc, line),
        About::Parts => has_parts(alloc, line),
        About::Join => joins(alloc, line),
        About::Pair => are_same(alloc, line),
        About::Kind => has_kind(alloc, line),
        About::Origin => has_origin(alloc, line),
    }
}

fn all_right(rt: &impl Abort, alloc: Global, about: About, table: &str) -> Result<(), Fail> {
    for line in table.split('\n') {
        assert_so(rt, is_right(alloc, about, line)?, line);
    }
    Ok(())
}

#[test]
fn urls_are_refused_in_order(rt: HostRuntime) -> Result<(), Fail> {
    all_right(&rt, rt.alloc(), About::Refusal, REFUSALS)
}

#[test]
fn urls_have_their_parts(rt: HostRuntime) -> Result<(), Fail> {
    all_right(&rt, rt.alloc(), About::Parts, PARTS)
}

#[test]
fn texts_join_to_a_base(rt: HostRuntime) -> Result<(), Fail> {
    all_right(&rt, rt.alloc(), About::Join, JOINS)
}

#[test]
fn urls_are_the_same_with_their_fragments(rt: HostRuntime) -> Result<(), Fail> {
    all_right(&rt, rt.alloc(), About::Pair, PAIRS)
}

#[test]
fn hosts_have_their_kind(rt: HostRuntime) -> Result<(), Fail> {
    all_right(&rt, rt.alloc(), About::Kind, KINDS)
}

#[test]
fn origins_are_written_and_trusted(rt: HostRuntime) -> Result<(), Fail> {
    all_right(&rt, rt.alloc(), About::Origin, ORIGINS)
}

fn provider(alloc: Global) -> Result<ProviderOptions, NoRoom> {
    let config = url(alloc, "https://idp.example/f.json")?;
    let client = Text::of(alloc, "c1")?;
    Ok(ProviderOptions {
        config,
        client,
        nonce: placed_text(alloc, Some("n1"))?,
        login_hint: None,
        domain_hint: None,
        params: None,
    })
}

fn options(alloc: Global) -> Result<GetOptions, NoRoom> {
    let mut providers = Items::new(alloc);
    providers.push(provider(alloc)?)?;
    Ok(GetOptions {
        mediation: Mediation::Required,
        mode: Mode::Active,
        activation: true,
        context: Context::UseHere,
        providers,
    })
}

// The context and the number of providers of a copy.
fn copied(alloc: Global) -> Result<(Context, usize), NoRoom> {
    let options = options(alloc)?;
    let copy = options.copy(alloc)?;
    Ok((copy.context, copy.providers.len()))
}

#[test]
fn options_are_copied(rt: HostRuntime) -> Result<(), Fail> {
    let (context, count) = copied(rt.alloc())?;
    assert_eq!(rt; context, Context::UseHere);
    assert_eq!(rt; count, 1);
    Ok(())
}

// Whether a permission of these parts is equal to its copy.
fn is_copied(alloc: Global, page: &str, provider: &str, account: &str) -> Result<bool, NoRoom> {
    let triple = triple(alloc, page, provider, account)?;
    let copy = triple.copy(alloc)?;
    Ok(copy == triple)
}

#[test]
fn a_permission_is_copied(rt: HostRuntime) -> Result<(), Fail> {
    let page = "https://rp.example/";
    assert!(rt; is_copied(rt.alloc(), page, "https://accounts.idp.example/", "u1")?);
    Ok(())
}
