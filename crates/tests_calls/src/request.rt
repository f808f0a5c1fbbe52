//! Requests byte for byte.
ghost use Rattle.std.specs.Prelude.{ℕ, List, IfOk, IfSome};
ghost use Rattle.fed_cookie.specs.SetCookie.{HasNoLineEnd};
ghost use Rattle.fed_request.specs.Request.{TakesCookies};

use crate::lines::assert_so;
use crate::offers::prompt;
use crate::values::{PAGE, origin_of, provider_with_nonce, url};
use fed_consent::{Ask, Consent, Prompt};
use fed_io::{NoRoom, Placed, Text};
use fed_origin::{Origin, ProviderOptions, WebUrl};
use fed_request::build;
use std::alloc::Global;
use std::test::Fail;

const WELL_KNOWN: &[u8] =
    b"GET /.well-known/web-identity HTTP/1.1\r\nHost: idp.example\r\nAccept: application/json\r\nSec-Fetch-Dest: webidentity\r\n\r\n";

const CONFIG: &[u8] =
    b"GET /fedcm.json HTTP/1.1\r\nHost: accounts.idp.example\r\nAccept: application/json\r\nSec-Fetch-Dest: webidentity\r\n\r\n";

const ACCOUNTS: &[u8] =
    b"GET /accounts HTTP/1.1\r\nHost: accounts.idp.example\r\nAccept: application/json\r\nSec-Fetch-Dest: webidentity\r\n\r\n";

const WITH_COOKIES: &[u8] =
    b"GET /accounts? HTTP/1.1\r\nHost: accounts.idp.example:8443\r\nAccept: application/json\r\nSec-Fetch-Dest: webidentity\r\nCookie: b=2; a=5; d=4\r\n\r\n";

const METADATA: &[u8] =
    b"GET /client?client_id=c1 HTTP/1.1\r\nHost: accounts.idp.example\r\nAccept: application/json\r\nSec-Fetch-Dest: webidentity\r\nOrigin: https://rp.example\r\n\r\n";

const MORE_METADATA: &[u8] =
    b"GET /client?v=1&client_id=c+%26%C3%A9 HTTP/1.1\r\nHost: accounts.idp.example\r\nAccept: application/json\r\nSec-Fetch-Dest: webidentity\r\nOrigin: https://rp.example\r\n\r\n";

const ASSERTION: &[u8] =
    b"POST /assert HTTP/1.1\r\nHost: accounts.idp.example\r\nAccept: application/json\r\nSec-Fetch-Dest: webidentity\r\nOrigin: https://rp.example\r\nContent-Type: application/x-www-form-urlencoded\r\nContent-Length: 85\r\nCookie: a=5\r\n\r\nclient_id=c1&nonce=n1&account_id=u1&disclosure_text_shown=true&is_auto_selected=false";

const DISCONNECT: &[u8] =
    b"POST /bye HTTP/1.1\r\nHost: accounts.idp.example\r\nAccept: application/json\r\nSec-Fetch-Dest: webidentity\r\nOrigin: https://rp.example\r\nContent-Type: application/x-www-form-urlencoded\r\nContent-Length: 28\r\n\r\nclient_id=c1&account_hint=u1";

const DISCONNECT_WITH_COOKIES: &[u8] =
    b"POST /bye HTTP/1.1\r\nHost: accounts.idp.example\r\nAccept: application/json\r\nSec-Fetch-Dest: webidentity\r\nOrigin: https://rp.example\r\nContent-Type: application/x-www-form-urlencoded\r\nContent-Length: 28\r\nCookie: a=5\r\n\r\nclient_id=c1&account_hint=u1";

fn has_bytes(alloc: Global, ask: &Ask, cookies: &[u8], expected: &[u8]) -> Result<bool, NoRoom>
    requires line { HasNoLineEnd cookies.now }
    requires taken { TakesCookies ask.now cookies.now }
{
    let bytes = build(alloc, ask, cookies)?;
    Ok(bytes.as_slice() == expected)
}

fn well_known_is(alloc: Global, expected: &[u8]) -> Result<bool, NoRoom> {
    let to = url(alloc, "https://idp.example/.well-known/web-identity")?;
    has_bytes(alloc, &Ask::WellKnown { to }, b"", expected)
}

fn config_is(alloc: Global, expected: &[u8]) -> Result<bool, NoRoom> {
    let to = url(alloc, "https://accounts.idp.example/fedcm.json#part")?;
    has_bytes(alloc, &Ask::Config { to }, b"", expected)
}

fn accounts_is(
    alloc: Global,
    endpoint: &str,
    cookies: &[u8],
    expected: &[u8],
) -> Result<bool, NoRoom>
    requires { HasNoLineEnd cookies.now }
{
    let to = url(alloc, endpoint)?;
    has_bytes(alloc, &Ask::Accounts { to }, cookies, expected)
}

fn metadata_is(
    alloc: Global,
    endpoint: &str,
    client: &str,
    expected: &[u8],
) -> Result<bool, NoRoom> {
    let to = url(alloc, endpoint)?;
    let client = Text::of(alloc, client)?;
    let origin = Placed::new(alloc, origin_of(alloc, PAGE)?)?;
    has_bytes(alloc, &Ask::Metadata { to, client, origin }, b"", expected)
}

fn disconnect(alloc: Global) -> Result<Ask, NoRoom>
    ensures { IfOk result (λ ask. (cookies : List ℕ) → TakesCookies ask cookies) }
{
    Ok(Ask::Disconnect {
        to: url(alloc, "https://accounts.idp.example/bye")?,
        client: Text::of(alloc, "c1")?,
        hint: Placed::new(alloc, Text::of(alloc, "u1")?)?,
        origin: Placed::new(alloc, origin_of(alloc, PAGE)?)?,
    })
}

fn disconnect_is(alloc: Global, cookies: &[u8], expected: &[u8]) -> Result<bool, NoRoom>
    requires { HasNoLineEnd cookies.now }
{
    let ask = disconnect(alloc)?;
    has_bytes(alloc, &ask, cookies, expected)
}

#[test]
fn first_requests(rt: HostRuntime) -> Result<(), Fail> {
    assert_so(&rt, well_known_is(rt.alloc(), WELL_KNOWN)?, "bytes");
    assert_so(&rt, config_is(rt.alloc(), CONFIG)?, "bytes");
    Ok(())
}

#[test]
fn accounts_requests(rt: HostRuntime) -> Result<(), Fail> {
    assert_so(
        &rt,
        accounts_is(
            rt.alloc(),
            "https://accounts.idp.example/accounts",
            b"",
            ACCOUNTS,
        )?,
        "bytes",
    );
    assert_so(
        &rt,
        accounts_is(
            rt.alloc(),
            "https://accounts.idp.example:8443/accounts?",
            b"b=2; a=5; d=4",
            WITH_COOKIES,
        )?,
        "bytes",
    );
    Ok(())
}

#[test]
fn metadata_requests(rt: HostRuntime) -> Result<(), Fail> {
    assert_so(
        &rt,
        metadata_is(
            rt.alloc(),
            "https://accounts.idp.example/client",
            "c1",
            METADATA,
        )?,
        "bytes",
    );
    assert_so(
        &rt,
        metadata_is(
            rt.alloc(),
            "https://accounts.idp.example/client?",
            "c1",
            METADATA,
        )?,
        "bytes",
    );
    assert_so(
        &rt,
        metadata_is(
            rt.alloc(),
            "https://accounts.idp.example/client?v=1",
            "c &\u{e9}",
            MORE_METADATA,
        )?,
        "bytes",
    );
    Ok(())
}

#[test]
fn disconnect_requests(rt: HostRuntime) -> Result<(), Fail> {
    assert_so(&rt, disconnect_is(rt.alloc(), b"", DISCONNECT)?, "bytes");
    assert_so(
        &rt,
        disconnect_is(rt.alloc(), b"a=5", DISCONNECT_WITH_COOKIES)?,
        "bytes",
    );
    Ok(())
}

// The request that an agreement makes.
fn spent(
    alloc: Global,
    consent: Consent,
    to: &WebUrl,
    origin: &Origin,
    options: &ProviderOptions,
) -> Result<Ask, NoRoom>
    ensures { IfOk result (λ ask. (cookies : List ℕ) → TakesCookies ask cookies) }
{
    match consent.spend(alloc, to, origin, options) {
        Ok(ask) => Ok(ask),
        Err((NoRoom, consent)) => {
            consent.void();
            Err(NoRoom)
        }
    }
}

// The request that going on with a prompt makes; none where it waits.
fn asked(
    alloc: Global,
    prompt: Prompt,
    to: &WebUrl,
    origin: &Origin,
    options: &ProviderOptions,
) -> Result<Option<Ask>, NoRoom>
    ensures { IfOk result (λ asked. IfSome asked (λ ask. (cookies : List ℕ) → TakesCookies ask cookies)) }
{
    match prompt.proceed() {
        Ok(consent) => Ok(Some(spent(alloc, consent, to, origin, options)?)),
        Err(_) => Ok(None),
    }
}

// A request for a token.
fn assertion(alloc: Global) -> Result<Option<Ask>, NoRoom>
    ensures { IfOk result (λ asked. IfSome asked (λ ask. (cookies : List ℕ) → TakesCookies ask cookies)) }
{
    let to = url(alloc, "https://accounts.idp.example/assert")?;
    let origin = origin_of(alloc, PAGE)?;
    let options = provider_with_nonce(alloc)?;
    match prompt(alloc, false, false)? {
        Some(prompt) => asked(alloc, prompt, &to, &origin, &options),
        None => Ok(None),
    }
}

fn assertion_is(alloc: Global, cookies: &[u8], expected: &[u8]) -> Result<bool, NoRoom>
    requires { HasNoLineEnd cookies.now }
{
    match assertion(alloc)? {
        Some(ask) => has_bytes(alloc, &ask, cookies, expected),
        None => Ok(false),
    }
}

#[test]
fn assertion_requests(rt: HostRuntime) -> Result<(), Fail> {
    assert_so(&rt, assertion_is(rt.alloc(), b"a=5", ASSERTION)?, "bytes");
    Ok(())
}
