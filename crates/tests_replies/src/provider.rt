//! Files of a provider, and the step at which they are refused.
use fed_io::{Fault, NoRoom, Text};
use fed_origin::{Endpoint, Scheme, UrlRefusal, WebUrl};
use fed_provider::{
    Config, PolicyLinks, ProviderStep, SharedConfig, read_config, read_metadata, read_wellknown,
    wellknown_url,
};
use fed_suffix::Suffixes;
use std::alloc::Global;
use std::test::Fail;

/// The configuration URL of the provider.
pub const CONFIG: &str = "https://accounts.idp.example/fedcm.json";

/// The well-known URL of its site.
pub const BASE: &str = "https://idp.example/.well-known/web-identity";

/// The name of a step.
pub fn name(step: ProviderStep) -> &'static str {
    match step {
        ProviderStep::NoSite => "no site",
        ProviderStep::WellKnownReply(_) => "well-known reply",
        ProviderStep::WellKnownShape => "well-known shape",
        ProviderStep::WellKnownOther => "well-known other",
        ProviderStep::ConfigReply(_) => "config reply",
        ProviderStep::ConfigOther(_) => "config other",
        ProviderStep::ConfigShape => "config shape",
        ProviderStep::EndpointOrigin(Endpoint::Accounts) => "accounts",
        ProviderStep::EndpointOrigin(Endpoint::Assertion) => "assertion",
        ProviderStep::EndpointOrigin(Endpoint::Login) => "login",
        ProviderStep::EndpointOrigin(Endpoint::Metadata) => "metadata",
        ProviderStep::EndpointOrigin(Endpoint::Disconnect) => "disconnect",
    }
}

/// The name of the step, or `good`.
pub fn step_of<T: Drop>(answer: Result<T, Fault<ProviderStep>>) -> Result<&'static str, NoRoom> {
    match answer {
        Ok(_) => Ok("good"),
        Err(Fault::Step(step)) => Ok(name(step)),
        Err(Fault::NoRoom) => Err(NoRoom),
    }
}

fn url(alloc: Global, text: &str) -> Result<WebUrl, Fault<UrlRefusal>> {
    WebUrl::read(alloc, text)
}

/// A reply of the status 200 with a JSON body.
pub fn ok(alloc: Global, body: &str) -> Result<String, Fail> {
    Ok(format!(in alloc; "HTTP/1.1 200 OK\r\nContent-Type: application/json\r\n\r\n{body}")?)
}

// The step of a well-known file with that list.
fn list_step(
    alloc: Global,
    list: &str,
    base: &WebUrl,
    config: &WebUrl,
) -> Result<&'static str, Fail> {
    let body = format!(in alloc; "{{\"provider_urls\":{list}}}")?;
    let raw = ok(alloc, body.as_str())?;
    Ok(step_of(read_wellknown(alloc, raw.as_bytes(), base, config))?)
}

#[test]
fn well_known_files(rt: HostRuntime) -> Result<(), Fail> {
    let base = url(rt.alloc(), BASE)?;
    let config = url(rt.alloc(), CONFIG)?;
    let rows = [
        ("[\"https://accounts.idp.example/fedcm.json\"]", "good"),
        ("[\"//accounts.idp.example/fedcm.json\"]", "good"),
        (
            "[\"https://accounts.idp.example/other.json\"]",
            "well-known other",
        ),
        (
            "[\"https://accounts.idp.example/fedcm.json\",\"/a\"]",
            "well-known shape",
        ),
        ("[]", "well-known shape"),
        (
            "[],\"provider_urls\":[\"https://accounts.idp.example/fedcm.json\"]",
            "good",
        ),
        (
            "[\"https://accounts.idp.example/fedcm.json\"],\"provider_urls\":null",
            "well-known shape",
        ),
        (
            "[[\"https://accounts.idp.example/fedcm.json\"]]",
            "well-known shape",
        ),
        (
            "[\"https://accounts.idp.example/fedcm.json\"],\"x\":[1",
            "well-known reply",
        ),
    ];
    for (list, step) in rows {
        let found = list_step(rt.alloc(), list, &base, &config)?;
        assert!(rt; found == step, "at {list}");
    }
    Ok(())
}

// The well-known URL for a configuration URL, if there is one.
fn site_url(alloc: Global, text: &str) -> Result<Option<Text>, Fail> {
    let rules = Suffixes::new(alloc);
    let config = url(alloc, text)?;
    if config.scheme() != Scheme::Https {
        return Ok(None);
    }
    match wellknown_url(alloc, &rules, &config) {
        Ok(url) => Ok(Some(Text::of(alloc, url.as_str())?)),
        Err(_) => Ok(None),
    }
}

#[test]
fn well_known_urls(rt: HostRuntime) -> Result<(), Fail> {
    let rows = [
        (CONFIG, BASE),
        ("https://accounts.idp.example:444/f?x", BASE),
        ("https://127.0.0.1/f.json", ""),
        ("https://localhost/f.json", ""),
        ("https://idp.example./f.json", ""),
    ];
    for (text, wanted) in rows {
        let found = site_url(rt.alloc(), text)?;
        let found = match &found {
            Some(url) => url.as_str(),
            None => "",
        };
        assert!(rt; found == wanted, "at {text}");
    }
    Ok(())
}

// The step of a configuration with these members.
fn config_step(alloc: Global, members: &str, config: &WebUrl) -> Result<&'static str, Fail> {
    let good =
        "\"accounts_endpoint\":\"/accounts\",\"id_assertion_endpoint\":\"/assert\",\"login_url\":\"/login\"";
    let body = format!(in alloc; "{{{good},{members}}}")?;
    let raw = ok(alloc, body.as_str())?;
    Ok(step_of(read_config(alloc, raw.as_bytes(), config))?)
}

#[test]
fn configurations(rt: HostRuntime) -> Result<(), Fail> {
    let config = url(rt.alloc(), CONFIG)?;
    let rows = [
        (
            "\"client_metadata_endpoint\":\"/client\",\"disconnect_endpoint\":\"/bye\"",
            "good",
        ),
        ("\"client_metadata_endpoint\":1", "config shape"),
        (
            "\"login_url\":\"https://idp.example/login\",\"disconnect_endpoint\":\"https://idp.example/\"",
            "login",
        ),
        (
            "\"disconnect_endpoint\":\"https://idp.example/\"",
            "disconnect",
        ),
    ];
    for (members, step) in rows {
        let found = config_step(rt.alloc(), members, &config)?;
        assert!(rt; found == step, "at {members}");
    }
    Ok(())
}

// The login URL of a copy of a shared configuration's copy.
fn copied_login(alloc: Global, read: &Config) -> Result<Text, NoRoom> {
    let shared = SharedConfig::new(alloc, read.copy(alloc)?)?;
    let copy = shared.copy()?;
    Text::of(alloc, copy.get().login.as_str())
}

// The login URL of the configuration in a reply, or nothing.
fn login_in(alloc: Global, raw: &[u8], config: &WebUrl) -> Result<Text, NoRoom> {
    match read_config(alloc, raw, config) {
        Ok(read) => copied_login(alloc, &read),
        Err(_) => Text::of(alloc, ""),
    }
}

#[test]
fn configuration_copied(rt: HostRuntime) -> Result<(), Fail> {
    let raw = ok(
        rt.alloc(),
        "{\"accounts_endpoint\":\"/a?\",\"id_assertion_endpoint\":\"/s\",\"login_url\":\"/l\"}",
    )?;
    let config = url(rt.alloc(), CONFIG)?;
    let login = login_in(rt.alloc(), raw.as_bytes(), &config)?;
    assert!(rt; login.as_str() == "https://accounts.idp.example/l");
    Ok(())
}

// The text of a URL, or nothing.
fn text_of(url: &Option<WebUrl>) -> &str {
    match url {
        Some(url) => url.as_str(),
        None => "",
    }
}

// Both links of a copy, joined by a space.
fn copied_links(alloc: Global, links: &PolicyLinks) -> Result<String, Fail> {
    let copy = links.copy(alloc)?;
    let privacy = text_of(&copy.privacy);
    let terms = text_of(&copy.terms);
    Ok(format!(in alloc; "{privacy} {terms}")?)
}

// Both links in a reply.
fn links_in(alloc: Global, raw: &[u8]) -> Result<String, Fail> {
    let links = read_metadata(alloc, raw)?;
    copied_links(alloc, &links)
}

#[test]
fn links(rt: HostRuntime) -> Result<(), Fail> {
    let raw = ok(
        rt.alloc(),
        "{\"privacy_policy_url\":\"https://rp.example/p\",\"terms_of_service_url\":\"/t\"}",
    )?;
    let found = links_in(rt.alloc(), raw.as_bytes())?;
    assert!(rt; found.as_str() == "https://rp.example/p ");
    let none = links_in(rt.alloc(), b"")?;
    assert!(rt; none.as_str() == " ");
    Ok(())
}
