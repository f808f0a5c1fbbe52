//! What tests of consents, requests and calls share: URLs, origins, and what a page asks of a provider.
use fed_io::{NoRoom, Text, placed_text};
use fed_origin::{Origin, ProviderOptions, WebUrl};
use std::alloc::Global;

pub const PAGE: &str = "https://rp.example/";

pub const CONFIG: &str = "https://accounts.idp.example/fedcm.json";

pub const TWO: &str = "https://login.two.example/fedcm.json";

// The configuration URL that a word names; any other word is that of a provider with a site, or the URL itself.
pub fn config_of(word: &str) -> &str {
    match word {
        "http" => "http://192.0.2.1/fedcm.json",
        "address" => "https://192.0.2.1/fedcm.json",
        "two" => TWO,
        "fragment" => "https://accounts.idp.example/fedcm.json#part",
        "port" => "https://accounts.idp.example:443/fedcm.json",
        word if word.starts_with("http") => word,
        _ => CONFIG,
    }
}

// The client's id at the provider with this configuration URL.
pub fn client_of(config: &str) -> &'static str {
    if config == TWO { "c2" } else { "c1" }
}

// The place that a digit names.
pub fn place_of(digit: &str) -> u32 {
    match digit {
        "0" => 0,
        "1" => 1,
        "2" => 2,
        "3" => 3,
        "9" => 9,
        _ => 10,
    }
}

// The page of a call, in a word.
pub fn page_word(page: Option<u32>) -> &'static str {
    match page {
        Some(7) => "7",
        Some(_) => "another",
        None => "over",
    }
}

pub fn url(alloc: Global, text: &str) -> Result<WebUrl, NoRoom> {
    match WebUrl::read(alloc, text) {
        Ok(url) => Ok(url),
        Err(_) => Err(NoRoom),
    }
}

pub fn origin_of(alloc: Global, text: &str) -> Result<Origin, NoRoom> {
    let url = url(alloc, text)?;
    Origin::of_url(alloc, &url)
}

// What a page asks of the provider with this configuration URL.
pub fn provider(alloc: Global, config: &str) -> Result<ProviderOptions, NoRoom> {
    Ok(ProviderOptions {
        config: url(alloc, config)?,
        client: Text::of(alloc, client_of(config))?,
        nonce: None,
        login_hint: None,
        domain_hint: None,
        params: None,
    })
}

// The same, with a nonce.
pub fn provider_with_nonce(alloc: Global) -> Result<ProviderOptions, NoRoom> {
    let mut provider = provider(alloc, CONFIG)?;
    provider.nonce = placed_text(alloc, Some("n1"))?;
    Ok(provider)
}
