//! The well-known file of a site.
ghost use Rattle.std.specs.Prelude.{◌≡◌, Some, IfOk, IsAscii, string_bytes};
ghost use Rattle.std.specs.Option.{option_copied};
ghost use Rattle.serde_json.specs.Data.{Data};
ghost use Rattle.fed_io.specs.Fault.{Answers};
ghost use Rattle.fed_origin.specs.WebUrl.{joined_url, scheme_of};
ghost use Rattle.fed_provider.specs.Listed.{Names};
ghost use Rattle.fed_provider.specs.WellKnown as spec;

use crate::listed::{Named, whole_named};
use crate::{Config, ProviderStep};
use fed_io::{Fault, NoRoom};
use fed_origin::{Endpoint, Scheme, WebUrl};
use fed_reply::{JsonBuffer, Member, ReplyMemory, ReplyStep, open_json};
use fed_suffix::Suffixes;
use std::alloc::Global;
use std::str;

// What stands before the site in its well-known URL.
const FRONT: &str = "https://";

// What stands after it.
const PATH: &str = "/.well-known/web-identity";

/// The well-known URL for a configuration URL (FedCM, "The Well-Known File"; its form is this
/// profile's own): `https`, the registrable domain of the host, and `/.well-known/web-identity`.
/// `NoSite` comes exactly where the host has no registrable domain or that text is no URL.
#[tactic(auto, unfolding(crate::specs::WellKnown::WellKnownUrlOf))]
pub fn wellknown_url(
    alloc: Global,
    rules: &Suffixes,
    config: &WebUrl,
) -> Result<WebUrl, Fault<ProviderStep>>
    requires { scheme_of config.now ≡ Scheme.Https }
    ensures { Answers result (spec.WellKnownUrlOf rules.now config.now) }
{
    let host = config.host();
    let _kind = host.kind();
    match rules.registrable(host) {
        Some(site) => url_of_site(alloc, site_text(site)),
        None => Err(Fault::Step(ProviderStep::NoSite)),
    }
}

/// The same, where the step is an answer that can be kept and handed on.
pub fn site_url(
    alloc: Global,
    rules: &Suffixes,
    config: &WebUrl,
) -> Result<Result<WebUrl, ProviderStep>, NoRoom>
    requires { scheme_of config.now ≡ Scheme.Https }
    ensures { IfOk result (λ url. url ≡ spec.WellKnownUrlOf rules.now config.now) }
{
    match wellknown_url(alloc, rules, config) {
        Ok(url) => Ok(Ok(url)),
        Err(Fault::Step(step)) => Ok(Err(step)),
        Err(Fault::NoRoom) => Err(NoRoom),
    }
}

// The text of a site.
fn site_text(site: &[u8]) -> &str
    requires { IsAscii site.now }
    ensures { result.now ≡ site.now }
{
    match str::from_utf8(site) {
        Ok(text) => text,
        Err(_) => unreachable!(),
    }
}

// The well-known URL of a site.
fn url_of_site(alloc: Global, site: &str) -> Result<WebUrl, Fault<ProviderStep>>
    ensures { Answers result (spec.of_site (Some site.now)) }
{
    let text = wellknown_text(alloc, site)?;
    match WebUrl::read(alloc, text.as_str()) {
        Ok(url) => Ok(url),
        Err(Fault::Step(_)) => Err(Fault::Step(ProviderStep::NoSite)),
        Err(Fault::NoRoom) => Err(Fault::NoRoom),
    }
}

// The text of a site's well-known URL. It is written once, into room for all of it: `format!` takes memory three times, and a
// `Text` is a copy more.
#[tactic(auto, using(std::proofs::Common::append_assoc), unfolding(crate::specs::WellKnown::wellknown_text))]
fn wellknown_text(alloc: Global, site: &str) -> Result<String, NoRoom>
    ensures { IfOk result (λ text. string_bytes text ≡ spec.wellknown_text site.now) }
{
    let room = FRONT
        .len()
        .saturating_add(site.len())
        .saturating_add(PATH.len());
    let mut text = String::with_capacity(alloc, room)?;
    text.push_str(FRONT)?;
    text.push_str(site)?;
    text.push_str(PATH)?;
    Ok(text)
}

/// What a well-known file says of the site's provider.
#[derive(Drop)]
pub enum WellKnown {
    /// It lists the one configuration URL.
    Listed,
    /// It names these endpoints itself, with which the configuration must agree.
    Direct {
        /// The accounts endpoint.
        accounts: WebUrl,
        /// The login URL.
        login: WebUrl,
    },
}

impl WellKnown {
    /// The same. It takes no memory.
    pub fn copy(&self, alloc: Global) -> Result<WellKnown, NoRoom>
        ensures { IfOk result (λ copy. copy ≡ self.now) }
    {
        match self {
            WellKnown::Listed => Ok(WellKnown::Listed),
            WellKnown::Direct { accounts, login } => Ok(WellKnown::Direct {
                accounts: accounts.copy(alloc)?,
                login: login.copy(alloc)?,
            }),
        }
    }
}

/// The endpoint of which the configuration has another URL than the well-known file names, by their serialized texts: the accounts
/// endpoint before the login URL. Where the file lists the configuration URL there is none. It takes no memory.
pub fn agrees(wellknown: &WellKnown, config: &Config) -> Option<Endpoint>
    ensures { result ≡ spec.agrees wellknown.now config.now }
{
    let WellKnown::Direct { accounts, login } = wellknown else {
        return None;
    };
    if config.accounts.as_str() != accounts.as_str() {
        return Some(Endpoint::Accounts);
    }
    if config.login.as_str() != login.as_str() {
        return Some(Endpoint::Login);
    }
    None
}

/// Reads the well-known file in a reply of the well-known URL `base`. Where it has two texts as `accounts_endpoint` and `login_url`, it
/// names these endpoints, each joined to `base`; its list is not looked at (this form is the profile's own). Else it has to list the
/// configuration URL. The steps are `WellKnownReply`, `WellKnownShape` where such a text gives no URL or the file does not list exactly
/// one text under `provider_urls`, and `WellKnownOther` where that text, joined to `base`, is not the configuration URL by their
/// serialized texts.
pub fn read_wellknown(
    alloc: Global,
    raw: &[u8],
    base: &WebUrl,
    config: &WebUrl,
) -> Result<WellKnown, Fault<ProviderStep>>
    ensures { Answers result (spec.WellKnownOf raw.now base.now config.now) }
{
    wellknown_by(alloc, &ReplyMemory::new(), raw, base, config)
}

// The same, where `memory` is what the reply is read from.
fn wellknown_by(
    alloc: Global,
    memory: &ReplyMemory,
    raw: &[u8],
    base: &WebUrl,
    config: &WebUrl,
) -> Result<WellKnown, Fault<ProviderStep>>
    ensures { Answers result (spec.WellKnownOf raw.now base.now config.now) }
{
    let mut buffer = memory.lend(alloc)?;
    let read = file_of_reply(alloc, raw, base, config, &mut buffer);
    memory.take_back(raw, buffer);
    read
}

// The same, with what is read from.
#[tactic(auto, unfolding(crate::specs::WellKnown::WellKnownOf))]
fn file_of_reply(
    alloc: Global,
    raw: &[u8],
    base: &WebUrl,
    config: &WebUrl,
    buffer: &mut JsonBuffer,
) -> Result<WellKnown, Fault<ProviderStep>>
    ensures { Answers result (spec.WellKnownOf raw.now base.now config.now) }
{
    let mut values = match open_json(alloc, raw, buffer) {
        Ok(values) => values,
        Err(Fault::Step(step)) => return Err(Fault::Step(ProviderStep::WellKnownReply(step))),
        Err(Fault::NoRoom) => return Err(Fault::NoRoom),
    };
    match whole_named(&mut values) {
        Ok(named) => form(alloc, &named, base, config),
        Err(_) => Err(Fault::Step(ProviderStep::WellKnownReply(ReplyStep::Json))),
    }
}

/// The same, where the step is an answer that can be kept.
pub fn wellknown_answer(
    alloc: Global,
    memory: &ReplyMemory,
    raw: &[u8],
    base: &WebUrl,
    config: &WebUrl,
) -> Result<Result<WellKnown, ProviderStep>, NoRoom>
    ensures { IfOk result (λ said. said ≡ spec.WellKnownOf raw.now base.now config.now) }
{
    match wellknown_by(alloc, memory, raw, base, config) {
        Ok(file) => Ok(Ok(file)),
        Err(Fault::Step(step)) => Ok(Err(step)),
        Err(Fault::NoRoom) => Err(NoRoom),
    }
}

// What a file says that names this: where both texts are there, its list is not looked at.
fn form(
    alloc: Global,
    named: &Named<'_>,
    base: &WebUrl,
    config: &WebUrl,
) -> Result<WellKnown, Fault<ProviderStep>>
    ensures { (file : Data) → Names named.now file → Answers result (spec.form_of base.now config.now file) }
{
    match (named.accounts, named.login) {
        (Member::Is(accounts), Member::Is(login)) => direct(alloc, base, accounts, login),
        _ => lists(alloc, named.listed, base, config),
    }
}

// The file names these endpoints.
fn direct(
    alloc: Global,
    base: &WebUrl,
    accounts: &str,
    login: &str,
) -> Result<WellKnown, Fault<ProviderStep>>
    ensures { Answers result (spec.direct base.now accounts.now login.now) }
{
    let accounts = file_url(alloc, base, accounts)?;
    match file_url(alloc, base, login) {
        Ok(login) => Ok(WellKnown::Direct { accounts, login }),
        Err(fault) => Err(fault),
    }
}

// A URL that the file names.
fn file_url(alloc: Global, base: &WebUrl, text: &str) -> Result<WebUrl, Fault<ProviderStep>>
    ensures { Answers result (spec.file_url (joined_url base.now text.now)) }
{
    match base.join(alloc, text) {
        Ok(url) => Ok(url),
        Err(Fault::Step(_)) => Err(Fault::Step(ProviderStep::WellKnownShape)),
        Err(Fault::NoRoom) => Err(Fault::NoRoom),
    }
}

// Whether the one text that a file lists, if it lists one, is the configuration URL.
fn lists(
    alloc: Global,
    listed: Option<&str>,
    base: &WebUrl,
    config: &WebUrl,
) -> Result<WellKnown, Fault<ProviderStep>>
    ensures { Answers result (spec.listed base.now config.now (option_copied listed.entry)) }
{
    let Some(text) = listed else {
        return Err(Fault::Step(ProviderStep::WellKnownShape));
    };
    if config.is_text(text) {
        return Ok(WellKnown::Listed);
    }
    match base.join(alloc, text) {
        Ok(url) => {
            if url.as_str() == config.as_str() {
                Ok(WellKnown::Listed)
            } else {
                Err(Fault::Step(ProviderStep::WellKnownOther))
            }
        }
        Err(Fault::Step(_)) => Err(Fault::Step(ProviderStep::WellKnownOther)),
        Err(Fault::NoRoom) => Err(Fault::NoRoom),
    }
}
