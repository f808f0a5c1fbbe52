//! The configuration of a provider.
ghost use Rattle.std.specs.Prelude.{◌≡◌, IfOk};
ghost use Rattle.std.specs.Result.{result_map_both};
ghost use Rattle.std.specs.Option.{option_copied};
ghost use Rattle.fed_io.specs.Fault.{Answers};
ghost use Rattle.fed_provider.specs.Config as spec;

use crate::ProviderStep;
use crate::metadata::copy_url;
use fed_io::{Fault, NoRoom, SharedValue};
use fed_origin::{Endpoint, WebUrl};
use fed_reply::{Asked, JsonBuffer, Member, ReplyMemory, read_texts};
use std::alloc::Global;

/// The configuration of a provider (FedCM, "The config file"). Each URL is same-origin with the
/// configuration URL.
pub struct Config {
    /// The accounts endpoint.
    pub accounts: WebUrl,
    /// The identity assertion endpoint.
    pub assertion: WebUrl,
    /// The login URL.
    pub login: WebUrl,
    /// The client metadata endpoint.
    pub metadata: Option<WebUrl>,
    /// The disconnect endpoint.
    pub disconnect: Option<WebUrl>,
}

// Written out, so that one function lets a configuration go wherever it ends.
impl Drop for Config {
    fn drop(self) {
        let Config {
            accounts: _,
            assertion: _,
            login: _,
            metadata: _,
            disconnect: _,
        } = self;
    }
}

impl Config {
    /// The same configuration.
    pub fn copy(&self, alloc: Global) -> Result<Config, NoRoom>
        ensures { IfOk result (λ copy. copy ≡ self.now) }
    {
        Ok(Config {
            accounts: self.accounts.copy(alloc)?,
            assertion: self.assertion.copy(alloc)?,
            login: self.login.copy(alloc)?,
            metadata: copy_url(alloc, &self.metadata)?,
            disconnect: copy_url(alloc, &self.disconnect)?,
        })
    }
}

/// A configuration that its copies share.
pub type SharedConfig = SharedValue<Config>;

/// Reads the configuration in a reply of the configuration URL. The steps are `ConfigReply`,
/// `ConfigShape` where a member is missing or no text, and `EndpointOrigin` of the first endpoint
/// that, joined to the configuration URL, is refused or is not same-origin with it.
pub fn read_config(
    alloc: Global,
    raw: &[u8],
    config: &WebUrl,
) -> Result<Config, Fault<ProviderStep>>
    ensures { Answers result (spec.ConfigOf raw.now config.now) }
{
    config_by(alloc, &ReplyMemory::new(), raw, config)
}

// The same, where `memory` is what the reply is read from.
fn config_by(
    alloc: Global,
    memory: &ReplyMemory,
    raw: &[u8],
    config: &WebUrl,
) -> Result<Config, Fault<ProviderStep>>
    ensures { Answers result (spec.ConfigOf raw.now config.now) }
{
    let mut buffer = memory.lend(alloc)?;
    let read = config_of_reply(alloc, raw, config, &mut buffer);
    memory.take_back(raw, buffer);
    read
}

// The same, with what is read from.
#[tactic(auto, unfolding(crate::specs::Config::ConfigOf))]
fn config_of_reply(
    alloc: Global,
    raw: &[u8],
    config: &WebUrl,
    buffer: &mut JsonBuffer,
) -> Result<Config, Fault<ProviderStep>>
    ensures { Answers result (spec.ConfigOf raw.now config.now) }
{
    let mut asked = [
        Asked::new("accounts_endpoint"),
        Asked::new("id_assertion_endpoint"),
        Asked::new("login_url"),
        Asked::new("client_metadata_endpoint"),
        Asked::new("disconnect_endpoint"),
    ];
    match read_texts(alloc, raw, buffer, &mut asked) {
        Ok(()) => (),
        Err(Fault::Step(step)) => return Err(Fault::Step(ProviderStep::ConfigReply(step))),
        Err(Fault::NoRoom) => return Err(Fault::NoRoom),
    }
    match read_found(
        asked[0].found,
        asked[1].found,
        asked[2].found,
        asked[3].found,
        asked[4].found,
    ) {
        Ok(texts) => endpoints(alloc, config, &texts),
        Err(step) => Err(Fault::Step(step)),
    }
}

/// The same, where the step is an answer that can be kept, and a configuration one that copies share.
pub fn config_answer(
    alloc: Global,
    memory: &ReplyMemory,
    raw: &[u8],
    config: &WebUrl,
) -> Result<Result<SharedConfig, ProviderStep>, NoRoom>
    ensures { IfOk result (λ said. said ≡ spec.ConfigOf raw.now config.now) }
{
    match config_by(alloc, memory, raw, config) {
        Ok(config) => Ok(Ok(SharedConfig::new(alloc, config)?)),
        Err(Fault::Step(step)) => Ok(Err(step)),
        Err(Fault::NoRoom) => Err(NoRoom),
    }
}

// The texts of a configuration.
#[derive(Drop)]
struct Texts<'a> {
    accounts: &'a str,
    assertion: &'a str,
    login: &'a str,
    metadata: Option<&'a str>,
    disconnect: Option<&'a str>,
}

// The texts of what was found under the names.
fn read_found<'a>(
    accounts: Member<&'a str>,
    assertion: Member<&'a str>,
    login: Member<&'a str>,
    metadata: Member<&'a str>,
    disconnect: Member<&'a str>,
) -> Result<Texts<'a>, ProviderStep>
    ensures { result_map_both spec.seen (λ e. e) result
        ≡ spec.texts_by (spec.found accounts.entry) (spec.found assertion.entry) (spec.found login.entry) (spec.found metadata.entry)
        (spec.found disconnect.entry) }
{
    let accounts = accounts.required(ProviderStep::ConfigShape)?;
    let assertion = assertion.required(ProviderStep::ConfigShape)?;
    let login = login.required(ProviderStep::ConfigShape)?;
    let metadata = metadata.optional(ProviderStep::ConfigShape)?;
    let disconnect = disconnect.optional(ProviderStep::ConfigShape)?;
    Ok(Texts {
        accounts,
        assertion,
        login,
        metadata,
        disconnect,
    })
}

// The endpoints by their texts.
#[tactic(auto, unfolding(crate::specs::Config::endpoints))]
fn endpoints(
    alloc: Global,
    config: &WebUrl,
    texts: &Texts<'_>,
) -> Result<Config, Fault<ProviderStep>>
    ensures { Answers result (spec.endpoints config.now (spec.seen texts.now)) }
{
    let accounts = endpoint(alloc, config, Endpoint::Accounts, texts.accounts)?;
    let assertion = endpoint(alloc, config, Endpoint::Assertion, texts.assertion)?;
    let login = endpoint(alloc, config, Endpoint::Login, texts.login)?;
    let metadata = optional_endpoint(alloc, config, Endpoint::Metadata, texts.metadata)?;
    match optional_endpoint(alloc, config, Endpoint::Disconnect, texts.disconnect) {
        Ok(disconnect) => Ok(Config {
            accounts,
            assertion,
            login,
            metadata,
            disconnect,
        }),
        Err(fault) => Err(fault),
    }
}

// An endpoint, which is same-origin with the configuration URL.
#[tactic(auto, unfolding(crate::specs::Config::endpoint_url))]
fn endpoint(
    alloc: Global,
    config: &WebUrl,
    endpoint: Endpoint,
    text: &str,
) -> Result<WebUrl, Fault<ProviderStep>>
    ensures { Answers result (spec.endpoint_url config.now endpoint text.now) }
{
    match config.join(alloc, text) {
        Ok(url) => {
            if url.same_origin(config) {
                Ok(url)
            } else {
                Err(Fault::Step(ProviderStep::EndpointOrigin(endpoint)))
            }
        }
        Err(Fault::Step(_)) => Err(Fault::Step(ProviderStep::EndpointOrigin(endpoint))),
        Err(Fault::NoRoom) => Err(Fault::NoRoom),
    }
}

// The same of an endpoint that may be left out.
fn optional_endpoint(
    alloc: Global,
    config: &WebUrl,
    which: Endpoint,
    text: Option<&str>,
) -> Result<Option<WebUrl>, Fault<ProviderStep>>
    ensures { Answers result (spec.optional_url config.now which (option_copied text.entry)) }
{
    match text {
        Some(text) => match endpoint(alloc, config, which, text) {
            Ok(url) => Ok(Some(url)),
            Err(fault) => Err(fault),
        },
        None => Ok(None),
    }
}
