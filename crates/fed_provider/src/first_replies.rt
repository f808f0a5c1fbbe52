//! The first two replies of a provider.
ghost use Rattle.std.specs.Prelude.{◌≡◌, None, IfOk};
ghost use Rattle.fed_origin.specs.WebUrl.{scheme_of};
ghost use Rattle.fed_provider.specs.Config.{ConfigOf};
ghost use Rattle.fed_provider.specs.FirstReplies as spec;

use crate::config::config_answer;
use crate::wellknown::{agrees, site_url, wellknown_answer};
use crate::{ProviderStep, Rules, SharedConfig, WellKnown};
use fed_io::NoRoom;
use fed_origin::{ReplyKind, Scheme, WebUrl};
use std::alloc::Global;

/// What a call took of the first replies of a provider: the one with its well-known file and the one with its configuration,
/// which come in any order.
pub struct FirstReplies {
    /// What the well-known reply that was taken says.
    pub wellknown: Option<WellKnown>,
    /// The configuration in the config reply that was taken.
    pub config: Option<SharedConfig>,
}

// Written out, so that one function lets it go wherever it ends.
impl Drop for FirstReplies {
    fn drop(self) {
        let FirstReplies {
            wellknown: _,
            config: _,
        } = self;
    }
}

/// What a reply comes to.
#[derive(Drop)]
pub enum Heard {
    /// It is refused.
    Refused(ProviderStep),
    /// It is good, and the other one is awaited.
    Waits(FirstReplies),
    /// Both files are good.
    Both(SharedConfig),
    /// It is not awaited: one of its kind was taken before, or it is of another kind.
    NotWaited(FirstReplies),
}

impl FirstReplies {
    /// No reply was taken. It takes no memory.
    pub fn none() -> FirstReplies
        ensures { result ≡ record { wellknown = None; config = None } }
    {
        FirstReplies {
            wellknown: None,
            config: None,
        }
    }

    /// The same. It takes no memory.
    pub fn copy(&self, alloc: Global) -> Result<FirstReplies, NoRoom>
        ensures { IfOk result (λ copy. copy ≡ self.now) }
    {
        let wellknown = match &self.wellknown {
            Some(file) => Some(file.copy(alloc)?),
            None => None,
        };
        let config = match &self.config {
            Some(config) => Some(config.copy()?),
            None => None,
        };
        Ok(FirstReplies { wellknown, config })
    }

    /// What a reply of this kind comes to, from the provider with this configuration URL. One of each kind is taken. On want
    /// of memory what was taken is gone.
    pub fn hear(
        self,
        alloc: Global,
        rules: &Rules,
        config: &WebUrl,
        kind: ReplyKind,
        raw: &[u8],
    ) -> Result<Heard, NoRoom>
        requires { scheme_of config.now ≡ Scheme.Https }
        ensures { IfOk result (λ heard. heard ≡ spec.reply_heard rules.now self config.now kind raw.now) }
    {
        match kind {
            ReplyKind::WellKnown => self.hear_wellknown(alloc, rules, config, raw),
            ReplyKind::Config => self.hear_config(alloc, rules, config, raw),
            ReplyKind::Accounts
            | ReplyKind::Metadata
            | ReplyKind::Assertion
            | ReplyKind::Disconnect => Ok(Heard::NotWaited(self)),
        }
    }

    // What a well-known reply comes to.
    fn hear_wellknown(
        self,
        alloc: Global,
        rules: &Rules,
        config: &WebUrl,
        raw: &[u8],
    ) -> Result<Heard, NoRoom>
        requires { scheme_of config.now ≡ Scheme.Https }
        ensures { IfOk result (λ heard. heard ≡ spec.wellknown_heard self.wellknown self.config
            (spec.wellknown_read rules.now config.now raw.now)) }
    {
        if self.wellknown.is_some() {
            return Ok(Heard::NotWaited(self));
        }
        let read = wellknown_file(alloc, rules, config, raw)?;
        Ok(self.first_wellknown(read))
    }

    // What a config reply comes to.
    fn hear_config(
        self,
        alloc: Global,
        rules: &Rules,
        config: &WebUrl,
        raw: &[u8],
    ) -> Result<Heard, NoRoom>
        ensures { IfOk result (λ heard. heard ≡ spec.config_heard self.wellknown self.config (ConfigOf raw.now config.now)) }
    {
        if self.config.is_some() {
            return Ok(Heard::NotWaited(self));
        }
        let read = config_file(alloc, rules, config, raw)?;
        Ok(self.first_config(read))
    }

    // What the first well-known reply comes to, of which this was read.
    fn first_wellknown(self, read: Result<WellKnown, ProviderStep>) -> Heard
        ensures { result ≡ spec.first_wellknown self.config read }
    {
        let file = match read {
            Ok(file) => file,
            Err(step) => return Heard::Refused(step),
        };
        let FirstReplies {
            wellknown: _,
            config,
        } = self;
        match config {
            Some(config) => both(&file, config),
            None => Heard::Waits(FirstReplies {
                wellknown: Some(file),
                config: None,
            }),
        }
    }

    // What the first config reply comes to, of which this was read.
    fn first_config(self, read: Result<SharedConfig, ProviderStep>) -> Heard
        ensures { result ≡ spec.first_config self.wellknown read }
    {
        let config = match read {
            Ok(config) => config,
            Err(step) => return Heard::Refused(step),
        };
        match &self.wellknown {
            Some(file) => both(file, config),
            None => Heard::Waits(FirstReplies {
                wellknown: None,
                config: Some(config),
            }),
        }
    }
}

// What both files come to: the configuration agrees with the well-known file, or is refused beside it.
fn both(file: &WellKnown, config: SharedConfig) -> Heard
    ensures { result ≡ spec.both file.now config }
{
    match agrees(file, config.get()) {
        Some(endpoint) => Heard::Refused(ProviderStep::ConfigOther(endpoint)),
        None => Heard::Both(config),
    }
}

// What a well-known reply says. Where that is not kept with the rules, its URL is made anew, so that no call keeps what the rules say.
fn wellknown_file(
    alloc: Global,
    rules: &Rules,
    config: &WebUrl,
    raw: &[u8],
) -> Result<Result<WellKnown, ProviderStep>, NoRoom>
    requires { scheme_of config.now ≡ Scheme.Https }
    ensures { IfOk result (λ read. read ≡ spec.wellknown_read rules.now config.now raw.now) }
{
    if let Some(said) = rules.file_said(config, raw) {
        return kept_file(alloc, said);
    }
    let base = match site_url(alloc, rules.suffixes(), config)? {
        Ok(base) => base,
        Err(step) => return Ok(Err(step)),
    };
    wellknown_answer(alloc, rules.memory(), raw, &base, config)
}

// What is kept of a well-known reply.
fn kept_file(
    alloc: Global,
    said: &Result<WellKnown, ProviderStep>,
) -> Result<Result<WellKnown, ProviderStep>, NoRoom>
    ensures { IfOk result (λ copy. copy ≡ said.now) }
{
    match said {
        Ok(file) => Ok(Ok(file.copy(alloc)?)),
        Err(step) => Ok(Err(*step)),
    }
}

// What is kept of a config reply.
fn kept_config(
    said: &Result<SharedConfig, ProviderStep>,
) -> Result<Result<SharedConfig, ProviderStep>, NoRoom>
    ensures { IfOk result (λ copy. copy ≡ said.now) }
{
    match said {
        Ok(config) => Ok(Ok(config.copy()?)),
        Err(step) => Ok(Err(*step)),
    }
}

// What a config reply says.
fn config_file(
    alloc: Global,
    rules: &Rules,
    config: &WebUrl,
    raw: &[u8],
) -> Result<Result<SharedConfig, ProviderStep>, NoRoom>
    ensures { IfOk result (λ read. read ≡ ConfigOf raw.now config.now) }
{
    if let Some(said) = rules.config_said(config, raw) {
        return kept_config(said);
    }
    config_answer(alloc, rules.memory(), raw, config)
}
