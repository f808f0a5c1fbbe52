//! The public suffix rules, and what was made by them for the providers that were asked for.
ghost use Rattle.std.specs.Prelude.{◌≡◌, IfOk, IfSome, All};
ghost use Rattle.fed_origin.specs.WebUrl.{scheme_of};
ghost use Rattle.fed_suffix.specs.Rule.{RuleSet};
ghost use Rattle.fed_provider.specs.Config.{ConfigOf};
ghost use Rattle.fed_provider.specs.FirstReplies.{wellknown_read};
ghost use Rattle.fed_provider.specs.WellKnown.{WellKnownUrlOf};
ghost use Rattle.fed_provider.specs.Rules.{file_by, IsKept, IsSite};

use crate::config::config_answer;
use crate::wellknown::{site_url, wellknown_answer};
use crate::{ProviderStep, SharedConfig, WellKnown};
use fed_io::{Bytes, NoRoom};
use fed_origin::{ReplyKind, SLOTS, Scheme, WebUrl, slot_of};
use fed_reply::ReplyMemory;
use fed_suffix::Suffixes;
use std::alloc::Global;
use std::marker::Model;

// The bytes of a reply with a well-known file, and what it says.
#[derive(Drop)]
pub struct SaidFile {
    raw: Bytes,
    said: Result<WellKnown, ProviderStep>,
}

// The bytes of a reply with a configuration, and what it says.
#[derive(Drop)]
pub struct SaidConfig {
    raw: Bytes,
    said: Result<SharedConfig, ProviderStep>,
}

// A configuration URL that is https, its well-known URL or the step where it has no site, and what its files said last.
pub struct Site {
    config: WebUrl,
    wellknown: Result<WebUrl, ProviderStep>,
    file: Option<SaidFile>,
    read: Option<SaidConfig>,
}

// Written out, so that one function lets it go wherever it ends.
impl Drop for Site {
    fn drop(self) {
        let Site {
            config: _,
            wellknown: _,
            file: _,
            read: _,
        } = self;
    }
}

// The most bytes of a URL, or of a reply, that is kept.
const MOST_BYTES: usize = 2048;

/// The public suffix rules. What was asked for is kept, so that a well-known URL, and a file whose bytes come again, need not be made or
/// read anew, which takes some 2,000 to 7,000 instructions each. At most 256 sites are kept, each at the place of its URL's text, with
/// replies of at most 2,048 bytes; one that comes later takes the place.
pub struct Rules {
    suffixes: Suffixes,
    // None before the first site is kept.
    sites: Vec<Option<Site>>,
    // The place that a get or a disconnect call looked at last, where a look begins: a place by all bytes of a text takes longer than to
    // compare it with one.
    last: usize,
    // What replies are read from.
    memory: ReplyMemory,
}

impl Model for Rules {
    ghost use Rattle.std.specs.FinSet as set;
    ghost use Rattle.fed_suffix.specs.Rule.{RuleSet, rule_code};

    ghost Value = { RuleSet };

    ghost coded = { set.code rule_code };

    ghost use Rattle.std.specs.Prelude.{All};
    ghost use Rattle.fed_provider.specs.Rules.{IsKept};

    ghost view = { λ r. r.suffixes };

    ghost invariant = { λ r. All (IsKept r.suffixes) r.sites.items };
}

// Written out, so that one function lets them go wherever they end.
impl Drop for Rules {
    fn drop(self) {
        let Rules {
            suffixes: _,
            sites: _,
            last: _,
            memory: _,
        } = self;
    }
}

impl Rules {
    /// These rules. It takes no memory.
    pub fn new(alloc: Global, suffixes: Suffixes) -> Rules
        ensures { result ≡ suffixes }
    {
        Rules {
            suffixes,
            sites: Vec::new(alloc),
            last: 0,
            memory: ReplyMemory::new(),
        }
    }

    /// The rules alone.
    pub fn suffixes(&self) -> &Suffixes
        ensures { result.now ≡ self.now }
    {
        &self.suffixes
    }

    /// What replies are read from, kept from one to the next.
    pub fn memory(&self) -> &ReplyMemory {
        &self.memory
    }

    /// The well-known URL of a configuration URL that is https, or the step where it has no site.
    pub fn wellknown(
        &mut self,
        alloc: Global,
        config: &WebUrl,
    ) -> Result<Result<WebUrl, ProviderStep>, NoRoom>
        requires { scheme_of config.now ≡ Scheme.Https }
        ensures answer { IfOk result (λ url. url ≡ WellKnownUrlOf self.old config.now) }
        ensures same { self.new ≡ self.old }
    {
        if let Some(site) = self.at(self.last, config) {
            return copied(alloc, &site.wellknown);
        }
        self.last = slot_of(config.as_str());
        if let Some(site) = self.at(self.last, config) {
            return copied(alloc, &site.wellknown);
        }
        let wellknown = site_url(alloc, &self.suffixes, config)?;
        self.keep(alloc, config, &wellknown)?;
        Ok(wellknown)
    }

    /// Reads a reply with the well-known file, or with the configuration, of a configuration URL that is kept, and keeps what it says;
    /// another reply, a long one, and one whose bytes are kept, changes nothing.
    pub fn learn(
        &mut self,
        alloc: Global,
        config: &WebUrl,
        kind: ReplyKind,
        raw: &[u8],
    ) -> Result<(), NoRoom>
        ensures { self.new ≡ self.old }
    {
        if raw.len() > MOST_BYTES {
            return Ok(());
        }
        match kind {
            ReplyKind::WellKnown => {
                if self.file_said(config, raw).is_some() {
                    return Ok(());
                }
                self.keep_file(alloc, config, raw)
            }
            ReplyKind::Config => {
                if self.config_said(config, raw).is_some() {
                    return Ok(());
                }
                self.keep_config(alloc, config, raw)
            }
            ReplyKind::Accounts
            | ReplyKind::Metadata
            | ReplyKind::Assertion
            | ReplyKind::Disconnect => Ok(()),
        }
    }

    // The site of the configuration URL, where it is kept.
    fn site(&self, config: &WebUrl) -> Option<&Site>
        ensures is { IfSome result (λ site. IsSite self.now site.now) }
        ensures config { IfSome result (λ site. site.now.config ≡ config.now) }
    {
        match self.at(self.last, config) {
            Some(site) => Some(site),
            None => self.at(slot_of(config.as_str()), config),
        }
    }

    // The same, where it is kept at this place.
    fn at(&self, place: usize, config: &WebUrl) -> Option<&Site>
        ensures is { IfSome result (λ site. IsSite self.now site.now) }
        ensures config { IfSome result (λ site. site.now.config ≡ config.now) }
    {
        match self.sites.get(place) {
            Some(Some(site)) if site.config.is_same(config) => Some(site),
            _ => None,
        }
    }

    // Keeps the well-known URL of a configuration URL, or that it has none.
    fn keep(
        &mut self,
        alloc: Global,
        config: &WebUrl,
        wellknown: &Result<WebUrl, ProviderStep>,
    ) -> Result<(), NoRoom>
        requires { wellknown.now ≡ WellKnownUrlOf self.old config.now }
        ensures { self.new ≡ self.old }
    {
        if config.as_str().len() > MOST_BYTES {
            return Ok(());
        }
        if self.sites.is_empty() {
            self.sites = no_sites(alloc)?;
        }
        let site = Site {
            config: config.copy(alloc)?,
            wellknown: copied(alloc, wellknown)?,
            file: None,
            read: None,
        };
        self.put(slot_of(config.as_str()), site);
        Ok(())
    }

    // Puts a site in its place.
    fn put(&mut self, place: usize, site: Site)
        requires { IsSite self.old site }
        ensures { self.new ≡ self.old }
    {
        if place < self.sites.len() {
            self.sites[place] = Some(site);
        }
    }

    // Keeps what a reply with the well-known file of a site says, where that is kept.
    fn keep_file(&mut self, alloc: Global, config: &WebUrl, raw: &[u8]) -> Result<(), NoRoom>
        ensures { self.new ≡ self.old }
    {
        let place = slot_of(config.as_str());
        if place >= self.sites.len() {
            return Ok(());
        }
        keep_file(alloc, &self.memory, &mut self.sites[place], config, raw)
    }

    // Keeps what a reply with the configuration of a site says, where that is kept.
    fn keep_config(&mut self, alloc: Global, config: &WebUrl, raw: &[u8]) -> Result<(), NoRoom>
        ensures { self.new ≡ self.old }
    {
        let place = slot_of(config.as_str());
        if place >= self.sites.len() {
            return Ok(());
        }
        keep_config(alloc, &self.memory, &mut self.sites[place], config, raw)
    }

    /// What a reply with the well-known file of a configuration URL says, where that is kept. It takes no memory.
    pub fn file_said(&self, config: &WebUrl, raw: &[u8]) -> Option<&Result<WellKnown, ProviderStep>>
        ensures { IfSome result (λ said. said.now ≡ wellknown_read self.now config.now raw.now) }
    {
        let file = self.site(config)?.file.as_ref()?;
        if file.raw.as_slice() == raw {
            Some(&file.said)
        } else {
            None
        }
    }

    /// What a reply with the configuration at a configuration URL says, where that is kept. It takes no memory.
    pub fn config_said(
        &self,
        config: &WebUrl,
        raw: &[u8],
    ) -> Option<&Result<SharedConfig, ProviderStep>>
        ensures { IfSome result (λ said. said.now ≡ ConfigOf raw.now config.now) }
    {
        let read = self.site(config)?.read.as_ref()?;
        if read.raw.as_slice() == raw {
            Some(&read.said)
        } else {
            None
        }
    }
}

// No sites, at all places.
fn no_sites(alloc: Global) -> Result<Vec<Option<Site>>, NoRoom>
    ensures { IfOk result (λ sites. (rules : RuleSet) → All (IsKept rules) sites.items) }
{
    let mut sites = Vec::with_capacity(alloc, SLOTS)?;
    for _ in 0..SLOTS {
        sites.push(None)?;
    }
    Ok(sites)
}

// Keeps what a reply with the well-known file says, where the place has the site of the configuration URL.
fn keep_file(
    alloc: Global,
    memory: &ReplyMemory,
    kept: &mut Option<Site>,
    config: &WebUrl,
    raw: &[u8],
) -> Result<(), NoRoom>
    ensures { (rules : RuleSet) → IsKept rules kept.old → IsKept rules kept.new }
{
    if let Some(site) = kept {
        if site.config.is_same(config) {
            let file = file_read(alloc, memory, site, raw)?;
            site.file = Some(file);
        }
    }
    Ok(())
}

// Keeps what a reply with the configuration says, where the place has the site of the configuration URL.
fn keep_config(
    alloc: Global,
    memory: &ReplyMemory,
    kept: &mut Option<Site>,
    config: &WebUrl,
    raw: &[u8],
) -> Result<(), NoRoom>
    ensures { (rules : RuleSet) → IsKept rules kept.old → IsKept rules kept.new }
{
    if let Some(site) = kept {
        if site.config.is_same(config) {
            let read = config_read(alloc, memory, site, raw)?;
            site.read = Some(read);
        }
    }
    Ok(())
}

// What a reply with the well-known file of a site says.
fn file_read(
    alloc: Global,
    memory: &ReplyMemory,
    site: &Site,
    raw: &[u8],
) -> Result<SaidFile, NoRoom>
    ensures raw { IfOk result (λ file. file.raw ≡ raw.now) }
    ensures said { IfOk result (λ file. file.said ≡ file_by site.now.wellknown site.now.config raw.now) }
{
    let said = match &site.wellknown {
        Ok(base) => wellknown_answer(alloc, memory, raw, base, &site.config)?,
        Err(step) => Err(*step),
    };
    Ok(SaidFile {
        raw: Bytes::of(alloc, raw)?,
        said,
    })
}

// What a reply with the configuration of a site says.
fn config_read(
    alloc: Global,
    memory: &ReplyMemory,
    site: &Site,
    raw: &[u8],
) -> Result<SaidConfig, NoRoom>
    ensures raw { IfOk result (λ read. read.raw ≡ raw.now) }
    ensures said { IfOk result (λ read. read.said ≡ ConfigOf raw.now site.now.config) }
{
    Ok(SaidConfig {
        raw: Bytes::of(alloc, raw)?,
        said: config_answer(alloc, memory, raw, &site.config)?,
    })
}

fn copied(
    alloc: Global,
    url: &Result<WebUrl, ProviderStep>,
) -> Result<Result<WebUrl, ProviderStep>, NoRoom>
    ensures { IfOk result (λ copy. copy ≡ url.now) }
{
    match url {
        Ok(url) => Ok(Ok(url.copy(alloc)?)),
        Err(step) => Ok(Err(*step)),
    }
}
