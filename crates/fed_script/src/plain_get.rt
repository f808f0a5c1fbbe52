//! Gets as JSON writers give them.
ghost use Rattle.std.specs.Prelude.{◌≡◌, ◌≤◌, ◌++◌, codes, length, map, cond, IfOk, IfSome};
ghost use Rattle.std.specs.Option.{option_copied};
ghost use Rattle.fed_script.specs.Get.{get_seen, provider_seen, get_by};
ghost use Rattle.fed_script.specs.Line.{event_named};
ghost use Rattle.fed_script.specs.PlainGet as spec;
ghost use Rattle.fed_script.specs.PlainGet.{text_under, hints_text, names_text, entry_text, entries_text, get_text};
ghost use Rattle.fed_script.specs.PlainGet.{entries_seen, plain_members, IsPlain, IsPlainIfAny, IsPlainEntry, ArePlain};

use crate::get::{GetMembers, ProviderMembers};
use crate::options::OptionMembers;
use crate::plain::{after, number, text};
use fed_io::NoRoom;
use fed_origin::{Context, Mediation, Mode};
use std::alloc::Global;

// How many providers a get may have beside the first.
const FURTHER: usize = 9;

/// The members of the entries of a get: of the first and of the others. One takes no memory.
#[derive(Drop)]
pub(crate) struct PlainEntries<'a> {
    first: ProviderMembers<'a>,
    further: Vec<ProviderMembers<'a>>,
}

/// A get as JSON writers give it.
#[derive(Drop)]
pub(crate) struct PlainGet<'a> {
    page: u32,
    call: u32,
    active: bool,
    entries: PlainEntries<'a>,
}

impl<'a> PlainGet<'a> {
    /// Its members.
    pub(crate) fn members(&self) -> GetMembers<'_>
        ensures { get_seen result ≡ plain_members self.now }
    {
        GetMembers {
            page: self.page,
            call: self.call,
            options: OptionMembers {
                mediation: Mediation::Optional,
                mode: mode(self.active),
                activation: self.active,
                context: Context::SignIn,
            },
            provider: self.entries.first,
            further: self.entries.further.as_slice(),
        }
    }
}

// The mode of a get that is active or not.
fn mode(active: bool) -> Mode
    ensures { result ≡ cond active Mode.Active Mode.Passive }
{
    if active { Mode::Active } else { Mode::Passive }
}

// The text under a name, if it stands next, and what is left from its last quote on. The name stands with the quote before it.
fn text_under<'a>(rest: &'a [u8], name: &[u8]) -> Option<(Option<&'a str>, &'a [u8])>
    ensures text { IfSome result (λ found. rest.now ≡ text_under name.now (option_copied found.0) found.1.now) }
    ensures plain { IfSome result (λ found. IsPlainIfAny (option_copied found.0)) }
{
    let Some(named) = after(rest, name) else {
        return Some((None, rest));
    };
    let (text, left) = text(named)?;
    Some((Some(text), left))
}

// The entry of a provider that names its configuration and its client alone.
fn bare<'a>(config: &'a str, client: &'a str) -> ProviderMembers<'a>
    ensures { provider_seen result ≡ spec.bare config.now client.now }
{
    ProviderMembers {
        config,
        client,
        nonce: None,
        login_hint: None,
        domain_hint: None,
        params: None,
    }
}

// What an entry names beside its configuration and its client, and what is left after it.
fn with_more<'a>(
    config: &'a str,
    client: &'a str,
    rest: &'a [u8],
) -> Option<(ProviderMembers<'a>, &'a [u8])>
    requires plain { IsPlain config.now × IsPlain client.now }
    ensures config { IfSome result (λ found. found.0.config.now ≡ config.now) }
    ensures client { IfSome result (λ found. found.0.client.now ≡ client.now) }
    ensures text { IfSome result (λ found. rest.now ≡ hints_text (provider_seen found.0) found.1.now) }
    ensures plain { IfSome result (λ found. IsPlainEntry (provider_seen found.0)) }
{
    let (nonce, rest) = text_under(rest, b"\",\"nonce\":\"")?;
    let (login_hint, rest) = text_under(rest, b"\",\"login_hint\":\"")?;
    let (domain_hint, rest) = text_under(rest, b"\",\"domain_hint\":\"")?;
    let (params, rest) = text_under(rest, b"\",\"params\":\"")?;
    let left = after(rest, b"\"}")?;
    let members = ProviderMembers {
        config,
        client,
        nonce,
        login_hint,
        domain_hint,
        params,
    };
    Some((members, left))
}

// The configuration and the client of an entry, from the text of the first on, and what is left from the last quote on.
fn names(rest: &[u8]) -> Option<(&str, &str, &[u8])>
    ensures text { IfSome result (λ found. rest.now ≡ names_text found.0.now found.1.now found.2.now) }
    ensures plain { IfSome result (λ found. IsPlain found.0.now × IsPlain found.1.now) }
{
    let (config, rest) = text(rest)?;
    let rest = after(rest, b"\",\"client\":\"")?;
    let (client, rest) = text(rest)?;
    Some((config, client, rest))
}

// The members of an entry, by what follows its client, and what is left after it.
fn entry_of<'a>(
    config: &'a str,
    client: &'a str,
    rest: &'a [u8],
) -> Option<(ProviderMembers<'a>, &'a [u8])>
    requires plain { IsPlain config.now × IsPlain client.now }
    ensures config { IfSome result (λ found. found.0.config.now ≡ config.now) }
    ensures client { IfSome result (λ found. found.0.client.now ≡ client.now) }
    ensures text { IfSome result (λ found. rest.now ≡ hints_text (provider_seen found.0) found.1.now) }
    ensures plain { IfSome result (λ found. IsPlainEntry (provider_seen found.0)) }
{
    match after(rest, b"\"}") {
        Some(left) => Some((bare(config, client), left)),
        None => with_more(config, client, rest),
    }
}

// The members of an entry, from the text of its configuration URL on, and what is left after it.
fn entry(rest: &[u8]) -> Option<(ProviderMembers<'_>, &[u8])>
    ensures text { IfSome result (λ found. rest.now ≡ entry_text (provider_seen found.0) found.1.now) }
    ensures plain { IfSome result (λ found. IsPlainEntry (provider_seen found.0)) }
{
    let (config, client, rest) = names(rest)?;
    entry_of(config, client, rest)
}

// The page and the call of a get, the configuration and the client of its first entry, and what is left after these.
fn get_front(line: &[u8]) -> Option<(u32, u32, &str, &str, &[u8])>
    ensures text { IfSome result (λ found. line.now ≡ get_text found.0 found.1 found.2.now found.3.now found.4.now) }
    ensures plain { IfSome result (λ found. IsPlain found.2.now × IsPlain found.3.now) }
{
    let rest = after(line, b"{\"do\":\"get\",\"page\":")?;
    let (page, rest) = number(rest)?;
    let rest = after(rest, b",\"call\":")?;
    let (call, rest) = number(rest)?;
    let rest = after(rest, b",\"providers\":[{\"config\":\"")?;
    let (config, client, rest) = names(rest)?;
    Some((page, call, config, client, rest))
}

// The members of the further entries, and what is left after them.
fn further_entries<'a>(
    alloc: Global,
    rest: &'a [u8],
) -> Result<Option<(Vec<ProviderMembers<'a>>, &'a [u8])>, NoRoom>
    ensures text { IfOk result (λ found. IfSome found (λ f. rest.now ≡ entries_text (map provider_seen f.0.items) f.1.now)) }
    ensures plain { IfOk result (λ found. IfSome found (λ f. ArePlain (map provider_seen f.0.items))) }
    ensures few { IfOk result (λ found. IfSome found (λ f. length f.0.items ≤ 9)) }
{
    let mut further = Vec::new(alloc);
    let mut left = rest;
    while let Some(next) = after(left, b",{\"config\":\"") {
        let Some((members, after_entry)) = entry(next) else {
            return Ok(None);
        };
        if further.len() == FURTHER {
            return Ok(None);
        }
        further.push(members)?;
        left = after_entry;
    }
    Ok(Some((further, left)))
}

// Whether a get is active and the user acted at the page, by what follows its entries.
fn get_end(rest: &[u8]) -> Option<bool>
    ensures { IfSome result (λ active. rest.now ≡ spec.get_end active) }
{
    if rest == b"]}".as_slice() {
        return Some(false);
    }
    if rest == b"],\"mode\":\"active\",\"activation\":true}".as_slice() {
        return Some(true);
    }
    None
}

// The same by what follows the client of its only entry, which names nothing else.
fn only_end(rest: &[u8]) -> Option<bool>
    ensures { IfSome result (λ active. rest.now ≡ codes "\"}" ++ spec.get_end active) }
{
    if rest == b"\"}]}".as_slice() {
        return Some(false);
    }
    if rest == b"\"}],\"mode\":\"active\",\"activation\":true}".as_slice() {
        return Some(true);
    }
    None
}

// The members of its entries, with what follows the client of the first, and whether it is active.
fn entries_of<'a>(
    alloc: Global,
    config: &'a str,
    client: &'a str,
    rest: &'a [u8],
) -> Result<Option<(PlainEntries<'a>, bool)>, NoRoom>
    requires plain { IsPlain config.now × IsPlain client.now }
    ensures names { IfOk result (λ found. IfSome found (λ f.
        (f.0.first.config.now ≡ config.now) × (f.0.first.client.now ≡ client.now))) }
    ensures text { IfOk result (λ found. IfSome found (λ f. rest.now
        ≡ hints_text (provider_seen f.0.first) (entries_text (map provider_seen f.0.further.items) (spec.get_end f.1)))) }
    ensures plain { IfOk result (λ found. IfSome found (λ f. ArePlain (entries_seen f.0))) }
    ensures few { IfOk result (λ found. IfSome found (λ f. length f.0.further.items ≤ 9)) }
{
    if let Some(active) = only_end(rest) {
        let entries = PlainEntries {
            first: bare(config, client),
            further: Vec::new(alloc),
        };
        return Ok(Some((entries, active)));
    }
    let Some((first, rest)) = entry_of(config, client, rest) else {
        return Ok(None);
    };
    let Some((further, rest)) = further_entries(alloc, rest)? else {
        return Ok(None);
    };
    match get_end(rest) {
        Some(active) => Ok(Some((PlainEntries { first, further }, active))),
        None => Ok(None),
    }
}

/// A get that JSON writers give so; None where it is another line.
pub(crate) fn get_line<'a>(alloc: Global, line: &'a [u8]) -> Result<Option<PlainGet<'a>>, NoRoom>
    ensures { IfOk result (λ found. IfSome found (λ get. event_named line.now ≡ get_by (plain_members get))) }
{
    let Some((page, call, config, client, rest)) = get_front(line) else {
        return Ok(None);
    };
    let Some((entries, active)) = entries_of(alloc, config, client, rest)? else {
        return Ok(None);
    };
    Ok(Some(PlainGet {
        page,
        call,
        active,
        entries,
    }))
}
