//! Lines of the kind `get`.
ghost use Rattle.std.specs.Prelude.{◌≡◌, map, IfOk};
ghost use Rattle.std.specs.Result.{result_map_both};
ghost use Rattle.fed_script.specs.Entries.{all_said, entries_seen, all_after};
ghost use Rattle.fed_script.specs.Said.{shown, get_members_by, get_said};
ghost use Rattle.fed_io.specs.Fault.{Answers, AnswersBy};
ghost use Rattle.fed_script.specs.Get as spec;

use crate::cause::{LineCause, MemberName};
use crate::config::KeptConfigs;
use crate::event::Event;
use crate::member::{number, optional_text, text};
use crate::options::{OptionMembers, option_members};
use crate::said::Said;
use crate::saying::SaidLine;
use fed_io::{Fault, Items, NoRoom, Text, placed_text};
use fed_origin::{GetOptions, ProviderOptions, WebUrl};
use std::alloc::Global;

/// The members of an entry of `providers`, its URL as text.
#[derive(Clone, Copy, Drop)]
pub(crate) struct ProviderMembers<'a> {
    pub config: &'a str,
    pub client: &'a str,
    pub nonce: Option<&'a str>,
    pub login_hint: Option<&'a str>,
    pub domain_hint: Option<&'a str>,
    pub params: Option<&'a str>,
}

/// The members of a get, with those of its first provider and of the others.
#[derive(Clone, Copy, Drop)]
pub(crate) struct GetMembers<'a> {
    pub page: u32,
    pub call: u32,
    pub options: OptionMembers,
    pub provider: ProviderMembers<'a>,
    pub further: &'a [ProviderMembers<'a>],
}

/// The members of an entry.
pub(crate) fn provider_members<'a>(d: &Said<'a>) -> Result<ProviderMembers<'a>, LineCause>
    ensures { result_map_both spec.provider_seen (λ e. e) result ≡ spec.provider_members (shown d.now) }
{
    Ok(ProviderMembers {
        config: text(d, MemberName::Config)?,
        client: text(d, MemberName::Client)?,
        nonce: optional_text(d, MemberName::Nonce)?,
        login_hint: optional_text(d, MemberName::LoginHint)?,
        domain_hint: optional_text(d, MemberName::DomainHint)?,
        params: optional_text(d, MemberName::Params)?,
    })
}

fn get_members<'a>(line: &'a SaidLine<'_>) -> Result<GetMembers<'a>, LineCause>
    ensures { result_map_both spec.get_seen (λ e. e) result
        ≡ get_members_by (shown line.now.members) (all_said (entries_seen line.now.providers)) }
{
    let page = number(&line.members, MemberName::Page)?;
    let call = number(&line.members, MemberName::Call)?;
    let options = option_members(&line.members)?;
    match line.providers.members() {
        Ok((provider, further)) => Ok(GetMembers {
            page,
            call,
            options,
            provider,
            further,
        }),
        Err(cause) => Err(cause),
    }
}

// The options of a provider.
fn provider_of(
    alloc: Global,
    config: WebUrl,
    members: &ProviderMembers<'_>,
) -> Result<ProviderOptions, NoRoom>
    ensures { IfOk result (λ options. options ≡ spec.provider_of config (spec.provider_seen members.now)) }
{
    Ok(ProviderOptions {
        config,
        client: Text::of(alloc, members.client)?,
        nonce: placed_text(alloc, members.nonce)?,
        login_hint: placed_text(alloc, members.login_hint)?,
        domain_hint: placed_text(alloc, members.domain_hint)?,
        params: placed_text(alloc, members.params)?,
    })
}

// The options of a provider, with the URL that its members name.
fn provider_by(
    alloc: Global,
    kept: &mut KeptConfigs,
    members: &ProviderMembers<'_>,
) -> Result<ProviderOptions, Fault<LineCause>>
    ensures { Answers result (spec.provider_by (spec.provider_seen members.now)) }
{
    let config = kept.read(alloc, members.config)?;
    Ok(provider_of(alloc, config, members)?)
}

// The providers, and after them those that have these members.
fn with_further(
    alloc: Global,
    kept: &mut KeptConfigs,
    mut providers: Vec<ProviderOptions>,
    further: &[ProviderMembers<'_>],
) -> Result<Vec<ProviderOptions>, Fault<LineCause>>
    ensures { AnswersBy (λ v. v.items) result (all_after providers.items (map spec.provider_seen further.now)) }
{
    for members in further {
        providers.push(provider_by(alloc, kept, members)?)?;
    }
    Ok(providers)
}

// The options of a call with these providers.
fn options_of(members: OptionMembers, providers: Vec<ProviderOptions>) -> GetOptions
    ensures { result ≡ spec.options_of members providers.items }
{
    GetOptions {
        mediation: members.mediation,
        mode: members.mode,
        activation: members.activation,
        context: members.context,
        providers: Items::from_vec(providers),
    }
}

/// The get that a line names; `kept` are configuration URLs of lines before it.
pub(crate) fn get(
    alloc: Global,
    kept: &mut KeptConfigs,
    line: &SaidLine<'_>,
) -> Result<Event, Fault<LineCause>>
    ensures { Answers result (get_said (shown line.now.members) (all_said (entries_seen line.now.providers))) }
{
    match get_members(line) {
        Err(cause) => Err(Fault::Step(cause)),
        Ok(members) => get_by(alloc, kept, &members),
    }
}

/// The get with these members.
pub(crate) fn get_by(
    alloc: Global,
    kept: &mut KeptConfigs,
    members: &GetMembers<'_>,
) -> Result<Event, Fault<LineCause>>
    ensures { Answers result (spec.get_by (spec.get_seen members.now)) }
{
    let first = provider_by(alloc, kept, &members.provider)?;
    let mut providers = Vec::with_capacity(alloc, members.further.len() + 1)?;
    providers.push_reserved(first);
    let providers = with_further(alloc, kept, providers, members.further)?;
    Ok(Event::Get {
        page: members.page,
        call: members.call,
        options: options_of(members.options, providers),
    })
}
