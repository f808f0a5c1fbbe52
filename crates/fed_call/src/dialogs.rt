//! What the user is shown.
ghost use Rattle.std.specs.Prelude.{◌≡◌, ◌++◌, [], IfOk, IsAscii, OnOk, map, option_map};
ghost use Rattle.std.specs.List.{flat_map};
ghost use Rattle.url.specs.Parts.{serialize};
ghost use Rattle.fed_accounts.specs.Offers.{AreWhole, IsWhole};
ghost use Rattle.fed_suffix.specs.Registrable.{party};
ghost use Rattle.fed_status.specs.Shared.{world_of};
ghost use Rattle.fed_consent.specs.Consent.{candidates};
ghost use Rattle.fed_consent.specs.declared.table.dialog.Dialog.TheVariants as dialogs;
ghost use Rattle.fed_consent.specs.declared.table.effect.Effect.TheVariants as effects;
ghost use Rattle.fed_call.specs.Dialogs as spec;
ghost use Rattle.fed_call.specs.State.{begun_facts, offered_in};

use crate::begun::Call;
use fed_accounts::{Account, Offer, connected};
use fed_consent::{Ask, Dialog, Effect, Prompt, Shown};
use fed_io::{Items, NoRoom, Placed, Text, copy_text};
use fed_origin::{Host, Stage, WebUrl};
use fed_provider::{PolicyLinks, SharedConfig};
use fed_status::Shared;
use fed_suffix::Suffixes;
use std::alloc::Global;
use std::str;

// The text of a registrable domain.
fn domain_text(domain: &[u8]) -> &str
    requires { IsAscii domain.now }
    ensures { result.now ≡ domain.now }
{
    match str::from_utf8(domain) {
        Ok(text) => text,
        Err(_) => unreachable!(),
    }
}

/// The party of a host.
#[tactic(auto, unfolding(fed_suffix::specs::Registrable::party))]
pub fn site(alloc: Global, rules: &Suffixes, host: &Host) -> Result<Text, NoRoom>
    ensures { IfOk result (λ site. site ≡ party rules.now host.now) }
{
    let _kind = host.kind();
    match rules.registrable(host) {
        Some(domain) => Text::of(alloc, domain_text(domain)),
        None => host.text.copy(alloc),
    }
}

// An account of the provider at this place as a dialog shows it.
fn shown(alloc: Global, place: u32, account: &Account, connected: bool) -> Result<Shown, NoRoom>
    ensures { IfOk result (λ shown. shown ≡ spec.shown_of place (record { account = account.now; connected = connected })) }
{
    Ok(Shown {
        provider: place,
        id: account.id.copy(alloc)?,
        name: account.name.copy(alloc)?,
        email: account.email.copy(alloc)?,
        given_name: copy_text(alloc, &account.given_name)?,
        picture: out_of_place(alloc, &account.picture)?,
        connected,
    })
}

// The same text, where there is one, out of its place.
fn out_of_place(alloc: Global, text: &Option<Placed<Text>>) -> Result<Option<Text>, NoRoom>
    ensures { IfOk result (λ copy. copy ≡ text.now) }
{
    match text {
        Some(text) => Ok(Some(text.get().copy(alloc)?)),
        None => Ok(None),
    }
}

// The accounts of an offer as a dialog shows them, after these.
fn show_offer(alloc: Global, all: &mut Items<Shown>, offer: &Offer) -> Result<(), NoRoom>
    requires { IsWhole offer.now }
    ensures { OnOk result (all.new ≡ all.old ++ map (spec.shown_of offer.now.provider) (candidates offer.now)) }
{
    let kept = offer.kept.as_slice();
    for (k, account) in offer.accounts.list().iter().enumerate() {
        let connected = connected(account, &offer.client, kept[k]);
        all.push(shown(alloc, offer.provider, account, connected)?)?;
    }
    Ok(())
}

// All accounts of these offers as a dialog shows them, in their order.
fn all_shown(alloc: Global, offers: &[Offer]) -> Result<Items<Shown>, NoRoom>
    requires { AreWhole offers.now }
    ensures { IfOk result (λ all. all ≡ flat_map (λ offer. map (spec.shown_of offer.provider) (candidates offer)) offers.now) }
{
    let mut all = Items::new(alloc);
    for offer in offers {
        show_offer(alloc, &mut all, offer)?;
    }
    Ok(all)
}

/// The accounts of these offers are shown, to choose one of.
pub fn choice_dialog(
    alloc: Global,
    shared: &Shared<'_>,
    begun: &Call,
    offers: &[Offer],
) -> Result<Effect, NoRoom>
    requires { AreWhole offers.now }
    ensures { IfOk result (λ effect. effect ≡ effects.Dialog (dialogs.Choose
        (flat_map (λ offer. map (spec.shown_of offer.provider) (candidates offer)) offers.now)
        begun.now.context (spec.site_of (world_of shared.now) begun.now.origin))) }
{
    let accounts = all_shown(alloc, offers)?;
    let site = site(alloc, shared.rules.suffixes(), &begun.origin().host)?;
    let dialog = Dialog::Choose {
        accounts,
        context: begun.context(),
        site,
    };
    Effect::shows(alloc, dialog)
}

// A link, serialized.
fn link(alloc: Global, url: &Option<WebUrl>) -> Result<Option<Text>, NoRoom>
    ensures { IfOk result (λ link. link ≡ option_map serialize url.now) }
{
    match url {
        Some(url) => Ok(Some(Text::of(alloc, url.as_str())?)),
        None => Ok(None),
    }
}

/// The account of a prompt, of the provider that the call is about, is shown, to go on with, and these links.
pub fn prompt_dialog(
    alloc: Global,
    shared: &Shared<'_>,
    begun: &Call,
    prompt: &Prompt,
    links: &PolicyLinks,
) -> Result<Effect, NoRoom>
    ensures { IfOk result (λ effect. effect ≡ effects.Dialog (dialogs.Prompt
        (spec.shown_of begun.now.place prompt.now.pick.candidate) begun.now.context
        (spec.site_of (world_of shared.now) begun.now.origin)
        (option_map serialize links.now.privacy) (option_map serialize links.now.terms))) }
{
    let account = shown(alloc, begun.place(), prompt.account(), prompt.connected())?;
    let site = site(alloc, shared.rules.suffixes(), &begun.origin().host)?;
    let privacy = link(alloc, &links.privacy)?;
    let terms = link(alloc, &links.terms)?;
    let dialog = Dialog::Prompt {
        account,
        context: begun.context(),
        site,
        privacy,
        terms,
    };
    Effect::shows(alloc, dialog)
}

/// What comes first of a prompt: it is shown without links, or the links of the client are asked for, where the account is
/// not connected and there is a metadata endpoint.
pub fn prompt_effect(
    alloc: Global,
    shared: &Shared<'_>,
    begun: &Call,
    config: &SharedConfig,
    prompt: &Prompt,
) -> Result<Effect, NoRoom>
    ensures { IfOk result (λ effect. effect ≡ spec.prompt_effect (world_of shared.now) (begun_facts begun.now Stage.Reading [])
        (offered_in begun.now config.now prompt.now.pick.candidate) prompt.now.pick.candidate.connected config.now.metadata) }
{
    match &config.get().metadata {
        Some(to) if !prompt.connected() => metadata_request(alloc, begun, to),
        _ => prompt_dialog(alloc, shared, begun, prompt, &no_links()),
    }
}

fn no_links() -> PolicyLinks
    ensures { result ≡ spec.no_links }
{
    PolicyLinks {
        privacy: None,
        terms: None,
    }
}

// The links of the client are asked for.
fn metadata_request(alloc: Global, begun: &Call, to: &WebUrl) -> Result<Effect, NoRoom>
    ensures { IfOk result (λ effect. effect
        ≡ effects.Send begun.now.place (Ask.Metadata to.now begun.now.provider.client begun.now.origin)) }
{
    let ask = Ask::Metadata {
        to: to.copy(alloc)?,
        client: begun.provider().client.copy(alloc)?,
        origin: Placed::new(alloc, begun.origin().copy(alloc)?)?,
    };
    Ok(Effect::Send(begun.place(), ask))
}
