//! Consents over what one provider offers, and over what two offer.
ghost use Rattle.std.specs.Prelude.{◌≡◌, ◌≤◌, true, IfOk, length};
ghost use Rattle.fed_accounts.specs.Offers.{AreWhole};
ghost use Rattle.fed_consent.specs.Consent.{AreRising, picks};

use crate::lines::{assert_so, assert_word, parts};
use crate::offers::{BOTH, OTHERS, offer, prompt};
use crate::values::{place_of, provider_with_nonce};
use fed_accounts::{Offer, Offers, reselect_all};
use fed_consent::{Ask, Chooser, Consent, Picked, Prompt, Reselection};
use fed_io::{Items, NoRoom, Text};
use fed_origin::{Mediation, Origin, ProviderOptions};
use std::alloc::Global;
use std::process::Abort;
use std::test::Fail;

// Whether this request asks for a token for the first account, and says this of what the user was shown.
fn is_said(ask: &Ask, disclosure: bool) -> bool {
    match ask {
        Ask::Assertion(ask) => ask.account().as_str() == "u1" && ask.disclosure() == disclosure,
        _ => false,
    }
}

// Going on with a prompt that waits: it is still there.
fn too_early(prompt: Prompt) -> Option<Prompt> {
    match prompt.proceed() {
        Ok(consent) => {
            consent.void();
            None
        }
        Err(prompt) => Some(prompt),
    }
}

// The request that an agreement makes.
fn spent(
    alloc: Global,
    consent: Consent,
    origin: &Origin,
    options: &ProviderOptions,
) -> Result<Ask, NoRoom> {
    match consent.spend(alloc, &options.config, origin, options) {
        Ok(ask) => Ok(ask),
        Err((NoRoom, consent)) => {
            consent.void();
            Err(NoRoom)
        }
    }
}

// Whether the prompt, once it is ready, makes a request that says this.
fn asks(
    alloc: Global,
    prompt: Prompt,
    origin: &Origin,
    options: &ProviderOptions,
    disclosure: bool,
) -> Result<bool, NoRoom> {
    match prompt.ready().proceed() {
        Ok(consent) => {
            let ask = spent(alloc, consent, origin, options)?;
            Ok(is_said(&ask, disclosure))
        }
        Err(_) => Ok(false),
    }
}

// Whether a prompt that waits makes no consent, and, once it is ready, a request that says this.
fn goes_on(alloc: Global, connected: bool, disclosure: bool) -> Result<bool, NoRoom> {
    let options = provider_with_nonce(alloc)?;
    let origin = Origin::of_url(alloc, &options.config)?;
    match prompt(alloc, connected, true)? {
        Some(prompt) => match too_early(prompt) {
            Some(prompt) => asks(alloc, prompt, &origin, &options, disclosure),
            None => Ok(false),
        },
        None => Ok(false),
    }
}

#[test]
fn a_prompt_makes_a_consent(rt: HostRuntime) -> Result<(), Fail> {
    assert_so(&rt, goes_on(rt.alloc(), false, true)?, "of another account");
    assert_so(
        &rt,
        goes_on(rt.alloc(), true, false)?,
        "of a connected account",
    );
    Ok(())
}

// ---- choices

// A line: the provider and the id that are chosen, whose account that is, and what comes of it. The second account of provider 0 and
// the first of provider 3 are connected.
const OF_ONE: &str = "0 u1 | Ann | prompt
0 u2 | Bob | consent
0 u3 | none | of one
1 u1 | none | of one";

const OF_TWO: &str = "0 u1 | Ann | prompt
0 u2 | Bob | consent
3 u1 | Amy | consent
3 u3 | Cem | prompt
0 u3 | none | of two
3 u2 | none | of two
1 u1 | none | of two
2 u1 | none | of two";

// Of two accounts, which are kept.
fn kept(alloc: Global, digits: &str) -> Result<Items<bool>, NoRoom> {
    let kept = [digits.starts_with('1'), digits.ends_with('1')];
    Ok(Items::from_vec(Vec::from_array(alloc, kept)?))
}

// What provider 0 offers, where of its two accounts these are kept.
fn of_one(alloc: Global, digits: &str) -> Result<Offers, NoRoom>
    ensures whole { IfOk result (λ offers. AreWhole offers) }
    ensures rising { IfOk result (λ offers. AreRising offers) }
{
    let only = offer(alloc, 0, BOTH, kept(alloc, digits)?)?;
    Ok(Offers::one(only))
}

// The same, and what provider 3 offers.
fn of_two(alloc: Global, digits: &str, others: &str) -> Result<Offers, NoRoom>
    ensures whole { IfOk result (λ offers. AreWhole offers) }
    ensures rising { IfOk result (λ offers. AreRising offers) }
{
    let first = offer(alloc, 0, BOTH, kept(alloc, digits)?)?;
    let second = offer(alloc, 3, OTHERS, kept(alloc, others)?)?;
    Ok(Offers::several(Items::from_vec(Vec::from_array(alloc, [first, second])?)))
}

// Whether the first of these providers offers two accounts.
fn are_several(offers: &[Offer]) -> bool
    requires { AreWhole offers.now }
    ensures { result ≡ true → 2 ≤ length (picks (record { call = 1; offers = offers.now })) }
{
    offers.len() > 0 && offers[0].accounts.list().len() == 2
}

// A choice among these offers; none where others were read.
fn to_choose(offers: Offers) -> Option<Chooser>
    requires whole { AreWhole offers }
    requires rising { AreRising offers }
{
    if !are_several(offers.as_slice()) {
        return None;
    }
    Some(Chooser::new(1, offers))
}

fn prompt_word(prompt: &Prompt) -> &'static str {
    if prompt.waits() { "waits" } else { "prompt" }
}

// What comes of an account that was chosen.
fn picked_word(picked: Picked) -> &'static str {
    match picked.proceed() {
        Ok(consent) => {
            consent.void();
            "consent"
        }
        Err(picked) => prompt_word(&picked.prompt(false)),
    }
}

// How many providers still offer accounts to choose among.
fn left_word(chooser: &Chooser) -> &'static str {
    match chooser.offers().len() {
        1 => "of one",
        2 => "of two",
        _ => "of others",
    }
}

// Whose account it is that was chosen, and what comes of it; none where it is not offered.
fn chosen(
    rt: &impl Abort,
    chooser: Chooser,
    provider: u32,
    id: &Text,
    line: &str,
) -> Result<(), Fail> {
    let (choice, more) = parts(line)?;
    let (name, word) = parts(more)?;
    match chooser.choose(provider, id) {
        Ok(picked) => {
            assert_word(rt, picked.account().name.as_str(), name, choice);
            assert_word(rt, picked_word(picked), word, choice);
        }
        Err(chooser) => {
            assert_word(rt, "none", name, choice);
            assert_word(rt, left_word(&chooser), word, choice);
        }
    }
    Ok(())
}

// The provider and the id of a choice.
fn choice_in(alloc: Global, line: &str) -> Result<(u32, Text), Fail> {
    let (choice, _) = parts(line)?;
    let (provider, id) = choice.split_once(' ').ok_or("a choice")?;
    Ok((place_of(provider), Text::of(alloc, id)?))
}

#[test]
fn a_choice_of_one_provider(rt: HostRuntime) -> Result<(), Fail> {
    for line in OF_ONE.split('\n') {
        let (provider, id) = choice_in(rt.alloc(), line)?;
        let chooser = to_choose(of_one(rt.alloc(), "01")?).ok_or("a choice")?;
        chosen(&rt, chooser, provider, &id, line)?;
    }
    Ok(())
}

#[test]
fn a_choice_of_two_providers(rt: HostRuntime) -> Result<(), Fail> {
    for line in OF_TWO.split('\n') {
        let (provider, id) = choice_in(rt.alloc(), line)?;
        let chooser = to_choose(of_two(rt.alloc(), "01", "10")?).ok_or("a choice")?;
        chosen(&rt, chooser, provider, &id, line)?;
    }
    Ok(())
}

// ---- reselections

// A line: which accounts are kept of provider 0 and of provider 3, and whose account is signed in again, of which provider.
const RESELECTED: &str = "00 00 | none
10 00 | 0 Ann
01 00 | 0 Bob
00 10 | 3 Amy
00 01 | 3 Cem
11 00 | none
10 10 | none
01 01 | none";

// The only account whose permission is kept.
fn reselection(offers: Offers, flag: bool, mediation: Mediation) -> Option<Reselection>
    requires { AreWhole offers }
{
    let places = reselect_all(offers.as_slice(), flag, mediation)?;
    Some(Reselection::new(1, offers, flag, mediation, places))
}

// Whether this request asks for a token for this account, of which the user was neither asked nor shown anything.
fn is_silent(ask: &Ask, id: &str) -> bool {
    match ask {
        Ask::Assertion(ask) => ask.account().as_str() == id && ask.auto() && !ask.disclosure(),
        _ => false,
    }
}

// Whether a token for the account that is reselected is asked for without the user.
fn asks_silently(alloc: Global, again: Reselection) -> Result<bool, NoRoom> {
    let options = provider_with_nonce(alloc)?;
    let origin = Origin::of_url(alloc, &options.config)?;
    let id = again.account().id.copy(alloc)?;
    let ask = spent(alloc, again.proceed(), &origin, &options)?;
    Ok(is_silent(&ask, id.as_str()))
}

// The provider of the account that is reselected, and whose it is, in words.
fn named(alloc: Global, again: &Reselection) -> Result<String, NoRoom> {
    let provider = again.provider();
    let name = again.account().name.as_str();
    Ok(format!(in alloc; "{provider} {name}")?)
}

fn reselects(rt: &impl Abort, alloc: Global, line: &str) -> Result<(), Fail> {
    let (digits, wanted) = parts(line)?;
    let (first, second) = digits.split_once(' ').ok_or("digits")?;
    let offers = of_two(alloc, first, second)?;
    match reselection(offers, false, Mediation::Optional) {
        Some(again) => {
            assert_word(rt, named(alloc, &again)?.as_str(), wanted, line);
            assert_so(rt, asks_silently(alloc, again)?, line);
        }
        None => assert_word(rt, "none", wanted, line),
    }
    Ok(())
}

#[test]
fn a_reselection_makes_a_consent(rt: HostRuntime) -> Result<(), Fail> {
    for line in RESELECTED.split('\n') {
        reselects(&rt, rt.alloc(), line)?;
    }
    Ok(())
}

// Nothing is signed in again where the flag is set, or the user has to take part; of one provider as of two.
#[test]
fn no_reselection(rt: HostRuntime) -> Result<(), Fail> {
    let only = of_one(rt.alloc(), "10")?;
    assert_so(
        &rt,
        reselection(only, false, Mediation::Silent).is_some(),
        "of one",
    );
    let only = of_one(rt.alloc(), "10")?;
    assert_so(
        &rt,
        reselection(only, true, Mediation::Silent).is_none(),
        "the flag",
    );
    let two = of_two(rt.alloc(), "00", "10")?;
    assert_so(
        &rt,
        reselection(two, true, Mediation::Optional).is_none(),
        "the flag",
    );
    let two = of_two(rt.alloc(), "00", "10")?;
    assert_so(
        &rt,
        reselection(two, false, Mediation::Required).is_none(),
        "required",
    );
    Ok(())
}
