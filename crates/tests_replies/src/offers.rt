//! What providers offer, and which of their accounts is signed in again.
ghost use Rattle.std.specs.Prelude.{◌≡◌, IfOk, length};
ghost use Rattle.fed_accounts.specs.Offers.{AreWhole, IsWhole};

use crate::accounts::{kept_of, mediation_of, read_list};
use crate::steps::parts;
use fed_accounts::{Offer, Offers, reselect_all};
use fed_io::{Items, Text};
use fed_origin::Mediation;
use std::alloc::Global;
use std::process::Abort;
use std::test::Fail;

// What the first provider offers to its client `c1`.
const FIRST: &str = r#"[{"id":"u1","name":"","email":""},
{"id":"u2","name":"","email":"","approved_clients":["c0","c1"]}]"#;

// What the second offers to its client `c2`.
const SECOND: &str = r#"[{"id":"u1","name":"","email":""},
{"id":"u2","name":"","email":"","approved_clients":["c1"]},
{"id":"u3","name":"","email":"","approved_clients":["c2"]}]"#;

// A line: the places of the offer and of the account in it that is reselected, or `none`, which permissions are kept (1 or 0 for each of
// the accounts above), whether the flag is set, and the mediation.
const OF_TWO: &str = "none | 00 000 | off | optional
0 0 | 10 000 | off | optional
0 1 | 01 010 | off | silent
1 0 | 00 100 | off | optional
1 2 | 00 011 | off | silent
none | 00 010 | off | optional
none | 10 100 | off | optional
none | 01 001 | off | silent
none | 11 000 | off | optional
none | 00 101 | off | optional
none | 11 111 | off | optional
none | 10 000 | on | optional
none | 00 100 | on | silent
none | 01 000 | off | required
none | 00 001 | off | required";

const OF_ONE: &str = "none | 00 | off | optional
0 0 | 10 | off | optional
0 1 | 01 | off | silent
none | 11 | off | optional
none | 10 | on | optional
none | 01 | off | required";

// A line: which accounts are connected (1 or 0), of an offer where these permissions are kept.
const CONNECTED_FIRST: &str = "01 | 00
11 | 10
01 | 01";

const CONNECTED_SECOND: &str = "001 | 000
101 | 100
001 | 010";

// What the provider at this place offers to this client, where these permissions are kept.
fn offer(
    alloc: Global,
    provider: u32,
    client: &str,
    list: &str,
    digits: &str,
) -> Result<Offer, Fail>
    ensures { IfOk result (λ offer. IsWhole offer) }
{
    let accounts = read_list(alloc, list)?;
    let kept = Items::from_vec(kept_of(alloc, digits)?);
    if kept.len() != accounts.list().len() {
        return Err(Fail::from("lengths"));
    }
    let client = Text::of(alloc, client)?;
    Ok(Offer {
        provider,
        client,
        accounts,
        kept,
    })
}

fn first(alloc: Global, digits: &str) -> Result<Offer, Fail>
    ensures { IfOk result (λ offer. IsWhole offer) }
{
    offer(alloc, 0, "c1", FIRST, digits)
}

fn second(alloc: Global, digits: &str) -> Result<Offer, Fail>
    ensures { IfOk result (λ offer. IsWhole offer) }
{
    offer(alloc, 1, "c2", SECOND, digits)
}

// What the providers of these permissions offer: the first, or both.
fn offers(alloc: Global, digits: &str) -> Result<Offers, Fail>
    ensures { IfOk result (λ offers. AreWhole offers) }
{
    match digits.split_once(' ') {
        Some((left, right)) => {
            let both = [first(alloc, left)?, second(alloc, right)?];
            Ok(Offers::several(Items::from_vec(Vec::from_array(alloc, both)?)))
        }
        None => Ok(Offers::one(first(alloc, digits)?)),
    }
}

// The places that are reselected, or `none`.
fn places_of(
    alloc: Global,
    offers: &Offers,
    flag: bool,
    mediation: Mediation,
) -> Result<String, Fail>
    requires { AreWhole offers.now }
{
    match reselect_all(offers.as_slice(), flag, mediation) {
        Some((offer, account)) => Ok(format!(in alloc; "{offer} {account}")?),
        None => Ok(String::from_str(alloc, "none")?),
    }
}

fn reselect_line(rt: &impl Abort, alloc: Global, line: &str) -> Result<(), Fail> {
    let (wanted, more) = parts(line)?;
    let (digits, more) = parts(more)?;
    let (flag, mediation) = parts(more)?;
    let offers = offers(alloc, digits)?;
    let found = places_of(alloc, &offers, flag == "on", mediation_of(mediation))?;
    assert_eq!(rt; found.as_str(), wanted, "{line}");
    Ok(())
}

#[test]
fn reselection_over_two(rt: HostRuntime) -> Result<(), Fail> {
    for line in OF_TWO.split('\n') {
        reselect_line(&rt, rt.alloc(), line)?;
    }
    Ok(())
}

#[test]
fn reselection_of_one(rt: HostRuntime) -> Result<(), Fail> {
    for line in OF_ONE.split('\n') {
        reselect_line(&rt, rt.alloc(), line)?;
    }
    Ok(())
}

// Which accounts of an offer are connected.
fn connected_in(alloc: Global, offer: &Offer) -> Result<String, Fail>
    requires { IsWhole offer.now }
{
    let mut found = String::new(alloc);
    for place in 0..offer.accounts.list().len() {
        found.push(if offer.connects(place) { '1' } else { '0' })?;
    }
    Ok(found)
}

#[test]
fn connections(rt: HostRuntime) -> Result<(), Fail> {
    for line in CONNECTED_FIRST.split('\n') {
        let (wanted, digits) = parts(line)?;
        let found = connected_in(rt.alloc(), &first(rt.alloc(), digits)?)?;
        assert_eq!(rt; found.as_str(), wanted, "{line}");
    }
    for line in CONNECTED_SECOND.split('\n') {
        let (wanted, digits) = parts(line)?;
        let found = connected_in(rt.alloc(), &second(rt.alloc(), digits)?)?;
        assert_eq!(rt; found.as_str(), wanted, "{line}");
    }
    Ok(())
}

// The provider of the offer at a place, and the id of the account at the same place in it.
fn taken(alloc: Global, offers: Offers, place: usize) -> Result<String, Fail> {
    if place >= offers.as_slice().len() {
        return Err(Fail::from("an offer"));
    }
    let offer = offers.take(place);
    if place >= offer.accounts.list().len() {
        return Err(Fail::from("an account"));
    }
    let provider = offer.provider;
    let account = offer.take(place);
    let id = account.id.as_str();
    Ok(format!(in alloc; "{provider} {id}")?)
}

#[test]
fn offers_are_taken(rt: HostRuntime) -> Result<(), Fail> {
    let only = taken(rt.alloc(), offers(rt.alloc(), "00")?, 0)?;
    assert_eq!(rt; only.as_str(), "0 u1");
    let left = taken(rt.alloc(), offers(rt.alloc(), "00 000")?, 0)?;
    assert_eq!(rt; left.as_str(), "0 u1");
    let right = taken(rt.alloc(), offers(rt.alloc(), "00 000")?, 1)?;
    assert_eq!(rt; right.as_str(), "1 u2");
    Ok(())
}
