//! The limit of a party's cookies, by steps in lines. Cookies are named `k` and a number.
use crate::filled::Filled;
use crate::jar::store_step;
use crate::lines::{assert_so, assert_text, parts};
use crate::values::rules_of;
use fed_jar::Cookie;
use std::alloc::{AllocError, Global};
use std::process::Abort;
use std::test::Fail;

// The 181st makes the first go; one that replaces another makes none go; another party keeps its
// cookies.
const FIRST_GOES: &str = "fill | https://other.example/ | 1..4 | =1
fill | https://idp.example/ | 1..181 | =1; Path=/; SameSite=None; Secure
names | idp.example | 1..181
fill | https://idp.example/ | 181..182 | =1; Path=/; SameSite=None; Secure
names | idp.example | 2..182
store | https://idp.example/ | k2=2; Path=/; SameSite=None; Secure | yes
names | idp.example | 2..182
store | https://www.idp.example/ | k2=2; Path=/; SameSite=None; Secure | yes
names | idp.example | 3..182 2..3
names | other.example | 1..4
names | - | 1..4 3..182 2..3";

// An expired one goes in place of the first, the first of these before the others.
const EXPIRED_GOES: &str = "fill | https://idp.example/ | 1..5 | =1
fill | https://idp.example/ | 5..6 | =1; Max-Age=0
fill | https://idp.example/ | 6..9 | =1
fill | https://idp.example/ | 9..10 | =1; Expires=Thu, 01 Jan 1970 00:00:00 GMT
fill | https://idp.example/ | 10..181 | =1
names | idp.example | 1..181
fill | https://idp.example/ | 181..182 | =1
names | idp.example | 1..5 6..182
fill | https://idp.example/ | 182..183 | =1
names | idp.example | 1..5 6..9 10..183
fill | https://idp.example/ | 183..184 | =1
names | idp.example | 2..5 6..9 10..184";

// A new one that is expired makes another go, and goes itself at the next.
const NEW_IS_EXPIRED: &str = "fill | https://idp.example/ | 1..181 | =1
fill | https://idp.example/ | 181..182 | =1; Max-Age=0
names | idp.example | 2..182
fill | https://idp.example/ | 182..183 | =1
names | idp.example | 2..181 182..183";

// 200 of one party, 3 of them expired, beside 180 of another: each has 180 in the end.
const TWO_PARTIES: &str = "fill | https://other.example/ | 1..91 | =1
fill | https://idp.example/ | 1..10 | =1
fill | https://idp.example/ | 10..11 | =1; Max-Age=0
fill | https://idp.example/ | 11..20 | =1
fill | https://idp.example/ | 20..21 | =1; Max-Age=-1
fill | https://idp.example/ | 21..181 | =1
fill | https://other.example/ | 91..181 | =1
names | idp.example | 1..181
fill | https://idp.example/ | 181..190 | =1
fill | https://idp.example/ | 190..191 | =1; Max-Age=0
fill | https://idp.example/ | 191..201 | =1
names | idp.example | 19..20 21..190 191..201
names | other.example | 1..181
names | - | 1..91 19..20 21..181 91..181 181..190 191..201";

fn push_name(text: &mut Vec<u8>, alloc: Global, number: u64) -> Result<(), AllocError> {
    let word = format!(in alloc; "k{number}")?;
    text.extend_from_slice(word.as_bytes())
}

// The two numbers of a range, of which the second is beyond it.
fn ends(range: &str) -> Result<(u64, u64), Fail> {
    let (first, end) = range.split_once("..").ok_or("a range")?;
    Ok((
        first.parse::<u64>().unwrap_or(0),
        end.parse::<u64>().unwrap_or(0),
    ))
}

// Stores a cookie of this number.
fn fill_one(
    jar: &mut Filled,
    alloc: Global,
    url: &str,
    number: u64,
    rest: &str,
) -> Result<bool, Fail> {
    let mut field = Vec::new(alloc);
    push_name(&mut field, alloc, number)?;
    field.extend_from_slice(rest.as_bytes())?;
    jar.store(alloc, url, field.as_slice())
}

// Stores a cookie of each number of the range.
fn fill_step(rt: &impl Abort, jar: &mut Filled, alloc: Global, step: &str) -> Result<(), Fail> {
    let (url, more) = parts(step)?;
    let (range, rest) = parts(more)?;
    let (first, end) = ends(range)?;
    for number in first..end {
        let is_stored = fill_one(jar, alloc, url, number, rest)?;
        assert_so(rt, is_stored, step);
    }
    Ok(())
}

fn push_names(text: &mut Vec<u8>, cookies: &[Cookie]) -> Result<(), AllocError> {
    for cookie in cookies {
        text.extend_from_slice(cookie.name.as_slice())?;
    }
    Ok(())
}

// The names of the numbers of each range.
fn push_ranges(text: &mut Vec<u8>, alloc: Global, ranges: &str) -> Result<(), Fail> {
    for range in ranges.split(' ') {
        let (first, end) = ends(range)?;
        for number in first..end {
            push_name(text, alloc, number)?;
        }
    }
    Ok(())
}

fn listed(jar: &Filled, alloc: Global, party: &str) -> Result<Vec<u8>, Fail> {
    let mut text = Vec::new(alloc);
    if party == "-" {
        push_names(&mut text, jar.list(alloc)?.as_slice())?;
    } else {
        push_names(&mut text, jar.list_of(alloc, party.as_bytes())?.as_slice())?;
    }
    Ok(text)
}

fn names_step(rt: &impl Abort, jar: &Filled, alloc: Global, step: &str) -> Result<(), Fail> {
    let (party, ranges) = parts(step)?;
    let found = listed(jar, alloc, party)?;
    let mut wanted = Vec::new(alloc);
    push_ranges(&mut wanted, alloc, ranges)?;
    assert_text(rt, found.as_slice(), wanted.as_slice(), step);
    Ok(())
}

fn take_step(rt: &impl Abort, jar: &mut Filled, alloc: Global, line: &str) -> Result<(), Fail> {
    let (word, step) = parts(line)?;
    match word {
        "fill" => fill_step(rt, jar, alloc, step),
        "store" => store_step(rt, jar, alloc, step),
        _ => names_step(rt, jar, alloc, step),
    }
}

fn follows(rt: &impl Abort, alloc: Global, steps: &str) -> Result<(), Fail> {
    let mut jar = Filled::new(alloc, rules_of(alloc, "")?);
    for line in steps.split('\n') {
        take_step(rt, &mut jar, alloc, line)?;
    }
    Ok(())
}

#[test]
fn first_goes(rt: HostRuntime) -> Result<(), Fail> {
    follows(&rt, rt.alloc(), FIRST_GOES)
}

#[test]
fn expired_goes(rt: HostRuntime) -> Result<(), Fail> {
    follows(&rt, rt.alloc(), EXPIRED_GOES)
}

#[test]
fn new_is_expired(rt: HostRuntime) -> Result<(), Fail> {
    follows(&rt, rt.alloc(), NEW_IS_EXPIRED)
}

#[test]
fn two_parties(rt: HostRuntime) -> Result<(), Fail> {
    follows(&rt, rt.alloc(), TWO_PARTIES)
}
