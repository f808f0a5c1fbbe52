//! Replies that are read one after another from what is kept.
use crate::token::{origin_of, shown};
use fed_origin::Origin;
use fed_provider::read_metadata_with;
use fed_reply::ReplyMemory;
use fed_token::{read_assertion_with, read_disconnect_with};
use std::alloc::Global;
use std::test::Fail;

// A reply to a page of `https://rp.example`, with a member beside these that has so many bytes, and an escape.
fn reply(alloc: Global, members: &str, more: usize) -> Result<String, Fail> {
    let fields =
        "Access-Control-Allow-Origin: https://rp.example\r\nAccess-Control-Allow-Credentials: true";
    let long = "x".repeat(alloc, more)?;
    let long = long.as_str();
    Ok(format!(in alloc;
        "HTTP/1.1 200 OK\r\nContent-Type: application/json\r\n{fields}\r\n\r\n{{\"x\":\"\\n{long}\",{members}}}"
    )?)
}

// The token of a reply that is longer by so many bytes.
fn token(alloc: Global, memory: &ReplyMemory, more: usize, page: &Origin) -> Result<String, Fail> {
    let raw = reply(alloc, "\"token\":\"T\\u0031\"", more)?;
    shown(
        alloc,
        read_assertion_with(alloc, memory, raw.as_bytes(), page),
    )
}

// The account id of a reply that is longer by so many bytes.
fn account(
    alloc: Global,
    memory: &ReplyMemory,
    more: usize,
    page: &Origin,
) -> Result<String, Fail> {
    let raw = reply(alloc, "\"account_id\":\"u\\t1\"", more)?;
    shown(
        alloc,
        read_disconnect_with(alloc, memory, raw.as_bytes(), page),
    )
}

// Whether the reply of a client metadata endpoint that is longer by so many bytes gives a link to the terms.
fn has_terms(alloc: Global, memory: &ReplyMemory, more: usize) -> Result<bool, Fail> {
    let raw = reply(
        alloc,
        "\"terms_of_service_url\":\"https://rp.example/t\"",
        more,
    )?;
    let links = read_metadata_with(alloc, memory, raw.as_bytes())?;
    Ok(links.terms.is_some() && links.privacy.is_none())
}

// 16,384 bytes and fewer are kept, more are let go.
#[test]
fn one_after_another(rt: HostRuntime) -> Result<(), Fail> {
    let alloc = rt.alloc();
    let page = origin_of(alloc, "https://rp.example/")?;
    let memory = ReplyMemory::new();
    for more in [0, 10_000, 20_000, 3, 16_000, 70_000, 0] {
        let token = token(alloc, &memory, more, &page)?;
        assert_eq!(rt; token.as_str(), "\"T1\"");
        let account = account(alloc, &memory, more, &page)?;
        assert_eq!(rt; account.as_str(), "\"u\t1\"");
        assert!(rt; has_terms(alloc, &memory, more)?);
    }
    Ok(())
}

// What is lent and not given back is made anew, and what comes back last stays.
#[test]
fn lent_twice(rt: HostRuntime) -> Result<(), Fail> {
    let alloc = rt.alloc();
    let page = origin_of(alloc, "https://rp.example/")?;
    let memory = ReplyMemory::new();
    let first = memory.lend(alloc)?;
    let second = memory.lend(alloc)?;
    memory.take_back(b"", first);
    memory.take_back(b"", second);
    let token = token(alloc, &memory, 5, &page)?;
    assert_eq!(rt; token.as_str(), "\"T1\"");
    Ok(())
}
