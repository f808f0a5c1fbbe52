//! What is kept of providers' files with the public suffix rules.
use crate::provider::{CONFIG, ok};
use fed_io::NoRoom;
use fed_origin::{ReplyKind, Scheme, WebUrl, slot_of};
use fed_provider::{Rules, WellKnown};
use fed_suffix::Suffixes;
use std::alloc::Global;
use std::test::Fail;

const FILE: &str = "{\"provider_urls\":[\"https://accounts.idp.example/fedcm.json\"]}";

const MEMBERS: &str =
    "{\"accounts_endpoint\":\"/a\",\"id_assertion_endpoint\":\"/s\",\"login_url\":\"/l\"}";

// Asks for the well-known URL of a configuration URL, whose site is kept from then on.
fn ask(alloc: Global, rules: &mut Rules, config: &WebUrl) -> Result<(), NoRoom> {
    if config.scheme() == Scheme::Https {
        let _wellknown = rules.wellknown(alloc, config)?;
    }
    Ok(())
}

// What is kept of a well-known reply.
fn file(rules: &Rules, config: &WebUrl, raw: &str) -> &'static str {
    match rules.file_said(config, raw.as_bytes()) {
        Some(Ok(WellKnown::Listed)) => "listed",
        Some(Ok(WellKnown::Direct { .. })) => "direct",
        Some(Err(_)) => "refused",
        None => "nothing",
    }
}

// What is kept of a config reply.
fn configuration<'a>(rules: &'a Rules, config: &WebUrl, raw: &str) -> &'a str {
    match rules.config_said(config, raw.as_bytes()) {
        Some(Ok(read)) => read.get().login.as_str(),
        Some(Err(_)) => "refused",
        None => "nothing",
    }
}

// Reads a reply of each kind.
fn learn(alloc: Global, rules: &mut Rules, config: &WebUrl, raw: &str) -> Result<(), NoRoom> {
    rules.learn(alloc, config, ReplyKind::WellKnown, raw.as_bytes())?;
    rules.learn(alloc, config, ReplyKind::Config, raw.as_bytes())?;
    rules.learn(alloc, config, ReplyKind::Accounts, raw.as_bytes())
}

#[test]
fn files_are_kept_by_url_and_bytes(rt: HostRuntime) -> Result<(), Fail> {
    let mut rules = Rules::new(rt.alloc(), Suffixes::new(rt.alloc()));
    let first = WebUrl::read(rt.alloc(), CONFIG)?;
    let second = WebUrl::read(rt.alloc(), "https://login.other.example/f.json")?;
    let list = ok(rt.alloc(), FILE)?;
    let members = ok(rt.alloc(), MEMBERS)?;

    learn(rt.alloc(), &mut rules, &first, list.as_str())?;
    assert!(rt; file(&rules, &first, list.as_str()) == "nothing");

    ask(rt.alloc(), &mut rules, &first)?;
    ask(rt.alloc(), &mut rules, &second)?;
    learn(rt.alloc(), &mut rules, &first, list.as_str())?;
    assert!(rt; file(&rules, &first, list.as_str()) == "listed");
    assert!(rt; file(&rules, &first, members.as_str()) == "nothing");
    assert!(rt; configuration(&rules, &first, list.as_str()) == "refused");

    learn(rt.alloc(), &mut rules, &first, members.as_str())?;
    assert!(rt; file(&rules, &first, members.as_str()) == "direct");
    assert!(rt;
        configuration(&rules, &first, members.as_str()) == "https://accounts.idp.example/l"
    );

    learn(rt.alloc(), &mut rules, &second, members.as_str())?;
    assert!(rt;
        configuration(&rules, &second, members.as_str()) == "https://login.other.example/l"
    );
    assert!(rt;
        configuration(&rules, &first, members.as_str()) == "https://accounts.idp.example/l"
    );
    Ok(())
}

#[test]
fn a_later_site_takes_the_place(rt: HostRuntime) -> Result<(), Fail> {
    let mut rules = Rules::new(rt.alloc(), Suffixes::new(rt.alloc()));
    let members = ok(rt.alloc(), MEMBERS)?;
    let first = WebUrl::read(rt.alloc(), "https://p4.example/f.json")?;
    let later = WebUrl::read(rt.alloc(), "https://p76.example/f.json")?;
    assert!(rt; slot_of(first.as_str()) == slot_of(later.as_str()));
    ask(rt.alloc(), &mut rules, &first)?;
    learn(rt.alloc(), &mut rules, &first, members.as_str())?;
    assert!(rt; configuration(&rules, &first, members.as_str()) == "https://p4.example/l");
    ask(rt.alloc(), &mut rules, &later)?;
    assert!(rt; configuration(&rules, &first, members.as_str()) == "nothing");
    learn(rt.alloc(), &mut rules, &first, members.as_str())?;
    assert!(rt; configuration(&rules, &first, members.as_str()) == "nothing");
    learn(rt.alloc(), &mut rules, &later, members.as_str())?;
    assert!(rt; configuration(&rules, &later, members.as_str()) == "https://p76.example/l");
    Ok(())
}

#[test]
fn long_replies_are_not_kept(rt: HostRuntime) -> Result<(), Fail> {
    let mut rules = Rules::new(rt.alloc(), Suffixes::new(rt.alloc()));
    let first = WebUrl::read(rt.alloc(), CONFIG)?;
    let members = ok(rt.alloc(), MEMBERS)?;
    let long = format!(in rt.alloc();
        "{}{}",
        members.as_str(),
        " ".repeat(rt.alloc(), 2048)?.as_str()
    )?;
    ask(rt.alloc(), &mut rules, &first)?;
    learn(rt.alloc(), &mut rules, &first, long.as_str())?;
    assert!(rt; configuration(&rules, &first, long.as_str()) == "nothing");
    Ok(())
}
