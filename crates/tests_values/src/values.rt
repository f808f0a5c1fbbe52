//! What tests of several modules share: URLs, origins, permissions, rules.
use fed_io::{Fault, NoRoom, Text};
use fed_origin::{Origin, Triple, WebUrl};
use fed_suffix::{SuffixRefusal, Suffixes};
use std::alloc::Global;

pub fn url(alloc: Global, text: &str) -> Result<WebUrl, NoRoom> {
    match WebUrl::read(alloc, text) {
        Ok(url) => Ok(url),
        Err(_) => Err(NoRoom),
    }
}

pub fn origin_of(alloc: Global, text: &str) -> Result<Origin, NoRoom> {
    let url = url(alloc, text)?;
    Origin::of_url(alloc, &url)
}

pub fn triple(alloc: Global, page: &str, provider: &str, account: &str) -> Result<Triple, NoRoom> {
    Ok(Triple {
        page: origin_of(alloc, page)?,
        provider: origin_of(alloc, provider)?,
        account: Text::of(alloc, account)?,
    })
}

fn read_lines(rules: &mut Suffixes, list: &str) -> Result<(), Fault<SuffixRefusal>> {
    for line in list.split('\n') {
        rules.read_line(line)?;
    }
    Ok(())
}

// The rules of a list, one on each line.
pub fn rules_of(alloc: Global, list: &str) -> Result<Suffixes, Fault<SuffixRefusal>> {
    let mut rules = Suffixes::new(alloc);
    read_lines(&mut rules, list)?;
    Ok(rules)
}
