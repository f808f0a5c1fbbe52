//! What the lines of a saved session bring back.
ghost use Rattle.std.specs.Prelude.{◌≡◌, IfOk, Ok, IsTrue, ◌↔◌, option_and_then};
ghost use Rattle.std.specs.Option.{option_to_list};
ghost use Rattle.fed_script.specs.Line.{header_of};
ghost use Rattle.fed_trace.specs.Row.{cookie_from};
ghost use Rattle.fed_profile.specs.Item.{item_of, item_in};

use fed_cookie::read_set_cookie;
use fed_io::{Fault, NoRoom};
use fed_jar::{Cookie, Jar};
use fed_origin::WebUrl;
use fed_script::{Event, Header, Used, read_event, read_header};
use fed_suffix::Suffixes;
use std::alloc::Global;

/// The event of a line, if it can be read. Each line is read as the first after its header, since no limit on events applies.
pub fn event_in(
    alloc: Global,
    rules: &Suffixes,
    now: u64,
    line: &[u8],
) -> Result<Option<Event>, NoRoom>
    ensures { IfOk result (λ event. option_and_then (item_of rules.now now) event ≡ item_in rules.now now line.now) }
{
    let mut used = Used::new(alloc, now);
    match read_event(alloc, line, &mut used) {
        Ok(event) => Ok(Some(event)),
        Err(Fault::Step(_)) => Ok(None),
        Err(Fault::NoRoom) => Err(NoRoom),
    }
}

// Whether it is the header of this time and of these rules.
fn is_same(header: &Header, rules: &Suffixes, now: u64) -> bool
    ensures { IsTrue result ↔ ((header.entry.now.now ≡ now) × (header.entry.now.rules ≡ rules.now)) }
{
    header.now == now && header.rules.same(rules)
}

/// Whether the line is read as the header of this time and of these rules.
pub fn is_header(alloc: Global, rules: &Suffixes, now: u64, line: &[u8]) -> Result<bool, NoRoom>
    ensures { IfOk result (λ same. IsTrue same ↔ (header_of line.now ≡ Ok (record { rules = rules.now; now = now }))) }
{
    match read_header(alloc, line) {
        Ok(header) => Ok(is_same(&header, rules, now)),
        Err(Fault::Step(_)) => Ok(false),
        Err(Fault::NoRoom) => Err(NoRoom),
    }
}

/// The cookie that the field of a page of the URL stores: the only one of a list, which is empty where it is ignored.
pub fn stored_by(
    alloc: Global,
    rules: &Suffixes,
    url: &WebUrl,
    now: u64,
    field: &[u8],
) -> Result<Vec<Cookie>, NoRoom>
    ensures { IfOk result (λ stored. stored.items ≡ option_to_list (cookie_from rules.now url.now now field.now)) }
{
    let Some(raw) = read_set_cookie(alloc, field)? else {
        return Ok(Vec::new(alloc));
    };
    let mut jar = Jar::new(alloc);
    let _is_stored = jar.store(rules, url, now, raw)?;
    let stored = jar.list(alloc)?;
    Ok(stored)
}
