//! The script of `make N`: `N` calls, each on a page of its own, at one provider.
ghost use Rattle.std.specs.Prelude.{◌≡◌, ◌≤◌, ◌++◌, Ok, IfOk, OnOk};
ghost use Rattle.std.specs.List.{flat_map};
ghost use Rattle.fed_run.specs.Make as spec;

use crate::read::LIMIT;
use fed_io::{NoRoom, Text};
use fed_print::Object;
use fed_script::{Script, read_script};
use std::alloc::Global;

/// An item of the script: its lines, one for each call, or for each of even or odd number.
#[derive(Clone, Copy, Debug, PartialEq, Eq)]
pub enum Item {
    /// Of even calls: a permission is kept.
    Kept,
    /// The page is loaded.
    Load,
    /// The page calls `get`.
    Get,
    /// The reply with the well-known file.
    WellKnown,
    /// The reply with the configuration.
    Config,
    /// The reply with the accounts.
    Accounts,
    /// Of odd calls: the user goes on.
    GoOn,
    /// The reply with the token.
    Assertion,
}

const CONFIG: &str = "https://accounts.idp.example/fedcm.json";

const WELL_KNOWN_BODY: &str = "{\"provider_urls\":[\"https://accounts.idp.example/fedcm.json\"]}";

const CONFIG_BODY: &str =
    "{\"accounts_endpoint\":\"/accounts\",\"id_assertion_endpoint\":\"/assert\",\"login_url\":\"/login\"}";

// The origin of the page of this number.
fn page_text(alloc: Global, number: u32) -> Result<Text, NoRoom>
    ensures { IfOk result (λ text. text ≡ spec.page_text number) }
{
    let text = format!(in alloc; "https://rp{number}.example")?;
    Text::of(alloc, text.as_str())
}

// The first line.
fn push_header(alloc: Global, text: &mut Vec<u8>) -> Result<(), NoRoom>
    ensures { OnOk result (text.new.items ≡ text.old.items ++ spec.header_line) }
{
    Object::new(alloc)
        .count("fedcm", 1)?
        .count("now", 0)?
        .text("rules", "")?
        .append_line(text)
}

// A permission is kept for the page.
fn push_kept(alloc: Global, number: u32, text: &mut Vec<u8>) -> Result<(), NoRoom>
    ensures { OnOk result (text.new.items ≡ text.old.items ++ spec.kept_line number) }
{
    let page = page_text(alloc, number)?;
    let account = format!(in alloc; "u{number}")?;
    Object::new(alloc)
        .text("account", account.as_str())?
        .text("do", "have")?
        .text("page", page.as_str())?
        .text("provider", "https://accounts.idp.example")?
        .text("what", "kept")?
        .append_line(text)
}

// The page is loaded.
fn push_load(alloc: Global, number: u32, text: &mut Vec<u8>) -> Result<(), NoRoom>
    ensures { OnOk result (text.new.items ≡ text.old.items ++ spec.load_line number) }
{
    let page = page_text(alloc, number)?;
    let page = page.as_str();
    let url = format!(in alloc; "{page}/")?;
    Object::new(alloc)
        .text("do", "load")?
        .count("page", number)?
        .text("url", url.as_str())?
        .append_line(text)
}

// The page calls `get`.
fn push_get(alloc: Global, number: u32, text: &mut Vec<u8>) -> Result<(), NoRoom>
    ensures { OnOk result (text.new.items ≡ text.old.items ++ spec.get_line number) }
{
    let client = format!(in alloc; "c{number}")?;
    let provider = Object::new(alloc)
        .text("client", client.as_str())?
        .text("config", CONFIG)?;
    Object::new(alloc)
        .count("call", number)?
        .text("do", "get")?
        .count("page", number)?
        .objects("providers", vec![in alloc; provider]?)?
        .append_line(text)
}

// A good reply with further fields, each with its CRLF, and a body of JSON.
fn reply_text(alloc: Global, fields: &str, body: &str) -> Result<Text, NoRoom>
    ensures { IfOk result (λ text. text ≡ spec.reply_text fields.now body.now) }
{
    let text = format!(in alloc;
        "HTTP/1.1 200 OK\r\nContent-Type: application/json\r\n{fields}\r\n{body}"
    )?;
    Text::of(alloc, text.as_str())
}

// A reply to the call's request of this kind.
fn push_reply(
    alloc: Global,
    kind: &str,
    number: u32,
    fields: &str,
    body: &str,
    text: &mut Vec<u8>,
) -> Result<(), NoRoom>
    ensures { OnOk result (text.new.items ≡ text.old.items ++ spec.reply_line kind.now (spec.reply_text fields.now body.now) number) }
{
    let reply = reply_text(alloc, fields, body)?;
    Object::new(alloc)
        .count("call", number)?
        .text("do", "reply")?
        .text("text", reply.as_str())?
        .text("to", kind)?
        .append_line(text)
}

// One account.
fn push_accounts(alloc: Global, number: u32, text: &mut Vec<u8>) -> Result<(), NoRoom>
    ensures { OnOk result (text.new.items ≡ text.old.items ++ spec.item_line Item.Accounts number) }
{
    let body = format!(in alloc;
        "{{\"accounts\":[{{\"id\":\"u{number}\",\"name\":\"U\",\"email\":\"u@idp.example\"}}]}}"
    )?;
    push_reply(alloc, "accounts", number, "", body.as_str(), text)
}

// The token, which the page may read.
fn push_assertion(alloc: Global, number: u32, text: &mut Vec<u8>) -> Result<(), NoRoom>
    ensures { OnOk result (text.new.items ≡ text.old.items ++ spec.item_line Item.Assertion number) }
{
    let page = page_text(alloc, number)?;
    let page = page.as_str();
    let fields = format!(in alloc;
        "Access-Control-Allow-Origin: {page}\r\nAccess-Control-Allow-Credentials: true\r\n"
    )?;
    let body = format!(in alloc; "{{\"token\":\"t{number}\"}}")?;
    push_reply(
        alloc,
        "assertion",
        number,
        fields.as_str(),
        body.as_str(),
        text,
    )
}

// The user goes on at the prompt.
fn push_go_on(alloc: Global, number: u32, text: &mut Vec<u8>) -> Result<(), NoRoom>
    ensures { OnOk result (text.new.items ≡ text.old.items ++ spec.go_on_line number) }
{
    Object::new(alloc)
        .count("call", number)?
        .text("do", "continue")?
        .append_line(text)
}

// The line of an item for the call of this number, if it has one.
fn push_line(alloc: Global, item: Item, number: u32, text: &mut Vec<u8>) -> Result<(), NoRoom>
    ensures { OnOk result (text.new.items ≡ text.old.items ++ spec.item_line item number) }
{
    let is_even = number % 2 == 0;
    match item {
        Item::Kept if is_even => push_kept(alloc, number, text),
        Item::Kept => Ok(()),
        Item::Load => push_load(alloc, number, text),
        Item::Get => push_get(alloc, number, text),
        Item::WellKnown => push_reply(alloc, "wellknown", number, "", WELL_KNOWN_BODY, text),
        Item::Config => push_reply(alloc, "config", number, "", CONFIG_BODY, text),
        Item::Accounts => push_accounts(alloc, number, text),
        Item::GoOn if is_even => Ok(()),
        Item::GoOn => push_go_on(alloc, number, text),
        Item::Assertion => push_assertion(alloc, number, text),
    }
}

// The lines of an item for the calls from 1 on.
#[tactic(auto, using(crate::proofs::makes::Lines::each_more))]
fn push_item(alloc: Global, item: Item, calls: u32, text: &mut Vec<u8>) -> Result<(), NoRoom>
    ensures { OnOk result (text.new.items ≡ text.old.items ++ spec.item_lines calls item) }
{
    for before in 0..calls {
        push_line(alloc, item, before + 1, text)?;
    }
    Ok(())
}

// The lines of the items, one item after the other.
fn push_items(alloc: Global, items: &[Item], calls: u32, text: &mut Vec<u8>) -> Result<(), NoRoom>
    ensures { OnOk result (text.new.items ≡ text.old.items ++ flat_map (spec.item_lines calls) items.now) }
{
    for item in items {
        push_item(alloc, *item, calls, text)?;
    }
    Ok(())
}

// The text of the script.
fn make_text(alloc: Global, calls: u32) -> Result<Vec<u8>, NoRoom>
    ensures { IfOk result (λ text. text.items ≡ spec.made_text calls) }
{
    let items = [
        Item::Kept,
        Item::Load,
        Item::Get,
        Item::WellKnown,
        Item::Config,
        Item::Accounts,
        Item::GoOn,
        Item::Assertion,
    ];
    let mut text = Vec::new(alloc);
    push_header(alloc, &mut text)?;
    push_items(alloc, &items, calls, &mut text)?;
    Ok(text)
}

/// The script of `make N` for so many calls: its text is written, and read as any script is. Want of memory is the answer
/// also where that text could not be read.
#[tactic(auto, using(crate::proofs::makes::Lines::is_script))]
pub fn make_script(alloc: Global, calls: u32) -> Result<Script, NoRoom>
    requires some { 1 ≤ calls }
    requires most { calls ≤ 20000 }
    ensures { IfOk result (λ script. spec.made_script calls ≡ Ok script) }
{
    let text = make_text(alloc, calls)?;
    if text.len() > LIMIT {
        return Err(NoRoom);
    }
    match read_script(alloc, text.as_slice()) {
        Ok(script) => Ok(script),
        Err(_) => Err(NoRoom),
    }
}
