//! Inputs of the calls in tests, each named by a word. A word with `@1` is of the provider at place 1, and one with no place of that at
//! place 0.
use crate::replies::{DENIED, FILE, LOST, MEMBERS, OK, SHARED, TWO_FILE, reply};
use crate::values::place_of;
use fed_consent::Input;
use fed_io::{Items, NoRoom, Text};
use fed_origin::ReplyKind;
use std::alloc::Global;

const LINKED: &str = concat!(
    "{\"accounts_endpoint\":\"/accounts\",\"id_assertion_endpoint\":\"/assert\",\"login_url\":\"/login\",",
    "\"client_metadata_endpoint\":\"/client\"}",
);

const ANN: &str = "{\"accounts\":[{\"id\":\"u1\",\"name\":\"Ann\",\"email\":\"ann@idp.example\"}]}";

const APPROVED: &str =
    "{\"accounts\":[{\"id\":\"u1\",\"name\":\"Ann\",\"email\":\"ann@idp.example\",\"approved_clients\":[\"c1\"]}]}";

const BOTH: &str = concat!(
    "{\"accounts\":[{\"id\":\"u1\",\"name\":\"Ann\",\"email\":\"ann@idp.example\",\"approved_clients\":[\"c1\"]},",
    "{\"id\":\"u2\",\"name\":\"Bob\",\"email\":\"bob@idp.example\"}]}",
);

const DIRECT: &str = concat!(
    "{\"accounts_endpoint\":\"https://accounts.idp.example/accounts\",",
    "\"login_url\":\"https://accounts.idp.example/login\"}",
);

const TWO_DIRECT: &str = concat!(
    "{\"accounts_endpoint\":\"https://login.two.example/accounts\",",
    "\"login_url\":\"https://login.two.example/login\"}",
);

// It has the other form's member too, of a wrong kind, and names its endpoints last.
const MIXED: &str = concat!(
    "{\"provider_urls\":5,\"login_url\":\"//accounts.idp.example/login\",",
    "\"accounts_endpoint\":\"//accounts.idp.example/accounts\"}",
);

// Its accounts endpoint is at the site's own host.
const MOVED: &str =
    "{\"accounts_endpoint\":\"/accounts\",\"login_url\":\"https://accounts.idp.example/login\"}";

const LINKS: &str = "{\"privacy_policy_url\":\"https://rp.example/privacy\"}";

fn choice(alloc: Global, provider: u32, id: &str) -> Result<Input, NoRoom> {
    let account = Text::of(alloc, id)?;
    Ok(Input::Choose { provider, account })
}

// The well-known file of the provider at this place, which lists its configuration URL.
fn file_of(place: u32) -> &'static str {
    if place == 1 { TWO_FILE } else { FILE }
}

// The one of it which names the endpoints that its configuration names.
fn direct_file_of(place: u32) -> &'static str {
    if place == 1 { TWO_DIRECT } else { DIRECT }
}

// The kind, the head and the body of the reply that a word names; any other word is the body of a good well-known reply.
fn named(word: &str) -> (ReplyKind, &'static str, &str) {
    match word {
        "lost" => (ReplyKind::WellKnown, LOST, ""),
        "mixed" => (ReplyKind::WellKnown, OK, MIXED),
        "moved" => (ReplyKind::WellKnown, OK, MOVED),
        "config" => (ReplyKind::Config, OK, MEMBERS),
        "linked" => (ReplyKind::Config, OK, LINKED),
        "broken" => (ReplyKind::Config, OK, "{}"),
        "links" => (ReplyKind::Metadata, OK, LINKS),
        "token" => (ReplyKind::Assertion, SHARED, "{\"token\":\"T1\"}"),
        "unshared" => (ReplyKind::Assertion, OK, "{\"token\":\"T1\"}"),
        "denied" => (ReplyKind::Assertion, SHARED, DENIED),
        body => (ReplyKind::WellKnown, OK, body),
    }
}

// The head and the body of the accounts reply that a word names.
fn accounts(word: &str) -> Option<(&'static str, &'static str)> {
    match word {
        "accounts" => Some((OK, "{}")),
        "empty" => Some((OK, "{\"accounts\":[]}")),
        "gone" => Some((LOST, "")),
        "ann" => Some((OK, ANN)),
        "approved" => Some((OK, APPROVED)),
        "both" => Some((OK, BOTH)),
        _ => None,
    }
}

fn reply_named(alloc: Global, place: u32, word: &str) -> Result<Input, NoRoom> {
    if word == "wellknown" {
        return reply(alloc, place, ReplyKind::WellKnown, OK, file_of(place));
    }
    if word == "direct" {
        return reply(
            alloc,
            place,
            ReplyKind::WellKnown,
            OK,
            direct_file_of(place),
        );
    }
    match accounts(word) {
        Some((head, body)) => reply(alloc, place, ReplyKind::Accounts, head, body),
        None => {
            let (kind, head, body) = named(word);
            reply(alloc, place, kind, head, body)
        }
    }
}

// A word, and the place of the provider that it is of.
fn placed(word: &str) -> (&str, u32) {
    match word.split_once('@') {
        Some((word, place)) => (word, place_of(place)),
        None => (word, 0),
    }
}

// The input that a word of a test names.
fn input(alloc: Global, word: &str) -> Result<Input, NoRoom> {
    let (word, place) = placed(word);
    match word {
        "go" => Ok(Input::GoOn),
        "cancel" => Ok(Input::Cancel),
        "signin" => Ok(Input::SignIn),
        "shut" => Ok(Input::Shut),
        "resume" => Ok(Input::Resume),
        "abort" => Ok(Input::Abort),
        "u1" | "u2" | "u3" => choice(alloc, place, word),
        word => reply_named(alloc, place, word),
    }
}

// The inputs that these words name.
pub fn inputs(alloc: Global, words: &str) -> Result<Items<Input>, NoRoom> {
    let mut inputs = Items::new(alloc);
    for word in words.split(' ') {
        inputs.push(input(alloc, word)?)?;
    }
    Ok(inputs)
}
