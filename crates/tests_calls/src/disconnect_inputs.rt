//! Inputs of the disconnect calls in tests, each named by a word.
use crate::replies::{DENIED, DIRECT, DIRECT_ELSEWHERE, FILE, LOST, MEMBERS, OK, SHARED, reply};
use fed_consent::Input;
use fed_io::{Items, NoRoom};
use fed_origin::ReplyKind;
use std::alloc::Global;

const SHARED_LOST: &str = concat!(
    "HTTP/1.1 404 Not Found\r\nContent-Type: application/json\r\n",
    "Access-Control-Allow-Origin: https://rp.example\r\nAccess-Control-Allow-Credentials: true\r\n\r\n{}",
);

const WITH_DISCONNECT: &str = concat!(
    "{\"accounts_endpoint\":\"/accounts\",\"id_assertion_endpoint\":\"/assert\",\"login_url\":\"/login\",",
    "\"disconnect_endpoint\":\"/disconnect\"}",
);

// The kind, the head and the body of the first reply that a word names; any other word is a well-known reply with no file.
fn first(word: &str) -> (ReplyKind, &'static str, &'static str) {
    match word {
        "wellknown" => (ReplyKind::WellKnown, OK, FILE),
        "direct" => (ReplyKind::WellKnown, OK, DIRECT),
        "elsewhere" => (ReplyKind::WellKnown, OK, DIRECT_ELSEWHERE),
        "lost" => (ReplyKind::WellKnown, LOST, ""),
        "config" => (ReplyKind::Config, OK, WITH_DISCONNECT),
        "plain" => (ReplyKind::Config, OK, MEMBERS),
        "broken" => (ReplyKind::Config, OK, "{}"),
        "accounts" => (ReplyKind::Accounts, OK, "{\"accounts\":[]}"),
        _ => (ReplyKind::WellKnown, OK, "{}"),
    }
}

// The head and the body of the disconnect reply that a word names.
fn last(word: &str) -> Option<(&'static str, &'static str)> {
    match word {
        "u1" => Some((SHARED, "{\"account_id\":\"u1\"}")),
        "u2" => Some((SHARED, "{\"account_id\":\"u2\"}")),
        "unshared" => Some((OK, "{\"account_id\":\"u1\"}")),
        "refused" => Some((SHARED_LOST, "")),
        "denied" => Some((SHARED, DENIED)),
        "silence" => Some(("", "")),
        _ => None,
    }
}

fn reply_named(alloc: Global, word: &str) -> Result<Input, NoRoom> {
    match last(word) {
        Some((head, body)) => reply(alloc, 0, ReplyKind::Disconnect, head, body),
        None => {
            let (kind, head, body) = first(word);
            reply(alloc, 0, kind, head, body)
        }
    }
}

// The input that a word of a test names.
fn input(alloc: Global, word: &str) -> Result<Input, NoRoom> {
    match word {
        "abort" => Ok(Input::Abort),
        "cancel" => Ok(Input::Cancel),
        "wellknown-elsewhere" => reply(alloc, 1, ReplyKind::WellKnown, OK, FILE),
        "u1-elsewhere" => reply(
            alloc,
            1,
            ReplyKind::Disconnect,
            SHARED,
            "{\"account_id\":\"u1\"}",
        ),
        word => reply_named(alloc, word),
    }
}

// The inputs that these words name.
pub fn inputs(alloc: Global, words: &str) -> Result<Items<Input>, NoRoom> {
    let mut inputs = Items::new(alloc);
    for word in words.split(' ') {
        inputs.push(input(alloc, word)?)?;
    }
    Ok(inputs)
}
