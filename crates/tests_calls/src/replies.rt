//! Replies that tests of both kinds of calls share.
use fed_consent::Input;
use fed_io::{Bytes, NoRoom};
use fed_origin::ReplyKind;
use std::alloc::Global;

pub const OK: &str = "HTTP/1.1 200 OK\r\nContent-Type: application/json\r\n\r\n";

// The page may read it.
pub const SHARED: &str = concat!(
    "HTTP/1.1 200 OK\r\nContent-Type: application/json\r\n",
    "Access-Control-Allow-Origin: https://rp.example\r\nAccess-Control-Allow-Credentials: true\r\n\r\n",
);

pub const LOST: &str = "HTTP/1.1 404 Not Found\r\nContent-Type: application/json\r\n\r\n{}";

pub const FILE: &str = "{\"provider_urls\":[\"https://accounts.idp.example/fedcm.json\"]}";

// A file that names the endpoints, with which the configuration agrees.
pub const DIRECT: &str =
    r#"{"accounts_endpoint":"https://accounts.idp.example/accounts","login_url":"https://accounts.idp.example/login"}"#;

// One with which it does not agree: the first text stands for a URL of the site's own host.
pub const DIRECT_ELSEWHERE: &str =
    r#"{"accounts_endpoint":"/accounts","login_url":"https://accounts.idp.example/login"}"#;

pub const TWO_FILE: &str = "{\"provider_urls\":[\"https://login.two.example/fedcm.json\"]}";

pub const MEMBERS: &str =
    "{\"accounts_endpoint\":\"/accounts\",\"id_assertion_endpoint\":\"/assert\",\"login_url\":\"/login\"}";

pub const DENIED: &str = "{\"error\":{\"code\":\"access_denied\"}}";

pub fn reply(
    alloc: Global,
    provider: u32,
    kind: ReplyKind,
    head: &str,
    body: &str,
) -> Result<Input, NoRoom> {
    let text = format!(in alloc; "{head}{body}")?;
    let raw = Bytes::of(alloc, text.as_bytes())?;
    Ok(Input::Reply {
        provider,
        kind,
        raw,
    })
}
