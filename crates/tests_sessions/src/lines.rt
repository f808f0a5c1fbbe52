//! Scripts of named lines, and what a session shows after a script.
use fed_io::NoRoom;
use fed_origin::Stage;
use fed_script::{Script, read_script};
use fed_session::View;
use std::alloc::Global;
use std::marker::Brand;
use std::sync::ledger::Blank;
use std::test::Fail;
use tests_callers::sessions::view_after;

const GET: &str = concat!(
    r#"{"do":"get","page":#,"call":#,"#,
    r#""providers":[{"config":"https://accounts.idp.example/fedcm.json","client":"c1","nonce":"n1"}]}"#,
);

const GET_OF_X: &str = concat!(
    r#"{"do":"get","page":1,"call":1,"#,
    r#""providers":[{"config":"https://accounts.idp.example/fedcm.json","client":"x","nonce":"n1"}]}"#,
);

const GET_OF_Y: &str = concat!(
    r#"{"do":"get","page":2,"call":2,"#,
    r#""providers":[{"config":"https://accounts.idp.example/fedcm.json","client":"y","nonce":"n1"}]}"#,
);

const WELL_KNOWN: &str = concat!(
    r#"{"do":"reply","call":#,"to":"wellknown","text":"HTTP/1.1 200 OK\r\nContent-Type: application/json\r\n\r\n"#,
    r#"{\"provider_urls\":[\"https://accounts.idp.example/fedcm.json\"]}"}"#,
);

const CONFIG: &str = concat!(
    r#"{"do":"reply","call":#,"to":"config","text":"HTTP/1.1 200 OK\r\nContent-Type: application/json\r\n\r\n"#,
    r#"{\"accounts_endpoint\":\"/accounts\",\"id_assertion_endpoint\":\"/assert\",\"login_url\":\"/login\","#,
    r#"\"client_metadata_endpoint\":\"/client\",\"disconnect_endpoint\":\"/bye\"}"}"#,
);

const ACCOUNTS: &str = concat!(
    r#"{"do":"reply","call":#,"to":"accounts","text":"HTTP/1.1 200 OK\r\nContent-Type: application/json\r\n\r\n"#,
    r#"{\"accounts\":[{\"id\":\"u1\",\"name\":\"Ann\",\"email\":\"ann@idp.example\"}]}"}"#,
);

const TWO_ACCOUNTS: &str = concat!(
    r#"{"do":"reply","call":#,"to":"accounts","text":"HTTP/1.1 200 OK\r\nContent-Type: application/json\r\n\r\n"#,
    r#"{\"accounts\":[{\"id\":\"u1\",\"name\":\"Ann\",\"email\":\"ann@idp.example\"},"#,
    r#"{\"id\":\"u2\",\"name\":\"Bob\",\"email\":\"bob@idp.example\"}]}"}"#,
);

const METADATA: &str = concat!(
    r#"{"do":"reply","call":#,"to":"metadata","text":"HTTP/1.1 200 OK\r\nContent-Type: application/json\r\n\r\n"#,
    r#"{\"privacy_policy_url\":\"https://rp.example/privacy\"}"}"#,
);

// The reply to the request for the token, to pages of an origin.
const ASSERTION: &str = concat!(
    r#"{"do":"reply","call":1,"to":"assertion","text":"HTTP/1.1 200 OK\r\nContent-Type: application/json\r\n"#,
    r#"Access-Control-Allow-Origin: #\r\nAccess-Control-Allow-Credentials: true\r\n\r\n{\"token\":\"T1\"}"}"#,
);

const ERROR: &str = concat!(
    r#"{"do":"reply","call":1,"to":"assertion","text":"HTTP/1.1 200 OK\r\nContent-Type: application/json\r\n"#,
    r#"Access-Control-Allow-Origin: https://rp.example\r\nAccess-Control-Allow-Credentials: true\r\n\r\n"#,
    r#"{\"error\":{\"code\":\"access_denied\",\"url\":\"https://idp.example/why\"}}"}"#,
);

const KEPT: &str =
    r##"{"do":"have","what":"kept","page":"https://rp.example","provider":"https://accounts.idp.example","account":"#"}"##;

const DISCONNECT: &str =
    r##"{"do":"disconnect","page":1,"call":#,"config":"https://accounts.idp.example/fedcm.json","client":"c1","hint":"u1"}"##;

const DISCONNECTED: &str = concat!(
    r#"{"do":"reply","call":1,"to":"disconnect","text":"HTTP/1.1 200 OK\r\nContent-Type: application/json\r\n"#,
    r#"Access-Control-Allow-Origin: https://rp.example\r\nAccess-Control-Allow-Credentials: true\r\n\r\n"#,
    r##"{\"account_id\":\"#\"}"}"##,
);

// The line of this name.
fn line_named(name: &str) -> &str {
    match name {
        "GET" => GET,
        "GET_OF_X" => GET_OF_X,
        "GET_OF_Y" => GET_OF_Y,
        "WELL_KNOWN" => WELL_KNOWN,
        "CONFIG" => CONFIG,
        "ACCOUNTS" => ACCOUNTS,
        "TWO_ACCOUNTS" => TWO_ACCOUNTS,
        "METADATA" => METADATA,
        "ASSERTION" => ASSERTION,
        "ERROR" => ERROR,
        "KEPT" => KEPT,
        "DISCONNECT" => DISCONNECT,
        "DISCONNECTED" => DISCONNECTED,
        _ => name,
    }
}

// Puts a line with a word for its marks.
fn push_line(line: &str, word: &str, text: &mut String) -> Result<(), NoRoom> {
    let (first, rest) = line.split_once('#').unwrap_or((line, ""));
    text.push_str(first)?;
    if first.len() < line.len() {
        for piece in rest.split('#') {
            text.push_str(word)?;
            text.push_str(piece)?;
        }
    }
    text.push_str("\n")?;
    Ok(())
}

// Puts a row: the name of a line and the word for its marks, or a line as it stands.
fn push_row(row: &str, text: &mut String) -> Result<(), NoRoom> {
    let (name, word) = row.split_once(' ').unwrap_or((row, ""));
    push_line(line_named(name), word, text)
}

/// The script of these rows and of further ones.
pub fn told(alloc: Global, rows: &str, further: &str) -> Result<String, NoRoom> {
    let mut text = String::new(alloc);
    for row in rows.split_terminator('\n') {
        push_row(row, &mut text)?;
    }
    for row in further.split_terminator('\n') {
        push_row(row, &mut text)?;
    }
    Ok(text)
}

/// The script that a text is.
pub fn script_of(alloc: Global, text: &str) -> Result<Script, Fail> {
    let bytes = text.as_bytes();
    if bytes.len() >= 2_147_483_648 {
        return Err(Fail::from("too long"));
    }
    match read_script(alloc, bytes) {
        Ok(script) => Ok(script),
        Err(_) => Err(Fail::from("bad line")),
    }
}

/// What a session shows after a script.
pub fn view_of(alloc: Global, text: &str) -> Result<View, Fail> {
    let script = script_of(alloc, text)?;
    Ok(view_after::<Brand>(alloc, Blank::new(1), &script)?)
}

/// Whether the only pending call is this one, of this page and at this stage.
pub fn has_one_call(view: &View, call: u32, page: u32, stage: Stage) -> bool {
    match view.calls.as_slice() {
        [only] => only.0 == call && only.1 == page && only.2 == stage,
        _ => false,
    }
}
