//! Scripts and transcripts of tests as rows, and the lines that they share.
//!
//! Rows stand in blocks, with an empty row between two of them. A block is a name and the line that it stands for; or a scenario: a title
//! after `# `, the lines of a script, a row of `= ` and the status that it ends with, and its transcript. A row is a line, or the name
//! of one and what stands for each `#` in it. Where a row ends in a backslash, its line goes on in the next, or has no line feed.
use fed_io::NoRoom;
use std::alloc::Global;

// Lines of scripts, and then of transcripts.
fn shared() -> &'static str {
    r##"HEADER
{"fedcm":1,"now":1700000000,"rules":""}

LOAD
{"do":"load","page":#,"url":"#"}

GET
{"do":"get","page":#,"call":#,"providers":[{"config":"https://accounts.idp.example/fedcm.json","client":"c1","nonce":"n1"}]}

WELL_KNOWN_REPLY
{"do":"reply","call":#,"to":"wellknown","text":"HTTP/1.1 200 OK\r\nContent-Type: application/json\r\n\r\n\
{\"provider_urls\":[\"https://accounts.idp.example/fedcm.json\"]}"}

CONFIG_REPLY
{"do":"reply","call":#,"to":"config","text":"HTTP/1.1 200 OK\r\nContent-Type: application/json\r\n\r\n\
{\"accounts_endpoint\":\"/accounts\",\"id_assertion_endpoint\":\"/assert\",\"login_url\":\"/login\",\
\"client_metadata_endpoint\":\"/client\",\"disconnect_endpoint\":\"/bye\"}"}

ACCOUNTS_REPLY
{"do":"reply","call":#,"to":"accounts","text":"HTTP/1.1 200 OK\r\nContent-Type: application/json\r\n\r\n\
{\"accounts\":[{\"id\":\"u1\",\"name\":\"Ann\",\"email\":\"ann@idp.example\"}]}"}

TWO_ACCOUNTS
{"do":"reply","call":1,"to":"accounts","text":"HTTP/1.1 200 OK\r\nContent-Type: application/json\r\n\r\n\
{\"accounts\":[{\"id\":\"u1\",\"name\":\"Ann\",\"email\":\"ann@idp.example\"},\
{\"id\":\"u2\",\"name\":\"Bob\",\"email\":\"bob@idp.example\"}]}"}

LOST_ACCOUNTS
{"do":"reply","call":#,"to":"accounts","text":"HTTP/1.1 404 Not Found\r\nContent-Type: application/json\r\n\r\n{}"}

METADATA_REPLY
{"do":"reply","call":#,"to":"metadata","text":"HTTP/1.1 200 OK\r\nContent-Type: application/json\r\n\r\n\
{\"privacy_policy_url\":\"https://rp.example/privacy\"}"}

LOGIN
{"do":"have","what":"login","origin":"https://accounts.idp.example","status":"#"}

WELL_KNOWN_REQUEST
{"call":#,"kind":"wellknown","line":#,"out":"request","provider":0,"text":"GET /.well-known/web-identity HTTP/1.1\r\n\
Host: idp.example\r\nAccept: application/json\r\nSec-Fetch-Dest: webidentity\r\n\r\n"}

CONFIG_REQUEST
{"call":#,"kind":"config","line":#,"out":"request","provider":0,"text":"GET /fedcm.json HTTP/1.1\r\n\
Host: accounts.idp.example\r\nAccept: application/json\r\nSec-Fetch-Dest: webidentity\r\n\r\n"}

ACCOUNTS_REQUEST
{"call":#,"kind":"accounts","line":#,"out":"request","provider":0,"text":"GET /accounts HTTP/1.1\r\n\
Host: accounts.idp.example\r\nAccept: application/json\r\nSec-Fetch-Dest: webidentity\r\n\r\n"}

METADATA_REQUEST
{"call":1,"kind":"metadata","line":#,"out":"request","provider":0,"text":"GET /client?client_id=c1 HTTP/1.1\r\n\
Host: accounts.idp.example\r\nAccept: application/json\r\nSec-Fetch-Dest: webidentity\r\n\
Origin: https://rp.example\r\n\r\n"}

ASSERTION_REQUEST
{"call":1,"kind":"assertion","line":#,"out":"request","provider":0,"text":"POST /assert HTTP/1.1\r\n\
Host: accounts.idp.example\r\nAccept: application/json\r\nSec-Fetch-Dest: webidentity\r\n\
Origin: https://rp.example\r\nContent-Type: application/x-www-form-urlencoded\r\nContent-Length: 85\r\n\r\n\
client_id=c1&nonce=n1&account_id=#&disclosure_text_shown=#&is_auto_selected=#"}

MISMATCH
{"call":1,"detail":"status","dialog":"mismatch","line":#,"out":"dialog","provider":0,"site":"rp.example",\
"step":"accounts-reply"}

FAILED
{"call":#,"line":#,"out":"result","page":#,"see":"NetworkError","step":"#"}

IGNORED
{"line":#,"out":"ignored","why":"#"}

BAD
{"cause":"#","line":#,"out":"bad"}

END
{"events":#,"out":"end"}"##
}

/// The rows of the block of this name or title.
pub fn block<'a>(blocks: &'a str, name: &str) -> Option<&'a str> {
    for block in blocks.split("\n\n") {
        match block.split_once('\n') {
            Some((first, rows)) if first == name => return Some(rows),
            _ => {}
        }
    }
    None
}

// Puts what stands in one row or in several.
fn push_piece(piece: &str, text: &mut String) -> Result<(), NoRoom> {
    for part in piece.split("\\\n") {
        text.push_str(part)?;
    }
    Ok(())
}

// Puts a named line, with these words for its marks.
fn push_named(line: &str, words: &str, text: &mut String) -> Result<(), NoRoom> {
    let mut words = words.split(' ');
    let (first, rest) = line.split_once('#').unwrap_or((line, ""));
    push_piece(first, text)?;
    for piece in rest.split('#') {
        text.push_str(words.next().unwrap_or(""))?;
        push_piece(piece, text)?;
    }
    text.push_str("\n")?;
    Ok(())
}

// Puts a row as it stands.
fn push_plain(row: &str, text: &mut String) -> Result<(), NoRoom> {
    match row.strip_suffix('\\') {
        Some(front) => text.push_str(front)?,
        None => {
            text.push_str(row)?;
            text.push_str("\n")?;
        }
    }
    Ok(())
}

// Puts a row, by its name among these or those that are shared, if it has one.
fn push_row(names: &str, row: &str, text: &mut String) -> Result<(), NoRoom> {
    let (name, words) = row.split_once(' ').unwrap_or((row, ""));
    match block(names, name).or(block(shared(), name)) {
        Some(line) => push_named(line, words, text),
        None => push_plain(row, text),
    }
}

/// The text of these rows.
pub fn told(alloc: Global, names: &str, rows: &str) -> Result<String, NoRoom> {
    let mut text = String::new(alloc);
    for row in rows.split_terminator('\n') {
        push_row(names, row, &mut text)?;
    }
    Ok(text)
}
