//! Well-known files that name endpoints, and the configuration beside them.
use crate::provider::{BASE, CONFIG, name, ok};
use crate::steps::parts;
use fed_io::Fault;
use fed_origin::{Endpoint, WebUrl};
use fed_provider::{Config, WellKnown, agrees, read_config, read_wellknown};
use std::alloc::Global;
use std::process::Abort;
use std::test::Fail;

// A line: what the file comes to beside the configuration (it is listed, or agrees, or the endpoint that differs, or the step), and then
// the file. The first five are those that a browser was tried with.
const FILES: &str =
    r#"agrees | {"accounts_endpoint":"https://accounts.idp.example/accounts","login_url":"https://accounts.idp.example/login"}
accounts | {"accounts_endpoint":"/accounts","login_url":"https://accounts.idp.example/login"}
accounts | {"accounts_endpoint":"https://accounts.idp.example/a","login_url":"https://accounts.idp.example/login"}
login | {"accounts_endpoint":"https://accounts.idp.example/accounts","login_url":"https://accounts.idp.example/l"}
well-known shape | {"login_url":"https://accounts.idp.example/login"}
well-known shape | {"accounts_endpoint":"https://accounts.idp.example/accounts"}
accounts | {"accounts_endpoint":"/accounts","login_url":"/login"}
agrees | {"accounts_endpoint":"//accounts.idp.example/accounts","login_url":"//accounts.idp.example:443/x/../login"}
login | {"accounts_endpoint":"//accounts.idp.example/accounts","login_url":"https://accounts.idp.example/login#top"}
accounts | {"accounts_endpoint":"http://accounts.idp.example/accounts","login_url":"https://accounts.idp.example/login"}"#;

// The list beside the two texts, and what is no text.
const BESIDE: &str =
    r#"agrees | {"provider_urls":[],"accounts_endpoint":"//accounts.idp.example/accounts","login_url":"//accounts.idp.example/login"}
agrees | {"accounts_endpoint":"//accounts.idp.example/accounts","provider_urls":7,"login_url":"//accounts.idp.example/login"}
agrees | {"accounts_endpoint":"//accounts.idp.example/accounts","login_url":"//accounts.idp.example/login","provider_urls":["/x","/y"]}
listed | {"provider_urls":["https://accounts.idp.example/fedcm.json"],"login_url":"/other"}
listed | {"provider_urls":["https://accounts.idp.example/fedcm.json"],"accounts_endpoint":"/other"}
listed | {"provider_urls":["https://accounts.idp.example/fedcm.json"],"accounts_endpoint":7,"login_url":"/other"}
listed | {"provider_urls":["https://accounts.idp.example/fedcm.json"],"accounts_endpoint":"/other","login_url":["/other"]}
listed | {"provider_urls":["https://accounts.idp.example/fedcm.json"],"accounts_endpoint":null,"login_url":"/other"}
well-known other | {"provider_urls":["/fedcm.json"],"accounts_endpoint":"//accounts.idp.example/accounts"}
well-known shape | {"accounts_endpoint":{"accounts_endpoint":"//accounts.idp.example/accounts"},"login_url":"//accounts.idp.example/login"}
well-known shape | {"more":{"accounts_endpoint":"//accounts.idp.example/accounts","login_url":"//accounts.idp.example/login"}}
well-known shape | [{"accounts_endpoint":"//accounts.idp.example/accounts","login_url":"//accounts.idp.example/login"}]
well-known shape | "accounts_endpoint""#;

// Texts that give no URL, whatever is listed.
const REFUSED: &str =
    r#"well-known shape | {"accounts_endpoint":"https://","login_url":"https://accounts.idp.example/login"}
well-known shape | {"accounts_endpoint":"https://accounts.idp.example/accounts","login_url":"https://[/"}
well-known shape | {"accounts_endpoint":"ftp://accounts.idp.example/accounts","login_url":"https://accounts.idp.example/login"}
well-known shape | {"provider_urls":["https://accounts.idp.example/fedcm.json"],"accounts_endpoint":"https://","login_url":"/login"}"#;

// Several members of one name: the last counts.
const REPEATED: &str =
    r#"agrees | {"accounts_endpoint":"/a","accounts_endpoint":"//accounts.idp.example/accounts","login_url":"//accounts.idp.example/login"}
accounts | {"accounts_endpoint":"//accounts.idp.example/accounts","accounts_endpoint":"/a","login_url":"//accounts.idp.example/login"}
well-known shape | {"accounts_endpoint":"//accounts.idp.example/accounts","login_url":"//accounts.idp.example/login","login_url":null}
well-known shape | {"accounts_endpoint":"//accounts.idp.example/accounts","login_url":"//accounts.idp.example/login","accounts_endpoint":1}
listed | {"accounts_endpoint":"/a","login_url":"/l","login_url":1,"provider_urls":["https://accounts.idp.example/fedcm.json"]}
well-known reply | {"accounts_endpoint":"//accounts.idp.example/accounts","login_url":"//accounts.idp.example/login",}"#;

const MEMBERS: &str =
    r#"{"accounts_endpoint":"/accounts","id_assertion_endpoint":"/assert","login_url":"/login"}"#;

// What a file comes to beside the configuration.
fn word(file: &WellKnown, config: &Config) -> &'static str {
    match agrees(file, config) {
        Some(Endpoint::Accounts) => "accounts",
        Some(Endpoint::Login) => "login",
        Some(_) => "else",
        None => match file {
            WellKnown::Listed => "listed",
            WellKnown::Direct { .. } => "agrees",
        },
    }
}

// The file of a line is what the line says, and a copy is so too.
fn assert_line<R: Abort>(rt: &R, alloc: Global, line: &str) -> Result<(), Fail> {
    let (wanted, body) = parts(line)?;
    let base = WebUrl::read(alloc, BASE)?;
    let url = WebUrl::read(alloc, CONFIG)?;
    let members = ok(alloc, MEMBERS)?;
    let config = read_config(alloc, members.as_bytes(), &url)?;
    let raw = ok(alloc, body)?;
    let found = match read_wellknown(alloc, raw.as_bytes(), &base, &url) {
        Ok(file) => word(&file.copy(alloc)?, &config),
        Err(Fault::Step(step)) => name(step),
        Err(Fault::NoRoom) => "no room",
    };
    assert!(rt; found == wanted, "at {line}: {found}");
    Ok(())
}

fn assert_lines<R: Abort>(rt: &R, alloc: Global, lines: &str) -> Result<(), Fail> {
    for line in lines.split('\n') {
        assert_line(rt, alloc, line)?;
    }
    Ok(())
}

#[test]
fn files_that_name_endpoints(rt: HostRuntime) -> Result<(), Fail> {
    assert_lines(&rt, rt.alloc(), FILES)
}

#[test]
fn the_list_beside_them(rt: HostRuntime) -> Result<(), Fail> {
    assert_lines(&rt, rt.alloc(), BESIDE)
}

#[test]
fn texts_that_give_no_url(rt: HostRuntime) -> Result<(), Fail> {
    assert_lines(&rt, rt.alloc(), REFUSED)
}

#[test]
fn several_of_one_name(rt: HostRuntime) -> Result<(), Fail> {
    assert_lines(&rt, rt.alloc(), REPEATED)
}
