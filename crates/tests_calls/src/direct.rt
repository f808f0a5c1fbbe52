//! Calls with providers whose well-known files name the endpoints: the configuration agrees with the file, or it does not.
use crate::browser::Browser;
use crate::several_words::{follow, follow_one, read_all};
use std::test::Fail;

// A line: the inputs of a call with one provider, what it does at the last of them, and its stage then. A word that names no input is the
// body of a well-known file.
const AGREE: &str = r#"direct | - | reading
direct config | idp@0 accounts | listing
config direct | idp@0 accounts | listing
direct config ann | idp in, prompt u1@0 | prompting
{"accounts_endpoint":"//accounts.idp.example:443/accounts","login_url":"//ACCOUNTS.idp.example/login"} config | idp@0 accounts | listing
config mixed | idp@0 accounts | listing"#;

const DIFFER: &str = r#"moved | - | reading
moved config | fails config-other accounts_endpoint | ended
config moved | fails config-other accounts_endpoint | ended
{"accounts_endpoint":"/accounts","login_url":"/login"} config | fails config-other accounts_endpoint | ended
{"accounts_endpoint":"//accounts.idp.example/accounts","login_url":"/login"} config | fails config-other login_url | ended
config {"accounts_endpoint":"//accounts.idp.example/accounts#a","login_url":"/login"} | fails config-other accounts_endpoint | ended"#;

// A file that names one endpoint alone is one of the other form.
const OTHER_FORM: &str =
    r#"{"login_url":"https://accounts.idp.example/login"} | fails well-known-shape | ended
config {"accounts_endpoint":"https://accounts.idp.example/accounts"} | fails well-known-shape | ended
{"provider_urls":["//accounts.idp.example/fedcm.json"],"login_url":"/login"} config | idp@0 accounts | listing"#;

// A configuration that is refused is not compared, and one file is taken.
const ONCE: &str = "moved broken | fails config-shape | ended
moved direct | not-waited | reading
direct wellknown | not-waited | reading
direct direct config | idp@0 accounts | listing
moved direct config | fails config-other accounts_endpoint | ended
direct config direct | not-waited | listing
moved config direct | call-ended | ended";

// The same of a call with two providers.
const SEVERAL_AGREE: &str = "direct | - | gathering
direct config | idp@0 accounts | gathering
config direct | idp@0 accounts | gathering
direct@1 config@1 | two@1 accounts | gathering
config@1 direct direct@1 | two@1 accounts | gathering
direct@1 wellknown config | idp@0 accounts | gathering
direct config ann direct@1 config@1 ann@1 | two in, choose u1@0 u1@1 | choosing";

const SEVERAL_DIFFER: &str = "moved config | drop@0 config-other accounts_endpoint | gathering
config moved | drop@0 config-other accounts_endpoint | gathering
moved@1 config@1 | drop@1 config-other accounts_endpoint | gathering
config@1 direct moved@1 | drop@1 config-other accounts_endpoint | gathering
moved config ann | not-waited | gathering
moved config direct | not-waited | gathering
moved config moved@1 config@1 | drop@1 config-other accounts_endpoint, fails config-other accounts_endpoint | ended
moved config lost@1 | drop@1 well-known-reply status, fails config-other accounts_endpoint | ended
lost config@1 moved@1 | drop@1 config-other accounts_endpoint, fails well-known-reply status | ended
direct config ann moved@1 config@1 | drop@1 config-other accounts_endpoint, prompt u1@0 | prompting
moved config direct@1 config@1 ann@1 | two in, prompt u1@1 | prompting";

// A line: the providers of a call, its inputs, and which of those at the places 0 to 2 are awaited with their first replies.
const READING: &str = "idp two | direct | idp two -
idp two | moved config | - two -
idp two | direct config | - two -
idp | moved | idp - -
idp | moved config | - - -";

#[test]
fn the_configuration_agrees(rt: HostRuntime) -> Result<(), Fail> {
    let browser = Browser::new(rt.alloc());
    follow_one(&rt, rt.alloc(), &browser, AGREE)?;
    follow(&rt, rt.alloc(), &browser, SEVERAL_AGREE)
}

#[test]
fn the_configuration_differs(rt: HostRuntime) -> Result<(), Fail> {
    let browser = Browser::new(rt.alloc());
    follow_one(&rt, rt.alloc(), &browser, DIFFER)?;
    follow(&rt, rt.alloc(), &browser, SEVERAL_DIFFER)
}

#[test]
fn one_endpoint_alone(rt: HostRuntime) -> Result<(), Fail> {
    let browser = Browser::new(rt.alloc());
    follow_one(&rt, rt.alloc(), &browser, OTHER_FORM)
}

#[test]
fn one_file_is_taken(rt: HostRuntime) -> Result<(), Fail> {
    let browser = Browser::new(rt.alloc());
    follow_one(&rt, rt.alloc(), &browser, ONCE)
}

#[test]
fn who_is_awaited(rt: HostRuntime) -> Result<(), Fail> {
    let browser = Browser::new(rt.alloc());
    read_all(&rt, rt.alloc(), &browser, READING)
}
