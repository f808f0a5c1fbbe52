//! Made scripts and their summaries.
use crate::lines::{block, told};
use crate::runs::{QUIET, gives, ran};
use fed_io::NoRoom;
use fed_run::{Status, make_script};
use std::alloc::Global;
use std::test::Fail;

// The number over these bytes.
fn mix(bytes: &[u8]) -> u32 {
    let mut mix: u32 = 0;
    for byte in bytes {
        mix = mix.wrapping_mul(31).wrapping_add(u32::from(*byte));
    }
    mix
}

// The script of `make 3`, written out below lines of its own (lines.rt).
fn blocks() -> &'static str {
    r##"GET_BY
{"do":"get","page":#,"call":#,"providers":[{"config":"https://accounts.idp.example/fedcm.json","client":"#"}]}

SHORT_CONFIG_REPLY
{"do":"reply","call":#,"to":"config","text":"HTTP/1.1 200 OK\r\nContent-Type: application/json\r\n\r\n\
{\"accounts_endpoint\":\"/accounts\",\"id_assertion_endpoint\":\"/assert\",\"login_url\":\"/login\"}"}

ONE_ACCOUNT
{"do":"reply","call":#,"to":"accounts","text":"HTTP/1.1 200 OK\r\nContent-Type: application/json\r\n\r\n\
{\"accounts\":[{\"id\":\"#\",\"name\":\"U\",\"email\":\"u@idp.example\"}]}"}

TOKEN
{"do":"reply","call":#,"to":"assertion","text":"HTTP/1.1 200 OK\r\nContent-Type: application/json\r\n\
Access-Control-Allow-Origin: #\r\nAccess-Control-Allow-Credentials: true\r\n\r\n{\"token\":\"#\"}"}

# The script of three calls
{"fedcm":1,"now":0,"rules":""}
{"do":"have","what":"kept","page":"https://rp2.example","provider":"https://accounts.idp.example","account":"u2"}
LOAD 1 https://rp1.example/
LOAD 2 https://rp2.example/
LOAD 3 https://rp3.example/
GET_BY 1 1 c1
GET_BY 2 2 c2
GET_BY 3 3 c3
WELL_KNOWN_REPLY 1
WELL_KNOWN_REPLY 2
WELL_KNOWN_REPLY 3
SHORT_CONFIG_REPLY 1
SHORT_CONFIG_REPLY 2
SHORT_CONFIG_REPLY 3
ONE_ACCOUNT 1 u1
ONE_ACCOUNT 2 u2
ONE_ACCOUNT 3 u3
{"do":"continue","call":1}
{"do":"continue","call":3}
TOKEN 1 https://rp1.example t1
TOKEN 2 https://rp2.example t2
TOKEN 3 https://rp3.example t3"##
}

/// The script of `make 3`.
pub fn script_of_three(alloc: Global) -> Result<String, NoRoom> {
    let rows = block(blocks(), "# The script of three calls").unwrap_or("");
    told(alloc, blocks(), rows)
}

// The number over the records of a run that is done with 21 events.
fn mix_of(alloc: Global, script: &str) -> Result<Option<u32>, NoRoom> {
    let (status, text) = ran(alloc, "run", script, QUIET)?;
    let end = b"{\"events\":21,\"out\":\"end\"}\n";
    match text.as_slice().strip_suffix(end) {
        Some(records) if status == Status::Done => Ok(Some(mix(records))),
        _ => Ok(None),
    }
}

// The words of the command line, and the summary that they give.
fn summaries() -> &'static str {
    r#"make|1 {"calls":1,"dialogs":1,"events":7,"ignored":0,"mix":3141626640,"out":"summary","requests":4,"tokens":1}
make|3 {"calls":3,"dialogs":2,"events":21,"ignored":0,"mix":509568392,"out":"summary","requests":12,"tokens":3}"#
}

// The like of many calls.
fn large_summaries() -> &'static str {
    r#"make|10000 {"calls":10000,"dialogs":5000,"events":70000,"ignored":0,"mix":177279607,"out":"summary","requests":40000,"tokens":10000}
make|20000 {"calls":20000,"dialogs":10000,"events":140000,"ignored":0,"mix":3392478981,"out":"summary","requests":80000,"tokens":20000}"#
}

// The first words that give another summary, or "".
fn first_other<'a>(alloc: Global, rows: &'a str) -> Result<&'a str, Fail> {
    for row in rows.split('\n') {
        let (words, line) = row.split_once(' ').unwrap_or((row, ""));
        let summary = format!(in alloc; "{line}\n")?;
        if !gives(alloc, words, "", "done", summary.as_str())? {
            return Ok(words);
        }
    }
    Ok("")
}

#[test]
fn calls_are_made(rt: HostRuntime) -> Result<(), Fail> {
    assert_eq!(rt; first_other(rt.alloc(), summaries())?, "");
    Ok(())
}

#[test]
fn many_calls_are_made(rt: HostRuntime) -> Result<(), Fail> {
    assert_eq!(rt; first_other(rt.alloc(), large_summaries())?, "");
    Ok(())
}

// The same script as lines: the number over the records before the end.
#[test]
fn run_writes_the_records_that_make_counts(rt: HostRuntime) -> Result<(), Fail> {
    let script = script_of_three(rt.alloc())?;
    assert_eq!(rt; mix_of(rt.alloc(), script.as_str())?, Some(509568392));
    Ok(())
}

// The events are on the lines from the second on.
#[test]
fn events_stand_from_the_second_line_on(rt: HostRuntime) -> Result<(), Fail> {
    let script = make_script(rt.alloc(), 20)?;
    assert_eq!(rt; script.events().len(), 140);
    let mut line: u32 = 2;
    for numbered in script.events() {
        assert_eq!(rt; numbered.line, line);
        line = line.wrapping_add(1);
    }
    Ok(())
}
