//! What is found in scripts: bad lines, and members that are read over.
ghost use Rattle.std.specs.Prelude.{◌<◌, length};

use fed_check::Finding;
use fed_script::LineCause;
use std::alloc::{AllocError, Global};
use std::test::Fail;
use tests_callers::scripts::check_both;

// Appends a bad line: its number, and after a `!` the word of its cause with the member that it names.
fn push_bad(
    alloc: Global,
    number: u32,
    cause: LineCause,
    text: &mut String,
) -> Result<(), AllocError> {
    let word = cause.as_str();
    let part = match cause.member() {
        Some(member) => format!(in alloc; "{number} !{word}.{}\n", member.as_str())?,
        None => format!(in alloc; "{number} !{word}\n")?,
    };
    text.push_str(part.as_str())
}

// Appends what is found, each on a line of its own.
fn push_found(alloc: Global, found: &[Finding], text: &mut String) -> Result<(), AllocError> {
    for one in found {
        match one {
            Finding::Bad(number, cause) => push_bad(alloc, *number, *cause, text)?,
            Finding::Unread(number, name) => {
                let part = format!(in alloc; "{number} {}\n", name.as_str())?;
                text.push_str(part.as_str())?;
            }
        }
    }
    Ok(())
}

// What is found in a script that is cut at this place.
fn found_in(alloc: Global, script: &[u8], place: usize) -> Option<String>
    requires { length script.now < 20000 }
{
    let (first, second) = script.split_at(place.min(script.len()));
    let (head, further, last) = check_both(alloc, first, second).ok()?;
    let mut text = String::new(alloc);
    push_found(alloc, head.as_slice(), &mut text).ok()?;
    push_found(alloc, further.as_slice(), &mut text).ok()?;
    push_found(alloc, last.as_slice(), &mut text).ok()?;
    Some(text)
}

// The lines of rows, each after the bar of its row, under a good header.
fn script_of(alloc: Global, rows: &str) -> Result<String, Fail> {
    let mut script = String::new(alloc);
    for row in rows.split('\n') {
        let (_, line) = row.split_once(" | ").ok_or("a row")?;
        script.push_str(line)?;
        script.push_str("\n")?;
    }
    Ok(script)
}

// What the rows say that is found, each word before the bar at the line of its row.
fn expected(alloc: Global, rows: &str) -> Result<String, Fail> {
    let mut text = String::new(alloc);
    let mut number: u32 = 0;
    for row in rows.split('\n') {
        number = number.saturating_add(1);
        let (words, _) = row.split_once(" | ").ok_or("a row")?;
        for word in words.split(' ') {
            if word != "-" {
                let part = format!(in alloc; "{number} ")?;
                text.push_str(part.as_str())?;
                text.push_str(word)?;
                text.push_str("\n")?;
            }
        }
    }
    Ok(text)
}

// Whether this is found in a script, whole and wherever a piece of it ends, at every so many bytes.
fn finds(alloc: Global, script: &[u8], wanted: &str, step: usize) -> bool
    requires few { length script.now < 20000 }
    requires step { (0 < step) × (step < 20000) }
{
    let mut place = 0;
    while place <= script.len() {
        if !is_text(found_in(alloc, script, place), wanted) {
            return false;
        }
        place += step;
    }
    true
}

fn is_text(text: Option<String>, wanted: &str) -> bool {
    match text {
        Some(text) => text.as_str() == wanted,
        None => false,
    }
}

// Whether what the rows say is found.
fn all_found(alloc: Global, rows: &str) -> Result<bool, Fail> {
    let script = script_of(alloc, rows)?;
    let wanted = expected(alloc, rows)?;
    let bytes = script.as_str().as_bytes();
    if bytes.len() >= 20_000 {
        return Ok(false);
    }
    Ok(finds(alloc, bytes, wanted.as_str(), 37))
}

// Tables stand in functions of their own, so that the proofs of the tests do not go through them.
fn each_kind() -> &'static str {
    r#"now2 | {"fedcm":1,"now":5,"rules":"","now2":6}
x | {"do":"have","what":"login","origin":"https://idp.example","status":"logged-in","x":1}
account | {"do":"have","what":"silent","origin":"https://rp.example","account":"a"}
url | {"do":"have","what":"kept","page":"https://rp.example","provider":"https://idp.example","account":"a","url":"b"}
path | {"do":"have","what":"cookie","url":"https://idp.example","text":"a=b","raw":null,"path":"/"}
page | {"do":"at","time":6,"page":1}
status | {"do":"load","page":1,"url":"https://rp.example/","status":"logged-in"}
mediaton loginHint client | {"do":"get","page":1,"mediaton":"silent","call":1,"providers":[{"config":"https://idp.example/f","loginHint":"x","client":"c"}],"client":"d"}
- | {"do":"get","page":1,"call":2,"mediation":"required","mode":"active","activation":true,"context":"use","providers":[{"config":"https://idp.example/f","client":"c","nonce":"n","login_hint":"l","domain_hint":"d","params":"p"}]}
provider id | {"do":"get","page":1,"call":3,"providers":[{"config":"https://idp.example/f","client":"c"},{"config":"https://b.example/f","client":"c","provider":0},{"config":"https://c.example/f","client":"c","id":{"nonce":1}}]}
url | {"do":"closepage","page":1,"url":"https://rp.example/"}
page | {"do":"abort","call":1,"page":1}
provider | {"do":"continue","call":1,"provider":0}
account | {"do":"cancel","call":1,"account":"a"}
provider | {"do":"signin","call":1,"provider":0}
page | {"do":"shutwindow","call":1,"page":1}
account | {"do":"reply","call":1,"to":"config","provider":0,"raw":"","account":"a"}
to | {"do":"choose","call":1,"account":"a","provider":0,"to":"config"}
status | {"do":"idpclose","page":1,"status":"logged-out"}
call | {"do":"prevent","page":1,"call":1}
origin | {"do":"setstatus","page":1,"status":"logged-out","origin":"https://idp.example"}
account | {"do":"disconnect","page":1,"call":4,"config":"https://idp.example/f","client":"c","hint":"h","account":"a"}"#
}

#[test]
fn each_kind_reads_its_members(rt: HostRuntime) -> Result<(), Fail> {
    assert!(rt; all_found(rt.alloc(), each_kind())?);
    Ok(())
}

// A bad line uses nothing: neither its call's number nor its time, nor is it an event after which a `have` is late.
fn each_cause() -> &'static str {
    r#"- | {"fedcm":1,"now":5,"rules":""}
!not-json | {"do":"abort","call":1
!no-kind | {"do":"chose","call":1,"x":2}
!no-kind | {"call":1}
!no-kind | []
- | 
!member.url | {"do":"load","page":1,"y":1}
!member.page | {"do":"load","page":"1","url":"https://rp.example/"}
!bad-url | {"do":"load","page":1,"url":"rp.example"}
!member.config | {"do":"get","page":1,"call":1,"providers":[{"configURL":"https://idp.example/f","client":"c"}]}
- | {"do":"have","what":"silent","origin":"https://rp.example"}
!time-back | {"do":"at","time":4}
- | {"do":"load","page":1,"url":"https://rp.example/"}
!have-late | {"do":"have","what":"silent","origin":"https://rp.example"}
- | {"do":"get","page":1,"call":1,"providers":[{"config":"https://idp.example/f","client":"c"}]}
!call-twice | {"do":"disconnect","page":1,"call":1,"config":"https://idp.example/f","client":"c","hint":"h","x":1}
!member.providers | {"do":"get","page":1,"call":2,"providers":[]}
- | {"do":"get","page":1,"call":2,"providers":[{"config":"https://idp.example/f","client":"c"}]}
!not-json | not json
z z | {"z":1,"do":"abort","call":1,"z":2}
- | {"do":"abort","do":"cancel","call":1,"call":2}"#
}

#[test]
fn each_bad_line_is_found(rt: HostRuntime) -> Result<(), Fail> {
    assert!(rt; all_found(rt.alloc(), each_cause())?);
    Ok(())
}

// The same name in each place where it is unread, and values that are no list of providers.
fn each_place() -> &'static str {
    r#"do call | {"do":"x","fedcm":1,"call":{"do":1},"now":5,"rules":""}
n n n | {"do":"get","n":[{"n":1}],"page":1,"call":1,"providers":[{"n":1,"config":"https://idp.example/f","client":"c"},{"config":"https://b.example/f","n":{},"client":"c"}]}
a b b | {"do":"get","page":1,"call":2,"providers":7,"providers":[7,{"a":1}],"providers":[{"config":"https://idp.example/f","client":"c","b":1,"b":2}]}
providers | {"do":"abort","call":1,"providers":[{"config":"https://idp.example/f"}]}
ü | {"do":"abort","call":1,"\u00fc":1}
a"b | {"do":"abort","call":1,"a\"b":1}"#
}

#[test]
fn each_place_is_looked_at(rt: HostRuntime) -> Result<(), Fail> {
    assert!(rt; all_found(rt.alloc(), each_place())?);
    Ok(())
}

// After a bad header no line is judged.
fn bad_headers() -> &'static str {
    r#"!member.fedcm | {"fedcm":2,"now":5,"rules":"","x":1}
- | {"do":"chose"}
- | not json
- | {"do":"abort","call":1,"x":2}"#
}

#[test]
fn a_bad_header_ends_the_check(rt: HostRuntime) -> Result<(), Fail> {
    assert!(rt; all_found(rt.alloc(), bad_headers())?);
    Ok(())
}

#[test]
fn a_script_without_a_line_is_found(rt: HostRuntime) -> Result<(), Fail> {
    assert!(rt; finds(rt.alloc(), b"", "1 !not-json\n", 1));
    assert!(rt; finds(rt.alloc(), b"\n", "1 !not-json\n", 1));
    Ok(())
}

#[test]
fn a_last_line_without_its_end_is_checked(rt: HostRuntime) -> Result<(), Fail> {
    let script = r#"{"fedcm":1,"now":5,"rules":""}
{"do":"abort","call":1,"x":1}"#;
    assert!(rt; finds(rt.alloc(), script.as_bytes(), "2 x\n", 1));
    Ok(())
}
