use fed_io::Fault;
use fed_script::{
    Event, Header, LineCause, MemberName, Used, is_blank, next_line, read_event, read_header,
};
use fed_suffix::Suffixes;
use std::alloc::{AllocError, Global};
use std::test::Fail;

pub const LOAD: &str = r#"{"do":"load","page":1,"url":"https://rp.example/"}"#;

pub const GET: &str =
    r#"{"do":"get","page":1,"call":1,"providers":[{"config":"https://accounts.idp.example/fedcm.json","client":"c1","nonce":"n1"}]}"#;

// The time of a header, or why it is bad.
fn time_of(alloc: Global, line: &[u8]) -> Result<u64, Option<LineCause>> {
    match read_header(alloc, line) {
        Ok(header) => Ok(header.now),
        Err(Fault::Step(cause)) => Err(Some(cause)),
        Err(Fault::NoRoom) => Err(None),
    }
}

// Whether a header is the one of this word: its time, or the cause for which it is bad.
fn is_header(answer: Result<u64, Option<LineCause>>, word: &str) -> bool {
    match answer {
        Ok(now) => word.parse::<u64>() == Ok(now),
        Err(Some(cause)) => is_cause(cause, word),
        Err(None) => false,
    }
}

// Whether a line is read, or why it is bad.
fn reads(alloc: Global, line: &[u8], used: &mut Used) -> Result<(), Option<LineCause>> {
    match read_event(alloc, line, used) {
        Ok(_) => Ok(()),
        Err(Fault::Step(cause)) => Err(Some(cause)),
        Err(Fault::NoRoom) => Err(None),
    }
}

// Whether an answer is the one of this word: `ok`, or the cause's, with the member that it names after a dot.
fn is_word(answer: Result<(), Option<LineCause>>, word: &str) -> bool {
    match answer {
        Ok(()) => word == "ok",
        Err(Some(cause)) => is_cause(cause, word),
        Err(None) => false,
    }
}

fn is_cause(cause: LineCause, word: &str) -> bool {
    match (cause.member(), word.split_once('.')) {
        (Some(member), Some((first, name))) => cause.as_str() == first && member.as_str() == name,
        (None, None) => cause.as_str() == word,
        _ => false,
    }
}

// The first row that is wrong, or "". Each row is the word of an answer and, after a bar, the line that gets it.
fn first_wrong<'a>(alloc: Global, used: &mut Used, rows: &'a str) -> Result<&'a str, Fail> {
    for row in rows.split('\n') {
        let (word, line) = row.split_once(" | ").ok_or("a row")?;
        if !is_word(reads(alloc, line.as_bytes(), used), word) {
            return Ok(row);
        }
    }
    Ok("")
}

// The first row that is wrong after a header of this time, or "", and how many events the rows have.
pub fn taken<'a>(alloc: Global, time: u64, rows: &'a str) -> Result<(&'a str, u32), Fail> {
    let mut used = Used::new(alloc, time);
    let wrong = first_wrong(alloc, &mut used, rows)?;
    Ok((wrong, used.events()))
}

// Tables stand in functions of their own, so that the proofs of the tests do not go through them.
fn good_header_lines() -> &'static str {
    r#"1700000000 | {"fedcm":1,"now":1700000000,"rules":""}
18446744073709551615 |  {"rules":"","now":18446744073709551615,"fedcm":1,"more":[]} 
0 | {"fedcm":2,"now":7,"rules":"","fedcm":1,"now":0}
1 | {"fedcm":1,"now":1,"rules":"\n\r\n// a comment\nCOM\r\n!www.ck and more"}"#
}

fn bad_header_lines() -> &'static str {
    r#"not-json | 
not-json | {"fedcm":1,"now":0,"rules":""} x
member.fedcm | []
member.fedcm | {"now":"","rules":1}
member.fedcm | {"fedcm":null,"now":0,"rules":""}
member.fedcm | {"fedcm":1.0,"now":0,"rules":""}
member.fedcm | {"fedcm":1e0,"now":0,"rules":""}
member.fedcm | {"fedcm":"1","now":0,"rules":""}
member.now | {"fedcm":1,"rules":1}
member.now | {"fedcm":1,"now":-0,"rules":""}
member.now | {"fedcm":1,"now":18446744073709551616,"rules":""}
member.rules | {"fedcm":1,"now":0}
member.rules | {"fedcm":1,"now":0,"rules":null}
member.rules | {"fedcm":1,"now":0,"rules":["com"]}
member.rules | {"fedcm":1,"now":0,"rules":"com\na..b"}
member.rules | {"fedcm":1,"now":0,"rules":"!com\ncom"}"#
}

// The first row that is wrong, or "". Each row is the word of an answer and, after a bar, the header that gets it.
fn first_wrong_header<'a>(alloc: Global, rows: &'a str) -> Result<&'a str, Fail> {
    for row in rows.split('\n') {
        let (word, line) = row.split_once(" | ").ok_or("a row")?;
        if !is_header(time_of(alloc, line.as_bytes()), word) {
            return Ok(row);
        }
    }
    Ok("")
}

#[test]
fn headers(rt: HostRuntime) -> Result<(), Fail> {
    let alloc = rt.alloc();
    assert_eq!(rt; first_wrong_header(alloc, good_header_lines())?, "");
    assert_eq!(rt; first_wrong_header(alloc, bad_header_lines())?, "");
    let with_mark = "\u{feff}{\"fedcm\":1,\"now\":0,\"rules\":\"\"}";
    assert!(rt; is_header(time_of(alloc, with_mark.as_bytes()), "not-json"));
    let not_utf8 = b"{\"fedcm\":1,\"now\":0,\"rules\":\"\xff\"}";
    assert!(rt; is_header(time_of(alloc, not_utf8), "not-json"));
    Ok(())
}

// Names, each with its registrable domain after a space, if it has one.
fn names() -> &'static str {
    "www.rp.example rp.example
a.b.ck a.b.ck
b.ck
a.www.ck www.ck
a.no.rule no.rule"
}

fn has_domain(rules: &Suffixes, row: &str) -> bool {
    match row.split_once(' ') {
        Some((name, domain)) => {
            rules.registrable_name(name.as_bytes()) == Some(domain.as_bytes())
        }
        None => rules.registrable_name(row.as_bytes()).is_none(),
    }
}

// The first row that is wrong, or "".
fn first_wrong_name<'a>(rules: &Suffixes, rows: &'a str) -> &'a str {
    for row in rows.split('\n') {
        if !has_domain(rules, row) {
            return row;
        }
    }
    ""
}

// The first row that the rules of a copy get wrong, or "", if the copy has the time 7 and the same rules.
fn wrong_in_copy<'a>(copy: &Header, header: &Header, rows: &'a str) -> Option<&'a str> {
    if copy.now == 7 && copy.rules.same(&header.rules) {
        Some(first_wrong_name(&copy.rules, rows))
    } else {
        None
    }
}

fn wrong_when_copied<'a>(alloc: Global, header: &Header, rows: &'a str) -> Option<&'a str> {
    match header.copy(alloc) {
        Ok(copy) => wrong_in_copy(&copy, header, rows),
        Err(_) => None,
    }
}

fn wrong_when_read<'a>(alloc: Global, line: &[u8], rows: &'a str) -> Option<&'a str> {
    match read_header(alloc, line) {
        Ok(header) => wrong_when_copied(alloc, &header, rows),
        Err(_) => None,
    }
}

#[test]
fn rules_of_a_header(rt: HostRuntime) {
    let line = br#"{"fedcm":1,"now":7,"rules":"com\nexample\n*.ck\n!www.ck\n// no.rule"}"#;
    assert_eq!(rt; wrong_when_read(rt.alloc(), line, names()), Some(""));
}

// Among them a configuration URL without a registrable domain; members that are read over, a null that is absent, and the
// last of several members, which counts; URLs of the scheme http; a number that is free for another page's load; and
// escapes, and numbers that are read over.
fn good_rows() -> &'static str {
    concat!(
        r#"ok | {"do":"load","page":1,"url":"https://rp.example/"}
ok | {"do":"get","page":1,"call":1,"providers":[{"config":"https://accounts.idp.example/fedcm.json","client":"c1","nonce":"n1"}]}
ok | {"do":"get","page":1,"call":2,"providers":[{"config":"https://localhost/f","client":""}]}
ok | {"text":null,"raw":null,"more":{"do":1},"do":"jump","do":"load","page":4294967295,"url":" https://a ","page":0}
ok | {"do":"get","mediation":null,"mode":null,"activation":null,"context":null,"page":0,"call":4294967295,"#,
        r#""providers":[{"config":"https://a","client":"c","nonce":null,"login_hint":"l","domain_hint":"d","params":"p","more":0}]}
ok | {"do":"load","page":2,"url":"http://rp.example/"}
ok | {"do":"get","page":1,"call":3,"providers":[{"config":"http://localhost/f","client":""}]}
ok | {"do":"load","page":1,"url":"https://rp.example/"}
ok | {"d\u006f":"load","page":1,"url":"https:\/\/a","more":[1e308,-0,0.1,-99999999999999999999,{"more":[]}]}
ok | {"do":"load","page":1,"url":"https:\/\/a\/"}
ok | {"do":"load","page":0,"url":"https://ä.example/"}
ok | {"do": "load","page":1,"url":"https://a/"}
ok | {"do":"get","page":1,"call":4,"providers":[{"config":"https://a/","client":"\u0063"}]}
ok | {"do":"get","page":1,"call":5,"providers":[{"config":"https://a/","client":"ä"}]}
ok | {"do":"get","page":1,"call":6,"providers":[{"config":"https://a/","client":""}]}
ok | {"do":"get","page":1,"call":7,"providers":1,"providers":[{"config":"ws://a/","client":1,"config":"https://a/","client":"c"}]}
ok | {"do":"closepage","page":4294967295}
ok | {"do":"continue","call":0}"#
    )
}

#[test]
fn good_lines(rt: HostRuntime) -> Result<(), Fail> {
    assert_eq!(rt; taken(rt.alloc(), 1_700_000_000, good_rows())?, ("", 18));
    Ok(())
}

// A get, then lines of no kind, loads and gets that are bad.
fn bad_rows() -> &'static str {
    r#"ok | {"do":"get","page":1,"call":1,"providers":[{"config":"https://accounts.idp.example/fedcm.json","client":"c1","nonce":"n1"}]}
not-json | 
no-kind | []
no-kind | {"page":"x"}
no-kind | {"do":null}
no-kind | {"do":1}
no-kind | {"do":"jump"}
no-kind | {"do":"Load"}
member.call | {"do":"signin"}
member.call | {"do":"shutwindow","page":1}
member.page | {"do":"idpclose","call":1}
no-kind | {"do":"idpClose","page":1}
member.page | {"do":"prevent"}
no-kind | {"do":"Continue"}
member.page | {"do":"disconnect"}
not-json | {"do":"load","page":1,"url":"https://rp.example/"},
not-json | {"do":"load","page":1e999,"url":"https://rp.example/"}
not-json | {"do":"jump","more":[{"more":-1e309}]}
not-json | {"do":"jump","more":"\ud800"}
member.page | {"do":"load","page":null,"url":1,"text":""}
member.page | {"do":"load","page":1.0,"url":"https://a"}
member.page | {"do":"load","page":-0,"url":"https://a"}
member.page | {"do":"load","page":4294967296,"url":"https://a"}
member.page | {"do":"load","page":18446744073709551616,"url":"https://a"}
member.url | {"do":"load","page":1,"text":"","raw":""}
member.text | {"do":"load","page":1,"url":"ftp://x/","text":1,"raw":""}
member.raw | {"do":"load","page":1,"url":"ftp://x/","text":null,"raw":"!"}
bad-url | {"do":"load","page":1,"url":"ftp://x/","text":null,"raw":""}
bad-url | {"do":"load","page":2,"url":"ftp://x/"}
bad-url | {"do":"load","page":2,"url":"https://u@rp.example/"}
member.page | {"do":"get","call":"x"}
member.call | {"do":"get","page":1,"mediation":"x"}
member.mediation | {"do":"get","page":1,"call":1,"context":1,"activation":false,"mode":"passive","mediation":"Optional"}
member.mode | {"do":"get","page":1,"call":1,"context":1,"activation":1,"mode":"Active","mediation":"optional"}
member.mode | {"do":"get","page":1,"call":1,"context":1,"activation":1,"mode":true}
member.activation | {"do":"get","page":1,"call":1,"context":1,"activation":1,"mode":"active"}
member.activation | {"do":"get","page":1,"call":1,"context":1,"activation":"true"}
member.context | {"do":"get","page":1,"call":1,"context":1,"activation":true,"mode":"passive"}
member.context | {"do":"get","page":1,"call":1,"context":"sign-in"}
member.providers | {"do":"get","page":1,"call":1}
member.providers | {"do":"get","page":1,"call":1,"providers":{"config":"https://a","client":"c"}}
member.providers | {"do":"get","page":1,"call":1,"providers":[]}
member.providers | {"do":"get","page":1,"call":1,"providers":["x"]}
member.config | {"do":"get","page":1,"call":1,"providers":[{},{}]}
member.providers | {"do":"get","page":1,"call":1,"providers":[{"config":"https://a","client":"c"},1]}
member.providers | {"do":"get","page":1,"call":1,"providers":[{"config":"https://a","client":"c"}],"providers":null}
not-json | {"do":"get","page":1,"call":1,"providers":[{"config":"https://a","client":"c"},1e999]}
not-json | {"do":"get","page":1,"call":1,"providers":[1,{"config":"https://a","client":"c"}}
no-kind | [{"do":"closepage","page":1}]
member.config | {"do":"get","page":1,"call":1,"providers":[{"client":1}]}
member.client | {"do":"get","page":1,"call":1,"providers":[{"config":"","nonce":1}]}
member.nonce | {"do":"get","page":1,"call":1,"providers":[{"config":"","client":"","nonce":1,"login_hint":1}]}
member.login_hint | {"do":"get","page":1,"call":1,"providers":[{"config":"","client":"","login_hint":[],"domain_hint":1}]}
member.domain_hint | {"do":"get","page":1,"call":1,"providers":[{"config":"","client":"","domain_hint":true,"params":1}]}
member.params | {"do":"get","page":1,"call":1,"providers":[{"config":"","client":"","params":{}}]}
bad-url | {"do":"get","page":1,"call":1,"providers":[{"config":"ws://a/","client":""}]}
not-json | {"do":"load","page":01,"url":"https://a/"}
not-json | {"do":"load","page":,"url":"https://a/"}
not-json | {"do":"load","page":1,"url":"https://a/"
not-json | {"do":"load","page":1,"url":"https://a/"}}
not-json | {"do":"load","page":1,"url":"https://a/\"}
not-json | {"do":"load","page":1,"url":"https://a/","text":"a\"}
not-json | {"do":"load","page":1,"url":"https://a/","text":"a\x"}
not-json | {"do":"load","page":1,"url":"https://a/","text":"a"b"}
bad-url | {"do":"load","page":1,"url":"ftp://a/","text":"a"}
not-json | {"do":"get","page":1,"call":2,"providers":[{"config":"https://a/","client":"c"}]
not-json | {"do":"get","page":1,"call":2,"providers":[{"config":"https://a/","client":"c"}],"mode":"active","activation":true
member.activation | {"do":"get","page":1,"call":2,"providers":[{"config":"https://a/","client":"c"}],"mode":"active","activation":1}
member.page | {"do":"closepage","page":4294967296}
not-json | {"do":"closepage","page":1}}
not-json | {"do":"continue","call":00}
member.call | {"do":"continue","call":99999999999}
call-twice | {"do":"get","page":1,"call":1,"providers":[{"config":"https://a/","client":"c"}]}
call-twice | {"do":"get","page":1,"call":1,"providers":[{"config":"https://accounts.idp.example/fedcm.json","client":"c1","nonce":"n1"}]}"#
}

#[test]
fn causes_in_their_order(rt: HostRuntime) -> Result<(), Fail> {
    assert_eq!(rt; taken(rt.alloc(), 0, bad_rows())?, ("", 1));
    Ok(())
}

// Two providers, of whom the second names more, and the last of two lists; then lists that are too long or hold what is no object, entries
// in their order, and members of all entries before URLs.
fn provider_rows() -> &'static str {
    r#"ok | {"do":"get","page":1,"call":1,"providers":[{"config":"https://a","client":"c"},{"nonce":"n","client":"","config":"https://b"}]}
ok | {"do":"get","page":1,"call":2,"providers":[{},{},1],"providers":[{"config":"https://a","client":"c"}]}
member.config | {"do":"get","page":1,"call":3,"providers":[{"config":"https://a","client":"c"}],"providers":[{},{}]}
member.config | {"do":"get","page":1,"call":3,"providers":[{},{},{},{},{},{},{},{},{},{}]}
member.providers | {"do":"get","page":1,"call":3,"providers":[{},{},{},{},{},{},{},{},{},{},{}]}
member.providers | {"do":"get","page":1,"call":3,"providers":[{},{},{},{},{},{},{},{},{},{},{},{},1]}
member.providers | {"do":"get","page":1,"call":3,"providers":[{"config":"https://a","client":1},{"config":"https://b","client":"c"},null]}
member.providers | {"do":"get","page":1,"call":3,"providers":[{"config":"https://a","client":"c"},[],{"config":1}]}
member.activation | {"do":"get","page":1,"call":3,"activation":0,"providers":[{},{},1]}
member.nonce | {"do":"get","page":1,"call":3,"providers":[{"config":"","client":"","nonce":1},{}]}
member.config | {"do":"get","page":1,"call":3,"providers":[{"config":"","client":""},{},{"config":"","client":"","nonce":1}]}
member.client | {"do":"get","page":1,"call":3,"providers":[{"config":"ws://a","client":"c"},{"config":"https://b"}]}
member.params | {"do":"get","page":1,"call":3,"providers":[{"config":"https://a","client":""},{"config":"ws://b","client":"","params":1}]}
bad-url | {"do":"get","page":1,"call":3,"providers":[{"config":"https://a","client":"c"},{"config":"ws://b","client":"d"}]}
bad-url | {"do":"get","page":1,"call":1,"providers":[{"config":"ws://a","client":"c"},{"config":"https://b","client":"d"}]}
not-json | {"do":"get","page":1,"call":3,"providers":[{"config":"https://a","client":"c"},{"config":"https://b","client":"d"}}
call-twice | {"do":"get","page":1,"call":2,"providers":[{"config":"https://a","client":"c"},{"config":"https://a","client":"d"}]}"#
}

#[test]
fn several_providers(rt: HostRuntime) -> Result<(), Fail> {
    assert_eq!(rt; taken(rt.alloc(), 0, provider_rows())?, ("", 2));
    Ok(())
}

// A get from so many providers.
fn get_from(alloc: Global, count: usize) -> Result<String, AllocError> {
    let mut line = String::from_str(alloc, r#"{"do":"get","page":1,"call":1,"providers":["#)?;
    for place in 0..count {
        if place > 0 {
            line.push_str(",")?;
        }
        line.push_str(r#"{"config":"https://a","client":"c"}"#)?;
    }
    line.push_str("]}")?;
    Ok(line)
}

// Whether a get from so many providers has the answer of this word.
fn gets_from(alloc: Global, count: usize, word: &str) -> bool {
    let Ok(line) = get_from(alloc, count) else {
        return false;
    };
    let mut used = Used::new(alloc, 0);
    is_word(reads(alloc, line.as_bytes(), &mut used), word)
}

#[test]
fn one_to_ten_providers(rt: HostRuntime) {
    assert!(rt; gets_from(rt.alloc(), 0, "member.providers"));
    assert!(rt; gets_from(rt.alloc(), 1, "ok"));
    assert!(rt; gets_from(rt.alloc(), 10, "ok"));
    assert!(rt; gets_from(rt.alloc(), 11, "member.providers"));
}

// Whether an event is a get from providers at which the page has these ids, which have a bar between.
fn has_clients(event: &Event, clients: &str) -> bool {
    let Event::Get { options, .. } = event else {
        return false;
    };
    let mut wanted = clients.split('|');
    for provider in options.providers.as_slice() {
        match wanted.next() {
            Some(client) if provider.client.as_str() == client => {}
            _ => return false,
        }
    }
    wanted.next().is_none()
}

// Whether a line is such a get.
fn gets_from_clients(alloc: Global, line: &str, clients: &str) -> bool {
    let mut used = Used::new(alloc, 0);
    match read_event(alloc, line.as_bytes(), &mut used) {
        Ok(event) => has_clients(&event, clients),
        Err(_) => false,
    }
}

#[test]
fn providers_in_their_order(rt: HostRuntime) {
    let line = concat!(
        r#"{"do":"get","page":1,"call":1,"providers":[{"config":"https://a","client":"1"},"#,
        r#"{"config":"https://a","client":"2"},{"config":"https://b","client":"3"}]}"#
    );
    assert!(rt; gets_from_clients(rt.alloc(), line, "1|2|3"));
}

// A load with a member that nests so many lists.
fn nested(alloc: Global, depth: usize) -> Result<String, AllocError> {
    let mut line = String::from_str(alloc, r#"{"do":"load","page":1,"url":"https://a","more":"#)?;
    for _ in 0..depth {
        line.push_str("[")?;
    }
    for _ in 0..depth {
        line.push_str("]")?;
    }
    line.push_str("}")?;
    Ok(line)
}

// Whether a load that nests so many lists has the answer of this word.
fn nests(alloc: Global, depth: usize, word: &str) -> bool {
    let Ok(line) = nested(alloc, depth) else {
        return false;
    };
    let mut used = Used::new(alloc, 0);
    is_word(reads(alloc, line.as_bytes(), &mut used), word)
}

#[test]
fn nests_to_127(rt: HostRuntime) {
    assert!(rt; nests(rt.alloc(), 126, "ok"));
    assert!(rt; nests(rt.alloc(), 127, "not-json"));
}

// Whether the lines of bytes are these, which have a bar between.
fn are_lines(bytes: &[u8], lines: &str) -> bool {
    let mut rest = bytes;
    for want in lines.split('|') {
        match next_line(rest) {
            Some((line, more)) if line == want.as_bytes() => rest = more,
            _ => return false,
        }
    }
    next_line(rest).is_none()
}

#[test]
fn lines_of_bytes(rt: HostRuntime) {
    assert!(rt; are_lines(b"a\r\n\n \t\r\nb\n\nc", "a\r|| \t\r|b||c"));
    assert!(rt; is_blank(b" \t\r") && is_blank(b"") && !is_blank(b" {") && !is_blank(b"\x0b"));
}

#[test]
fn words(rt: HostRuntime) {
    assert_eq!(rt; LineCause::TooManyEvents.as_str(), "too-many");
    assert_eq!(rt; LineCause::HaveLate.as_str(), "have-late");
    assert_eq!(rt; LineCause::TimeBack.as_str(), "time-back");
    assert_eq!(rt; MemberName::Time.as_str(), "time");
    let cause = LineCause::Member(MemberName::LoginHint);
    assert_eq!(rt; cause.as_str(), "member");
    assert_eq!(rt; cause.member().map(MemberName::as_str), Some("login_hint"));
}
