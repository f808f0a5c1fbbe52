//! A script, and a transcript that another program wrote for it: where it first leaves this program's own.
use crate::lines::{block, told};
use crate::runs::{Limits, QUIET, first_wrong, gives, ran};
use fed_io::NoRoom;
use fed_run::Status;
use std::alloc::Global;
use std::test::Fail;

// Lines of their own, and scenarios (lines.rt). The script has 15 lines, and the first line of a transcript after SCRIPT has the number 17.
// FRONT, LINKS, CONSENT, GIVEN and BYE are together the transcript of SCRIPT, but for other records than requests and tokens.
fn scenarios() -> &'static str {
    r##"SCRIPT
{"fedcm":1,"now":1700000000,"rules":""}
{"do":"load","page":9,"url":"https://accounts.idp.example/in","text":"HTTP/1.1 200 OK\r\n\
Set-Cookie: sid=1; Path=/; SameSite=None; Secure\r\n\r\n"}
{"do":"load","page":1,"url":"https://rp.example/"}
{"do":"get","page":1,"call":1,"providers":[{"config":"https://accounts.idp.example/fedcm.json",\
"client":"c1","nonce":"n1","params":"p1"}]}
{"do":"reply","call":1,"to":"wellknown","text":"HTTP/1.1 200 OK\r\nContent-Type: application/json\r\n\r\n\
{\"provider_urls\":[\"https://accounts.idp.example/fedcm.json\"]}"}
{"do":"reply","call":1,"to":"config","text":"HTTP/1.1 200 OK\r\nContent-Type: application/json\r\n\r\n\
{\"accounts_endpoint\":\"/accounts\",\"id_assertion_endpoint\":\"/assert\",\"login_url\":\"/login\",\
\"client_metadata_endpoint\":\"/client\",\"disconnect_endpoint\":\"/bye\"}"}
{"do":"reply","call":1,"to":"accounts","text":"HTTP/1.1 200 OK\r\nContent-Type: application/json\r\n\r\n\
{\"accounts\":[{\"id\":\"u1\",\"name\":\"Ann\",\"email\":\"ann@idp.example\"}\
,{\"id\":\"é\",\"name\":\"Bob\",\"email\":\"bob@idp.example\"}]}"}
{"do":"choose","call":1,"account":"é"}
{"do":"reply","call":1,"to":"metadata","text":"HTTP/1.1 200 OK\r\nContent-Type: application/json\r\n\r\n\
{\"privacy_policy_url\":\"https://rp.example/privacy\"}"}
{"do":"continue","call":1}
{"do":"reply","call":1,"to":"assertion","text":"HTTP/1.1 200 OK\r\nContent-Type: application/json\r\n\
Access-Control-Allow-Origin: https://rp.example\r\nAccess-Control-Allow-Credentials: true\r\n\r\n{\"token\":\"T1\"}"}
{"do":"disconnect","page":1,"call":2,"config":"https://accounts.idp.example/fedcm.json","client":"c1","hint":"u2"}
{"do":"reply","call":2,"to":"wellknown","text":"HTTP/1.1 200 OK\r\nContent-Type: application/json\r\n\r\n\
{\"provider_urls\":[\"https://accounts.idp.example/fedcm.json\"]}"}
{"do":"reply","call":2,"to":"config","text":"HTTP/1.1 200 OK\r\nContent-Type: application/json\r\n\r\n\
{\"accounts_endpoint\":\"/accounts\",\"id_assertion_endpoint\":\"/assert\",\"login_url\":\"/login\",\
\"client_metadata_endpoint\":\"/client\",\"disconnect_endpoint\":\"/bye\"}"}
{"do":"reply","call":2,"to":"disconnect","text":"HTTP/1.1 200 OK\r\nContent-Type: application/json\r\n\
Access-Control-Allow-Origin: https://rp.example\r\nAccess-Control-Allow-Credentials: true\r\n\r\n{\"account_id\":\"u2\"}"}
{"next":"transcript"}

NEXT
{"next":"transcript"}

FILES
{"call":#,"kind":"wellknown","line":#,"out":"request","provider":0,"text":"GET /.well-known/web-identity HTTP/1.1\r\n\
Host:idp.example\r\nAccept:application/json\r\nSec-Fetch-Dest:webidentity\r\n\r\n"}
{"call":#,"kind":"config","line":#,"out":"request","provider":0,"text":"GET /fedcm.json HTTP/1.1\r\n\
Host:accounts.idp.example\r\nAccept:application/json\r\nSec-Fetch-Dest:webidentity\r\n\r\n"}

FRONT
{"call":1,"kind":"wellknown","line":4,"out":"request","provider":0,"text":"GET /.well-known/web-identity HTTP/1.1\r\n\
Host:idp.example\r\nAccept:application/json\r\nSec-Fetch-Dest:webidentity\r\n\r\n"}
{"call":1,"kind":"config","line":4,"out":"request","provider":0,"text":"GET /fedcm.json HTTP/1.1\r\n\
Host:accounts.idp.example\r\nAccept:application/json\r\nSec-Fetch-Dest:webidentity\r\n\r\n"}
{"call":1,"kind":"accounts","line":6,"out":"request","provider":0,"text":"GET /accounts HTTP/1.1\r\n\
Host:accounts.idp.example\r\nAccept:application/json\r\nSec-Fetch-Dest:webidentity\r\nCookie:sid=1\r\n\r\n"}

LINKS
{"call":1,"kind":"metadata","line":8,"out":"request","provider":0,"text":"GET /client?client_id=c1 HTTP/1.1\r\n\
Host:accounts.idp.example\r\nAccept:application/json\r\nSec-Fetch-Dest:webidentity\r\nOrigin:https://rp.example\r\n\r\n"}

CONSENT
{"call":1,"kind":"assertion","line":10,"out":"request","provider":0,"text":"POST /assert HTTP/1.1\r\n\
Host:accounts.idp.example\r\nAccept:application/json\r\nSec-Fetch-Dest:webidentity\r\nOrigin:https://rp.example\r\n\
Content-Type:application/x-www-form-urlencoded\r\nContent-Length:99\r\nCookie:sid=1\r\n\r\n\
client_id=c1&nonce=n1&account_id=%C3%A9&disclosure_text_shown=true&is_auto_selected=false&params=p1"}

GIVEN
{"auto":false,"call":1,"line":11,"out":"result","page":1,"provider":0,"see":"token","token":"T1"}

BYE
{"call":2,"kind":"disconnect","line":14,"out":"request","provider":0,"text":"POST /bye HTTP/1.1\r\n\
Host:accounts.idp.example\r\nAccept:application/json\r\nSec-Fetch-Dest:webidentity\r\nOrigin:https://rp.example\r\n\
Content-Type:application/x-www-form-urlencoded\r\nContent-Length:28\r\nCookie:sid=1\r\n\r\nclient_id=c1&account_hint=u2"}

ACCOUNTS
{"call":1,"kind":"accounts","line":6,"out":"request","provider":0,"text":"GET # HTTP/1.1\r\n#\r\n#"}

MORE
{"call":1,"kind":"accounts","line":6,"out":"request","provider":0,"text":"GET /accounts HTTP/1.1\r\n\
Host:accounts.idp.example\r\nAccept:application/json\r\nSec-Fetch-Dest:webidentity\r\nCookie:sid=1\r\n#\r\n#"}

CLIENT
{"call":1,"kind":"metadata","line":8,"out":"request","provider":0,"text":"GET /client?client_id=c1 HTTP/1.1\r\n\
Host:accounts.idp.example\r\nAccept:application/json\r\nSec-Fetch-Dest:webidentity\r\n#\r\n"}

POSTED
{"call":1,"kind":"assertion","line":10,"out":"request","provider":0,"text":"POST /assert HTTP/1.1\r\n\
Host:accounts.idp.example\r\nAccept:application/json\r\nSec-Fetch-Dest:webidentity\r\nOrigin:https://rp.example\r\n\
Content-Type:#\r\nContent-Length:99\r\nCookie:sid=1\r\n\r\n\
client_id=c1&nonce=n1&account_id=%C3%A9&disclosure_text_shown=true&is_auto_selected=false&params=p1"}

FORM
{"call":1,"kind":"assertion","line":10,"out":"request","provider":0,"text":"POST /assert HTTP/1.1\r\n\
Host:accounts.idp.example\r\nAccept:application/json\r\nSec-Fetch-Dest:webidentity\r\nOrigin:https://rp.example\r\n\
Content-Type:application/x-www-form-urlencoded\r\nContent-Length:#\r\nCookie:sid=1\r\n\r\n#"}

LEAVING
{"call":2,"kind":"disconnect","line":14,"out":"request","provider":0,"text":"POST /bye HTTP/1.1\r\n\
Host:accounts.idp.example\r\nAccept:application/json\r\nSec-Fetch-Dest:webidentity\r\nOrigin:https://rp.example\r\n\
Content-Type:application/x-www-form-urlencoded\r\nContent-Length:#\r\nCookie:sid=1\r\n\r\n#"}

TOKEN
{"auto":#,"call":1,"line":11,"out":"result","page":#,"provider":0,"see":"token","token":"#"}

ALIKE
{"out":"alike","requests":#}

NO_RECORD
{"line":#,"out":"differs","what":"record"}

DIFFERS
{"call":#,"kind":"#","line":#,"out":"differs","provider":0,"what":"#"}

DUE
{"call":#,"due":"#","kind":"#","line":#,"out":"differs","provider":0,"what":"#"}

# Each request and each token is the own one
SCRIPT
FRONT
LINKS
CONSENT
GIVEN
FILES 2 12 2 12
BYE
= done
ALIKE 8

# The order of a line's records, of fields and of members is free, and further ones are
SCRIPT
{"call":1,"kind":"config","line":4,"more":1,"out":"request","provider":0,"text":"GET /fedcm.json HTTP/1.1\r\n\
SEC-FETCH-DEST:webidentity\r\nUser-Agent:x\r\naccept: application/json \r\nhost:accounts.idp.example\r\n\r\n"}
{"call":1,"kind":"wellknown","line":4,"out":"request","provider":0,"text":"GET /.well-known/web-identity HTTP/1.1\r\n\
Host:idp.example\r\nAccept:application/json\r\nSec-Fetch-Dest:webidentity\r\n\r\n"}
ACCOUNTS /accounts Cookie:sid=1\r\nHost:accounts.idp.example\r\nAccept:application/json\r\nSec-Fetch-Dest:webidentity\r\n
LINKS
FORM 108 params=p1&more=1&nonce=n1&account%5Fid=%c3%a9&disclosure_text_shown=true&is_auto_selected=false&client_id=c1
{"token":"T1","see":"token","provider":0,"page":1,"out":"result","more":[],"line":11,"call":1,"auto":false}
FILES 2 12 2 12
LEAVING 28 account_hint=u2&client_id=c1
= done
ALIKE 8

# Other records are passed over, in any order
SCRIPT
{"events":14,"out":"end"}
FRONT
{"line":15,"out":"dialog"}
{"call":2,"line":15,"out":"result","see":"disconnected"}
LINKS
{"line":2,"out":"ignored"}
CONSENT
GIVEN
FILES 2 12 2 12
BYE
{"line":3,"out":"window"}
= done
ALIKE 8

# Bytes in base64
SCRIPT
{"call":1,"kind":"wellknown","line":4,"out":"request","provider":0,\
"raw":"R0VUIC8ud2VsbC1rbm93bi93ZWItaWRlbnRpdHkgSFRUUC8xLjENCkhvc3Q6IGlkcC5leGFtcGxlDQpBY2NlcHQ6IGFwcGxpY2F0aW9uL2pzb24NClNlYy1GZXRjaC1EZXN\
0OiB3ZWJpZGVudGl0eQ0KDQo="}
= differs
DIFFERS 1 config 4 missing

# A line that is no record
SCRIPT
FRONT
{"out":"request"}
= differs
NO_RECORD 20

# A request that is missing where a later line comes
SCRIPT
FRONT
CONSENT
= differs
DIFFERS 1 metadata 8 missing

# A token that is missing where a later line comes
SCRIPT
FRONT
LINKS
CONSENT
FILES 2 12 2 12
= differs
DIFFERS 1 token 11 missing

# A request that is missing at the end
SCRIPT
FRONT
LINKS
CONSENT
GIVEN
FILES 2 12 2 12
= differs
DIFFERS 2 disconnect 14 missing

# A request that comes again
SCRIPT
FRONT
MORE
= differs
DIFFERS 1 accounts 6 further

# A request at a line that has none
SCRIPT
FILES 1 4 1 4
FILES 1 5 1 5
= differs
DIFFERS 1 wellknown 5 further

# A request of another call
SCRIPT
FILES 2 4 2 4
= differs
DIFFERS 2 wellknown 4 further

# A request below an earlier one's line
SCRIPT
FRONT
FILES 1 4 1 4
= differs
DIFFERS 1 wellknown 4 further

# A request after the last line of the script
SCRIPT
FRONT
LINKS
CONSENT
GIVEN
FILES 2 12 2 12
BYE
FILES 2 40 2 40
= differs
DIFFERS 2 wellknown 40 further

# A request without a head
SCRIPT
FILES 1 4 1 4
{"call":1,"kind":"accounts","line":6,"out":"request","provider":0,"text":"GET /accounts"}
= differs
DIFFERS 1 accounts 6 head

# Another method
SCRIPT
FILES 1 4 1 4
{"call":1,"kind":"accounts","line":6,"out":"request","provider":0,"text":"POST /accounts HTTP/1.1\r\n\r\n"}
= differs
DUE 1 GET accounts 6 method

# Another target
SCRIPT
FILES 1 4 1 4
ACCOUNTS /accounts?site=rp.example Host:accounts.idp.example\r\nAccept:application/json\r\nSec-Fetch-Dest:webidentity\r\nCookie:sid=1\r\n
= differs
DUE 1 /accounts accounts 6 target

# Another host
SCRIPT
FILES 1 4 1 4
ACCOUNTS /accounts Host:idp.example\r\nAccept:application/json\r\nSec-Fetch-Dest:webidentity\r\nCookie:sid=1\r\n
= differs
DUE 1 accounts.idp.example accounts 6 host

# The host twice
SCRIPT
FILES 1 4 1 4
MORE Host:accounts.idp.example\r\n
= differs
DUE 1 accounts.idp.example accounts 6 host

# Another type is taken
SCRIPT
FILES 1 4 1 4
ACCOUNTS /accounts Host:accounts.idp.example\r\nAccept:*/*\r\nSec-Fetch-Dest:webidentity\r\nCookie:sid=1\r\n
= differs
DUE 1 application/json accounts 6 accept

# No destination
SCRIPT
FILES 1 4 1 4
ACCOUNTS /accounts Host:accounts.idp.example\r\nAccept:application/json\r\nCookie:sid=1\r\n
= differs
DUE 1 webidentity accounts 6 sec-fetch-dest

# An Origin where none is due
SCRIPT
FILES 1 4 1 4
MORE Origin:null\r\n
= differs
DIFFERS 1 accounts 6 origin

# No Origin where one is due
SCRIPT
FRONT
CLIENT X:y\r\n
= differs
DUE 1 https://rp.example metadata 8 origin

# Another type of form
SCRIPT
FRONT
LINKS
POSTED text/plain
= differs
DUE 1 application/x-www-form-urlencoded assertion 10 content-type

# Another length than the body has
SCRIPT
FRONT
LINKS
FORM 98 client_id=c1&nonce=n1&account_id=%C3%A9&disclosure_text_shown=true&is_auto_selected=false&params=p1
= differs
DUE 1 99 assertion 10 content-length

# A cookie that is left out
SCRIPT
FILES 1 4 1 4
ACCOUNTS /accounts Host:accounts.idp.example\r\nAccept:application/json\r\nSec-Fetch-Dest:webidentity\r\n
= differs
DUE 1 sid=1 accounts 6 cookie

# A cookie where none is due
SCRIPT
FRONT
CLIENT Origin:https://rp.example\r\nCookie:sid=1\r\n
= differs
DIFFERS 1 metadata 8 cookie

# Another client
SCRIPT
FRONT
LINKS
FORM 99 client_id=c2&nonce=n1&account_id=%C3%A9&disclosure_text_shown=true&is_auto_selected=false&params=p1
= differs
DUE 1 c1 assertion 10 client_id

# No nonce
SCRIPT
FRONT
LINKS
FORM 90 client_id=c1&account_id=%C3%A9&disclosure_text_shown=true&is_auto_selected=false&params=p1
= differs
DUE 1 n1 assertion 10 nonce

# Another account, whose bytes are due in base64
SCRIPT
FRONT
LINKS
FORM 95 client_id=c1&nonce=n1&account_id=u1&disclosure_text_shown=true&is_auto_selected=false&params=p1
= differs
{"call":1,"due_raw":"w6k=","kind":"assertion","line":10,"out":"differs","provider":0,"what":"account_id"}

# The user was shown nothing
SCRIPT
FRONT
LINKS
FORM 100 client_id=c1&nonce=n1&account_id=%C3%A9&disclosure_text_shown=false&is_auto_selected=false&params=p1
= differs
DUE 1 true assertion 10 disclosure_text_shown

# The account was settled on without the user
SCRIPT
FRONT
LINKS
FORM 98 client_id=c1&nonce=n1&account_id=%C3%A9&disclosure_text_shown=true&is_auto_selected=true&params=p1
= differs
DUE 1 false assertion 10 is_auto_selected

# Parameters twice
SCRIPT
FRONT
LINKS
FORM 109 client_id=c1&nonce=n1&account_id=%C3%A9&disclosure_text_shown=true&is_auto_selected=false&params=p1&params=p1
= differs
DUE 1 p1 assertion 10 params

# A hint where none is due
SCRIPT
FRONT
LINKS
FORM 114 client_id=c1&nonce=n1&account_id=%C3%A9&disclosure_text_shown=true&is_auto_selected=false&params=p1&account_hint=u
= differs
DIFFERS 1 assertion 10 account_hint

# Another hint
SCRIPT
FRONT
LINKS
CONSENT
GIVEN
FILES 2 12 2 12
LEAVING 28 client_id=c1&account_hint=u1
= differs
DUE 2 u2 disconnect 14 account_hint

# A nonce on a disconnect request
SCRIPT
FRONT
LINKS
CONSENT
GIVEN
FILES 2 12 2 12
LEAVING 37 client_id=c1&account_hint=u2&nonce=n1
= differs
DIFFERS 2 disconnect 14 nonce

# A body of a request without a form
SCRIPT
FILES 1 4 1 4
MORE  rp.example
= differs
DUE 1  accounts 6 body

# Another token
SCRIPT
FRONT
LINKS
CONSENT
TOKEN false 1 T2
= differs
DUE 1 T1 token 11 token

# A token for no page
SCRIPT
FRONT
LINKS
CONSENT
TOKEN false null T1
= differs
DUE 1 1 token 11 page

# A token of a call that has none
HEADER
LOAD 1 https://rp.example/
NEXT
TOKEN false 1 T1
= differs
DIFFERS 1 token 11 further

# Audited: a token after an abort, whose result is left out
HEADER
LOAD 1 https://rp.example/
GET 1 1
WELL_KNOWN_REPLY 1
CONFIG_REPLY 1
ACCOUNTS_REPLY 1
METADATA_REPLY 1
{"do":"continue","call":1}
{"do":"abort","call":1}
{"do":"reply","call":1,"to":"assertion","text":"HTTP/1.1 200 OK\r\nContent-Type: application/json\r\n\
Access-Control-Allow-Origin: https://rp.example\r\nAccess-Control-Allow-Credentials: true\r\n\r\n{\"token\":\"T1\"}"}
NEXT
FILES 1 3 1 3
ACCOUNTS_REQUEST 1 5
METADATA_REQUEST 6
ASSERTION_REQUEST 8 u1 true false
{"auto":false,"call":1,"line":10,"out":"result","page":1,"provider":0,"see":"token","token":"T1"}
= differs
DIFFERS 1 token 10 further

# Audited: a token for another page
SCRIPT
FRONT
LINKS
CONSENT
TOKEN false 99 T1
= differs
DUE 1 1 token 11 page

# Audited: a token that came with the user, told as without
SCRIPT
FRONT
LINKS
CONSENT
TOKEN true 1 T1
= differs
DUE 1 false token 11 auto

# Audited: other members of the form
SCRIPT
FRONT
LINKS
FORM 100 client_id=c9&nonce=n9&account_id=%C3%A9&disclosure_text_shown=false&is_auto_selected=false&params=p1
= differs
DUE 1 c1 assertion 10 client_id

# Audited: a request for a token to another host
SCRIPT
FRONT
LINKS
{"call":1,"kind":"assertion","line":10,"out":"request","provider":0,"text":"POST /assert HTTP/1.1\r\n\
Host:evil.example\r\nAccept:application/json\r\nSec-Fetch-Dest:webidentity\r\nOrigin:https://rp.example\r\n\
Content-Type:application/x-www-form-urlencoded\r\nContent-Length:99\r\n\r\n\
client_id=c1&nonce=n1&account_id=%C3%A9&disclosure_text_shown=true&is_auto_selected=false&params=p1"}
= differs
DUE 1 accounts.idp.example assertion 10 host

# Audited: a request for accounts that names the site
SCRIPT
FILES 1 4 1 4
{"call":1,"kind":"accounts","line":6,"out":"request","provider":0,"text":"GET /accounts?site=rp.example HTTP/1.1\r\n\
Host:accounts.idp.example\r\nAccept:application/json\r\nSec-Fetch-Dest:webidentity\r\nCookie:sid=1\r\n\
X-Site:https://rp.example\r\n\r\n"}
= differs
DUE 1 /accounts accounts 6 target

# Audited: a second request in one record
SCRIPT
FILES 1 4 1 4
{"call":1,"kind":"accounts","line":6,"out":"request","provider":0,"text":"GET /accounts HTTP/1.1\r\n\
Host:accounts.idp.example\r\nAccept:application/json\r\nSec-Fetch-Dest:webidentity\r\nCookie:sid=1\r\n\r\nGET \
/accounts?site=rp.example HTTP/1.1\r\nHost:accounts.idp.example\r\nOrigin:https://rp.example\r\n\r\n"}
= differs
DUE 1  accounts 6 body

# Audited: a target with a host
SCRIPT
FILES 1 4 1 4
ACCOUNTS http://x.example/ Host:accounts.idp.example\r\nAccept:application/json\r\nSec-Fetch-Dest:webidentity\r\n
= differs
DUE 1 /accounts accounts 6 target

# Audited: a host with a path
SCRIPT
FILES 1 4 1 4
ACCOUNTS /accounts Host:accounts.idp.example/x?\r\nAccept:application/json\r\nSec-Fetch-Dest:webidentity\r\nCookie:sid=1\r\n
= differs
DUE 1 accounts.idp.example accounts 6 host

# Audited: a request at later lines, after the end of its call
SCRIPT
FRONT
LINKS
CONSENT
GIVEN
FILES 1 12 1 13
= differs
DIFFERS 1 wellknown 12 further

# Audited: no record
SCRIPT
= differs
DIFFERS 1 wellknown 4 missing

# A bad line of the script
HEADER
{"do":"at"}
NEXT
= bad-script
{"cause":"member","line":2,"member":"time","out":"bad"}

# No dividing line
HEADER
= bad-script
BAD no-next 2"##
}

#[test]
fn compares(rt: HostRuntime) -> Result<(), Fail> {
    assert_eq!(rt; first_wrong(rt.alloc(), "compare", scenarios())?, ("", 52));
    Ok(())
}

// The title of the first scenario that is called audited and whose transcript does not keep the rules, or "", and how many before it do.
fn first_faulty(alloc: Global) -> Result<(&'static str, u32), Fail> {
    let mut count: u32 = 0;
    for block in scenarios().split("\n\n") {
        let (title, rows) = block.split_once('\n').unwrap_or((block, ""));
        if title.starts_with("# Audited: ") {
            if !is_audited(alloc, rows)? {
                return Ok((title, count));
            }
            count = count.wrapping_add(1);
        }
    }
    Ok(("", count))
}

// Whether the transcript of a scenario keeps the rules.
fn is_audited(alloc: Global, rows: &str) -> Result<bool, NoRoom> {
    let (rows, _) = rows.split_once("= ").unwrap_or((rows, ""));
    let text = told(alloc, scenarios(), rows)?;
    let (status, _) = ran(alloc, "audit", text.as_str(), QUIET)?;
    Ok(status == Status::Done)
}

#[test]
fn what_an_audit_passes_is_found(rt: HostRuntime) -> Result<(), Fail> {
    assert_eq!(rt; first_faulty(rt.alloc())?, ("", 11));
    Ok(())
}

const NEXT: &str = "{\"next\":\"transcript\"}\n";

// The script, and the transcript that `run` writes of it, with a blank line before each record, and CR at the end of each.
fn own(alloc: Global) -> Result<String, NoRoom> {
    let rows = block(scenarios(), "SCRIPT").unwrap_or("");
    let mut text = told(alloc, "", rows)?;
    let (script, _) = text.as_str().split_once(NEXT).unwrap_or(("", ""));
    let (_, records) = ran(alloc, "run", script, QUIET)?;
    for record in str::from_utf8(records.as_slice())
        .unwrap_or("")
        .split_terminator('\n')
    {
        text.push_str(" \t\r\n")?;
        text.push_str(record)?;
        text.push_str("\r\n")?;
    }
    Ok(text)
}

#[test]
fn the_own_transcript_is_alike(rt: HostRuntime) -> Result<(), Fail> {
    let alloc = rt.alloc();
    let text = own(alloc)?;
    let alike = "{\"out\":\"alike\",\"requests\":8}\n";
    assert!(rt; gives(alloc, "compare", text.as_str(), "done", alike)?);
    let audited = "{\"out\":\"audited\",\"records\":13}\n";
    assert!(rt; gives(alloc, "audit", text.as_str(), "done", audited)?);
    Ok(())
}

// How a comparison ends whose take or put of this number fails, and how many bytes are written.
fn end_at(alloc: Global, take: u64, put: u64) -> Result<(Status, usize), NoRoom> {
    let limits = Limits {
        failing_take: take,
        failing_put: put,
        most_put: 5,
        ..QUIET
    };
    let text = told(alloc, scenarios(), "SCRIPT\n")?;
    let (status, told) = ran(alloc, "compare", text.as_str(), limits)?;
    Ok((status, told.len()))
}

#[test]
fn a_fault_ends_the_comparison(rt: HostRuntime) -> Result<(), Fail> {
    let alloc = rt.alloc();
    assert_eq!(rt; end_at(alloc, 1, 0)?, (Status::ReadFault, 0));
    assert_eq!(rt; end_at(alloc, 0, 0)?, (Status::Differs, 85));
    assert_eq!(rt; end_at(alloc, 0, 1)?, (Status::WriteFault, 0));
    assert_eq!(rt; end_at(alloc, 0, 4)?, (Status::WriteFault, 15));
    Ok(())
}
