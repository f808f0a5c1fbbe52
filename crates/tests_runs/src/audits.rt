//! A script, and a transcript that another program wrote for it: whether it keeps the rules.
use crate::lines::{block, told};
use crate::runs::{Limits, QUIET, first_wrong, gives, ran};
use fed_io::NoRoom;
use fed_run::Status;
use std::alloc::Global;
use std::test::Fail;

// Lines of their own, and scenarios (lines.rt). The first line of a transcript after SCRIPT has the number 25.
fn scenarios() -> &'static str {
    r##"SCRIPT
{"fedcm":1,"now":1700000000,"rules":""}
{"do":"load","page":9,"url":"https://accounts.idp.example/in","text":"HTTP/1.1 200 OK\r\n\
Set-Cookie: sid=1; Path=/; SameSite=None; Secure\r\nSet-Cookie: lax=2; Path=/\r\n\r\n"}
{"do":"load","page":1,"url":"https://rp.example/"}
{"do":"load","page":2,"url":"https://shop.example/"}
{"do":"get","page":1,"call":1,"providers":[{"config":"https://accounts.idp.example/fedcm.json","client":"c1","nonce":"n1"}]}
{"do":"get","page":2,"call":2,"providers":[{"config":"https://accounts.idp.example/fedcm.json","client":"c2","nonce":"n2"}]}
{"do":"reply","call":1,"to":"wellknown","text":"HTTP/1.1 200 OK\r\nContent-Type: application/json\r\n\r\n\
{\"provider_urls\":[\"https://accounts.idp.example/fedcm.json\"]}"}
{"do":"reply","call":1,"to":"config","text":"HTTP/1.1 200 OK\r\nContent-Type: application/json\r\n\r\n\
{\"accounts_endpoint\":\"/accounts\",\"id_assertion_endpoint\":\"/assert\",\"login_url\":\"/login\",\
\"client_metadata_endpoint\":\"/client\",\"disconnect_endpoint\":\"/bye\"}"}
{"do":"reply","call":2,"to":"wellknown","text":"HTTP/1.1 200 OK\r\nContent-Type: application/json\r\n\r\n\
{\"provider_urls\":[\"https://accounts.idp.example/fedcm.json\"]}"}
{"do":"reply","call":2,"to":"config","text":"HTTP/1.1 200 OK\r\nContent-Type: application/json\r\n\r\n\
{\"accounts_endpoint\":\"/accounts\",\"id_assertion_endpoint\":\"/assert\",\"login_url\":\"/login\",\
\"client_metadata_endpoint\":\"/client\",\"disconnect_endpoint\":\"/bye\"}"}
{"do":"reply","call":1,"to":"accounts","text":"HTTP/1.1 200 OK\r\nContent-Type: application/json\r\n\r\n\
{\"accounts\":[{\"id\":\"u1\",\"name\":\"Ann\",\"email\":\"ann@idp.example\"}\
,{\"id\":\"u2\",\"name\":\"Bob\",\"email\":\"bob@idp.example\"}]}"}
{"do":"reply","call":2,"to":"accounts","text":"HTTP/1.1 200 OK\r\nContent-Type: application/json\r\n\r\n\
{\"accounts\":[{\"id\":\"u1\",\"name\":\"Ann\",\"email\":\"ann@idp.example\"}]}"}
{"do":"choose","call":1,"account":"u2"}
{"do":"reply","call":1,"to":"metadata","text":"HTTP/1.1 200 OK\r\nContent-Type: application/json\r\n\r\n\
{\"privacy_policy_url\":\"https://rp.example/privacy\"}"}
{"do":"reply","call":2,"to":"metadata","text":"HTTP/1.1 200 OK\r\nContent-Type: application/json\r\n\r\n\
{\"privacy_policy_url\":\"https://rp.example/privacy\"}"}
{"do":"continue","call":1}
{"do":"continue","call":2}
{"do":"reply","call":1,"to":"assertion","text":"HTTP/1.1 200 OK\r\nContent-Type: application/json\r\n\
Access-Control-Allow-Origin: https://rp.example\r\nAccess-Control-Allow-Credentials: true\r\n\r\n{\"token\":\"T1\"}"}
{"do":"reply","call":2,"to":"assertion","text":"HTTP/1.1 200 OK\r\nContent-Type: application/json\r\n\
Access-Control-Allow-Origin: https://shop.example\r\nAccess-Control-Allow-Credentials: true\r\n\r\n{\"token\":\"T2\"}"}
{"do":"disconnect","page":1,"call":3,"config":"https://accounts.idp.example/fedcm.json","client":"c1","hint":"u2"}
{"do":"reply","call":3,"to":"wellknown","text":"HTTP/1.1 200 OK\r\nContent-Type: application/json\r\n\r\n\
{\"provider_urls\":[\"https://accounts.idp.example/fedcm.json\"]}"}
{"do":"reply","call":3,"to":"config","text":"HTTP/1.1 200 OK\r\nContent-Type: application/json\r\n\r\n\
{\"accounts_endpoint\":\"/accounts\",\"id_assertion_endpoint\":\"/assert\",\"login_url\":\"/login\",\
\"client_metadata_endpoint\":\"/client\",\"disconnect_endpoint\":\"/bye\"}"}
{"do":"reply","call":3,"to":"disconnect","text":"HTTP/1.1 200 OK\r\nContent-Type: application/json\r\n\
Access-Control-Allow-Origin: https://rp.example\r\nAccess-Control-Allow-Credentials: true\r\n\r\n{\"account_id\":\"u2\"}"}
{"next":"transcript"}

NEXT
{"next":"transcript"}

TWO_GET
{"do":"get","page":1,"call":1,"providers":[{"config":"https://accounts.idp.example/fedcm.json","client":"c1"},\
{"config":"https://id.other.example/fedcm.json","client":"c9"}]}

SECOND_REPLY
{"do":"reply","call":1,"provider":1,"to":"#","text":"HTTP/1.1 200 OK\r\nContent-Type:application/json\r\n#\r\n#"}

ASSERTION_REPLY
{"do":"reply","call":1,"provider":#,"to":"assertion","text":"HTTP/1.1 200 OK\r\nContent-Type: application/json\r\n\
Access-Control-Allow-Origin: https://rp.example\r\nAccess-Control-Allow-Credentials: true\r\n\r\n\
{\"token\":\"#\"}"}

ASK
{"call":#,"kind":"#","line":#,"out":"request","provider":#,"text":"# # HTTP/1.1\r\n#\r\n#"}

TOKEN
{"call":#,"line":#,"out":"result","page":1,"provider":#,"see":"token","token":"#"}

SHOWN
{"call":#,"line":#,"out":"result","page":1,"see":"#"}

AUDITED
{"out":"audited","records":#}

FAULTY
{"clause":"#","line":#,"out":"faulty"}

# Each record keeps the rules
SCRIPT
ASK 1 wellknown 5 0 GET /.well-known/web-identity Host:idp.example\r\n
ASK 1 config 5 0 GET /fedcm.json Host:accounts.idp.example\r\n
ASK 1 accounts 8 0 GET /accounts Host:accounts.idp.example\r\nCookie:sid=1\r\n
ASK 2 metadata 12 0 GET /client?client_id=c2 Host:accounts.idp.example\r\nOrigin:https://shop.example\r\n
ASK 1 assertion 16 0 POST /assert Host:accounts.idp.example\r\nOrigin:https://rp.example\r\nCookie:sid=1\r\n client_id=c1&account_id=u2
ASK 2 assertion 17 0 POST /assert Host:accounts.idp.example\r\nOrigin:https://shop.example\r\nCookie:sid=1\r\n account_id=u1
TOKEN 1 18 0 T1
TOKEN 2 19 0 T2
ASK 3 disconnect 22 0 POST /bye Host:accounts.idp.example\r\nOrigin:https://rp.example\r\nCookie:sid=1\r\n client_id=c1&account_hint=u2
SHOWN 3 23 disconnected
END 22
= done
AUDITED 11

# No record
SCRIPT
= done
AUDITED 0

# Members in another order, and further ones
SCRIPT
{"token":"T1","see":"token","out":"dialog","line":11,"more":[{}],"call":"x"}
= done
AUDITED 1

# Bytes in base64
SCRIPT
{"call":1,"kind":"wellknown","line":5,"out":"request","provider":0,\
"raw":"R0VUIC8ud2VsbC1rbm93bi93ZWItaWRlbnRpdHkgSFRUUC8xLjENCkhvc3Q6IGlkcC5leGFtcGxlDQoNCg=="}
= done
AUDITED 1

# Records after the end
SCRIPT
END 22
ASK 1 wellknown 5 0 GET /.well-known/web-identity Host:idp.example\r\n
= done
AUDITED 2

# A line that is no JSON
SCRIPT
ASK 1 wellknown 5 0 GET /.well-known/web-identity Host:idp.example\r\n
x
= faulty
FAULTY record 26

# A list
SCRIPT
[]
= faulty
FAULTY record 25

# An unknown record
SCRIPT
{"events":22,"out":"over"}
= faulty
FAULTY record 25

# A line without an event
SCRIPT
SHOWN 3 24 disconnected
= faulty
FAULTY record 25

# The line of the header
SCRIPT
ASK 1 wellknown 1 0 GET / Host:idp.example\r\n
= faulty
FAULTY record 25

# A record above an earlier one
SCRIPT
ASK 2 metadata 12 0 GET /client?client_id=c2 Host:accounts.idp.example\r\nOrigin:https://shop.example\r\n
ASK 1 accounts 8 0 GET /accounts Host:accounts.idp.example\r\nCookie:sid=1\r\n
= faulty
FAULTY record 26

# A dialog above an earlier record
SCRIPT
ASK 2 metadata 12 0 GET /client?client_id=c2 Host:accounts.idp.example\r\nOrigin:https://shop.example\r\n
{"line":11,"out":"dialog"}
= faulty
FAULTY record 26

# A request without a provider
SCRIPT
{"call":1,"kind":"wellknown","line":5,"out":"request","text":""}
= faulty
FAULTY record 25

# An unknown kind of request
SCRIPT
ASK 1 logout 5 0 GET / Host:idp.example\r\n
= faulty
FAULTY record 25

# Bytes in two members
SCRIPT
{"call":1,"kind":"wellknown","line":5,"out":"request","provider":0,"raw":"eA==","text":"x"}
= faulty
FAULTY record 25

# A member of bytes that is no base64 beside a text
SCRIPT
{"call":1,"kind":"wellknown","line":5,"out":"request","provider":0,"raw":"eA=","text":"x"}
= faulty
FAULTY head 25

# A result that shows nothing
SCRIPT
{"call":3,"line":23,"out":"result"}
= faulty
FAULTY record 25

# A token without a text
SCRIPT
{"call":1,"line":18,"out":"result","provider":0,"see":"token","token":null}
= faulty
FAULTY record 25

# A result of a call that never began
SCRIPT
SHOWN 4 23 AbortError
= faulty
FAULTY call 25

# A request of a call that begins later
SCRIPT
ASK 2 wellknown 5 0 GET / Host:idp.example\r\n
= faulty
FAULTY call 25

# A request to a provider that the call has not
SCRIPT
ASK 1 wellknown 5 1 GET / Host:idp.example\r\n
= faulty
FAULTY call 25

# A token of a provider that the call has not
SCRIPT
ASK 1 assertion 16 0 POST /assert Host:accounts.idp.example\r\nOrigin:https://rp.example\r\nCookie:sid=1\r\n client_id=c1&account_id=u2
TOKEN 1 18 1 T1
= faulty
FAULTY call 26

# A request for accounts that is posted
SCRIPT
ASK 1 accounts 8 0 POST /accounts Host:accounts.idp.example\r\nCookie:sid=1\r\n
= faulty
FAULTY head 25

# A request for a token that is not posted
SCRIPT
ASK 1 assertion 16 0 GET /assert Host:accounts.idp.example\r\nOrigin:https://rp.example\r\nCookie:sid=1\r\n client_id=c1&account_id=u2
= faulty
FAULTY head 25

# Two hosts
SCRIPT
ASK 1 wellknown 5 0 GET / Host:idp.example\r\nHost:idp.example\r\n
= faulty
FAULTY head 25

# No host
SCRIPT
ASK 1 wellknown 5 0 GET / Accept:x\r\n
= faulty
FAULTY head 25

# A head without an end
SCRIPT
{"call":1,"kind":"wellknown","line":5,"out":"request","provider":0,"text":"GET / HTTP/1.1\r\nHost:a\r\n"}
= faulty
FAULTY head 25

# A target that is no path
SCRIPT
ASK 1 wellknown 5 0 GET :x Host:a\r\n
= faulty
FAULTY head 25

# An Origin on a request for accounts
SCRIPT
ASK 1 accounts 8 0 GET /accounts Host:accounts.idp.example\r\nOrigin:https://rp.example\r\nCookie:sid=1\r\n
= faulty
FAULTY origin 25

# A Referer without a value
SCRIPT
ASK 1 wellknown 5 0 GET / Host:idp.example\r\nREFERER:\r\n
= faulty
FAULTY origin 25

# No Origin on a request for links
SCRIPT
ASK 2 metadata 12 0 GET /client?client_id=c2 Host:accounts.idp.example\r\n
= faulty
FAULTY origin 25

# The Origin of another page
SCRIPT
ASK 2 metadata 12 0 GET /client?client_id=c2 Host:accounts.idp.example\r\nOrigin:https://rp.example\r\n
= faulty
FAULTY origin 25

# Two Origins
SCRIPT
ASK 2 metadata 12 0 GET /client?client_id=c2 Host:accounts.idp.example\r\nOrigin:https://shop.example\r\nOrigin:https://shop.example\r\n
= faulty
FAULTY origin 25

# No cookie where one is due
SCRIPT
ASK 1 accounts 8 0 GET /accounts Host:accounts.idp.example\r\n
= faulty
FAULTY cookie 25

# A cookie that the jar does not send
SCRIPT
ASK 1 accounts 8 0 GET /accounts Host:accounts.idp.example\r\nCookie:sid=1;lax=2\r\n
= faulty
FAULTY cookie 25

# Two Cookie fields
SCRIPT
ASK 1 accounts 8 0 GET /accounts Host:accounts.idp.example\r\nCookie:sid=1\r\nCookie:sid=1\r\n
= faulty
FAULTY cookie 25

# A cookie of another site
SCRIPT
ASK 1 accounts 8 0 GET /accounts Host:shop.example\r\nCookie:sid=1\r\n
= faulty
FAULTY cookie 25

# A Cookie field without a value where none is due
SCRIPT
ASK 1 accounts 8 0 GET /accounts Host:shop.example\r\nCookie:\r\n
= faulty
FAULTY cookie 25

# A cookie on a request for a configuration
SCRIPT
ASK 1 config 5 0 GET /fedcm.json Host:accounts.idp.example\r\nCookie:sid=1\r\n
= faulty
FAULTY cookie 25

# A cookie on a request for links
SCRIPT
ASK 2 metadata 12 0 GET /client?client_id=c2 Host:accounts.idp.example\r\nOrigin:https://shop.example\r\nCookie:sid=1\r\n
= faulty
FAULTY cookie 25

# Another account than the user chose
SCRIPT
ASK 1 assertion 16 0 POST /assert Host:accounts.idp.example\r\nOrigin:https://rp.example\r\nCookie:sid=1\r\n account_id=u1
= faulty
FAULTY consent 25

# No account
SCRIPT
ASK 1 assertion 16 0 POST /assert Host:accounts.idp.example\r\nOrigin:https://rp.example\r\nCookie:sid=1\r\n client_id=c1
= faulty
FAULTY consent 25

# An account that is named twice
SCRIPT
ASK 1 assertion 16 0 POST /assert Host:accounts.idp.example\r\nOrigin:https://rp.example\r\nCookie:sid=1\r\n account_id=u2&account%5fid=u2
= faulty
FAULTY consent 25

# A second request for a token
SCRIPT
ASK 1 assertion 16 0 POST /assert Host:accounts.idp.example\r\nOrigin:https://rp.example\r\nCookie:sid=1\r\n client_id=c1&account_id=u2
ASK 1 assertion 16 0 POST /assert Host:accounts.idp.example\r\nOrigin:https://rp.example\r\nCookie:sid=1\r\n client_id=c1&account_id=u2
= faulty
FAULTY consent 26

# A request for a token before the user goes on
SCRIPT
ASK 1 assertion 15 0 POST /assert Host:accounts.idp.example\r\nOrigin:https://rp.example\r\nCookie:sid=1\r\n client_id=c1&account_id=u2
= faulty
FAULTY consent 25

# A request for a token at a later line
SCRIPT
ASK 1 assertion 17 0 POST /assert Host:accounts.idp.example\r\nOrigin:https://rp.example\r\nCookie:sid=1\r\n client_id=c1&account_id=u2
= faulty
FAULTY consent 25

# A request for a token of a disconnect call
SCRIPT
ASK 3 assertion 22 0 POST /bye Host:accounts.idp.example\r\nOrigin:https://rp.example\r\nCookie:sid=1\r\n client_id=c1&account_hint=u2
= faulty
FAULTY consent 25

# Another token than the reply has
SCRIPT
ASK 1 assertion 16 0 POST /assert Host:accounts.idp.example\r\nOrigin:https://rp.example\r\nCookie:sid=1\r\n client_id=c1&account_id=u2
TOKEN 1 18 0 T2
= faulty
FAULTY token 26

# A token that was not asked for
SCRIPT
TOKEN 1 18 0 T1
= faulty
FAULTY token 25

# A token in the result of another call
SCRIPT
ASK 1 assertion 16 0 POST /assert Host:accounts.idp.example\r\nOrigin:https://rp.example\r\nCookie:sid=1\r\n client_id=c1&account_id=u2
ASK 2 assertion 17 0 POST /assert Host:accounts.idp.example\r\nOrigin:https://shop.example\r\nCookie:sid=1\r\n account_id=u1
TOKEN 1 19 0 T2
= faulty
FAULTY token 27

# A second token
SCRIPT
ASK 1 assertion 16 0 POST /assert Host:accounts.idp.example\r\nOrigin:https://rp.example\r\nCookie:sid=1\r\n client_id=c1&account_id=u2
TOKEN 1 18 0 T1
TOKEN 1 18 0 T1
= faulty
FAULTY token 27

# A token after another result
SCRIPT
ASK 1 assertion 16 0 POST /assert Host:accounts.idp.example\r\nOrigin:https://rp.example\r\nCookie:sid=1\r\n client_id=c1&account_id=u2
SHOWN 1 18 AbortError
TOKEN 1 18 0 T1
= faulty
FAULTY token 27

# A token at the line of another reply
SCRIPT
ASK 1 assertion 16 0 POST /assert Host:accounts.idp.example\r\nOrigin:https://rp.example\r\nCookie:sid=1\r\n client_id=c1&account_id=u2
TOKEN 1 19 0 T1
= faulty
FAULTY token 26

# Each page gets the token of its own call
HEADER
LOAD 1 https://rp.example/
GET 1 1
WELL_KNOWN_REPLY 1
CONFIG_REPLY 1
ACCOUNTS_REPLY 1
METADATA_REPLY 1
{"do":"continue","call":1}
ASSERTION_REPLY 0 T1
NEXT
ASK 1 assertion 8 0 POST /assert Host:accounts.idp.example\r\nOrigin:https://rp.example\r\n account_id=u1
TOKEN 1 9 0 T1
= done
AUDITED 2

# A page that was loaded after its call began gets none
HEADER
LOAD 1 https://rp.example/
GET 1 1
WELL_KNOWN_REPLY 1
CONFIG_REPLY 1
ACCOUNTS_REPLY 1
METADATA_REPLY 1
{"do":"continue","call":1}
LOAD 1 https://rp.example/
ASSERTION_REPLY 0 T1
NEXT
ASK 1 assertion 8 0 POST /assert Host:accounts.idp.example\r\nOrigin:https://rp.example\r\n account_id=u1
TOKEN 1 10 0 T1
= faulty
FAULTY token 13

# A page that was closed
HEADER
LOAD 1 https://rp.example/
GET 1 1
WELL_KNOWN_REPLY 1
CONFIG_REPLY 1
ACCOUNTS_REPLY 1
METADATA_REPLY 1
{"do":"continue","call":1}
{"do":"closepage","page":1}
ASSERTION_REPLY 0 T1
NEXT
ASK 1 assertion 8 0 POST /assert Host:accounts.idp.example\r\nOrigin:https://rp.example\r\n account_id=u1
TOKEN 1 10 0 T1
= faulty
FAULTY token 13

# The provider that was chosen is asked, and its token given
HEADER
LOAD 1 https://rp.example/
TWO_GET
WELL_KNOWN_REPLY 1
CONFIG_REPLY 1
ACCOUNTS_REPLY 1
SECOND_REPLY wellknown  {\"provider_urls\":[\"https://id.other.example/fedcm.json\"]}
SECOND_REPLY config  {\"accounts_endpoint\":\"/a\",\"id_assertion_endpoint\":\"/t\",\"login_url\":\"/l\"}
SECOND_REPLY accounts  {\"accounts\":[{\"id\":\"u1\",\"name\":\"A\",\"email\":\"a@b.example\"}]}
{"do":"choose","call":1,"provider":1,"account":"u1"}
{"do":"continue","call":1}
ASSERTION_REPLY 0 T1
ASSERTION_REPLY 1 T2
NEXT
ASK 1 assertion 11 1 POST /t Host:id.other.example\r\nOrigin:https://rp.example\r\n account_id=u1
TOKEN 1 13 1 T2
= done
AUDITED 2

# The other provider is asked for a token
HEADER
LOAD 1 https://rp.example/
TWO_GET
WELL_KNOWN_REPLY 1
CONFIG_REPLY 1
ACCOUNTS_REPLY 1
SECOND_REPLY wellknown  {\"provider_urls\":[\"https://id.other.example/fedcm.json\"]}
SECOND_REPLY config  {\"accounts_endpoint\":\"/a\",\"id_assertion_endpoint\":\"/t\",\"login_url\":\"/l\"}
SECOND_REPLY accounts  {\"accounts\":[{\"id\":\"u1\",\"name\":\"A\",\"email\":\"a@b.example\"}]}
{"do":"choose","call":1,"provider":1,"account":"u1"}
{"do":"continue","call":1}
ASSERTION_REPLY 0 T1
ASSERTION_REPLY 1 T2
NEXT
ASK 1 assertion 11 0 POST /assert Host:accounts.idp.example\r\nOrigin:https://rp.example\r\n account_id=u1
= faulty
FAULTY consent 15

# A token of the provider that was not asked
HEADER
LOAD 1 https://rp.example/
TWO_GET
WELL_KNOWN_REPLY 1
CONFIG_REPLY 1
ACCOUNTS_REPLY 1
SECOND_REPLY wellknown  {\"provider_urls\":[\"https://id.other.example/fedcm.json\"]}
SECOND_REPLY config  {\"accounts_endpoint\":\"/a\",\"id_assertion_endpoint\":\"/t\",\"login_url\":\"/l\"}
SECOND_REPLY accounts  {\"accounts\":[{\"id\":\"u1\",\"name\":\"A\",\"email\":\"a@b.example\"}]}
{"do":"choose","call":1,"provider":1,"account":"u1"}
{"do":"continue","call":1}
ASSERTION_REPLY 0 T1
ASSERTION_REPLY 1 T2
NEXT
ASK 1 assertion 11 1 POST /t Host:id.other.example\r\nOrigin:https://rp.example\r\n account_id=u1
TOKEN 1 12 0 T1
= faulty
FAULTY token 16

# Another provider than was chosen at the line of the choice
HEADER
LOAD 1 https://rp.example/
TWO_GET
WELL_KNOWN_REPLY 1
CONFIG_REPLY 1
ACCOUNTS_REPLY 1
SECOND_REPLY wellknown  {\"provider_urls\":[\"https://id.other.example/fedcm.json\"]}
SECOND_REPLY config  {\"accounts_endpoint\":\"/a\",\"id_assertion_endpoint\":\"/t\",\"login_url\":\"/l\"}
SECOND_REPLY accounts  {\"accounts\":[{\"id\":\"u1\",\"name\":\"A\",\"email\":\"a@b.example\"}]}
{"do":"choose","call":1,"provider":1,"account":"u1"}
{"do":"continue","call":1}
ASSERTION_REPLY 0 T1
ASSERTION_REPLY 1 T2
NEXT
ASK 1 assertion 10 1 POST /t Host:id.other.example\r\nOrigin:https://rp.example\r\n account_id=u1
= faulty
FAULTY consent 15

# A bad line of the script
HEADER
LOAD 1 https://rp.example/
{"do":"at"}
NEXT
x
= bad-script
{"cause":"member","line":3,"member":"time","out":"bad"}

# A script without a line
NEXT
END 22
= bad-script
BAD not-json 1

# No dividing line
HEADER
LOAD 1 https://rp.example/
= bad-script
BAD no-next 3

# The dividing line of two scripts
HEADER
{"next":"script"}
HEADER
= bad-script
BAD no-kind 2

# Space around the dividing line, and a second one
HEADER
 {"next":"transcript"} 
NEXT
= faulty
FAULTY record 3"##
}

#[test]
fn audits(rt: HostRuntime) -> Result<(), Fail> {
    assert_eq!(rt; first_wrong(rt.alloc(), "audit", scenarios())?, ("", 65));
    Ok(())
}

const NEXT: &str = "{\"next\":\"transcript\"}\n";

// A script and a transcript of which each record keeps the rules.
fn whole(alloc: Global) -> Result<String, NoRoom> {
    let rows = block(scenarios(), "# Each record keeps the rules").unwrap_or("");
    let (rows, _) = rows.split_once("= ").unwrap_or((rows, ""));
    told(alloc, scenarios(), rows)
}

// The same, with a blank line before each record, and CR at the end of each line of the transcript.
fn spaced(alloc: Global) -> Result<String, NoRoom> {
    let text = whole(alloc)?;
    let (script, records) = text.as_str().split_once(NEXT).unwrap_or(("", ""));
    let mut spaced = String::new(alloc);
    spaced.push_str(script)?;
    spaced.push_str(NEXT)?;
    for record in records.split_terminator('\n') {
        spaced.push_str(" \t\r\n")?;
        spaced.push_str(record)?;
        spaced.push_str("\r\n")?;
    }
    Ok(spaced)
}

#[test]
fn blank_lines_are_no_records(rt: HostRuntime) -> Result<(), Fail> {
    let alloc = rt.alloc();
    let text = spaced(alloc)?;
    let told = "{\"out\":\"audited\",\"records\":11}\n";
    assert!(rt; gives(alloc, "audit", text.as_str(), "done", told)?);
    Ok(())
}

// How an audit ends whose take or put of this number fails, and how many bytes are written.
fn end_at(alloc: Global, take: u64, put: u64) -> Result<(Status, usize), NoRoom> {
    let limits = Limits {
        failing_take: take,
        failing_put: put,
        most_put: 5,
        ..QUIET
    };
    let text = whole(alloc)?;
    let (status, told) = ran(alloc, "audit", text.as_str(), limits)?;
    Ok((status, told.len()))
}

#[test]
fn a_fault_ends_the_audit(rt: HostRuntime) -> Result<(), Fail> {
    let alloc = rt.alloc();
    assert_eq!(rt; end_at(alloc, 1, 0)?, (Status::ReadFault, 0));
    assert_eq!(rt; end_at(alloc, 200, 0)?, (Status::ReadFault, 0));
    assert_eq!(rt; end_at(alloc, 0, 1)?, (Status::WriteFault, 0));
    assert_eq!(rt; end_at(alloc, 0, 4)?, (Status::WriteFault, 15));
    Ok(())
}
