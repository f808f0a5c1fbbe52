//! Calls up to their accounts request: whole scripts and their transcripts.
use crate::runs::first_wrong;
use std::test::Fail;

// Lines of their own, and scenarios (lines.rt).
fn scenarios() -> &'static str {
    r##"SUFFIXES
{"fedcm":1,"now":1700000000,"rules":"com\nblog.example.com"}

GET_OF_EXAMPLE
{"do":"get","page":1,"call":1,"providers":[{"config":"https://example.com/fedcm.json","client":"c1"}]}

WELL_KNOWN_REPLY_OF_EXAMPLE
{"do":"reply","call":1,"to":"wellknown","text":"HTTP/1.1 200 OK\r\nContent-Type: application/json\r\n\r\n\
{\"provider_urls\":[\"https://example.com/fedcm.json\"]}"}

WELL_KNOWN_REQUEST_OF_EXAMPLE
{"call":1,"kind":"wellknown","line":4,"out":"request","provider":0,"text":"GET /.well-known/web-identity HTTP/1.1\r\n\
Host: example.com\r\nAccept: application/json\r\nSec-Fetch-Dest: webidentity\r\n\r\n"}

CONFIG_REQUEST_OF_EXAMPLE
{"call":1,"kind":"config","line":4,"out":"request","provider":0,"text":"GET /fedcm.json HTTP/1.1\r\n\
Host: example.com\r\nAccept: application/json\r\nSec-Fetch-Dest: webidentity\r\n\r\n"}

# A bad line follows an ignored event
HEADER
{"do":"closepage","page":7}
{"do":\
= bad-script
IGNORED 2 no-page
BAD not-json 3

# A domain cookie stays below its public suffix
SUFFIXES
{"do":"load","page":2,"url":"https://foo.blog.example.com/","text":"HTTP/1.1 200 OK\r\n\
Set-Cookie: x=1; Domain=example.com; Path=/; SameSite=None; Secure\r\n\r\n"}
LOAD 1 https://rp.example/
GET_OF_EXAMPLE
WELL_KNOWN_REPLY_OF_EXAMPLE
CONFIG_REPLY 1
= done
WELL_KNOWN_REQUEST_OF_EXAMPLE
CONFIG_REQUEST_OF_EXAMPLE
{"call":1,"kind":"accounts","line":6,"out":"request","provider":0,"text":"GET /accounts HTTP/1.1\r\nHost: example.com\r\n\
Accept: application/json\r\nSec-Fetch-Dest: webidentity\r\n\r\n"}
END 5

# A domain cookie goes to its whole site
SUFFIXES
{"do":"load","page":2,"url":"https://a.example.com/","text":"HTTP/1.1 200 OK\r\nSet-Cookie: x=1; Domain=example.com; Path=/; SameS\
ite=None; Secure\r\n\r\n"}
LOAD 1 https://rp.example/
GET_OF_EXAMPLE
WELL_KNOWN_REPLY_OF_EXAMPLE
CONFIG_REPLY 1
= done
WELL_KNOWN_REQUEST_OF_EXAMPLE
CONFIG_REQUEST_OF_EXAMPLE
{"call":1,"kind":"accounts","line":6,"out":"request","provider":0,"text":"GET /accounts HTTP/1.1\r\nHost: example.com\r\n\
Accept: application/json\r\nSec-Fetch-Dest: webidentity\r\nCookie: x=1\r\n\r\n"}
END 5

# Cookies go in order
HEADER
{"do":"load","page":2,"url":"https://accounts.idp.example/login/start","text":"HTTP/1.1 200 OK\r\n\
Set-Cookie: a=1; Path=/; SameSite=None; Secure\r\nSet-Cookie: b=2; Path=/accounts; SameSite=None; Secure\r\n\
Set-Cookie: c=3; Path=/\r\nSet-Cookie: d=4; Domain=idp.example; Path=/; SameSite=None; Secure\r\n\
Set-Cookie: e=6; SameSite=None; Secure\r\nSet-Cookie: a=5; Path=/; SameSite=None; Secure\r\n\r\n"}
LOAD 1 https://rp.example/
GET 1 1
WELL_KNOWN_REPLY 1
CONFIG_REPLY 1
= done
WELL_KNOWN_REQUEST 1 4
CONFIG_REQUEST 1 4
{"call":1,"kind":"accounts","line":6,"out":"request","provider":0,"text":"GET /accounts HTTP/1.1\r\nHost: accounts.idp.example\r\n\
Accept: application/json\r\nSec-Fetch-Dest: webidentity\r\nCookie: b=2; a=5; d=4\r\n\r\n"}
END 5

# A well-known file names one configuration twice
HEADER
LOAD 1 https://rp.example/
GET 1 1
{"do":"reply","call":1,"to":"wellknown","text":"HTTP/1.1 200 OK\r\nContent-Type: application/json\r\n\r\n\
{\"provider_urls\":[\"https://accounts.idp.example/fedcm.json\",\"https://accounts.idp.example/fedcm.json\"]}"}
= done
WELL_KNOWN_REQUEST 1 3
CONFIG_REQUEST 1 3
FAILED 1 4 1 well-known-shape
END 3

# A well-known file names another configuration
HEADER
LOAD 1 https://rp.example/
GET 1 1
{"do":"reply","call":1,"to":"wellknown","text":"HTTP/1.1 200 OK\r\nContent-Type: application/json\r\n\r\n\
{\"provider_urls\":[\"https://accounts.idp.example/other.json\"]}"}
= done
WELL_KNOWN_REQUEST 1 3
CONFIG_REQUEST 1 3
FAILED 1 4 1 well-known-other
END 3

# A well-known file names the configuration by a URL without its scheme
HEADER
LOAD 1 https://rp.example/
GET 1 1
{"do":"reply","call":1,"to":"wellknown","text":"HTTP/1.1 200 OK\r\nContent-Type: application/json\r\n\r\n\
{\"provider_urls\":[\"//accounts.idp.example/fedcm.json\"]}"}
= done
WELL_KNOWN_REQUEST 1 3
CONFIG_REQUEST 1 3
END 3

# A well-known file names the endpoints
HEADER
LOAD 1 https://rp.example/
GET 1 1
{"do":"reply","call":1,"to":"wellknown","text":"HTTP/1.1 200 OK\r\nContent-Type: application/json\r\n\r\n\
{\"accounts_endpoint\":\"https://accounts.idp.example/accounts\",\"login_url\":\"https://accounts.idp.example/login\"}"}
CONFIG_REPLY 1
= done
WELL_KNOWN_REQUEST 1 3
CONFIG_REQUEST 1 3
ACCOUNTS_REQUEST 1 5
END 4

# The configuration names another accounts endpoint
HEADER
LOAD 1 https://rp.example/
GET 1 1
{"do":"reply","call":1,"to":"wellknown","text":"HTTP/1.1 200 OK\r\nContent-Type: application/json\r\n\r\n\
{\"accounts_endpoint\":\"/accounts\",\"login_url\":\"https://accounts.idp.example/login\"}"}
CONFIG_REPLY 1
= done
WELL_KNOWN_REQUEST 1 3
CONFIG_REQUEST 1 3
{"call":1,"detail":"accounts_endpoint","line":5,"out":"result","page":1,"see":"NetworkError","step":"config-other"}
END 4

# A well-known file names one endpoint alone
HEADER
LOAD 1 https://rp.example/
GET 1 1
{"do":"reply","call":1,"to":"wellknown","text":"HTTP/1.1 200 OK\r\nContent-Type: application/json\r\n\r\n\
{\"login_url\":\"https://accounts.idp.example/login\"}"}
= done
WELL_KNOWN_REQUEST 1 3
CONFIG_REQUEST 1 3
FAILED 1 4 1 well-known-shape
END 3

# First replies come in either order
HEADER
LOAD 1 https://rp.example/
GET 1 1
CONFIG_REPLY 1
{"do":"reply","call":1,"to":"wellknown","text":"HTTP/1.1 404 Not Found\r\nContent-Type: application/json\r\n\r\n{}"}
= done
WELL_KNOWN_REQUEST 1 3
CONFIG_REQUEST 1 3
{"call":1,"detail":"status","line":5,"out":"result","page":1,"see":"NetworkError","step":"well-known-reply"}
END 4

# A call fails where the user is logged out
HEADER
LOGIN logged-out
LOAD 1 https://rp.example/
GET 1 1
= done
FAILED 1 4 1 logged-out
END 3

# A call begins where the user is logged in
HEADER
LOGIN logged-in
LOAD 1 https://rp.example/
GET 1 1
= done
WELL_KNOWN_REQUEST 1 4
CONFIG_REQUEST 1 4
END 3

# An abort names a call
HEADER
LOAD 1 https://rp.example/
{"do":"abort"}
= bad-script
{"cause":"member","line":3,"member":"call","out":"bad"}"##
}

#[test]
fn calls(rt: HostRuntime) -> Result<(), Fail> {
    assert_eq!(rt; first_wrong(rt.alloc(), "run", scenarios())?, ("", 14));
    Ok(())
}
