//! Two scripts and a dividing line: whether they are twins.
use crate::runs::first_wrong;
use std::test::Fail;

// Lines of their own, and scenarios (lines.rt).
fn scenarios() -> &'static str {
    r##"NEXT
{"next":"script"}

BLANK
#

OTHER_GET
{"do":"get","page":1,"call":1,"context":"use",\
"providers":[{"config":"https://accounts.idp.example/fedcm.json","client":"x"}]}

OTHER_SHOP_GET
{"do":"get","page":2,"call":2,\
"providers":[{"config":"https://accounts.idp.example/fedcm.json","client":"y","params":"p"}]}

CONFIG
{"do":"reply","call":#,"to":"config","text":"HTTP/1.1 200 OK\r\nContent-Type: application/json\r\n\r\n\
{\"accounts_endpoint\":\"/accounts\",\"id_assertion_endpoint\":\"/assert\",\"login_url\":\"/login\",\
\"client_metadata_endpoint\":\"/client\"}"}

KEPT
{"do":"have","what":"kept","page":"https://rp.example/","provider":"https://accounts.idp.example/","account":"#"}

SILENT
{"do":"have","what":"silent","origin":"#"}

SILENT_GET
{"do":"get","page":1,"call":1,"mediation":"silent",\
"providers":[{"config":"https://accounts.idp.example/fedcm.json","client":"c1"}]}

DISCONNECT
{"do":"disconnect","page":1,"call":3,"config":"https://accounts.idp.example/fedcm.json","client":"#","hint":"#"}

DISCONNECT_CONFIG
{"do":"reply","call":3,"to":"config","text":"HTTP/1.1 200 OK\r\nContent-Type: application/json\r\n\r\n\
{\"accounts_endpoint\":\"/accounts\",\"id_assertion_endpoint\":\"/assert\",\"login_url\":\"/login\",\
\"disconnect_endpoint\":\"/disconnect\"}"}

TWINS
{"compared":#,"out":"twins","quiet":#}

NOT_TWINS
{"clause":"#","event":#,"out":"not-twins"}

# Twins differ in relying parties
HEADER
LOAD 1 https://rp.example/
LOAD 2 https://shop.example/
GET 1 1
GET 2 2
WELL_KNOWN_REPLY 1
CONFIG 1
WELL_KNOWN_REPLY 2
CONFIG 2
ACCOUNTS_REPLY 1
ACCOUNTS_REPLY 2
METADATA_REPLY 1
METADATA_REPLY 2
NEXT
HEADER
LOAD 1 https://a.example/
LOAD 2 https://b.example/
OTHER_GET
OTHER_SHOP_GET
WELL_KNOWN_REPLY 1
CONFIG 1
WELL_KNOWN_REPLY 2
CONFIG 2
ACCOUNTS_REPLY 1
ACCOUNTS_REPLY 2
METADATA_REPLY 2
METADATA_REPLY 1
= done
TWINS 6 10

# Both pages have one origin in the second script alone
HEADER
LOAD 1 https://rp.example/
LOAD 2 https://shop.example/
GET 1 1
NEXT
HEADER
LOAD 1 https://a.example/
LOAD 2 https://a.example/
OTHER_GET
= not-twins
NOT_TWINS origins 2

# Both pages have one origin in the first script alone
HEADER
LOAD 1 https://a.example/
LOAD 2 https://a.example/
NEXT
HEADER
LOAD 1 https://rp.example/
LOAD 2 https://shop.example/
= not-twins
NOT_TWINS origins 2

# In one world the prompt is ready, in the other it waits for the client's links
HEADER
LOAD 1 https://rp.example/
GET 1 1
WELL_KNOWN_REPLY 1
CONFIG 1
ACCOUNTS_REPLY 1
METADATA_REPLY 1
{"do":"continue","call":1}
NEXT
HEADER
LOAD 1 https://a.example/
OTHER_GET
WELL_KNOWN_REPLY 1
CONFIG 1
ACCOUNTS_REPLY 1
{"do":"continue","call":1}
= done
TWINS 3 5

# Headers of two times
HEADER
LOAD 1 https://rp.example/
NEXT
{"fedcm":1,"now":1700000001,"rules":""}
LOAD 1 https://rp.example/
= not-twins
NOT_TWINS header 0

# Events of two kinds
HEADER
LOAD 1 https://rp.example/
{"do":"abort","call":1}
NEXT
HEADER
LOAD 1 https://rp.example/
{"do":"cancel","call":1}
= not-twins
NOT_TWINS kind 2

# Aborts of two calls
HEADER
LOAD 1 https://rp.example/
{"do":"abort","call":1}
NEXT
HEADER
LOAD 1 https://rp.example/
{"do":"abort","call":2}
= not-twins
NOT_TWINS member 2

# Pages over https and http
HEADER
LOAD 1 https://rp.example/
LOAD 2 https://b.example/
NEXT
HEADER
LOAD 1 https://rp.example/
LOAD 2 http://b.example/
= not-twins
NOT_TWINS load 2

# An origin twice in the first script alone
HEADER
LOAD 1 https://rp.example/
LOAD 2 https://rp.example/
NEXT
HEADER
LOAD 1 https://rp.example/
LOAD 2 https://b.example/
= not-twins
NOT_TWINS origins 2

# One event more
HEADER
LOAD 1 https://rp.example/
{"do":"abort","call":1}
NEXT
HEADER
LOAD 1 https://rp.example/
BLANK
= not-twins
NOT_TWINS count 2

# A page of the provider's own party has to be the same in both scripts
HEADER
LOAD 1 https://rp.example/
{"do":"load","page":2,"url":"https://www.idp.example/","text":"HTTP/1.1 200 OK\r\nSet-Login: logged-in\r\n\r\n"}
GET 1 1
NEXT
HEADER
LOAD 1 https://a.example/
{"do":"load","page":2,"url":"https://www.idp.example/","text":"HTTP/1.1 200 OK\r\nSet-Login: logged-in\r\n\r\n"}
OTHER_GET
= done
TWINS 2 3

# The same page with another reply
HEADER
LOAD 1 https://rp.example/
{"do":"load","page":2,"url":"https://www.idp.example/","text":"HTTP/1.1 200 OK\r\nSet-Login: logged-in\r\n\r\n"}
GET 1 1
NEXT
HEADER
LOAD 1 https://a.example/
LOAD 2 https://www.idp.example/
OTHER_GET
= not-twins
NOT_TWINS load 2

# A page of another party
HEADER
LOAD 1 https://rp.example/
{"do":"load","page":2,"url":"https://www.idp.example/","text":"HTTP/1.1 200 OK\r\nSet-Login: logged-in\r\n\r\n"}
GET 1 1
NEXT
HEADER
LOAD 1 https://a.example/
LOAD 2 https://b.example/
OTHER_GET
= not-twins
NOT_TWINS load 2

# No line
= bad-script
BAD not-json 1

# No first script
NEXT
HEADER
= bad-script
BAD not-json 1

# No dividing line
HEADER
LOAD 1 https://rp.example/
= bad-script
BAD no-next 3

# No second script
HEADER
LOAD 1 https://rp.example/
NEXT
= bad-script
BAD not-json 4

# A second dividing line
HEADER
LOAD 1 https://rp.example/
NEXT
HEADER
NEXT
= bad-script
BAD no-kind 5

# A bad line before the dividing line
HEADER
{"do":"abort"}
NEXT
= bad-script
{"cause":"member","line":2,"member":"call","out":"bad"}

# A permission that is kept in one script alone is not compared
HEADER
KEPT u9
LOAD 1 https://rp.example/
GET 1 1
WELL_KNOWN_REPLY 1
CONFIG 1
ACCOUNTS_REPLY 1
NEXT
HEADER
LOAD 1 https://a.example/
OTHER_GET
WELL_KNOWN_REPLY 1
CONFIG 1
ACCOUNTS_REPLY 1
= done
TWINS 3 5

# An account is reselected by one, so a token is asked for
HEADER
KEPT u1
LOAD 1 https://rp.example/
GET 1 1
WELL_KNOWN_REPLY 1
CONFIG 1
ACCOUNTS_REPLY 1
NEXT
HEADER
LOAD 1 https://a.example/
OTHER_GET
WELL_KNOWN_REPLY 1
CONFIG 1
ACCOUNTS_REPLY 1
= done
TWINS 3 4

# The origin of a flag is free
HEADER
SILENT https://rp.example/
LOAD 1 https://rp.example/
SILENT_GET
NEXT
HEADER
SILENT https://a.example/
LOAD 1 https://a.example/
SILENT_GET
= done
TWINS 0 3

# The origin of a flag is that of a page in both scripts or in neither
HEADER
SILENT https://rp.example/
LOAD 1 https://rp.example/
SILENT_GET
NEXT
HEADER
SILENT https://shop.example/
LOAD 1 https://a.example/
SILENT_GET
= not-twins
NOT_TWINS origins 2

# A flag in the place of a login status
HEADER
SILENT https://rp.example/
NEXT
HEADER
{"do":"have","what":"login","origin":"https://rp.example/","status":"logged-in"}
= not-twins
NOT_TWINS member 1

# A page prevents silent access in both
HEADER
LOAD 1 https://rp.example/
{"do":"prevent","page":1}
SILENT_GET
NEXT
HEADER
LOAD 1 https://a.example/
{"do":"prevent","page":1}
SILENT_GET
= done
TWINS 0 3

# The first requests of a disconnect are not compared
HEADER
KEPT u1
LOAD 1 https://rp.example/
DISCONNECT c1 u1
NEXT
HEADER
LOAD 1 https://a.example/
DISCONNECT x u1
= done
TWINS 0 2

# The last request of a disconnect ends what is compared
HEADER
KEPT u1
LOAD 1 https://rp.example/
DISCONNECT c1 u1
WELL_KNOWN_REPLY 3
DISCONNECT_CONFIG
NEXT
HEADER
LOAD 1 https://a.example/
DISCONNECT x u1
WELL_KNOWN_REPLY 3
DISCONNECT_CONFIG
= done
TWINS 0 3

# Disconnects of two accounts
HEADER
LOAD 1 https://rp.example/
DISCONNECT c1 u1
NEXT
HEADER
LOAD 1 https://rp.example/
DISCONNECT c1 u2
= not-twins
NOT_TWINS member 2

# The party of a disconnect's provider is one of those from which pages have to be far
HEADER
LOAD 1 https://rp.example/
LOAD 2 https://www.idp.example/
DISCONNECT c1 u1
NEXT
HEADER
LOAD 1 https://a.example/
LOAD 2 https://b.example/
DISCONNECT c1 u1
= not-twins
NOT_TWINS load 2"##
}

#[test]
fn twins(rt: HostRuntime) -> Result<(), Fail> {
    assert_eq!(rt; first_wrong(rt.alloc(), "twin", scenarios())?, ("", 29));
    Ok(())
}
