//! Login windows and active calls: whole scripts and their transcripts.
use crate::runs::first_wrong;
use std::test::Fail;

// Lines of their own, and scenarios (lines.rt).
fn scenarios() -> &'static str {
    r##"ACTIVE_GET
{"do":"get","page":#,"call":#,"mode":"active","activation":true,\
"providers":[{"config":"https://accounts.idp.example/fedcm.json","client":"c1","nonce":"n1"}]}

SHORT_CONFIG_REPLY
{"do":"reply","call":2,"to":"config","text":"HTTP/1.1 200 OK\r\nContent-Type: application/json\r\n\r\n\
{\"accounts_endpoint\":\"/accounts\",\"id_assertion_endpoint\":\"/assert\",\"login_url\":\"/login\"}"}

SIGNED_IN
{"do":"idpclose","page":#}

WINDOW
{"call":#,"line":#,"out":"window","provider":0,"url":"https://accounts.idp.example/login"}

# The page of the first closes, so the second alone goes on
HEADER
LOAD 1 https://rp.example/
LOAD 2 https://shop.example/
ACTIVE_GET 1 1
ACTIVE_GET 2 2
WELL_KNOWN_REPLY 1
CONFIG_REPLY 1
WELL_KNOWN_REPLY 2
SHORT_CONFIG_REPLY
LOST_ACCOUNTS 1
LOST_ACCOUNTS 2
{"do":"closepage","page":1}
LOAD 9 https://accounts.idp.example/login
SIGNED_IN 9
SIGNED_IN 9
= done
WELL_KNOWN_REQUEST 1 4
CONFIG_REQUEST 1 4
WELL_KNOWN_REQUEST 2 5
CONFIG_REQUEST 2 5
ACCOUNTS_REQUEST 1 7
ACCOUNTS_REQUEST 2 9
WINDOW 1 10
WINDOW 2 11
ACCOUNTS_REQUEST 2 14
IGNORED 15 nobody-waits
END 14

# Both go on in the order of waiting; the second waits again before the first does, and goes on before it then
HEADER
LOAD 1 https://rp.example/
LOAD 2 https://shop.example/
ACTIVE_GET 1 1
ACTIVE_GET 2 2
WELL_KNOWN_REPLY 1
CONFIG_REPLY 1
WELL_KNOWN_REPLY 2
SHORT_CONFIG_REPLY
LOST_ACCOUNTS 1
LOST_ACCOUNTS 2
LOAD 9 https://accounts.idp.example/login
SIGNED_IN 9
LOST_ACCOUNTS 2
LOST_ACCOUNTS 1
SIGNED_IN 9
= done
WELL_KNOWN_REQUEST 1 4
CONFIG_REQUEST 1 4
WELL_KNOWN_REQUEST 2 5
CONFIG_REQUEST 2 5
ACCOUNTS_REQUEST 1 7
ACCOUNTS_REQUEST 2 9
WINDOW 1 10
WINDOW 2 11
ACCOUNTS_REQUEST 1 13
ACCOUNTS_REQUEST 2 13
WINDOW 2 14
WINDOW 1 15
ACCOUNTS_REQUEST 2 16
ACCOUNTS_REQUEST 1 16
END 15

# A page of another origin, one over http, and one that does not stand
HEADER
LOAD 1 https://rp.example/
LOAD 2 https://shop.example/
ACTIVE_GET 1 1
ACTIVE_GET 2 2
WELL_KNOWN_REPLY 1
CONFIG_REPLY 1
WELL_KNOWN_REPLY 2
SHORT_CONFIG_REPLY
LOST_ACCOUNTS 1
LOST_ACCOUNTS 2
SIGNED_IN 2
LOAD 9 http://accounts.idp.example/login
SIGNED_IN 9
SIGNED_IN 8
= done
WELL_KNOWN_REQUEST 1 4
CONFIG_REQUEST 1 4
WELL_KNOWN_REQUEST 2 5
CONFIG_REQUEST 2 5
ACCOUNTS_REQUEST 1 7
ACCOUNTS_REQUEST 2 9
WINDOW 1 10
WINDOW 2 11
IGNORED 12 nobody-waits
IGNORED 14 page-insecure
IGNORED 15 no-page
END 14

# The user asks for the window at the dialog, and shuts it
HEADER
LOGIN logged-in
LOAD 1 https://rp.example/
GET 1 1
WELL_KNOWN_REPLY 1
CONFIG_REPLY 1
LOST_ACCOUNTS 1
{"do":"signin","call":1}
{"do":"shutwindow","call":1}
= done
WELL_KNOWN_REQUEST 1 4
CONFIG_REQUEST 1 4
ACCOUNTS_REQUEST 1 6
MISMATCH 7
WINDOW 1 8
FAILED 1 9 1 window-shut
END 8

# An active call without the user's activation fails at once; with it a call goes on where the user is logged out
HEADER
LOAD 1 https://rp.example/
{"do":"get","page":1,"call":2,"mode":"active","providers":[{"config":"https://accounts.idp.example/fedcm.json","client":"c1"}]}
ACTIVE_GET 1 1
LOAD 9 https://accounts.idp.example/login
{"do":"setstatus","page":9,"status":"logged-out"}
= done
FAILED 2 3 1 no-activation
WELL_KNOWN_REQUEST 1 4
CONFIG_REQUEST 1 4
END 5

# A passive call does not
HEADER
LOAD 9 https://accounts.idp.example/login
{"do":"setstatus","page":9,"status":"logged-out"}
LOAD 1 https://rp.example/
GET 1 1
= done
FAILED 1 5 1 logged-out
END 4

# A line of no kind
HEADER
LOAD 1 https://rp.example/
{"do":"jump"}
= bad-script
BAD no-kind 3

# An abort without its call
HEADER
LOAD 1 https://rp.example/
{"do":"abort"}
= bad-script
{"cause":"member","line":3,"member":"call","out":"bad"}

# A close without its page
HEADER
LOAD 1 https://rp.example/
{"do":"idpclose"}
= bad-script
{"cause":"member","line":3,"member":"page","out":"bad"}

# A page of no web URL
HEADER
LOAD 1 https://rp.example/
LOAD 2 ftp://x/
= bad-script
BAD bad-url 3

# A fact that comes late
HEADER
LOAD 1 https://rp.example/
{"do":"have","what":"silent","origin":"https://rp.example"}
= bad-script
BAD have-late 3

# A time that goes back
HEADER
LOAD 1 https://rp.example/
{"do":"at","time":1699999999}
= bad-script
BAD time-back 3

# A disconnect with the number of a get
HEADER
LOAD 2 https://shop.example/
LOAD 1 https://rp.example/
GET 1 1
{"do":"disconnect","page":1,"call":1,"config":"https://accounts.idp.example/fedcm.json","client":"c1","hint":"u1"}
= bad-script
WELL_KNOWN_REQUEST 1 4
CONFIG_REQUEST 1 4
BAD call-twice 5"##
}

#[test]
fn windows(rt: HostRuntime) -> Result<(), Fail> {
    assert_eq!(rt; first_wrong(rt.alloc(), "run", scenarios())?, ("", 13));
    Ok(())
}
