//! Calls with several providers: whole scripts and their transcripts.
use crate::runs::first_wrong;
use std::test::Fail;

// Scenarios (lines.rt): providers that drop out, reselection and choices.
fn of_two() -> &'static str {
    r##"# One of two drops, and the other prompts
HEADER
LOAD 1 https://rp.example/
TWO
LOST 0 wellknown
SECOND_WELL_KNOWN
SECOND_CONFIG
SECOND_ACCOUNTS
SECOND_METADATA
{"do":"continue","call":1}
TOKEN_REPLY 0
TOKEN_REPLY 1
= done
WELL_KNOWN_REQUEST 1 3
CONFIG_REQUEST 1 3
SECOND_WELL_KNOWN_REQUEST 3
SECOND_CONFIG_REQUEST 3
DROPPED_BY_STATUS 4 0 well-known-reply
SECOND_ACCOUNTS_REQUEST 6
SECOND_METADATA_REQUEST 7
{"account":{"connected":false,"email":"ann@two.example","id":"u1","name":"Ann","provider":1},"call":1,"context":"signin",\
"dialog":"prompt","disclosure":true,"line":8,"out":"dialog","site":"rp.example"}
TOKEN_REQUEST 9 1 login.two.example c2 true false
IGNORED 10 not-waited
TOKEN false 11 1
END 10

# A reselection over two
HEADER
KEPT accounts.idp.example
LOAD 1 https://rp.example/
TWO
WELL_KNOWN_REPLY 1
CONFIG_REPLY 1
ACCOUNTS_REPLY 1
SECOND_WELL_KNOWN
SECOND_CONFIG
SECOND_ACCOUNTS
TOKEN_REPLY 0
= done
WELL_KNOWN_REQUEST 1 4
CONFIG_REQUEST 1 4
SECOND_WELL_KNOWN_REQUEST 4
SECOND_CONFIG_REQUEST 4
ACCOUNTS_REQUEST 1 6
SECOND_ACCOUNTS_REQUEST 9
TOKEN_REQUEST 10 0 accounts.idp.example c1 false true
TOKEN true 11 0
END 10

# No reselection where both have one
HEADER
KEPT accounts.idp.example
KEPT login.two.example
LOAD 1 https://rp.example/
TWO
WELL_KNOWN_REPLY 1
CONFIG_REPLY 1
ACCOUNTS_REPLY 1
SECOND_WELL_KNOWN
SECOND_CONFIG
SECOND_ACCOUNTS
CHOOSE 1 u2
CHOOSE 2 u1
CHOOSE 1 u1
CHOOSE 0 u1
TOKEN_REPLY 1
= done
WELL_KNOWN_REQUEST 1 5
CONFIG_REQUEST 1 5
SECOND_WELL_KNOWN_REQUEST 5
SECOND_CONFIG_REQUEST 5
ACCOUNTS_REQUEST 1 7
SECOND_ACCOUNTS_REQUEST 10
{"accounts":[{"connected":true,"email":"ann@idp.example","id":"u1","name":"Ann","provider":0},{"connected":true,\
"email":"ann@two.example","id":"u1","name":"Ann","provider":1}],"call":1,"context":"signin","dialog":"choose","line":11,"out":"dialog",\
"site":"rp.example"}
IGNORED 12 no-account
IGNORED 13 no-account
{"call":1,"kind":"assertion","line":14,"out":"request","provider":1,\
"text":"POST /assert HTTP/1.1\r\nHost: login.two.example\r\nAccept: application/json\r\nSec-Fetch-Dest: webidentity\r\nOr\
igin: https://rp.example\r\nContent-Type: application/x-www-form-urlencoded\r\nContent-Length: 77\r\n\r\nclient_id=c2&acc\
ount_id=u1&disclosure_text_shown=false&is_auto_selected=false"}
IGNORED 15 not-offered
TOKEN false 16 1
END 15

# A reselection that a drop brings about
HEADER
KEPT accounts.idp.example
LOAD 1 https://rp.example/
TWO
WELL_KNOWN_REPLY 1
CONFIG_REPLY 1
ACCOUNTS_REPLY 1
LOST 1 wellknown
SECOND_CONFIG
= done
WELL_KNOWN_REQUEST 1 4
CONFIG_REQUEST 1 4
SECOND_WELL_KNOWN_REQUEST 4
SECOND_CONFIG_REQUEST 4
ACCOUNTS_REQUEST 1 6
DROPPED_BY_STATUS 8 1 well-known-reply
TOKEN_REQUEST 8 0 accounts.idp.example c1 false true
IGNORED 9 not-waited
END 8

# An id that two providers have
HEADER
LOAD 1 https://rp.example/
TWO
WELL_KNOWN_REPLY 1
CONFIG_REPLY 1
SECOND_WELL_KNOWN
SECOND_CONFIG
SECOND_ACCOUNTS
ACCOUNTS_REPLY 1
CHOOSE 1 u1
SECOND_METADATA
{"do":"continue","call":1}
= done
WELL_KNOWN_REQUEST 1 3
CONFIG_REQUEST 1 3
SECOND_WELL_KNOWN_REQUEST 3
SECOND_CONFIG_REQUEST 3
ACCOUNTS_REQUEST 1 5
SECOND_ACCOUNTS_REQUEST 7
{"accounts":[{"connected":false,"email":"ann@idp.example","id":"u1","name":"Ann","provider":0},{"connected":false,\
"email":"ann@two.example","id":"u1","name":"Ann","provider":1}],"call":1,"context":"signin","dialog":"choose","line":9,"out":"dialog",\
"site":"rp.example"}
SECOND_METADATA_REQUEST 10
{"account":{"connected":false,"email":"ann@two.example","id":"u1","name":"Ann","provider":1},"call":1,"context":"signin",\
"dialog":"prompt","disclosure":true,"line":11,"out":"dialog","site":"rp.example"}
TOKEN_REQUEST 12 1 login.two.example c2 true false
END 11

# Hints leave accounts at one provider alone
HEADER
LOAD 1 https://rp.example/
TWO_BY_HINT ann eve
WELL_KNOWN_REPLY 1
CONFIG_REPLY 1
SECOND_WELL_KNOWN
SECOND_CONFIG
HINTED_ACCOUNTS 0
HINTED_ACCOUNTS 1
HINTED_ACCOUNTS 1
= done
WELL_KNOWN_REQUEST 1 3
CONFIG_REQUEST 1 3
SECOND_WELL_KNOWN_REQUEST 3
SECOND_CONFIG_REQUEST 3
ACCOUNTS_REQUEST 1 5
SECOND_ACCOUNTS_REQUEST 7
DROPPED 8 0 accounts-hints
SECOND_METADATA_REQUEST 9
IGNORED 10 not-waited
END 9

# The first drops at the get, the second at its first reply
HEADER
SIGNED_OUT accounts.idp.example
LOAD 1 https://rp.example/
TWO
LOST 1 wellknown
= done
DROPPED 4 0 logged-out
SECOND_WELL_KNOWN_REQUEST 4
SECOND_CONFIG_REQUEST 4
DROPPED_BY_STATUS 5 1 well-known-reply
FAILED 1 5 1 logged-out
END 4

# Both drop at the get
HEADER
SIGNED_OUT accounts.idp.example
SIGNED_OUT login.two.example
LOAD 1 https://rp.example/
TWO
SECOND_WELL_KNOWN
= done
DROPPED 5 0 logged-out
DROPPED 5 1 logged-out
FAILED 1 5 1 logged-out
IGNORED 6 call-ended
END 5

TWO
{"do":"get","page":1,"call":1,"providers":[{"config":"https://accounts.idp.example/fedcm.json","client":"c1"},\
{"config":"https://login.two.example/f.json","client":"c2"}]}

TWO_BY_HINT
{"do":"get","page":1,"call":1,"providers":[{"config":"https://accounts.idp.example/fedcm.json","client":"c1","login_hint":"#"},\
{"config":"https://login.two.example/f.json","client":"c2","login_hint":"#"}]}

SECOND_WELL_KNOWN
{"do":"reply","call":1,"provider":1,"to":"wellknown","text":"HTTP/1.1 200 OK\r\nContent-Type: application/json\r\n\r\n\
{\"provider_urls\":[\"https://login.two.example/f.json\"]}"}

SECOND_CONFIG
{"do":"reply","call":1,"provider":1,"to":"config","text":"HTTP/1.1 200 OK\r\nContent-Type: application/json\r\n\r\n\
{\"accounts_endpoint\":\"/accounts\",\"id_assertion_endpoint\":\"/assert\",\"login_url\":\"/login\",\
\"client_metadata_endpoint\":\"/client\",\"disconnect_endpoint\":\"/bye\"}"}

SECOND_ACCOUNTS
{"do":"reply","call":1,"provider":1,"to":"accounts","text":"HTTP/1.1 200 OK\r\nContent-Type: application/json\r\n\r\n\
{\"accounts\":[{\"id\":\"u1\",\"name\":\"Ann\",\"email\":\"ann@two.example\"}]}"}

HINTED_ACCOUNTS
{"do":"reply","call":1,"provider":#,"to":"accounts","text":"HTTP/1.1 200 OK\r\nContent-Type: application/json\r\n\r\n\
{\"accounts\":[{\"id\":\"u7\",\"name\":\"Eve\",\"email\":\"eve@idp.example\",\"login_hints\":[\"eve\"]}]}"}

LOST
{"do":"reply","call":1,"provider":#,"to":"#","text":"HTTP/1.1 404 Not Found\r\nContent-Type: application/json\r\n\r\n{}"}

SECOND_METADATA
{"do":"reply","call":1,"provider":1,"to":"metadata","text":"HTTP/1.1 200 OK\r\nContent-Type: application/json\r\n\r\n{}"}

TOKEN_REPLY
{"do":"reply","call":1,"provider":#,"to":"assertion","text":"HTTP/1.1 200 OK\r\nContent-Type: application/json\r\n\
Access-Control-Allow-Origin: https://rp.example\r\nAccess-Control-Allow-Credentials: true\r\n\r\n{\"token\":\"t\"}"}

KEPT
{"do":"have","what":"kept","page":"https://rp.example","provider":"https://#","account":"u1"}

SIGNED_OUT
{"do":"have","what":"login","origin":"https://#","status":"logged-out"}

CHOOSE
{"do":"choose","call":1,"provider":#,"account":"#"}

SECOND_WELL_KNOWN_REQUEST
{"call":1,"kind":"wellknown","line":#,"out":"request","provider":1,"text":"GET /.well-known/web-identity HTTP/1.1\r\n\
Host: two.example\r\nAccept: application/json\r\nSec-Fetch-Dest: webidentity\r\n\r\n"}

SECOND_CONFIG_REQUEST
{"call":1,"kind":"config","line":#,"out":"request","provider":1,"text":"GET /f.json HTTP/1.1\r\n\
Host: login.two.example\r\nAccept: application/json\r\nSec-Fetch-Dest: webidentity\r\n\r\n"}

SECOND_ACCOUNTS_REQUEST
{"call":1,"kind":"accounts","line":#,"out":"request","provider":1,"text":"GET /accounts HTTP/1.1\r\n\
Host: login.two.example\r\nAccept: application/json\r\nSec-Fetch-Dest: webidentity\r\n\r\n"}

SECOND_METADATA_REQUEST
{"call":1,"kind":"metadata","line":#,"out":"request","provider":1,"text":"GET /client?client_id=c2 HTTP/1.1\r\n\
Host: login.two.example\r\nAccept: application/json\r\nSec-Fetch-Dest: webidentity\r\n\
Origin: https://rp.example\r\n\r\n"}

TOKEN_REQUEST
{"call":1,"kind":"assertion","line":#,"out":"request","provider":#,"text":"POST /assert HTTP/1.1\r\n\
Host: #\r\nAccept: application/json\r\nSec-Fetch-Dest: webidentity\r\n\
Origin: https://rp.example\r\nContent-Type: application/x-www-form-urlencoded\r\nContent-Length: 76\r\n\r\n\
client_id=#&account_id=u1&disclosure_text_shown=#&is_auto_selected=#"}

DROPPED
{"call":1,"line":#,"out":"dropped","provider":#,"step":"#"}

DROPPED_BY_STATUS
{"call":1,"detail":"status","line":#,"out":"dropped","provider":#,"step":"#"}

TOKEN
{"auto":#,"call":1,"line":#,"out":"result","page":1,"provider":#,"see":"token","token":"t"}"##
}

// Scenarios (lines.rt): what is refused or ignored, and what ends a call.
fn apart() -> &'static str {
    r##"# Accounts of one that dropped, and of one that is settled
HEADER
LOAD 1 https://rp.example/
TWO
WELL_KNOWN_REPLY 1
CONFIG_REPLY 1
LOST 0 accounts
ACCOUNTS_REPLY 1
SECOND_WELL_KNOWN
SECOND_CONFIG
SECOND_ACCOUNTS
SECOND_ACCOUNTS
= done
WELL_KNOWN_REQUEST 1 3
CONFIG_REQUEST 1 3
SECOND_WELL_KNOWN_REQUEST 3
SECOND_CONFIG_REQUEST 3
ACCOUNTS_REQUEST 1 5
DROPPED_BY_STATUS 6 0 accounts-reply
IGNORED 7 not-waited
SECOND_ACCOUNTS_REQUEST 9
SECOND_METADATA_REQUEST 10
IGNORED 11 not-waited
END 10

# The login status of one that drops
HEADER
LOAD 1 https://rp.example/
TWO
WELL_KNOWN_REPLY 1
CONFIG_REPLY 1
SECOND_WELL_KNOWN
SECOND_CONFIG
LOST 0 accounts
{"do":"abort","call":1}
GET 1 2
= done
WELL_KNOWN_REQUEST 1 3
CONFIG_REQUEST 1 3
SECOND_WELL_KNOWN_REQUEST 3
SECOND_CONFIG_REQUEST 3
ACCOUNTS_REQUEST 1 5
SECOND_ACCOUNTS_REQUEST 7
DROPPED_BY_STATUS 8 0 accounts-reply
{"call":1,"line":9,"out":"result","page":1,"see":"AbortError","step":"aborted"}
FAILED 2 10 1 logged-out
END 9

# What nothing waits for while gathering
HEADER
LOAD 1 https://rp.example/
TWO
{"do":"cancel","call":1}
CHOOSE 0 u1
{"do":"continue","call":1}
{"do":"signin","call":1}
SECOND_METADATA
TOKEN_REPLY 1
LOST 2 wellknown
{"do":"abort","call":1}
SECOND_WELL_KNOWN
= done
WELL_KNOWN_REQUEST 1 3
CONFIG_REQUEST 1 3
SECOND_WELL_KNOWN_REQUEST 3
SECOND_CONFIG_REQUEST 3
IGNORED 4 not-offered
IGNORED 5 not-offered
IGNORED 6 not-offered
IGNORED 7 not-offered
IGNORED 8 not-waited
IGNORED 9 not-waited
IGNORED 10 not-waited
{"call":1,"line":11,"out":"result","page":1,"see":"AbortError","step":"aborted"}
IGNORED 12 call-ended
END 11

# A load while gathering
HEADER
LOAD 1 https://rp.example/
TWO
WELL_KNOWN_REPLY 1
CONFIG_REPLY 1
LOAD 1 https://rp.example/
SECOND_WELL_KNOWN
= done
WELL_KNOWN_REQUEST 1 3
CONFIG_REQUEST 1 3
SECOND_WELL_KNOWN_REQUEST 3
SECOND_CONFIG_REQUEST 3
ACCOUNTS_REQUEST 1 5
IGNORED 7 call-ended
END 6

# A page closes while gathering
HEADER
LOAD 1 https://rp.example/
TWO
WELL_KNOWN_REPLY 1
CONFIG_REPLY 1
{"do":"closepage","page":1}
SECOND_WELL_KNOWN
= done
WELL_KNOWN_REQUEST 1 3
CONFIG_REQUEST 1 3
SECOND_WELL_KNOWN_REQUEST 3
SECOND_CONFIG_REQUEST 3
ACCOUNTS_REQUEST 1 5
IGNORED 7 call-ended
END 6

# A silent call of two without a permission
HEADER
LOAD 1 https://rp.example/
{"do":"get","page":1,"call":1,"mediation":"silent","providers":[{"config":"https://accounts.idp.example/fedcm.json","client":"c1"},\
{"config":"https://login.two.example/f.json","client":"c2"}]}
WELL_KNOWN_REPLY 1
CONFIG_REPLY 1
SECOND_WELL_KNOWN
SECOND_CONFIG
ACCOUNTS_REPLY 1
SECOND_ACCOUNTS
= done
WELL_KNOWN_REQUEST 1 3
CONFIG_REQUEST 1 3
SECOND_WELL_KNOWN_REQUEST 3
SECOND_CONFIG_REQUEST 3
ACCOUNTS_REQUEST 1 5
SECOND_ACCOUNTS_REQUEST 7
FAILED 1 9 1 silent-no-account
END 8

# Active with two
HEADER
LOAD 1 https://rp.example/
{"do":"get","page":1,"call":1,"mode":"active","providers":[{"config":"https://accounts.idp.example/fedcm.json","client":"c1"},\
{"config":"https://login.two.example/f.json","client":"c2"}]}
= done
FAILED 1 3 1 active-many
END 2

# One provider twice
HEADER
LOAD 1 https://rp.example/
{"do":"get","page":1,"call":1,"providers":[{"config":"https://accounts.idp.example/fedcm.json","client":"c1"},\
{"config":"https://accounts.idp.example/fedcm.json","client":"c2"}]}
= done
FAILED 1 3 1 provider-twice
END 2

# Two configurations of one origin
HEADER
LOAD 1 https://rp.example/
{"do":"get","page":1,"call":1,"providers":[{"config":"https://accounts.idp.example/fedcm.json","client":"c1"},\
{"config":"https://accounts.idp.example/fedcm.json#2","client":"c2"}]}
= done
WELL_KNOWN_REQUEST 1 3
CONFIG_REQUEST 1 3
{"call":1,"kind":"wellknown","line":3,"out":"request","provider":1,\
"text":"GET /.well-known/web-identity HTTP/1.1\r\nHost: idp.example\r\nAccept: application/json\r\nSec-Fetch-Dest: webidentity\r\n\r\n"}
{"call":1,"kind":"config","line":3,"out":"request","provider":1,\
"text":"GET /fedcm.json HTTP/1.1\r\nHost: accounts.idp.example\r\nAccept: application/json\r\nSec-Fetch-Dest: webidentity\r\n\r\n"}
END 2

# A disconnect call beside it
HEADER
KEPT login.two.example
LOAD 1 https://rp.example/
TWO
{"do":"disconnect","page":1,"call":2,"config":"https://login.two.example/f.json","client":"c2","hint":"u1"}
SECOND_WELL_KNOWN
LOST 0 wellknown
{"do":"reply","call":2,"to":"wellknown","text":""}
= done
WELL_KNOWN_REQUEST 1 4
CONFIG_REQUEST 1 4
SECOND_WELL_KNOWN_REQUEST 4
SECOND_CONFIG_REQUEST 4
{"call":2,"kind":"wellknown","line":5,"out":"request","provider":0,\
"text":"GET /.well-known/web-identity HTTP/1.1\r\nHost: two.example\r\nAccept: application/json\r\nSec-Fetch-Dest: webidentity\r\n\r\n"}
{"call":2,"kind":"config","line":5,"out":"request","provider":0,\
"text":"GET /f.json HTTP/1.1\r\nHost: login.two.example\r\nAccept: application/json\r\nSec-Fetch-Dest: webidentity\r\n\r\n"}
DROPPED_BY_STATUS 7 0 well-known-reply
{"call":2,"detail":"head","line":8,"out":"result","page":1,"see":"NetworkError","step":"well-known-reply"}
END 7

# Eleven providers
HEADER
LOAD 1 https://rp.example/
{"do":"get","page":1,"call":1,"providers":[{"config":"https://i0.example/f","client":"c"},{"config":"https://i1.example/f",\
"client":"c"},{"config":"https://i2.example/f","client":"c"},{"config":"https://i3.example/f","client":"c"},\
{"config":"https://i4.example/f","client":"c"},{"config":"https://i5.example/f","client":"c"},{"config":"https://i6.example/f",\
"client":"c"},{"config":"https://i7.example/f","client":"c"},{"config":"https://i8.example/f","client":"c"},\
{"config":"https://i9.example/f","client":"c"},{"config":"https://i10.example/f","client":"c"}]}
= bad-script
{"cause":"member","line":3,"member":"providers","out":"bad"}

# No provider
HEADER
LOAD 1 https://rp.example/
{"do":"get","page":1,"call":1,"providers":[]}
= bad-script
{"cause":"member","line":3,"member":"providers","out":"bad"}

# Ten providers, of which nine drop
HEADER
LOAD 1 https://rp.example/
{"do":"get","page":1,"call":1,"providers":[{"config":"http://i0.example/f","client":"c"},{"config":"http://i1.example/f","client":"c"},\
{"config":"http://i2.example/f","client":"c"},{"config":"http://i3.example/f","client":"c"},{"config":"http://i4.example/f",\
"client":"c"},{"config":"http://i5.example/f","client":"c"},{"config":"http://i6.example/f","client":"c"},\
{"config":"http://i7.example/f","client":"c"},{"config":"http://i8.example/f","client":"c"},\
{"config":"https://login.two.example/f.json","client":"c2"}]}
{"do":"reply","call":1,"provider":9,"to":"wellknown",\
"text":"HTTP/1.1 200 OK\r\nContent-Type: application/json\r\n\r\n{\"provider_urls\":[\"https://login.two.example/f.json\"]}"}
{"do":"reply","call":1,"provider":9,"to":"config",\
"text":"HTTP/1.1 200 OK\r\nContent-Type: application/json\r\n\r\n{\"accounts_endpoint\":\"/accounts\",\
\"id_assertion_endpoint\":\"/assert\",\"login_url\":\"/login\",\"client_metadata_endpoint\":\"/client\",\
\"disconnect_endpoint\":\"/bye\"}"}
{"do":"reply","call":1,"provider":9,"to":"accounts",\
"text":"HTTP/1.1 200 OK\r\nContent-Type: application/json\r\n\r\n{\"accounts\":[{\"id\":\"u1\",\"name\":\"Ann\",\
\"email\":\"ann@two.example\"}]}"}
{"do":"reply","call":1,"provider":9,"to":"wellknown","text":""}
= done
DROPPED 3 0 config-scheme
DROPPED 3 1 config-scheme
DROPPED 3 2 config-scheme
DROPPED 3 3 config-scheme
DROPPED 3 4 config-scheme
DROPPED 3 5 config-scheme
DROPPED 3 6 config-scheme
DROPPED 3 7 config-scheme
DROPPED 3 8 config-scheme
{"call":1,"kind":"wellknown","line":3,"out":"request","provider":9,\
"text":"GET /.well-known/web-identity HTTP/1.1\r\nHost: two.example\r\nAccept: application/json\r\nSec-Fetch-Dest: webidentity\r\n\r\n"}
{"call":1,"kind":"config","line":3,"out":"request","provider":9,\
"text":"GET /f.json HTTP/1.1\r\nHost: login.two.example\r\nAccept: application/json\r\nSec-Fetch-Dest: webidentity\r\n\r\n"}
{"call":1,"kind":"accounts","line":5,"out":"request","provider":9,\
"text":"GET /accounts HTTP/1.1\r\nHost: login.two.example\r\nAccept: application/json\r\nSec-Fetch-Dest: webidentity\r\n\r\n"}
{"call":1,"kind":"metadata","line":6,"out":"request","provider":9,\
"text":"GET /client?client_id=c2 HTTP/1.1\r\nHost: login.two.example\r\nAccept: application/json\r\nSec-Fetch-Dest: webid\
entity\r\nOrigin: https://rp.example\r\n\r\n"}
IGNORED 7 not-waited
END 6

TWO
{"do":"get","page":1,"call":1,"providers":[{"config":"https://accounts.idp.example/fedcm.json","client":"c1"},\
{"config":"https://login.two.example/f.json","client":"c2"}]}

SECOND_WELL_KNOWN
{"do":"reply","call":1,"provider":1,"to":"wellknown","text":"HTTP/1.1 200 OK\r\nContent-Type: application/json\r\n\r\n\
{\"provider_urls\":[\"https://login.two.example/f.json\"]}"}

SECOND_CONFIG
{"do":"reply","call":1,"provider":1,"to":"config","text":"HTTP/1.1 200 OK\r\nContent-Type: application/json\r\n\r\n\
{\"accounts_endpoint\":\"/accounts\",\"id_assertion_endpoint\":\"/assert\",\"login_url\":\"/login\",\
\"client_metadata_endpoint\":\"/client\",\"disconnect_endpoint\":\"/bye\"}"}

SECOND_ACCOUNTS
{"do":"reply","call":1,"provider":1,"to":"accounts","text":"HTTP/1.1 200 OK\r\nContent-Type: application/json\r\n\r\n\
{\"accounts\":[{\"id\":\"u1\",\"name\":\"Ann\",\"email\":\"ann@two.example\"}]}"}

LOST
{"do":"reply","call":1,"provider":#,"to":"#","text":"HTTP/1.1 404 Not Found\r\nContent-Type: application/json\r\n\r\n{}"}

SECOND_METADATA
{"do":"reply","call":1,"provider":1,"to":"metadata","text":"HTTP/1.1 200 OK\r\nContent-Type: application/json\r\n\r\n{}"}

TOKEN_REPLY
{"do":"reply","call":1,"provider":#,"to":"assertion","text":"HTTP/1.1 200 OK\r\nContent-Type: application/json\r\n\
Access-Control-Allow-Origin: https://rp.example\r\nAccess-Control-Allow-Credentials: true\r\n\r\n{\"token\":\"t\"}"}

KEPT
{"do":"have","what":"kept","page":"https://rp.example","provider":"https://#","account":"u1"}

CHOOSE
{"do":"choose","call":1,"provider":#,"account":"#"}

SECOND_WELL_KNOWN_REQUEST
{"call":1,"kind":"wellknown","line":#,"out":"request","provider":1,"text":"GET /.well-known/web-identity HTTP/1.1\r\n\
Host: two.example\r\nAccept: application/json\r\nSec-Fetch-Dest: webidentity\r\n\r\n"}

SECOND_CONFIG_REQUEST
{"call":1,"kind":"config","line":#,"out":"request","provider":1,"text":"GET /f.json HTTP/1.1\r\n\
Host: login.two.example\r\nAccept: application/json\r\nSec-Fetch-Dest: webidentity\r\n\r\n"}

SECOND_ACCOUNTS_REQUEST
{"call":1,"kind":"accounts","line":#,"out":"request","provider":1,"text":"GET /accounts HTTP/1.1\r\n\
Host: login.two.example\r\nAccept: application/json\r\nSec-Fetch-Dest: webidentity\r\n\r\n"}

SECOND_METADATA_REQUEST
{"call":1,"kind":"metadata","line":#,"out":"request","provider":1,"text":"GET /client?client_id=c2 HTTP/1.1\r\n\
Host: login.two.example\r\nAccept: application/json\r\nSec-Fetch-Dest: webidentity\r\n\
Origin: https://rp.example\r\n\r\n"}

DROPPED
{"call":1,"line":#,"out":"dropped","provider":#,"step":"#"}

DROPPED_BY_STATUS
{"call":1,"detail":"status","line":#,"out":"dropped","provider":#,"step":"#"}"##
}

// Scenarios (lines.rt): one provider of two drops, in each order of the replies.
fn orders() -> &'static str {
    r##"# Order: the first drops, well-known file, configuration, accounts
HEADER
LOAD 1 https://rp.example/
TWO
LOST 0 wellknown
SECOND_WELL_KNOWN
SECOND_CONFIG
SECOND_ACCOUNTS
= done
WELL_KNOWN_REQUEST 1 3
CONFIG_REQUEST 1 3
SECOND_WELL_KNOWN_REQUEST 3
SECOND_CONFIG_REQUEST 3
DROPPED_BY_STATUS 4 0 well-known-reply
SECOND_ACCOUNTS_REQUEST 6
SECOND_METADATA_REQUEST 7
END 6

# Order: the first drops, configuration, well-known file, accounts
HEADER
LOAD 1 https://rp.example/
TWO
LOST 0 wellknown
SECOND_CONFIG
SECOND_WELL_KNOWN
SECOND_ACCOUNTS
= done
WELL_KNOWN_REQUEST 1 3
CONFIG_REQUEST 1 3
SECOND_WELL_KNOWN_REQUEST 3
SECOND_CONFIG_REQUEST 3
DROPPED_BY_STATUS 4 0 well-known-reply
SECOND_ACCOUNTS_REQUEST 6
SECOND_METADATA_REQUEST 7
END 6

# Order: well-known file, the first drops, configuration, accounts
HEADER
LOAD 1 https://rp.example/
TWO
SECOND_WELL_KNOWN
LOST 0 wellknown
SECOND_CONFIG
SECOND_ACCOUNTS
= done
WELL_KNOWN_REQUEST 1 3
CONFIG_REQUEST 1 3
SECOND_WELL_KNOWN_REQUEST 3
SECOND_CONFIG_REQUEST 3
DROPPED_BY_STATUS 5 0 well-known-reply
SECOND_ACCOUNTS_REQUEST 6
SECOND_METADATA_REQUEST 7
END 6

# Order: well-known file, configuration, the first drops, accounts
HEADER
LOAD 1 https://rp.example/
TWO
SECOND_WELL_KNOWN
SECOND_CONFIG
LOST 0 wellknown
SECOND_ACCOUNTS
= done
WELL_KNOWN_REQUEST 1 3
CONFIG_REQUEST 1 3
SECOND_WELL_KNOWN_REQUEST 3
SECOND_CONFIG_REQUEST 3
SECOND_ACCOUNTS_REQUEST 5
DROPPED_BY_STATUS 6 0 well-known-reply
SECOND_METADATA_REQUEST 7
END 6

# Order: well-known file, configuration, accounts, the first drops
HEADER
LOAD 1 https://rp.example/
TWO
SECOND_WELL_KNOWN
SECOND_CONFIG
SECOND_ACCOUNTS
LOST 0 wellknown
= done
WELL_KNOWN_REQUEST 1 3
CONFIG_REQUEST 1 3
SECOND_WELL_KNOWN_REQUEST 3
SECOND_CONFIG_REQUEST 3
SECOND_ACCOUNTS_REQUEST 5
DROPPED_BY_STATUS 7 0 well-known-reply
SECOND_METADATA_REQUEST 7
END 6

# Order: configuration, the first drops, well-known file, accounts
HEADER
LOAD 1 https://rp.example/
TWO
SECOND_CONFIG
LOST 0 wellknown
SECOND_WELL_KNOWN
SECOND_ACCOUNTS
= done
WELL_KNOWN_REQUEST 1 3
CONFIG_REQUEST 1 3
SECOND_WELL_KNOWN_REQUEST 3
SECOND_CONFIG_REQUEST 3
DROPPED_BY_STATUS 5 0 well-known-reply
SECOND_ACCOUNTS_REQUEST 6
SECOND_METADATA_REQUEST 7
END 6

# Order: configuration, well-known file, the first drops, accounts
HEADER
LOAD 1 https://rp.example/
TWO
SECOND_CONFIG
SECOND_WELL_KNOWN
LOST 0 wellknown
SECOND_ACCOUNTS
= done
WELL_KNOWN_REQUEST 1 3
CONFIG_REQUEST 1 3
SECOND_WELL_KNOWN_REQUEST 3
SECOND_CONFIG_REQUEST 3
SECOND_ACCOUNTS_REQUEST 5
DROPPED_BY_STATUS 6 0 well-known-reply
SECOND_METADATA_REQUEST 7
END 6

# Order: configuration, well-known file, accounts, the first drops
HEADER
LOAD 1 https://rp.example/
TWO
SECOND_CONFIG
SECOND_WELL_KNOWN
SECOND_ACCOUNTS
LOST 0 wellknown
= done
WELL_KNOWN_REQUEST 1 3
CONFIG_REQUEST 1 3
SECOND_WELL_KNOWN_REQUEST 3
SECOND_CONFIG_REQUEST 3
SECOND_ACCOUNTS_REQUEST 5
DROPPED_BY_STATUS 7 0 well-known-reply
SECOND_METADATA_REQUEST 7
END 6

TWO
{"do":"get","page":1,"call":1,"providers":[{"config":"https://accounts.idp.example/fedcm.json","client":"c1"},\
{"config":"https://login.two.example/f.json","client":"c2"}]}

SECOND_WELL_KNOWN
{"do":"reply","call":1,"provider":1,"to":"wellknown","text":"HTTP/1.1 200 OK\r\nContent-Type: application/json\r\n\r\n\
{\"provider_urls\":[\"https://login.two.example/f.json\"]}"}

SECOND_CONFIG
{"do":"reply","call":1,"provider":1,"to":"config","text":"HTTP/1.1 200 OK\r\nContent-Type: application/json\r\n\r\n\
{\"accounts_endpoint\":\"/accounts\",\"id_assertion_endpoint\":\"/assert\",\"login_url\":\"/login\",\
\"client_metadata_endpoint\":\"/client\",\"disconnect_endpoint\":\"/bye\"}"}

SECOND_ACCOUNTS
{"do":"reply","call":1,"provider":1,"to":"accounts","text":"HTTP/1.1 200 OK\r\nContent-Type: application/json\r\n\r\n\
{\"accounts\":[{\"id\":\"u1\",\"name\":\"Ann\",\"email\":\"ann@two.example\"}]}"}

LOST
{"do":"reply","call":1,"provider":#,"to":"#","text":"HTTP/1.1 404 Not Found\r\nContent-Type: application/json\r\n\r\n{}"}

SECOND_WELL_KNOWN_REQUEST
{"call":1,"kind":"wellknown","line":#,"out":"request","provider":1,"text":"GET /.well-known/web-identity HTTP/1.1\r\n\
Host: two.example\r\nAccept: application/json\r\nSec-Fetch-Dest: webidentity\r\n\r\n"}

SECOND_CONFIG_REQUEST
{"call":1,"kind":"config","line":#,"out":"request","provider":1,"text":"GET /f.json HTTP/1.1\r\n\
Host: login.two.example\r\nAccept: application/json\r\nSec-Fetch-Dest: webidentity\r\n\r\n"}

SECOND_ACCOUNTS_REQUEST
{"call":1,"kind":"accounts","line":#,"out":"request","provider":1,"text":"GET /accounts HTTP/1.1\r\n\
Host: login.two.example\r\nAccept: application/json\r\nSec-Fetch-Dest: webidentity\r\n\r\n"}

SECOND_METADATA_REQUEST
{"call":1,"kind":"metadata","line":#,"out":"request","provider":1,"text":"GET /client?client_id=c2 HTTP/1.1\r\n\
Host: login.two.example\r\nAccept: application/json\r\nSec-Fetch-Dest: webidentity\r\n\
Origin: https://rp.example\r\n\r\n"}

DROPPED_BY_STATUS
{"call":1,"detail":"status","line":#,"out":"dropped","provider":#,"step":"#"}"##
}

#[test]
fn several_providers(rt: HostRuntime) -> Result<(), Fail> {
    assert_eq!(rt; first_wrong(rt.alloc(), "run", of_two())?, ("", 8));
    Ok(())
}

#[test]
fn several_providers_apart(rt: HostRuntime) -> Result<(), Fail> {
    assert_eq!(rt; first_wrong(rt.alloc(), "run", apart())?, ("", 13));
    Ok(())
}

#[test]
fn several_providers_in_each_order(rt: HostRuntime) -> Result<(), Fail> {
    assert_eq!(rt; first_wrong(rt.alloc(), "run", orders())?, ("", 8));
    Ok(())
}
