//! Kept permissions, reselection and disconnect calls: whole scripts and their transcripts.
use crate::runs::first_wrong;
use std::test::Fail;

// Lines of their own, and scenarios (lines.rt).
fn scenarios() -> &'static str {
    r##"KEPT
{"do":"have","what":"kept","page":"https://rp.example","provider":"https://accounts.idp.example","account":"#"}

SILENT_GET
{"do":"get","page":1,"call":1,"mediation":"silent",\
"providers":[{"config":"https://accounts.idp.example/fedcm.json","client":"c1","nonce":"n1"}]}

DISCONNECT
{"do":"disconnect","page":1,"call":#,"config":"https://accounts.idp.example/fedcm.json","client":"c1","hint":"u1"}

CHOOSER
{"accounts":[{"connected":#,"email":"ann@idp.example","id":"u1","name":"Ann","provider":0},\
{"connected":#,"email":"bob@idp.example","id":"u2","name":"Bob","provider":0}],"call":1,"context":"signin",\
"dialog":"choose","line":#,"out":"dialog","site":"rp.example"}

# An account is reselected
HEADER
KEPT u1
LOAD 1 https://rp.example/
GET 1 1
WELL_KNOWN_REPLY 1
CONFIG_REPLY 1
TWO_ACCOUNTS
= done
WELL_KNOWN_REQUEST 1 4
CONFIG_REQUEST 1 4
ACCOUNTS_REQUEST 1 6
ASSERTION_REQUEST 7 u1 false true
END 6

# Two kept permissions open the chooser
HEADER
KEPT u1
KEPT u2
LOAD 1 https://rp.example/
GET 1 1
WELL_KNOWN_REPLY 1
CONFIG_REPLY 1
TWO_ACCOUNTS
= done
WELL_KNOWN_REQUEST 1 5
CONFIG_REQUEST 1 5
ACCOUNTS_REQUEST 1 7
CHOOSER true true 8
END 7

# A page prevents silent access
HEADER
KEPT u1
LOAD 1 https://rp.example/
{"do":"prevent","page":1}
GET 1 1
WELL_KNOWN_REPLY 1
CONFIG_REPLY 1
TWO_ACCOUNTS
= done
WELL_KNOWN_REQUEST 1 5
CONFIG_REQUEST 1 5
ACCOUNTS_REQUEST 1 7
CHOOSER true false 8
END 7

# A client that is not approved
HEADER
KEPT u1
LOAD 1 https://rp.example/
GET 1 1
WELL_KNOWN_REPLY 1
CONFIG_REPLY 1
{"do":"reply","call":1,"to":"accounts","text":"HTTP/1.1 200 OK\r\nContent-Type: application/json\r\n\r\n\
{\"accounts\":[{\"id\":\"u1\",\"name\":\"Ann\",\"email\":\"ann@idp.example\",\"approved_clients\":[\"other\"]},{\"id\":\"u2\",\
\"name\":\"Bob\",\"email\":\"bob@idp.example\"}]}"}
= done
WELL_KNOWN_REQUEST 1 4
CONFIG_REQUEST 1 4
ACCOUNTS_REQUEST 1 6
CHOOSER false false 7
END 6

# A silent call with two permissions
HEADER
KEPT u1
KEPT u2
LOAD 1 https://rp.example/
SILENT_GET
WELL_KNOWN_REPLY 1
CONFIG_REPLY 1
TWO_ACCOUNTS
= done
WELL_KNOWN_REQUEST 1 5
CONFIG_REQUEST 1 5
ACCOUNTS_REQUEST 1 7
FAILED 1 8 1 silent-no-account
END 7

# A silent call is prevented
HEADER
LOAD 1 https://rp.example/
{"do":"prevent","page":1}
SILENT_GET
= done
FAILED 1 4 1 silent-prevented
END 3

# Disconnected, and then not connected
HEADER
KEPT u1
KEPT u2
LOAD 1 https://rp.example/
DISCONNECT 1
WELL_KNOWN_REPLY 1
CONFIG_REPLY 1
{"do":"reply","call":1,"to":"disconnect","text":"HTTP/1.1 200 OK\r\nContent-Type: application/json\r\n\
Access-Control-Allow-Origin: https://rp.example\r\nAccess-Control-Allow-Credentials: true\r\n\r\n{\"account_id\":\"zz\"}"}
DISCONNECT 2
= done
WELL_KNOWN_REQUEST 1 5
CONFIG_REQUEST 1 5
{"call":1,"kind":"disconnect","line":7,"out":"request","provider":0,"text":"POST /bye HTTP/1.1\r\nHost: accounts.idp.example\r\n\
Accept: application/json\r\nSec-Fetch-Dest: webidentity\r\nOrigin: https://rp.example\r\n\
Content-Type: application/x-www-form-urlencoded\r\nContent-Length: 28\r\n\r\nclient_id=c1&account_hint=u1"}
{"call":1,"line":8,"out":"result","page":1,"see":"disconnected"}
FAILED 2 9 1 not-connected
END 8"##
}

#[test]
fn permissions(rt: HostRuntime) -> Result<(), Fail> {
    assert_eq!(rt; first_wrong(rt.alloc(), "run", scenarios())?, ("", 7));
    Ok(())
}
