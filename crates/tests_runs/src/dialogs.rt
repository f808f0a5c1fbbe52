//! Accounts and dialogs: whole scripts and their transcripts.
use crate::runs::first_wrong;
use std::test::Fail;

// Scenarios (lines.rt).
fn scenarios() -> &'static str {
    r##"# A reply in chunks
HEADER
LOAD 1 https://rp.example/
GET 1 1
WELL_KNOWN_REPLY 1
CONFIG_REPLY 1
{"do":"reply","call":1,"to":"accounts","text":"HTTP/1.1 200 OK\r\nContent-Type: application/json\r\nTransfer-Encoding: chunked\r\n\
\r\nf\r\n{\"accounts\":[]}\r\n0\r\n\r\n"}
= done
WELL_KNOWN_REQUEST 1 3
CONFIG_REQUEST 1 3
ACCOUNTS_REQUEST 1 5
FAILED 1 6 1 accounts-empty
END 5

# A chunk that is shorter than it says
HEADER
LOAD 1 https://rp.example/
GET 1 1
WELL_KNOWN_REPLY 1
CONFIG_REPLY 1
{"do":"reply","call":1,"to":"accounts","text":"HTTP/1.1 200 OK\r\nContent-Type: application/json\r\nTransfer-Encoding: chunked\r\n\
\r\n10\r\n{\"accounts\":[]}\r\n0\r\n\r\n"}
= done
WELL_KNOWN_REQUEST 1 3
CONFIG_REQUEST 1 3
ACCOUNTS_REQUEST 1 5
{"call":1,"detail":"chunk","line":6,"out":"result","page":1,"see":"NetworkError","step":"accounts-reply"}
END 5

# A reply that ends in a chunk
HEADER
LOAD 1 https://rp.example/
GET 1 1
WELL_KNOWN_REPLY 1
CONFIG_REPLY 1
{"do":"reply","call":1,"to":"accounts","text":"HTTP/1.1 200 OK\r\nContent-Type: application/json\r\nTransfer-Encoding: chunked\r\n\
\r\n10\r\n{\"accounts\":[]}"}
= done
WELL_KNOWN_REQUEST 1 3
CONFIG_REQUEST 1 3
ACCOUNTS_REQUEST 1 5
{"call":1,"detail":"short","line":6,"out":"result","page":1,"see":"NetworkError","step":"accounts-reply"}
END 5

# A reply of another coding
HEADER
LOAD 1 https://rp.example/
GET 1 1
WELL_KNOWN_REPLY 1
CONFIG_REPLY 1
{"do":"reply","call":1,"to":"accounts","text":"HTTP/1.1 200 OK\r\nContent-Type: application/json\r\nContent-Encoding: gzip\r\n\r\n\
{\"accounts\":[]}"}
= done
WELL_KNOWN_REQUEST 1 3
CONFIG_REQUEST 1 3
ACCOUNTS_REQUEST 1 5
{"call":1,"detail":"coding","line":6,"out":"result","page":1,"see":"NetworkError","step":"accounts-reply"}
END 5

# The status of a reply counts first
HEADER
LOAD 1 https://rp.example/
GET 1 1
WELL_KNOWN_REPLY 1
CONFIG_REPLY 1
{"do":"reply","call":1,"to":"accounts","text":"HTTP/1.1 301 Moved\r\nContent-Type: application/json\r\n\
Transfer-Encoding: chunked\r\n\r\nf\r\n{\"accounts\":[]}\r\n0\r\n\r\n"}
= done
WELL_KNOWN_REQUEST 1 3
CONFIG_REQUEST 1 3
ACCOUNTS_REQUEST 1 5
{"call":1,"detail":"status","line":6,"out":"result","page":1,"see":"NetworkError","step":"accounts-reply"}
END 5

# A login hint keeps accounts
HEADER
LOAD 1 https://rp.example/
{"do":"get","page":1,"call":1,"providers":[{"config":"https://accounts.idp.example/fedcm.json","client":"c1","nonce":"n1",\
"login_hint":"ann"}]}
WELL_KNOWN_REPLY 1
CONFIG_REPLY 1
{"do":"reply","call":1,"to":"accounts","text":"HTTP/1.1 200 OK\r\nContent-Type: application/json\r\n\r\n\
{\"accounts\":[{\"id\":\"u1\",\"name\":\"Ann\",\"email\":\"ann@idp.example\",\"login_hints\":[\"ann\"]},{\"id\":\"u2\",\
\"name\":\"Bob\",\"email\":\"bob@idp.example\"}]}"}
= done
WELL_KNOWN_REQUEST 1 3
CONFIG_REQUEST 1 3
ACCOUNTS_REQUEST 1 5
METADATA_REQUEST 6
END 5

# A domain hint keeps none
HEADER
LOAD 1 https://rp.example/
{"do":"get","page":1,"call":1,"providers":[{"config":"https://accounts.idp.example/fedcm.json","client":"c1","nonce":"n1",\
"domain_hint":"any"}]}
WELL_KNOWN_REPLY 1
CONFIG_REPLY 1
TWO_ACCOUNTS
= done
WELL_KNOWN_REQUEST 1 3
CONFIG_REQUEST 1 3
ACCOUNTS_REQUEST 1 5
FAILED 1 6 1 accounts-hints
END 5

# A mismatch is shown
HEADER
LOGIN logged-in
LOAD 1 https://rp.example/
GET 1 1
WELL_KNOWN_REPLY 1
CONFIG_REPLY 1
LOST_ACCOUNTS 1
= done
WELL_KNOWN_REQUEST 1 4
CONFIG_REQUEST 1 4
ACCOUNTS_REQUEST 1 6
MISMATCH 7
END 6

# A mismatch is closed
HEADER
LOGIN logged-in
LOAD 1 https://rp.example/
GET 1 1
WELL_KNOWN_REPLY 1
CONFIG_REPLY 1
LOST_ACCOUNTS 1
{"do":"cancel","call":1}
= done
WELL_KNOWN_REQUEST 1 4
CONFIG_REQUEST 1 4
ACCOUNTS_REQUEST 1 6
MISMATCH 7
FAILED 1 8 1 user-cancelled
END 7

# A prompt waits for metadata
HEADER
LOAD 1 https://rp.example/
GET 1 1
WELL_KNOWN_REPLY 1
CONFIG_REPLY 1
ACCOUNTS_REPLY 1
METADATA_REPLY 1
= done
WELL_KNOWN_REQUEST 1 3
CONFIG_REQUEST 1 3
ACCOUNTS_REQUEST 1 5
METADATA_REQUEST 6
{"account":{"connected":false,"email":"ann@idp.example","id":"u1","name":"Ann","provider":0},"call":1,"context":"signin",\
"dialog":"prompt","disclosure":true,"line":7,"out":"dialog","privacy":"https://rp.example/privacy","site":"rp.example"}
END 6"##
}

#[test]
fn dialogs(rt: HostRuntime) -> Result<(), Fail> {
    assert_eq!(rt; first_wrong(rt.alloc(), "run", scenarios())?, ("", 10));
    Ok(())
}
