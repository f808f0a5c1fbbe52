//! Consent, assertion and token: whole scripts and their transcripts.
use crate::lines::{block, told};
use crate::runs::first_wrong;
use fed_io::NoRoom;
use std::alloc::Global;
use std::test::Fail;

// Lines of their own, and scenarios (lines.rt).
fn scenarios() -> &'static str {
    r##"TOKEN_REPLY
{"do":"reply","call":1,"to":"assertion","text":"HTTP/1.1 200 OK\r\nContent-Type: application/json\r\n\
Access-Control-Allow-Origin: #\r\nAccess-Control-Allow-Credentials: true\r\n\r\n{\"token\":\"T1\"}"}

CHOOSER
{"accounts":[{"connected":false,"email":"ann@idp.example","id":"u1","name":"Ann","provider":0},\
{"connected":false,"email":"bob@idp.example","id":"u2","name":"Bob","provider":0}],"call":1,"context":"signin",\
"dialog":"choose","line":6,"out":"dialog","site":"rp.example"}

PROMPT
{"account":{"connected":false,"email":"#","id":"#","name":"#","provider":0},"call":1,\
"context":"signin","dialog":"prompt","disclosure":true,"line":8,"out":"dialog",\
"privacy":"https://rp.example/privacy","site":"rp.example"}

# A sign-up as users make it
HEADER
LOAD 1 https://rp.example/
GET 1 1
WELL_KNOWN_REPLY 1
CONFIG_REPLY 1
TWO_ACCOUNTS
{"do":"choose","call":1,"account":"u2"}
METADATA_REPLY 1
{"do":"continue","call":1}
TOKEN_REPLY https://rp.example
= done
WELL_KNOWN_REQUEST 1 3
CONFIG_REQUEST 1 3
ACCOUNTS_REQUEST 1 5
CHOOSER
METADATA_REQUEST 7
PROMPT bob@idp.example u2 Bob
ASSERTION_REQUEST 9 u2 true false
{"auto":false,"call":1,"line":10,"out":"result","page":1,"provider":0,"see":"token","token":"T1"}
END 9

# A continue comes too early, and twice
HEADER
LOAD 1 https://rp.example/
GET 1 1
WELL_KNOWN_REPLY 1
CONFIG_REPLY 1
ACCOUNTS_REPLY 1
{"do":"continue","call":1}
METADATA_REPLY 1
{"do":"continue","call":1}
{"do":"continue","call":1}
= done
WELL_KNOWN_REQUEST 1 3
CONFIG_REQUEST 1 3
ACCOUNTS_REQUEST 1 5
METADATA_REQUEST 6
IGNORED 7 not-offered
PROMPT ann@idp.example u1 Ann
ASSERTION_REQUEST 9 u1 true false
IGNORED 10 not-offered
END 9

# A token for any origin
HEADER
LOAD 1 https://rp.example/
GET 1 1
WELL_KNOWN_REPLY 1
CONFIG_REPLY 1
TWO_ACCOUNTS
{"do":"choose","call":1,"account":"u2"}
METADATA_REPLY 1
{"do":"continue","call":1}
TOKEN_REPLY *
= done
WELL_KNOWN_REQUEST 1 3
CONFIG_REQUEST 1 3
ACCOUNTS_REQUEST 1 5
CHOOSER
METADATA_REQUEST 7
PROMPT bob@idp.example u2 Bob
ASSERTION_REQUEST 9 u2 true false
FAILED 1 10 1 assertion-cors
END 9

# The provider gives an error
HEADER
LOAD 1 https://rp.example/
GET 1 1
WELL_KNOWN_REPLY 1
CONFIG_REPLY 1
TWO_ACCOUNTS
{"do":"choose","call":1,"account":"u2"}
METADATA_REPLY 1
{"do":"continue","call":1}
{"do":"reply","call":1,"to":"assertion","text":"HTTP/1.1 200 OK\r\nContent-Type: application/json\r\n\
Access-Control-Allow-Origin: https://rp.example\r\nAccess-Control-Allow-Credentials: true\r\n\r\n\
{\"error\":{\"code\":\"access_denied\",\"url\":\"https://idp.example/why\"}}"}
= done
WELL_KNOWN_REQUEST 1 3
CONFIG_REQUEST 1 3
ACCOUNTS_REQUEST 1 5
CHOOSER
METADATA_REQUEST 7
PROMPT bob@idp.example u2 Bob
ASSERTION_REQUEST 9 u2 true false
{"call":1,"code":"access_denied","line":10,"out":"result","page":1,"see":"IdentityCredentialError","step":"provider-error",\
"url":"https://idp.example/why"}
END 9

# The page is loaded anew before the token comes
HEADER
LOAD 1 https://rp.example/
GET 1 1
WELL_KNOWN_REPLY 1
CONFIG_REPLY 1
TWO_ACCOUNTS
{"do":"choose","call":1,"account":"u2"}
METADATA_REPLY 1
{"do":"continue","call":1}
LOAD 1 https://rp.example/
TOKEN_REPLY https://rp.example
= done
WELL_KNOWN_REQUEST 1 3
CONFIG_REQUEST 1 3
ACCOUNTS_REQUEST 1 5
CHOOSER
METADATA_REQUEST 7
PROMPT bob@idp.example u2 Bob
ASSERTION_REQUEST 9 u2 true false
IGNORED 11 call-ended
END 10"##
}

// The rows of the script of a sign-up as users make it, and of its transcript.
fn sign_up_rows() -> (&'static str, &'static str) {
    let rows = block(scenarios(), "# A sign-up as users make it").unwrap_or("");
    rows.split_once("= done\n").unwrap_or((rows, ""))
}

/// A sign-up as users make it.
pub fn sign_up(alloc: Global) -> Result<String, NoRoom> {
    told(alloc, scenarios(), sign_up_rows().0)
}

/// What is written of it.
pub fn sign_up_records(alloc: Global) -> Result<String, NoRoom> {
    told(alloc, scenarios(), sign_up_rows().1)
}

#[test]
fn tokens(rt: HostRuntime) -> Result<(), Fail> {
    assert_eq!(rt; first_wrong(rt.alloc(), "run", scenarios())?, ("", 5));
    Ok(())
}
