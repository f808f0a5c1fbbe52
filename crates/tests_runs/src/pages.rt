//! Pages and bad lines: whole scripts and their transcripts.
use crate::runs::first_wrong;
use std::test::Fail;

// Lines of their own, and scenarios (lines.rt).
fn scenarios() -> &'static str {
    concat!(
        "CR\n\r\n\n",
        r##"GET_OF
{"do":"get","page":#,"call":#,"providers":[{"config":"#","client":"c1"}]}

# A call sends its first requests
HEADER
LOAD 1 https://rp.example/
GET 1 1
= done
WELL_KNOWN_REQUEST 1 3
CONFIG_REQUEST 1 3
END 2

# So it does with rules that are far from its sites
{"fedcm":1,"now":1700000000,"rules":"com\nexample\n*.ck\n!www.ck\n// a comment"}
LOAD 1 https://rp.example/
GET 1 1
= done
WELL_KNOWN_REQUEST 1 3
CONFIG_REQUEST 1 3
END 2

# A page has one pending get
HEADER
LOAD 1 https://rp.example/
GET 1 1
GET_OF 1 2 https://accounts.idp.example/fedcm.json
LOAD 1 https://rp.example/
GET_OF 1 3 https://127.0.0.1/f.json
GET_OF 2 4 https://accounts.idp.example/fedcm.json
= done
WELL_KNOWN_REQUEST 1 3
CONFIG_REQUEST 1 3
{"call":2,"line":4,"out":"result","page":1,"see":"NotAllowedError","step":"call-pending"}
FAILED 3 6 1 no-site
IGNORED 7 no-page
END 6

# Pages and providers are secure
HEADER
CR
LOAD 1 http://rp.example/
GET 1 1
LOAD 1 https://rp.example/
GET_OF 1 2 http://idp.example/f.json
= done
IGNORED 4 page-insecure
FAILED 2 6 1 config-scheme
END 4

# A suffix has no site
{"fedcm":1,"now":0,"rules":"idp.example"}
LOAD 1 https://rp.example/
GET_OF 1 2 https://idp.example/f.json
= done
FAILED 2 3 1 no-site
END 2

# No line
= bad-script
BAD not-json 1

# A header without its members
{}\
= bad-script
{"cause":"member","line":1,"member":"fedcm","out":"bad"}

# Rules that are none
{"fedcm":1,"now":0,"rules":"a..b"}\
= bad-script
{"cause":"member","line":1,"member":"rules","out":"bad"}

# A line of no kind
HEADER
{"do":"jump"}\
= bad-script
BAD no-kind 2

# A page of no web URL
HEADER
{"do":"load","page":2,"url":"ftp://x/"}\
= bad-script
BAD bad-url 2

# A time that goes back
HEADER
{"do":"at","time":1699999999}\
= bad-script
BAD time-back 2

# What stands before a bad line is written
HEADER
LOAD 1 https://rp.example/
GET 1 1
GET 1 1
LOAD 1 https://rp.example/
= bad-script
WELL_KNOWN_REQUEST 1 3
CONFIG_REQUEST 1 3
BAD call-twice 4

# A header alone is a script
HEADER
= done
END 0"##
    )
}

#[test]
fn pages_calls_and_bad_lines(rt: HostRuntime) -> Result<(), Fail> {
    assert_eq!(rt; first_wrong(rt.alloc(), "run", scenarios())?, ("", 13));
    Ok(())
}
