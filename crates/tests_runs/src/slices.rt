//! Slices of scripts by a party.
use crate::lines::told;
use crate::made::script_of_three;
use crate::runs::{Limits, QUIET, gives, ran};
use fed_io::NoRoom;
use fed_run::Status;
use std::alloc::Global;
use std::test::Fail;

// Lines of their own, and scenarios: below a title the words, a script, and after a row `=` its slice.
fn scenarios() -> &'static str {
    r##"GET_TWO
{"do":"get","page":2,"call":2,"providers":[{"config":"https://login.two.example/f.json","client":"c2"}]}

GET_BOTH
{"do":"get","page":#,"call":3,"providers":[{"config":"https://login.two.example/f.json","client":"c2"},\
{"config":"https://accounts.idp.example/fedcm.json","client":"c1"}]}

DISCONNECT
{"do":"disconnect","page":2,"call":5,"config":"https://accounts.idp.example/fedcm.json","client":"c1","hint":"u1"}

KEPT
{"do":"have","what":"kept","page":"#","provider":"#","account":"u1"}

SILENT
{"do":"have","what":"silent","origin":"#"}

COOKIE
{"do":"have","what":"cookie","url":"#","text":"a=b"}

ABORT
{"do":"abort","call":#}

# Two pages, each with a provider of its own
slice|rp.example
HEADER
LOAD 1 https://rp.example/
LOAD 2 https://shop.example/
GET 1 1
GET_TWO
=
HEADER
LOAD 1 https://rp.example/
GET 1 1

# By its provider
slice|two.example
HEADER
LOAD 1 https://rp.example/
LOAD 2 https://shop.example/
GET 1 1
GET_TWO
=
HEADER
LOAD 2 https://shop.example/
GET_TWO

# Two pages with one provider
slice|rp.example
HEADER
LOAD 1 https://rp.example/
LOAD 2 https://shop.example/
GET 1 1
GET 2 2
WELL_KNOWN_REPLY 1
CONFIG_REPLY 1
WELL_KNOWN_REPLY 2
CONFIG_REPLY 2
ACCOUNTS_REPLY 1
ACCOUNTS_REPLY 2
METADATA_REPLY 1
METADATA_REPLY 2
=
HEADER
LOAD 1 https://rp.example/
LOAD 2 https://shop.example/
GET 1 1
GET 2 2
WELL_KNOWN_REPLY 1
CONFIG_REPLY 1
WELL_KNOWN_REPLY 2
CONFIG_REPLY 2
ACCOUNTS_REPLY 1
ACCOUNTS_REPLY 2
METADATA_REPLY 1
METADATA_REPLY 2

# A party that nothing names
slice|nobody.example
HEADER
=
HEADER

# It keeps the time alone
slice|nobody.example
HEADER
LOAD 1 https://rp.example/
{"do":"at","time":1700000001}
GET 1 1
=
HEADER
{"do":"at","time":1700000001}

# A party is compared byte for byte
slice|RP.example
HEADER
LOAD 1 https://rp.example/
GET 1 1
=
HEADER

# A host is no party
slice|www.rp.example
HEADER
LOAD 1 https://www.rp.example/
=
HEADER

# A page number with two sites
slice|rp.example
HEADER
LOAD 1 https://rp.example/
LOAD 2 https://shop.example/
GET 1 1
LOAD 1 https://late.example/
GET_TWO
=
HEADER
LOAD 1 https://rp.example/
GET 1 1
LOAD 1 https://late.example/

# Two providers of one call
slice|two.example
HEADER
LOAD 1 https://rp.example/
LOAD 2 https://shop.example/
LOAD 3 https://far.example/
GET 1 1
GET_BOTH 2
=
HEADER
LOAD 1 https://rp.example/
LOAD 2 https://shop.example/
GET 1 1
GET_BOTH 2

# A disconnect call links its page with its provider
slice|rp.example
HEADER
LOAD 1 https://rp.example/
LOAD 2 https://shop.example/
GET 1 1
DISCONNECT
WELL_KNOWN_REPLY 5
=
HEADER
LOAD 1 https://rp.example/
LOAD 2 https://shop.example/
GET 1 1
DISCONNECT
WELL_KNOWN_REPLY 5

# A call of a page that is never loaded links nothing
slice|rp.example
HEADER
LOAD 1 https://rp.example/
GET 1 1
GET_BOTH 3
=
HEADER
LOAD 1 https://rp.example/
GET 1 1

# Calls that begin later, that begin on a page outside, that never begin
slice|rp.example
HEADER
ABORT 1
ABORT 2
ABORT 9
LOAD 1 https://rp.example/
LOAD 2 https://shop.example/
GET 1 1
GET_TWO
WELL_KNOWN_REPLY 1
WELL_KNOWN_REPLY 2
WELL_KNOWN_REPLY 9
=
HEADER
ABORT 1
LOAD 1 https://rp.example/
GET 1 1
WELL_KNOWN_REPLY 1

# What stands from before, of one party and of two
slice|shop.example
HEADER
KEPT https://rp.example https://accounts.idp.example
KEPT https://shop.example https://login.two.example
KEPT https://shop.example https://accounts.idp.example
KEPT https://rp.example https://login.two.example
SILENT https://rp.example
SILENT https://shop.example
COOKIE https://accounts.idp.example/
COOKIE https://login.two.example/
LOGIN logged-in
LOAD 1 https://rp.example/
LOAD 2 https://shop.example/
GET 1 1
GET_TWO
=
HEADER
KEPT https://shop.example https://login.two.example
SILENT https://shop.example
COOKIE https://login.two.example/
LOAD 2 https://shop.example/
GET_TWO

# What else a page does
slice|shop.example
HEADER
LOAD 1 https://rp.example/
LOAD 2 https://shop.example/
{"do":"prevent","page":1}
{"do":"prevent","page":2}
{"do":"setstatus","page":1,"status":"logged-in"}
{"do":"setstatus","page":2,"status":"logged-in"}
{"do":"idpclose","page":1}
{"do":"idpclose","page":2}
{"do":"closepage","page":1}
{"do":"closepage","page":2}
=
HEADER
LOAD 2 https://shop.example/
{"do":"prevent","page":2}
{"do":"setstatus","page":2,"status":"logged-in"}
{"do":"idpclose","page":2}
{"do":"closepage","page":2}"##
}

// Whether a scenario's slice is as it says, and its own slice.
fn is_right(alloc: Global, rows: &str) -> Result<bool, NoRoom> {
    let (words, rows) = rows.split_once('\n').unwrap_or((rows, ""));
    let (script, slice) = rows.split_once("=\n").unwrap_or((rows, ""));
    let script = told(alloc, scenarios(), script)?;
    let slice = told(alloc, scenarios(), slice)?;
    let once = gives(alloc, words, script.as_str(), "done", slice.as_str())?;
    let again = gives(alloc, words, slice.as_str(), "done", slice.as_str())?;
    Ok(once && again)
}

// The title of the first scenario that is not as it says, or "", and how many before it are.
fn first_wrong(alloc: Global) -> Result<(&'static str, u32), NoRoom> {
    let mut count: u32 = 0;
    for block in scenarios().split("\n\n") {
        let (title, rows) = block.split_once('\n').unwrap_or((block, ""));
        if title.starts_with("# ") {
            if !is_right(alloc, rows)? {
                return Ok((title, count));
            }
            count = count.wrapping_add(1);
        }
    }
    Ok(("", count))
}

#[test]
fn slices(rt: HostRuntime) -> Result<(), Fail> {
    assert_eq!(rt; first_wrong(rt.alloc())?, ("", 14));
    Ok(())
}

// The records of the two calls of a slice are those of the whole, but for their lines.
#[test]
fn a_slice_runs_as_the_whole(rt: HostRuntime) -> Result<(), Fail> {
    let alloc = rt.alloc();
    let whole = told(
        alloc,
        scenarios(),
        "HEADER\nLOAD 1 https://rp.example/\nLOAD 2 https://shop.example/\nGET 1 1",
    )?;
    let slice = told(
        alloc,
        scenarios(),
        "HEADER\nLOAD 1 https://rp.example/\nGET 1 1",
    )?;
    let records = told(
        alloc,
        "",
        "WELL_KNOWN_REQUEST 1 4\nCONFIG_REQUEST 1 4\nEND 3",
    )?;
    let kept = told(
        alloc,
        "",
        "WELL_KNOWN_REQUEST 1 3\nCONFIG_REQUEST 1 3\nEND 2",
    )?;
    assert!(rt;
        gives(
            alloc,
            "slice|rp.example",
            whole.as_str(),
            "done",
            slice.as_str()
        )?
    );
    assert!(rt; gives(alloc, "run", whole.as_str(), "done", records.as_str())?);
    assert!(rt; gives(alloc, "run", slice.as_str(), "done", kept.as_str())?);
    Ok(())
}

// Its pages share one provider, so it is a slice of itself.
#[test]
fn a_made_script_is_its_slice(rt: HostRuntime) -> Result<(), Fail> {
    let alloc = rt.alloc();
    let script = script_of_three(alloc)?;
    assert!(rt;
        gives(
            alloc,
            "slice|rp1.example",
            script.as_str(),
            "done",
            script.as_str()
        )?
    );
    Ok(())
}

// A script with CR and a blank line, whose last line lacks its LF.
const RETURNS: &str = "{\"fedcm\":1,\"now\":1700000000,\"rules\":\"\"}\r\n\
{\"do\":\"load\",\"page\":2,\"url\":\"https://shop.example/\"}\r\n\r\n{\"do\":\"load\",\"page\":1,\"url\":\"https://rp.example/\"}\r\n\
{ \"page\": 1, \"do\": \"prevent\" }";

// The lines of its slice, byte for byte, each with LF.
const RETURNED: &str = "{\"fedcm\":1,\"now\":1700000000,\"rules\":\"\"}\r\n\
{\"do\":\"load\",\"page\":1,\"url\":\"https://rp.example/\"}\r\n{ \"page\": 1, \"do\": \"prevent\" }\n";

#[test]
fn lines_are_kept_byte_for_byte(rt: HostRuntime) -> Result<(), Fail> {
    assert!(rt; gives(rt.alloc(), "slice|rp.example", RETURNS, "done", RETURNED)?);
    assert!(rt; gives(rt.alloc(), "slice|rp.example", RETURNED, "done", RETURNED)?);
    Ok(())
}

const HEADER: &str = "{\"fedcm\":1,\"now\":1700000000,\"rules\":\"\"}\n";

const NO_KIND: &str = "{\"cause\":\"no-kind\",\"line\":2,\"out\":\"bad\"}\n";

// Words that are no form, and a line that is bad in the part that would be kept, in the one that would not be, or lacks.
#[test]
fn a_bad_line_is_named(rt: HostRuntime) -> Result<(), Fail> {
    let alloc = rt.alloc();
    let bad = told(alloc, "", "HEADER\n{}\nLOAD 1 https://rp.example/")?;
    assert!(rt; gives(alloc, "slice|x", bad.as_str(), "bad-script", NO_KIND)?);
    assert!(rt;
        gives(
            alloc,
            "slice|rp.example",
            bad.as_str(),
            "bad-script",
            NO_KIND
        )?
    );
    assert!(rt;
        gives(
            alloc,
            "slice|x",
            "",
            "bad-script",
            "{\"cause\":\"not-json\",\"line\":1,\"out\":\"bad\"}\n"
        )?
    );
    Ok(())
}

#[test]
fn a_party_has_a_byte(rt: HostRuntime) -> Result<(), Fail> {
    let alloc = rt.alloc();
    assert!(rt; gives(alloc, "slice", HEADER, "usage", "")?);
    assert!(rt; gives(alloc, "slice||", HEADER, "usage", "")?);
    assert!(rt; gives(alloc, "slice|x|y", HEADER, "usage", "")?);
    assert!(rt; gives(alloc, "slice|x", HEADER, "done", HEADER)?);
    Ok(())
}

const TIMED: &str =
    "{\"fedcm\":1,\"now\":1700000000,\"rules\":\"\"}\n{\"do\":\"at\",\"time\":1700000001}\n";

// Whether a slice whose take or put fails ends so, after this text.
fn fails(alloc: Global, take: u64, put: u64, status: Status, text: &str) -> Result<bool, NoRoom> {
    let limits = Limits {
        failing_take: take,
        failing_put: put,
        ..QUIET
    };
    let (found, taken) = ran(alloc, "slice|x", TIMED, limits)?;
    Ok(found == status && taken.as_slice() == text.as_bytes())
}

// A fault of the source leaves nothing, and one of the sink a front.
#[test]
fn a_fault_ends_a_slice(rt: HostRuntime) -> Result<(), Fail> {
    let alloc = rt.alloc();
    assert!(rt; fails(alloc, 2, 0, Status::ReadFault, "")?);
    assert!(rt; fails(alloc, 0, 1, Status::WriteFault, "")?);
    assert!(rt; fails(alloc, 0, 2, Status::WriteFault, HEADER)?);
    assert!(rt; fails(alloc, 0, 0, Status::Done, TIMED)?);
    Ok(())
}
