//! Scripts that bring back the state that a script leaves behind.
use crate::lines::told;
use crate::runs::{Limits, QUIET, first_wrong, gives, ran};
use fed_io::NoRoom;
use fed_run::Status;
use std::alloc::Global;
use std::test::Fail;

// Lines of their own, and scenarios (lines.rt).
fn scenarios() -> &'static str {
    r##"RULED
{"fedcm":1,"now":1700000000,"rules":"example"}

RULED_LATER
{"fedcm":1,"now":1700000010,"rules":"example"}

SAVED_LOGIN
{"do":"have","origin":"#","status":"#","what":"login"}

DISCONNECT
{"do":"disconnect","page":1,"call":7,"config":"https://accounts.idp.example/fedcm.json","client":"c1","hint":"u1"}

# A user who signs up
HEADER
LOAD 1 https://rp.example/
GET 1 1
WELL_KNOWN_REPLY 1
CONFIG_REPLY 1
TWO_ACCOUNTS
{"do":"choose","call":1,"account":"u2"}
METADATA_REPLY 1
{"do":"continue","call":1}
{"do":"reply","call":1,"to":"assertion","text":"HTTP/1.1 200 OK\r\nContent-Type: application/json\r\n\
Access-Control-Allow-Origin: https://rp.example\r\nAccess-Control-Allow-Credentials: true\r\n\r\n{\"token\":\"T1\"}"}
= done
HEADER
SAVED_LOGIN https://accounts.idp.example/ logged-in
{"account":"u2","do":"have","page":"https://rp.example/","provider":"https://accounts.idp.example/","what":"kept"}
LOAD 1 https://rp.example/

# A call whose first replies are out
HEADER
LOAD 1 https://rp.example/
GET 1 1
= not-saved
{"call":1,"out":"not-saved","why":"pending"}

# The first of the calls that are pending, in the order in which they began
HEADER
LOAD 1 https://rp.example/
LOAD 2 https://shop.example/
GET 2 9
GET 1 3
= not-saved
{"call":9,"out":"not-saved","why":"pending"}

# A disconnect that is out
HEADER
{"do":"have","what":"kept","page":"https://rp.example","provider":"https://accounts.idp.example","account":"u1"}
LOAD 1 https://rp.example/
DISCONNECT
= not-saved
{"call":7,"out":"not-saved","why":"pending"}

# A call that was ended, and a page that was closed
HEADER
LOAD 1 https://rp.example/
GET 1 1
{"do":"abort","call":1}
{"do":"closepage","page":1}
= done
HEADER

# What is left of a cookie after a time
HEADER
{"do":"have","what":"cookie","url":"https://accounts.idp.example/x","text":"a=1; Path=/; Max-Age=100; SameSite=None; Secure"}
{"do":"at","time":1700000040}
= done
{"fedcm":1,"now":1700000040,"rules":""}
{"do":"have","text":"a=1; Max-Age=60; Path=/; Secure; SameSite=None","url":"https://accounts.idp.example/","what":"cookie"}

# Pages, a flag, a status, and rules of which one stands twice
{"fedcm":1,"now":1,"rules":"com\nexample\n*.ck\n!www.ck\ncom\n// x"}
{"do":"have","what":"silent","origin":"http://localhost:8080"}
LOAD 3 https://rp.example:444/x
LOAD 1 http://[::1]/
{"do":"setstatus","page":1,"status":"logged-out"}
= done
{"fedcm":1,"now":1,"rules":"!www.ck\n*.ck\ncom\nexample"}
SAVED_LOGIN http://[::1]/ logged-out
{"do":"have","origin":"http://localhost:8080/","what":"silent"}
LOAD 3 https://rp.example:444/
LOAD 1 http://[::1]/

# A rule of one label that begins with a mark reads back as an exception
{"fedcm":1,"now":1,"rules":"\uff01com"}
= not-saved
{"item":0,"out":"not-saved","why":"item"}

# A cookie of one host
RULED
{"do":"have","what":"cookie","url":"https://accounts.idp.example/login/step","text":"a=1; Path=/"}
= done
RULED
{"do":"have","text":"a=1; Path=/; SameSite=Lax","url":"https://accounts.idp.example/","what":"cookie"}

# A cookie of a domain, with the path of its URL
RULED
{"do":"have","what":"cookie","url":"https://accounts.idp.example/login/step","text":"a=1; Domain=.IDP.example; SameSite=Strict"}
= done
RULED
{"do":"have","text":"a=1; Domain=idp.example; Path=/login; SameSite=Strict","url":"https://idp.example/","what":"cookie"}

# Cookies that are over, of which one was so from the first
RULED
{"do":"have","what":"cookie","url":"https://idp.example/","text":"a=1; Max-Age=-5; SameSite=None; Secure"}
{"do":"have","what":"cookie","url":"https://idp.example/","text":"b=1; Max-Age=10"}
{"do":"at","time":1700000010}
= done
RULED_LATER
{"do":"have","text":"a=1; Max-Age=0; Path=/; Secure; SameSite=None","url":"https://idp.example/","what":"cookie"}
{"do":"have","text":"b=1; Max-Age=0; Path=/; SameSite=Lax","url":"https://idp.example/","what":"cookie"}

# A cookie that lasts until a date
RULED
{"do":"have","what":"cookie","url":"https://idp.example/","text":"a=1; Expires=Wed, 15 Nov 2023 00:00:00 GMT; Secure"}
= done
RULED
{"do":"have","text":"a=1; Max-Age=6400; Path=/; Secure; SameSite=Lax","url":"https://idp.example/","what":"cookie"}

# A path that no attribute can say
RULED
{"do":"have","what":"cookie","url":"https://idp.example/a;b/c/d","text":"a=1"}
= done
RULED
{"do":"have","text":"a=1; SameSite=Lax","url":"https://idp.example/a;b/c/","what":"cookie"}

# A field that is no ASCII
RULED
{"do":"have","what":"cookie","url":"https://idp.example/","raw":"bsOkPTE7IFBhdGg9L/8="}
= done
RULED
{"do":"have","raw":"bsOkPTE7IFBhdGg9L/87IFNhbWVTaXRlPUxheA==","url":"https://idp.example/","what":"cookie"}

# A cookie of an address, over http
RULED
{"do":"have","what":"cookie","url":"http://127.0.0.1:8080/x","text":"a=1; Domain=127.0.0.1"}
= done
RULED
{"do":"have","text":"a=1; Path=/; SameSite=Lax","url":"https://127.0.0.1/","what":"cookie"}

# A cookie without a name, which is not stored, and one without a value
RULED
{"do":"have","what":"cookie","url":"https://idp.example/","text":"=x"}
{"do":"have","what":"cookie","url":"https://idp.example/","text":"b="}
= done
RULED
{"do":"have","text":"b=; Path=/; SameSite=Lax","url":"https://idp.example/","what":"cookie"}

# A bad line
HEADER
{"do":"jump"}
= bad-script
{"cause":"no-kind","line":2,"out":"bad"}

# No header
= bad-script
{"cause":"not-json","line":1,"out":"bad"}"##
}

// The title of the first scenario whose saved script is saved as another, or "", and how many are saved as themselves.
fn first_changed(alloc: Global) -> Result<(&'static str, u32), NoRoom> {
    let mut count: u32 = 0;
    for block in scenarios().split("\n\n") {
        let (title, rows) = block.split_once('\n').unwrap_or((block, ""));
        if let Some((_, lines)) = rows.split_once("= done\n") {
            let saved = told(alloc, scenarios(), lines)?;
            if !gives(alloc, "save", saved.as_str(), "done", saved.as_str())? {
                return Ok((title, count));
            }
            count = count.wrapping_add(1);
        }
    }
    Ok(("", count))
}

#[test]
fn states_are_saved(rt: HostRuntime) -> Result<(), Fail> {
    assert_eq!(rt; first_wrong(rt.alloc(), "save", scenarios())?, ("", 18));
    Ok(())
}

#[test]
fn a_saved_script_is_saved_as_itself(rt: HostRuntime) -> Result<(), Fail> {
    assert_eq!(rt; first_changed(rt.alloc())?, ("", 12));
    Ok(())
}

const TIMED: &str =
    "{\"fedcm\":1,\"now\":1700000000,\"rules\":\"\"}\n{\"do\":\"at\",\"time\":1700000001}\n";

const SAVED: &str = "{\"fedcm\":1,\"now\":1700000001,\"rules\":\"\"}\n";

// Whether a script whose take or put fails is saved so, as this text.
fn fails(alloc: Global, take: u64, put: u64, status: Status, text: &str) -> Result<bool, NoRoom> {
    let limits = Limits {
        failing_take: take,
        failing_put: put,
        ..QUIET
    };
    let (found, taken) = ran(alloc, "save", TIMED, limits)?;
    Ok(found == status && taken.as_slice() == text.as_bytes())
}

// A fault of the source, or one of the sink in its first call, leaves nothing.
#[test]
fn a_fault_ends_a_save(rt: HostRuntime) -> Result<(), Fail> {
    let alloc = rt.alloc();
    assert!(rt; fails(alloc, 2, 0, Status::ReadFault, "")?);
    assert!(rt; fails(alloc, 0, 1, Status::WriteFault, "")?);
    assert!(rt; fails(alloc, 0, 0, Status::Done, SAVED)?);
    Ok(())
}

// The saved permission of an account.
fn kept(alloc: Global, number: u32) -> Result<String, NoRoom> {
    let line = format!(in alloc;
        r#"{{"account":"u{number}","do":"have","page":"https://rp.example/","provider":"https://idp.example/","what":"kept"}}"#
    )?;
    Ok(line)
}

// A saved cookie, of one site for each hundred.
fn cookie(alloc: Global, number: u32) -> Result<String, NoRoom> {
    let site = number / 100;
    let line = format!(in alloc;
        r#"{{"do":"have","text":"c{number}=1; Path=/; SameSite=Lax","url":"https://p{site}.example/","what":"cookie"}}"#
    )?;
    Ok(line)
}

// A saved script with so many permissions and cookies.
fn saved_of(alloc: Global, many: u32) -> Result<String, NoRoom> {
    let mut text = String::from_str(alloc, SAVED)?;
    for number in 0..many {
        text.push_str(kept(alloc, number)?.as_str())?;
        text.push_str("\n")?;
    }
    for number in 0..many {
        text.push_str(cookie(alloc, number)?.as_str())?;
        text.push_str("\n")?;
    }
    Ok(text)
}

const MANY: Limits = Limits {
    most_taken: 65_536,
    most_put: 65_536,
    failing_take: 0,
    failing_put: 0,
    room: 33_554_432,
};

#[test]
fn many_cookies_and_permissions(rt: HostRuntime) -> Result<(), Fail> {
    let text = saved_of(rt.alloc(), 100_000)?;
    let (status, saved) = ran(rt.alloc(), "save", text.as_str(), MANY)?;
    assert_eq!(rt; status, Status::Done);
    assert!(rt; saved.as_slice() == text.as_bytes());
    Ok(())
}
