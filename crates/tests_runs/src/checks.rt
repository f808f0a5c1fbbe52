//! The form `check`: records of bad lines and of members that are read over.
ghost use Rattle.std.specs.Prelude.{◌<◌};

use crate::runs::{Limits, QUIET, gives, ran};
use fed_io::NoRoom;
use fed_run::Status;
use std::alloc::Global;
use std::test::Fail;

// Members that are read over, bad lines among good ones, and a last line that lacks its end.
const SCRIPT: &str = r#"{"fedcm":1,"now":5,"rules":"","more":0}
{"do":"load","page":1,"url":"https://rp.example/"}
{"do":"get","page":1,"call":1,"mediaton":"silent","providers":[{"config":"https://idp.example/f","client":"c","loginHint":"x"}]}

{"do":"chose","call":1}
{"do":"at","time":4}
{"do":"closepage","page":1,"\"\u00fc":1}"#;

const FOUND: &str = r#"{"line":1,"member":"more","out":"unread"}
{"line":3,"member":"mediaton","out":"unread"}
{"line":3,"member":"loginHint","out":"unread"}
{"cause":"no-kind","line":5,"out":"bad"}
{"cause":"time-back","line":6,"out":"bad"}
{"line":7,"member":"\"ü","out":"unread"}
"#;

// Members alone are no bad lines.
const READ_OVER: &str = r#"{"fedcm":1,"now":5,"rules":""}
{"do":"closepage","page":1,"url":"https://rp.example/"}
"#;

const BAD_HEADER: &str = r#"{"fedcm":1,"now":"5","rules":""}
{"do":"chose"}
"#;

#[test]
fn all_is_found(rt: HostRuntime) -> Result<(), Fail> {
    let alloc = rt.alloc();
    assert!(rt; gives(alloc, "check", SCRIPT, "bad-script", FOUND)?);
    let url = "{\"line\":2,\"member\":\"url\",\"out\":\"unread\"}\n";
    assert!(rt; gives(alloc, "check", READ_OVER, "done", url)?);
    assert!(rt;
        gives(
            alloc,
            "check",
            "{\"fedcm\":1,\"now\":5,\"rules\":\"\"}",
            "done",
            ""
        )?
    );
    let now = "{\"cause\":\"member\",\"line\":1,\"member\":\"now\",\"out\":\"bad\"}\n";
    assert!(rt; gives(alloc, "check", BAD_HEADER, "bad-script", now)?);
    let none = "{\"cause\":\"not-json\",\"line\":1,\"out\":\"bad\"}\n";
    assert!(rt; gives(alloc, "check", "", "bad-script", none)?);
    Ok(())
}

// How many bytes a call give another text, if any do.
fn wrong_size(alloc: Global) -> Result<Option<usize>, NoRoom> {
    for most_taken in [1, 7, 100, 100_000] {
        let limits = Limits {
            most_taken,
            ..QUIET
        };
        let (status, text) = ran(alloc, "check", SCRIPT, limits)?;
        if status != Status::BadScript || text.as_slice() != FOUND.as_bytes() {
            return Ok(Some(most_taken));
        }
    }
    Ok(None)
}

#[test]
fn any_pieces_give_one_text(rt: HostRuntime) -> Result<(), Fail> {
    assert_eq!(rt; wrong_size(rt.alloc())?, None);
    Ok(())
}

// How a check ends whose take of this number fails, or whose put of this number does, where it writes a front of the text.
fn end_at(alloc: Global, take: u64, put: u64) -> Result<Option<(Status, usize)>, NoRoom> {
    let limits = Limits {
        failing_take: take,
        failing_put: put,
        ..QUIET
    };
    let (status, text) = ran(alloc, "check", SCRIPT, limits)?;
    if FOUND.as_bytes().starts_with(text.as_slice()) {
        Ok(Some((status, text.len())))
    } else {
        Ok(None)
    }
}

// A source of 7 bytes a call and a sink of 40: what is found in the lines that had come is written, or a front of it.
#[test]
fn a_fault_ends_the_check(rt: HostRuntime) -> Result<(), Fail> {
    let alloc = rt.alloc();
    assert_eq!(rt; end_at(alloc, 1, 0)?, Some((Status::ReadFault, 0)));
    assert_eq!(rt; end_at(alloc, 7, 0)?, Some((Status::ReadFault, 42)));
    assert_eq!(rt; end_at(alloc, 0, 1)?, Some((Status::WriteFault, 0)));
    assert_eq!(rt; end_at(alloc, 0, 2)?, Some((Status::WriteFault, 40)));
    assert_eq!(rt; end_at(alloc, 0, 3)?, Some((Status::WriteFault, 42)));
    Ok(())
}
