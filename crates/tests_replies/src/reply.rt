//! Replies as they come, and the step at which they are refused.
use fed_io::{Fault, NoRoom};
use fed_reply::ReplyStep::{Chunk, Coding, Head, Json, Length, Mime, Short, Status};
use fed_reply::{
    Asked, JsonBuffer, Member, Reply, ReplyStep, json_of, list_member, object_member, read_head,
    read_reply, read_texts, text_member,
};
use std::alloc::Global;
use std::test::Fail;

// The value, or the step.
fn settled<T: Drop>(answer: Result<T, Fault<ReplyStep>>) -> Result<Result<T, ReplyStep>, NoRoom> {
    match answer {
        Ok(value) => Ok(Ok(value)),
        Err(Fault::Step(step)) => Ok(Err(step)),
        Err(Fault::NoRoom) => Err(NoRoom),
    }
}

// The first step at which a reply is refused, if there is one.
fn first_step(alloc: Global, raw: &[u8]) -> Result<Option<ReplyStep>, NoRoom> {
    match settled(read_reply(alloc, raw))? {
        Ok(reply) => value_step(alloc, &reply),
        Err(step) => Ok(Some(step)),
    }
}

// The step at which the value of a reply is refused, if it is.
fn value_step(alloc: Global, reply: &Reply) -> Result<Option<ReplyStep>, NoRoom> {
    match settled(json_of(alloc, reply))? {
        Ok(_) => Ok(None),
        Err(step) => Ok(Some(step)),
    }
}

const JSON: &str = "Content-Type: application/json\r\n";

#[test]
fn framing(rt: HostRuntime) -> Result<(), Fail> {
    let chunked = "Transfer-Encoding: chunked\r\n";
    let rows = [
        (
            "HTTP/1.1 200 OK",
            chunked,
            "f\r\n{\"accounts\":[]}\r\n0\r\n\r\n",
            None,
        ),
        (
            "HTTP/1.1 200 OK",
            chunked,
            "10\r\n{\"accounts\":[]}\r\n0\r\n\r\n",
            Some(Chunk),
        ),
        (
            "HTTP/1.1 200 OK",
            chunked,
            "10\r\n{\"accounts\":[]}",
            Some(Short),
        ),
        (
            "HTTP/1.1 200 OK",
            "Content-Encoding: gzip\r\n",
            "{}",
            Some(Coding),
        ),
        ("HTTP/1.1 301 Moved", "", "{}", Some(Status)),
        ("HTTP/1.1 200 OK", "", "{\"accounts\":[]}", None),
        (
            "HTTP/1.0 200 OK",
            "Content-Encoding: Identity\r\n",
            "{}",
            None,
        ),
    ];
    for (line, fields, body, step) in rows {
        let raw = format!(in rt.alloc(); "{line}\r\n{JSON}{fields}\r\n{body}")?;
        assert_eq!(rt; first_step(rt.alloc(), raw.as_bytes())?, step, "at {raw}");
    }
    Ok(())
}

#[test]
fn damaged(rt: HostRuntime) -> Result<(), Fail> {
    let rows = [
        ("Content-Length: +2\r\n", "{}", Some(Length)),
        ("Content-Length: \r\n", "{}", Some(Length)),
        ("Content-Encoding: \r\n", "{}", Some(Coding)),
        (
            "Transfer-Encoding: CHUNKED\r\nContent-Length: 9\r\n",
            "2 ;x\r\n{}\r\n000\r\nA: b\r\n\r\nmore",
            None,
        ),
        (
            "Transfer-Encoding: chunked\r\n",
            "2\r\n{}\n0\r\n\r\n",
            Some(Chunk),
        ),
        (
            "Transfer-Encoding: chunked\r\n",
            "2\r\n{}\r\r0\r\n\r\n",
            Some(Chunk),
        ),
        (
            "Transfer-Encoding: chunked\r\n",
            "2\r\n{}\r\n0\r\n",
            Some(Chunk),
        ),
        ("", "\u{feff}{}", None),
        ("", "{", Some(Json)),
        ("", "1e308", None),
        ("", "1e309", Some(Json)),
        ("", "[-1e999]", Some(Json)),
        ("", "01", Some(Json)),
        ("", "\"\\ud800\"", Some(Json)),
        ("", "\"\\ud83d\\ude00\"", None),
    ];
    for (fields, body, step) in rows {
        let raw = format!(in rt.alloc(); "HTTP/1.1 200 OK\r\n{JSON}{fields}\r\n{body}")?;
        assert_eq!(rt; first_step(rt.alloc(), raw.as_bytes())?, step, "at {raw}");
    }
    Ok(())
}

#[test]
fn heads_and_types(rt: HostRuntime) -> Result<(), Fail> {
    let rows = [
        ("HTTP/1.1 099 No\r\n\r\n", Some(Head)),
        ("HTTP/1.1 200 OK\r\nA: b\r\n", Some(Head)),
        ("HTTP/1.1 199 No\r\n\r\n", Some(Status)),
        ("HTTP/1.1 300 No\r\n\r\n", Some(Status)),
        ("HTTP/1.1 200\nContent-Type: a/+JSON ;x\n\n{}", None),
        (
            "HTTP/1.1 200\r\nContent-Type: text/json/x\r\n\r\n{}",
            Some(Mime),
        ),
        ("HTTP/1.1 200\r\nContent-Type: +json\r\n\r\n{}", Some(Mime)),
        (
            "HTTP/1.1 200\r\nContent-Type: text/plain\r\nContent-Type: text/json\r\n\r\n{}",
            Some(Mime),
        ),
    ];
    for (raw, step) in rows {
        assert_eq!(rt; first_step(rt.alloc(), raw.as_bytes())?, step, "at {raw}");
    }
    Ok(())
}

#[test]
fn many_small_chunks(rt: HostRuntime) -> Result<(), Fail> {
    let mut raw = format!(in rt.alloc();
        "HTTP/1.1 200 OK\r\n{JSON}Transfer-Encoding: chunked\r\n\r\n"
    )?;
    for _ in 0..500000 {
        raw.push_str("1\r\n \r\n")?;
    }
    raw.push_str("2\r\n{}\r\n0\r\n\r\n")?;
    match settled(read_reply(rt.alloc(), raw.as_bytes()))? {
        Ok(reply) => {
            assert_eq!(rt; reply.body().len(), 500002);
            assert_eq!(rt; value_step(rt.alloc(), &reply)?, None);
        }
        Err(step) => panic!(rt; "refused at {step:?}"),
    }
    Ok(())
}

#[test]
fn fields_of_a_head(rt: HostRuntime) -> Result<(), Fail> {
    let raw =
        b"HTTP/1.1 404 Not Found\r\nSet-Cookie:  a=1; Secure \r\nX: y\r\nset-cookie: b=2\r\n\r\nunread";
    match settled(read_head(rt.alloc(), raw.as_slice()))? {
        Ok(reply) => {
            assert_eq!(rt; reply.status(), 404);
            assert!(rt; reply.field("set-cookie", 0) == Some(b"a=1; Secure".as_slice()));
            assert!(rt; reply.field("set-cookie", 1) == Some(b"b=2".as_slice()));
            assert!(rt; reply.field("set-cookie", 2).is_none());
            assert_eq!(rt; reply.values("Set-Cookie").count(), 2);
            assert!(rt; reply.field("y", 0).is_none());
            assert!(rt; reply.body().is_empty());
        }
        Err(step) => panic!(rt; "refused at {step:?}"),
    }
    Ok(())
}

#[test]
fn members(rt: HostRuntime) -> Result<(), Fail> {
    let raw =
        b"HTTP/1.1 200 OK\r\nContent-Type: text/json\r\n\r\n{\"a\":\"s\",\"a\":\"t\",\"b\":[1],\"c\":{},\"d\":null}";
    let Ok(reply) = settled(read_reply(rt.alloc(), raw.as_slice()))? else {
        panic!(rt; "no reply");
    };
    let Ok(value) = settled(json_of(rt.alloc(), &reply))? else {
        panic!(rt; "no value");
    };
    assert!(rt; matches!(text_member(&value, "a"), Member::Is("t")));
    assert!(rt; matches!(text_member(&value, "b"), Member::Wrong));
    assert!(rt; matches!(text_member(&value, "d"), Member::Absent));
    assert!(rt; matches!(text_member(&value, "e"), Member::Absent));
    match list_member(&value, "b") {
        Member::Is(list) => match list.first() {
            Some(item) => assert!(rt; matches!(text_member(item, "a"), Member::Wrong)),
            None => panic!(rt; "no item"),
        },
        _ => panic!(rt; "no list"),
    }
    assert!(rt; matches!(list_member(&value, "a"), Member::Wrong));
    assert!(rt; matches!(object_member(&value, "c"), Member::Is(_)));
    assert!(rt; matches!(object_member(&value, "a"), Member::Wrong));
    Ok(())
}

#[test]
fn texts_of_a_reply(rt: HostRuntime) -> Result<(), Fail> {
    let raw =
        b"HTTP/1.1 200 OK\r\nContent-Type: text/json\r\n\r\n{\"a\":\"s\",\"a\":\"t\",\"b\":[1],\"c\":{},\"d\":null}";
    let mut buffer = JsonBuffer::new(rt.alloc());
    let mut asked = [
        Asked::new("a"),
        Asked::new("b"),
        Asked::new("c"),
        Asked::new("d"),
        Asked::new("e"),
    ];
    let read = settled(read_texts(rt.alloc(), raw.as_slice(), &mut buffer, &mut asked))?;
    assert_eq!(rt; read, Ok(()));
    assert!(rt; matches!(asked[0].found, Member::Is("t")));
    assert!(rt; matches!(asked[1].found, Member::Wrong));
    assert!(rt; matches!(asked[2].found, Member::Wrong));
    assert!(rt; matches!(asked[3].found, Member::Absent));
    assert!(rt; matches!(asked[4].found, Member::Absent));
    Ok(())
}
