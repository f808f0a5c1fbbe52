//! Texts that RFC 8259 and JSON.stringify give.
use crate::{escape_into, unescaped};
use fed_io::NoRoom;

// Bytes, and the text that JSON.stringify gives for them.
const TEXTS: [(&[u8], &[u8]); 6] = [
    (b"", b""),
    (b"accounts.idp.example", b"accounts.idp.example"),
    (
        b"{\"id\":\"u1\",\"name\":\"a person with a long name\"}",
        b"{\\\"id\\\":\\\"u1\\\",\\\"name\\\":\\\"a person with a long name\\\"}",
    ),
    (
        b"HTTP/1.1 200 OK\r\nContent-Type: text/html\r\n\r\n",
        b"HTTP/1.1 200 OK\\r\\nContent-Type: text/html\\r\\n\\r\\n",
    ),
    (b"a\\b\tc", b"a\\\\b\\tc"),
    (b"\xc3\xa9\x7f/", b"\xc3\xa9\x7f/"),
];

#[test]
fn texts_are_those_of_json(rt: HostRuntime) -> Result<(), NoRoom> {
    for (bytes, text) in TEXTS {
        assert!(rt; bytes.len() <= 60);
        let mut room = Vec::new(rt.alloc());
        room.resize(400, b'?')?;
        let end = escape_into(room.as_mut_slice(), 1, bytes);
        assert!(rt; end >= 1);
        assert_eq!(rt; &room.as_slice()[1..end], text);
        let (read, left) = unescaped(rt.alloc(), text)?;
        assert_eq!(rt; read.as_slice(), bytes);
        assert!(rt; left.is_empty());
    }
    Ok(())
}

// Escapes that are read elsewhere, as RFC 8259 has them.
#[test]
fn other_escapes_are_left(rt: HostRuntime) -> Result<(), NoRoom> {
    let mut room = Vec::new(rt.alloc());
    room.resize(400, b'?')?;
    let end = escape_into(room.as_mut_slice(), 0, b"ab\x08\x0c\x1f".as_slice());
    assert_eq!(rt; &room.as_slice()[..end], b"ab\\b\\f\\u001f".as_slice());
    let (read, left) = unescaped(rt.alloc(), b"ab\\u001f\"")?;
    assert_eq!(rt; read.as_slice(), b"ab".as_slice());
    assert_eq!(rt; left, b"\\u001f\"".as_slice());
    Ok(())
}
