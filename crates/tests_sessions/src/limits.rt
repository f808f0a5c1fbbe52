//! Parties with as many cookies as may stand.
use crate::lines::view_of;
use fed_io::NoRoom;
use fed_session::View;
use std::alloc::Global;
use std::test::Fail;

const HEADER: &str = r#"{"fedcm":1,"now":1700000000,"rules":"example"}
"#;

// A load of a page of this URL whose reply stores a cookie of each number from the first up to before the other.
fn push_load(
    alloc: Global,
    text: &mut String,
    url: &str,
    numbers: (u32, u32),
) -> Result<(), NoRoom> {
    for piece in [
        r#"{"do":"load","page":1,"url":""#,
        url,
        r#"","text":"HTTP/1.1 200 OK\r\n"#,
    ] {
        text.push_str(piece)?;
    }
    for number in numbers.0..numbers.1 {
        let field = format!(in alloc;
            r#"Set-Cookie: k{number}=1; Path=/; SameSite=None; Secure\r\n"#
        )?;
        text.push_str(field.as_str())?;
    }
    text.push_str(concat!(r#"\r\n"}"#, "\n"))?;
    Ok(())
}

// The cookies whose domain this is.
fn of_domain(view: &View, domain: &[u8]) -> usize {
    view.cookies
        .as_slice()
        .iter()
        .filter(|cookie| cookie.domain.as_slice() == domain)
        .count()
}

// The name of the first cookie of the domain is this.
fn is_first(view: &View, domain: &[u8], name: &[u8]) -> bool {
    match view
        .cookies
        .as_slice()
        .iter()
        .find(|cookie| cookie.domain.as_slice() == domain)
    {
        Some(cookie) => cookie.name.as_slice() == name,
        None => false,
    }
}

// A cookie of the domain and the name stands.
fn has(view: &View, domain: &[u8], name: &[u8]) -> bool {
    view.cookies.as_slice().iter().any(|cookie| cookie.domain.as_slice() == domain
        && cookie.name.as_slice() == name)
}

// A party with 180 cookies, and then another that stores 200.
fn two_parties(alloc: Global) -> Result<String, NoRoom> {
    let mut text = String::from_str(alloc, HEADER)?;
    push_load(alloc, &mut text, "https://shop.example/", (1, 91))?;
    push_load(alloc, &mut text, "https://shop.example/", (91, 181))?;
    push_load(alloc, &mut text, "https://idp.example/", (1, 101))?;
    push_load(alloc, &mut text, "https://idp.example/", (101, 201))?;
    Ok(text)
}

// One of them expires, and one more comes.
const ONE_EXPIRED: &str = concat!(
    r#"{"do":"load","page":2,"url":"https://idp.example/","text":"HTTP/1.1 200 OK\r\n"#,
    r#"Set-Cookie: k100=1; Max-Age=0; Path=/; SameSite=None; Secure\r\n"#,
    r#"Set-Cookie: k201=1; Path=/; SameSite=None; Secure\r\n\r\n"}
"#,
);

#[test]
fn of_each_party_180_cookies_stand(rt: HostRuntime) -> Result<(), Fail> {
    let alloc = rt.alloc();
    let mut script = two_parties(alloc)?;
    let view = view_of(alloc, script.as_str())?;
    assert_eq!(rt; of_domain(&view, b"shop.example"), 180);
    assert_eq!(rt; of_domain(&view, b"idp.example"), 180);
    assert!(rt; is_first(&view, b"shop.example", b"k1"));
    assert!(rt; is_first(&view, b"idp.example", b"k21"));
    script.push_str(ONE_EXPIRED)?;
    let after = view_of(alloc, script.as_str())?;
    assert_eq!(rt; of_domain(&after, b"idp.example"), 180);
    assert!(rt; is_first(&after, b"idp.example", b"k21"));
    assert!(rt; !has(&after, b"idp.example", b"k100"));
    assert!(rt; has(&after, b"idp.example", b"k201"));
    Ok(())
}

// A head has at most 128 fields, so of a reply with 200 none is stored.
#[test]
fn a_reply_with_200_cookies_stores_none(rt: HostRuntime) -> Result<(), Fail> {
    let alloc = rt.alloc();
    let mut script = String::from_str(alloc, HEADER)?;
    push_load(alloc, &mut script, "https://idp.example/", (1, 201))?;
    let view = view_of(alloc, script.as_str())?;
    assert_eq!(rt; view.cookies.len(), 0);
    push_load(alloc, &mut script, "https://idp.example/", (1, 129))?;
    let after = view_of(alloc, script.as_str())?;
    assert_eq!(rt; after.cookies.len(), 128);
    Ok(())
}
