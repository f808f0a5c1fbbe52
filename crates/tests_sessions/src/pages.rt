//! Which pages and calls a session shows after whole scripts.
use crate::lines::{has_one_call, view_of};
use fed_io::NoRoom;
use fed_origin::Stage;
use fed_session::View;
use std::alloc::Global;
use std::test::Fail;

// Page 1 closes and is loaded again, page 2 is loaded while it stands, and the call of page 2 ends with it.
const PAGES: &str = r#"{"fedcm":1,"now":1700000000,"rules":"example"}
{"do":"load","page":1,"url":"https://shop.example/"}
{"do":"load","page":2,"url":"https://news.example/"}
{"do":"load","page":3,"url":"https://game.example/"}
{"do":"get","page":2,"call":7,"providers":[{"config":"https://accounts.idp.example/fedcm.json","client":"news"}]}
{"do":"get","page":3,"call":4,"providers":[{"config":"https://accounts.idp.example/fedcm.json","client":"game"}]}
{"do":"closepage","page":1}
{"do":"closepage","page":9}
{"do":"load","page":2,"url":"https://news.example/more"}
{"do":"load","page":1,"url":"https://shop.example/"}
{"do":"abort","call":7}
"#;

// The user has signed in at the site of the pages.
const HEADER: &str = r#"{"fedcm":1,"now":1700000000,"rules":"example"}
{"do":"have","what":"kept","page":"https://shop.example/","provider":"https://accounts.idp.example/","account":"u1"}
"#;

const PROVIDER: &str = r#"{"config":"https://accounts.idp.example/fedcm.json","client":"shop"}"#;

// Three disconnect calls of page 1.
const DISCONNECTS: &str =
    r#"{"do":"disconnect","page":1,"call":2001,"config":"https://accounts.idp.example/fedcm.json","client":"shop","hint":"u1"}
{"do":"disconnect","page":1,"call":2002,"config":"https://accounts.idp.example/fedcm.json","client":"shop","hint":"u1"}
{"do":"disconnect","page":1,"call":2003,"config":"https://accounts.idp.example/fedcm.json","client":"shop","hint":"u1"}
"#;

// The numbers of the pages that stand are these.
fn has_pages(view: &View, first: u32, second: u32, third: u32) -> bool {
    match view.pages.as_slice() {
        [a, b, c] => a.0 == first && b.0 == second && c.0 == third,
        _ => false,
    }
}

#[test]
fn pages_stand_in_order_of_entering(rt: HostRuntime) -> Result<(), Fail> {
    let view = view_of(rt.alloc(), PAGES)?;
    assert!(rt; has_pages(&view, 2, 3, 1));
    assert!(rt; has_one_call(&view, 4, 3, Stage::Reading));
    Ok(())
}

// A page, and a get of it whose call has the page's number.
fn push_page(alloc: Global, text: &mut String, page: u32) -> Result<(), NoRoom> {
    let load = format!(in alloc; r#"{{"do":"load","page":{page},"url":"https://shop.example/"}}"#)?;
    let get = format!(in alloc; r#"{{"do":"get","page":{page},"call":{page},"providers":["#)?;
    for piece in [load.as_str(), "\n", get.as_str(), PROVIDER, "]}\n"] {
        text.push_str(piece)?;
    }
    Ok(())
}

// Page 1 has a get and three disconnects, as a thousand other pages have a get each.
fn thousand_pages(alloc: Global) -> Result<String, NoRoom> {
    let mut text = String::from_str(alloc, HEADER)?;
    for page in 1..1_002u32 {
        push_page(alloc, &mut text, page)?;
    }
    text.push_str(DISCONNECTS)?;
    Ok(text)
}

#[test]
fn a_page_closes_among_a_thousand(rt: HostRuntime) -> Result<(), Fail> {
    let alloc = rt.alloc();
    let mut script = thousand_pages(alloc)?;
    let before = view_of(alloc, script.as_str())?;
    assert_eq!(rt; before.pages.len(), 1_001);
    assert_eq!(rt; before.calls.len(), 1_004);
    script.push_str("{\"do\":\"closepage\",\"page\":1}\n")?;
    let after = view_of(alloc, script.as_str())?;
    assert_eq!(rt; after.pages.len(), 1_000);
    assert_eq!(rt; after.calls.len(), 1_000);
    assert!(rt; after.calls.as_slice().iter().all(|call| call.1 != 1));
    Ok(())
}
