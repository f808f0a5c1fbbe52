//! What a session shows after whole scripts: cookies and login statuses.
use crate::lines::{has_one_call, view_of};
use fed_origin::{LoginStatus, Stage};
use fed_session::View;
use std::alloc::Global;
use std::test::Fail;

// A sign-up, up to the request for the token.
const SIGN_UP: &str = concat!(
    r#"{"fedcm":1,"now":1700000000,"rules":"example"}
{"do":"load","page":2,"url":"https://accounts.idp.example/login","text":"HTTP/1.1 200 OK\r\n"#,
    r#"Set-Cookie: session=a; Path=/; Secure; SameSite=None\r\nSet-Login: logged-in\r\n\r\n"}
{"do":"load","page":1,"url":"https://shop.example/join"}
{"do":"at","time":1700000060}
{"do":"get","page":1,"call":1,"providers":[{"config":"https://accounts.idp.example/fedcm.json","client":"shop"}]}
{"do":"reply","call":1,"to":"wellknown","text":"HTTP/1.1 200 OK\r\nContent-Type: application/json\r\n\r\n"#,
    r#"{\"provider_urls\":[\"https://accounts.idp.example/fedcm.json\"]}"}
{"do":"reply","call":1,"to":"config","text":"HTTP/1.1 200 OK\r\nContent-Type: application/json\r\n\r\n"#,
    r#"{\"accounts_endpoint\":\"/accounts\",\"id_assertion_endpoint\":\"/assertion\",\"login_url\":\"/login\"}"}
{"do":"reply","call":1,"to":"accounts","text":"HTTP/1.1 200 OK\r\nContent-Type: application/json\r\n\r\n"#,
    r#"{\"accounts\":[{\"id\":\"b8\",\"name\":\"Ben\",\"email\":\"ben@uni.example\"}]}"}
{"do":"continue","call":1}
"#,
);

// A cookie that is written again keeps its place.
const COOKIES: &str = concat!(
    r#"{"fedcm":1,"now":1700000000,"rules":"example"}
{"do":"have","what":"cookie","url":"https://accounts.idp.example/","text":"a=1; Path=/; Secure; SameSite=None"}
{"do":"have","what":"cookie","url":"https://accounts.idp.example/","text":"b=2; Path=/; Secure; SameSite=None"}
{"do":"load","page":1,"url":"https://accounts.idp.example/login/start","text":"HTTP/1.1 200 OK\r\n"#,
    r#"Set-Cookie: c=3; Secure; SameSite=None\r\nSet-Cookie: a=4; Path=/; Secure; SameSite=None\r\n\r\n"}
"#,
);

// A cookie that is written again keeps its place, and a path that is missing is that of the page.
const COOKIES_OF_A_LOAD: &str = concat!(
    r#"{"fedcm":1,"now":1700000000,"rules":"example"}
{"do":"load","page":1,"url":"https://accounts.idp.example/login/start","text":"HTTP/1.1 200 OK\r\n"#,
    r#"Set-Cookie: a=1; Path=/; SameSite=None; Secure\r\nSet-Cookie: b=2; Path=/accounts; SameSite=None; Secure\r\n"#,
    r#"Set-Cookie: c=3; Path=/\r\nSet-Cookie: d=4; Domain=idp.example; Path=/; SameSite=None; Secure\r\n"#,
    r#"Set-Cookie: e=6; SameSite=None; Secure\r\nSet-Cookie: a=5; Path=/; SameSite=None; Secure\r\n\r\n"}
"#,
);

// The second field has no name that `http_header` takes, so the head is not read.
const UNREADABLE: &str = concat!(
    r#"{"fedcm":1,"now":1700000000,"rules":"example"}
{"do":"load","page":1,"url":"https://accounts.idp.example/login/start","text":"HTTP/1.1 200 OK\r\n"#,
    r#"Set-Cookie: a=1\r\nSet Cookie: b=2\r\n\r\n"}
"#,
);

// Of two hosts below one domain, that of the first load is a public suffix.
const OTHER_PARTIES: &str = concat!(
    r#"{"fedcm":1,"now":1700000000,"rules":"com\nblog.example.com"}
{"do":"load","page":1,"url":"https://foo.blog.example.com/","text":"HTTP/1.1 200 OK\r\n"#,
    r#"Set-Cookie: x=1; Domain=example.com; Path=/; SameSite=None; Secure\r\n\r\n"}
{"do":"load","page":2,"url":"https://a.example.com/","text":"HTTP/1.1 200 OK\r\n"#,
    r#"Set-Cookie: y=2; Domain=example.com; Path=/; SameSite=None; Secure\r\n\r\n"}
"#,
);

// The last status that counts stands.
const STATUSES: &str = concat!(
    r#"{"fedcm":1,"now":1700000000,"rules":"example"}
{"do":"load","page":1,"url":"https://accounts.idp.example/","text":"HTTP/1.1 200 OK\r\nSet-Login: logged-in\r\n"#,
    r#"Set-Login: logged-out; a\r\nSet-Login: LOGGED-IN\r\n\r\n"}
"#,
);

// Whether the only status is this one.
fn has_one_status(view: &View, status: LoginStatus) -> bool {
    match view.login.as_slice() {
        [only] => only.1 == status,
        _ => false,
    }
}

// Each cookie as its name, value and path.
fn cookies_text(alloc: Global, view: &View) -> Result<Vec<u8>, Fail> {
    let mut text = Vec::new(alloc);
    for cookie in view.cookies.as_slice() {
        text.extend_from_slice(cookie.name.as_slice())?;
        text.extend_from_slice(b"=")?;
        text.extend_from_slice(cookie.value.as_slice())?;
        text.extend_from_slice(b" ")?;
        text.extend_from_slice(cookie.path.as_slice())?;
        text.extend_from_slice(b";")?;
    }
    Ok(text)
}

#[test]
fn a_sign_up_waits_for_its_token(rt: HostRuntime) -> Result<(), Fail> {
    let view = view_of(rt.alloc(), SIGN_UP)?;
    assert_eq!(rt; view.now, 1_700_000_060);
    assert_eq!(rt; view.pages.len(), 2);
    assert_eq!(rt; view.cookies.len(), 1);
    assert_eq!(rt; view.kept.len(), 0);
    assert!(rt; has_one_status(&view, LoginStatus::LoggedIn));
    assert!(rt; has_one_call(&view, 1, 1, Stage::Asserting));
    Ok(())
}

#[test]
fn cookies_stand_in_order_of_first_storing(rt: HostRuntime) -> Result<(), Fail> {
    let view = view_of(rt.alloc(), COOKIES)?;
    let text = cookies_text(rt.alloc(), &view)?;
    assert!(rt; text.as_slice() == "a=4 /;b=2 /;c=3 /login;".as_bytes());
    Ok(())
}

// Whether a session shows these cookies after a script.
fn shows_cookies(alloc: Global, script: &'static str, expected: &str) -> Result<bool, Fail> {
    let view = view_of(alloc, script)?;
    let text = cookies_text(alloc, &view)?;
    Ok(text.as_slice() == expected.as_bytes())
}

#[test]
fn cookies_of_a_load_stand_in_order(rt: HostRuntime) -> Result<(), Fail> {
    let expected = "a=5 /;b=2 /accounts;c=3 /;d=4 /;e=6 /login;";
    assert!(rt; shows_cookies(rt.alloc(), COOKIES_OF_A_LOAD, expected)?);
    assert!(rt; shows_cookies(rt.alloc(), UNREADABLE, "")?);
    Ok(())
}

#[test]
fn cookies_of_a_load_stay_with_their_party(rt: HostRuntime) -> Result<(), Fail> {
    assert!(rt; shows_cookies(rt.alloc(), OTHER_PARTIES, "y=2 /;")?);
    Ok(())
}

#[test]
fn statuses_of_a_load_are_set_in_order(rt: HostRuntime) -> Result<(), Fail> {
    let view = view_of(rt.alloc(), STATUSES)?;
    assert!(rt; has_one_status(&view, LoginStatus::LoggedOut));
    assert_eq!(rt; view.pages.len(), 1);
    assert_eq!(rt; view.calls.len(), 0);
    Ok(())
}
