//! Which permissions and flags a session shows after whole scripts.
use crate::lines::{told, view_of};
use fed_io::NoRoom;
use fed_origin::Triple;
use fed_session::View;
use std::alloc::Global;
use std::test::Fail;

// A sign-up, up to the request for the token.
const SIGN_UP: &str = r#"{"fedcm":1,"now":1700000000,"rules":""}
{"do":"load","page":1,"url":"https://rp.example/"}
GET 1
WELL_KNOWN 1
CONFIG 1
TWO_ACCOUNTS 1
{"do":"choose","call":1,"account":"u2"}
METADATA 1
{"do":"continue","call":1}
"#;

// A page that was signed in with two accounts, and a disconnect up to its last request.
const DISCONNECT: &str = r#"{"fedcm":1,"now":1700000000,"rules":""}
KEPT u1
KEPT u2
{"do":"load","page":1,"url":"https://rp.example/"}
DISCONNECT 1
WELL_KNOWN 1
CONFIG 1
"#;

// What is said twice keeps its place.
const TWICE: &str = r#"{"fedcm":1,"now":1700000000,"rules":"example"}
{"do":"have","what":"kept","page":"https://a.example/","provider":"https://accounts.idp.example/","account":"u1"}
{"do":"have","what":"kept","page":"https://b.example/","provider":"https://accounts.idp.example/","account":"u2"}
{"do":"have","what":"kept","page":"https://a.example/","provider":"https://accounts.idp.example/","account":"u1"}
{"do":"have","what":"silent","origin":"https://b.example/"}
"#;

// Puts the page, the provider and the account of a permission.
fn push_triple(triple: &Triple, text: &mut Vec<u8>) -> Result<(), NoRoom> {
    triple.page.push_to(text)?;
    text.extend_from_slice(b" ")?;
    triple.provider.push_to(text)?;
    text.extend_from_slice(b" ")?;
    text.extend_from_slice(triple.account.as_str().as_bytes())?;
    text.extend_from_slice(b";")?;
    Ok(())
}

// The permissions that are shown, in their order.
fn permissions_text(alloc: Global, view: &View) -> Result<Vec<u8>, NoRoom> {
    let mut text = Vec::new(alloc);
    for triple in view.kept.as_slice() {
        push_triple(triple, &mut text)?;
    }
    Ok(text)
}

// Whether a session shows these permissions after a script.
fn shows(alloc: Global, script: &str, expected: &str) -> Result<bool, Fail> {
    let view = view_of(alloc, script)?;
    let text = permissions_text(alloc, &view)?;
    Ok(text.as_slice() == expected.as_bytes())
}

// The same of rows and of further ones.
fn keeps(alloc: Global, rows: &str, further: &str, expected: &str) -> Result<bool, Fail> {
    let script = told(alloc, rows, further)?;
    shows(alloc, script.as_str(), expected)
}

#[test]
fn a_token_keeps_the_permission(rt: HostRuntime) -> Result<(), Fail> {
    let token = "ASSERTION https://rp.example\n";
    let kept = "https://rp.example https://accounts.idp.example u2;";
    assert!(rt; keeps(rt.alloc(), SIGN_UP, "", "")?);
    assert!(rt; keeps(rt.alloc(), SIGN_UP, token, kept)?);
    Ok(())
}

#[test]
fn without_a_token_no_permission_is_kept(rt: HostRuntime) -> Result<(), Fail> {
    let late = r#"{"do":"load","page":1,"url":"https://rp.example/"}
ASSERTION https://rp.example
"#;
    assert!(rt; keeps(rt.alloc(), SIGN_UP, "ASSERTION *\n", "")?);
    assert!(rt; keeps(rt.alloc(), SIGN_UP, "ERROR\n", "")?);
    assert!(rt; keeps(rt.alloc(), SIGN_UP, late, "")?);
    Ok(())
}

#[test]
fn a_disconnect_takes_permissions(rt: HostRuntime) -> Result<(), Fail> {
    let other = "https://rp.example https://accounts.idp.example u2;";
    assert!(rt; keeps(rt.alloc(), DISCONNECT, "DISCONNECTED zz\n", "")?);
    assert!(rt;
        keeps(
            rt.alloc(),
            DISCONNECT,
            "DISCONNECTED zz\nDISCONNECT 2\n",
            ""
        )?
    );
    assert!(rt; keeps(rt.alloc(), DISCONNECT, "DISCONNECTED u1\n", other)?);
    Ok(())
}

#[test]
fn permissions_of_lines_stand_in_order(rt: HostRuntime) -> Result<(), Fail> {
    let kept =
        "https://a.example https://accounts.idp.example u1;https://b.example https://accounts.idp.example u2;";
    assert!(rt; shows(rt.alloc(), TWICE, kept)?);
    Ok(())
}

// How many flags are set after a script.
fn flags_after(alloc: Global, script: &str) -> Result<usize, Fail> {
    let view = view_of(alloc, script)?;
    Ok(view.silent.len())
}

#[test]
fn flags_of_lines_are_set(rt: HostRuntime) -> Result<(), Fail> {
    assert_eq!(rt; flags_after(rt.alloc(), TWICE)?, 1);
    Ok(())
}
