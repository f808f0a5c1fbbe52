//! How far whole scripts are compared.
use crate::lines::{script_of, told};
use fed_script::Script;
use fed_twin::twin_fault;
use std::alloc::Global;
use std::test::Fail;
use tests_callers::sessions::compared;

// Two sites with a call each.
const SITES: &str = r#"{"fedcm":1,"now":1700000000,"rules":""}
{"do":"load","page":1,"url":"https://rp.example/"}
{"do":"load","page":2,"url":"https://shop.example/"}
GET 1
GET 2
"#;

// Two others.
const OTHERS: &str = r#"{"fedcm":1,"now":1700000000,"rules":""}
{"do":"load","page":1,"url":"https://a.example/"}
{"do":"load","page":2,"url":"https://b.example/"}
GET_OF_X
GET_OF_Y
"#;

// One site in place of two.
const ONE_SITE: &str = r#"{"fedcm":1,"now":1700000000,"rules":""}
{"do":"load","page":1,"url":"https://a.example/"}
{"do":"load","page":2,"url":"https://a.example/"}
GET_OF_X
GET_OF_Y
"#;

// The two sites, of which the first may sign in an account that is in no list.
const SITES_AND_KEPT: &str = r#"{"fedcm":1,"now":1700000000,"rules":""}
KEPT u9
{"do":"load","page":1,"url":"https://rp.example/"}
{"do":"load","page":2,"url":"https://shop.example/"}
GET 1
GET 2
"#;

// What the provider replies to both calls.
const REPLIES: &str = "WELL_KNOWN 1
CONFIG 1
WELL_KNOWN 2
CONFIG 2
ACCOUNTS 1
ACCOUNTS 2
METADATA 1
METADATA 2
";

// The same, with the metadata in the other order.
const OTHER_ORDER: &str = "WELL_KNOWN 1
CONFIG 1
WELL_KNOWN 2
CONFIG 2
ACCOUNTS 1
ACCOUNTS 2
METADATA 2
METADATA 1
";

// The script of these rows.
fn script(alloc: Global, rows: &str, replies: &str) -> Result<Script, Fail> {
    let text = told(alloc, rows, replies)?;
    script_of(alloc, text.as_str())
}

// How far the two sites are compared with these rows, and how many requests; (0, 0) where they are no twins.
fn compared_with(alloc: Global, rows: &str, replies: &str) -> Result<(u64, u64), Fail> {
    let a = script(alloc, SITES, REPLIES)?;
    let b = script(alloc, rows, replies)?;
    Ok(compared(alloc, &a, &b)?.unwrap_or((0, 0)))
}

// The clause at which they are no twins, and its event.
fn fault_with(alloc: Global, rows: &str, replies: &str) -> Result<(&'static str, u32), Fail> {
    let a = script(alloc, SITES, REPLIES)?;
    let b = script(alloc, rows, replies)?;
    match twin_fault(alloc, &a, &b)? {
        Some(fault) => Ok((fault.clause.as_str(), fault.event)),
        None => Ok(("", 0)),
    }
}

#[test]
fn two_sites_are_two_others(rt: HostRuntime) -> Result<(), Fail> {
    assert_eq!(rt; compared_with(rt.alloc(), OTHERS, OTHER_ORDER)?, (10, 6));
    assert_eq!(rt; fault_with(rt.alloc(), OTHERS, OTHER_ORDER)?, ("", 0));
    Ok(())
}

#[test]
fn two_sites_are_not_one(rt: HostRuntime) -> Result<(), Fail> {
    assert_eq!(rt; compared_with(rt.alloc(), ONE_SITE, OTHER_ORDER)?, (0, 0));
    assert_eq!(rt;
        fault_with(rt.alloc(), ONE_SITE, OTHER_ORDER)?,
        ("origins", 2)
    );
    Ok(())
}

#[test]
fn a_permission_for_another_account_is_not_told(rt: HostRuntime) -> Result<(), Fail> {
    assert_eq!(rt;
        compared_with(rt.alloc(), SITES_AND_KEPT, REPLIES)?,
        (10, 6)
    );
    Ok(())
}
