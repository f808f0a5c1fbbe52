//! Requests and words of calls.
use crate::lines::{assert_so, assert_word};
use crate::values::url;
use fed_consent::{Ask, Detail, FailStep, Failure, Finish, Why};
use fed_io::{NoRoom, Placed, Text};
use fed_origin::{Endpoint, Origin, ReplyKind};
use fed_reply::ReplyStep;
use std::alloc::Global;
use std::test::Fail;

fn metadata(alloc: Global) -> Result<Ask, NoRoom> {
    let to = url(alloc, "https://accounts.idp.example/client")?;
    Ok(Ask::Metadata {
        client: Text::of(alloc, "c1")?,
        origin: Placed::new(alloc, Origin::of_url(alloc, &to)?)?,
        to,
    })
}

fn names_no_page(ask: &Ask) -> bool {
    ask.kind() == ReplyKind::Accounts && ask.origin().is_none()
}

#[test]
fn accounts_requests_name_no_page(rt: HostRuntime) -> Result<(), Fail> {
    let to = url(rt.alloc(), "https://accounts.idp.example/accounts")?;
    let ask = Ask::Accounts { to };
    assert_so(&rt, names_no_page(&ask), "accounts");
    assert_word(&rt, ask.to().path(), "/accounts", "accounts");
    Ok(())
}

#[test]
fn metadata_requests_name_the_page(rt: HostRuntime) -> Result<(), Fail> {
    let ask = metadata(rt.alloc())?;
    assert_so(
        &rt,
        ask.kind() == ReplyKind::Metadata && ask.origin().is_some(),
        "metadata",
    );
    Ok(())
}

#[test]
fn words(rt: HostRuntime) -> Result<(), Fail> {
    assert_word(
        &rt,
        FailStep::SilentNoAccount.as_str(),
        "silent-no-account",
        "words",
    );
    assert_word(
        &rt,
        FailStep::LoggedOut.error_name(),
        "NetworkError",
        "words",
    );
    assert_word(
        &rt,
        Detail::Reply(ReplyStep::Mime).as_str(),
        "mime",
        "words",
    );
    let member = Detail::Member(Endpoint::Assertion);
    assert_word(&rt, member.as_str(), "id_assertion_endpoint", "words");
    assert_word(&rt, Why::NobodyWaits.as_str(), "nobody-waits", "words");
    Ok(())
}

#[test]
fn what_a_page_sees(rt: HostRuntime) -> Result<(), Fail> {
    let failure = Failure {
        step: FailStep::Aborted,
        detail: None,
    };
    assert_word(
        &rt,
        Finish::Failed(failure).seen(),
        "AbortError",
        "an abort",
    );
    assert_word(&rt, Finish::Disconnected.seen(), "disconnected", "the end");
    Ok(())
}
