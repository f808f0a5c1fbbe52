//! The lines of records, most of them those of the worked scripts.
use fed_consent::{Detail, Dialog, FailStep, Failure, Finish, Shown, Why};
use fed_io::{Bytes, Items, NoRoom, Placed, Text};
use fed_origin::{Context, ReplyKind, WebUrl};
use fed_print::{RecordLines, print};
use fed_reply::ReplyStep;
use fed_trace::Out;
use std::alloc::Global;
use std::test::Fail;

// Whether the line is what is printed for the record.
fn is_printed(alloc: Global, out: Out, line: &str) -> Result<bool, NoRoom> {
    let mut text = Vec::new(alloc);
    print(alloc, &out, &mut text)?;
    Ok(text.as_slice() == line.as_bytes())
}

fn request(alloc: Global, kind: ReplyKind, bytes: &[u8]) -> Result<Out, NoRoom> {
    Ok(Out::Request {
        line: 3,
        call: 1,
        provider: 0,
        kind,
        bytes: Bytes::of(alloc, bytes)?,
    })
}

#[test]
fn requests(rt: HostRuntime) -> Result<(), Fail> {
    let text =
        b"GET /.well-known/web-identity HTTP/1.1\r\nHost: idp.example\r\nAccept: application/json\r\nSec-Fetch-Dest: webidentity\r\n\r\n";
    let out = request(rt.alloc(), ReplyKind::WellKnown, text)?;
    let line =
        "{\"call\":1,\"kind\":\"wellknown\",\"line\":3,\"out\":\"request\",\"provider\":0,\"text\":\"GET /.well-known/web-identity HTTP/1.1\\r\\nHost: idp.example\\r\\nAccept: application/json\\r\\nSec-Fetch-Dest: webidentity\\r\\n\\r\\n\"}\n";
    assert!(rt; is_printed(rt.alloc(), out, line)?);
    Ok(())
}

#[test]
fn requests_that_are_no_text(rt: HostRuntime) -> Result<(), Fail> {
    let out = request(rt.alloc(), ReplyKind::Assertion, b"GET /\xc3\xa9")?;
    let line =
        "{\"call\":1,\"kind\":\"assertion\",\"line\":3,\"out\":\"request\",\"provider\":0,\"raw\":\"R0VUIC/DqQ==\"}\n";
    assert!(rt; is_printed(rt.alloc(), out, line)?);
    Ok(())
}

// Requests of each kind twice, then others of the kinds, and bytes that are no text.
fn many_requests(alloc: Global) -> Result<Vec<Out>, NoRoom> {
    let mut outs = Vec::new(alloc);
    for bytes in [
        b"GET /a\r\n",
        b"GET /a\r\n",
        b"GET /b\r\n",
        b"GET /\xc3\xa9\r",
        b"GET /a\r\n",
    ] {
        for kind in [
            ReplyKind::WellKnown,
            ReplyKind::Config,
            ReplyKind::Accounts,
            ReplyKind::Metadata,
            ReplyKind::Assertion,
            ReplyKind::Disconnect,
        ] {
            outs.push(request(alloc, kind, bytes)?)?;
        }
        outs.push(Out::Ignored {
            line: 4,
            why: Why::NoPage,
        })?;
        outs.push(dropped(1, at_status(FailStep::ConfigReply)))?;
    }
    Ok(outs)
}

// Lines that are kept together are those of each record alone, also where a request was written before.
#[test]
fn requests_that_were_written_before(rt: HostRuntime) -> Result<(), Fail> {
    let alloc = rt.alloc();
    let outs = many_requests(alloc)?;
    let mut text = Vec::new(alloc);
    let mut lines = RecordLines::new(alloc);
    for out in outs.as_slice() {
        print(alloc, out, &mut text)?;
        lines.push(out)?;
    }
    assert!(rt; text.len() > 2_000);
    assert!(rt; lines.as_slice() == text.as_slice());
    lines.clear();
    assert!(rt; lines.as_slice().is_empty());
    lines.push_all(outs.as_slice())?;
    assert!(rt; lines.as_slice() == text.as_slice());
    Ok(())
}

fn shown(
    alloc: Global,
    id: &str,
    name: &str,
    email: &str,
    picture: Option<Text>,
    connected: bool,
) -> Result<Shown, NoRoom> {
    Ok(Shown {
        provider: 0,
        id: Text::of(alloc, id)?,
        name: Text::of(alloc, name)?,
        email: Text::of(alloc, email)?,
        given_name: None,
        picture,
        connected,
    })
}

fn choose(alloc: Global, ann: Shown, bob: Shown, context: Context) -> Result<Out, NoRoom> {
    let mut accounts = Items::new(alloc);
    accounts.push(ann)?;
    accounts.push(bob)?;
    let site = Text::of(alloc, "rp.example")?;
    let dialog = Dialog::Choose {
        accounts,
        context,
        site,
    };
    Ok(Out::Dialog {
        line: 6,
        call: 1,
        dialog: Placed::new(alloc, dialog)?,
    })
}

#[test]
fn choosing(rt: HostRuntime) -> Result<(), Fail> {
    let alloc = rt.alloc();
    let ann = shown(alloc, "u1", "Ann", "ann@idp.example", None, false)?;
    let bob = shown(alloc, "u2", "Bob", "bob@idp.example", None, false)?;
    let out = choose(alloc, ann, bob, Context::SignIn)?;
    let line =
        "{\"accounts\":[{\"connected\":false,\"email\":\"ann@idp.example\",\"id\":\"u1\",\"name\":\"Ann\",\"provider\":0},{\"connected\":false,\"email\":\"bob@idp.example\",\"id\":\"u2\",\"name\":\"Bob\",\"provider\":0}],\"call\":1,\"context\":\"signin\",\"dialog\":\"choose\",\"line\":6,\"out\":\"dialog\",\"site\":\"rp.example\"}\n";
    assert!(rt; is_printed(alloc, out, line)?);
    Ok(())
}

// A name with all that JSON escapes, and one that it leaves as it is.
#[test]
fn choosing_by_odd_names(rt: HostRuntime) -> Result<(), Fail> {
    let alloc = rt.alloc();
    let picture = Some(Text::of(alloc, "https://idp.example/1.png")?);
    let ann = shown(alloc, "u/1", "A\"\\\n\x01", "", picture, true)?;
    let bob = shown(alloc, "u2", "Bœb\x7f", "", None, false)?;
    let out = choose(alloc, ann, bob, Context::UseHere)?;
    let line =
        "{\"accounts\":[{\"connected\":true,\"email\":\"\",\"id\":\"u/1\",\"name\":\"A\\\"\\\\\\n\\u0001\",\"picture\":\"https://idp.example/1.png\",\"provider\":0},{\"connected\":false,\"email\":\"\",\"id\":\"u2\",\"name\":\"Bœb\x7f\",\"provider\":0}],\"call\":1,\"context\":\"use\",\"dialog\":\"choose\",\"line\":6,\"out\":\"dialog\",\"site\":\"rp.example\"}\n";
    assert!(rt; is_printed(alloc, out, line)?);
    Ok(())
}

fn prompt(
    alloc: Global,
    account: Shown,
    context: Context,
    privacy: Option<Text>,
    terms: Option<Text>,
) -> Result<Out, NoRoom> {
    let site = Text::of(alloc, "rp.example")?;
    let dialog = Dialog::Prompt {
        account,
        context,
        site,
        privacy,
        terms,
    };
    Ok(Out::Dialog {
        line: 8,
        call: 1,
        dialog: Placed::new(alloc, dialog)?,
    })
}

#[test]
fn prompting(rt: HostRuntime) -> Result<(), Fail> {
    let alloc = rt.alloc();
    let bob = shown(alloc, "u2", "Bob", "bob@idp.example", None, false)?;
    let privacy = Some(Text::of(alloc, "https://rp.example/privacy")?);
    let out = prompt(alloc, bob, Context::SignIn, privacy, None)?;
    let line =
        "{\"account\":{\"connected\":false,\"email\":\"bob@idp.example\",\"id\":\"u2\",\"name\":\"Bob\",\"provider\":0},\"call\":1,\"context\":\"signin\",\"dialog\":\"prompt\",\"disclosure\":true,\"line\":8,\"out\":\"dialog\",\"privacy\":\"https://rp.example/privacy\",\"site\":\"rp.example\"}\n";
    assert!(rt; is_printed(alloc, out, line)?);
    Ok(())
}

#[test]
fn prompting_for_a_connected_account(rt: HostRuntime) -> Result<(), Fail> {
    let alloc = rt.alloc();
    let mut bob = shown(alloc, "u2", "Bob", "bob@idp.example", None, true)?;
    bob.given_name = Some(Text::of(alloc, "B")?);
    let terms = Some(Text::of(alloc, "https://rp.example/terms")?);
    let out = prompt(alloc, bob, Context::GoOn, None, terms)?;
    let line =
        "{\"account\":{\"connected\":true,\"email\":\"bob@idp.example\",\"given_name\":\"B\",\"id\":\"u2\",\"name\":\"Bob\",\"provider\":0},\"call\":1,\"context\":\"continue\",\"dialog\":\"prompt\",\"disclosure\":false,\"line\":8,\"out\":\"dialog\",\"site\":\"rp.example\",\"terms\":\"https://rp.example/terms\"}\n";
    assert!(rt; is_printed(alloc, out, line)?);
    Ok(())
}

// A failure at the status of a reply.
fn at_status(step: FailStep) -> Failure {
    Failure {
        step,
        detail: Some(Detail::Reply(ReplyStep::Status)),
    }
}

#[test]
fn mismatches(rt: HostRuntime) -> Result<(), Fail> {
    let dialog = Dialog::Mismatch {
        provider: 0,
        site: Text::of(rt.alloc(), "rp.example")?,
        failure: at_status(FailStep::AccountsReply),
    };
    let out = Out::Dialog {
        line: 7,
        call: 1,
        dialog: Placed::new(rt.alloc(), dialog)?,
    };
    let line =
        "{\"call\":1,\"detail\":\"status\",\"dialog\":\"mismatch\",\"line\":7,\"out\":\"dialog\",\"provider\":0,\"site\":\"rp.example\",\"step\":\"accounts-reply\"}\n";
    assert!(rt; is_printed(rt.alloc(), out, line)?);
    Ok(())
}

fn dropped(provider: u32, failure: Failure) -> Out {
    Out::Dropped {
        line: 4,
        call: 1,
        provider,
        failure,
    }
}

#[test]
fn providers_that_dropped_out(rt: HostRuntime) -> Result<(), Fail> {
    let out = dropped(0, at_status(FailStep::WellKnownReply));
    let line =
        "{\"call\":1,\"detail\":\"status\",\"line\":4,\"out\":\"dropped\",\"provider\":0,\"step\":\"well-known-reply\"}\n";
    assert!(rt; is_printed(rt.alloc(), out, line)?);
    let failure = Failure {
        step: FailStep::LoggedOut,
        detail: None,
    };
    let line =
        "{\"call\":1,\"line\":4,\"out\":\"dropped\",\"provider\":9,\"step\":\"logged-out\"}\n";
    assert!(rt; is_printed(rt.alloc(), dropped(9, failure), line)?);
    Ok(())
}

fn window(alloc: Global, text: &str) -> Result<Out, NoRoom> {
    match WebUrl::read(alloc, text) {
        Ok(url) => Ok(Out::Window {
            line: 10,
            call: 1,
            provider: 0,
            url,
        }),
        Err(_) => Err(NoRoom),
    }
}

#[test]
fn windows(rt: HostRuntime) -> Result<(), Fail> {
    let out = window(rt.alloc(), "https://accounts.idp.example/login")?;
    let line =
        "{\"call\":1,\"line\":10,\"out\":\"window\",\"provider\":0,\"url\":\"https://accounts.idp.example/login\"}\n";
    assert!(rt; is_printed(rt.alloc(), out, line)?);
    Ok(())
}

fn answer(line: u32, call: u32, finish: Finish) -> Out {
    Out::Answer {
        line,
        call,
        page: 1,
        finish,
    }
}

#[test]
fn tokens(rt: HostRuntime) -> Result<(), Fail> {
    let token = Text::of(rt.alloc(), "T1")?;
    let finish = Finish::Token {
        auto: false,
        provider: 0,
        token,
    };
    let line =
        "{\"auto\":false,\"call\":1,\"line\":10,\"out\":\"result\",\"page\":1,\"provider\":0,\"see\":\"token\",\"token\":\"T1\"}\n";
    assert!(rt; is_printed(rt.alloc(), answer(10, 1, finish), line)?);
    Ok(())
}

#[test]
fn disconnected(rt: HostRuntime) -> Result<(), Fail> {
    let line = "{\"call\":1,\"line\":8,\"out\":\"result\",\"page\":1,\"see\":\"disconnected\"}\n";
    assert!(rt; is_printed(rt.alloc(), answer(8, 1, Finish::Disconnected), line)?);
    Ok(())
}

#[test]
fn failures(rt: HostRuntime) -> Result<(), Fail> {
    let failure = Failure {
        step: FailStep::CallPending,
        detail: None,
    };
    let line =
        "{\"call\":2,\"line\":4,\"out\":\"result\",\"page\":1,\"see\":\"NotAllowedError\",\"step\":\"call-pending\"}\n";
    assert!(rt; is_printed(rt.alloc(), answer(4, 2, Finish::Failed(failure)), line)?);
    Ok(())
}

#[test]
fn failures_with_detail(rt: HostRuntime) -> Result<(), Fail> {
    let failure = at_status(FailStep::WellKnownReply);
    let line =
        "{\"call\":1,\"detail\":\"status\",\"line\":5,\"out\":\"result\",\"page\":1,\"see\":\"NetworkError\",\"step\":\"well-known-reply\"}\n";
    assert!(rt; is_printed(rt.alloc(), answer(5, 1, Finish::Failed(failure)), line)?);
    Ok(())
}

#[test]
fn provider_errors(rt: HostRuntime) -> Result<(), Fail> {
    let code = Text::of(rt.alloc(), "access_denied")?;
    let url = Some(Text::of(rt.alloc(), "https://idp.example/why")?);
    let finish = Finish::ProviderError { code, url };
    let line =
        "{\"call\":1,\"code\":\"access_denied\",\"line\":10,\"out\":\"result\",\"page\":1,\"see\":\"IdentityCredentialError\",\"step\":\"provider-error\",\"url\":\"https://idp.example/why\"}\n";
    assert!(rt; is_printed(rt.alloc(), answer(10, 1, finish), line)?);
    Ok(())
}

#[test]
fn provider_errors_without_a_code(rt: HostRuntime) -> Result<(), Fail> {
    let code = Text::of(rt.alloc(), "")?;
    let finish = Finish::ProviderError { code, url: None };
    let line =
        "{\"call\":1,\"code\":\"\",\"line\":10,\"out\":\"result\",\"page\":1,\"see\":\"IdentityCredentialError\",\"step\":\"provider-error\"}\n";
    assert!(rt; is_printed(rt.alloc(), answer(10, 1, finish), line)?);
    Ok(())
}

fn print_ignored(alloc: Global, line: u32, why: Why, text: &mut Vec<u8>) -> Result<(), NoRoom> {
    print(alloc, &Out::Ignored { line, why }, text)
}

// The lines of two records.
fn two_ignored(alloc: Global) -> Result<Vec<u8>, NoRoom> {
    let mut text = Vec::new(alloc);
    print_ignored(alloc, 2, Why::NoPage, &mut text)?;
    print_ignored(alloc, 11, Why::CallEnded, &mut text)?;
    Ok(text)
}

// Each line stands after what was there.
#[test]
fn ignored(rt: HostRuntime) -> Result<(), Fail> {
    let text = two_ignored(rt.alloc())?;
    let lines =
        "{\"line\":2,\"out\":\"ignored\",\"why\":\"no-page\"}\n{\"line\":11,\"out\":\"ignored\",\"why\":\"call-ended\"}\n";
    assert!(rt; text.as_slice() == lines.as_bytes());
    Ok(())
}
