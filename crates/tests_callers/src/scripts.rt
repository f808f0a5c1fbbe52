//! What a caller concludes from the contracts of script lines and transcript lines.
ghost use Rattle.std.specs.Prelude.{◌≡◌, ◌++◌, ◌+◌, ◌≤◌, length, true, IfOk, OnOk};
ghost use Rattle.fed_check.specs.Check.{findings};
ghost use Rattle.fed_io.specs.Fault.{Answers};
ghost use Rattle.fed_print.specs.Lines.{record_line};
ghost use Rattle.fed_reply.specs.Steps.{with_ok};
ghost use Rattle.fed_script.specs.Line.{event_of};
ghost use Rattle.fed_script.specs.Reader.{all_lines};
ghost use Rattle.fed_script.specs.Used.{HasProviders, HasKnownStatus};
ghost use Rattle.tests_callers.specs.Named.{client_in, login_in};

use fed_check::{Checker, Finding};
use fed_io::{Fault, Items, NoRoom, Text};
use fed_origin::LoginStatus;
use fed_print::print;
use fed_script::{Event, Line, LineCause, ScriptReader, Used, is_blank, read_event};
use fed_trace::Out;
use std::alloc::Global;

/// White space alone makes no event: a line of it is skipped.
pub fn white_space_is_blank() -> bool
    ensures { result ≡ true }
{
    is_blank(b" \t\r")
}

/// The client's id at the first provider of the get that a line names; none where it names another event.
pub fn names_a_client(
    alloc: Global,
    line: &[u8],
    used: &mut Used,
) -> Result<Option<Text>, Fault<LineCause>>
    ensures { Answers result (with_ok client_in (event_of line.now used.old)) }
{
    match read_event(alloc, line, used) {
        Ok(event) => Ok(client_of(alloc, &event)?),
        Err(fault) => Err(fault),
    }
}

// The client's id at the first provider of a get.
fn client_of(alloc: Global, event: &Event) -> Result<Option<Text>, NoRoom>
    requires { HasProviders event.now }
    ensures { IfOk result (λ client. client ≡ client_in event.now) }
{
    match event {
        Event::Get { options, .. } => {
            let client = options.providers.as_slice()[0].client.copy(alloc)?;
            Ok(Some(client))
        }
        _ => Ok(None),
    }
}

/// Whether the user is logged in by the status that a line sets, which is one of two; none where it names another event.
pub fn says_logged_in(
    alloc: Global,
    line: &[u8],
    used: &mut Used,
) -> Result<Option<bool>, Fault<LineCause>>
    ensures { Answers result (with_ok login_in (event_of line.now used.old)) }
{
    match read_event(alloc, line, used) {
        Ok(event) => Ok(login_of(&event)),
        Err(fault) => Err(fault),
    }
}

// Whether the user is logged in by the status of an event.
fn login_of(event: &Event) -> Option<bool>
    requires { HasKnownStatus event.now }
    ensures { result ≡ login_in event.now }
{
    match event {
        Event::SetStatus { status, .. } => Some(match status {
            LoginStatus::LoggedIn => true,
            LoginStatus::LoggedOut => false,
            LoginStatus::Unknown => unreachable!(),
        }),
        _ => None,
    }
}

/// Wherever a script is cut in two, the lines of its pieces and of the end are those of the whole.
pub fn read_both(
    alloc: Global,
    first: &[u8],
    second: &[u8],
) -> Result<(Items<Line>, Items<Line>, Items<Line>), NoRoom>
    requires { length first.now + length second.now ≤ 67108865 }
    ensures { IfOk result (λ lines. all_lines (first.now ++ second.now) ≡ lines.0 ++ lines.1 ++ lines.2) }
{
    let mut reader = ScriptReader::new(alloc);
    let head = reader.feed(first)?;
    let further = reader.feed(second)?;
    let last = reader.finish()?;
    Ok((head, further, last))
}

/// Wherever a script is cut in two, what is found in its pieces and at the end is what is found in the whole.
pub fn check_both(
    alloc: Global,
    first: &[u8],
    second: &[u8],
) -> Result<(Items<Finding>, Items<Finding>, Items<Finding>), NoRoom>
    requires { length first.now + length second.now ≤ 67108865 }
    ensures { IfOk result (λ found. findings (first.now ++ second.now) ≡ found.0 ++ found.1 ++ found.2) }
{
    let mut checker = Checker::new(alloc);
    let head = checker.feed(first)?;
    let further = checker.feed(second)?;
    let last = checker.last()?;
    Ok((head, further, last))
}

/// Two records are two lines, in their order, after what was printed before.
pub fn print_both(
    alloc: Global,
    first: &Out,
    second: &Out,
    text: &mut Vec<u8>,
) -> Result<(), NoRoom>
    ensures { OnOk result (text.new.items ≡ text.old.items ++ record_line first.now ++ record_line second.now) }
{
    print(alloc, first, text)?;
    print(alloc, second, text)
}
