//! Printing what a promise gets.
ghost use Rattle.std.specs.Prelude.{OnOk};
ghost use Rattle.std.specs.Option.{option_copied};
ghost use Rattle.fed_print.specs.Answers as spec;
ghost use Rattle.fed_print.specs.Written.{PrintsObject};

use crate::line_writer::LineWriter;
use crate::words::{detail_text, text_in};
use fed_consent::{Failure, Finish};
use fed_io::NoRoom;

fn print_token(
    lines: &mut LineWriter,
    line: u32,
    call: u32,
    page: u32,
    auto: bool,
    provider: u32,
    token: &str,
) -> Result<(), NoRoom>
    ensures { OnOk result (PrintsObject lines.old lines.new (spec.token_members line call page auto provider token.now)) }
{
    lines.begin()?;
    lines.flag("auto", auto)?;
    lines.count("call", call)?;
    lines.count("line", line)?;
    lines.word("out", "result")?;
    lines.count("page", page)?;
    lines.count("provider", provider)?;
    lines.word("see", "token")?;
    lines.text("token", token)?;
    lines.end()?;
    Ok(())
}

// The members that each answer has, and what the page sees.
fn print_seen(
    lines: &mut LineWriter,
    line: u32,
    call: u32,
    page: u32,
    see: &str,
) -> Result<(), NoRoom>
    ensures { OnOk result (PrintsObject lines.old lines.new (spec.seen_members line call page see.now)) }
{
    lines.begin()?;
    lines.count("call", call)?;
    lines.count("line", line)?;
    lines.word("out", "result")?;
    lines.count("page", page)?;
    lines.text("see", see)?;
    lines.end()?;
    Ok(())
}

fn print_failed(
    lines: &mut LineWriter,
    line: u32,
    call: u32,
    page: u32,
    failure: Failure,
) -> Result<(), NoRoom>
    ensures { OnOk result (PrintsObject lines.old lines.new (spec.failed_members line call page failure)) }
{
    lines.begin()?;
    lines.count("call", call)?;
    lines.text_if("detail", detail_text(failure.detail))?;
    lines.count("line", line)?;
    lines.word("out", "result")?;
    lines.count("page", page)?;
    lines.text("see", failure.step.error_name())?;
    lines.text("step", failure.step.as_str())?;
    lines.end()?;
    Ok(())
}

fn print_provider_error(
    lines: &mut LineWriter,
    line: u32,
    call: u32,
    page: u32,
    code: &str,
    url: Option<&str>,
) -> Result<(), NoRoom>
    ensures { OnOk result (PrintsObject lines.old lines.new
        (spec.provider_error_members line call page code.now (option_copied url.entry))) }
{
    lines.begin()?;
    lines.count("call", call)?;
    lines.text("code", code)?;
    lines.count("line", line)?;
    lines.word("out", "result")?;
    lines.count("page", page)?;
    lines.word("see", "IdentityCredentialError")?;
    lines.word("step", "provider-error")?;
    lines.text_if("url", url)?;
    lines.end()?;
    Ok(())
}

// What the promise of a call gets.
pub fn print_answer(
    lines: &mut LineWriter,
    line: u32,
    call: u32,
    page: u32,
    finish: &Finish,
) -> Result<(), NoRoom>
    ensures { OnOk result (PrintsObject lines.old lines.new (spec.answer_members line call page finish.now)) }
{
    match finish {
        Finish::Token {
            auto,
            provider,
            token,
        } => print_token(lines, line, call, page, *auto, *provider, token.as_str()),
        Finish::Disconnected => print_seen(lines, line, call, page, "disconnected"),
        Finish::Failed(failure) => print_failed(lines, line, call, page, *failure),
        Finish::ProviderError { code, url } => {
            print_provider_error(lines, line, call, page, code.as_str(), text_in(url))
        }
    }
}
