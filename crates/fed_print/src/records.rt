//! Printing records.
ghost use Rattle.std.specs.Prelude.{codes, OnOk, Some};
ghost use Rattle.base64.specs.Engines.{standard};
ghost use Rattle.base64.specs.GeneralPurpose.{encode_of};
ghost use Rattle.serde_json.specs.Data.{string};
ghost use Rattle.fed_print.specs.Records as spec;
ghost use Rattle.fed_print.specs.Written.{PrintsMember, PrintsObject};

use crate::answers::print_answer;
use crate::ascii::is_ascii_text;
use crate::dialogs::print_dialog;
use crate::line_writer::LineWriter;
use crate::words::detail_text;
use base64::engine::general_purpose::STANDARD;
use fed_consent::{Failure, Why};
use fed_io::NoRoom;
use fed_origin::ReplyKind;
use fed_trace::Out;
use std::alloc::Global;

// The member with bytes that are no text. It stands apart, since the table of base64 is made where this is called.
#[inline(never)]
fn print_raw(alloc: Global, lines: &mut LineWriter, bytes: &[u8]) -> Result<(), NoRoom>
    ensures { OnOk result (PrintsMember lines.old lines.new (codes "raw") (Some (string (encode_of standard bytes.now)))) }
{
    lines.text("raw", STANDARD.encode(alloc, bytes)?.as_str())
}

// The member with the bytes of a request.
fn print_bytes(alloc: Global, lines: &mut LineWriter, bytes: &[u8]) -> Result<(), NoRoom>
    ensures { OnOk result (let named =
        spec.bytes_member (spec.ascii_text bytes.now) bytes.now in PrintsMember lines.old lines.new named.0 named.1) }
{
    if is_ascii_text(bytes) {
        return lines.bytes("text", bytes);
    }
    print_raw(alloc, lines, bytes)
}

fn print_request(
    alloc: Global,
    lines: &mut LineWriter,
    line: u32,
    call: u32,
    provider: u32,
    kind: ReplyKind,
    bytes: &[u8],
) -> Result<(), NoRoom>
    ensures { OnOk result (PrintsObject lines.old lines.new
        (spec.request_members line call provider kind (spec.bytes_member (spec.ascii_text bytes.now) bytes.now))) }
{
    lines.begin()?;
    lines.count("call", call)?;
    lines.word("kind", kind.as_str())?;
    lines.count("line", line)?;
    lines.word("out", "request")?;
    lines.count("provider", provider)?;
    print_bytes(alloc, lines, bytes)?;
    lines.end()?;
    Ok(())
}

fn print_dropped(
    lines: &mut LineWriter,
    line: u32,
    call: u32,
    provider: u32,
    failure: Failure,
) -> Result<(), NoRoom>
    ensures { OnOk result (PrintsObject lines.old lines.new (spec.dropped_members line call provider failure)) }
{
    lines.begin()?;
    lines.count("call", call)?;
    lines.text_if("detail", detail_text(failure.detail))?;
    lines.count("line", line)?;
    lines.word("out", "dropped")?;
    lines.count("provider", provider)?;
    lines.text("step", failure.step.as_str())?;
    lines.end()?;
    Ok(())
}

fn print_window(
    lines: &mut LineWriter,
    line: u32,
    call: u32,
    provider: u32,
    url: &str,
) -> Result<(), NoRoom>
    ensures { OnOk result (PrintsObject lines.old lines.new (spec.window_members line call provider url.now)) }
{
    lines.begin()?;
    lines.count("call", call)?;
    lines.count("line", line)?;
    lines.word("out", "window")?;
    lines.count("provider", provider)?;
    lines.text("url", url)?;
    lines.end()?;
    Ok(())
}

fn print_ignored(lines: &mut LineWriter, line: u32, why: Why) -> Result<(), NoRoom>
    ensures { OnOk result (PrintsObject lines.old lines.new (spec.ignored_members line why)) }
{
    lines.begin()?;
    lines.count("line", line)?;
    lines.word("out", "ignored")?;
    lines.text("why", why.as_str())?;
    lines.end()?;
    Ok(())
}

/// Writes the object of a record.
pub fn print_record(alloc: Global, lines: &mut LineWriter, out: &Out) -> Result<(), NoRoom>
    ensures { OnOk result (PrintsObject lines.old lines.new (spec.record_members out.now)) }
{
    match out {
        Out::Request {
            line,
            call,
            provider,
            kind,
            bytes,
        } => print_request(
            alloc,
            lines,
            *line,
            *call,
            *provider,
            *kind,
            bytes.as_slice(),
        ),
        Out::Dropped {
            line,
            call,
            provider,
            failure,
        } => print_dropped(lines, *line, *call, *provider, *failure),
        Out::Dialog { line, call, dialog } => print_dialog(lines, *line, *call, dialog.get()),
        Out::Window {
            line,
            call,
            provider,
            url,
        } => print_window(lines, *line, *call, *provider, url.as_str()),
        Out::Answer {
            line,
            call,
            page,
            finish,
        } => print_answer(lines, *line, *call, *page, finish),
        Out::Ignored { line, why } => print_ignored(lines, *line, *why),
    }
}
