//! Printing dialogs.
ghost use Rattle.std.specs.Prelude.{OnOk, Some, map, codes};
ghost use Rattle.std.specs.Option.{option_copied};
ghost use Rattle.fed_print.specs.Dialogs as spec;
ghost use Rattle.fed_print.specs.Objects.{objects};
ghost use Rattle.fed_print.specs.Written.{PrintsMember, PrintsObject, PrintsObjects};

use crate::line_writer::LineWriter;
use crate::words::{detail_text, text_in};
use fed_consent::{Dialog, Failure, Shown};
use fed_io::NoRoom;
use fed_origin::Context;

fn print_account(lines: &mut LineWriter, shown: &Shown) -> Result<(), NoRoom>
    ensures { OnOk result (PrintsObject lines.old lines.new (spec.account_members shown.now)) }
{
    lines.begin()?;
    lines.flag("connected", shown.connected)?;
    lines.text("email", shown.email.as_str())?;
    lines.text_if("given_name", text_in(&shown.given_name))?;
    lines.text("id", shown.id.as_str())?;
    lines.text("name", shown.name.as_str())?;
    lines.text_if("picture", text_in(&shown.picture))?;
    lines.count("provider", shown.provider)?;
    lines.end()?;
    Ok(())
}

// The accounts, in their order.
fn print_each(lines: &mut LineWriter, accounts: &[Shown]) -> Result<(), NoRoom>
    ensures { OnOk result (PrintsObjects lines.old lines.new (map spec.account_members accounts.now)) }
{
    for shown in accounts {
        print_account(lines, shown)?;
    }
    Ok(())
}

// The member with the accounts.
fn print_accounts(lines: &mut LineWriter, accounts: &[Shown]) -> Result<(), NoRoom>
    ensures { OnOk result (PrintsMember lines.old lines.new (codes "accounts")
        (Some (objects (map spec.account_members accounts.now)))) }
{
    lines.name("accounts")?;
    lines.begin_list()?;
    print_each(lines, accounts)?;
    lines.end_list()?;
    Ok(())
}

fn print_choose(
    lines: &mut LineWriter,
    line: u32,
    call: u32,
    accounts: &[Shown],
    context: Context,
    site: &str,
) -> Result<(), NoRoom>
    ensures { OnOk result (PrintsObject lines.old lines.new (spec.choose_members line call accounts.now context site.now)) }
{
    lines.begin()?;
    print_accounts(lines, accounts)?;
    lines.count("call", call)?;
    lines.text("context", context.as_str())?;
    lines.word("dialog", "choose")?;
    lines.count("line", line)?;
    lines.word("out", "dialog")?;
    lines.text("site", site)?;
    lines.end()?;
    Ok(())
}

fn print_prompt(
    lines: &mut LineWriter,
    line: u32,
    call: u32,
    account: &Shown,
    context: Context,
    site: &str,
    privacy: Option<&str>,
    terms: Option<&str>,
) -> Result<(), NoRoom>
    ensures { OnOk result (PrintsObject lines.old lines.new
        (spec.prompt_members line call account.now context site.now (option_copied privacy.entry) (option_copied terms.entry))) }
{
    lines.begin()?;
    lines.name("account")?;
    print_account(lines, account)?;
    lines.count("call", call)?;
    lines.text("context", context.as_str())?;
    lines.word("dialog", "prompt")?;
    lines.flag("disclosure", !account.connected)?;
    lines.count("line", line)?;
    lines.word("out", "dialog")?;
    lines.text_if("privacy", privacy)?;
    lines.text("site", site)?;
    lines.text_if("terms", terms)?;
    lines.end()?;
    Ok(())
}

fn print_mismatch(
    lines: &mut LineWriter,
    line: u32,
    call: u32,
    provider: u32,
    site: &str,
    failure: Failure,
) -> Result<(), NoRoom>
    ensures { OnOk result (PrintsObject lines.old lines.new (spec.mismatch_members line call provider site.now failure)) }
{
    lines.begin()?;
    lines.count("call", call)?;
    lines.text_if("detail", detail_text(failure.detail))?;
    lines.word("dialog", "mismatch")?;
    lines.count("line", line)?;
    lines.word("out", "dialog")?;
    lines.count("provider", provider)?;
    lines.text("site", site)?;
    lines.text("step", failure.step.as_str())?;
    lines.end()?;
    Ok(())
}

// The object of a dialog.
pub fn print_dialog(
    lines: &mut LineWriter,
    line: u32,
    call: u32,
    dialog: &Dialog,
) -> Result<(), NoRoom>
    ensures { OnOk result (PrintsObject lines.old lines.new (spec.dialog_members line call dialog.now)) }
{
    match dialog {
        Dialog::Choose {
            accounts,
            context,
            site,
        } => print_choose(
            lines,
            line,
            call,
            accounts.as_slice(),
            *context,
            site.as_str(),
        ),
        Dialog::Prompt {
            account,
            context,
            site,
            privacy,
            terms,
        } => print_prompt(
            lines,
            line,
            call,
            account,
            *context,
            site.as_str(),
            text_in(privacy),
            text_in(terms),
        ),
        Dialog::Mismatch {
            provider,
            site,
            failure,
        } => print_mismatch(lines, line, call, *provider, site.as_str(), *failure),
    }
}
