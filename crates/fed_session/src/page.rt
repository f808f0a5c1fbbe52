//! Events of pages that stand.
ghost use Rattle.std.specs.Prelude.{◌≡◌, ◌≤◌, ◌+◌, ◌*◌, length, nat_eq, OnOk, IfOk, true};
ghost use Rattle.std.specs.Map.{lookup};
ghost use Rattle.fed_origin.specs.Origin.{same_origin};
ghost use Rattle.fed_script.specs.Used.{IsKnown};
ghost use Rattle.fed_table.specs.Table.{page_calls};
ghost use Rattle.fed_trace.specs.Effect.{Login, Flag, login_change};
ghost use Rattle.fed_trace.specs.Keyed.{entries_after};
ghost use Rattle.fed_trace.specs.Records.{records_of};
ghost use Rattle.fed_trace.specs.Row.{page_says};
ghost use Rattle.fed_session.specs.StepParts.{close_records, flags_set};
ghost use Rattle.fed_session.specs.Tabs.{Closes};

use crate::apply::ignored;
use crate::tabs::Tabs;
use fed_consent::Why;
use fed_io::{Items, NoRoom, Steps};
use fed_origin::LoginStatus;
use fed_status::{LoginMap, SilentFlags};
use fed_trace::Out;
use std::alloc::Global;
use std::sync::ledger::Ledger;

/// The page's pending calls end, and the page no longer stands; a page that does not stand is ignored.
pub(crate) fn close<L: Ledger>(
    alloc: Global,
    line: u32,
    tabs: &mut Tabs,
    page: u32,
    steps: &mut Steps<L>,
) -> Result<Items<Out>, NoRoom>
    ensures outs { IfOk result (λ outs. outs ≡ close_records line (lookup (nat_eq page) tabs.old.pages)) }
    ensures tabs { OnOk result (Closes page (lookup (nat_eq page) tabs.old.pages) tabs.old tabs.new) }
    ensures steps { steps.new ≤ steps.old + (20 * length (page_calls tabs.old.table.pages page) + 8) }
{
    if tabs.origin(page).is_none() {
        return ignored(alloc, line, Why::NoPage);
    }
    tabs.close(page, steps);
    Ok(Items::new(alloc))
}

/// The page sets the login status of its origin; ignored where it does not stand, or is not trustworthy.
pub(crate) fn set_page_status(
    alloc: Global,
    line: u32,
    tabs: &Tabs,
    login: &mut LoginMap,
    page: u32,
    status: LoginStatus,
) -> Result<Items<Out>, NoRoom>
    requires { IsKnown status }
    ensures outs { IfOk result (λ outs. outs ≡ records_of line (page_says (lookup (nat_eq page) tabs.now.pages)
        (λ origin. Login origin status))) }
    ensures login { OnOk result (login.new ≡ entries_after same_origin login_change (page_says (lookup (nat_eq page) tabs.now.pages)
        (λ origin. Login origin status)) login.old) }
{
    let Some(origin) = tabs.origin(page) else {
        return ignored(alloc, line, Why::NoPage);
    };
    if !origin.is_trustworthy() {
        return ignored(alloc, line, Why::PageInsecure);
    }
    login.set(origin, status)?;
    Ok(Items::new(alloc))
}

/// The page prevents silent access at its origin; ignored where it does not stand, or is not trustworthy.
pub(crate) fn prevent(
    alloc: Global,
    line: u32,
    tabs: &Tabs,
    flags: &mut SilentFlags,
    page: u32,
) -> Result<Items<Out>, NoRoom>
    ensures outs { IfOk result (λ outs. outs ≡ records_of line (page_says (lookup (nat_eq page) tabs.now.pages)
        (λ origin. Flag origin true))) }
    ensures flags { OnOk result (flags.new ≡ flags_set (lookup (nat_eq page) tabs.now.pages) flags.old) }
{
    let Some(origin) = tabs.origin(page) else {
        return ignored(alloc, line, Why::NoPage);
    };
    if !origin.is_trustworthy() {
        return ignored(alloc, line, Why::PageInsecure);
    }
    flags.set(origin)?;
    Ok(Items::new(alloc))
}
