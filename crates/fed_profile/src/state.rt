//! A session as a script.
ghost use Rattle.std.specs.Prelude.{◌≡◌, ◌++◌, ◌↔◌, IsTrue, IfOk, OnOk, None};
ghost use Rattle.fed_print.specs.Lines.{line_of};
ghost use Rattle.fed_session.specs.Session.{Stands, Shows};
ghost use Rattle.fed_session.specs.declared.view.View.{View};
ghost use Rattle.fed_trace.specs.Trace.{Trace};
ghost use Rattle.fed_profile.specs.Lines.{header_members};
ghost use Rattle.fed_suffix.specs.RulesText as lines;
ghost use Rattle.fed_profile.specs.Continues.{Continues};
ghost use Rattle.fed_profile.specs.Save as save;
ghost use Rattle.fed_profile.specs.Restores.{HeaderRestores};
ghost use Rattle.fed_profile.specs.Save.{Saves, items_of};
ghost use Rattle.fed_profile.specs.Walk.{Walked};
ghost use Rattle.fed_profile.specs.WalkView as spec;

use crate::object::header_object;
use crate::reading::is_header;
use crate::walk::{Walk, line_from, write_each};
use fed_io::{Bytes, NoRoom};
use fed_origin::Stage;
use fed_session::{Session, View};
use fed_suffix::Suffixes;
use std::alloc::Global;

/// What a session is saved as, or why it is not.
#[derive(Drop)]
pub enum Saved {
    /// The lines of a script that brings back what stands.
    Lines(Bytes),
    /// This call is pending, the first of them.
    Pending(u32),
    /// The line at this place after the header does not restore its item, the first of them; the header's place is 0.
    Item(u32),
}

// Writes the header, and answers whether it is read as the same.
fn write_header(
    alloc: Global,
    rules: &Suffixes,
    now: u64,
    text: &mut Vec<u8>,
    rules_text: &[u8],
) -> Result<bool, NoRoom>
    requires { rules_text.now ≡ lines.rules_text rules.now }
    ensures text { OnOk result (text.new.items ≡ text.old.items ++ line_of (header_members now rules_text.now)) }
    ensures restores { IfOk result (λ same. IsTrue same ↔ HeaderRestores rules.now now) }
{
    let start = text.as_slice().len();
    header_object(alloc, now, rules_text)?.append_line(text)?;
    let line = line_from(text.as_slice(), start);
    let same = is_header(alloc, rules, now, line)?;
    Ok(same)
}

// Writes the line of each item of a view, of which the first stands at this place, as far as each restores its item.
fn write_items(
    alloc: Global,
    rules: &Suffixes,
    text: &mut Vec<u8>,
    view: &View,
    from: u32,
) -> Result<Walk, NoRoom>
    ensures { IfOk result (Walked rules.now view.entry.now.now (items_of view.entry.now) from text.old.items text.new.items) }
{
    match write_each(alloc, rules, view.now, text, view.login.as_slice(), from)? {
        Walk::Lost(place) => Ok(Walk::Lost(place)),
        Walk::On(next) => {
            let walk = write_from_kept(alloc, rules, text, view, next)?;
            Ok(walk)
        }
    }
}

// The same from the permissions on.
fn write_from_kept(
    alloc: Global,
    rules: &Suffixes,
    text: &mut Vec<u8>,
    view: &View,
    from: u32,
) -> Result<Walk, NoRoom>
    ensures { IfOk result (Walked rules.now view.entry.now.now (spec.from_kept view.entry.now) from text.old.items text.new.items) }
{
    match write_each(alloc, rules, view.now, text, view.kept.as_slice(), from)? {
        Walk::Lost(place) => Ok(Walk::Lost(place)),
        Walk::On(next) => {
            let walk = write_from_flags(alloc, rules, text, view, next)?;
            Ok(walk)
        }
    }
}

// The same from the flags on.
fn write_from_flags(
    alloc: Global,
    rules: &Suffixes,
    text: &mut Vec<u8>,
    view: &View,
    from: u32,
) -> Result<Walk, NoRoom>
    ensures { IfOk result (Walked rules.now view.entry.now.now (spec.from_flags view.entry.now) from text.old.items text.new.items) }
{
    match write_each(alloc, rules, view.now, text, view.silent.as_slice(), from)? {
        Walk::Lost(place) => Ok(Walk::Lost(place)),
        Walk::On(next) => {
            let walk = write_from_cookies(alloc, rules, text, view, next)?;
            Ok(walk)
        }
    }
}

// The same from the cookies on.
fn write_from_cookies(
    alloc: Global,
    rules: &Suffixes,
    text: &mut Vec<u8>,
    view: &View,
    from: u32,
) -> Result<Walk, NoRoom>
    ensures { IfOk result (Walked rules.now view.entry.now.now (spec.from_cookies view.entry.now) from text.old.items text.new.items) }
{
    match write_each(alloc, rules, view.now, text, view.cookies.as_slice(), from)? {
        Walk::Lost(place) => Ok(Walk::Lost(place)),
        Walk::On(next) => {
            let walk = write_each(alloc, rules, view.now, text, view.pages.as_slice(), next)?;
            Ok(walk)
        }
    }
}

// The number of the first of the calls.
fn first_call(calls: &[(u32, u32, Stage)]) -> Option<u32>
    ensures { result ≡ save.first_call calls.now }
{
    match calls {
        [] => None,
        [call, ..] => Some(call.0),
    }
}

// What a session is saved as in which no call is pending.
fn save_items(
    alloc: Global,
    view: &View,
    rules: &Suffixes,
    rules_text: &[u8],
) -> Result<Saved, NoRoom>
    requires none { save.first_call view.now.calls ≡ None }
    requires text { rules_text.now ≡ lines.rules_text rules.now }
    ensures { IfOk result (Saves view.entry.now rules.now) }
{
    let mut lines = Vec::new(alloc);
    let same = write_header(alloc, rules, view.now, &mut lines, rules_text)?;
    if !same {
        return Ok(Saved::Item(0));
    }
    match write_items(alloc, rules, &mut lines, view, 1)? {
        Walk::On(_) => Ok(Saved::Lines(Bytes::from_vec(lines))),
        Walk::Lost(place) => Ok(Saved::Item(place)),
    }
}

/// What a session that shows this view is saved as, where the last argument is the text of its rules.
pub fn save_view(
    alloc: Global,
    view: &View,
    rules: &Suffixes,
    rules_text: &[u8],
) -> Result<Saved, NoRoom>
    requires { rules_text.now ≡ lines.rules_text rules.now }
    ensures { IfOk result (Saves view.entry.now rules.now) }
{
    match first_call(view.calls.as_slice()) {
        Some(call) => Ok(Saved::Pending(call)),
        None => {
            let saved = save_items(alloc, view, rules, rules_text)?;
            Ok(saved)
        }
    }
}

/// What a session is saved as, or why it is not. A dead session answers want of memory.
pub fn save(alloc: Global, session: &Session) -> Result<Saved, NoRoom>
    ensures saves { (T : Trace) → Stands session.now T
        → IfOk result (λ saved. (view : View) × Shows view T × Saves view T.header.rules saved) }
    ensures goes_on { (T : Trace) → Stands session.now T → IfOk result (save.IfLines (Continues T)) }
{
    let view = session.view()?;
    let text = session.rules().text()?;
    let saved = save_view(alloc, &view, session.rules(), text.as_slice())?;
    Ok(saved)
}
