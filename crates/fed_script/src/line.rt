//! Reading a line that names an event.
ghost use Rattle.std.specs.Prelude.{◌≡◌, ◌≢◌, ◌<◌, codes, IfOk, OnOk, OnErr};
ghost use Rattle.fed_script.specs.Said.{shown};
ghost use Rattle.fed_io.specs.Fault.{Answers};
ghost use Rattle.fed_script.specs.Line as spec;
ghost use Rattle.fed_script.specs.Line.{event_of};
ghost use Rattle.fed_script.specs.Used.{used_after, IsUnused, HasProviders, HasKnownStatus};
ghost use Rattle.std.specs.Result.{result_map_both};

use crate::cause::{LineCause, MemberName};
use crate::choose::choose;
use crate::config::KeptConfigs;
use crate::disconnect::{disconnect, disconnect_by};
use crate::event::Event;
use crate::get::{get, get_by};
use crate::have::have_named;
use crate::load::{load, load_by};
use crate::member::member;
use crate::plain::{PlainLine, load_line, plain_line, reply_line};
use crate::plain_get::get_line;
use crate::reply::reply;
use crate::said::Said;
use crate::saying::{SaidLine, read_said};
use crate::single::{
    abort, at, cancel, close_page, go_on, idp_close, prevent, shut_window, sign_in,
};
use crate::status::set_status;
use crate::texts::text_bytes;
use crate::used::Used;
use fed_io::{Fault, NoRoom};
use json::Scratch;
use std::alloc::Global;

// The kind that a line names.
fn kind_of<'a>(d: &Said<'a>) -> Result<&'a str, LineCause>
    ensures { result_map_both (λ s. s.now) (λ e. e) result ≡ spec.kind_of (shown d.now) }
{
    let Some(found) = member(d, MemberName::Do) else {
        return Err(LineCause::NoKind);
    };
    match found.as_str() {
        Some(kind) => Ok(kind),
        None => Err(LineCause::NoKind),
    }
}

// The event of a line of this kind, which is no get.
fn event_of_kind(
    alloc: Global,
    kept: &mut KeptConfigs,
    kind: &str,
    d: &Said<'_>,
) -> Result<Event, Fault<LineCause>>
    requires { kind.now ≢ codes "get" }
    ensures { Answers result (spec.event_of_kind kind.now (shown d.now)) }
{
    match kind {
        "have" => have_named(alloc, d),
        "at" => at(d).map_err(Fault::Step),
        "load" => load(alloc, d),
        "closepage" => close_page(d).map_err(Fault::Step),
        "abort" => abort(d).map_err(Fault::Step),
        "continue" => go_on(d).map_err(Fault::Step),
        "cancel" => cancel(d).map_err(Fault::Step),
        "signin" => sign_in(d).map_err(Fault::Step),
        "shutwindow" => shut_window(d).map_err(Fault::Step),
        "reply" => reply(alloc, d),
        "choose" => choose(alloc, d),
        "idpclose" => idp_close(d).map_err(Fault::Step),
        "prevent" => prevent(d).map_err(Fault::Step),
        "setstatus" => set_status(d).map_err(Fault::Step),
        "disconnect" => disconnect(alloc, kept, d),
        _ => Err(Fault::Step(LineCause::NoKind)),
    }
}

/// What is kept from one line to the next: memory for reading, and what was read before. No answer hangs on it.
pub(crate) struct LineMemory {
    scratch: Option<Box<Scratch>>,
    config: KeptConfigs,
}

// Written out, so that one function lets it go wherever it ends.
impl Drop for LineMemory {
    fn drop(self) {
        let LineMemory {
            scratch: _,
            config: _,
        } = self;
    }
}

impl LineMemory {
    /// Before the first line. It takes no memory.
    pub(crate) fn new(alloc: Global) -> LineMemory {
        LineMemory {
            scratch: None,
            config: KeptConfigs::none(alloc),
        }
    }
}

/// The event that a line names, before the lines before it are looked at.
pub(crate) fn event_named(
    alloc: Global,
    memory: &mut LineMemory,
    line: &[u8],
) -> Result<Event, Fault<LineCause>>
    ensures { Answers result (spec.event_named line.now) }
{
    match line.get(7) {
        Some(b'r') => reply_named(alloc, memory, line),
        Some(b'l') => load_named(alloc, memory, line),
        Some(b'g') => get_named(alloc, memory, line),
        _ => other_named(alloc, memory, line),
    }
}

// The same of a line that is perhaps a reply as JSON writers give it.
fn reply_named(
    alloc: Global,
    memory: &mut LineMemory,
    line: &[u8],
) -> Result<Event, Fault<LineCause>>
    ensures { Answers result (spec.event_named line.now) }
{
    let Some((call, provider, kind, escaped)) = reply_line(line) else {
        return members_named(alloc, memory, line);
    };
    match text_bytes(alloc, escaped) {
        Ok(Some(raw)) => Ok(Event::Reply {
            call,
            provider,
            kind,
            raw,
        }),
        Ok(None) => members_named(alloc, memory, line),
        Err(NoRoom) => Err(Fault::NoRoom),
    }
}

// The same of a line that is perhaps a load as JSON writers give it.
fn load_named(
    alloc: Global,
    memory: &mut LineMemory,
    line: &[u8],
) -> Result<Event, Fault<LineCause>>
    ensures { Answers result (spec.event_named line.now) }
{
    let Some((page, url, reply)) = load_line(line) else {
        return members_named(alloc, memory, line);
    };
    let Some(escaped) = reply else {
        return load_by(alloc, page, url, None);
    };
    match text_bytes(alloc, escaped) {
        Ok(Some(raw)) => load_by(alloc, page, url, Some(raw)),
        Ok(None) => members_named(alloc, memory, line),
        Err(NoRoom) => Err(Fault::NoRoom),
    }
}

// The same of a line that is perhaps a get as JSON writers give it.
fn get_named(alloc: Global, memory: &mut LineMemory, line: &[u8]) -> Result<Event, Fault<LineCause>>
    ensures { Answers result (spec.event_named line.now) }
{
    match get_line(alloc, line) {
        Ok(Some(get)) => get_by(alloc, &mut memory.config, &get.members()),
        Ok(None) => members_named(alloc, memory, line),
        Err(NoRoom) => Err(Fault::NoRoom),
    }
}

// The same of a line of another kind.
fn other_named(
    alloc: Global,
    memory: &mut LineMemory,
    line: &[u8],
) -> Result<Event, Fault<LineCause>>
    ensures { Answers result (spec.event_named line.now) }
{
    match plain_line(line) {
        Some(PlainLine::Disconnect(members)) => {
            disconnect_by(alloc, &mut memory.config, &members)
        }
        Some(PlainLine::ClosePage(page)) => Ok(Event::ClosePage { page }),
        Some(PlainLine::GoOn(call)) => Ok(Event::GoOn { call }),
        None => members_named(alloc, memory, line),
    }
}

// The same by the members of the line, which are read from memory that is made for the first of such lines.
fn members_named(
    alloc: Global,
    memory: &mut LineMemory,
    line: &[u8],
) -> Result<Event, Fault<LineCause>>
    ensures { Answers result (spec.event_named line.now) }
{
    let mut scratch = match memory.scratch.take() {
        Some(scratch) => scratch,
        None => new_scratch(alloc)?,
    };
    let event = event_of_members(alloc, &mut scratch, &mut memory.config, line);
    memory.scratch = Some(scratch);
    event
}

// Memory for reading, in a place of its own. By itself, since it is 16 KB, which are made before they are placed.
#[inline(never)]
fn new_scratch(alloc: Global) -> Result<Box<Scratch>, NoRoom> {
    Ok(Box::new(alloc, Scratch::new(alloc))?)
}

// The same by the members of the line, with what is read from.
#[inline(never)]
fn event_of_members(
    alloc: Global,
    scratch: &mut Scratch,
    kept: &mut KeptConfigs,
    line: &[u8],
) -> Result<Event, Fault<LineCause>>
    ensures { Answers result (spec.event_named line.now) }
{
    let mut said = SaidLine::nothing(alloc);
    read_said(scratch, line, &mut said)?;
    match kind_of(&said.members) {
        Ok("get") => get(alloc, kept, &said),
        Ok(kind) => event_of_kind(alloc, kept, kind, &said.members),
        Err(cause) => Err(Fault::Step(cause)),
    }
}

// Whether the lines before it allow an event.
fn allowed(used: &Used, event: &Event) -> Result<(), LineCause>
    ensures { result ≡ spec.allowed used.now event.now }
{
    if used.is_used(event) {
        return Err(LineCause::CallTwice);
    }
    if used.is_late(event) {
        return Err(LineCause::HaveLate);
    }
    if used.is_back(event) {
        return Err(LineCause::TimeBack);
    }
    if used.is_full() {
        return Err(LineCause::TooManyEvents);
    }
    Ok(())
}

/// Reads the event of a line after the first, without its LF, which is not blank.
/// `used` is what the lines before it left, and counts the event on Ok alone.
/// Refused by the first of the causes that holds, in their order.
pub fn read_event(alloc: Global, line: &[u8], used: &mut Used) -> Result<Event, Fault<LineCause>>
    ensures answer { Answers result (event_of line.now used.old) }
    ensures used { IfOk result (λ event. used.new ≡ used_after event used.old) }
    ensures err { OnErr result (used.new ≡ used.old) }
    ensures few { OnOk result (used.old.events < 1000000) }
    ensures once { IfOk result (IsUnused used.old) }
    ensures provider { IfOk result HasProviders }
    ensures status { IfOk result HasKnownStatus }
{
    let event = used.event_named(alloc, line)?;
    match allowed(used, &event) {
        Ok(()) => {
            used.note(&event)?;
            Ok(event)
        }
        Err(cause) => Err(Fault::Step(cause)),
    }
}
