//! Whole scripts.
ghost use Rattle.std.specs.Prelude.{◌≡◌, ◌<◌, ◌^◌, ℕ, List, [], ◌∷◌, length, IfOk};
ghost use Rattle.fed_io.specs.Fault.{Answers};
ghost use Rattle.fed_script.specs.Script.{IsRead, script_of, script_with, or_bad_line, lines_of, events_of};
ghost use Rattle.fed_script.specs.Further.{with_events, goes_on};
ghost use Rattle.fed_script.specs.Used.{unused};

use crate::bytes::{is_blank, next_line};
use crate::cause::{BadLine, LineCause};
use crate::event::{Header, Numbered};
use crate::header::read_header;
use crate::line::read_event;
use crate::used::Used;
use fed_io::{Fault, Items, NoRoom};
use std::alloc::Global;
use std::marker::Model;

/// A readable script: its header, and its events with the numbers of their lines. Contracts see it as the script of the
/// definitions, and know that it can be read: it has at most 1,000,000 events, no two gets or disconnects of one
/// number, one to ten providers for each get, and no unknown status.
pub struct Script {
    header: Header,
    events: Items<Numbered>,
}

impl Model for Script {
    ghost use Rattle.std.specs.Coded.{codes};
    ghost use Rattle.std.specs.FinSet as set;
    ghost use Rattle.fed_suffix.specs.Rule.{rule_cmp, rule_code};
    ghost use Rattle.fed_script.specs.Script as spec;

    ghost Value = { spec.Script };

    ghost coded = { Prim.hlevel (codes, set.code {R = rule_cmp} rule_code) };

    ghost view = { λ s. record { header = s.header; events = s.events } };

    ghost invariant = { λ s. spec.IsRead (record { header = s.header; events = s.events }) };
}

// Written out, so that one function lets a script go wherever it ends.
impl Drop for Script {
    fn drop(self) {
        let Script {
            header: _,
            events: _,
        } = self;
    }
}

impl Script {
    /// The first line.
    pub fn header(&self) -> &Header
        ensures { result.now ≡ self.now.header }
    {
        &self.header
    }

    /// The events in the order of their lines.
    pub fn events(&self) -> &[Numbered]
        ensures events { result.now ≡ self.now.events }
        ensures read { IsRead self.now }
    {
        self.events.as_slice()
    }
}

// Takes a line: its event, if it has one, goes after the others. Answers why the line is bad, if it is.
fn take_line(
    alloc: Global,
    used: &mut Used,
    events: &mut Items<Numbered>,
    number: u32,
    line: &[u8],
) -> Result<Option<LineCause>, NoRoom>
    ensures { IfOk result (λ cause. (more : List (List ℕ)) → with_events events.new (goes_on cause number used.new more)
        ≡ with_events events.old (events_of used.old number (line.now ∷ more))) }
{
    if is_blank(line) {
        return Ok(None);
    }
    match read_event(alloc, line, used) {
        Err(Fault::Step(cause)) => Ok(Some(cause)),
        Err(Fault::NoRoom) => Err(NoRoom),
        Ok(event) => {
            events.push(Numbered {
                line: number,
                event,
            })?;
            Ok(None)
        }
    }
}

// Takes the lines after a header up to the first bad one, and answers that one's number and cause.
fn take_lines(
    alloc: Global,
    used: &mut Used,
    events: &mut Items<Numbered>,
    lines: &[u8],
) -> Result<Option<(u32, LineCause)>, NoRoom>
    requires { length lines.now < 2 ^ 31 }
    ensures { IfOk result (λ bad.
        record { good = events.new; bad = bad } ≡ with_events events.old (events_of used.old 2 (lines_of lines.now))) }
{
    let mut number: u32 = 2;
    let mut rest = lines;
    while let Some((line, further)) = next_line(rest) {
        match take_line(alloc, used, events, number, line)? {
            None => {}
            Some(cause) => return Ok(Some((number, cause))),
        }
        rest = further;
        number += 1;
    }
    Ok(None)
}

// Takes the lines after a header of this time.
fn take_events(
    alloc: Global,
    time: u64,
    events: &mut Items<Numbered>,
    lines: &[u8],
) -> Result<Option<(u32, LineCause)>, NoRoom>
    requires few { length lines.now < 2 ^ 31 }
    requires none { events.old ≡ [] }
    ensures { IfOk result (λ bad. record { good = events.new; bad = bad } ≡ events_of (unused time) 2 (lines_of lines.now)) }
{
    let mut used = Used::new(alloc, time);
    take_lines(alloc, &mut used, events, lines)
}

// The script of a header and the lines after it.
fn read_lines(alloc: Global, header: Header, lines: &[u8]) -> Result<Script, Fault<BadLine>>
    requires { length lines.now < 2 ^ 31 }
    ensures { Answers result (or_bad_line (script_with header (events_of (unused header.now) 2 (lines_of lines.now)))) }
{
    let mut events = Items::new(alloc);
    match take_events(alloc, header.now, &mut events, lines) {
        Ok(None) => Ok(Script { header, events }),
        Ok(Some((line, cause))) => Err(Fault::Step(BadLine { line, cause })),
        Err(NoRoom) => Err(Fault::NoRoom),
    }
}

/// Reads a script: line 1 is its header, as `read_header` reads it, and each later line that is not blank an event, as
/// `read_event` reads it. A script without a line has a bad line 1, which is no JSON. The step that is refused is the
/// first bad line.
pub fn read_script(alloc: Global, bytes: &[u8]) -> Result<Script, Fault<BadLine>>
    requires { length bytes.now < 2 ^ 31 }
    ensures { Answers result (or_bad_line (script_of bytes.now)) }
{
    let Some((first, others)) = next_line(bytes) else {
        return Err(Fault::Step(BadLine {
            line: 1,
            cause: LineCause::NotJson,
        }));
    };
    match read_header(alloc, first) {
        Ok(header) => read_lines(alloc, header, others),
        Err(Fault::Step(cause)) => Err(Fault::Step(BadLine { line: 1, cause })),
        Err(Fault::NoRoom) => Err(Fault::NoRoom),
    }
}
