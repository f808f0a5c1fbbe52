//! Where the reading of a script's lines stands.
ghost use Rattle.std.specs.Prelude.{◌≡◌, ◌+◌, ◌^◌, ◌-◌, ◌<◌, nat_eq, true, Some, None, IfOk};
ghost use Rattle.fed_script.specs.Reader as spec;
ghost use Rattle.fed_script.specs.Reader.{line_by, read_as, used_by, events_read, is_bad, phase_after, LineMayFollow};

use crate::bytes::is_blank;
use crate::event::Line;
use crate::header::read_header;
use crate::line::read_event;
use crate::used::Used;
use fed_io::{Fault, NoRoom, Placed};
use std::alloc::Global;
use std::marker::Model;

// What a line after the header is read as.
fn event_line(alloc: Global, number: u32, line: &[u8], used: &mut Used) -> Result<Line, NoRoom>
    ensures line { IfOk result (λ found. found ≡ line_by (Some used.old) number line.now) }
    ensures used { IfOk result (λ found. Some used.new ≡ used_by found (Some used.old)) }
    ensures follows { IfOk result (LineMayFollow (Some used.old)) }
{
    if is_blank(line) {
        return Ok(Line::Blank(number));
    }
    match read_event(alloc, line, used) {
        Ok(event) => Ok(Line::Event(number, event)),
        Err(Fault::Step(cause)) => Ok(Line::Bad(number, cause)),
        Err(Fault::NoRoom) => Err(NoRoom),
    }
}

// What the first line is read as. By itself, since what it makes room for is filled with zeros at each call of what has it.
#[inline(never)]
fn head_line(alloc: Global, number: u32, line: &[u8]) -> Result<Line, NoRoom>
    ensures line { IfOk result (λ found. found ≡ line_by None number line.now) }
    ensures follows { IfOk result (LineMayFollow None) }
{
    match read_header(alloc, line) {
        Ok(header) => Ok(Line::Head(number, Placed::new(alloc, header)?)),
        Err(Fault::Step(cause)) => Ok(Line::Bad(number, cause)),
        Err(Fault::NoRoom) => Err(NoRoom),
    }
}

// What is used after the first line.
fn used_after_head(alloc: Global, line: &Line) -> Option<Used>
    ensures { result ≡ used_by line.now None }
{
    match line {
        Line::Head(_, header) => Some(Used::new(alloc, header.get().now)),
        _ => None,
    }
}

// Whether a line is bad.
fn is_bad_line(line: &Line) -> bool
    ensures { result ≡ is_bad line.now }
{
    matches!(line, Line::Bad(..))
}

/// Where the reading of lines stands.
#[derive(Drop)]
pub(crate) struct Reading {
    number: u32,
    used: Option<Used>,
    over: bool,
}

impl Model for Reading {
    ghost use Rattle.fed_script.specs.Reader.{Phase};

    ghost Value = { Phase };

    ghost view = { λ r. record { number = r.number; used = r.used; over = r.over } };
}

impl Reading {
    /// Before the first line.
    pub(crate) fn new() -> Reading
        ensures { result ≡ spec.fresh }
    {
        Reading {
            number: 1,
            used: None,
            over: false,
        }
    }

    /// Whether nothing more is read.
    pub(crate) fn is_over(&self) -> bool
        ensures { result ≡ self.now.over }
    {
        self.over
    }

    /// Whether no line was read.
    pub(crate) fn is_fresh(&self) -> bool
        ensures { result ≡ nat_eq self.now.number 1 }
    {
        self.number == 1
    }

    /// How many events were read.
    pub(crate) fn events(&self) -> u32
        ensures { result ≡ events_read self.now.used }
    {
        match &self.used {
            Some(used) => used.events(),
            None => 0,
        }
    }

    /// From now on nothing more is read.
    pub(crate) fn end(&mut self)
        ensures { self.new ≡ record self.old { over = true } }
    {
        self.over = true;
    }

    /// What the next line is read as; what it uses is used from then on.
    pub(crate) fn read(&mut self, alloc: Global, line: &[u8]) -> Result<Line, NoRoom>
        ensures line { IfOk result (λ found. found ≡ read_as self.old line.now) }
        ensures used { IfOk result (λ found. self.new ≡ record self.old { used = used_by found self.old.used }) }
        ensures follows { IfOk result (LineMayFollow self.old.used) }
    {
        match &mut self.used {
            Some(used) => event_line(alloc, self.number, line, used),
            None => {
                let found = head_line(alloc, self.number, line)?;
                self.used = used_after_head(alloc, &found);
                Ok(found)
            }
        }
    }

    // Goes on after a line.
    fn pass(&mut self, line: &Line)
        requires few { self.old.number < 2 ^ 32 - 1 }
        ensures { self.new ≡ record self.old { number = self.old.number + 1; over = is_bad line.now } }
    {
        self.over = is_bad_line(line);
        self.number += 1;
    }

    /// Reads the next line, and goes on after it.
    pub(crate) fn take(&mut self, alloc: Global, line: &[u8]) -> Result<Line, NoRoom>
        requires few { self.old.number < 2 ^ 32 - 1 }
        ensures line { IfOk result (λ found. found ≡ read_as self.old line.now) }
        ensures phase { IfOk result (λ found. self.new ≡ phase_after self.old found) }
        ensures follows { IfOk result (LineMayFollow self.old.used) }
    {
        let found = self.read(alloc, line)?;
        self.pass(&found);
        Ok(found)
    }
}
