//! The first line of a script.
ghost use Rattle.std.specs.Prelude.{◌≡◌};
ghost use Rattle.std.specs.Result.{result_map_both};
ghost use Rattle.fed_script.specs.Said.{shown};
ghost use Rattle.fed_io.specs.Fault.{Answers};
ghost use Rattle.fed_script.specs.Header as spec;
ghost use Rattle.fed_script.specs.Line.{header_of};

use crate::cause::{LineCause, MemberName};
use crate::event::Header;
use crate::member::{text, whole};
use crate::said::Said;
use crate::saying::{SaidLine, read_said};
use fed_io::Fault;
use fed_suffix::{SuffixRefusal, Suffixes};
use json::Scratch;
use std::alloc::Global;

// The time, and the text of the rules.
fn header_members<'a>(d: &Said<'a>) -> Result<(u64, &'a str), LineCause>
    ensures { result_map_both (λ m. (m.0, m.1.now)) (λ e. e) result ≡ spec.header_members (shown d.now) }
{
    let version = whole(d, MemberName::Fedcm)?;
    if version != 1 {
        return Err(LineCause::Member(MemberName::Fedcm));
    }
    let now = whole(d, MemberName::Now)?;
    let rules = text(d, MemberName::Rules)?;
    Ok((now, rules))
}

// The rules of the lines of a text.
fn read_rules(alloc: Global, text: &str) -> Result<Suffixes, Fault<SuffixRefusal>>
    ensures { Answers result (spec.rules_of_text text.now) }
{
    let mut rules = Suffixes::new(alloc);
    for line in text.split('\n') {
        match rules.read_line(line) {
            Ok(()) => {}
            Err(fault) => return Err(fault),
        }
    }
    Ok(rules)
}

// The header that a line names.
fn header_named(alloc: Global, d: &Said<'_>) -> Result<Header, Fault<LineCause>>
    ensures { Answers result (spec.header_named (shown d.now)) }
{
    match header_members(d) {
        Err(cause) => Err(Fault::Step(cause)),
        Ok((now, rules)) => match read_rules(alloc, rules) {
            Ok(rules) => Ok(Header { rules, now }),
            Err(Fault::Step(_)) => Err(Fault::Step(LineCause::Member(MemberName::Rules))),
            Err(Fault::NoRoom) => Err(Fault::NoRoom),
        },
    }
}

/// Reads the first line of a script, without its LF: an object whose `fedcm` is 1, whose `now` is the time
/// in whole seconds since 1970, and whose `rules` is a text of public suffix rules, a line each
/// (`Suffixes::read_line`). Refused by NotJson, or by the first of these members that fails.
// It is called once a script, so that its 16 KB of memory for reading are no part of who calls it.
#[inline(never)]
pub fn read_header(alloc: Global, line: &[u8]) -> Result<Header, Fault<LineCause>>
    ensures { Answers result (header_of line.now) }
{
    let mut scratch = Scratch::new(alloc);
    header_said(alloc, &mut scratch, line)
}

// The same, with memory for reading, which is let go at one place: each place would take a copy of it.
fn header_said(
    alloc: Global,
    scratch: &mut Scratch,
    line: &[u8],
) -> Result<Header, Fault<LineCause>>
    ensures { Answers result (header_of line.now) }
{
    let mut said = SaidLine::nothing(alloc);
    read_said(scratch, line, &mut said)?;
    header_named(alloc, &said.members)
}
