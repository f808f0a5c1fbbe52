//! The first clause of the twin test that fails.
ghost use Rattle.std.specs.Prelude.{◌≡◌, ◌≤◌, ◌↔◌, [], length, None, IsTrue, IfOk};
ghost use Rattle.fed_twin.specs.Clauses.{SameHeaders, known_by, named_after, BreaksFirst};
ghost use Rattle.fed_twin.specs.Fault.{clause_text, FoundFrom, TwinFaultOf, TwinFrom};
ghost use Rattle.fed_twin.specs.Names.{names_of};
ghost use Rattle.fed_twin.specs.Script.{kept_events};
ghost use Rattle.fed_twin.specs.Twin as spec;
ghost use Rattle.fed_twin.specs.Twin.{Twin};

use crate::kept::next_kept;
use crate::kind::kind_of;
use crate::load::{named_together, same_load};
use crate::members::same_members;
use crate::names::Names;
use crate::parties::ProviderParties;
use fed_io::NoRoom;
use fed_script::{Event, Header, Numbered, Script};
use fed_suffix::Suffixes;
use std::alloc::Global;

/// A clause of the twin test (this profile's own), in the order in which they are tried.
#[derive(Clone, Copy, Debug, PartialEq, Eq)]
pub enum TwinClause {
    /// The times and the sets of rules are equal.
    Header,
    /// The two events are of one kind.
    Kind,
    /// They are equal but for what is free.
    Member,
    /// Two loads are equal, or far from every provider.
    Load,
    /// Two events name origins that are one in both scripts or in neither.
    Origins,
    /// Both scripts have as many events that are compared.
    Count,
}

impl TwinClause {
    /// The clause as one word.
    pub fn as_str(self) -> &'static str
        ensures { result.now ≡ clause_text self }
    {
        match self {
            TwinClause::Header => "header",
            TwinClause::Kind => "kind",
            TwinClause::Member => "member",
            TwinClause::Load => "load",
            TwinClause::Origins => "origins",
            TwinClause::Count => "count",
        }
    }
}

/// The first clause that fails, and the number of its event among those that are compared, from 1; 0 for the headers.
#[derive(Clone, Copy, Debug, PartialEq, Eq)]
pub struct TwinFault {
    pub clause: TwinClause,
    pub event: u32,
}

/// The twin test of two scripts (this profile's own): the first of their events that are compared at which a clause fails, and
/// the first clause that fails there, where the headers stand before all events. It finds nothing of twins, and of no other
/// scripts. It refuses only for want of memory.
pub fn twin_fault(alloc: Global, a: &Script, b: &Script) -> Result<Option<TwinFault>, NoRoom>
    ensures fault { IfOk result (TwinFaultOf a.now b.now) }
    ensures twins { IfOk result (λ found. (found ≡ None) ↔ Twin a.now b.now) }
{
    if !same_headers(a.header(), b.header()) {
        return Ok(Some(TwinFault {
            clause: TwinClause::Header,
            event: 0,
        }));
    }
    let parties = ProviderParties::of(alloc, a, b)?;
    fault_among(alloc, &a.header().rules, &parties, a.events(), b.events())
}

// The times and the sets of rules are equal.
fn same_headers(a: &Header, b: &Header) -> bool
    ensures { IsTrue result ↔ SameHeaders a.entry.now b.entry.now }
{
    a.now == b.now && a.rules.same(&b.rules)
}

// What the test finds of the events of two scripts.
fn fault_among(
    alloc: Global,
    rules: &Suffixes,
    parties: &ProviderParties,
    a: &[Numbered],
    b: &[Numbered],
) -> Result<Option<TwinFault>, NoRoom>
    requires { length a.now ≤ 1000000 }
    ensures fault { IfOk result
        (FoundFrom (known_by rules.now parties.now) [] 1 (kept_events a.now) (kept_events b.now)) }
    ensures twins { IfOk result
        (λ found. found ≡ None → TwinFrom (known_by rules.now parties.now) [] (kept_events a.now) (kept_events b.now)) }
{
    let mut names = Names::new(alloc);
    let mut left = a;
    let mut right = b;
    let mut event = 1;
    while let Some((one, more)) = next_kept(left) {
        let Some((other, others)) = next_kept(right) else {
            return Ok(Some(TwinFault {
                clause: TwinClause::Count,
                event,
            }));
        };
        if let Some(clause) = broken_clause(alloc, rules, parties, &mut names, one, other)? {
            return Ok(Some(TwinFault { clause, event }));
        }
        left = more;
        right = others;
        event += 1;
    }
    match next_kept(right) {
        Some(_) => Ok(Some(TwinFault {
            clause: TwinClause::Count,
            event,
        })),
        None => Ok(None),
    }
}

// The first clause that two events break, if they break one. The origins that they name are taken.
fn broken_clause(
    alloc: Global,
    rules: &Suffixes,
    parties: &ProviderParties,
    names: &mut Names,
    a: &Event,
    b: &Event,
) -> Result<Option<TwinClause>, NoRoom>
    ensures clause { IfOk result (BreaksFirst (known_by rules.now parties.now) (names_of names.old) a.now b.now) }
    ensures names { IfOk result
        (λ clause. clause ≡ None → names_of names.new ≡ named_after (names_of names.old) a.now b.now) }
{
    if !same_kind(a, b) {
        return Ok(Some(TwinClause::Kind));
    }
    if !same_members(a, b) {
        return Ok(Some(TwinClause::Member));
    }
    let Some((first, second)) = named_together(alloc, a, b)? else {
        return Ok(None);
    };
    if !same_load(rules, parties, a, b, &first, &second) {
        return Ok(Some(TwinClause::Load));
    }
    if names.take(first, second)? {
        Ok(None)
    } else {
        Ok(Some(TwinClause::Origins))
    }
}

fn same_kind(a: &Event, b: &Event) -> bool
    ensures { IsTrue result ↔ (spec.kind_of a.now ≡ spec.kind_of b.now) }
{
    kind_of(a) == kind_of(b)
}
