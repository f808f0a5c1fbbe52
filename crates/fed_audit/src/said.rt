//! What a record says under a few names, read from left to right.
ghost use Rattle.std.specs.Prelude.{◌≡◌, ◌<◌, ◌≤◌, OnOk, map, length, MatchResult};
ghost use Rattle.serde_json.specs.Data.{no_members};
ghost use Rattle.fed_json.specs.Values.{value_in, members_in, whole_in, Took};
ghost use Rattle.fed_audit.specs.Said as spec;

use fed_json::{Begun, Invalid, LEVELS, Values};

/// A name, and how the value begins that is found under it: null where there is none.
#[derive(Clone, Copy, Debug)]
pub(crate) struct Asked<'a> {
    pub name: &'static str,
    pub found: Begun<'a>,
}

impl<'a> Asked<'a> {
    /// A name under which nothing is found yet.
    pub(crate) fn new(name: &'static str) -> Asked<'a>
        ensures { result ≡ record { name = name.entry; found = Begun.Null } }
    {
        Asked {
            name,
            found: Begun::Null,
        }
    }
}

/// Reads how the values begin that an object has under the names, where nothing is left after it. It answers whether the value is an
/// object. Nothing is found yet.
pub(crate) fn read_whole<'a>(
    values: &mut Values<'a>,
    asked: &mut [Asked<'a>],
) -> Result<bool, Invalid>
    requires { spec.FindNothing asked.old }
    ensures { MatchResult result (λ is_object. spec.IsWhole (spec.Have asked.old asked.new is_object) (whole_in values.old))
        (λ _. whole_in values.old ≡ None) }
{
    let is_object = read_first(values, asked)?;
    if values.is_done() {
        Ok(is_object)
    } else {
        Err(Invalid)
    }
}

// Passes over the value that comes first.
fn read_first<'a>(values: &mut Values<'a>, asked: &mut [Asked<'a>]) -> Result<bool, Invalid>
    requires { spec.FindNothing asked.old }
    ensures { MatchResult result
        (λ is_object. Took (spec.Have asked.old asked.new is_object) (value_in 127 values.old) values.new)
        (λ _. value_in 127 values.old ≡ None) }
{
    let first = values.begin(LEVELS)?;
    let Begun::Object(depth) = first else {
        values.finish(&first)?;
        return Ok(false);
    };
    read_members(values, depth, asked)?;
    Ok(true)
}

// Passes over the members that are left of an object, and finds how their values begin under the names, of several of one name the last.
fn read_members<'a>(
    values: &mut Values<'a>,
    depth: usize,
    asked: &mut [Asked<'a>],
) -> Result<(), Invalid>
    requires { spec.FindNothing asked.old }
    ensures { MatchResult result
        (λ _. Took (spec.HaveMembers asked.old asked.new) (members_in depth no_members values.old) values.new)
        (λ _. members_in depth no_members values.old ≡ None) }
{
    while let Some(name) = values.next_name()? {
        let first = values.pass(depth)?;
        find_under(asked, name, first);
    }
    Ok(())
}

// This is found under one name.
fn find_under<'a>(asked: &mut [Asked<'a>], name: &str, found: Begun<'a>)
    ensures { asked.new ≡ map (spec.with_named name.now found.entry) asked.old }
{
    for one in asked.iter_mut() {
        if one.name == name {
            one.found = found;
        }
    }
}
