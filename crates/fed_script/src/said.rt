//! What an object says under the names that lines have.
ghost use Rattle.std.specs.Prelude.{◌≡◌, length};

use crate::cause::MemberName;
use fed_json::Begun;

// How many names there are.
const NAMES: usize = 28;

/// How the values begin that the members of an object have under the names, of several of one name the last. Null counts as absent.
#[derive(Clone, Copy)]
pub(crate) struct Said<'a> {
    found: [Begun<'a>; NAMES],
    ghost full: { length found ≡ 28 },
}

impl<'a> Said<'a> {
    ghost use Rattle.std.specs.Prelude.{◌≡◌, ◌≢◌};
    ghost use Rattle.serde_json.specs.Data.{Data, object, Members, put};
    ghost use Rattle.fed_json.specs.Values.{IsBegun};
    ghost use Rattle.fed_script.specs.Said.{under, IsEmpty, Says};

    /// Nothing is said.
    pub(crate) fn nothing() -> Said<'a>
        ensures { IsEmpty result }
    {
        Said {
            found: [Begun::Null; NAMES],
        }
    }

    /// How the value of a name begins.
    pub(crate) fn under(&self, name: MemberName) -> Begun<'a>
        ensures { result ≡ under name self.now }
    {
        self.found[name.place()]
    }

    // The value of a name begins so.
    fn set(&mut self, name: MemberName, first: Begun<'a>)
        ensures one { under name self.new ≡ first.entry }
        ensures others { (other : MemberName) → other ≢ name → under other self.new ≡ under other self.old }
    {
        self.found[name.place()] = first;
    }

    /// Notes how the value of a later member begins, if its name is one of the names.
    pub(crate) fn note(&mut self, name: &str, first: Begun<'a>)
        ensures { (found : Members) (d : Data) → IsBegun first.entry d → Says self.old (object found)
            → Says self.new (object (put name.now d found)) }
    {
        match MemberName::of_str(name) {
            Some(name) => self.set(name, first),
            None => {}
        }
    }
}
