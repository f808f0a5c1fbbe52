//! The origins that two scripts name, each known by a number.
ghost use Rattle.std.specs.Prelude.{◌≡◌, IfOk};
ghost use Rattle.std.specs.List.{position_or_len};
ghost use Rattle.indexmap.specs.IndexSet.{insert_key};
ghost use Rattle.fed_origin.specs.Origin.{same_origin};
ghost use Rattle.fed_twin.specs.Names.{names_of};
ghost use Rattle.fed_twin.specs.Origins.{nobody, and_named, have_one_number};

use fed_io::NoRoom;
use fed_origin::Origin;
use indexmap::IndexSet;
use std::alloc::Global;

/// The origins that each of two scripts named so far, in the order of their first naming.
#[derive(Drop)]
pub struct Names {
    first: IndexSet<Origin>,
    second: IndexSet<Origin>,
}

impl Names {
    /// None yet. It takes no memory.
    pub fn new(alloc: Global) -> Names
        ensures { names_of result ≡ nobody }
    {
        Names {
            first: IndexSet::new(alloc),
            second: IndexSet::new(alloc),
        }
    }

    /// Two events name these origins. Whether the two have one number, which a new origin gets.
    pub fn take(&mut self, first: Origin, second: Origin) -> Result<bool, NoRoom>
        ensures answer { IfOk result (λ one. one ≡ have_one_number (names_of self.old) (first, second)) }
        ensures value { IfOk result (λ one. names_of self.new ≡ and_named (names_of self.old) (first, second)) }
    {
        let one = enter(&mut self.first, first)?;
        let other = enter(&mut self.second, second)?;
        Ok(one == other)
    }
}

// The number of an origin, which is its own or the next.
fn enter(names: &mut IndexSet<Origin>, origin: Origin) -> Result<usize, NoRoom>
    ensures number { IfOk result (λ n. n ≡ position_or_len (same_origin origin) names.old.keys) }
    ensures keys { IfOk result (λ n. names.new.keys ≡ insert_key same_origin names.old.keys origin) }
{
    match names.insert_full(origin) {
        Ok((number, _)) => Ok(number),
        Err(_) => Err(NoRoom),
    }
}
