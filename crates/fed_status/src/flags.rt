//! Prevent-silent flags.
ghost use Rattle.std.specs.Prelude.{◌≡◌, [], OnOk, OnErr, length, slice_get, option_copied};
ghost use Rattle.fed_status.specs.Flags.{has_flag, with_flag, without_flag, but_flag, HasDistinctFlags};

use fed_io::NoRoom;
use fed_origin::Origin;
use indexmap::IndexSet;
use std::alloc::Global;
use std::marker::Model;

/// The origins at whose pages no account is chosen without the user (Credential Management, 2.3.3, "prevent silent access
/// flag"). Contracts see them as a list in order of setting. That none stands twice is a fact of the type; each call that only
/// looks gives it.
pub struct SilentFlags {
    origins: IndexSet<Origin>,
    alloc: Global,
}

// Written out, so that one function lets it go wherever it ends.
impl Drop for SilentFlags {
    fn drop(self) {
        let SilentFlags {
            origins: _,
            alloc: _,
        } = self;
    }
}

impl Model for SilentFlags {
    ghost use Rattle.std.specs.Prelude.{List};
    ghost use Rattle.fed_origin.specs.declared.origin.Origin.{Origin};
    ghost use Rattle.fed_status.specs.Flags.{HasDistinctFlags};

    ghost Value = { List Origin };

    ghost view = { λ f. f.origins.keys };

    ghost invariant = { λ f. HasDistinctFlags f.origins.keys };
}

impl SilentFlags {
    /// No flag. It takes no memory.
    pub fn new(alloc: Global) -> SilentFlags
        ensures { result ≡ [] }
    {
        SilentFlags {
            origins: IndexSet::new(alloc),
            alloc,
        }
    }

    /// Sets the flag of an origin. One that is there keeps its place, and a new one goes last. On want of memory the flags
    /// are unchanged.
    pub fn set(&mut self, origin: &Origin) -> Result<(), NoRoom>
        ensures ok { OnOk result (self.new ≡ with_flag self.old origin.now) }
        ensures err { OnErr result (self.new ≡ self.old) }

        // The flags of all other origins are as they were, in their order.
        ensures others { but_flag origin.now self.new ≡ but_flag origin.now self.old }
    {
        let origin = origin.copy(self.alloc)?;
        match self.origins.insert(origin) {
            Ok(_) => Ok(()),
            Err(_) => Err(NoRoom),
        }
    }

    /// Clears the flag of an origin; the others keep their order. It takes no memory.
    pub fn clear(&mut self, origin: &Origin)
        ensures value { self.new ≡ without_flag self.old origin.now }

        // The flags of all other origins are as they were, in their order.
        ensures others { but_flag origin.now self.new ≡ but_flag origin.now self.old }
    {
        self.origins.shift_remove(origin);
    }

    /// Whether the flag of an origin is set. It takes no memory.
    pub fn is_set(&self, origin: &Origin) -> bool
        ensures value { result ≡ has_flag self.now origin.now }
        ensures distinct { HasDistinctFlags self.now }
    {
        self.origins.contains(origin)
    }

    /// How many flags are set. It takes no memory.
    pub fn len(&self) -> usize
        ensures value { result ≡ length self.now }
        ensures distinct { HasDistinctFlags self.now }
    {
        self.origins.len()
    }

    /// The origin at place `k` from 0 in order of setting; `None` exactly where `k` is at least `len`. It takes no memory.
    pub fn item(&self, k: usize) -> Option<&Origin>
        ensures value { option_copied result ≡ slice_get self.now k }
        ensures distinct { HasDistinctFlags self.now }
    {
        self.origins.get_index(k)
    }
}
