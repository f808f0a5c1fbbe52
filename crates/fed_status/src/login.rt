//! Login statuses.
ghost use Rattle.std.specs.Prelude.{◌≡◌, [], true, OnOk, OnErr, length, slice_get, option_map};
ghost use Rattle.fed_origin.specs.Status.{is_known};
ghost use Rattle.fed_status.specs.Login.{status_of, with_status, but_origin, HasDistinctOrigins};

use fed_io::NoRoom;
use fed_origin::{LoginStatus, Origin};
use indexmap::IndexMap;
use std::alloc::Global;
use std::marker::Model;

/// The login statuses that were set (Login Status API, "login status map"). Contracts see them as a list of origins with
/// their statuses in order of entering. That no origin stands twice is a fact of the type; each call that only looks gives it.
pub struct LoginMap {
    statuses: IndexMap<Origin, LoginStatus>,
    alloc: Global,
}

// Written out, so that one function lets it go wherever it ends.
impl Drop for LoginMap {
    fn drop(self) {
        let LoginMap {
            statuses: _,
            alloc: _,
        } = self;
    }
}

impl Model for LoginMap {
    ghost use Rattle.fed_status.specs.Login.{Logins, HasDistinctOrigins};

    ghost Value = { Logins };

    ghost view = { λ m. m.statuses.entries };

    ghost invariant = { λ m. HasDistinctOrigins m.statuses.entries };
}

impl LoginMap {
    /// No status. It takes no memory.
    pub fn new(alloc: Global) -> LoginMap
        ensures { result ≡ [] }
    {
        LoginMap {
            statuses: IndexMap::new(alloc),
            alloc,
        }
    }

    /// The status of an origin, unknown where it was never set. It takes no memory.
    pub fn get(&self, origin: &Origin) -> LoginStatus
        ensures value { result ≡ status_of self.now origin.now }
        ensures distinct { HasDistinctOrigins self.now }
    {
        self.statuses
            .get(origin)
            .copied()
            .unwrap_or(LoginStatus::Unknown)
    }

    /// Sets the status of an origin, which must be known. An origin that is there keeps its place, and a new one goes last.
    /// On want of memory the statuses are unchanged.
    pub fn set(&mut self, origin: &Origin, status: LoginStatus) -> Result<(), NoRoom>
        requires known { is_known status ≡ true }
        ensures ok { OnOk result (self.new ≡ with_status self.old origin.now status) }
        ensures err { OnErr result (self.new ≡ self.old) }

        // The statuses of all other origins are as they were, in their order.
        ensures others { but_origin origin.now self.new ≡ but_origin origin.now self.old }
    {
        self.put(origin, status)
    }

    fn put(&mut self, origin: &Origin, status: LoginStatus) -> Result<(), NoRoom>
        ensures ok { OnOk result (self.new ≡ with_status self.old origin.now status) }
        ensures err { OnErr result (self.new ≡ self.old) }
    {
        let origin = origin.copy(self.alloc)?;
        match self.statuses.insert(origin, status) {
            Ok(_) => Ok(()),
            Err(_) => Err(NoRoom),
        }
    }

    /// How many origins have a status. It takes no memory.
    pub fn len(&self) -> usize
        ensures value { result ≡ length self.now }
        ensures distinct { HasDistinctOrigins self.now }
    {
        self.statuses.len()
    }

    /// The origin at place `k` from 0 in order of entering, with its status; `None` exactly where `k` is at least `len`. It
    /// takes no memory.
    pub fn item(&self, k: usize) -> Option<(&Origin, LoginStatus)>
        ensures value { option_map (λ e. (e.0.now, e.1)) result ≡ slice_get self.now k }
        ensures distinct { HasDistinctOrigins self.now }
    {
        match self.statuses.get_index(k) {
            Some((origin, status)) => Some((origin, *status)),
            None => None,
        }
    }
}
