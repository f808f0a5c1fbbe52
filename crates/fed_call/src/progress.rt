//! How far a provider of a call has come.
ghost use Rattle.std.specs.Prelude.{◌≡◌, ◌<◌, length, option_and_then, slice_get, slice_set};
ghost use Rattle.std.specs.List.{list_all, list_any};
ghost use Rattle.std.specs.Option.{option_copied};
ghost use Rattle.fed_call.specs.Gathering.{all_dropped, failure_of, is_dropped};
ghost use Rattle.fed_call.specs.Progress as spec;

use fed_accounts::Accounts;
use fed_consent::Failure;
use fed_io::Items;
use fed_provider::{FirstReplies, SharedConfig};

/// How far a provider of a call has come.
pub enum Progress {
    /// Its well-known file or its configuration is awaited.
    Reading(FirstReplies),
    /// Its accounts are awaited.
    Listing(SharedConfig),
    /// These accounts of it fit the hints of the call.
    Listed(SharedConfig, Accounts),
    /// It dropped out.
    Dropped(Failure),
}

// Written out, so that one function lets it go wherever it ends.
impl Drop for Progress {
    fn drop(self) {
        match self {
            Progress::Reading(_)
            | Progress::Listing(_)
            | Progress::Listed(_, _)
            | Progress::Dropped(_) => {}
        }
    }
}

impl Progress {
    ghost use Rattle.std.specs.Prelude.{◌≡◌};
    ghost use Rattle.fed_call.specs.Gathering.{failure_of, is_dropped, listed_of};
    ghost use Rattle.fed_call.specs.Progress as spec;

    /// Whether its accounts are not there yet, and it is not dropped.
    pub fn is_awaited(&self) -> bool
        ensures { result ≡ spec.is_awaited self.now }
    {
        match self {
            Progress::Reading(_) | Progress::Listing(_) => true,
            Progress::Listed(_, _) | Progress::Dropped(_) => false,
        }
    }

    /// Whether it dropped out.
    pub fn is_dropped(&self) -> bool
        ensures { result ≡ is_dropped self.now }
    {
        match self {
            Progress::Dropped(_) => true,
            Progress::Reading(_) | Progress::Listing(_) | Progress::Listed(_, _) => false,
        }
    }

    /// How it dropped out, if it did.
    pub fn failure(&self) -> Option<Failure>
        ensures { result ≡ failure_of self.now }
    {
        match self {
            Progress::Dropped(failure) => Some(*failure),
            Progress::Reading(_) | Progress::Listing(_) | Progress::Listed(_, _) => None,
        }
    }

    /// Its configuration and its accounts, if these are there.
    pub fn into_listed(self) -> Option<(SharedConfig, Accounts)>
        ensures { result ≡ listed_of self }
    {
        match self {
            Progress::Listed(config, accounts) => Some((config, accounts)),
            Progress::Reading(_) | Progress::Listing(_) | Progress::Dropped(_) => None,
        }
    }
}

/// Whether one of these is awaited.
pub fn awaits(progress: &[Progress]) -> bool
    ensures { result ≡ list_any spec.is_awaited progress.now }
{
    progress.iter().any(|progress| progress.is_awaited())
}

/// How the first dropped out, where all did.
pub fn all_dropped(progress: &[Progress]) -> Option<Failure>
    ensures { result ≡ all_dropped progress.now }
{
    if are_dropped(progress) {
        first_failure(progress)
    } else {
        None
    }
}

// Whether all of these dropped out.
fn are_dropped(progress: &[Progress]) -> bool
    ensures { result ≡ list_all is_dropped progress.now }
{
    progress.iter().all(|progress| progress.is_dropped())
}

// How the first of these dropped out, if it did.
fn first_failure(progress: &[Progress]) -> Option<Failure>
    ensures { result ≡ option_and_then failure_of (slice_get progress.now 0) }
{
    match progress.first() {
        Some(first) => first.failure(),
        None => None,
    }
}

/// How far the provider at this place has come.
pub fn progress_at(progress: &[Progress], place: u32) -> Option<&Progress>
    ensures { option_copied result ≡ slice_get progress.now place }
{
    progress.get(place as usize)
}

/// The same providers, of which the one at this place has come so far.
pub fn with_progress(all: Items<Progress>, place: usize, progress: Progress) -> Items<Progress>
    requires { place < length all }
    ensures { result ≡ slice_set all place progress }
{
    let mut list = all.into_vec();
    list[place] = progress;
    Items::from_vec(list)
}
