//! The providers that a line names.
ghost use Rattle.std.specs.Prelude.{◌≡◌, [], ◌∷◌, map, Some, Ok, OnOk};
ghost use Rattle.std.specs.Result.{result_map_both};
ghost use Rattle.fed_script.specs.Entries.{no_entries, bad_entries, with_members};
ghost use Rattle.fed_script.specs.Entries.{all_said, entry_seen, entries_seen};
ghost use Rattle.fed_script.specs.Get.{provider_seen};

use crate::cause::{LineCause, MemberName};
use crate::get::ProviderMembers;
use fed_io::NoRoom;
use std::alloc::Global;

// How many providers a line may name.
const MOST: u32 = 10;

/// The providers that a line names, by the entries of `providers`. One takes no memory.
#[derive(Drop)]
pub(crate) struct SaidProviders<'a> {
    // How many more entries there may be.
    room: u32,
    // The members of the first entry, or the first cause for which the entries are refused.
    first: Result<Option<ProviderMembers<'a>>, LineCause>,
    // Those of the others.
    further: Vec<ProviderMembers<'a>>,
}

impl<'a> SaidProviders<'a> {
    /// There is no entry.
    pub(crate) fn none(alloc: Global) -> SaidProviders<'a>
        ensures { entries_seen result ≡ no_entries }
    {
        SaidProviders {
            room: MOST,
            first: Ok(None),
            further: Vec::new(alloc),
        }
    }

    /// There is no entry, whatever there was before.
    pub(crate) fn clear(&mut self)
        ensures { entries_seen self.new ≡ no_entries }
    {
        self.room = MOST;
        self.first = Ok(None);
    }

    /// There is an entry that is no object, or one too many.
    pub(crate) fn refuse(&mut self)
        ensures { entries_seen self.new ≡ bad_entries }
    {
        self.room = 0;
        self.first = Err(LineCause::Member(MemberName::Providers));
    }

    /// There is a further entry, with these members.
    pub(crate) fn add(
        &mut self,
        entry: Result<ProviderMembers<'a>, LineCause>,
    ) -> Result<(), NoRoom>
        ensures { OnOk result (entries_seen self.new ≡ with_members (entry_seen entry.entry) (entries_seen self.old)) }
    {
        if self.room == 0 {
            self.refuse();
            return Ok(());
        }
        self.room -= 1;
        match (self.first, entry) {
            (Ok(None), Ok(one)) => self.begin_with(one),
            (Ok(Some(_)), Ok(one)) => self.further.push(one)?,
            (Ok(_), Err(cause)) => self.first = Err(cause),
            (Err(_), _) => {}
        }
        Ok(())
    }

    // The first entry has these members. What an earlier list named goes.
    fn begin_with(&mut self, one: ProviderMembers<'a>)
        ensures room { self.new.room ≡ self.old.room }
        ensures first { self.new.first ≡ Ok (Some one.entry) }
        ensures further { self.new.further.items ≡ [] }
    {
        self.first = Ok(Some(one));
        self.further.clear();
    }

    /// The members of the first entry and those of the others; the first cause for which they are refused.
    pub(crate) fn members(&self) -> Result<(ProviderMembers<'a>, &[ProviderMembers<'a>]), LineCause>
        ensures { result_map_both (λ m. provider_seen m.0 ∷ map provider_seen m.1.now) (λ e. e) result
            ≡ all_said (entries_seen self.now) }
    {
        match self.first {
            Ok(Some(one)) => Ok((one, self.further.as_slice())),
            Ok(None) => Err(LineCause::Member(MemberName::Providers)),
            Err(cause) => Err(cause),
        }
    }
}
