//! The origins in kept permissions, each known by a number.
ghost use Rattle.std.specs.Prelude.{◌≡◌, [], Some, IfOk, position};
ghost use Rattle.fed_origin.specs.Origin.{same_origin};
ghost use Rattle.fed_status.specs.Names as spec;
ghost use Rattle.fed_status.specs.Names.{Grows, KeepsNumbers, origin_number, pair_of};

use fed_io::NoRoom;
use fed_origin::Origin;
use indexmap::IndexSet;
use std::alloc::Global;

/// The numbers of a page's origin and a provider's. 32 bits hold each, since no set has room for more names.
#[derive(Clone, Copy, Eq, Hash)]
pub struct Pair {
    pub page: u32,
    pub provider: u32,
}

impl PartialEq for Pair {
    ghost use Rattle.fed_status.specs.Names.{same_pair};
    ghost use Rattle.std.proofs.Common.{rules};
    ghost use Rattle.std.specs.Cmp.Rules.{comparing};

    ghost eq = { same_pair };

    ghost laws = { Prim.search (comparing, rules) };

    fn eq(&self, other: &Pair) -> bool {
        self.page == other.page && self.provider == other.provider
    }
}

/// The origins that permissions ever named. Each is known by its place here.
#[derive(Drop)]
pub struct Names {
    pub origins: IndexSet<Origin>,
}

impl Names {
    pub fn new(alloc: Global) -> Names
        ensures { result.origins.keys ≡ [] }
    {
        Names {
            origins: IndexSet::new(alloc),
        }
    }

    // The number of an origin, where it was ever named.
    fn origin(&self, origin: &Origin) -> Option<u32>
        ensures { result ≡ origin_number self.now origin.now }
    {
        small(self.origins.get_index_of(origin)?)
    }

    /// The numbers of a page's origin and a provider's, where each was ever named.
    pub fn pair(&self, page: &Origin, provider: &Origin) -> Option<Pair>
        ensures { result ≡ pair_of self.now page.now provider.now }
    {
        let page = self.origin(page)?;
        let provider = self.origin(provider)?;
        Some(Pair { page, provider })
    }

    /// The numbers of a page's origin and a provider's, which from now on have them.
    pub fn enter(&mut self, alloc: Global, page: &Origin, provider: &Origin) -> Result<Pair, NoRoom>
        ensures pair { IfOk result (λ pair. pair_of self.new page.now provider.now ≡ Some pair) }
        ensures grows { Grows self.old self.new }
    {
        let page = enter_origin(&mut self.origins, alloc, page)?;
        let provider = enter_origin(&mut self.origins, alloc, provider)?;
        Ok(Pair {
            page: small(page).ok_or(NoRoom)?,
            provider: small(provider).ok_or(NoRoom)?,
        })
    }
}

// The number of an origin, which from now on has it.
fn enter_origin(
    origins: &mut IndexSet<Origin>,
    alloc: Global,
    origin: &Origin,
) -> Result<usize, NoRoom>
    ensures number { IfOk result (λ number. position (same_origin origin.now) origins.new.keys ≡ Some number) }
    ensures kept { KeepsNumbers same_origin origins.old.keys origins.new.keys }
{
    if let Some(number) = origins.get_index_of(origin) {
        return Ok(number);
    }
    let (number, _) = origins.insert_full(origin.copy(alloc)?)?;
    Ok(number)
}

// A number in 32 bits, where they hold it.
fn small(number: usize) -> Option<u32>
    ensures { result ≡ spec.small number }
{
    u32::try_from(number).ok()
}
