//! What a call does.
ghost use Rattle.std.specs.Prelude.{◌≡◌, [], ◌∷◌, IfOk};

use super::{Ask, Dialog, Failure, Finish, Why};
use fed_io::{Items, NoRoom, Placed};
use fed_origin::{LoginStatus, Origin, Triple, WebUrl};
use std::alloc::Global;

/// The place of the provider in a call's list of one.
pub const ONLY_PLACE: u32 = 0;

/// What a call does at an event (this profile's own). What is large or rare has a place of its own, since each effect is moved several
/// times.
#[derive(Drop)]
pub enum Effect {
    /// A request to the provider at this place in the call's list.
    Send(u32, Ask),
    /// A dialog is shown.
    Dialog(Placed<Dialog>),
    /// The login window of the provider at this place in the call's list opens at this URL.
    Window(u32, WebUrl),
    /// The login status of a provider's origin is set.
    SetLogin(Origin, LoginStatus),
    /// A permission is kept from now on.
    Keep(Placed<Triple>),
    /// A permission is kept no longer.
    Forget(Placed<Triple>),
    /// No permission for pages of the first origin and the provider of the second is kept any longer.
    ForgetPair(Placed<Origin>, Placed<Origin>),
    /// The prevent-silent flag of a page's origin is cleared.
    ClearFlag(Origin),
    /// The provider at this place in the call's list drops out, since this failed.
    Dropped(u32, Failure),
    /// What the promise of the call gets.
    Finish(Finish),
    /// The event was not taken.
    Ignored(Why),
}

impl Effect {
    /// A dialog is shown.
    pub fn shows(alloc: Global, dialog: Dialog) -> Result<Effect, NoRoom>
        ensures { IfOk result (λ effect. effect ≡ Effect.Dialog dialog) }
    {
        Ok(Effect::Dialog(Placed::new(alloc, dialog)?))
    }

    /// All that a call does, where it does this alone.
    pub fn alone(self, alloc: Global) -> Result<Items<Effect>, NoRoom>
        ensures { IfOk result (λ effects. effects ≡ self ∷ []) }
    {
        Ok(Items::from_vec(Vec::from_array(alloc, [self])?))
    }

    /// All that a call does, where it does this and then the other.
    pub fn then(self, alloc: Global, next: Effect) -> Result<Items<Effect>, NoRoom>
        ensures { IfOk result (λ effects. effects ≡ self ∷ next ∷ []) }
    {
        Ok(Items::from_vec(Vec::from_array(alloc, [self, next])?))
    }
}
