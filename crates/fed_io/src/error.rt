//! Want of memory, and other refusals.
ghost use Rattle.std.specs.Prelude.{◌≡◌};

use std::alloc::{AllocError, AllocFailed};

/// There was no memory. It is merged with no other refusal.
#[derive(Clone, Copy, Debug, PartialEq, Eq)]
pub struct NoRoom;

/// A source or a sink failed.
#[derive(Clone, Copy, Debug, PartialEq, Eq)]
pub struct Failed;

/// The refusal of a step, or want of memory.
#[derive(Clone, Copy, Debug, PartialEq, Eq)]
pub enum Fault<S> {
    Step(S),
    NoRoom,
}

impl From<AllocError> for NoRoom {
    fn from(_: AllocError) -> NoRoom {
        NoRoom
    }
}

impl<T: Drop> From<AllocFailed<T>> for NoRoom {
    fn from(_: AllocFailed<T>) -> NoRoom {
        NoRoom
    }
}

impl<S> From<AllocError> for Fault<S> {
    ghost use Rattle.fed_io.specs.declared.error.Fault.TheVariants.{NoRoom};

    ghost from_gives = { λ _ e. e ≡ NoRoom };

    fn from(_: AllocError) -> Fault<S> {
        Fault::NoRoom
    }
}

impl<S> From<NoRoom> for Fault<S> {
    ghost use Rattle.fed_io.specs.declared.error.Fault.TheVariants.{NoRoom};

    ghost from_gives = { λ _ e. e ≡ NoRoom };

    fn from(_: NoRoom) -> Fault<S> {
        Fault::NoRoom
    }
}

impl<S, T: Drop> From<AllocFailed<T>> for Fault<S> {
    ghost use Rattle.fed_io.specs.declared.error.Fault.TheVariants.{NoRoom};

    ghost from_gives = { λ _ e. e ≡ NoRoom };

    fn from(_: AllocFailed<T>) -> Fault<S> {
        Fault::NoRoom
    }
}
