//! A value in a place of its own.
ghost use Rattle.std.specs.Prelude.{◌≡◌, IfOk, option_copied};

use crate::{NoRoom, Text};
use std::alloc::Global;
use std::marker::Model;

/// A value in a place of its own, so that what has it among its forms, and is handed on often, stays small. Contracts see the value.
#[derive(Drop)]
pub struct Placed<T> {
    inner: Box<T>,
}

impl<T> Model for Placed<T> {
    ghost Value = { T };

    ghost view = { λ p. p.inner.value };
}

impl<T: Drop> Placed<T> {
    /// The value in a place of its own.
    pub fn new(alloc: Global, value: T) -> Result<Placed<T>, NoRoom>
        ensures { IfOk result (λ placed. placed ≡ value) }
    {
        Ok(Placed {
            inner: Box::new(alloc, value)?,
        })
    }
}

impl<T> Placed<T> {
    /// The value.
    pub fn get(&self) -> &T
        ensures { result.now ≡ self.now }
    {
        &self.inner
    }

    /// The value, out of its place.
    pub fn open(self) -> T
        ensures { result ≡ self }
    {
        let Placed { inner } = self;
        Box::into_inner(inner)
    }
}

/// A copy of the text, where there is one, in a place of its own.
pub fn placed_text(alloc: Global, text: Option<&str>) -> Result<Option<Placed<Text>>, NoRoom>
    ensures { IfOk result (λ copy. copy ≡ option_copied text.entry) }
{
    match text {
        Some(text) => Ok(Some(Placed::new(alloc, Text::of(alloc, text)?)?)),
        None => Ok(None),
    }
}

/// The same text, where there is one.
pub fn copy_placed(
    alloc: Global,
    text: &Option<Placed<Text>>,
) -> Result<Option<Placed<Text>>, NoRoom>
    ensures { IfOk result (λ copy. copy ≡ text.now) }
{
    match text {
        Some(text) => Ok(Some(Placed::new(alloc, text.get().copy(alloc)?)?)),
        None => Ok(None),
    }
}

/// The text, where there is one.
pub fn lent_text(text: &Option<Placed<Text>>) -> Option<&Text>
    ensures { option_copied result ≡ text.now }
{
    match text {
        Some(text) => Some(text.get()),
        None => None,
    }
}
