//! A value that its copies share.
ghost use Rattle.std.specs.Prelude.{◌≡◌, IfOk};

use crate::NoRoom;
use std::alloc::Global;
use std::marker::Model;
use std::rc::Rc;

/// A value that its copies share, so that one takes no memory. Contracts see the value.
pub struct SharedValue<T> {
    inner: Rc<T>,
}

// Written out, so that one function lets it go wherever it ends.
impl<T: Drop> Drop for SharedValue<T> {
    fn drop(self) {
        let SharedValue { inner: _ } = self;
    }
}

impl<T> Model for SharedValue<T> {
    ghost Value = { T };

    ghost view = { λ s. s.inner.value };
}

impl<T: Drop> SharedValue<T> {
    /// The value, to be shared.
    pub fn new(alloc: Global, value: T) -> Result<SharedValue<T>, NoRoom>
        ensures { IfOk result (λ shared. shared ≡ value) }
    {
        Ok(SharedValue {
            inner: Rc::new(alloc, value)?,
        })
    }

    /// The same value. It takes no memory.
    pub fn copy(&self) -> Result<SharedValue<T>, NoRoom>
        ensures { IfOk result (λ copy. copy ≡ self.now) }
    {
        Ok(SharedValue {
            inner: self.inner.clone()?,
        })
    }
}

impl<T> SharedValue<T> {
    /// The value.
    pub fn get(&self) -> &T
        ensures { result.now ≡ self.now }
    {
        &self.inner
    }
}
