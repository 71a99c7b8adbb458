//! A value in a place of its own.
ghost use Rattle.std.specs.Prelude.{◌≡◌, IfOk};

use crate::duplicate::Duplicate;
use crate::memory::Memory;
use std::alloc::Global;
use std::marker::Model;

/// A value in a place of its own, so that what may hold one stays small. Contracts see the value.
#[derive(Drop)]
pub struct Boxed<T> {
    place: Box<T>,
}

impl<T> Model for Boxed<T> {
    ghost Value = { T };

    ghost view = { λ b. b.place.value };
}

impl<T> Boxed<T> {
    /// Lends the value.
    pub fn value(&self) -> &T
        ensures { result.now ≡ self.now }
    {
        &self.place
    }

    /// Takes the value out of its place.
    pub fn into_value(self) -> T
        ensures { result ≡ self }
    {
        Box::into_inner(self.place)
    }
}

impl<T: Drop> Boxed<T> {
    /// Puts the value into a place.
    pub fn new(alloc: Global, value: T) -> Result<Boxed<T>, Memory>
        ensures { IfOk result (λ made. made ≡ value) }
    {
        Ok(Boxed {
            place: Box::new(alloc, value)?,
        })
    }
}

impl<T: Duplicate> Duplicate for Boxed<T> {
    fn duplicate(&self, alloc: Global) -> Result<Boxed<T>, Memory> {
        let copy = self.value().duplicate(alloc)?;
        Boxed::new(alloc, copy)
    }
}
