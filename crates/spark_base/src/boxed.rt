//! A box that contracts see as what it holds.
ghost use Rattle.std.specs.Prelude.{◌≡◌, IfOk};

use std::alloc::{AllocError, Global};
use std::marker::Model;

/// A `Box` that contracts see as its value, so that a tree of such boxes is plain data.
#[derive(Drop)]
pub struct Boxed<T> {
    holds: Box<T>,
}

impl<T> Model for Boxed<T> {
    ghost Value = { T };

    ghost coded = { T.code };

    ghost view = { λ boxed. boxed.holds.value };
}

impl<T> Boxed<T> {
    /// Gives the box back.
    pub fn into_box(self) -> Box<T>
        ensures { result.value ≡ self }
    {
        let Boxed { holds } = self;
        holds
    }

    /// The value, borrowed.
    pub fn get(&self) -> &T
        ensures { result.now ≡ self.now }
    {
        &self.holds
    }
}

impl<T: Drop> Boxed<T> {
    /// Puts a value into a box of its own.
    pub fn new(alloc: Global, value: T) -> Result<Boxed<T>, AllocError>
        ensures { IfOk result (λ boxed. boxed ≡ value) }
    {
        Ok(Boxed {
            holds: Box::new(alloc, value)?,
        })
    }
}
