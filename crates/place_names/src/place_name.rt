//! Names of places: an object, and the steps from it to a part of it.
ghost use Rattle.std.specs.Prelude.{⊤, ◌≡◌, ◌<◌, ◌≤◌, ◌↔◌, [], ◌∷◌, ◌++◌, length, IsOk, IsErr, OnOk, OnErr};
ghost use Rattle.place_names.specs.Names.{Name, object, extend, is_prefix, overlaps, covers};

use crate::selector::{Sel, agree_along, begins, has_elem};
use arrayvec::ArrayVec;
use std::alloc::AllocError;
use std::marker::Model;
use thiserror::Error;

/// The name has 16 selectors, the most that a name may have, so that a 17th isn't taken.
#[derive(Clone, Copy, Debug, PartialEq, Eq, Error)]
#[error("a name has more than 16 selectors")]
pub struct TooDeep;

/// The name of a place: an object by its number, and at most 16 steps from it to a part of it
/// (`docs/RULES.md`, "Names of places"). Contracts see it as a `Name`.
#[derive(PartialEq, Eq, Drop)]
pub struct PlaceName {
    root: u32,
    sels: ArrayVec<Sel, 16>,
}

impl Model for PlaceName {
    ghost use Rattle.place_names.specs.Names.{Name};

    ghost Value = { Name };

    ghost view = { λ place. record { root = place.root; sels = place.sels.items } };

    ghost inverse = { λ name. record { root = name.root; sels = record { items = name.sels } } };
}

/// The same name. It takes no memory.
impl Clone for PlaceName {
    ghost is_clone = { λ name copy. copy ≡ name };

    ghost is_infallible = { λ name. ⊤ };

    fn clone(&self) -> Result<PlaceName, AllocError> {
        Ok(PlaceName {
            root: self.root,
            sels: self.sels.clone()?,
        })
    }
}

impl PlaceName {
    /// The name of an object itself. It takes no memory, and neither does any other call here.
    pub fn new(root: u32) -> PlaceName
        ensures { result ≡ object root }
    {
        PlaceName {
            root,
            sels: ArrayVec::new(),
        }
    }

    /// Goes one step further. `TooDeep` comes exactly where 16 selectors are there, and leaves the
    /// name as it was.
    pub fn push(&mut self, sel: Sel) -> Result<(), TooDeep>
        ensures room { IsOk result ↔ (length self.old.sels < 16) }
        ensures full { IsErr result ↔ (length self.old.sels ≡ 16) }
        ensures ok { OnOk result (self.new ≡ extend self.old (sel ∷ [])) }
        ensures err { OnErr result (self.new ≡ self.old) }
    {
        match self.sels.try_push(sel) {
            Ok(()) => Ok(()),
            Err(_) => Err(TooDeep),
        }
    }

    /// The number of the object.
    pub fn root(&self) -> u32
        ensures { result ≡ self.now.root }
    {
        self.root
    }

    /// The steps from the object, at most 16.
    pub fn sels(&self) -> &[Sel]
        ensures value { result.now ≡ self.now.sels }
        ensures within { length result.now ≤ 16 }
    {
        self.sels.as_slice()
    }

    /// Whether this name is a prefix of the other, as it is of itself.
    pub fn is_prefix(&self, other: &PlaceName) -> bool
        ensures { result ≡ is_prefix self.now other.now }
    {
        self.root == other.root && begins(&self.sels, &other.sels)
    }

    /// Whether the two names overlap, so that one of the places may be the other or a part of it.
    pub fn overlaps(&self, other: &PlaceName) -> bool
        ensures { result ≡ overlaps self.now other.now }
    {
        self.root == other.root && agree_along(&self.sels, &other.sels)
    }

    /// Whether this name covers the other: a prefix of it without an `Elem`, which may be that of
    /// another element.
    pub fn covers(&self, other: &PlaceName) -> bool
        ensures { result ≡ covers self.now other.now }
    {
        self.is_prefix(other) && !has_elem(&self.sels)
    }
}
