//! Steps from any place to a part of it.
ghost use Rattle.std.specs.Prelude.{⊤, ◌≡◌, ◌<◌, ◌≤◌, ◌↔◌, [], ◌∷◌, ◌++◌, length, IsOk, IsErr, OnOk, OnErr};

use crate::place_name::TooDeep;
use crate::selector::Sel;
use arrayvec::ArrayVec;
use std::alloc::AllocError;
use std::marker::Model;

/// At most 16 steps from a place to a part of it, as the access parts of a type are given by
/// (`docs/RULES.md`, "Names of places"). Contracts see the list of them.
#[derive(PartialEq, Eq, Drop)]
pub struct PlaceTail {
    sels: ArrayVec<Sel, 16>,
}

impl Model for PlaceTail {
    ghost use Rattle.std.specs.Prelude.{List};
    ghost use Rattle.place_names.specs.declared.selector.Sel.{Sel as Selector};

    ghost Value = { List Selector };

    ghost view = { λ tail. tail.sels.items };

    ghost inverse = { λ sels. record { sels = record { items = sels } } };
}

/// The same steps. It takes no memory.
impl Clone for PlaceTail {
    ghost is_clone = { λ tail copy. copy ≡ tail };

    ghost is_infallible = { λ tail. ⊤ };

    fn clone(&self) -> Result<PlaceTail, AllocError> {
        Ok(PlaceTail {
            sels: self.sels.clone()?,
        })
    }
}

impl PlaceTail {
    /// No step: the place itself. It takes no memory, and neither does any other call here.
    pub fn new() -> PlaceTail
        ensures { result ≡ [] }
    {
        PlaceTail {
            sels: ArrayVec::new(),
        }
    }

    /// Goes one step further. `TooDeep` comes exactly where 16 selectors are there, and leaves them
    /// as they were.
    pub fn push(&mut self, sel: Sel) -> Result<(), TooDeep>
        ensures room { IsOk result ↔ (length self.old < 16) }
        ensures full { IsErr result ↔ (length self.old ≡ 16) }
        ensures ok { OnOk result (self.new ≡ self.old ++ sel ∷ []) }
        ensures err { OnErr result (self.new ≡ self.old) }
    {
        match self.sels.try_push(sel) {
            Ok(()) => Ok(()),
            Err(_) => Err(TooDeep),
        }
    }

    /// The steps, at most 16.
    pub fn sels(&self) -> &[Sel]
        ensures value { result.now ≡ self.now }
        ensures within { length result.now ≤ 16 }
    {
        self.sels.as_slice()
    }
}
