//! Access parts that many share.
ghost use Rattle.std.specs.Prelude.{⊤, ◌≡◌, [], ◌↔◌, IfOk, IsTrue};

use crate::place_tail::PlaceTail;
use std::alloc::AllocError;
use std::marker::Model;
use std::rc::RcSlice;

/// The access parts of a type, in order (`docs/RULES.md`, "Names of places"). They are kept once,
/// for the type and for each use of it. Contracts see the list of them.
#[derive(Drop)]
pub struct Parts {
    // none where there are none
    tails: Option<RcSlice<PlaceTail>>,
}

impl Model for Parts {
    ghost use Rattle.std.specs.Prelude.{List};
    ghost use Rattle.place_names.specs.declared.selector.Sel.{Sel as Selector};
    ghost use Rattle.place_names.specs.Shared.{shared};

    ghost Value = { List (List Selector) };

    ghost view = { λ parts. shared (λ tails. tails.items.value.items) parts.tails };
}

/// The same parts. It takes no memory; refused are only more owners than a machine counts.
impl Clone for Parts {
    ghost is_clone = { λ parts copy. copy ≡ parts };

    fn clone(&self) -> Result<Parts, AllocError> {
        Ok(Parts {
            tails: self.tails.clone()?,
        })
    }
}

impl Parts {
    /// No part. It takes no memory.
    pub fn none() -> Parts
        ensures { result ≡ [] }
    {
        Parts { tails: None }
    }

    /// The parts of a vector, in order.
    pub fn from_vec(tails: Vec<PlaceTail>) -> Result<Parts, AllocError>
        ensures { IfOk result (λ parts. parts ≡ tails.items) }
    {
        if tails.is_empty() {
            return Ok(Parts::none());
        }
        Ok(Parts {
            tails: Some(RcSlice::from_vec(tails)?),
        })
    }

    /// The parts, borrowed.
    pub fn as_slice(&self) -> &[PlaceTail]
        ensures { result.now ≡ self.now }
    {
        match &self.tails {
            Some(tails) => tails.as_slice(),
            None => &[],
        }
    }

    /// Whether there is no part.
    pub fn is_empty(&self) -> bool
        ensures { IsTrue result ↔ (self.now ≡ []) }
    {
        self.as_slice().is_empty()
    }
}
