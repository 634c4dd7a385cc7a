//! The numbers of declarations that are counted.
ghost use Rattle.std.specs.Prelude.{◌≡◌, ◌+◌, IfOk, nat_eq};
ghost use Rattle.std.specs.List.{position_or_len};
ghost use Rattle.typed_expressions.specs.Numbers.{Counts};

use indexmap::IndexMap;
use std::alloc::{AllocError, Global};
use std::marker::Model;

/// Declarations in some order, whose places in it can be looked up. Contracts see the list of them.
#[derive(Drop)]
pub struct Numbering {
    order: Vec<u32>,
    // Each place counts from 1 on.
    places: IndexMap<u32, u32>,
}

impl Model for Numbering {
    ghost use Rattle.std.specs.Prelude.{List, ℕ, ◌<◌, length};

    ghost Value = { List ℕ };

    ghost use Rattle.typed_expressions.specs.Numbers.{Counts, MANY};

    ghost view = { λ numbering. numbering.order.items };

    ghost invariant = { λ numbering.
        Counts numbering.places.entries 1 numbering.order.items × (length numbering.order.items < MANY) };
}

/// The places of declarations, from 1 on: the first one counts.
fn places(alloc: Global, order: &[u32]) -> Result<IndexMap<u32, u32>, AllocError>
    ensures { IfOk result (λ made. Counts made.entries 1 order.now) }
{
    let mut made = IndexMap::new(alloc);
    let mut left = order.len();
    'turns: while left > 0 {
        let Ok(place) = u32::try_from(left) else {
            return Err(AllocError);
        };
        left -= 1;
        made.insert(order[left], place)?;
    }
    Ok(made)
}

impl Numbering {
    /// The numbering of declarations in this order.
    pub fn new(alloc: Global, order: Vec<u32>) -> Result<Numbering, AllocError>
        ensures { IfOk result (λ made. made ≡ order.items) }
    {
        if order.len() >= 4_294_967_295 {
            return Err(AllocError);
        }
        let places = places(alloc, &order)?;
        Ok(Numbering { order, places })
    }

    /// The number of a declaration: how many stand in front of it, and one more.
    #[tactic(auto, using(crate::proofs::Numbers::place_is))]
    pub fn number(&self, d: u32) -> u32
        ensures { result ≡ position_or_len (nat_eq d) self.now + 1 }
    {
        match self.places.get(&d) {
            Some(place) => *place,
            None => self.order.len() as u32 + 1,
        }
    }
}
