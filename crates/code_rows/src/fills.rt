//! Values in rows.
ghost use Rattle.std.specs.Prelude.{◌≡◌, ◌<◌, [], IfSome, IsTrue, length};
ghost use Rattle.code_rows.specs.Rows.{code_at};
ghost use Rattle.code_rows.specs.Values.{is_fill_below, is_within, fill_of, fill_at, are_within, AllGrew, HoldsFill};

use crate::fill::Fill;
use crate::nodes::Nodes;
use std::alloc::Global;
use std::marker::Model;

/// Values, each by its number. Contracts see their parts.
pub struct Fills {
    fills: Vec<Fill>,
}

impl Model for Fills {
    ghost use Rattle.std.specs.Prelude.{List, IsTrue};
    ghost use Rattle.code_rows.specs.declared.fill.Fill.{Fill};
    ghost use Rattle.code_rows.specs.Values.{are_in_order};

    ghost Value = { List Fill };

    ghost view = { λ rows. rows.fills.items };

    ghost invariant = { λ rows. IsTrue (are_in_order rows.fills.items) };
}

impl Drop for Fills {
    fn drop(self) {
        let Self { fills: _ } = self;
    }
}

impl Fills {
    /// No values.
    pub fn new(alloc: Global) -> Fills
        ensures { result ≡ [] }
    {
        Fills {
            fills: Vec::new(alloc),
        }
    }

    /// How many values there are.
    pub fn len(&self) -> usize
        ensures { result ≡ length self.now }
    {
        self.fills.len()
    }

    /// The value with this number, over the nodes that are there.
    pub fn fill(&self, i: u32, nodes: &Nodes) -> Fill
        requires within { IsTrue (are_within nodes.now self.now) }
        requires there { i < length self.now }
        ensures value { fill_at nodes.now self.now i ≡ fill_of (code_at nodes.now) (fill_at nodes.now self.now) result }
        ensures below { IsTrue (is_fill_below i result) }
        ensures within { IsTrue (is_within (length nodes.now) result) }
    {
        self.fills[i as usize]
    }

    /// Adds a value that is made of nodes and values that are there, and gives its number: none where
    /// there are too many, or too little memory. What was there stays.
    #[tactic(auto, using(crate::proofs::Filled::order_fill, crate::proofs::Filled::within_fill, crate::proofs::Filled::grew_fill, crate::proofs::Filled::last_fill, crate::proofs::Filled::fills_none))]
    pub fn push(&mut self, fill: Fill, nodes: &Nodes) -> Option<u32>
        requires all { IsTrue (are_within nodes.now self.old) }
        requires below { IsTrue (is_fill_below (length self.old) fill) }
        requires within { IsTrue (is_within (length nodes.now) fill) }
        ensures value { IfSome result (λ n. HoldsFill nodes.now self.new n (fill_of (code_at nodes.now) (fill_at nodes.now self.old) fill)) }
        ensures grew { AllGrew nodes.now self.old nodes.now self.new }
        ensures within { IsTrue (are_within nodes.now self.new) }
    {
        let number = u32::try_from(self.fills.len()).ok()?;
        self.fills.push(fill).ok()?;
        Some(number)
    }
}
