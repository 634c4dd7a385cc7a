//! Types that are made one after the other, each after its parts.
ghost use Rattle.std.specs.Prelude.{◌≡◌, ◌<◌, ℕ, length, replicate, IfOk, IsTrue};
ghost use Rattle.type_table.specs.Sizes.{no_size};
ghost use Rattle.type_settled.specs.Orders.{is_done};
ghost use Rattle.type_sizes.specs.Limits.{AreWithin};
ghost use Rattle.type_sizes.specs.Sizes.{IsSized};

use crate::shapes::shape_size;
use place_names::Parts;
use std::alloc::{AllocError, Global};
use type_definitions::Info;
use type_settled::{Visits, is_done, is_ready};
use type_table::TypeSize;

/// The types that are made so far.
#[derive(Drop)]
pub struct Sizes {
    /// The size of each type that is done.
    pub values: Vec<TypeSize>,
    /// Whether a type is done.
    pub done: Vec<bool>,
    /// How many are done: none is nested deeper.
    pub depth: usize,
}

/// As many types as there are, made of nothing.
fn nothing(alloc: Global, count: usize) -> Result<Vec<TypeSize>, AllocError>
    ensures { IfOk result (λ made. made.items ≡ replicate count no_size) }
{
    let mut made = Vec::new(alloc);
    'types: for _type in 0..count {
        made.push(TypeSize {
            words: 0,
            owning: false,
            parts: Parts::none(),
        })?;
    }
    Ok(made)
}

/// No type is done.
fn begin(alloc: Global, table: &[Info]) -> Result<Sizes, AllocError>
    ensures { IfOk result (λ sizes. IsSized table.now sizes) }
{
    Ok(Sizes {
        values: nothing(alloc, table.len())?,
        done: vec![in alloc; false; table.len()]?,
        depth: 0,
    })
}

impl Sizes {
    /// Makes a type, where its parts are done and it isn't.
    fn settle(&mut self, alloc: Global, table: &[Info], t: usize) -> Result<(), AllocError>
        requires within { t < length table.now }
        requires small { AreWithin table.now }
        requires sized { IsSized table.now self.old }
        ensures { IsSized table.now self.new }
    {
        let info = &table[t];
        if self.done[t] || self.depth >= table.len() || !is_ready(&self.done, info) {
            return Ok(());
        }
        let size = shape_size(alloc, &self.values, &info.shape)?;
        self.values[t] = size;
        self.done[t] = true;
        self.depth += 1;
        Ok(())
    }

    /// Makes the last types as long as their parts were visited.
    fn close(
        &mut self,
        alloc: Global,
        visits: &mut Visits,
        table: &[Info],
    ) -> Result<(), AllocError>
        requires small { AreWithin table.now }
        requires sized { IsSized table.now self.old }
        ensures { IsSized table.now self.new }
    {
        'types: while let Some(t) = visits.leave() {
            if t < table.len() {
                self.settle(alloc, table, t)?;
            }
        }
        Ok(())
    }

    /// Makes a type and, before it, what it is made of.
    fn visit(
        &mut self,
        alloc: Global,
        visits: &mut Visits,
        table: &[Info],
        t: usize,
    ) -> Result<(), AllocError>
        requires small { AreWithin table.now }
        requires sized { IsSized table.now self.old }
        ensures { IsSized table.now self.new }
    {
        visits.enter(t)?;
        'opened: for _turn in 0..table.len() {
            self.close(alloc, visits, table)?;
            if !visits.open(&self.done, table)? {
                return Ok(());
            }
        }
        self.close(alloc, visits, table)
    }

    /// Whether all types are done.
    #[tactic(auto, using(type_settled::proofs::Orders::all_done))]
    pub fn is_whole(&self) -> bool
        ensures { IsTrue result → (t : ℕ) → IsTrue (is_done self.now.done.items t) }
    {
        'types: for done in self.done.as_slice() {
            if !*done {
                return false;
            }
        }
        true
    }
}

/// Makes each type after what it is made of, in time linear in the table and in the parts. Those
/// that have themselves in them are left out, and those that have such types in them.
pub fn made_in_order(alloc: Global, table: &[Info]) -> Result<Sizes, AllocError>
    requires { AreWithin table.now }
    ensures { IfOk result (λ sizes. IsSized table.now sizes) }
{
    let mut sizes = begin(alloc, table)?;
    let mut visits = Visits::new(alloc, table)?;
    'types: for t in 0..table.len() {
        sizes.visit(alloc, &mut visits, table, t)?;
    }
    Ok(sizes)
}
