//! Types measured one after the other, each after its parts.
ghost use Rattle.std.specs.Prelude.{◌≡◌, ◌<◌, ℕ, length, IfOk, IsTrue};
ghost use Rattle.type_settled.specs.Measures.{marked};
ghost use Rattle.type_settled.specs.Orders.{is_done, all_ready, shape_ready, parent_ready, is_ready, IsOrdered};

use crate::measure::{Measure, info_measure};
use std::alloc::{AllocError, Global};
use type_definitions::{Component, Info, Shape};

/// The types that are measured so far.
#[derive(Drop)]
pub struct Order {
    /// The measure of each type that is done.
    pub values: Vec<Measure>,
    /// Whether a type is done.
    pub done: Vec<bool>,
    /// How many are done: none is nested deeper.
    pub depth: usize,
}

/// Whether a type is done. One beyond the table has no parts.
pub fn is_done(done: &[bool], t: usize) -> bool
    ensures { result ≡ is_done done.now t }
{
    match done.get(t) {
        Some(is_done) => *is_done,
        None => true,
    }
}

/// Whether the types of all components are done.
fn all_ready(done: &[bool], components: &[Component]) -> bool
    ensures { result ≡ all_ready (is_done done.now) components.now }
{
    'components: for component in components {
        if !is_done(done, component.of as usize) {
            return false;
        }
    }
    true
}

/// Whether the types that this definition is made of are done.
fn shape_ready(done: &[bool], shape: &Shape) -> bool
    ensures { result ≡ shape_ready (is_done done.now) shape.now }
{
    match shape {
        Shape::Fields { components } => all_ready(done, components.as_slice()),
        Shape::Elements { element, .. } => is_done(done, *element as usize),
        Shape::Same { of } => is_done(done, *of as usize),
        Shape::Whole { .. } | Shape::Listed { .. } | Shape::Access { .. } => true,
    }
}

/// Whether the type in a mark is done.
fn parent_ready(done: &[bool], parent: Option<u32>) -> bool
    ensures { result ≡ parent_ready (is_done done.now) parent }
{
    match parent {
        Some(t) => is_done(done, t as usize),
        None => true,
    }
}

/// Whether all that a type is made of is done.
pub fn is_ready(done: &[bool], info: &Info) -> bool
    ensures { result ≡ is_ready (is_done done.now) info.now }
{
    shape_ready(done, &info.shape) && parent_ready(done, info.parent)
}

/// No type is done.
pub fn begin(alloc: Global, table: &[Info], unsound: &[bool]) -> Result<Order, AllocError>
    ensures { IfOk result (λ order. IsOrdered (marked unsound.now) table.now order) }
{
    Ok(Order {
        values: vec![in alloc; Measure::nothing(); table.len()]?,
        done: vec![in alloc; false; table.len()]?,
        depth: 0,
    })
}

/// Measures a type, where its parts are done and it isn't.
pub fn settle(order: &mut Order, table: &[Info], unsound: &[bool], t: usize)
    requires within { t < length table.now }
    requires ordered { IsOrdered (marked unsound.now) table.now order.old }
    ensures { IsOrdered (marked unsound.now) table.now order.new }
{
    let info = &table[t];
    if is_done(&order.done, t) || order.depth >= table.len() || !is_ready(&order.done, info) {
        return;
    }
    order.values[t] = info_measure(unsound, &order.values, info);
    order.done[t] = true;
    order.depth += 1;
}

impl Order {
    /// Whether all types are done.
    #[tactic(auto, using(crate::proofs::Orders::all_done))]
    pub fn is_whole(&self) -> bool
        ensures { IsTrue result → (t : ℕ) → IsTrue (is_done self.now.done.items t) }
    {
        'types: for done in self.done.as_slice() {
            if !*done {
                return false;
            }
        }
        true
    }
}
