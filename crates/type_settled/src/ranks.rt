//! Ranks of types: none is made of a type with a greater rank.
ghost use Rattle.std.specs.Prelude.{◌≡◌, ◌<◌, ◌^◌, IfOk, IsTrue};
ghost use Rattle.type_settled.specs.Holding.{AreLone};
ghost use Rattle.type_settled.specs.Orders.{all_ready, shape_ready, parent_ready, is_ready};
ghost use Rattle.type_settled.specs.Ranks.{AreRanks, is_lower, rank};

use crate::links::{Way, links};
use crate::walk::Walk;
use std::alloc::{AllocError, Global};
use type_definitions::{Component, Info, Shape};

/// The types, each after those that are made of it, except where two are made of one another.
fn left_upwards(alloc: Global, table: &[Info]) -> Result<Vec<usize>, AllocError> {
    let mut up = Walk::new(alloc, links(alloc, table, Way::Up)?, table.len())?;
    let mut left = Vec::new(alloc);
    'types: for t in 0..table.len() {
        up.walk(t, &mut left)?;
    }
    Ok(left)
}

/// Gives a rank to some types.
fn give(ranks: &mut Vec<u32>, types: &[usize], rank: u32) {
    'types: for t in types {
        if let Some(given) = ranks.get_mut(*t) {
            *given = rank;
        }
    }
}

/// The ranks of all types, by the rings that they are in.
fn ranks_by_rings(alloc: Global, table: &[Info]) -> Result<Vec<u32>, AllocError> {
    let mut ranks = vec![in alloc; 0; table.len()]?;
    let mut down = Walk::new(alloc, links(alloc, table, Way::Down)?, table.len())?;
    let mut rank = 0u32;
    'types: for t in left_upwards(alloc, table)?.iter().rev() {
        let mut ring = Vec::new(alloc);
        down.walk(*t, &mut ring)?;
        give(&mut ranks, &ring, rank);
        rank = rank.saturating_add(1);
    }
    Ok(ranks)
}

/// Whether a type is made of no other one.
fn is_plain(info: &Info) -> bool {
    match info.shape {
        Shape::Whole { .. } | Shape::Listed { .. } | Shape::Access { .. } => info.parent.is_none(),
        _ => false,
    }
}

/// Ranks in the order of the table, the lowest for all types that are made of no other one.
fn ranks_in_order(alloc: Global, table: &[Info]) -> Result<Vec<u32>, AllocError> {
    let mut ranks = Vec::new(alloc);
    let mut rank = 0u32;
    'types: for info in table {
        rank = rank.saturating_add(1);
        ranks.push(if is_plain(info) { 0 } else { rank })?;
    }
    Ok(ranks)
}

/// Whether each type is made of types with a lower rank alone.
fn are_rising(table: &[Info], ranks: &[u32]) -> bool {
    'types: for (t, info) in table.iter().enumerate() {
        if !parts_lower(ranks, rank(ranks, t), info) {
            return false;
        }
    }
    true
}

/// The ranks of all types. Those that are made of one another have the same. Mostly each type
/// stands after what it is made of.
pub(crate) fn ranks(alloc: Global, table: &[Info]) -> Result<Vec<u32>, AllocError> {
    let ranks = ranks_in_order(alloc, table)?;
    if are_rising(table, &ranks) {
        return Ok(ranks);
    }
    ranks_by_rings(alloc, table)
}

/// The rank of a type.
fn rank(ranks: &[u32], t: usize) -> u64
    ensures value { result ≡ rank ranks.now t }
    ensures small { result < 2 ^ 32 }
{
    match ranks.get(t) {
        Some(rank) => u64::from(*rank),
        None => 0,
    }
}

/// Whether the rank of a type is below this one.
fn is_lower(ranks: &[u32], limit: u64, t: u32) -> bool
    ensures { result ≡ is_lower ranks.now limit t }
{
    rank(ranks, t as usize) < limit
}

/// Whether the ranks of all components' types are below this one.
fn all_lower(ranks: &[u32], limit: u64, components: &[Component]) -> bool
    ensures { result ≡ all_ready (is_lower ranks.now limit) components.now }
{
    'components: for component in components {
        if !is_lower(ranks, limit, component.of) {
            return false;
        }
    }
    true
}

/// Whether the ranks of the types that this definition is made of are below this one.
fn shape_lower(ranks: &[u32], limit: u64, shape: &Shape) -> bool
    ensures { result ≡ shape_ready (is_lower ranks.now limit) shape.now }
{
    match shape {
        Shape::Fields { components } => all_lower(ranks, limit, components.as_slice()),
        Shape::Elements { element, .. } => is_lower(ranks, limit, *element),
        Shape::Same { of } => is_lower(ranks, limit, *of),
        Shape::Whole { .. } | Shape::Listed { .. } | Shape::Access { .. } => true,
    }
}

/// Whether the rank of the type in a mark is below this one.
fn parent_lower(ranks: &[u32], limit: u64, parent: Option<u32>) -> bool
    ensures { result ≡ parent_ready (is_lower ranks.now limit) parent }
{
    match parent {
        Some(t) => is_lower(ranks, limit, t),
        None => true,
    }
}

/// Whether all that a type is made of has a rank below this one.
fn parts_lower(ranks: &[u32], limit: u64, info: &Info) -> bool
    ensures { result ≡ is_ready (is_lower ranks.now limit) info.now }
{
    shape_lower(ranks, limit, &info.shape) && parent_lower(ranks, limit, info.parent)
}

/// Whether no type is made of one with a greater rank, or a subtype of one.
fn are_ranks(table: &[Info], ranks: &[u32]) -> bool
    ensures { IsTrue result → AreRanks table.now ranks.now }
{
    'types: for (t, info) in table.iter().enumerate() {
        let limit = rank(ranks, t) + 1;
        if !parts_lower(ranks, limit, info) || !is_lower(ranks, limit, info.base) {
            return false;
        }
    }
    true
}

/// The types that are made of types with a lower rank alone.
fn lower_alone(alloc: Global, table: &[Info], ranks: &[u32]) -> Result<Vec<bool>, AllocError>
    requires { AreRanks table.now ranks.now }
    ensures { IfOk result (λ made. AreLone table.now made.items) }
{
    let mut made = vec![in alloc; false; table.len()]?;
    'types: for (t, info) in table.iter().enumerate() {
        if parts_lower(ranks, rank(ranks, t), info) {
            made[t] = true;
        }
    }
    Ok(made)
}

/// Types that don't have themselves in them: all but those in rings, in time linear in the table.
/// Of the first it isn't said, and of none where these aren't the ranks.
pub fn lone(alloc: Global, table: &[Info], ranks: &[u32]) -> Result<Vec<bool>, AllocError>
    ensures { IfOk result (λ made. AreLone table.now made.items) }
{
    if are_ranks(table, ranks) {
        lower_alone(alloc, table, ranks)
    } else {
        Ok(Vec::new(alloc))
    }
}
