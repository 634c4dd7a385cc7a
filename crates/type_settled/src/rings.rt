//! Rings: types that are made of one another, and so have themselves in them.
ghost use Rattle.std.specs.Prelude.{IfOk};
ghost use Rattle.type_settled.specs.Rings.{AreInRings, AreInRoots, HaveRoots};

use crate::downward::downward;
use crate::measure::is_marked;
use crate::roots::{mark, ring_roots, roots};
use crate::upward::upward;
use std::alloc::{AllocError, Global};
use type_definitions::Info;

/// Whether a type but the first may be in a ring.
fn has_rings(lone: &[bool]) -> bool {
    'types: for t in 1..lone.len() {
        if !is_marked(lone, t) {
            return true;
        }
    }
    false
}

/// The types that have the root of their ring in them and are in it, but for subtypes.
fn in_both(
    alloc: Global,
    table: &[Info],
    roots: &[usize],
    up: &[bool],
    down: &[bool],
) -> Result<Vec<bool>, AllocError>
    requires up { HaveRoots table.now roots.now up.now }
    requires down { AreInRoots table.now roots.now down.now }
    ensures { IfOk result (λ made. AreInRings table.now made.items) }
{
    let mut made = vec![in alloc; false; table.len()]?;
    'types: for (t, info) in table.iter().enumerate() {
        if info.base as usize == t && is_marked(up, t) && is_marked(down, t) {
            mark(&mut made, t);
        }
    }
    Ok(made)
}

/// Types that have themselves in them: those in rings, found for all rings at once, in time linear
/// in the table. Lone types aren't looked at.
pub fn in_rings(
    alloc: Global,
    table: &[Info],
    ranks: &[u32],
    lone: &[bool],
) -> Result<Vec<bool>, AllocError>
    ensures { IfOk result (λ made. AreInRings table.now made.items) }
{
    if !has_rings(lone) {
        return Ok(Vec::new(alloc));
    }
    let roots = roots(alloc, ranks)?;
    let up = upward(alloc, table, &roots, ring_roots(alloc, &roots, lone)?)?;
    let down = downward(alloc, table, &roots, ring_roots(alloc, &roots, lone)?)?;
    in_both(alloc, table, &roots, &up, &down)
}
